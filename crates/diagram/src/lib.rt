//! A schedule's run as a space-time diagram: rows that a machine's steps make, and their spelling as text and as SVG.
//!
//! Main items: `Drawing`, `draw`, `Session`.
#![tactic(auto)]

pub mod act;
pub mod algorithm;
mod bars;
mod blocked;
mod columns;
mod deed_verdict;
pub mod diagram_layout;
pub mod drawing;
mod drawing_writer;
mod following_lines;
mod frame;
mod lifeline_state;
mod lifelines;
mod lock_marks;
mod lock_words;
pub mod mark;
mod marked_steps;
mod page;
mod page_parts;
pub mod page_text;
pub mod phase;
mod picture;
mod places;
mod remote_marks;
mod row_collector;
pub mod session;
pub mod shown_row;
mod signs;
mod step_by_step;
mod step_lines;
mod stop;

pub use act::{DiagramRow, RowAct};
pub use algorithm::page::write_algorithm_page;
pub use algorithm::run_diagram::draw_algorithm;
pub use algorithm::step_by_step::follow_algorithm;
pub use algorithm::step_objects::follow_algorithm_as_lines;
pub use diagram_layout::Style;
pub use drawing::{Drawing, End, draw};
pub use drawing_writer::write_drawing;
pub use following_lines::follow_as_lines;
pub use page::write_page;
pub use phase::LifelinePhase;
pub use session::{LockSimulation, Request, Session, SessionReply, Simulation};
pub use step_by_step::follow;
pub use step_lines::put_verdict_object;
