//! A whole world: processes over lock words and data words, their calls and answers, the history of deeds, and images.
//!
//! Main items: `World`, `Process`, `Image`.
#![tactic(auto)]

pub mod answer;
pub mod call;
pub mod cells;
mod history;
pub mod image;
pub mod laws;
mod lock_part;
pub mod machine;
pub mod memory;
pub mod outcome;
pub mod owns;
pub mod private_memory;
pub mod process;
pub mod purpose;
pub mod readiness;
pub mod script_state;
pub mod size;
pub mod stepped;
pub mod world;

pub use answer::Answer;
pub use call::Call;
pub use cells::DataWords;
pub use image::Image;
pub use image::image_reader::read_image;
pub use image::image_start::start_of;
pub use image::image_widener::widen;
pub use image::image_writer::write_image;
pub use image::rules::first_rule;
pub use machine::Machine;
pub use outcome::Outcome;
pub use owns::Owns;
pub use private_memory::PrivateMemory;
pub use process::Process;
pub use stepped::Stepped;
pub use world::World;
