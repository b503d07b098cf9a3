//! The run of an algorithm that is a text: its drawing, and its steps.

pub(crate) mod event_list;
pub mod laws;
pub mod page;
pub(crate) mod remote_marks;
pub mod row;
pub(crate) mod row_collector;
pub mod run_diagram;
pub mod step_by_step;
pub mod step_objects;
