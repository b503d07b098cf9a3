//! The mailbox: a redo record and a list of places in data words, and the tasks that write them, one load or store at a
//! time.
//!
//! Main items: `Task`, `Job`, `Layout`.
#![tactic(auto)]

pub mod append;
pub mod cells;
pub mod contents;
pub mod deed;
pub mod job;
pub mod laws;
pub mod layout;
pub mod message;
pub mod next;
pub mod record;
pub mod reply;
pub mod stage;
pub mod task;

pub use cells::{Cells, Stop, run_task};
pub use contents::content;
pub use deed::Deed;
pub use job::Job;
pub use layout::Layout;
pub use message::Message;
pub use next::Next;
pub use reply::Reply;
pub use task::Task;
