//! The lock: a recoverable, first-come first-served Bakery. This crate has its definitions, the laws over every run, and the
//! lock's core in simulation.
//!
//! Main items: `LockProcess`, `Core`, `laws`.
#![tactic(auto)]

pub mod access;
pub mod body;
pub mod core_call;
pub mod core_done;
pub mod fault;
pub mod found;
pub mod happened;
pub mod kind;
pub mod laws;
mod memory;
pub mod outer;
pub mod own;
pub mod phase;
pub mod process;
pub mod progress;
pub mod refusal;
mod restart;
pub mod rules;
pub mod scan;
pub mod simulated;
pub mod stage;
pub mod tally;
pub mod word;
pub mod words;

pub use access::Access;
pub use body::Body;
pub use core_call::CoreCall;
pub use core_done::CoreDone;
pub use fault::Fault;
pub use found::Found;
pub use happened::Happened;
pub use kind::Kind;
pub use outer::Outer;
pub use own::Own;
pub use phase::Phase;
pub use process::LockProcess;
pub use progress::Progress;
pub use refusal::Refusal;
pub use scan::Scan;
pub use simulated::Core;
pub use stage::Stage;
pub use tally::Tally;
pub use word::Word;
