//! The running lock: members that step over the words of one atomic table. Each has a view, a prefix of one run.
//!
//! Main items: `Arena`, `Member`, `laws`.
#![tactic(auto)]

pub mod access;
pub mod arena;
pub mod call;
pub mod lab;
pub mod laws;
pub mod mailbox_calls;
pub mod member;
pub mod member_gather;

pub use arena::Arena;
pub use lab::{Gate, LabFault, LabResult, Spec, run_lab};
pub use member::Member;
pub use member_gather::gather;
pub use one_lock;
pub use table_runs::{Entry, GatherFault, LockFault, Setup};
