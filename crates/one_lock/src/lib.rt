//! The plain reference of the running lock: one simulated world under one mutex. Each step of the world takes the mutex
//! once.
//!
//! It answers as the running lock does, and asks its plans as often. Whenever its mutex is free, some run has as many steps
//! as the ledger's book counts, has the stored history as its deeds, and ends in the world under the mutex.
//!
//! Main items: `Arena`, `Member`, `run_lab`.
#![tactic(auto)]

pub mod arena;
mod calls;
pub mod lab;
mod mailbox_calls;
pub mod member;
pub mod member_gather;
pub mod member_state;
mod opening;
mod own_process;
mod shared;
pub mod sizes;
mod turn;

pub use arena::Arena;
pub use lab::run_lab;
pub use member::Member;
pub use member_gather::gather;
pub use member_state::MemberState;
pub use sizes::{AnySizes, Sizes};
pub use table_runs::{Entry, GatherFault};
