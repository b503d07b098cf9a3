//! Runs of the shared table: the one run of an arena, the view that each seat has of it, and the rule that every step
//! keeps.
//! Only `Entry`, `LockFault`, `Setup` and what labs share exist at run time. The rest is used by contracts and proofs.
//!
//! Main items: `Setup`, `Entry`, `LockFault`.
#![tactic(auto)]

pub mod entry;
pub mod entry_kind;
pub mod gather_fault;
pub mod lab;
pub mod lock_fault;
pub mod setup;

pub use entry_kind::Entry;
pub use gather_fault::GatherFault;
pub use lock_fault::LockFault;
pub use setup::Setup;
