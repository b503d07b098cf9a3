//! Why a lab has no result.

use crate::LockFault;
use redomail::Reply;
use thiserror::Error;

/// Why a lab has no result. `BadSpec` and `OutOfMemory` come first, then the fault of the worker with the least number of
/// those that ended early.
#[derive(Clone, Copy, Debug, PartialEq, Eq, Error)]
pub enum LabFault {
    /// A size is outside its limits, or the number of gates isn't that of the workers. Nothing was run.
    #[error("bad spec")]
    BadSpec,
    /// Memory was refused, or a thread could not be made.
    #[error("out of memory")]
    OutOfMemory,
    /// The fault that ended worker p.
    #[error("worker {p}: {fault}")]
    Member { p: u64, fault: LockFault },
    /// The reply that ended worker p: neither Stored nor Already.
    #[error("worker {p}: reply {reply:?}")]
    Reply { p: u64, reply: Reply },
}
