//! Why the work wasn't done.

use robust::LockFault;
use thiserror::Error;

/// Why the work wasn't done.
#[derive(Clone, Copy, Debug, PartialEq, Eq, Error)]
pub enum RunningJudgeFault {
    #[error("out of memory")]
    OutOfMemory,
    /// A call of a member had a fault.
    #[error("{0}")]
    Lock(LockFault),
    /// A message wasn't stored.
    #[error("a message was refused")]
    Refused,
}
