//! How a worker of a lab ended.

use crate::LockFault;
use redomail::Reply;

/// How a worker ended.
#[derive(Clone, Copy, Debug, PartialEq, Eq)]
pub enum WorkerEnd {
    /// Each of its messages was answered Stored or Already.
    AllSent,
    /// A call ended with a fault.
    Fault(LockFault),
    /// A call was answered by another reply.
    Refused(Reply),
}
