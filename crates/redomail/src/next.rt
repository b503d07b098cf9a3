//! The next access of a job.

use crate::reply::Reply;

/// What a job needs next from its caller.
#[derive(Clone, Copy, Debug, PartialEq, Eq)]
pub enum Next {
    /// Load the data word at this index.
    Get(u64),
    /// Store this value (second) into the data word at this index (first).
    Put(u64, u64),
    /// Nothing more. This is the reply.
    Done(Reply),
}
