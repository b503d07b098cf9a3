//! Why the members of an arena were not gathered.

use thiserror::Error;

/// Why the members of an arena were not gathered. `gather` hands them back with it.
#[derive(Clone, Copy, Debug, PartialEq, Eq, Error)]
pub enum GatherFault {
    #[error("some members of the arena are missing")]
    NotAll,
    /// The members may be gathered again.
    #[error("out of memory")]
    OutOfMemory,
}
