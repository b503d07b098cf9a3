//! The answers of the lock's core.

use crate::found::Found;

/// The core's answer to a call. The last step of the core's part of the call carries it.
#[derive(Clone, Copy, Debug, PartialEq, Eq)]
pub enum CoreDone {
    /// Entered by waiting in line.
    In,
    /// Entered again, after a crash inside.
    InAgain,
    /// A number read in the doorway was the limit, so no number was taken.
    Spent,
    Out,
    Found(Found),
    Withdrawn,
}
