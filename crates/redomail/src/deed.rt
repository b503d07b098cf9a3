//! The deeds of a run.

use rmecore::{Body, Outer};

/// A deed of the lock or of its mailbox: a step that other processes can observe. `Commit` and `Show` carry the record's
/// number and value as the data words have them at that step, not as the process's private memory has them.
#[derive(Clone, Copy, Debug, PartialEq, Eq)]
pub enum Deed {
    /// A deed of the lock.
    Outer(Outer),
    /// Commits a message. No crash can lose it any more.
    Commit { p: u64, seq: u64, v: Body },
    /// Shows the committed message at place `at` of the mailbox.
    Show { p: u64, at: u64, seq: u64, v: Body },
    /// Closes the mailbox. It takes no more messages.
    Close { p: u64 },
    /// Ruins the lock. It is unusable for good.
    Ruin { p: u64 },
}
