//! The tasks of the mailbox.

use rmecore::Body;

/// A call on the data words by the process inside.
#[derive(Clone, Copy, Debug, PartialEq, Eq)]
pub enum Task {
    /// Stores a message. `seq` is its sender's number for it, from 1.
    Append { seq: u64, value: Body },
    /// Closes the mailbox for good.
    Close,
    /// Completes an append that a crash interrupted after its commit.
    Repair,
    /// Reads the board word at an index, 0 to 3.
    BoardGet(u64),
    /// Writes a value (second) to the board word at an index (first), 0 to 3.
    BoardPut(u64, u64),
    /// Ruins the lock: it is unusable for good.
    Ruin,
    /// Reads whether the lock is ruined.
    Check,
}
