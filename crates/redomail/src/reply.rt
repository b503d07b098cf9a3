//! The replies of tasks.

/// A task's reply. It comes with the task's last step.
#[derive(Clone, Copy, Debug, PartialEq, Eq)]
pub enum Reply {
    /// The message is committed and shown.
    Stored,
    /// A message of the sender with this number is there already. Nothing was stored.
    Already,
    /// The number is 0, or above the sender's next one.
    OutOfOrder,
    /// All places are in use.
    Full,
    /// The mailbox is closed.
    Closed,
    /// This call closed the mailbox.
    ClosedNow,
    /// The mailbox was closed before this call.
    AlreadyClosed,
    /// The repair is done. True: it completed an append that a crash had interrupted.
    Mended(bool),
    /// The board word's value.
    Word(u64),
    /// The board word is written, or the lock is ruined.
    Done,
    /// True: the lock is ruined.
    Ruined(bool),
}
