//! The script state of a process that is inside: what it does with the data words.

/// What a process that is inside does next with the data words, and what it has read so far. The words of the message are
/// kept beside it, in `RmeProcess::value`.
#[derive(Clone, Copy)]
pub enum ScriptPosition {
    /// A `consistent` reads whether the lock is ruined.
    Asking,
    /// A lock reads that after its entry: the ruin check.
    Checking,
    /// An unlock of an unmended holder ruins the lock before it leaves.
    Ruining,
    /// A repair reads whether the record is armed.
    Armed,
    /// It reads the record's place.
    At,
    /// It reads the record's sequence number.
    Seq { at: u64 },
    /// It reads the words of the record's value, of which it has read `read`.
    Value { at: u64, seq: u64, read: u64 },
    /// It stores the record again: `step` steps of storing are done.
    Redo { at: u64, seq: u64, step: u64 },
    /// An append reads whether the mailbox is closed.
    Closed { seq: u64 },
    /// It reads count.
    Count { seq: u64, closed: u64 },
    /// It reads the sender's last number.
    Last { seq: u64, closed: u64, count: u64 },
    /// It stores the message: `step` steps of storing are done.
    Store { at: u64, seq: u64, step: u64 },
    /// A close reads whether the mailbox is closed.
    Closing,
    /// It closes the mailbox.
    Close,
    /// A holder reads a word of the board.
    Getting { i: u64 },
    /// A holder writes a word of the board.
    Putting { i: u64, v: u64 },
}
