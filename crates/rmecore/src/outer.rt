//! The deeds of the lock.

/// A deed of the lock: what other processes can observe of a step. The number is the process that does it.
#[derive(Clone, Copy, Debug, PartialEq, Eq)]
pub enum Outer {
    /// Begins the doorway, and with it a super-passage.
    Begin(u64),
    /// Finishes the doorway: the process has a number.
    Ready(u64),
    Enter(u64),
    /// Loses its private memory.
    Crash(u64),
    /// Enters again after a crash inside.
    Reenter(u64),
    Leave(u64),
    /// Ends the super-passage without an entry: by a withdraw, or because the numbers are spent.
    Quit(u64),
}
