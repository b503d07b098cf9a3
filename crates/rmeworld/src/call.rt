//! The calls of a process.

use rmecore::Body;

/// A call of a process. The names are those of POSIX robust mutexes, and those of the mailbox and its board.
#[derive(Clone, Copy, Debug, PartialEq, Eq)]
pub enum Call {
    /// Enters the section, also after a crash. After a crash inside the answer is `OwnerDied`.
    Lock,
    /// Leaves the section. A holder that entered again and has not mended ruins the lock by it.
    Unlock,
    /// Mends the mailbox after a crash inside.
    Consistent,
    /// Finds out what the process was doing when it crashed. It never waits.
    Recover,
    /// Stores a message. `seq` is its sender's number for it, from 1. `value` has the world's width.
    Append { seq: u64, value: Body },
    /// Closes the mailbox.
    Close,
    /// Reads the board word at an index, 0 to 3.
    Get(u64),
    /// Writes a value (second) to the board word at an index (first), 0 to 3.
    Put(u64, u64),
    /// Gives up a lock that waits. The call replaces that lock.
    Withdraw,
}
