//! The answers of a process's calls.

use redomail::Reply;
use rmecore::Found;

/// A call's answer. It comes with the call's last step.
#[derive(Clone, Copy, Debug, PartialEq, Eq)]
pub enum Answer {
    /// A lock: inside, with nothing to mend.
    Clean,
    /// A lock: inside again after a crash inside (POSIX: the owner died). The caller has to mend first.
    OwnerDied,
    /// A lock: a number read in the doorway was the limit. The process is at rest.
    NumbersSpent,
    /// The lock is ruined, and the process does not hold it after a lock. After a `consistent` it still does.
    NotRecoverable,
    Unlocked,
    Found(Found),
    Mail(Reply),
    Withdrawn,
}
