//! Why a member's call has no answer.

use thiserror::Error;

/// Why a member's call has no answer. The names are those of POSIX robust mutexes; `Crashed` and `NotYet` are added.
#[derive(Clone, Copy, Debug, PartialEq, Eq, Error)]
pub enum LockFault {
    /// The crash plan made the process crash: its private memory is lost. Its next lock or recovery rereads its own words.
    #[error("the process crashed")]
    Crashed,
    /// The call met one blocked reading more than the turns that it was given. The process keeps its place in the line: its
    /// next lock waits on with the same number, and a withdraw gives the place up.
    #[error("not yet")]
    NotYet,
    /// A number that was read in the doorway is the limit, so no number was taken. The process is at rest.
    #[error("the numbers are spent")]
    NumbersSpent,
    /// The lock is ruined for good (POSIX: ENOTRECOVERABLE).
    #[error("the lock can't be recovered")]
    NotRecoverable,
    /// The process is in the section already.
    #[error("the process is in the section")]
    AlreadyIn,
    /// The process isn't in the section (POSIX: EPERM). For a withdraw: it isn't waiting in the line.
    #[error("the process isn't the owner")]
    NotOwner,
    /// This process has nothing to mend (POSIX: EINVAL).
    #[error("the process has nothing to mend")]
    NotInconsistent,
    /// The board has no word with this index.
    #[error("no such word of the board")]
    BadIndex,
    /// Out of memory. No call of the running lock answers this.
    #[error("out of memory")]
    OutOfMemory,
    /// The value has another width than the messages of the arena.
    #[error("a value of another width")]
    BadWidth,
}
