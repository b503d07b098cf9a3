//! Why a call was refused.

ghost use Rattle.std.specs.Prelude.{◌≡◌};
ghost use Rattle.rmecore.specs.declared.refusal.Refusal.TheVariants.{OutOfMemory};

use std::alloc::{AllocError, AllocFailed};
use std::error::Error;
use std::fmt;

/// Why a call was refused. A refused call changes nothing. If a call has several causes, the first in the order of its own
/// refusals is named. Out of memory is the last of them.
#[derive(Clone, Copy, Debug, PartialEq, Eq)]
pub enum Refusal {
    BadProcs,
    BadLimit,
    NoSuchProcess,
    /// The caller has to step the call under way to its end, or crash the process.
    CallUnderWay,
    /// POSIX answers EPERM here.
    NotOwner,
    AlreadyIn,
    NothingToDo,
    BadCap,
    BadImage { rule: u64 },
    /// The holder entered in line, or has already mended. POSIX answers EINVAL here.
    NotInconsistent,
    BadShape,
    /// The holder's lock answered that the owner died. It has to mend first.
    Unmended,
    BadIndex,
    /// The process has no lock that waits, so there is nothing to withdraw.
    NotWaiting,
    BadWidth,
    /// An allocation failed. The call may be tried again.
    OutOfMemory,
}

impl Refusal {
    ghost use Rattle.rmecore.specs.Refused.{number_of};

    /// The refusal's number, 1 to 15, as docs/use/errors.md has it. `OutOfMemory` has none.
    pub fn number(self) -> Option<u64>
        ensures { result ≡ number_of self }
    {
        match self {
            Refusal::BadProcs => Some(1),
            Refusal::BadLimit => Some(2),
            Refusal::NoSuchProcess => Some(3),
            Refusal::CallUnderWay => Some(4),
            Refusal::NotOwner => Some(5),
            Refusal::AlreadyIn => Some(6),
            Refusal::NothingToDo => Some(7),
            Refusal::BadCap => Some(8),
            Refusal::BadImage { .. } => Some(9),
            Refusal::NotInconsistent => Some(10),
            Refusal::BadShape => Some(11),
            Refusal::Unmended => Some(12),
            Refusal::BadIndex => Some(13),
            Refusal::NotWaiting => Some(14),
            Refusal::BadWidth => Some(15),
            Refusal::OutOfMemory => None,
        }
    }
}

impl From<AllocError> for Refusal {
    ghost from_gives = { λ _ e. e ≡ OutOfMemory };

    fn from(_e: AllocError) -> Refusal {
        Refusal::OutOfMemory
    }
}

impl<T: Drop> From<AllocFailed<T>> for Refusal {
    ghost from_gives = { λ _ e. e ≡ OutOfMemory };

    fn from(_e: AllocFailed<T>) -> Refusal {
        Refusal::OutOfMemory
    }
}

impl fmt::Display for Refusal {
    fn fmt<W: fmt::Write>(&self, f: &mut fmt::Formatter<W>) -> fmt::Result {
        let text = match self {
            Refusal::BadProcs => "the number of processes is not 1 to 64",
            Refusal::BadLimit => "the limit of numbers is not 1 to 2^62",
            Refusal::NoSuchProcess => "there is no such process",
            Refusal::CallUnderWay => "a call of the process is under way",
            Refusal::NotOwner => "the process is not in the section",
            Refusal::AlreadyIn => "the process is in the section already",
            Refusal::NothingToDo => "no call of the process is under way",
            Refusal::BadCap => "the capacity of the mailbox is not 1 to 65536",
            Refusal::BadImage { rule } => return write!(f, "the image breaks rule {rule}"),
            Refusal::NotInconsistent => "the process holds nothing that has to be mended",
            Refusal::BadShape => "the words are not those of a mailbox",
            Refusal::Unmended => "the process has not mended what it found",
            Refusal::BadIndex => "there is no word with this index",
            Refusal::NotWaiting => "the process does not wait for the lock",
            Refusal::BadWidth => "the number of words is not one that is allowed here",
            Refusal::OutOfMemory => "out of memory",
        };
        f.write_str(text)
    }
}

impl Error for Refusal {}
