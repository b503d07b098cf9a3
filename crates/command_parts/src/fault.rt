//! Why a command has no verdict.

ghost use Rattle.std.specs.Prelude.{◌≡◌, ◌≤◌};
ghost use Rattle.command_parts.specs.declared.fault.CommandFault.TheVariants.{OutOfMemory};
ghost use Rattle.command_parts.specs.Statuses.{fault_of_replay, fault_of_text};

use crate::states::states_fault::StatesFault;
use algorithm_texts::FaultDetail;
use algorithms::ReadFault;
use schedule::{OutOfMemory as NoMemory, ReplayFault, TextFault};
use std::alloc::{AllocError, AllocFailed};
use thiserror::Error;

/// Why a command has no verdict. `line_of` spells its one line on standard error.
#[derive(Clone, Copy, Debug, PartialEq, Eq, Error)]
pub enum CommandFault {
    /// This line of the text can't be read; lines count from 1. The number is that of the line's fault.
    #[error("line {line}: fault {number}")]
    Text {
        line: u64,
        number: u64,
    },
    /// The world refuses this line. The number is that of the refusal.
    #[error("line {line}: refused {number}")]
    Refused {
        line: u64,
        number: u64,
    },
    /// The world of an algorithm refuses this line, since a value would leave its range at this line of the algorithm's text.
    #[error("line {line}: refused 16: out of range at algorithm line {algorithm_line}")]
    OutOfRange {
        line: u64,
        algorithm_line: u64,
    },
    /// The image breaks this rule.
    #[error("image: rule {rule}")]
    Image {
        rule: u64,
    },
    /// This line of the algorithm's text is at fault; lines count from 1. More may be said of it.
    #[error("algorithm line {line}: {fault}")]
    Algorithm {
        line: u64,
        fault: ReadFault,
        detail: Option<FaultDetail>,
    },
    /// This line of a text of states is at fault; lines count from 1.
    #[error("states line {line}: {fault}")]
    States {
        line: u64,
        fault: StatesFault,
    },
    /// There is no such variant, it isn't `right` beside an image, or it, an image or a file for the last image is beside an
    /// algorithm.
    #[error("bad variant")]
    BadVariant,
    /// A number is outside its range or beside what it doesn't go with, a call of `explore` or a tool of `states` is none, or the
    /// algorithm is not for this number of processes.
    #[error("bad size")]
    BadSize,
    /// There is no such file, or reading from a device failed.
    #[error("read failed")]
    Read,
    /// Writing to a device failed.
    #[error("write failed")]
    Write,
    #[error("out of memory")]
    OutOfMemory,
    /// This sender of a run could not go on.
    #[error("member {p} failed")]
    Member {
        p: u64,
    },
    /// A search has reached more states than it may keep.
    #[error("too many states")]
    TooManyStates,
}

impl CommandFault {
    ghost use Rattle.command_parts.specs.Statuses.{status_of};

    /// The exit status: 2 for a fault of the input; 3 for a fault of a device, of memory or of a member, and for too many
    /// states in a search.
    pub fn status(self) -> u8
        ensures reports { result ≡ status_of self }
        ensures least { 2 ≤ result }
    {
        match self {
            CommandFault::Text { .. }
            | CommandFault::Refused { .. }
            | CommandFault::OutOfRange { .. }
            | CommandFault::Image { .. }
            | CommandFault::Algorithm { .. }
            | CommandFault::States { .. }
            | CommandFault::BadVariant
            | CommandFault::BadSize => 2,
            CommandFault::Read
            | CommandFault::Write
            | CommandFault::OutOfMemory
            | CommandFault::Member { .. }
            | CommandFault::TooManyStates => 3,
        }
    }
}

impl From<AllocError> for CommandFault {
    ghost from_gives = { λ _ e. e ≡ OutOfMemory };

    fn from(_e: AllocError) -> CommandFault {
        CommandFault::OutOfMemory
    }
}

impl<T: Drop> From<AllocFailed<T>> for CommandFault {
    ghost from_gives = { λ _ e. e ≡ OutOfMemory };

    fn from(_e: AllocFailed<T>) -> CommandFault {
        CommandFault::OutOfMemory
    }
}

impl From<TextFault> for CommandFault {
    ghost from_gives = { λ fault e. e ≡ fault_of_text fault };

    fn from(fault: TextFault) -> CommandFault {
        match fault {
            TextFault::At { line, number } => CommandFault::Text { line, number },
            TextFault::OutOfMemory => CommandFault::OutOfMemory,
        }
    }
}

impl From<ReplayFault> for CommandFault {
    ghost from_gives = { λ fault e. e ≡ fault_of_replay fault };

    fn from(fault: ReplayFault) -> CommandFault {
        match fault {
            ReplayFault::Text { line, number } => CommandFault::Text { line, number },
            ReplayFault::Refused { line, number } => CommandFault::Refused { line, number },
            ReplayFault::Read => CommandFault::Read,
            ReplayFault::Write => CommandFault::Write,
            ReplayFault::OutOfMemory => CommandFault::OutOfMemory,
        }
    }
}

impl From<NoMemory> for CommandFault {
    ghost from_gives = { λ _ e. e ≡ OutOfMemory };

    fn from(_fault: NoMemory) -> CommandFault {
        CommandFault::OutOfMemory
    }
}
