//! Why a text is no algorithm.

ghost use Rattle.std.specs.Prelude.{◌≡◌};
ghost use Rattle.algorithms.specs.declared.fault.AlgorithmFault.TheVariants.{OutOfMemory as ReadingOutOfMemory};
ghost use Rattle.algorithms.specs.declared.fault.ReadFault.TheVariants.{OutOfMemory as LineOutOfMemory};

use std::alloc::{AllocError, AllocFailed};
use std::fmt;
use thiserror::Error;

/// Why a text could not be read.
#[derive(Clone, Copy, Debug, PartialEq, Eq, Error)]
pub enum AlgorithmFault {
    /// A faulty line, counted from 1, and the number of its fault, from 1 to 18.
    #[error("line {line}: fault {number}")]
    At { line: u64, number: u64 },
    #[error("out of memory")]
    OutOfMemory,
}

/// What is wrong with a line of an algorithm's text.
#[derive(Clone, Copy, Debug, PartialEq, Eq)]
pub enum ReadFault {
    NoHeader,
    BadCharacter,
    NoNewline,
    BadForm,
    NameTaken,
    UnknownName,
    TwoAccesses,
    NotAssignable,
    BadBlock,
    BadLabel,
    Unset,
    Endless,
    NoStep,
    FallsOff,
    BadDeed,
    TooBig,
    BadCall,
    NeverReached,
    OutOfMemory,
}

impl ReadFault {
    ghost use Rattle.algorithms.specs.Faults.{fault_of};

    /// This fault of this line.
    pub fn at(self, line: u64) -> AlgorithmFault
        ensures { result ≡ fault_of line self }
    {
        let number = match self {
            ReadFault::NoHeader => 1,
            ReadFault::BadCharacter => 2,
            ReadFault::NoNewline => 3,
            ReadFault::BadForm => 4,
            ReadFault::NameTaken => 5,
            ReadFault::UnknownName => 6,
            ReadFault::TwoAccesses => 7,
            ReadFault::NotAssignable => 8,
            ReadFault::BadBlock => 9,
            ReadFault::BadLabel => 10,
            ReadFault::Unset => 11,
            ReadFault::Endless => 12,
            ReadFault::NoStep => 13,
            ReadFault::FallsOff => 14,
            ReadFault::BadDeed => 15,
            ReadFault::TooBig => 16,
            ReadFault::BadCall => 17,
            ReadFault::NeverReached => 18,
            ReadFault::OutOfMemory => return AlgorithmFault::OutOfMemory,
        };
        AlgorithmFault::At { line, number }
    }

    /// What it says to a reader.
    fn text(self) -> &'static str {
        match self {
            ReadFault::NoHeader => "the first line is no header, or the second names no promises",
            ReadFault::BadCharacter => "a character that means nothing here",
            ReadFault::NoNewline => "the last line is not ended by a line feed",
            ReadFault::BadForm => "no line has this form",
            ReadFault::NameTaken => "the name is taken",
            ReadFault::UnknownName => "there is no such name",
            ReadFault::TwoAccesses => "a second access in one line",
            ReadFault::NotAssignable => "this cannot be set",
            ReadFault::BadBlock => "an `end`, an `else` or a `call` in the wrong place",
            ReadFault::BadLabel => "there is no such label, or not from here",
            ReadFault::Unset => "a name may be read before it is set",
            ReadFault::Endless => "lines can go round without a step",
            ReadFault::NoStep => "this can come before the first step of the call",
            ReadFault::FallsOff => "the call can go past its last line",
            ReadFault::BadDeed => "a deed does not fit, or `enter` or `leave` is missing",
            ReadFault::TooBig => "a limit is passed",
            ReadFault::BadCall => "the calls do not fit together",
            ReadFault::NeverReached => "no run comes to this line",
            ReadFault::OutOfMemory => "out of memory",
        }
    }
}

impl fmt::Display for ReadFault {
    fn fmt<W: fmt::Write>(&self, f: &mut fmt::Formatter<W>) -> fmt::Result {
        f.write_str(self.text())
    }
}

impl std::error::Error for ReadFault {}

impl From<AllocError> for ReadFault {
    ghost from_gives = { λ _ e. e ≡ LineOutOfMemory };

    fn from(_e: AllocError) -> ReadFault {
        ReadFault::OutOfMemory
    }
}

impl<T: Drop> From<AllocFailed<T>> for ReadFault {
    ghost from_gives = { λ _ e. e ≡ LineOutOfMemory };

    fn from(_e: AllocFailed<T>) -> ReadFault {
        ReadFault::OutOfMemory
    }
}

impl From<AllocError> for AlgorithmFault {
    ghost from_gives = { λ _ e. e ≡ ReadingOutOfMemory };

    fn from(_e: AllocError) -> AlgorithmFault {
        AlgorithmFault::OutOfMemory
    }
}
