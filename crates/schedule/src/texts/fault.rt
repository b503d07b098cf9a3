//! Why a text could not be read or made.

ghost use Rattle.std.specs.Prelude.{◌≡◌};
ghost use Rattle.schedule.specs.declared.texts.fault.TextFault.TheVariants.{OutOfMemory as TextOutOfMemory};

use crate::lines::fault::LineFault;
use std::alloc::{AllocError, AllocFailed};
use thiserror::Error;

/// Why a text could not be read.
#[derive(Clone, Copy, Debug, PartialEq, Eq, Error)]
pub enum TextFault {
    /// The first faulty line, counted from 1, and the number of its fault, from 1 to 6.
    #[error("line {line}: fault {number}")]
    At { line: u64, number: u64 },
    #[error("out of memory")]
    OutOfMemory,
}

impl TextFault {
    ghost use Rattle.schedule.specs.Numbers.{number_of};

    /// This fault of this line.
    pub fn on_line(line: u64, fault: LineFault) -> TextFault
        ensures { result ≡ TextFault.At line (number_of fault) }
    {
        TextFault::At {
            line,
            number: fault.number(),
        }
    }
}

impl From<AllocError> for TextFault {
    ghost from_gives = { λ _ e. e ≡ TextOutOfMemory };

    fn from(_e: AllocError) -> TextFault {
        TextFault::OutOfMemory
    }
}

impl<T: Drop> From<AllocFailed<T>> for TextFault {
    ghost from_gives = { λ _ e. e ≡ TextOutOfMemory };

    fn from(_e: AllocFailed<T>) -> TextFault {
        TextFault::OutOfMemory
    }
}

/// Out of memory for a text.
#[derive(Clone, Copy, Debug, PartialEq, Eq, Error)]
#[error("out of memory")]
pub struct OutOfMemory;

impl From<AllocError> for OutOfMemory {
    fn from(_e: AllocError) -> OutOfMemory {
        OutOfMemory
    }
}
