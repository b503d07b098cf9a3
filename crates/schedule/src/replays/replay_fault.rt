//! Why a replay, or the judging of a trace, has no verdict.

ghost use Rattle.std.specs.Prelude.{◌≡◌};
ghost use Rattle.schedule.specs.declared.replays.replay_fault.ReplayFault.TheVariants.{OutOfMemory as ReplayOutOfMemory, Write as ReplayWrite};

use crate::texts::device::Failed;
use std::alloc::{AllocError, AllocFailed};
use thiserror::Error;

/// Why a replay, or the judging of a trace, has no verdict. Lines count from 1.
#[derive(Clone, Copy, Debug, PartialEq, Eq, Error)]
pub enum ReplayFault {
    /// The text has a fault; its number is that of the `LineFault`. Nothing was written.
    #[error("line {line}: fault {number}")]
    Text { line: u64, number: u64 },
    /// The world refuses the line; the number is that of the `Refusal`. What the lines before it report was written.
    #[error("line {line}: refused {number}")]
    Refused { line: u64, number: u64 },
    /// The source failed. Nothing was written.
    #[error("read failed")]
    Read,
    /// The sink failed. It has taken a beginning of the report.
    #[error("write failed")]
    Write,
    /// Out of memory. A beginning of the report was written.
    #[error("out of memory")]
    OutOfMemory,
}

impl From<AllocError> for ReplayFault {
    ghost from_gives = { λ _ e. e ≡ ReplayOutOfMemory };

    fn from(_e: AllocError) -> ReplayFault {
        ReplayFault::OutOfMemory
    }
}

impl<T: Drop> From<AllocFailed<T>> for ReplayFault {
    ghost from_gives = { λ _ e. e ≡ ReplayOutOfMemory };

    fn from(_e: AllocFailed<T>) -> ReplayFault {
        ReplayFault::OutOfMemory
    }
}

impl From<Failed> for ReplayFault {
    ghost from_gives = { λ _ e. e ≡ ReplayWrite };

    fn from(_e: Failed) -> ReplayFault {
        ReplayFault::Write
    }
}
