//! Why a run of a schedule on an algorithm has no verdict.

ghost use Rattle.std.specs.Prelude.{◌≡◌};
ghost use Rattle.algorithm_lab.specs.declared.replay_fault.AlgorithmReplayFault.TheVariants.{OutOfMemory as ReplayOutOfMemory, Write as ReplayWrite};

use crate::run_refusal::RunRefusal;
use schedule::Failed;
use std::alloc::AllocError;
use thiserror::Error;

/// Why a run of a schedule on an algorithm has no verdict. Lines count from 1.
#[derive(Clone, Copy, Debug, PartialEq, Eq, Error)]
pub enum AlgorithmReplayFault {
    /// A line is refused. A replay has written what was reported before it, a drawing all of the run up to it. Line 1 is refused
    /// where the algorithm has no world of the sizes that the schedule names.
    #[error("line {line}: {refusal}")]
    Refused { line: u64, refusal: RunRefusal },
    /// The sink failed. It has taken a beginning of what was to be written.
    #[error("write failed")]
    Write,
    /// Out of memory. A replay has then written nothing, a drawing a beginning at most.
    #[error("out of memory")]
    OutOfMemory,
}

impl From<AllocError> for AlgorithmReplayFault {
    ghost from_gives = { λ _ e. e ≡ ReplayOutOfMemory };

    fn from(_e: AllocError) -> AlgorithmReplayFault {
        AlgorithmReplayFault::OutOfMemory
    }
}

impl From<Failed> for AlgorithmReplayFault {
    ghost from_gives = { λ _ e. e ≡ ReplayWrite };

    fn from(_e: Failed) -> AlgorithmReplayFault {
        AlgorithmReplayFault::Write
    }
}
