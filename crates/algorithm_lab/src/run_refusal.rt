//! Why a run of an algorithm refuses a line.

ghost use Rattle.std.specs.Prelude.{◌≡◌};
ghost use Rattle.algorithm_lab.specs.Refusals.{number_of_world};
ghost use Rattle.algorithm_lab.specs.declared.run_refusal.RunRefusal.TheVariants.{Refused, OutOfMemory};

use algorithms::AlgorithmRefusal;
use std::alloc::{AllocError, AllocFailed};
use thiserror::Error;

/// Why a run of an algorithm refuses a start, a step or a crash. A refused one changes nothing, but for `OutOfMemory`.
#[derive(Clone, Copy, Debug, PartialEq, Eq, Error)]
pub enum RunRefusal {
    /// The world refuses it.
    #[error("{0}")]
    Refused(AlgorithmRefusal),
    #[error("the process is not inside")]
    NotOwner,
    #[error("the process is inside")]
    AlreadyIn,
    /// There was no memory for what is reported. The monitor has moved, and is of no more use.
    #[error("out of memory")]
    OutOfMemory,
}

/// The number of a refusal by a world: those of the lock's `Refusal` where it has the same cause. Out of memory has none.
fn number_of(refusal: AlgorithmRefusal) -> Option<u64>
    ensures { result ≡ number_of_world refusal }
{
    match refusal {
        AlgorithmRefusal::BadProcs => Some(1),
        AlgorithmRefusal::BadLimit => Some(2),
        AlgorithmRefusal::NoSuchProcess => Some(3),
        AlgorithmRefusal::CallUnderWay => Some(4),
        AlgorithmRefusal::NothingToDo => Some(7),
        AlgorithmRefusal::NotWaiting => Some(14),
        AlgorithmRefusal::OutOfRange { .. } => Some(16),
        AlgorithmRefusal::NoSuchCall => Some(17),
        AlgorithmRefusal::Malformed { .. } => Some(18),
        AlgorithmRefusal::OutOfMemory => None,
    }
}

impl RunRefusal {
    ghost use Rattle.algorithm_lab.specs.Refusals.{number_of};

    /// The number of the refusal. `OutOfMemory` has none.
    pub fn number(self) -> Option<u64>
        ensures { result ≡ number_of self }
    {
        match self {
            RunRefusal::Refused(refusal) => number_of(refusal),
            RunRefusal::NotOwner => Some(5),
            RunRefusal::AlreadyIn => Some(6),
            RunRefusal::OutOfMemory => None,
        }
    }
}

impl From<AlgorithmRefusal> for RunRefusal {
    ghost from_gives = { λ refusal e. e ≡ Refused refusal };

    fn from(refusal: AlgorithmRefusal) -> RunRefusal {
        RunRefusal::Refused(refusal)
    }
}

impl From<AllocError> for RunRefusal {
    ghost from_gives = { λ _ e. e ≡ OutOfMemory };

    fn from(_e: AllocError) -> RunRefusal {
        RunRefusal::OutOfMemory
    }
}

impl<T: Drop> From<AllocFailed<T>> for RunRefusal {
    ghost from_gives = { λ _ e. e ≡ OutOfMemory };

    fn from(_e: AllocFailed<T>) -> RunRefusal {
        RunRefusal::OutOfMemory
    }
}
