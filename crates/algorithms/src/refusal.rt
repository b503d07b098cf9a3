//! Why a world refuses a call, a step or a crash.

ghost use Rattle.std.specs.Prelude.{◌≡◌};
ghost use Rattle.algorithms.specs.declared.refusal.AlgorithmRefusal.TheVariants.{OutOfMemory};

use std::alloc::{AllocError, AllocFailed};
use std::error::Error;
use std::fmt;

/// Why a world of an algorithm refuses. A refused call changes nothing.
#[derive(Clone, Copy, Debug, PartialEq, Eq)]
pub enum AlgorithmRefusal {
    BadProcs,
    BadLimit,
    NoSuchProcess,
    CallUnderWay,
    NothingToDo,
    NotWaiting,
    NoSuchCall,
    /// At the line of this place, a value is no number of 64 bits, an index no process, a store above its bound, a deed the
    /// fourth of its step, or a round of a loop one too many without an access.
    OutOfRange { place: usize },
    /// The algorithm itself is wrong here: a line or a word that is not there, a call that ends before its first step, or
    /// local lines that go round. No algorithm that was read meets it.
    Malformed { place: usize },
    OutOfMemory,
}

impl AlgorithmRefusal {
    /// What it says to a reader, before the place where it has one.
    fn text(self) -> &'static str {
        match self {
            AlgorithmRefusal::BadProcs => "the algorithm is not for this number of processes",
            AlgorithmRefusal::BadLimit => "the limit of numbers is not 1 to 2^62",
            AlgorithmRefusal::NoSuchProcess => "there is no such process",
            AlgorithmRefusal::CallUnderWay => "a call of the process is under way",
            AlgorithmRefusal::NothingToDo => "no call of the process is under way",
            AlgorithmRefusal::NotWaiting => "the process is at no line with `may withdraw`",
            AlgorithmRefusal::NoSuchCall => "the algorithm has no such call",
            AlgorithmRefusal::OutOfRange { .. } => "out of range at place",
            AlgorithmRefusal::Malformed { .. } => "the algorithm is wrong at place",
            AlgorithmRefusal::OutOfMemory => "out of memory",
        }
    }

    /// The place of the line at which it comes.
    fn place(self) -> Option<usize> {
        match self {
            AlgorithmRefusal::OutOfRange { place } | AlgorithmRefusal::Malformed { place } => Some(
                place,
            ),
            _ => None,
        }
    }
}

impl fmt::Display for AlgorithmRefusal {
    fn fmt<W: fmt::Write>(&self, f: &mut fmt::Formatter<W>) -> fmt::Result {
        match self.place() {
            None => f.write_str(self.text()),
            Some(place) => write!(f, "{} {place}", self.text()),
        }
    }
}

impl Error for AlgorithmRefusal {}

impl From<AllocError> for AlgorithmRefusal {
    ghost from_gives = { λ _ e. e ≡ OutOfMemory };

    fn from(_e: AllocError) -> AlgorithmRefusal {
        AlgorithmRefusal::OutOfMemory
    }
}

impl<T: Drop> From<AllocFailed<T>> for AlgorithmRefusal {
    ghost from_gives = { λ _ e. e ≡ OutOfMemory };

    fn from(_e: AllocFailed<T>) -> AlgorithmRefusal {
        AlgorithmRefusal::OutOfMemory
    }
}
