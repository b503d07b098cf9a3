//! Never claims: conditions on the states of a world that an algorithm promises never to hold.

use crate::condition::Condition;
use crate::line::WordOf;

/// A phase of a process, as a claim names it.
#[derive(Clone, Copy, Debug, PartialEq, Eq)]
pub enum ClaimedPhase {
    Out,
    /// In its doorway.
    Doorway,
    /// In line, after its doorway.
    Waiting,
    Inside,
    /// Crashed inside, and not inside again.
    Dead,
}

/// What a claim looks at in a state.
#[derive(Debug, Drop)]
pub enum StateFact {
    /// The value of a shared word.
    Word(WordOf),
    /// 1 where the process of a name is in this phase, else 0.
    Phase { name: usize, phase: ClaimedPhase },
    /// 1 where the next access of the process of a name is the first one below this label of the claims, else 0.
    Place { name: usize, label: usize },
}

/// A condition on states that never holds, for no different processes. Its first names are processes, and those after them are what
/// it looks at, one after the other.
#[derive(Debug, Drop)]
pub struct NeverClaim {
    /// The number of its line.
    pub number: u64,
    /// How many processes it names: none, one or two.
    pub processes: usize,
    /// What it looks at. Each may be by the names before it.
    pub facts: Vec<StateFact>,
    pub condition: Condition,
}
