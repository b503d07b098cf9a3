//! Algorithms of mutual exclusion as data: their lines, and the worlds in which processes take them one access at a time.
//!
//! Main items: `Algorithm`, `AlgorithmWorld`, `AlgorithmProcess`.
#![tactic(auto)]

pub mod access;
pub mod algorithm;
pub mod condition;
pub mod constants;
pub mod deeds;
pub mod expression;
pub mod extents;
pub mod fault;
mod first_rows;
pub mod first_values;
mod first_words;
mod homes;
pub mod known_values;
pub mod line;
mod local;
pub mod never_claim;
pub mod noted;
pub mod process;
mod process_step;
pub mod promised_steps;
pub mod refusal;
pub mod remote_references;
pub mod world;

pub use access::{Address, Advanced, Moved, Taken, WordAccess};
pub use algorithm::{
    Algorithm, AlgorithmCall, Declaration, Entries, Extent, NamedConstant, NamedRow,
    ProgressPromise, Promises, StepBounds,
};
pub use condition::{Comparison, Condition, Pair};
pub use constants::{Constants, MOST_PROCS};
pub use expression::{Expression, MOST_ELEMENTS, NAMES, Operator, is_in_row, name_at};
pub use fault::{AlgorithmFault, ReadFault};
pub use first_values::{FirstValues, InitializedAlgorithm};
pub use line::{
    AccessLine, Action, AlgorithmDeed, AlgorithmLine, Elements, LineKind, LocalLine, Members,
    WordOf,
};
pub use never_claim::{ClaimedPhase, NeverClaim, StateFact};
pub use noted::NotedDeeds;
pub use process::{AlgorithmPlace, AlgorithmProcess};
pub use promised_steps::PromisedSteps;
pub use refusal::AlgorithmRefusal;
pub use remote_references::copies::Copies;
pub use remote_references::memory_event::MemoryEvent;
pub use remote_references::memory_model::{MemoryModel, PassageKind};
pub use remote_references::own_copies::OwnCopies;
pub use world::{AlgorithmWorld, WorldCheckpoint};
