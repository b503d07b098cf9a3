//! The types that a run of the table is made of. `TakenStep`, `View` and `SeatKnowledge` have no value at run time: only contracts
//! and proofs use them.

use crate::setup::Setup;
use rmecore::{Kind, Word};
use rmeworld::Call;
use std::collections::LinkedList;

/// What is known of a step before it is taken: its kind, its word, whether its process crashed before it, and the call that
/// the process started after that crash.
#[derive(Clone, Copy)]
pub struct Step {
    pub crashed: bool,
    pub start: Option<Call>,
    pub kind: Kind,
    pub word: Word,
}

/// One step of one process, with the value that it loaded or stored: an entry of the run.
#[derive(Clone, Copy)]
pub struct TakenStep {
    pub by: u64,
    pub step: Step,
    pub value: u64,
}

/// A view: a prefix of the run, and the processes whose steps are all in it.
pub struct View {
    pub setup: Setup,
    pub answers: LinkedList<u64>,
    pub seen: LinkedList<TakenStep>,
}

/// What a seat knows: its view, and the views of the seats that were joined into it since its last step.
pub struct SeatKnowledge {
    pub view: View,
    pub reports: LinkedList<View>,
}
