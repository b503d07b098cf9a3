//! The report of one step.

use crate::core_done::CoreDone;
use crate::kind::Kind;
use crate::outer::Outer;
use crate::word::Word;

/// One step: its kind, the word, and the value that was read or written.
#[derive(Clone, Copy, Debug, PartialEq, Eq)]
pub struct Happened {
    pub kind: Kind,
    pub word: Word,
    pub value: u64,
    /// The step's deed of the lock, if it has one.
    pub outer: Option<Outer>,
    /// The core's answer, if its part of the call ends with this step.
    pub done: Option<CoreDone>,
}
