//! What a run of an algorithm reports.

use crate::section::BoundedSection;
use rmecore::Outer;

/// What a run of an algorithm reports: a deed that the judge hears, the answer of a call, that a process takes more own steps than are
/// promised, or that a condition holds which is promised never to.
#[derive(Clone, Copy, Debug, PartialEq, Eq)]
pub enum TextReport {
    Did(Outer),
    /// The process, and its answer by its index among those of the algorithm.
    Answered(u64, usize),
    /// The process takes the first step above the bound of this section.
    Exceeded(u64, BoundedSection),
    /// The condition of the claim of this line holds, after the event or before it.
    Broken(u64),
}
