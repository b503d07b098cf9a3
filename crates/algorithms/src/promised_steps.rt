//! The bounds on own steps in worlds of a size.

ghost use Rattle.std.specs.Prelude.{◌≡◌};
ghost use Rattle.algorithms.specs.PromisedSteps.{bound_value, has_bound_value, has_step_bounds, promised_steps_at};

use crate::algorithm::StepBounds;
use crate::expression::Expression;
use crate::extents::size_value;

/// The most own steps of sections in a world, where they are bounded.
#[derive(Clone, Copy, Debug, PartialEq, Eq)]
pub struct PromisedSteps {
    /// Of an `unlock`.
    pub exit: Option<u64>,
    /// Of a `lock` after a crash inside, up to the re-entry.
    pub recovery: Option<u64>,
    /// Of a doorway.
    pub doorway: Option<u64>,
}

/// The value of a bound in worlds of these sizes.
fn bound_value(bound: &Option<Expression>, procs: u64, limit: u64) -> Option<u64>
    ensures { result ≡ bound_value procs limit bound.now }
{
    match bound {
        None => None,
        Some(bound) => size_value(bound, procs, limit),
    }
}

/// Whether a bound has a value in worlds of these sizes, where there is one.
fn has_bound_value(bound: &Option<Expression>, procs: u64, limit: u64) -> bool
    ensures { result ≡ has_bound_value procs limit bound.now }
{
    match bound {
        None => true,
        Some(bound) => size_value(bound, procs, limit).is_some(),
    }
}

impl StepBounds {
    /// The bounds in worlds of these sizes. One that is out of range is none.
    pub fn promised_steps(&self, procs: u64, limit: u64) -> PromisedSteps
        ensures { result ≡ promised_steps_at procs limit self.now }
    {
        PromisedSteps {
            exit: bound_value(&self.exit, procs, limit),
            recovery: bound_value(&self.recovery, procs, limit),
            doorway: bound_value(&self.doorway, procs, limit),
        }
    }

    /// Whether each bound has a value in worlds of these sizes.
    pub(crate) fn have_values(&self, procs: u64, limit: u64) -> bool
        ensures { result ≡ has_step_bounds procs limit self.now }
    {
        has_bound_value(&self.exit, procs, limit)
            && (has_bound_value(&self.recovery, procs, limit)
                && has_bound_value(&self.doorway, procs, limit))
    }
}
