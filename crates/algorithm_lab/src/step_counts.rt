//! The own steps of processes, as a monitor counts them.

ghost use Rattle.std.specs.Prelude.{◌≡◌, IfOk, IfErr, length, replicate};
ghost use Rattle.algorithm_lab.specs.Monitors.{first_steps};

use crate::section::bounds_steps;
use algorithms::{AlgorithmRefusal, StepBounds};
use std::alloc::Global;

/// As many counts of own steps as are asked for, each of none.
#[tactic(auto, using(std::proofs::lemmas::List::replicate_more))]
pub(crate) fn no_steps(alloc: Global, count: usize) -> Result<Vec<u64>, AlgorithmRefusal>
    ensures steps { IfOk result (λ steps. steps.items ≡ replicate count 0) }
    ensures memory { IfErr result (λ e. e ≡ AlgorithmRefusal.OutOfMemory) }
{
    let steps = vec![in alloc; 0; count]?;
    Ok(steps)
}

/// The own steps that are counted at the beginning: none of each process, where the text bounds them.
pub(crate) fn first_steps(
    alloc: Global,
    bounds: &StepBounds,
    count: usize,
) -> Result<Vec<u64>, AlgorithmRefusal>
    ensures steps { IfOk result (λ steps. steps.items ≡ first_steps bounds.now count) }
    ensures memory { IfErr result (λ e. e ≡ AlgorithmRefusal.OutOfMemory) }
{
    if bounds_steps(bounds) {
        no_steps(alloc, count)
    } else {
        Ok(Vec::new(alloc))
    }
}

/// Sets each count to none.
pub(crate) fn put_no_steps(steps: &mut [u64])
    ensures { steps.new ≡ replicate (length steps.old) 0 }
{
    for p in 0..steps.len() {
        steps[p] = 0;
    }
}
