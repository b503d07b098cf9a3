//! How many steps a process takes alone until its call is answered.

ghost use Rattle.std.specs.Prelude.{◌≡◌, ◌≤◌, IfOk, IfSome, OnOk};
ghost use Rattle.diagram.specs.Semantics.{state_after_steps, steps_to_answer as steps_to_answer_in};

use schedule::Automaton;
use std::alloc::AllocError;

/// The number of steps of p, at most n, the last of which is refused or ends its call. It takes them.
pub fn steps_to_answer<M: Automaton>(
    machine: &mut M,
    p: u64,
    n: u64,
) -> Result<Option<u64>, AllocError>
    ensures number { IfOk result (λ steps. steps ≡ steps_to_answer_in M.transitions p 0 n machine.old) }
    ensures range { IfOk result (λ steps. IfSome steps (λ k. (1 ≤ k) × (k ≤ n))) }
    ensures left { OnOk result (machine.new ≡ state_after_steps M.transitions p n machine.old) }
{
    for k in 0..n {
        match machine.take_step(p) {
            Ok(step) => {
                if M::ends(&step) {
                    return Ok(Some(k + 1));
                }
            }
            Err(refusal) => {
                if M::is_out_of_memory(&refusal) {
                    return Err(AllocError);
                }
                return Ok(Some(k + 1));
            }
        }
    }
    Ok(None)
}
