//! Silent steps of a process, taken in place: no deed of the lock, and not the call's last step.

ghost use Rattle.std.specs.Prelude.{◌≡◌, Some, None, IfSome, IsSome};

use crate::lock_part::lock_silently;
use crate::process::Process;
use crate::script_state::{ScriptState, goes_on, may_go_on};
use rmecore::{Access, Stage};

impl Process {
    ghost use Rattle.rmeworld.specs.WorldSteps.{silent_outcome};
    ghost use Rattle.rmecore.specs.Machine.{word_of};
    ghost use Rattle.rmeworld.specs.MachineState.{InWords, IsAllowed, StoresOwn, process_state_of, machine_after_step, next_access, process_state_after, outcome};

    /// Whether the next step is likely to be silent. A wrong guess costs time only.
    // Inline: one call a silent step.
    #[inline(always)]
    pub(crate) fn is_promising(&self) -> bool {
        match &self.script_state {
            ScriptState::Free => match self.lock.stage() {
                Stage::ReadingChoosing { .. }
                | Stage::ReadingNumber { .. }
                | Stage::ReadingInside { .. }
                | Stage::Shutting { .. } => true,
                _ => false,
            },
            ScriptState::Doing(_, job) => may_go_on(job),
        }
    }

    /// The next access, if the step is likely to be silent. It is what `next` answers then.
    // Inline: one call a silent step.
    #[inline(always)]
    pub fn next_silently(&self) -> Option<Access>
        ensures next { IfSome result (λ a. next_access self.now ≡ Some a) }
        ensures within { IfSome result (λ a. InWords self.now.layout.procs (word_of a)) }
        ensures allowed { IfSome result (IsAllowed self.now) }
        ensures own { IfSome result (StoresOwn self.now.index) }
    {
        if !self.is_promising() {
            return None;
        }
        self.next()
    }

    /// Takes the next step, with the value that was read, if it can see cheaply that the step is silent. The result is
    /// whether it was blocked. None: the step was not taken, and nothing changed.
    // Inline: one call a silent step.
    #[inline(always)]
    pub fn feed_silently(&mut self, value: u64) -> Option<bool>
        ensures exact { IsSome result → self.new ≡ machine_after_step self.old value }
        ensures process_state { IsSome result → process_state_of self.new ≡ process_state_after self.old (next_access self.old) value }
        ensures outcome { IfSome result (λ blocked. outcome self.old (next_access self.old) value ≡ silent_outcome blocked) }
        ensures same { result ≡ None → self.new ≡ self.old }
    {
        match &mut self.script_state {
            ScriptState::Free => lock_silently(&mut self.lock, value),
            ScriptState::Doing(_, job) => {
                if !goes_on(job, value) {
                    return None;
                }
                job.feed(value);
                Some(false)
            }
        }
    }
}
