//! A machine of the lock as one on which a schedule can be played.

ghost use Rattle.std.specs.Prelude.{◌≡◌};

use crate::player::automaton::Automaton;
use redomail::Deed;
use rmecore::Refusal;
use rmeworld::{Call, Machine, Stepped};

impl<M: Machine> Automaton for M {
    ghost use Rattle.schedule.specs.Runs.{transitions_of};

    type Step = Stepped;

    type Crash = Deed;

    type Refusal = Refusal;

    ghost transitions = { transitions_of M.behaviour };

    // Inline: passes the call on.
    #[inline(always)]
    fn start_call(&mut self, p: u64, call: Call) -> Result<(), Refusal> {
        self.start(p, call)
    }

    // Inline: passes the call on.
    #[inline(always)]
    fn take_step(&mut self, p: u64) -> Result<Stepped, Refusal> {
        self.advance(p)
    }

    // Inline: passes the call on.
    #[inline(always)]
    fn take_silent_step(&mut self, p: u64) -> bool {
        self.step_silently(p)
    }

    // Inline: passes the call on.
    #[inline(always)]
    fn crash_process(&mut self, p: u64) -> Result<Deed, Refusal> {
        self.crash(p)
    }

    // Inline: a test.
    #[inline(always)]
    fn ends(step: &Stepped) -> bool {
        step.answer.is_some()
    }

    // Inline: a test.
    #[inline(always)]
    fn is_out_of_memory(refusal: &Refusal) -> bool {
        *refusal == Refusal::OutOfMemory
    }

    /// The lock refuses a line of steps only where it refuses the first one.
    fn refuses_late() -> bool {
        false
    }
}
