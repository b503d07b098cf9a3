//! The interface of what hears the events of a run.

ghost use Rattle.std.specs.Prelude.{◌≡◌, ℕ, true, OnOk, IfErr, IsTrue};
ghost use Rattle.schedule.specs.Effects.{Effects};
ghost use Rattle.schedule.specs.Transitions.{RunEvent, Took, Fell};

use crate::player::automaton::Automaton;

/// What hears the events of a run on a machine, one after another. In contracts one record says what an event does to it.
pub trait Listener<M: Automaton> {
    /// Why it stops.
    type Stop: Copy;

    ghost effects: { Effects Self (RunEvent M.Step M.Crash) Self.Stop };

    /// Hears a step of process `p`.
    fn hear_step(&mut self, p: u64, step: &M::Step) -> Result<(), Self::Stop>
        ensures ok { OnOk result (effects.hears self.old (Took p step.now) self.new) }
        ensures err { IfErr result (λ stop. effects.stops self.old (Took p step.now) self.new stop) };

    /// Hears a crash of process `p`.
    fn hear_crash(&mut self, p: u64, crash: &M::Crash) -> Result<(), Self::Stop>
        ensures ok { OnOk result (effects.hears self.old (Fell p crash.now) self.new) }
        ensures err { IfErr result (λ stop. effects.stops self.old (Fell p crash.now) self.new stop) };

    /// Whether silent steps need not be heard: they would change nothing.
    fn skips_silent_steps(&self) -> bool
        ensures { IsTrue result → (p : ℕ) (step : M.Step) → M.transitions.is_silent step ≡ true
            → effects.hears self.now (Took p step) self.now };
}
