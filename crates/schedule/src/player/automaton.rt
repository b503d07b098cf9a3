//! The interface of a machine on which a schedule can be played.

ghost use Rattle.std.specs.Prelude.{◌≡◌, Some, None, OnOk, OnErr, IfOk, IfErr, IsTrue, IsFalse};
ghost use Rattle.schedule.specs.Transitions.{Transitions, StepsFrom, IsShown, TakesSilently};

use rmeworld::Call;

/// A machine on which a schedule can be played: it starts calls, takes steps and crashes processes. In contracts one record
/// says what each does.
pub trait Automaton {
    /// What a step says.
    type Step: Copy;
    /// What a crash says.
    type Crash: Copy;

    type Refusal: Copy;

    ghost transitions: { Transitions Self Self.Step Self.Crash Self.Refusal };

    /// Starts a call of process `p`. It does not allocate.
    fn start_call(&mut self, p: u64, call: Call) -> Result<(), Self::Refusal>
        ensures accepted { OnOk result (transitions.start_refusal self.old p call ≡ None) }
        ensures ok { OnOk result (self.new ≡ transitions.started self.old p call) }
        ensures refused { IfErr result (λ e. transitions.start_refusal self.old p call ≡ Some e) }
        ensures memory { IfErr result (λ e. e ≡ transitions.out_of_memory → ⊥) }
        ensures err { OnErr result (self.new ≡ self.old) };

    /// Takes the next step of process `p`. Only for a step that shows something can there be no memory; then nothing changed.
    fn take_step(&mut self, p: u64) -> Result<Self::Step, Self::Refusal>
        ensures ok { IfOk result (λ step. StepsFrom transitions self.old p step self.new) }
        ensures refused { IfErr result (λ e. (e ≡ transitions.out_of_memory → ⊥)
            → transitions.step_refusal self.old p ≡ Some e) }
        ensures memory { IfErr result (λ e. e ≡ transitions.out_of_memory → IsShown transitions self.old p) }
        ensures err { OnErr result (self.new ≡ self.old) };

    /// Takes the next step of process `p` if it can see cheaply that the step is silent and does not end its call. True: the
    /// step was taken. False: nothing changed.
    fn take_silent_step(&mut self, p: u64) -> bool
        ensures silent { IsTrue result → TakesSilently transitions self.old p self.new }
        ensures same { IsFalse result → self.new ≡ self.old };

    /// Crashes process `p`. Where there is no memory, nothing changed.
    fn crash_process(&mut self, p: u64) -> Result<Self::Crash, Self::Refusal>
        ensures accepted { OnOk result (transitions.crash_refusal self.old p ≡ None) }
        ensures said { IfOk result (λ crash. crash ≡ transitions.crash self.old p) }
        ensures ok { OnOk result (self.new ≡ transitions.crashed self.old p) }
        ensures refused { IfErr result (λ e. (e ≡ transitions.out_of_memory → ⊥)
            → transitions.crash_refusal self.old p ≡ Some e) }
        ensures memory { IfErr result (λ e. e ≡ transitions.out_of_memory → transitions.crash_refusal self.old p ≡ None) }
        ensures err { OnErr result (self.new ≡ self.old) };

    /// Whether a step ends its call.
    fn ends(step: &Self::Step) -> bool
        ensures { result ≡ transitions.ends step.now };

    /// Whether this refusal says out of memory. No other has a place in `transitions`.
    fn is_out_of_memory(refusal: &Self::Refusal) -> bool
        ensures yes { IsTrue result → refusal.now ≡ transitions.out_of_memory }
        ensures no { IsFalse result → refusal.now ≡ transitions.out_of_memory → ⊥ };

    /// Whether a line of steps is refused also where a step after its first one is.
    fn refuses_late() -> bool
        ensures { result ≡ transitions.refuses_late };
}
