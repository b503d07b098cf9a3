//! The interface of a world that a schedule can be replayed on.

ghost use Rattle.std.specs.Prelude.{◌≡◌, Some, None, is_some, true, false, IsTrue, OnOk, OnErr, IfOk, IfErr, IsErrOf, ◌⊎◌};
ghost use Rattle.rmecore.specs.declared.refusal.Refusal.TheVariants.{OutOfMemory};
ghost use Rattle.rmeworld.specs.Behaviours.{Behaviour};

use crate::call::Call;
use crate::image::Image;
use crate::stepped::Stepped;
use redomail::Deed;
use rmecore::Refusal;

/// A world that can be stepped: it starts calls, takes steps, crashes processes, and has an image. In contracts one record
/// says which calls are refused, their results, and the state after each.
pub trait Machine {
    ghost behaviour: { Behaviour Self };

    /// Starts a call of process `p`. It does not allocate.
    fn start(&mut self, p: u64, call: Call) -> Result<(), Refusal>
        ensures accepted { OnOk result (behaviour.start_refusal self.old p call ≡ None) }
        ensures refused { IfErr result (λ e. behaviour.start_refusal self.old p call ≡ Some e) }
        ensures memory { IsErrOf result OutOfMemory → ⊥ }
        ensures ok { OnOk result (self.new ≡ behaviour.started self.old p call) }
        ensures err { OnErr result (self.new ≡ self.old) };

    /// Takes the next step of process `p`. `OutOfMemory`: nothing changed, and the step can be tried again. Only a step that
    /// is a deed allocates.
    fn advance(&mut self, p: u64) -> Result<Stepped, Refusal>
        ensures accepted { OnOk result (behaviour.advance_refusal self.old p ≡ None) }
        ensures refused { IfErr result (λ e. (e ≡ OutOfMemory) ⊎ (behaviour.advance_refusal self.old p ≡ Some e)) }
        ensures memory { IsErrOf result OutOfMemory → (behaviour.advance_refusal self.old p ≡ None)
            × (is_some (behaviour.stepped self.old p).deed ≡ true) }
        ensures reports { IfOk result (λ s. s ≡ behaviour.stepped self.old p) }
        ensures ok { OnOk result (self.new ≡ behaviour.advanced self.old p) }
        ensures err { OnErr result (self.new ≡ self.old) };

    /// Takes the next step of process `p` if it can see cheaply that the step is silent: no deed, and not its call's last
    /// step. True: the step was taken. False: nothing changed, and `advance` has to take it.
    fn step_silently(&mut self, p: u64) -> bool
        ensures accepted { IsTrue result → behaviour.advance_refusal self.old p ≡ None }
        ensures silent { IsTrue result
            → ((behaviour.stepped self.old p).deed ≡ None) × ((behaviour.stepped self.old p).answer ≡ None) }
        ensures ok { IsTrue result → self.new ≡ behaviour.advanced self.old p }
        ensures same { result ≡ false → self.new ≡ self.old }
    {
        let _ = p;
        false
    }

    /// Crashes process `p`: it loses its private memory and its call under way. `OutOfMemory`: nothing changed, and the
    /// crash can be tried again.
    fn crash(&mut self, p: u64) -> Result<Deed, Refusal>
        ensures accepted { OnOk result (behaviour.crash_refusal self.old p ≡ None) }
        ensures refused { IfErr result (λ e. (e ≡ OutOfMemory) ⊎ (behaviour.crash_refusal self.old p ≡ Some e)) }
        ensures memory { IsErrOf result OutOfMemory → behaviour.crash_refusal self.old p ≡ None }
        ensures reports { IfOk result (λ d. d ≡ behaviour.crash_deed self.old p) }
        ensures ok { OnOk result (self.new ≡ behaviour.crashed self.old p) }
        ensures err { OnErr result (self.new ≡ self.old) };

    /// The current words, with the world's sizes.
    fn image(&self) -> Result<Image, Refusal>
        ensures ok { IfOk result (λ image. image ≡ behaviour.image_of self.now) }
        ensures err { IfErr result (λ e. e ≡ OutOfMemory) };
}
