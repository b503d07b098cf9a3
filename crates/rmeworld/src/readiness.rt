//! Which calls a process may start.

ghost use Rattle.std.specs.Prelude.{◌≡◌, true, false, not, nat_lt, OnOk, IfErr, Some, None, [], ◌∷◌};
ghost use Rattle.rmeworld.specs.Refused.{Needs, first_cause, needs};

use crate::call::Call;
use rmecore::Refusal;

/// What the refusals of a start need to know of a process.
#[derive(Clone, Copy)]
pub struct Readiness {
    /// No call is under way.
    pub is_idle: bool,
    pub is_inside: bool,
    /// A lock of the process waits.
    pub is_waiting: bool,
    /// Nothing has to be mended.
    pub is_mended: bool,
}

/// Refuses for this cause, unless the condition holds.
// Inline: once in each C start.
#[inline(always)]
fn only(holds: bool, refusal: Refusal) -> Result<(), Refusal>
    ensures accepted { OnOk result (holds ≡ true) }
    ensures refused { IfErr result (λ e. (holds ≡ false) × (e ≡ refusal)) }
{
    if holds { Ok(()) } else { Err(refusal) }
}

impl Readiness {
    /// Refuses, unless the process is inside with no call under way.
    // Inline: once in each C start.
    #[inline(always)]
    fn holds(self) -> Result<(), Refusal>
        ensures accepted { OnOk result ((self.is_idle ≡ true) × (self.is_inside ≡ true)) }
        ensures refused { IfErr result (λ e. (rest : Needs) → first_cause
            ((self.is_idle, Refusal.CallUnderWay) ∷ (self.is_inside, Refusal.NotOwner) ∷ rest) ≡ Some e) }
    {
        only(self.is_idle, Refusal::CallUnderWay)?;
        only(self.is_inside, Refusal::NotOwner)
    }

    /// Refuses, unless the process is outside with no call under way.
    // Inline: once in each C start.
    #[inline(always)]
    fn may_come(self) -> Result<(), Refusal>
        ensures accepted { OnOk result ((self.is_idle ≡ true) × (self.is_inside ≡ false)) }
        ensures refused { IfErr result (λ e. first_cause ((self.is_idle, Refusal.CallUnderWay)
            ∷ (not self.is_inside, Refusal.AlreadyIn) ∷ []) ≡ Some e) }
    {
        only(self.is_idle, Refusal::CallUnderWay)?;
        only(!self.is_inside, Refusal::AlreadyIn)
    }

    /// Refuses a call of the board that can't be started now.
    // Inline: once in each C start.
    #[inline(always)]
    fn at_board(self, i: u64) -> Result<(), Refusal>
        ensures accepted { OnOk result (first_cause ((self.is_idle, Refusal.CallUnderWay) ∷ (self.is_inside, Refusal.NotOwner)
            ∷ (nat_lt i 4, Refusal.BadIndex) ∷ []) ≡ None) }
        ensures refused { IfErr result (λ e. first_cause ((self.is_idle, Refusal.CallUnderWay) ∷ (self.is_inside, Refusal.NotOwner)
            ∷ (nat_lt i 4, Refusal.BadIndex) ∷ []) ≡ Some e) }
    {
        only(self.is_idle, Refusal::CallUnderWay)?;
        only(self.is_inside, Refusal::NotOwner)?;
        only(i < 4, Refusal::BadIndex)
    }

    /// Refuses a call that can't be started now, by the first cause in the order of the call's own refusals. `width` is the
    /// number of words in a value.
    // Inline: once in each C start.
    #[inline(always)]
    pub fn check(self, width: u64, call: &Call) -> Result<(), Refusal>
        ensures accepted { OnOk result (first_cause (needs width self.is_idle self.is_inside self.is_waiting self.is_mended call.now)
            ≡ None) }
        ensures refused { IfErr result (λ e. first_cause (needs width self.is_idle self.is_inside self.is_waiting self.is_mended
            call.now) ≡ Some e) }
    {
        match *call {
            Call::Withdraw => only(self.is_waiting, Refusal::NotWaiting),
            Call::Lock | Call::Recover => self.may_come(),
            Call::Unlock => self.holds(),
            Call::Consistent => {
                self.holds()?;
                only(!self.is_mended, Refusal::NotInconsistent)
            }
            Call::Append { value, .. } => {
                self.holds()?;
                only(self.is_mended, Refusal::Unmended)?;
                only(value.width() == width, Refusal::BadWidth)
            }
            Call::Close => {
                self.holds()?;
                only(self.is_mended, Refusal::Unmended)
            }
            Call::Get(i) => self.at_board(i),
            Call::Put(i, _) => self.at_board(i),
        }
    }
}
