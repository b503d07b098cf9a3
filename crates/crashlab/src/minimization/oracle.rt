//! What says whether a schedule goes wrong.

ghost use Rattle.std.specs.Prelude.{◌≡◌, ◌↔◌, IfOk, OnOk, IsTrue};
ghost use Rattle.schedule.specs.Schedules.{Scheduled};

use schedule::{OutOfMemory, Schedule};

/// A test oracle: it says whether a schedule goes wrong, by playing it on a new world. Its criterion stays the same from one
/// schedule to the next.
pub trait Oracle {
    ghost Criterion: { Type 0 };

    ghost criterion_of: { Self → Criterion };

    ghost is_wrong: { Criterion → Scheduled → Type 0 };

    /// Whether a schedule goes wrong.
    fn goes_wrong(&mut self, schedule: &Schedule) -> Result<bool, OutOfMemory>
        ensures wrong { IfOk result (λ wrong. IsTrue wrong ↔ is_wrong (criterion_of self.old) schedule.now) }
        ensures same { OnOk result (criterion_of self.new ≡ criterion_of self.old) };
}
