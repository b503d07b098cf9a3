//! What a worker of the lab asks and reports.

ghost use Rattle.std.specs.Prelude.{◌≡◌, ⊤, ℕ};

use crash_plans::{CrashPlan, Never, Seeded};

/// A worker's crash plan, which also gets a report of each of the worker's answers. With a gate a test can hold a worker at
/// an asking.
pub trait Gate: CrashPlan {
    /// The relation of a gate before and after the report of an answer to the call with this number.
    ghost heard: { Self → ℕ → Self → Type 0 } = { λ _ _ _. ⊤ };

    /// Reports that the worker's call with this number was answered. It is called once for each answer, also for the one
    /// that ends the worker. It isn't an asking.
    fn answered(&mut self, call: u64)
        ensures askings { Self.askings self.new ≡ Self.askings self.old }
        ensures heard { heard self.old call self.new };
}

impl Gate for Never {
    fn answered(&mut self, _call: u64) {}
}

impl Gate for Seeded {
    fn answered(&mut self, _call: u64) {}
}
