//! The interface of crash plans.

ghost use Rattle.std.specs.Prelude.{◌≡◌, Bool, true, false};
ghost use Rattle.crash_plans.specs.Plans.{Askings, asked_once, many_more};

/// A plan that decides where a process crashes. The process asks it before each of its steps, and once before it answers its
/// call. It crashes where the plan falls.
pub trait CrashPlan {
    /// The askings so far, and those at which the plan fell.
    ghost askings: { Self → Askings };

    /// Whether the plan never falls. Its type decides that.
    ghost never_crashes: { Self → Bool } = { λ _. false };

    /// Whether the plan is known never to fall. If so, a process may take its steps first and count their askings
    /// afterwards, as the lock's fast path does. A plan without its own answer counts as one that may fall.
    fn never_crashes(&self) -> bool
        ensures { result ≡ true → never_crashes self.now ≡ true }
    {
        false
    }

    /// Counts several askings at once, as if `falls` were called that often. Where it fell is not reported, so a process
    /// calls it only on a plan that never falls.
    fn count_askings(&mut self, times: u64)
        ensures asked { (askings self.new).asked ≡ many_more times (askings self.old).asked }
        ensures fallen { never_crashes self.old ≡ true → (askings self.new).fallen ≡ (askings self.old).fallen }
        ensures never_crashes { never_crashes self.old ≡ true → never_crashes self.new ≡ true }
    {
        for _ in 0..times {
            self.falls();
        }
    }

    /// Counts one asking. True: the process that asks crashes here.
    fn falls(&mut self) -> bool
        ensures askings { askings self.new ≡ asked_once result (askings self.old) }
        ensures never_crashes { never_crashes self.old ≡ true → (result ≡ false) × (never_crashes self.new ≡ true) };
}
