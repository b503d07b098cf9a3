//! A plan that counts.

use crash_plans::{At, CrashPlan, Never};

/// A plan that counts its askings.
#[derive(Drop)]
pub struct Counted<P> {
    plan: P,
    askings: u64,
}

impl<P: CrashPlan> Counted<P> {
    /// Counts the askings of this plan.
    pub fn new(plan: P) -> Counted<P> {
        Counted { plan, askings: 0 }
    }

    /// The askings since this was last called.
    pub fn taken(&mut self) -> u64 {
        let askings = self.askings;
        self.askings = 0;
        askings
    }
}

impl<P: CrashPlan> CrashPlan for Counted<P> {
    ghost askings = { λ c. P.askings c.plan };

    ghost never_crashes = { λ c. P.never_crashes c.plan };

    fn never_crashes(&self) -> bool {
        self.plan.never_crashes()
    }

    fn count_askings(&mut self, times: u64) {
        self.askings = self.askings.saturating_add(times);
        self.plan.count_askings(times);
    }

    fn falls(&mut self) -> bool {
        self.askings = self.askings.saturating_add(1);
        self.plan.falls()
    }
}

/// A plan that never falls, says so by its type, and counts: a member takes the fast paths.
pub fn never() -> Counted<Never> {
    Counted::new(Never::new())
}

/// A plan that falls at this asking, and counts.
pub fn at(place: u64) -> Counted<At> {
    Counted::new(At::new(place))
}

/// A plan that never falls, doesn't say so, and counts: a member takes each step through its machine.
pub fn stepwise() -> Counted<At> {
    Counted::new(At::new(0))
}
