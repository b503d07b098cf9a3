//! The askings of a plan, counted.

ghost use Rattle.std.specs.Prelude.{◌≡◌};

use std::marker::Model;

/// The number of askings, and the number of those at which the plan fell. Each saturates at 2^64 - 1.
#[derive(Debug, Drop)]
pub struct AskingCounter {
    asked: u64,
    fallen: u64,
}

impl Model for AskingCounter {
    ghost use Rattle.crash_plans.specs.Plans.{Askings};

    ghost Value = { Askings };

    ghost view = { λ a. record { asked = a.asked; fallen = a.fallen } };
}

impl AskingCounter {
    ghost use Rattle.crash_plans.specs.Plans.{next_asking, no_askings, asked_once, many_more};

    /// The counts before the first asking.
    pub fn new() -> AskingCounter
        ensures { result ≡ no_askings }
    {
        AskingCounter {
            asked: 0,
            fallen: 0,
        }
    }

    /// The number of the next asking, from 1. None: there were 2^64 - 1 askings or more.
    pub fn next(&self) -> Option<u64>
        ensures { result ≡ next_asking self.now }
    {
        self.asked.checked_add(1)
    }

    /// Counts askings at which the plan does not fall.
    pub fn count_without_crash(&mut self, times: u64)
        ensures { self.new ≡ record self.old { asked = many_more times self.old.asked } }
    {
        self.asked = self.asked.saturating_add(times);
    }

    /// Counts one asking, and whether the plan falls there.
    pub fn count(&mut self, falls: bool)
        ensures { self.new ≡ asked_once falls self.old }
    {
        self.asked = self.asked.saturating_add(1);
        if falls {
            self.fallen = self.fallen.saturating_add(1);
        }
    }
}
