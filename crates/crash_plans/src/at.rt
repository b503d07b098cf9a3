//! A plan with a crash at one asking.

ghost use Rattle.std.specs.Prelude.{◌≡◌, ◌↔◌, Some, IsTrue};

use crate::asking_counter::AskingCounter;
use crate::crash_plan::CrashPlan;
use std::marker::Model;

/// A plan that falls once, at a given asking.
#[derive(Debug, Drop)]
pub struct At {
    place: u64,
    askings: AskingCounter,
}

impl Model for At {
    ghost use Rattle.crash_plans.specs.Plans.{One};

    ghost Value = { One };

    ghost view = { λ a. record { place = a.place; askings = a.askings } };
}

impl At {
    ghost use Rattle.crash_plans.specs.Plans.{no_askings};

    /// A plan that falls at asking `place`, counted from 1. With 0 it never falls.
    pub fn new(place: u64) -> At
        ensures { result ≡ record { place = place; askings = no_askings } }
    {
        At {
            place,
            askings: AskingCounter::new(),
        }
    }
}

impl CrashPlan for At {
    ghost use Rattle.crash_plans.specs.Plans.{asked_once, next_asking};

    ghost askings = { λ a. a.askings };

    fn falls(&mut self) -> bool
        ensures askings { self.new.askings ≡ asked_once result self.old.askings }
        ensures falls { IsTrue result ↔ (next_asking self.old.askings ≡ Some self.old.place) }
        ensures place { self.new.place ≡ self.old.place }
    {
        let falls = self.askings.next() == Some(self.place);
        self.askings.count(falls);
        falls
    }
}
