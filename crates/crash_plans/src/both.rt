//! A plan with crashes at two askings.

ghost use Rattle.std.specs.Prelude.{◌≡◌, ◌+◌, ◌⊎◌, ◌↔◌, Some, IsTrue};

use crate::asking_counter::AskingCounter;
use crate::crash_plan::CrashPlan;
use std::marker::Model;

/// A plan that falls twice: at a given asking, and a given number of askings after it.
#[derive(Debug, Drop)]
pub struct Both {
    place: u64,
    later: u64,
    askings: AskingCounter,
}

impl Model for Both {
    ghost use Rattle.crash_plans.specs.Plans.{Two};

    ghost Value = { Two };

    ghost view = { λ b. record { place = b.place; later = b.later; askings = b.askings } };
}

impl Both {
    ghost use Rattle.crash_plans.specs.Plans.{no_askings};

    /// A plan that falls at the askings `place` and `place + later`, counted from 1. With `place` 0 it falls at asking
    /// `later` alone. With `later` 0 it falls at asking `place` alone. A sum above 2^64 - 1 is never reached.
    pub fn new(place: u64, later: u64) -> Both
        ensures { result ≡ record { place = place; later = later; askings = no_askings } }
    {
        Both {
            place,
            later,
            askings: AskingCounter::new(),
        }
    }
}

impl CrashPlan for Both {
    ghost use Rattle.crash_plans.specs.Plans.{asked_once, next_asking};

    ghost askings = { λ b. b.askings };

    fn falls(&mut self) -> bool
        ensures askings { self.new.askings ≡ asked_once result self.old.askings }
        ensures falls { IsTrue result ↔ ((next_asking self.old.askings ≡ Some self.old.place)
            ⊎ (next_asking self.old.askings ≡ Some (self.old.place + self.old.later))) }
        ensures place { self.new.place ≡ self.old.place }
        ensures later { self.new.later ≡ self.old.later }
    {
        let next = self.askings.next();
        let falls = next.is_some()
            && (next == Some(self.place) || next == self.place.checked_add(self.later));
        self.askings.count(falls);
        falls
    }
}
