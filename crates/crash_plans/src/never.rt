//! A plan without crashes.

ghost use Rattle.std.specs.Prelude.{◌≡◌, true, false};

use crate::asking_counter::AskingCounter;
use crate::crash_plan::CrashPlan;
use std::marker::Model;

/// A plan that never falls.
#[derive(Debug, Drop)]
pub struct Never {
    askings: AskingCounter,
}

impl Model for Never {
    ghost use Rattle.crash_plans.specs.Plans.{Askings};

    ghost Value = { Askings };

    ghost view = { λ n. n.askings };
}

impl Never {
    ghost use Rattle.crash_plans.specs.Plans.{no_askings};

    /// The plan before its first asking.
    pub fn new() -> Never
        ensures { result ≡ no_askings }
    {
        Never {
            askings: AskingCounter::new(),
        }
    }
}

impl CrashPlan for Never {
    ghost use Rattle.crash_plans.specs.Plans.{asked_once};

    ghost askings = { λ n. n };

    ghost never_crashes = { λ _. true };

    fn never_crashes(&self) -> bool {
        true
    }

    fn count_askings(&mut self, times: u64) {
        self.askings.count_without_crash(times);
    }

    fn falls(&mut self) -> bool
        ensures askings { self.new ≡ asked_once false self.old }
        ensures falls { result ≡ false }
    {
        self.askings.count(false);
        false
    }
}
