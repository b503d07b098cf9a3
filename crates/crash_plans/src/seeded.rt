//! A plan with pseudo-random crashes.

ghost use Rattle.std.specs.Prelude.{◌≡◌, ◌%◌, ◌<◌, ◌↔◌, IsTrue};
ghost use Rattle.rand_pcg.specs.Pcg.{pcg32};

use crate::asking_counter::AskingCounter;
use crate::crash_plan::CrashPlan;
use rand_core::SeedableRng;
use rand_core::utils::NextWord;
use rand_pcg::Lcg64Xsh32;
use std::marker::Model;

/// A plan that draws a number at each asking. The same seed gives the same numbers.
#[derive(Drop)]
pub struct Seeded {
    generator: Lcg64Xsh32,
    per_mille: u64,
    askings: AskingCounter,
}

impl Model for Seeded {
    ghost use Rattle.crash_plans.specs.Plans.{SeededState};

    ghost Value = { SeededState };

    ghost view = { λ s. record { generator = s.generator; per_mille = s.per_mille; askings = s.askings } };
}

impl Seeded {
    ghost use Rattle.crash_plans.specs.Plans.{no_askings};
    ghost use Rattle.rand_pcg.specs.Pcg.{pcg32_of_seed};
    ghost use Rattle.rand_core.specs.Pcg32Seed.{pcg32_seed};

    /// A plan that falls where the next draw modulo 1,000 is below `per_mille`. With 0 it never falls, from 1,000 on always.
    /// The generator is PCG XSH RR 64/32 (O'Neill, 2014), seeded as `rand` does.
    pub fn new(seed: u64, per_mille: u64) -> Seeded
        ensures { result ≡ record { generator = pcg32_of_seed (pcg32_seed 16 seed); per_mille = per_mille; askings = no_askings } }
    {
        Seeded {
            generator: Lcg64Xsh32::seed_from_u64(seed),
            per_mille,
            askings: AskingCounter::new(),
        }
    }
}

impl CrashPlan for Seeded {
    ghost use Rattle.crash_plans.specs.Plans.{asked_once};

    ghost askings = { λ s. s.askings };

    fn falls(&mut self) -> bool
        ensures askings { self.new.askings ≡ asked_once result self.old.askings }
        ensures falls { IsTrue result ↔ ((pcg32 self.old.generator).0 % 1000 < self.old.per_mille) }
        ensures next { self.new.generator ≡ (pcg32 self.old.generator).1 }
        ensures per_mille { self.new.per_mille ≡ self.old.per_mille }
    {
        let word = self.generator.next_word();
        let falls = u64::from(word % 1000) < self.per_mille;
        self.askings.count(falls);
        falls
    }
}
