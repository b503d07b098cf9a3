//! The verdict on a schedule that is played on a variant.

ghost use Rattle.std.specs.Prelude.{◌≡◌};
ghost use Rattle.rmecore.specs.Refused.{number_of};
ghost use Rattle.schedule.specs.Wholes.{header_fault};
ghost use Rattle.crashlab.specs.minimization.Shrunk.{PlayAnswers, GoesWrong};

use crate::minimization::oracle::Oracle;
use crate::variants::variant::Variant;
use crate::variants::variant_world::VariantWorld;
use judge::Judge;
use rmecore::Refusal;
use schedule::replays::verdict::fault_number;
use schedule::{OutOfMemory, Page, ReplayFault, Schedule, Verdict, replay_on};
use std::alloc::Global;

/// The oracle of a variant: a schedule goes wrong where its verdict on the variant is against this number.
#[derive(Clone, Copy)]
pub struct VariantOracle {
    pub alloc: Global,
    pub variant: Variant,
    pub number: u64,
}

/// The fault where no world has the schedule's sizes.
fn at_header(refusal: Refusal) -> ReplayFault
    ensures { result ≡ header_fault (number_of refusal) }
{
    match refusal.number() {
        Some(number) => ReplayFault::Refused { line: 1, number },
        None => ReplayFault::OutOfMemory,
    }
}

/// Plays a schedule on a new world of the variant, before a new judge.
pub fn play(alloc: Global, variant: Variant, schedule: &Schedule) -> Result<Verdict, ReplayFault>
    ensures { PlayAnswers variant schedule.now result }
{
    let head = schedule.head();
    let mut world = match VariantWorld::new(
        alloc, variant, head.procs, head.limit, head.cap, head.width,
    ) {
        Ok(world) => world,
        Err(refusal) => return Err(at_header(refusal)),
    };
    let Ok(mut judge) = Judge::new(alloc, head.procs, head.cap) else {
        return Err(ReplayFault::OutOfMemory);
    };
    // A page fails only where it is out of memory.
    let mut page = Page::new(alloc);
    match replay_on(alloc, &mut world, &mut judge, schedule, &mut page) {
        Ok(verdict) => Ok(verdict),
        Err(ReplayFault::Refused { line, number }) => Err(ReplayFault::Refused { line, number }),
        Err(_) => Err(ReplayFault::OutOfMemory),
    }
}

impl Oracle for VariantOracle {
    ghost use Rattle.std.specs.Prelude.{ℕ};
    ghost use Rattle.crashlab.specs.declared.variants.variant.Variant.{Variant as VariantOf};

    ghost Criterion = { VariantOf × ℕ };

    ghost criterion_of = { λ oracle. (oracle.variant, oracle.number) };

    ghost is_wrong = { λ criterion. GoesWrong criterion.0 criterion.1 };

    fn goes_wrong(&mut self, schedule: &Schedule) -> Result<bool, OutOfMemory> {
        match play(self.alloc, self.variant, schedule) {
            Ok(Verdict::Against { fault, .. }) => Ok(fault_number(fault) == self.number),
            Ok(Verdict::Fine) | Err(ReplayFault::Refused { .. }) => Ok(false),
            Err(_) => Err(OutOfMemory),
        }
    }
}
