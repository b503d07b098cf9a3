//! Minimizes a schedule that goes wrong on a variant.

ghost use Rattle.std.specs.Prelude.{IfOk, MatchResult, Some};
ghost use Rattle.crashlab.specs.hunts.Hunts.{IsFound};
ghost use Rattle.crashlab.specs.minimization.Shrunk.{IsReason, Shrinks};

use crate::minimization::minimizer::minimize;
use crate::minimization::played::{VariantOracle, play};
use crate::variants::variant::Variant;
use schedule::replays::verdict::fault_number;
use schedule::{OutOfMemory, ReplayFault, Schedule, Verdict};
use std::alloc::Global;

/// Minimizes a schedule whose verdict on the variant is against some number. No line of the result can be left out, and no
/// count of steps lowered by one, without losing a verdict against that number. None where the verdict is fine.
/// `Refused` where a world of the variant refuses the sizes or a line.
pub fn shrink(
    alloc: Global,
    variant: Variant,
    schedule: &Schedule,
) -> Result<Option<Schedule>, ReplayFault>
    ensures { MatchResult result (Shrinks variant schedule.now) (IsReason variant schedule.now) }
{
    let fault = match play(alloc, variant, schedule)? {
        Verdict::Fine => return Ok(None),
        Verdict::Against { fault, .. } => fault,
    };
    let mut oracle = VariantOracle {
        alloc,
        variant,
        number: fault_number(fault),
    };
    match minimize(alloc, &mut oracle, schedule) {
        Ok(least) => Ok(Some(least)),
        Err(OutOfMemory) => Err(ReplayFault::OutOfMemory),
    }
}

/// The same for a schedule that a hunt has found, which always goes wrong.
pub fn shrink_found(
    alloc: Global,
    variant: Variant,
    found: &Schedule,
) -> Result<Schedule, OutOfMemory>
    requires { IsFound variant found.now }
    ensures { IfOk result (λ least. Shrinks variant found.now (Some least)) }
{
    found.can_be_spelled();
    match shrink(alloc, variant, found) {
        Ok(Some(least)) => Ok(least),
        Ok(None) => unreachable!(),
        // A schedule that was found is not refused.
        Err(_) => Err(OutOfMemory),
    }
}
