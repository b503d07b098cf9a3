//! A crash of all processes in a round of a hunt.

ghost use Rattle.std.specs.Prelude.{◌≡◌, ◌<◌, ◌∷◌, []};
ghost use Rattle.judge.specs.Legal.{judged_all};
ghost use Rattle.judge.specs.Stands.{Keeps};
ghost use Rattle.judge.specs.Table.{State};
ghost use Rattle.schedule.specs.Schedules.{Scheduled};
ghost use Rattle.crashlab.specs.declared.variants.variant.Variant.{Variant as VariantOf};
ghost use Rattle.crashlab.specs.hunts.Found.{line_by, with_line};
ghost use Rattle.crashlab.specs.hunts.Hunts.{IsPlayed};
ghost use Rattle.crashlab.specs.space.Spaces.{judge_by};
ghost use Rattle.crashlab.specs.variants.VariantWorlds.{crash_deed, variant_after_crash};

use crate::hunts::moves::DrawnMove;
use crate::variants::variant_world::VariantWorld;
use judge::Judge;

/// Crashes process p of a world, and gives a judge the deed. A judge allows the crash of each of its own processes.
fn crash_one(world: &mut VariantWorld, judge: &mut Judge, p: u64)
    requires { p < world.old.layout.procs }
    ensures crashed { world.new ≡ variant_after_crash world.old p }
    ensures keeps { (s : State) → Keeps judge.old s → Keeps judge.new (judge_by s (judged_all s (crash_deed p ∷ []))) }
{
    match world.take_crash(p) {
        Ok(deed) => match judge.feed_from(&deed) {
            Ok(()) => {}
            Err(_) => {}
        },
        Err(_) => unreachable!(),
    }
}

/// Crashes each process of a world, by rising number, and gives the judge the deeds. The judge allows them.
pub(crate) fn crash_each(world: &mut VariantWorld, judge: &mut Judge)
    ensures { (variant : VariantOf) (schedule : Scheduled) → IsPlayed variant schedule world.old judge.old
        → IsPlayed variant (with_line schedule (line_by DrawnMove.CrashAll)) world.new judge.new }
{
    for p in 0..world.layout().procs {
        crash_one(world, judge, p);
    }
}
