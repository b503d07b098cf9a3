//! The command `hunt`.

ghost use Rattle.std.specs.Prelude.{◌≡◌, ◌⊎◌, ◌≤◌, Result, length, IfErr, IfOk, IfSome, IsNone, true, false};
ghost use Rattle.crashlab.specs.hunts.Hunted.{found_from};
ghost use Rattle.crashlab.specs.hunts.Hunts.{IsFound};
ghost use Rattle.cli.specs.Sizes.{HuntFits};
ghost use Rattle.lock_commands.specs.Ends.{HuntEnds, TellsFound};
ghost use Rattle.command_parts.specs.Endings.{IsEnded};

use cli::arguments::args::HuntArgs;
use command_parts::findings::{tell_nothing, tell_schedule};
use command_parts::options::jobs_of;
use command_parts::{CommandFault, Ending, Meter, Screen, Work};
use crashlab::{HuntFault, Variant, hunt_in_parallel_watched, hunt_part, shrink_found};
use schedule::{Schedule, Sink};
use std::alloc::Global;
use std::thread::Threads;

/// Shrinks the schedule that a hunt has found, and writes it.
fn tell_least<W: Sink>(
    alloc: Global,
    variant: Variant,
    found: &Schedule,
    w: &mut W,
) -> Result<Ending, CommandFault>
    requires { IsFound variant found.now }
    ensures reports { TellsFound true variant found.now (W.tape w.old) (W.tape w.new) result }
    ensures ended { IfOk result (IsEnded false (W.tape w.old).failures (W.tape w.new).failures) }
{
    let least = shrink_found(alloc, variant, found)?;
    tell_schedule(alloc, &least, w)
}

/// Writes the schedule that a hunt has found, shrunk if that is asked for.
fn tell_found<W: Sink>(
    alloc: Global,
    args: &HuntArgs,
    found: &Schedule,
    w: &mut W,
) -> Result<Ending, CommandFault>
    requires { IsFound args.now.variant found.now }
    ensures reports { TellsFound args.now.shrink args.now.variant found.now (W.tape w.old) (W.tape w.new) result }
    ensures ended { IfOk result (IsEnded false (W.tape w.old).failures (W.tape w.new).failures) }
{
    if args.shrink {
        tell_least(alloc, args.variant, found, w)
    } else {
        tell_schedule(alloc, found, w)
    }
}

/// The schedule that a hunt finds, from its first round on. From round 0 on it is hunted by threads. Progress is shown on the screen.
fn schedule_of_hunt<T: Threads + Sync, S: Screen>(
    rt: &T,
    alloc: Global,
    args: &HuntArgs,
    screen: &mut S,
) -> Result<Option<Schedule>, HuntFault>
    ensures exact { IfOk result (λ found. found
        ≡ found_from args.now.variant args.now.moves args.now.first_round args.now.rounds) }
    ensures right { args.now.variant ≡ Variant.Right → IfOk result IsNone }
    ensures found { IfOk result (λ found. IfSome found (λ schedule. IsFound args.now.variant schedule)) }
    ensures moves { IfOk result (λ found. IfSome found (λ schedule. length schedule.lines ≤ args.now.moves.steps)) }
    ensures failed { IfErr result (λ fault. (fault ≡ HuntFault.OutOfMemory) ⊎ (HuntFits args.now → ⊥)) }
{
    if args.first_round > 0 {
        return hunt_part(
            alloc,
            args.variant,
            args.moves,
            args.first_round,
            args.rounds,
        );
    }
    let mut meter = Meter::new(screen, Work::Hunt);
    let found = hunt_in_parallel_watched(
        rt,
        alloc,
        jobs_of(rt, args.jobs),
        args.variant,
        args.moves,
        args.rounds,
        &mut meter,
    );
    meter.end();
    found
}

/// Runs `hunt`: writes the schedule that was found, or that there is none. It is the same for any number of threads. Progress
/// is shown on the screen. `BadSize`: a number is outside its range. Other faults are those of the writer and of memory.
pub fn hunt_command<T: Threads + Sync, S: Screen, W: Sink>(
    rt: &T,
    alloc: Global,
    args: &HuntArgs,
    screen: &mut S,
    w: &mut W,
) -> Result<Ending, CommandFault>
    ensures ends { HuntEnds args.now (W.tape w.old) (W.tape w.new) result }
    ensures ended { IfOk result (IsEnded false (W.tape w.old).failures (W.tape w.new).failures) }
{
    match schedule_of_hunt(rt, alloc, args, screen) {
        Ok(Some(schedule)) => tell_found(alloc, args, &schedule, w),
        Ok(None) => tell_nothing(w),
        Err(HuntFault::BadRounds | HuntFault::BadSteps) => Err(CommandFault::BadSize),
        Err(HuntFault::OutOfMemory) => Err(CommandFault::OutOfMemory),
    }
}
