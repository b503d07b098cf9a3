//! The option `--starving` of the command `explore`.

ghost use Rattle.std.specs.Prelude.{◌++◌, false, length, IfOk};
ghost use Rattle.command_parts.specs.Endings.{IsEnded, Prints};
ghost use Rattle.schedule.specs.Schedules.{spelling};
ghost use Rattle.lock_commands.specs.Explores.{BothEnd, StarvingEnds, schedule_of as schedule_by};
ghost use Rattle.command_parts.specs.Findings.{starves_line as starves_line_by};

use crate::explore_command::{calls_of, counts_of, layout_of, schedule_of};
use crate::stuck::tell_stuck;
use cli::arguments::args::{Cycles, ExploreArgs};
use command_parts::findings::{path_of_lasso, tell_never_starving, tell_starves};
use command_parts::options::is_any;
use command_parts::{CommandFault, Ending, Meter, Screen, Work};
use lock_explorer::{ExploreFault, Lasso, Move, StarvingOutcome, StuckBounds, starving_schedule};
use schedule::Sink;
use std::alloc::Global;

/// Writes a lasso: its stem and its cycle as a schedule, and whose call it is.
fn tell_lasso<W: Sink>(
    alloc: Global,
    args: &ExploreArgs,
    lasso: &Lasso<Move>,
    w: &mut W,
) -> Result<Ending, CommandFault>
    ensures prints { Prints 1 (spelling (schedule_by args.now (lasso.now.stem.items ++ lasso.now.cycle.items))
        ++ starves_line_by lasso.now.process (length lasso.now.cycle.items)) (W.tape w.old) (W.tape w.new) result }
    ensures ended { IfOk result (IsEnded false (W.tape w.old).failures (W.tape w.new).failures) }
{
    let path = path_of_lasso(alloc, lasso)?;
    let schedule = schedule_of(alloc, args, &path)?;
    let cycle = lasso.cycle.as_slice();
    tell_starves(alloc, &schedule, lasso.process, cycle.len() as u64, w)
}

/// Writes a schedule of fewest moves in which a process starves, or that there is none.
pub(crate) fn tell_starving<S: Screen, W: Sink>(
    alloc: Global,
    args: &ExploreArgs,
    cycles: Cycles,
    screen: &mut S,
    w: &mut W,
) -> Result<Ending, CommandFault>
    ensures ends { StarvingEnds cycles args.now (W.tape w.old) (W.tape w.new) result }
    ensures ended { IfOk result (IsEnded false (W.tape w.old).failures (W.tape w.new).failures) }
{
    let layout = layout_of(args)?;
    let bounds = StuckBounds {
        crashes: counts_of(args),
        states: args.states,
    };
    let calls = calls_of(alloc, args)?;
    let mut meter = Meter::new(screen, Work::Search);
    let found = starving_schedule(
        alloc,
        args.variant,
        layout,
        args.limit,
        &calls,
        is_any(cycles),
        &bounds,
        &mut meter,
    );
    meter.end();
    match found {
        Ok(StarvingOutcome::Fault(_)) => unreachable!(),
        Ok(StarvingOutcome::Starving(lasso)) => tell_lasso(alloc, args, &lasso, w),
        Ok(StarvingOutcome::NeverStarving(states)) => tell_never_starving(states, w),
        Err(ExploreFault::Refused(_)) => Err(CommandFault::BadSize),
        Err(ExploreFault::TooManyStates) => Err(CommandFault::TooManyStates),
        Err(ExploreFault::OutOfMemory) => Err(CommandFault::OutOfMemory),
    }
}

/// Writes what the search for stuck states has found, and then what this one has.
pub(crate) fn tell_both<S: Screen, W: Sink>(
    alloc: Global,
    args: &ExploreArgs,
    cycles: Cycles,
    screen: &mut S,
    w: &mut W,
) -> Result<Ending, CommandFault>
    ensures ends { BothEnd cycles args.now (W.tape w.old) (W.tape w.new) result }
    ensures ended { IfOk result (IsEnded false (W.tape w.old).failures (W.tape w.new).failures) }
{
    let first = tell_stuck(alloc, args, screen, w)?;
    let second = tell_starving(alloc, args, cycles, screen, w)?;
    Ok(Ending {
        status: first.status.max(second.status),
        save: None,
    })
}
