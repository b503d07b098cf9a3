//! The option `--stuck` of the command `explore`.

ghost use Rattle.std.specs.Prelude.{false, IfOk};
ghost use Rattle.command_parts.specs.Endings.{IsEnded};
ghost use Rattle.lock_commands.specs.Explores.{StuckEnds};

use crate::explore_command::{calls_of, counts_of, layout_of, tell_path};
use cli::arguments::args::ExploreArgs;
use command_parts::findings::tell_never;
use command_parts::{CommandFault, Ending, Meter, Screen, Work};
use lock_explorer::{ExploreFault, StuckBounds, StuckOutcome, stuck_schedule};
use schedule::Sink;
use std::alloc::Global;

/// Writes the schedule of fewest moves that goes wrong; where none does, the one of fewest moves to a stuck state; or that
/// there is none.
pub(crate) fn tell_stuck<S: Screen, W: Sink>(
    alloc: Global,
    args: &ExploreArgs,
    screen: &mut S,
    w: &mut W,
) -> Result<Ending, CommandFault>
    ensures ends { StuckEnds args.now (W.tape w.old) (W.tape w.new) result }
    ensures ended { IfOk result (IsEnded false (W.tape w.old).failures (W.tape w.new).failures) }
{
    let layout = layout_of(args)?;
    let bounds = StuckBounds {
        crashes: counts_of(args),
        states: args.states,
    };
    let calls = calls_of(alloc, args)?;
    let mut meter = Meter::new(screen, Work::Search);
    let found = stuck_schedule(
        alloc,
        args.variant,
        layout,
        args.limit,
        &calls,
        &bounds,
        &mut meter,
    );
    meter.end();
    match found {
        Ok(StuckOutcome::Fault(path)) => tell_path(alloc, args, &path, w),
        Ok(StuckOutcome::Stuck(path)) => tell_path(alloc, args, &path, w),
        Ok(StuckOutcome::NeverStuck(states)) => tell_never(states, w),
        Err(ExploreFault::Refused(_)) => Err(CommandFault::BadSize),
        Err(ExploreFault::TooManyStates) => Err(CommandFault::TooManyStates),
        Err(ExploreFault::OutOfMemory) => Err(CommandFault::OutOfMemory),
    }
}
