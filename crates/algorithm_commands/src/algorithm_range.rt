//! The search of an algorithm that promises that no value leaves its range.

ghost use Rattle.std.specs.Prelude.{◌≡◌, false, IfErr, IfOk, OnOk};
ghost use Rattle.algorithm_commands.specs.AlgorithmExplores.{ExploresInRange};
ghost use Rattle.command_parts.specs.Endings.{IsEnded};

use crate::algorithm_explore_command::{asked_search, tell_path};
use algorithm_explorer::{
    AlgorithmBounds, AlgorithmExploreFault, SearchOutcome, shortest_schedule_in_range,
};
use algorithms::InitializedAlgorithm;
use cli::arguments::args::AlgorithmExploreArgs;
use command_parts::findings::{tell_all, tell_within};
use command_parts::options::jobs_of;
use command_parts::{CommandFault, Ending, Meter, Screen, Work};
use schedule::Sink;
use std::alloc::Global;
use std::thread::Threads;

/// Writes the schedule of fewest moves of the algorithm that goes wrong, or ends with a move that is refused since a value would leave
/// its range; or that there is none.
pub(crate) fn tell_in_range<T: Threads + Sync, S: Screen, W: Sink>(
    rt: &T,
    alloc: Global,
    algorithm: InitializedAlgorithm,
    args: &AlgorithmExploreArgs,
    screen: &mut S,
    w: &mut W,
) -> Result<Ending, CommandFault>
    ensures ends { ExploresInRange algorithm args.now (W.tape w.old) (W.tape w.new) result }
    ensures ended { IfOk result (IsEnded false (W.tape w.old).failures (W.tape w.new).failures) }
{
    let bounds = AlgorithmBounds {
        moves: args.moves,
        states: args.states,
    };
    let search = asked_search(alloc, algorithm, args)?;
    let mut meter = Meter::new(screen, Work::Search);
    let found = shortest_schedule_in_range(
        rt,
        alloc,
        jobs_of(rt, args.jobs) as usize,
        search,
        &bounds,
        &mut meter,
    );
    meter.end();
    match found {
        Ok(SearchOutcome::Path(path)) => tell_path(alloc, args, &path, w),
        Ok(SearchOutcome::NoneWithin) => tell_within(args.moves, w),
        Ok(SearchOutcome::Nowhere(states)) => tell_all(states, w),
        Err(AlgorithmExploreFault::Refused(_)) => Err(CommandFault::BadSize),
        Err(AlgorithmExploreFault::TooManyStates) => Err(CommandFault::TooManyStates),
        Err(AlgorithmExploreFault::OutOfMemory) => Err(CommandFault::OutOfMemory),
    }
}
