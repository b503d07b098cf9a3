//! The option `--stuck` of the command `explore --algorithm`.

ghost use Rattle.std.specs.Prelude.{◌≡◌, false, IfErr, IfOk, OnOk};
ghost use Rattle.algorithm_commands.specs.AlgorithmExplores.{StuckSearchEnds};
ghost use Rattle.command_parts.specs.Endings.{IsEnded};

use crate::algorithm_explore_command::{asked_search, tell_path};
use algorithm_explorer::{AlgorithmExploreFault, StuckOutcome, stuck_algorithm_schedule};
use algorithms::InitializedAlgorithm;
use cli::arguments::args::AlgorithmExploreArgs;
use command_parts::findings::tell_never;
use command_parts::{CommandFault, Ending, Meter, Screen, Work};
use schedule::Sink;
use std::alloc::Global;

/// Writes the schedule of fewest moves of the algorithm that goes wrong; where none does, the one of fewest moves to a stuck state;
/// or that there is none.
pub(crate) fn tell_stuck<S: Screen, W: Sink>(
    alloc: Global,
    algorithm: InitializedAlgorithm,
    args: &AlgorithmExploreArgs,
    screen: &mut S,
    w: &mut W,
) -> Result<Ending, CommandFault>
    ensures ends { StuckSearchEnds algorithm args.now (W.tape w.old) (W.tape w.new) result }
    ensures ended { IfOk result (IsEnded false (W.tape w.old).failures (W.tape w.new).failures) }
{
    let search = asked_search(alloc, algorithm, args)?;
    let mut meter = Meter::new(screen, Work::Search);
    let found = stuck_algorithm_schedule(alloc, search, args.states, &mut meter);
    meter.end();
    match found {
        Ok(StuckOutcome::Fault(path)) => tell_path(alloc, args, &path, w),
        Ok(StuckOutcome::Stuck(path)) => tell_path(alloc, args, &path, w),
        Ok(StuckOutcome::NeverStuck(states)) => tell_never(states, w),
        Err(AlgorithmExploreFault::Refused(_)) => Err(CommandFault::BadSize),
        Err(AlgorithmExploreFault::TooManyStates) => Err(CommandFault::TooManyStates),
        Err(AlgorithmExploreFault::OutOfMemory) => Err(CommandFault::OutOfMemory),
    }
}
