//! The option `--starving` of the command `explore --algorithm`.

ghost use Rattle.std.specs.Prelude.{◌≡◌, ◌++◌, false, length, IfErr, IfOk, OnOk};
ghost use Rattle.algorithm_commands.specs.AlgorithmExplores.{StarvesAlgorithm, schedule_of as schedule_by};
ghost use Rattle.command_parts.specs.Endings.{IsEnded, Prints};
ghost use Rattle.command_parts.specs.Findings.{starves_line};
ghost use Rattle.schedule.specs.Schedules.{spelling};

use crate::algorithm_explore_command::{asked_search, schedule_of};
use algorithm_explorer::{
    AlgorithmExploreFault, AlgorithmMove, Lasso, StarvingOutcome, starving_algorithm_schedule,
};
use algorithms::InitializedAlgorithm;
use cli::arguments::args::{AlgorithmExploreArgs, Cycles};
use command_parts::findings::{path_of_lasso, tell_never_starving, tell_starves};
use command_parts::options::is_any;
use command_parts::{CommandFault, Ending, Meter, Screen, Work};
use schedule::Sink;
use std::alloc::Global;

/// Writes a lasso: its stem and its cycle as a schedule, and whose call it is.
fn tell_lasso<W: Sink>(
    alloc: Global,
    args: &AlgorithmExploreArgs,
    lasso: &Lasso<AlgorithmMove>,
    w: &mut W,
) -> Result<Ending, CommandFault>
    ensures prints { Prints 1 (spelling (schedule_by args.now (lasso.now.stem.items ++ lasso.now.cycle.items))
        ++ starves_line lasso.now.process (length lasso.now.cycle.items)) (W.tape w.old) (W.tape w.new) result }
    ensures ended { IfOk result (IsEnded false (W.tape w.old).failures (W.tape w.new).failures) }
{
    let path = path_of_lasso(alloc, lasso)?;
    let schedule = schedule_of(alloc, args, &path)?;
    let cycle = lasso.cycle.as_slice();
    tell_starves(alloc, &schedule, lasso.process, cycle.len() as u64, w)
}

/// Writes a schedule of fewest moves of the algorithm in which a process starves, or that there is none.
pub(crate) fn tell_starving<S: Screen, W: Sink>(
    alloc: Global,
    algorithm: InitializedAlgorithm,
    args: &AlgorithmExploreArgs,
    cycles: Cycles,
    screen: &mut S,
    w: &mut W,
) -> Result<Ending, CommandFault>
    ensures ends { StarvesAlgorithm cycles algorithm args.now (W.tape w.old) (W.tape w.new) result }
    ensures ended { IfOk result (IsEnded false (W.tape w.old).failures (W.tape w.new).failures) }
{
    let search = asked_search(alloc, algorithm, args)?;
    let mut meter = Meter::new(screen, Work::Search);
    let found = starving_algorithm_schedule(alloc, search, is_any(cycles), args.states, &mut meter);
    meter.end();
    match found {
        Ok(StarvingOutcome::Fault(_)) => unreachable!(),
        Ok(StarvingOutcome::Starving(lasso)) => tell_lasso(alloc, args, &lasso, w),
        Ok(StarvingOutcome::NeverStarving(states)) => tell_never_starving(states, w),
        Err(AlgorithmExploreFault::Refused(_)) => Err(CommandFault::BadSize),
        Err(AlgorithmExploreFault::TooManyStates) => Err(CommandFault::TooManyStates),
        Err(AlgorithmExploreFault::OutOfMemory) => Err(CommandFault::OutOfMemory),
    }
}
