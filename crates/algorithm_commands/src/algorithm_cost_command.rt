//! The command `cost`.

ghost use Rattle.std.specs.Prelude.{◌≡◌, false, IfOk, option_copied};
ghost use Rattle.algorithm_commands.specs.AlgorithmCosts.{AlgorithmCostEnds, CostsAlgorithm, question_of as question_asked};
ghost use Rattle.command_parts.specs.Endings.{IsEnded};

use crate::algorithm_explore_command::{asked_search, schedule_of};
use crate::algorithm_replay_command::algorithm_read;
use algorithm_explorer::{AlgorithmExploreFault, CostQuestion, algorithm_cost};
use algorithms::InitializedAlgorithm;
use cli::arguments::args::CostArgs;
use command_parts::costs::{path_of_cost, tell_cost};
use command_parts::{CommandFault, Ending, Meter, Screen, Work};
use schedule::Sink;
use std::alloc::Global;

/// What is asked.
fn question_of(args: &CostArgs) -> CostQuestion
    ensures { result ≡ question_asked args.now }
{
    CostQuestion {
        model: args.model,
        kind: args.kind,
    }
}

/// Writes the greatest cost of a passage of the algorithm with a schedule that reaches it, or a cycle by which there is none.
fn tell_costs<S: Screen, W: Sink>(
    alloc: Global,
    algorithm: InitializedAlgorithm,
    args: &CostArgs,
    screen: &mut S,
    w: &mut W,
) -> Result<Ending, CommandFault>
    ensures ends { CostsAlgorithm algorithm args.now (W.tape w.old) (W.tape w.new) result }
    ensures ended { IfOk result (IsEnded false (W.tape w.old).failures (W.tape w.new).failures) }
{
    let search = asked_search(alloc, algorithm, &args.search)?;
    let mut meter = Meter::new(screen, Work::Search);
    let found = algorithm_cost(
        alloc,
        search,
        question_of(args),
        args.search.states,
        &mut meter,
    );
    meter.end();
    match found {
        Ok(cost) => {
            let path = path_of_cost(alloc, &cost)?;
            let schedule = schedule_of(alloc, &args.search, &path)?;
            tell_cost(alloc, &schedule, args.kind, &cost, w)
        }
        Err(AlgorithmExploreFault::Refused(_)) => Err(CommandFault::BadSize),
        Err(AlgorithmExploreFault::TooManyStates) => Err(CommandFault::TooManyStates),
        Err(AlgorithmExploreFault::OutOfMemory) => Err(CommandFault::OutOfMemory),
    }
}

/// Runs `cost`: reads the algorithm from its text, searches its schedules in this thread, and writes the greatest cost of a passage
/// with a schedule that reaches it, or a schedule whose last moves are a cycle by which there is none. Progress is shown on the
/// screen. `Algorithm`: the text's fault. `BadSize`: the algorithm is not for this number of processes, or the limit is outside its
/// range. `TooManyStates`: the search reached more states than it may keep.
#[tactic(auto, using(crate::proofs::AlgorithmTexts::no_algorithm_alone))]
pub fn algorithm_cost_command<S: Screen, W: Sink>(
    alloc: Global,
    args: &CostArgs,
    text: Option<&[u8]>,
    screen: &mut S,
    w: &mut W,
) -> Result<Ending, CommandFault>
    ensures ends { AlgorithmCostEnds args.now (option_copied text.entry) (W.tape w.old) (W.tape w.new) result }
    ensures ended { IfOk result (IsEnded false (W.tape w.old).failures (W.tape w.new).failures) }
{
    let algorithm = algorithm_read(alloc, text)?;
    tell_costs(alloc, algorithm, args, screen, w)
}
