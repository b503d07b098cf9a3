//! The command `cost --mean`.

ghost use Rattle.std.specs.Prelude.{◌≡◌, false, IfOk, option_copied};
ghost use Rattle.algorithm_commands.specs.AlgorithmMeanCosts.{AlgorithmMeanEnds, CountsAlgorithm, mean_line as mean_line_by};
ghost use Rattle.command_parts.specs.Endings.{IsEnded, Prints};

use crate::algorithm_hunt_command::hunt_fault;
use crate::algorithm_replay_command::algorithm_read;
use crate::line::mean_line;
use algorithm_hunts::{CostTotals, RandomRounds, algorithm_cost_totals};
use algorithms::InitializedAlgorithm;
use cli::arguments::args::MeanCostArgs;
use command_parts::findings::tell_text;
use command_parts::{CommandFault, Ending};
use schedule::Sink;
use std::alloc::Global;

/// Writes how many passages there were, what they cost together, and the mean.
fn tell_totals<W: Sink>(totals: CostTotals, w: &mut W) -> Result<Ending, CommandFault>
    ensures prints { Prints 0 (mean_line_by totals) (W.tape w.old) (W.tape w.new) result }
    ensures ended { IfOk result (IsEnded false (W.tape w.old).failures (W.tape w.new).failures) }
{
    let line = mean_line(totals);
    tell_text(line.as_bytes(), 0, w)
}

/// Writes how many passages random schedules of the algorithm complete, what they cost together, and the mean.
fn tell_mean<W: Sink>(
    alloc: Global,
    algorithm: InitializedAlgorithm,
    args: &MeanCostArgs,
    w: &mut W,
) -> Result<Ending, CommandFault>
    ensures ends { CountsAlgorithm algorithm args.now (W.tape w.old) (W.tape w.new) result }
    ensures ended { IfOk result (IsEnded false (W.tape w.old).failures (W.tape w.new).failures) }
{
    let asked = RandomRounds {
        model: args.model,
        rounds: args.rounds,
        steps: args.steps,
    };
    let counted = algorithm_cost_totals(alloc, algorithm, args.procs, args.limit, asked, args.seed);
    match counted {
        Ok(totals) => tell_totals(totals, w),
        Err(fault) => Err(hunt_fault(fault)),
    }
}

/// Runs `cost --mean`: reads the algorithm from its text, counts the remote references of the passages that random schedules of it
/// complete, and writes their number, what they cost together, and the mean, rounded down to hundredths. The same arguments give the
/// same line. `Algorithm`: the text's fault. `BadSize`: the algorithm is not for this number of processes, or another number is outside
/// its range.
#[tactic(auto, using(crate::proofs::AlgorithmTexts::no_algorithm_alone))]
pub fn algorithm_mean_command<W: Sink>(
    alloc: Global,
    args: &MeanCostArgs,
    text: Option<&[u8]>,
    w: &mut W,
) -> Result<Ending, CommandFault>
    ensures ends { AlgorithmMeanEnds args.now (option_copied text.entry) (W.tape w.old) (W.tape w.new) result }
    ensures ended { IfOk result (IsEnded false (W.tape w.old).failures (W.tape w.new).failures) }
{
    let algorithm = algorithm_read(alloc, text)?;
    tell_mean(alloc, algorithm, args, w)
}
