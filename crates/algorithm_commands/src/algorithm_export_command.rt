//! The command `export`.

ghost use Rattle.std.specs.Prelude.{◌≡◌, false, IfOk, option_copied};
ghost use Rattle.algorithm_commands.specs.AlgorithmExplores.{all_calls_of as all_calls};
ghost use Rattle.algorithm_commands.specs.AlgorithmExports.{AlgorithmExportEnds, ExportsAlgorithm};
ghost use Rattle.command_parts.specs.Endings.{IsEnded};

use crate::algorithm_explore_command::{calls_had, calls_listed};
use crate::algorithm_replay_command::algorithm_read;
use algorithms::{AlgorithmCall, InitializedAlgorithm};
use cli::arguments::args::ExportArgs;
use command_parts::findings::tell_text;
use command_parts::{CommandFault, Ending};
use promela::{PromelaFault, write_promela};
use schedule::Sink;
use std::alloc::{AllocError, Global};

/// All calls that the text has, in the order in which a search starts them.
fn all_calls_of(
    alloc: Global,
    algorithm: &InitializedAlgorithm,
) -> Result<Vec<AlgorithmCall>, AllocError>
    ensures { IfOk result (λ calls. calls.items ≡ all_calls algorithm.now) }
{
    calls_listed(alloc, calls_had(&algorithm.algorithm.entries))
}

/// Writes the model of the algorithm.
fn tell_model<W: Sink>(
    alloc: Global,
    algorithm: InitializedAlgorithm,
    args: &ExportArgs,
    w: &mut W,
) -> Result<Ending, CommandFault>
    ensures ends { ExportsAlgorithm algorithm args.now (W.tape w.old) (W.tape w.new) result }
    ensures ended { IfOk result (IsEnded false (W.tape w.old).failures (W.tape w.new).failures) }
{
    let calls = all_calls_of(alloc, &algorithm)?;
    let written = write_promela(
        alloc,
        algorithm,
        args.procs,
        args.limit,
        args.crashes,
        &calls,
    );
    match written {
        Ok(text) => tell_text(&text, 0, w),
        Err(PromelaFault::Refused(_) | PromelaFault::TooGreat) => Err(CommandFault::BadSize),
        Err(PromelaFault::OutOfMemory) => Err(CommandFault::OutOfMemory),
    }
}

/// Runs `export --promela`: reads the algorithm from its text, and writes the model of its worlds in Promela, in which all its calls
/// may start. `Algorithm`: the text's fault. `BadSize`: the algorithm is not for this number of processes, the limit is outside its
/// range, or a number is too great for a model.
#[tactic(auto, using(crate::proofs::AlgorithmTexts::no_algorithm_alone))]
pub fn algorithm_export_command<W: Sink>(
    alloc: Global,
    args: &ExportArgs,
    text: Option<&[u8]>,
    w: &mut W,
) -> Result<Ending, CommandFault>
    ensures ends { AlgorithmExportEnds args.now (option_copied text.entry) (W.tape w.old) (W.tape w.new) result }
    ensures ended { IfOk result (IsEnded false (W.tape w.old).failures (W.tape w.new).failures) }
{
    let algorithm = algorithm_read(alloc, text)?;
    tell_model(alloc, algorithm, args, w)
}
