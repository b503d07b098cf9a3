//! The command `states` on an algorithm's text.

ghost use Rattle.std.specs.Prelude.{◌≡◌, ◌⊎◌, ℕ, List, Bool, false, None, IfErr, IfOk, option_copied};
ghost use Rattle.algorithms.specs.Worlds.{new_refusal};
ghost use Rattle.algorithm_explorer.specs.Boards.{search_state_of};
ghost use Rattle.algorithm_explorer.specs.Live.{IsLeastLive};
ghost use Rattle.algorithms.specs.declared.first_values.InitializedAlgorithm.{InitializedAlgorithm as AnyAlgorithm};
ghost use Rattle.algorithm_commands.specs.AlgorithmExplores.{start_of as start_by};
ghost use Rattle.command_parts.specs.Endings.{IsEnded};
ghost use Rattle.algorithm_commands.specs.AlgorithmStates.{algorithm_run, AlgorithmStatesEnd, AlgorithmStatesLack, AreAlgorithmLines};
ghost use Rattle.command_parts.specs.StateTexts.{ToolEnds};

use crate::algorithm_explore_command::{asked_calls, asked_search, tell_path};
use crate::algorithm_replay_command::{algorithm_read, text_of};
use crate::machine_text::algorithm_machine_of;
use algorithm_explorer::{AlgorithmExploreFault, AlgorithmExplorer};
use algorithms::InitializedAlgorithm;
use cli::arguments::args::{AlgorithmExploreArgs, AlgorithmStatesArgs, StatesTool};
use command_parts::states::expansion::expand_input;
use command_parts::states::set_check::check_input;
use command_parts::states::set_reader::lead_input;
use command_parts::states::set_walk::walk_of_input;
use command_parts::states::state_form::form_of;
use command_parts::states::states_start::write_first;
use command_parts::{CommandFault, Ending};
use explorer::Space;
use schedule::{Sink, Source};
use state_streams::{Approach, KeyForm};
use std::alloc::Global;

/// The first state of an algorithm's search. `BadSize`: the algorithm has no world of these sizes.
fn explorer_of(
    alloc: Global,
    algorithm: InitializedAlgorithm,
    args: &AlgorithmExploreArgs,
) -> Result<AlgorithmExplorer, CommandFault>
    ensures made { IfOk result (λ explorer. (live : List (List Bool)) × IsLeastLive algorithm.algorithm live
        × (search_state_of explorer ≡ start_by algorithm args.now live)) }
    ensures refused { IfErr result (λ fault. (fault ≡ CommandFault.OutOfMemory)
        ⊎ (fault ≡ CommandFault.BadSize) × (new_refusal algorithm args.now.procs args.now.limit ≡ None → ⊥)) }
{
    let search = asked_search(alloc, algorithm, args)?;
    match AlgorithmExplorer::new(alloc, search) {
        Ok(explorer) => Ok(explorer),
        Err(AlgorithmExploreFault::Refused(_)) => Err(CommandFault::BadSize),
        Err(AlgorithmExploreFault::TooManyStates) => unreachable!(),
        Err(AlgorithmExploreFault::OutOfMemory) => Err(CommandFault::OutOfMemory),
    }
}

/// Does what the tool says with the lines of states.
fn carry_out_tool<R: Source, W: Sink>(
    alloc: Global,
    args: &AlgorithmStatesArgs,
    here: &mut AlgorithmExplorer,
    machine: &[u8],
    form: &KeyForm,
    r: &mut R,
    w: &mut W,
) -> Result<Ending, CommandFault>
    ensures ends { (algorithm : AnyAlgorithm) (text : List ℕ) (live : List (List Bool))
        → AreAlgorithmLines algorithm text args.now live (search_state_of here.old) machine.now form.now
        → ToolEnds (algorithm_run algorithm text args.now live)
        (R.reading r.old) (R.reading r.new) (W.tape w.old) (W.tape w.new) result }
    ensures ended { IfOk result (IsEnded false (W.tape w.old).failures (W.tape w.new).failures) }
{
    match args.stream.tool {
        StatesTool::First => write_first(alloc, here, machine, form, w),
        StatesTool::Expand => expand_input(alloc, here, machine, form, r, w),
        StatesTool::Lead => lead_input(alloc, here, machine, form, Approach::AnyMove, r, w),
        StatesTool::Home => lead_input(alloc, here, machine, form, Approach::WayHome, r, w),
        StatesTool::Check => check_input(alloc, here, machine, form, &args.stream, r, w),
        StatesTool::Walk => {
            let path = walk_of_input(alloc, here, machine, form, r)?;
            tell_path(alloc, &args.search, &path, w)
        }
    }
}

/// Does what the tool says with the lines of the states of the search of the algorithm with this text.
fn states_of_algorithm<R: Source, W: Sink>(
    alloc: Global,
    algorithm: InitializedAlgorithm,
    args: &AlgorithmStatesArgs,
    text: &[u8],
    r: &mut R,
    w: &mut W,
) -> Result<Ending, CommandFault>
    ensures ends { AlgorithmStatesLack algorithm text.now args.now (W.tape w.old) (W.tape w.new) result
        × (R.reading r.new ≡ R.reading r.old) ⊎ ((live : List (List Bool)) × IsLeastLive algorithm.algorithm live
        × ToolEnds (algorithm_run algorithm text.now args.now live) (R.reading r.old) (R.reading r.new) (W.tape w.old)
        (W.tape w.new) result) }
    ensures ended { IfOk result (IsEnded false (W.tape w.old).failures (W.tape w.new).failures) }
{
    let calls = asked_calls(&algorithm, &args.search);
    let machine = algorithm_machine_of(alloc, text, &args.search, calls)?;
    let mut here = explorer_of(alloc, algorithm, &args.search)?;
    let mut key = Vec::new(alloc);
    here.write_key(&mut key)?;
    let Some(form) = form_of(&args.stream, args.search.procs, key.len()) else {
        return Err(CommandFault::BadSize);
    };
    carry_out_tool(alloc, args, &mut here, &machine, &form, r, w)
}

/// Runs `states --algorithm`: reads the algorithm from its text, and does what the tool says with the lines of the states of its
/// search. `Algorithm`: the text's fault. `BadSize`: the algorithm has no world of these sizes, the lines can't have the form, or
/// there is no such part. `States`: a line is at fault.
pub fn algorithm_states_command<R: Source, W: Sink>(
    alloc: Global,
    args: &AlgorithmStatesArgs,
    text: Option<&[u8]>,
    r: &mut R,
    w: &mut W,
) -> Result<Ending, CommandFault>
    ensures ends { AlgorithmStatesEnd args.now (option_copied text.entry) (R.reading r.old) (R.reading r.new)
        (W.tape w.old) (W.tape w.new) result }
    ensures ended { IfOk result (IsEnded false (W.tape w.old).failures (W.tape w.new).failures) }
{
    let algorithm = algorithm_read(alloc, text)?;
    states_of_algorithm(alloc, algorithm, args, text_of(text), r, w)
}
