//! The command `states` on a variant of the lock.

ghost use Rattle.std.specs.Prelude.{◌≡◌, ◌⊎◌, false, IfErr, IfOk};
ghost use Rattle.lock_explorer.specs.Boards.{search_state_of};
ghost use Rattle.command_parts.specs.Endings.{IsEnded};
ghost use Rattle.lock_commands.specs.Explores.{IsNoSize};
ghost use Rattle.lock_commands.specs.States.{machine_of as machine_by, start_of, states_run, StatesEnds, words_of};
ghost use Rattle.command_parts.specs.StateTexts.{ToolEnds};

use crate::explore_command::{calls_of, counts_of, layout_of, tell_path};
use crate::machine_text::machine_of;
use cli::arguments::args::{ExploreArgs, StatesArgs, StatesTool};
use command_parts::states::expansion::expand_input;
use command_parts::states::set_check::check_input;
use command_parts::states::set_reader::lead_input;
use command_parts::states::set_walk::walk_of_input;
use command_parts::states::state_form::form_of;
use command_parts::states::states_start::write_first;
use command_parts::{CommandFault, Ending};
use explorer::Space;
use lock_explorer::{Explorer, moves_of_path};
use rmecore::Refusal;
use schedule::{Sink, Source};
use state_streams::{Approach, KeyForm};
use std::alloc::Global;

/// The first state of a search. `BadSize`: a size is outside its limits.
fn explorer_of(alloc: Global, args: &ExploreArgs) -> Result<Explorer, CommandFault>
    ensures made { IfOk result (λ explorer. search_state_of explorer ≡ start_of args.now) }
    ensures refused { IfErr result (λ fault. (fault ≡ CommandFault.OutOfMemory)
        ⊎ (fault ≡ CommandFault.BadSize) × IsNoSize args.now) }
{
    let layout = layout_of(args)?;
    let calls = calls_of(alloc, args)?;
    match Explorer::new(
        alloc,
        args.variant,
        layout,
        args.limit,
        counts_of(args),
        &calls,
    ) {
        Ok(explorer) => Ok(explorer),
        Err(Refusal::OutOfMemory) => Err(CommandFault::OutOfMemory),
        Err(_) => Err(CommandFault::BadSize),
    }
}

/// Writes the schedule that leads through the sets of states that are read to a fault.
fn walk_command<R: Source, W: Sink>(
    alloc: Global,
    args: &StatesArgs,
    here: &mut Explorer,
    machine: &[u8],
    form: &KeyForm,
    r: &mut R,
    w: &mut W,
) -> Result<Ending, CommandFault>
    requires tool { args.now.stream.tool ≡ StatesTool.Walk }
    requires start { search_state_of here.old ≡ start_of args.now.search }
    requires machine { machine.now ≡ machine_by args.now.search }
    requires words { form.now.words ≡ words_of args.now }
    requires digits { form.now.digits ≡ args.now.stream.digits }
    ensures ends { ToolEnds (states_run args.now) (R.reading r.old) (R.reading r.new) (W.tape w.old) (W.tape w.new) result }
    ensures ended { IfOk result (IsEnded false (W.tape w.old).failures (W.tape w.new).failures) }
{
    let numbers = walk_of_input(alloc, here, machine, form, r)?;
    let calls = calls_of(alloc, &args.search)?;
    let path = moves_of_path(
        alloc,
        &calls,
        args.search.procs,
        counts_of(&args.search),
        &numbers,
    )?;
    tell_path(alloc, &args.search, &path, w)
}

/// Does what the tool says with the lines of states.
fn carry_out_tool<R: Source, W: Sink>(
    alloc: Global,
    args: &StatesArgs,
    here: &mut Explorer,
    machine: &[u8],
    form: &KeyForm,
    r: &mut R,
    w: &mut W,
) -> Result<Ending, CommandFault>
    requires start { search_state_of here.old ≡ start_of args.now.search }
    requires machine { machine.now ≡ machine_by args.now.search }
    requires words { form.now.words ≡ words_of args.now }
    requires digits { form.now.digits ≡ args.now.stream.digits }
    ensures ends { ToolEnds (states_run args.now) (R.reading r.old) (R.reading r.new) (W.tape w.old) (W.tape w.new) result }
    ensures ended { IfOk result (IsEnded false (W.tape w.old).failures (W.tape w.new).failures) }
{
    match args.stream.tool {
        StatesTool::First => write_first(alloc, here, machine, form, w),
        StatesTool::Expand => expand_input(alloc, here, machine, form, r, w),
        StatesTool::Lead => lead_input(alloc, here, machine, form, Approach::AnyMove, r, w),
        StatesTool::Home => lead_input(alloc, here, machine, form, Approach::WayHome, r, w),
        StatesTool::Check => check_input(alloc, here, machine, form, &args.stream, r, w),
        StatesTool::Walk => walk_command(alloc, args, here, machine, form, r, w),
    }
}

/// Runs `states`: does what the tool says with the lines of the states of a variant's search. `BadSize`: a size is outside its limits,
/// the lines can't have the form, or there is no such part. `States`: a line is at fault.
pub fn states_command<R: Source, W: Sink>(
    alloc: Global,
    args: &StatesArgs,
    r: &mut R,
    w: &mut W,
) -> Result<Ending, CommandFault>
    ensures ends { StatesEnds args.now (R.reading r.old) (R.reading r.new) (W.tape w.old) (W.tape w.new) result }
    ensures ended { IfOk result (IsEnded false (W.tape w.old).failures (W.tape w.new).failures) }
{
    let mut here = explorer_of(alloc, &args.search)?;
    let machine = machine_of(alloc, &args.search)?;
    let mut key = Vec::new(alloc);
    here.write_key(&mut key)?;
    let Some(form) = form_of(&args.stream, args.search.procs, key.len()) else {
        return Err(CommandFault::BadSize);
    };
    carry_out_tool(alloc, args, &mut here, &machine, &form, r, w)
}
