//! The commands, over a reader and two writers.

ghost use Rattle.std.specs.Prelude.{◌≡◌, Result, ℕ, List, IfErr, IfOk, is_some, option_copied, true, false};
ghost use Rattle.schedule.specs.Tapes.{Tape};
ghost use Rattle.cli.specs.Report.{IsWritten};
ghost use Rattle.commands.specs.Commands.{CommandEnds, ExplainEnds, SessionEndsOf};
ghost use Rattle.command_parts.specs.Devices.{devices};
ghost use Rattle.command_parts.specs.Endings.{IsEnded, Prints};
ghost use Rattle.cli.specs.FilesNamed.{save_of};
ghost use Rattle.commands.specs.Programs.{CarriesOut, IsReported};
ghost use Rattle.command_parts.specs.Folders.{is_session};

use algorithm_commands::algorithm_cost_command::algorithm_cost_command;
use algorithm_commands::algorithm_drawn::algorithm_draw_command;
use algorithm_commands::algorithm_explore_command::algorithm_explore_command;
use algorithm_commands::algorithm_export_command::algorithm_export_command;
use algorithm_commands::algorithm_hunt_command::algorithm_hunt_command;
use algorithm_commands::algorithm_mean_command::algorithm_mean_command;
use algorithm_commands::algorithm_replay_command::algorithm_replay_command;
use algorithm_commands::algorithm_session::algorithm_session_command;
use algorithm_commands::algorithm_shrunk::algorithm_shrink_command;
use algorithm_commands::algorithm_states_command::algorithm_states_command;
use cli::arguments::args::Command;
use cli::{DictionaryEntry, tell_all_names, tell_dictionary_entry};
use command_parts::line::write_fault;
use command_parts::{CommandFault, Ending, Folder, NoFolder, NoScreen, Screen};
use lock_commands::cost_command::variant_cost_command;
use lock_commands::drawn::draw_command;
use lock_commands::explore_command::explore_command;
use lock_commands::hunt_command::hunt_command;
use lock_commands::judge_command::judge_command;
use lock_commands::replay_command::replay_command;
use lock_commands::run_command::run_command;
use lock_commands::session_command::session_command;
use lock_commands::shrunk::shrink_command;
use lock_commands::states_command::states_command;
use schedule::{Failed, Sink, Source};
use std::alloc::Global;
use std::sync::Wait;
use std::thread::Threads;

/// How a command ends that had a text to write.
fn ending_after(written: Result<(), Failed>) -> Result<Ending, CommandFault>
    ensures prints { (before now : Tape) (text : List ℕ) → IsWritten before now text written → Prints 0 text before now result }
    ensures ended { (before now : Tape) (text : List ℕ) → IsWritten before now text written
        → IfOk result (IsEnded false before.failures now.failures) }
    ensures failed { IfErr result (λ fault. fault ≡ CommandFault.Write) }
{
    match written {
        Ok(()) => Ok(Ending {
            status: 0,
            save: None,
        }),
        Err(_) => Err(CommandFault::Write),
    }
}

/// Writes what an entry means, or the names of all entries.
fn explain_command<W: Sink>(
    dictionary_entry: Option<DictionaryEntry>,
    w: &mut W,
) -> Result<Ending, CommandFault>
    ensures ends { ExplainEnds dictionary_entry (W.tape w.old) (W.tape w.new) result }
    ensures ended { IfOk result (IsEnded false (W.tape w.old).failures (W.tape w.new).failures) }
{
    match dictionary_entry {
        Some(dictionary_entry) => ending_after(tell_dictionary_entry(dictionary_entry, w)),
        None => ending_after(tell_all_names(w)),
    }
}

/// Carries out a command. It reads the schedule, the trace or the states from `r`, and writes to `w`. `image` is the text of the
/// file that the command starts from: an image, an algorithm, or the first schedule of a session on the lock; `start` is that of
/// the first schedule of a session on an algorithm. The progress of a search or a hunt is shown on the screen. A fault says why
/// there is no verdict.
pub fn carry_out<T: Threads + Wait + Sync, F: Folder, S: Screen, R: Source, W: Sink>(
    rt: &T,
    alloc: Global,
    command: &Command,
    image: Option<&[u8]>,
    start: Option<&[u8]>,
    folder: &mut F,
    screen: &mut S,
    r: &mut R,
    w: &mut W,
) -> Result<Ending, CommandFault>
    ensures ends { CommandEnds command.now (option_copied image.entry) (R.reading r.old) (R.reading r.new) (W.tape w.old)
        (W.tape w.new) result }
    ensures ended { IfOk result (IsEnded (is_some (save_of command.now)) (W.tape w.old).failures (W.tape w.new).failures) }
    ensures opened { (F.used folder.new).opened ≡ (F.used folder.old).opened }
    ensures kept { is_session command.now ≡ false → F.used folder.new ≡ F.used folder.old }
    ensures session { is_session command.now ≡ true → SessionEndsOf command.now (option_copied image.entry) (option_copied start.entry)
        (devices (R.reading r.old) (F.used folder.old) (W.tape w.old))
        (devices (R.reading r.new) (F.used folder.new) (W.tape w.new)) result }
{
    match command {
        Command::Replay(args) => replay_command(alloc, args, image, r, w),
        Command::ReplayAlgorithm(args) => algorithm_replay_command(alloc, args, image, r, w),
        Command::Judge(args) => judge_command(alloc, args.json, r, w),
        Command::Draw(args) => draw_command(alloc, args, image, r, w),
        Command::DrawAlgorithm(args) => algorithm_draw_command(alloc, args, image, r, w),
        Command::Shrink(args) => shrink_command(alloc, args, r, w),
        Command::ShrinkAlgorithm(_) => algorithm_shrink_command(alloc, image, r, w),
        Command::Hunt(args) => hunt_command(rt, alloc, args, screen, w),
        Command::HuntAlgorithm(args) => algorithm_hunt_command(rt, alloc, args, image, screen, w),
        Command::Explore(args) => explore_command(rt, alloc, args, screen, w),
        Command::ExploreAlgorithm(args) => {
            algorithm_explore_command(rt, alloc, args, image, screen, w)
        }
        Command::Cost(args) => algorithm_cost_command(alloc, args, image, screen, w),
        Command::CostVariant(args) => variant_cost_command(alloc, args, screen, w),
        Command::MeanCost(args) => algorithm_mean_command(alloc, args, image, w),
        Command::Export(args) => algorithm_export_command(alloc, args, image, w),
        Command::States(args) => states_command(alloc, args, r, w),
        Command::StatesAlgorithm(args) => algorithm_states_command(alloc, args, image, r, w),
        Command::Run(args) => run_command(rt, alloc, args, w),
        Command::Step(_) => session_command(alloc, image, folder, r, w),
        Command::StepAlgorithm(_) => {
            algorithm_session_command(alloc, image, start, folder, r, w)
        }
        Command::Explain(dictionary_entry) => explain_command(*dictionary_entry, w),
    }
}

/// Carries out a command over a reader, a writer, and a second writer for the one line of a fault. The progress of a search
/// or a hunt is shown on the screen.
pub fn command_shown<T: Threads + Wait + Sync, S: Screen, R: Source, W: Sink, E: Sink>(
    rt: &T,
    alloc: Global,
    command: &Command,
    image: Option<&[u8]>,
    screen: &mut S,
    r: &mut R,
    w: &mut W,
    e: &mut E,
) -> Ending
    ensures ends { (end : Result Ending CommandFault) × CarriesOut command.now (option_copied image.entry) (R.reading r.old)
        (R.reading r.new) (W.tape w.old) (W.tape w.new) end × IsReported (E.tape e.old) (E.tape e.new) end result }
    ensures unsaved { is_some (save_of command.now) ≡ false → is_some result.save ≡ false }
{
    let mut folder = NoFolder::new();
    match carry_out(rt, alloc, command, image, None, &mut folder, screen, r, w) {
        Ok(ending) => ending,
        Err(fault) => Ending {
            status: write_fault(fault, e),
            save: None,
        },
    }
}

/// Carries out a command as `command_shown` does, and shows no progress.
pub fn command<T: Threads + Wait + Sync, R: Source, W: Sink, E: Sink>(
    rt: &T,
    alloc: Global,
    command: &Command,
    image: Option<&[u8]>,
    r: &mut R,
    w: &mut W,
    e: &mut E,
) -> Ending
    ensures ends { (end : Result Ending CommandFault) × CarriesOut command.now (option_copied image.entry) (R.reading r.old)
        (R.reading r.new) (W.tape w.old) (W.tape w.new) end × IsReported (E.tape e.old) (E.tape e.new) end result }
    ensures unsaved { is_some (save_of command.now) ≡ false → is_some result.save ≡ false }
{
    command_shown(rt, alloc, command, image, &mut NoScreen, r, w, e)
}
