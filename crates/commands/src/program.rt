//! The whole program, over its words, a folder of files, its input and its two outputs.

ghost use Rattle.std.specs.Prelude.{◌≡◌, ◌⊎◌, ◌+◌, ◌-◌, ◌^◌, ◌++◌, ◌∷◌, [], min, true, false, None, is_some, option_to_list, IfErr, IfOk, IsErr, IsOk, OnErr, OnOk};
ghost use Rattle.command_parts.specs.Endings.{IsEnded};
ghost use Rattle.schedule.specs.Tapes.{Writes};
ghost use Rattle.cli.specs.FilesNamed.{image_of, input_of, save_of, start_of};
ghost use Rattle.command_parts.specs.Lines.{IsLineWritten};
ghost use Rattle.command_parts.specs.Devices.{devices};
ghost use Rattle.command_parts.specs.Folders.{is_session};
ghost use Rattle.commands.specs.Programs.{ReportsWordsFault, CantBuffer, EndsWithStatus, ExecutesCommand, EndsOnFile, EndsOnInput, Finishes, IsCommandAsked, IsProgram, IsUnasked, Obeys, opens_all, OpensSome, PrintsHelp, PrintsUsageError, RunsWords, SavesAll, SessionEndsIn, nothing_read};
ghost use Rattle.commands.specs.Faults.{fault_of_opening, fault_of_saving};
ghost use Rattle.std.specs.Process.{exit_status};

use crate::command::carry_out;
use cli::arguments::args::Command;
use cli::arguments::words::{WordsFault, read_words};
use command_parts::line::write_fault;
use command_parts::{CommandFault, Ending, FileFault, Folder, Screen};
use schedule::replays::pieces::read_all;
use schedule::texts::device::write_all;
use schedule::{Failed, FromReader, Sink, Source, ToWriter};
use std::alloc::Global;
use std::io::{self, BufWriter, Read, Write};
use std::process::ExitCode;
use std::sync::Wait;
use std::thread::Threads;

/// The command's fault for a file that wasn't opened.
fn open_fault(fault: FileFault) -> CommandFault
    ensures reports { result ≡ fault_of_opening fault }
    ensures device { (result ≡ CommandFault.Read) ⊎ (result ≡ CommandFault.OutOfMemory) }
{
    match fault {
        FileFault::Failed => CommandFault::Read,
        FileFault::OutOfMemory => CommandFault::OutOfMemory,
    }
}

/// The command's fault for a file that wasn't written.
fn save_fault(fault: FileFault) -> CommandFault
    ensures reports { result ≡ fault_of_saving fault }
    ensures device { (result ≡ CommandFault.Write) ⊎ (result ≡ CommandFault.OutOfMemory) }
{
    match fault {
        FileFault::Failed => CommandFault::Write,
        FileFault::OutOfMemory => CommandFault::OutOfMemory,
    }
}

/// Reads a whole file.
fn file_text<F: Folder>(
    alloc: Global,
    folder: &mut F,
    name: &String,
) -> Result<Vec<u8>, CommandFault>
    ensures opened { (F.used folder.new).opened ≡ (F.used folder.old).opened ++ name.now ∷ [] }
    ensures saved { (F.used folder.new).saved ≡ (F.used folder.old).saved }
    ensures texts { (F.used folder.new).texts ≡ (F.used folder.old).texts }
    ensures failed { IfErr result (λ fault. (fault ≡ CommandFault.Read) ⊎ (fault ≡ CommandFault.OutOfMemory)) }
{
    let mut file = folder.open(name).map_err(open_fault)?;
    Ok(read_all(alloc, &mut file)?)
}

/// The text of the file that the command starts from, if it names one.
fn image_text<F: Folder>(
    alloc: Global,
    command: &Command,
    folder: &mut F,
) -> Result<Option<Vec<u8>>, CommandFault>
    ensures opened { (F.used folder.new).opened ≡ (F.used folder.old).opened ++ option_to_list (image_of command.now) }
    ensures saved { (F.used folder.new).saved ≡ (F.used folder.old).saved }
    ensures texts { (F.used folder.new).texts ≡ (F.used folder.old).texts }
    ensures named { IfOk result (λ text. is_some text ≡ is_some (image_of command.now)) }
    ensures failed { IfErr result (λ fault. (fault ≡ CommandFault.Read) ⊎ (fault ≡ CommandFault.OutOfMemory)) }
{
    match command.image_file() {
        Some(name) => Ok(Some(file_text(alloc, folder, name)?)),
        None => Ok(None),
    }
}

/// The text of the schedule that a session on an algorithm begins with, if the command names its file.
fn start_text<F: Folder>(
    alloc: Global,
    command: &Command,
    folder: &mut F,
) -> Result<Option<Vec<u8>>, CommandFault>
    ensures opened { (F.used folder.new).opened ≡ (F.used folder.old).opened ++ option_to_list (start_of command.now) }
    ensures saved { (F.used folder.new).saved ≡ (F.used folder.old).saved }
    ensures texts { (F.used folder.new).texts ≡ (F.used folder.old).texts }
    ensures named { IfOk result (λ text. is_some text ≡ is_some (start_of command.now)) }
    ensures failed { IfErr result (λ fault. (fault ≡ CommandFault.Read) ⊎ (fault ≡ CommandFault.OutOfMemory)) }
{
    match command.start_file() {
        Some(name) => Ok(Some(file_text(alloc, folder, name)?)),
        None => Ok(None),
    }
}

/// Carries out the command with the file of this name as its input.
fn ended_on_file<T: Threads + Wait + Sync, F: Folder, S: Screen, W: Sink>(
    rt: &T,
    alloc: Global,
    command: &Command,
    image: Option<&[u8]>,
    folder: &mut F,
    name: &String,
    screen: &mut S,
    out: &mut W,
) -> Result<Ending, CommandFault>
    requires { is_some image ≡ is_some (image_of command.now) }
    ensures opened { (F.used folder.new).opened ≡ (F.used folder.old).opened ++ name.now ∷ [] }
    ensures saved { is_session command.now ≡ false → (F.used folder.new).saved ≡ (F.used folder.old).saved }
    ensures texts { is_session command.now ≡ false → (F.used folder.new).texts ≡ (F.used folder.old).texts }
    ensures ends { EndsOnFile command.now (W.tape out.old) (W.tape out.new) result }
    ensures ended { IfOk result (IsEnded (is_some (save_of command.now)) (W.tape out.old).failures (W.tape out.new).failures) }
{
    let mut file = folder.open(name).map_err(open_fault)?;
    carry_out(
        rt, alloc, command, image, None, folder, screen, &mut file, out,
    )
}

/// Carries out the command. The files that it starts from are read first. The input is read if no file is named.
fn execute<T: Threads + Wait + Sync, F: Folder, S: Screen, R: Source, W: Sink>(
    rt: &T,
    alloc: Global,
    command: &Command,
    folder: &mut F,
    screen: &mut S,
    input: &mut R,
    out: &mut W,
) -> Result<Ending, CommandFault>
    ensures all { OnOk result ((F.used folder.new).opened ≡ opens_all command.now (F.used folder.old).opened) }
    ensures opened { OpensSome command.now (F.used folder.old).opened (F.used folder.new).opened }
    ensures saved { is_session command.now ≡ false → (F.used folder.new).saved ≡ (F.used folder.old).saved }
    ensures texts { is_session command.now ≡ false → (F.used folder.new).texts ≡ (F.used folder.old).texts }
    ensures session { is_session command.now ≡ true → SessionEndsIn command.now
        (devices (R.reading input.old) (F.used folder.old) (W.tape out.old))
        (devices (R.reading input.new) (F.used folder.new) (W.tape out.new)) result }
    ensures ended { IfOk result (IsEnded (is_some (save_of command.now)) (W.tape out.old).failures (W.tape out.new).failures) }
    ensures apart { is_some (input_of command.now) ≡ true → R.reading input.new ≡ R.reading input.old }
    ensures on_input { input_of command.now ≡ None → EndsOnInput command.now (R.reading input.old) (R.reading input.new)
        (W.tape out.old) (W.tape out.new) result }
    ensures on_file { is_some (input_of command.now) ≡ true → EndsOnFile command.now (W.tape out.old) (W.tape out.new) result }
{
    let image = image_text(alloc, command, folder)?;
    let start = start_text(alloc, command, folder)?;
    let first = start.as_deref();
    match command.input_file() {
        Some(name) => ended_on_file(
            rt,
            alloc,
            command,
            image.as_deref(),
            folder,
            name,
            screen,
            out,
        ),
        None => carry_out(
            rt,
            alloc,
            command,
            image.as_deref(),
            first,
            folder,
            screen,
            input,
            out,
        ),
    }
}

/// Saves the image, if the command names a file for it.
fn save<F: Folder>(folder: &mut F, command: &Command, ending: &Ending) -> Result<(), CommandFault>
    requires { is_some ending.now.save ≡ is_some (save_of command.now) }
    ensures opened { (F.used folder.new).opened ≡ (F.used folder.old).opened }
    ensures saved { SavesAll command.now (F.used folder.old) (F.used folder.new) ending.now.save }
    ensures unsaved { save_of command.now ≡ None → F.used folder.new ≡ F.used folder.old }
    ensures failed { IfErr result (λ fault. (fault ≡ CommandFault.Write) ⊎ (fault ≡ CommandFault.OutOfMemory)) }
    ensures named { OnErr result (is_some (save_of command.now) ≡ true) }
{
    match (command.save_file(), &ending.save) {
        (Some(name), Some(text)) => folder.save(name, text).map_err(save_fault),
        _ => Ok(()),
    }
}

/// Flushes the output.
#[tactic(auto, using(crate::proofs::Tapes::same_tape))]
fn flush_output<W: Sink>(out: &mut W) -> Result<(), CommandFault>
    ensures same { OnOk result (W.tape out.new ≡ W.tape out.old) }
    ensures taken { (W.tape out.new).taken ≡ (W.tape out.old).taken }
    ensures failed { IfErr result (λ fault. fault ≡ CommandFault.Write) }
    ensures broken { OnErr result ((W.tape out.new).failures ≡ min ((W.tape out.old).failures + 1) (2 ^ 64 - 1)) }
{
    if out.flush().is_err() {
        return Err(CommandFault::Write);
    }
    Ok(())
}

/// Flushes the output of a command that has ended so, and then saves its image. If the flush fails, that is the fault.
fn finish<F: Folder, W: Sink>(
    command: &Command,
    ended: Result<Ending, CommandFault>,
    folder: &mut F,
    out: &mut W,
) -> Result<Ending, CommandFault>
    requires { IfOk ended (λ ending. is_some ending.save ≡ is_some (save_of command.now)) }
    ensures finishes { Finishes command.now (F.used folder.old) (F.used folder.new) (W.tape out.old) (W.tape out.new) ended result }
    ensures opened { (F.used folder.new).opened ≡ (F.used folder.old).opened }
{
    flush_output(out)?;
    let ending = ended?;
    save(folder, command, &ending)?;
    Ok(ending)
}

/// Carries out the command, flushes the output, and then saves the image.
fn execute_and_save<T: Threads + Wait + Sync, F: Folder, S: Screen, R: Source, W: Sink>(
    rt: &T,
    alloc: Global,
    command: &Command,
    folder: &mut F,
    screen: &mut S,
    input: &mut R,
    out: &mut W,
) -> Result<Ending, CommandFault>
    ensures { ExecutesCommand command.now (devices (R.reading input.old) (F.used folder.old) (W.tape out.old))
        (devices (R.reading input.new) (F.used folder.new) (W.tape out.new)) result }
{
    let ended = execute(rt, alloc, command, folder, screen, input, out);
    finish(command, ended, folder, out)
}

/// The exit status of this result. The one line of a fault is written to `err`.
pub fn close<E: Sink>(end: Result<Ending, CommandFault>, err: &mut E) -> u8
    ensures { EndsWithStatus (E.tape err.old) (E.tape err.new) end result }
{
    match end {
        Ok(ending) => ending.status,
        Err(fault) => write_fault(fault, err),
    }
}

/// Carries out the command, and answers the exit status. The one line of a fault is written to `err`, the progress of a
/// search or a hunt to the screen.
pub fn obey<T: Threads + Wait + Sync, F: Folder, S: Screen, R: Source, W: Sink, E: Sink>(
    rt: &T,
    alloc: Global,
    command: &Command,
    folder: &mut F,
    screen: &mut S,
    input: &mut R,
    out: &mut W,
    err: &mut E,
) -> u8
    ensures { Obeys command.now (devices (R.reading input.old) (F.used folder.old) (W.tape out.old))
        (devices (R.reading input.new) (F.used folder.new) (W.tape out.new)) (E.tape err.old) (E.tape err.new) result }
{
    let end = execute_and_save(rt, alloc, command, folder, screen, input, out);
    close(end, err)
}

/// Writes a text, and flushes it.
fn print<W: Sink>(text: &str, out: &mut W) -> Result<(), Failed>
    ensures { OnOk result (Writes (W.tape out.old) (W.tape out.new) text.now) }
{
    write_all(out, text.as_bytes())?;
    out.flush()
}

/// Prints the help that was asked for, and answers the exit status.
fn print_help<W: Sink, E: Sink>(text: &str, out: &mut W, err: &mut E) -> u8
    ensures { PrintsHelp text.now (W.tape out.old) (W.tape out.new) (E.tape err.old) (E.tape err.new) result }
{
    match print(text, out) {
        Ok(()) => 0,
        Err(_) => write_fault(CommandFault::Write, err),
    }
}

/// Prints the error text for the words, and answers exit status 2. A failed write is ignored.
fn print_usage_error<E: Sink>(text: &str, err: &mut E) -> u8
    ensures { PrintsUsageError text.now (E.tape err.old) (E.tape err.new) result }
{
    let _ = write_all(err, text.as_bytes());
    2
}

/// The error text of `clap` for words that aren't UTF-8 text.
const UNREADABLE: &str =
    "error: invalid UTF-8 was detected in one or more arguments\n\nFor more information, try '--help'.\n";

/// Reports words that are no command, and answers the exit status.
fn report_words_fault<W: Sink, E: Sink>(fault: &WordsFault, out: &mut W, err: &mut E) -> u8
    ensures { ReportsWordsFault fault.now (W.tape out.old) (W.tape out.new) (E.tape err.old) (E.tape err.new) result }
{
    match fault {
        WordsFault::Help { text } => print_help(text.as_str(), out, err),
        WordsFault::Refused { text } => print_usage_error(text.as_str(), err),
        WordsFault::Unreadable => print_usage_error(UNREADABLE, err),
        WordsFault::BadVariant => write_fault(CommandFault::BadVariant, err),
        WordsFault::BadSize => write_fault(CommandFault::BadSize, err),
        WordsFault::OutOfMemory => write_fault(CommandFault::OutOfMemory, err),
    }
}

/// The command that the words spell.
fn parse_words(alloc: Global, words: Result<Vec<String>, WordsFault>) -> Result<Command, WordsFault>
    ensures asked { IfOk result (IsCommandAsked words) }
    ensures unasked { IfErr result (IsUnasked words) }
{
    let words = words?;
    read_words(alloc, &words)
}

/// Carries out the command that the words spell, and answers the exit status.
pub fn program<T: Threads + Wait + Sync, F: Folder, S: Screen, R: Source, W: Sink, E: Sink>(
    rt: &T,
    alloc: Global,
    words: Result<Vec<String>, WordsFault>,
    folder: &mut F,
    screen: &mut S,
    input: &mut R,
    out: &mut W,
    err: &mut E,
) -> u8
    ensures { IsProgram words (devices (R.reading input.old) (F.used folder.old) (W.tape out.old))
        (devices (R.reading input.new) (F.used folder.new) (W.tape out.new)) (E.tape err.old) (E.tape err.new) result }
{
    match parse_words(alloc, words) {
        Ok(command) => obey(rt, alloc, &command, folder, screen, input, out, err),
        Err(fault) => report_words_fault(&fault, out, err),
    }
}

/// The program over an input of which nothing was read before.
fn program_from_start<T: Threads + Wait + Sync, F: Folder, S: Screen, R: Source, W: Sink, E: Sink>(
    rt: &T,
    alloc: Global,
    words: Result<Vec<String>, WordsFault>,
    folder: &mut F,
    screen: &mut S,
    input: &mut R,
    out: &mut W,
    err: &mut E,
) -> u8
    ensures { R.reading input.old ≡ nothing_read → RunsWords words (F.used folder.old) (F.used folder.new) result }
{
    program(rt, alloc, words, folder, screen, input, out, err)
}

/// The exit status of the whole program over an input and two outputs.
fn status_over<
    T: Threads + Wait + Sync,
    F: Folder,
    S: Screen,
    R: Read + Drop,
    W: Write + Drop,
    E: Write + Drop,
>(
    rt: &T,
    alloc: Global,
    words: Result<Vec<String>, WordsFault>,
    folder: &mut F,
    screen: &mut S,
    input: R,
    output: io::Result<BufWriter<W>>,
    errors: E,
) -> u8
    ensures runs { IsOk output → RunsWords words (F.used folder.old) (F.used folder.new) result }
    ensures unbuffered { IsErr output → CantBuffer (F.used folder.old) (F.used folder.new) result }
{
    let mut input = FromReader::new(input);
    let mut err = ToWriter::new(errors);
    match output {
        Ok(buffer) => {
            let mut out = ToWriter::new(buffer);
            program_from_start(
                rt, alloc, words, folder, screen, &mut input, &mut out, &mut err,
            )
        }
        Err(_) => write_fault(CommandFault::OutOfMemory, &mut err),
    }
}

/// The whole program, over the devices of a process. It answers the exit status of the process. `output` has the buffer of the
/// standard output; an error of it says that memory has run out.
pub fn run_program<T: Threads + Wait + Sync, F: Folder, S: Screen, W: Write + Drop>(
    rt: &T,
    alloc: Global,
    words: Result<Vec<String>, WordsFault>,
    folder: &mut F,
    screen: &mut S,
    input: impl Read + Drop,
    output: io::Result<BufWriter<W>>,
    errors: impl Write + Drop,
) -> ExitCode
    ensures runs { IsOk output → RunsWords words (F.used folder.old) (F.used folder.new) (exit_status result) }
    ensures unbuffered { IsErr output → CantBuffer (F.used folder.old) (F.used folder.new) (exit_status result) }
{
    let status = status_over(rt, alloc, words, folder, screen, input, output, errors);
    ExitCode::from(status)
}
