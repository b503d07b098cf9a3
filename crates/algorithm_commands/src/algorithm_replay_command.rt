//! The command `replay` on an algorithm's text.

ghost use Rattle.std.specs.Prelude.{◌≡◌, IfErr, IfOk, option_copied, false};
ghost use Rattle.algorithms.specs.Ranked.{LocalLinesEnd, AccessesLeadOn};
ghost use Rattle.algorithm_texts.specs.Programs.{SpellsAlgorithm};
ghost use Rattle.algorithm_lab.specs.Replays.{run_of, WritesRunText};
ghost use Rattle.algorithm_commands.specs.AlgorithmReplays.{AlgorithmReplayEnds, line_numbers as numbers_of, object_at_end, object_of_run, TellsAlgorithm, text_of_replay};
ghost use Rattle.algorithm_commands.specs.AlgorithmTexts.{IsAlgorithmFault, TellsFault, TellsLineFault, text_of as text_in};
ghost use Rattle.command_parts.specs.Endings.{IsEnded};
ghost use Rattle.diagram.specs.AlgorithmSteps.{IsRunText, text_on_new};

use crate::run_fault::{line_numbers, replay_fault};
use algorithm_lab::{AlgorithmReplayFault, Monitor, ReplayText, replay_algorithm, report_of_run};
use algorithm_texts::{fault_detail, read_algorithm};
use algorithms::{AlgorithmFault, InitializedAlgorithm, ReadFault};
use cli::arguments::args::AlgorithmReplayArgs;
use command_parts::algorithm_fault::fault_numbered;
use command_parts::ending::status_after_verdict;
use command_parts::report_object::report_object;
use command_parts::schedule_text::schedule_read;
use command_parts::{CommandFault, Ending};
use diagram::{follow_algorithm, follow_algorithm_as_lines};
use schedule::{Schedule, Sink, Source, Verdict};
use std::alloc::{AllocError, Global};

/// The command's fault for this fault of a line of an algorithm's text, with what more is said of it.
fn line_fault(alloc: Global, text: &[u8], line: u64, fault: ReadFault) -> CommandFault
    ensures { TellsLineFault text.now line fault result }
{
    match fault_detail(alloc, text, line, fault) {
        Ok(detail) => CommandFault::Algorithm {
            line,
            fault,
            detail,
        },
        Err(AllocError) => CommandFault::OutOfMemory,
    }
}

/// The command's fault for a fault of an algorithm's text.
#[tactic(auto, using(crate::proofs::AlgorithmTexts::tells_fault))]
fn text_fault(alloc: Global, text: &[u8], fault: AlgorithmFault) -> CommandFault
    ensures { TellsFault text.now fault result }
{
    match fault {
        AlgorithmFault::At { line, number } => {
            line_fault(alloc, text, line, fault_numbered(number))
        }
        AlgorithmFault::OutOfMemory => CommandFault::OutOfMemory,
    }
}

/// The text of an algorithm's file; without a file it is empty.
pub(crate) fn text_of(text: Option<&[u8]>) -> &[u8]
    ensures { result.now ≡ text_in (option_copied text.entry) }
{
    match text {
        Some(text) => text,
        None => &[],
    }
}

/// The algorithm that the text of a file spells. A text that spells none is a fault, of its first faulty line.
pub(crate) fn algorithm_read(
    alloc: Global,
    text: Option<&[u8]>,
) -> Result<InitializedAlgorithm, CommandFault>
    ensures spells { IfOk result (SpellsAlgorithm (text_in (option_copied text.entry))) }
    ensures ends { IfOk result (λ a. LocalLinesEnd a.algorithm) }
    ensures leads { IfOk result (λ a. AccessesLeadOn a.algorithm) }
    ensures unread { IfErr result (IsAlgorithmFault (option_copied text.entry)) }
{
    let bytes = text_of(text);
    match read_algorithm(alloc, bytes) {
        Ok(algorithm) => Ok(algorithm),
        Err(fault) => Err(text_fault(alloc, bytes, fault)),
    }
}

/// The report of a run as one JSON object. Where a line is refused there is none.
fn object_text(alloc: Global, replay: &ReplayText) -> Result<Vec<u8>, AllocError>
    ensures { IfOk result (λ text. text.items ≡ object_at_end replay.now.ended replay.now.text.items) }
{
    match replay.ended {
        Ok(_) => report_object(alloc, replay.text.as_slice()),
        Err(_) => Ok(Vec::new(alloc)),
    }
}

/// The object of the schedule's run, and how the run ends.
fn object_of_run(
    alloc: Global,
    monitor: Monitor,
    schedule: &Schedule,
) -> Result<ReplayText, AllocError>
    ensures { IfOk result (λ object. IsRunText object_of_run monitor schedule.now.lines object.text.items object.ended) }
{
    let replay = report_of_run(alloc, monitor, schedule)?;
    let text = object_text(alloc, &replay)?;
    let ReplayText { ended, .. } = replay;
    Ok(ReplayText { text, ended })
}

/// Plays the schedule on the algorithm, and writes the lines of its report as one JSON object. Where a line is refused it writes
/// nothing.
fn replay_object<W: Sink>(
    alloc: Global,
    algorithm: InitializedAlgorithm,
    schedule: &Schedule,
    w: &mut W,
) -> Result<Verdict, AlgorithmReplayFault>
    ensures { WritesRunText (W.tape w.old) (W.tape w.new) (text_on_new object_of_run algorithm schedule.now)
        (run_of algorithm schedule.now.procs schedule.now.limit schedule.now.lines) result }
{
    let monitor = Monitor::of_schedule(alloc, algorithm, schedule)?;
    let object = object_of_run(alloc, monitor, schedule)?;
    object.write_to(w)
}

/// Plays the schedule on the algorithm, and writes its report, or each step, in words or as JSON.
fn report<W: Sink>(
    alloc: Global,
    algorithm: InitializedAlgorithm,
    schedule: &Schedule,
    each: bool,
    json: bool,
    w: &mut W,
) -> Result<Verdict, AlgorithmReplayFault>
    ensures { WritesRunText (W.tape w.old) (W.tape w.new) (text_of_replay each json algorithm schedule.now)
        (run_of algorithm schedule.now.procs schedule.now.limit schedule.now.lines) result }
{
    match (each, json) {
        (true, true) => follow_algorithm_as_lines(alloc, algorithm, schedule, w),
        (true, false) => follow_algorithm(alloc, algorithm, schedule, w),
        (false, true) => replay_object(alloc, algorithm, schedule, w),
        (false, false) => replay_algorithm(alloc, algorithm, schedule, w),
    }
}

/// Plays the schedule on the algorithm, whose lines have these numbers, and writes what is asked for.
fn replay_on_algorithm<W: Sink>(
    alloc: Global,
    algorithm: InitializedAlgorithm,
    schedule: &Schedule,
    numbers: &[u64],
    args: &AlgorithmReplayArgs,
    w: &mut W,
) -> Result<Ending, CommandFault>
    requires { numbers.now ≡ numbers_of algorithm.algorithm }
    ensures reports { TellsAlgorithm args.now algorithm schedule.now (W.tape w.old) (W.tape w.new) result }
    ensures ended { IfOk result (IsEnded false (W.tape w.old).failures (W.tape w.new).failures) }
{
    match report(alloc, algorithm, schedule, args.each, args.json, w) {
        Ok(verdict) => Ok(Ending {
            status: status_after_verdict(verdict),
            save: None,
        }),
        Err(fault) => Err(replay_fault(numbers, fault)),
    }
}

/// Runs `replay --algorithm`: reads the algorithm from its text, then the schedule, and plays the schedule on a new world of the
/// algorithm to its verdict. A fault says what can't be read, which line is refused, or that a device or memory has failed.
#[tactic(auto, using(crate::proofs::AlgorithmTexts::no_algorithm))]
pub fn algorithm_replay_command<R: Source, W: Sink>(
    alloc: Global,
    args: &AlgorithmReplayArgs,
    text: Option<&[u8]>,
    r: &mut R,
    w: &mut W,
) -> Result<Ending, CommandFault>
    ensures ends { AlgorithmReplayEnds args.now (option_copied text.entry) (R.reading r.old) (R.reading r.new) (W.tape w.old)
        (W.tape w.new) result }
    ensures ended { IfOk result (IsEnded false (W.tape w.old).failures (W.tape w.new).failures) }
{
    let algorithm = algorithm_read(alloc, text)?;
    let numbers = line_numbers(alloc, &algorithm.algorithm)?;
    let schedule = schedule_read(alloc, r)?;
    replay_on_algorithm(alloc, algorithm, &schedule, &numbers, args, w)
}
