//! Begins a session on an algorithm's text, and holds it.

ghost use Rattle.std.specs.Prelude.{◌≡◌, ◌⊎◌, [], None, IfErr, IfOk, OnOk, option_copied, false};
ghost use Rattle.algorithms.specs.Worlds.{new_refusal};
ghost use Rattle.algorithms.specs.declared.algorithm.Algorithm.{Algorithm as AlgorithmOf};
ghost use Rattle.algorithm_lab.specs.Monitors.{first_monitor};
ghost use Rattle.algorithm_lab.specs.Replays.{run_of, world_fault};
ghost use Rattle.algorithm_lab.specs.Runs.{run_on};
ghost use Rattle.algorithm_commands.specs.AlgorithmReplays.{fault_of_run, line_numbers as numbers_of};
ghost use Rattle.algorithm_commands.specs.AlgorithmSessions.{AlgorithmSessionEnds, IsFaultOfRun, RefusesText};
ghost use Rattle.algorithm_commands.specs.AlgorithmTexts.{HoldsOfAlgorithm};
ghost use Rattle.command_parts.specs.Conversations.{HasNoSchedule, OpensSession};
ghost use Rattle.command_parts.specs.Devices.{devices};
ghost use Rattle.command_parts.specs.Endings.{FailsToRead, IsEnded};
ghost use Rattle.diagram.specs.AlgorithmSimulations.{algorithm_semantics, algorithm_session};
ghost use Rattle.diagram.specs.Sessions.{at_schedule};

use crate::algorithm_replay_command::algorithm_read;
use crate::run_fault::{line_numbers, replay_fault};
use algorithm_lab::{AlgorithmReplayFault, Monitor, play_lines};
use algorithms::InitializedAlgorithm;
use command_parts::conversation::{first_text, hold};
use command_parts::schedule_text::schedule_of;
use command_parts::{CommandFault, Ending, Folder};
use diagram::Session;
use schedule::{Schedule, Sink, Source};
use std::alloc::Global;

/// The schedule that a session begins with: that of the text which is given, or one without lines, by the header in the first line
/// of the input.
#[tactic(auto, using(command_parts::proofs::Beginning::cant_read))]
fn first_schedule<R: Source>(
    alloc: Global,
    start: Option<&[u8]>,
    r: &mut R,
    buffer: &mut Vec<u8>,
) -> Result<Schedule, CommandFault>
    requires { buffer.old.items ≡ [] }
    ensures opens { IfOk result (OpensSession (option_copied start.entry) (R.reading r.old) (R.reading r.new) buffer.new.items) }
    ensures unread { IfErr result (λ fault. FailsToRead (R.reading r.old) (R.reading r.new) fault
        ⊎ HasNoSchedule (option_copied start.entry) (R.reading r.old) (R.reading r.new) fault) }
{
    let text = first_text(alloc, start, r, buffer)?;
    schedule_of(alloc, &text)
}

/// A new world of the algorithm, whose lines have these numbers, of the sizes of a schedule.
fn world_of(
    alloc: Global,
    algorithm: InitializedAlgorithm,
    schedule: &Schedule,
    numbers: &[u64],
) -> Result<Monitor, CommandFault>
    ensures made { IfOk result (λ m. m ≡ first_monitor algorithm schedule.now.procs schedule.now.limit) }
    ensures accepted { OnOk result (new_refusal algorithm schedule.now.procs schedule.now.limit ≡ None) }
    ensures unmade { IfErr result (λ fault. numbers.now ≡ numbers_of algorithm.algorithm → fault
        ≡ fault_of_run algorithm.algorithm (world_fault (new_refusal algorithm schedule.now.procs schedule.now.limit))) }
{
    match Monitor::of_schedule(alloc, algorithm, schedule) {
        Ok(monitor) => Ok(monitor),
        Err(fault) => Err(replay_fault(numbers, fault)),
    }
}

/// The world of a monitor after the lines of a schedule, none of which may be refused. The algorithm's lines have these numbers.
fn play_all(
    alloc: Global,
    mut monitor: Monitor,
    schedule: &Schedule,
    numbers: &[u64],
) -> Result<Monitor, CommandFault>
    ensures left { IfOk result (λ left. left ≡ (run_on 2 monitor schedule.now.lines).left) }
    ensures accepted { OnOk result ((run_on 2 monitor schedule.now.lines).refused ≡ None) }
    ensures refused { (a : AlgorithmOf) → numbers.now ≡ numbers_of a
        → IfErr result (IsFaultOfRun a (run_on 2 monitor schedule.now.lines)) }
{
    let mut reports = Vec::new(alloc);
    match play_lines(&mut monitor, schedule.lines(), &mut reports)? {
        None => Ok(monitor),
        Some((line, refusal)) => Err(replay_fault(
            numbers,
            AlgorithmReplayFault::Refused { line, refusal },
        )),
    }
}

/// A world of the algorithm for a session that begins with this schedule. None of its lines is refused. The algorithm's lines have these
/// numbers.
fn monitor_of(
    alloc: Global,
    algorithm: InitializedAlgorithm,
    schedule: &Schedule,
    numbers: &[u64],
) -> Result<Monitor, CommandFault>
    requires { numbers.now ≡ numbers_of algorithm.algorithm }
    ensures made { IfOk result (λ m. at_schedule algorithm_semantics m schedule.now [] ≡ algorithm_session algorithm schedule.now) }
    ensures accepted { OnOk result
        ((run_of algorithm schedule.now.procs schedule.now.limit schedule.now.lines).refused ≡ None) }
    ensures unmade { IfErr result
        (IsFaultOfRun algorithm.algorithm (run_of algorithm schedule.now.procs schedule.now.limit schedule.now.lines)) }
{
    let monitor = world_of(alloc, algorithm, schedule, numbers)?;
    play_all(alloc, monitor, schedule, numbers)
}

/// Begins a session on the algorithm, whose lines have these numbers, and answers each line of the input.
fn hold_session<F: Folder, R: Source, W: Sink>(
    alloc: Global,
    algorithm: InitializedAlgorithm,
    numbers: &[u64],
    start: Option<&[u8]>,
    folder: &mut F,
    r: &mut R,
    w: &mut W,
) -> Result<Ending, CommandFault>
    requires { numbers.now ≡ numbers_of algorithm.algorithm }
    ensures ends { AlgorithmSessionEnds algorithm (option_copied start.entry)
        (devices (R.reading r.old) (F.used folder.old) (W.tape w.old))
        (devices (R.reading r.new) (F.used folder.new) (W.tape w.new)) result }
    ensures ended { IfOk result (IsEnded false (W.tape w.old).failures (W.tape w.new).failures) }
    ensures opened { (F.used folder.new).opened ≡ (F.used folder.old).opened }
{
    let mut buffer = Vec::new(alloc);
    let schedule = first_schedule(alloc, start, r, &mut buffer)?;
    let monitor = monitor_of(alloc, algorithm, &schedule, numbers)?;
    let mut session = Session::with_simulation(alloc, monitor, schedule)?;
    hold(alloc, &mut session, folder, r, &mut buffer, w)
}

/// Runs `step --algorithm`: reads the algorithm from its text, begins with the schedule that is given, or with a header that is read
/// from the input, and answers each line after it. A fault says what is wrong with the algorithm's text, why the session can't begin,
/// or that a device or memory has failed.
pub fn algorithm_session_command<F: Folder, R: Source, W: Sink>(
    alloc: Global,
    text: Option<&[u8]>,
    start: Option<&[u8]>,
    folder: &mut F,
    r: &mut R,
    w: &mut W,
) -> Result<Ending, CommandFault>
    ensures ends { RefusesText (option_copied text.entry) (devices (R.reading r.old) (F.used folder.old) (W.tape w.old))
        (devices (R.reading r.new) (F.used folder.new) (W.tape w.new)) result ⊎ HoldsOfAlgorithm (option_copied text.entry)
        (λ a. AlgorithmSessionEnds a (option_copied start.entry) (devices (R.reading r.old) (F.used folder.old) (W.tape w.old))
        (devices (R.reading r.new) (F.used folder.new) (W.tape w.new)) result) }
    ensures ended { IfOk result (IsEnded false (W.tape w.old).failures (W.tape w.new).failures) }
    ensures opened { (F.used folder.new).opened ≡ (F.used folder.old).opened }
{
    let algorithm = algorithm_read(alloc, text)?;
    let numbers = line_numbers(alloc, &algorithm.algorithm)?;
    hold_session(alloc, algorithm, &numbers, start, folder, r, w)
}
