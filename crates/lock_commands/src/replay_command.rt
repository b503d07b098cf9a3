//! The command `replay`.

ghost use Rattle.std.specs.Prelude.{◌≡◌, ◌≤◌, IfErr, IfOk, IfSome, None, Result, is_some, option_copied, false, true};
ghost use Rattle.judge.specs.Stands.{Keeps};
ghost use Rattle.judge.specs.Starts.{IsStart, state_of};
ghost use Rattle.judge.specs.Table.{State};
ghost use Rattle.rmeworld.specs.ImageRules.{IsLawfulImage};
ghost use Rattle.rmeworld.specs.ImageStart.{IsStartOf};
ghost use Rattle.rmeworld.specs.ImageText.{image_line};
ghost use Rattle.rmeworld.specs.Replayed.{image_of, world_behaviour};
ghost use Rattle.rmeworld.specs.WorldState.{image_world as world_of_image};
ghost use Rattle.schedule.specs.Runs.{run_on};
ghost use Rattle.schedule.specs.Tapes.{Writes};
ghost use Rattle.command_parts.specs.Endings.{IsEnded, TellsReads};
ghost use Rattle.command_parts.specs.ReportObjects.{IsUnwritten, report_object as object_of};
ghost use Rattle.lock_commands.specs.Replays.{IsLast, IsPlayedToVerdict, IsReplayed, ReplayEnds, replay_manner, TellsReplay};
ghost use Rattle.command_parts.specs.Statuses.{answer_of_replay, fault_in_memory, fault_on_page};
ghost use Rattle.lock_commands.specs.Tellings.{AnswersRun, run_start, ReplaysObject, WritesRun, TellsImage, TellsNew, TellsSchedule, TellsVariant};

use crate::play_start::{
    fitting, image_read, image_world, new_judge, new_world, start_at, started_judge, variant_world,
};
use cli::arguments::args::ReplayArgs;
use command_parts::ending::status_after_verdict;
use command_parts::report_object::report_object;
use command_parts::schedule_text::schedule_read;
use command_parts::{CommandFault, Ending};
use crashlab::Variant;
use diagram::{LifelinePhase, follow, follow_as_lines};
use judge::{Judge, Start};
use rmeworld::{Image, Machine, write_image};
use schedule::replays::laws::worlds_are_never_found_out;
use schedule::texts::device::write_all;
use schedule::{Page, ReplayFault, Schedule, Sink, Source, Verdict, replay, replay_on};
use std::alloc::Global;

/// The fault of a replay to a page in memory: the page refuses a write only when it is out of memory.
pub fn on_page(fault: ReplayFault) -> CommandFault
    ensures { result ≡ fault_on_page fault }
{
    match fault {
        ReplayFault::Write => CommandFault::OutOfMemory,
        other => CommandFault::from(other),
    }
}

/// The fault of a replay whose report goes to a page in memory first: the page refuses a write only when it is out of memory.
fn in_memory(fault: ReplayFault) -> ReplayFault
    ensures { result ≡ fault_in_memory fault }
{
    match fault {
        ReplayFault::Write => ReplayFault::OutOfMemory,
        other => other,
    }
}

/// Writes a report as one JSON object, and answers its verdict.
fn write_object<W: Sink>(
    alloc: Global,
    report: &[u8],
    verdict: Verdict,
    w: &mut W,
) -> Result<Verdict, ReplayFault>
    ensures written { IfOk result (λ same. (same ≡ verdict) × Writes (W.tape w.old) (W.tape w.new) (object_of report.now)) }
    ensures unwritten { IfErr result (IsUnwritten (W.tape w.old) (W.tape w.new) (object_of report.now)) }
{
    let object = report_object(alloc, report)?;
    match write_all(w, &object) {
        Ok(()) => Ok(verdict),
        Err(_) => Err(ReplayFault::Write),
    }
}

/// Plays the schedule to a page in memory, and writes the lines of the report as one JSON object.
fn replay_object<M: Machine, W: Sink>(
    alloc: Global,
    schedule: &Schedule,
    machine: &mut M,
    judge: &mut Judge,
    w: &mut W,
) -> Result<Verdict, ReplayFault>
    ensures played { (start : State) → Keeps judge.old start
        → IfOk result (IsPlayedToVerdict start (run_on M.behaviour 2 machine.old schedule.now.lines) machine.new
        (W.tape w.old).failures (W.tape w.new).failures) }
    ensures reports { (start : State) → Keeps judge.old start
        → ReplaysObject (W.tape w.old) (W.tape w.new) start M.behaviour.image_of
        (run_on M.behaviour 2 machine.old schedule.now.lines) result }
{
    let mut page = Page::new(alloc);
    match replay_on(alloc, machine, judge, schedule, &mut page) {
        Ok(verdict) => write_object(alloc, page.as_slice(), verdict, w),
        Err(fault) => Err(in_memory(fault)),
    }
}

/// Plays the schedule, and writes its report, or each step, as text or as JSON.
fn report<M: Machine, W: Sink>(
    alloc: Global,
    machine: &mut M,
    judge: &mut Judge,
    schedule: &Schedule,
    first: LifelinePhase,
    each: bool,
    json: bool,
    w: &mut W,
) -> Result<Verdict, ReplayFault>
    ensures played { (start : State) → Keeps judge.old start
        → IfOk result (IsPlayedToVerdict start (run_on M.behaviour 2 machine.old schedule.now.lines) machine.new
        (W.tape w.old).failures (W.tape w.new).failures) }
    ensures reports { (start : State) → Keeps judge.old start
        → AnswersRun each json (run_start M.behaviour start machine.old first schedule.now) (W.tape w.old) (W.tape w.new) result }
{
    match (each, json) {
        (true, true) => follow_as_lines(alloc, machine, judge, schedule, first, w),
        (true, false) => follow(alloc, machine, judge, schedule, first, w),
        (false, true) => replay_object(alloc, schedule, machine, judge, w),
        (false, false) => replay_on(alloc, machine, judge, schedule, w),
    }
}

/// Plays the schedule, and writes to `w`, as text or as JSON.
fn play<M: Machine, W: Sink>(
    alloc: Global,
    machine: &mut M,
    judge: &mut Judge,
    schedule: &Schedule,
    first: LifelinePhase,
    args: &ReplayArgs,
    w: &mut W,
) -> Result<Verdict, CommandFault>
    ensures played { (start : State) → Keeps judge.old start
        → IfOk result (IsPlayedToVerdict start (run_on M.behaviour 2 machine.old schedule.now.lines) machine.new
        (W.tape w.old).failures (W.tape w.new).failures) }
    ensures reports { (start : State) → Keeps judge.old start
        → (answer : Result Verdict ReplayFault)
        × AnswersRun args.now.each args.now.json (run_start M.behaviour start machine.old first schedule.now) (W.tape w.old)
        (W.tape w.new) answer × (result ≡ answer_of_replay answer) }
{
    let each = args.each;
    match report(alloc, machine, judge, schedule, first, each, args.json, w) {
        Ok(verdict) => Ok(verdict),
        Err(fault) => Err(CommandFault::from(fault)),
    }
}

/// The text of the last image, if it is to be saved.
fn image_to_save<M: Machine>(
    alloc: Global,
    machine: &M,
    save: bool,
) -> Result<Option<Vec<u8>>, CommandFault>
    ensures asked { IfOk result (λ text. is_some text ≡ save) }
    ensures memory { IfErr result (λ fault. (fault ≡ CommandFault.OutOfMemory) × (save ≡ true)) }
    ensures last { IfOk result (λ text. IfSome text (λ image. image.items ≡ image_line (M.behaviour.image_of machine.now))) }
{
    if !save {
        return Ok(None);
    }
    let Ok(image) = machine.image() else {
        return Err(CommandFault::OutOfMemory);
    };
    match write_image(alloc, &image) {
        Ok(text) => Ok(Some(text)),
        Err(_) => Err(CommandFault::OutOfMemory),
    }
}

/// Plays the schedule on a machine. The result is how the command ends.
fn replay_machine<M: Machine, W: Sink>(
    alloc: Global,
    machine: &mut M,
    judge: &mut Judge,
    schedule: &Schedule,
    first: LifelinePhase,
    args: &ReplayArgs,
    w: &mut W,
) -> Result<Ending, CommandFault>
    ensures replayed { (start : State) → Keeps judge.old start
        → IfOk result (IsReplayed start (run_on M.behaviour 2 machine.old schedule.now.lines) M.behaviour.image_of
        (is_some args.now.save) (W.tape w.old).failures (W.tape w.new).failures) }
    ensures reports { (start : State) → Keeps judge.old start
        → WritesRun (replay_manner args.now) (run_start M.behaviour start machine.old first schedule.now) (W.tape w.old)
        (W.tape w.new) result }
{
    let verdict = play(alloc, machine, judge, schedule, first, args, w)?;
    let save = image_to_save(alloc, machine, args.save.is_some())?;
    Ok(Ending {
        status: status_after_verdict(verdict),
        save,
    })
}

/// Plays the schedule on a new world of the right lock.
fn replay_new<W: Sink>(
    alloc: Global,
    schedule: &Schedule,
    args: &ReplayArgs,
    w: &mut W,
) -> Result<Ending, CommandFault>
    ensures fine { IfOk result (λ ending. ending.status ≡ 0) }
    ensures last { IfOk result (λ ending. IfSome ending.save (λ image. IsLast schedule.now image.items)) }
    ensures reports { TellsNew (replay_manner args.now) schedule.now
        (W.tape w.old) (W.tape w.new) result }
    ensures ended { IfOk result (IsEnded (is_some args.now.save) (W.tape w.old).failures (W.tape w.new).failures) }
{
    worlds_are_never_found_out();
    let mut world = new_world(alloc, schedule)?;
    let mut judge = new_judge(alloc, schedule)?;
    replay_machine(
        alloc,
        &mut world,
        &mut judge,
        schedule,
        LifelinePhase::Rest,
        args,
        w,
    )
}

/// Plays the schedule on a world that starts from an image.
fn replay_image<W: Sink>(
    alloc: Global,
    image: Image,
    schedule: &Schedule,
    args: &ReplayArgs,
    w: &mut W,
) -> Result<Ending, CommandFault>
    requires { IsLawfulImage image }
    ensures fine { IfOk result (λ ending. ending.status ≡ 0) }
    ensures reports { TellsImage image (replay_manner args.now) schedule.now
        (W.tape w.old) (W.tape w.new) result }
    ensures ended { IfOk result (IsEnded (is_some args.now.save) (W.tape w.old).failures (W.tape w.new).failures) }
{
    let image = fitting(alloc, image, schedule)?;
    let start = start_at(alloc, &image)?;
    replay_started(alloc, &image, &start, schedule, args, w)
}

/// Plays the schedule on the world of an image, with a judge that starts in the state of the image.
fn replay_started<W: Sink>(
    alloc: Global,
    image: &Image,
    start: &Start,
    schedule: &Schedule,
    args: &ReplayArgs,
    w: &mut W,
) -> Result<Ending, CommandFault>
    requires lawful { IsLawfulImage image.now }
    requires begins { IsStartOf image.now start.now }
    requires judged { IsStart start.now }
    ensures fine { IfOk result (λ ending. ending.status ≡ 0) }
    ensures reports { WritesRun (replay_manner args.now) (run_start world_behaviour (state_of start.now)
        (world_of_image image.now) LifelinePhase.Dead schedule.now) (W.tape w.old) (W.tape w.new) result }
    ensures ended { IfOk result (IsEnded (is_some args.now.save) (W.tape w.old).failures (W.tape w.new).failures) }
{
    worlds_are_never_found_out();
    let mut world = image_world(alloc, image)?;
    let mut judge = started_judge(alloc, start)?;
    replay_machine(
        alloc,
        &mut world,
        &mut judge,
        schedule,
        LifelinePhase::Dead,
        args,
        w,
    )
}

/// Plays the schedule on a new world of a variant of the lock.
fn replay_variant<W: Sink>(
    alloc: Global,
    schedule: &Schedule,
    args: &ReplayArgs,
    w: &mut W,
) -> Result<Ending, CommandFault>
    ensures reports { TellsVariant args.now.variant (replay_manner args.now) schedule.now
        (W.tape w.old) (W.tape w.new) result }
    ensures ended { IfOk result (IsEnded (is_some args.now.save) (W.tape w.old).failures (W.tape w.new).failures) }
{
    let mut world = variant_world(alloc, args.variant, schedule)?;
    let mut judge = new_judge(alloc, schedule)?;
    replay_machine(
        alloc,
        &mut world,
        &mut judge,
        schedule,
        LifelinePhase::Rest,
        args,
        w,
    )
}

/// Plays the schedule on the machine that is asked for.
fn replay_schedule<W: Sink>(
    alloc: Global,
    args: &ReplayArgs,
    image: Option<Image>,
    schedule: &Schedule,
    w: &mut W,
) -> Result<Ending, CommandFault>
    requires { IfSome image IsLawfulImage }
    ensures fine { args.now.variant ≡ Variant.Right → IfOk result (λ ending. ending.status ≡ 0) }
    ensures last { args.now.variant ≡ Variant.Right → is_some image ≡ false
        → IfOk result (λ ending. IfSome ending.save (λ image. IsLast schedule.now image.items)) }
    ensures reports { TellsSchedule args.now.variant image
        (replay_manner args.now) schedule.now (W.tape w.old) (W.tape w.new) result }
    ensures ended { IfOk result (IsEnded (is_some args.now.save) (W.tape w.old).failures (W.tape w.new).failures) }
{
    match (image, args.variant) {
        (Some(image), _) => replay_image(alloc, image, schedule, args, w),
        (None, Variant::Right) => replay_new(alloc, schedule, args, w),
        (None, _) => replay_variant(alloc, schedule, args, w),
    }
}

/// Replays on a new world of the right lock, straight from the reader to the writer.
#[tactic(auto, using(crate::proofs::Replays::replayed_whole))]
fn replay_plain<R: Source, W: Sink>(
    alloc: Global,
    r: &mut R,
    w: &mut W,
) -> Result<Ending, CommandFault>
    ensures tells { TellsReplay (R.reading r.old) (R.reading r.new) (W.tape w.old) (W.tape w.new) result }
    ensures reads { TellsReads (R.reading r.old) (R.reading r.new) result }
    ensures fine { IfOk result (λ ending. (ending.status ≡ 0) × (ending.save ≡ None)) }
    ensures ended { IfOk result (IsEnded false (W.tape w.old).failures (W.tape w.new).failures) }
{
    let verdict = replay(alloc, r, w)?;
    Ok(Ending {
        status: status_after_verdict(verdict),
        save: None,
    })
}

/// Runs `replay`: reads the image first, then the schedule; then it plays the schedule to its verdict. A fault says what
/// can't be read, which line the world refuses, or that a device or memory has failed.
pub fn replay_command<R: Source, W: Sink>(
    alloc: Global,
    args: &ReplayArgs,
    image: Option<&[u8]>,
    r: &mut R,
    w: &mut W,
) -> Result<Ending, CommandFault>
    ensures ends { ReplayEnds args.now (option_copied image.entry) (R.reading r.old) (R.reading r.new) (W.tape w.old)
        (W.tape w.new) result }
    ensures ended { IfOk result (IsEnded (is_some args.now.save) (W.tape w.old).failures (W.tape w.new).failures) }
{
    let plain = args.variant == Variant::Right && !args.json && !args.each && args.save.is_none();
    if image.is_none() && plain {
        return replay_plain(alloc, r, w);
    }
    let image = image_read(alloc, image)?;
    let schedule = schedule_read(alloc, r)?;
    let ending = replay_schedule(alloc, args, image, &schedule, w)?;
    Ok(ending)
}
