//! Replays the text of a schedule.

ghost use Rattle.std.specs.Prelude.{◌≡◌, ◌+◌, ◌^◌, ◌<◌, ◌≤◌, ℕ, List, [], length, drop, Ok, IfOk, Some, unwrap_or};
ghost use Rattle.judge.specs.Table.{State};
ghost use Rattle.judge.specs.Stands.{Keeps};
ghost use Rattle.schedule.specs.Replays.{Replays};
ghost use Rattle.schedule.specs.Runs.{run_on};
ghost use Rattle.rmecore.specs.Refused.{number_of};
ghost use Rattle.rmeworld.specs.WorldState.{new_refusal};
ghost use Rattle.schedule.specs.declared.lines.line.Line.{Line as LineOf};
ghost use Rattle.schedule.specs.Commands.{line_at};
ghost use Rattle.schedule.specs.Texts.{items_at};
ghost use Rattle.schedule.specs.Words.{parts_of};
ghost use Rattle.schedule.specs.RunningVerdicts.{running_judge};
ghost use Rattle.schedule.specs.ReplayStops.{Runs};
ghost use Rattle.schedule.specs.Schedules.{schedule_at, scheduled_with};
ghost use Rattle.schedule.specs.Tapes.{AreKnown};
ghost use Rattle.schedule.specs.Wholes.{layout_of, header_fault, OfSchedule, OfText, ReplaysSource, ReplaysText, ReplaysBetween};

use crate::lexer::in_place::read_whole;
use crate::replays::laws::worlds_are_never_found_out;
use crate::replays::pieces::read_all;
use crate::replays::replay_fault::ReplayFault;
use crate::replays::replay_loop::{close, settle};
use crate::replays::report_writer::report_text;
use crate::replays::reporter::Reporter;
use crate::replays::verdict::Verdict;
use crate::texts::device::{Sink, Source};
use crate::texts::fault::TextFault;
use crate::texts::head::Head;
use crate::texts::wrapped::{FromReader, ToWriter};
use judge::Judge;
use rmecore::Refusal;
use rmeworld::{Machine, World};
use std::alloc::Global;
use std::io;

/// The fault where no world or no judge has the header's sizes.
fn at_header(refusal: Refusal) -> ReplayFault
    ensures { result ≡ header_fault (number_of refusal) }
{
    match refusal.number() {
        Some(number) => ReplayFault::Refused { line: 1, number },
        None => ReplayFault::OutOfMemory,
    }
}

/// Plays the lines of a text from this byte on, as `report_text` does, and then frees the text.
fn play_from<M: Machine, W: Sink>(
    machine: &mut M,
    judge: &mut Judge,
    reporter: &mut Reporter,
    w: &mut W,
    width: u64,
    text: Vec<u8>,
    from: usize,
) -> Result<(), ReplayFault>
    requires width { (1 ≤ width) × (width ≤ 8) }
    requires room { length text.items + 2 < 2 ^ 64 }
    requires within { from ≤ length text.items }
    requires read { (lines : List LineOf) × (items_at (line_at width) 2 (parts_of (drop from text.items)) ≡ Ok lines) }
    ensures { (lines : List LineOf) → items_at (line_at width) 2 (parts_of (drop from text.items)) ≡ Ok lines
        → Runs (W.tape w.old) (W.tape w.new) (running_judge judge.old reporter.old) (running_judge judge.new reporter.new)
        (run_on M.behaviour 2 machine.old lines) machine.new result }
{
    report_text(machine, judge, reporter, w, width, &text[from..])
}

/// Replays the lines of a text from this byte on, as `replay_on` does, and keeps none of them.
/// The text is freed before the end of the report is written, since that takes memory too.
fn replay_in_place<M: Machine, W: Sink>(
    alloc: Global,
    machine: &mut M,
    judge: &mut Judge,
    width: u64,
    text: Vec<u8>,
    from: usize,
    w: &mut W,
) -> Result<Verdict, ReplayFault>
    requires width { (1 ≤ width) × (width ≤ 8) }
    requires room { length text.items + 2 < 2 ^ 64 }
    requires within { from ≤ length text.items }
    requires read { (lines : List LineOf) × (items_at (line_at width) 2 (parts_of (drop from text.items)) ≡ Ok lines) }
    ensures { (start : State) (lines : List LineOf) → Keeps judge.old start
        → items_at (line_at width) 2 (parts_of (drop from text.items)) ≡ Ok lines
        → Replays (W.tape w.old) (W.tape w.new) start M.behaviour.image_of (run_on M.behaviour 2 machine.old lines) result }
{
    let mut reporter = Reporter::new(alloc);
    if let Err(fault) = play_from(machine, judge, &mut reporter, w, width, text, from) {
        return Err(settle(w, fault));
    }
    let verdict = reporter.verdict();
    let Ok(image) = machine.image() else {
        return Err(ReplayFault::OutOfMemory);
    };
    close(alloc, &image, verdict, w)?;
    Ok(verdict)
}

/// Replays the lines of a text from this byte on, on a new world and before a new judge.
fn replay_new<W: Sink>(
    alloc: Global,
    head: Head,
    text: Vec<u8>,
    from: usize,
    w: &mut W,
) -> Result<Verdict, ReplayFault>
    requires width { (1 ≤ head.width) × (head.width ≤ 8) }
    requires room { length text.items + 2 < 2 ^ 64 }
    requires within { from ≤ length text.items }
    requires read { (all : List LineOf) × (items_at (line_at head.width) 2 (parts_of (drop from text.items)) ≡ Ok all) }
    ensures of { (all : List LineOf) → items_at (line_at head.width) 2 (parts_of (drop from text.items)) ≡ Ok all
        → OfSchedule (W.tape w.old) (W.tape w.new) (scheduled_with (head, all))
        (new_refusal (layout_of (scheduled_with (head, all))) head.limit) result }
    ensures fine { IfOk result (λ verdict. verdict ≡ Verdict.Fine) }
{
    worlds_are_never_found_out();
    let mut world = match World::new(alloc, head.procs, head.limit, head.cap, head.width) {
        Ok(world) => world,
        Err(refusal) => return Err(at_header(refusal)),
    };
    let mut judge = match Judge::new(alloc, head.procs, head.cap) {
        Ok(judge) => judge,
        Err(_) => return Err(ReplayFault::OutOfMemory),
    };
    replay_in_place(alloc, &mut world, &mut judge, head.width, text, from, w)
}

/// Replays the schedule that the text spells.
fn replay_text<W: Sink>(alloc: Global, text: Vec<u8>, w: &mut W) -> Result<Verdict, ReplayFault>
    requires room { length text.items + 2 < 2 ^ 64 }
    ensures of { OfText (W.tape w.old) (W.tape w.new) (schedule_at text.items) result }
    ensures fine { IfOk result (λ verdict. verdict ≡ Verdict.Fine) }
{
    match read_whole(&text) {
        Ok((head, from)) => replay_new(alloc, head, text, from, w),
        Err(TextFault::At { line, number }) => Err(ReplayFault::Text { line, number }),
        Err(TextFault::OutOfMemory) => Err(ReplayFault::OutOfMemory),
    }
}

/// Replays the schedule whose text the source gives, and writes its report. The whole text is read and checked first.
/// It is played on a new world of the header's sizes, before a new judge. Sizes that no world has are refused at line 1.
pub fn replay<R: Source, W: Sink>(
    alloc: Global,
    source: &mut R,
    w: &mut W,
) -> Result<Verdict, ReplayFault>
    // What was read, written and answered.
    ensures replay { ReplaysSource (R.reading source.old) (R.reading source.new)
        (W.tape w.old) (W.tape w.new) result }
    // Where it is known what the source gives, just this text is replayed.
    ensures known { (text : List ℕ) → R.coming source.old ≡ Some text
        → ReplaysText text (R.reading source.old) (R.reading source.new) (W.tape w.old) (W.tape w.new) result }
    // By the lock theorem no replay answers `Against`.
    ensures fine { IfOk result (λ verdict. verdict ≡ Verdict.Fine) }
{
    let text = read_all(alloc, source)?;
    replay_text(alloc, text, w)
}

/// Replays the schedule whose text a reader of std gives, and writes its report to a writer of std, as `replay` does.
/// Answers the writer as well. It does not flush it.
pub fn replay_to_writer<R: io::Read + Drop, W: io::Write>(
    alloc: Global,
    reader: R,
    writer: W,
) -> (Result<Verdict, ReplayFault>, W)
    // Where it is known what the reader gives and what the writer holds, the writer holds the report of just this text, after
    // what it held.
    ensures known { (text : List ℕ) → R.remaining reader ≡ Some text → AreKnown W.contents
        → ReplaysBetween text (unwrap_or (W.contents writer) []) (unwrap_or (W.contents result.1) []) result.0 }
    ensures fine { IfOk result.0 (λ verdict. verdict ≡ Verdict.Fine) }
{
    let mut source = FromReader::new(reader);
    let mut sink = ToWriter::new(writer);
    let answer = replay(alloc, &mut source, &mut sink);
    (answer, sink.into_inner())
}
