//! Writes a run as JSON, an object a line.

ghost use Rattle.std.specs.Prelude.{◌≡◌, ◌++◌, OnOk, IfOk, map};
ghost use Rattle.std.proofs.Math.ListN.{replicate};
ghost use Rattle.judge.specs.Stands.{Keeps};
ghost use Rattle.judge.specs.Table.{State};
ghost use Rattle.rmeworld.specs.ImageText.{image_line};
ghost use Rattle.schedule.specs.ReplayStops.{IsOver};
ghost use Rattle.schedule.specs.Runs.{run_on};
ghost use Rattle.schedule.specs.Schedules.{head_of};
ghost use Rattle.diagram.specs.Drawings.{WritesText};
ghost use Rattle.diagram.specs.Events.{events_on};
ghost use Rattle.diagram.specs.Followed.{row_of as row_for};
ghost use Rattle.diagram.specs.Rows.{events_in, events_shown};
ghost use Rattle.diagram.specs.StepLines.{EndingLines, FollowsAsLines, first_lines, format_line, last_lines, object_line, object_lines};
ghost use Rattle.diagram.specs.StepLines.{object_of, objects_of, step_lines, TellsObjects, state_before_steps};

use crate::act::{DiagramRow, RowAct};
use crate::diagram_layout::layout_of;
use crate::drawing::{Drawing, End, draw};
use crate::lock_words::Played;
use crate::marked_steps::MarkedSteps;
use crate::page_parts::put_text;
use crate::phase::LifelinePhase;
use crate::step_by_step::row_of;
use crate::step_lines::{put_line, put_verdict_object};
use judge::Judge;
use redomail::Layout;
use rmeworld::{Image, Machine, write_image};
use schedule::texts::device::write_all;
use schedule::{ReplayFault, Schedule, Sink, Verdict};
use std::alloc::{AllocError, Global};

/// Writes the line of a row to a sink. The row has been played.
fn write_line<W: Sink>(
    page: &mut Vec<u8>,
    layout: &Layout,
    played: &Played,
    row: &DiagramRow,
    w: &mut W,
) -> Result<(), ReplayFault>
    ensures { WritesText (W.tape w.old) (W.tape w.new) (object_line layout.now (object_of played.now row.now)) result }
{
    page.clear();
    put_line(page, layout, played, row)?;
    write_all(w, page)?;
    Ok(())
}

/// Writes the line of a row as often as it was taken.
fn write_times<W: Sink>(
    page: &mut Vec<u8>,
    layout: &Layout,
    played: &mut Played,
    row: &DiagramRow,
    times: u64,
    w: &mut W,
) -> Result<(), ReplayFault>
    ensures { TellsObjects (W.tape w.old) (W.tape w.new) layout.now played.old played.new (replicate times row.now) result }
{
    for _ in 0..times {
        played.take(row);
        write_line(page, layout, played, row, w)?;
    }
    Ok(())
}

/// Writes the lines of the steps that a row shows, or of its crash.
fn write_shown<W: Sink>(
    page: &mut Vec<u8>,
    layout: &Layout,
    played: &mut Played,
    row: &DiagramRow,
    w: &mut W,
) -> Result<(), ReplayFault>
    ensures { TellsObjects (W.tape w.old) (W.tape w.new) layout.now played.old played.new
        (map row_for (events_shown row.now.p row.now.act)) result }
{
    let p = row.p;
    match &row.act {
        RowAct::Silent(happened, times) => {
            let act = RowAct::Silent(*happened, 1);
            write_times(page, layout, played, &DiagramRow { p, act }, *times, w)
        }
        RowAct::Telling(stepped) => write_times(page, layout, played, &row_of(p, stepped), 1, w),
        RowAct::Fell(_) => write_times(page, layout, played, row, 1, w),
    }
}

/// Writes the lines of the steps and crashes that rows show.
fn write_rows<W: Sink>(
    page: &mut Vec<u8>,
    layout: &Layout,
    played: &mut Played,
    rows: &[DiagramRow],
    w: &mut W,
) -> Result<(), ReplayFault>
    ensures { WritesText (W.tape w.old) (W.tape w.new)
        (object_lines layout.now (objects_of played.old (map row_for (events_in rows.now)))) result }
{
    for row in rows {
        write_shown(page, layout, played, row, w)?;
    }
    Ok(())
}

/// Writes the line of an image.
fn put_image(alloc: Global, out: &mut Vec<u8>, image: &Image) -> Result<(), AllocError>
    ensures { OnOk result (out.new.items ≡ out.old.items ++ image_line image.now) }
{
    let Ok(line) = write_image(alloc, image) else {
        return Err(AllocError);
    };
    put_text(out, &line)
}

/// Writes the name of the format.
#[tactic(auto, unfolding(crate::specs::StepLines::format_line))]
fn put_format(out: &mut Vec<u8>) -> Result<(), AllocError>
    ensures { OnOk result (out.new.items ≡ out.old.items ++ format_line) }
{
    put_text(out, b"{\"format\":\"rmelab steps\",\"version\":1}\n")
}

/// Writes the lines before the first step: the name of the format, and an image.
#[tactic(auto, unfolding(crate::specs::StepLines::first_lines))]
fn put_first(alloc: Global, out: &mut Vec<u8>, image: &Image) -> Result<(), AllocError>
    ensures { OnOk result (out.new.items ≡ out.old.items ++ first_lines image.now) }
{
    put_format(out)?;
    put_image(alloc, out, image)
}

/// Writes the lines after the last step: an image, and the verdict.
#[tactic(auto, unfolding(crate::specs::StepLines::last_lines))]
fn put_last(
    alloc: Global,
    out: &mut Vec<u8>,
    image: &Image,
    verdict: Verdict,
) -> Result<(), AllocError>
    ensures { OnOk result (out.new.items ≡ out.old.items ++ last_lines image.now verdict) }
{
    put_image(alloc, out, image)?;
    put_verdict_object(out, verdict)
}

/// Writes the lines before the first step to a sink.
fn write_first<W: Sink>(
    alloc: Global,
    page: &mut Vec<u8>,
    image: &Image,
    w: &mut W,
) -> Result<(), ReplayFault>
    ensures { WritesText (W.tape w.old) (W.tape w.new) (first_lines image.now) result }
{
    page.clear();
    put_first(alloc, page, image)?;
    write_all(w, page)?;
    Ok(())
}

/// Before the first step: all processes in the same phase, and the lock words of an image.
fn state_before_steps(alloc: Global, drawing: &Drawing, image: &Image) -> Result<Played, AllocError>
    ensures { IfOk result (λ played. played
        ≡ state_before_steps drawing.now.head drawing.now.first image.now (events_in drawing.now.rows.items)) }
{
    let steps = MarkedSteps::at_start(alloc, drawing)?;
    let lock = Vec::from_slice(alloc, image.lock.as_slice())?;
    Ok(Played::new(steps, lock))
}

/// Writes the lines before the first step, and those of the steps and crashes that rows show.
fn write_from_first<W: Sink>(
    alloc: Global,
    page: &mut Vec<u8>,
    layout: &Layout,
    played: &mut Played,
    image: &Image,
    rows: &[DiagramRow],
    w: &mut W,
) -> Result<(), ReplayFault>
    ensures { WritesText (W.tape w.old) (W.tape w.new) (first_lines image.now
        ++ object_lines layout.now (objects_of played.old (map row_for (events_in rows.now)))) result }
{
    write_first(alloc, page, image, w)?;
    write_rows(page, layout, played, rows, w)
}

/// Writes all lines of a run but the last two, from its drawing and the image before its first step.
pub fn write_steps<W: Sink>(
    alloc: Global,
    image: &Image,
    drawing: &Drawing,
    w: &mut W,
) -> Result<(), ReplayFault>
    ensures { WritesText (W.tape w.old) (W.tape w.new)
        (step_lines drawing.now.head drawing.now.first image.now (events_in drawing.now.rows.items)) result }
{
    let mut played = state_before_steps(alloc, drawing, image)?;
    let mut page = Vec::new(alloc);
    write_from_first(
        alloc,
        &mut page,
        &layout_of(drawing.head),
        &mut played,
        image,
        drawing.rows.as_slice(),
        w,
    )
}

/// Writes the last two lines to a sink.
fn write_image_and_verdict<W: Sink>(
    alloc: Global,
    page: &mut Vec<u8>,
    image: &Image,
    verdict: Verdict,
    w: &mut W,
) -> Result<(), ReplayFault>
    ensures { WritesText (W.tape w.old) (W.tape w.new) (last_lines image.now verdict) result }
{
    page.clear();
    put_last(alloc, page, image, verdict)?;
    write_all(w, page)?;
    Ok(())
}

/// Writes the last two lines, and flushes the sink.
pub fn write_last<W: Sink>(
    alloc: Global,
    image: &Image,
    verdict: Verdict,
    w: &mut W,
) -> Result<(), ReplayFault>
    ensures { WritesText (W.tape w.old) (W.tape w.new) (last_lines image.now verdict) result }
{
    let mut page = Vec::new(alloc);
    write_image_and_verdict(alloc, &mut page, image, verdict, w)?;
    w.flush()?;
    Ok(())
}

/// Writes the last two lines of a machine's run. A run that was refused has none.
fn write_end<M: Machine, W: Sink>(
    alloc: Global,
    machine: &M,
    end: &End,
    w: &mut W,
) -> Result<Verdict, ReplayFault>
    ensures { EndingLines (W.tape w.old) (W.tape w.new) (M.behaviour.image_of machine.now) end.now result }
{
    match *end {
        End::Judged(verdict) => {
            let Ok(image) = machine.image() else {
                return Err(ReplayFault::OutOfMemory);
            };
            write_last(alloc, &image, verdict, w)?;
            Ok(verdict)
        }
        End::Refused { line, number, .. } => {
            w.flush()?;
            Err(ReplayFault::Refused { line, number })
        }
    }
}

/// Plays the lines of a schedule on a machine, before a judge, as `draw` does, and writes the run as JSON, an object a line.
pub fn follow_as_lines<M: Machine, W: Sink>(
    alloc: Global,
    machine: &mut M,
    judge: &mut Judge,
    schedule: &Schedule,
    first: LifelinePhase,
    w: &mut W,
) -> Result<Verdict, ReplayFault>
    // Just this run is written and its verdict answered, or the reason why not.
    ensures follows { (start : State) → Keeps judge.old start
        → FollowsAsLines (W.tape w.old) (W.tape w.new) start M.behaviour.image_of
        (run_on M.behaviour 2 machine.old schedule.now.lines)
        (step_lines (head_of schedule.now) first (M.behaviour.image_of machine.old)
        (events_on M.behaviour machine.old schedule.now.lines)) result }
    // After a verdict or a refused line the machine is as the run leaves it.
    ensures left { IsOver result → machine.new ≡ (run_on M.behaviour 2 machine.old schedule.now.lines).left }
{
    let Ok(image) = machine.image() else {
        return Err(ReplayFault::OutOfMemory);
    };
    let Ok(drawing) = draw(alloc, machine, judge, schedule, first) else {
        return Err(ReplayFault::OutOfMemory);
    };
    write_steps(alloc, &image, &drawing, w)?;
    write_end(alloc, machine, &drawing.end, w)
}
