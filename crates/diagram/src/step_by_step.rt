//! Writes a run step by step.

ghost use Rattle.std.specs.Prelude.{◌≡◌, ◌++◌, [], true, false, OnOk, get_or, map};
ghost use Rattle.std.proofs.Math.ListN.{replicate};
ghost use Rattle.judge.specs.Stands.{Keeps};
ghost use Rattle.judge.specs.Table.{State};
ghost use Rattle.schedule.specs.ReplayStops.{IsOver};
ghost use Rattle.schedule.specs.Runs.{run_on};
ghost use Rattle.schedule.specs.Schedules.{head_of};
ghost use Rattle.schedule.specs.Transitions.{Took};
ghost use Rattle.diagram.specs.Drawings.{WritesText};
ghost use Rattle.diagram.specs.Events.{events_on};
ghost use Rattle.diagram.specs.Followed.{access_of, WritesEnding, FollowsRun, place_line, row_of as row_for, row_text, reports_by};
ghost use Rattle.diagram.specs.MarkedRuns.{marked_row_text, marked_rows_text, marked_run_text, WritesRows};
ghost use Rattle.diagram.specs.Rows.{events_in, events_shown};
ghost use Rattle.diagram.specs.DiagramLayouts.{layout_of as layout_in};

use crate::act::{DiagramRow, RowAct};
use crate::diagram_layout::layout_of;
use crate::drawing::{Drawing, End, draw};
use crate::lifelines::class_of;
use crate::marked_steps::MarkedSteps;
use crate::page_parts::{put_around, put_text};
use crate::phase::LifelinePhase;
use crate::remote_marks::{RemoteMarks, put_marks};
use crate::signs::put_sign;
use judge::Judge;
use redomail::Layout;
use rmeworld::{Machine, Stepped};
use schedule::lines::answer::{put_answer, put_deed};
use schedule::replays::replay_loop::close;
use schedule::texts::device::write_all;
use schedule::{ReplayFault, Schedule, Sink, Verdict};
use std::alloc::{AllocError, Global};

/// A step as a row of its own.
pub fn row_of(p: u64, step: &Stepped) -> DiagramRow
    ensures { result ≡ row_for (Took p step.now) }
{
    match (step.deed, step.answer) {
        (None, None) => DiagramRow {
            p,
            act: RowAct::Silent(step.happened, 1),
        },
        _ => DiagramRow {
            p,
            act: RowAct::Telling(*step),
        },
    }
}

/// The phase of process p; past the list at rest.
pub fn phase_of(phases: &[LifelinePhase], p: u64) -> LifelinePhase
    ensures { result ≡ get_or phases.now p LifelinePhase.Rest }
{
    phases
        .get(p as usize)
        .copied()
        .unwrap_or(LifelinePhase::Rest)
}

/// Writes what a row reads or writes.
fn put_access(out: &mut Vec<u8>, layout: &Layout, row: &DiagramRow) -> Result<(), AllocError>
    ensures { OnOk result (out.new.items ≡ out.old.items ++ access_of layout.now row.now.p row.now.act) }
{
    match row.act {
        RowAct::Fell(_) => Ok(()),
        RowAct::Silent(..) | RowAct::Telling(_) => {
            put_text(out, b" ")?;
            put_sign(out, layout, row)
        }
    }
}

/// Writes the phase of a row's process, what the row reads or writes, and in which models that is remote.
#[tactic(auto, unfolding(crate::specs::Followed::place_line))]
fn put_place(
    out: &mut Vec<u8>,
    layout: &Layout,
    phases: &[LifelinePhase],
    marks: Option<RemoteMarks>,
    row: &DiagramRow,
) -> Result<(), AllocError>
    ensures { OnOk result (out.new.items ≡ out.old.items ++ place_line layout.now phases.now marks row.now) }
{
    put_around(out, b"at ", row.p, b" ")?;
    put_text(out, class_of(phase_of(phases, row.p)))?;
    put_access(out, layout, row)?;
    put_marks(out, marks)?;
    put_text(out, b"\n")
}

/// Writes what a row reports.
fn put_reports(out: &mut Vec<u8>, row: &DiagramRow) -> Result<(), AllocError>
    ensures { OnOk result (out.new.items ≡ out.old.items ++ reports_by row.now.p row.now.act) }
{
    if let Some(deed) = row.deed() {
        put_deed(out, &deed)?;
    }
    if let Some(answer) = row.answer() {
        put_answer(out, row.p, answer)?;
    }
    Ok(())
}

/// Writes a row with its marks, and what it reports.
#[tactic(auto, unfolding(crate::specs::Followed::row_text))]
pub fn put_row(
    out: &mut Vec<u8>,
    layout: &Layout,
    phases: &[LifelinePhase],
    marks: Option<RemoteMarks>,
    row: &DiagramRow,
) -> Result<(), AllocError>
    ensures { OnOk result (out.new.items ≡ out.old.items ++ row_text layout.now phases.now marks row.now) }
{
    put_place(out, layout, phases, marks, row)?;
    put_reports(out, row)
}

/// Writes a row to a sink. It has been taken.
fn write_row<W: Sink>(
    page: &mut Vec<u8>,
    layout: &Layout,
    steps: &MarkedSteps,
    row: &DiagramRow,
    w: &mut W,
) -> Result<(), ReplayFault>
    ensures { WritesText (W.tape w.old) (W.tape w.new) (marked_row_text layout.now steps.now row.now) result }
{
    page.clear();
    let phases = steps.lifelines().phases();
    put_row(page, layout, phases, steps.last_marks(), row)?;
    write_all(w, page)?;
    Ok(())
}

/// Writes a row as often as it was taken.
fn write_times<W: Sink>(
    page: &mut Vec<u8>,
    layout: &Layout,
    steps: &mut MarkedSteps,
    row: &DiagramRow,
    times: u64,
    w: &mut W,
) -> Result<(), ReplayFault>
    ensures { WritesRows (W.tape w.old) (W.tape w.new) layout.now steps.old steps.new (replicate times row.now) result }
{
    for _ in 0..times {
        steps.take(row);
        write_row(page, layout, steps, row, w)?;
    }
    Ok(())
}

/// Writes the steps that a row shows, or its crash.
fn write_shown<W: Sink>(
    page: &mut Vec<u8>,
    layout: &Layout,
    steps: &mut MarkedSteps,
    row: &DiagramRow,
    w: &mut W,
) -> Result<(), ReplayFault>
    ensures { WritesRows (W.tape w.old) (W.tape w.new) layout.now steps.old steps.new
        (map row_for (events_shown row.now.p row.now.act)) result }
{
    let p = row.p;
    match &row.act {
        RowAct::Silent(happened, times) => {
            let act = RowAct::Silent(*happened, 1);
            write_times(page, layout, steps, &DiagramRow { p, act }, *times, w)
        }
        RowAct::Telling(stepped) => write_times(page, layout, steps, &row_of(p, stepped), 1, w),
        RowAct::Fell(_) => write_times(page, layout, steps, row, 1, w),
    }
}

/// Writes the steps and crashes that rows show.
fn write_rows<W: Sink>(
    page: &mut Vec<u8>,
    layout: &Layout,
    steps: &mut MarkedSteps,
    rows: &[DiagramRow],
    w: &mut W,
) -> Result<(), ReplayFault>
    ensures { WritesText (W.tape w.old) (W.tape w.new)
        (marked_rows_text layout.now steps.old (map row_for (events_in rows.now))) result }
{
    for row in rows {
        write_shown(page, layout, steps, row, w)?;
    }
    Ok(())
}

/// Whether a row shows a step or a crash.
fn shows(row: &DiagramRow) -> bool
    ensures some { result ≡ true → events_shown row.now.p row.now.act ≡ [] → ⊥ }
    ensures none { result ≡ false → events_shown row.now.p row.now.act ≡ [] }
{
    match row.act {
        RowAct::Silent(_, times) => times > 0,
        RowAct::Telling(_) | RowAct::Fell(_) => true,
    }
}

/// Whether rows show a step or a crash.
fn show_any(rows: &[DiagramRow]) -> bool
    ensures some { result ≡ true → events_in rows.now ≡ [] → ⊥ }
    ensures none { result ≡ false → events_in rows.now ≡ [] }
{
    for row in rows {
        if shows(row) {
            return true;
        }
    }
    false
}

/// Writes the steps and crashes of a run, from its drawing. There is one.
fn write_some<W: Sink>(alloc: Global, drawing: &Drawing, w: &mut W) -> Result<(), ReplayFault>
    requires { events_in drawing.now.rows.items ≡ [] → ⊥ }
    ensures { WritesText (W.tape w.old) (W.tape w.new) (marked_run_text (layout_in drawing.now.head)
        drawing.now.first (events_in drawing.now.rows.items)) result }
{
    let mut page = Vec::new(alloc);
    let mut steps = MarkedSteps::at_start(alloc, drawing)?;
    let layout = layout_of(drawing.head);
    write_rows(&mut page, &layout, &mut steps, drawing.rows.as_slice(), w)
}

/// Writes the steps and crashes of a run, from its drawing. It takes memory only where there is something to write.
#[tactic(auto, using(crate::proofs::Written::writes_none, crate::proofs::NotEmpty::followed_none))]
fn write_steps<W: Sink>(alloc: Global, drawing: &Drawing, w: &mut W) -> Result<(), ReplayFault>
    ensures { WritesText (W.tape w.old) (W.tape w.new) (marked_run_text (layout_in drawing.now.head)
        drawing.now.first (events_in drawing.now.rows.items)) result }
{
    if show_any(drawing.rows.as_slice()) {
        return write_some(alloc, drawing, w);
    }
    Ok(())
}

/// Writes the end of a machine's report after the steps. A run that was refused has no such end.
fn write_end<M: Machine, W: Sink>(
    alloc: Global,
    machine: &M,
    end: &End,
    w: &mut W,
) -> Result<Verdict, ReplayFault>
    ensures { WritesEnding (W.tape w.old) (W.tape w.new) (M.behaviour.image_of machine.now) end.now result }
{
    match *end {
        End::Judged(verdict) => {
            let Ok(image) = machine.image() else {
                return Err(ReplayFault::OutOfMemory);
            };
            close(alloc, &image, verdict, w)?;
            Ok(verdict)
        }
        End::Refused { line, number, .. } => {
            w.flush()?;
            Err(ReplayFault::Refused { line, number })
        }
    }
}

/// Plays the lines of a schedule on a machine, before a judge, as `draw` does, and writes the run step by step, each with the models
/// of memory in which its access is remote.
pub fn follow<M: Machine, W: Sink>(
    alloc: Global,
    machine: &mut M,
    judge: &mut Judge,
    schedule: &Schedule,
    first: LifelinePhase,
    w: &mut W,
) -> Result<Verdict, ReplayFault>
    // Just this run is written and its verdict answered, or the reason why not.
    ensures follows { (start : State) → Keeps judge.old start
        → FollowsRun (W.tape w.old) (W.tape w.new) start M.behaviour.image_of
        (run_on M.behaviour 2 machine.old schedule.now.lines)
        (marked_run_text (layout_in (head_of schedule.now)) first (events_on M.behaviour machine.old schedule.now.lines)) result }
    // After a verdict or a refused line the machine is as the run leaves it.
    ensures left { IsOver result → machine.new ≡ (run_on M.behaviour 2 machine.old schedule.now.lines).left }
{
    let Ok(drawing) = draw(alloc, machine, judge, schedule, first) else {
        return Err(ReplayFault::OutOfMemory);
    };
    write_steps(alloc, &drawing, w)?;
    write_end(alloc, machine, &drawing.end, w)
}
