//! Writes the steps of an algorithm's run.

ghost use Rattle.std.specs.Prelude.{◌≡◌, ◌++◌, IfOk, OnOk};
ghost use Rattle.algorithm_lab.specs.Replays.{run_of, WritesRunText};
ghost use Rattle.algorithm_lab.specs.Reports.{verdict_of};
ghost use Rattle.diagram.specs.AlgorithmSimulations.{access_text, event_line, kept_lines, marked_line, marked_lines};
ghost use Rattle.diagram.specs.AlgorithmSteps.{end_unless, IsRunText, report_by_steps, run_outcome, text_on_new};

use crate::algorithm::event_list::{MonitorEvent, Recording, record_run};
use crate::algorithm::remote_marks::{MarkedEvent, mark_events};
use crate::algorithm::row::{AlgorithmAct, put_sign};
use crate::lifelines::class_of;
use crate::page_parts::{put_around, put_text};
use crate::phase::LifelinePhase;
use crate::remote_marks::{RemoteMarks, put_marks};
use algorithm_lab::report::{put_all_reports, put_report_end};
use algorithm_lab::{AlgorithmReplayFault, Monitor, ReplayText, RunRefusal};
use algorithms::{Algorithm, AlgorithmWorld, InitializedAlgorithm};
use schedule::{Schedule, Sink, Verdict};
use std::alloc::{AllocError, Global};

/// Writes what is read or written.
fn put_access(out: &mut Vec<u8>, algorithm: &Algorithm, act: AlgorithmAct) -> Result<(), AllocError>
    ensures { OnOk result (out.new.items ≡ out.old.items ++ access_text algorithm.now act) }
{
    match act {
        AlgorithmAct::Crashed => Ok(()),
        AlgorithmAct::Took(..) | AlgorithmAct::Blocked(..) | AlgorithmAct::Further => {
            put_text(out, b" ")?;
            put_sign(out, algorithm, act)
        }
    }
}

/// Writes the phase of a process after a step, what it reads or writes, and in which models that is remote.
#[tactic(auto, unfolding(crate::specs::AlgorithmSimulations::event_line))]
fn put_place(
    out: &mut Vec<u8>,
    algorithm: &Algorithm,
    p: u64,
    act: AlgorithmAct,
    phase: LifelinePhase,
    marks: Option<RemoteMarks>,
) -> Result<(), AllocError>
    ensures { OnOk result (out.new.items ≡ out.old.items ++ event_line algorithm.now p act phase marks) }
{
    put_around(out, b"at ", p, b" ")?;
    put_text(out, class_of(phase))?;
    put_access(out, algorithm, act)?;
    put_marks(out, marks)?;
    put_text(out, b"\n")
}

/// Writes an event with its marks, and what it reports.
fn put_event(
    alloc: Global,
    out: &mut Vec<u8>,
    algorithm: &Algorithm,
    marked: MarkedEvent,
) -> Result<(), AllocError>
    ensures { OnOk result (out.new.items ≡ out.old.items ++ marked_line algorithm.now marked) }
{
    let MarkedEvent { event, marks } = marked;
    let mut reports = Vec::new(alloc);
    event.put_reports(&mut reports)?;
    put_place(
        out,
        algorithm,
        event.process(),
        event.act(),
        event.phase(),
        marks,
    )?;
    put_all_reports(out, algorithm, reports.as_slice())
}

/// Writes events without marks, and what they report.
pub(crate) fn put_events(
    alloc: Global,
    out: &mut Vec<u8>,
    algorithm: &Algorithm,
    events: &[MonitorEvent],
) -> Result<(), AllocError>
    ensures { OnOk result (out.new.items ≡ out.old.items ++ kept_lines algorithm.now events.now) }
{
    for event in events {
        let event = *event;
        put_event(alloc, out, algorithm, MarkedEvent { event, marks: None })?;
    }
    Ok(())
}

/// Writes events with their marks, and what they report.
fn put_marked_events(
    alloc: Global,
    out: &mut Vec<u8>,
    algorithm: &Algorithm,
    marked: &[MarkedEvent],
) -> Result<(), AllocError>
    ensures { OnOk result (out.new.items ≡ out.old.items ++ marked_lines algorithm.now marked.now) }
{
    for event in marked {
        put_event(alloc, out, algorithm, *event)?;
    }
    Ok(())
}

/// Writes the end of the report, unless a line is refused. Answers how the run ends.
fn put_end(
    alloc: Global,
    out: &mut Vec<u8>,
    world: &AlgorithmWorld,
    recording: &Recording,
) -> Result<Result<Verdict, (u64, RunRefusal)>, AllocError>
    ensures text { OnOk result (out.new.items
        ≡ out.old.items ++ end_unless recording.now.refused world.now recording.now.reports.items) }
    ensures ended { IfOk result (λ ended. ended
        ≡ run_outcome recording.now.refused
        (verdict_of world.now.algorithm world.now.procs recording.now.reports.items)) }
{
    match recording.refused {
        None => Ok(Ok(put_report_end(alloc, out, world, recording.reports.as_slice())?)),
        Some(refused) => Ok(Err(refused)),
    }
}

/// The report of a run with each of its steps, and how the run ends.
fn report_by_steps(
    alloc: Global,
    mut monitor: Monitor,
    schedule: &Schedule,
) -> Result<ReplayText, AllocError>
    ensures { IfOk result (λ report. IsRunText report_by_steps monitor schedule.now.lines report.text.items report.ended) }
{
    let recording = record_run(alloc, &mut monitor, schedule)?;
    let world = monitor.world();
    let algorithm = world.algorithm();
    let marked = mark_events(alloc, world, recording.events.as_slice())?;
    let mut text = Vec::new(alloc);
    put_marked_events(alloc, &mut text, algorithm, marked.as_slice())?;
    let ended = put_end(alloc, &mut text, world, &recording)?;
    Ok(ReplayText { text, ended })
}

/// Replays a schedule on a new world of an algorithm as `replay_algorithm` does, and writes each step and crash above what it
/// reports, with the models of memory in which its access is remote. All of it is made before the first byte is written.
pub fn follow_algorithm<W: Sink>(
    alloc: Global,
    algorithm: InitializedAlgorithm,
    schedule: &Schedule,
    w: &mut W,
) -> Result<Verdict, AlgorithmReplayFault>
    // Just the report by steps of the run that the definitions give is written and its verdict answered, or the reason why not.
    ensures { WritesRunText (W.tape w.old) (W.tape w.new) (text_on_new report_by_steps algorithm schedule.now)
        (run_of algorithm schedule.now.procs schedule.now.limit schedule.now.lines) result }
{
    let monitor = Monitor::of_schedule(alloc, algorithm, schedule)?;
    let report = report_by_steps(alloc, monitor, schedule)?;
    report.write_to(w)
}
