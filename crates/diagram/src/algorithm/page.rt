//! Writes the page of an algorithm's run.

ghost use Rattle.std.specs.Prelude.{◌≡◌, ◌++◌, [], IfOk, OnOk};
ghost use Rattle.algorithm_lab.specs.Replays.{run_of, WritesRunText};
ghost use Rattle.algorithm_lab.specs.Reports.{verdict_of};
ghost use Rattle.schedule.specs.Schedules.{head_of};
ghost use Rattle.diagram.specs.AlgorithmDrawings.{algorithm_text, end_by};
ghost use Rattle.diagram.specs.AlgorithmPages.{algorithm_page, page_around, with_kept};
ghost use Rattle.diagram.specs.AlgorithmSteps.{IsRunText, text_on_new};
ghost use Rattle.diagram.specs.declared.diagram_layout.Style.TheVariants.{Svg};

use crate::algorithm::event_list::{Recording, record_run};
use crate::algorithm::row_collector::rows_of_events;
use crate::algorithm::run_diagram::{AlgorithmDrawing, write_algorithm};
use crate::algorithm::step_objects::objects_of;
use crate::diagram_layout::Style;
use crate::page_parts::put_text;
use crate::page_text::{PAGE_HEAD, PAGE_SCRIPT, PAGE_STEP};
use algorithm_lab::verdict::verdict_of;
use algorithm_lab::{AlgorithmReplayFault, Monitor, ReplayText};
use algorithms::{Algorithm, AlgorithmWorld, InitializedAlgorithm};
use schedule::texts::head::Head;
use schedule::{Page, Schedule, Sink, Verdict};
use std::alloc::{AllocError, Global};

/// The drawing of a run that is recorded, and leaves this world.
fn drawing_of(
    alloc: Global,
    world: &AlgorithmWorld,
    recording: &Recording,
) -> Result<AlgorithmDrawing, AllocError>
    ensures rows { IfOk result (λ d. d.rows.items ≡ with_kept [] recording.now.events.items) }
    ensures verdict { IfOk result (λ d. d.verdict
        ≡ verdict_of world.now.algorithm world.now.procs recording.now.reports.items) }
    ensures refused { IfOk result (λ d. d.refused ≡ recording.now.refused) }
{
    let rows = rows_of_events(alloc, recording.events.as_slice())?;
    let reports = recording.reports.as_slice();
    let verdict = verdict_of(alloc, world.algorithm(), world.procs(), reports)?;
    Ok(AlgorithmDrawing {
        rows,
        verdict,
        refused: recording.refused,
    })
}

/// A drawing as SVG, in memory.
fn picture_of(
    alloc: Global,
    head: Head,
    algorithm: &Algorithm,
    drawing: &AlgorithmDrawing,
) -> Result<Page, AllocError>
    ensures { IfOk result (λ page. page.bytes.items
        ≡ algorithm_text Svg head algorithm.now drawing.now.rows.items (end_by drawing.now.refused drawing.now.verdict)) }
{
    let mut page = Page::new(alloc);
    match write_algorithm(alloc, head, algorithm, drawing, Style::Svg, &mut page) {
        Ok(()) => Ok(page),
        Err(_) => Err(AllocError),
    }
}

/// Writes the fixed parts around a drawing and lines.
fn put_page(out: &mut Vec<u8>, drawing: &[u8], lines: &[u8]) -> Result<(), AllocError>
    ensures { OnOk result (out.new.items ≡ out.old.items ++ page_around drawing.now lines.now) }
{
    put_text(out, PAGE_HEAD.as_bytes())?;
    put_text(out, drawing)?;
    put_text(out, PAGE_STEP.as_bytes())?;
    put_text(out, lines)?;
    put_text(out, PAGE_SCRIPT.as_bytes())
}

/// The page of a run, and how the run ends.
fn page_of_run(
    alloc: Global,
    mut monitor: Monitor,
    schedule: &Schedule,
) -> Result<ReplayText, AllocError>
    ensures { IfOk result (λ page. IsRunText (algorithm_page (head_of schedule.now)) monitor schedule.now.lines
        page.text.items page.ended) }
{
    let recording = record_run(alloc, &mut monitor, schedule)?;
    let world = monitor.world();
    let drawing = drawing_of(alloc, world, &recording)?;
    let picture = picture_of(alloc, schedule.head(), world.algorithm(), &drawing)?;
    let lines = objects_of(alloc, world, &recording)?;
    let mut text = Vec::new(alloc);
    put_page(&mut text, picture.as_slice(), lines.text.as_slice())?;
    let ReplayText { ended, .. } = lines;
    Ok(ReplayText { text, ended })
}

/// Writes the page of the run of a schedule on a new world of an algorithm, and answers the verdict of a judge of a new lock. Where a
/// line is refused, the page of the run up to it is written. All of it is made before the first byte is written.
pub fn write_algorithm_page<W: Sink>(
    alloc: Global,
    algorithm: InitializedAlgorithm,
    schedule: &Schedule,
    w: &mut W,
) -> Result<Verdict, AlgorithmReplayFault>
    // Just the page of the run that the definitions give is written and its verdict answered, or the reason why not.
    ensures { WritesRunText (W.tape w.old) (W.tape w.new) (text_on_new (algorithm_page (head_of schedule.now)) algorithm schedule.now)
        (run_of algorithm schedule.now.procs schedule.now.limit schedule.now.lines) result }
{
    let monitor = Monitor::of_schedule(alloc, algorithm, schedule)?;
    let page = page_of_run(alloc, monitor, schedule)?;
    page.write_to(w)
}
