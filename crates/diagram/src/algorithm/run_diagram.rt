//! Draws the run of a schedule on an algorithm.

ghost use Rattle.std.specs.Prelude.{◌≡◌, false, IfOk};
ghost use Rattle.algorithm_lab.specs.Replays.{run_of};
ghost use Rattle.algorithm_lab.specs.Runs.{run_on};
ghost use Rattle.schedule.specs.Schedules.{head_of};
ghost use Rattle.diagram.specs.AlgorithmDrawings.{algorithm_text, answer_by, drawn_text, DrawsRun, end_by, IsDrawing, run_text};
ghost use Rattle.diagram.specs.Drawings.{diagram_layout_of as diagram_layout_for, WritesText};

use crate::algorithm::row::AlgorithmRow;
use crate::algorithm::row_collector::AlgorithmRows;
use crate::diagram_layout::{Style, layout_with};
use crate::drawing::End;
use crate::drawing_writer::{Buffers, Outline, write_parts};
use crate::lifeline_state::LifelineState;
use crate::phase::LifelinePhase;
use algorithm_lab::verdict::verdict_of;
use algorithm_lab::{AlgorithmReplayFault, Monitor, RunRefusal, hear_lines};
use algorithms::{Algorithm, InitializedAlgorithm};
use schedule::texts::head::Head;
use schedule::{ReplayFault, Schedule, Sink, Verdict};
use std::alloc::{AllocError, Global};

/// The rows of a run of an algorithm, its verdict, and the line that is refused, if one is.
#[derive(Drop)]
pub(crate) struct AlgorithmDrawing {
    pub rows: Vec<AlgorithmRow>,
    pub verdict: Verdict,
    pub refused: Option<(u64, RunRefusal)>,
}

/// How a run ends.
fn end_of(refused: Option<(u64, RunRefusal)>, verdict: Verdict) -> End
    ensures { result ≡ end_by refused verdict }
{
    match refused {
        None => End::Judged(verdict),
        Some((line, refusal)) => End::Refused {
            line,
            number: refusal.number().unwrap_or(0),
            verdict,
        },
    }
}

/// Plays the lines of a schedule.
fn play(
    alloc: Global,
    monitor: &mut Monitor,
    schedule: &Schedule,
) -> Result<AlgorithmDrawing, AllocError>
    ensures { IfOk result (λ d. IsDrawing monitor.old schedule.now.lines d.rows.items d.verdict d.refused monitor.new) }
{
    let mut rows = AlgorithmRows::new(alloc);
    let refused = hear_lines(monitor, &mut rows, schedule.lines())?;
    let AlgorithmRows { rows, reports } = rows;
    let world = monitor.world();
    let verdict = verdict_of(alloc, world.algorithm(), world.procs(), reports.as_slice())?;
    Ok(AlgorithmDrawing {
        rows,
        verdict,
        refused,
    })
}

/// What a drawing has beside its rows.
fn outline_of(style: Style, head: Head, drawing: &AlgorithmDrawing) -> Outline
    ensures { let end = end_by drawing.now.refused drawing.now.verdict in result ≡ record {
      diagram_layout = diagram_layout_for style head drawing.now.rows.items end;
      mailbox = false;
      end = end;
    } }
{
    let end = end_of(drawing.refused, drawing.verdict);
    Outline {
        diagram_layout: layout_with(style, head, drawing.rows.len() as u64, &end),
        mailbox: false,
        end,
    }
}

/// Writes the drawing of rows.
pub(crate) fn write_algorithm<W: Sink>(
    alloc: Global,
    head: Head,
    algorithm: &Algorithm,
    drawing: &AlgorithmDrawing,
    style: Style,
    w: &mut W,
) -> Result<(), ReplayFault>
    ensures { WritesText (W.tape w.old) (W.tape w.new) (algorithm_text style head algorithm.now drawing.now.rows.items
        (end_by drawing.now.refused drawing.now.verdict)) result }
{
    let outline = outline_of(style, head, drawing);
    let mut lifeline_state = LifelineState::new(alloc, head.procs, LifelinePhase::Rest)?;
    let mut buffers = Buffers::new(alloc);
    write_parts(
        &mut buffers,
        &outline,
        algorithm,
        &mut lifeline_state,
        drawing.rows.as_slice(),
        w,
    )
}

/// What is answered once a drawing was written, or was not.
fn answer(
    written: Result<(), ReplayFault>,
    refused: Option<(u64, RunRefusal)>,
    verdict: Verdict,
) -> Result<Verdict, AlgorithmReplayFault>
    ensures { result ≡ answer_by written refused verdict }
{
    match written {
        Ok(()) => match refused {
            None => Ok(verdict),
            Some((line, refusal)) => Err(AlgorithmReplayFault::Refused { line, refusal }),
        },
        Err(ReplayFault::Write) => Err(AlgorithmReplayFault::Write),
        Err(_) => Err(AlgorithmReplayFault::OutOfMemory),
    }
}

/// Draws the run of a schedule on this world.
fn draw_on<W: Sink>(
    alloc: Global,
    mut monitor: Monitor,
    schedule: &Schedule,
    style: Style,
    w: &mut W,
) -> Result<Verdict, AlgorithmReplayFault>
    ensures { DrawsRun (W.tape w.old) (W.tape w.new) (run_text style (head_of schedule.now) monitor schedule.now.lines)
        (run_on 2 monitor schedule.now.lines) result }
{
    let drawing = play(alloc, &mut monitor, schedule)?;
    let algorithm = monitor.world().algorithm();
    let written = write_algorithm(alloc, schedule.head(), algorithm, &drawing, style, w);
    answer(written, drawing.refused, drawing.verdict)
}

/// Draws the run of a schedule on a new world of an algorithm, and answers the verdict of a judge of a new lock. Where a line is
/// refused, the drawing of the run up to it is written whole, and the line is answered; where no world has the schedule's sizes,
/// line 1 is refused and nothing is drawn. Each row takes memory; a repetition takes none.
pub fn draw_algorithm<W: Sink>(
    alloc: Global,
    algorithm: InitializedAlgorithm,
    schedule: &Schedule,
    style: Style,
    w: &mut W,
) -> Result<Verdict, AlgorithmReplayFault>
    // Just the drawing of the run that the definitions give is written, or a beginning of it and the reason why not the rest.
    ensures { DrawsRun (W.tape w.old) (W.tape w.new) (drawn_text style (head_of schedule.now) algorithm schedule.now.lines)
        (run_of algorithm schedule.now.procs schedule.now.limit schedule.now.lines) result }
{
    let monitor = Monitor::of_schedule(alloc, algorithm, schedule)?;
    draw_on(alloc, monitor, schedule, style, w)
}
