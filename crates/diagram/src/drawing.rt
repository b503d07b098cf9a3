//! The drawing of a schedule's run.

ghost use Rattle.std.specs.Prelude.{◌≡◌, ℕ, [], Err, IfOk, OnOk, OnErr};
ghost use Rattle.judge.specs.Stands.{Keeps};
ghost use Rattle.judge.specs.Table.{State};
ghost use Rattle.schedule.specs.Runs.{run_on};
ghost use Rattle.schedule.specs.Schedules.{head_of};
ghost use Rattle.diagram.specs.Events.{events_on, reports_in};
ghost use Rattle.diagram.specs.Repetitions.{with_events};
ghost use Rattle.diagram.specs.Rows.{events_in, EndsAs, IsRunEnd, IsJudged};

use crate::act::DiagramRow;
use crate::deed_verdict::verdict_on;
use crate::phase::LifelinePhase;
use crate::row_collector::{Rows, take_lines};
use crate::stop::DiagramStop;
use judge::Judge;
use rmeworld::Machine;
use schedule::texts::head::Head;
use schedule::{OutOfMemory, Schedule, Verdict};
use std::alloc::Global;

/// How a run ends.
#[derive(Clone, Copy)]
pub enum End {
    /// All lines were played. The verdict is on all deeds.
    Judged(Verdict),
    /// The machine refused this line, with the number of this `Refusal`. The verdict is on the deeds before it.
    Refused {
        line: u64,
        number: u64,
        verdict: Verdict,
    },
}

/// The rows of a schedule's run, and how the run ends.
#[derive(Drop)]
pub struct Drawing {
    /// The header of the schedule.
    pub head: Head,
    /// The phase in which all processes begin.
    pub first: LifelinePhase,
    pub rows: Vec<DiagramRow>,
    pub end: End,
}

/// How a run ends, by how its lines were played and the verdict on its deeds.
fn end_of(played: Result<(), (u64, DiagramStop)>, verdict: Verdict) -> Result<End, OutOfMemory>
    ensures ends { IfOk result (λ end. IsRunEnd played verdict end) }
    ensures memory { OnErr result ((line : ℕ) × (played ≡ Err (line, DiagramStop.OutOfMemory))) }
{
    match played {
        Ok(()) => Ok(End::Judged(verdict)),
        Err((line, DiagramStop::Refused(number))) => Ok(End::Refused {
            line,
            number,
            verdict,
        }),
        Err((_, DiagramStop::OutOfMemory)) => Err(OutOfMemory),
    }
}

/// Plays the lines of a schedule on a machine, before a judge, and keeps the rows of its drawing. Each row takes memory; a
/// repetition takes none. `first` is the phase in which the machine's processes begin: `Rest` on a new world, `Dead` on the
/// world of an image.
pub fn draw<M: Machine>(
    alloc: Global,
    machine: &mut M,
    judge: &mut Judge,
    schedule: &Schedule,
    first: LifelinePhase,
) -> Result<Drawing, OutOfMemory>
    // The rows show just the run of the schedule on the machine: its steps and crashes.
    ensures events { IfOk result (λ drawing. events_in drawing.rows.items ≡ events_on M.behaviour machine.old schedule.now.lines) }
    // They are the rows of those events: a blocked step that repeats the row before counts once more in it.
    ensures rows { IfOk result (λ drawing. drawing.rows.items ≡ with_events [] (events_on M.behaviour machine.old schedule.now.lines)) }
    // The rows report just what a replay reports.
    ensures reports { IfOk result (λ drawing. reports_in (events_in drawing.rows.items)
        ≡ (run_on M.behaviour 2 machine.old schedule.now.lines).reports) }
    // The drawing ends as the run ends.
    ensures end { (start : State) → Keeps judge.old start
        → IfOk result (λ drawing. EndsAs start (run_on M.behaviour 2 machine.old schedule.now.lines) drawing.end) }
    // After a verdict the machine is as the run leaves it.
    ensures left { IfOk result (λ drawing. IsJudged drawing.end
        → machine.new ≡ (run_on M.behaviour 2 machine.old schedule.now.lines).left) }
    // After a refused line too.
    ensures stands { OnOk result (machine.new ≡ (run_on M.behaviour 2 machine.old schedule.now.lines).left) }
    ensures sizes { IfOk result (λ drawing. (drawing.head ≡ head_of schedule.now) × (drawing.first ≡ first)) }
    // Out of memory comes only where there is a step or a crash to draw.
    ensures memory { OnErr result (events_on M.behaviour machine.old schedule.now.lines ≡ [] → ⊥) }
{
    let rows = Vec::new(alloc);
    let mut rows = Rows { rows };
    let played = take_lines(machine, &mut rows, schedule.lines());
    let Rows { rows } = rows;
    let verdict = verdict_on(judge, &rows);
    let end = end_of(played, verdict)?;
    Ok(Drawing {
        head: schedule.head(),
        first,
        rows,
        end,
    })
}
