//! Plays the lines of a schedule on a machine, and collects the rows of a drawing.

ghost use Rattle.std.specs.Prelude.{◌≡◌, OnOk};
ghost use Rattle.diagram.specs.Events.{events_on};
ghost use Rattle.diagram.specs.Repetitions.{counted_last as counted_last_in, counted_by, last_of, with_row};
ghost use Rattle.diagram.specs.RowCollections.{stop_of, CollectsRun};
ghost use Rattle.schedule.specs.Runs.{run_on};

use crate::act::{DiagramRow, RowAct};
use crate::blocked::is_blocked_again;
use crate::step_by_step::row_of;
use crate::stop::DiagramStop;
use redomail::Deed;
use rmecore::Refusal;
use rmeworld::{Machine, Stepped};
use schedule::player::listener::Listener;
use schedule::player::play_lines::play_lines;
use schedule::player::play_stop::PlayStop;
use schedule::{Line, OutOfMemory};

/// A row, counted once more, if p repeats its blocked step and it can be counted.
fn counted_row(row: &DiagramRow, p: u64, act: &RowAct) -> Option<DiagramRow>
    ensures { result ≡ counted_by p row.now row.now.act act.now }
{
    let RowAct::Silent(before, times) = row.act else {
        return None;
    };
    let RowAct::Silent(happened, _) = *act else {
        return None;
    };
    if p == row.p && is_blocked_again(&before, &happened) && times < u64::MAX {
        Some(DiagramRow {
            p: row.p,
            act: RowAct::Silent(before, times + 1),
        })
    } else {
        None
    }
}

/// The last row, counted once more, if this row repeats it.
fn counted_last(rows: &[DiagramRow], row: &DiagramRow) -> Option<DiagramRow>
    ensures { result ≡ counted_last_in row.now (last_of rows.now) }
{
    match rows.last() {
        Some(last) => counted_row(last, row.p, &row.act),
        None => None,
    }
}

/// Adds a row, or counts the last one once more, if this row repeats it.
fn put_row(rows: &mut Vec<DiagramRow>, row: &DiagramRow) -> Result<(), OutOfMemory>
    ensures { OnOk result (rows.new.items ≡ with_row rows.old.items row.now) }
{
    let Some(again) = counted_last(rows.as_slice(), row) else {
        return match rows.push(*row) {
            Ok(()) => Ok(()),
            Err(_) => Err(OutOfMemory),
        };
    };
    let last = rows.len().saturating_sub(1);
    if let Some(place) = rows.get_mut(last) {
        *place = again;
    }
    Ok(())
}

/// The rows of a drawing, which hear the events of a run.
#[derive(Drop)]
pub struct Rows {
    pub rows: Vec<DiagramRow>,
}

impl<M: Machine> Listener<M> for Rows {
    ghost use Rattle.diagram.specs.RowEffects.{row_effects};

    type Stop = OutOfMemory;

    ghost effects = { row_effects };

    fn hear_step(&mut self, p: u64, step: &Stepped) -> Result<(), OutOfMemory> {
        put_row(&mut self.rows, &row_of(p, step))
    }

    fn hear_crash(&mut self, p: u64, crash: &Deed) -> Result<(), OutOfMemory> {
        let act = RowAct::Fell(*crash);
        put_row(&mut self.rows, &DiagramRow { p, act })
    }

    fn skips_silent_steps(&self) -> bool {
        false
    }
}

/// Why rows are not collected on.
fn stop_of(stop: PlayStop<Refusal, OutOfMemory>) -> DiagramStop
    ensures { result ≡ stop_of stop }
{
    match stop {
        PlayStop::Refused(refusal) => match refusal.number() {
            Some(number) => DiagramStop::Refused(number),
            None => DiagramStop::OutOfMemory,
        },
        PlayStop::OutOfMemory | PlayStop::Stopped(_) => DiagramStop::OutOfMemory,
    }
}

/// Plays the lines of a schedule. The first of them has number 2. Where they stop, answers the line and the reason.
pub fn take_lines<M: Machine>(
    machine: &mut M,
    rows: &mut Rows,
    lines: &[Line],
) -> Result<(), (u64, DiagramStop)>
    ensures { let b = M.behaviour in CollectsRun rows.old.rows.items rows.new.rows.items (events_on b machine.old lines.now)
        (run_on b 2 machine.old lines.now) machine.new result }
{
    match play_lines(machine, rows, lines) {
        Ok(()) => Ok(()),
        Err((line, stop)) => Err((line, stop_of(stop))),
    }
}
