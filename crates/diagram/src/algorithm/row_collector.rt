//! Collects the rows of a drawing of an algorithm's run.

ghost use Rattle.std.specs.Prelude.{◌≡◌, ◌++◌, [], IfOk, OnOk, drop, map};
ghost use Rattle.diagram.specs.AlgorithmEventLists.{shown_event};
ghost use Rattle.diagram.specs.AlgorithmPages.{with_kept};
ghost use Rattle.diagram.specs.AlgorithmRows.{row_counted_again as counted_in, counted_by, counted_unless, further_row as further_of, last_of, rows_of, with_event};

use crate::algorithm::event_list::MonitorEvent;
use crate::algorithm::row::{AlgorithmAct, AlgorithmRow, act_of, lifeline_phase};
use crate::phase::LifelinePhase;
use algorithm_lab::heard::{phase_after_step, put_crash, put_step};
use algorithm_lab::{Monitor, MonitorCrash, MonitorStep, TextReport};
use schedule::{Listener, OutOfMemory};
use std::alloc::{AllocError, Global};

/// A row, counted once more, if this is the same blocked reading of the same process.
fn counted_row(row: &AlgorithmRow, p: u64, act: AlgorithmAct) -> Option<AlgorithmRow>
    ensures { result ≡ counted_by p row.now row.now.act act }
{
    let AlgorithmAct::Blocked(access, value, times) = row.act else {
        return None;
    };
    let AlgorithmAct::Blocked(again, read, _) = act else {
        return None;
    };
    let is_again = again.address == access.address;
    if p == row.p && is_again && read == value && times < u64::MAX {
        Some(AlgorithmRow {
            p: row.p,
            act: AlgorithmAct::Blocked(access, value, times + 1),
            phase: row.phase,
            reports: row.reports,
        })
    } else {
        None
    }
}

/// The last row, counted once more, if this is the same blocked reading of the same process.
fn count_again(rows: &[AlgorithmRow], p: u64, act: AlgorithmAct) -> Option<AlgorithmRow>
    ensures { result ≡ counted_in p act (last_of rows.now) }
{
    match rows.last() {
        Some(row) => counted_row(row, p, act),
        None => None,
    }
}

/// The last row, counted once more, if this is the same blocked reading of the same process, and it reports nothing.
fn count_unless(
    rows: &[AlgorithmRow],
    p: u64,
    act: AlgorithmAct,
    reports: &[TextReport],
) -> Option<AlgorithmRow>
    ensures { result ≡ counted_unless reports.now (counted_in p act (last_of rows.now)) }
{
    if reports.is_empty() {
        count_again(rows, p, act)
    } else {
        None
    }
}

/// Adds rows for further lines of what a row of p reports.
fn put_further(
    rows: &mut Vec<AlgorithmRow>,
    p: u64,
    reports: &[TextReport],
) -> Result<(), AllocError>
    ensures { OnOk result (rows.new.items ≡ rows.old.items ++ map (further_of p) reports.now) }
{
    for one in reports {
        rows.push(AlgorithmRow {
            p,
            act: AlgorithmAct::Further,
            phase: None,
            reports: Some(*one),
        })?;
    }
    Ok(())
}

/// What is reported after this many lines.
#[tactic(auto, using(std::proofs::lemmas::List::drop_all))]
fn reports_after(reports: &[TextReport], count: usize) -> &[TextReport]
    ensures { result.now ≡ drop count reports.now }
{
    if count < reports.len() {
        &reports[count..]
    } else {
        &[]
    }
}

/// Adds the rows of an event.
fn put_rows(
    rows: &mut Vec<AlgorithmRow>,
    p: u64,
    act: AlgorithmAct,
    phase: LifelinePhase,
    reports: &[TextReport],
) -> Result<(), AllocError>
    ensures { OnOk result (rows.new.items
        ≡ rows.old.items ++ rows_of (record { p = p; act = act; phase = phase; reports = reports.now })) }
{
    rows.push(AlgorithmRow {
        p,
        act,
        phase: Some(phase),
        reports: reports.first().copied(),
    })?;
    put_further(rows, p, reports_after(reports, 1))
}

/// Takes an event into the rows.
fn note(
    rows: &mut Vec<AlgorithmRow>,
    p: u64,
    act: AlgorithmAct,
    phase: LifelinePhase,
    reports: &[TextReport],
) -> Result<(), AllocError>
    ensures { OnOk result (rows.new.items
        ≡ with_event rows.old.items (record { p = p; act = act; phase = phase; reports = reports.now })) }
{
    let Some(row) = count_unless(rows.as_slice(), p, act, reports) else {
        return put_rows(rows, p, act, phase, reports);
    };
    let last = rows.len().saturating_sub(1);
    if let Some(place) = rows.get_mut(last) {
        *place = row;
    }
    Ok(())
}

/// Takes an event of a list into the rows.
fn note_event(
    alloc: Global,
    rows: &mut Vec<AlgorithmRow>,
    event: &MonitorEvent,
) -> Result<(), AllocError>
    ensures { OnOk result (rows.new.items ≡ with_event rows.old.items (shown_event event.now)) }
{
    let mut reports = Vec::new(alloc);
    event.put_reports(&mut reports)?;
    note(
        rows,
        event.process(),
        event.act(),
        event.phase(),
        reports.as_slice(),
    )
}

/// The rows of a drawing of the events of a list.
pub(crate) fn rows_of_events(
    alloc: Global,
    events: &[MonitorEvent],
) -> Result<Vec<AlgorithmRow>, AllocError>
    ensures { IfOk result (λ rows. rows.items ≡ with_kept [] events.now) }
{
    let mut rows = Vec::new(alloc);
    for event in events {
        note_event(alloc, &mut rows, event)?;
    }
    Ok(rows)
}

/// The rows of a drawing, and what they report. They hear the events of a run.
#[derive(Drop)]
pub(crate) struct AlgorithmRows {
    pub rows: Vec<AlgorithmRow>,
    pub reports: Vec<TextReport>,
}

impl AlgorithmRows {
    /// No rows.
    pub fn new(alloc: Global) -> AlgorithmRows
        ensures rows { result.rows.items ≡ [] }
        ensures reports { result.reports.items ≡ [] }
    {
        AlgorithmRows {
            rows: Vec::new(alloc),
            reports: Vec::new(alloc),
        }
    }

    /// Takes an event that has reported all from this place on.
    fn take(
        &mut self,
        p: u64,
        act: AlgorithmAct,
        phase: LifelinePhase,
        from: usize,
    ) -> Result<(), AllocError>
        ensures rows { OnOk result (self.new.rows.items ≡ with_event self.old.rows.items
            (record { p = p; act = act; phase = phase; reports = drop from self.old.reports.items })) }
        ensures reports { OnOk result (self.new.reports.items ≡ self.old.reports.items) }
    {
        let reports = reports_after(self.reports.as_slice(), from);
        note(&mut self.rows, p, act, phase, reports)
    }
}

impl Listener<Monitor> for AlgorithmRows {
    ghost use Rattle.diagram.specs.AlgorithmRowEffects.{algorithm_row_effects};

    type Stop = OutOfMemory;

    ghost effects = { algorithm_row_effects };

    fn hear_step(&mut self, p: u64, step: &MonitorStep) -> Result<(), OutOfMemory> {
        let before = self.reports.len();
        put_step(&mut self.reports, p, step)?;
        let after = phase_after_step(step.phase, step.advanced.noted);
        self.take(p, act_of(&step.advanced), lifeline_phase(after), before)?;
        Ok(())
    }

    fn hear_crash(&mut self, p: u64, crash: &MonitorCrash) -> Result<(), OutOfMemory> {
        let before = self.reports.len();
        put_crash(&mut self.reports, p, crash)?;
        self.take(p, AlgorithmAct::Crashed, LifelinePhase::Dead, before)?;
        Ok(())
    }

    fn skips_silent_steps(&self) -> bool {
        false
    }
}
