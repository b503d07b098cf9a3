//! The events of an algorithm's run as a list.

ghost use Rattle.std.specs.Prelude.{◌≡◌, ◌++◌, ◌∷◌, [], IfOk, OnOk};
ghost use Rattle.std.specs.List.{flat_map};
ghost use Rattle.algorithm_lab.specs.Runs.{event_reports};
ghost use Rattle.diagram.specs.AlgorithmEventLists.{IsRecording, kept_reports, run_event};
ghost use Rattle.diagram.specs.AlgorithmEvents.{event_act, event_phase, event_process};

use crate::algorithm::row::{AlgorithmAct, act_of, lifeline_phase};
use crate::phase::LifelinePhase;
use algorithm_lab::heard::{phase_after_step, put_crash, put_step};
use algorithm_lab::{Monitor, MonitorCrash, MonitorStep, RunRefusal, TextReport, hear_lines};
use schedule::{Listener, OutOfMemory, Schedule};
use std::alloc::{AllocError, Global};

/// A step or a crash of a process, as its monitor says it.
#[derive(Clone, Copy)]
pub(crate) enum MonitorEvent {
    Took(u64, MonitorStep),
    Fell(u64, MonitorCrash),
}

impl MonitorEvent {
    /// Its process.
    pub fn process(&self) -> u64
        ensures { result ≡ event_process (run_event self.now) }
    {
        match self {
            MonitorEvent::Took(p, _) => *p,
            MonitorEvent::Fell(p, _) => *p,
        }
    }

    /// What its process does.
    pub fn act(&self) -> AlgorithmAct
        ensures { result ≡ event_act (run_event self.now) }
    {
        match self {
            MonitorEvent::Took(_, step) => act_of(&step.advanced),
            MonitorEvent::Fell(..) => AlgorithmAct::Crashed,
        }
    }

    /// The phase of its process after it.
    pub fn phase(&self) -> LifelinePhase
        ensures { result ≡ event_phase (run_event self.now) }
    {
        match self {
            MonitorEvent::Took(_, step) => {
                lifeline_phase(phase_after_step(step.phase, step.advanced.noted))
            }
            MonitorEvent::Fell(..) => LifelinePhase::Dead,
        }
    }

    /// Adds what it reports.
    pub fn put_reports(&self, reports: &mut Vec<TextReport>) -> Result<(), AllocError>
        ensures { OnOk result (reports.new.items ≡ reports.old.items ++ event_reports (run_event self.now)) }
    {
        match self {
            MonitorEvent::Took(p, step) => put_step(reports, *p, step),
            MonitorEvent::Fell(p, crash) => put_crash(reports, *p, crash),
        }
    }
}

/// What events report.
fn reports_in(alloc: Global, events: &[MonitorEvent]) -> Result<Vec<TextReport>, AllocError>
    ensures { IfOk result (λ reports. reports.items ≡ flat_map kept_reports events.now) }
{
    let mut reports = Vec::new(alloc);
    for event in events {
        event.put_reports(&mut reports)?;
    }
    Ok(reports)
}

/// The events of a run, one after another. It hears them.
#[derive(Drop)]
pub(crate) struct EventList {
    pub events: Vec<MonitorEvent>,
}

impl EventList {
    /// No events.
    pub fn new(alloc: Global) -> EventList
        ensures { result.events.items ≡ [] }
    {
        EventList {
            events: Vec::new(alloc),
        }
    }

    /// Adds an event.
    fn put(&mut self, event: MonitorEvent) -> Result<(), AllocError>
        ensures { OnOk result (self.new.events.items ≡ self.old.events.items ++ event ∷ []) }
    {
        self.events.push(event)?;
        Ok(())
    }
}

impl Listener<Monitor> for EventList {
    ghost use Rattle.diagram.specs.AlgorithmEventEffects.{event_list_effects};

    type Stop = OutOfMemory;

    ghost effects = { event_list_effects };

    fn hear_step(&mut self, p: u64, step: &MonitorStep) -> Result<(), OutOfMemory> {
        self.put(MonitorEvent::Took(p, *step))?;
        Ok(())
    }

    fn hear_crash(&mut self, p: u64, crash: &MonitorCrash) -> Result<(), OutOfMemory> {
        self.put(MonitorEvent::Fell(p, *crash))?;
        Ok(())
    }

    fn skips_silent_steps(&self) -> bool {
        false
    }
}

/// A recording of a run: its events, what they report, and the line that is refused, if one is.
#[derive(Drop)]
pub(crate) struct Recording {
    pub events: Vec<MonitorEvent>,
    pub reports: Vec<TextReport>,
    pub refused: Option<(u64, RunRefusal)>,
}

/// Plays the lines of a schedule, and records their run.
pub(crate) fn record_run(
    alloc: Global,
    monitor: &mut Monitor,
    schedule: &Schedule,
) -> Result<Recording, AllocError>
    ensures { IfOk result (λ recording. IsRecording monitor.old monitor.new schedule.now.lines recording.events.items
        recording.reports.items recording.refused) }
{
    let mut list = EventList::new(alloc);
    let refused = hear_lines(monitor, &mut list, schedule.lines())?;
    let EventList { events } = list;
    let reports = reports_in(alloc, events.as_slice())?;
    Ok(Recording {
        events,
        reports,
        refused,
    })
}
