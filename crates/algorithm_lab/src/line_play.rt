//! Plays the lines of a schedule on a world of an algorithm.

ghost use Rattle.std.specs.Prelude.{◌≡◌, IfErr, IfOk, OnOk};
ghost use Rattle.schedule.specs.Fragments.{itself, run_on as run_by};
ghost use Rattle.schedule.specs.Plays.{PlaysAll};
ghost use Rattle.algorithm_lab.specs.Monitors.{IsReportedPart};
ghost use Rattle.algorithm_lab.specs.Runs.{crash_all_on, monitor_transitions, run_on, AddsRun};

use crate::heard::{put_crash, put_step};
use crate::monitor::Monitor;
use crate::monitor_event::{MonitorCrash, MonitorStep};
use crate::run_refusal::RunRefusal;
use crate::run_report::TextReport;
use schedule::{Line, Listener, OutOfMemory, PlayStop, play_lines as play_lines_of};
use std::alloc::AllocError;

/// A list to which each event adds what it reports.
impl Listener<Monitor> for Vec<TextReport> {
    ghost use Rattle.algorithm_lab.specs.Runs.{report_effects};

    type Stop = OutOfMemory;

    ghost effects = { report_effects };

    fn hear_step(&mut self, p: u64, step: &MonitorStep) -> Result<(), OutOfMemory> {
        put_step(self, p, step)?;
        Ok(())
    }

    fn hear_crash(&mut self, p: u64, crash: &MonitorCrash) -> Result<(), OutOfMemory> {
        put_crash(self, p, crash)?;
        Ok(())
    }

    fn skips_silent_steps(&self) -> bool {
        false
    }
}

/// Plays the lines of a schedule, of which the first has number 2: the listener hears their events. Answers the line that is
/// refused, and why, if one is. `Err`: out of memory, and the monitor is of no more use.
pub fn hear_lines<L: Listener<Monitor>>(
    monitor: &mut Monitor,
    listener: &mut L,
    lines: &[Line],
) -> Result<Option<(u64, RunRefusal)>, AllocError>
    ensures { IfOk result (λ refused. PlaysAll L.effects listener.old listener.new
        (run_by monitor_transitions itself 2 monitor.old lines.now) monitor.new refused) }
{
    match play_lines_of(monitor, listener, lines) {
        Ok(()) => Ok(None),
        Err((line, stop)) => match stop {
            PlayStop::Refused(refusal) => Ok(Some((line, refusal))),
            PlayStop::OutOfMemory | PlayStop::Stopped(_) => Err(AllocError),
        },
    }
}

/// Plays the lines of a schedule, of which the first has number 2, and adds what they report. Answers the line that is refused,
/// and why, if one is. `Err`: out of memory, and the monitor is of no more use.
pub fn play_lines(
    monitor: &mut Monitor,
    lines: &[Line],
    reports: &mut Vec<TextReport>,
) -> Result<Option<(u64, RunRefusal)>, AllocError>
    ensures run { OnOk result (AddsRun (run_on 2 monitor.old lines.now) reports.old.items reports.new.items monitor.new) }
    ensures refused { IfOk result (λ refused. refused ≡ (run_on 2 monitor.old lines.now).refused) }
{
    hear_lines(monitor, reports, lines)
}

/// Crashes every process, and adds what that reports. It is not refused. `OutOfMemory`: the monitor is of no more use.
pub fn crash_all(monitor: &mut Monitor, reports: &mut Vec<TextReport>) -> Result<(), RunRefusal>
    ensures ok { OnOk result (IsReportedPart (crash_all_on monitor.old) reports.old.items reports.new.items monitor.new) }
    ensures memory { IfErr result (λ e. e ≡ RunRefusal.OutOfMemory) }
{
    match play_lines(monitor, &[Line::CrashAll], reports) {
        Ok(_) => Ok(()),
        Err(AllocError) => Err(RunRefusal::OutOfMemory),
    }
}
