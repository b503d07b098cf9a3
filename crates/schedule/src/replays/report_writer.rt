//! The listener of a replay: it gives the deeds of a run to a judge, and writes what the run reports.

ghost use Rattle.std.specs.Prelude.{◌≡◌, ℕ, ◌+◌, ◌^◌, ◌<◌, ◌≤◌, List, length, Ok};
ghost use Rattle.schedule.specs.declared.lines.line.Line.{Line as LineOf};
ghost use Rattle.schedule.specs.Commands.{line_at};
ghost use Rattle.schedule.specs.ReplayStops.{fault_at, Runs};
ghost use Rattle.schedule.specs.RunningVerdicts.{running_judge};
ghost use Rattle.schedule.specs.Runs.{run_on};
ghost use Rattle.schedule.specs.Texts.{items_at};
ghost use Rattle.schedule.specs.Words.{parts_of};

use crate::lines::line::Line;
use crate::player::listener::Listener;
use crate::player::play_lines::play_lines;
use crate::player::play_stop::PlayStop;
use crate::replays::play_in_place::play_text;
use crate::replays::replay_fault::ReplayFault;
use crate::replays::replay_stop::ReplayStop;
use crate::replays::reporter::Reporter;
use crate::texts::device::Sink;
use judge::Judge;
use redomail::Deed;
use rmecore::Refusal;
use rmeworld::{Machine, Stepped};

/// A judge, a reporter and a sink.
#[derive(Drop)]
pub(crate) struct ReportWriter<'a, W> {
    pub judge: &'a mut Judge,
    pub reporter: &'a mut Reporter,
    pub w: &'a mut W,
}

impl<'a, M: Machine, W: Sink> Listener<M> for ReportWriter<'a, W> {
    ghost use Rattle.schedule.specs.ReportWriters.{report_effects};

    type Stop = ReplayStop;

    ghost effects = { report_effects W.tape };

    // Inline: most steps report nothing.
    #[inline(always)]
    fn hear_step(&mut self, p: u64, step: &Stepped) -> Result<(), ReplayStop> {
        // (copies, so that the rest of the step need not be in memory)
        let deed = step.deed;
        let answer = step.answer;
        self.reporter.tell(self.judge, self.w, p, &deed, &answer)
    }

    fn hear_crash(&mut self, p: u64, crash: &Deed) -> Result<(), ReplayStop> {
        let deed = Some(*crash);
        let nothing = None;
        self.reporter.tell(self.judge, self.w, p, &deed, &nothing)
    }

    // Inline: a constant.
    #[inline(always)]
    fn skips_silent_steps(&self) -> bool {
        true
    }
}

/// The fault of a replay that stops at this line.
fn fault_at(line: u64, stop: PlayStop<Refusal, ReplayStop>) -> ReplayFault
    ensures { result ≡ fault_at line stop }
{
    match stop {
        PlayStop::Refused(refusal) => match refusal.number() {
            Some(number) => ReplayFault::Refused { line, number },
            None => ReplayFault::OutOfMemory,
        },
        PlayStop::OutOfMemory | PlayStop::Stopped(ReplayStop::OutOfMemory) =>
            ReplayFault::OutOfMemory,
        PlayStop::Stopped(ReplayStop::Write) => ReplayFault::Write,
    }
}

impl<'a, W: Sink> ReportWriter<'a, W> {
    ghost use Rattle.schedule.specs.ReportWriters.{judge_of};

    /// Plays the lines of a schedule, and reports them. The first of them has number 2.
    fn play_lines<M: Machine>(&mut self, machine: &mut M, lines: &[Line]) -> Result<(), ReplayFault>
        ensures same_judge { self.new.judge.ghost_name ≡ self.old.judge.ghost_name }
        ensures same_reporter { self.new.reporter.ghost_name ≡ self.old.reporter.ghost_name }
        ensures same_sink { self.new.w.ghost_name ≡ self.old.w.ghost_name }
        ensures runs { Runs (W.tape self.old.w.now) (W.tape self.new.w.now) (judge_of self.old) (judge_of self.new)
            (run_on M.behaviour 2 machine.old lines.now) machine.new result }
    {
        match play_lines(machine, self, lines) {
            Ok(()) => Ok(()),
            Err((line, stop)) => Err(fault_at(line, stop)),
        }
    }

    /// The same of a text that was checked.
    fn play_text<M: Machine>(
        &mut self,
        machine: &mut M,
        width: u64,
        text: &[u8],
    ) -> Result<(), ReplayFault>
        requires width { (1 ≤ width) × (width ≤ 8) }
        requires room { length text.now + 2 < 2 ^ 64 }
        requires read { (lines : List LineOf) × (items_at (line_at width) 2 (parts_of text.now) ≡ Ok lines) }
        ensures same_judge { self.new.judge.ghost_name ≡ self.old.judge.ghost_name }
        ensures same_reporter { self.new.reporter.ghost_name ≡ self.old.reporter.ghost_name }
        ensures same_sink { self.new.w.ghost_name ≡ self.old.w.ghost_name }
        ensures runs { (lines : List LineOf) → items_at (line_at width) 2 (parts_of text.now) ≡ Ok lines
            → Runs (W.tape self.old.w.now) (W.tape self.new.w.now) (judge_of self.old) (judge_of self.new)
            (run_on M.behaviour 2 machine.old lines) machine.new result }
    {
        match play_text(machine, self, width, text) {
            Ok(()) => Ok(()),
            Err((line, stop)) => Err(fault_at(line, stop)),
        }
    }
}

/// Plays the lines of a schedule, and reports them. The first of them has number 2.
pub(crate) fn report_lines<M: Machine, W: Sink>(
    machine: &mut M,
    judge: &mut Judge,
    reporter: &mut Reporter,
    w: &mut W,
    lines: &[Line],
) -> Result<(), ReplayFault>
    ensures { Runs (W.tape w.old) (W.tape w.new) (running_judge judge.old reporter.old)
        (running_judge judge.new reporter.new) (run_on M.behaviour 2 machine.old lines.now) machine.new result }
{
    let mut writer = ReportWriter { judge, reporter, w };
    writer.play_lines(machine, lines)
}

/// The same of a text that was checked.
pub(crate) fn report_text<M: Machine, W: Sink>(
    machine: &mut M,
    judge: &mut Judge,
    reporter: &mut Reporter,
    w: &mut W,
    width: u64,
    text: &[u8],
) -> Result<(), ReplayFault>
    requires width { (1 ≤ width) × (width ≤ 8) }
    requires room { length text.now + 2 < 2 ^ 64 }
    requires read { (lines : List LineOf) × (items_at (line_at width) 2 (parts_of text.now) ≡ Ok lines) }
    ensures { (lines : List LineOf) → items_at (line_at width) 2 (parts_of text.now) ≡ Ok lines
        → Runs (W.tape w.old) (W.tape w.new) (running_judge judge.old reporter.old) (running_judge judge.new reporter.new)
        (run_on M.behaviour 2 machine.old lines) machine.new result }
{
    let mut writer = ReportWriter { judge, reporter, w };
    writer.play_text(machine, width, text)
}
