//! Replays a schedule on an algorithm.

ghost use Rattle.std.specs.Prelude.{◌≡◌, ℕ, ◌+◌, ◌-◌, ◌^◌, min, OnOk, OnErr, IfOk, Some, None};
ghost use Rattle.schedule.specs.Tapes.{Writes, Begins};
ghost use Rattle.algorithm_lab.specs.Runs.{AlgorithmRun, run_on};
ghost use Rattle.algorithm_lab.specs.Replays.{end_answer, run_of, HasEnd, IsReplayText, ReplaysAlgorithm, WritesRunText};
ghost use Rattle.algorithm_lab.specs.declared.run_refusal.RunRefusal.{RunRefusal as AnyRefusal};

use crate::line_play::play_lines;
use crate::monitor::Monitor;
use crate::replay_fault::AlgorithmReplayFault;
use crate::report::{put_all_reports, put_report};
use crate::run_refusal::RunRefusal;
use algorithms::InitializedAlgorithm;
use schedule::texts::device::write_all;
use schedule::{Failed, Schedule, Sink, Verdict};
use std::alloc::{AllocError, Global};

/// What is written of a run, with its verdict or the line that is refused.
#[derive(Drop)]
pub struct ReplayText {
    pub text: Vec<u8>,
    pub ended: Result<Verdict, (u64, RunRefusal)>,
}

/// Writes a text and flushes the sink.
fn put_out<W: Sink>(w: &mut W, text: &[u8]) -> Result<(), Failed>
    ensures written { OnOk result (Writes (W.tape w.old) (W.tape w.new) text.now) }
    ensures failed { OnErr result (Begins (W.tape w.old).taken (W.tape w.new).taken text.now
        × ((W.tape w.new).failures ≡ min ((W.tape w.old).failures + 1) (2 ^ 64 - 1))) }
{
    write_all(w, text)?;
    w.flush()
}

/// What is answered of a run that has ended so.
fn answer_of(ended: &Result<Verdict, (u64, RunRefusal)>) -> Result<Verdict, AlgorithmReplayFault>
    ensures { result ≡ end_answer ended.now }
{
    match ended {
        Ok(verdict) => Ok(*verdict),
        Err((line, refusal)) => Err(AlgorithmReplayFault::Refused {
            line: *line,
            refusal: *refusal,
        }),
    }
}

impl ReplayText {
    /// Writes the text, flushes the sink, and answers how the run has ended.
    pub fn write_to<W: Sink>(&self, w: &mut W) -> Result<Verdict, AlgorithmReplayFault>
        ensures { (run : AlgorithmRun (ℕ × AnyRefusal)) → HasEnd run self.now.ended
            → WritesRunText (W.tape w.old) (W.tape w.new) self.now.text.items run result }
    {
        put_out(w, self.text.as_slice())?;
        answer_of(&self.ended)
    }
}

/// The report of a run, or what it reports before the line that is refused; and how the run ends.
pub fn report_of_run(
    alloc: Global,
    mut monitor: Monitor,
    schedule: &Schedule,
) -> Result<ReplayText, AllocError>
    ensures { IfOk result (λ replay. IsReplayText (run_on 2 monitor schedule.now.lines) replay.text.items replay.ended) }
{
    let mut reports = Vec::new(alloc);
    let refused = play_lines(&mut monitor, schedule.lines(), &mut reports)?;
    let mut text = Vec::new(alloc);
    let world = monitor.world();
    let ended = match refused {
        None => Ok(put_report(alloc, &mut text, world, reports.as_slice())?),
        Some(refused) => {
            put_all_reports(&mut text, world.algorithm(), reports.as_slice())?;
            Err(refused)
        }
    };
    Ok(ReplayText { text, ended })
}

/// Replays a schedule on a new world of an algorithm, before a judge of a new lock. It writes exactly the report of the run that
/// the definitions give, and answers its verdict. Where a line is refused, it writes what was reported before. All of it is made
/// before the first byte is written.
pub fn replay_algorithm<W: Sink>(
    alloc: Global,
    algorithm: InitializedAlgorithm,
    schedule: &Schedule,
    w: &mut W,
) -> Result<Verdict, AlgorithmReplayFault>
    ensures { ReplaysAlgorithm (W.tape w.old) (W.tape w.new)
        (run_of algorithm schedule.now.procs schedule.now.limit schedule.now.lines) result }
{
    let monitor = Monitor::of_schedule(alloc, algorithm, schedule)?;
    let replay = report_of_run(alloc, monitor, schedule)?;
    replay.write_to(w)
}
