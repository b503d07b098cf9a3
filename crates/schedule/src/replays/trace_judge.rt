//! Judges a trace while it is read.

ghost use Rattle.std.specs.Prelude.{◌≡◌, ℕ, ◌+◌, ◌-◌, ◌<◌, ◌^◌, ◌++◌, ◌∷◌, [], ◌⊎◌, List, length, IfOk, IfErr, OnOk, min, true, Some};
ghost use Rattle.schedule.specs.Numbers.{number_of};
ghost use Rattle.schedule.specs.TraceJudges.{TraceJudgeState, Follows, trace_answer, JudgesTrace, JudgesText};

use crate::lines::fault::LineFault;
use crate::replays::pieces::{TakeLine, take_lines};
use crate::replays::replay_fault::ReplayFault;
use crate::replays::stage::TraceStage;
use crate::replays::verdict::Verdict;
use crate::texts::device::Source;
use std::alloc::{AllocError, Global};
use std::marker::Model;

/// What is known of a trace so far, and the number of its next line.
#[derive(Drop)]
pub struct TraceJudge {
    alloc: Global,
    line: u64,
    stage: TraceStage,
}

impl Model for TraceJudge {
    ghost use Rattle.schedule.specs.TraceJudges.{TraceJudgeState, IsStage};

    ghost Value = { TraceJudgeState };

    ghost view = { λ t. record { line = t.line; stage = t.stage } };

    ghost invariant = { λ t. IsStage t.stage };
}

impl TraceJudge {
    /// A judge of a trace of which nothing was read.
    fn new(alloc: Global) -> TraceJudge
        ensures { Follows result [] }
    {
        TraceJudge {
            alloc,
            line: 1,
            stage: TraceStage::First,
        }
    }

    /// The answer for a trace that was read to its end. `rest` is the text after the last LF.
    fn answer(&self, rest: &[u8]) -> Result<Verdict, ReplayFault>
        ensures { (lines : List (List ℕ)) → Follows self.now lines → length lines + 3 < 2 ^ 64
            → result ≡ trace_answer (lines ++ rest.now ∷ []) }
    {
        if !rest.is_empty() {
            return Err(match self.stage {
                TraceStage::Faulty(line, fault) => text_fault(line, fault),
                _ => text_fault(self.line, LineFault::NoNewline),
            });
        }
        match &self.stage {
            TraceStage::First => Err(text_fault(1, LineFault::NoHeader)),
            TraceStage::Refused(_, number) => Err(ReplayFault::Refused {
                line: 1,
                number: *number,
            }),
            TraceStage::Judging(_, _, running_verdict) => Ok(running_verdict.verdict()),
            TraceStage::Faulty(line, fault) => Err(text_fault(*line, *fault)),
        }
    }
}

/// The fault of a trace whose line has this fault.
fn text_fault(line: u64, fault: LineFault) -> ReplayFault
    ensures { result ≡ ReplayFault.Text line (number_of fault) }
{
    ReplayFault::Text {
        line,
        number: fault.number(),
    }
}

impl TakeLine for TraceJudge {
    ghost after = { Follows };

    fn take_line(&mut self, line: &[u8]) -> Result<(), AllocError> {
        self.stage.take(self.alloc, self.line, line)?;
        self.line = self.line.saturating_add(1);
        Ok(())
    }

    fn take_leading_lines<'a>(&mut self, text: &'a [u8]) -> &'a [u8] {
        self.stage.take_leading_lines(&mut self.line, text)
    }
}

/// Judges the trace that the source gives. It keeps one line at a time.
/// The answer is that of the whole text, however the bytes are cut into pieces. It is the first of these that fits:
/// `Read`, the first fault of the text, `Refused` at line 1 where no judge has its sizes, the verdict on its deeds.
pub fn judge_trace<S: Source>(alloc: Global, source: &mut S) -> Result<Verdict, ReplayFault>
    ensures judges { JudgesTrace (S.reading source.old) (S.reading source.new) result }
    // Where it is known what the source gives, the answer is that of just this text.
    ensures known { (text : List ℕ) → S.coming source.old ≡ Some text → JudgesText text result }
{
    let mut trace_judge = TraceJudge::new(alloc);
    let rest = take_lines(alloc, source, &mut trace_judge)?;
    trace_judge.answer(&rest)
}
