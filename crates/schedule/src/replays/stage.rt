//! What is known of a trace after some of its lines.

ghost use Rattle.std.specs.Prelude.{◌≡◌, ℕ, ◌+◌, ◌<◌, ◌≤◌, ◌^◌, List, [], ◌∷◌, ◌++◌, length, OnOk, IfOk};
ghost use Rattle.schedule.specs.declared.replays.stage.TraceStage.TheVariants as stages;
ghost use Rattle.schedule.specs.TraceJudges.{IsStage, Stands, Fed};

use crate::lexer::deed_tokens::first_deed;
use crate::lines::deed::read_deed;
use crate::lines::fault::LineFault;
use crate::replays::running_verdict::RunningVerdict;
use crate::texts::trace::TraceHead;
use crate::texts::whole::Heading;
use judge::Judge;
use std::alloc::{AllocError, Global};

/// What is known of a trace after some of its lines.
#[derive(Drop)]
pub enum TraceStage {
    /// No line was read.
    First,
    /// The header is refused with this number; later lines may still have a fault.
    Refused(TraceHead, u64),
    /// The deeds so far were given to the judge.
    Judging(TraceHead, Judge, RunningVerdict),
    /// The first faulty line: its number, counted from 1, and its fault.
    Faulty(u64, LineFault),
}

/// The stage after the first line.
fn begin(alloc: Global, line: &[u8]) -> Result<TraceStage, AllocError>
    ensures stage { IfOk result (λ stage. IsStage stage) }
    ensures stands { IfOk result (λ stage. Stands stage (line.now ∷ [])) }
{
    let head = match TraceHead::read(line) {
        Ok(head) => head,
        Err(fault) => return Ok(TraceStage::Faulty(1, fault)),
    };
    match Judge::new(alloc, head.procs, head.cap) {
        Ok(judge) => Ok(TraceStage::Judging(head, judge, RunningVerdict::OPENED)),
        Err(refusal) => match refusal.number() {
            Some(number) => Ok(TraceStage::Refused(head, number)),
            None => Err(AllocError),
        },
    }
}

/// Gives the judge the deeds of the lines at the front of a text, and counts these lines.
/// It stops before a line that is faulty, not whole, or read by its words. Answers the text from there on.
fn hear_lines<'a>(
    head: &TraceHead,
    judge: &mut Judge,
    running_verdict: &mut RunningVerdict,
    number: &mut u64,
    text: &'a [u8],
) -> &'a [u8]
    requires { (1 ≤ head.now.width) × (head.now.width ≤ 8) }
    ensures fed { Fed (stages.Judging head.now judge.old running_verdict.old)
        (stages.Judging head.now judge.new running_verdict.new) text.now result.now number.old number.new }
    ensures shorter { length result.now ≤ length text.now }
{
    let mut rest = text;
    while let Some((deed, after)) = first_deed(head.width, rest) {
        running_verdict.hear(judge, &deed);
        *number = number.saturating_add(1);
        rest = after;
    }
    rest
}

impl TraceStage {
    /// Takes the first line.
    // Apart: keeps `take`'s stack small.
    #[inline(never)]
    fn take_first(&mut self, alloc: Global, line: &[u8]) -> Result<(), AllocError>
        requires { IsStage self.old }
        ensures stage { IsStage self.new }
        ensures stands { OnOk result (Stands self.new (line.now ∷ [])) }
    {
        *self = begin(alloc, line)?;
        Ok(())
    }

    /// Takes one more line, of this number.
    pub fn take(&mut self, alloc: Global, number: u64, line: &[u8]) -> Result<(), AllocError>
        requires { IsStage self.old }
        ensures stage { IsStage self.new }
        ensures stands { (lines : List (List ℕ)) → Stands self.old lines → number ≡ length lines + 1
            → OnOk result (Stands self.new (lines ++ line.now ∷ [])) }
    {
        match self {
            TraceStage::First => self.take_first(alloc, line),
            TraceStage::Refused(head, _) => match read_deed(head.width, line) {
                Ok(_) => Ok(()),
                Err(fault) => {
                    *self = TraceStage::Faulty(number, fault);
                    Ok(())
                }
            },
            TraceStage::Judging(head, judge, running_verdict) => match read_deed(head.width, line) {
                Ok(deed) => {
                    running_verdict.hear(judge, &deed);
                    Ok(())
                }
                Err(fault) => {
                    *self = TraceStage::Faulty(number, fault);
                    Ok(())
                }
            },
            TraceStage::Faulty(..) => Ok(()),
        }
    }
    /// Takes lines from the front of a text, the first of which has this number, and counts them. It may take none.
    /// Answers the text after the lines that it took.
    pub fn take_leading_lines<'a>(&mut self, number: &mut u64, text: &'a [u8]) -> &'a [u8]
        requires { IsStage self.old }
        ensures stage { IsStage self.new }
        ensures fed { Fed self.old self.new text.now result.now number.old number.new }
        ensures shorter { length result.now ≤ length text.now }
    {
        match self {
            TraceStage::Judging(head, judge, running_verdict) => hear_lines(
                head,
                judge,
                running_verdict,
                number,
                text,
            ),
            _ => text,
        }
    }
}
