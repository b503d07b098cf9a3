//! The reporter of a replay: it gives each deed to the judge, and writes the lines of deeds and answers.

ghost use Rattle.std.specs.Prelude.{◌≡◌, ◌++◌, ◌∷◌, [], None, IfErr, OnOk, OnErr};
ghost use Rattle.schedule.specs.RunningVerdicts.{first_running_verdict, running_judge, Hears};
ghost use Rattle.schedule.specs.Tapes.{Writes};
ghost use Rattle.schedule.specs.ReplayStops.{Tells, ReplayStops};
ghost use Rattle.schedule.specs.Reports.{reports_text};
ghost use Rattle.schedule.specs.Runs.{deeds_of, did, reports_of};

use crate::lines::answer::{put_answer, put_deed};
use crate::replays::replay_stop::ReplayStop;
use crate::replays::running_verdict::RunningVerdict;
use crate::replays::verdict::Verdict;
use crate::texts::device::{Sink, write_all};
use judge::Judge;
use redomail::Deed;
use rmeworld::Answer;
use std::alloc::{AllocError, Global};
use std::marker::Model;

/// The running verdict, and a page for the lines of one step.
#[derive(Drop)]
pub struct Reporter {
    running_verdict: RunningVerdict,
    page: Vec<u8>,
}

impl Model for Reporter {
    ghost use Rattle.schedule.specs.declared.replays.running_verdict.RunningVerdict.{RunningVerdict as RunningVerdictOf};

    ghost Value = { RunningVerdictOf };

    ghost view = { λ c. c.running_verdict };
}

impl Reporter {
    /// A reporter that has judged and written nothing.
    pub fn new(alloc: Global) -> Reporter
        ensures { result ≡ first_running_verdict }
    {
        Reporter {
            running_verdict: RunningVerdict::OPENED,
            page: Vec::new(alloc),
        }
    }

    /// The verdict so far.
    pub fn verdict(&self) -> Verdict
        ensures { result ≡ self.now.verdict }
    {
        self.running_verdict.verdict()
    }

    /// Gives the deed to the judge, if there is one.
    fn hear(&mut self, judge: &mut Judge, deed: &Option<Deed>)
        ensures { Hears (running_judge judge.old self.old) (deeds_of (did deed.now)) (running_judge judge.new self.new) }
    {
        let Some(deed) = deed else {
            return;
        };
        self.running_verdict.hear(judge, deed);
    }

    /// Writes the line of the deed, then that of p's answer.
    fn write<W: Sink>(
        &mut self,
        w: &mut W,
        p: u64,
        deed: &Option<Deed>,
        answer: &Option<Answer>,
    ) -> Result<(), ReplayStop>
        ensures written { OnOk result (Writes (W.tape w.old) (W.tape w.new) (reports_text (reports_of p deed.now answer.now))) }
        ensures halted { IfErr result (λ replay_stop. ReplayStops (W.tape w.old) (W.tape w.new)
            (reports_text (reports_of p deed.now answer.now)) replay_stop) }
        ensures same { self.new ≡ self.old }
    {
        self.page.clear();
        put_reports(&mut self.page, p, deed, answer)?;
        write_all(w, &self.page)?;
        Ok(())
    }

    /// Gives the deed to the judge, then writes its line and that of p's answer.
    // Apart: most steps report nothing.
    #[inline(never)]
    fn record_all<W: Sink>(
        &mut self,
        judge: &mut Judge,
        w: &mut W,
        p: u64,
        deed: &Option<Deed>,
        answer: &Option<Answer>,
    ) -> Result<(), ReplayStop>
        ensures { Tells (W.tape w.old) (W.tape w.new) (running_judge judge.old self.old) (running_judge judge.new self.new)
            (reports_of p deed.now answer.now) result }
    {
        self.hear(judge, deed);
        self.write(w, p, deed, answer)
    }

    /// Reports a step or a crash of p. Most steps have neither a deed nor an answer.
    pub fn tell<W: Sink>(
        &mut self,
        judge: &mut Judge,
        w: &mut W,
        p: u64,
        deed: &Option<Deed>,
        answer: &Option<Answer>,
    ) -> Result<(), ReplayStop>
        ensures { Tells (W.tape w.old) (W.tape w.new) (running_judge judge.old self.old) (running_judge judge.new self.new)
            (reports_of p deed.now answer.now) result }
    {
        if deed.is_none() && answer.is_none() {
            return Ok(());
        }
        self.record_all(judge, w, p, deed, answer)
    }
}

/// Writes the lines of a step: of its deed and of its answer, as far as it has them.
fn put_reports(
    page: &mut Vec<u8>,
    p: u64,
    deed: &Option<Deed>,
    answer: &Option<Answer>,
) -> Result<(), AllocError>
    ensures written { OnOk result (page.new.items ≡ page.old.items ++ reports_text (reports_of p deed.now answer.now)) }
    ensures wanted { OnErr result (reports_text (reports_of p deed.now answer.now) ≡ [] → ⊥) }
{
    if let Some(deed) = deed {
        put_deed(page, deed)?;
    }
    if let Some(answer) = answer {
        put_answer(page, p, *answer)?;
    }
    Ok(())
}
