//! The running verdict of a judge on the deeds of a run.

ghost use Rattle.std.specs.Prelude.{◌≡◌, ◌∷◌, []};
ghost use Rattle.schedule.specs.RunningVerdicts.{running_judge, Hears};

use crate::replays::verdict::Verdict;
use judge::Judge;
use redomail::Deed;

/// The number of the next deed, and the verdict so far.
/// After the first deed that the judge refuses, no deed is judged.
#[derive(Clone, Copy)]
pub struct RunningVerdict {
    number: u64,
    verdict: Verdict,
}

impl RunningVerdict {
    /// Before the first deed.
    pub const OPENED: RunningVerdict = RunningVerdict {
        number: 1,
        verdict: Verdict::Fine,
    };

    /// The verdict so far.
    pub fn verdict(&self) -> Verdict
        ensures { result ≡ self.now.verdict }
    {
        self.verdict
    }

    /// Gives the deed to a judge that has allowed all deeds before.
    fn ask(&mut self, judge: &mut Judge, deed: &Deed)
        requires { self.old.verdict ≡ Verdict.Fine }
        ensures { Hears (running_judge judge.old self.old) (deed.now ∷ []) (running_judge judge.new self.new) }
    {
        if let Err(fault) = judge.feed_from(deed) {
            self.verdict = Verdict::Against {
                at: self.number,
                fault,
            };
            return;
        }
        self.number = self.number.saturating_add(1);
    }

    /// Gives the next deed to the judge, unless it has refused one.
    pub fn hear(&mut self, judge: &mut Judge, deed: &Deed)
        ensures { Hears (running_judge judge.old self.old) (deed.now ∷ []) (running_judge judge.new self.new) }
    {
        match self.verdict {
            Verdict::Fine => self.ask(judge, deed),
            Verdict::Against { .. } => {}
        }
    }
}
