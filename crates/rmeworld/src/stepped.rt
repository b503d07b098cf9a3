//! The report of a world's step.

ghost use Rattle.std.specs.Prelude.{◌≡◌};

use crate::answer::Answer;
use crate::outcome::Outcome;
use redomail::Deed;
use rmecore::{Access, Happened};

/// One step of a world: its event, its deed if it has one, and the answer if it ends its call.
#[derive(Clone, Copy, Debug, PartialEq, Eq)]
pub struct Stepped {
    pub happened: Happened,
    pub deed: Option<Deed>,
    pub answer: Option<Answer>,
}

/// A step before it is taken.
#[derive(Clone, Copy)]
pub(crate) struct Prospect {
    pub access: Access,
    /// The current value of the word.
    pub found: u64,
}

impl Prospect {
    ghost use Rattle.rmecore.specs.Machine.{kind_of, word_of, carried_value};

    /// The report of the step after it is taken.
    pub(crate) fn step_report(&self, outcome: Outcome, deed: Option<Deed>) -> Stepped
        ensures { result ≡ record {
          happened = record {
            kind = kind_of self.now.access;
            word = word_of self.now.access;
            value = carried_value self.now.access self.now.found;
            outer = outcome.progress.outer;
            done = outcome.progress.done;
          };
          deed = deed;
          answer = outcome.answer;
        } }
    {
        Stepped {
            happened: Happened {
                kind: self.access.kind(),
                word: self.access.word(),
                value: self.value(),
                outer: outcome.progress.outer,
                done: outcome.progress.done,
            },
            deed,
            answer: outcome.answer,
        }
    }

    /// The value that is read or written.
    fn value(&self) -> u64
        ensures { result ≡ carried_value self.now.access self.now.found }
    {
        match self.access {
            Access::Load(..) => self.found,
            Access::Store(_, _, value) => value,
        }
    }
}
