//! The rows of a drawing: one for each step and each crash.

ghost use Rattle.std.specs.Prelude.{◌≡◌};
ghost use Rattle.diagram.specs.Rows.{deed_of, answer_of};

use redomail::Deed;
use rmecore::Happened;
use rmeworld::{Answer, Stepped};

/// What a process does in one row.
#[derive(Clone, Copy)]
pub enum RowAct {
    /// A silent step: it has no deed and ends no call.
    /// A blocked step counts how often it was taken with no other step between.
    Silent(Happened, u64),
    /// A step that has a deed, or ends a call.
    Telling(Stepped),
    /// A crash.
    Fell(Deed),
}

/// One row of a drawing.
#[derive(Clone, Copy)]
pub struct DiagramRow {
    pub p: u64,
    pub act: RowAct,
}

impl DiagramRow {
    /// The deed of the row, if it has one.
    pub fn deed(&self) -> Option<Deed>
        ensures { result ≡ deed_of self.now.act }
    {
        match self.act {
            RowAct::Silent(..) => None,
            RowAct::Telling(stepped) => stepped.deed,
            RowAct::Fell(deed) => Some(deed),
        }
    }

    /// The answer of the call that the row ends, if it ends one.
    pub fn answer(&self) -> Option<Answer>
        ensures { result ≡ answer_of self.now.act }
    {
        match self.act {
            RowAct::Telling(stepped) => stepped.answer,
            RowAct::Silent(..) | RowAct::Fell(_) => None,
        }
    }
}
