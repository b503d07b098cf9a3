//! The sizes of a lab.

ghost use Rattle.std.specs.Prelude.{◌↔◌, IsTrue};
ghost use Rattle.table_runs.specs.Lab.{IsBeyondRange, IsBadSpec};

use rmecore::simulated::{MOST_LIMIT, MOST_PROCS};
use rmeworld::image::rules::{MOST_CAP, MOST_WIDTH};

/// The most messages that a worker sends.
pub const MOST_MESSAGES: u64 = 4_096;

/// The sizes of a lab: `procs` workers (1 to 64), each of which sends `messages` messages (1 to 4,096), over an arena with
/// this greatest number (1 to 2^62), a mailbox with room for `cap` messages (1 to 65,536), and values of `width` words (1 to
/// 8).
#[derive(Clone, Copy, Debug, PartialEq, Eq)]
pub struct Spec {
    pub procs: u64,
    pub messages: u64,
    pub limit: u64,
    pub cap: u64,
    pub width: u64,
}

/// Is a number outside 1 to `most`?
fn is_outside(most: u64, n: u64) -> bool
    ensures { IsTrue result ↔ IsBeyondRange most n }
{
    n == 0 || n > most
}

impl Spec {
    /// Is a size outside its limits, or are there not as many gates as workers?
    pub fn is_bad(&self, gates: u64) -> bool
        ensures { IsTrue result ↔ IsBadSpec self.now gates }
    {
        is_outside(MOST_PROCS, self.procs)
            || is_outside(MOST_LIMIT, self.limit)
            || is_outside(MOST_CAP, self.cap)
            || is_outside(MOST_WIDTH, self.width)
            || is_outside(MOST_MESSAGES, self.messages)
            || gates != self.procs
    }
}
