//! The counts of a call.

ghost use Rattle.std.specs.Prelude.{◌≡◌};

use crate::own::Own;

/// The counts of a process's last call: its steps, the blocked ones among them, and the lock words at its start.
#[derive(Clone, Copy, Debug, PartialEq, Eq)]
pub struct Tally {
    pub steps: u64,
    pub blocked: u64,
    pub began: Own,
}

impl Tally {
    ghost use Rattle.rmecore.specs.Simulated.{tally_after_step};

    /// The counts of a process before its first call, where its words are 0.
    pub const UNSTARTED: Tally = Tally {
        steps: 0,
        blocked: 0,
        began: Own::ZEROS,
    };

    /// Counts one more step.
    pub fn count(&mut self, blocked: bool)
        ensures { self.new ≡ tally_after_step self.old blocked }
    {
        self.steps = self.steps.saturating_add(1);
        if blocked {
            self.blocked = self.blocked.saturating_add(1);
        }
    }
}
