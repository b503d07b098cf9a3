//! Silent steps of a world: no deed, and not the call's last step. They return no report.

ghost use Rattle.std.specs.Prelude.{◌≡◌, false, None, IsTrue};

use crate::memory::{puts_silently, store};
use crate::world::World;

impl World {
    ghost use Rattle.rmeworld.specs.Replayed.{advance_refusal, world_step_report, world_after_step};

    /// Takes the next step of process `p` if it can see cheaply that the step is silent. True: the step was taken. False:
    /// nothing changed.
    // Apart: keeps the scan's loop small.
    #[inline(never)]
    pub(crate) fn step_unobserved(&mut self, p: u64) -> bool
        ensures accepted { IsTrue result → advance_refusal self.old p ≡ None }
        ensures silent { IsTrue result
            → ((world_step_report self.old p).deed ≡ None) × ((world_step_report self.old p).answer ≡ None) }
        ensures ok { IsTrue result → self.new ≡ world_after_step self.old p }
        ensures same { result ≡ false → self.new ≡ self.old }
    {
        if p >= self.layout.procs || !self.processes[p as usize].is_promising() {
            return false;
        }
        let Ok(step) = self.prospect(p) else {
            return false;
        };
        if !puts_silently(step.access) {
            return false;
        }
        let Some(blocked) = self.processes[p as usize].feed_silently(step.found) else {
            return false;
        };
        store(&mut self.words, &mut self.cells, step.access);
        self.tallies[p as usize].count(blocked);
        true
    }
}
