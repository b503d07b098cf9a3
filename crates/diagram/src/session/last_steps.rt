//! What the steps so far have shown of each process.

ghost use Rattle.std.specs.Prelude.{◌≡◌, IfOk};
ghost use Rattle.diagram.specs.LastSteps.{access_in, no_last_steps, last_steps_with};

use crate::act::{DiagramRow, RowAct};
use crate::phase::{LifelinePhase, phase_shown};
use rmecore::Happened;
use std::alloc::{AllocError, Global};
use std::marker::Model;

/// The phase of each process, and its last access since its last crash.
#[derive(Drop)]
pub struct LastSteps {
    phases: Vec<LifelinePhase>,
    lasts: Vec<Option<Happened>>,
}

impl Model for LastSteps {
    ghost use Rattle.diagram.specs.LastSteps.{LastStepsState};

    ghost Value = { LastStepsState };

    ghost view = { λ s. record { phases = s.phases.items; lasts = s.lasts.items } };
}

/// The access of a row; a crash has none.
fn access_of(act: &RowAct) -> Option<Happened>
    ensures { result ≡ access_in act.now }
{
    match act {
        RowAct::Silent(happened, _) => Some(*happened),
        RowAct::Telling(stepped) => Some(stepped.happened),
        RowAct::Fell(_) => None,
    }
}

impl LastSteps {
    /// Before the first step: this many processes, all at rest.
    pub fn new(alloc: Global, procs: u64) -> Result<LastSteps, AllocError>
        ensures { IfOk result (λ last_steps. last_steps ≡ no_last_steps procs) }
    {
        let phases = vec![in alloc; LifelinePhase::Rest; procs as usize]?;
        let lasts = vec![in alloc; None; procs as usize]?;
        Ok(LastSteps { phases, lasts })
    }

    /// The phases.
    pub fn phases(&self) -> &[LifelinePhase]
        ensures { result.now ≡ self.now.phases }
    {
        self.phases.as_slice()
    }

    /// The last accesses.
    pub fn lasts(&self) -> &[Option<Happened>]
        ensures { result.now ≡ self.now.lasts }
    {
        self.lasts.as_slice()
    }

    /// Takes the next row.
    pub fn take(&mut self, row: &DiagramRow)
        ensures { self.new ≡ last_steps_with self.old row.now }
    {
        if let Some(phase) = phase_shown(row) {
            if let Some(place) = self.phases.get_mut(row.p as usize) {
                *place = phase;
            }
        }
        if let Some(last) = self.lasts.get_mut(row.p as usize) {
            *last = access_of(&row.act);
        }
    }
}
