//! The state of the lifelines after the rows so far.

ghost use Rattle.std.specs.Prelude.{◌≡◌, ◌≤◌, IfOk};
ghost use Rattle.std.proofs.Math.ListN.{replicate};
ghost use Rattle.diagram.specs.DiagramLayouts.{is_deed as is_deed_in, lifeline_state_by, lifeline_state_shown, lifeline_state_with};

use crate::act::DiagramRow;
use crate::phase::{LifelinePhase, phase_shown};
use crate::shown_row::ShownRow;
use redomail::Deed;
use std::alloc::{AllocError, Global};
use std::marker::Model;

/// The phases of the processes, the number of deeds, and the number of rows.
#[derive(Drop)]
pub struct LifelineState {
    phases: Vec<LifelinePhase>,
    deeds: u64,
    rows: u64,
}

impl Model for LifelineState {
    ghost use Rattle.diagram.specs.DiagramLayouts.{LifelineView};

    ghost Value = { LifelineView };

    ghost view = { λ p. record { phases = p.phases.items; deeds = p.deeds; rows = p.rows } };
}

impl LifelineState {
    /// Before the first row: this many processes, all in this phase.
    pub fn new(alloc: Global, procs: u64, first: LifelinePhase) -> Result<LifelineState, AllocError>
        ensures { IfOk result (λ lifeline_state. lifeline_state ≡ record { phases = replicate procs first; deeds = 0; rows = 0 }) }
    {
        let phases = vec![in alloc; first; procs as usize]?;
        Ok(LifelineState {
            phases,
            deeds: 0,
            rows: 0,
        })
    }

    /// The phases.
    pub fn phases(&self) -> &[LifelinePhase]
        ensures { result.now ≡ self.now.phases }
    {
        self.phases.as_slice()
    }

    /// The number of rows that it has taken.
    pub fn rows(&self) -> u64
        ensures { result ≡ self.now.rows }
    {
        self.rows
    }

    /// Whether the row, the last that it has taken, has the deed of this number.
    pub fn is_deed(&self, at: u64, row: &ShownRow) -> bool
        ensures { result ≡ is_deed_in at self.now row.now }
    {
        row.deed.is_some() && self.deeds == at
    }

    /// Goes on after a row in which p shows this phase and this deed.
    fn go_on(&mut self, p: u64, phase: Option<LifelinePhase>, deed: &Option<Deed>)
        ensures { self.new ≡ lifeline_state_by self.old p phase deed.now }
    {
        if let Some(phase) = phase {
            if let Some(place) = self.phases.get_mut(p as usize) {
                *place = phase;
            }
        }
        if deed.is_some() {
            self.deeds = self.deeds.saturating_add(1);
        }
        self.rows = self.rows.saturating_add(1);
    }

    /// Takes the next row of a run of the lock.
    pub fn take(&mut self, row: &DiagramRow)
        ensures { self.new ≡ lifeline_state_with self.old row.now }
    {
        self.go_on(row.p, phase_shown(row), &row.deed());
    }

    /// Takes the next row.
    pub fn take_shown(&mut self, row: &ShownRow)
        ensures { self.new ≡ lifeline_state_shown self.old row.now }
    {
        self.go_on(row.p, row.phase, &row.deed);
    }
}
