//! What the steps so far have shown, and the marks of all steps of a run.

ghost use Rattle.std.specs.Prelude.{◌≡◌, IfOk};
ghost use Rattle.diagram.specs.DiagramLayouts.{layout_of as layout_in};
ghost use Rattle.diagram.specs.MarkedRuns.{last_marks, marked_steps_with, steps_at_start};
ghost use Rattle.diagram.specs.Rows.{events_in};

use crate::act::DiagramRow;
use crate::diagram_layout::layout_of;
use crate::drawing::Drawing;
use crate::lifeline_state::LifelineState;
use crate::lock_marks::mark_rows;
use crate::remote_marks::RemoteMarks;
use std::alloc::{AllocError, Global};
use std::marker::Model;

/// The state of the lifelines after the rows so far, and the marks of all rows.
#[derive(Drop)]
pub struct MarkedSteps {
    lifelines: LifelineState,
    marks: Vec<Option<RemoteMarks>>,
}

impl Model for MarkedSteps {
    ghost use Rattle.diagram.specs.MarkedRuns.{MarkedStepsState};

    ghost Value = { MarkedStepsState };

    ghost view = { λ s. record { lifelines = s.lifelines; marks = s.marks.items } };
}

impl MarkedSteps {
    /// Before the first step of a drawing's run.
    pub fn at_start(alloc: Global, drawing: &Drawing) -> Result<MarkedSteps, AllocError>
        ensures { IfOk result (λ steps. steps
            ≡ steps_at_start (layout_in drawing.now.head) drawing.now.first (events_in drawing.now.rows.items)) }
    {
        let layout = layout_of(drawing.head);
        let marks = mark_rows(alloc, &layout, drawing.rows.as_slice())?;
        let lifelines = LifelineState::new(alloc, drawing.head.procs, drawing.first)?;
        Ok(MarkedSteps { lifelines, marks })
    }

    /// The state of the lifelines.
    pub fn lifelines(&self) -> &LifelineState
        ensures { result.now ≡ self.now.lifelines }
    {
        &self.lifelines
    }

    /// The marks of the last row that it has taken.
    pub fn last_marks(&self) -> Option<RemoteMarks>
        ensures { result ≡ last_marks self.now }
    {
        let at = self.lifelines.rows().saturating_sub(1);
        self.marks
            .as_slice()
            .get(at as usize)
            .copied()
            .unwrap_or(None)
    }

    /// Takes the next row.
    pub fn take(&mut self, row: &DiagramRow)
        ensures { self.new ≡ marked_steps_with self.old row.now }
    {
        self.lifelines.take(row);
    }
}
