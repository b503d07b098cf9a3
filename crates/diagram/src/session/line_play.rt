//! Plays a line on a machine, and writes each of its steps.

ghost use Rattle.std.specs.Prelude.{◌≡◌, ◌++◌, [], None, IfOk, IfSome, OnOk, OnErr};
ghost use Rattle.diagram.specs.Events.{events_of};
ghost use Rattle.diagram.specs.Followed.{run_text, row_text};
ghost use Rattle.diagram.specs.LastSteps.{number_refused, last_steps_after, last_steps_with, IsNumberOf};
ghost use Rattle.schedule.specs.Runs.{line_on};

use crate::act::{DiagramRow, RowAct};
use crate::session::last_steps::LastSteps;
use crate::step_by_step::{put_row, row_of};
use redomail::{Deed, Layout};
use rmecore::Refusal;
use rmeworld::{Machine, Stepped};
use schedule::player::listener::Listener;
use schedule::player::play_lines::play_line as play;
use schedule::player::play_stop::PlayStop;
use schedule::{Line, OutOfMemory};
use std::alloc::AllocError;

/// Writes each step and crash that it hears, and keeps what they show of each process.
#[derive(Drop)]
pub struct StepWriter<'a> {
    pub layout: Layout,
    pub last_steps: &'a mut LastSteps,
    pub out: &'a mut Vec<u8>,
}

/// Writes a row, after which the processes are seen like this.
fn put_seen(
    out: &mut Vec<u8>,
    layout: &Layout,
    last_steps: &mut LastSteps,
    row: &DiagramRow,
) -> Result<(), OutOfMemory>
    ensures text { OnOk result (out.new.items ≡ out.old.items
        ++ row_text layout.now (last_steps_with last_steps.old row.now).phases None row.now) }
    ensures last_steps { OnOk result (last_steps.new ≡ last_steps_with last_steps.old row.now) }
{
    last_steps.take(row);
    match put_row(out, layout, last_steps.phases(), None, row) {
        Ok(()) => Ok(()),
        Err(_) => Err(OutOfMemory),
    }
}

impl<'a, M: Machine> Listener<M> for StepWriter<'a> {
    ghost use Rattle.diagram.specs.StepWriters.{step_effects};

    type Stop = OutOfMemory;

    ghost effects = { step_effects };

    fn hear_step(&mut self, p: u64, step: &Stepped) -> Result<(), OutOfMemory> {
        put_seen(self.out, &self.layout, self.last_steps, &row_of(p, step))
    }

    fn hear_crash(&mut self, p: u64, crash: &Deed) -> Result<(), OutOfMemory> {
        let act = RowAct::Fell(*crash);
        put_seen(
            self.out,
            &self.layout,
            self.last_steps,
            &DiagramRow { p, act },
        )
    }

    fn skips_silent_steps(&self) -> bool {
        false
    }
}

/// The number of the refusal of a line that is not played to its end. Out of memory is no refusal.
fn number_of(stop: PlayStop<Refusal, OutOfMemory>) -> Result<Option<u64>, AllocError>
    ensures { IsNumberOf stop result }
{
    match stop {
        PlayStop::Refused(refusal) => Ok(refusal.number()),
        PlayStop::OutOfMemory | PlayStop::Stopped(_) => Err(AllocError),
    }
}

impl<'a> StepWriter<'a> {
    ghost use Rattle.diagram.specs.StepWriters.{WritesLine};

    /// Plays one line, and writes each of its steps. Answers the number of a refusal; then nothing was changed or written.
    fn play_line<M: Machine>(
        &mut self,
        machine: &mut M,
        line: &Line,
    ) -> Result<Option<u64>, AllocError>
        ensures same_last_steps { self.new.last_steps.ghost_name ≡ self.old.last_steps.ghost_name }
        ensures same_out { self.new.out.ghost_name ≡ self.old.out.ghost_name }
        ensures writes { WritesLine M.behaviour self.old self.new machine.old machine.new line.now result }
    {
        match play(machine, self, line) {
            Ok(()) => Ok(None),
            Err(stop) => number_of(stop),
        }
    }
}

/// Plays one line, and writes each of its steps. Answers the number of a refusal; then nothing was changed or written.
pub fn play_line<M: Machine>(
    machine: &mut M,
    last_steps: &mut LastSteps,
    layout: &Layout,
    out: &mut Vec<u8>,
    line: &Line,
) -> Result<Option<u64>, AllocError>
    ensures refused { IfOk result (λ number. number ≡ number_refused (line_on M.behaviour machine.old line.now).refused) }
    ensures text { OnOk result (out.new.items ≡ out.old.items
        ++ run_text layout.now last_steps.old.phases (events_of M.behaviour machine.old line.now)) }
    ensures last_steps { OnOk result (last_steps.new ≡ last_steps_after last_steps.old (events_of M.behaviour machine.old line.now)) }
    ensures left { OnOk result (machine.new ≡ (line_on M.behaviour machine.old line.now).left) }
    ensures same { IfOk result (λ number. IfSome number (λ k. (out.new.items ≡ out.old.items)
        × (last_steps.new ≡ last_steps.old) × (machine.new ≡ machine.old))) }
    // Out of memory comes only where the line has a step or a crash to write.
    ensures memory { OnErr result (events_of M.behaviour machine.old line.now ≡ [] → ⊥) }
{
    let layout = *layout;
    let mut writer = StepWriter {
        layout,
        last_steps,
        out,
    };
    writer.play_line(machine, line)
}
