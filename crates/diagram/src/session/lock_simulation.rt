//! The built-in lock, as a session plays it.

ghost use Rattle.std.specs.Prelude.{◌≡◌, IfOk, OnOk, refl};
ghost use Rattle.schedule.specs.Schedules.{head_of};
ghost use Rattle.diagram.specs.LockSimulations.{first_lock, lock_of, lock_semantics, lock_with};
ghost use Rattle.diagram.specs.Semantics.{lines_on};

use crate::diagram_layout::layout_of;
use crate::session::last_steps::LastSteps;
use crate::session::line_play::play_line;
use crate::session::positions::put_state;
use crate::session::simulation::Simulation;
use crate::session::way::steps_to_answer;
use redomail::Layout;
use rmeworld::World;
use schedule::texts::head::Head;
use schedule::{Count, Line, Schedule};
use std::alloc::{AllocError, Global};
use std::marker::Model;

/// A world of the built-in lock, and what its processes have shown.
#[derive(Drop)]
pub struct LockSimulation {
    world: World,
    last_steps: LastSteps,
}

impl Model for LockSimulation {
    ghost use Rattle.diagram.specs.LockSimulations.{LockSimulationState};

    ghost Value = { LockSimulationState };

    ghost view = { λ s. record { world = s.world; last_steps = s.last_steps } };
}

/// Plays lines, and writes nothing. A line that is refused changes nothing.
fn play_lines(
    world: &mut World,
    last_steps: &mut LastSteps,
    layout: &Layout,
    page: &mut Vec<u8>,
    lines: &[Line],
) -> Result<(), AllocError>
    ensures { OnOk result (record { world = world.new; last_steps = last_steps.new }
        ≡ lines_on lock_with (record { world = world.old; last_steps = last_steps.old }) lines.now) }
{
    for line in lines {
        page.clear();
        play_line(world, last_steps, layout, page, line)?;
    }
    Ok(())
}

/// The built-in lock after a schedule. `Err`: out of memory, or no world has the sizes.
fn lock_after(alloc: Global, schedule: &Schedule) -> Result<LockSimulation, AllocError>
    ensures { IfOk result (λ lock. lock ≡ lock_of schedule.now) }
{
    let mut lock = LockSimulation::new(alloc, schedule.head())?;
    let layout = layout_of(schedule.head());
    let mut page = Vec::new(alloc);
    let LockSimulation { world, last_steps } = &mut lock;
    play_lines(world, last_steps, &layout, &mut page, schedule.lines())?;
    Ok(lock)
}

impl LockSimulation {
    /// A new world with the sizes of a header, of which nothing has been seen. `Err`: out of memory, or no world has the
    /// sizes.
    pub fn new(alloc: Global, head: Head) -> Result<LockSimulation, AllocError>
        ensures { IfOk result (λ lock. lock ≡ first_lock head) }
    {
        let Ok(world) = World::new(alloc, head.procs, head.limit, head.cap, head.width) else {
            return Err(AllocError);
        };
        let last_steps = LastSteps::new(alloc, head.procs)?;
        Ok(LockSimulation { world, last_steps })
    }
}

impl Simulation for LockSimulation {
    ghost semantics = { lock_semantics };

    ghost begins_after = { λ s line head. refl };

    ghost begins_again = { λ s before head. refl };

    fn begin(&mut self, alloc: Global, head: Head) -> Result<(), AllocError> {
        *self = LockSimulation::new(alloc, head)?;
        Ok(())
    }

    fn play_line(
        &mut self,
        _alloc: Global,
        head: Head,
        line: &Line,
        out: &mut Vec<u8>,
    ) -> Result<Option<u64>, AllocError> {
        let layout = layout_of(head);
        let LockSimulation { world, last_steps } = self;
        play_line(world, last_steps, &layout, out, line)
    }

    fn put_state(&self, head: Head, out: &mut Vec<u8>) -> Result<(), AllocError> {
        let Ok(image) = self.world.image() else {
            return Err(AllocError);
        };
        put_state(out, head.procs, image.lock.as_slice(), &self.last_steps)
    }

    /// On a world of its own, since a world can't go back.
    fn steps_to_answer(
        &mut self,
        alloc: Global,
        schedule: &Schedule,
        p: u64,
    ) -> Result<Option<Count>, AllocError> {
        let mut lock = lock_after(alloc, schedule)?;
        let Some(steps) = steps_to_answer(&mut lock.world, p, 1_000_000)? else {
            return Ok(None);
        };
        Ok(Some(Count::new(steps).unwrap()))
    }
}
