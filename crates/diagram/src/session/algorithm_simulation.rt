//! A world of an algorithm with its monitor, as a session plays it.

ghost use Rattle.std.specs.Prelude.{IfOk};
ghost use Rattle.algorithm_lab.proofs.Restarts.{restarted_twice};
ghost use Rattle.diagram.specs.AlgorithmSimulations.{HasNumber, algorithm_semantics, begins_after_line};

use crate::algorithm::event_list::EventList;
use crate::algorithm::step_by_step::put_events;
use crate::session::algorithm_positions::put_algorithm_state;
use crate::session::simulation::Simulation;
use crate::session::way::steps_to_answer;
use algorithm_lab::{Monitor, RunRefusal};
use schedule::texts::head::Head;
use schedule::{Count, Line, OutOfMemory, PlayStop, Schedule, play_line};
use std::alloc::{AllocError, Global};

/// The number of the refusal of a line that is not played to its end. Out of memory is no refusal.
fn number_of(stop: PlayStop<RunRefusal, OutOfMemory>) -> Result<u64, AllocError>
    ensures { IfOk result (λ number. HasNumber stop number) }
{
    let PlayStop::Refused(refusal) = stop else {
        return Err(AllocError);
    };
    match refusal.number() {
        Some(number) => Ok(number),
        None => Err(AllocError),
    }
}

impl Simulation for Monitor {
    ghost semantics = { algorithm_semantics };

    ghost begins_after = { λ m line head. begins_after_line m line };

    ghost begins_again = { λ m before head. restarted_twice m };

    /// The monitor has the sizes already, and begins anew.
    fn begin(&mut self, _alloc: Global, _head: Head) -> Result<(), AllocError> {
        self.restart();
        Ok(())
    }

    /// A line of steps can be refused in its midst: then it goes back.
    fn play_line(
        &mut self,
        alloc: Global,
        _head: Head,
        line: &Line,
        out: &mut Vec<u8>,
    ) -> Result<Option<u64>, AllocError> {
        let checkpoint = self.checkpoint(alloc)?;
        let mut list = EventList::new(alloc);
        match play_line(self, &mut list, line) {
            Ok(()) => {
                put_events(alloc, out, self.world().algorithm(), list.events.as_slice())?;
                Ok(None)
            }
            Err(stop) => {
                let number = number_of(stop)?;
                self.go_back(checkpoint);
                Ok(Some(number))
            }
        }
    }

    fn put_state(&self, _head: Head, out: &mut Vec<u8>) -> Result<(), AllocError> {
        put_algorithm_state(out, self)
    }

    /// It takes the steps, and goes back.
    fn steps_to_answer(
        &mut self,
        alloc: Global,
        _schedule: &Schedule,
        p: u64,
    ) -> Result<Option<Count>, AllocError> {
        let checkpoint = self.checkpoint(alloc)?;
        let steps = steps_to_answer(self, p, 1_000_000)?;
        self.go_back(checkpoint);
        match steps {
            Some(steps) => Ok(Some(Count::new(steps).unwrap())),
            None => Ok(None),
        }
    }
}
