//! The moves of a round so far.

ghost use Rattle.std.specs.Prelude.{◌≡◌, ◌∷◌, ◌++◌, [], IfOk, OnOk, IfErr};
ghost use Rattle.crashlab.specs.hunts.Found.{drawn_moves_of};

use crate::hunts::hunt_fault::HuntFault;
use crate::hunts::moves::DrawnMove;
use crate::hunts::{CAP, LIMIT, PROCS, WIDTH};
use schedule::Schedule;
use std::alloc::Global;
use std::marker::Model;

/// The moves of a round so far. Contracts see their list. The lines of a schedule take three times the room, so they are made
/// only when it is asked for.
#[derive(Drop)]
pub struct DrawnMoves {
    moves: Vec<DrawnMove>,
}

impl Model for DrawnMoves {
    ghost use Rattle.std.specs.Prelude.{List};
    ghost use Rattle.crashlab.specs.declared.hunts.moves.DrawnMove.{DrawnMove as DrawnMoveOf};

    ghost Value = { List DrawnMoveOf };

    ghost view = { λ r. r.moves.items };
}

impl DrawnMoves {
    /// No moves.
    pub fn new(alloc: Global) -> DrawnMoves
        ensures { result ≡ [] }
    {
        DrawnMoves {
            moves: Vec::new(alloc),
        }
    }

    /// Adds a move.
    pub fn push(&mut self, made: DrawnMove) -> Result<(), HuntFault>
        ensures added { OnOk result (self.new ≡ self.old ++ made ∷ []) }
        ensures memory { IfErr result (λ e. e ≡ HuntFault.OutOfMemory) }
    {
        match self.moves.push(made) {
            Ok(()) => Ok(()),
            Err(_) => Err(HuntFault::OutOfMemory),
        }
    }

    /// The moves as a schedule of a hunt's world.
    pub fn schedule(&self, alloc: Global) -> Result<Schedule, HuntFault>
        ensures same { IfOk result (λ schedule. schedule ≡ drawn_moves_of self.now) }
        ensures memory { IfErr result (λ e. e ≡ HuntFault.OutOfMemory) }
    {
        let Ok(mut schedule) = Schedule::new(alloc, PROCS, LIMIT, CAP, WIDTH) else {
            return Err(HuntFault::OutOfMemory);
        };
        for made in &self.moves {
            if schedule.push(made.line()).is_err() {
                return Err(HuntFault::OutOfMemory);
            }
        }
        Ok(schedule)
    }
}
