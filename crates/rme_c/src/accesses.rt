//! The next access of a process.

ghost use Rattle.std.specs.Prelude.{◌≡◌, ◌≤◌, IfSome};
ghost use Rattle.rmecore.specs.Machine.{word_of};
ghost use Rattle.rmeworld.specs.MachineState.{next_access, InWords};
ghost use Rattle.rme_c.specs.Positions.{machine_state_at, FitsPosition};
ghost use Rattle.rme_c.specs.declared.position.Position.TheVariants as Position;

use crate::position::Position;
use crate::process::RmeProcess;
use crate::script_position::ScriptPosition;
use crate::steps::{check_next, script_position_next};
use rmecore::rules::access_at;
use rmecore::{Access, Stage};

/// The next access of the lock's part. None: no call is under way.
// Inline: once in each C step.
#[inline(always)]
fn lock_next(p: &RmeProcess, stage: Stage) -> Option<Access>
    requires { FitsPosition p.now (Position.Lock stage) }
    ensures next { result ≡ next_access (machine_state_at p.now (Position.Lock stage)) }
    ensures word { IfSome result (λ a. InWords p.now.procs (word_of a)) }
{
    access_at(p.procs, p.limit, p.index, stage)
}

/// The next access at a position. None: no call is under way.
// Inline: once in each C step.
#[inline(always)]
pub fn next_at(p: &RmeProcess, position: Position) -> Option<Access>
    requires { FitsPosition p.now position }
    ensures next { result ≡ next_access (machine_state_at p.now position) }
    ensures word { IfSome result (λ a. InWords p.now.procs (word_of a)) }
    ensures placed { IfSome result (λ _. p.now.procs ≤ 64) }
{
    match position {
        Position::Lost => None,
        Position::Lock(stage) => lock_next(p, stage),
        Position::Within(ScriptPosition::Checking) => Some(check_next(p)),
        Position::Within(script_position) => Some(script_position_next(p, script_position)),
    }
}
