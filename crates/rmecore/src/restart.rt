//! The restart table: what a call does after it has reread the process's own words.

ghost use Rattle.std.specs.Prelude.{◌≡◌, Some, None, false, ℕ};
ghost use Rattle.rmecore.specs.Place.{lock_restart, recovery_restart, restart, shut, place_after_unmark};
ghost use Rattle.rmecore.specs.Machine.{place_of, recovery_answer, again, reread_answer, shut_answer, unmark_answer};
ghost use Rattle.rmecore.specs.World.{reentry};

use crate::core_call::CoreCall;
use crate::core_done::CoreDone;
use crate::found::Found;
use crate::outer::Outer;
use crate::progress::{Progress, SILENT};
use crate::stage::Stage;

/// What a call of process `own` does after its three rereads.
pub fn restart_call(
    own: u64,
    call: CoreCall,
    choosing: u64,
    number: u64,
    inside: u64,
) -> (Stage, Progress)
    ensures place { (n : ℕ) → place_of n own result.0 ≡ restart n own call choosing number inside }
    ensures progress { result.1 ≡ record {
      outer = reentry own choosing number inside;
      done = reread_answer call choosing number inside;
      blocked = false;
    } }
{
    match call {
        CoreCall::Lock => lock_restart(own, choosing, number, inside),
        CoreCall::Recover | CoreCall::Unlock | CoreCall::Withdraw => {
            recovery_restart(own, choosing, number, inside)
        }
    }
}

/// The row for a lock: it goes on with what is left to do.
fn lock_restart(own: u64, choosing: u64, number: u64, inside: u64) -> (Stage, Progress)
    ensures place { (n : ℕ) → place_of n own result.0 ≡ lock_restart n own choosing number inside }
    ensures progress { result.1 ≡ record {
      outer = reentry own choosing number inside;
      done = again choosing number inside;
      blocked = false;
    } }
{
    match (choosing, number, inside) {
        (0, 0, 0) => (Stage::Opening, SILENT),
        (0, 0, _) => {
            let call = CoreCall::Lock;
            (Stage::Unmarking { call }, SILENT)
        }
        (0, _, 0) => (Stage::waiting(number), SILENT),
        (0, _, _) => (Stage::Inside, reentry_progress(own, CoreDone::InAgain)),
        (_, 0, _) => (Stage::DOORWAY, SILENT),
        (_, _, _) => {
            let call = CoreCall::Lock;
            (Stage::Shutting { call, number }, SILENT)
        }
    }
}

/// The row for a recovery: it never scans, and takes at most one step more.
fn recovery_restart(own: u64, choosing: u64, number: u64, inside: u64) -> (Stage, Progress)
    ensures place { (n : ℕ) → place_of n own result.0 ≡ recovery_restart choosing number inside }
    ensures progress { result.1 ≡ record {
      outer = reentry own choosing number inside;
      done = recovery_answer choosing number inside;
      blocked = false;
    } }
{
    match (choosing, number, inside) {
        (0, 0, 0) => (Stage::Rest, Progress::end(CoreDone::Found(Found::Idle))),
        (0, 0, _) => {
            let call = CoreCall::Recover;
            (Stage::Unmarking { call }, SILENT)
        }
        (0, _, 0) => (Stage::Rest, Progress::end(CoreDone::Found(Found::Waiting))),
        (0, _, _) => (
            Stage::Inside,
            reentry_progress(own, CoreDone::Found(Found::Inside)),
        ),
        (_, 0, _) => (Stage::Rest, Progress::end(CoreDone::Found(Found::Doorway))),
        (_, _, _) => {
            let call = CoreCall::Recover;
            (Stage::Shutting { call, number }, SILENT)
        }
    }
}

/// The effects of a step that enters again after a crash inside, and ends the call.
fn reentry_progress(own: u64, done: CoreDone) -> Progress
    ensures { result ≡ record { outer = Some (Outer.Reenter own); done = Some done; blocked = false } }
{
    Progress::deed_and_end(Outer::Reenter(own), done)
}

/// After choosing := 0. A lock waits now. A recovery answers that the process was waiting.
pub fn after_shut(call: CoreCall, number: u64) -> (Stage, Progress)
    ensures place { (n p : ℕ) → place_of n p result.0 ≡ shut n p call number }
    ensures progress { result.1 ≡ record { outer = None; done = shut_answer call; blocked = false } }
{
    match call {
        CoreCall::Lock => (Stage::waiting(number), SILENT),
        CoreCall::Recover | CoreCall::Unlock | CoreCall::Withdraw => {
            (Stage::Rest, Progress::end(CoreDone::Found(Found::Waiting)))
        }
    }
}

/// After inside := 0. A lock opens its doorway. Any other call is over.
pub fn after_unmark(call: CoreCall) -> (Stage, Progress)
    ensures place { (n p : ℕ) → place_of n p result.0 ≡ place_after_unmark call }
    ensures progress { result.1 ≡ record { outer = None; done = unmark_answer call; blocked = false } }
{
    match call {
        CoreCall::Lock => (Stage::Opening, SILENT),
        CoreCall::Unlock => (Stage::Rest, Progress::end(CoreDone::Out)),
        CoreCall::Recover | CoreCall::Withdraw => {
            (Stage::Rest, Progress::end(CoreDone::Found(Found::Left)))
        }
    }
}
