//! A process in the line: it looks at the others and weighs their numbers. These are loops over the words alone, proved to
//! be the run of their steps.
ghost use Rattle.std.specs.Prelude.{◌≡◌, ◌≢◌, ◌+◌, ◌<◌, ◌≤◌, [], true, false, None, if◌then◌else◌};
ghost use Rattle.rmecore.specs.Place.{Wait};
ghost use Rattle.table_runs.specs.SeatView.{process_state_now};
ghost use Rattle.robust.specs.FastPath.{free_process_state, IsSame, Unanswered, waits_at};

use crate::access::port::Port;
use rmecore::rules::passes;
use rmecore::{Kind, Word};

/// How far a wait has got: the first index that was not passed, whether that process was looked at, the number of steps, and
/// whether the last step was blocked.
#[derive(Clone, Copy)]
pub struct Passed {
    pub next: u64,
    pub looked: bool,
    pub taken: u64,
    pub is_blocked: bool,
}

/// Looks at process `j`. True: it is in no doorway.
fn look(port: &mut Port, number: u64, j: u64) -> bool
    requires other { (j < port.old.setup.layout.procs) × (j ≢ port.old.by) }
    requires at { process_state_now port.old ≡ waits_at port.old number j false }
    ensures at { process_state_now port.new ≡ waits_at port.old number j result }
    ensures unanswered { Unanswered port.old 1 (if result then 0 else 1) port.new }
    ensures same { IsSame port.old port.new }
{
    // For the proof alone: its value is read.
    let _seat_view = port.by();
    let value = port.load(Kind::Look, Word::Choosing(j));
    value == 0
}

/// Weighs the number of process `j`. True: the waiter passes it.
fn weigh(port: &mut Port, number: u64, j: u64) -> bool
    requires other { (j < port.old.setup.layout.procs) × (j ≢ port.old.by) }
    requires at { process_state_now port.old ≡ waits_at port.old number j true }
    ensures passed { result ≡ true → process_state_now port.new ≡ waits_at port.old number (j + 1) false }
    ensures stays { result ≡ false → process_state_now port.new ≡ waits_at port.old number j true }
    ensures unanswered { Unanswered port.old 1 (if result then 0 else 1) port.new }
    ensures same { IsSame port.old port.new }
{
    let own = port.by();
    let value = port.load(Kind::Weigh, Word::Number(j));
    passes(number, own, value, j)
}

/// Looks at the others from an index on and weighs their numbers, up to the last one or to a blocked reading.
// Inline: the loop of each wait.
#[inline(always)]
pub fn pass_others(port: &mut Port, number: u64, from: u64) -> Passed
    requires from { from ≤ 64 }
    requires at { process_state_now port.old ≡ waits_at port.old number from false }
    ensures at { process_state_now port.new ≡ waits_at port.old number result.next result.looked }
    ensures passed { result.is_blocked ≡ false → process_state_now port.new
        ≡ free_process_state (Wait number [] None) (process_state_now port.old).mended }
    ensures unanswered { Unanswered port.old result.taken (if result.is_blocked then 1 else 0) port.new }
    ensures few { result.taken ≤ 130 }
    ensures next { result.next ≤ 64 }
    ensures same { IsSame port.old port.new }
{
    let own = port.by();
    let procs = port.procs();
    let mut taken = 0;
    for j in from..procs {
        if j != own {
            if !look(port, number, j) {
                return Passed {
                    next: j,
                    looked: false,
                    taken: taken + 1,
                    is_blocked: true,
                };
            }
            if !weigh(port, number, j) {
                return Passed {
                    next: j,
                    looked: true,
                    taken: taken + 2,
                    is_blocked: true,
                };
            }
            taken += 2;
        }
    }
    Passed {
        next: from.max(procs),
        looked: false,
        taken,
        is_blocked: false,
    }
}

/// Waits on in the line: process `next` is looked at, or weighed if it was looked at before, and then the others after it.
// Inline: the loop of each wait.
#[inline(always)]
pub fn wait_on(port: &mut Port, number: u64, next: u64, looked: bool) -> Passed
    requires next { next ≤ 64 }
    requires other { looked ≡ true → (next < port.old.setup.layout.procs) × (next ≢ port.old.by) }
    requires at { process_state_now port.old ≡ waits_at port.old number next looked }
    ensures at { process_state_now port.new ≡ waits_at port.old number result.next result.looked }
    ensures passed { result.is_blocked ≡ false → process_state_now port.new
        ≡ free_process_state (Wait number [] None) (process_state_now port.old).mended }
    ensures unanswered { Unanswered port.old result.taken (if result.is_blocked then 1 else 0) port.new }
    ensures few { result.taken ≤ 131 }
    ensures same { IsSame port.old port.new }
{
    // For the proof alone: its value is read.
    let _seat_view = port.by();
    if !looked {
        return pass_others(port, number, next);
    }
    if !weigh(port, number, next) {
        return Passed {
            next,
            looked: true,
            taken: 1,
            is_blocked: true,
        };
    }
    let after_it = pass_others(port, number, next + 1);
    Passed {
        next: after_it.next,
        looked: after_it.looked,
        taken: after_it.taken + 1,
        is_blocked: after_it.is_blocked,
    }
}
