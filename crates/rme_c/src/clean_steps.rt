//! The steps of a lock or an unlock that finds no trace of a crash, other than a scan's.

ghost use Rattle.std.specs.Prelude.{◌≡◌, ℕ, ◌+◌, ◌<◌, ◌≤◌, IfSome, Some, None, false};
ghost use Rattle.rmecore.specs.Machine.{place_of, after_access, progress, next_access};
ghost use Rattle.rmecore.specs.declared.core_call.CoreCall.TheVariants as CallOf;
ghost use Rattle.rmecore.specs.declared.stage.Stage.TheVariants as StageOf;
ghost use Rattle.rmecore.specs.Refused.{is_idle};
ghost use Rattle.rme_c.specs.Positions.{standing_at, position_of, FitsPosition};
ghost use Rattle.rme_c.specs.Steps.{IsLanding, IsFed};
ghost use Rattle.rme_c.specs.declared.position.Position.TheVariants as Position;

use crate::lock_arms::{looks_from, peeks_from};
use crate::lock_part::{Landing, leaves, loads, stores};
use crate::position::at;
use crate::process::{RmeAccess, RmeProcess};
use rmecore::words::places::call_number;
use rmecore::{CoreCall, Stage};

/// After the reread of the own choosing: the own number comes next.
// Inline: once in each lock.
#[inline(always)]
fn rereads_number(
    p: &mut RmeProcess,
    call: CoreCall,
    choosing: u64,
    steps: u64,
    next: &mut RmeAccess,
) -> Landing
    requires below { p.old.index < p.old.procs }
    requires few { p.old.procs ≤ 64 }
    requires steps { steps ≡ p.old.steps + 1 }
    ensures to { result.to ≡ StageOf.ReadingNumber call choosing }
    ensures done { result.done ≡ None }
    ensures free { result.blocked ≡ false }
    ensures numbers { IsLanding p.old result p.new next.old next.new }
{
    let own = p.index;
    let to = Stage::ReadingNumber { call, choosing };
    let numbers = at(3, p.position.first, choosing, call_number(call));
    loads(p, to, numbers, 3 * own + 1, steps, next)
}

/// After the reread of the own number: the own inside comes next.
// Inline: once in each lock.
#[inline(always)]
fn rereads_inside(
    p: &mut RmeProcess,
    call: CoreCall,
    choosing: u64,
    read: u64,
    steps: u64,
    next: &mut RmeAccess,
) -> Landing
    requires below { p.old.index < p.old.procs }
    requires few { p.old.procs ≤ 64 }
    requires steps { steps ≡ p.old.steps + 1 }
    ensures to { result.to ≡ StageOf.ReadingInside call choosing read }
    ensures done { result.done ≡ None }
    ensures free { result.blocked ≡ false }
    ensures numbers { IsLanding p.old result p.new next.old next.new }
{
    let own = p.index;
    let to = Stage::ReadingInside {
        call,
        choosing,
        number: read,
    };
    let numbers = at(4, read, choosing, call_number(call));
    loads(p, to, numbers, 3 * own + 2, steps, next)
}

/// After a reread of three zeros by a lock: the doorway is opened next.
// Inline: once in each lock.
#[inline(always)]
fn opens(p: &mut RmeProcess, steps: u64, next: &mut RmeAccess) -> Landing
    requires below { p.old.index < p.old.procs }
    requires few { p.old.procs ≤ 64 }
    requires steps { steps ≡ p.old.steps + 1 }
    ensures to { result.to ≡ StageOf.Opening }
    ensures done { result.done ≡ None }
    ensures free { result.blocked ≡ false }
    ensures numbers { IsLanding p.old result p.new next.old next.new }
{
    let own = p.index;
    let q = p.position;
    let numbers = at(5, q.first, q.second, q.third);
    stores(p, Stage::Opening, numbers, 3 * own, 1, steps, next)
}

/// After the number was given up by an unlock: the own inside is reset next.
// Inline: once in each unlock.
#[inline(always)]
fn unmarks(p: &mut RmeProcess, steps: u64, next: &mut RmeAccess) -> Landing
    requires below { p.old.index < p.old.procs }
    requires few { p.old.procs ≤ 64 }
    requires steps { steps ≡ p.old.steps + 1 }
    ensures to { result.to ≡ StageOf.Unmarking CallOf.Unlock }
    ensures done { result.done ≡ None }
    ensures free { result.blocked ≡ false }
    ensures numbers { IsLanding p.old result p.new next.old next.new }
{
    let own = p.index;
    let to = Stage::Unmarking {
        call: CoreCall::Unlock,
    };
    let numbers = at(13, p.position.first, p.position.second, 2);
    stores(p, to, numbers, 3 * own + 2, 0, steps, next)
}

/// Takes the next step of a lock or an unlock that finds no trace of a crash, other than a scan's. None: it is another step,
/// and nothing changed.
// Inline: once in each lock step.
#[inline(always)]
fn clean_step(
    p: &mut RmeProcess,
    stage: Stage,
    value: u64,
    steps: u64,
    next: &mut RmeAccess,
) -> Option<Landing>
    requires below { p.old.index < p.old.procs }
    requires few { p.old.procs ≤ 64 }
    requires steps { steps ≡ p.old.steps + 1 }
    ensures place { IfSome result (λ r. place_of p.old.procs p.old.index r.to
        ≡ after_access (standing_at p.old stage) (next_access (standing_at p.old stage)) value) }
    ensures done { IfSome result (λ r. r.done
        ≡ (progress (standing_at p.old stage) (next_access (standing_at p.old stage)) value).done) }
    ensures blocked { IfSome result (λ r. r.blocked ≡ (progress (standing_at p.old stage)
        (next_access (standing_at p.old stage)) value).blocked) }
    ensures numbers { IfSome result (λ r. IsLanding p.old r p.new next.old next.new) }
    ensures busy { IfSome result (λ _. is_idle (place_of p.old.procs p.old.index stage) ≡ false) }
    ensures none { result ≡ None → (p.new ≡ p.old) × (next.new ≡ next.old) }
{
    let landing = match stage {
        Stage::ReadingChoosing { call } => rereads_number(p, call, value, steps, next),
        Stage::ReadingNumber { call, choosing } => {
            rereads_inside(p, call, choosing, value, steps, next)
        }
        Stage::ReadingInside {
            call: CoreCall::Lock,
            choosing: 0,
            number: 0,
        } if value == 0 => opens(p, steps, next),
        Stage::Opening => peeks_from(p, 0, 0, steps, next),
        Stage::Shutting {
            call: CoreCall::Lock,
            number,
        } => looks_from(p, number, 0, steps, next),
        Stage::Leaving => unmarks(p, steps, next),
        Stage::Unmarking {
            call: CoreCall::Unlock,
        } => leaves(p, steps, next),
        _ => return None,
    };
    Some(landing)
}

/// Takes a step of the lock's part, if it is one of a lock or an unlock that finds no trace of a crash, other than a scan's.
// Inline: once in each lock step.
#[inline(always)]
pub fn quick_feed(
    p: &mut RmeProcess,
    stage: Stage,
    value: u64,
    steps: u64,
    next: &mut RmeAccess,
) -> Option<u64>
    requires here { position_of p.old ≡ Position.Lock stage }
    requires fits { FitsPosition p.old (Position.Lock stage) }
    requires steps { steps ≡ p.old.steps + 1 }
    ensures fed { IfSome result (λ code. IsFed p.old value p.new next.old next.new code) }
    ensures none { result ≡ None → (p.new ≡ p.old) × (next.new ≡ next.old) }
{
    match clean_step(p, stage, value, steps, next) {
        Some(landing) => Some(landing.code),
        None => None,
    }
}
