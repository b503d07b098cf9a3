//! The steps of the lock's part, stage by stage. Each step makes the process's new numbers at once.

ghost use Rattle.std.specs.Prelude.{◌≡◌, ℕ, ◌+◌, ◌<◌, ◌≤◌, IfSome, Some, None, true, false, is_none};
ghost use Rattle.rmecore.specs.Place.{above};
ghost use Rattle.rmecore.specs.Place as PlaceOf;
ghost use Rattle.rmecore.specs.Machine.{first as first_of, place_of, after_access, progress, next_access};
ghost use Rattle.rmecore.specs.declared.stage.Stage.TheVariants as StageOf;
ghost use Rattle.rmecore.specs.Refused.{is_idle};
ghost use Rattle.rmeworld.specs.MachineState.{next_access as next_access_of};
ghost use Rattle.rme_c.specs.Positions.{standing_at, machine_state_at, position_of, FitsPosition};
ghost use Rattle.rme_c.specs.Steps.{IsLanding, IsFed};
ghost use Rattle.rme_c.specs.declared.position.Position.TheVariants as Position;

use crate::lock_part::{Landing, comes_in, lands, leaves, loads, runs_out, stays, stores};
use crate::position::at;
use crate::process::{RmeAccess, RmeProcess};
use rmecore::rules::{first_other, passes};
use rmecore::{CoreCall, LockProcess, Stage};

/// The doorway, with the processes from an index on still to be peeked at.
// Inline: each scan step, the hottest.
#[inline(always)]
pub(crate) fn peeks_from(
    p: &mut RmeProcess,
    from: u64,
    greatest: u64,
    steps: u64,
    next: &mut RmeAccess,
) -> Landing
    requires below { p.old.index < p.old.procs }
    requires few { p.old.procs ≤ 64 }
    requires steps { steps ≡ p.old.steps + 1 }
    ensures to { place_of p.old.procs p.old.index result.to ≡ PlaceOf.Door (above p.old.procs p.old.index from) greatest }
    ensures done { result.done ≡ None }
    ensures free { result.blocked ≡ false }
    ensures numbers { IsLanding p.old result p.new next.old next.new }
{
    let own = p.index;
    let second = p.position.second;
    match first_other(p.procs, p.index, from) {
        Some(k) => {
            let to = Stage::Door { next: k, greatest };
            loads(p, to, at(256, greatest, second, k), 3 * k + 1, steps, next)
        }
        None => {
            let to = Stage::Door {
                next: p.procs,
                greatest,
            };
            let numbers = at(256, greatest, second, p.procs);
            if greatest < p.limit {
                stores(p, to, numbers, 3 * own + 1, greatest + 1, steps, next)
            } else {
                stores(p, to, numbers, 3 * own, 0, steps, next)
            }
        }
    }
}

/// The wait, with the processes from an index on still to be passed.
// Inline: each scan step, the hottest.
#[inline(always)]
pub(crate) fn looks_from(
    p: &mut RmeProcess,
    number: u64,
    from: u64,
    steps: u64,
    next: &mut RmeAccess,
) -> Landing
    requires below { p.old.index < p.old.procs }
    requires few { p.old.procs ≤ 64 }
    requires steps { steps ≡ p.old.steps + 1 }
    ensures to { place_of p.old.procs p.old.index result.to ≡ PlaceOf.Wait number (above p.old.procs p.old.index from) None }
    ensures done { result.done ≡ None }
    ensures free { result.blocked ≡ false }
    ensures numbers { IsLanding p.old result p.new next.old next.new }
{
    let own = p.index;
    let second = p.position.second;
    let looked = false;
    match first_other(p.procs, p.index, from) {
        Some(k) => {
            let to = Stage::Wait {
                number,
                next: k,
                looked,
            };
            loads(p, to, at(257, number, second, k), 3 * k, steps, next)
        }
        None => {
            let to = Stage::Wait {
                number,
                next: p.procs,
                looked,
            };
            let numbers = at(257, number, second, p.procs);
            stores(p, to, numbers, 3 * own + 2, 1, steps, next)
        }
    }
}

/// After a peek, or after the step that follows the last one: a number is taken, or there is none left.
// Inline: each scan step, the hottest.
#[inline(always)]
fn after_door(
    p: &mut RmeProcess,
    from: u64,
    greatest: u64,
    value: u64,
    steps: u64,
    next: &mut RmeAccess,
) -> Landing
    requires below { p.old.index < p.old.procs }
    requires few { p.old.procs ≤ 64 }
    requires steps { steps ≡ p.old.steps + 1 }
    ensures place { place_of p.old.procs p.old.index result.to
        ≡ after_access (standing_at p.old (StageOf.Door from greatest))
        (next_access (standing_at p.old (StageOf.Door from greatest))) value }
    ensures done { result.done ≡ (progress (standing_at p.old (StageOf.Door from greatest))
        (next_access (standing_at p.old (StageOf.Door from greatest))) value).done }
    ensures free { result.blocked ≡ (progress (standing_at p.old (StageOf.Door from greatest))
        (next_access (standing_at p.old (StageOf.Door from greatest))) value).blocked }
    ensures numbers { IsLanding p.old result p.new next.old next.new }
{
    let own = p.index;
    let second = p.position.second;
    match first_other(p.procs, p.index, from) {
        Some(j) if value == 0 => peeks_from(p, j + 1, greatest, steps, next),
        Some(j) => peeks_from(p, j + 1, greatest.max(value), steps, next),
        None if greatest < p.limit => {
            let to = Stage::Shutting {
                call: CoreCall::Lock,
                number: greatest + 1,
            };
            stores(
                p,
                to,
                at(7, greatest + 1, second, 0),
                3 * own,
                0,
                steps,
                next,
            )
        }
        None => runs_out(p, steps, next),
    }
}

/// After a look at process `j`.
// Inline: each scan step, the hottest.
#[inline(always)]
fn after_look(
    p: &mut RmeProcess,
    number: u64,
    from: u64,
    j: u64,
    value: u64,
    steps: u64,
    next: &mut RmeAccess,
) -> Landing
    requires below { p.old.index < p.old.procs }
    requires few { p.old.procs ≤ 64 }
    requires steps { steps ≡ p.old.steps + 1 }
    requires first { first_of (above p.old.procs p.old.index from) ≡ Some j }
    requires within { j < p.old.procs }
    ensures place { place_of p.old.procs p.old.index result.to
        ≡ after_access (standing_at p.old (StageOf.Wait number from false))
        (next_access (standing_at p.old (StageOf.Wait number from false))) value }
    ensures done { result.done ≡ (progress (standing_at p.old (StageOf.Wait number from false))
        (next_access (standing_at p.old (StageOf.Wait number from false))) value).done }
    ensures blocked { result.blocked ≡ (progress (standing_at p.old (StageOf.Wait number from false))
        (next_access (standing_at p.old (StageOf.Wait number from false))) value).blocked }
    ensures numbers { IsLanding p.old result p.new next.old next.new }
{
    let second = p.position.second;
    if value != 0 {
        let to = Stage::Wait {
            number,
            next: from,
            looked: false,
        };
        return stays(p, to, at(257, number, second, from), 3 * j, steps, next);
    }
    let to = Stage::Wait {
        number,
        next: from,
        looked: true,
    };
    loads(p, to, at(258, number, second, from), 3 * j + 1, steps, next)
}

/// After a weigh of process `j`.
// Inline: each scan step, the hottest.
#[inline(always)]
fn after_weigh(
    p: &mut RmeProcess,
    number: u64,
    from: u64,
    j: u64,
    value: u64,
    steps: u64,
    next: &mut RmeAccess,
) -> Landing
    requires below { p.old.index < p.old.procs }
    requires few { p.old.procs ≤ 64 }
    requires steps { steps ≡ p.old.steps + 1 }
    requires first { first_of (above p.old.procs p.old.index from) ≡ Some j }
    requires within { j < p.old.procs }
    ensures place { place_of p.old.procs p.old.index result.to
        ≡ after_access (standing_at p.old (StageOf.Wait number from true))
        (next_access (standing_at p.old (StageOf.Wait number from true))) value }
    ensures done { result.done ≡ (progress (standing_at p.old (StageOf.Wait number from true))
        (next_access (standing_at p.old (StageOf.Wait number from true))) value).done }
    ensures blocked { result.blocked ≡ (progress (standing_at p.old (StageOf.Wait number from true))
        (next_access (standing_at p.old (StageOf.Wait number from true))) value).blocked }
    ensures numbers { IsLanding p.old result p.new next.old next.new }
{
    let second = p.position.second;
    if value == 0 {
        return looks_from(p, number, j + 1, steps, next);
    }
    if passes(number, p.index, value, j) {
        return looks_from(p, number, j + 1, steps, next);
    }
    let to = Stage::Wait {
        number,
        next: from,
        looked: true,
    };
    stays(p, to, at(258, number, second, from), 3 * j + 1, steps, next)
}

/// After a step of a wait: a look, a weigh, or the mark after the last weigh.
// Inline: each scan step, the hottest.
#[inline(always)]
fn after_wait(
    p: &mut RmeProcess,
    number: u64,
    from: u64,
    looked: bool,
    value: u64,
    steps: u64,
    next: &mut RmeAccess,
) -> Landing
    requires below { p.old.index < p.old.procs }
    requires few { p.old.procs ≤ 64 }
    requires steps { steps ≡ p.old.steps + 1 }
    ensures place { place_of p.old.procs p.old.index result.to
        ≡ after_access (standing_at p.old (StageOf.Wait number from looked))
        (next_access (standing_at p.old (StageOf.Wait number from looked))) value }
    ensures done { result.done ≡ (progress (standing_at p.old (StageOf.Wait number from looked))
        (next_access (standing_at p.old (StageOf.Wait number from looked))) value).done }
    ensures blocked { result.blocked ≡ (progress (standing_at p.old (StageOf.Wait number from looked))
        (next_access (standing_at p.old (StageOf.Wait number from looked))) value).blocked }
    ensures numbers { IsLanding p.old result p.new next.old next.new }
{
    match first_other(p.procs, p.index, from) {
        Some(j) if looked => after_weigh(p, number, from, j, value, steps, next),
        Some(j) => after_look(p, number, from, j, value, steps, next),
        None => comes_in(p, steps, next),
    }
}

/// A step that `LockProcess` takes.
fn by_machine(p: &mut RmeProcess, stage: Stage, value: u64, next: &mut RmeAccess) -> Landing
    requires below { p.old.index < p.old.procs }
    requires few { p.old.procs ≤ 64 }
    ensures place { place_of p.old.procs p.old.index result.to
        ≡ after_access (standing_at p.old stage) (next_access (standing_at p.old stage)) value }
    ensures done { result.done ≡ (progress (standing_at p.old stage) (next_access (standing_at p.old stage)) value).done }
    ensures blocked { result.blocked ≡ (progress (standing_at p.old stage) (next_access (standing_at p.old stage)) value).blocked }
    ensures numbers { IsLanding p.old result p.new next.old next.new }
{
    let mut machine = LockProcess::new(p.procs, p.limit, p.index);
    machine.seam_machine_state(stage);
    let progress = machine.feed(value);
    lands(p, machine.stage(), progress.done, progress.blocked, next)
}

/// Takes a step of a scan. None: the stage is no scan's, and nothing changed.
// Inline: each scan step, the hottest.
#[inline(always)]
fn scan_step(
    p: &mut RmeProcess,
    stage: Stage,
    value: u64,
    steps: u64,
    next: &mut RmeAccess,
) -> Option<Landing>
    requires below { p.old.index < p.old.procs }
    requires few { p.old.procs ≤ 64 }
    requires steps { steps ≡ p.old.steps + 1 }
    ensures place { IfSome result (λ r. place_of p.old.procs p.old.index r.to
        ≡ after_access (standing_at p.old stage) (next_access (standing_at p.old stage)) value) }
    ensures done { IfSome result (λ r. r.done
        ≡ (progress (standing_at p.old stage) (next_access (standing_at p.old stage)) value).done) }
    ensures blocked { IfSome result (λ r. r.blocked ≡ (progress (standing_at p.old stage)
        (next_access (standing_at p.old stage)) value).blocked) }
    ensures numbers { IfSome result (λ r. IsLanding p.old r p.new next.old next.new) }
    ensures busy { IfSome result (λ _. is_idle (place_of p.old.procs p.old.index stage) ≡ false) }
    ensures none { result ≡ None → (p.new ≡ p.old) × (next.new ≡ next.old) }
{
    match stage {
        Stage::Door {
            next: from,
            greatest,
        } => Some(after_door(p, from, greatest, value, steps, next)),
        Stage::Wait {
            number,
            next: from,
            looked,
        } => Some(after_wait(p, number, from, looked, value, steps, next)),
        _ => None,
    }
}

/// Takes a step of the lock's part, if it is a scan's. None: it isn't, and nothing changed.
// Inline: each scan step, the hottest.
#[inline(always)]
pub fn scan_feed(
    p: &mut RmeProcess,
    stage: Stage,
    value: u64,
    steps: u64,
    next: &mut RmeAccess,
) -> Option<u64>
    requires here { position_of p.old ≡ Position.Lock stage }
    requires fits { FitsPosition p.old (Position.Lock stage) }
    requires steps { steps ≡ p.old.steps + 1 }
    ensures fed { IfSome result (λ code. IsFed p.old value p.new next.old next.new code) }
    ensures none { result ≡ None → (p.new ≡ p.old) × (next.new ≡ next.old) }
{
    match scan_step(p, stage, value, steps, next) {
        Some(landing) => Some(landing.code),
        None => None,
    }
}

/// Takes any step of the lock's part.
pub fn lock_feed(p: &mut RmeProcess, stage: Stage, value: u64, next: &mut RmeAccess) -> u64
    requires here { position_of p.old ≡ Position.Lock stage }
    requires fits { FitsPosition p.old (Position.Lock stage) }
    requires busy { is_none (next_access_of (machine_state_at p.old (Position.Lock stage))) ≡ false }
    ensures { IsFed p.old value p.new next.old next.new result }
{
    by_machine(p, stage, value, next).code
}
