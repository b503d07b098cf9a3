//! Runs: accesses that follow one another as long as each load reads 0. C is given a run as one number, makes its accesses in
//! order up to the first word that is not 0, and feeds what it has read in one call.

ghost use Rattle.std.specs.Prelude.{◌≡◌, ◌≢◌, ◌+◌, ◌*◌, ◌<◌, ◌≤◌, IfSome, Some, None, true, false, is_none, if◌then◌else◌, length};
ghost use Rattle.rmecore.specs.Machine.{first as first_of};
ghost use Rattle.rmecore.specs.Place.{above};
ghost use Rattle.rmecore.specs.declared.core_call.CoreCall.TheVariants as CallOf;
ghost use Rattle.rmecore.specs.declared.stage.Stage.TheVariants as StageOf;
ghost use Rattle.rmeworld.specs.MachineState.{next_access};
ghost use Rattle.rme_c.specs.Codes.{code_after_step as reports_of};
ghost use Rattle.rme_c.specs.Positions.{layout_of, machine_state_at, machine_state_of, position_of, FitsPosition};
ghost use Rattle.rme_c.specs.Runs.{counted_of, fed_zeros, run_code, run_by, next_run as run_next, run_for, run_or, feed_code, BeginsBelow, CallGoesOn, IsNextRun, IsFedRun, IsWholeCall};
ghost use Rattle.rme_c.specs.Starts.{size_cause};
ghost use Rattle.rme_c.specs.declared.position.Position.TheVariants as Position;
ghost use Rattle.rme_c.specs.declared.runs.AccessRun.TheVariants as RunOf;
ghost use Rattle.rmeworld.specs.declared.call.Call.TheVariants as CallStart;

use crate::exports::{check_feed, rme_feed, stage_feed};
use crate::position::{at, lock_stage};
use crate::process::{RmeAccess, RmeProcess};
use rmecore::rules::first_other;
use rmecore::{CoreCall, Stage};

/// Counts from here on take the long way, where they are added with care.
pub(crate) const MANY: u64 = 1 << 62;

/// Accesses that come one after another as long as each load reads 0.
#[derive(Clone, Copy)]
pub enum AccessRun {
    /// All of a lock that reads nothing but zeros, up to its ruin check.
    Locks,
    /// Opens the doorway, and reads the numbers of all others.
    Opens,
    /// Reads the numbers of the others from this process on.
    Peeks(u64),
    /// Takes this number, shuts the doorway, and reads choosing and number of each other.
    Takes(u64),
    /// Reads choosing and number of each other from this process on.
    Looks(u64),
    /// Marks itself inside, and reads whether the lock is ruined.
    Marks,
    /// Gives up its number and its mark.
    Leaves,
}

/// The run that begins a call, if one does.
// Inline: once in each run.
#[inline(always)]
fn first_run(p: &RmeProcess, call: CoreCall) -> Option<AccessRun>
    requires { FitsPosition p.now (Position.Lock (StageOf.ReadingChoosing call)) }
    ensures is { IfSome result (λ r. IsNextRun (machine_state_at p.now (Position.Lock (StageOf.ReadingChoosing call)))
        p.now.procs p.now.index r) }
    ensures next { result ≡ run_next (machine_state_at p.now (Position.Lock (StageOf.ReadingChoosing call))) }
    ensures below { IfSome result BeginsBelow }
{
    match call {
        CoreCall::Lock if p.limit > 0 => Some(AccessRun::Locks),
        _ => None,
    }
}

/// The run that begins in a doorway, if one does.
// Inline: once in each run.
#[inline(always)]
fn door_run(p: &RmeProcess, next: u64, greatest: u64) -> Option<AccessRun>
    requires { FitsPosition p.now (Position.Lock (StageOf.Door next greatest)) }
    ensures is { IfSome result (λ r. IsNextRun (machine_state_at p.now (Position.Lock (StageOf.Door next greatest)))
        p.now.procs p.now.index r) }
    ensures next { result ≡ run_next (machine_state_at p.now (Position.Lock (StageOf.Door next greatest))) }
    ensures below { IfSome result BeginsBelow }
{
    match first_other(p.procs, p.index, next) {
        Some(j) => Some(AccessRun::Peeks(j)),
        None if greatest < p.limit => Some(AccessRun::Takes(greatest + 1)),
        None => None,
    }
}

/// The run that begins with a look at this process. None: it was taken already.
// Inline: once in each run.
#[inline(always)]
fn look_run(j: u64, looked: bool) -> Option<AccessRun>
    ensures { result ≡ if looked then None else Some (RunOf.Looks j) }
{
    if looked {
        None
    } else {
        Some(AccessRun::Looks(j))
    }
}

/// The run that begins in a wait, if one does.
// Inline: once in each run.
#[inline(always)]
fn wait_run(p: &RmeProcess, number: u64, next: u64, looked: bool) -> Option<AccessRun>
    requires { FitsPosition p.now (Position.Lock (StageOf.Wait number next looked)) }
    ensures is { IfSome result (λ r. IsNextRun (machine_state_at p.now (Position.Lock (StageOf.Wait number next looked)))
        p.now.procs p.now.index r) }
    ensures next { result ≡ run_next (machine_state_at p.now (Position.Lock (StageOf.Wait number next looked))) }
    ensures below { IfSome result BeginsBelow }
{
    // For the proof alone: its value is read.
    let _ = number;
    match first_other(p.procs, p.index, next) {
        Some(j) => look_run(j, looked),
        None => Some(AccessRun::Marks),
    }
}

/// The run that begins at a stage, if one does.
// Inline: once in each run.
#[inline(always)]
fn run_at(p: &RmeProcess, stage: Stage) -> Option<AccessRun>
    requires { FitsPosition p.now (Position.Lock stage) }
    ensures is { IfSome result (λ r. IsNextRun (machine_state_at p.now (Position.Lock stage)) p.now.procs p.now.index r) }
    ensures next { result ≡ run_next (machine_state_at p.now (Position.Lock stage)) }
    ensures below { IfSome result BeginsBelow }
{
    match stage {
        Stage::ReadingChoosing { call } => first_run(p, call),
        Stage::Opening => Some(AccessRun::Opens),
        Stage::Door { next, greatest } => door_run(p, next, greatest),
        Stage::Wait {
            number,
            next,
            looked,
        } => wait_run(p, number, next, looked),
        Stage::Leaving => Some(AccessRun::Leaves),
        _ => None,
    }
}

/// The run that begins where the process is, if one does.
// Inline: once in each run.
#[inline(always)]
fn run_now(p: &RmeProcess) -> Option<AccessRun>
    ensures is { IfSome result (λ r. IsNextRun (machine_state_of p.now) p.now.procs p.now.index r) }
    ensures next { result ≡ run_next (machine_state_of p.now) }
    ensures below { IfSome result BeginsBelow }
{
    run_at(p, lock_stage(p)?)
}

/// The code of a run. The number that it takes is the value of `next`.
// Inline: once in each run.
#[inline(always)]
fn code(run: AccessRun, next: &mut RmeAccess) -> u64
    requires { BeginsBelow run }
    ensures is { result ≡ run_code run }
    ensures back { run_by result next.new.value ≡ run }
    ensures beyond { 256 ≤ result }
{
    match run {
        AccessRun::Locks => 384,
        AccessRun::Opens => 385,
        AccessRun::Takes(number) => {
            next.value = number;
            386
        }
        AccessRun::Marks => 387,
        AccessRun::Leaves => 388,
        AccessRun::Peeks(j) => 256 + j,
        AccessRun::Looks(j) => 320 + j,
    }
}

/// After all of a lock that read nothing but zeros, with what its ruin check read.
// Inline: once in each lock.
#[inline(always)]
fn after_lock_run(
    p: &mut RmeProcess,
    zeros: u64,
    value: u64,
    steps: u64,
    next: &mut RmeAccess,
) -> u64
    requires here { position_of p.old ≡ Position.Lock (StageOf.ReadingChoosing CallOf.Lock) }
    requires below { p.old.index < p.old.procs }
    requires few { p.old.procs ≤ 64 }
    requires eight { length p.old.value ≡ 8 }
    requires some { 0 < p.old.limit }
    requires whole { zeros ≡ 3 * p.old.procs + 4 }
    requires sound { value ≢ 1 }
    requires steps { steps ≡ p.old.steps + zeros + 1 }
    ensures fed { IsFedRun (fed_zeros zeros (counted_of p.old)) value p.new next.new result }
    ensures code { result ≡ feed_code (reports_of (fed_zeros zeros (counted_of p.old)).machine value) (machine_state_of p.new) }
{
    let q = p.position;
    p.unmended = 0;
    p.position = at(16, q.first, q.second, q.third);
    p.steps += zeros;
    check_feed(p, value, steps, next)
}

/// After a doorway that read nothing but zeros: the least number is taken.
// Inline: once in each lock.
#[inline(always)]
fn after_doorway_run(
    p: &mut RmeProcess,
    zeros: u64,
    value: u64,
    steps: u64,
    next: &mut RmeAccess,
) -> u64
    requires here { position_of p.old ≡ Position.Lock StageOf.Opening }
    requires below { p.old.index < p.old.procs }
    requires few { p.old.procs ≤ 64 }
    requires whole { zeros + 1 ≡ p.old.procs }
    requires some { 0 < p.old.limit }
    requires zero { value ≡ 0 }
    requires steps { steps ≡ p.old.steps + zeros + 1 }
    ensures fed { IsFedRun (fed_zeros zeros (counted_of p.old)) value p.new next.new result }
    ensures code { result ≡ feed_code (reports_of (fed_zeros zeros (counted_of p.old)).machine value) (machine_state_of p.new) }
{
    // For the proof alone: its value is read.
    let _ = (zeros, value);
    p.position = at(256, 0, p.position.second, p.procs);
    p.steps = steps;
    code(AccessRun::Takes(1), next)
}

/// After a number was taken, and nothing but zeros read of the others: the mark comes next.
// Inline: once in each lock.
#[inline(always)]
fn after_take_run(
    p: &mut RmeProcess,
    from: u64,
    greatest: u64,
    zeros: u64,
    value: u64,
    steps: u64,
    next: &mut RmeAccess,
) -> u64
    requires here { position_of p.old ≡ Position.Lock (StageOf.Door from greatest) }
    requires read { first_of (above p.old.procs p.old.index from) ≡ None }
    requires below { p.old.index < p.old.procs }
    requires few { p.old.procs ≤ 64 }
    requires whole { zeros + 1 ≡ 2 * p.old.procs }
    requires free { greatest < p.old.limit }
    requires zero { value ≡ 0 }
    requires steps { steps ≡ p.old.steps + zeros + 1 }
    ensures fed { IsFedRun (fed_zeros zeros (counted_of p.old)) value p.new next.new result }
    ensures code { result ≡ feed_code (reports_of (fed_zeros zeros (counted_of p.old)).machine value) (machine_state_of p.new) }
{
    // For the proof alone: its value is read.
    let _ = (zeros, value, from);
    p.position = at(257, greatest + 1, p.position.second, p.procs);
    p.steps = steps;
    code(AccessRun::Marks, next)
}

/// After the mark that ends a wait, with what the ruin check read.
// Inline: once in each lock.
#[inline(always)]
fn after_mark_run(
    p: &mut RmeProcess,
    number: u64,
    from: u64,
    zeros: u64,
    value: u64,
    steps: u64,
    next: &mut RmeAccess,
) -> u64
    requires here { position_of p.old ≡ Position.Lock (StageOf.Wait number from false) }
    requires read { first_of (above p.old.procs p.old.index from) ≡ None }
    requires below { p.old.index < p.old.procs }
    requires few { p.old.procs ≤ 64 }
    requires eight { length p.old.value ≡ 8 }
    requires one { zeros ≡ 1 }
    requires sound { value ≢ 1 }
    requires steps { steps ≡ p.old.steps + zeros + 1 }
    ensures fed { IsFedRun (fed_zeros zeros (counted_of p.old)) value p.new next.new result }
    ensures code { result ≡ feed_code (reports_of (fed_zeros zeros (counted_of p.old)).machine value) (machine_state_of p.new) }
{
    // For the proof alone: its value is read.
    let _ = (number, from, zeros);
    let q = p.position;
    p.unmended = 0;
    p.position = at(16, q.first, q.second, q.third);
    p.steps += 1;
    check_feed(p, value, steps, next)
}

/// After both stores of an exit.
// Inline: once in each unlock.
#[inline(always)]
fn after_exit_run(
    p: &mut RmeProcess,
    zeros: u64,
    value: u64,
    steps: u64,
    next: &mut RmeAccess,
) -> u64
    requires here { position_of p.old ≡ Position.Lock StageOf.Leaving }
    requires below { p.old.index < p.old.procs }
    requires few { p.old.procs ≤ 64 }
    requires eight { length p.old.value ≡ 8 }
    requires one { zeros ≡ 1 }
    requires steps { steps ≡ p.old.steps + zeros + 1 }
    ensures fed { IsFedRun (fed_zeros zeros (counted_of p.old)) value p.new next.new result }
    ensures code { result ≡ feed_code (reports_of (fed_zeros zeros (counted_of p.old)).machine value) (machine_state_of p.new) }
{
    // For the proof alone: its value is read.
    let _ = zeros;
    let q = p.position;
    p.position = at(13, q.first, q.second, 2);
    p.steps += 1;
    let stage = Stage::Unmarking {
        call: CoreCall::Unlock,
    };
    stage_feed(p, stage, value, steps, next)
}

/// Takes both steps of an unlock with nothing to mend.
// Inline: once in each unlock.
#[inline(always)]
pub fn leave(p: &mut RmeProcess, next: &mut RmeAccess) -> u64
    requires here { position_of p.old ≡ Position.Lock StageOf.Inside }
    requires below { p.old.index < p.old.procs }
    requires few { p.old.procs ≤ 64 }
    requires eight { length p.old.value ≡ 8 }
    requires mended { p.old.unmended ≡ 0 }
    requires sized { size_cause (layout_of p.old) p.old.limit p.old.index ≡ None }
    ensures left { IsWholeCall (machine_state_of p.old) CallStart.Unlock RunOf.Leaves 1 p.new next.new result }
    ensures unlocked { result ≡ 21 }
{
    let q = p.position;
    p.barred = 0;
    p.position = at(13, q.first, q.second, 2);
    p.steps = 1;
    let stage = Stage::Unmarking {
        call: CoreCall::Unlock,
    };
    stage_feed(p, stage, 0, 2, next)
}

/// Takes the steps of a whole run of which each reads 0, or of one that ends its call. A lock that is found ruined goes on, so it
/// is another feed. None: it is another feed, and nothing changed.
// Inline: once in each run.
#[inline(always)]
fn whole_run(
    p: &mut RmeProcess,
    stage: Stage,
    zeros: u64,
    value: u64,
    steps: u64,
    next: &mut RmeAccess,
) -> Option<u64>
    requires here { position_of p.old ≡ Position.Lock stage }
    requires fits { FitsPosition p.old (Position.Lock stage) }
    requires eight { length p.old.value ≡ 8 }
    requires steps { steps ≡ p.old.steps + zeros + 1 }
    ensures fed { IfSome result (λ r. IsFedRun (fed_zeros zeros (counted_of p.old)) value p.new next.new r) }
    ensures code { IfSome result
        (λ r. r ≡ feed_code (reports_of (fed_zeros zeros (counted_of p.old)).machine value) (machine_state_of p.new)) }
    ensures none { result ≡ None → (p.new ≡ p.old) × (next.new ≡ next.old) }
    ensures busy { result ≢ None → is_none (next_access (machine_state_of p.old)) ≡ false }
{
    match stage {
        Stage::ReadingChoosing {
            call: CoreCall::Lock,
        } if zeros == 3 * p.procs + 4 && value != 1 && p.limit > 0 => {
            Some(after_lock_run(p, zeros, value, steps, next))
        }
        Stage::Opening if zeros + 1 == p.procs && value == 0 && p.limit > 0 => {
            Some(after_doorway_run(p, zeros, value, steps, next))
        }
        Stage::Door {
            next: from,
            greatest,
        } if zeros + 1 == 2 * p.procs && value == 0 && greatest < p.limit => {
            match first_other(p.procs, p.index, from) {
                None => Some(after_take_run(p, from, greatest, zeros, value, steps, next)),
                Some(_) => None,
            }
        }
        Stage::Wait {
            number,
            next: from,
            looked: false,
        } if zeros == 1 && value != 1 => match first_other(p.procs, p.index, from) {
            None => Some(after_mark_run(p, number, from, zeros, value, steps, next)),
            Some(_) => None,
        },
        Stage::Leaving if zeros == 1 => Some(after_exit_run(p, zeros, value, steps, next)),
        _ => None,
    }
}

/// Feeds that many zeros one by one.
fn feed_zeros(p: &mut RmeProcess, zeros: u64, next: &mut RmeAccess)
    ensures fed { counted_of p.new ≡ fed_zeros zeros (counted_of p.old) }
    ensures kept { is_none (next_access (machine_state_of p.old)) ≡ true → p.new ≡ p.old }
{
    for k in 0..zeros {
        // For the proof alone: its value is read.
        let _ = k;
        let _ = rme_feed(p, 0, next);
    }
}

/// The run that comes next after a feed with this code, if one does.
// Inline: once in each run.
#[inline(always)]
fn next_run(p: &RmeProcess, reports: u64) -> Option<AccessRun>
    ensures goes { IfSome result (λ _. CallGoesOn reports) }
    ensures is { IfSome result (λ r. IsNextRun (machine_state_of p.now) p.now.procs p.now.index r) }
    ensures next { result ≡ run_for reports (machine_state_of p.now) }
    ensures below { IfSome result BeginsBelow }
{
    if reports == 0 || reports >= 64 {
        run_now(p)
    } else {
        None
    }
}

/// Feeds that many zeros and then the value one by one, and answers the run that comes next, if one does.
// Apart: keeps a common run small.
#[inline(never)]
fn fed_singly(p: &mut RmeProcess, zeros: u64, value: u64, next: &mut RmeAccess) -> u64
    ensures fed { IsFedRun (fed_zeros zeros (counted_of p.old)) value p.new next.new result }
    ensures code { result ≡ feed_code (reports_of (fed_zeros zeros (counted_of p.old)).machine value) (machine_state_of p.new) }
    ensures kept { is_none (next_access (machine_state_of p.old)) ≡ true → p.new ≡ p.old }
{
    feed_zeros(p, zeros, next);
    let reports = rme_feed(p, value, next);
    match next_run(p, reports) {
        Some(run) => code(run, next),
        None => reports,
    }
}

/// Takes the steps of a run: that many that read 0, and one more, with this value.
// Inline: the export's body.
#[inline(always)]
pub fn feed_run(p: &mut RmeProcess, zeros: u64, value: u64, next: &mut RmeAccess) -> u64
    requires eight { length p.old.value ≡ 8 }
    ensures fed { IsFedRun (fed_zeros zeros (counted_of p.old)) value p.new next.new result }
    ensures code { result ≡ feed_code (reports_of (fed_zeros zeros (counted_of p.old)).machine value) (machine_state_of p.new) }
    ensures kept { is_none (next_access (machine_state_of p.old)) ≡ true → p.new ≡ p.old }
{
    if p.steps >= MANY || zeros >= MANY {
        return fed_singly(p, zeros, value, next);
    }
    let steps = p.steps + zeros + 1;
    match lock_stage(p) {
        Some(stage) => match whole_run(p, stage, zeros, value, steps, next) {
            Some(code) => code,
            None => fed_singly(p, zeros, value, next),
        },
        None => fed_singly(p, zeros, value, next),
    }
}

/// The run that comes next after a start, by its code. 0: none.
// Inline: the export's body.
#[inline(always)]
pub fn run_at_start(p: &RmeProcess, next: &mut RmeAccess) -> u64
    ensures run { 256 ≤ result → IsNextRun (machine_state_of p.now) p.now.procs p.now.index (run_by result next.new.value) }
    ensures code { result ≡ run_or 0 (run_next (machine_state_of p.now)) }
    ensures few { result < 256 → (result ≡ 0) × (next.new ≡ next.old) }
{
    match run_now(p) {
        Some(run) => code(run, next),
        None => 0,
    }
}
