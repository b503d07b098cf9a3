//! Steps and starts of the lock's part of a process.

ghost use Rattle.std.specs.Prelude.{◌≡◌, Bool, false, Some, None, IfSome, IsSome};
ghost use Rattle.rmecore.specs.Place.{Inside, Leaving, place_after_start as lock_started};
ghost use Rattle.rmecore.specs.Refused.{start_refusal as lock_refusal};
ghost use Rattle.rmecore.specs.Machine.{place_of, after_access, at_scan, progress, next_access as lock_access, IsAllowed as IsLockAllowed};
ghost use Rattle.rmeworld.specs.ProcessState.{mended_entered};
ghost use Rattle.rmeworld.specs.Entered.{is_entry, mended_done, checks_done};

use rmecore::{CoreCall, CoreDone, Found, LockProcess, Progress, Scan, Stage};

/// A step of the lock's part. The results are its effects, whether the process is mended after it, and whether the ruin
/// check comes next. An entry by a lock is followed by the check. A process that entered again is not mended.
// Inline: one call a step.
#[inline(always)]
pub(crate) fn lock_step(lock: &mut LockProcess, mended: bool, value: u64) -> (Progress, bool, bool)
    ensures lock { lock.new ≡ record lock.old { place = after_access lock.old (lock_access lock.old) value } }
    ensures allowed { IfSome (lock_access lock.old) (IsLockAllowed lock.old) }
    ensures progress { result.0 ≡ progress lock.old (lock_access lock.old) value }
    ensures mended { result.1 ≡ mended_entered mended lock.old.place lock.new.place }
    ensures checks { result.2 ≡ is_entry lock.old.place lock.new.place }
{
    let progress = lock.feed(value);
    let (mended, checks) = entry(progress.done, mended);
    (progress, mended, checks)
}

/// As `lock_step`, for a step of this scan.
// Inline: one call a scan's step.
#[inline(always)]
pub(crate) fn lock_scan(
    lock: &mut LockProcess,
    scan: Scan,
    mended: bool,
    value: u64,
) -> (Progress, bool, bool)
    requires { at_scan lock.old scan ≡ lock.old }
    ensures lock { lock.new ≡ record lock.old { place = after_access lock.old (lock_access lock.old) value } }
    ensures allowed { IfSome (lock_access lock.old) (IsLockAllowed lock.old) }
    ensures progress { result.0 ≡ progress lock.old (lock_access lock.old) value }
    ensures mended { result.1 ≡ mended_entered mended lock.old.place lock.new.place }
    ensures checks { result.2 ≡ is_entry lock.old.place lock.new.place }
{
    let progress = lock.scan_on(scan, value);
    let (mended, checks) = entry(progress.done, mended);
    (progress, mended, checks)
}

/// Takes a step of the lock's part if it is silent: no deed, and not the call's last step. The result is whether it was
/// blocked. None: the step is not silent, and nothing changed.
// Inline: one call a silent step.
#[inline(always)]
pub(crate) fn lock_silently(lock: &mut LockProcess, value: u64) -> Option<bool>
    ensures lock { IsSome result → lock.new ≡ record lock.old { place = after_access lock.old (lock_access lock.old) value } }
    ensures allowed { IfSome (lock_access lock.old) (IsLockAllowed lock.old) }
    ensures progress { IfSome result (λ blocked. progress lock.old (lock_access lock.old) value
        ≡ record { outer = None; done = None; blocked = blocked }) }
    ensures mended { IsSome result → (mended : Bool) → mended_entered mended lock.old.place lock.new.place ≡ mended }
    ensures checks { IsSome result → is_entry lock.old.place lock.new.place ≡ false }
    ensures same { result ≡ None → lock.new ≡ lock.old }
{
    match lock.stage() {
        Stage::ReadingChoosing { call } => {
            let choosing = value;
            lock.seam_machine_state(Stage::ReadingNumber { call, choosing });
            Some(false)
        }
        Stage::ReadingNumber { call, choosing } => {
            lock.seam_machine_state(Stage::ReadingInside {
                call,
                choosing,
                number: value,
            });
            Some(false)
        }
        Stage::ReadingInside {
            call: CoreCall::Lock,
            choosing: 0,
            number,
        } if value == 0 && number != 0 => {
            lock.seam_machine_state(Stage::waiting(number));
            Some(false)
        }
        stage => lock_back(lock, stage, value),
    }
}

/// As `lock_silently`, for any stage: it takes the step, and undoes it if it was not silent.
// Apart: these steps are rarer.
#[inline(never)]
fn lock_back(lock: &mut LockProcess, stage: Stage, value: u64) -> Option<bool>
    requires { lock.old.place ≡ place_of lock.old.procs lock.old.index stage }
    ensures lock { IsSome result → lock.new ≡ record lock.old { place = after_access lock.old (lock_access lock.old) value } }
    ensures allowed { IfSome (lock_access lock.old) (IsLockAllowed lock.old) }
    ensures progress { IfSome result (λ blocked. progress lock.old (lock_access lock.old) value
        ≡ record { outer = None; done = None; blocked = blocked }) }
    ensures mended { IsSome result → (mended : Bool) → mended_entered mended lock.old.place lock.new.place ≡ mended }
    ensures checks { IsSome result → is_entry lock.old.place lock.new.place ≡ false }
    ensures same { result ≡ None → lock.new ≡ lock.old }
{
    let progress = lock.feed(value);
    match progress {
        Progress {
            outer: None,
            done: None,
            blocked,
        } => Some(blocked),
        _ => {
            lock.seam_machine_state(stage);
            None
        }
    }
}

/// From the core's answer: whether the process is mended, and whether the ruin check comes next.
// Inline: one call a step.
#[inline(always)]
fn entry(done: Option<CoreDone>, mended: bool) -> (bool, bool)
    ensures mended { result.0 ≡ mended_done mended done }
    ensures checks { result.1 ≡ checks_done done }
{
    match done {
        Some(CoreDone::In) => (true, true),
        Some(CoreDone::InAgain) => (false, true),
        Some(CoreDone::Found(Found::Inside)) => (false, false),
        _ => (mended, false),
    }
}

/// Starts a call of the lock's part that is not refused.
pub(crate) fn begin_lock(lock: &mut LockProcess, call: CoreCall)
    requires { lock_refusal lock.old.place call ≡ None }
    ensures same { lock.new ≡ record lock.old { place = lock.new.place } }
    ensures started { lock_started lock.old.place call ≡ Some lock.new.place }
{
    let _ = lock.start(call);
}

/// Starts the exit of a process that is inside.
pub(crate) fn leave(lock: &mut LockProcess)
    requires { lock.old.place ≡ Inside }
    ensures { lock.new ≡ record lock.old { place = Leaving } }
{
    let _ = lock.start(CoreCall::Unlock);
}
