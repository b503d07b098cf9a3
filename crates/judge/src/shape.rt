//! Checks of sizes and of a start. They do not allocate.

ghost use Rattle.std.specs.Prelude.{◌≡◌, ℕ, ◌+◌, ◌<◌, ◌≤◌, ◌↔◌, ◌⊎◌, true, All, IsTrue, IfSome, IsSome, IfErr, IsErrOf, OnOk, length, count_by, map, slice_index, is_none};
ghost use Rattle.rmecore.specs.AbstractLock.{is_ready as is_at_ready};
ghost use Rattle.redomail.specs.Mailbox.{is_by};
ghost use Rattle.judge.specs.Kept.{Lists};
ghost use Rattle.judge.specs.Starts.{IsWithin, phase_in, IsNextMessage, AreNumbered, LockHolds, MailHolds};

use crate::place;
use crate::start::Start;
use redomail::Message;
use rmecore::{Phase, Refusal};

/// Refuses sizes outside the limits.
pub(crate) fn check_sizes(procs: u64, cap: u64) -> Result<(), Refusal>
    ensures within { OnOk result (IsWithin procs cap) }
    ensures procs { IsErrOf result Refusal.BadProcs ↔ ((procs ≡ 0) ⊎ (64 < procs)) }
    ensures cap { IsErrOf result Refusal.BadCap ↔ ((0 < procs) × (procs ≤ 64) × ((cap ≡ 0) ⊎ (65536 < cap))) }
    ensures only { IfErr result (λ r. (r ≡ Refusal.BadProcs) ⊎ (r ≡ Refusal.BadCap)) }
{
    if procs == 0 || procs > 64 {
        return Err(Refusal::BadProcs);
    }
    if cap == 0 || cap > 65536 {
        return Err(Refusal::BadCap);
    }
    Ok(())
}

/// Whether all counts are at most `most`.
pub(crate) fn all_within(counts: &[u64], most: u64) -> bool
    ensures { IsTrue result ↔ ((p : ℕ) → p < length counts.now → slice_index counts.now p ≤ most) }
{
    for count in counts {
        if *count > most {
            return false;
        }
    }
    true
}

/// A process's phase. An index past the list is out.
fn phase_at(phases: &[Phase], p: u64) -> Phase
    ensures { result ≡ phase_in phases.now p }
{
    phases.get(p as usize).copied().unwrap_or(Phase::Out)
}

/// Whether all these processes are ready.
fn all_ready(phases: &[Phase], names: &[u64]) -> bool
    ensures { IsTrue result ↔ All (λ q. is_at_ready (phase_in phases.now q) ≡ true) names.now }
{
    for name in names {
        if !place::is_ready(phase_at(phases, *name)) {
            return false;
        }
    }
    true
}

/// Whether the message has its sender's next number, for these counts.
fn is_next(counts: &[u64; 64], procs: u64, message: &Message) -> bool
    requires { procs ≤ 64 }
    ensures { IsTrue result ↔ ((message.now.sender < procs) × (message.now.seq ≡ slice_index counts.now message.now.sender + 1)) }
{
    message.sender < procs && message.seq.checked_sub(1) == Some(counts[message.sender as usize])
}

/// A count of 0 for each sender.
fn nothing_counted() -> [u64; 64]
    ensures none { Lists result 64 (λ p. 0) }
    ensures len { length result ≡ 64 }
{
    [0; 64]
}

/// The number of messages of each sender. None: some message does not have its sender's next number.
fn message_counts(procs: u64, shown: &[Message]) -> Option<[u64; 64]>
    requires { procs ≤ 64 }
    ensures counts { IfSome result (λ counts. Lists counts 64 (λ p. count_by (is_by p) shown.now)) }
    ensures numbered { IsSome result ↔ AreNumbered procs shown.now }
{
    let mut counts = nothing_counted();
    for message in shown {
        if !is_next(&counts, procs, message) {
            return None;
        }
        counts[message.sender as usize] += 1;
    }
    Some(counts)
}

/// Whether every set has ready processes alone.
fn all_sets_ready(phases: &[Phase], sets: &[Vec<u64>]) -> bool
    ensures { IsTrue result ↔ All (All (λ q. is_at_ready (phase_in phases.now q) ≡ true)) (map (λ names. names.items) sets.now) }
{
    for names in sets {
        if !all_ready(phases, names) {
            return false;
        }
    }
    true
}

/// Whether a judge can start from these phases and sets.
fn lock_holds(start: &Start) -> bool
    ensures { IsTrue result ↔ LockHolds start.now }
{
    let phases = start.phases.as_slice();
    let sets = start.ahead.as_slice();
    if phases.len() as u64 != start.procs || sets.len() as u64 != start.procs {
        return false;
    }
    !place::anyone_inside(phases)
        && place::count_dead_in(phases) <= 1
        && all_sets_ready(phases, sets)
}

/// Whether the start's pending message is possible.
fn pending_holds(start: &Start, counts: &[u64; 64]) -> bool
    requires few { start.now.procs ≤ 64 }
    requires counts { Lists counts.now 64 (λ p. count_by (is_by p) start.now.shown) }
    ensures { IsTrue result ↔ (IfSome start.now.pending
        (λ m. IsNextMessage start.now.procs start.now.shown m × (length start.now.shown < start.now.cap))
        × (start.now.closed ≡ true → is_none start.now.pending ≡ true)) }
{
    match &start.pending {
        None => true,
        Some(message) => {
            !start.closed
                && (start.shown.as_slice().len() as u64) < start.cap
                && is_next(counts, start.procs, message)
        }
    }
}

/// The number of messages shown, for each sender. None: what is shown and pending is not possible.
fn mail_counts(start: &Start) -> Option<[u64; 64]>
    requires { start.now.procs ≤ 64 }
    ensures counts { IfSome result (λ counts. Lists counts 64 (λ p. count_by (is_by p) start.now.shown)) }
    ensures holds { IsSome result ↔ MailHolds start.now }
{
    let shown = start.shown.as_slice();
    let counts = message_counts(start.procs, shown)?;
    if shown.len() as u64 > start.cap || !pending_holds(start, &counts) {
        return None;
    }
    Some(counts)
}

/// The number of messages shown, for each sender. None: no judge of at most 64 processes can start from this.
pub(crate) fn counts(start: &Start) -> Option<[u64; 64]>
    requires { start.now.procs ≤ 64 }
    ensures counts { IfSome result (λ counts. Lists counts 64 (λ p. count_by (is_by p) start.now.shown)) }
    ensures holds { IsSome result ↔ (LockHolds start.now × MailHolds start.now) }
{
    if !lock_holds(start) {
        return None;
    }
    mail_counts(start)
}
