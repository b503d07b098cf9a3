//! The ahead sets as rows of bits: process q is in the set if bit q is set.

ghost use Rattle.std.specs.Prelude.{◌≡◌, ◌≢◌, ℕ, ◌<◌, ◌≤◌, Bool, true, false, ◌==◌, if◌then◌else◌, length, map, slice_index, slice_index_or, [], All, IfOk, IfErr};
ghost use Rattle.std.specs.Int.{bit_at};
ghost use Rattle.rmecore.specs.Needs.{least_below, put};
ghost use Rattle.rmecore.specs.AbstractLock.{is_ready};
ghost use Rattle.judge.specs.Kept.{Lists, HasBits, HasRows, row_word};
ghost use Rattle.judge.specs.Starts.{is_named};

use crate::place;
use rmecore::{Phase, Refusal};
use std::alloc::Global;

/// Whether bit q is set.
fn has(row: u64, q: u64) -> bool
    requires { q < 64 }
    ensures { result ≡ (bit_at row q == 1) }
{
    (row >> q) & 1 == 1
}

/// The least process in the row, or `procs` if the row has none.
pub(crate) fn least_in(row: u64, procs: u64) -> u64
    requires { procs ≤ 64 }
    ensures { (f : ℕ → Bool) → HasBits row procs f → result ≡ least_below procs f }
{
    for q in 0..procs {
        if has(row, q) {
            return q;
        }
    }
    procs
}

/// The row with the bits of the first `procs` processes alone.
pub(crate) fn only_first(row: u64, procs: u64) -> u64
    requires { procs ≤ 64 }
    ensures { (f : ℕ → Bool) → HasBits row procs f → result ≡ row_word procs f }
{
    if procs < 64 { row % (1 << procs) } else { row }
}

/// The row with bit q alone, if `holds`. Else the empty row.
pub(crate) fn flag(holds: bool, q: u64) -> u64
    requires { q < 64 }
    ensures bit { bit_at result q ≡ (if holds then 1 else 0) }
    ensures others { (i : ℕ) → i ≢ q → bit_at result i ≡ 0 }
{
    if holds { 1 << q } else { 0 }
}

/// The row of the processes that are ready.
pub(crate) fn ready_row(phases: &[Phase]) -> u64
    requires { length phases.now ≤ 64 }
    ensures { (n : ℕ) (f : ℕ → Phase) → length phases.now ≡ n
        → Lists phases.now n f → HasBits result n (λ q. is_ready (f q)) }
{
    let mut row = 0u64;
    for q in 0..phases.len() {
        row |= flag(place::is_ready(phases[q]), q as u64);
    }
    row
}

/// The row of these processes.
fn row_of(names: &[u64]) -> u64
    requires { All (λ q. q < 64) names.now }
    ensures { HasBits result 64 (is_named names.now) }
{
    let mut row = 0;
    for name in names {
        row |= flag(true, *name);
    }
    row
}

/// The row of each set.
pub(crate) fn rows_of(alloc: Global, sets: &[Vec<u64>]) -> Result<Vec<u64>, Refusal>
    requires { All (All (λ q. q < 64)) (map (λ names. names.items) sets.now) }
    ensures len { IfOk result (λ rows. length rows.items ≡ length sets.now) }
    ensures rows { IfOk result (λ rows. (p : ℕ) → p < length sets.now
        → HasBits (slice_index rows.items p) 64 (is_named (slice_index_or (map (λ names. names.items) sets.now) p []))) }
    ensures only { IfErr result (λ refusal. refusal ≡ Refusal.OutOfMemory) }
{
    let mut rows = Vec::new(alloc);
    for names in sets {
        rows.push(row_of(names))?;
    }
    Ok(rows)
}

/// Takes process p out of each row.
pub(crate) fn clear_column(rows: &mut [u64], p: u64)
    requires few { length rows.old ≤ 64 }
    requires below { p < length rows.old }
    ensures { (n : ℕ) (a : ℕ → ℕ → Bool) → length rows.old ≡ n
        → HasRows rows.old n a → HasRows rows.new n (λ q. put (a q) p false) }
{
    for row in rows.iter_mut() {
        *row &= !(1 << p);
    }
}
