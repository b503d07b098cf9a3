//! Rows of bits: process q is in a row where bit q is set.

ghost use Rattle.std.specs.Prelude.{◌≡◌, ℕ, ◌<◌, Bool, true, ◌==◌, length, IfNone, IfSome};
ghost use Rattle.algorithms.specs.declared.remote_references.memory_event.MemoryEvent.TheVariants.{Access, Crash};
ghost use Rattle.algorithms.specs.remote_references.Copies.{copy_change, copy_changes, crash_change, exclusive_change, exclusive_changes, last_or};
ghost use Rattle.algorithms.specs.remote_references.CopyRows.{AreBitsOf, AreRowsOf, IsRowOf, row_number};

use crate::access::{Address, WordAccess};

/// The number of processes of a row.
const PROCESSES: u64 = 64;

/// Whether process p is in the row.
fn has_process(row: u64, p: u64) -> bool
    ensures { (holds : ℕ → Bool) → AreBitsOf row holds → p < 64 → result ≡ holds p }
{
    if p < PROCESSES {
        (row >> p) & 1 == 1
    } else {
        false
    }
}

/// The row of process p alone.
fn row_of_one(p: u64) -> u64
    ensures { AreBitsOf result (λ q. p == q) }
{
    if p < PROCESSES { 1 << p } else { 0 }
}

/// The row without process p.
fn row_without(row: u64, p: u64) -> u64
    ensures { (holds : ℕ → Bool) → AreBitsOf row holds → AreBitsOf result (λ q. last_or (holds q) (crash_change (p == q))) }
{
    if p < PROCESSES { row & !(1 << p) } else { row }
}

/// Who has a copy of a word after an access of it by p.
fn held_after(row: u64, p: u64, stores: bool) -> u64
    ensures { (holds : ℕ → Bool) → AreBitsOf row holds → AreBitsOf result (λ q. last_or (holds q) (copy_change (p == q) stores)) }
{
    let one = row_of_one(p);
    if stores { one } else { row | one }
}

/// Who has an exclusive copy of a word after an access of it by p.
fn exclusive_after(row: u64, p: u64, stores: bool) -> u64
    ensures { (holds : ℕ → Bool) → AreBitsOf row holds
        → AreBitsOf result (λ q. last_or (holds q) (exclusive_change (p == q) stores)) }
{
    let one = row_of_one(p);
    if stores { one } else { row & one }
}

/// The place of a word's row among this many rows, if it has one.
fn place_of(rows: usize, word: Address) -> Option<usize>
    ensures some { IfSome result (λ at. (at ≡ row_number word) × IsRowOf rows word) }
    ensures none { IfNone result (IsRowOf rows word → ⊥) }
{
    let at = word
        .declaration
        .saturating_mul(64)
        .saturating_add(word.index as usize);
    if word.index < PROCESSES && at < rows {
        Some(at)
    } else {
        None
    }
}

/// Whether process p is in the row of a word.
pub(crate) fn has_in(rows: &[u64], word: Address, p: u64) -> bool
    ensures { (holds : Address → ℕ → Bool) → AreRowsOf rows.now holds → IsRowOf (length rows.now) word → p < 64
        → result ≡ holds word p }
{
    match place_of(rows.len(), word) {
        None => false,
        Some(at) => has_process(rows[at], p),
    }
}

/// Changes who has a copy of a word by an access of it by p.
pub(crate) fn note_held(rows: &mut [u64], p: u64, access: WordAccess)
    ensures long { length rows.new ≡ length rows.old }
    ensures rows { (holds : Address → ℕ → Bool) → AreRowsOf rows.old holds
        → AreRowsOf rows.new (λ word q. last_or (holds word q) (copy_changes q word (Access p access))) }
{
    match place_of(rows.len(), access.address) {
        None => {}
        Some(at) => rows[at] = held_after(rows[at], p, access.stores_or_swaps()),
    }
}

/// Changes who has an exclusive copy of a word by an access of it by p.
pub(crate) fn note_exclusive(rows: &mut [u64], p: u64, access: WordAccess)
    ensures long { length rows.new ≡ length rows.old }
    ensures rows { (holds : Address → ℕ → Bool) → AreRowsOf rows.old holds
        → AreRowsOf rows.new (λ word q. last_or (holds word q) (exclusive_changes q word (Access p access))) }
{
    match place_of(rows.len(), access.address) {
        None => {}
        Some(at) => rows[at] = exclusive_after(rows[at], p, access.stores_or_swaps()),
    }
}

/// Takes process p out of each row.
pub(crate) fn remove_process(rows: &mut [u64], p: u64)
    ensures long { length rows.new ≡ length rows.old }
    ensures rows { (holds : Address → ℕ → Bool) → AreRowsOf rows.old holds
        → AreRowsOf rows.new (λ word q. last_or (holds word q) (crash_change (p == q))) }
{
    for row in rows.iter_mut() {
        *row = row_without(*row, p);
    }
}

/// Takes every process out of each row.
pub(crate) fn clear_rows(rows: &mut [u64])
    ensures long { length rows.new ≡ length rows.old }
    ensures rows { (holds : Address → ℕ → Bool) → AreRowsOf rows.old holds
        → AreRowsOf rows.new (λ word q. last_or (holds word q) (crash_change true)) }
{
    for row in rows.iter_mut() {
        *row = 0;
    }
}
