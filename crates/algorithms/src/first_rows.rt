//! The rows of a new world: its first words, and processes at rest.

ghost use Rattle.std.specs.Prelude.{◌≡◌, IfOk, IfErr, length, replicate, slice_get};
ghost use Rattle.algorithms.specs.FirstWords.{row_or_zeros, rows_at_beginning, held_rows, values_to};
ghost use Rattle.algorithms.specs.Worlds.{resting};

use crate::constants::MOST_PROCS;
use crate::expression::NAMES;
use crate::process::{AlgorithmPlace, AlgorithmProcess};
use crate::refusal::AlgorithmRefusal;
use std::alloc::Global;

/// The rows of words that first values give to a world.
#[derive(Drop)]
pub struct FirstRows {
    pub rows: Vec<[u64; MOST_PROCS]>,
}

const RESTING: AlgorithmProcess = AlgorithmProcess {
    place: AlgorithmPlace::Rest,
    store: [0; NAMES],
};

/// As many rows of words as there are declarations, with each word 0.
pub(crate) fn all_zero(
    alloc: Global,
    count: usize,
) -> Result<Vec<[u64; MOST_PROCS]>, AlgorithmRefusal>
    ensures rows { IfOk result (λ rows. rows.items ≡ replicate count (replicate 64 0)) }
    ensures memory { IfErr result (λ e. e ≡ AlgorithmRefusal.OutOfMemory) }
{
    let mut rows = Vec::with_capacity(alloc, count)?;
    for row in 0..count {
        rows.push([0; MOST_PROCS])?;
    }
    Ok(rows)
}

/// The row at a place, or one with each word 0.
fn row_or_zeros(rows: &[[u64; MOST_PROCS]], place: usize) -> [u64; MOST_PROCS]
    ensures { result ≡ row_or_zeros (slice_get rows.now place) }
{
    match rows.get(place) {
        None => [0; MOST_PROCS],
        Some(row) => *row,
    }
}

/// A copy of as many rows as are asked for.
fn rows_copied(
    alloc: Global,
    rows: &[[u64; MOST_PROCS]],
    count: usize,
) -> Result<Vec<[u64; MOST_PROCS]>, AlgorithmRefusal>
    ensures rows { IfOk result (λ copy. copy.items ≡ values_to (λ k. row_or_zeros (slice_get rows.now k)) count) }
    ensures memory { IfErr result (λ e. e ≡ AlgorithmRefusal.OutOfMemory) }
{
    let mut copy = Vec::with_capacity(alloc, count)?;
    for place in 0..count {
        copy.push(row_or_zeros(rows, place))?;
    }
    Ok(copy)
}

/// As many rows as are asked for, as they are at the beginning.
pub fn rows_at_beginning(
    alloc: Global,
    first: &Option<FirstRows>,
    count: usize,
) -> Result<Vec<[u64; MOST_PROCS]>, AlgorithmRefusal>
    ensures rows { IfOk result (λ rows. rows.items ≡ rows_at_beginning (held_rows first.now) count) }
    ensures memory { IfErr result (λ e. e ≡ AlgorithmRefusal.OutOfMemory) }
{
    match first {
        None => all_zero(alloc, count),
        Some(first) => rows_copied(alloc, first.rows.as_slice(), count),
    }
}

/// As many processes as are asked for, each at rest.
pub fn all_at_rest(alloc: Global, count: usize) -> Result<Vec<AlgorithmProcess>, AlgorithmRefusal>
    ensures rows { IfOk result (λ processes. processes.items ≡ replicate count resting) }
    ensures memory { IfErr result (λ e. e ≡ AlgorithmRefusal.OutOfMemory) }
{
    let mut processes = Vec::with_capacity(alloc, count)?;
    for process in 0..count {
        processes.push(RESTING)?;
    }
    Ok(processes)
}

/// Sets each word of these rows to 0.
#[tactic(auto, using(crate::proofs::Worlds::set_next))]
pub(crate) fn zero_all(rows: &mut [[u64; MOST_PROCS]])
    ensures { rows.new ≡ replicate (length rows.old) (replicate 64 0) }
{
    for row in 0..rows.len() {
        rows[row] = [0; MOST_PROCS];
    }
}

/// Sets these rows to the first ones.
fn put_first_rows(words: &mut [[u64; MOST_PROCS]], rows: &[[u64; MOST_PROCS]])
    ensures { words.new ≡ values_to (λ k. row_or_zeros (slice_get rows.now k)) (length words.old) }
{
    for place in 0..words.len() {
        words[place] = row_or_zeros(rows, place);
    }
}

/// Sets these rows as they are at the beginning.
pub fn restart_rows(words: &mut [[u64; MOST_PROCS]], first: &Option<FirstRows>)
    ensures { words.new ≡ rows_at_beginning (held_rows first.now) (length words.old) }
{
    match first {
        None => zero_all(words),
        Some(first) => put_first_rows(words, first.rows.as_slice()),
    }
}

/// Sets each of these processes at rest.
pub fn rest_all(processes: &mut [AlgorithmProcess])
    ensures { processes.new ≡ replicate (length processes.old) resting }
{
    for process in 0..processes.len() {
        processes[process] = RESTING;
    }
}
