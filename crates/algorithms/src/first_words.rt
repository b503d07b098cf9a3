//! The words of a world at its beginning, by the first values that are said.

ghost use Rattle.std.specs.Prelude.{◌≡◌, ◌≤◌, Some, IfOk, IfErr, slice_get};
ghost use Rattle.algorithms.specs.FirstWords.{declaration_size, first_value, row_of_values, first_row, rows_said, held_rows, first_rows, has_values, has_row, has_first_words, has_constant, has_constants, is_row_size, has_row_size, has_row_sizes, has_extent, has_extents, has_said_values, has_all_values};

use crate::access::value_within;
use crate::algorithm::{Algorithm, Declaration};
use crate::constants::{Constants, MOST_PROCS};
use crate::expression::{Expression, MOST_ELEMENTS, NAMES};
use crate::extents::or_zero;
use crate::first_rows::FirstRows;
use crate::first_values::FirstValues;
use crate::refusal::AlgorithmRefusal;
use std::alloc::Global;

/// How many words a declaration has, at most 64.
fn declaration_size(declaration: &Declaration, procs: u64, limit: u64) -> u64
    ensures count { result ≡ declaration_size procs limit declaration.now }
    ensures few { result ≤ 64 }
{
    declaration
        .extent
        .length(procs, limit)
        .min(MOST_PROCS as u64)
}

/// The first value of the word at a place. `None`: it is out of range, or above the bound.
fn first_value(
    declaration: &Declaration,
    value: &Expression,
    place: u64,
    procs: u64,
    limit: u64,
) -> Option<u64>
    ensures { result ≡ first_value procs limit declaration.now value.now place }
{
    let me = declaration.extent.owner_at(place, procs, limit);
    let constants = Constants { me, procs, limit };
    value_within(declaration, value, constants, &[0; NAMES])?
}

/// A row with the first values of the words of a declaration, and 0 after them.
fn row_of_values(
    declaration: &Declaration,
    value: &Expression,
    procs: u64,
    limit: u64,
) -> [u64; MOST_PROCS]
    ensures { result ≡ row_of_values procs limit declaration.now (Some value.now) }
{
    let mut row = [0; MOST_PROCS];
    for index in 0..declaration_size(declaration, procs, limit) {
        row[index as usize] = or_zero(first_value(declaration, value, index, procs, limit));
    }
    row
}

/// The row of a declaration, by the first value of its words.
fn declared_row(
    declaration: &Declaration,
    start: &Option<Expression>,
    procs: u64,
    limit: u64,
) -> [u64; MOST_PROCS]
    ensures { result ≡ row_of_values procs limit declaration.now start.now }
{
    match start {
        None => [0; MOST_PROCS],
        Some(value) => row_of_values(declaration, value, procs, limit),
    }
}

/// The row at a place, by the first value of its words.
fn first_row(
    algorithm: &Algorithm,
    values: &FirstValues,
    place: usize,
    procs: u64,
    limit: u64,
) -> [u64; MOST_PROCS]
    ensures { result ≡ first_row procs limit (slice_get algorithm.now.declarations.items place)
        (slice_get values.now.starts.items place) }
{
    match algorithm.declarations.get(place) {
        None => [0; MOST_PROCS],
        Some(declaration) => match values.starts.get(place) {
            None => [0; MOST_PROCS],
            Some(start) => declared_row(declaration, start, procs, limit),
        },
    }
}

/// The rows of all declarations, by these first values.
fn rows_said(
    alloc: Global,
    algorithm: &Algorithm,
    values: &FirstValues,
    procs: u64,
    limit: u64,
) -> Result<FirstRows, AlgorithmRefusal>
    ensures rows { IfOk result (λ first. first.rows.items ≡ rows_said algorithm.now procs limit values.now) }
    ensures memory { IfErr result (λ e. e ≡ AlgorithmRefusal.OutOfMemory) }
{
    let count = algorithm.declarations.len();
    let mut rows = Vec::with_capacity(alloc, count)?;
    for place in 0..count {
        rows.push(first_row(algorithm, values, place, procs, limit))?;
    }
    Ok(FirstRows { rows })
}

/// The rows of all declarations, where first values are said.
pub fn first_rows(
    alloc: Global,
    algorithm: &Algorithm,
    values: &Option<FirstValues>,
    procs: u64,
    limit: u64,
) -> Result<Option<FirstRows>, AlgorithmRefusal>
    ensures rows { IfOk result (λ first. held_rows first ≡ first_rows algorithm.now procs limit values.now) }
    ensures memory { IfErr result (λ e. e ≡ AlgorithmRefusal.OutOfMemory) }
{
    match values {
        None => Ok(None),
        Some(values) => Ok(Some(rows_said(alloc, algorithm, values, procs, limit)?)),
    }
}

/// Whether each word of a declaration has this first value.
#[tactic(auto, using(crate::proofs::FirstWords::below_more))]
fn has_values(declaration: &Declaration, value: &Expression, procs: u64, limit: u64) -> bool
    ensures { result ≡ has_values procs limit declaration.now (Some value.now) }
{
    let mut fit = true;
    for index in 0..declaration_size(declaration, procs, limit) {
        let is_there = first_value(declaration, value, index, procs, limit).is_some();
        fit = fit && is_there;
    }
    fit
}

/// Whether each word of a declaration has a first value.
fn has_declared_row(
    declaration: &Declaration,
    start: &Option<Expression>,
    procs: u64,
    limit: u64,
) -> bool
    ensures { result ≡ has_values procs limit declaration.now start.now }
{
    match start {
        None => true,
        Some(value) => has_values(declaration, value, procs, limit),
    }
}

/// Whether each word of the declaration at a place has a first value.
fn has_row(
    algorithm: &Algorithm,
    values: &FirstValues,
    place: usize,
    procs: u64,
    limit: u64,
) -> bool
    ensures { result ≡ has_row procs limit (slice_get algorithm.now.declarations.items place)
        (slice_get values.now.starts.items place) }
{
    match algorithm.declarations.get(place) {
        None => true,
        Some(declaration) => match values.starts.get(place) {
            None => true,
            Some(start) => has_declared_row(declaration, start, procs, limit),
        },
    }
}

/// Whether each word has a first value.
#[tactic(auto, using(crate::proofs::FirstWords::below_more))]
fn has_first_words(algorithm: &Algorithm, values: &FirstValues, procs: u64, limit: u64) -> bool
    ensures { result ≡ has_first_words algorithm.now procs limit values.now }
{
    let mut fit = true;
    for place in 0..algorithm.declarations.len() {
        let is_there = has_row(algorithm, values, place, procs, limit);
        fit = fit && is_there;
    }
    fit
}

/// Whether the constant at a place has a value at these sizes.
fn has_constant(algorithm: &Algorithm, place: usize, procs: u64, limit: u64) -> bool
    ensures { result ≡ has_constant procs limit (slice_get algorithm.now.constants.items place) }
{
    let me = 0;
    let constants = Constants { me, procs, limit };
    match algorithm.constants.get(place) {
        None => true,
        Some(constant) => constant.value.evaluate(constants, &[0; NAMES]).is_some(),
    }
}

/// Whether each constant has a value at these sizes.
#[tactic(auto, using(crate::proofs::FirstWords::below_more))]
fn has_constants(algorithm: &Algorithm, procs: u64, limit: u64) -> bool
    ensures { result ≡ has_constants algorithm.now procs limit }
{
    let mut fit = true;
    for place in 0..algorithm.constants.len() {
        let is_there = has_constant(algorithm, place, procs, limit);
        fit = fit && is_there;
    }
    fit
}

/// Whether a row of private names may have this size.
fn is_row_size(size: Option<u64>) -> bool
    ensures { result ≡ is_row_size size }
{
    match size {
        None => false,
        Some(size) => 1 <= size && size <= MOST_ELEMENTS as u64,
    }
}

/// Whether the row of private names at a place has a size in these worlds.
fn has_row_size(algorithm: &Algorithm, place: usize, procs: u64, limit: u64) -> bool
    ensures { result ≡ has_row_size procs limit (slice_get algorithm.now.rows.items place) }
{
    let me = 0;
    let constants = Constants { me, procs, limit };
    match algorithm.rows.get(place) {
        None => true,
        Some(row) => is_row_size(row.size.evaluate(constants, &[0; NAMES])),
    }
}

/// Whether each row of private names has a size in these worlds.
#[tactic(auto, using(crate::proofs::FirstWords::below_more))]
fn has_row_sizes(algorithm: &Algorithm, procs: u64, limit: u64) -> bool
    ensures { result ≡ has_row_sizes algorithm.now procs limit }
{
    let mut fit = true;
    for place in 0..algorithm.rows.len() {
        let is_there = has_row_size(algorithm, place, procs, limit);
        fit = fit && is_there;
    }
    fit
}

/// Whether the declaration at a place has words at these sizes.
fn has_extent(algorithm: &Algorithm, place: usize, procs: u64, limit: u64) -> bool
    ensures { result ≡ has_extent procs limit (slice_get algorithm.now.declarations.items place) }
{
    match algorithm.declarations.get(place) {
        None => true,
        Some(declaration) => declaration.extent.has_size(procs, limit),
    }
}

/// Whether each declaration has words at these sizes.
#[tactic(auto, using(crate::proofs::FirstWords::below_more))]
fn has_extents(algorithm: &Algorithm, procs: u64, limit: u64) -> bool
    ensures { result ≡ has_extents algorithm.now procs limit }
{
    let mut fit = true;
    for place in 0..algorithm.declarations.len() {
        let is_there = has_extent(algorithm, place, procs, limit);
        fit = fit && is_there;
    }
    fit
}

/// Whether each constant has a value at these sizes, each row of private names a size, each array words, and each word a first
/// value, where first values are said.
fn has_said_values(
    algorithm: &Algorithm,
    values: &Option<FirstValues>,
    procs: u64,
    limit: u64,
) -> bool
    ensures { result ≡ has_said_values algorithm.now procs limit values.now }
{
    match values {
        None => true,
        Some(values) => {
            has_constants(algorithm, procs, limit)
                && (has_row_sizes(algorithm, procs, limit)
                    && (has_extents(algorithm, procs, limit)
                        && has_first_words(algorithm, values, procs, limit)))
        }
    }
}

/// Whether each bound on own steps has a value at these sizes, and all that is said with first values.
pub fn has_all_values(
    algorithm: &Algorithm,
    values: &Option<FirstValues>,
    procs: u64,
    limit: u64,
) -> bool
    ensures { result ≡ has_all_values algorithm.now procs limit values.now }
{
    algorithm.step_bounds.have_values(procs, limit)
        && has_said_values(algorithm, values, procs, limit)
}
