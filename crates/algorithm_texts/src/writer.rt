//! Writes an algorithm as a text.

ghost use Rattle.std.specs.Prelude.{◌↔◌, IfOk, IsTrue, string_bytes};
ghost use Rattle.algorithm_texts.specs.Programs.{SpellsAlgorithm};

mod claims;
mod labels;
mod operands;
mod page;
mod places;
mod statements;
mod text_builder;

use crate::likeness::is_alike;
use crate::whole::read_algorithm;
use crate::writer::claims::{put_due_claims, put_other_claims};
use crate::writer::labels::label_places;
use crate::writer::operands::{first_of, put_declared};
use crate::writer::page::AlgorithmText;
use crate::writer::text_builder::TextBuilder;
use algorithms::algorithm::{
    Algorithm, Declaration, Extent, NamedConstant, ProgressPromise, Promises, StepBounds,
};
use algorithms::expression::{Expression, Operator, is_in_row};
use algorithms::fault::AlgorithmFault;
use algorithms::first_values::{FirstValues, InitializedAlgorithm};
use std::alloc::{AllocError, Global};
use thiserror::Error;

/// Why an algorithm was not written.
#[derive(Clone, Copy, Debug, PartialEq, Eq, Error)]
pub enum WritingFault {
    /// The text that was written spells another algorithm, or none.
    #[error("the text would not spell the algorithm")]
    NotSpelled,
    #[error("out of memory")]
    OutOfMemory,
}

impl From<AllocError> for WritingFault {
    fn from(_e: AllocError) -> WritingFault {
        WritingFault::OutOfMemory
    }
}

/// Writes the bounds on own steps.
fn put_step_bounds(text: &mut TextBuilder, bounds: &StepBounds) {
    put_declared_if(text, ", exit within ", bounds.exit.as_ref());
    put_declared_if(text, ", recovery within ", bounds.recovery.as_ref());
    put_declared_if(text, ", doorway within ", bounds.doorway.as_ref());
}

/// Writes what is promised of calls under way, where that is something.
fn put_progress(text: &mut TextBuilder, progress: Option<ProgressPromise>) {
    match progress {
        Some(ProgressPromise::DeadlockFreedom) => text.put(", deadlock freedom"),
        Some(ProgressPromise::StarvationFreedom) => text.put(", starvation freedom"),
        None => {}
    }
}

/// Writes how many processes may be inside at once, where that is not one.
fn put_most_inside(text: &mut TextBuilder, most_inside: u64) {
    if most_inside != 1 {
        text.put(" of ");
        text.put_number(most_inside);
    }
}

/// Writes what is promised.
fn put_promises(text: &mut TextBuilder, promises: Promises, bounds: &StepBounds) {
    text.put("promises exclusion");
    put_most_inside(text, promises.most_inside);
    text.put_when(promises.reentry, ", reentry");
    text.put_when(promises.order, ", order");
    put_step_bounds(text, bounds);
    put_progress(text, promises.progress);
    text.put_when(promises.bounds, ", bounds");
}

/// Writes the first line.
fn put_title(text: &mut TextBuilder, algorithm: &Algorithm) {
    text.put("algorithm ");
    text.put(algorithm.name.as_str());
    text.put(" for ");
    text.put_number(algorithm.least);
    text.put(" to ");
    text.put_number(algorithm.most);
    text.put(" processes");
}

/// Writes the first two lines.
fn put_head(page: &mut AlgorithmText, algorithm: &Algorithm) {
    put_title(&mut page.text, algorithm);
    page.end_line();
    put_promises(&mut page.text, algorithm.promises, &algorithm.step_bounds);
    page.end_line();
}

/// Writes a constant.
fn put_constant(page: &mut AlgorithmText, constant: &NamedConstant) {
    page.text.put("constant ");
    page.text.put(constant.name.as_str());
    page.text.put(" = ");
    put_declared(&mut page.text, &constant.value);
    page.end_line();
}

/// The first value of the words of the declaration at a place, where one is said.
fn start_at(first_values: &Option<FirstValues>, place: usize) -> Option<&Expression> {
    match first_values {
        Some(values) => match values.starts.get(place) {
            Some(Some(start)) => Some(start),
            _ => None,
        },
        None => None,
    }
}

/// Writes a value of a declaration after these words, where there is one.
fn put_declared_if(text: &mut TextBuilder, words: &str, value: Option<&Expression>) {
    if let Some(value) = value {
        text.put(words);
        put_declared(text, value);
    }
}

/// Writes a size in its brackets.
fn put_size(text: &mut TextBuilder, size: &Expression) {
    text.put("[");
    put_declared(text, size);
    text.put("]");
}

/// Writes the sizes of a declaration. The size of a table is the number of its rows, times that of the words in a row.
fn put_sizes(text: &mut TextBuilder, extent: &Extent) {
    match extent {
        Extent::One => {}
        Extent::Each => text.put("[procs]"),
        Extent::Array(size) => put_size(text, size),
        Extent::Table(size, columns) => {
            put_size(text, first_of(Operator::Product, size).unwrap_or(size));
            put_size(text, columns);
        }
    }
}

/// Writes a declaration of a shared word, with this first value.
fn put_shared(text: &mut TextBuilder, declaration: &Declaration, start: Option<&Expression>) {
    text.put("shared ");
    text.put(declaration.name.as_str());
    put_sizes(text, &declaration.extent);
    put_declared_if(text, " up to ", declaration.bound.as_ref());
    put_declared_if(text, " starts ", start);
    put_declared_if(text, " at ", declaration.home.as_ref());
}

/// Writes all constants, and the claims whose lines come before them.
fn put_constants(alloc: Global, page: &mut AlgorithmText, algorithm: &Algorithm) {
    for constant in &algorithm.constants {
        put_due_claims(alloc, page, algorithm);
        put_constant(page, constant);
    }
}

/// Writes all shared words, and the claims whose lines come before them.
fn put_shared_words(alloc: Global, page: &mut AlgorithmText, initialized: &InitializedAlgorithm) {
    let algorithm = &initialized.algorithm;
    let mut place: usize = 0;
    for declaration in &algorithm.declarations {
        put_due_claims(alloc, page, algorithm);
        let start = start_at(&initialized.first_values, place);
        put_shared(&mut page.text, declaration, start);
        page.end_line();
        place = place.saturating_add(1);
    }
}

/// Writes all declarations and claims. Where there is a claim, the shared words come first, which it may name.
fn put_declarations(alloc: Global, page: &mut AlgorithmText, initialized: &InitializedAlgorithm) {
    let algorithm = &initialized.algorithm;
    if algorithm.claims.is_empty() {
        put_constants(alloc, page, algorithm);
        put_shared_words(alloc, page, initialized);
    } else {
        put_shared_words(alloc, page, initialized);
        put_constants(alloc, page, algorithm);
    }
    put_private_names(alloc, page, algorithm);
    put_other_claims(alloc, page, algorithm);
}

/// Writes the names that last, and the claims whose lines come before them.
fn put_private_names(alloc: Global, page: &mut AlgorithmText, algorithm: &Algorithm) {
    let mut place = 0;
    for name in &algorithm.names {
        if place < algorithm.lasting {
            put_lasting(alloc, page, algorithm, place, name.as_str());
            place += 1;
        }
    }
}

/// Writes the row of this first name, where there is one.
fn put_row(page: &mut AlgorithmText, algorithm: &Algorithm, first: usize) {
    for row in &algorithm.rows {
        if row.first == first {
            page.text.put("private ");
            page.text.put(row.name.as_str());
            put_size(&mut page.text, &row.size);
            page.end_line();
        }
    }
}

/// Writes the name at a place, or the row whose first name it is. The other names of a row are in the row.
fn put_lasting(
    alloc: Global,
    page: &mut AlgorithmText,
    algorithm: &Algorithm,
    place: usize,
    name: &str,
) {
    let is_single = !algorithm.rows.iter().any(|row| is_in_row(row.first, place));
    if is_single {
        put_due_claims(alloc, page, algorithm);
        page.text.put("private ");
        page.text.put(name);
        page.end_line();
    } else if algorithm.rows.iter().any(|row| row.first == place) {
        put_due_claims(alloc, page, algorithm);
        put_row(page, algorithm, place);
    }
}

/// Writes all lines of the calls.
fn put_calls(page: &mut AlgorithmText, algorithm: &Algorithm) {
    let mut next = 0;
    for place in 0..algorithm.lines.len() {
        if next <= place {
            next = page.put_place(algorithm, place);
        }
    }
    page.close(algorithm.lines.len());
}

/// A text that may spell the algorithm.
fn draft_text(
    alloc: Global,
    algorithm: &InitializedAlgorithm,
    prefers_else: bool,
) -> Result<String, AllocError> {
    let labels = label_places(alloc, &algorithm.algorithm)?;
    let mut page = AlgorithmText::new(alloc, labels, prefers_else);
    put_head(&mut page, &algorithm.algorithm);
    put_declarations(alloc, &mut page, algorithm);
    put_calls(&mut page, &algorithm.algorithm);
    page.text.into_text()
}

/// Whether a text spells the algorithm.
#[tactic(auto, using(crate::proofs::SameAlgorithms::alike_spelled, crate::proofs::SameAlgorithms::spell_alike))]
fn is_spelled(
    alloc: Global,
    text: &[u8],
    algorithm: &InitializedAlgorithm,
) -> Result<bool, WritingFault>
    ensures { IfOk result (λ spelled. IsTrue spelled ↔ SpellsAlgorithm text.now algorithm.now) }
{
    match read_algorithm(alloc, text) {
        Ok(read) => Ok(is_alike(algorithm, &read)),
        Err(AlgorithmFault::At { .. }) => Ok(false),
        Err(AlgorithmFault::OutOfMemory) => Err(WritingFault::OutOfMemory),
    }
}

/// Writes an algorithm as a text that spells it, with each line at its number.
///
/// What was written is read again before it is answered. `NotSpelled` where it is read as another algorithm, or as none.
pub fn write_algorithm(
    alloc: Global,
    algorithm: &InitializedAlgorithm,
) -> Result<String, WritingFault>
    ensures spells { IfOk result (λ text. SpellsAlgorithm (string_bytes text) algorithm.now) }
{
    let text = draft_text(alloc, algorithm, true)?;
    if is_spelled(alloc, text.as_bytes(), algorithm)? {
        return Ok(text);
    }
    let text = draft_text(alloc, algorithm, false)?;
    if is_spelled(alloc, text.as_bytes(), algorithm)? {
        return Ok(text);
    }
    Err(WritingFault::NotSpelled)
}
