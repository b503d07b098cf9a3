//! The constants of a text: names for values.

ghost use Rattle.std.specs.Prelude.{◌≡◌, ◌-◌, ◌^◌, min, position, IfOk, IfErr};
ghost use Rattle.std.specs.Option.{option_map};
ghost use Rattle.algorithms.specs.declared.fault.ReadFault.TheVariants.{OutOfMemory as NoMemory};
ghost use Rattle.algorithm_texts.specs.Parts.{term_of};
ghost use Rattle.algorithm_texts.specs.Grammar.{is_name_of, is_constant_name, constant_named};
ghost use Rattle.algorithm_texts.specs.Operands.{named_constants};
ghost use Rattle.algorithm_texts.specs.LineFaults.{constant_form_fault};
ghost use Rattle.algorithm_texts.specs.TextDrafts.{atoms, is_bound, is_constant_value};

use crate::extents::join_values;
use algorithms::algorithm::Algorithm;
use algorithms::expression::Expression;
use algorithms::fault::ReadFault;
use std::alloc::Global;

/// The greatest number of numbers and names in the value of a constant. Each line that names it has a copy of its value.
const MOST_ATOMS: u64 = 16;

/// The place of the constant of this name.
fn constant_place(algorithm: &Algorithm, word: &[u8]) -> Option<usize>
    ensures { result ≡ position (is_name_of word.now) (named_constants algorithm.now) }
{
    algorithm
        .constants
        .iter()
        .position(|constant| constant.name.as_bytes() == word)
}

/// Whether a constant has this name.
pub fn is_constant_name(algorithm: &Algorithm, word: &[u8]) -> bool
    ensures { result ≡ is_constant_name (named_constants algorithm.now) word.now }
{
    constant_place(algorithm, word).is_some()
}

/// A copy of a value.
pub fn copy_value(alloc: Global, value: &Expression) -> Result<Expression, ReadFault>
    ensures ok { IfOk result (λ copy. term_of copy ≡ term_of value.now) }
    ensures err { IfErr result (λ fault. fault ≡ NoMemory) }
{
    match value {
        Expression::Number(number) => Ok(Expression::Number(*number)),
        Expression::Private(name) => Ok(Expression::Private(*name)),
        Expression::Element(row, index) => {
            let index = copy_value(alloc, index)?;
            Ok(Expression::Element(*row, Box::new(alloc, index)?))
        }
        Expression::Me => Ok(Expression::Me),
        Expression::Procs => Ok(Expression::Procs),
        Expression::Limit => Ok(Expression::Limit),
        Expression::Joined(operator, left, right) => {
            let left = copy_value(alloc, left)?;
            let right = copy_value(alloc, right)?;
            join_values(alloc, *operator, left, right)
        }
    }
}

/// A copy of the value of the constant of this name.
pub fn constant_named(
    alloc: Global,
    algorithm: &Algorithm,
    word: &[u8],
) -> Result<Option<Expression>, ReadFault>
    ensures ok { IfOk result (λ value.
        option_map (λ v. term_of v) value ≡ constant_named (named_constants algorithm.now) word.now) }
    ensures err { IfErr result (λ fault. fault ≡ NoMemory) }
{
    let Some(place) = constant_place(algorithm, word) else {
        return Ok(None);
    };
    match algorithm.constants.get(place) {
        None => Ok(None),
        Some(constant) => Ok(Some(copy_value(alloc, &constant.value)?)),
    }
}

/// Whether a value is made of numbers, `procs` and `limit` alone.
pub fn is_bound(value: &Expression) -> bool
    ensures { result ≡ is_bound (term_of value.now) }
{
    match value {
        Expression::Number(_) | Expression::Procs | Expression::Limit => true,
        Expression::Me | Expression::Private(_) | Expression::Element(..) => false,
        Expression::Joined(_, left, right) => is_bound(left) && is_bound(right),
    }
}

/// How many numbers and names a value is made of.
fn atoms(value: &Expression) -> u64
    ensures { result ≡ min (atoms (term_of value.now)) (2 ^ 64 - 1) }
{
    match value {
        Expression::Number(_)
        | Expression::Private(_)
        | Expression::Me
        | Expression::Procs
        | Expression::Limit => 1,
        Expression::Element(_, index) => atoms(index),
        Expression::Joined(_, left, right) => atoms(left).saturating_add(atoms(right)),
    }
}

/// Whether a value may be that of a constant.
pub fn is_constant_value(value: &Expression) -> bool
    ensures { result ≡ is_constant_value (term_of value.now) }
{
    is_bound(value) && atoms(value) <= MOST_ATOMS
}

/// What is wrong with the value of a constant: it is too long, or of another form.
pub fn constant_form_fault(value: &Expression) -> ReadFault
    ensures { result ≡ constant_form_fault (term_of value.now) }
{
    if is_bound(value) && atoms(value) > MOST_ATOMS {
        ReadFault::TooBig
    } else {
        ReadFault::BadForm
    }
}
