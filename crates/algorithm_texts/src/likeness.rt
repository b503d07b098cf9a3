//! Whether two algorithms are the same in all that a text says of them.

ghost use Rattle.std.specs.Prelude.{◌≡◌, ◌↔◌, IsTrue, map, string_bytes};
ghost use Rattle.std.specs.Option.{option_map};
ghost use Rattle.algorithm_texts.specs.Parts.{term_of};
ghost use Rattle.algorithm_texts.specs.Drafts.{access_of, act_of, answers_of, extent_of, form_of, line_of, start_term, step_terms, word_of};
ghost use Rattle.algorithm_texts.specs.Operands.{names_of, row_of};
ghost use Rattle.algorithm_texts.specs.UnreachedLines.{starts_in};
ghost use Rattle.algorithm_texts.specs.Likeness.{AreOneAlgorithm, AreDeclaredAlike, AreHeadedAlike, AreOneDeclaration, AreSpelledAlike, AreTitledAlike, named_value, named_values};

mod claims;
mod local_lines;
mod values;

use crate::likeness::claims::is_claimed_alike;
use crate::likeness::local_lines::same_local;
use crate::likeness::values::{same_condition, same_condition_if, same_value, same_value_if};
use crate::tokens::spells;
use algorithms::algorithm::{
    Algorithm, Declaration, Entries, Extent, NamedConstant, NamedRow, Promises, StepBounds,
};
use algorithms::expression::Expression;
use algorithms::first_values::{FirstValues, InitializedAlgorithm};
use algorithms::line::{AccessLine, Action, AlgorithmLine, LineKind, WordOf};

/// Whether two shared words are the same.
fn same_word(left: &WordOf, right: &WordOf) -> bool
    ensures { IsTrue result ↔ (word_of left.now ≡ word_of right.now) }
{
    left.declaration == right.declaration && same_value_if(&left.index, &right.index)
}

/// Whether two accesses do the same with their words.
fn same_action(left: &Action, right: &Action) -> bool
    ensures { IsTrue result ↔ (act_of left.now ≡ act_of right.now) }
{
    match (left, right) {
        (Action::Load { name }, Action::Load { name: own }) => *name == *own,
        (Action::Store { value }, Action::Store { value: other }) => same_value(value, other),
        (
            Action::Await { name, until },
            Action::Await {
                name: own,
                until: other,
            },
        ) => { *name == *own && same_condition(until, other) }
        (
            Action::Swap {
                name,
                value,
                guard,
                until,
            },
            Action::Swap {
                name: own,
                value: stored,
                guard: when,
                until: end,
            },
        ) => {
            (*name == *own && same_value(value, stored))
                && (same_condition_if(guard, when) && same_condition_if(until, end))
        }
        _ => false,
    }
}

/// Whether two accesses are the same.
fn same_access(left: &AccessLine, right: &AccessLine) -> bool
    ensures { IsTrue result ↔ (access_of left.now ≡ access_of right.now) }
{
    same_word(&left.word, &right.word)
        && (same_action(&left.action, &right.action) && left.may_withdraw == right.may_withdraw)
}

/// Whether two lines are of one form.
fn same_form(left: &LineKind, right: &LineKind) -> bool
    ensures { IsTrue result ↔ (form_of left.now ≡ form_of right.now) }
{
    match left {
        LineKind::Access(access) => {
            if let LineKind::Access(other) = right {
                same_access(access, other)
            } else {
                false
            }
        }
        LineKind::Local(line) => {
            if let LineKind::Local(other) = right {
                same_local(line, other)
            } else {
                false
            }
        }
        LineKind::Done(answer) => {
            if let LineKind::Done(other) = right {
                *answer == *other
            } else {
                false
            }
        }
    }
}

/// Whether two lines are the same, and have one number.
fn same_line(left: &AlgorithmLine, right: &AlgorithmLine) -> bool
    ensures { IsTrue result ↔ (line_of left.now ≡ line_of right.now) }
{
    left.number == right.number && same_form(&left.form, &right.form)
}

/// Whether these lines are the same.
fn same_lines(left: &[AlgorithmLine], right: &[AlgorithmLine]) -> bool
    ensures { IsTrue result ↔ (map line_of left.now ≡ map line_of right.now) }
{
    let mut place = 0;
    for line in left {
        match right.get(place) {
            Some(other) => {
                if !same_line(line, other) {
                    return false;
                }
            }
            None => return false,
        }
        place += 1;
    }
    place == right.len()
}

/// Whether two names are the same.
fn same_name(left: &String, right: &String) -> bool
    ensures { IsTrue result ↔ (string_bytes left.now ≡ string_bytes right.now) }
{
    spells(left.as_bytes(), right.as_bytes())
}

/// Whether these names are the same.
fn same_names(left: &[String], right: &[String]) -> bool
    ensures { IsTrue result ↔ (map (λ name. string_bytes name) left.now ≡ map (λ name. string_bytes name) right.now) }
{
    let mut place = 0;
    for name in left {
        match right.get(place) {
            Some(other) => {
                if !same_name(name, other) {
                    return false;
                }
            }
            None => return false,
        }
        place += 1;
    }
    place == right.len()
}

/// Whether two declarations have as many words, in rows of as many.
fn same_extent(left: &Extent, right: &Extent) -> bool
    ensures { IsTrue result ↔ (extent_of left.now ≡ extent_of right.now) }
{
    match left {
        Extent::One => matches!(right, Extent::One),
        Extent::Each => matches!(right, Extent::Each),
        Extent::Array(size) => {
            if let Extent::Array(other) = right {
                same_value(size, other)
            } else {
                false
            }
        }
        Extent::Table(size, columns) => {
            if let Extent::Table(other, own) = right {
                same_value(size, other) && same_value(columns, own)
            } else {
                false
            }
        }
    }
}

/// Whether two declarations are the same.
fn same_declaration(left: &Declaration, right: &Declaration) -> bool
    ensures { IsTrue result ↔ AreOneDeclaration left.now right.now }
{
    (same_name(&left.name, &right.name) && same_extent(&left.extent, &right.extent))
        && (same_value_if(&left.bound, &right.bound) && same_value_if(&left.home, &right.home))
}

/// Whether these declarations are the same.
fn same_declarations(left: &[Declaration], right: &[Declaration]) -> bool
    ensures { IsTrue result ↔ AreDeclaredAlike left.now right.now }
{
    let mut place = 0;
    for declaration in left {
        match right.get(place) {
            Some(other) => {
                if !same_declaration(declaration, other) {
                    return false;
                }
            }
            None => return false,
        }
        place += 1;
    }
    place == right.len()
}

/// Whether two constants have one name and the same value.
fn same_constant(left: &NamedConstant, right: &NamedConstant) -> bool
    ensures { IsTrue result ↔ (named_value left.now ≡ named_value right.now) }
{
    left.name.as_bytes() == right.name.as_bytes() && same_value(&left.value, &right.value)
}

/// Whether these constants are the same.
fn same_constants(left: &[NamedConstant], right: &[NamedConstant]) -> bool
    ensures { IsTrue result ↔ (named_values left.now ≡ named_values right.now) }
{
    let mut place = 0;
    for constant in left {
        match right.get(place) {
            Some(other) => {
                if !same_constant(constant, other) {
                    return false;
                }
            }
            None => return false,
        }
        place += 1;
    }
    place == right.len()
}

/// Whether two rows of private names have one name, the same first name and the same size.
fn same_row(left: &NamedRow, right: &NamedRow) -> bool
    ensures { IsTrue result ↔ (row_of left.now ≡ row_of right.now) }
{
    left.name.as_bytes() == right.name.as_bytes()
        && (left.first == right.first && same_value(&left.size, &right.size))
}

/// Whether these rows of private names are the same.
fn same_rows(left: &[NamedRow], right: &[NamedRow]) -> bool
    ensures { IsTrue result ↔ (map row_of left.now ≡ map row_of right.now) }
{
    let mut place = 0;
    for row in left {
        match right.get(place) {
            Some(other) => {
                if !same_row(row, other) {
                    return false;
                }
            }
            None => return false,
        }
        place += 1;
    }
    place == right.len()
}

/// Whether these first values are the same.
fn same_starts(left: &[Option<Expression>], right: &[Option<Expression>]) -> bool
    ensures { IsTrue result ↔ (map start_term left.now ≡ map start_term right.now) }
{
    let mut place = 0;
    for start in left {
        match right.get(place) {
            Some(other) => {
                if !same_value_if(start, other) {
                    return false;
                }
            }
            None => return false,
        }
        place += 1;
    }
    place == right.len()
}

/// Whether the words of two algorithms have the same first values, or all are 0 at the beginning of both.
fn same_first_values(left: &Option<FirstValues>, right: &Option<FirstValues>) -> bool
    ensures { IsTrue result ↔ (starts_in left.now ≡ starts_in right.now) }
{
    match left {
        Some(values) => {
            if let Some(others) = right {
                same_starts(values.starts.as_slice(), others.starts.as_slice())
            } else {
                false
            }
        }
        None => right.is_none(),
    }
}

/// Whether two algorithms begin their calls at the same places.
fn same_entries(left: Entries, right: Entries) -> bool
    ensures { IsTrue result ↔ (left ≡ right) }
{
    (left.lock == right.lock && left.unlock == right.unlock)
        && (left.recover == right.recover && left.withdraw == right.withdraw)
}

/// Whether two algorithms promise the same bounds on own steps.
fn same_step_bounds(left: &StepBounds, right: &StepBounds) -> bool
    ensures { IsTrue result ↔ (step_terms left.now ≡ step_terms right.now) }
{
    same_value_if(&left.exit, &right.exit)
        && (same_value_if(&left.recovery, &right.recovery)
            && same_value_if(&left.doorway, &right.doorway))
}

/// Whether two algorithms promise the same, but for bounds on own steps.
fn same_promises(left: Promises, right: Promises) -> bool
    ensures { IsTrue result ↔ (left ≡ right) }
{
    (left.most_inside == right.most_inside
        && (left.reentry == right.reentry && left.order == right.order))
        && (left.progress == right.progress && left.bounds == right.bounds)
}

/// Whether two algorithms have the same name, numbers of processes and promises.
fn same_title(left: &Algorithm, right: &Algorithm) -> bool
    ensures { IsTrue result ↔ AreTitledAlike left.now right.now }
{
    (same_name(&left.name, &right.name) && same_promises(left.promises, right.promises))
        && same_step_bounds(&left.step_bounds, &right.step_bounds)
        && (left.least == right.least && left.most == right.most)
}

/// Whether two algorithms have the same title, constants, rows of private names, declarations and entries.
fn same_head(left: &Algorithm, right: &Algorithm) -> bool
    ensures { IsTrue result ↔ AreHeadedAlike left.now right.now }
{
    same_title(left, right)
        && (same_constants(left.constants.as_slice(), right.constants.as_slice())
            && same_rows(left.rows.as_slice(), right.rows.as_slice()))
        && same_declarations(left.declarations.as_slice(), right.declarations.as_slice())
        && same_entries(left.entries, right.entries)
}

/// Whether two algorithms have the same private names.
fn same_private_names(left: &Algorithm, right: &Algorithm) -> bool
    ensures { IsTrue result ↔ (names_of left.now ≡ names_of right.now) }
{
    same_names(left.names.as_slice(), right.names.as_slice())
}

/// Whether two algorithms have the same answers.
fn same_answers(left: &Algorithm, right: &Algorithm) -> bool
    ensures { IsTrue result ↔ (answers_of left.now ≡ answers_of right.now) }
{
    same_names(left.answers.as_slice(), right.answers.as_slice())
}

/// Whether two algorithms have the same declarations, names, answers, claims and lines.
fn same_algorithm(left: &Algorithm, right: &Algorithm) -> bool
    ensures { IsTrue result ↔ AreOneAlgorithm left.now right.now }
{
    same_head(left, right)
        && left.lasting == right.lasting
        && (same_private_names(left, right)
            && (same_answers(left, right) && is_claimed_alike(left, right)))
        && same_lines(left.lines.as_slice(), right.lines.as_slice())
}

/// Whether two algorithms are the same in all that a text says of them.
pub fn is_alike(left: &InitializedAlgorithm, right: &InitializedAlgorithm) -> bool
    ensures { IsTrue result ↔ AreSpelledAlike left.now right.now }
{
    same_algorithm(&left.algorithm, &right.algorithm)
        && same_first_values(&left.first_values, &right.first_values)
}
