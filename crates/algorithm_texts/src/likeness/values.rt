//! Whether two values or conditions are the same.

ghost use Rattle.std.specs.Prelude.{◌≡◌, ◌↔◌, IsTrue};
ghost use Rattle.std.specs.Option.{option_map};
ghost use Rattle.algorithm_texts.specs.Parts.{term_of, formula_of};

use algorithms::condition::{Condition, Pair};
use algorithms::expression::Expression;

/// Whether two values are the same.
pub fn same_value(left: &Expression, right: &Expression) -> bool
    ensures { IsTrue result ↔ (term_of left.now ≡ term_of right.now) }
{
    match left {
        Expression::Number(number) => {
            if let Expression::Number(other) = right {
                *number == *other
            } else {
                false
            }
        }
        Expression::Private(name) => {
            if let Expression::Private(other) = right {
                *name == *other
            } else {
                false
            }
        }
        Expression::Element(row, index) => {
            if let Expression::Element(other, own) = right {
                *row == *other && same_value(index, own)
            } else {
                false
            }
        }
        Expression::Me => matches!(right, Expression::Me),
        Expression::Procs => matches!(right, Expression::Procs),
        Expression::Limit => matches!(right, Expression::Limit),
        Expression::Joined(operator, first, second) => {
            if let Expression::Joined(other, one, two) = right {
                *operator == *other && (same_value(first, one) && same_value(second, two))
            } else {
                false
            }
        }
    }
}

/// Whether two values are the same, or there is none twice.
pub fn same_value_if(left: &Option<Expression>, right: &Option<Expression>) -> bool
    ensures { IsTrue result ↔ (option_map (λ v. term_of v) left.now ≡ option_map (λ v. term_of v) right.now) }
{
    match left {
        Some(value) => {
            if let Some(other) = right {
                same_value(value, other)
            } else {
                false
            }
        }
        None => right.is_none(),
    }
}

/// Whether two pairs are the same.
fn same_pair(left: &Pair, right: &Pair) -> bool
    ensures { IsTrue result
        ↔ ((term_of left.now.first ≡ term_of right.now.first) × (term_of left.now.second ≡ term_of right.now.second)) }
{
    same_value(&left.first, &right.first) && same_value(&left.second, &right.second)
}

/// Whether two conditions are the same.
pub fn same_condition(left: &Condition, right: &Condition) -> bool
    ensures { IsTrue result ↔ (formula_of left.now ≡ formula_of right.now) }
{
    match left {
        Condition::Compare(comparison, first, second) => match right {
            Condition::Compare(other, one, two) => {
                *comparison == *other && (same_value(first, one) && same_value(second, two))
            }
            _ => false,
        },
        Condition::ComparePairs(comparison, first, second) => match right {
            Condition::ComparePairs(other, one, two) => {
                *comparison == *other && (same_pair(first, one) && same_pair(second, two))
            }
            _ => false,
        },
        Condition::And(first, second) => match right {
            Condition::And(one, two) => same_condition(first, one) && same_condition(second, two),
            _ => false,
        },
        Condition::Or(first, second) => match right {
            Condition::Or(one, two) => same_condition(first, one) && same_condition(second, two),
            _ => false,
        },
        Condition::Not(condition) => match right {
            Condition::Not(other) => same_condition(condition, other),
            _ => false,
        },
    }
}

/// Whether two conditions are the same, or there is none twice.
pub fn same_condition_if(left: &Option<Condition>, right: &Option<Condition>) -> bool
    ensures { IsTrue result ↔ (option_map (λ c. formula_of c) left.now ≡ option_map (λ c. formula_of c) right.now) }
{
    match left {
        Some(condition) => {
            if let Some(other) = right {
                same_condition(condition, other)
            } else {
                false
            }
        }
        None => right.is_none(),
    }
}
