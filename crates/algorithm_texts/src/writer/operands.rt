//! Writes values and conditions, with as few brackets as they need.

use crate::writer::text_builder::TextBuilder;
use algorithms::condition::{Comparison, Condition, Pair};
use algorithms::expression::{Expression, Operator};

/// Writes the name of this index, or nothing where there is none.
pub fn put_name(text: &mut TextBuilder, names: &[String], name: usize) {
    if let Some(name) = names.get(name) {
        text.put(name.as_str());
    }
}

/// Writes the name of a row, by the first of its names, which is `NAME[0]`.
pub fn put_row_name(text: &mut TextBuilder, names: &[String], first: usize) {
    if let Some(name) = names.get(first) {
        if let Some((row, _)) = name.as_str().split_once("[") {
            text.put(row);
        }
    }
}

/// How strongly an operator binds. The two that are written before a bracket bind strongest.
fn strength(operator: Operator) -> u64 {
    match operator {
        Operator::Sum | Operator::Difference => 4,
        Operator::Product | Operator::Quotient | Operator::Remainder | Operator::Within => 5,
        Operator::Maximum | Operator::Minimum => 6,
    }
}

/// What is written between two values. `Within` is not written: no sign spells it but the brackets of an index.
fn operator_text(operator: Operator) -> &'static str {
    match operator {
        Operator::Sum => " + ",
        Operator::Difference => " - ",
        Operator::Product => " * ",
        Operator::Quotient => " / ",
        Operator::Remainder => " mod ",
        Operator::Maximum => "max",
        Operator::Minimum => "min",
        Operator::Within => " within ",
    }
}

/// The first of two values with this operator between them.
pub fn first_of(operator: Operator, value: &Expression) -> Option<&Expression> {
    match value {
        Expression::Joined(own, first, _) if *own == operator => Some(first),
        _ => None,
    }
}

/// The two indexes of a word in a table, by its place: the row times the number of words in a row, and a place within the row.
fn table_indexes(place: &Expression) -> Option<(&Expression, &Expression)> {
    match place {
        Expression::Joined(Operator::Sum, first, second) => {
            let row = first_of(Operator::Product, first)?;
            let column = first_of(Operator::Within, second)?;
            Some((row, column))
        }
        _ => None,
    }
}

/// What is written between two values or pairs that are compared.
fn comparison_text(comparison: Comparison) -> &'static str {
    match comparison {
        Comparison::Equal => " = ",
        Comparison::NotEqual => " != ",
        Comparison::Less => " < ",
        Comparison::AtMost => " <= ",
        Comparison::Greater => " > ",
        Comparison::AtLeast => " >= ",
    }
}

/// Writes a value, in brackets where its last operator binds less strongly than this. Of an index the size that it is below is not
/// written. `me` is the word for the process's number.
fn put_value_of(
    text: &mut TextBuilder,
    names: &[String],
    me: &str,
    value: &Expression,
    least: u64,
) {
    match value {
        Expression::Number(number) => text.put_number(*number),
        Expression::Private(name) => put_name(text, names, *name),
        Expression::Element(row, index) => {
            put_row_name(text, names, *row);
            text.put("[");
            put_value_of(text, names, me, index, 1);
            text.put("]");
        }
        Expression::Me => text.put(me),
        Expression::Procs => text.put("procs"),
        Expression::Limit => text.put("limit"),
        Expression::Joined(Operator::Within, first, _) => {
            put_value_of(text, names, me, first, least);
        }
        Expression::Joined(operator, first, second) => {
            let own = strength(*operator);
            if own > 5 {
                text.put(operator_text(*operator));
                text.put("(");
                put_value_of(text, names, me, first, 1);
                text.put(", ");
                put_value_of(text, names, me, second, 1);
                text.put(")");
            } else {
                text.put_when(own < least, "(");
                put_value_of(text, names, me, first, own);
                text.put(operator_text(*operator));
                put_value_of(text, names, me, second, own.saturating_add(1));
                text.put_when(own < least, ")");
            }
        }
    }
}

/// Writes a value of a line, in brackets where its last operator binds less strongly than this.
pub fn put_value(text: &mut TextBuilder, names: &[String], value: &Expression, least: u64) {
    put_value_of(text, names, "me", value, least);
}

/// Writes an index in its brackets.
pub fn put_index(text: &mut TextBuilder, names: &[String], index: &Expression) {
    text.put("[");
    put_value(text, names, index, 1);
    text.put("]");
}

/// Writes the index or the two indexes of the word at a place in an array.
pub fn put_indexes(text: &mut TextBuilder, names: &[String], place: &Expression) {
    match table_indexes(place) {
        Some((row, column)) => {
            put_index(text, names, row);
            put_index(text, names, column);
        }
        None => put_index(text, names, place),
    }
}

/// Writes a value of a declaration, which has no private name and in which `me` is the index of a word.
pub fn put_declared(text: &mut TextBuilder, value: &Expression) {
    put_value_of(text, &[], "owner", value, 1);
}

/// Writes two values as a pair.
fn put_pair(text: &mut TextBuilder, names: &[String], pair: &Pair) {
    text.put("(");
    put_value(text, names, &pair.first, 1);
    text.put(", ");
    put_value(text, names, &pair.second, 1);
    text.put(")");
}

/// Whether a comparison is that one of these names is 1 which says so of itself.
fn is_so(tests: &[bool], comparison: Comparison, first: &Expression, second: &Expression) -> bool {
    match (first, second) {
        (Expression::Private(name), Expression::Number(1)) => {
            comparison == Comparison::Equal && tests.get(*name).copied() == Some(true)
        }
        _ => false,
    }
}

/// Writes a comparison of two values.
fn put_comparison(
    text: &mut TextBuilder,
    names: &[String],
    comparison: Comparison,
    first: &Expression,
    second: &Expression,
) {
    put_value(text, names, first, 3);
    text.put(comparison_text(comparison));
    put_value(text, names, second, 4);
}

/// Writes a condition, in brackets where its last operator binds less strongly than this. `tests`: which names say of themselves that
/// they are 1.
pub fn put_condition(
    text: &mut TextBuilder,
    names: &[String],
    tests: &[bool],
    condition: &Condition,
    least: u64,
) {
    match condition {
        Condition::Compare(comparison, first, second) => {
            if is_so(tests, *comparison, first, second) {
                put_value(text, names, first, 3)
            } else {
                put_comparison(text, names, *comparison, first, second);
            }
        }
        Condition::ComparePairs(comparison, first, second) => {
            put_pair(text, names, first);
            text.put(comparison_text(*comparison));
            put_pair(text, names, second);
        }
        Condition::And(first, second) => {
            text.put_when(least > 2, "(");
            put_condition(text, names, tests, first, 2);
            text.put(" and ");
            put_condition(text, names, tests, second, 3);
            text.put_when(least > 2, ")");
        }
        Condition::Or(first, second) => {
            text.put_when(least > 1, "(");
            put_condition(text, names, tests, first, 1);
            text.put(" or ");
            put_condition(text, names, tests, second, 2);
            text.put_when(least > 1, ")");
        }
        Condition::Not(condition) => {
            text.put("not (");
            put_condition(text, names, tests, condition, 1);
            text.put(")");
        }
    }
}
