//! Whether two local lines are the same.

ghost use Rattle.std.specs.Prelude.{◌≡◌, ◌↔◌, IsTrue};
ghost use Rattle.algorithm_texts.specs.Parts.{formula_of, term_of};
ghost use Rattle.algorithm_texts.specs.Drafts.{Assigning, Beginning, Branching, Going, Noting, Repeating, SettingRow, elements_form, local_form, members_form};

use crate::likeness::values::{same_condition, same_value};
use algorithms::condition::Condition;
use algorithms::expression::Expression;
use algorithms::line::{AlgorithmDeed, Elements, LocalLine, Members};

/// Whether two loops go over the same processes or numbers.
fn same_members(left: &Members, right: &Members) -> bool
    ensures { IsTrue result ↔ (members_form left.now ≡ members_form right.now) }
{
    match left {
        Members::All => matches!(right, Members::All),
        Members::Others => matches!(right, Members::Others),
        Members::Lower => matches!(right, Members::Lower),
        Members::Higher => matches!(right, Members::Higher),
        Members::Up(first, last) => {
            if let Members::Up(one, two) = right {
                same_value(first, one) && same_value(last, two)
            } else {
                false
            }
        }
        Members::Down(first, last) => {
            if let Members::Down(one, two) = right {
                same_value(first, one) && same_value(last, two)
            } else {
                false
            }
        }
    }
}

/// Whether a line is this head of a loop.
fn is_first(name: usize, members: &Members, after: usize, line: &LocalLine) -> bool
    ensures { IsTrue result ↔ (Beginning name (members_form members.now) after ≡ local_form line.now) }
{
    if let LocalLine::First {
        name: own,
        members: other,
        after: place,
    } = line
    {
        name == *own && (same_members(members, other) && after == *place)
    } else {
        false
    }
}

/// Whether a line is this end of a loop.
fn is_next(name: usize, members: &Members, body: usize, line: &LocalLine) -> bool
    ensures { IsTrue result ↔ (Repeating name (members_form members.now) body ≡ local_form line.now) }
{
    if let LocalLine::Next {
        name: own,
        members: other,
        body: place,
    } = line
    {
        name == *own && (same_members(members, other) && body == *place)
    } else {
        false
    }
}

/// Whether these are the same values of a row.
fn same_elements(left: &Elements, right: &Elements) -> bool
    ensures { IsTrue result ↔ (elements_form left.now ≡ elements_form right.now) }
{
    match left {
        Elements::All(size) => {
            if let Elements::All(other) = right {
                same_value(size, other)
            } else {
                false
            }
        }
        Elements::At(index) => {
            if let Elements::At(other) = right {
                same_value(index, other)
            } else {
                false
            }
        }
    }
}

/// Whether a line sets this name to this value.
fn is_assignment(name: usize, value: &Expression, line: &LocalLine) -> bool
    ensures { IsTrue result ↔ (Assigning name (term_of value.now) ≡ local_form line.now) }
{
    if let LocalLine::Assign {
        name: own,
        value: other,
    } = line
    {
        name == *own && same_value(value, other)
    } else {
        false
    }
}

/// Whether a line sets these values of a row to this value.
fn is_row_set(row: usize, elements: &Elements, value: &Expression, line: &LocalLine) -> bool
    ensures { IsTrue result ↔ (SettingRow row (elements_form elements.now) (term_of value.now) ≡ local_form line.now) }
{
    if let LocalLine::AssignRow {
        row: own,
        elements: these,
        value: other,
    } = line
    {
        row == *own && (same_elements(elements, these) && same_value(value, other))
    } else {
        false
    }
}

/// Whether a line notes this deed.
fn is_note(deed: AlgorithmDeed, line: &LocalLine) -> bool
    ensures { IsTrue result ↔ (Noting deed ≡ local_form line.now) }
{
    if let LocalLine::Note(other) = line {
        deed == *other
    } else {
        false
    }
}

/// Whether a line goes to this place.
fn is_goto(place: usize, line: &LocalLine) -> bool
    ensures { IsTrue result ↔ (Going place ≡ local_form line.now) }
{
    if let LocalLine::Goto(other) = line {
        place == *other
    } else {
        false
    }
}

/// Whether a line goes on where this condition holds, and else to this place.
fn is_branch(condition: &Condition, otherwise: usize, line: &LocalLine) -> bool
    ensures { IsTrue result ↔ (Branching (formula_of condition.now) otherwise ≡ local_form line.now) }
{
    if let LocalLine::Branch {
        condition: other,
        otherwise: place,
    } = line
    {
        same_condition(condition, other) && otherwise == *place
    } else {
        false
    }
}

/// Whether two local lines are the same.
pub fn same_local(left: &LocalLine, right: &LocalLine) -> bool
    ensures { IsTrue result ↔ (local_form left.now ≡ local_form right.now) }
{
    match left {
        LocalLine::Assign { name, value } => is_assignment(*name, value, right),
        LocalLine::AssignRow {
            row,
            elements,
            value,
        } => is_row_set(*row, elements, value, right),
        LocalLine::Note(deed) => is_note(*deed, right),
        LocalLine::Goto(place) => is_goto(*place, right),
        LocalLine::Branch {
            condition,
            otherwise,
        } => is_branch(condition, *otherwise, right),
        LocalLine::First {
            name,
            members,
            after,
        } => is_first(*name, members, *after, right),
        LocalLine::Next {
            name,
            members,
            body,
        } => is_next(*name, members, *body, right),
    }
}
