//! What a line does with private names.

ghost use Rattle.std.specs.Prelude.{◌≡◌, ◌||◌};
ghost use Rattle.std.specs.Option.{option_map};
ghost use Rattle.algorithm_texts.specs.Parts.{term_of, formula_of};
ghost use Rattle.algorithm_texts.specs.Drafts.{access_of, act_of, elements_form, form_of, local_form};
ghost use Rattle.algorithm_texts.specs.Usage.{term_reads, formula_reads, formula_reads_if, index_reads, act_reads, elements_read, reads, act_sets, sets, begins_loop, ends_loop, has_usage, may_withdraw};

use algorithms::condition::{Condition, Pair};
use algorithms::expression::Expression;
use algorithms::line::{AccessLine, Action, Elements, LineKind, LocalLine};

/// What a line does with a private name.
#[derive(Clone, Copy)]
pub enum Usage {
    /// It reads the name before it sets it.
    Reads,
    /// It sets the name, which is not that of its loop.
    Sets,
    /// A loop with the name begins.
    Begins,
    /// A loop with the name ends.
    Ends,
}

/// Whether a value reads a name.
fn value_reads(value: &Expression, name: usize) -> bool
    ensures { result ≡ term_reads name (term_of value.now) }
{
    match value {
        Expression::Private(other) => *other == name,
        Expression::Element(_, index) => value_reads(index, name),
        Expression::Joined(_, left, right) => value_reads(left, name) || value_reads(right, name),
        Expression::Number(_) | Expression::Me | Expression::Procs | Expression::Limit => false,
    }
}

/// Whether a condition reads a name.
fn condition_reads(condition: &Condition, name: usize) -> bool
    ensures { result ≡ formula_reads name (formula_of condition.now) }
{
    match condition {
        Condition::Compare(_, left, right) => value_reads(left, name) || value_reads(right, name),
        Condition::ComparePairs(_, left, right) => {
            (value_reads(&left.first, name) || value_reads(&left.second, name))
                || (value_reads(&right.first, name) || value_reads(&right.second, name))
        }
        Condition::And(first, second) => condition_reads(first, name)
            || condition_reads(second, name),
        Condition::Or(first, second) => condition_reads(first, name)
            || condition_reads(second, name),
        Condition::Not(condition) => condition_reads(condition, name),
    }
}

/// Whether a condition reads a name, where there is one.
fn condition_reads_if(condition: &Option<Condition>, name: usize) -> bool
    ensures { result ≡ formula_reads_if name (option_map (λ c. formula_of c) condition.now) }
{
    match condition {
        Some(condition) => condition_reads(condition, name),
        None => false,
    }
}

/// Whether an index reads a name.
fn index_reads(index: &Option<Expression>, name: usize) -> bool
    ensures { result ≡ index_reads name (option_map (λ i. term_of i) index.now) }
{
    match index {
        Some(index) => value_reads(index, name),
        None => false,
    }
}

/// Whether an action reads a name that it has not set.
fn action_reads(action: &Action, name: usize) -> bool
    ensures { result ≡ act_reads name (act_of action.now) }
{
    match action {
        Action::Load { .. } => false,
        Action::Store { value } => value_reads(value, name),
        Action::Await { name: own, until } => *own != name && condition_reads(until, name),
        Action::Swap {
            name: own,
            value,
            guard,
            until,
        } => {
            *own != name
                && (value_reads(value, name)
                    || condition_reads_if(guard, name)
                    || condition_reads_if(until, name))
        }
    }
}

/// Whether a load or a store reads a name, in its index or in its value.
fn access_reads(line: &AccessLine, name: usize) -> bool
    ensures { result ≡ (index_reads name (access_of line.now).word.index || act_reads name (access_of line.now).act) }
{
    index_reads(&line.word.index, name) || action_reads(&line.action, name)
}

/// Whether the index of the values of a row that a line sets, or their number, reads a name.
fn elements_read(elements: &Elements, name: usize) -> bool
    ensures { result ≡ elements_read name (elements_form elements.now) }
{
    match elements {
        Elements::All(size) => value_reads(size, name),
        Elements::At(index) => value_reads(index, name),
    }
}

/// Whether a local line reads a name.
fn local_reads(line: &LocalLine, name: usize) -> bool
    ensures { result ≡ reads name (local_form line.now) }
{
    match line {
        LocalLine::Assign { value, .. } => value_reads(value, name),
        LocalLine::AssignRow {
            elements,
            value,
            ..
        } => elements_read(elements, name) || value_reads(value, name),
        LocalLine::Branch { condition, .. } => condition_reads(condition, name),
        LocalLine::Next { name: own, .. } => *own == name,
        LocalLine::Note(_) | LocalLine::Goto(_) | LocalLine::First { .. } => false,
    }
}

/// Whether a line reads a name before it sets it.
fn reads(form: &LineKind, name: usize) -> bool
    ensures { result ≡ reads name (form_of form.now) }
{
    match form {
        LineKind::Access(line) => access_reads(line, name),
        LineKind::Local(line) => local_reads(line, name),
        LineKind::Done(_) => false,
    }
}

/// Whether a load sets a name.
fn action_sets(action: &Action, name: usize) -> bool
    ensures { result ≡ act_sets name (act_of action.now) }
{
    match action {
        Action::Load { name: own } => *own == name,
        Action::Await { name: own, .. } | Action::Swap { name: own, .. } => *own == name,
        Action::Store { .. } => false,
    }
}

/// Whether a local line sets a name.
fn local_sets(line: &LocalLine, name: usize) -> bool
    ensures { result ≡ sets name (local_form line.now) }
{
    match line {
        LocalLine::Assign { name: own, .. } => *own == name,
        LocalLine::AssignRow { .. }
        | LocalLine::Note(_)
        | LocalLine::Goto(_)
        | LocalLine::Branch { .. }
        | LocalLine::First { .. }
        | LocalLine::Next { .. } => false,
    }
}

/// Whether a line sets a name, which is not that of its loop.
pub fn sets(form: &LineKind, name: usize) -> bool
    ensures { result ≡ sets name (form_of form.now) }
{
    match form {
        LineKind::Access(line) => action_sets(&line.action, name),
        LineKind::Local(line) => local_sets(line, name),
        LineKind::Done(_) => false,
    }
}

/// Whether a loop with this name begins at a line.
pub fn begins_loop(form: &LineKind, name: usize) -> bool
    ensures { result ≡ begins_loop name (form_of form.now) }
{
    match form {
        LineKind::Local(LocalLine::First { name: own, .. }) => *own == name,
        _ => false,
    }
}

/// Whether a loop with this name ends at a line.
pub fn ends_loop(form: &LineKind, name: usize) -> bool
    ensures { result ≡ ends_loop name (form_of form.now) }
{
    match form {
        LineKind::Local(LocalLine::Next { name: own, .. }) => *own == name,
        _ => false,
    }
}

/// Whether a line uses a name so.
pub fn has_usage(form: &LineKind, usage: Usage, name: usize) -> bool
    ensures { result ≡ has_usage usage name (form_of form.now) }
{
    match usage {
        Usage::Reads => reads(form, name),
        Usage::Sets => sets(form, name),
        Usage::Begins => begins_loop(form, name),
        Usage::Ends => ends_loop(form, name),
    }
}

/// Whether a line may end its call by a withdraw.
pub fn may_withdraw(form: &LineKind) -> bool
    ensures { result ≡ may_withdraw (form_of form.now) }
{
    match form {
        LineKind::Access(access) => access.may_withdraw,
        LineKind::Local(_) | LineKind::Done(_) => false,
    }
}
