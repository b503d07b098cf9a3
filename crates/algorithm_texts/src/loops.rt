//! What loops go over, as texts say it.

ghost use Rattle.std.specs.Prelude.{◌≡◌, map, take, drop, position, slice_get, Some, MatchResult, IfOk, IfErr};
ghost use Rattle.algorithms.specs.Ranked.{least_joined, is_at_most};
ghost use Rattle.algorithms.specs.declared.fault.ReadFault.TheVariants.{OutOfMemory as NoMemory};
ghost use Rattle.algorithm_texts.specs.Parts.{term_of};
ghost use Rattle.algorithm_texts.specs.Operands.{RefusesAs};
ghost use Rattle.algorithm_texts.specs.Drafts.{draft_view, form_of, line_of, members_form};
ghost use Rattle.algorithm_texts.specs.FinishedDrafts.{literal_in, least_term, loop_has_round};
ghost use Rattle.algorithm_texts.specs.LineDrafts.{scope_in, with_names, is_fixed, ends_first, first_size, down_at_front, range_of, read_second_end, read_range, read_members, members_in, members_at};
ghost use Rattle.algorithm_texts.specs.LineFaults.{second_end_fault, range_fault, members_fault};

use crate::constants::copy_value;
use crate::lines::Draft;
use crate::operands::form_fault;
use crate::parts::{after, after_word, members_said, split_value};
use crate::tokens::{Token, is_word};
use algorithms::expression::{Expression, Operator};
use algorithms::fault::ReadFault;
use algorithms::line::{AlgorithmLine, LineKind, LocalLine, Members};
use std::alloc::Global;

/// A number that is written as one.
fn literal_in(value: &Expression) -> Option<u64>
    ensures { result ≡ literal_in (term_of value.now) }
{
    match value {
        Expression::Number(number) => Some(*number),
        Expression::Private(_)
        | Expression::Element(..)
        | Expression::Me
        | Expression::Procs
        | Expression::Limit
        | Expression::Joined(..) => None,
    }
}

/// What two values with an operator between them are not below, by what the left one is not below, and the right one, where it is
/// a number.
fn least_joined(operator: Operator, left: u64, right: Option<u64>) -> u64
    ensures { result ≡ least_joined operator left right }
{
    match operator {
        Operator::Difference => match right {
            None => 0,
            Some(right) => left.saturating_sub(right),
        },
        Operator::Sum
        | Operator::Product
        | Operator::Quotient
        | Operator::Remainder
        | Operator::Maximum
        | Operator::Minimum
        | Operator::Within => 0,
    }
}

/// A number that a value is not below, wherever there are at least this number of processes.
fn least_value(least: u64, value: &Expression) -> u64
    ensures { result ≡ least_term least (term_of value.now) }
{
    match value {
        Expression::Number(number) => *number,
        Expression::Procs => least,
        Expression::Private(_) | Expression::Element(..) | Expression::Me | Expression::Limit => 0,
        Expression::Joined(operator, left, right) => {
            least_joined(*operator, least_value(least, left), literal_in(right))
        }
    }
}

/// Whether there is a number, and it is not above another one.
fn is_at_most(left: Option<u64>, right: u64) -> bool
    ensures { result ≡ is_at_most left right }
{
    match left {
        None => false,
        Some(left) => left <= right,
    }
}

/// Whether a loop over these has a round wherever there are at least this number of processes.
pub fn has_round(least: u64, members: &Members) -> bool
    ensures { result ≡ loop_has_round least (members_form members.now) }
{
    match members {
        Members::All => true,
        Members::Others => 2 <= least,
        Members::Lower | Members::Higher => false,
        Members::Up(first, last) => is_at_most(literal_in(first), least_value(least, last)),
        Members::Down(first, last) => is_at_most(literal_in(last), least_value(least, first)),
    }
}

/// A copy of what a loop goes over.
fn copy_members(alloc: Global, members: &Members) -> Result<Members, ReadFault>
    ensures ok { IfOk result (λ copy. members_form copy ≡ members_form members.now) }
    ensures err { IfErr result (λ fault. fault ≡ NoMemory) }
{
    match members {
        Members::All => Ok(Members::All),
        Members::Others => Ok(Members::Others),
        Members::Lower => Ok(Members::Lower),
        Members::Higher => Ok(Members::Higher),
        Members::Up(first, last) => {
            let first = copy_value(alloc, first)?;
            let last = copy_value(alloc, last)?;
            Ok(Members::Up(first, last))
        }
        Members::Down(first, last) => {
            let first = copy_value(alloc, first)?;
            let last = copy_value(alloc, last)?;
            Ok(Members::Down(first, last))
        }
    }
}

/// A copy of what a loop goes over, by its head.
fn members_in(alloc: Global, form: &LineKind) -> Result<Members, ReadFault>
    ensures ok { IfOk result (λ members. members_form members ≡ members_in (form_of form.now)) }
    ensures err { IfErr result (λ fault. fault ≡ NoMemory) }
{
    match form {
        LineKind::Local(LocalLine::First { members, .. }) => copy_members(alloc, members),
        _ => Ok(Members::All),
    }
}

/// A copy of what a loop goes over, by the place of its head.
pub fn members_at(
    alloc: Global,
    lines: &[AlgorithmLine],
    place: usize,
) -> Result<Members, ReadFault>
    ensures ok { IfOk result (λ members. members_form members ≡ members_at (slice_get (map line_of lines.now) place)) }
    ensures err { IfErr result (λ fault. fault ≡ NoMemory) }
{
    match lines.get(place) {
        Some(line) => members_in(alloc, &line.form),
        None => Ok(Members::All),
    }
}

/// Whether a value is made of numbers, `me`, `procs` and `limit` alone.
fn is_fixed(value: &Expression) -> bool
    ensures { result ≡ is_fixed (term_of value.now) }
{
    match value {
        Expression::Number(_) | Expression::Me | Expression::Procs | Expression::Limit => true,
        Expression::Private(_) | Expression::Element(..) => false,
        Expression::Joined(_, left, right) => is_fixed(left) && is_fixed(right),
    }
}

/// Whether the first end of a loop over numbers ends before this token.
fn ends_first(token: &Token) -> bool
    ensures { result ≡ ends_first token.now }
{
    is_word(Some(token), b"to") || is_word(Some(token), b"down")
}

/// The place of the token before which the first end of a loop over numbers ends.
fn first_end(tokens: &[Token]) -> Option<usize>
    ensures { result ≡ position ends_first tokens.now }
{
    tokens.iter().position(|token| ends_first(token))
}

/// The tokens of the first end of a loop over numbers, and those after it.
fn split_first(tokens: &[Token]) -> (&[Token], &[Token])
    ensures first { result.0.now ≡ take (first_size tokens.now) tokens.now }
    ensures rest { result.1.now ≡ drop (first_size tokens.now) tokens.now }
{
    match first_end(tokens) {
        Some(place) => tokens.split_at(place),
        None => tokens.split_at(tokens.len()),
    }
}

/// Whether the numbers of a loop go down, and the tokens after that.
fn down_at_front(tokens: &[Token]) -> (bool, &[Token])
    ensures { down_at_front tokens.now ≡ (result.0, result.1.now) }
{
    if is_word(tokens.first(), b"down") {
        (true, after(tokens, 1))
    } else {
        (false, tokens)
    }
}

/// The numbers between two ends.
fn range_of(down: bool, first: Expression, last: Expression) -> Members
    ensures { members_form result ≡ range_of down (term_of first) (term_of last) }
{
    if down {
        Members::Down(first, last)
    } else {
        Members::Up(first, last)
    }
}

impl Draft {
    /// The numbers of a loop, by the tokens after the first end.
    fn second_end(
        &mut self,
        alloc: Global,
        first: Expression,
        tokens: &[Token],
    ) -> Result<Members, ReadFault>
        ensures members { MatchResult result
            (λ m. read_second_end (scope_in (draft_view self.old)) (term_of first) (draft_view self.old).names tokens.now
            ≡ Some (members_form m, (draft_view self.new).names))
            (λ fault. RefusesAs fault
            (read_second_end (scope_in (draft_view self.old)) (term_of first) (draft_view self.old).names tokens.now)
            (second_end_fault (scope_in (draft_view self.old)) (draft_view self.old).names tokens.now)) }
        ensures kept { draft_view self.new ≡ with_names (draft_view self.new).names (draft_view self.old) }
    {
        let (down, rest) = down_at_front(tokens);
        let (part, rest) = split_value(after_word(rest, b"to")?);
        let last = self.value(alloc, part)?;
        if rest.is_empty() && (is_fixed(&first) && is_fixed(&last)) {
            Ok(range_of(down, first, last))
        } else {
            Err(form_fault((first, last)))
        }
    }

    /// The numbers of a loop, by the tokens after `from`.
    fn range(&mut self, alloc: Global, tokens: &[Token]) -> Result<Members, ReadFault>
        ensures members { MatchResult result
            (λ m. read_range (scope_in (draft_view self.old)) (draft_view self.old).names tokens.now
            ≡ Some (members_form m, (draft_view self.new).names))
            (λ fault. RefusesAs fault (read_range (scope_in (draft_view self.old)) (draft_view self.old).names tokens.now)
            (range_fault (scope_in (draft_view self.old)) (draft_view self.old).names tokens.now)) }
        ensures kept { draft_view self.new ≡ with_names (draft_view self.new).names (draft_view self.old) }
    {
        let (part, rest) = split_first(tokens);
        let first = self.value(alloc, part)?;
        self.second_end(alloc, first, rest)
    }

    /// What a loop goes over: `in MEMBERS`, or `from VALUE to VALUE`, up to the end of the line.
    pub fn members(&mut self, alloc: Global, tokens: &[Token]) -> Result<Members, ReadFault>
        ensures members { MatchResult result
            (λ m. read_members (scope_in (draft_view self.old)) (draft_view self.old).names tokens.now
            ≡ Some (members_form m, (draft_view self.new).names))
            (λ fault. RefusesAs fault (read_members (scope_in (draft_view self.old)) (draft_view self.old).names tokens.now)
            (members_fault (scope_in (draft_view self.old)) (draft_view self.old).names tokens.now)) }
        ensures kept { draft_view self.new ≡ with_names (draft_view self.new).names (draft_view self.old) }
    {
        if is_word(tokens.first(), b"from") {
            self.range(alloc, after(tokens, 1))
        } else {
            members_said(tokens)
        }
    }
}
