//! The second line of a text: what the algorithm promises.

ghost use Rattle.std.specs.Prelude.{◌≡◌, ◌<◌, ◌≤◌, ◌-◌, ◌^◌, ◌∷◌, [], length, Some, MatchResult, IfOk, IfErr, IfSome, IfNone};
ghost use Rattle.std.specs.Option.{option_map};
ghost use Rattle.algorithms.specs.declared.fault.ReadFault.TheVariants.{BadForm as NoForm, OutOfMemory as NoMemory};
ghost use Rattle.algorithm_texts.specs.Parts.{term_of};
ghost use Rattle.algorithm_texts.specs.Operands.{RefusesAs, names_of, scope_of};
ghost use Rattle.algorithm_texts.specs.LineFaults.{doorway_fault, further_promises_fault, more_fault, new_bound_fault, promise_fault, promises_fault, promises_list_fault, step_bound_fault, within_fault};
ghost use Rattle.algorithm_texts.specs.PromiseLines.{SaysMore, brackets_after, empty_scope, ends_promise, first_promises, new_bound, promise_at_front, promise_parts, promise_size, promises_said, read_further_promises, read_more, read_most_inside, read_promises, read_step_bound, read_within, with_bounds, with_doorway, with_exit, with_freedom, with_promise, with_promises, with_recovery};

use crate::calls::empty_algorithm;
use crate::constants::is_bound;
use crate::operands::form_fault;
use crate::parts::{after, after_sign, after_word, check_end, number_at, split_value};
use crate::tokens::{Sign, Token, Tokens, is_sign, is_word};
use crate::values::value;
use algorithms::algorithm::{Algorithm, ProgressPromise, Promises, StepBounds};
use algorithms::expression::Expression;
use algorithms::fault::ReadFault;
use std::alloc::Global;

/// What the second line of a text says.
#[derive(Debug, Drop)]
pub struct SecondLine {
    pub promises: Promises,
    pub step_bounds: StepBounds,
}

/// Whether a further promise comes next, and the tokens after it.
fn promise_at_front<'t>(tokens: &'t [Token], word: &[u8]) -> (bool, &'t [Token])
    ensures { promise_at_front tokens.now word.now ≡ (result.0, result.1.now) }
{
    if is_sign(tokens.first(), Sign::Comma) && is_word(tokens.get(1), word) {
        (true, after(tokens, 2))
    } else {
        (false, tokens)
    }
}

/// An algorithm in which nothing is declared.
fn nothing_declared(alloc: Global) -> Result<Algorithm, ReadFault>
    ensures ok { IfOk result (λ a. (scope_of a ≡ empty_scope) × (names_of a ≡ [])) }
    ensures err { IfErr result (λ fault. fault ≡ NoMemory) }
{
    empty_algorithm(alloc, b"", 0, 0)
}

/// The value of a bound on own steps, up to the end of the tokens. The second line comes before all declarations.
fn step_bound(alloc: Global, tokens: &[Token]) -> Result<Expression, ReadFault>
    ensures { MatchResult result (λ most. read_step_bound tokens.now ≡ Some (term_of most))
        (λ fault. RefusesAs fault (read_step_bound tokens.now) (step_bound_fault tokens.now)) }
{
    let mut algorithm = nothing_declared(alloc)?;
    let (part, rest) = split_value(tokens);
    let most = value(alloc, &mut algorithm, part)?;
    if rest.is_empty() && (is_bound(&most) && algorithm.names.is_empty()) {
        Ok(most)
    } else {
        Err(form_fault(most))
    }
}

/// Reads `within VALUE`, up to the end.
fn within(alloc: Global, tokens: &[Token]) -> Result<Expression, ReadFault>
    ensures { MatchResult result (λ most. read_within tokens.now ≡ Some (term_of most))
        (λ fault. RefusesAs fault (read_within tokens.now) (within_fault tokens.now)) }
{
    step_bound(alloc, after_word(tokens, b"within")?)
}

/// A bound on the own steps of a section that has none so far.
fn new_bound(
    alloc: Global,
    before: &Option<Expression>,
    tokens: &[Token],
) -> Result<Expression, ReadFault>
    ensures { MatchResult result
        (λ most. new_bound (option_map (λ v. term_of v) before.now) tokens.now ≡ Some (term_of most))
        (λ fault. RefusesAs fault (new_bound (option_map (λ v. term_of v) before.now) tokens.now)
        (new_bound_fault (option_map (λ v. term_of v) before.now) tokens.now)) }
{
    match before {
        Some(_) => Err(ReadFault::BadForm),
        None => within(alloc, tokens),
    }
}

/// Adds a bound on the exit.
fn add_exit(alloc: Global, said: &mut SecondLine, tokens: &[Token]) -> Result<(), ReadFault>
    ensures { SaysMore (promises_said said.new) result (with_exit (promises_said said.old) tokens.now)
        (new_bound_fault (promises_said said.old).step_bounds.exit tokens.now) }
{
    let most = new_bound(alloc, &said.step_bounds.exit, tokens)?;
    said.step_bounds.exit = Some(most);
    Ok(())
}

/// Adds a bound on the recovery.
fn add_recovery(alloc: Global, said: &mut SecondLine, tokens: &[Token]) -> Result<(), ReadFault>
    ensures { SaysMore (promises_said said.new) result (with_recovery (promises_said said.old) tokens.now)
        (new_bound_fault (promises_said said.old).step_bounds.recovery tokens.now) }
{
    let most = new_bound(alloc, &said.step_bounds.recovery, tokens)?;
    said.step_bounds.recovery = Some(most);
    Ok(())
}

/// Adds a bound on the doorway, which needs `order`.
fn add_doorway(alloc: Global, said: &mut SecondLine, tokens: &[Token]) -> Result<(), ReadFault>
    ensures { SaysMore (promises_said said.new) result (with_doorway (promises_said said.old) tokens.now)
        (doorway_fault (promises_said said.old) tokens.now) }
{
    if !said.promises.order {
        return Err(ReadFault::BadForm);
    }
    let most = new_bound(alloc, &said.step_bounds.doorway, tokens)?;
    said.step_bounds.doorway = Some(most);
    Ok(())
}

/// Adds this promise on calls under way, after the first of its two words. One of the two is said at most.
fn add_freedom(
    said: &mut SecondLine,
    progress: ProgressPromise,
    tokens: &[Token],
) -> Result<(), ReadFault>
    ensures { SaysMore (promises_said said.new) result (with_freedom (promises_said said.old) progress tokens.now) NoForm }
{
    check_end(after_word(tokens, b"freedom")?)?;
    if said.promises.progress.is_some() {
        return Err(ReadFault::BadForm);
    }
    said.promises.progress = Some(progress);
    Ok(())
}

/// Adds `bounds`.
fn add_bounds(said: &mut SecondLine, tokens: &[Token]) -> Result<(), ReadFault>
    ensures { SaysMore (promises_said said.new) result (with_bounds (promises_said said.old) tokens.now) NoForm }
{
    check_end(tokens)?;
    if said.promises.bounds {
        return Err(ReadFault::BadForm);
    }
    said.promises.bounds = true;
    Ok(())
}

/// Adds a promise that is not said so far: `exit within VALUE`, `recovery within VALUE`, `doorway within VALUE`, `deadlock freedom`,
/// `starvation freedom` or `bounds`.
fn add_promise(alloc: Global, said: &mut SecondLine, tokens: &[Token]) -> Result<(), ReadFault>
    ensures { SaysMore (promises_said said.new) result (with_promise (promises_said said.old) tokens.now)
        (promise_fault (promises_said said.old) tokens.now) }
{
    let rest = after(tokens, 1);
    if is_word(tokens.first(), b"exit") {
        add_exit(alloc, said, rest)
    } else if is_word(tokens.first(), b"recovery") {
        add_recovery(alloc, said, rest)
    } else if is_word(tokens.first(), b"doorway") {
        add_doorway(alloc, said, rest)
    } else if is_word(tokens.first(), b"deadlock") {
        add_freedom(said, ProgressPromise::DeadlockFreedom, rest)
    } else if is_word(tokens.first(), b"starvation") {
        add_freedom(said, ProgressPromise::StarvationFreedom, rest)
    } else if is_word(tokens.first(), b"bounds") {
        add_bounds(said, rest)
    } else {
        Err(ReadFault::BadForm)
    }
}

/// How many brackets are open after this token, where this number is before it.
fn brackets_after(opened: usize, token: &Token) -> usize
    requires { opened < 2 ^ 64 - 1 }
    ensures { result ≡ brackets_after opened token.now }
{
    if is_sign(Some(token), Sign::Open) {
        opened + 1
    } else if is_sign(Some(token), Sign::Close) {
        opened.saturating_sub(1)
    } else {
        opened
    }
}

/// Whether a promise ends before this token, where this number of brackets is open.
fn ends_promise(opened: usize, token: &Token) -> bool
    ensures { result ≡ ends_promise opened token.now }
{
    opened == 0 && is_sign(Some(token), Sign::Comma)
}

/// How many tokens come before the first comma outside of brackets.
fn promise_size(tokens: &[Token]) -> usize
    ensures size { result ≡ promise_size tokens.now }
    ensures few { result ≤ length tokens.now }
{
    let mut size = 0;
    let mut opened = 0;
    for token in tokens {
        if ends_promise(opened, token) {
            return size;
        }
        opened = brackets_after(opened, token);
        size += 1;
    }
    size
}

/// The tokens of the first promise and those after its comma, where there is one.
#[tactic(auto, using(crate::proofs::PromiseLists::comma_next, crate::proofs::PromiseLists::comma_last))]
fn before_comma(tokens: &[Token]) -> Option<(&[Token], &[Token])>
    ensures parts { IfSome result (λ parts. promise_parts tokens.now ≡ parts.0.now ∷ promise_parts parts.1.now) }
    ensures fewer { IfSome result (λ parts. length parts.1.now < length tokens.now) }
    ensures last { IfNone result (promise_parts tokens.now ≡ tokens.now ∷ []) }
{
    let size = promise_size(tokens);
    if size < tokens.len() {
        Some((&tokens[..size], after(tokens, size + 1)))
    } else {
        None
    }
}

/// Adds the promises between commas. A comma in brackets is of a value.
fn add_promises(alloc: Global, said: &mut SecondLine, tokens: &[Token]) -> Result<(), ReadFault>
    ensures { SaysMore (promises_said said.new) result (with_promises (promises_said said.old) (promise_parts tokens.now))
        (promises_list_fault (promises_said said.old) (promise_parts tokens.now)) }
{
    let mut rest = tokens;
    while let Some((part, following)) = before_comma(rest) {
        add_promise(alloc, said, part)?;
        rest = following;
    }
    add_promise(alloc, said, rest)
}

/// Adds the further promises, in any order, each after a comma, up to the end of the line.
fn add_more(alloc: Global, said: &mut SecondLine, tokens: &[Token]) -> Result<(), ReadFault>
    ensures { SaysMore (promises_said said.new) result (read_more (promises_said said.old) tokens.now)
        (more_fault (promises_said said.old) tokens.now) }
{
    if tokens.is_empty() {
        return Ok(());
    }
    add_promises(alloc, said, after_sign(tokens, Sign::Comma)?)
}

/// Reads the most processes inside at once, where it is said: `of NUMBER`. Without it there is one.
fn most_inside(tokens: &[Token]) -> Result<(u64, &[Token]), ReadFault>
    ensures { MatchResult result (λ most. read_most_inside tokens.now ≡ Some (most.0, most.1.now))
        (λ fault. (read_most_inside tokens.now ≡ None) × (fault ≡ NoForm)) }
{
    if !is_word(tokens.first(), b"of") {
        return Ok((1, tokens));
    }
    let Some(most) = number_at(tokens.get(1)) else {
        return Err(ReadFault::BadForm);
    };
    Ok((most, after(tokens, 2)))
}

/// This many inside at once, re-entry and order where they are promised, and nothing else.
fn first_promises(most_inside: u64, reentry: bool, order: bool) -> SecondLine
    ensures { promises_said result ≡ first_promises most_inside reentry order }
{
    SecondLine {
        promises: Promises {
            most_inside,
            reentry,
            order,
            progress: None,
            bounds: false,
        },
        step_bounds: StepBounds {
            exit: None,
            recovery: None,
            doorway: None,
        },
    }
}

/// Reads what follows `exclusion` and its number: `reentry` and `order`, each after a comma, in this order, where they are said, and
/// the further promises.
fn further_promises(
    alloc: Global,
    most_inside: u64,
    tokens: &[Token],
) -> Result<SecondLine, ReadFault>
    ensures { MatchResult result (λ said. read_further_promises most_inside tokens.now ≡ Some (promises_said said))
        (λ fault. RefusesAs fault (read_further_promises most_inside tokens.now) (further_promises_fault most_inside tokens.now)) }
{
    let (reentry, rest) = promise_at_front(tokens, b"reentry");
    let (order, rest) = promise_at_front(rest, b"order");
    let mut said = first_promises(most_inside, reentry, order);
    add_more(alloc, &mut said, rest)?;
    Ok(said)
}

/// Reads the second line: `promises exclusion`, with `of NUMBER` where it is said, and what follows it.
pub fn promises(alloc: Global, line: &Tokens) -> Result<SecondLine, ReadFault>
    ensures { MatchResult result (λ said. read_promises line.now.all.items ≡ Some (promises_said said))
        (λ fault. RefusesAs fault (read_promises line.now.all.items) (promises_fault line.now.all.items)) }
{
    let rest = match after_word(line.all.as_slice(), b"promises") {
        Ok(rest) => rest,
        Err(_) => return Err(ReadFault::NoHeader),
    };
    let (most_inside, rest) = most_inside(after_word(rest, b"exclusion")?)?;
    further_promises(alloc, most_inside, rest)
}
