//! The first values of shared words, as texts say them, and values in which `owner` is the index of a word.

ghost use Rattle.std.specs.Prelude.{◌≡◌, ◌++◌, ◌∷◌, [], map, take, drop, position, Some, Ok, IfOk, OnOk, IfErr, MatchResult};
ghost use Rattle.std.specs.List.{list_any};
ghost use Rattle.algorithms.specs.declared.fault.ReadFault.TheVariants.{OutOfMemory as NoMemory};
ghost use Rattle.algorithm_texts.specs.Fronts.{is_me};
ghost use Rattle.algorithm_texts.specs.Parts.{term_of};
ghost use Rattle.algorithm_texts.specs.Operands.{RefusesAs};
ghost use Rattle.algorithm_texts.specs.Drafts.{draft_view, start_term};
ghost use Rattle.algorithm_texts.specs.LineDrafts.{scope_in, with_names, read_value};
ghost use Rattle.algorithm_texts.specs.LineFaults.{value_fault, owner_value_fault, start_fault};
ghost use Rattle.algorithm_texts.specs.TextDrafts.{is_starts, bound_size, owner_token, owner_tokens, is_owner_value, read_owner_value, read_start};

use crate::lines::Draft;
use crate::operands::form_fault;
use crate::parts::{after_word, split_value};
use crate::tokens::{LineWord, Token, is_word};
use algorithms::expression::Expression;
use algorithms::fault::ReadFault;
use std::alloc::Global;

/// Whether the first value of a word begins with this token.
fn is_starts(token: &Token) -> bool
    ensures { result ≡ is_starts token.now }
{
    is_word(Some(token), b"starts")
}

/// The place of the token with which the first value of a word begins.
fn starts_place(tokens: &[Token]) -> Option<usize>
    ensures { result ≡ position is_starts tokens.now }
{
    tokens.iter().position(|token| is_starts(token))
}

/// The tokens of a bound, and those of the first value after it.
pub fn split_bound(tokens: &[Token]) -> (&[Token], &[Token])
    ensures bound { result.0.now ≡ take (bound_size tokens.now) tokens.now }
    ensures starts { result.1.now ≡ drop (bound_size tokens.now) tokens.now }
{
    match starts_place(tokens) {
        Some(place) => tokens.split_at(place),
        None => tokens.split_at(tokens.len()),
    }
}

/// A token, with `me` for `owner`.
fn owner_token(token: &Token) -> Result<Token, ReadFault>
    ensures { result ≡ Ok (owner_token token.now) }
{
    if is_word(Some(token), b"owner") {
        Ok(Token::Word(LineWord::of(b"me")?))
    } else {
        Ok(*token)
    }
}

/// Adds a token, with `me` for `owner`.
fn push_owner_token(all: &mut Vec<Token>, token: &Token) -> Result<(), ReadFault>
    ensures ok { OnOk result (all.new.items ≡ all.old.items ++ owner_token token.now ∷ []) }
    ensures err { IfErr result (λ fault. fault ≡ NoMemory) }
{
    all.push(owner_token(token)?)?;
    Ok(())
}

/// The tokens, with `me` for `owner`.
fn owner_tokens(alloc: Global, tokens: &[Token]) -> Result<Vec<Token>, ReadFault>
    ensures ok { IfOk result (λ all. all.items ≡ map owner_token tokens.now) }
    ensures err { IfErr result (λ fault. fault ≡ NoMemory) }
{
    let mut all = Vec::with_capacity(alloc, tokens.len())?;
    for token in tokens {
        push_owner_token(&mut all, token)?;
    }
    Ok(all)
}

/// Whether it is the word `me`.
fn is_me(token: &Token) -> bool
    ensures { result ≡ is_me token.now }
{
    is_word(Some(token), b"me")
}

/// Whether one of the tokens is the word `me`.
pub fn has_me(tokens: &[Token]) -> bool
    ensures { result ≡ list_any is_me tokens.now }
{
    tokens.iter().any(|token| is_me(token))
}

/// Whether a value is made of numbers, `procs`, `limit` and, of an array, the index of the word.
fn is_owner_value(each: bool, value: &Expression) -> bool
    ensures { result ≡ is_owner_value each (term_of value.now) }
{
    match value {
        Expression::Number(_) | Expression::Procs | Expression::Limit => true,
        Expression::Me => each,
        Expression::Private(_) | Expression::Element(..) => false,
        Expression::Joined(_, left, right) => {
            is_owner_value(each, left) && is_owner_value(each, right)
        }
    }
}

impl Draft {
    /// A value in which, of an array, `owner` is the index of the word.
    fn value_by_owner(
        &mut self,
        alloc: Global,
        each: bool,
        tokens: &[Token],
    ) -> Result<Expression, ReadFault>
        ensures value { MatchResult result
            (λ v. read_value (scope_in (draft_view self.old)) (draft_view self.old).names (owner_tokens each tokens.now)
            ≡ Some (term_of v, (draft_view self.new).names))
            (λ fault. RefusesAs fault
            (read_value (scope_in (draft_view self.old)) (draft_view self.old).names (owner_tokens each tokens.now))
            (value_fault (scope_in (draft_view self.old)) (draft_view self.old).names (owner_tokens each tokens.now))) }
        ensures kept { draft_view self.new ≡ with_names (draft_view self.new).names (draft_view self.old) }
    {
        if each {
            let owned = owner_tokens(alloc, tokens)?;
            self.value(alloc, owned.as_slice())
        } else {
            self.value(alloc, tokens)
        }
    }

    /// A value after this word, in which `owner` may be the index of the word of an array, up to the end of the tokens.
    pub fn owner_value(
        &mut self,
        alloc: Global,
        each: bool,
        word: &[u8],
        tokens: &[Token],
    ) -> Result<Expression, ReadFault>
        ensures value { MatchResult result
            (λ v. read_owner_value (scope_in (draft_view self.old)) each word.now (draft_view self.old).names tokens.now
            ≡ Some (Some (term_of v), (draft_view self.new).names))
            (λ fault. RefusesAs fault
            (read_owner_value (scope_in (draft_view self.old)) each word.now (draft_view self.old).names tokens.now)
            (owner_value_fault (scope_in (draft_view self.old)) each word.now (draft_view self.old).names tokens.now)) }
        ensures kept { draft_view self.new ≡ with_names (draft_view self.new).names (draft_view self.old) }
    {
        let rest = after_word(tokens, word)?;
        if has_me(rest) {
            return Err(ReadFault::BadForm);
        }
        let (part, rest) = split_value(rest);
        let known = self.algorithm.names.len();
        let value = self.value_by_owner(alloc, each, part)?;
        if rest.is_empty()
            && (is_owner_value(each, &value) && self.algorithm.names.len() == known)
        {
            Ok(value)
        } else {
            Err(form_fault(value))
        }
    }

    /// A first value, where there is one, up to the end of the tokens.
    pub fn start(
        &mut self,
        alloc: Global,
        each: bool,
        tokens: &[Token],
    ) -> Result<Option<Expression>, ReadFault>
        ensures start { MatchResult result
            (λ v. read_start (scope_in (draft_view self.old)) each (draft_view self.old).names tokens.now
            ≡ Some (start_term v, (draft_view self.new).names))
            (λ fault. RefusesAs fault
            (read_start (scope_in (draft_view self.old)) each (draft_view self.old).names tokens.now)
            (start_fault (scope_in (draft_view self.old)) each (draft_view self.old).names tokens.now)) }
        ensures kept { draft_view self.new ≡ with_names (draft_view self.new).names (draft_view self.old) }
    {
        if tokens.is_empty() {
            Ok(None)
        } else {
            Ok(Some(self.owner_value(alloc, each, b"starts", tokens)?))
        }
    }
}
