//! Accesses of shared words: loads, stores, swaps and awaits.

ghost use Rattle.std.specs.Prelude.{◌≡◌, Some, MatchResult, position, bytes_eq};
ghost use Rattle.std.specs.Option.{option_copied, option_map};
ghost use Rattle.algorithms.specs.declared.fault.ReadFault.TheVariants.{BadForm as NoForm};
ghost use Rattle.algorithm_texts.specs.Parts.{term_of, formula_of};
ghost use Rattle.algorithm_texts.specs.Operands.{RefusesAs, declared_of};
ghost use Rattle.algorithm_texts.specs.Drafts.{draft_view, extent_of, word_of, act_of};
ghost use Rattle.algorithm_texts.specs.LineDrafts.{Drafts, scope_in, with_names, read_brackets, read_one_index, read_two_indexes, read_index, read_word_of, read_word, read_until, read_deed, read_access, begins_swap, read_guard_condition, read_guard, read_swap_value, read_swap_word, read_swap, read_await_swap, read_await_swap_word, read_awaited_swap, read_awaited_word, read_awaited_load, read_awaited, read_await_of, read_await, read_store, read_load, begins_word, is_no_word};
ghost use Rattle.algorithm_texts.specs.LineFaults.{brackets_fault, two_indexes_fault, read_index_fault, word_of_fault, shared_word_fault, until_fault, guard_condition_fault, guard_fault, swap_value_fault, swap_word_fault, swap_fault, awaited_fault, await_swap_word_fault, awaited_swap_fault, awaited_load_fault, take_await_fault, await_of_fault, await_fault, store_fault, loaded_word_fault, load_fault};

use crate::extents::table_place;
use crate::lines::Draft;
use crate::names::{declaration_of, is_declared, is_name};
use crate::operands::form_fault;
use crate::parts::{
    after, after_sign, after_withdraw, after_word, deed_said, letters, split_value,
};
use crate::rows::is_row_name;
use crate::tokens::{LineWord, Sign, Token, is_sign, is_word};
use algorithms::algorithm::{Algorithm, Extent};
use algorithms::condition::Condition;
use algorithms::expression::Expression;
use algorithms::fault::ReadFault;
use algorithms::line::{AccessLine, Action, LineKind, LocalLine, WordOf};
use std::alloc::Global;

/// The declaration of this name.
fn declaration_named(algorithm: &Algorithm, name: LineWord) -> Option<usize>
    ensures { result ≡ position (λ other. bytes_eq other name) (declared_of algorithm.now) }
{
    declaration_of(algorithm, name.as_bytes())
}

/// Whether it is a number or a sign.
fn is_no_word(token: Option<&Token>) -> bool
    ensures { result ≡ is_no_word (option_copied token.entry) }
{
    match token {
        Some(Token::Sign(_) | Token::Number(_)) => true,
        Some(Token::Word(_)) | None => false,
    }
}

/// The fault of a number or a sign after a word that is loaded: an index too many, or the word is part of a value.
fn loaded_word_fault(token: Option<&Token>) -> ReadFault
    ensures { result ≡ loaded_word_fault (option_copied token.entry) }
{
    if is_sign(token, Sign::OpenIndex) {
        ReadFault::BadForm
    } else {
        ReadFault::TwoAccesses
    }
}

/// Whether a shared word comes next.
pub fn begins_word(draft: &Draft, first: Option<&Token>, second: Option<&Token>) -> bool
    ensures { result ≡ begins_word (scope_in (draft_view draft.now)) (option_copied first.entry) (option_copied second.entry) }
{
    match first {
        Some(Token::Word(word)) => {
            is_declared(&draft.algorithm, word.as_bytes())
                || (is_sign(second, Sign::OpenIndex)
                    && !is_row_name(&draft.algorithm, word.as_bytes()))
        }
        Some(Token::Sign(_) | Token::Number(_)) | None => false,
    }
}

/// Whether a swap comes next: the word `swap`, with a name after it.
pub fn begins_swap(tokens: &[Token]) -> bool
    ensures { result ≡ begins_swap tokens.now }
{
    is_word(tokens.first(), b"swap") && is_name(tokens.get(1))
}

impl Draft {
    /// An index in brackets, and the tokens after it.
    pub fn brackets<'t>(
        &mut self,
        alloc: Global,
        tokens: &'t [Token],
    ) -> Result<(Expression, &'t [Token]), ReadFault>
        ensures index { MatchResult result
            (λ r. read_brackets (scope_in (draft_view self.old)) (draft_view self.old).names tokens.now
            ≡ Some (term_of r.0, r.1.now, (draft_view self.new).names))
            (λ fault. RefusesAs fault (read_brackets (scope_in (draft_view self.old)) (draft_view self.old).names tokens.now)
            (brackets_fault (scope_in (draft_view self.old)) (draft_view self.old).names tokens.now)) }
        ensures kept { draft_view self.new ≡ with_names (draft_view self.new).names (draft_view self.old) }
    {
        let (part, rest) = split_value(after_sign(tokens, Sign::OpenIndex)?);
        let index = self.value(alloc, part)?;
        match after_sign(rest, Sign::CloseIndex) {
            Ok(rest) => Ok((index, rest)),
            Err(_) => Err(form_fault(index)),
        }
    }

    /// The place of a word in an array, and the tokens after its index.
    fn one_index<'t>(
        &mut self,
        alloc: Global,
        tokens: &'t [Token],
    ) -> Result<(Option<Expression>, &'t [Token]), ReadFault>
        ensures index { MatchResult result
            (λ r. read_one_index (scope_in (draft_view self.old)) (draft_view self.old).names tokens.now
            ≡ Some (option_map (λ i. term_of i) r.0, r.1.now, (draft_view self.new).names))
            (λ fault. RefusesAs fault (read_one_index (scope_in (draft_view self.old)) (draft_view self.old).names tokens.now)
            (brackets_fault (scope_in (draft_view self.old)) (draft_view self.old).names tokens.now)) }
        ensures kept { draft_view self.new ≡ with_names (draft_view self.new).names (draft_view self.old) }
    {
        let (index, rest) = self.brackets(alloc, tokens)?;
        Ok((Some(index), rest))
    }

    /// The place of a word in a table with this number of words in a row, and the tokens after its two indexes.
    fn two_indexes<'t>(
        &mut self,
        alloc: Global,
        columns: &Expression,
        tokens: &'t [Token],
    ) -> Result<(Option<Expression>, &'t [Token]), ReadFault>
        ensures index { MatchResult result
            (λ r. read_two_indexes (scope_in (draft_view self.old)) (term_of columns.now) (draft_view self.old).names tokens.now
            ≡ Some (option_map (λ i. term_of i) r.0, r.1.now, (draft_view self.new).names))
            (λ fault. RefusesAs fault
            (read_two_indexes (scope_in (draft_view self.old)) (term_of columns.now) (draft_view self.old).names tokens.now)
            (two_indexes_fault (scope_in (draft_view self.old)) (draft_view self.old).names tokens.now)) }
        ensures kept { draft_view self.new ≡ with_names (draft_view self.new).names (draft_view self.old) }
    {
        let (row, rest) = self.brackets(alloc, tokens)?;
        let (column, rest) = self.brackets(alloc, rest)?;
        let place = table_place(alloc, columns, row, column)?;
        Ok((Some(place), rest))
    }

    /// The place of a word, where there is an array, and the tokens after its indexes.
    fn index<'t>(
        &mut self,
        alloc: Global,
        extent: &Extent,
        tokens: &'t [Token],
    ) -> Result<(Option<Expression>, &'t [Token]), ReadFault>
        ensures index { MatchResult result
            (λ r. read_index (scope_in (draft_view self.old)) (extent_of extent.now) (draft_view self.old).names tokens.now
            ≡ Some (option_map (λ i. term_of i) r.0, r.1.now, (draft_view self.new).names))
            (λ fault. RefusesAs fault
            (read_index (scope_in (draft_view self.old)) (extent_of extent.now) (draft_view self.old).names tokens.now)
            (read_index_fault (scope_in (draft_view self.old)) (extent_of extent.now) (draft_view self.old).names tokens.now)) }
        ensures kept { draft_view self.new ≡ with_names (draft_view self.new).names (draft_view self.old) }
    {
        match extent {
            Extent::One => {
                if is_sign(tokens.first(), Sign::OpenIndex) {
                    Err(ReadFault::BadForm)
                } else {
                    Ok((None, tokens))
                }
            }
            Extent::Each | Extent::Array(_) => self.one_index(alloc, tokens),
            Extent::Table(_, columns) => self.two_indexes(alloc, columns, tokens),
        }
    }

    /// A word of a declaration at the front, with its index, and the tokens after it.
    fn word_of<'t>(
        &mut self,
        alloc: Global,
        declaration: usize,
        tokens: &'t [Token],
    ) -> Result<(WordOf, &'t [Token]), ReadFault>
        ensures word { MatchResult result
            (λ r. read_word_of (scope_in (draft_view self.old)) (draft_view self.old).extents
            (draft_view self.old).names declaration tokens.now
            ≡ Some (word_of r.0, r.1.now, (draft_view self.new).names))
            (λ fault. RefusesAs fault
            (read_word_of (scope_in (draft_view self.old)) (draft_view self.old).extents (draft_view self.old).names declaration tokens.now)
            (word_of_fault (scope_in (draft_view self.old)) (draft_view self.old).extents
            (draft_view self.old).names tokens.now declaration)) }
        ensures kept { draft_view self.new ≡ with_names (draft_view self.new).names (draft_view self.old) }
    {
        let extent = self.extent_at(alloc, declaration)?;
        let read = self.index(alloc, &extent, after(tokens, 1));
        drop(extent);
        let (index, rest) = read?;
        Ok((WordOf { declaration, index }, rest))
    }

    /// A shared word at the front, with its index, and the tokens after it.
    pub fn word<'t>(
        &mut self,
        alloc: Global,
        tokens: &'t [Token],
    ) -> Result<(WordOf, &'t [Token]), ReadFault>
        ensures word { MatchResult result
            (λ r. read_word (scope_in (draft_view self.old)) (draft_view self.old).extents (draft_view self.old).names tokens.now
            ≡ Some (word_of r.0, r.1.now, (draft_view self.new).names))
            (λ fault. RefusesAs fault
            (read_word (scope_in (draft_view self.old)) (draft_view self.old).extents (draft_view self.old).names tokens.now)
            (shared_word_fault (scope_in (draft_view self.old)) (draft_view self.old).extents (draft_view self.old).names tokens.now)) }
        ensures kept { draft_view self.new ≡ with_names (draft_view self.new).names (draft_view self.old) }
    {
        match letters(tokens.first()) {
            None => Err(ReadFault::BadForm),
            Some(name) => match declaration_named(&self.algorithm, name) {
                None => Err(ReadFault::UnknownName),
                Some(declaration) => self.word_of(alloc, declaration, tokens),
            },
        }
    }

    /// Adds an access, with what may follow it in its line: `may withdraw`, and a deed.
    fn access(&mut self, word: WordOf, action: Action, tokens: &[Token]) -> Result<(), ReadFault>
        ensures { Drafts (draft_view self.new) result
            (read_access (draft_view self.old) (word_of word) (act_of action) tokens.now) NoForm }
    {
        let may_withdraw = is_word(tokens.first(), b"may");
        self.add(LineKind::Access(AccessLine {
            word,
            action,
            may_withdraw,
        }))?;
        let rest = after_withdraw(tokens)?;
        if rest.is_empty() {
            Ok(())
        } else {
            self.deed(rest)
        }
    }

    /// Reads the deed that a line notes, and adds it as a local line.
    pub fn deed(&mut self, tokens: &[Token]) -> Result<(), ReadFault>
        ensures { Drafts (draft_view self.new) result (read_deed (draft_view self.old) tokens.now) NoForm }
    {
        let deed = deed_said(tokens)?;
        self.add_local(LocalLine::Note(deed))?;
        Ok(())
    }

    /// The condition of `until CONDITION`, and the tokens after it.
    fn until<'t>(
        &mut self,
        alloc: Global,
        tokens: &'t [Token],
    ) -> Result<(Condition, &'t [Token]), ReadFault>
        ensures until { MatchResult result
            (λ r. read_until (scope_in (draft_view self.old)) (draft_view self.old).names tokens.now
            ≡ Some (formula_of r.0, r.1.now, (draft_view self.new).names))
            (λ fault. RefusesAs fault (read_until (scope_in (draft_view self.old)) (draft_view self.old).names tokens.now)
            (until_fault (scope_in (draft_view self.old)) (draft_view self.old).names tokens.now)) }
        ensures kept { draft_view self.new ≡ with_names (draft_view self.new).names (draft_view self.old) }
    {
        let (part, rest) = split_value(after_word(tokens, b"until")?);
        let condition = self.condition(alloc, part)?;
        Ok((condition, rest))
    }

    /// The condition after `if`, and the tokens after it.
    fn guard_condition<'t>(
        &mut self,
        alloc: Global,
        tokens: &'t [Token],
    ) -> Result<(Option<Condition>, &'t [Token]), ReadFault>
        ensures guard { MatchResult result
            (λ r. read_guard_condition (scope_in (draft_view self.old)) (draft_view self.old).names tokens.now
            ≡ Some (option_map (λ c. formula_of c) r.0, r.1.now, (draft_view self.new).names))
            (λ fault. RefusesAs fault
            (read_guard_condition (scope_in (draft_view self.old)) (draft_view self.old).names tokens.now)
            (guard_condition_fault (scope_in (draft_view self.old)) (draft_view self.old).names tokens.now)) }
        ensures kept { draft_view self.new ≡ with_names (draft_view self.new).names (draft_view self.old) }
    {
        let (part, rest) = split_value(tokens);
        let condition = self.condition(alloc, part)?;
        Ok((Some(condition), rest))
    }

    /// The condition of `if CONDITION`, where it comes next, and the tokens after it.
    fn take_guard<'t>(
        &mut self,
        alloc: Global,
        tokens: &'t [Token],
    ) -> Result<(Option<Condition>, &'t [Token]), ReadFault>
        ensures guard { MatchResult result
            (λ r. read_guard (scope_in (draft_view self.old)) (draft_view self.old).names tokens.now
            ≡ Some (option_map (λ c. formula_of c) r.0, r.1.now, (draft_view self.new).names))
            (λ fault. RefusesAs fault (read_guard (scope_in (draft_view self.old)) (draft_view self.old).names tokens.now)
            (guard_fault (scope_in (draft_view self.old)) (draft_view self.old).names tokens.now)) }
        ensures kept { draft_view self.new ≡ with_names (draft_view self.new).names (draft_view self.old) }
    {
        if is_word(tokens.first(), b"if") {
            self.guard_condition(alloc, after(tokens, 1))
        } else {
            Ok((None, tokens))
        }
    }

    /// `to VALUE if CONDITION` after a word to swap: the value, the condition where there is one, and the tokens after them.
    fn swap_value<'t>(
        &mut self,
        alloc: Global,
        tokens: &'t [Token],
    ) -> Result<(Expression, Option<Condition>, &'t [Token]), ReadFault>
        ensures value { MatchResult result
            (λ r. read_swap_value (scope_in (draft_view self.old)) (draft_view self.old).names tokens.now
            ≡ Some (term_of r.0, option_map (λ c. formula_of c) r.1, r.2.now, (draft_view self.new).names))
            (λ fault. RefusesAs fault
            (read_swap_value (scope_in (draft_view self.old)) (draft_view self.old).names tokens.now)
            (swap_value_fault (scope_in (draft_view self.old)) (draft_view self.old).names tokens.now)) }
        ensures kept { draft_view self.new ≡ with_names (draft_view self.new).names (draft_view self.old) }
    {
        let (part, rest) = split_value(after_word(tokens, b"to")?);
        let value = self.value(alloc, part)?;
        let (guard, rest) = self.take_guard(alloc, rest)?;
        Ok((value, guard, rest))
    }

    /// `to VALUE if CONDITION` after `NAME := swap WORD`.
    fn swap_word(
        &mut self,
        alloc: Global,
        name: usize,
        word: WordOf,
        tokens: &[Token],
    ) -> Result<(), ReadFault>
        ensures { Drafts (draft_view self.new) result (read_swap_word (draft_view self.old) name (word_of word) tokens.now)
            (swap_word_fault (draft_view self.old) tokens.now) }
    {
        let (value, guard, rest) = self.swap_value(alloc, tokens)?;
        let until = None;
        self.access(
            word,
            Action::Swap {
                name,
                value,
                guard,
                until,
            },
            rest,
        )
    }

    /// `WORD to VALUE if CONDITION` after `NAME := swap`.
    pub fn swaps(&mut self, alloc: Global, name: usize, tokens: &[Token]) -> Result<(), ReadFault>
        ensures { Drafts (draft_view self.new) result (read_swap (draft_view self.old) name tokens.now)
            (swap_fault (draft_view self.old) tokens.now) }
    {
        let (word, rest) = self.word(alloc, tokens)?;
        self.swap_word(alloc, name, word, rest)
    }

    /// `until CONDITION` after `await NAME := swap WORD to VALUE if CONDITION`.
    fn await_swap(
        &mut self,
        alloc: Global,
        word: WordOf,
        swap: (usize, Expression, Option<Condition>),
        tokens: &[Token],
    ) -> Result<(), ReadFault>
        ensures { Drafts (draft_view self.new) result (read_await_swap (draft_view self.old) (word_of word)
            swap.0 (term_of swap.1) (option_map (λ c. formula_of c) swap.2) tokens.now) (awaited_fault (draft_view self.old) tokens.now) }
    {
        let (until, rest) = self.until(alloc, tokens)?;
        let (name, value, guard) = swap;
        let until = Some(until);
        self.access(
            word,
            Action::Swap {
                name,
                value,
                guard,
                until,
            },
            rest,
        )
    }

    /// `to VALUE if CONDITION until CONDITION` after `await NAME := swap WORD`.
    fn await_swap_word(
        &mut self,
        alloc: Global,
        name: usize,
        word: WordOf,
        tokens: &[Token],
    ) -> Result<(), ReadFault>
        ensures { Drafts (draft_view self.new) result (read_await_swap_word (draft_view self.old) name (word_of word) tokens.now)
            (await_swap_word_fault (draft_view self.old) tokens.now) }
    {
        let (value, guard, rest) = self.swap_value(alloc, tokens)?;
        self.await_swap(alloc, word, (name, value, guard), rest)
    }

    /// `WORD to VALUE if CONDITION until CONDITION` after `await NAME := swap`.
    fn awaited_swap(
        &mut self,
        alloc: Global,
        name: usize,
        tokens: &[Token],
    ) -> Result<(), ReadFault>
        ensures { Drafts (draft_view self.new) result (read_awaited_swap (draft_view self.old) name tokens.now)
            (awaited_swap_fault (draft_view self.old) tokens.now) }
    {
        let (word, rest) = self.word(alloc, tokens)?;
        self.await_swap_word(alloc, name, word, rest)
    }

    /// `until CONDITION` after `await NAME := WORD`.
    fn awaited_word(
        &mut self,
        alloc: Global,
        name: usize,
        word: WordOf,
        tokens: &[Token],
    ) -> Result<(), ReadFault>
        ensures { Drafts (draft_view self.new) result (read_awaited_word (draft_view self.old) name (word_of word) tokens.now)
            (awaited_fault (draft_view self.old) tokens.now) }
    {
        let (until, rest) = self.until(alloc, tokens)?;
        self.access(word, Action::Await { name, until }, rest)
    }

    /// `WORD until CONDITION` after `await NAME :=`.
    fn awaited_load(
        &mut self,
        alloc: Global,
        name: usize,
        tokens: &[Token],
    ) -> Result<(), ReadFault>
        ensures { Drafts (draft_view self.new) result (read_awaited_load (draft_view self.old) name tokens.now)
            (awaited_load_fault (draft_view self.old) tokens.now) }
    {
        let (word, rest) = self.word(alloc, tokens)?;
        self.awaited_word(alloc, name, word, rest)
    }

    /// What is read into a private name that an `await` sets: a shared word, alone or in a swap.
    fn take_await(&mut self, alloc: Global, name: usize, tokens: &[Token]) -> Result<(), ReadFault>
        ensures { Drafts (draft_view self.new) result (read_awaited (draft_view self.old) name tokens.now)
            (take_await_fault (draft_view self.old) tokens.now) }
    {
        if begins_swap(tokens) {
            self.awaited_swap(alloc, name, after(tokens, 1))
        } else {
            self.awaited_load(alloc, name, tokens)
        }
    }

    /// `:= WORD until CONDITION` or `:= swap .. until CONDITION` after `await NAME`.
    fn await_of(&mut self, alloc: Global, name: usize, tokens: &[Token]) -> Result<(), ReadFault>
        ensures { Drafts (draft_view self.new) result (read_await_of (draft_view self.old) name tokens.now)
            (await_of_fault (draft_view self.old) tokens.now) }
    {
        let rest = after_sign(tokens, Sign::Assign)?;
        self.take_await(alloc, name, rest)
    }

    /// `await NAME := WORD until CONDITION` or `await NAME := swap .. until CONDITION`.
    pub fn awaits(&mut self, alloc: Global, tokens: &[Token]) -> Result<(), ReadFault>
        ensures { Drafts (draft_view self.new) result (read_await (draft_view self.old) tokens.now)
            (await_fault (draft_view self.old) tokens.now) }
    {
        let name = self.name(alloc, tokens.first())?;
        self.await_of(alloc, name, after(tokens, 1))
    }

    /// `WORD := VALUE`.
    pub fn stores(&mut self, alloc: Global, tokens: &[Token]) -> Result<(), ReadFault>
        ensures { Drafts (draft_view self.new) result (read_store (draft_view self.old) tokens.now)
            (store_fault (draft_view self.old) tokens.now) }
    {
        let (word, rest) = self.word(alloc, tokens)?;
        let (stored, rest) = split_value(after_sign(rest, Sign::Assign)?);
        let value = self.value(alloc, stored)?;
        self.access(word, Action::Store { value }, rest)
    }

    /// A shared word that is assigned to a private name.
    pub fn loads(&mut self, alloc: Global, name: usize, tokens: &[Token]) -> Result<(), ReadFault>
        ensures { Drafts (draft_view self.new) result (read_load (draft_view self.old) name tokens.now)
            (load_fault (draft_view self.old) tokens.now) }
    {
        let (word, rest) = self.word(alloc, tokens)?;
        if is_no_word(rest.first()) {
            return Err(loaded_word_fault(rest.first()));
        }
        self.access(word, Action::Load { name }, rest)
    }
}
