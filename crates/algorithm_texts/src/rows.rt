//! Rows of private names.

ghost use Rattle.std.specs.Prelude.{◌≡◌, ◌<◌, ◌≤◌, ◌+◌, ◌⊎◌, ◌++◌, IsAscii, IfOk, IfErr, MatchResult, OnOk, position, Some, None, string_bytes};
ghost use Rattle.std.specs.Option.{option_map};
ghost use Rattle.algorithms.specs.declared.fault.ReadFault.TheVariants.{OutOfMemory as NoMemory, TooBig as ManyNames};
ghost use Rattle.algorithm_texts.specs.Drafts.{draft_view, element_letters, index_letters, elements_form, names_of_row, with_row};
ghost use Rattle.algorithm_texts.specs.Grammar.{is_row_name, is_row_of, row_named, row_read};
ghost use Rattle.algorithm_texts.specs.LineDrafts.{Drafts, begins_access, read_all_set, read_element_set, read_row_set, read_row_value, scope_in};
ghost use Rattle.algorithm_texts.specs.LineFaults.{all_set_fault, assigned_value_fault, element_set_fault, row_fault, row_set_fault};
ghost use Rattle.algorithm_texts.specs.Operands.{names_of, row_term, rows_of, scope_of};
ghost use Rattle.algorithm_texts.specs.Parts.{term_of};
ghost use Rattle.algorithm_texts.specs.TextDrafts.{read_row};

use crate::accesses::{begins_swap, begins_word};
use crate::constants::copy_value;
use crate::extents::index_within;
use crate::lines::Draft;
use crate::names::is_reserved;
use crate::operands::form_fault;
use crate::parts::{after_sign, check_end, ended_without_deed, split_value};
use crate::tokens::{Sign, Token, is_sign};
use algorithms::algorithm::{Algorithm, NamedRow};
use algorithms::expression::{Expression, MOST_ELEMENTS, NAMES};
use algorithms::fault::ReadFault;
use algorithms::line::{Elements, LocalLine};
use std::alloc::Global;

/// The place of the row of this name among the rows.
fn row_place(algorithm: &Algorithm, word: &[u8]) -> Option<usize>
    ensures { result ≡ position (is_row_of word.now) (rows_of algorithm.now) }
{
    algorithm
        .rows
        .iter()
        .position(|row| row.name.as_bytes() == word)
}

/// Whether a row has this name.
pub fn is_row_name(algorithm: &Algorithm, word: &[u8]) -> bool
    ensures { result ≡ is_row_name (rows_of algorithm.now) word.now }
{
    row_place(algorithm, word).is_some()
}

/// The first name of the row of this name, and a copy of its size.
fn row_named(
    alloc: Global,
    algorithm: &Algorithm,
    word: &[u8],
) -> Result<Option<(usize, Expression)>, ReadFault>
    ensures ok { IfOk result (λ row. option_map row_term row ≡ row_named (rows_of algorithm.now) word.now) }
    ensures err { IfErr result (λ fault. fault ≡ NoMemory) }
{
    let Some(place) = row_place(algorithm, word) else {
        return Ok(None);
    };
    match algorithm.rows.get(place) {
        None => Ok(None),
        Some(row) => Ok(Some((row.first, copy_value(alloc, &row.size)?))),
    }
}

/// The row that a word of a value names, as `row_named` says it. It is no word of the format.
pub fn row_read(
    alloc: Global,
    algorithm: &Algorithm,
    word: &[u8],
) -> Result<Option<(usize, Expression)>, ReadFault>
    ensures ok { IfOk result (λ row. option_map row_term row ≡ row_read (scope_of algorithm.now) word.now) }
    ensures err { IfErr result (λ fault. fault ≡ NoMemory) }
{
    if is_reserved(word) {
        Ok(None)
    } else {
        row_named(alloc, algorithm, word)
    }
}

/// Adds the letters of an index below 20.
fn push_index(letters: &mut Vec<u8>, index: usize) -> Result<(), ReadFault>
    requires { index < 20 }
    ensures ok { OnOk result (letters.new.items ≡ letters.old.items ++ index_letters index) }
    ensures err { IfErr result (λ fault. fault ≡ NoMemory) }
{
    if index < 10 {
        letters.push(b'0' + index as u8)?;
    } else {
        letters.push(b'1')?;
        letters.push(b'&' + index as u8)?;
    }
    Ok(())
}

/// The letters of the name at an index of a row.
fn element_letters(alloc: Global, name: &[u8], index: usize) -> Result<Vec<u8>, ReadFault>
    requires { index < 20 }
    ensures ok { IfOk result (λ letters. letters.items ≡ element_letters name.now index) }
    ensures err { IfErr result (λ fault. fault ≡ NoMemory) }
{
    let mut letters = Vec::from_slice(alloc, name)?;
    letters.push(b'[')?;
    push_index(&mut letters, index)?;
    letters.push(b']')?;
    Ok(letters)
}

/// The name at an index of a row.
fn element_name(alloc: Global, name: &[u8], index: usize) -> Result<String, ReadFault>
    requires ascii { IsAscii name.now }
    requires few { index < 20 }
    ensures ok { IfOk result (λ text. string_bytes text ≡ element_letters name.now index) }
    ensures err { IfErr result (λ fault. fault ≡ NoMemory) }
{
    let letters = element_letters(alloc, name, index)?;
    Ok(String::from_utf8_lossy(alloc, letters.as_slice())?)
}

/// Adds the names of a row after the others.
fn push_names(alloc: Global, algorithm: &mut Algorithm, name: &[u8]) -> Result<(), ReadFault>
    requires { IsAscii name.now }
    ensures ok { OnOk result (names_of algorithm.new ≡ names_of algorithm.old ++ names_of_row name.now) }
    ensures err { IfErr result (λ fault. fault ≡ NoMemory) }
    ensures kept { algorithm.new ≡ record algorithm.old { names = algorithm.new.names } }
{
    for index in 0..MOST_ELEMENTS {
        algorithm.names.push(element_name(alloc, name, index)?)?;
    }
    Ok(())
}

impl Draft {
    /// Adds a row of private names of this size.
    fn declare_row(&mut self, alloc: Global, name: &[u8], size: Expression) -> Result<(), ReadFault>
        requires { IsAscii name.now }
        ensures ok { OnOk result (draft_view self.new ≡ with_row name.now (term_of size) (draft_view self.old)) }
        ensures err { IfErr result (λ fault. fault ≡ NoMemory) }
    {
        let first = self.algorithm.names.len();
        push_names(alloc, &mut self.algorithm, name)?;
        let name = String::from_utf8_lossy(alloc, name)?;
        self.algorithm.rows.push(NamedRow { name, first, size })?;
        self.algorithm.lasting = self.algorithm.names.len();
        self.says_values = true;
        Ok(())
    }

    /// Reads `[SIZE]` after `private NAME`. `TooBig` where there is no room for as many names.
    pub fn take_row(
        &mut self,
        alloc: Global,
        name: &[u8],
        tokens: &[Token],
    ) -> Result<(), ReadFault>
        requires { IsAscii name.now }
        ensures { Drafts (draft_view self.new) result (read_row (draft_view self.old) name.now tokens.now)
            (row_fault (draft_view self.old) tokens.now) }
    {
        let (size, rest) = self.size(alloc, tokens)?;
        if self.algorithm.names.len() > NAMES - MOST_ELEMENTS {
            drop(size);
            return Err(ReadFault::TooBig);
        }
        match check_end(rest) {
            Ok(()) => self.declare_row(alloc, name, size),
            Err(_) => Err(form_fault(size)),
        }
    }

    /// The value of values of a row, up to the end of the line.
    fn row_value(
        &mut self,
        alloc: Global,
        row: usize,
        elements: Elements,
        tokens: &[Token],
    ) -> Result<(), ReadFault>
        ensures { Drafts (draft_view self.new) result (read_row_value (draft_view self.old) row (elements_form elements) tokens.now)
            (assigned_value_fault (draft_view self.old) tokens.now) }
    {
        let (assigned, rest) = split_value(tokens);
        let value = self.value(alloc, assigned)?;
        ended_without_deed(rest)?;
        self.add_local(LocalLine::AssignRow {
            row,
            elements,
            value,
        })?;
        Ok(())
    }

    /// `[INDEX] := VALUE` after the name of a row.
    fn set_element(
        &mut self,
        alloc: Global,
        first: usize,
        size: Expression,
        tokens: &[Token],
    ) -> Result<(), ReadFault>
        ensures { Drafts (draft_view self.new) result (read_element_set (draft_view self.old) first (term_of size) tokens.now)
            (element_set_fault (draft_view self.old) tokens.now) }
    {
        let (index, rest) = self.brackets(alloc, tokens)?;
        let rest = after_sign(rest, Sign::Assign)?;
        let index = index_within(alloc, index, size)?;
        self.row_value(alloc, first, Elements::At(index), rest)
    }

    /// `:= VALUE` after the name of a row. `NotAssignable` where a shared word comes next.
    fn set_all(
        &mut self,
        alloc: Global,
        first: usize,
        size: Expression,
        tokens: &[Token],
    ) -> Result<(), ReadFault>
        ensures { Drafts (draft_view self.new) result (read_all_set (draft_view self.old) first (term_of size) tokens.now)
            (all_set_fault (draft_view self.old) tokens.now) }
    {
        let rest = after_sign(tokens, Sign::Assign)?;
        if begins_swap(rest) || begins_word(self, rest.first(), rest.get(1)) {
            return Err(ReadFault::NotAssignable);
        }
        self.row_value(alloc, first, Elements::All(size), rest)
    }

    /// `[INDEX] := VALUE` or `:= VALUE` after the name of a row.
    pub fn set_row(
        &mut self,
        alloc: Global,
        first: usize,
        size: Expression,
        tokens: &[Token],
    ) -> Result<(), ReadFault>
        ensures { Drafts (draft_view self.new) result (read_row_set (draft_view self.old) first (term_of size) tokens.now)
            (row_set_fault (draft_view self.old) tokens.now) }
    {
        if is_sign(tokens.first(), Sign::OpenIndex) {
            self.set_element(alloc, first, size, tokens)
        } else {
            self.set_all(alloc, first, size, tokens)
        }
    }
}
