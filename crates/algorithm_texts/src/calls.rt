//! The head of a text, its declarations and its calls.

ghost use Rattle.std.specs.Prelude.{◌≡◌, ◌==◌, List, ℕ, length, reverse, Some, None, MatchResult, MatchOption, OnOk, IfOk, IfErr, IsAscii};
ghost use Rattle.std.specs.Option.{option_copied};
ghost use Rattle.algorithms.specs.declared.fault.ReadFault.TheVariants.{OutOfMemory as NoMemory, BadBlock as NoBlock};
ghost use Rattle.algorithm_texts.specs.Fronts.{named_by};
ghost use Rattle.algorithm_texts.specs.Parts.{term_of};
ghost use Rattle.algorithm_texts.specs.Operands.{RefusesAs};
ghost use Rattle.algorithm_texts.specs.Drafts.{draft_view};
ghost use Rattle.algorithm_texts.specs.LineDrafts.{Drafts, scope_in, with_names};
ghost use Rattle.algorithm_texts.specs.LineFaults.{head_fault, constant_value_fault, constant_fault, single_fault, private_fault, declaration_fault, call_fault, line_fault};
ghost use Rattle.algorithm_texts.specs.Tokens.{value_of_name};
ghost use Rattle.algorithm_texts.specs.TextDrafts.{IsEmpty, call_words, has_call, ended_calls, end_call, with_call, read_call, read_constant_value, with_constant, read_constant, read_single, read_private, read_declaration, read_line, read_numbers, read_head_numbers, read_head_words, read_head};

use crate::constants::{constant_form_fault, is_constant_value};
use crate::lines::{CallRead, Draft};
use crate::names::{declare_private, new_name, undeclared_name};
use crate::parts::{after, after_sign, after_word, check_end, letters, number_at, split_value};
use crate::tokens::{LineWord, Sign, Token, Tokens, is_sign, is_word, spells};
use algorithms::algorithm::{
    Algorithm, AlgorithmCall, Entries, NamedConstant, Promises, StepBounds,
};
use algorithms::condition::Comparison;
use algorithms::constants::MOST_PROCS;
use algorithms::expression::Expression;
use algorithms::fault::ReadFault;
use std::alloc::Global;

/// An algorithm of this name with nothing in it.
pub fn empty_algorithm(
    alloc: Global,
    name: &[u8],
    least: u64,
    most: u64,
) -> Result<Algorithm, ReadFault>
    requires { IsAscii name.now }
    ensures ok { IfOk result (λ a. IsEmpty a name.now least most) }
    ensures err { IfErr result (λ fault. fault ≡ NoMemory) }
{
    Ok(Algorithm {
        name: String::from_utf8_lossy(alloc, name)?,
        least,
        most,
        promises: Promises {
            most_inside: 1,
            reentry: false,
            order: false,
            progress: None,
            bounds: false,
        },
        step_bounds: StepBounds {
            exit: None,
            recovery: None,
            doorway: None,
        },
        constants: Vec::new(alloc),
        declarations: Vec::new(alloc),
        names: Vec::new(alloc),
        lasting: 0,
        rows: Vec::new(alloc),
        answers: Vec::new(alloc),
        lines: Vec::new(alloc),
        entries: Entries {
            lock: 0,
            unlock: 0,
            recover: None,
            withdraw: None,
        },
        claims: Vec::new(alloc),
        label_places: Vec::new(alloc),
    })
}

/// The least and the greatest number of processes, and the tokens after them.
fn numbers(tokens: &[Token]) -> Option<(u64, u64, &[Token])>
    ensures { MatchOption result (read_numbers tokens.now ≡ None) (λ n. read_numbers tokens.now ≡ Some (n.0, n.1, n.2.now)) }
{
    let least = number_at(tokens.first())?;
    if is_word(tokens.get(1), b"to") {
        let most = number_at(tokens.get(2))?;
        Some((least, most, after(tokens, 3)))
    } else {
        Some((least, least, after(tokens, 1)))
    }
}

/// The least and the greatest number of processes after the name, up to the end of the line.
fn head_numbers(tokens: &[Token]) -> Result<(u64, u64), ReadFault>
    ensures { MatchResult result (λ n. read_head_numbers tokens.now ≡ Some (n.0, n.1))
        (λ _. read_head_numbers tokens.now ≡ None) }
{
    let Some((least, most, rest)) = numbers(after_word(tokens, b"for")?) else {
        return Err(ReadFault::NoHeader);
    };
    check_end(after_word(rest, b"processes")?)?;
    Ok((least, most))
}

/// What a first line says: the name, and the least and the greatest number of processes.
fn head_words(tokens: &[Token]) -> Result<(LineWord, u64, u64), ReadFault>
    ensures { MatchResult result (λ h. read_head_words tokens.now ≡ Some (h.0, h.1, h.2))
        (λ _. read_head_words tokens.now ≡ None) }
{
    let rest = after_word(tokens, b"algorithm")?;
    let name = new_name(rest.first())?;
    let (least, most) = head_numbers(after(rest, 1))?;
    Ok((name, least, most))
}

/// What a first line says, where its numbers are within their limits.
fn limited_head(tokens: &[Token]) -> Result<(LineWord, u64, u64), ReadFault>
    ensures { MatchResult result (λ h. read_head tokens.now ≡ Some (h.0, h.1, h.2))
        (λ fault. (read_head tokens.now ≡ None) × (fault ≡ head_fault tokens.now)) }
{
    match head_words(tokens) {
        Err(_) => Err(ReadFault::NoHeader),
        Ok((name, least, most)) => {
            if least == 0 || least > most || most > MOST_PROCS as u64 {
                Err(ReadFault::TooBig)
            } else {
                Ok((name, least, most))
            }
        }
    }
}

/// Reads the first line: `algorithm NAME for LEAST to MOST processes`.
pub fn head(alloc: Global, line: &Tokens) -> Result<Algorithm, ReadFault>
    ensures { MatchResult result
        (λ a. (h : List ℕ × ℕ × ℕ) × (read_head line.now.all.items ≡ Some h) × IsEmpty a h.0 h.1 h.2)
        (λ fault. RefusesAs fault (read_head line.now.all.items) (head_fault line.now.all.items)) }
{
    let (name, least, most) = limited_head(line.all.as_slice())?;
    empty_algorithm(alloc, name.as_bytes(), least, most)
}

/// The call whose name is this word.
fn call_named(word: &[u8]) -> Option<AlgorithmCall>
    ensures { result ≡ value_of_name call_words word.now }
{
    if spells(word, b"lock") {
        Some(AlgorithmCall::Lock)
    } else if spells(word, b"unlock") {
        Some(AlgorithmCall::Unlock)
    } else if spells(word, b"recover") {
        Some(AlgorithmCall::Recover)
    } else if spells(word, b"withdraw") {
        Some(AlgorithmCall::Withdraw)
    } else {
        None
    }
}

/// The call that a token names.
fn call_of(token: Option<&Token>) -> Option<AlgorithmCall>
    ensures { result ≡ named_by call_words (option_copied token.entry) }
{
    call_named(letters(token)?.as_bytes())
}

/// Whether a call was read.
fn has_call(calls: &[CallRead], call: AlgorithmCall) -> bool
    ensures { result ≡ has_call call (reverse calls.now) }
{
    let mut found = false;
    for other in calls {
        found = other.call == call || found;
    }
    found
}

/// Lets the last call end at a place.
fn end_last(calls: &mut Vec<CallRead>, to: usize, last: u64) -> Result<(), ReadFault>
    ensures ok { OnOk result (reverse calls.new.items ≡ ended_calls to last (reverse calls.old.items)) }
    ensures err { IfErr result (λ fault. fault ≡ NoMemory) }
{
    match calls.pop() {
        None => Ok(()),
        Some(call) => {
            calls.push(CallRead { to, last, ..call })?;
            Ok(())
        }
    }
}

impl Draft {
    /// The value of a constant: `= VALUE`, up to the end of the line.
    fn constant_value(&mut self, alloc: Global, tokens: &[Token]) -> Result<Expression, ReadFault>
        ensures value { MatchResult result
            (λ v. read_constant_value (scope_in (draft_view self.old)) (draft_view self.old).names tokens.now
            ≡ Some (term_of v, (draft_view self.new).names))
            (λ fault. RefusesAs fault (read_constant_value (scope_in (draft_view self.old)) (draft_view self.old).names tokens.now)
            (constant_value_fault (scope_in (draft_view self.old)) (draft_view self.old).names tokens.now)) }
        ensures kept { draft_view self.new ≡ with_names (draft_view self.new).names (draft_view self.old) }
    {
        let equal = Sign::Comparison(Comparison::Equal);
        let (part, rest) = split_value(after_sign(tokens, equal)?);
        let known = self.algorithm.names.len();
        let value = self.value(alloc, part)?;
        if rest.is_empty() && (is_constant_value(&value) && self.algorithm.names.len() == known) {
            Ok(value)
        } else {
            let fault = constant_form_fault(&value);
            drop(value);
            Err(fault)
        }
    }

    /// Adds a constant.
    fn add_constant(
        &mut self,
        alloc: Global,
        name: &[u8],
        value: Expression,
    ) -> Result<(), ReadFault>
        requires { IsAscii name.now }
        ensures ok { OnOk result (draft_view self.new ≡ with_constant name.now (term_of value) (draft_view self.old)) }
        ensures err { IfErr result (λ fault. fault ≡ NoMemory) }
    {
        let name = String::from_utf8_lossy(alloc, name)?;
        self.algorithm
            .constants
            .push(NamedConstant { name, value })?;
        self.says_values = true;
        Ok(())
    }

    /// Reads `constant NAME = VALUE`.
    fn take_constant(&mut self, alloc: Global, tokens: &[Token]) -> Result<(), ReadFault>
        ensures { Drafts (draft_view self.new) result (read_constant (draft_view self.old) tokens.now)
            (constant_fault (draft_view self.old) tokens.now) }
    {
        let name = undeclared_name(&self.algorithm, tokens.first())?;
        let value = self.constant_value(alloc, after(tokens, 1))?;
        self.add_constant(alloc, name.as_bytes(), value)
    }

    /// Reads what follows `private NAME` of a single name: nothing.
    fn take_single(&mut self, alloc: Global, name: &[u8], tokens: &[Token]) -> Result<(), ReadFault>
        requires { IsAscii name.now }
        ensures { Drafts (draft_view self.new) result (read_single (draft_view self.old) name.now tokens.now)
            (single_fault (draft_view self.old)) }
    {
        declare_private(alloc, &mut self.algorithm, name)?;
        check_end(tokens)
    }

    /// Reads `private NAME` or `private NAME[SIZE]`.
    fn take_private(&mut self, alloc: Global, tokens: &[Token]) -> Result<(), ReadFault>
        ensures { Drafts (draft_view self.new) result (read_private (draft_view self.old) tokens.now)
            (private_fault (draft_view self.old) tokens.now) }
    {
        let name = undeclared_name(&self.algorithm, tokens.first())?;
        if is_sign(tokens.get(1), Sign::OpenIndex) {
            self.take_row(alloc, name.as_bytes(), after(tokens, 1))
        } else {
            self.take_single(alloc, name.as_bytes(), after(tokens, 1))
        }
    }

    /// Reads a declaration, which begins with `shared`, `private`, `constant` or `never`.
    fn declaration(&mut self, alloc: Global, tokens: &[Token]) -> Result<(), ReadFault>
        ensures { Drafts (draft_view self.new) result (read_declaration (draft_view self.old) tokens.now)
            (declaration_fault (draft_view self.old) tokens.now) }
    {
        if is_word(tokens.first(), b"shared") {
            self.take_shared(alloc, after(tokens, 1))
        } else if is_word(tokens.first(), b"private") {
            self.take_private(alloc, after(tokens, 1))
        } else if is_word(tokens.first(), b"constant") {
            self.take_constant(alloc, after(tokens, 1))
        } else if is_word(tokens.first(), b"never") {
            self.take_never(alloc, after(tokens, 1))
        } else {
            Err(ReadFault::BadForm)
        }
    }

    /// Ends the call that was read last, if there is one. `BadBlock` where a block of it has no end.
    pub fn end_call(&mut self, last: u64) -> Result<(), ReadFault>
        ensures { Drafts (draft_view self.new) result (end_call last (draft_view self.old)) NoBlock }
    {
        match self.innermost_block() {
            Some(_) => Err(ReadFault::BadBlock),
            None => {
                let to = self.algorithm.lines.len();
                end_last(&mut self.calls, to, last)
            }
        }
    }

    /// Adds a call that begins at the next line.
    fn add_call(&mut self, call: AlgorithmCall) -> Result<(), ReadFault>
        ensures ok { OnOk result (draft_view self.new ≡ with_call call (draft_view self.old)) }
        ensures err { IfErr result (λ fault. fault ≡ NoMemory) }
    {
        let from = self.algorithm.lines.len();
        let number = self.number;
        self.calls.push(CallRead {
            call,
            from,
            to: from,
            number,
            last: number,
        })?;
        Ok(())
    }

    /// Begins a call.
    fn begin_call(&mut self, tokens: &[Token], last: u64) -> Result<(), ReadFault>
        ensures { Drafts (draft_view self.new) result (read_call (draft_view self.old) tokens.now last)
            (call_fault (draft_view self.old) tokens.now last) }
    {
        self.end_call(last)?;
        let Some(call) = call_of(tokens.first()) else {
            return Err(ReadFault::BadForm);
        };
        check_end(after(tokens, 1))?;
        if has_call(self.calls.as_slice(), call) {
            return Err(ReadFault::BadCall);
        }
        self.add_call(call)
    }

    /// Whether no call was read yet.
    fn is_before_calls(&self) -> bool
        ensures { result ≡ (length (draft_view self.now).calls == 0) }
    {
        self.calls.is_empty()
    }

    /// Reads a line after the first two. `last` is the number of the line before it that is not empty.
    pub fn line(&mut self, alloc: Global, line: &Tokens, last: u64) -> Result<(), ReadFault>
        requires { IsAscii line.now.answer.items }
        ensures { Drafts (draft_view self.new) result
            (read_line (draft_view self.old) line.now.all.items line.now.answer.items last)
            (line_fault (draft_view self.old) line.now.all.items last) }
    {
        let tokens = line.all.as_slice();
        if is_word(tokens.first(), b"call") {
            self.begin_call(after(tokens, 1), last)
        } else if self.is_before_calls() {
            self.declaration(alloc, tokens)
        } else {
            self.statement(alloc, line)
        }
    }
}
