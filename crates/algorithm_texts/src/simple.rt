//! Statements that are no blocks.

ghost use Rattle.std.specs.Prelude.{◌≡◌, map, None, MatchResult, IsAscii, string_bytes, slice_get};
ghost use Rattle.algorithms.specs.declared.fault.ReadFault.TheVariants.{OutOfMemory as NoMemory, BadForm as NoForm};
ghost use Rattle.algorithm_texts.specs.Drafts.{draft_view};
ghost use Rattle.algorithm_texts.specs.LineDrafts.{answer_place, Drafts, read_assigned_value, read_assigned, read_set_to, read_private_assignment, read_private_set, read_assignment, placed_answer, read_done, read_goto, read_simple};
ghost use Rattle.std.specs.Option.{option_map};
ghost use Rattle.algorithm_texts.specs.Operands.{row_term};
ghost use Rattle.algorithm_texts.specs.LineFaults.{set_to_fault, private_assignment_fault, private_set_fault, assignment_fault, assigned_value_fault, assigned_fault, label_fault, simple_fault};

use crate::accesses::{begins_swap, begins_word};
use crate::lines::{Draft, Jump};
use crate::names::{is_declared, new_name, text_place};
use crate::parts::{after, after_sign, check_end, ended_without_deed, letters, split_value};
use crate::rows::row_read;
use crate::tokens::{Sign, Token, is_sign, is_word};
use algorithms::expression::Expression;
use algorithms::fault::ReadFault;
use algorithms::line::{LineKind, LocalLine};
use std::alloc::Global;

/// Adds an answer, and says its index.
fn add_answer(alloc: Global, answers: &mut Vec<String>, answer: &[u8]) -> Result<usize, ReadFault>
    requires { IsAscii answer.now }
    ensures { MatchResult result
        (λ place. answer_place (map (λ other. string_bytes other) answers.old.items) answer.now None
        ≡ (place, map (λ other. string_bytes other) answers.new.items))
        (λ fault. fault ≡ NoMemory) }
{
    let place = answers.len();
    answers.push(String::from_utf8_lossy(alloc, answer)?)?;
    Ok(place)
}

/// The index of an answer, which is added where it is new.
fn answer_place(alloc: Global, answers: &mut Vec<String>, answer: &[u8]) -> Result<usize, ReadFault>
    requires { IsAscii answer.now }
    ensures { MatchResult result
        (λ place. placed_answer (map (λ other. string_bytes other) answers.old.items) answer.now
        ≡ (place, map (λ other. string_bytes other) answers.new.items))
        (λ fault. fault ≡ NoMemory) }
{
    match text_place(answers.as_slice(), answer) {
        Some(place) => Ok(place),
        None => add_answer(alloc, answers, answer),
    }
}

impl Draft {
    /// `:= swap ..`, `:= WORD` or `:= VALUE` after a private name.
    fn set_to(&mut self, alloc: Global, name: usize, tokens: &[Token]) -> Result<(), ReadFault>
        ensures { Drafts (draft_view self.new) result (read_set_to (draft_view self.old) name tokens.now)
            (set_to_fault (draft_view self.old) tokens.now) }
    {
        let rest = after_sign(tokens, Sign::Assign)?;
        self.take_assigned(alloc, name, rest)
    }

    /// `NAME := swap ..`, `NAME := WORD` or `NAME := VALUE`.
    fn sets(&mut self, alloc: Global, tokens: &[Token]) -> Result<(), ReadFault>
        ensures { Drafts (draft_view self.new) result (read_private_assignment (draft_view self.old) tokens.now)
            (private_assignment_fault (draft_view self.old) tokens.now) }
    {
        let name = self.name(alloc, tokens.first())?;
        self.set_to(alloc, name, after(tokens, 1))
    }

    /// `WORD := VALUE`, or what a private name is set to.
    fn assignment(&mut self, alloc: Global, tokens: &[Token]) -> Result<(), ReadFault>
        ensures { Drafts (draft_view self.new) result (read_assignment (draft_view self.old) tokens.now)
            (assignment_fault (draft_view self.old) tokens.now) }
    {
        let Some(first) = letters(tokens.first()) else {
            return Err(ReadFault::BadForm);
        };
        if is_declared(&self.algorithm, first.as_bytes()) {
            self.stores(alloc, tokens)
        } else {
            let row = row_read(alloc, &self.algorithm, first.as_bytes())?;
            self.private_set(alloc, row, tokens)
        }
    }

    /// What is set whose name is no shared word: this row, where there is one, else a private name.
    fn private_set(
        &mut self,
        alloc: Global,
        row: Option<(usize, Expression)>,
        tokens: &[Token],
    ) -> Result<(), ReadFault>
        ensures { Drafts (draft_view self.new) result (read_private_set (draft_view self.old) tokens.now (option_map row_term row))
            (private_set_fault (draft_view self.old) tokens.now (option_map row_term row)) }
    {
        if let Some((first, size)) = row {
            return self.set_row(alloc, first, size, after(tokens, 1));
        }
        if is_sign(tokens.get(1), Sign::OpenIndex) {
            Err(ReadFault::UnknownName)
        } else if is_sign(tokens.get(1), Sign::Assign) {
            self.sets(alloc, tokens)
        } else {
            Err(ReadFault::BadForm)
        }
    }

    /// A value that is assigned to a private name.
    fn assigned_value(
        &mut self,
        alloc: Global,
        name: usize,
        tokens: &[Token],
    ) -> Result<(), ReadFault>
        ensures { Drafts (draft_view self.new) result (read_assigned_value (draft_view self.old) name tokens.now)
            (assigned_value_fault (draft_view self.old) tokens.now) }
    {
        let (assigned, rest) = split_value(tokens);
        let value = self.value(alloc, assigned)?;
        ended_without_deed(rest)?;
        self.add_local(LocalLine::Assign { name, value })?;
        Ok(())
    }

    /// What is assigned to a private name: a swap's word, a shared word, or a value.
    fn take_assigned(
        &mut self,
        alloc: Global,
        name: usize,
        tokens: &[Token],
    ) -> Result<(), ReadFault>
        ensures { Drafts (draft_view self.new) result (read_assigned (draft_view self.old) name tokens.now)
            (assigned_fault (draft_view self.old) tokens.now) }
    {
        if begins_swap(tokens) {
            self.swaps(alloc, name, after(tokens, 1))
        } else if begins_word(self, tokens.first(), tokens.get(1)) {
            self.loads(alloc, name, tokens)
        } else {
            self.assigned_value(alloc, name, tokens)
        }
    }

    /// `done WORDS`.
    fn take_done(&mut self, alloc: Global, rest: &[Token], answer: &[u8]) -> Result<(), ReadFault>
        requires { IsAscii answer.now }
        ensures { Drafts (draft_view self.new) result (read_done (draft_view self.old) rest.now answer.now) NoForm }
    {
        check_end(rest)?;
        let place = answer_place(alloc, &mut self.algorithm.answers, answer)?;
        self.add(LineKind::Done(place))?;
        Ok(())
    }

    /// `goto NAME`.
    fn jump(&mut self, rest: &[Token]) -> Result<(), ReadFault>
        ensures { Drafts (draft_view self.new) result (read_goto (draft_view self.old) rest.now) (label_fault (slice_get rest.now 0)) }
    {
        let name = new_name(rest.first())?;
        check_end(after(rest, 1))?;
        let place = self.add_local(LocalLine::Goto(0))?;
        self.jumps.push(Jump { place, name })?;
        Ok(())
    }

    /// A statement that is no block.
    pub fn take_simple(
        &mut self,
        alloc: Global,
        tokens: &[Token],
        answer: &[u8],
    ) -> Result<(), ReadFault>
        requires { IsAscii answer.now }
        ensures { Drafts (draft_view self.new) result (read_simple (draft_view self.old) tokens.now answer.now)
            (simple_fault (draft_view self.old) tokens.now) }
    {
        let first = tokens.first();
        if is_word(first, b"goto") {
            self.jump(after(tokens, 1))
        } else if is_word(first, b"done") {
            self.take_done(alloc, after(tokens, 1), answer)
        } else if is_word(first, b"this") {
            self.deed(tokens)
        } else if is_word(first, b"await") {
            self.awaits(alloc, after(tokens, 1))
        } else {
            self.assignment(alloc, tokens)
        }
    }
}
