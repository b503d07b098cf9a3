//! Blocks and labels, and all lines of a call.

ghost use Rattle.std.specs.Prelude.{◌≡◌, ◌∷◌, [], List, length, reverse, slice_get, Some, MatchOption, MatchResult, OnOk, IfErr, IsAscii};
ghost use Rattle.algorithms.specs.declared.fault.ReadFault.TheVariants.{OutOfMemory as NoMemory, BadBlock as NoBlock, TooBig as ManyOpen};
ghost use Rattle.algorithm_texts.specs.declared.lines.Opened.{Opened as OpenedOf};
ghost use Rattle.algorithm_texts.specs.Operands.{RefusesAs};
ghost use Rattle.algorithm_texts.specs.Drafts.{draft_view, members_form};
ghost use Rattle.algorithm_texts.specs.LineDrafts.{Drafts, opening, closing, ended_at, read_test, read_then, read_if, is_loop_of, is_loop, is_looping, loops, loop_opened, read_for, else_in, read_else, going_round, end_in, read_end, read_label, read_statement, block_in};
ghost use Rattle.algorithm_texts.specs.LineFaults.{test_fault, simple_fault, branch_fault, loop_fault, for_fault, else_in_fault, else_fault, end_fault, label_fault, statement_fault};

use crate::lines::{Block, Draft, Label, Opened};
use crate::loops::members_at;
use crate::names::new_name;
use crate::parts::{after, after_word, begins_no_simple, check_end, split_value};
use crate::tokens::{Sign, Token, Tokens, is_sign, is_word};
use algorithms::condition::Condition;
use algorithms::fault::ReadFault;
use algorithms::line::{LocalLine, Members};
use std::alloc::Global;

/// How deep blocks stand in one another at most.
const DEEPEST_BLOCK: usize = 16;

/// How deep loops stand in one another at most.
const DEEPEST_LOOP: usize = 2;

/// Whether a block is a loop that sets this name.
fn is_loop_of(name: usize, block: Block) -> bool
    ensures { result ≡ is_loop_of name block }
{
    match block {
        Block::For { name: other } => other == name,
        Block::If | Block::Else => false,
    }
}

/// Whether a block is a loop.
fn is_loop(block: Block) -> bool
    ensures { result ≡ is_loop block }
{
    match block {
        Block::For { .. } => true,
        Block::If | Block::Else => false,
    }
}

/// Whether a loop of this name is open.
fn is_looping(opened: &[Opened], name: usize) -> bool
    ensures { result ≡ is_looping name (reverse opened.now) }
{
    let mut looping = false;
    for block in opened {
        looping = is_loop_of(name, block.kind) || looping;
    }
    looping
}

/// How many loops are open.
fn loops(opened: &[Opened]) -> usize
    ensures { result ≡ loops (reverse opened.now) }
{
    let mut count = 0;
    for block in opened {
        if is_loop(block.kind) {
            count += 1;
        }
    }
    count
}

/// Lets a block end before a place.
fn end_block(blocks: &mut Vec<(usize, usize)>, block: usize, place: usize)
    ensures { blocks.new.items ≡ ended_at blocks.old.items block place (slice_get blocks.old.items block) }
{
    if let Some(block) = blocks.get_mut(block) {
        block.1 = place;
    }
}

impl Draft {
    /// Opens a block whose head is the line at `place`. `TooBig`: too many blocks are open.
    fn open(&mut self, place: usize, kind: Block) -> Result<(), ReadFault>
        ensures { Drafts (draft_view self.new) result (opening place kind (draft_view self.old)) ManyOpen }
    {
        if self.opened.len() >= DEEPEST_BLOCK {
            return Err(ReadFault::TooBig);
        }
        let block = self.blocks.len();
        let from = self.algorithm.lines.len();
        self.blocks.push((from, from))?;
        self.opened.push(Opened {
            place,
            first: from,
            kind,
            block,
        })?;
        Ok(())
    }

    /// The innermost block.
    pub fn innermost_block(&self) -> Option<Opened>
        ensures { MatchOption result ((draft_view self.now).opened ≡ [])
            (λ o. (rest : List OpenedOf) × ((draft_view self.now).opened ≡ o ∷ rest)) }
    {
        self.opened.last().copied()
    }

    /// Ends the innermost block.
    fn close(&mut self) -> Option<Opened>
        ensures { MatchOption result ((draft_view self.old).opened ≡ [])
            (λ o. ((draft_view self.old).opened ≡ o ∷ (draft_view self.new).opened)
            × (draft_view self.new ≡ closing o (draft_view self.new).opened (draft_view self.old))) }
    {
        let opened = self.opened.pop()?;
        let to = self.algorithm.lines.len();
        end_block(&mut self.blocks, opened.block, to);
        Some(opened)
    }

    /// Adds the line of `if CONDITION then`, and answers its place and the tokens after it.
    fn test<'t>(
        &mut self,
        alloc: Global,
        tokens: &'t [Token],
    ) -> Result<(usize, &'t [Token]), ReadFault>
        ensures { MatchResult result
            (λ r. (r.0 ≡ length (draft_view self.old).lines)
            × (read_test (draft_view self.old) tokens.now ≡ Some (draft_view self.new, r.1.now)))
            (λ fault. RefusesAs fault (read_test (draft_view self.old) tokens.now) (test_fault (draft_view self.old) tokens.now)) }
    {
        let (test, rest) = split_value(tokens);
        let condition: Condition = self.condition(alloc, test)?;
        let otherwise = 0;
        let place = self.add_local(LocalLine::Branch {
            condition,
            otherwise,
        })?;
        Ok((place, after_word(rest, b"then")?))
    }

    /// The statement of a condition in the same line.
    fn then(
        &mut self,
        alloc: Global,
        place: usize,
        tokens: &[Token],
        answer: &[u8],
    ) -> Result<(), ReadFault>
        requires { IsAscii answer.now }
        ensures { Drafts (draft_view self.new) result (read_then place (draft_view self.old) tokens.now answer.now)
            (simple_fault (draft_view self.old) tokens.now) }
    {
        self.take_simple(alloc, tokens, answer)?;
        self.land(place);
        Ok(())
    }

    /// `if CONDITION then`, with a statement in the same line or a block after it.
    fn branch(&mut self, alloc: Global, tokens: &[Token], answer: &[u8]) -> Result<(), ReadFault>
        requires { IsAscii answer.now }
        ensures { Drafts (draft_view self.new) result (read_if (draft_view self.old) tokens.now answer.now)
            (branch_fault (draft_view self.old) tokens.now) }
    {
        let (place, rest) = self.test(alloc, tokens)?;
        if rest.is_empty() {
            self.open(place, Block::If)
        } else if begins_no_simple(rest) {
            Err(ReadFault::BadForm)
        } else {
            self.then(alloc, place, rest, answer)
        }
    }

    /// Begins a loop. `NameTaken` where one round it sets its name.
    fn begin_loop(&mut self, name: usize, members: Members) -> Result<(), ReadFault>
        ensures { Drafts (draft_view self.new) result (loop_opened name (members_form members) (draft_view self.old))
            (loop_fault name (draft_view self.old).opened) }
    {
        if is_looping(self.opened.as_slice(), name) {
            return Err(ReadFault::NameTaken);
        }
        if loops(self.opened.as_slice()) >= DEEPEST_LOOP {
            return Err(ReadFault::TooBig);
        }
        let place = self.add_local(LocalLine::First {
            name,
            members,
            after: 0,
        })?;
        self.open(place, Block::For { name })
    }

    /// `for NAME in MEMBERS`, or `for NAME from VALUE to VALUE`.
    fn loop_head(&mut self, alloc: Global, tokens: &[Token]) -> Result<(), ReadFault>
        ensures { Drafts (draft_view self.new) result (read_for (draft_view self.old) tokens.now)
            (for_fault (draft_view self.old) tokens.now) }
    {
        let name = self.name(alloc, tokens.first())?;
        if name < self.algorithm.lasting {
            return Err(ReadFault::NameTaken);
        }
        let members = self.members(alloc, after(tokens, 1))?;
        self.begin_loop(name, members)
    }

    /// Ends the first part of a condition, and begins the second.
    fn begin_other(&mut self) -> Result<(), ReadFault>
        ensures { Drafts (draft_view self.new) result (else_in (draft_view self.old).opened (draft_view self.old))
            (else_in_fault (draft_view self.old).opened) }
    {
        let place = self.add_local(LocalLine::Goto(0))?;
        match self.close() {
            None => Err(ReadFault::BadBlock),
            Some(opened) => match opened.kind {
                Block::If => {
                    self.land(opened.place);
                    self.open(place, Block::Else)
                }
                Block::Else => Err(ReadFault::BadBlock),
                Block::For { .. } => Err(ReadFault::BadBlock),
            },
        }
    }

    /// `else`.
    fn take_else(&mut self, tokens: &[Token]) -> Result<(), ReadFault>
        ensures { Drafts (draft_view self.new) result (read_else (draft_view self.old) tokens.now)
            (else_fault (draft_view self.old) tokens.now) }
    {
        check_end(tokens)?;
        self.begin_other()
    }

    /// Adds the line that begins the next round of a loop, where the block is one.
    fn go_round(&mut self, alloc: Global, opened: Opened) -> Result<(), ReadFault>
        ensures ok { OnOk result (draft_view self.new ≡ going_round opened.place opened.first opened.kind (draft_view self.old)) }
        ensures err { IfErr result (λ fault. fault ≡ NoMemory) }
    {
        match opened.kind {
            Block::For { name } => {
                let body = opened.first;
                let members = members_at(alloc, self.algorithm.lines.as_slice(), opened.place)?;
                self.add_local(LocalLine::Next {
                    name,
                    members,
                    body,
                })?;
                Ok(())
            }
            Block::If | Block::Else => Ok(()),
        }
    }

    /// Ends the innermost block, and lets its first line lead past it.
    fn end_innermost(&mut self, alloc: Global) -> Result<(), ReadFault>
        ensures { Drafts (draft_view self.new) result (end_in (draft_view self.old).opened (draft_view self.old)) NoBlock }
    {
        let opened = self.innermost_block().ok_or(ReadFault::BadBlock)?;
        self.go_round(alloc, opened)?;
        self.close();
        self.land(opened.place);
        Ok(())
    }

    /// `end`.
    fn end(&mut self, alloc: Global, tokens: &[Token]) -> Result<(), ReadFault>
        ensures { Drafts (draft_view self.new) result (read_end (draft_view self.old) tokens.now) (end_fault tokens.now) }
    {
        check_end(tokens)?;
        self.end_innermost(alloc)
    }

    /// The innermost block, by its index.
    fn block(&self) -> Option<usize>
        ensures { result ≡ block_in (draft_view self.now).opened }
    {
        match self.innermost_block() {
            Some(opened) => Some(opened.block),
            None => None,
        }
    }

    /// `NAME:`.
    fn label(&mut self, tokens: &[Token]) -> Result<(), ReadFault>
        ensures { Drafts (draft_view self.new) result (read_label (draft_view self.old) tokens.now) (label_fault (slice_get tokens.now 0)) }
    {
        let name = new_name(tokens.first())?;
        check_end(after(tokens, 2))?;
        let place = self.algorithm.lines.len();
        let block = self.block();
        let number = self.number;
        self.labels.push(Label {
            name,
            place,
            block,
            number,
        })?;
        Ok(())
    }

    /// Reads a line of a call.
    pub fn statement(&mut self, alloc: Global, line: &Tokens) -> Result<(), ReadFault>
        requires { IsAscii line.now.answer.items }
        ensures { Drafts (draft_view self.new) result
            (read_statement (draft_view self.old) line.now.all.items line.now.answer.items)
            (statement_fault (draft_view self.old) line.now.all.items) }
    {
        let tokens = line.all.as_slice();
        let first = tokens.first();
        if is_word(first, b"if") {
            self.branch(alloc, after(tokens, 1), line.answer.as_slice())
        } else if is_word(first, b"for") {
            self.loop_head(alloc, after(tokens, 1))
        } else if is_word(first, b"else") {
            self.take_else(after(tokens, 1))
        } else if is_word(first, b"end") {
            self.end(alloc, after(tokens, 1))
        } else if is_sign(tokens.get(1), Sign::Colon) {
            self.label(tokens)
        } else {
            self.take_simple(alloc, tokens, line.answer.as_slice())
        }
    }
}
