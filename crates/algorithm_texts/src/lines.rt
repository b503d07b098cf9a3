//! An algorithm as far as its text was read, and what one line adds to it.

ghost use Rattle.std.specs.Prelude.{◌≡◌, map, length, slice_get, Some, MatchResult, IfOk, IfErr, OnOk};
ghost use Rattle.std.specs.Option.{option_copied};
ghost use Rattle.algorithms.specs.declared.fault.ReadFault.TheVariants.{OutOfMemory as NoMemory};
ghost use Rattle.algorithm_texts.specs.Parts.{term_of, formula_of};
ghost use Rattle.algorithm_texts.specs.Operands.{RefusesAs, MakesName};
ghost use Rattle.algorithm_texts.specs.Drafts.{draft_view, form_of, local_form, line_of, form_with_place, leading};
ghost use Rattle.algorithm_texts.specs.LineDrafts.{scope_in, read_value, read_condition, name_set, with_names, with_form, landing};
ghost use Rattle.algorithm_texts.specs.LineFaults.{name_set_fault, value_fault};

use crate::names::name_set;
use crate::tokens::{LineWord, Token};
use crate::values::{condition, value};
use algorithms::algorithm::{Algorithm, AlgorithmCall};
use algorithms::condition::Condition;
use algorithms::expression::Expression;
use algorithms::fault::ReadFault;
use algorithms::line::{AlgorithmLine, LineKind, LocalLine};
use std::alloc::Global;

/// A block whose end is not read yet: the place of its first line, and what it is.
#[derive(Clone, Copy)]
pub struct Opened {
    pub place: usize,
    /// The place of the first line in it.
    pub first: usize,
    pub kind: Block,
    /// Its index among all blocks.
    pub block: usize,
}

#[derive(Clone, Copy)]
pub enum Block {
    If,
    Else,
    For { name: usize },
}

/// A label: its name, its place, the block in which it stands, and its line.
#[derive(Clone, Copy)]
pub struct Label {
    pub name: LineWord,
    pub place: usize,
    pub block: Option<usize>,
    pub number: u64,
}

/// A goto: its place, and the label that it names.
#[derive(Clone, Copy)]
pub struct Jump {
    pub place: usize,
    pub name: LineWord,
}

/// A label that a claim names, and the line of the claim.
#[derive(Clone, Copy)]
pub struct ClaimLabel {
    pub name: LineWord,
    pub number: u64,
}

/// A call that was read: its lines, from a place to a place, and the number of the line that begins it.
#[derive(Clone, Copy)]
pub struct CallRead {
    pub call: AlgorithmCall,
    pub from: usize,
    pub to: usize,
    pub number: u64,
    /// The number of its last line.
    pub last: u64,
}

/// An algorithm as far as its text was read.
#[derive(Drop)]
pub struct Draft {
    pub algorithm: Algorithm,
    /// The first value of the words of each declaration, where one is said.
    pub starts: Vec<Option<Expression>>,
    /// Whether a first value, a constant, or an array of another size than `procs` is said.
    pub says_values: bool,
    pub opened: Vec<Opened>,
    /// The first place of each block, and the place after it.
    pub blocks: Vec<(usize, usize)>,
    pub labels: Vec<Label>,
    pub jumps: Vec<Jump>,
    pub calls: Vec<CallRead>,
    /// The labels that claims name, by their places in the claims.
    pub claim_labels: Vec<ClaimLabel>,
    /// The number of the line that is read.
    pub number: u64,
}

/// Lets a goto, or a local line that leads past a block, lead to this place.
fn lead_local(line: &mut LocalLine, place: usize)
    ensures { local_form line.new ≡ form_with_place place (local_form line.old) }
{
    match line {
        LocalLine::Branch { otherwise, .. } => *otherwise = place,
        LocalLine::First { after, .. } => *after = place,
        LocalLine::Goto(target) => *target = place,
        LocalLine::Assign { .. }
        | LocalLine::AssignRow { .. }
        | LocalLine::Note(_)
        | LocalLine::Next { .. } => {}
    }
}

/// Lets a goto, or a line that leads past a block, lead to this place.
fn lead_to(form: &mut LineKind, place: usize)
    ensures { form_of form.new ≡ form_with_place place (form_of form.old) }
{
    match form {
        LineKind::Local(line) => lead_local(line, place),
        LineKind::Access(_) | LineKind::Done(_) => {}
    }
}

/// Lets the line at a place lead to another one.
pub fn lead_line(lines: &mut Vec<AlgorithmLine>, place: usize, target: usize)
    ensures { map line_of lines.new.items
        ≡ leading (map line_of lines.old.items) place target (slice_get (map line_of lines.old.items) place) }
{
    if let Some(line) = lines.get_mut(place) {
        lead_to(&mut line.form, target);
    }
}

impl Draft {
    /// Adds a line, and answers its place.
    pub fn add(&mut self, form: LineKind) -> Result<usize, ReadFault>
        ensures place { IfOk result (λ place. place ≡ length (draft_view self.old).lines) }
        ensures ok { OnOk result (draft_view self.new ≡ with_form (form_of form) (draft_view self.old)) }
        ensures err { IfErr result (λ fault. fault ≡ NoMemory) }
    {
        let place = self.algorithm.lines.len();
        let number = self.number;
        self.algorithm.lines.push(AlgorithmLine { number, form })?;
        Ok(place)
    }

    /// Adds a line that touches no shared word, and answers its place.
    pub fn add_local(&mut self, line: LocalLine) -> Result<usize, ReadFault>
        ensures place { IfOk result (λ place. place ≡ length (draft_view self.old).lines) }
        ensures ok { OnOk result (draft_view self.new ≡ with_form (local_form line) (draft_view self.old)) }
        ensures err { IfErr result (λ fault. fault ≡ NoMemory) }
    {
        self.add(LineKind::Local(line))
    }

    /// Lets a line that leads past a block lead to the next place.
    pub fn land(&mut self, place: usize)
        ensures { draft_view self.new ≡ landing place (draft_view self.old) }
    {
        let next = self.algorithm.lines.len();
        lead_line(&mut self.algorithm.lines, place, next);
    }

    /// The value that the tokens say.
    pub fn value(&mut self, alloc: Global, tokens: &[Token]) -> Result<Expression, ReadFault>
        ensures value { MatchResult result
            (λ v. read_value (scope_in (draft_view self.old)) (draft_view self.old).names tokens.now
            ≡ Some (term_of v, (draft_view self.new).names))
            (λ fault. RefusesAs fault (read_value (scope_in (draft_view self.old)) (draft_view self.old).names tokens.now)
            (value_fault (scope_in (draft_view self.old)) (draft_view self.old).names tokens.now)) }
        ensures kept { draft_view self.new ≡ with_names (draft_view self.new).names (draft_view self.old) }
    {
        value(alloc, &mut self.algorithm, tokens)
    }

    /// The condition that the tokens say.
    pub fn condition(&mut self, alloc: Global, tokens: &[Token]) -> Result<Condition, ReadFault>
        ensures condition { MatchResult result
            (λ c. read_condition (scope_in (draft_view self.old)) (draft_view self.old).names tokens.now
            ≡ Some (formula_of c, (draft_view self.new).names))
            (λ fault. RefusesAs fault (read_condition (scope_in (draft_view self.old)) (draft_view self.old).names tokens.now)
            (value_fault (scope_in (draft_view self.old)) (draft_view self.old).names tokens.now)) }
        ensures kept { draft_view self.new ≡ with_names (draft_view self.new).names (draft_view self.old) }
    {
        condition(alloc, &mut self.algorithm, tokens)
    }

    /// The private name that a line sets.
    pub fn name(&mut self, alloc: Global, token: Option<&Token>) -> Result<usize, ReadFault>
        ensures name { MakesName (draft_view self.new).names result
            (name_set (scope_in (draft_view self.old)) (draft_view self.old).names (option_copied token.entry))
            (name_set_fault (scope_in (draft_view self.old)) (option_copied token.entry)) }
        ensures kept { draft_view self.new ≡ with_names (draft_view self.new).names (draft_view self.old) }
    {
        name_set(alloc, &mut self.algorithm, token)
    }
}
