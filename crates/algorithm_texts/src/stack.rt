//! What waits while a value or a condition is read.

ghost use Rattle.std.specs.Prelude.{◌≡◌, ◌≤◌, ◌∷◌, [], List, ℕ, map, reverse, OnOk, IfOk, IfErr, MatchOption};
ghost use Rattle.algorithms.specs.declared.fault.ReadFault.TheVariants.{OutOfMemory as NoMemory, BadForm as NoForm, TooBig as ManyBrackets};
ghost use Rattle.algorithm_texts.specs.Parts.{part_of, term_of};
ghost use Rattle.algorithm_texts.specs.declared.tokens.Sign.TheVariants.{OpenIndex as OpenIndexSign};
ghost use Rattle.algorithm_texts.specs.declared.tokens.Token.TheVariants.{Sign as SignToken};
ghost use Rattle.algorithm_texts.specs.Grammar.{element_part};
ghost use Rattle.algorithm_texts.specs.Stacks.{Opened, is_open, brackets, stack_reduction, reading_after_bracket, reading_after_row, closes, closes_index, halves};
ghost use Rattle.algorithm_texts.specs.Operands.{waits_of, stack_of, Makes, Reduces, Turns};

use crate::extents::index_within;
use crate::operands::{Bracket, Joint, Operand, enclose, enclose_two, form_fault, join};
use algorithms::expression::Expression;
use algorithms::fault::ReadFault;
use std::alloc::Global;

/// How deep brackets stand in one another at most.
const DEEPEST: usize = 16;

/// What waits for the part after it.
#[derive(Drop)]
pub enum Waiting {
    Joint(Operand, Joint),
    /// An open bracket.
    Bracket(Bracket),
    /// An open bracket with its first part and a comma.
    Half(Bracket, Operand),
    /// The open index of a row, by the first name of the row, with the row's size.
    Index(usize, Expression),
}

/// What comes next.
#[derive(Drop)]
pub enum StackPlace {
    /// A part.
    Start,
    /// The bracket after its word.
    Head(Bracket),
    /// The index of a row, by the first name of the row, with the row's size.
    Row(usize, Expression),
    /// What follows this part.
    After(Operand),
}

/// What waits, the last at the top.
#[derive(Drop)]
pub struct Stack {
    all: Vec<Waiting>,
}

impl Stack {
    /// A stack on which nothing waits.
    #[tactic(auto, unfolding(crate::specs::Operands::stack_of))]
    pub fn new(alloc: Global) -> Stack
        ensures { stack_of result ≡ [] }
    {
        Stack {
            all: Vec::new(alloc),
        }
    }

    /// Lets this wait above all others.
    #[tactic(auto, unfolding(crate::specs::Operands::stack_of))]
    pub fn push(&mut self, last: Waiting) -> Result<(), ReadFault>
        ensures ok { OnOk result (stack_of self.new ≡ waits_of last ∷ stack_of self.old) }
        ensures err { IfErr result (λ fault. fault ≡ NoMemory) }
    {
        self.all.push(last)?;
        Ok(())
    }

    /// Takes what is at the top.
    #[tactic(auto, unfolding(crate::specs::Operands::stack_of))]
    pub fn pop(&mut self) -> Option<Waiting>
        ensures { MatchOption result ((stack_of self.old ≡ []) × (stack_of self.new ≡ []))
            (λ last. stack_of self.old ≡ waits_of last ∷ stack_of self.new) }
    {
        self.all.pop()
    }

    /// How many brackets are open.
    #[tactic(auto, unfolding(crate::specs::Operands::stack_of))]
    fn brackets(&self) -> usize
        ensures { result ≡ brackets (stack_of self.now) }
    {
        count_brackets(self.all.as_slice())
    }
}

/// Whether an open bracket waits here.
fn is_bracket(waiting: &Waiting) -> bool
    ensures { result ≡ is_open (waits_of waiting.now) }
{
    match waiting {
        Waiting::Joint(_, _) => false,
        Waiting::Bracket(_) | Waiting::Half(_, _) | Waiting::Index(_, _) => true,
    }
}

/// How many open brackets wait.
fn count_brackets(all: &[Waiting]) -> usize
    ensures { result ≡ brackets (reverse (map waits_of all.now)) }
{
    let mut count = 0;
    for waiting in all {
        if is_bracket(waiting) {
            count += 1;
        }
    }
    count
}

/// Lets this wait again, and hands the part back. Where that fails, the part is dropped here.
fn keep_waiting(stack: &mut Stack, last: Waiting, part: Operand) -> Result<Operand, ReadFault>
    ensures ok { IfOk result (λ same. (same ≡ part) × (stack_of stack.new ≡ waits_of last ∷ stack_of stack.old)) }
    ensures err { IfErr result (λ fault. fault ≡ NoMemory) }
{
    match stack.push(last) {
        Ok(()) => Ok(part),
        Err(fault) => {
            drop(part);
            Err(fault)
        }
    }
}

/// Joins a part to what waits, as far as the operators are at least this strong.
pub fn reduce(
    alloc: Global,
    stack: &mut Stack,
    operand: Operand,
    least: u8,
) -> Result<Operand, ReadFault>
    ensures { Reduces (stack_of stack.new) result (stack_reduction least (stack_of stack.old) (part_of operand)) }
{
    let mut part = operand;
    while let Some(last) = stack.pop() {
        match last {
            Waiting::Joint(left, joint) => {
                if joint.strength() < least {
                    part = keep_waiting(stack, Waiting::Joint(left, joint), part)?;
                    return Ok(part);
                }
                part = join(alloc, joint, left, part)?;
            }
            other => {
                part = keep_waiting(stack, other, part)?;
                return Ok(part);
            }
        }
    }
    Ok(part)
}

/// Ends the innermost bracket, after this part.
pub fn close(alloc: Global, stack: &mut Stack, part: Operand) -> Result<StackPlace, ReadFault>
    ensures { (names : List (List ℕ)) → Turns names (stack_of stack.new) result
        (closes names (stack_of stack.old) (part_of part)) NoForm }
{
    match stack.pop() {
        Some(Waiting::Bracket(head)) => Ok(StackPlace::After(enclose(alloc, head, part)?)),
        Some(Waiting::Half(head, first)) => {
            Ok(StackPlace::After(enclose_two(alloc, head, first, part)?))
        }
        last => Err(form_fault((last, part))),
    }
}

/// Lets an open bracket wait with its first part, after the comma.
fn half(stack: &mut Stack, head: Bracket, first: Operand) -> Result<StackPlace, ReadFault>
    ensures { (names : List (List ℕ)) → Turns names (stack_of stack.new) result
        (halves names (Opened head ∷ stack_of stack.old) (part_of first)) NoForm }
{
    match head {
        Bracket::Not => Err(form_fault(first)),
        Bracket::Plain | Bracket::Max | Bracket::Min => {
            stack.push(Waiting::Half(head, first))?;
            Ok(StackPlace::Start)
        }
    }
}

/// Reads the comma of the innermost bracket, after this part.
pub fn comma(stack: &mut Stack, part: Operand) -> Result<StackPlace, ReadFault>
    ensures { (names : List (List ℕ)) → Turns names (stack_of stack.new) result
        (halves names (stack_of stack.old) (part_of part)) NoForm }
{
    match stack.pop() {
        Some(Waiting::Bracket(head)) => half(stack, head, part),
        Some(last) => Err(form_fault((last, part))),
        None => Err(form_fault(part)),
    }
}

/// A value of a row of this size, at this index.
fn element(
    alloc: Global,
    first: usize,
    size: Expression,
    index: Operand,
) -> Result<Operand, ReadFault>
    ensures { Makes result (element_part first (term_of size) (part_of index)) }
{
    let index = index_within(alloc, index.value()?, size)?;
    Ok(Operand::Value(Expression::Element(first, Box::new(alloc, index)?)))
}

/// Ends the innermost index, after this part.
pub fn close_index(alloc: Global, stack: &mut Stack, part: Operand) -> Result<StackPlace, ReadFault>
    ensures { (names : List (List ℕ)) → Turns names (stack_of stack.new) result
        (closes_index names (stack_of stack.old) (part_of part)) NoForm }
{
    match stack.pop() {
        Some(Waiting::Index(first, size)) => {
            Ok(StackPlace::After(element(alloc, first, size, part)?))
        }
        last => Err(form_fault((last, part))),
    }
}

/// Opens the index of a row. `TooBig` where brackets stand too deep.
pub fn open_index(
    stack: &mut Stack,
    first: usize,
    size: Expression,
) -> Result<StackPlace, ReadFault>
    ensures { (names : List (List ℕ)) → Turns names (stack_of stack.new) result
        (reading_after_row names (stack_of stack.old) first (term_of size) (SignToken OpenIndexSign)) ManyBrackets }
{
    if stack.brackets() < DEEPEST {
        stack.push(Waiting::Index(first, size))?;
        Ok(StackPlace::Start)
    } else {
        drop(size);
        Err(ReadFault::TooBig)
    }
}

/// Opens a bracket. `TooBig` where they stand too deep.
pub fn open(stack: &mut Stack, head: Bracket) -> Result<StackPlace, ReadFault>
    ensures { (names : List (List ℕ)) → Turns names (stack_of stack.new) result
        (reading_after_bracket names (stack_of stack.old) head) ManyBrackets }
{
    if stack.brackets() >= DEEPEST {
        return Err(ReadFault::TooBig);
    }
    stack.push(Waiting::Bracket(head))?;
    Ok(StackPlace::Start)
}
