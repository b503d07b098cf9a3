//! The parts of values and conditions, and what joins them.

ghost use Rattle.std.specs.Prelude.{◌≡◌, Some, MatchResult};
ghost use Rattle.algorithms.specs.declared.fault.ReadFault.TheVariants.{BadForm as NoForm};
ghost use Rattle.algorithm_texts.specs.declared.operands.Bracket.TheVariants.{Not as NotHead};
ghost use Rattle.algorithm_texts.specs.declared.operands.Joint.TheVariants.{And as AndJoint, Or as OrJoint};
ghost use Rattle.algorithm_texts.specs.Parts.{part_of, formula_of, value_in, condition_in, join_of, operation_of, comparison_of, enclosed_part, enclosed_two, pair_of_parts};
ghost use Rattle.algorithm_texts.specs.Grammar.{strength};
ghost use Rattle.algorithm_texts.specs.Operands.{Makes, MakesValue, MakesCondition, RefusesAs};

use algorithms::condition::{Comparison, Condition, Pair};
use algorithms::expression::{Expression, Operator};
use algorithms::fault::ReadFault;
use std::alloc::Global;

/// The word before a bracket.
#[derive(Clone, Copy)]
pub enum Bracket {
    Plain,
    Not,
    Max,
    Min,
}

/// What stands between two parts.
#[derive(Clone, Copy)]
pub enum Joint {
    Operator(Operator),
    Comparison(Comparison),
    And,
    Or,
}

/// A whole part of a value or a condition.
#[derive(Drop)]
pub enum Operand {
    Value(Expression),
    Pair(Pair),
    Condition(Condition),
}

/// `BadForm`. It drops the parts that do not go together, so that no caller's proof drops each of their boxes.
pub fn form_fault<T: Drop>(parts: T) -> ReadFault
    ensures { result ≡ NoForm }
{
    drop(parts);
    ReadFault::BadForm
}

impl Joint {
    /// How strongly it binds.
    pub fn strength(self) -> u8
        ensures { result ≡ strength self }
    {
        match self {
            Joint::Or => 1,
            Joint::And => 2,
            Joint::Comparison(_) => 3,
            Joint::Operator(Operator::Sum | Operator::Difference) => 4,
            Joint::Operator(_) => 5,
        }
    }
}

impl Operand {
    /// The part as a value. `BadForm`: it is a pair or a condition.
    pub fn value(self) -> Result<Expression, ReadFault>
        ensures { MakesValue result (value_in (part_of self)) }
    {
        match self {
            Operand::Value(value) => Ok(value),
            other => Err(form_fault(other)),
        }
    }

    /// The part as a condition. `BadForm`: it is a pair or a value.
    pub fn condition(self) -> Result<Condition, ReadFault>
        ensures { MakesCondition result (condition_in (part_of self)) }
    {
        match self {
            Operand::Condition(condition) => Ok(condition),
            other => Err(form_fault(other)),
        }
    }
}

/// Two values as one.
fn operation(
    alloc: Global,
    operator: Operator,
    left: Operand,
    right: Operand,
) -> Result<Operand, ReadFault>
    ensures { Makes result (operation_of operator (part_of left) (part_of right)) }
{
    let (left, right) = (left.value(), right.value());
    let left = Box::new(alloc, left?)?;
    let right = Box::new(alloc, right?)?;
    Ok(Operand::Value(Expression::Joined(operator, left, right)))
}

/// The comparison of two values, or of two pairs.
fn compare(comparison: Comparison, left: Operand, right: Operand) -> Result<Operand, ReadFault>
    ensures { Makes result (comparison_of comparison (part_of left) (part_of right)) }
{
    match left {
        Operand::Value(left) => match right {
            Operand::Value(right) => Ok(Operand::Condition(Condition::Compare(
                comparison, left, right,
            ))),
            other => Err(form_fault((left, other))),
        },
        Operand::Pair(left) => match right {
            Operand::Pair(right) => Ok(Operand::Condition(Condition::ComparePairs(
                comparison, left, right,
            ))),
            other => Err(form_fault((left, other))),
        },
        Operand::Condition(left) => Err(form_fault((left, right))),
    }
}

/// The part as a condition, in a box. `BadForm`: it is a pair or a value.
fn boxed_condition(alloc: Global, part: Operand) -> Result<Box<Condition>, ReadFault>
    ensures { MatchResult result
        (λ boxed. condition_in (part_of part) ≡ Some (formula_of boxed.value))
        (λ fault. RefusesAs fault (condition_in (part_of part)) NoForm) }
{
    Ok(Box::new(alloc, part.condition()?)?)
}

/// Two conditions, of which both have to hold.
fn both(alloc: Global, left: Operand, right: Operand) -> Result<Operand, ReadFault>
    ensures { Makes result (join_of AndJoint (part_of left) (part_of right)) }
{
    let left = boxed_condition(alloc, left);
    let right = boxed_condition(alloc, right);
    Ok(Operand::Condition(Condition::And(left?, right?)))
}

/// Two conditions, of which one has to hold.
fn either(alloc: Global, left: Operand, right: Operand) -> Result<Operand, ReadFault>
    ensures { Makes result (join_of OrJoint (part_of left) (part_of right)) }
{
    let left = boxed_condition(alloc, left);
    let right = boxed_condition(alloc, right);
    Ok(Operand::Condition(Condition::Or(left?, right?)))
}

/// Two parts with what stands between them.
pub fn join(
    alloc: Global,
    joint: Joint,
    left: Operand,
    right: Operand,
) -> Result<Operand, ReadFault>
    ensures { Makes result (join_of joint (part_of left) (part_of right)) }
{
    match joint {
        Joint::Operator(operator) => operation(alloc, operator, left, right),
        Joint::Comparison(comparison) => compare(comparison, left, right),
        Joint::And => both(alloc, left, right),
        Joint::Or => either(alloc, left, right),
    }
}

/// The condition that does not hold where this one does.
fn negation(alloc: Global, part: Operand) -> Result<Operand, ReadFault>
    ensures { Makes result (enclosed_part NotHead (part_of part)) }
{
    let condition = boxed_condition(alloc, part)?;
    Ok(Operand::Condition(Condition::Not(condition)))
}

/// One part in brackets.
pub fn enclose(alloc: Global, head: Bracket, part: Operand) -> Result<Operand, ReadFault>
    ensures { Makes result (enclosed_part head (part_of part)) }
{
    match head {
        Bracket::Not => negation(alloc, part),
        Bracket::Plain => match part {
            Operand::Pair(_) => Err(ReadFault::BadForm),
            whole => Ok(whole),
        },
        Bracket::Max | Bracket::Min => Err(form_fault(part)),
    }
}

/// Two values as one pair.
fn pair(first: Operand, second: Operand) -> Result<Operand, ReadFault>
    ensures { Makes result (pair_of_parts (part_of first) (part_of second)) }
{
    let (first, second) = (first.value(), second.value());
    Ok(Operand::Pair(Pair {
        first: first?,
        second: second?,
    }))
}

/// Two parts in brackets.
pub fn enclose_two(
    alloc: Global,
    head: Bracket,
    first: Operand,
    second: Operand,
) -> Result<Operand, ReadFault>
    ensures { Makes result (enclosed_two head (part_of first) (part_of second)) }
{
    match head {
        Bracket::Plain => pair(first, second),
        Bracket::Not => Err(form_fault((first, second))),
        Bracket::Max => operation(alloc, Operator::Maximum, first, second),
        Bracket::Min => operation(alloc, Operator::Minimum, first, second),
    }
}
