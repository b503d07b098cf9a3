//! Conditions of an algorithm: comparisons of values and of pairs.

ghost use Rattle.std.specs.Prelude.{◌≡◌};
ghost use Rattle.algorithms.specs.Values.{admits, evaluated_pair, holds};
ghost use Rattle.algorithms.specs.declared.condition.Condition.{Compare, ComparePairs};

use crate::constants::Constants;
use crate::expression::{Expression, NAMES};
use std::cmp::Ordering;

/// How two values, or two pairs, are compared.
#[derive(Clone, Copy, Debug, PartialEq, Eq)]
pub enum Comparison {
    Equal,
    NotEqual,
    Less,
    AtMost,
    Greater,
    AtLeast,
}

/// Two values, compared by the first, and then by the second.
#[derive(Debug, Drop)]
pub struct Pair {
    pub first: Expression,
    pub second: Expression,
}

/// A condition of an algorithm. It has no effect.
#[derive(Debug, Drop)]
pub enum Condition {
    Compare(Comparison, Expression, Expression),
    ComparePairs(Comparison, Pair, Pair),
    And(Box<Condition>, Box<Condition>),
    Or(Box<Condition>, Box<Condition>),
    Not(Box<Condition>),
}

impl Comparison {
    /// Whether values in this order compare so.
    pub fn admits(self, ordering: Ordering) -> bool
        ensures { result ≡ admits self ordering }
    {
        match self {
            Comparison::Equal => ordering.is_eq(),
            Comparison::NotEqual => ordering.is_ne(),
            Comparison::Less => ordering.is_lt(),
            Comparison::AtMost => ordering.is_le(),
            Comparison::Greater => ordering.is_gt(),
            Comparison::AtLeast => ordering.is_ge(),
        }
    }

    /// Whether two values compare so.
    fn of_values(
        self,
        left: &Expression,
        right: &Expression,
        constants: Constants,
        store: &[u64; NAMES],
    ) -> Option<bool>
        ensures { result ≡ holds constants store.now (Compare self left.now right.now) }
    {
        let left = left.evaluate(constants, store)?;
        let right = right.evaluate(constants, store)?;
        Some(self.admits(left.cmp(&right)))
    }

    /// Whether two pairs compare so.
    fn of_pairs(
        self,
        left: &Pair,
        right: &Pair,
        constants: Constants,
        store: &[u64; NAMES],
    ) -> Option<bool>
        ensures { result ≡ holds constants store.now (ComparePairs self left.now right.now) }
    {
        let left = left.evaluate(constants, store)?;
        let right = right.evaluate(constants, store)?;
        Some(self.admits(left.0.cmp(&right.0).then(left.1.cmp(&right.1))))
    }
}

impl Pair {
    /// The values of both parts, where both have one.
    fn evaluate(&self, constants: Constants, store: &[u64; NAMES]) -> Option<(u64, u64)>
        ensures { result ≡ evaluated_pair constants store.now self.now }
    {
        let first = self.first.evaluate(constants, store)?;
        let second = self.second.evaluate(constants, store)?;
        Some((first, second))
    }
}

impl Condition {
    /// Whether the condition holds, with these values of the private names. `None` where a value that decides it is no
    /// number of 64 bits: a second condition is read only where the first leaves it open.
    pub fn holds(&self, constants: Constants, store: &[u64; NAMES]) -> Option<bool>
        ensures { result ≡ holds constants store.now self.now }
    {
        match self {
            Condition::Compare(comparison, left, right) => {
                comparison.of_values(left, right, constants, store)
            }
            Condition::ComparePairs(comparison, left, right) => {
                comparison.of_pairs(left, right, constants, store)
            }
            Condition::And(first, second) => {
                if first.holds(constants, store)? {
                    second.holds(constants, store)
                } else {
                    Some(false)
                }
            }
            Condition::Or(first, second) => {
                if first.holds(constants, store)? {
                    Some(true)
                } else {
                    second.holds(constants, store)
                }
            }
            Condition::Not(condition) => Some(!condition.holds(constants, store)?),
        }
    }
}
