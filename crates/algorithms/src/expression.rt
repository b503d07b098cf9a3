//! Values of an algorithm: numbers made of names and constants.

ghost use Rattle.std.specs.Prelude.{◌≡◌};
ghost use Rattle.algorithms.specs.Values.{operation_value, is_in_row, name_at, expression_value};

use crate::constants::Constants;

/// The greatest number of private names of one algorithm.
pub const NAMES: usize = 64;

/// The greatest number of values of a row of private names. Each row has that many names, one after the other.
pub const MOST_ELEMENTS: usize = 16;

/// What joins two values.
#[derive(Clone, Copy, Debug, PartialEq, Eq)]
pub enum Operator {
    Sum,
    Difference,
    Product,
    Quotient,
    Remainder,
    Maximum,
    Minimum,
    /// The left value where it is below the right one. The reader makes it of a second index; no sign spells it.
    Within,
}

/// A value of an algorithm.
#[derive(Debug, Drop)]
pub enum Expression {
    Number(u64),
    /// A private name, by its index.
    Private(usize),
    /// A value of a row of private names, by the first name of the row and the index of the value. The reader makes of the index
    /// one that is below the row's size.
    Element(usize, Box<Expression>),
    /// The number of the process.
    Me,
    /// How many processes there are.
    Procs,
    Limit,
    Joined(Operator, Box<Expression>, Box<Expression>),
}

impl Operator {
    /// The two values joined. `None` where that is no number of 64 bits.
    pub fn apply(self, left: u64, right: u64) -> Option<u64>
        ensures { result ≡ operation_value self left right }
    {
        match self {
            Operator::Sum => left.checked_add(right),
            Operator::Difference => left.checked_sub(right),
            Operator::Product => left.checked_mul(right),
            Operator::Quotient => left.checked_div(right),
            Operator::Remainder => left.checked_rem(right),
            Operator::Maximum => Some(left.max(right)),
            Operator::Minimum => Some(left.min(right)),
            Operator::Within => { if left < right { Some(left) } else { None } }
        }
    }
}

/// Whether a name is of the row with this first name.
pub fn is_in_row(row: usize, name: usize) -> bool
    ensures { result ≡ is_in_row row name }
{
    row <= name && name - row < MOST_ELEMENTS
}

/// The name at an index of the row with this first name. `None` where there is none.
pub fn name_at(row: usize, index: u64) -> Option<usize>
    ensures { result ≡ name_at row index }
{
    if index < MOST_ELEMENTS as u64 && row < NAMES {
        Some(row + index as usize)
    } else {
        None
    }
}

impl Expression {
    /// The value, with these values of the private names. `None` where it, or a part of it, is no number of 64 bits.
    pub fn evaluate(&self, constants: Constants, store: &[u64; NAMES]) -> Option<u64>
        ensures { result ≡ expression_value constants store.now self.now }
    {
        match self {
            Expression::Number(number) => Some(*number),
            Expression::Private(name) => store.get(*name).copied(),
            Expression::Element(row, index) => {
                let index = index.evaluate(constants, store)?;
                let name = name_at(*row, index)?;
                store.get(name).copied()
            }
            Expression::Me => Some(constants.me),
            Expression::Procs => Some(constants.procs),
            Expression::Limit => Some(constants.limit),
            Expression::Joined(operator, left, right) => {
                let left = left.evaluate(constants, store)?;
                let right = right.evaluate(constants, store)?;
                operator.apply(left, right)
            }
        }
    }
}
