//! How many words a declaration has.

ghost use Rattle.std.specs.Prelude.{◌≡◌};
ghost use Rattle.algorithms.specs.Extents.{size_value, or_zero, extent_size, extent_length, owner_at, places_end, is_size, has_size, is_plain, row_width};

use crate::algorithm::{Declaration, Extent};
use crate::constants::{Constants, MOST_PROCS};
use crate::expression::{Expression, NAMES, Operator};

/// The value of a size.
pub(crate) fn size_value(size: &Expression, procs: u64, limit: u64) -> Option<u64>
    ensures { result ≡ size_value procs limit size.now }
{
    let me = 0;
    let constants = Constants { me, procs, limit };
    size.evaluate(constants, &[0; NAMES])
}

/// A value, or 0 where there is none.
pub(crate) fn or_zero(value: Option<u64>) -> u64
    ensures { result ≡ or_zero value }
{
    match value {
        None => 0,
        Some(value) => value,
    }
}

/// Whether an array may have this number of words.
fn is_size(size: Option<u64>) -> bool
    ensures { result ≡ is_size size }
{
    match size {
        None => false,
        Some(size) => 1 <= size && size <= MOST_PROCS as u64,
    }
}

impl Extent {
    /// How many words there are in worlds of these sizes.
    fn size(&self, procs: u64, limit: u64) -> Option<u64>
        ensures { result ≡ extent_size procs limit self.now }
    {
        match self {
            Extent::One => Some(1),
            Extent::Each => Some(procs),
            Extent::Array(size) | Extent::Table(size, _) => size_value(size, procs, limit),
        }
    }

    /// How many words there are in worlds of these sizes. 0: the size has no value.
    pub fn length(&self, procs: u64, limit: u64) -> u64
        ensures { result ≡ extent_length procs limit self.now }
    {
        or_zero(self.size(procs, limit))
    }

    /// Whether there are worlds of these sizes.
    pub(crate) fn has_size(&self, procs: u64, limit: u64) -> bool
        ensures { result ≡ has_size procs limit self.now }
    {
        match self {
            Extent::One | Extent::Each => true,
            Extent::Array(size) | Extent::Table(size, _) => {
                is_size(size_value(size, procs, limit))
            }
        }
    }

    /// The owner of the word at a place: its first index.
    pub(crate) fn owner_at(&self, place: u64, procs: u64, limit: u64) -> u64
        ensures { result ≡ owner_at procs limit self.now place }
    {
        match self {
            Extent::One | Extent::Each | Extent::Array(_) => place,
            Extent::Table(_, columns) => match size_value(columns, procs, limit) {
                None => 0,
                Some(columns) => or_zero(Operator::Quotient.apply(place, columns)),
            },
        }
    }

    /// Where the places of words end.
    pub(crate) fn places_end(&self, procs: u64, limit: u64) -> u64
        ensures { result ≡ places_end procs limit self.now }
    {
        match self {
            Extent::One | Extent::Each => procs,
            Extent::Array(size) | Extent::Table(size, _) => {
                or_zero(size_value(size, procs, limit)).min(MOST_PROCS as u64)
            }
        }
    }

    /// Whether it is one word, or one for each process.
    fn is_plain(&self) -> bool
        ensures { result ≡ is_plain self.now }
    {
        match self {
            Extent::One | Extent::Each => true,
            Extent::Array(_) | Extent::Table(..) => false,
        }
    }
}

/// How many words of each row accesses may come to: as many as there are processes, or all where there is an array of its own size.
pub fn row_width(declarations: &[Declaration], procs: u64) -> u64
    ensures { result ≡ row_width declarations.now procs }
{
    for declaration in declarations {
        if !declaration.extent.is_plain() {
            return procs.max(MOST_PROCS as u64);
        }
    }
    procs
}
