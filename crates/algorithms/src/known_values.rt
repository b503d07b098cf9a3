//! Values and conditions where some names have no value, as never claims have them.

ghost use Rattle.std.specs.Prelude.{◌≡◌, slice_get};
ghost use Rattle.algorithms.specs.Claims.{known_name, known_value, known_pair, known_index, known_place, known_word, sizes_of, values_compare, pairs_compare, is_satisfied};

use crate::condition::{Comparison, Condition, Pair};
use crate::constants::Constants;
use crate::expression::{Expression, NAMES, name_at};
use crate::line::WordOf;
use crate::world::AlgorithmWorld;

/// The value of a name. `None` where there is no such name, or it has none.
pub fn known_name(names: &[Option<u64>; NAMES], name: usize) -> Option<u64>
    ensures { result ≡ known_name (slice_get names.now name) }
{
    match names.get(name) {
        Some(value) => *value,
        None => None,
    }
}

impl Expression {
    /// The value, where some names have none. `None` where a part of it has none, or it is no number of 64 bits.
    pub fn known_value(&self, constants: Constants, names: &[Option<u64>; NAMES]) -> Option<u64>
        ensures { result ≡ known_value constants names.now self.now }
    {
        match self {
            Expression::Number(number) => Some(*number),
            Expression::Private(name) => known_name(names, *name),
            Expression::Element(row, index) => {
                let index = index.known_value(constants, names)?;
                let name = name_at(*row, index)?;
                known_name(names, name)
            }
            Expression::Me => Some(constants.me),
            Expression::Procs => Some(constants.procs),
            Expression::Limit => Some(constants.limit),
            Expression::Joined(operator, left, right) => {
                let left = left.known_value(constants, names)?;
                let right = right.known_value(constants, names)?;
                operator.apply(left, right)
            }
        }
    }
}

impl Pair {
    /// The values of both parts, where both have one.
    fn known_pair(&self, constants: Constants, names: &[Option<u64>; NAMES]) -> Option<(u64, u64)>
        ensures { result ≡ known_pair constants names.now self.now }
    {
        let first = self.first.known_value(constants, names)?;
        let second = self.second.known_value(constants, names)?;
        Some((first, second))
    }
}

impl Comparison {
    /// Whether two values compare so. Where one is missing they do not.
    fn of_known_values(self, left: Option<u64>, right: Option<u64>) -> bool
        ensures { result ≡ values_compare self left right }
    {
        match (left, right) {
            (Some(left), Some(right)) => self.admits(left.cmp(&right)),
            _ => false,
        }
    }

    /// Whether two pairs compare so. Where one is missing they do not.
    fn of_known_pairs(self, left: Option<(u64, u64)>, right: Option<(u64, u64)>) -> bool
        ensures { result ≡ pairs_compare self left right }
    {
        match (left, right) {
            (Some(left), Some(right)) => {
                self.admits(left.0.cmp(&right.0).then(left.1.cmp(&right.1)))
            }
            _ => false,
        }
    }
}

impl Condition {
    /// Whether the condition holds, where some names have no value. A comparison of a value that is missing does not hold.
    pub fn is_satisfied(&self, constants: Constants, names: &[Option<u64>; NAMES]) -> bool
        ensures { result ≡ is_satisfied constants names.now self.now }
    {
        match self {
            Condition::Compare(comparison, left, right) => comparison.of_known_values(
                left.known_value(constants, names),
                right.known_value(constants, names),
            ),
            Condition::ComparePairs(comparison, left, right) => comparison.of_known_pairs(
                left.known_pair(constants, names),
                right.known_pair(constants, names),
            ),
            Condition::And(first, second) => {
                first.is_satisfied(constants, names) && second.is_satisfied(constants, names)
            }
            Condition::Or(first, second) => {
                first.is_satisfied(constants, names) || second.is_satisfied(constants, names)
            }
            Condition::Not(condition) => !condition.is_satisfied(constants, names),
        }
    }
}

impl AlgorithmWorld {
    /// What values are made of that are the same for all processes.
    pub fn sizes(&self) -> Constants
        ensures { result ≡ sizes_of self.now }
    {
        Constants {
            me: 0,
            procs: self.procs(),
            limit: self.limit(),
        }
    }

    /// The index of a word; that of one without an index is 0. `None` where it has no value.
    fn known_index(&self, word: &WordOf, names: &[Option<u64>; NAMES]) -> Option<u64>
        ensures { result ≡ known_index self.now names.now word.now.index }
    {
        match &word.index {
            None => Some(0),
            Some(index) => index.known_value(self.sizes(), names),
        }
    }

    /// The place of a word in its row. `None` where it has none, or there is no such word.
    fn known_place(&self, word: &WordOf, names: &[Option<u64>; NAMES]) -> Option<u64>
        ensures { result ≡ known_place self.now names.now word.now }
    {
        let declaration = self.algorithm().declarations.get(word.declaration)?;
        let place = self.known_index(word, names)?;
        if place < declaration.extent.places_end(self.procs(), self.limit()) {
            Some(place)
        } else {
            None
        }
    }

    /// The value of a shared word. `None` where its index has no value, or there is no such word.
    pub fn known_word(&self, word: &WordOf, names: &[Option<u64>; NAMES]) -> Option<u64>
        ensures { result ≡ known_word self.now names.now word.now }
    {
        let place = self.known_place(word, names)?;
        let row = self.words().get(word.declaration)?;
        row.get(place as usize).copied()
    }
}
