//! Algorithms with the first values of their words.

use crate::algorithm::Algorithm;
use crate::expression::Expression;

/// The first values of the words of an algorithm.
#[derive(Debug, Drop)]
pub struct FirstValues {
    /// That of the words of each declaration, in which `Me` is the first index of the word. 0 where there is none.
    pub starts: Vec<Option<Expression>>,
}

/// An algorithm, and the first values of its words. A world of it has them only for sizes for which each of them, each constant and
/// each bound on own steps is in range, and each array has 1 to 64 words.
#[derive(Debug, Drop)]
pub struct InitializedAlgorithm {
    pub algorithm: Algorithm,
    /// All words are 0 at the beginning where there are none, and no size is refused for the value of a constant or for an array.
    pub first_values: Option<FirstValues>,
}
