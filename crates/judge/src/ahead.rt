//! The ahead sets of a start.

ghost use Rattle.std.specs.Prelude.{◌≡◌, map};

use std::marker::Model;

/// For each process the set of processes ahead of it. Order and repeated names don't matter. In contracts it is a list of
/// lists.
#[derive(Debug, Drop)]
pub struct Ahead {
    sets: Vec<Vec<u64>>,
}

impl Model for Ahead {
    ghost use Rattle.std.specs.Prelude.{ℕ, List, map};

    ghost Value = { List (List ℕ) };

    ghost view = { λ a. map (λ names. names.items) a.sets.items };
}

impl Ahead {
    /// The sets, made from a vector for each process.
    pub fn new(sets: Vec<Vec<u64>>) -> Ahead
        ensures { result ≡ map (λ names. names.items) sets.items }
    {
        Ahead { sets }
    }

    /// The sets, for reading.
    pub fn as_slice(&self) -> &[Vec<u64>]
        ensures { map (λ names. names.items) result.now ≡ self.now }
    {
        self.sets.as_slice()
    }

    /// The vectors of the sets.
    pub fn into_vec(self) -> Vec<Vec<u64>>
        ensures { map (λ names. names.items) result.items ≡ self }
    {
        let sets = self.sets;
        sets
    }
}
