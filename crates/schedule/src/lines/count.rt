//! The number of steps that a line asks for.

ghost use Rattle.std.specs.Prelude.{◌≡◌, ℕ, ◌≤◌, ◌↔◌, IsSome, IfSome};

use std::marker::Model;

/// A number of steps, from 1 to 1,000,000.
#[derive(Clone, Copy, Debug, PartialEq, Eq)]
pub struct Count {
    value: u64,
}

impl Model for Count {
    ghost Value = { ℕ };

    ghost view = { λ c. c.value };

    ghost invariant = { λ c. (1 ≤ c.value) × (c.value ≤ 1000000) };

    ghost inverse = { λ n. record { value = n } };
}

impl Count {
    /// One step.
    pub const ONE: Count = Count { value: 1 };

    /// This number of steps. None unless it is from 1 to 1,000,000.
    pub fn new(value: u64) -> Option<Count>
        ensures value { IfSome result (λ c. c ≡ value) }
        ensures valid { IsSome result ↔ ((1 ≤ value) × (value ≤ 1000000)) }
    {
        if value >= 1 && value <= 1_000_000 {
            Some(Count { value })
        } else {
            None
        }
    }

    /// The number of steps.
    pub fn get(self) -> u64
        ensures value { result ≡ self }
        ensures least { 1 ≤ result }
        ensures most { result ≤ 1000000 }
    {
        self.value
    }
}
