//! The random moves of a hunt.

ghost use Rattle.std.specs.Prelude.{◌≡◌};
ghost use Rattle.crashlab.specs.hunts.Draws.{is_system_crash};

/// The random moves that a hunt draws: from which seed, how many a round, and how many in 1,000 of them are crashes of all processes at
/// once. More than 1,000 of these count as 1,000.
#[derive(Clone, Copy, Debug, PartialEq, Eq)]
pub struct RandomMoves {
    pub seed: u64,
    pub steps: u64,
    pub system_crashes: u64,
}

impl RandomMoves {
    /// Whether the move of a drawn word is a crash of all processes.
    pub fn is_system_crash(self, word: u32) -> bool
        ensures { result ≡ is_system_crash self.system_crashes word }
    {
        u64::from(word / 4096 % 1000) < self.system_crashes
    }
}
