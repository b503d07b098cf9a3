//! One process of a world.

ghost use Rattle.std.specs.Prelude.{◌≡◌};
ghost use Rattle.algorithms.specs.Steps.{lasting_names};

use crate::expression::NAMES;

/// Where a process is.
#[derive(Clone, Copy, Debug, PartialEq, Eq)]
pub enum AlgorithmPlace {
    Rest,
    Dead,
    /// Before an access, by the place of its line.
    At(usize),
}

/// The private memory of a process: its place, and the values of its names.
#[derive(Clone, Copy, Debug)]
pub struct AlgorithmProcess {
    pub place: AlgorithmPlace,
    pub store: [u64; NAMES],
}

/// Leaves of the names what lasts over the end of a call: the first `lasting` of them. The others are 0.
pub fn keep(store: &mut [u64; NAMES], lasting: usize)
    ensures { store.new ≡ lasting_names lasting store.old }
{
    for name in lasting..NAMES {
        store[name] = 0;
    }
}
