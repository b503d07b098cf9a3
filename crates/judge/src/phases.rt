//! A phase for each process.

ghost use Rattle.std.specs.Prelude.{◌≡◌};

use rmecore::Phase;
use std::marker::Model;

/// The phases of all processes, by rising index. In contracts they are a list.
#[derive(Debug, Drop)]
pub struct Phases {
    items: Vec<Phase>,
}

impl Model for Phases {
    ghost use Rattle.std.specs.Prelude.{List};
    ghost use Rattle.rmecore.specs.declared.phase.Phase.{Phase};

    ghost Value = { List Phase };

    ghost view = { λ a. a.items.items };
}

impl Phases {
    /// The phases of a vector.
    pub fn new(items: Vec<Phase>) -> Phases
        ensures { result ≡ items.items }
    {
        Phases { items }
    }

    /// The phases, for reading.
    pub fn as_slice(&self) -> &[Phase]
        ensures { result.now ≡ self.now }
    {
        self.items.as_slice()
    }

    /// The vector of the phases.
    pub fn into_vec(self) -> Vec<Phase>
        ensures { result.items ≡ self }
    {
        let items = self.items;
        items
    }
}
