//! Where words live.

ghost use Rattle.std.specs.Prelude.{◌≡◌};
ghost use Rattle.algorithms.specs.Homes.{home_value, home_of};

use crate::access::Address;
use crate::algorithm::Algorithm;
use crate::constants::Constants;
use crate::expression::{Expression, NAMES};

/// The process that a home comes to for the words of an owner, if it is one.
fn home_value(home: &Option<Expression>, owner: u64, procs: u64, limit: u64) -> Option<u64>
    ensures { result ≡ home_value procs limit home.now owner }
{
    match home {
        None => None,
        Some(home) => {
            let me = owner;
            let constants = Constants { me, procs, limit };
            let process = home.evaluate(constants, &[0; NAMES])?;
            if process < procs { Some(process) } else { None }
        }
    }
}

impl Algorithm {
    /// The process at which a word lives in worlds of these sizes. `None`: it lives at none.
    pub fn home_of(&self, word: Address, procs: u64, limit: u64) -> Option<u64>
        ensures { result ≡ home_of self.now procs limit word }
    {
        match self.declarations.get(word.declaration) {
            None => None,
            Some(declaration) => {
                let owner = declaration.extent.owner_at(word.index, procs, limit);
                home_value(&declaration.home, owner, procs, limit)
            }
        }
    }
}
