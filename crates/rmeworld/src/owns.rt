//! The lock words of an image.

ghost use Rattle.std.specs.Prelude.{◌≡◌};

use rmecore::Own;
use std::fmt;
use std::marker::Model;

/// The lock words of a world, by rising process. In contracts they are a list.
#[derive(Drop)]
pub struct Owns {
    owns: Vec<Own>,
}

impl fmt::Debug for Owns {
    fn fmt<W: fmt::Write>(&self, f: &mut fmt::Formatter<W>) -> fmt::Result {
        f.write_str("Owns")
    }
}

impl Model for Owns {
    ghost use Rattle.std.specs.Prelude.{List};
    ghost use Rattle.rmecore.specs.declared.own.Own.{Own as OwnOf};

    ghost Value = { List OwnOf };

    ghost view = { λ o. o.owns.items };
}

impl Owns {
    /// Takes over these lock words. It does not allocate.
    pub fn new(owns: Vec<Own>) -> Owns
        ensures { result ≡ owns.items }
    {
        Owns { owns }
    }

    /// The lock words, for reading.
    pub fn as_slice(&self) -> &[Own]
        ensures { result.now ≡ self.now }
    {
        self.owns.as_slice()
    }

    /// The lock words. It does not allocate.
    pub fn into_vec(self) -> Vec<Own>
        ensures { result.items ≡ self }
    {
        self.owns
    }
}
