//! The data words of an image.

ghost use Rattle.std.specs.Prelude.{◌≡◌};

use std::fmt;
use std::marker::Model;

/// The data words of a world, by rising index. In contracts they are a list.
#[derive(Drop)]
pub struct DataWords {
    words: Vec<u64>,
}

impl fmt::Debug for DataWords {
    fn fmt<W: fmt::Write>(&self, f: &mut fmt::Formatter<W>) -> fmt::Result {
        f.write_str("Cells")
    }
}

impl Model for DataWords {
    ghost use Rattle.std.specs.Prelude.{ℕ, List};

    ghost Value = { List ℕ };

    ghost view = { λ c. c.words.items };
}

impl DataWords {
    /// Takes over these words. It does not allocate.
    pub fn new(words: Vec<u64>) -> DataWords
        ensures { result ≡ words.items }
    {
        DataWords { words }
    }

    /// The words, for reading.
    pub fn as_slice(&self) -> &[u64]
        ensures { result.now ≡ self.now }
    {
        self.words.as_slice()
    }

    /// The words. It does not allocate.
    pub fn into_vec(self) -> Vec<u64>
        ensures { result.items ≡ self }
    {
        self.words
    }
}
