//! One load or store.

ghost use Rattle.std.specs.Prelude.{◌≡◌};

use crate::kind::Kind;
use crate::word::Word;

/// One load or one store of one shared word.
#[derive(Clone, Copy, Debug, PartialEq, Eq)]
pub enum Access {
    Load(Kind, Word),
    Store(Kind, Word, u64),
}

impl Access {
    ghost use Rattle.rmecore.specs.Machine.{kind_of, word_of};

    /// The kind of the step.
    pub fn kind(self) -> Kind
        ensures { result ≡ kind_of self }
    {
        match self {
            Access::Load(kind, _) | Access::Store(kind, _, _) => kind,
        }
    }

    /// The word that is read or written.
    pub fn word(self) -> Word
        ensures { result ≡ word_of self }
    {
        match self {
            Access::Load(_, word) | Access::Store(_, word, _) => word,
        }
    }
}
