//! The lock words in plain memory.

ghost use Rattle.std.specs.Prelude.{◌≡◌, length};
ghost use Rattle.rmecore.specs.World.{read, write};
ghost use Rattle.rmecore.specs.Machine.{InLock, carried_value, word_of, words_performed};
ghost use Rattle.rmecore.specs.Simulated.{own_at};

use crate::access::Access;
use crate::own::Own;
use crate::word::Word;

/// Loads a lock word.
fn load(words: &[Own], word: Word) -> u64
    requires { InLock (length words.now) word }
    ensures { result ≡ read (own_at words.now) word }
{
    match word {
        Word::Choosing(p) => words[p as usize].choosing,
        Word::Number(p) => words[p as usize].number,
        Word::Inside(p) => words[p as usize].inside,
        Word::Data(_) => unreachable!(),
    }
}

/// Stores a value into a lock word.
fn store(words: &mut [Own], word: Word, value: u64)
    requires { InLock (length words.old) word }
    ensures { own_at words.new ≡ write (own_at words.old) word value }
{
    match word {
        Word::Choosing(p) => words[p as usize].choosing = value,
        Word::Number(p) => words[p as usize].number = value,
        Word::Inside(p) => words[p as usize].inside = value,
        Word::Data(_) => unreachable!(),
    }
}

/// Loads or stores one lock word. The result is the value read or written.
pub fn perform(words: &mut [Own], access: Access) -> u64
    requires { InLock (length words.old) (word_of access) }
    ensures value { result ≡ carried_value access (read (own_at words.old) (word_of access)) }
    ensures words { own_at words.new ≡ words_performed (own_at words.old) access }
{
    match access {
        Access::Load(_, word) => load(words, word),
        Access::Store(_, word, value) => {
            store(words, word, value);
            value
        }
    }
}
