//! Blocked steps that are repeated.

ghost use Rattle.std.specs.Prelude.{◌≡◌};
ghost use Rattle.diagram.specs.Repetitions.{is_bare as is_bare_in, is_same_word as is_same_word_in, repeats, wait_alike as wait_alike_in};

use rmecore::{Happened, Kind, Word};

/// Whether both kinds are the same, and may be blocked.
fn wait_alike(first: Kind, second: Kind) -> bool
    ensures { result ≡ wait_alike_in first second }
{
    match (first, second) {
        (Kind::Look, Kind::Look) | (Kind::Weigh, Kind::Weigh) => true,
        _ => false,
    }
}

/// Whether both are the same shared word.
fn is_same_word(first: Word, second: Word) -> bool
    ensures { result ≡ is_same_word_in first second }
{
    match (first, second) {
        (Word::Choosing(i), Word::Choosing(j)) => i == j,
        (Word::Number(i), Word::Number(j)) => i == j,
        (Word::Inside(i), Word::Inside(j)) => i == j,
        (Word::Data(i), Word::Data(j)) => i == j,
        _ => false,
    }
}

/// Whether the step has no deed of the lock, and no answer of the lock's part.
fn is_bare(happened: &Happened) -> bool
    ensures { result ≡ is_bare_in happened.now }
{
    happened.outer.is_none() && happened.done.is_none()
}

/// Whether the second step repeats the first: a blocked step that reads the same value of the same word.
pub fn is_blocked_again(first: &Happened, second: &Happened) -> bool
    ensures { result ≡ repeats first.now second.now }
{
    if !wait_alike(first.kind, second.kind) || !is_same_word(first.word, second.word) {
        return false;
    }
    first.value == second.value && is_bare(first) && is_bare(second)
}
