//! The deeds that the lines of a call say.

ghost use Rattle.std.specs.Prelude.{◌≡◌, ◌<◌, ◌≤◌, ℕ, IsTrue, IsFalse, Some};
ghost use Rattle.algorithms.specs.Deeds.{IsLineOf, SaysDeed};
ghost use Rattle.algorithms.specs.declared.line.LineKind.TheVariants.{Local as LocalForm};
ghost use Rattle.algorithms.specs.declared.line.LocalLine.TheVariants.{Note as NoteLine};

use crate::algorithm::{Algorithm, Entries};
use crate::line::{AlgorithmDeed, LineKind, LocalLine};

/// Whether no call that begins here begins after `entry`, and at `at` or before it.
fn is_outside(entry: usize, at: usize, other: Option<usize>) -> bool
    ensures outside { IsTrue result → (place : ℕ) → other ≡ Some place → entry < place → at < place }
    ensures within { IsFalse result → (place : ℕ) × (other ≡ Some place) × (entry < place) × (place ≤ at) }
{
    match other {
        Some(other) => other <= entry || at < other,
        None => true,
    }
}

/// Whether the line at a place is of the call that begins at `entry`.
fn is_line_of(entries: &Entries, entry: usize, at: usize) -> bool
    ensures of { IsTrue result → IsLineOf entries.now entry at }
    ensures other { IsFalse result → IsLineOf entries.now entry at → ⊥ }
{
    entry <= at
        && is_outside(entry, at, Some(entries.lock))
        && is_outside(entry, at, Some(entries.unlock))
        && is_outside(entry, at, entries.recover)
        && is_outside(entry, at, entries.withdraw)
}

/// Whether a line says this deed.
fn is_note(form: &LineKind, deed: AlgorithmDeed) -> bool
    ensures note { IsTrue result → form.now ≡ LocalForm (NoteLine deed) }
    ensures other { IsFalse result → form.now ≡ LocalForm (NoteLine deed) → ⊥ }
{
    match form {
        LineKind::Local(LocalLine::Note(said)) => *said == deed,
        _ => false,
    }
}

/// Whether a line of the call that begins at `entry` says this deed.
pub fn says_deed(algorithm: &Algorithm, entry: usize, deed: AlgorithmDeed) -> bool
    ensures says { IsTrue result → SaysDeed algorithm.now entry deed }
    ensures none { IsFalse result → SaysDeed algorithm.now entry deed → ⊥ }
{
    for at in 0..algorithm.lines.len() {
        if is_line_of(&algorithm.entries, entry, at) && is_note(&algorithm.lines[at].form, deed) {
            return true;
        }
    }
    false
}
