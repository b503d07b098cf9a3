//! Reads the deed lines of a trace in place.

ghost use Rattle.std.specs.Prelude.{◌≡◌, ℕ, ◌≤◌, ◌++◌, ◌∷◌, [], IfSome};
ghost use Rattle.std.specs.Fmt.{decimal};
ghost use Rattle.schedule.specs.declared.lines.deed.DeedWord.TheVariants as names;
ghost use Rattle.schedule.specs.Words.{line_of};
ghost use Rattle.schedule.specs.Deeds.{word_of, words_of_deed, deed_at, IsDeed};
ghost use Rattle.schedule.specs.FirstLines.{BeginsWithItem};

use crate::lexer::tokens::{after_bytes, after_line_end, after_space, number, numbers, value};
use crate::lines::deed::DeedWord;
use redomail::Deed;
use rmecore::Outer;

/// The first word of a deed's line, and the text after the space that follows it.
// Inline: one call a line.
#[inline(always)]
fn word(text: &[u8]) -> Option<(DeedWord, &[u8])>
    ensures { IfSome result (λ read. text.now ≡ word_of read.0 ++ 32 ∷ read.1.now) }
{
    match mail_word(text) {
        None => match way_word(text) {
            None => end_word(text),
            read => read,
        },
        read => read,
    }
}

/// As `word`, for the deeds of the mailbox.
// Inline: one call a line.
#[inline(always)]
fn mail_word(text: &[u8]) -> Option<(DeedWord, &[u8])>
    ensures { IfSome result (λ read. text.now ≡ word_of read.0 ++ 32 ∷ read.1.now) }
{
    if let Some(rest) = after_bytes(text, b"commit ") {
        return Some((DeedWord::Commit, rest));
    }
    if let Some(rest) = after_bytes(text, b"show ") {
        return Some((DeedWord::Show, rest));
    }
    if let Some(rest) = after_bytes(text, b"close ") {
        return Some((DeedWord::Close, rest));
    }
    if let Some(rest) = after_bytes(text, b"ruin ") {
        return Some((DeedWord::Ruin, rest));
    }
    None
}

/// As `word`, for the deeds from the doorway up to the entry.
// Inline: one call a line.
#[inline(always)]
fn way_word(text: &[u8]) -> Option<(DeedWord, &[u8])>
    ensures { IfSome result (λ read. text.now ≡ word_of read.0 ++ 32 ∷ read.1.now) }
{
    if let Some(rest) = after_bytes(text, b"begin ") {
        return Some((DeedWord::Begin, rest));
    }
    if let Some(rest) = after_bytes(text, b"ready ") {
        return Some((DeedWord::Ready, rest));
    }
    if let Some(rest) = after_bytes(text, b"enter ") {
        return Some((DeedWord::Enter, rest));
    }
    if let Some(rest) = after_bytes(text, b"reenter ") {
        return Some((DeedWord::Reenter, rest));
    }
    None
}

/// As `word`, for `leave`, `crash` and `quit`.
// Inline: one call a line.
#[inline(always)]
fn end_word(text: &[u8]) -> Option<(DeedWord, &[u8])>
    ensures { IfSome result (λ read. text.now ≡ word_of read.0 ++ 32 ∷ read.1.now) }
{
    if let Some(rest) = after_bytes(text, b"leave ") {
        return Some((DeedWord::Leave, rest));
    }
    if let Some(rest) = after_bytes(text, b"crash ") {
        return Some((DeedWord::Crash, rest));
    }
    if let Some(rest) = after_bytes(text, b"quit ") {
        return Some((DeedWord::Quit, rest));
    }
    None
}

/// The deed of a word that takes one number, its process. None for `commit` and `show`.
// Inline: one call a line.
#[inline(always)]
fn short_deed(word: DeedWord, p: u64) -> Option<Deed>
    ensures { IfSome result (λ deed. (words_of_deed deed ≡ word_of word ∷ decimal p ∷ []) × ((width : ℕ) → IsDeed width deed)) }
{
    match word {
        DeedWord::Begin => Some(Deed::Outer(Outer::Begin(p))),
        DeedWord::Ready => Some(Deed::Outer(Outer::Ready(p))),
        DeedWord::Enter => Some(Deed::Outer(Outer::Enter(p))),
        DeedWord::Crash => Some(Deed::Outer(Outer::Crash(p))),
        DeedWord::Reenter => Some(Deed::Outer(Outer::Reenter(p))),
        DeedWord::Leave => Some(Deed::Outer(Outer::Leave(p))),
        DeedWord::Quit => Some(Deed::Outer(Outer::Quit(p))),
        DeedWord::Close => Some(Deed::Close { p }),
        DeedWord::Ruin => Some(Deed::Ruin { p }),
        DeedWord::Commit | DeedWord::Show => None,
    }
}

/// Reads the rest of a `commit` line: the sequence number and the value.
// Inline: one call a message.
#[inline(always)]
fn commit(width: u64, p: u64, text: &[u8]) -> Option<(Deed, &[u8])>
    requires { (1 ≤ width) × (width ≤ 8) }
    ensures { IfSome result (λ read. (line_of (words_of_deed read.0) ++ read.1.now
        ≡ word_of names.Commit ++ 32 ∷ (decimal p ++ text.now)) × IsDeed width read.0) }
{
    let message = after_space(text)?;
    let (seq, body) = number(message)?;
    let mut words = [0; 8];
    let end = numbers(width, &mut words, body)?;
    let after = after_line_end(end)?;
    let v = value(width, &words);
    Some((Deed::Commit { p, seq, v }, after))
}

/// Reads the rest of a `show` line: the place, the sequence number and the value.
// Inline: one call a message.
#[inline(always)]
fn show(width: u64, p: u64, text: &[u8]) -> Option<(Deed, &[u8])>
    requires { (1 ≤ width) × (width ≤ 8) }
    ensures { IfSome result (λ read. (line_of (words_of_deed read.0) ++ read.1.now
        ≡ word_of names.Show ++ 32 ∷ (decimal p ++ text.now)) × IsDeed width read.0) }
{
    let place = after_space(text)?;
    let (at, more) = number(place)?;
    let message = after_space(more)?;
    let (seq, body) = number(message)?;
    let mut words = [0; 8];
    let end = numbers(width, &mut words, body)?;
    let after = after_line_end(end)?;
    let v = value(width, &words);
    Some((Deed::Show { p, at, seq, v }, after))
}

/// The deed on the first line of a text, and the text after that line.
/// None is no fault: the caller then reads the line by its words.
// Inline: one call a line.
#[inline(always)]
pub fn first_deed(width: u64, text: &[u8]) -> Option<(Deed, &[u8])>
    requires { (1 ≤ width) × (width ≤ 8) }
    ensures { IfSome result (λ read. BeginsWithItem (deed_at width) text.now read.0 read.1.now) }
{
    let (word, tail) = word(text)?;
    let (p, rest) = number(tail)?;
    match word {
        DeedWord::Commit => {
            let Some((deed, after)) = commit(width, p, rest) else {
                return None;
            };
            Some((deed, after))
        }
        DeedWord::Show => {
            let Some((deed, after)) = show(width, p, rest) else {
                return None;
            };
            Some((deed, after))
        }
        _ => {
            let after = after_line_end(rest)?;
            let Some(deed) = short_deed(word, p) else {
                return None;
            };
            Some((deed, after))
        }
    }
}
