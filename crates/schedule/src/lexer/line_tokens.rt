//! Reads in place the lines of a schedule that start a call or are a crash.

ghost use Rattle.std.specs.Prelude.{◌≡◌, ℕ, ◌≤◌, ◌++◌, ◌∷◌, [], IfSome};
ghost use Rattle.std.specs.Fmt.{decimal};
ghost use Rattle.schedule.specs.declared.lines.command.Keyword.TheVariants as commands;
ghost use Rattle.schedule.specs.Words.{line_of};
ghost use Rattle.schedule.specs.Commands.{word_of, words_of_line, line_at, IsLine};
ghost use Rattle.schedule.specs.FirstLines.{BeginsWithItem};

use crate::lexer::tokens::{after_bytes, after_line_end, after_space, number, numbers, value};
use crate::lines::command::Keyword;
use crate::lines::line::Line;
use rmeworld::Call;

/// The first word of a line, and the text after the space that follows it.
// Inline: one call a line.
#[inline(always)]
fn word(text: &[u8]) -> Option<(Keyword, &[u8])>
    ensures { IfSome result (λ read. text.now ≡ word_of read.0 ++ 32 ∷ read.1.now) }
{
    match lock_word(text) {
        None => match mail_word(text) {
            None => board_word(text),
            read => read,
        },
        read => read,
    }
}

/// As `word`, for the calls of the lock, and for `crash`.
// Inline: one call a line.
#[inline(always)]
fn lock_word(text: &[u8]) -> Option<(Keyword, &[u8])>
    ensures { IfSome result (λ read. text.now ≡ word_of read.0 ++ 32 ∷ read.1.now) }
{
    if let Some(rest) = after_bytes(text, b"lock ") {
        return Some((Keyword::Lock, rest));
    }
    if let Some(rest) = after_bytes(text, b"unlock ") {
        return Some((Keyword::Unlock, rest));
    }
    if let Some(rest) = after_bytes(text, b"crash ") {
        return Some((Keyword::Crash, rest));
    }
    if let Some(rest) = after_bytes(text, b"recover ") {
        return Some((Keyword::Recover, rest));
    }
    if let Some(rest) = after_bytes(text, b"withdraw ") {
        return Some((Keyword::Withdraw, rest));
    }
    None
}

/// As `word`, for `append`, `consistent` and `close`.
// Inline: one call a line.
#[inline(always)]
fn mail_word(text: &[u8]) -> Option<(Keyword, &[u8])>
    ensures { IfSome result (λ read. text.now ≡ word_of read.0 ++ 32 ∷ read.1.now) }
{
    if let Some(rest) = after_bytes(text, b"append ") {
        return Some((Keyword::Append, rest));
    }
    if let Some(rest) = after_bytes(text, b"consistent ") {
        return Some((Keyword::Consistent, rest));
    }
    if let Some(rest) = after_bytes(text, b"close ") {
        return Some((Keyword::Close, rest));
    }
    None
}

/// As `word`, for the calls on board words.
// Inline: one call a line.
#[inline(always)]
fn board_word(text: &[u8]) -> Option<(Keyword, &[u8])>
    ensures { IfSome result (λ read. text.now ≡ word_of read.0 ++ 32 ∷ read.1.now) }
{
    if let Some(rest) = after_bytes(text, b"get ") {
        return Some((Keyword::Get, rest));
    }
    if let Some(rest) = after_bytes(text, b"put ") {
        return Some((Keyword::Put, rest));
    }
    None
}

/// The line of a command that takes one number, its process. None for the other commands.
// Inline: one call a line.
#[inline(always)]
fn short_line(command: Keyword, p: u64) -> Option<Line>
    ensures { IfSome result (λ line. (words_of_line line ≡ word_of command ∷ decimal p ∷ [])
        × ((width : ℕ) → IsLine width line)) }
{
    match command {
        Keyword::Lock => Some(Line::Start(p, Call::Lock)),
        Keyword::Unlock => Some(Line::Start(p, Call::Unlock)),
        Keyword::Consistent => Some(Line::Start(p, Call::Consistent)),
        Keyword::Recover => Some(Line::Start(p, Call::Recover)),
        Keyword::Close => Some(Line::Start(p, Call::Close)),
        Keyword::Withdraw => Some(Line::Start(p, Call::Withdraw)),
        Keyword::Crash => Some(Line::Crash(p)),
        Keyword::Append | Keyword::Put | Keyword::Get | Keyword::Step => None,
    }
}

/// Reads the rest of an `append` line: the sequence number and the value.
// Inline: one call a message.
#[inline(always)]
fn append(width: u64, p: u64, text: &[u8]) -> Option<(Line, &[u8])>
    requires { (1 ≤ width) × (width ≤ 8) }
    ensures { IfSome result (λ read. (line_of (words_of_line read.0) ++ read.1.now
        ≡ word_of commands.Append ++ 32 ∷ (decimal p ++ text.now)) × IsLine width read.0) }
{
    let message = after_space(text)?;
    let (seq, body) = number(message)?;
    let mut words = [0; 8];
    let end = numbers(width, &mut words, body)?;
    let after = after_line_end(end)?;
    let v = value(width, &words);
    Some((Line::Start(p, Call::Append { seq, value: v }), after))
}

/// Reads the rest of a `get` line: the index of the board word.
// Inline: one call a line.
#[inline(always)]
fn get(p: u64, text: &[u8]) -> Option<(Line, &[u8])>
    ensures { IfSome result (λ read. (line_of (words_of_line read.0) ++ read.1.now
        ≡ word_of commands.Get ++ 32 ∷ (decimal p ++ text.now)) × ((width : ℕ) → IsLine width read.0)) }
{
    let place = after_space(text)?;
    let (i, end) = number(place)?;
    let after = after_line_end(end)?;
    Some((Line::Start(p, Call::Get(i)), after))
}

/// Reads the rest of a `put` line: the index of the board word, and the word to write.
// Inline: one call a line.
#[inline(always)]
fn put(p: u64, text: &[u8]) -> Option<(Line, &[u8])>
    ensures { IfSome result (λ read. (line_of (words_of_line read.0) ++ read.1.now
        ≡ word_of commands.Put ++ 32 ∷ (decimal p ++ text.now)) × ((width : ℕ) → IsLine width read.0)) }
{
    let place = after_space(text)?;
    let (i, more) = number(place)?;
    let word = after_space(more)?;
    let (v, end) = number(word)?;
    let after = after_line_end(end)?;
    Some((Line::Start(p, Call::Put(i, v)), after))
}

/// Reads the first line of a text: the line, and the text after it. None for a line of steps.
/// None also for `crash all`, for a faulty line, or for one with a number among the greatest: the caller then reads it by its
/// words.
// Inline: one call a line.
#[inline(always)]
pub fn first_line(width: u64, text: &[u8]) -> Option<(Line, &[u8])>
    requires { (1 ≤ width) × (width ≤ 8) }
    ensures { IfSome result (λ read. BeginsWithItem (line_at width) text.now read.0 read.1.now) }
{
    let (command, tail) = word(text)?;
    let (p, rest) = number(tail)?;
    match command {
        Keyword::Append => {
            let Some((line, after)) = append(width, p, rest) else {
                return None;
            };
            Some((line, after))
        }
        Keyword::Get => {
            let Some((line, after)) = get(p, rest) else {
                return None;
            };
            Some((line, after))
        }
        Keyword::Put => {
            let Some((line, after)) = put(p, rest) else {
                return None;
            };
            Some((line, after))
        }
        _ => {
            let after = after_line_end(rest)?;
            let Some(line) = short_line(command, p) else {
                return None;
            };
            Some((line, after))
        }
    }
}
