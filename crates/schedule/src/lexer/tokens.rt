//! Reads parts of a line in place, byte by byte: numbers, spaces and line ends, and whole lines of steps.

ghost use Rattle.std.specs.Prelude.{◌≡◌, ℕ, ◌<◌, ◌≤◌, ◌^◌, ◌++◌, ◌∷◌, [], IfSome, codes, take};
ghost use Rattle.std.specs.Fmt.{decimal};
ghost use Rattle.schedule.specs.Words.{spaced_numbers};
ghost use Rattle.schedule.specs.Deeds.{IsValue};
ghost use Rattle.schedule.specs.declared.lines.line.Line.TheVariants.{Step};
ghost use Rattle.schedule.specs.Commands.{line_at};
ghost use Rattle.schedule.specs.FirstLines.{BeginsWithItem};

use crate::lines::range::fit_words;
use rmecore::Body;

/// A decimal number at the front of a text, and the text after it.
/// None also for the six greatest numbers of 64 bits, which are read by words.
// Inline: one call a number.
#[inline(always)]
#[tactic(auto, using(crate::proofs::Tokens::first_digit, crate::proofs::Tokens::next_digit))]
pub(crate) fn number(text: &[u8]) -> Option<(u64, &[u8])>
    ensures { IfSome result (λ read. (text.now ≡ decimal read.0 ++ read.1.now) × (read.0 < 2 ^ 64)) }
{
    let (first, after) = text.split_first()?;
    if !first.is_ascii_digit() {
        return None;
    }
    let mut value = u64::from(*first - b'0');
    let mut rest = after;
    if value == 0 {
        return Some((value, rest));
    }
    while let Some((byte, after)) = rest.split_first() {
        if !byte.is_ascii_digit() {
            break;
        }
        if value >= u64::MAX / 10 {
            return None;
        }
        value = value * 10 + u64::from(*byte - b'0');
        rest = after;
    }
    Some((value, rest))
}

/// The text after a line end.
// Inline: compares one byte.
#[inline(always)]
pub(crate) fn after_line_end(text: &[u8]) -> Option<&[u8]>
    ensures { IfSome result (λ rest. text.now ≡ 10 ∷ rest.now) }
{
    match text {
        [b'\n', rest @ ..] => Some(rest),
        _ => None,
    }
}

/// The text after a space.
// Inline: compares one byte.
#[inline(always)]
pub(crate) fn after_space(text: &[u8]) -> Option<&[u8]>
    ensures { IfSome result (λ rest. text.now ≡ 32 ∷ rest.now) }
{
    match text {
        [b' ', rest @ ..] => Some(rest),
        _ => None,
    }
}

/// The text after these bytes.
// Inline: at each call the bytes are known, so that each comparison is with a constant.
#[inline(always)]
pub(crate) fn after_bytes<'a>(text: &'a [u8], bytes: &[u8]) -> Option<&'a [u8]>
    ensures { IfSome result (λ rest. text.now ≡ bytes.now ++ rest.now) }
{
    let mut rest = text;
    for byte in bytes {
        let (first, after) = rest.split_first()?;
        if *first != *byte {
            return None;
        }
        rest = after;
    }
    Some(rest)
}

/// Reads `width` numbers into the front of `words`, each after a space. Answers the text after them.
// Inline: one call a message.
#[inline(always)]
pub(crate) fn numbers<'a>(width: u64, words: &mut [u64; 8], text: &'a [u8]) -> Option<&'a [u8]>
    requires { (1 ≤ width) × (width ≤ 8) }
    ensures { IfSome result (λ rest. text.now ≡ spaced_numbers (take width words.new) ++ rest.now) }
{
    let mut rest = text;
    for j in 0..width as usize {
        let after = after_space(rest)?;
        let (n, tail) = number(after)?;
        words[j] = n;
        rest = tail;
    }
    Some(rest)
}

/// The value of the first `width` words.
// Inline: one call a message.
#[inline(always)]
pub(crate) fn value(width: u64, words: &[u64; 8]) -> Body
    requires { (1 ≤ width) × (width ≤ 8) }
    ensures words { result ≡ take width words.now }
    ensures value { IsValue width result }
{
    let all = &words[..width as usize];
    fit_words(all);
    Body::new(all).unwrap()
}

/// The text after `step` and a space.
// Inline: compares five bytes.
#[inline(always)]
fn after_step_word(text: &[u8]) -> Option<&[u8]>
    ensures { IfSome result (λ rest. text.now ≡ codes "step " ++ rest.now) }
{
    match text {
        [b's', b't', b'e', b'p', b' ', rest @ ..] => Some(rest),
        _ => None,
    }
}

/// Reads the commonest line, `step P` with a P of one byte: that byte, and the text after the line.
/// The first four bytes are compared as one number.
// Inline: one call a line.
#[inline(always)]
fn short_step(text: &[u8]) -> Option<(u8, &[u8])>
    ensures { IfSome result (λ read. text.now ≡ codes "step " ++ (read.0 ∷ (10 ∷ read.1.now))) }
{
    let [s, t, e, p, space, name, end, rest @ ..] = text else {
        return None;
    };
    let word = u32::from_le_bytes([*s, *t, *e, *p]);
    if word != u32::from_le_bytes(*b"step") || *space != b' ' || *end != b'\n' {
        return None;
    }
    Some((*name, rest))
}

/// Reads `step P` with a P of one digit: the process, and the text after the line.
// Inline: one call a line.
#[inline(always)]
#[tactic(auto, using(crate::proofs::Tokens::digit_step))]
fn one_step(text: &[u8]) -> Option<(u64, &[u8])>
    ensures { IfSome result (λ read. (width : ℕ) → BeginsWithItem (line_at width) text.now (Step read.0 1) read.1.now) }
{
    let (name, rest) = short_step(text)?;
    if !name.is_ascii_digit() {
        return None;
    }
    Some((u64::from(name - b'0'), rest))
}

/// Reads a line of steps: the process, the number of steps, and the text after the line.
/// None is no fault: the caller then reads the line by its words.
// Inline: one call a line.
#[inline(always)]
pub fn steps(text: &[u8]) -> Option<(u64, u64, &[u8])>
    ensures read { (width : ℕ) → IfSome result (λ read. BeginsWithItem (line_at width) text.now (Step read.0 read.1) read.2.now) }
    ensures least { IfSome result (λ read. 1 ≤ read.1) }
{
    if let Some((p, rest)) = one_step(text) {
        return Some((p, 1, rest));
    }
    let word = after_step_word(text)?;
    let (p, rest) = number(word)?;
    if let Some(after) = after_line_end(rest) {
        return Some((p, 1, after));
    }
    let more = after_space(rest)?;
    let (k, end) = number(more)?;
    let after = after_line_end(end)?;
    if k < 2 || k > 1_000_000 {
        return None;
    }
    Some((p, k, after))
}
