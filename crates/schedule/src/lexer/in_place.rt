//! Reads the lines of a schedule in place. No line is kept, so a text is read twice: once to find its faults, and once as it
//! is played.

ghost use Rattle.std.specs.Prelude.{◌≡◌, ℕ, ◌+◌, ◌^◌, ◌<◌, ◌≤◌, ◌++◌, length, List, drop, Ok, Err, IfOk, IfErr, IsErrOf};
ghost use Rattle.schedule.specs.declared.lines.line.Line.{Line as LineOf};
ghost use Rattle.schedule.specs.Commands.{line_at};
ghost use Rattle.schedule.specs.Texts.{items_at, Fails};
ghost use Rattle.schedule.specs.FirstLines.{Tries, BeginsWithItem};
ghost use Rattle.schedule.specs.Words.{parts_of};
ghost use Rattle.schedule.specs.Schedules.{schedule_at, scheduled_with};

use crate::lexer::line_tokens::first_line;
use crate::lexer::tokens::steps;
use crate::lines::cut::cut_once;
use crate::lines::fault::LineFault;
use crate::lines::line::Line;
use crate::lines::line_reader::read_line;
use crate::texts::fault::TextFault;
use crate::texts::head::Head;
use crate::texts::whole::Heading;

/// Reads the first line of a text that is not empty, word by word: the line, and the text after it.
// Apart: few lines come here.
#[inline(never)]
fn line_by_words(width: u64, text: &[u8]) -> Result<(Line, &[u8]), LineFault>
    requires width { (1 ≤ width) × (width ≤ 8) }
    requires some { 0 < length text.now }
    ensures read { IfOk result (λ read. BeginsWithItem (line_at width) text.now read.0 read.1.now) }
    ensures fault { IfErr result (λ fault. (k : ℕ) → items_at (line_at width) k (parts_of text.now) ≡ Err (k, fault)) }
{
    let Some((line, after)) = cut_once(text, b'\n') else {
        return Err(LineFault::NoNewline);
    };
    match read_line(width, line) {
        Ok(item) => Ok((item, after)),
        Err(fault) => Err(fault),
    }
}

/// Reads the first line of a text that is not empty: the line, and the text after it.
// Inline: one call a line.
#[inline(always)]
pub fn next_line(width: u64, text: &[u8]) -> Result<(Line, &[u8]), LineFault>
    requires width { (1 ≤ width) × (width ≤ 8) }
    requires some { 0 < length text.now }
    ensures read { IfOk result (λ read. BeginsWithItem (line_at width) text.now read.0 read.1.now) }
    ensures fault { IfErr result (λ fault. (k : ℕ) → items_at (line_at width) k (parts_of text.now) ≡ Err (k, fault)) }
{
    match first_line(width, text) {
        Some((line, after)) => Ok((line, after)),
        None => line_by_words(width, text),
    }
}

/// The text after the first line of a text that is not empty, where that line has no fault.
// Apart: most lines are steps.
#[inline(never)]
fn after_other_line(width: u64, text: &[u8]) -> Result<&[u8], LineFault>
    requires width { (1 ≤ width) × (width ≤ 8) }
    requires some { 0 < length text.now }
    ensures read { IfOk result (λ after. (line : LineOf) × BeginsWithItem (line_at width) text.now line after.now) }
    ensures fault { IfErr result (λ fault. (k : ℕ) → items_at (line_at width) k (parts_of text.now) ≡ Err (k, fault)) }
{
    match next_line(width, text) {
        Ok((_, after)) => Ok(after),
        Err(fault) => Err(fault),
    }
}

/// The same. A line of steps, the commonest, is tried first.
// Inline: one call a line.
#[inline(always)]
fn after_line(width: u64, text: &[u8]) -> Result<&[u8], LineFault>
    requires width { (1 ≤ width) × (width ≤ 8) }
    requires some { 0 < length text.now }
    ensures read { IfOk result (λ after. (line : LineOf) × BeginsWithItem (line_at width) text.now line after.now) }
    ensures fault { IfErr result (λ fault. (k : ℕ) → items_at (line_at width) k (parts_of text.now) ≡ Err (k, fault)) }
{
    match steps(text) {
        Some((_, _, after)) => Ok(after),
        None => after_other_line(width, text),
    }
}

/// Checks all lines of a text. `first` is the number of its first line, which a fault names.
// Apart: a loop by itself.
#[inline(never)]
fn check_lines(width: u64, first: u64, text: &[u8]) -> Result<(), TextFault>
    requires width { (1 ≤ width) × (width ≤ 8) }
    requires room { first + length text.now < 2 ^ 64 }
    ensures read { Tries result (items_at (line_at width) first (parts_of text.now)) }
    ensures memory { IsErrOf result TextFault.OutOfMemory → ⊥ }
{
    let mut rest = text;
    let mut number = first;
    while !rest.is_empty() {
        match after_line(width, rest) {
            Ok(after) => rest = after,
            Err(fault) => return Err(TextFault::on_line(number, fault)),
        }
        number += 1;
    }
    Ok(())
}

/// Checks a whole text of a schedule. Answers its header, and the text after the header.
fn read(text: &[u8]) -> Result<(Head, &[u8]), TextFault>
    requires room { length text.now + 2 < 2 ^ 64 }
    ensures lines { IfOk result (λ read. (lines : List LineOf)
        × (items_at (line_at read.0.width) 2 (parts_of read.1.now) ≡ Ok lines)
        × (schedule_at text.now ≡ Ok (scheduled_with (read.0, lines)))) }
    ensures width { IfOk result (λ read. (1 ≤ read.0.width) × (read.0.width ≤ 8)) }
    ensures room { IfOk result (λ read. length read.1.now + 2 < 2 ^ 64) }
    ensures shorter { IfOk result (λ read. length read.1.now ≤ length text.now) }
    ensures tail { IfOk result (λ read. (first : List ℕ) × (text.now ≡ first ++ read.1.now)) }
    ensures fault { IfErr result (λ fault. Fails fault (schedule_at text.now)) }
    ensures memory { IsErrOf result TextFault.OutOfMemory → ⊥ }
{
    if text.is_empty() {
        return Err(TextFault::on_line(1, LineFault::NoHeader));
    }
    let Some((first, lines)) = cut_once(text, b'\n') else {
        return Err(TextFault::on_line(1, LineFault::NoNewline));
    };
    match Head::read(first) {
        Ok(head) => {
            check_lines(head.width, 2, lines)?;
            Ok((head, lines))
        }
        Err(fault) => Err(TextFault::on_line(1, fault)),
    }
}

/// As `read`, with the place of the first byte after the header.
fn read_to(text: &[u8]) -> Result<(Head, usize), TextFault>
    requires room { length text.now + 2 < 2 ^ 64 }
    ensures lines { IfOk result (λ read. (lines : List LineOf)
        × (items_at (line_at read.0.width) 2 (parts_of (drop read.1 text.now)) ≡ Ok lines)
        × (schedule_at text.now ≡ Ok (scheduled_with (read.0, lines)))) }
    ensures width { IfOk result (λ read. (1 ≤ read.0.width) × (read.0.width ≤ 8)) }
    ensures within { IfOk result (λ read. read.1 ≤ length text.now) }
    ensures fault { IfErr result (λ fault. Fails fault (schedule_at text.now)) }
    ensures memory { IsErrOf result TextFault.OutOfMemory → ⊥ }
{
    match read(text) {
        Ok((head, lines)) => Ok((head, text.len() - lines.len())),
        Err(fault) => Err(fault),
    }
}

/// As `read_to`, for a text that is owned. It takes no memory.
pub fn read_whole(text: &Vec<u8>) -> Result<(Head, usize), TextFault>
    requires room { length text.now.items + 2 < 2 ^ 64 }
    ensures lines { IfOk result (λ read. (lines : List LineOf)
        × (items_at (line_at read.0.width) 2 (parts_of (drop read.1 text.now.items)) ≡ Ok lines)
        × (schedule_at text.now.items ≡ Ok (scheduled_with (read.0, lines)))) }
    ensures width { IfOk result (λ read. (1 ≤ read.0.width) × (read.0.width ≤ 8)) }
    ensures within { IfOk result (λ read. read.1 ≤ length text.now.items) }
    ensures fault { IfErr result (λ fault. Fails fault (schedule_at text.now.items)) }
    ensures memory { IsErrOf result TextFault.OutOfMemory → ⊥ }
{
    read_to(text)
}
