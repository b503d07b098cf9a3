//! What lines do to blocks, and which block is open after them.

ghost use Rattle.std.specs.Prelude.{◌≡◌, ◌+◌, ◌<◌, ◌^◌, true, if◌then◌else◌, length, map, IfOk, IfSome};
ghost use Rattle.algorithm_texts.specs.BlockLines.{block_line_at, block_line, begins_block, ends_block, may_stay_open, innermost_open, open_block};

use crate::token_places::{is_word_of, token_places};
use crate::tokens::before_comment;
use std::alloc::{AllocError, Global};

/// What a line does to blocks.
#[derive(Clone, Copy, PartialEq, Eq)]
pub enum BlockLine {
    BeginsIf,
    BeginsFor,
    IsElse,
    IsEnd,
    OfNoBlock,
}

/// What the line with tokens at these places does to blocks.
fn block_line_at(code: &[u8], places: &[usize]) -> BlockLine
    ensures { result ≡ block_line_at code.now places.now }
{
    let first = places.first();
    if is_word_of(b"for", code, first) {
        BlockLine::BeginsFor
    } else if is_word_of(b"else", code, first) {
        BlockLine::IsElse
    } else if is_word_of(b"end", code, first) {
        BlockLine::IsEnd
    } else if is_word_of(b"if", code, first) && is_word_of(b"then", code, places.last()) {
        BlockLine::BeginsIf
    } else {
        BlockLine::OfNoBlock
    }
}

/// What a line does to blocks.
fn block_line(alloc: Global, line: &[u8]) -> Result<BlockLine, AllocError>
    ensures { IfOk result (λ found. found ≡ block_line line.now) }
{
    let code = before_comment(line);
    let places = token_places(alloc, code)?;
    Ok(block_line_at(code, &places))
}

/// What lines do to blocks.
pub fn block_lines(alloc: Global, lines: &[&[u8]]) -> Result<Vec<BlockLine>, AllocError>
    ensures { IfOk result (λ found. found.items ≡ map (λ line. block_line line.now) lines.now) }
{
    let mut found = Vec::new(alloc);
    for line in lines {
        found.push(block_line(alloc, line)?)?;
    }
    Ok(found)
}

/// Whether a line begins a block that an `end` ends.
fn begins_block(line: BlockLine) -> bool
    ensures { result ≡ begins_block line }
{
    matches!(line, BlockLine::BeginsIf | BlockLine::BeginsFor)
}

/// Whether the block of a line may be open at the end.
fn may_stay_open(line: BlockLine) -> bool
    ensures { result ≡ may_stay_open line }
{
    begins_block(line) || line == BlockLine::IsElse
}

/// How many more blocks end than begin from this line on, where after it that many more do.
fn more_ended(line: BlockLine, ended: usize) -> usize
    requires some { begins_block line ≡ true → 0 < ended }
    requires few { ended + 1 < 2 ^ 64 }
    ensures { result + (if begins_block line then 1 else 0) ≡ ended + (if ends_block line then 1 else 0) }
{
    match line {
        BlockLine::BeginsIf | BlockLine::BeginsFor => ended - 1,
        BlockLine::IsEnd => ended + 1,
        BlockLine::IsElse | BlockLine::OfNoBlock => ended,
    }
}

/// The place of the last line whose block is open at the end.
pub fn innermost_open(lines: &[BlockLine]) -> Option<usize>
    ensures place { result ≡ innermost_open lines.now }
    ensures within { IfSome result (λ place. place < length lines.now) }
{
    let mut ended: usize = 0;
    let mut place = lines.len();
    while place > 0 {
        place -= 1;
        let line = lines[place];
        if ended == 0 && may_stay_open(line) {
            return Some(place);
        }
        ended = more_ended(line, ended);
    }
    None
}

/// The block in which the line after these stands.
pub fn open_block(lines: &[BlockLine]) -> Option<BlockLine>
    ensures { result ≡ open_block lines.now }
{
    match innermost_open(lines) {
        Some(place) => lines.get(place).copied(),
        None => None,
    }
}
