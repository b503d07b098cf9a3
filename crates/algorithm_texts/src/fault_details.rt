//! What more is said of a faulty line: which token is at fault, or which of the commonest slips it is.

ghost use Rattle.std.specs.Prelude.{◌≡◌, not, map, take, position, slice_index, IfOk};
ghost use Rattle.std.specs.Char.{is_ascii_digit};
ghost use Rattle.algorithm_texts.specs.Tokens.{is_printable};
ghost use Rattle.algorithm_texts.specs.FaultDetails.{byte_detail, unprintable_detail, large_token, detail_at, last_token_detail, no_then_detail, at_column, taken_detail_at, taken_detail, deed_detail, equal_detail, own_detail, last_line_detail, block_detail, bytes_detail, index_detail, form_detail, access_detail, unknown_detail, token_details, line_detail, lines_of, is_of_blocks, detail_in, fault_detail};

use crate::block_lines::{BlockLine, block_lines, innermost_open, open_block};
use crate::index_counts::first_miscount;
use crate::name_places::{deed_place, equal_place, is_reserved_at, label_place, name_place};
use crate::name_uses::{second_access, unknown_place};
use crate::token_places::{column_of, has_word, is_word_of, read_at, token_places};
use crate::tokens::before_comment;
use algorithms::fault::ReadFault;
use std::alloc::{AllocError, Global};

/// The most characters of a line.
const LONGEST_LINE: usize = 1000;

/// What more is said of a faulty line. Columns and lines count from 1.
#[derive(Clone, Copy, Debug, PartialEq, Eq)]
pub enum FaultDetail {
    Tab {
        column: u64,
    },
    /// The lines of the text end with CR LF, or there is another carriage return.
    CarriageReturn {
        column: u64,
    },
    /// Another byte that is not printable ASCII.
    Unprintable {
        column: u64,
    },
    /// A printable character that begins no word, number or sign.
    NoToken {
        column: u64,
    },
    LeadingZero {
        column: u64,
    },
    LargeNumber {
        column: u64,
    },
    LongName {
        column: u64,
    },
    LongLine,
    /// An `if` without `then`.
    NoThen,
    /// A shared word has another number of indexes than it is declared with.
    WrongIndexes {
        column: u64,
        declared: u64,
        given: u64,
    },
    /// A word of the format as a name.
    ReservedWord {
        column: u64,
    },
    /// A `=` where `:=` is meant.
    EqualSign {
        column: u64,
    },
    /// The deed of a line.
    UnfitDeed {
        column: u64,
    },
    /// Another token, of which the fault says all.
    AtColumn {
        column: u64,
    },
    /// The block of this line has no `end`: an `if`, an `else` or a `for`.
    NoEnd {
        line: u64,
    },
    /// An `end` without a block.
    NoBlock,
    /// An `else` that is not in an `if`.
    NoIf,
}

// ---- characters, and tokens that are none

/// What is said of a byte that is not printable.
fn byte_detail(byte: u8, column: u64) -> FaultDetail
    ensures { result ≡ byte_detail byte column }
{
    match byte {
        b'\t' => FaultDetail::Tab { column },
        b'\r' => FaultDetail::CarriageReturn { column },
        _ => FaultDetail::Unprintable { column },
    }
}

/// The place of the first byte that is not printable.
fn unprintable_place(line: &[u8]) -> Option<usize>
    ensures { result ≡ position (λ b. not (is_printable b)) line.now }
{
    line.iter()
        .position(|byte| !(*byte >= b' ' && *byte <= b'~'))
}

/// What is said of the first byte that is not printable.
fn unprintable_detail(line: &[u8]) -> Option<FaultDetail>
    ensures { result ≡ unprintable_detail line.now }
{
    match unprintable_place(line) {
        Some(place) => Some(byte_detail(line[place], column_of(line, place))),
        None => None,
    }
}

/// What is said of a number or a name that is too big.
fn large_token(code: &[u8], place: usize, column: u64) -> FaultDetail
    ensures { result ≡ large_token (is_ascii_digit (slice_index code.now place)) column }
{
    match code.get(place) {
        Some(byte) if byte.is_ascii_digit() => FaultDetail::LargeNumber { column },
        _ => FaultDetail::LongName { column },
    }
}

/// What is said of the token at a place, where it is at fault.
fn detail_at(code: &[u8], place: usize) -> Option<FaultDetail>
    ensures { result ≡ detail_at code.now place }
{
    let column = column_of(code, place);
    match read_at(code, place) {
        Err(ReadFault::BadCharacter) => Some(FaultDetail::NoToken { column }),
        Err(ReadFault::BadForm) => Some(FaultDetail::LeadingZero { column }),
        Err(ReadFault::TooBig) => Some(large_token(code, place, column)),
        _ => None,
    }
}

/// What is said of the last token, where it is at fault.
fn last_token_detail(code: &[u8], places: &[usize]) -> Option<FaultDetail>
    ensures { result ≡ last_token_detail code.now places.now }
{
    match places.last() {
        Some(place) => detail_at(code, *place),
        None => None,
    }
}

// ---- words

/// What is said of an `if` that no `then` follows.
fn no_then_detail(code: &[u8], places: &[usize]) -> Option<FaultDetail>
    ensures { result ≡ no_then_detail code.now places.now }
{
    if is_word_of(b"if", code, places.first()) && !has_word(b"then", code, places) {
        Some(FaultDetail::NoThen)
    } else {
        None
    }
}

/// What is said of a token as the fault says it.
fn at_column(code: &[u8], place: Option<usize>) -> Option<FaultDetail>
    ensures { result ≡ at_column code.now place }
{
    match place {
        Some(place) => Some(FaultDetail::AtColumn {
            column: column_of(code, place),
        }),
        None => None,
    }
}

/// What is said of the name at a place that is taken.
fn taken_detail_at(code: &[u8], place: usize) -> FaultDetail
    ensures { result ≡ taken_detail_at code.now place }
{
    let column = column_of(code, place);
    if is_reserved_at(code, place) {
        FaultDetail::ReservedWord { column }
    } else {
        FaultDetail::AtColumn { column }
    }
}

/// What is said of a name that is taken.
fn taken_detail(code: &[u8], places: &[usize]) -> Option<FaultDetail>
    ensures { result ≡ taken_detail code.now places.now }
{
    match name_place(code, places) {
        Some(place) => Some(taken_detail_at(code, place)),
        None => None,
    }
}

/// What is said of a deed.
fn deed_detail(code: &[u8], places: &[usize]) -> Option<FaultDetail>
    ensures { result ≡ deed_detail code.now places.now }
{
    match deed_place(code, places) {
        Some(place) => Some(FaultDetail::UnfitDeed {
            column: column_of(code, place),
        }),
        None => None,
    }
}

/// What is said of a `=` by which a name is set.
fn equal_detail(code: &[u8], places: &[usize]) -> Option<FaultDetail>
    ensures { result ≡ equal_detail code.now places.now }
{
    match equal_place(code, places) {
        Some(place) => Some(FaultDetail::EqualSign {
            column: column_of(code, place),
        }),
        None => None,
    }
}

// ---- blocks

/// What is said of a line that ends no block, or is an `else`, within this block.
fn own_detail(line: BlockLine, block: Option<BlockLine>) -> Option<FaultDetail>
    ensures { result ≡ own_detail line block }
{
    match (line, block) {
        (BlockLine::IsEnd, None) => Some(FaultDetail::NoBlock),
        (BlockLine::IsElse, None | Some(BlockLine::BeginsFor | BlockLine::IsElse)) => {
            Some(FaultDetail::NoIf)
        }
        _ => None,
    }
}

/// What is said of the last of these lines, where it ends no block.
fn last_line_detail(lines: &[BlockLine]) -> Option<FaultDetail>
    ensures { result ≡ last_line_detail lines.now }
{
    match lines.last() {
        Some(last) => own_detail(*last, open_block(&lines[..lines.len() - 1])),
        None => None,
    }
}

/// What is said of the last of these lines, or else of the one whose block has no `end`.
fn block_detail(lines: &[BlockLine]) -> Option<FaultDetail>
    ensures { result ≡ block_detail lines.now }
{
    if let Some(detail) = last_line_detail(lines) {
        return Some(detail);
    }
    match innermost_open(lines) {
        Some(place) => Some(FaultDetail::NoEnd {
            line: place as u64 + 1,
        }),
        None => None,
    }
}

// ---- a text

/// What the bytes of a line say before its tokens do.
fn bytes_detail(fault: ReadFault, line: &[u8]) -> Option<FaultDetail>
    ensures { result ≡ bytes_detail fault line.now }
{
    match fault {
        ReadFault::BadCharacter => unprintable_detail(line),
        ReadFault::TooBig if line.len() > LONGEST_LINE => Some(FaultDetail::LongLine),
        _ => None,
    }
}

/// What is said of a word that these lines declare with other indexes.
fn index_detail(
    alloc: Global,
    lines: &[&[u8]],
    code: &[u8],
    places: &[usize],
) -> Result<Option<FaultDetail>, AllocError>
    ensures { IfOk result (λ detail. detail ≡ index_detail (map (λ line. line.now) lines.now) code.now places.now) }
{
    match first_miscount(alloc, lines, code, places)? {
        Some(count) => Ok(Some(FaultDetail::WrongIndexes {
            column: column_of(code, count.place),
            declared: count.declared as u64,
            given: count.given as u64,
        })),
        None => Ok(None),
    }
}

/// What is said of a number with a leading zero, else of an `if` without `then`, else of indexes, else of a `=` for `:=`.
fn form_detail(
    alloc: Global,
    lines: &[&[u8]],
    code: &[u8],
    places: &[usize],
) -> Result<Option<FaultDetail>, AllocError>
    ensures { IfOk result (λ detail. detail ≡ form_detail (map (λ line. line.now) lines.now) code.now places.now) }
{
    if let Some(detail) = last_token_detail(code, places) {
        return Ok(Some(detail));
    }
    if let Some(detail) = no_then_detail(code, places) {
        return Ok(Some(detail));
    }
    match index_detail(alloc, lines, code, places)? {
        Some(detail) => Ok(Some(detail)),
        None => Ok(equal_detail(code, places)),
    }
}

/// What is said of a word that these lines declare, where it is not the line's access.
fn access_detail(
    alloc: Global,
    lines: &[&[u8]],
    code: &[u8],
    places: &[usize],
) -> Result<Option<FaultDetail>, AllocError>
    ensures { IfOk result (λ detail. detail ≡ access_detail (map (λ line. line.now) lines.now) code.now places.now) }
{
    let place = second_access(alloc, lines, code, places)?;
    Ok(at_column(code, place))
}

/// What is said of a name that is not known.
fn unknown_detail(
    alloc: Global,
    first: &[&[u8]],
    lines: &[&[u8]],
    code: &[u8],
    places: &[usize],
) -> Result<Option<FaultDetail>, AllocError>
    ensures { IfOk result (λ detail. detail
        ≡ unknown_detail (map (λ line. line.now) first.now) (map (λ line. line.now) lines.now) code.now places.now) }
{
    let place = unknown_place(alloc, first, lines, code, places)?;
    Ok(at_column(code, place))
}

/// What the tokens of a line say, which is the last of the first lines of a text.
fn token_details(
    alloc: Global,
    fault: ReadFault,
    first: &[&[u8]],
    lines: &[&[u8]],
    code: &[u8],
    places: &[usize],
) -> Result<Option<FaultDetail>, AllocError>
    ensures { IfOk result (λ detail. detail
        ≡ token_details fault (map (λ line. line.now) first.now) (map (λ line. line.now) lines.now) code.now places.now) }
{
    match fault {
        ReadFault::BadCharacter | ReadFault::TooBig => Ok(last_token_detail(code, places)),
        ReadFault::BadForm => form_detail(alloc, first, code, places),
        ReadFault::NameTaken => Ok(taken_detail(code, places)),
        ReadFault::UnknownName => unknown_detail(alloc, first, lines, code, places),
        ReadFault::TwoAccesses => access_detail(alloc, first, code, places),
        ReadFault::NotAssignable => Ok(at_column(code, name_place(code, places))),
        ReadFault::BadLabel => Ok(at_column(code, label_place(code, places))),
        ReadFault::BadDeed => Ok(deed_detail(code, places)),
        _ => Ok(None),
    }
}

/// What a line says, which is the last of the first lines of a text.
fn line_detail(
    alloc: Global,
    fault: ReadFault,
    first: &[&[u8]],
    lines: &[&[u8]],
    line: &[u8],
) -> Result<Option<FaultDetail>, AllocError>
    ensures { IfOk result (λ detail. detail
        ≡ line_detail fault (map (λ line. line.now) first.now) (map (λ line. line.now) lines.now) line.now) }
{
    if let Some(detail) = bytes_detail(fault, line) {
        return Ok(Some(detail));
    }
    let code = before_comment(line);
    let places = token_places(alloc, code)?;
    token_details(alloc, fault, first, lines, code, &places)
}

/// The lines of a text.
fn lines_of(alloc: Global, text: &[u8]) -> Result<Vec<&[u8]>, AllocError>
    ensures { IfOk result (λ lines. map (λ line. line.now) lines.items ≡ lines_of text.now) }
{
    text.split(|byte| *byte == b'\n').collect(alloc)
}

/// The lines up to the one of this number.
fn lines_up_to<'s, 't>(number: u64, lines: &'s [&'t [u8]]) -> &'s [&'t [u8]]
    ensures { result.now ≡ take number lines.now }
{
    if number < lines.len() as u64 {
        &lines[..number as usize]
    } else {
        lines
    }
}

/// Whether a fault is one of blocks.
fn is_of_blocks(fault: ReadFault) -> bool
    ensures { result ≡ is_of_blocks fault }
{
    matches!(fault, ReadFault::BadBlock)
}

/// What the last of the first lines of a text says, or of a fault of blocks what all the first ones say.
fn detail_in(
    alloc: Global,
    fault: ReadFault,
    first: &[&[u8]],
    lines: &[&[u8]],
) -> Result<Option<FaultDetail>, AllocError>
    ensures { IfOk result (λ detail. detail
        ≡ detail_in fault (map (λ line. line.now) first.now) (map (λ line. line.now) lines.now)) }
{
    if is_of_blocks(fault) {
        let found = block_lines(alloc, first)?;
        return Ok(block_detail(&found));
    }
    match first.last() {
        Some(line) => line_detail(alloc, fault, first, lines, line),
        None => Ok(None),
    }
}

/// What more is said of a fault that `read_algorithm` has answered of this line of a text: its column, or which of the commonest
/// slips it is.
pub fn fault_detail(
    alloc: Global,
    text: &[u8],
    number: u64,
    fault: ReadFault,
) -> Result<Option<FaultDetail>, AllocError>
    ensures { IfOk result (λ detail. detail ≡ fault_detail text.now number fault) }
{
    let lines = lines_of(alloc, text)?;
    detail_in(alloc, fault, lines_up_to(number, &lines), &lines)
}
