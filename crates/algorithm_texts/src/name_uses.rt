//! The names that a line uses and should not: a second shared word, and a name that is not known.

ghost use Rattle.std.specs.Prelude.{◌≡◌, map, count_by, position, not, ◌==◌, IfOk, None};
ghost use Rattle.std.specs.Option.{option_copied};
ghost use Rattle.algorithm_texts.specs.NameUses.{is_used, is_shared_at, uses_shared, second_access, begins_call, names_word, named_in, is_name_at, begins_swap, reads_name, call_asked, is_unknown, reads_unknown, first_unknown, unknown_place};

use crate::index_counts::{declared_in, is_access_after};
use crate::name_places::{is_reserved_at, name_place};
use crate::token_places::{is_sign_of, is_word_at, is_word_of, token_places, word_at};
use crate::tokens::{Sign, before_comment};
use std::alloc::{AllocError, Global};

/// Whether the token between these two is used: it is no label, and not the name that is declared.
fn is_used(code: &[u8], before: Option<usize>, after: Option<&usize>) -> bool
    ensures { result ≡ is_used code.now before (option_copied after.entry) }
{
    if is_sign_of(Sign::Colon, code, after) {
        return false;
    }
    match before {
        Some(before) => !is_word_at(b"goto", code, before) && !is_word_at(b"shared", code, before),
        None => true,
    }
}

// ---- shared words

/// Whether these lines declare the token at a place as a shared word.
fn is_shared_at(
    alloc: Global,
    lines: &[&[u8]],
    code: &[u8],
    place: usize,
) -> Result<bool, AllocError>
    ensures { IfOk result (λ shared. shared ≡ is_shared_at (map (λ line. line.now) lines.now) code.now place) }
{
    match word_at(code, place) {
        Some(word) => {
            let declared = declared_in(alloc, word.as_bytes(), lines)?;
            Ok(declared.is_some())
        }
        None => Ok(false),
    }
}

/// Whether the token at a place, which comes after one and before one, is a shared word.
fn uses_shared(
    alloc: Global,
    lines: &[&[u8]],
    code: &[u8],
    before: Option<usize>,
    place: usize,
    after: Option<&usize>,
) -> Result<bool, AllocError>
    ensures { IfOk result (λ shared. shared
        ≡ uses_shared (map (λ line. line.now) lines.now) code.now before place (option_copied after.entry)) }
{
    if is_used(code, before, after) {
        is_shared_at(alloc, lines, code, place)
    } else {
        Ok(false)
    }
}

/// The place of the first shared word that is not the line's access, or else of the access.
pub fn second_access(
    alloc: Global,
    lines: &[&[u8]],
    code: &[u8],
    places: &[usize],
) -> Result<Option<usize>, AllocError>
    ensures { IfOk result (λ found. found ≡ second_access (map (λ line. line.now) lines.now) code.now None None places.now) }
{
    let mut access = None;
    let mut before = None;
    let mut rest = places;
    while let Some((place, after)) = rest.split_first() {
        if uses_shared(alloc, lines, code, before, *place, after.first())? {
            if access.is_some() || !is_access_after(code, before) {
                return Ok(Some(*place));
            }
            access = Some(*place);
        }
        before = Some(*place);
        rest = after;
    }
    Ok(access)
}

// ---- names that are not known

/// The place of the first byte that is no space.
fn first_place(code: &[u8]) -> Option<usize>
    ensures { result ≡ position (λ b. not (b == 32)) code.now }
{
    code.iter().position(|byte| *byte != b' ')
}

/// Whether a line begins a call.
fn begins_call(line: &[u8]) -> bool
    ensures { result ≡ begins_call line.now }
{
    let code = before_comment(line);
    match first_place(code) {
        Some(place) => is_word_at(b"call", code, place),
        None => false,
    }
}

/// How many of these lines begin a call.
fn calls_begun(lines: &[&[u8]]) -> usize
    ensures { result ≡ count_by begins_call (map (λ line. line.now) lines.now) }
{
    let mut begun = 0;
    for line in lines {
        if begins_call(line) {
            begun += 1;
        }
    }
    begun
}

/// Whether a line declares or sets this name.
fn names_word(alloc: Global, word: &[u8], line: &[u8]) -> Result<bool, AllocError>
    ensures { IfOk result (λ named. named ≡ names_word word.now line.now) }
{
    let code = before_comment(line);
    let places = token_places(alloc, code)?;
    match name_place(code, &places) {
        Some(place) => Ok(is_word_at(word, code, place)),
        None => Ok(false),
    }
}

/// Whether a line before all calls, or of the call of this number, declares or sets this name.
fn is_named_in(alloc: Global, word: &[u8], call: usize, lines: &[&[u8]]) -> Result<bool, AllocError>
    ensures { IfOk result (λ named. named ≡ named_in word.now call 0 (map (λ line. line.now) lines.now)) }
{
    let mut begun: usize = 0;
    for line in lines {
        if (begun == 0 || begun == call) && names_word(alloc, word, line)? {
            return Ok(true);
        }
        if begins_call(line) {
            begun += 1;
        }
    }
    Ok(false)
}

/// Whether the token at a place is a word, and none of the format.
fn is_name_at(code: &[u8], place: usize) -> bool
    ensures { result ≡ is_name_at code.now place }
{
    word_at(code, place).is_some() && !is_reserved_at(code, place)
}

/// Whether the token at a place is `swap`, and a name comes after it.
fn begins_swap(code: &[u8], place: usize, after: Option<&usize>) -> bool
    ensures { result ≡ begins_swap code.now place (option_copied after.entry) }
{
    match after {
        Some(after) => is_word_at(b"swap", code, place) && is_name_at(code, *after),
        None => false,
    }
}

/// Whether the token at a place, which comes after one and before one, is a name that has to be known.
fn reads_name(code: &[u8], before: Option<usize>, place: usize, after: Option<&usize>) -> bool
    ensures { result ≡ reads_name code.now before place (option_copied after.entry) }
{
    is_name_at(code, place) && (is_used(code, before, after) && !begins_swap(code, place, after))
}

/// In which call a name has to be set. Before an index no call is enough: it has to be declared.
fn call_asked(code: &[u8], call: usize, after: Option<&usize>) -> usize
    ensures { result ≡ call_asked code.now call (option_copied after.entry) }
{
    if is_sign_of(Sign::OpenIndex, code, after) {
        0
    } else {
        call
    }
}

/// Whether no line of these declares the name at a place, or sets it in the call of this number.
fn is_unknown(
    alloc: Global,
    lines: &[&[u8]],
    call: usize,
    code: &[u8],
    place: usize,
) -> Result<bool, AllocError>
    ensures { IfOk result (λ unknown. unknown ≡ is_unknown (map (λ line. line.now) lines.now) call code.now place) }
{
    match word_at(code, place) {
        Some(word) => {
            let known = is_named_in(alloc, word.as_bytes(), call, lines)?;
            Ok(!known)
        }
        None => Ok(false),
    }
}

/// Whether the token at a place, which comes after one and before one, is a name that is not known in the call of this number.
fn reads_unknown(
    alloc: Global,
    lines: &[&[u8]],
    call: usize,
    code: &[u8],
    before: Option<usize>,
    place: usize,
    after: Option<&usize>,
) -> Result<bool, AllocError>
    ensures { IfOk result (λ unknown. unknown
        ≡ reads_unknown (map (λ line. line.now) lines.now) call code.now before place (option_copied after.entry)) }
{
    if reads_name(code, before, place, after) {
        is_unknown(alloc, lines, call_asked(code, call, after), code, place)
    } else {
        Ok(false)
    }
}

/// The place of the first name that is not known in the call of this number.
fn first_unknown(
    alloc: Global,
    lines: &[&[u8]],
    call: usize,
    code: &[u8],
    places: &[usize],
) -> Result<Option<usize>, AllocError>
    ensures { IfOk result (λ found. found ≡ first_unknown (map (λ line. line.now) lines.now) call code.now None places.now) }
{
    let mut before = None;
    let mut rest = places;
    while let Some((place, after)) = rest.split_first() {
        if reads_unknown(alloc, lines, call, code, before, *place, after.first())? {
            return Ok(Some(*place));
        }
        before = Some(*place);
        rest = after;
    }
    Ok(None)
}

/// The place of the first name of a line of a call that is not known there. The first lines are those of the text up to it.
pub fn unknown_place(
    alloc: Global,
    first: &[&[u8]],
    lines: &[&[u8]],
    code: &[u8],
    places: &[usize],
) -> Result<Option<usize>, AllocError>
    ensures { IfOk result (λ found. found
        ≡ unknown_place (map (λ line. line.now) first.now) (map (λ line. line.now) lines.now) code.now places.now) }
{
    let call = calls_begun(first);
    if call == 0 || is_word_of(b"for", code, places.first()) {
        Ok(None)
    } else {
        first_unknown(alloc, lines, call, code, places)
    }
}
