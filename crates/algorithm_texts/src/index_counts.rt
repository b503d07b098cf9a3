//! The indexes of shared words: how many a line gives a word, and how many the word is declared with.

ghost use Rattle.std.specs.Prelude.{◌≡◌, map, count_by, IfOk, None};
ghost use Rattle.std.specs.Option.{option_copied};
ghost use Rattle.algorithm_texts.specs.TokenPlaces.{is_sign_at};
ghost use Rattle.algorithm_texts.specs.IndexCounts.{count_of, declared_at, declared_by, declared_in, given_from, is_access_after, miscount_by, miscount, first_miscount};
ghost use Rattle.algorithm_texts.specs.declared.tokens.Sign.TheVariants.{OpenIndex as OpenBracket};

use crate::token_places::{is_sign_at, is_sign_of, is_word_of, token_places, word_at};
use crate::tokens::{LineWord, Sign, before_comment};
use std::alloc::{AllocError, Global};

/// The place of a word, and how many indexes it is declared with and given.
#[derive(Clone, Copy)]
pub struct IndexCount {
    pub place: usize,
    pub declared: usize,
    pub given: usize,
}

/// How many of these tokens open an index.
fn open_indexes(code: &[u8], places: &[usize]) -> usize
    ensures { result ≡ count_by (is_sign_at OpenBracket code.now) places.now }
{
    let mut count = 0;
    for place in places {
        if is_sign_at(Sign::OpenIndex, code, *place) {
            count += 1;
        }
    }
    count
}

/// How many indexes a line with tokens at these places declares the word with.
fn declared_at(word: &[u8], code: &[u8], places: &[usize]) -> Option<usize>
    ensures { result ≡ declared_at word.now code.now places.now }
{
    if is_word_of(b"shared", code, places.first()) && is_word_of(word, code, places.get(1)) {
        Some(open_indexes(code, places))
    } else {
        None
    }
}

/// How many indexes a line declares the word with.
fn declared_by(alloc: Global, word: &[u8], line: &[u8]) -> Result<Option<usize>, AllocError>
    ensures { IfOk result (λ declared. declared ≡ declared_by word.now line.now) }
{
    let code = before_comment(line);
    let places = token_places(alloc, code)?;
    Ok(declared_at(word, code, &places))
}

/// How many indexes the first of these lines that declares the word gives it.
pub fn declared_in(alloc: Global, word: &[u8], lines: &[&[u8]]) -> Result<Option<usize>, AllocError>
    ensures { IfOk result (λ declared. declared ≡ declared_in word.now (map (λ line. line.now) lines.now)) }
{
    for line in lines {
        if let Some(declared) = declared_by(alloc, word, line)? {
            return Ok(Some(declared));
        }
    }
    Ok(None)
}

/// How many indexes come first.
fn given_at(code: &[u8], places: &[usize]) -> usize
    ensures { result ≡ given_from 0 code.now places.now }
{
    let mut depth: usize = 0;
    let mut given: usize = 0;
    for place in places {
        if is_sign_at(Sign::OpenIndex, code, *place) {
            if depth == 0 {
                given += 1;
            }
            depth += 1;
        } else if depth == 0 {
            return given;
        } else if is_sign_at(Sign::CloseIndex, code, *place) {
            depth -= 1;
        }
    }
    given
}

/// Whether a word after this token is accessed.
pub fn is_access_after(code: &[u8], before: Option<usize>) -> bool
    ensures { result ≡ is_access_after code.now before }
{
    let Some(before) = before else {
        return true;
    };
    is_sign_of(Sign::Assign, code, Some(&before))
        || is_word_of(b"swap", code, Some(&before))
        || is_word_of(b"then", code, Some(&before))
}

/// What is wrong with the number of indexes of a word.
fn miscount_by(place: usize, declared: Option<usize>, given: usize) -> Option<IndexCount>
    ensures { result ≡ miscount_by place declared given }
{
    match declared {
        Some(declared) if declared != given => Some(IndexCount {
            place,
            declared,
            given,
        }),
        _ => None,
    }
}

/// What is wrong with the indexes of a word at a place, to which that many are given.
fn count_of(
    alloc: Global,
    lines: &[&[u8]],
    place: usize,
    given: usize,
    word: Option<LineWord>,
) -> Result<Option<IndexCount>, AllocError>
    ensures { IfOk result (λ count. count ≡ count_of (map (λ line. line.now) lines.now) place given word) }
{
    match word {
        Some(word) => {
            let declared = declared_in(alloc, word.as_bytes(), lines)?;
            Ok(miscount_by(place, declared, given))
        }
        None => Ok(None),
    }
}

/// What is wrong with the indexes of the token at a place, which comes after one and before these.
fn miscount(
    alloc: Global,
    lines: &[&[u8]],
    code: &[u8],
    before: Option<usize>,
    place: usize,
    after: &[usize],
) -> Result<Option<IndexCount>, AllocError>
    ensures { IfOk result (λ count. count ≡ miscount (map (λ line. line.now) lines.now) code.now before place after.now) }
{
    if is_access_after(code, before) && !is_sign_of(Sign::Colon, code, after.first()) {
        count_of(
            alloc,
            lines,
            place,
            given_at(code, after),
            word_at(code, place),
        )
    } else {
        Ok(None)
    }
}

/// The first access with other indexes than one of these lines declares.
pub fn first_miscount(
    alloc: Global,
    lines: &[&[u8]],
    code: &[u8],
    places: &[usize],
) -> Result<Option<IndexCount>, AllocError>
    ensures { IfOk result (λ count. count ≡ first_miscount (map (λ line. line.now) lines.now) code.now None places.now) }
{
    let mut before = None;
    let mut rest = places;
    while let Some((place, after)) = rest.split_first() {
        if let Some(count) = miscount(alloc, lines, code, before, *place, after)? {
            return Ok(Some(count));
        }
        before = Some(*place);
        rest = after;
    }
    Ok(None)
}
