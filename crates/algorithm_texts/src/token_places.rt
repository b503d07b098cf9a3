//! The places of a line's tokens.

ghost use Rattle.std.specs.Prelude.{◌≡◌, ◌<◌, ◌≤◌, length, drop, position, IfOk};
ghost use Rattle.std.specs.List.{list_any};
ghost use Rattle.std.specs.Option.{option_copied};
ghost use Rattle.algorithm_texts.specs.TokenPlaces.{token_size, token_places, read_at, word_at, is_word_at, is_word_of, is_sign_at, is_sign_of, places_after, column_of};

use crate::parts::letters;
use crate::tokens::{LineWord, Sign, Token, first_token, is_sign, is_word, tail};
use algorithms::fault::ReadFault;
use std::alloc::{AllocError, Global};

/// How many bytes belong to the first token: to the word `done` and to a fault all that are left.
fn token_size(rest: &[u8]) -> usize
    requires { 0 < length rest.now }
    ensures size { result ≡ token_size rest.now }
    ensures some { (0 < result) × (result ≤ length rest.now) }
{
    match first_token(rest) {
        Ok((token, _)) if is_word(Some(&token), b"done") => rest.len(),
        Ok((_, size)) => size,
        Err(_) => rest.len(),
    }
}

/// The places at which the tokens of a line begin, up to the word `done` or a fault.
pub fn token_places(alloc: Global, code: &[u8]) -> Result<Vec<usize>, AllocError>
    ensures { IfOk result (λ places. places.items ≡ token_places code.now) }
{
    let mut places = Vec::new(alloc);
    let mut place = 0;
    while place < code.len() {
        if code[place] == b' ' {
            place += 1;
        } else {
            places.push(place)?;
            place += token_size(tail(code, place));
        }
    }
    Ok(places)
}

/// The bytes from a place on.
fn rest_at(code: &[u8], place: usize) -> &[u8]
    ensures { result.now ≡ drop place code.now }
{
    if place < code.len() {
        &code[place..]
    } else {
        &code[..0]
    }
}

/// The token at a place, or its fault.
#[tactic(auto, unfolding(crate::specs::Tokens::first_token))]
pub fn read_at(code: &[u8], place: usize) -> Result<Token, ReadFault>
    ensures { result ≡ read_at code.now place }
{
    let rest = rest_at(code, place);
    if rest.is_empty() {
        return Err(ReadFault::BadCharacter);
    }
    match first_token(rest) {
        Ok((token, _)) => Ok(token),
        Err(fault) => Err(fault),
    }
}

/// The word at a place.
pub fn word_at(code: &[u8], place: usize) -> Option<LineWord>
    ensures { result ≡ word_at code.now place }
{
    match read_at(code, place) {
        Ok(token) => letters(Some(&token)),
        Err(_) => None,
    }
}

/// Whether the token at a place is this word.
pub fn is_word_at(word: &[u8], code: &[u8], place: usize) -> bool
    ensures { result ≡ is_word_at word.now code.now place }
{
    match read_at(code, place) {
        Ok(token) => is_word(Some(&token), word),
        Err(_) => false,
    }
}

/// Whether there is a token with this place, and it is this word.
pub fn is_word_of(word: &[u8], code: &[u8], place: Option<&usize>) -> bool
    ensures { result ≡ is_word_of word.now code.now (option_copied place.entry) }
{
    match place {
        Some(place) => is_word_at(word, code, *place),
        None => false,
    }
}

/// A place in a line as a column.
pub fn column_of(line: &[u8], place: usize) -> u64
    ensures { result ≡ column_of line.now place }
{
    if place < line.len() {
        place as u64 + 1
    } else {
        line.len() as u64
    }
}

/// Whether one of these tokens is this word.
pub fn has_word(word: &[u8], code: &[u8], places: &[usize]) -> bool
    ensures { result ≡ list_any (is_word_at word.now code.now) places.now }
{
    for place in places {
        if is_word_at(word, code, *place) {
            return true;
        }
    }
    false
}

/// Whether the token at a place is this sign.
pub fn is_sign_at(sign: Sign, code: &[u8], place: usize) -> bool
    ensures { result ≡ is_sign_at sign code.now place }
{
    match read_at(code, place) {
        Ok(token) => is_sign(Some(&token), sign),
        Err(_) => false,
    }
}

/// Whether there is a token with this place, and it is this sign.
pub fn is_sign_of(sign: Sign, code: &[u8], place: Option<&usize>) -> bool
    ensures { result ≡ is_sign_of sign code.now (option_copied place.entry) }
{
    match place {
        Some(place) => is_sign_at(sign, code, *place),
        None => false,
    }
}

/// Which of these tokens is the first that is this word.
fn word_among(word: &[u8], code: &[u8], places: &[usize]) -> Option<usize>
    ensures { result ≡ position (is_word_at word.now code.now) places.now }
{
    places
        .iter()
        .position(|place| is_word_at(word, code, *place))
}

/// Which of these tokens is the first that is this sign.
pub fn sign_among(sign: Sign, code: &[u8], places: &[usize]) -> Option<usize>
    ensures { result ≡ position (is_sign_at sign code.now) places.now }
{
    places
        .iter()
        .position(|place| is_sign_at(sign, code, *place))
}

/// The tokens after the first one that is this word.
pub fn places_after<'p>(word: &[u8], code: &[u8], places: &'p [usize]) -> &'p [usize]
    ensures { result.now ≡ places_after word.now code.now places.now }
{
    match word_among(word, code, places) {
        Some(at) if at < places.len() => &places[at + 1..],
        _ => &places[..0],
    }
}
