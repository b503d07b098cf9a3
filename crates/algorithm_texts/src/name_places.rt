//! The places of the names that lines declare, set or go to.

ghost use Rattle.std.specs.Prelude.{◌≡◌};
ghost use Rattle.std.specs.Option.{option_copied};
ghost use Rattle.algorithm_texts.specs.NamePlaces.{statement_places, named_before, named_second, own_place, is_reserved_word, is_reserved_at, reserved_place, second_process, claim_place, is_claim, name_place, claimed_label_place, label_place, deed_place, set_places, is_set_by_equal, equal_among, equal_in, equal_place};

use crate::names::is_reserved;
use crate::token_places::{
    has_word, is_sign_of, is_word_at, is_word_of, places_after, sign_among, word_at,
};
use crate::tokens::{LineWord, Sign};
use algorithms::condition::Comparison;

/// The tokens of the statement of a line: of an `if` those after `then`.
fn statement_places<'p>(code: &[u8], places: &'p [usize]) -> &'p [usize]
    ensures { result.now ≡ statement_places code.now places.now }
{
    if is_word_of(b"if", code, places.first()) {
        places_after(b"then", code, places)
    } else {
        places
    }
}

/// Whether a name before this token is set, or is a label.
fn is_named_before(code: &[u8], second: Option<&usize>) -> bool
    ensures { result ≡ named_before code.now (option_copied second.entry) }
{
    is_sign_of(Sign::Assign, code, second) || is_sign_of(Sign::Colon, code, second)
}

/// Whether a line with this first token has its name after it.
fn is_named_second(code: &[u8], first: Option<&usize>) -> bool
    ensures { result ≡ named_second code.now (option_copied first.entry) }
{
    is_word_of(b"shared", code, first)
        || is_word_of(b"private", code, first)
        || is_word_of(b"constant", code, first)
        || is_word_of(b"for", code, first)
        || is_word_of(b"goto", code, first)
        || is_word_of(b"await", code, first)
}

/// The place of the name that a declaration or a statement names.
fn own_place(code: &[u8], places: &[usize]) -> Option<usize>
    ensures { result ≡ own_place code.now places.now }
{
    if !is_named_before(code, places.get(1)) && is_named_second(code, places.first()) {
        places.get(1).copied()
    } else {
        places.first().copied()
    }
}

/// Whether there is a word, and it is one of the format.
fn is_reserved_word(word: Option<LineWord>) -> bool
    ensures { result ≡ is_reserved_word word }
{
    match word {
        Some(word) => is_reserved(word.as_bytes()),
        None => false,
    }
}

/// Whether the token at a place is a word of the format.
pub fn is_reserved_at(code: &[u8], place: usize) -> bool
    ensures { result ≡ is_reserved_at code.now place }
{
    is_reserved_word(word_at(code, place))
}

/// This place, where its token is a word of the format.
fn reserved_place(code: &[u8], place: Option<usize>) -> Option<usize>
    ensures { result ≡ reserved_place code.now place }
{
    match place {
        Some(place) if is_reserved_at(code, place) => Some(place),
        _ => None,
    }
}

/// The place of the second process of a claim.
fn second_process(code: &[u8], places: &[usize]) -> Option<usize>
    ensures { result ≡ second_process code.now places.now }
{
    if is_sign_of(Sign::Comma, code, places.get(3)) {
        places.get(4).copied()
    } else {
        None
    }
}

/// The place of the first process, the second one or the first label of a claim, where it is a word of the format.
fn claim_place(code: &[u8], places: &[usize]) -> Option<usize>
    ensures { result ≡ claim_place code.now places.now }
{
    if let Some(place) = reserved_place(code, places.get(2).copied()) {
        return Some(place);
    }
    if let Some(place) = reserved_place(code, second_process(code, places)) {
        return Some(place);
    }
    reserved_place(code, places_after(b"at", code, places).first().copied())
}

/// Whether a line is a claim.
fn is_claim(code: &[u8], places: &[usize]) -> bool
    ensures { result ≡ is_claim code.now places.now }
{
    is_word_of(b"never", code, places.first()) && !is_named_before(code, places.get(1))
}

/// The place of the name that a line declares, sets or goes to, or of its label; of a claim, that of a word of the format.
pub fn name_place(code: &[u8], places: &[usize]) -> Option<usize>
    ensures { result ≡ name_place code.now places.now }
{
    if is_claim(code, places) {
        claim_place(code, places)
    } else {
        own_place(code, statement_places(code, places))
    }
}

/// The place of the one label that a claim names.
fn claimed_label_place(code: &[u8], places: &[usize]) -> Option<usize>
    ensures { result ≡ claimed_label_place code.now places.now }
{
    let after = places_after(b"at", code, places);
    if has_word(b"at", code, after) {
        None
    } else {
        after.first().copied()
    }
}

/// The place of the label that a line goes to, or of the one that a claim names.
pub fn label_place(code: &[u8], places: &[usize]) -> Option<usize>
    ensures { result ≡ label_place code.now places.now }
{
    if has_word(b"goto", code, places) {
        places_after(b"goto", code, places).first().copied()
    } else {
        claimed_label_place(code, places)
    }
}

/// The place of the deed that a line says.
pub fn deed_place(code: &[u8], places: &[usize]) -> Option<usize>
    ensures { result ≡ deed_place code.now places.now }
{
    places_after(b"is", code, places).first().copied()
}

/// The tokens of a statement from the name on that it sets.
fn set_places<'p>(code: &[u8], places: &'p [usize]) -> &'p [usize]
    ensures { result.now ≡ set_places code.now places.now }
{
    match places.split_first() {
        Some((first, rest)) if is_word_at(b"await", code, *first) => rest,
        _ => places,
    }
}

/// Whether a name, with an index or without, comes before a `=`, and there is no `:=`.
fn is_set_by_equal(code: &[u8], places: &[usize]) -> bool
    ensures { result ≡ is_set_by_equal code.now places.now }
{
    let equal = Sign::Comparison(Comparison::Equal);
    let second = places.get(1);
    (is_sign_of(equal, code, second) || is_sign_of(Sign::OpenIndex, code, second))
        && (sign_among(Sign::Assign, code, places).is_none()
            && !is_named_second(code, places.first()))
}

/// The place of the first `=`.
fn equal_among(code: &[u8], places: &[usize]) -> Option<usize>
    ensures { result ≡ equal_among code.now places.now }
{
    match sign_among(Sign::Comparison(Comparison::Equal), code, places) {
        Some(at) => places.get(at).copied(),
        None => None,
    }
}

/// The place of a `=` for `:=`, from the name on that is set.
fn equal_in(code: &[u8], places: &[usize]) -> Option<usize>
    ensures { result ≡ equal_in code.now places.now }
{
    if is_set_by_equal(code, places) {
        equal_among(code, places)
    } else {
        None
    }
}

/// The place of a `=` by which a statement sets a name.
pub fn equal_place(code: &[u8], places: &[usize]) -> Option<usize>
    ensures { result ≡ equal_place code.now places.now }
{
    equal_in(code, set_places(code, statement_places(code, places)))
}
