//! The parts of a line: the tokens that have to come next, and what they name.

ghost use Rattle.std.specs.Prelude.{◌≡◌, ◌<◌, ◌≤◌, ◌-◌, ◌^◌, drop, length, slice_get, OnOk, IfOk, IfErr, Some, None, true, false, ◌||◌, codes, position};
ghost use Rattle.std.specs.Option.{option_copied};
ghost use Rattle.algorithms.specs.declared.fault.ReadFault.TheVariants.{BadForm as NoForm};
ghost use Rattle.algorithm_texts.specs.Fronts.{past_word, past_sign, is_over, is_the_word, letters_of, number_in, named_by, deed_words, members_words, deed_said, members_said, past_withdraw, ends_value, open_after, ends_here, value_size, value_tokens, value_rest, begins_no_simple};
ghost use Rattle.algorithm_texts.specs.LineFaults.{undone_fault};
ghost use Rattle.algorithm_texts.specs.Tokens.{value_of_name};

use crate::tokens::{LineWord, Sign, Token, is_sign, is_word, spells};
use algorithms::fault::ReadFault;
use algorithms::line::{AlgorithmDeed, Members};

/// The tokens after the first ones.
pub fn after(tokens: &[Token], count: usize) -> &[Token]
    ensures { result.now ≡ drop count tokens.now }
{
    if count <= tokens.len() {
        &tokens[count..]
    } else {
        &tokens[..0]
    }
}

/// The tokens after a word that has to come next.
pub fn after_word<'t>(tokens: &'t [Token], word: &[u8]) -> Result<&'t [Token], ReadFault>
    ensures ok { IfOk result (λ rest. past_word tokens.now word.now ≡ Some rest.now) }
    ensures err { IfErr result (λ fault. (past_word tokens.now word.now ≡ None) × (fault ≡ NoForm)) }
{
    if is_word(tokens.first(), word) {
        Ok(after(tokens, 1))
    } else {
        Err(ReadFault::BadForm)
    }
}

/// The tokens after a sign that has to come next.
pub fn after_sign(tokens: &[Token], sign: Sign) -> Result<&[Token], ReadFault>
    ensures ok { IfOk result (λ rest. past_sign tokens.now sign ≡ Some rest.now) }
    ensures err { IfErr result (λ fault. (past_sign tokens.now sign ≡ None) × (fault ≡ NoForm)) }
{
    if is_sign(tokens.first(), sign) {
        Ok(after(tokens, 1))
    } else {
        Err(ReadFault::BadForm)
    }
}

/// `BadForm` where a token is left.
pub fn check_end(tokens: &[Token]) -> Result<(), ReadFault>
    ensures ok { OnOk result (is_over tokens.now ≡ true) }
    ensures err { IfErr result (λ fault. (is_over tokens.now ≡ false) × (fault ≡ NoForm)) }
{
    if tokens.is_empty() {
        Ok(())
    } else {
        Err(ReadFault::BadForm)
    }
}

/// `BadDeed` where a deed or `may withdraw` is left, `BadForm` where another token is.
pub fn ended_without_deed(tokens: &[Token]) -> Result<(), ReadFault>
    ensures ok { OnOk result (is_over tokens.now ≡ true) }
    ensures err { IfErr result (λ fault. (is_over tokens.now ≡ false) × (fault ≡ undone_fault tokens.now)) }
{
    if is_word(tokens.first(), b"this") || is_word(tokens.first(), b"may") {
        return Err(ReadFault::BadDeed);
    }
    check_end(tokens)
}

/// Whether a value or a condition ends before this token.
fn ends_value(token: &Token) -> bool
    ensures { result ≡ ends_value token.now }
{
    is_word(Some(token), b"then")
        || is_word(Some(token), b"may")
        || is_word(Some(token), b"this")
        || is_word(Some(token), b"until")
        || is_word(Some(token), b"if")
        || is_word(Some(token), b"done")
        || is_sign(Some(token), Sign::Assign)
}

/// How many indexes are open after this token, where this number is before it.
fn open_after(opened: usize, token: &Token) -> usize
    requires { opened < 2 ^ 64 - 1 }
    ensures { result ≡ open_after opened token.now }
{
    if is_sign(Some(token), Sign::OpenIndex) {
        opened + 1
    } else if is_sign(Some(token), Sign::CloseIndex) {
        opened.saturating_sub(1)
    } else {
        opened
    }
}

/// Whether a value or a condition ends before this token, where this number of indexes is open.
fn ends_here(opened: usize, token: &Token) -> bool
    ensures { result ≡ ends_here opened token.now }
{
    ends_value(token) || (opened == 0 && is_sign(Some(token), Sign::CloseIndex))
}

/// The tokens of a value or a condition, and those after it.
pub fn split_value(tokens: &[Token]) -> (&[Token], &[Token])
    ensures value { result.0.now ≡ value_tokens tokens.now }
    ensures rest { result.1.now ≡ value_rest tokens.now }
{
    tokens.split_at(value_end(tokens))
}

/// The letters of a word.
pub fn letters(token: Option<&Token>) -> Option<LineWord>
    ensures { result ≡ letters_of (option_copied token.entry) }
{
    match token {
        Some(Token::Word(word)) => Some(*word),
        _ => None,
    }
}

/// The number at a token.
pub fn number_at(token: Option<&Token>) -> Option<u64>
    ensures { result ≡ number_in (option_copied token.entry) }
{
    match token {
        Some(Token::Number(number)) => Some(*number),
        Some(Token::Word(_) | Token::Sign(_)) | None => None,
    }
}

/// The deed of this name.
fn deed_named(word: &[u8]) -> Option<AlgorithmDeed>
    ensures { result ≡ value_of_name deed_words word.now }
{
    if spells(word, b"begin") {
        Some(AlgorithmDeed::Begin)
    } else if spells(word, b"ready") {
        Some(AlgorithmDeed::Ready)
    } else if spells(word, b"enter") {
        Some(AlgorithmDeed::Enter)
    } else if spells(word, b"reenter") {
        Some(AlgorithmDeed::Reenter)
    } else if spells(word, b"leave") {
        Some(AlgorithmDeed::Leave)
    } else if spells(word, b"quit") {
        Some(AlgorithmDeed::Quit)
    } else {
        None
    }
}

/// The deed that a token names.
fn deed_of(token: Option<&Token>) -> Option<AlgorithmDeed>
    ensures { result ≡ named_by deed_words (option_copied token.entry) }
{
    deed_named(letters(token)?.as_bytes())
}

/// The processes of this name.
fn members_named(word: &[u8]) -> Option<Members>
    ensures { result ≡ value_of_name members_words word.now }
{
    if spells(word, b"all") {
        Some(Members::All)
    } else if spells(word, b"others") {
        Some(Members::Others)
    } else if spells(word, b"lower") {
        Some(Members::Lower)
    } else if spells(word, b"higher") {
        Some(Members::Higher)
    } else {
        None
    }
}

/// The processes that a token names.
fn members_of(token: Option<&Token>) -> Option<Members>
    ensures { result ≡ named_by members_words (option_copied token.entry) }
{
    members_named(letters(token)?.as_bytes())
}

/// The place of the token before which a value or a condition ends.
fn value_end(tokens: &[Token]) -> usize
    ensures size { result ≡ value_size tokens.now }
    ensures few { result ≤ length tokens.now }
{
    let mut size = 0;
    let mut opened = 0;
    for token in tokens {
        if ends_here(opened, token) {
            return size;
        }
        opened = open_after(opened, token);
        size += 1;
    }
    size
}

/// The processes that a loop goes over: `in MEMBERS`.
pub fn members_said(tokens: &[Token]) -> Result<Members, ReadFault>
    ensures ok { IfOk result (λ members. members_said tokens.now ≡ Some members) }
    ensures err { IfErr result (λ fault. (members_said tokens.now ≡ None) × (fault ≡ NoForm)) }
{
    let rest = after_word(tokens, b"in")?;
    let Some(members) = members_of(rest.first()) else {
        return Err(ReadFault::BadForm);
    };
    check_end(after(rest, 1))?;
    Ok(members)
}

/// The deed that a line says: `this is DEED`.
pub fn deed_said(tokens: &[Token]) -> Result<AlgorithmDeed, ReadFault>
    ensures ok { IfOk result (λ deed. deed_said tokens.now ≡ Some deed) }
    ensures err { IfErr result (λ fault. (deed_said tokens.now ≡ None) × (fault ≡ NoForm)) }
{
    let rest = after_word(after_word(tokens, b"this")?, b"is")?;
    let Some(deed) = deed_of(rest.first()) else {
        return Err(ReadFault::BadForm);
    };
    check_end(after(rest, 1))?;
    Ok(deed)
}

/// The tokens after `may withdraw`, where a line says it.
pub fn after_withdraw(tokens: &[Token]) -> Result<&[Token], ReadFault>
    ensures ok { IfOk result (λ rest. past_withdraw tokens.now ≡ Some rest.now) }
    ensures err { IfErr result (λ fault. (past_withdraw tokens.now ≡ None) × (fault ≡ NoForm)) }
{
    if is_word(tokens.first(), b"may") {
        after_word(after(tokens, 1), b"withdraw")
    } else {
        Ok(tokens)
    }
}

/// Whether a block or a label begins here.
pub fn begins_no_simple(tokens: &[Token]) -> bool
    ensures { result ≡ begins_no_simple tokens.now }
{
    is_word(tokens.first(), b"if")
        || is_word(tokens.first(), b"for")
        || is_sign(tokens.get(1), Sign::Colon)
}
