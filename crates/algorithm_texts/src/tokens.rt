//! The tokens of a line.

ghost use Rattle.std.specs.Prelude.{◌≡◌, ℕ, ◌==◌, IsAscii, bytes_eq, not, position, ◌≤◌, ◌<◌, ◌+◌, ◌^◌, ◌↔◌, ◌⊎◌, ◌++◌, List, length, drop, Some, IsTrue, IfSome, IfNone, IfOk, IfErr, OnOk, ◌∷◌, [], true, false, Ok, Err};
ghost use Rattle.std.specs.List.{list_all, prefix_len};
ghost use Rattle.std.specs.Option.{option_copied};
ghost use Rattle.std.specs.Char.{is_ascii_digit, is_ascii_lowercase};
ghost use Rattle.std.specs.Str.Parse.{digits_value, AllDigits};
ghost use Rattle.algorithms.specs.declared.fault.ReadFault.TheVariants.{OutOfMemory as NoMemory};
ghost use Rattle.algorithm_texts.specs.declared.tokens.Token.{Token as TokenOf};
ghost use Rattle.algorithm_texts.specs.declared.tokens.Token.TheVariants.{Word as OfWord, Sign as OfSign};
ghost use Rattle.algorithm_texts.specs.Fronts.{is_the_word, is_the_sign};
ghost use Rattle.algorithm_texts.specs.Tokens.{is_name_byte, value_of_name, long_signs, short_signs, number_token, word_token, sign_token, first_token, Scans, is_printable, before_comment, is_answer_part, is_answer_word, answer_from, answer_of, is_filled, LineSays};

use algorithms::condition::Comparison;
use algorithms::expression::Operator;
use algorithms::fault::ReadFault;
use std::alloc::Global;
use std::marker::Model;

/// The most characters of a name.
const LONGEST_NAME: usize = 32;

/// A sign of a text.
#[derive(Clone, Copy, PartialEq, Eq)]
pub enum Sign {
    Assign,
    Colon,
    Comma,
    Open,
    Close,
    OpenIndex,
    CloseIndex,
    Operator(Operator),
    Comparison(Comparison),
}

/// A word of a line, at most as long as a name.
#[derive(Clone, Copy)]
pub struct LineWord {
    letters: [u8; LONGEST_NAME],
    size: usize,
}

impl Model for LineWord {
    ghost use Rattle.std.specs.Prelude.{◌≡◌, ◌-◌, ◌≤◌, ◌++◌, ℕ, List, length, take, replicate, IsAscii};
    ghost use Rattle.algorithm_texts.specs.Letters.{padded};

    ghost Value = { List ℕ };

    ghost view = { λ w. take w.size w.letters };

    ghost invariant = { λ w. (w.size ≤ 32) × (length w.letters ≡ 32)
        × (w.letters ≡ take w.size w.letters ++ replicate (32 - w.size) 0) × IsAscii (take w.size w.letters) };

    ghost inverse = { λ v. record { letters = v ++ replicate (32 - length v) 0; size = length v } };

    ghost inverse_ok = { λ w h. padded (λ (ls : List ℕ) (n : ℕ). record { letters = ls; size = n }) w.letters w.size h.0 h.1 h.2 };
}

/// A token of a line.
#[derive(Clone, Copy)]
pub enum Token {
    Number(u64),
    Word(LineWord),
    Sign(Sign),
}

/// The tokens of a line, and the answer that stands after the word `done`.
#[derive(Drop)]
pub struct Tokens {
    pub all: Vec<Token>,
    pub answer: Vec<u8>,
}

impl LineWord {
    /// These letters. `TooBig` where there are more than a name has.
    pub fn of(bytes: &[u8]) -> Result<LineWord, ReadFault>
        requires { IsAscii bytes.now }
        ensures ok { IfOk result (λ word. (word ≡ bytes.now) × (length bytes.now ≤ 32)) }
        ensures err { IfErr result (λ fault. (fault ≡ ReadFault.TooBig) × (32 < length bytes.now)) }
    {
        let size = bytes.len();
        if size > LONGEST_NAME {
            return Err(ReadFault::TooBig);
        }
        let mut letters = [0; LONGEST_NAME];
        letters[..size].copy_from_slice(bytes);
        Ok(LineWord { letters, size })
    }

    /// The letters of the word.
    pub fn as_bytes(&self) -> &[u8]
        ensures letters { result.now ≡ self.now }
        ensures ascii { IsAscii result.now }
    {
        &self.letters[..self.size]
    }

    /// Whether it has these letters.
    pub fn is(&self, word: &[u8]) -> bool
        ensures { IsTrue result ↔ (self.now ≡ word.now) }
    {
        spells(self.as_bytes(), word)
    }
}

/// Whether a byte may stand in a name: a letter, a digit or `_`.
fn is_name_byte(byte: u8) -> bool
    ensures { result ≡ is_name_byte byte }
{
    byte.is_ascii_alphanumeric() || byte == b'_'
}

/// The number of these digits. `None` where it is above 2^64 - 1.
fn value_of(digits: &[u8]) -> Option<u64>
    requires { AllDigits 10 digits.now }
    ensures value { IfSome result (λ n. n ≡ digits_value 10 digits.now) }
    ensures none { IfNone result (2 ^ 64 ≤ digits_value 10 digits.now) }
{
    let mut value: u64 = 0;
    for digit in digits {
        value = value
            .checked_mul(10)?
            .checked_add(u64::from(*digit - b'0'))?;
    }
    Some(value)
}

/// The token of these digits. `BadForm` with a leading zero, `TooBig` above 2^64 - 1.
#[tactic(auto, unfolding(crate::specs::Tokens::number_token))]
fn number_token(digits: &[u8]) -> Result<Token, ReadFault>
    requires some { 0 < length digits.now }
    requires digits { AllDigits 10 digits.now }
    ensures { result ≡ number_token digits.now }
{
    if digits.len() > 1 && digits[0] == b'0' {
        return Err(ReadFault::BadForm);
    }
    match value_of(digits) {
        Some(value) => Ok(Token::Number(value)),
        None => Err(ReadFault::TooBig),
    }
}

/// The token that these letters are.
#[tactic(auto, unfolding(crate::specs::Tokens::word_token))]
fn word_token(letters: &[u8]) -> Result<Token, ReadFault>
    requires { IsAscii letters.now }
    ensures { result ≡ word_token letters.now }
{
    match LineWord::of(letters) {
        Err(fault) => Err(fault),
        Ok(_) if letters == b"mod".as_slice() => Ok(Token::Sign(Sign::Operator(
            Operator::Remainder,
        ))),
        Ok(word) => Ok(Token::Word(word)),
    }
}

/// A sign of two characters.
fn long_sign(first: u8, second: u8) -> Option<Sign>
    ensures { result ≡ value_of_name long_signs (first ∷ second ∷ []) }
{
    match (first, second) {
        (b':', b'=') => Some(Sign::Assign),
        (b'<', b'=') => Some(Sign::Comparison(Comparison::AtMost)),
        (b'>', b'=') => Some(Sign::Comparison(Comparison::AtLeast)),
        (b'!', b'=') => Some(Sign::Comparison(Comparison::NotEqual)),
        _ => None,
    }
}

/// A sign of one character.
fn short_sign(byte: u8) -> Option<Sign>
    ensures { result ≡ value_of_name short_signs (byte ∷ []) }
{
    match byte {
        b':' => Some(Sign::Colon),
        b',' => Some(Sign::Comma),
        b'(' => Some(Sign::Open),
        b')' => Some(Sign::Close),
        b'[' => Some(Sign::OpenIndex),
        b']' => Some(Sign::CloseIndex),
        b'+' => Some(Sign::Operator(Operator::Sum)),
        b'-' => Some(Sign::Operator(Operator::Difference)),
        b'*' => Some(Sign::Operator(Operator::Product)),
        b'/' => Some(Sign::Operator(Operator::Quotient)),
        b'=' => Some(Sign::Comparison(Comparison::Equal)),
        b'<' => Some(Sign::Comparison(Comparison::Less)),
        b'>' => Some(Sign::Comparison(Comparison::Greater)),
        _ => None,
    }
}

/// The sign at the front, and how many bytes it takes. `BadCharacter` where there is none.
fn sign_token(bytes: &[u8]) -> Result<(Token, usize), ReadFault>
    requires { 0 < length bytes.now }
    ensures token { result ≡ sign_token bytes.now }
    ensures size { IfOk result (λ read. (0 < read.1) × (read.1 ≤ length bytes.now)) }
{
    if bytes.len() > 1 {
        if let Some(sign) = long_sign(bytes[0], bytes[1]) {
            return Ok((Token::Sign(sign), 2));
        }
    }
    match short_sign(bytes[0]) {
        Some(sign) => Ok((Token::Sign(sign), 1)),
        None => Err(ReadFault::BadCharacter),
    }
}

/// The place of the first byte that is no digit.
fn other_than_digit(bytes: &[u8]) -> Option<usize>
    ensures { result ≡ position (λ b. not (is_ascii_digit b)) bytes.now }
{
    bytes.iter().position(|byte| !byte.is_ascii_digit())
}

/// The place of the first byte that is no letter, digit or `_`.
fn other_than_letter(bytes: &[u8]) -> Option<usize>
    ensures { result ≡ position (λ b. not (is_name_byte b)) bytes.now }
{
    bytes.iter().position(|byte| !is_name_byte(*byte))
}

/// How many bytes at the front are digits.
fn digits(bytes: &[u8]) -> usize
    ensures { result ≡ prefix_len is_ascii_digit bytes.now }
{
    match other_than_digit(bytes) {
        Some(end) => end,
        None => bytes.len(),
    }
}

/// How many bytes at the front are letters, digits or `_`.
fn letters(bytes: &[u8]) -> usize
    ensures { result ≡ prefix_len is_name_byte bytes.now }
{
    match other_than_letter(bytes) {
        Some(end) => end,
        None => bytes.len(),
    }
}

/// The first token, and how many bytes it takes.
#[tactic(auto, unfolding(crate::specs::Tokens::first_token))]
pub fn first_token(bytes: &[u8]) -> Result<(Token, usize), ReadFault>
    requires { 0 < length bytes.now }
    ensures token { result ≡ first_token bytes.now }
    ensures size { IfOk result (λ read. (0 < read.1) × (read.1 ≤ length bytes.now)) }
{
    if bytes[0].is_ascii_digit() {
        let end = digits(bytes);
        return Ok((number_token(&bytes[..end])?, end));
    }
    if is_name_byte(bytes[0]) {
        let end = letters(bytes);
        return Ok((word_token(&bytes[..end])?, end));
    }
    sign_token(bytes)
}

/// Whether each byte is a small letter.
fn is_lowercase(part: &[u8]) -> bool
    ensures { result ≡ list_all is_ascii_lowercase part.now }
{
    part.iter().all(|byte| byte.is_ascii_lowercase())
}

/// Whether a part of a word of an answer is small letters.
fn is_answer_part(part: &[u8]) -> bool
    ensures { result ≡ is_answer_part part.now }
{
    !part.is_empty() && is_lowercase(part)
}

/// Whether a word of an answer is small letters, or such joined by single dashes.
fn is_answer_word(word: &[u8]) -> bool
    ensures { result ≡ is_answer_word word.now }
{
    word.split(|byte| *byte == b'-')
        .all(|part| is_answer_part(part))
}

/// Adds a part to an answer, with one space before it unless it is the first. An empty part is no word.
fn add_word(answer: &mut Vec<u8>, part: &[u8]) -> Result<(), ReadFault>
    ensures ok { (parts : List (List ℕ)) → answer_from parts ≡ Ok answer.old.items
        → OnOk result (answer_from (parts ++ part.now ∷ []) ≡ Ok answer.new.items) }
    ensures err { IfErr result (λ fault. (fault ≡ NoMemory) ⊎ ((fault ≡ ReadFault.BadForm)
        × (is_filled part.now ≡ true) × (is_answer_word part.now ≡ false))) }
{
    if part.is_empty() {
        return Ok(());
    }
    if !is_answer_word(part) {
        return Err(ReadFault::BadForm);
    }
    if answer.is_empty() {
        answer.extend_from_slice(part)?;
        return Ok(());
    }
    answer.push(b' ')?;
    answer.extend_from_slice(part)?;
    Ok(())
}

/// The answer after `done`, with one space between its words. `BadForm` where they are not small letters, or such joined by
/// single dashes.
fn answer_of(alloc: Global, bytes: &[u8]) -> Result<Vec<u8>, ReadFault>
    ensures ok { IfOk result (λ answer. answer_of bytes.now ≡ Ok answer.items) }
    ensures err { IfErr result (λ fault. (fault ≡ NoMemory) ⊎ (answer_of bytes.now ≡ Err fault)) }
{
    let mut answer = Vec::new(alloc);
    for part in bytes.split(|byte| *byte == b' ') {
        match add_word(&mut answer, part) {
            Ok(()) => {}
            Err(fault) => return Err(fault),
        }
    }
    Ok(answer)
}

/// Whether these are the letters of a word.
pub fn spells(letters: &[u8], word: &[u8]) -> bool
    ensures { result ≡ bytes_eq letters.now word.now }
{
    letters == word
}

/// The place of the first byte that is this one.
pub fn place_of_byte(bytes: &[u8], wanted: u8) -> Option<usize>
    ensures { result ≡ position (λ b. b == wanted) bytes.now }
{
    bytes.iter().position(|byte| *byte == wanted)
}

/// The bytes before a comment.
pub fn before_comment(line: &[u8]) -> &[u8]
    ensures { result.now ≡ before_comment line.now }
{
    match place_of_byte(line, b'#') {
        Some(at) => &line[..at],
        None => line,
    }
}

/// The bytes after the first ones.
pub fn tail(bytes: &[u8], size: usize) -> &[u8]
    requires { size ≤ length bytes.now }
    ensures { result.now ≡ drop size bytes.now }
{
    &bytes[size..]
}

/// Reads tokens up to the end or the word `done`, and answers the bytes after it.
fn read_tokens<'l>(all: &mut Vec<Token>, bytes: &'l [u8]) -> Result<&'l [u8], ReadFault>
    ensures ok { IfOk result (λ rest. (read : List TokenOf) × (all.new.items ≡ all.old.items ++ read)
        × Scans bytes.now read (Ok rest.now)) }
    ensures err { IfErr result (λ fault. (fault ≡ NoMemory) ⊎ ((read : List TokenOf) × Scans bytes.now read (Err fault))) }
{
    let mut rest = bytes;
    while let Some((first, after)) = rest.split_first() {
        if *first == b' ' {
            rest = after;
            continue;
        }
        let (token, size) = first_token(rest)?;
        all.push(token)?;
        rest = tail(rest, size);
        if is_word(Some(&token), b"done") {
            return Ok(rest);
        }
    }
    Ok(rest)
}

/// Whether each byte is a space or a printed character of ASCII.
fn is_printable(line: &[u8]) -> bool
    ensures { result ≡ list_all is_printable line.now }
{
    line.iter().all(|byte| *byte >= b' ' && *byte <= b'~')
}

/// The tokens of a line, without its LF. A comment is none.
pub fn tokens_of(alloc: Global, line: &[u8]) -> Result<Tokens, ReadFault>
    ensures ok { IfOk result (λ read. LineSays line.now (Ok (read.all.items, read.answer.items))) }
    ensures ascii { IfOk result (λ read. IsAscii read.answer.items) }
    ensures err { IfErr result (λ fault. (fault ≡ NoMemory) ⊎ LineSays line.now (Err fault)) }
{
    if !is_printable(line) {
        return Err(ReadFault::BadCharacter);
    }
    let mut all = Vec::new(alloc);
    let rest = read_tokens(&mut all, before_comment(line))?;
    let answer = answer_of(alloc, rest)?;
    Ok(Tokens { all, answer })
}

/// Whether a token is this word.
pub fn is_word(token: Option<&Token>, word: &[u8]) -> bool
    ensures is { IsTrue result ↔ (option_copied token.entry ≡ Some (OfWord word.now)) }
    ensures test { result ≡ is_the_word (option_copied token.entry) word.now }
{
    match token {
        Some(Token::Word(other)) => other.is(word),
        _ => false,
    }
}

/// Whether a token is this sign.
pub fn is_sign(token: Option<&Token>, sign: Sign) -> bool
    ensures is { IsTrue result ↔ (option_copied token.entry ≡ Some (OfSign sign)) }
    ensures test { result ≡ is_the_sign (option_copied token.entry) sign }
{
    match token {
        Some(Token::Sign(other)) => *other == sign,
        _ => false,
    }
}
