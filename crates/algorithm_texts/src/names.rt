//! The names of a text.

ghost use Rattle.std.specs.Prelude.{◌≡◌, ◌≤◌, ◌<◌, ◌+◌, ◌⊎◌, ◌++◌, ◌∷◌, [], ◌||◌, IsAscii, OnOk, position, bytes_eq, if◌then◌else◌, Some, None, length, map, string_bytes, MatchResult};
ghost use Rattle.std.specs.List.{list_any};
ghost use Rattle.std.specs.Option.{option_copied};
ghost use Rattle.algorithm_texts.specs.Grammar.{is_among, is_row_name, private_name_part, named_part, constant_named};
ghost use Rattle.algorithm_texts.specs.Operands.{MakesName, MakesWord, names_of, rows_of, declared_of, named_constants, scope_of, reserved};
ghost use Rattle.algorithms.specs.declared.fault.ReadFault.TheVariants.{OutOfMemory as NoMemory, TooBig as ManyNames};
ghost use Rattle.algorithm_texts.specs.LineDrafts.{is_constant, has_declaration, is_name, new_name, name_set};
ghost use Rattle.algorithm_texts.specs.LineFaults.{new_name_fault, name_set_fault, name_read_fault, undeclared_name_fault};
ghost use Rattle.algorithm_texts.specs.NewNames.{undeclared_name};

use crate::constants::{constant_named, is_constant_name};
use crate::rows::is_row_name;
use crate::tokens::{LineWord, Token, spells};
use algorithms::algorithm::Algorithm;
use algorithms::expression::{Expression, NAMES};
use algorithms::fault::ReadFault;
use std::alloc::Global;

/// The words of the format. The promises' words are not among them.
const RESERVED: [&[u8]; 44] = [
    b"me",
    b"procs",
    b"limit",
    b"begin",
    b"ready",
    b"enter",
    b"reenter",
    b"leave",
    b"quit",
    b"all",
    b"others",
    b"lower",
    b"higher",
    b"algorithm",
    b"for",
    b"to",
    b"processes",
    b"promises",
    b"shared",
    b"up",
    b"private",
    b"call",
    b"if",
    b"then",
    b"else",
    b"end",
    b"in",
    b"await",
    b"until",
    b"goto",
    b"done",
    b"this",
    b"is",
    b"may",
    b"withdraw",
    b"and",
    b"or",
    b"not",
    b"max",
    b"min",
    b"mod",
    b"lock",
    b"unlock",
    b"recover",
];

/// Whether the word is one of these words.
fn is_one_of(words: &[&[u8]], word: &[u8]) -> bool
    ensures { result ≡ list_any (λ other. bytes_eq other.now word.now) words.now }
{
    for other in words {
        if spells(*other, word) {
            return true;
        }
    }
    false
}

/// Whether it is a word of the format.
#[tactic(auto, unfolding(crate::specs::Operands::reserved))]
pub fn is_reserved(word: &[u8]) -> bool
    ensures { result ≡ is_among reserved word.now }
{
    is_one_of(&RESERVED, word)
}

/// Whether a word is one of the format's numbers.
fn is_constant(word: &[u8]) -> bool
    ensures { result ≡ is_constant word.now }
{
    spells(word, b"me") || spells(word, b"procs") || spells(word, b"limit")
}

/// The declaration of a shared word.
pub fn declaration_of(algorithm: &Algorithm, word: &[u8]) -> Option<usize>
    ensures { result ≡ position (λ name. bytes_eq name word.now) (declared_of algorithm.now) }
{
    algorithm
        .declarations
        .iter()
        .position(|declared| declared.name.as_bytes() == word)
}

/// The place of a text among others.
pub fn text_place(texts: &[String], word: &[u8]) -> Option<usize>
    ensures { result ≡ position (λ other. bytes_eq other word.now) (map (λ other. string_bytes other) texts.now) }
{
    texts.iter().position(|other| other.as_bytes() == word)
}

/// The index of a private name.
pub fn index_of(algorithm: &Algorithm, word: &[u8]) -> Option<usize>
    ensures { result ≡ position (λ name. bytes_eq name word.now) (names_of algorithm.now) }
{
    text_place(algorithm.names.as_slice(), word)
}

/// A word as a new name: no word of the format.
pub fn new_name(token: Option<&Token>) -> Result<LineWord, ReadFault>
    ensures { MatchResult result (λ word. new_name (option_copied token.entry) ≡ Some word)
        (λ fault. (new_name (option_copied token.entry) ≡ None) × (fault ≡ new_name_fault (option_copied token.entry))) }
{
    match token {
        Some(Token::Word(word)) => {
            if is_constant(word.as_bytes()) {
                Err(ReadFault::NotAssignable)
            } else if is_reserved(word.as_bytes()) {
                Err(ReadFault::NameTaken)
            } else {
                Ok(*word)
            }
        }
        Some(Token::Sign(_) | Token::Number(_)) | None => Err(ReadFault::BadForm),
    }
}

/// Whether it is a word that may be a name: no word of the format.
pub fn is_name(token: Option<&Token>) -> bool
    ensures { result ≡ is_name (option_copied token.entry) }
{
    match token {
        Some(Token::Word(word)) => !is_reserved(word.as_bytes()),
        Some(Token::Sign(_) | Token::Number(_)) | None => false,
    }
}

/// Whether a shared word of this name is declared.
pub fn is_declared(algorithm: &Algorithm, word: &[u8]) -> bool
    ensures { result ≡ is_among (declared_of algorithm.now) word.now }
{
    declaration_of(algorithm, word).is_some()
}

/// Whether a constant, a row of private names or a shared word has this name.
fn has_declaration(algorithm: &Algorithm, word: &[u8]) -> bool
    ensures { result ≡ has_declaration (scope_of algorithm.now) word.now }
{
    is_declared(algorithm, word)
        || (is_constant_name(algorithm, word) || is_row_name(algorithm, word))
}

/// Whether there is a private name like this.
fn is_private(algorithm: &Algorithm, word: &[u8]) -> bool
    ensures { result ≡ is_among (names_of algorithm.now) word.now }
{
    index_of(algorithm, word).is_some()
}

/// Adds a private name, and answers its index. `TooBig` where there are as many as can be.
fn add_name(alloc: Global, algorithm: &mut Algorithm, word: &[u8]) -> Result<usize, ReadFault>
    requires { IsAscii word.now }
    ensures place { MakesName (names_of algorithm.new) result (private_name_part 64 (names_of algorithm.old) word.now None) ManyNames }
    ensures kept { algorithm.new ≡ record algorithm.old { names = algorithm.new.names } }
{
    let index = algorithm.names.len();
    if index >= NAMES {
        return Err(ReadFault::TooBig);
    }
    algorithm.names.push(String::from_utf8_lossy(alloc, word)?)?;
    Ok(index)
}

/// Adds a name after the others. `TooBig` where there are as many as can be.
pub fn push_name(alloc: Global, algorithm: &mut Algorithm, word: &[u8]) -> Result<(), ReadFault>
    requires { IsAscii word.now }
    ensures name { MatchResult result
        (λ _. (length (names_of algorithm.old) < 64) × (names_of algorithm.new ≡ names_of algorithm.old ++ word.now ∷ []))
        (λ fault. (fault ≡ NoMemory) ⊎ ((64 ≤ length (names_of algorithm.old)) × (fault ≡ ManyNames))) }
    ensures kept { algorithm.new ≡ record algorithm.old { names = algorithm.new.names } }
{
    add_name(alloc, algorithm, word)?;
    Ok(())
}

/// The index of a private name, which is added where it is new.
fn place_of(alloc: Global, algorithm: &mut Algorithm, word: &[u8]) -> Result<usize, ReadFault>
    requires { IsAscii word.now }
    ensures place { MakesName (names_of algorithm.new) result
        (private_name_part 64 (names_of algorithm.old) word.now (position (λ name. bytes_eq name word.now) (names_of algorithm.old)))
        ManyNames }
    ensures kept { algorithm.new ≡ record algorithm.old { names = algorithm.new.names } }
{
    match index_of(algorithm, word) {
        Some(index) => Ok(index),
        None => add_name(alloc, algorithm, word),
    }
}

/// The private name that a line sets.
pub fn name_set(
    alloc: Global,
    algorithm: &mut Algorithm,
    token: Option<&Token>,
) -> Result<usize, ReadFault>
    ensures name { MakesName (names_of algorithm.new) result
        (name_set (scope_of algorithm.old) (names_of algorithm.old) (option_copied token.entry))
        (name_set_fault (scope_of algorithm.old) (option_copied token.entry)) }
    ensures kept { algorithm.new ≡ record algorithm.old { names = algorithm.new.names } }
{
    let word = new_name(token)?;
    if has_declaration(algorithm, word.as_bytes()) {
        return Err(ReadFault::NotAssignable);
    }
    place_of(alloc, algorithm, word.as_bytes())
}

/// The value of the constant of this name, else a private name.
fn constant_or_private(
    alloc: Global,
    algorithm: &mut Algorithm,
    word: &[u8],
) -> Result<Expression, ReadFault>
    requires { IsAscii word.now }
    ensures value { MakesWord (names_of algorithm.new) result
        (named_part (scope_of algorithm.old) (names_of algorithm.old) word.now
        (constant_named (named_constants algorithm.old) word.now)) ManyNames }
    ensures kept { algorithm.new ≡ record algorithm.old { names = algorithm.new.names } }
{
    match constant_named(alloc, algorithm, word)? {
        Some(value) => Ok(value),
        None => Ok(Expression::Private(place_of(alloc, algorithm, word)?)),
    }
}

/// The value that a name has in a value: that of a constant, else a private name.
pub fn named_value(
    alloc: Global,
    algorithm: &mut Algorithm,
    word: &[u8],
) -> Result<Expression, ReadFault>
    requires { IsAscii word.now }
    ensures value { MakesWord (names_of algorithm.new) result
        (if is_among reserved word.now
        || (is_among (declared_of algorithm.old) word.now || is_row_name (rows_of algorithm.old) word.now) then None
        else named_part (scope_of algorithm.old) (names_of algorithm.old) word.now
        (constant_named (named_constants algorithm.old) word.now))
        (name_read_fault (scope_of algorithm.old) word.now) }
    ensures kept { algorithm.new ≡ record algorithm.old { names = algorithm.new.names } }
{
    if is_reserved(word) {
        return Err(ReadFault::BadForm);
    }
    if is_declared(algorithm, word) {
        return Err(ReadFault::TwoAccesses);
    }
    if is_row_name(algorithm, word) {
        return Err(ReadFault::BadForm);
    }
    constant_or_private(alloc, algorithm, word)
}

/// Declares a private name that stays from call to call.
pub fn declare_private(
    alloc: Global,
    algorithm: &mut Algorithm,
    word: &[u8],
) -> Result<(), ReadFault>
    requires { IsAscii word.now }
    ensures name { MatchResult result
        (λ _. (length (names_of algorithm.old) < 64) × (names_of algorithm.new ≡ names_of algorithm.old ++ word.now ∷ []))
        (λ fault. (fault ≡ NoMemory) ⊎ ((64 ≤ length (names_of algorithm.old)) × (fault ≡ ManyNames))) }
    ensures kept { OnOk result (algorithm.new
        ≡ record algorithm.old { names = algorithm.new.names; lasting = length (names_of algorithm.old) + 1 }) }
{
    let index = add_name(alloc, algorithm, word)?;
    algorithm.lasting = index + 1;
    Ok(())
}

/// A name that is not declared yet.
pub fn undeclared_name(algorithm: &Algorithm, token: Option<&Token>) -> Result<LineWord, ReadFault>
    ensures { MatchResult result
        (λ word. undeclared_name (scope_of algorithm.now) (names_of algorithm.now) (option_copied token.entry) ≡ Some word)
        (λ fault. (undeclared_name (scope_of algorithm.now) (names_of algorithm.now) (option_copied token.entry) ≡ None)
        × (fault ≡ undeclared_name_fault (option_copied token.entry))) }
{
    let word = new_name(token)?;
    if has_declaration(algorithm, word.as_bytes()) || is_private(algorithm, word.as_bytes()) {
        return Err(ReadFault::NameTaken);
    }
    Ok(word)
}
