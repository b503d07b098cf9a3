//! A line of a text that is not empty.

ghost use Rattle.std.specs.Prelude.{IsAscii};

use crate::tokens::Tokens;

/// A line that is not empty, with its number.
#[derive(Drop)]
pub struct Filled {
    pub number: u64,
    pub tokens: Tokens,
    ghost ascii: { IsAscii tokens.answer.items },
}
