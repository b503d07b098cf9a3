//! The homes of shared words, as texts say them.

ghost use Rattle.std.specs.Prelude.{◌≡◌, take, drop, position, Some, MatchResult};
ghost use Rattle.std.specs.Option.{option_map};
ghost use Rattle.algorithm_texts.specs.Parts.{term_of};
ghost use Rattle.algorithm_texts.specs.Operands.{RefusesAs};
ghost use Rattle.algorithm_texts.specs.Drafts.{draft_view};
ghost use Rattle.algorithm_texts.specs.LineDrafts.{scope_in, with_names};
ghost use Rattle.algorithm_texts.specs.LineFaults.{home_fault};
ghost use Rattle.algorithm_texts.specs.TextDrafts.{begins_home, size_before_home, read_home};

use crate::lines::Draft;
use crate::tokens::{Token, is_word};
use algorithms::expression::Expression;
use algorithms::fault::ReadFault;
use std::alloc::Global;

/// Whether the home of a word begins with this token.
fn begins_home(token: &Token) -> bool
    ensures { result ≡ begins_home token.now }
{
    is_word(Some(token), b"at")
}

/// The place of the token with which the home of a word begins.
fn home_place(tokens: &[Token]) -> Option<usize>
    ensures { result ≡ position begins_home tokens.now }
{
    tokens.iter().position(|token| begins_home(token))
}

/// The tokens before a home, and those of it.
pub fn split_home(tokens: &[Token]) -> (&[Token], &[Token])
    ensures before { result.0.now ≡ take (size_before_home tokens.now) tokens.now }
    ensures home { result.1.now ≡ drop (size_before_home tokens.now) tokens.now }
{
    match home_place(tokens) {
        Some(place) => tokens.split_at(place),
        None => tokens.split_at(tokens.len()),
    }
}

impl Draft {
    /// A home, where there is one, up to the end of the tokens.
    pub fn home(
        &mut self,
        alloc: Global,
        each: bool,
        tokens: &[Token],
    ) -> Result<Option<Expression>, ReadFault>
        ensures home { MatchResult result
            (λ h. read_home (scope_in (draft_view self.old)) each (draft_view self.old).names tokens.now
            ≡ Some (option_map (λ v. term_of v) h, (draft_view self.new).names))
            (λ fault. RefusesAs fault
            (read_home (scope_in (draft_view self.old)) each (draft_view self.old).names tokens.now)
            (home_fault (scope_in (draft_view self.old)) each (draft_view self.old).names tokens.now)) }
        ensures kept { draft_view self.new ≡ with_names (draft_view self.new).names (draft_view self.old) }
    {
        if tokens.is_empty() {
            Ok(None)
        } else {
            Ok(Some(self.owner_value(alloc, each, b"at", tokens)?))
        }
    }
}
