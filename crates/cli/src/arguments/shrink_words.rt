//! Reads the words of `shrink`.

ghost use Rattle.std.specs.Prelude.{IsNone, IsSome, codes};
ghost use Rattle.clap.specs.Words.{first_of};
ghost use Rattle.cli.specs.Given.{given_in};
ghost use Rattle.cli.specs.ReadWords.{ReadsCommand};

use crate::arguments::args::{AlgorithmShrinkArgs, Command, ShrinkArgs};
use crate::arguments::words::{
    NO_LOCK, WordsFault, error_text, given_text, is_given, str_of, text_of, variant_of,
};
use clap::ArgMatches;
use std::alloc::Global;

/// A schedule that goes wrong on the algorithm with this text.
fn algorithm_words(alloc: Global, matches: &ArgMatches<'_>) -> Result<Command, WordsFault>
    requires { IsSome (first_of (codes "algorithm") (given_in matches.now)) }
    ensures { ReadsCommand (codes "shrink") (given_in matches.now) result }
{
    if is_given(matches, "variant") {
        return Err(WordsFault::BadVariant);
    }
    Ok(Command::ShrinkAlgorithm(AlgorithmShrinkArgs {
        algorithm: given_text(alloc, matches, "algorithm")?,
        file: text_of(alloc, matches, "FILE")?,
    }))
}

/// A schedule that goes wrong on a variant of the lock.
fn variant_words(alloc: Global, matches: &ArgMatches<'_>) -> Result<Command, WordsFault>
    requires { IsNone (first_of (codes "algorithm") (given_in matches.now)) }
    ensures { ReadsCommand (codes "shrink") (given_in matches.now) result }
{
    if !is_given(matches, "variant") {
        return Err(WordsFault::Refused {
            text: error_text(alloc, NO_LOCK)?,
        });
    }
    Ok(Command::Shrink(ShrinkArgs {
        variant: variant_of(matches, "")?,
        file: text_of(alloc, matches, "FILE")?,
    }))
}

/// A schedule that goes wrong on a variant of the lock, or on an algorithm.
pub(crate) fn shrink_words(alloc: Global, matches: &ArgMatches<'_>) -> Result<Command, WordsFault>
    ensures { ReadsCommand (codes "shrink") (given_in matches.now) result }
{
    match str_of(matches, "algorithm") {
        Some(_) => algorithm_words(alloc, matches),
        None => variant_words(alloc, matches),
    }
}
