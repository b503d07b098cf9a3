//! Reads the words of `draw`.

ghost use Rattle.std.specs.Prelude.{IsNone, IsSome, codes};
ghost use Rattle.clap.specs.Words.{first_of};
ghost use Rattle.cli.specs.Given.{given_in};
ghost use Rattle.cli.specs.ReadWords.{ReadsCommand};

use crate::arguments::args::{AlgorithmDrawArgs, Command, DrawArgs};
use crate::arguments::words::{
    WordsFault, given_text, is_alone, is_set, str_of, text_of, variant_beside_image,
};
use clap::ArgMatches;
use std::alloc::Global;

/// A drawing of a run of the algorithm with this text.
fn algorithm_words(alloc: Global, matches: &ArgMatches<'_>) -> Result<Command, WordsFault>
    requires { IsSome (first_of (codes "algorithm") (given_in matches.now)) }
    ensures { ReadsCommand (codes "draw") (given_in matches.now) result }
{
    if !is_alone(matches) {
        return Err(WordsFault::BadVariant);
    }
    let html = is_set(matches, "html");
    Ok(Command::DrawAlgorithm(AlgorithmDrawArgs {
        algorithm: given_text(alloc, matches, "algorithm")?,
        html,
        svg: is_set(matches, "svg"),
        file: text_of(alloc, matches, "FILE")?,
    }))
}

/// A drawing of a run of a variant of the lock.
fn variant_words(alloc: Global, matches: &ArgMatches<'_>) -> Result<Command, WordsFault>
    requires { IsNone (first_of (codes "algorithm") (given_in matches.now)) }
    ensures { ReadsCommand (codes "draw") (given_in matches.now) result }
{
    Ok(Command::Draw(DrawArgs {
        html: is_set(matches, "html"),
        svg: is_set(matches, "svg"),
        variant: variant_beside_image(matches)?,
        image: text_of(alloc, matches, "image")?,
        file: text_of(alloc, matches, "FILE")?,
    }))
}

/// A drawing of a run of a variant of the lock, or of an algorithm.
pub(crate) fn draw_words(alloc: Global, matches: &ArgMatches<'_>) -> Result<Command, WordsFault>
    ensures { ReadsCommand (codes "draw") (given_in matches.now) result }
{
    match str_of(matches, "algorithm") {
        Some(_) => algorithm_words(alloc, matches),
        None => variant_words(alloc, matches),
    }
}
