//! Reads the words of `replay`.

ghost use Rattle.std.specs.Prelude.{IsNone, IsSome, codes};
ghost use Rattle.clap.specs.Words.{first_of};
ghost use Rattle.cli.specs.Given.{given_in};
ghost use Rattle.cli.specs.ReadWords.{ReadsCommand};

use crate::arguments::args::{AlgorithmReplayArgs, Command, ReplayArgs};
use crate::arguments::words::{
    WordsFault, given_text, is_alone, is_set, str_of, text_of, variant_beside_image,
};
use clap::ArgMatches;
use std::alloc::Global;

/// A replay on the algorithm with this text.
fn algorithm_words(alloc: Global, matches: &ArgMatches<'_>) -> Result<Command, WordsFault>
    requires { IsSome (first_of (codes "algorithm") (given_in matches.now)) }
    ensures { ReadsCommand (codes "replay") (given_in matches.now) result }
{
    if !is_alone(matches) {
        return Err(WordsFault::BadVariant);
    }
    let json = is_set(matches, "json");
    let each = is_set(matches, "each");
    Ok(Command::ReplayAlgorithm(AlgorithmReplayArgs {
        algorithm: given_text(alloc, matches, "algorithm")?,
        json,
        each,
        file: text_of(alloc, matches, "FILE")?,
    }))
}

/// A replay on a variant of the lock.
fn variant_words(alloc: Global, matches: &ArgMatches<'_>) -> Result<Command, WordsFault>
    requires { IsNone (first_of (codes "algorithm") (given_in matches.now)) }
    ensures { ReadsCommand (codes "replay") (given_in matches.now) result }
{
    Ok(Command::Replay(ReplayArgs {
        json: is_set(matches, "json"),
        each: is_set(matches, "each"),
        variant: variant_beside_image(matches)?,
        image: text_of(alloc, matches, "image")?,
        save: text_of(alloc, matches, "save")?,
        file: text_of(alloc, matches, "FILE")?,
    }))
}

/// A replay on a variant of the lock, or on an algorithm.
pub(crate) fn replay_words(alloc: Global, matches: &ArgMatches<'_>) -> Result<Command, WordsFault>
    ensures { ReadsCommand (codes "replay") (given_in matches.now) result }
{
    match str_of(matches, "algorithm") {
        Some(_) => algorithm_words(alloc, matches),
        None => variant_words(alloc, matches),
    }
}
