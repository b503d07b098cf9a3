//! Reads the words of `step`.

ghost use Rattle.std.specs.Prelude.{IsSome, codes};
ghost use Rattle.clap.specs.Words.{first_of};
ghost use Rattle.cli.specs.Given.{given_in};
ghost use Rattle.cli.specs.ReadWords.{ReadsCommand};

use crate::arguments::args::{AlgorithmStepArgs, Command};
use crate::arguments::words::{WordsFault, given_text, str_of, text_of};
use clap::ArgMatches;
use std::alloc::Global;

/// A session on the algorithm with this text.
fn algorithm_words(alloc: Global, matches: &ArgMatches<'_>) -> Result<Command, WordsFault>
    requires { IsSome (first_of (codes "algorithm") (given_in matches.now)) }
    ensures { ReadsCommand (codes "step") (given_in matches.now) result }
{
    Ok(Command::StepAlgorithm(AlgorithmStepArgs {
        algorithm: given_text(alloc, matches, "algorithm")?,
        file: text_of(alloc, matches, "FILE")?,
    }))
}

/// A session on the lock, or on an algorithm.
pub(crate) fn step_words(alloc: Global, matches: &ArgMatches<'_>) -> Result<Command, WordsFault>
    ensures { ReadsCommand (codes "step") (given_in matches.now) result }
{
    match str_of(matches, "algorithm") {
        Some(_) => algorithm_words(alloc, matches),
        None => Ok(Command::Step(text_of(alloc, matches, "FILE")?)),
    }
}
