//! Reads the words of `export`.

ghost use Rattle.std.specs.Prelude.{IsSome, codes};
ghost use Rattle.clap.specs.Words.{first_of};
ghost use Rattle.cli.specs.Given.{given_in};
ghost use Rattle.cli.specs.ReadWords.{ReadsCommand};

use crate::arguments::args::{Command, ExportArgs};
use crate::arguments::words::{WordsFault, error_text, given_text, number_of, number_or, str_of};
use clap::ArgMatches;
use std::alloc::Global;

/// The model of the algorithm with this text.
fn promela_words(alloc: Global, matches: &ArgMatches<'_>) -> Result<Command, WordsFault>
    requires { IsSome (first_of (codes "promela") (given_in matches.now)) }
    ensures { ReadsCommand (codes "export") (given_in matches.now) result }
{
    Ok(Command::Export(ExportArgs {
        algorithm: given_text(alloc, matches, "promela")?,
        procs: number_of(matches, "procs"),
        limit: number_or(matches, "limit", 4),
        crashes: number_or(matches, "crashes", 0),
    }))
}

/// The model that is asked for, and of which algorithm.
pub(crate) fn export_words(alloc: Global, matches: &ArgMatches<'_>) -> Result<Command, WordsFault>
    ensures { ReadsCommand (codes "export") (given_in matches.now) result }
{
    match str_of(matches, "promela") {
        Some(_) => promela_words(alloc, matches),
        None => Err(WordsFault::Refused {
            text: error_text(alloc, "there is no '--promela <FILE>'")?,
        }),
    }
}
