//! Reads the words of `states`.

ghost use Rattle.std.specs.Prelude.{◌≡◌, ◌≢◌, IfErr, IfOk, IfSome, IsNone, IsSome, codes};
ghost use Rattle.clap.specs.Words.{first_of};
ghost use Rattle.cli.specs.Given.{given_in, AsksForTool, AsksForNoTool, word_of_tool};
ghost use Rattle.cli.specs.ReadWords.{IsFaultOfStream, IsStream, ReadsCommand};
ghost use Rattle.cli.specs.declared.arguments.args.StatesTool.{StatesTool as AnyTool};

use crate::arguments::args::{AlgorithmStatesArgs, Command, StatesArgs, StatesTool, StreamArgs};
use crate::arguments::explore_words::{algorithm_search, variant_search};
use crate::arguments::words::{WordsFault, number_of, number_or, str_of, text_of};
use clap::ArgMatches;
use std::alloc::Global;

/// The tool of this name.
fn tool_named(name: &str) -> Option<StatesTool>
    ensures some { IfSome result (λ tool. word_of_tool tool ≡ name.now) }
    ensures none { IsNone result → (tool : AnyTool) → word_of_tool tool ≢ name.now }
{
    match name {
        "first" => Some(StatesTool::First),
        "expand" => Some(StatesTool::Expand),
        "lead" => Some(StatesTool::Lead),
        "home" => Some(StatesTool::Home),
        "check" => Some(StatesTool::Check),
        "walk" => Some(StatesTool::Walk),
        _ => None,
    }
}

/// The tool that is asked for. None: there is no such tool.
fn tool_of(matches: &ArgMatches<'_>) -> Option<StatesTool>
    ensures some { IfSome result (AsksForTool (given_in matches.now)) }
    ensures none { IsNone result → AsksForNoTool (given_in matches.now) }
{
    match str_of(matches, "TOOL") {
        Some(name) => tool_named(name),
        None => None,
    }
}

/// What is to be done with lines of states, and their form. `BadSize`: there is no such tool.
fn stream_of(alloc: Global, matches: &ArgMatches<'_>) -> Result<StreamArgs, WordsFault>
    ensures ok { IfOk result (IsStream (given_in matches.now)) }
    ensures bad { IfErr result (IsFaultOfStream (given_in matches.now)) }
{
    let Some(tool) = tool_of(matches) else {
        return Err(WordsFault::BadSize);
    };
    Ok(StreamArgs {
        tool,
        words: number_of(matches, "words"),
        digits: number_or(matches, "digits", 2),
        part: number_of(matches, "part"),
        parts: number_or(matches, "parts", 1),
        file: text_of(alloc, matches, "FILE")?,
    })
}

/// The states of an algorithm's search.
#[tactic(auto, using(crate::proofs::Answered::states_refused, crate::proofs::Answered::algorithm_stream_refused))]
fn algorithm_words(alloc: Global, matches: &ArgMatches<'_>) -> Result<Command, WordsFault>
    requires { IsSome (first_of (codes "algorithm") (given_in matches.now)) }
    ensures { ReadsCommand (codes "states") (given_in matches.now) result }
{
    let search = algorithm_search(alloc, matches)?;
    let stream = stream_of(alloc, matches)?;
    Ok(Command::StatesAlgorithm(AlgorithmStatesArgs { search, stream }))
}

/// The states of a search of a variant of the lock.
#[tactic(auto, using(crate::proofs::Answered::states_refused, crate::proofs::Answered::stream_refused))]
fn variant_words(alloc: Global, matches: &ArgMatches<'_>) -> Result<Command, WordsFault>
    requires { IsNone (first_of (codes "algorithm") (given_in matches.now)) }
    ensures { ReadsCommand (codes "states") (given_in matches.now) result }
{
    let search = variant_search(alloc, matches)?;
    let stream = stream_of(alloc, matches)?;
    Ok(Command::States(StatesArgs { search, stream }))
}

/// The states of a search of a variant of the lock, or of an algorithm's.
pub(crate) fn states_words(alloc: Global, matches: &ArgMatches<'_>) -> Result<Command, WordsFault>
    ensures { ReadsCommand (codes "states") (given_in matches.now) result }
{
    match str_of(matches, "algorithm") {
        Some(_) => algorithm_words(alloc, matches),
        None => variant_words(alloc, matches),
    }
}
