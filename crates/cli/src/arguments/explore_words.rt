//! Reads the words of `explore`.

ghost use Rattle.std.specs.Prelude.{◌≡◌, ◌↔◌, ◌≢◌, true, map, IfOk, IfErr, IfSome, IsNone, IsSome, OnOk, OnErr, IsErrOf, codes};
ghost use Rattle.std.specs.List.{list_all};
ghost use Rattle.clap.specs.Words.{first_of};
ghost use Rattle.cli.specs.Given.{given_in, is_set, has_call, is_call, alphabet_of, is_algorithm_call, algorithm_calls_of, algorithm_calls_in as algorithm_calls_asked, are_algorithm_calls, calls_of, calls_without, names_in, word_of_cycles, AsksForCycles};
ghost use Rattle.cli.specs.ReadWords.{IsAlgorithmExplore, IsAlgorithmSearch, IsBadStarving, IsExplore, IsFaultOfAlgorithmCalls, IsFaultOfCalls, IsFaultOfSearch, IsStuckWithin, ReadsCommand};
ghost use Rattle.cli.specs.declared.arguments.args.Cycles.{Cycles as AnyCycles};

use crate::arguments::args::{
    AlgorithmCalls, AlgorithmExploreArgs, Alphabet, Command, Cycles, ExploreArgs,
};
use crate::arguments::words::{
    NO_LOCK, WordsFault, error_text, given_text, is_given, is_set, number_of, number_or, str_of,
    variant_of,
};
use clap::ArgMatches;
use std::alloc::{AllocError, Global};

/// Whether a search can start this call.
fn is_call(name: &str) -> bool
    ensures { result ≡ is_call name.now }
{
    matches!(
        name,
        "lock" | "unlock" | "recover" | "consistent" | "withdraw" | "append" | "close"
    )
}

/// Whether this call is one of those that are named.
fn has_call(calls: &[&str], name: &str) -> bool
    ensures { result ≡ has_call name.now (map (λ call. call.now) calls.now) }
{
    calls.contains(&name)
}

/// Whether each name is a call that a search of a variant can start.
fn are_calls(calls: &[&str]) -> bool
    ensures { result ≡ list_all (λ call. is_call call.now) calls.now }
{
    for call in calls {
        if !is_call(call) {
            return false;
        }
    }
    true
}

/// The calls of this list, which has commas between them.
fn calls_in(alloc: Global, list: &str) -> Result<Vec<&str>, AllocError>
    ensures { IfOk result (λ calls. map (λ call. call.now) calls.items ≡ names_in list.now) }
{
    list.split(',').collect(alloc)
}

/// The calls with these names.
fn alphabet_in(calls: &[&str]) -> Alphabet
    ensures { result ≡ alphabet_of (map (λ call. call.now) calls.now) }
{
    Alphabet {
        lock: has_call(calls, "lock"),
        unlock: has_call(calls, "unlock"),
        recover: has_call(calls, "recover"),
        consistent: has_call(calls, "consistent"),
        withdraw: has_call(calls, "withdraw"),
        append: has_call(calls, "append"),
        close: has_call(calls, "close"),
    }
}

/// The calls that a search of a variant starts, where none are given.
fn calls_without(stuck: bool) -> &'static str
    ensures { result.now ≡ calls_without stuck }
{
    if stuck {
        "lock,unlock,consistent"
    } else {
        "lock,unlock"
    }
}

/// The calls that a search of a variant starts: those that are given, or else the usual ones. `BadSize`: a name is no such
/// call.
#[tactic(auto, using(crate::proofs::Reading::all_calls))]
fn alphabet_of(alloc: Global, matches: &ArgMatches<'_>) -> Result<Alphabet, WordsFault>
    ensures ok { IfOk result (λ calls. calls ≡ alphabet_of (calls_of (given_in matches.now))) }
    ensures known { OnOk result (list_all is_call (calls_of (given_in matches.now)) ≡ true) }
    ensures bad { IfErr result (IsFaultOfCalls (given_in matches.now)) }
{
    let without = calls_without(is_set(matches, "stuck"));
    let calls = calls_in(alloc, str_of(matches, "calls").unwrap_or(without))?;
    if !are_calls(&calls) {
        return Err(WordsFault::BadSize);
    }
    Ok(alphabet_in(&calls))
}

/// Whether a search looks for stuck states. It does so without a bound on moves.
fn stuck_of(matches: &ArgMatches<'_>) -> Result<bool, WordsFault>
    ensures ok { IfOk result (λ stuck. stuck ≡ is_set (codes "stuck") (given_in matches.now)) }
    ensures unbounded { IfOk result (λ stuck. stuck ≡ true → IsNone (first_of (codes "moves") (given_in matches.now))) }
    ensures bad { OnErr result (IsErrOf result WordsFault.BadSize × IsStuckWithin (given_in matches.now)) }
{
    let stuck = is_set(matches, "stuck");
    if stuck && str_of(matches, "moves").is_some() {
        return Err(WordsFault::BadSize);
    }
    Ok(stuck)
}

/// The cycles of this name.
fn cycles_named(name: &str) -> Option<Cycles>
    ensures some { IfSome result (λ cycles. word_of_cycles cycles ≡ name.now) }
    ensures none { IsNone result → (cycles : AnyCycles) → word_of_cycles cycles ≢ name.now }
{
    match name {
        "nobody" => Some(Cycles::Nobody),
        "any" => Some(Cycles::Any),
        _ => None,
    }
}

/// The cycles in which a search looks for a process that starves. It does so without a bound on moves.
fn starving_of(matches: &ArgMatches<'_>) -> Result<Option<Cycles>, WordsFault>
    ensures ok { IfOk result (AsksForCycles (given_in matches.now)) }
    ensures unbounded { IfOk result (λ cycles. IsSome cycles → IsNone (first_of (codes "moves") (given_in matches.now))) }
    ensures bad { OnErr result (IsErrOf result WordsFault.BadSize × IsBadStarving (given_in matches.now)) }
{
    let Some(name) = str_of(matches, "starving") else {
        return Ok(None);
    };
    if str_of(matches, "moves").is_some() {
        return Err(WordsFault::BadSize);
    }
    match cycles_named(name) {
        Some(cycles) => Ok(Some(cycles)),
        None => Err(WordsFault::BadSize),
    }
}

/// Whether a search of an algorithm can start this call.
fn is_algorithm_call(name: &str) -> bool
    ensures { result ≡ is_algorithm_call name.now }
{
    matches!(name, "lock" | "unlock" | "recover" | "withdraw")
}

/// Whether each name is a call that a search of an algorithm can start.
fn are_algorithm_calls(calls: &[&str]) -> bool
    ensures { result ≡ list_all (λ call. is_algorithm_call call.now) calls.now }
{
    for call in calls {
        if !is_algorithm_call(call) {
            return false;
        }
    }
    true
}

/// The calls of an algorithm with these names.
fn algorithm_calls_in(calls: &[&str]) -> AlgorithmCalls
    ensures { result ≡ algorithm_calls_of (map (λ call. call.now) calls.now) }
{
    AlgorithmCalls {
        lock: has_call(calls, "lock"),
        unlock: has_call(calls, "unlock"),
        recover: has_call(calls, "recover"),
        withdraw: has_call(calls, "withdraw"),
    }
}

/// The calls of an algorithm that a search starts, where they are given.
#[tactic(auto, using(crate::proofs::Reading::all_algorithm_calls))]
fn algorithm_calls_of(
    alloc: Global,
    matches: &ArgMatches<'_>,
) -> Result<Option<AlgorithmCalls>, WordsFault>
    ensures ok { IfOk result (λ calls. calls ≡ algorithm_calls_asked (given_in matches.now)) }
    ensures known { OnOk result (are_algorithm_calls (given_in matches.now) ≡ true) }
    ensures bad { IfErr result (IsFaultOfAlgorithmCalls (given_in matches.now)) }
{
    let Some(list) = str_of(matches, "calls") else {
        return Ok(None);
    };
    let calls = calls_in(alloc, list)?;
    if !are_algorithm_calls(&calls) {
        return Err(WordsFault::BadSize);
    }
    Ok(Some(algorithm_calls_in(&calls)))
}

/// What is wrong with an option that a search of an algorithm does not have.
const NO_MAILBOX: &str =
    "with '--algorithm <FILE>' there is no '--all-variables', no '--cap' and no '--width'";

/// Whether an algorithm is given, and no option that its search does not have.
fn is_algorithm_search(matches: &ArgMatches<'_>) -> bool
    ensures { result ≡ true ↔ IsAlgorithmSearch (given_in matches.now) }
{
    is_given(matches, "algorithm")
        && !is_set(matches, "all-variables")
        && !is_given(matches, "cap")
        && !is_given(matches, "width")
}

/// A search of the algorithm with this text.
pub(crate) fn algorithm_search(
    alloc: Global,
    matches: &ArgMatches<'_>,
) -> Result<AlgorithmExploreArgs, WordsFault>
    requires { IsSome (first_of (codes "algorithm") (given_in matches.now)) }
    ensures ok { IfOk result (IsAlgorithmExplore (given_in matches.now)) }
    ensures bad { IfErr result (IsFaultOfSearch (given_in matches.now)) }
{
    if is_given(matches, "variant") {
        return Err(WordsFault::BadVariant);
    }
    if !is_algorithm_search(matches) {
        return Err(WordsFault::Refused {
            text: error_text(alloc, NO_MAILBOX)?,
        });
    }
    let calls = algorithm_calls_of(alloc, matches)?;
    let stuck = stuck_of(matches)?;
    let starving = starving_of(matches)?;
    let jobs = number_of(matches, "jobs");
    Ok(AlgorithmExploreArgs {
        algorithm: given_text(alloc, matches, "algorithm")?,
        procs: number_of(matches, "procs"),
        calls,
        crashes: number_of(matches, "crashes"),
        system_crashes: number_of(matches, "system-crashes"),
        moves: number_or(matches, "moves", u64::MAX),
        states: number_or(matches, "states", 10_000_000),
        limit: number_or(matches, "limit", 4),
        stuck,
        starving,
        jobs,
    })
}

/// A search of a variant of the lock.
pub(crate) fn variant_search(
    alloc: Global,
    matches: &ArgMatches<'_>,
) -> Result<ExploreArgs, WordsFault>
    requires { IsNone (first_of (codes "algorithm") (given_in matches.now)) }
    ensures ok { IfOk result (IsExplore (given_in matches.now)) }
    ensures bad { IfErr result (IsFaultOfSearch (given_in matches.now)) }
{
    if !is_given(matches, "variant") {
        return Err(WordsFault::Refused {
            text: error_text(alloc, NO_LOCK)?,
        });
    }
    let variant = variant_of(matches, "")?;
    Ok(ExploreArgs {
        variant,
        procs: number_of(matches, "procs"),
        calls: alphabet_of(alloc, matches)?,
        crashes: number_of(matches, "crashes"),
        system_crashes: number_or(matches, "system-crashes", 0),
        moves: number_or(matches, "moves", u64::MAX),
        states: number_or(matches, "states", 10_000_000),
        limit: number_or(matches, "limit", 4),
        cap: number_or(matches, "cap", 1),
        width: number_or(matches, "width", 1),
        stuck: stuck_of(matches)?,
        starving: starving_of(matches)?,
        all_variables: is_set(matches, "all-variables"),
        jobs: number_of(matches, "jobs"),
    })
}

/// A search of a variant of the lock, or of an algorithm.
#[tactic(auto, using(crate::proofs::Answered::explore_refused))]
pub(crate) fn explore_words(alloc: Global, matches: &ArgMatches<'_>) -> Result<Command, WordsFault>
    ensures { ReadsCommand (codes "explore") (given_in matches.now) result }
{
    match str_of(matches, "algorithm") {
        Some(_) => Ok(Command::ExploreAlgorithm(algorithm_search(alloc, matches)?)),
        None => Ok(Command::Explore(variant_search(alloc, matches)?)),
    }
}
