//! Reads the words of `hunt`.

ghost use Rattle.std.specs.Prelude.{◌≡◌, IfOk, IsNone, IsSome, OnErr, IsErrOf, codes};
ghost use Rattle.clap.specs.Words.{first_of};
ghost use Rattle.cli.specs.Given.{given_in};
ghost use Rattle.cli.specs.ReadWords.{ReadsCommand, moves_of, rounds_of};
ghost use Rattle.cli.specs.Sizes.{AreHuntNumbers, IsInRanges, IsHuntSize};

use crate::arguments::args::{AlgorithmHuntArgs, Command, HuntArgs};
use crate::arguments::words::{
    NO_LOCK, WordsFault, error_text, given_text, is_given, is_set, number_of, number_or, str_of,
    variant_of,
};
use clap::ArgMatches;
use crashlab::RandomMoves;
use std::alloc::Global;

/// The rounds of random schedules and the moves of each, if they are in their ranges.
pub(crate) fn sizes_of(rounds: u64, steps: u64) -> Result<(u64, u64), WordsFault>
    ensures given { IfOk result (λ sizes. (sizes.0 ≡ rounds) × (sizes.1 ≡ steps)) }
    ensures fits { IfOk result (λ sizes. IsHuntSize sizes.0 sizes.1) }
    ensures bad { OnErr result (IsErrOf result WordsFault.BadSize × (IsHuntSize rounds steps → ⊥)) }
{
    if (1..=10_000).contains(&rounds) && (1..=10_000).contains(&steps) {
        Ok((rounds, steps))
    } else {
        Err(WordsFault::BadSize)
    }
}

/// The rounds of a hunt and its random moves, if their numbers are in their ranges.
fn hunt_numbers(matches: &ArgMatches<'_>) -> Result<(u64, RandomMoves), WordsFault>
    ensures given { IfOk result (λ numbers. (numbers.0 ≡ rounds_of (given_in matches.now))
        × (numbers.1 ≡ moves_of (given_in matches.now))) }
    ensures fits { IfOk result (λ numbers. AreHuntNumbers numbers.0 numbers.1) }
    ensures bad { OnErr result (IsErrOf result WordsFault.BadSize
        × (AreHuntNumbers (rounds_of (given_in matches.now)) (moves_of (given_in matches.now)) → ⊥)) }
{
    let (rounds, steps) = sizes_of(number_of(matches, "rounds"), number_of(matches, "steps"))?;
    let system_crashes = number_of(matches, "system-crashes");
    if system_crashes > 1_000 {
        return Err(WordsFault::BadSize);
    }
    let moves = RandomMoves {
        seed: number_of(matches, "seed"),
        steps,
        system_crashes,
    };
    Ok((rounds, moves))
}

/// A hunt on the algorithm with this text.
fn algorithm_words(alloc: Global, matches: &ArgMatches<'_>) -> Result<Command, WordsFault>
    requires { IsSome (first_of (codes "algorithm") (given_in matches.now)) }
    ensures sized { IfOk result IsInRanges }
    ensures reads { ReadsCommand (codes "hunt") (given_in matches.now) result }
{
    if is_given(matches, "variant") {
        return Err(WordsFault::BadVariant);
    }
    let (rounds, moves) = hunt_numbers(matches)?;
    let first_round = number_of(matches, "first-round");
    Ok(Command::HuntAlgorithm(AlgorithmHuntArgs {
        algorithm: given_text(alloc, matches, "algorithm")?,
        procs: number_or(matches, "procs", 2),
        limit: number_or(matches, "limit", 1_000_000),
        moves,
        first_round,
        rounds,
        shrink: is_set(matches, "shrink"),
        jobs: number_of(matches, "jobs"),
    }))
}

/// A hunt on a variant of the lock.
fn variant_words(alloc: Global, matches: &ArgMatches<'_>) -> Result<Command, WordsFault>
    requires { IsNone (first_of (codes "algorithm") (given_in matches.now)) }
    ensures sized { IfOk result IsInRanges }
    ensures reads { ReadsCommand (codes "hunt") (given_in matches.now) result }
{
    if !is_given(matches, "variant") {
        return Err(WordsFault::Refused {
            text: error_text(alloc, NO_LOCK)?,
        });
    }
    let variant = variant_of(matches, "")?;
    if is_given(matches, "procs") || is_given(matches, "limit") {
        return Err(WordsFault::BadSize);
    }
    let (rounds, moves) = hunt_numbers(matches)?;
    Ok(Command::Hunt(HuntArgs {
        variant,
        moves,
        first_round: number_of(matches, "first-round"),
        rounds,
        shrink: is_set(matches, "shrink"),
        jobs: number_of(matches, "jobs"),
    }))
}

/// A hunt on a variant of the lock, or on an algorithm.
pub(crate) fn hunt_words(alloc: Global, matches: &ArgMatches<'_>) -> Result<Command, WordsFault>
    ensures sized { IfOk result IsInRanges }
    ensures reads { ReadsCommand (codes "hunt") (given_in matches.now) result }
{
    match str_of(matches, "algorithm") {
        Some(_) => algorithm_words(alloc, matches),
        None => variant_words(alloc, matches),
    }
}
