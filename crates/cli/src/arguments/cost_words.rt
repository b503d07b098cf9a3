//! Reads the words of `cost`.

ghost use Rattle.std.specs.Prelude.{◌≡◌, ◌≢◌, ◌↔◌, true, IfOk, IfSome, IsNone, IsSome, codes};
ghost use Rattle.clap.specs.Words.{first_of};
ghost use Rattle.algorithms.specs.declared.remote_references.memory_model.MemoryModel.{MemoryModel as AnyModel};
ghost use Rattle.cli.specs.Given.{given_in, kind_asked, word_of_model, AsksForModel, AsksForNoModel};
ghost use Rattle.cli.specs.ReadWords.{HasNoRounds, HasNoSearch, ReadsCommand};
ghost use Rattle.cli.specs.Sizes.{IsInRanges};

use crate::arguments::args::{Command, CostArgs, MeanCostArgs, VariantCostArgs};
use crate::arguments::explore_words::{algorithm_search, variant_search};
use crate::arguments::hunt_words::sizes_of;
use crate::arguments::words::{
    NO_LOCK, WordsFault, error_text, given_text, is_given, is_set, number_of, number_or, str_of,
    variant_of,
};
use algorithms::{MemoryModel, PassageKind};
use clap::ArgMatches;
use std::alloc::Global;

/// The model of this name.
fn model_named(name: &str) -> Option<MemoryModel>
    ensures some { IfSome result (λ model. word_of_model model ≡ name.now) }
    ensures none { IsNone result → (model : AnyModel) → word_of_model model ≢ name.now }
{
    match name {
        "dsm" => Some(MemoryModel::Distributed),
        "write-through" => Some(MemoryModel::WriteThrough),
        "write-back" => Some(MemoryModel::WriteBack),
        _ => None,
    }
}

/// The model that is asked for. None: there is no such model.
fn model_of(matches: &ArgMatches<'_>) -> Option<MemoryModel>
    ensures some { IfSome result (AsksForModel (given_in matches.now)) }
    ensures none { IsNone result → AsksForNoModel (given_in matches.now) }
{
    match str_of(matches, "model") {
        Some(name) => model_named(name),
        None => None,
    }
}

/// Whether passages or super-passages are asked for.
fn passage_kind_of(matches: &ArgMatches<'_>) -> PassageKind
    ensures { result ≡ kind_asked (given_in matches.now) }
{
    if is_set(matches, "super-passages") {
        PassageKind::SuperPassage
    } else {
        PassageKind::Passage
    }
}

/// What is wrong where an option does not go with `--mean`, or only with it.
const NO_OPTIONS: &str =
    "with '--mean' there is no '--variant', no '--super-passages', no '--calls', no '--crashes', no '--system-crashes' and no '--states', and without it no '--seed', no '--rounds' and no '--steps'";

/// Whether the greatest cost is asked for, and no option of random schedules is given.
fn has_no_rounds(matches: &ArgMatches<'_>) -> bool
    ensures { result ≡ true ↔ HasNoRounds (given_in matches.now) }
{
    !is_set(matches, "mean")
        && !is_given(matches, "seed")
        && !is_given(matches, "rounds")
        && !is_given(matches, "steps")
}

/// Whether the mean cost is asked for, and no option of a search is given.
fn has_no_search(matches: &ArgMatches<'_>) -> bool
    ensures { result ≡ true ↔ HasNoSearch (given_in matches.now) }
{
    is_set(matches, "mean")
        && !is_set(matches, "super-passages")
        && !is_given(matches, "calls")
        && !is_given(matches, "crashes")
        && !is_given(matches, "system-crashes")
        && !is_given(matches, "states")
}

/// The mean cost of the algorithm with this text. `BadSize`: there is no such model, or a number is outside its range.
#[tactic(auto, using(crate::proofs::Answered::mean_refused, crate::proofs::Answered::mean_model_refused))]
fn mean_words(alloc: Global, matches: &ArgMatches<'_>) -> Result<Command, WordsFault>
    requires algorithm { IsSome (first_of (codes "algorithm") (given_in matches.now)) }
    requires alone { IsNone (first_of (codes "variant") (given_in matches.now)) }
    requires options { HasNoSearch (given_in matches.now) }
    ensures sized { IfOk result IsInRanges }
    ensures reads { ReadsCommand (codes "cost") (given_in matches.now) result }
{
    let Some(model) = model_of(matches) else {
        return Err(WordsFault::BadSize);
    };
    let asked = number_or(matches, "rounds", 100);
    let (rounds, steps) = sizes_of(asked, number_or(matches, "steps", 1000))?;
    Ok(Command::MeanCost(MeanCostArgs {
        algorithm: given_text(alloc, matches, "algorithm")?,
        model,
        procs: number_of(matches, "procs"),
        limit: number_or(matches, "limit", 1_000_000),
        seed: number_of(matches, "seed"),
        rounds,
        steps,
    }))
}

/// The greatest cost of the algorithm with this text. `BadSize`: there is no such model.
#[tactic(auto, using(crate::proofs::Answered::cost_refused, crate::proofs::Answered::model_refused))]
fn greatest_words(alloc: Global, matches: &ArgMatches<'_>) -> Result<Command, WordsFault>
    requires algorithm { IsSome (first_of (codes "algorithm") (given_in matches.now)) }
    requires alone { IsNone (first_of (codes "variant") (given_in matches.now)) }
    requires options { HasNoRounds (given_in matches.now) }
    ensures sized { IfOk result IsInRanges }
    ensures reads { ReadsCommand (codes "cost") (given_in matches.now) result }
{
    let search = algorithm_search(alloc, matches)?;
    let Some(model) = model_of(matches) else {
        return Err(WordsFault::BadSize);
    };
    let kind = passage_kind_of(matches);
    Ok(Command::Cost(CostArgs {
        search,
        model,
        kind,
    }))
}

/// The costs of the algorithm with this text.
fn algorithm_words(alloc: Global, matches: &ArgMatches<'_>) -> Result<Command, WordsFault>
    requires algorithm { IsSome (first_of (codes "algorithm") (given_in matches.now)) }
    requires alone { IsNone (first_of (codes "variant") (given_in matches.now)) }
    ensures sized { IfOk result IsInRanges }
    ensures reads { ReadsCommand (codes "cost") (given_in matches.now) result }
{
    if has_no_search(matches) {
        mean_words(alloc, matches)
    } else if has_no_rounds(matches) {
        greatest_words(alloc, matches)
    } else {
        Err(WordsFault::Refused {
            text: error_text(alloc, NO_OPTIONS)?,
        })
    }
}

/// The greatest cost of a variant of the lock. `BadSize`: there is no such model.
#[tactic(auto, using(crate::proofs::Answered::variant_cost_refused, crate::proofs::Answered::variant_model_refused))]
fn variant_search_words(alloc: Global, matches: &ArgMatches<'_>) -> Result<Command, WordsFault>
    requires variant { IsSome (first_of (codes "variant") (given_in matches.now)) }
    requires alone { IsNone (first_of (codes "algorithm") (given_in matches.now)) }
    requires options { HasNoRounds (given_in matches.now) }
    ensures sized { IfOk result IsInRanges }
    ensures reads { ReadsCommand (codes "cost") (given_in matches.now) result }
{
    let search = variant_search(alloc, matches)?;
    let Some(model) = model_of(matches) else {
        return Err(WordsFault::BadSize);
    };
    let kind = passage_kind_of(matches);
    Ok(Command::CostVariant(VariantCostArgs {
        search,
        model,
        kind,
    }))
}

/// The costs of a variant of the lock. `BadVariant`: there is no such variant, or an algorithm is given too.
#[tactic(auto, using(crate::proofs::Answered::beside_refused, crate::proofs::Answered::named_refused, crate::proofs::Answered::variant_options_refused))]
fn variant_words(alloc: Global, matches: &ArgMatches<'_>) -> Result<Command, WordsFault>
    requires variant { IsSome (first_of (codes "variant") (given_in matches.now)) }
    ensures sized { IfOk result IsInRanges }
    ensures reads { ReadsCommand (codes "cost") (given_in matches.now) result }
{
    if is_given(matches, "algorithm") {
        return Err(WordsFault::BadVariant);
    }
    variant_of(matches, "")?;
    if !has_no_rounds(matches) {
        return Err(WordsFault::Refused {
            text: error_text(alloc, NO_OPTIONS)?,
        });
    }
    variant_search_words(alloc, matches)
}

/// The costs that are asked for, and of what.
pub(crate) fn cost_words(alloc: Global, matches: &ArgMatches<'_>) -> Result<Command, WordsFault>
    ensures sized { IfOk result IsInRanges }
    ensures reads { ReadsCommand (codes "cost") (given_in matches.now) result }
{
    if is_given(matches, "variant") {
        variant_words(alloc, matches)
    } else if is_given(matches, "algorithm") {
        algorithm_words(alloc, matches)
    } else {
        Err(WordsFault::Refused {
            text: error_text(alloc, NO_LOCK)?,
        })
    }
}
