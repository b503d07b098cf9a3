//! Reads the words of the command line.

ghost use Rattle.std.specs.Prelude.{◌≡◌, ◌≢◌, ◌↔◌, true, Some, option_map, is_some, IfOk, IfErr, IfSome, IsNone, IsSome, IsSomeAnd, IsOk, OnErr, IsErrOf, string_bytes, codes};
ghost use Rattle.clap.specs.Words.{first_of, kind_of, subcommand_rows_of};
ghost use Rattle.crashlab.specs.declared.variants.variant.Variant.{Variant as AnyVariant};
ghost use Rattle.cli.specs.declared.explain.dictionary_entry.DictionaryEntry.{DictionaryEntry as AnyDictionaryEntry};
ghost use Rattle.cli.specs.Given.{given_in, is_set, number_or, word_of_variant, AsksFor, AsksForNone, entry_named};
ghost use Rattle.cli.specs.Names.{name_of};
ghost use Rattle.cli.specs.ReadWords.{GoesWithImage, IsAlone, IsBadBesideImage, IsUnnamed, IsAnsweredBy};
ghost use Rattle.cli.specs.ReadWords.{HasBadVariant, HasBadSize, IsCommand, ReadsCommand, IsName, TakesWords, IsWordsRefusal, RefusesWords, texts_of};
ghost use Rattle.cli.specs.Sizes.{IsInRanges, RunFits};

use crate::arguments::args::{Command, JudgeArgs, RunArgs};
use crate::arguments::cost_words::cost_words;
use crate::arguments::draw_words::draw_words;
use crate::arguments::explore_words::explore_words;
use crate::arguments::export_words::export_words;
use crate::arguments::hunt_words::hunt_words;
use crate::arguments::parser::parser;
use crate::arguments::replay_words::replay_words;
use crate::arguments::shrink_words::shrink_words;
use crate::arguments::states_words::states_words;
use crate::arguments::step_words::step_words;
use crate::explain::dictionary_entry::{DictionaryEntry, dictionary_entry_named};
use clap::error::ErrorKind;
use clap::{ArgMatches, Error};
use crashlab::Variant;
use std::alloc::{AllocError, Global};
use std::rt::Env;
use std::{fmt, io};

/// Why the words are no command. The first cause that is found is answered.
#[derive(Drop)]
pub enum WordsFault {
    /// The help or the version that was asked for. It is printed; the exit status is 0.
    Help { text: String },
    /// The error text of `clap`, that the words name no entry, that an option is beside `--algorithm` which the command does not
    /// have there, that `explore`, `cost`, `states`, `hunt` or `shrink` has neither a variant nor an algorithm, that `export` has no
    /// algorithm, or that an option of `cost` does not go with `--mean`, or only with it. It is printed to standard error; the exit
    /// status is 2.
    Refused { text: String },
    /// There is no such variant, it isn't `right` and an image is given, or an algorithm is given beside a variant, an image or a
    /// file for the last image; the exit status is 2.
    BadVariant,
    /// A number of `run`, `hunt` or `cost` is outside its range, `--procs` or `--limit` of `hunt` is beside a variant, a call of
    /// `explore`, `cost` or `states` is none, or none of an algorithm, `--stuck` is beside `--moves`, `states` has no such tool,
    /// or `cost` no such model; the exit status is 2.
    BadSize,
    /// A word isn't UTF-8 text.
    Unreadable,
    OutOfMemory,
}

impl WordsFault {
    /// What it says to a reader.
    fn text(&self) -> &str {
        match self {
            WordsFault::Help { text } | WordsFault::Refused { text } => text.as_str(),
            WordsFault::BadVariant => "bad variant",
            WordsFault::BadSize => "bad size",
            WordsFault::Unreadable => "a word is no text",
            WordsFault::OutOfMemory => "out of memory",
        }
    }
}

impl fmt::Display for WordsFault {
    fn fmt<W: fmt::Write>(&self, f: &mut fmt::Formatter<W>) -> fmt::Result {
        f.write_str(self.text())
    }
}

impl fmt::Debug for WordsFault {
    fn fmt<W: fmt::Write>(&self, f: &mut fmt::Formatter<W>) -> fmt::Result {
        f.write_str(self.text())
    }
}

impl std::error::Error for WordsFault {}

impl From<AllocError> for WordsFault {
    ghost use Rattle.cli.specs.declared.arguments.words.WordsFault.TheVariants.{OutOfMemory};

    ghost from_gives = { λ _ e. e ≡ OutOfMemory };

    fn from(_e: AllocError) -> WordsFault {
        WordsFault::OutOfMemory
    }
}

/// The words that the process was started with. The first one is the program's name. `Unreadable`: one of them isn't UTF-8
/// text. `OutOfMemory`: there was no room for them.
pub fn words_given<R: Env + Alloc<A = Global>>(rt: &R) -> Result<Vec<String>, WordsFault> {
    match std::env::args(rt) {
        Ok(words) => Ok(words.collect(rt.alloc())?),
        Err(error) => match error.kind() {
            io::ErrorKind::OutOfMemory => Err(WordsFault::OutOfMemory),
            _ => Err(WordsFault::Unreadable),
        },
    }
}

/// The variant with this name.
fn variant_named(name: &str) -> Option<Variant>
    ensures some { IfSome result (λ variant. word_of_variant variant ≡ name.now) }
    ensures none { IsNone result → (variant : AnyVariant) → word_of_variant variant ≢ name.now }
{
    match name {
        "right" => Some(Variant::Right),
        "no-look" => Some(Variant::NoLook),
        "no-ties" => Some(Variant::NoTies),
        "renumber" => Some(Variant::Renumber),
        "exit-on-crash" => Some(Variant::ExitOnCrash),
        "count-up" => Some(Variant::CountUp),
        "last-skipped" => Some(Variant::LastSkipped),
        _ => None,
    }
}

/// The text with this name.
pub(crate) fn str_of<'a>(matches: &ArgMatches<'a>, name: &str) -> Option<&'a str>
    ensures { option_map (λ text. text.now) result ≡ first_of name.now (given_in matches.now) }
{
    matches.get_str(name)
}

/// A copy of the text of this argument. None: it is not given.
pub(crate) fn text_of(
    alloc: Global,
    matches: &ArgMatches<'_>,
    name: &str,
) -> Result<Option<String>, AllocError>
    ensures { IfOk result (λ text. option_map string_bytes text ≡ first_of name.now (given_in matches.now)) }
{
    match str_of(matches, name) {
        Some(text) => Ok(Some(String::from_str(alloc, text)?)),
        None => Ok(None),
    }
}

/// A copy of the text of an argument that is given.
pub(crate) fn given_text(
    alloc: Global,
    matches: &ArgMatches<'_>,
    name: &str,
) -> Result<String, AllocError>
    requires { IsSome (first_of name.now (given_in matches.now)) }
    ensures { IfOk result (λ text. Some (string_bytes text) ≡ first_of name.now (given_in matches.now)) }
{
    match str_of(matches, name) {
        Some(text) => {
            let copy = String::from_str(alloc, text)?;
            Ok(copy)
        }
        None => unreachable!(),
    }
}

/// Whether this flag is given.
pub(crate) fn is_set(matches: &ArgMatches<'_>, name: &str) -> bool
    ensures { result ≡ is_set name.now (given_in matches.now) }
{
    matches.get_one::<bool>(name).unwrap_or(false)
}

/// Whether the option with this name is given.
pub(crate) fn is_given(matches: &ArgMatches<'_>, name: &str) -> bool
    ensures { result ≡ is_some (first_of name.now (given_in matches.now)) }
{
    str_of(matches, name).is_some()
}

/// The number with this name, or `without` if it is left out.
pub(crate) fn number_or(matches: &ArgMatches<'_>, name: &str, without: u64) -> u64
    ensures { result ≡ number_or without name.now (given_in matches.now) }
{
    matches.get_one::<u64>(name).unwrap_or(without)
}

/// The number of a required argument.
pub(crate) fn number_of(matches: &ArgMatches<'_>, name: &str) -> u64
    ensures { result ≡ number_or 0 name.now (given_in matches.now) }
{
    number_or(matches, name, 0)
}

/// The variant that is asked for, or the one with the name `without`.
pub(crate) fn variant_of(matches: &ArgMatches<'_>, without: &str) -> Result<Variant, WordsFault>
    ensures found { IfOk result (AsksFor without.now (given_in matches.now)) }
    ensures bad { OnErr result (IsErrOf result WordsFault.BadVariant × AsksForNone without.now (given_in matches.now)) }
{
    let name = str_of(matches, "variant").unwrap_or(without);
    variant_named(name).ok_or(WordsFault::BadVariant)
}

/// The variant that is asked for; without one, `right`. Only `right` goes with an image.
pub(crate) fn variant_beside_image(matches: &ArgMatches<'_>) -> Result<Variant, WordsFault>
    ensures found { IfOk result (GoesWithImage (given_in matches.now)) }
    ensures bad { OnErr result (IsErrOf result WordsFault.BadVariant × IsBadBesideImage (given_in matches.now)) }
{
    let variant = variant_of(matches, "right")?;
    if variant != Variant::Right && str_of(matches, "image").is_some() {
        return Err(WordsFault::BadVariant);
    }
    Ok(variant)
}

/// Whether no variant, no image and no file for the last image are given.
pub(crate) fn is_alone(matches: &ArgMatches<'_>) -> bool
    ensures { result ≡ true ↔ IsAlone (given_in matches.now) }
{
    !is_given(matches, "variant") && !is_given(matches, "image") && !is_given(matches, "save")
}

/// What is wrong where there is nothing to run.
pub(crate) const NO_LOCK: &str = "there is neither '--variant <V>' nor '--algorithm <FILE>'";

/// The error text for words that `clap` takes and the command does not, with what is wrong.
pub(crate) fn error_text(alloc: Global, wrong: &str) -> Result<String, AllocError> {
    format!(in alloc; "error: {wrong}\n\nFor more information, try '--help'.\n")
}

/// The arguments of a run, if its numbers are in their ranges.
fn run_of(args: RunArgs) -> Result<RunArgs, WordsFault>
    ensures fits { IsOk result ↔ RunFits args }
    ensures same { IfOk result (λ sized. sized ≡ args) }
    ensures size { OnErr result (IsErrOf result WordsFault.BadSize) }
{
    let fits = (1..=16).contains(&args.procs)
        && (1..=4096).contains(&args.messages)
        && args.crash <= 50
        && (1..=8).contains(&args.width);
    if fits {
        Ok(args)
    } else {
        Err(WordsFault::BadSize)
    }
}

/// The arguments of `run`. `BadSize`: a number is out of its range.
fn run_words(matches: &ArgMatches<'_>) -> Result<Command, WordsFault>
    ensures sized { IfOk result IsInRanges }
    ensures reads { ReadsCommand (codes "run") (given_in matches.now) result }
{
    let args = run_of(RunArgs {
        procs: number_of(matches, "procs"),
        messages: number_of(matches, "messages"),
        crash: number_of(matches, "crash"),
        seed: number_of(matches, "seed"),
        width: number_or(matches, "width", 1),
    })?;
    Ok(Command::Run(args))
}

/// The arguments of `judge`.
fn judge_words(alloc: Global, matches: &ArgMatches<'_>) -> Result<Command, WordsFault>
    ensures { ReadsCommand (codes "judge") (given_in matches.now) result }
{
    Ok(Command::Judge(JudgeArgs {
        json: is_set(matches, "json"),
        file: text_of(alloc, matches, "FILE")?,
    }))
}

/// The error text for words that name no entry.
fn no_entry_text(alloc: Global, name: &str) -> Result<String, AllocError> {
    format!(in alloc;
        "error: '{name}' names nothing that is explained\n\nFor more information, try 'rmelab explain'.\n"
    )
}

/// The entry with this name.
fn dictionary_entry_of(alloc: Global, name: &str) -> Result<DictionaryEntry, WordsFault>
    ensures named { IfOk result (λ dictionary_entry. name_of dictionary_entry ≡ name.now) }
    ensures found { (dictionary_entry : AnyDictionaryEntry) → name_of dictionary_entry ≡ name.now → IsOk result }
    ensures refused { IfErr result IsUnnamed }
{
    match dictionary_entry_named(name) {
        Some(dictionary_entry) => Ok(dictionary_entry),
        None => Err(WordsFault::Refused {
            text: no_entry_text(alloc, name)?,
        }),
    }
}

/// The words to be explained, joined by spaces.
fn entry_name(alloc: Global, matches: &ArgMatches<'_>) -> Result<Option<String>, AllocError>
    ensures { IfOk result (λ name. option_map string_bytes name ≡ entry_named (given_in matches.now)) }
{
    match matches.get_strs("WORDS") {
        Some(words) => Ok(Some(words.join(alloc, " ")?)),
        None => Ok(None),
    }
}

/// The entry that the words name; none without words.
fn explain_words(alloc: Global, matches: &ArgMatches<'_>) -> Result<Command, WordsFault>
    ensures { ReadsCommand (codes "explain") (given_in matches.now) result }
{
    match entry_name(alloc, matches)? {
        Some(name) => Ok(Command::Explain(Some(dictionary_entry_of(alloc, &name)?))),
        None => Ok(Command::Explain(None)),
    }
}

/// The command with this name and what is given to it.
fn command_of(alloc: Global, name: &str, matches: &ArgMatches<'_>) -> Result<Command, WordsFault>
    requires { IsName name.now }
    ensures sized { IfOk result IsInRanges }
    ensures reads { ReadsCommand name.now (given_in matches.now) result }
{
    match name {
        "replay" => replay_words(alloc, matches),
        "run" => run_words(matches),
        "hunt" => hunt_words(alloc, matches),
        "explore" => explore_words(alloc, matches),
        "cost" => cost_words(alloc, matches),
        "export" => export_words(alloc, matches),
        "states" => states_words(alloc, matches),
        "draw" => draw_words(alloc, matches),
        "shrink" => shrink_words(alloc, matches),
        "explain" => explain_words(alloc, matches),
        "judge" => judge_words(alloc, matches),
        "step" => step_words(alloc, matches),
        _ => unreachable!(),
    }
}

/// The command that `clap` found in the words.
fn command_in(alloc: Global, matches: &ArgMatches<'_>) -> Result<Command, WordsFault>
    requires { IsSomeAnd (subcommand_rows_of matches.now) (λ command. IsName command.0) }
    ensures sized { IfOk result IsInRanges }
    ensures reads { IsSomeAnd (subcommand_rows_of matches.now) (λ command. ReadsCommand command.0 command.1 result) }
{
    match matches.subcommand() {
        Some((name, given)) => command_of(alloc, name, given),
        None => unreachable!(),
    }
}

/// What an error of `clap` comes to: a help text that was asked for, or why the words are no command.
fn fault_of_error(alloc: Global, error: &Error) -> Result<WordsFault, AllocError>
    ensures { IfOk result (IsAnsweredBy (kind_of error.now)) }
{
    match error.kind() {
        ErrorKind::OutOfMemory => Ok(WordsFault::OutOfMemory),
        ErrorKind::DisplayHelp | ErrorKind::DisplayVersion => Ok(WordsFault::Help {
            text: format!(in alloc; "{error}")?,
        }),
        _ => Ok(WordsFault::Refused {
            text: format!(in alloc; "{error}")?,
        }),
    }
}

/// Reads the words of a command line. The first word is the program's name. A refusal by `clap` is found first, then a bad
/// variant, then a bad size. Words of `explain` that name no entry are refused in the same way as by `clap`; so are options beside
/// `--algorithm`, or options of `cost` with or without `--mean`, that the command does not have there, before a bad size, and
/// `explore`, `states`, `hunt`, `shrink`, `cost` or `export` with nothing to run.
pub fn read_words(alloc: Global, words: &[String]) -> Result<Command, WordsFault>
    ensures sized { IfOk result IsInRanges }
    ensures command { IfOk result (λ command. TakesWords (texts_of words.now) (λ name given. IsCommand name given command)) }
    ensures refused { IfErr result (IsWordsRefusal (texts_of words.now)) }

    // Of words with a bad variant or a bad size nothing else is answered, but that there is no memory.
    ensures variant { TakesWords (texts_of words.now) HasBadVariant → RefusesWords result WordsFault.BadVariant }
    ensures size { TakesWords (texts_of words.now) HasBadSize → RefusesWords result WordsFault.BadSize }
{
    match parser(alloc)?.try_get_matches_from(words) {
        Ok(matches) => command_in(alloc, &matches),
        Err(error) => Err(fault_of_error(alloc, &error)?),
    }
}
