//! The arguments of a command line, as rows of a table.

ghost use Rattle.std.specs.Prelude.{◌≡◌, false};
ghost use Rattle.clap.specs.Words.{rule_of};
ghost use Rattle.cli.specs.CommandLine.{flag, number, option, rule_of_argument, word};

use clap::{Arg, ArgAction, value_parser};
use std::alloc::Global;

/// An argument of a command: its name, the name of its value in the help if it has a value, and its help.
#[derive(Clone, Copy)]
pub enum Argument<'a> {
    /// `--name`.
    Flag(&'a str, &'a str),
    /// `--name VALUE`, the value a text.
    Text(&'a str, &'a str, &'a str),
    /// The same, but it can't be left out.
    RequiredText(&'a str, &'a str, &'a str),
    /// `--name VALUE`, the value a number.
    Number(&'a str, &'a str, &'a str),
    /// The same, but it can't be left out.
    RequiredNumber(&'a str, &'a str, &'a str),
    /// `--name` or `--name VALUE`: without a value it has the last one here.
    Optional(&'a str, &'a str, &'a str, &'a str),
    /// A word alone.
    Word(&'a str, &'a str),
    /// The same, but it can't be left out.
    RequiredWord(&'a str, &'a str),
    /// All words that are left.
    Words(&'a str, &'a str),
}

/// `--variant V`.
pub const VARIANT: Argument<'static> = Argument::Text(
    "variant",
    "V",
    "right, no-look, no-ties, renumber, exit-on-crash, count-up or last-skipped",
);

pub const ALGORITHM_HELP: &str = "Run this algorithm, a text, in place of a variant";

/// `--algorithm FILE`.
pub const ALGORITHM: Argument<'static> = Argument::Text("algorithm", "FILE", ALGORITHM_HELP);

/// The tool of `states`.
pub const TOOL: Argument<'static> = Argument::RequiredWord(
    "TOOL",
    "first, expand, lead, home, check or walk",
);

/// `--starving` or `--starving WHO`: who may give up.
pub const STARVING: Argument<'static> = Argument::Optional(
    "starving",
    "WHO",
    "Look for a process that starves; WHO may give up: nobody, as without it, or any; not with --moves",
    "nobody",
);

/// `--image FILE`.
pub const IMAGE: Argument<'static> = Argument::Text(
    "image",
    "FILE",
    "Begin with the words of this image, every process crashed",
);

const EXPLORE_CALLS: &str =
    "lock, unlock, recover, withdraw, and of a variant consistent, append and close, with commas; without it lock,unlock, with --stuck consistent too, and of an algorithm the calls of its text";

const CALLS: &str = "The calls that are started, as for `explore`";

/// The arguments of `replay`.
pub const REPLAY: [Argument<'static>; 7] = [
    Argument::Flag(
        "json",
        "Print one JSON object of the report's lines; with --each an object for each step",
    ),
    Argument::Flag(
        "each",
        "Print each step, with its word and the state of its process",
    ),
    VARIANT,
    ALGORITHM,
    IMAGE,
    Argument::Text("save", "FILE", "Write the last image to this file"),
    Argument::Word("FILE", "The schedule; without it, standard input is read"),
];

/// The arguments of `run`.
pub const RUN: [Argument<'static>; 5] = [
    Argument::RequiredNumber("procs", "N", "1 to 16 senders"),
    Argument::RequiredNumber("messages", "M", "1 to 4096 messages of each"),
    Argument::RequiredNumber("crash", "C", "0 to 50 crashes in 1000 askings"),
    Argument::RequiredNumber("seed", "S", "The seed of the crashes"),
    Argument::Number("width", "W", "1 to 8 words a message; 1 without it"),
];

/// The arguments of `hunt`.
pub const HUNT: [Argument<'static>; 11] = [
    VARIANT,
    ALGORITHM,
    Argument::Number(
        "procs",
        "N",
        "1 to 64 processes; 2 without it; with --algorithm alone",
    ),
    Argument::Number(
        "limit",
        "L",
        "Numbers up to L; 1000000 without it; with --algorithm alone",
    ),
    Argument::RequiredNumber("seed", "S", "The seed of the moves"),
    Argument::Number(
        "first-round",
        "A",
        "Begin with round A, by one thread; 0 without it",
    ),
    Argument::RequiredNumber("rounds", "R", "1 to 10000 rounds"),
    Argument::RequiredNumber("steps", "K", "1 to 10000 moves a round"),
    Argument::Number(
        "system-crashes",
        "G",
        "0 to 1000 crashes of all processes at once in 1000 moves; 0 without it",
    ),
    Argument::Flag("shrink", "Minimize the schedule found, as `shrink` does"),
    Argument::Number(
        "jobs",
        "N",
        "N threads at once; without it, or 0, as many as there are processors",
    ),
];

/// The arguments of `explore`.
pub const EXPLORE: [Argument<'static>; 15] = [
    VARIANT,
    ALGORITHM,
    Argument::RequiredNumber("procs", "N", "1 to 64 processes"),
    Argument::Text("calls", "LIST", EXPLORE_CALLS),
    Argument::Number("crashes", "C", "At most C crashes; 0 without it"),
    Argument::Number(
        "system-crashes",
        "G",
        "At most G crashes of all processes at once; 0 without it",
    ),
    Argument::Number("moves", "K", "At most K moves; no bound without it"),
    Argument::Number("states", "S", "At most S states; 10000000 without it"),
    Argument::Number("limit", "L", "Numbers up to L; 4 without it"),
    Argument::Number(
        "cap",
        "M",
        "Room for M messages; 1 without it; not with --algorithm",
    ),
    Argument::Number(
        "width",
        "W",
        "1 to 8 words a message; 1 without it; not with --algorithm",
    ),
    Argument::Flag("stuck", "Look for stuck states too; not with --moves"),
    STARVING,
    Argument::Flag(
        "all-variables",
        "Distinguish states by dead variables too; not with --algorithm",
    ),
    Argument::Number(
        "jobs",
        "N",
        "N threads at once; without it, or 0, as many as there are processors",
    ),
];

/// The arguments of `cost`.
pub const COST: [Argument<'static>; 14] = [
    VARIANT,
    ALGORITHM,
    Argument::RequiredText("model", "M", "dsm, write-through or write-back"),
    Argument::Flag(
        "super-passages",
        "Count in super-passages, which a crash does not end",
    ),
    Argument::RequiredNumber("procs", "N", "1 to 64 processes"),
    Argument::Text("calls", "LIST", CALLS),
    Argument::Number("crashes", "C", "At most C crashes; 0 without it"),
    Argument::Number(
        "system-crashes",
        "G",
        "At most G crashes of all processes at once; 0 without it",
    ),
    Argument::Number("states", "S", "At most S states; 10000000 without it"),
    Argument::Number("limit", "L", "Numbers up to L; 4 without it"),
    Argument::Flag(
        "mean",
        "Count on random schedules: --seed, --rounds and --steps go with it alone, and --limit is 1000000 without it; not with --variant, --super-passages, --calls, --crashes, --system-crashes or --states",
    ),
    Argument::Number("seed", "S", "The seed of the moves; 0 without it"),
    Argument::Number("rounds", "R", "1 to 10000 rounds; 100 without it"),
    Argument::Number("steps", "K", "1 to 10000 moves a round; 1000 without it"),
];

/// The arguments of `export`.
pub const EXPORT: [Argument<'static>; 4] = [
    Argument::RequiredText("promela", "FILE", "The algorithm whose model is written"),
    Argument::RequiredNumber("procs", "N", "1 to 64 processes"),
    Argument::Number("crashes", "C", "At most C crashes; 0 without it"),
    Argument::Number("limit", "L", "Numbers up to L; 4 without it"),
];

/// The arguments of `states`.
pub const STATES: [Argument<'static>; 15] = [
    TOOL,
    VARIANT,
    ALGORITHM,
    Argument::RequiredNumber("procs", "N", "1 to 64 processes"),
    Argument::Text("calls", "LIST", CALLS),
    Argument::Number("crashes", "C", "At most C crashes; 0 without it"),
    Argument::Number(
        "system-crashes",
        "G",
        "At most G crashes of all processes at once; 0 without it",
    ),
    Argument::Number("limit", "L", "Numbers up to L; 4 without it"),
    Argument::Number(
        "cap",
        "M",
        "Room for M messages; 1 without it; not with --algorithm",
    ),
    Argument::Number(
        "width",
        "W",
        "1 to 8 words a message; 1 without it; not with --algorithm",
    ),
    Argument::Number(
        "words",
        "K",
        "Room for K words a state; without it, or 0, 24 more than the first has, and 8 a process",
    ),
    Argument::Number("digits", "D", "1 to 10 characters a word; 2 without it"),
    Argument::Number(
        "part",
        "I",
        "Check moves into part I of all states; 0 without it",
    ),
    Argument::Number("parts", "P", "of P parts; 1 without it"),
    Argument::Word("FILE", "The states; without it, standard input is read"),
];

/// The arguments of `judge`.
pub const JUDGE: [Argument<'static>; 2] = [
    Argument::Flag("json", "Print the verdict as a JSON object"),
    Argument::Word("FILE", "The trace; without it, standard input is read"),
];

/// The arguments of `draw`.
pub const DRAW: [Argument<'static>; 6] = [
    VARIANT,
    ALGORITHM,
    IMAGE,
    Argument::Flag("svg", "Write a picture, as SVG"),
    Argument::Flag("html", "Write a page that shows the run step by step"),
    Argument::Word("FILE", "The schedule; without it, standard input is read"),
];

/// The arguments of `shrink`.
pub const SHRINK: [Argument<'static>; 3] = [
    VARIANT,
    ALGORITHM,
    Argument::Word("FILE", "The schedule; without it, standard input is read"),
];

/// The arguments of `step`.
pub const STEP: [Argument<'static>; 2] = [
    ALGORITHM,
    Argument::Word(
        "FILE",
        "The schedule to begin with; without it, the first line is a header",
    ),
];

/// The arguments of `explain`.
pub const EXPLAIN: [Argument<'static>; 1] = [Argument::Words(
    "WORDS",
    "The name, as `fault 5`, `refused 12`, `rule 7`, `against 4`, `answer clean` or `step look`",
)];

/// The `clap` argument of a flag.
fn flag<'a>(alloc: Global, name: &'a str, help: &'a str) -> Arg<'a>
    ensures rule { rule_of result ≡ flag name.entry.now }
    ensures local { result.global ≡ false }
{
    let arg = Arg::new(alloc, name).help(help);
    arg.action(ArgAction::SetTrue).long(name)
}

/// The `clap` argument of an option with a value.
fn option<'a>(alloc: Global, name: &'a str, value: &'a str, help: &'a str) -> Arg<'a>
    ensures rule { rule_of result ≡ option name.entry.now }
    ensures local { result.global ≡ false }
{
    let arg = Arg::new(alloc, name).help(help).action(ArgAction::Set);
    arg.long(name).value_name(value)
}

/// The `clap` argument of an option with a number.
fn number<'a>(alloc: Global, name: &'a str, value: &'a str, help: &'a str) -> Arg<'a>
    ensures rule { rule_of result ≡ number name.entry.now }
    ensures local { result.global ≡ false }
{
    option(alloc, name, value, help).value_parser(value_parser!(u64))
}

/// The `clap` argument of a word.
fn word<'a>(alloc: Global, name: &'a str, help: &'a str) -> Arg<'a>
    ensures rule { rule_of result ≡ word name.entry.now }
    ensures local { result.global ≡ false }
{
    Arg::new(alloc, name).help(help).action(ArgAction::Set)
}

impl<'a> Argument<'a> {
    /// The `clap` argument.
    pub fn arg(self, alloc: Global) -> Arg<'a>
        ensures rule { rule_of result ≡ rule_of_argument self.entry }
        ensures local { result.global ≡ false }
    {
        match self {
            Argument::Flag(name, help) => flag(alloc, name, help),
            Argument::Text(name, value, help) => option(alloc, name, value, help),
            Argument::RequiredText(name, value, help) => {
                option(alloc, name, value, help).required(true)
            }
            Argument::Number(name, value, help) => number(alloc, name, value, help),
            Argument::RequiredNumber(name, value, help) => {
                number(alloc, name, value, help).required(true)
            }
            Argument::Optional(name, value, help, without) => option(alloc, name, value, help)
                .num_args(0..=1)
                .default_missing_value(without),
            Argument::Word(name, help) => word(alloc, name, help),
            Argument::RequiredWord(name, help) => word(alloc, name, help).required(true),
            Argument::Words(name, help) => Arg::new(alloc, name)
                .help(help)
                .action(ArgAction::Append),
        }
    }
}
