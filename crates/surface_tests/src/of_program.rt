//! The items of `rmelab`. No crate can use a program, so they are named here as `cli` and `commands` have them; the program's
//! `main.rt` hands the same five on.

use cli::{
    Command, DictionaryEntry, ENTRIES, Meaning, Rule, WordsFault, dictionary_entry_named,
    meaning_of, read_words, tell_all_names, tell_dictionary_entry,
};
use commands::command::{command, command_shown};
use commands::program::{obey, program, run_program};
use commands::{Ending, Folder, NoScreen, Screen};
use schedule::{Failed, Sink, Source};
use std::alloc::Global;
use std::io::{self, BufWriter, Read, Write};
use std::process::ExitCode;
use std::sync::Wait;
use std::thread::Threads;

pub fn read(
    alloc: Global,
    words: &[String],
    name: &str,
    entry: DictionaryEntry,
) -> (
    Result<Command, WordsFault>,
    Option<DictionaryEntry>,
    usize,
    Meaning,
) {
    (
        read_words(alloc, words),
        dictionary_entry_named(name),
        ENTRIES.len(),
        meaning_of(entry),
    )
}

/// Without a screen, and with progress on one.
pub fn carry_out<T: Threads + Wait + Sync, S: Screen, R: Source, W: Sink, E: Sink>(
    rt: &T,
    alloc: Global,
    read: &Command,
    image: Option<&[u8]>,
    screen: &mut S,
    r: &mut R,
    w: &mut W,
    e: &mut E,
) -> (Ending, Ending) {
    (
        command(rt, alloc, read, image, r, w, e),
        command_shown(rt, alloc, read, image, screen, r, w, e),
    )
}

pub fn in_variants(
    fault: &WordsFault,
    read: &Command,
    entry: DictionaryEntry,
    ending: Ending,
) -> (bool, bool, Option<Rule>, (u8, Option<Vec<u8>>)) {
    let is_of_clap = match fault {
        WordsFault::Help { text: _ } | WordsFault::Refused { text: _ } => true,
        WordsFault::BadVariant
        | WordsFault::BadSize
        | WordsFault::Unreadable
        | WordsFault::OutOfMemory => false,
    };
    let runs_threads = match read {
        Command::Run(_) | Command::Hunt(_) | Command::Explore(_) => true,
        Command::Replay(_)
        | Command::ReplayAlgorithm(_)
        | Command::HuntAlgorithm(_)
        | Command::ExploreAlgorithm(_)
        | Command::Cost(_)
        | Command::CostVariant(_)
        | Command::MeanCost(_)
        | Command::Export(_)
        | Command::States(_)
        | Command::StatesAlgorithm(_)
        | Command::Judge(_)
        | Command::Draw(_)
        | Command::DrawAlgorithm(_)
        | Command::Shrink(_)
        | Command::ShrinkAlgorithm(_)
        | Command::Step(_)
        | Command::StepAlgorithm(_)
        | Command::Explain(_) => false,
    };
    let rule = match entry {
        DictionaryEntry::Rule(rule) => Some(rule),
        DictionaryEntry::Fault(_)
        | DictionaryEntry::Refused(_)
        | DictionaryEntry::AlgorithmRefused(_)
        | DictionaryEntry::Against(_)
        | DictionaryEntry::Answer(_)
        | DictionaryEntry::Step(_)
        | DictionaryEntry::AlgorithmFault(_) => None,
    };
    (is_of_clap, runs_threads, rule, (ending.status, ending.save))
}

pub fn run<T: Threads + Wait + Sync, F: Folder, R: Source, W: Sink, E: Sink>(
    rt: &T,
    alloc: Global,
    read: &Command,
    words: Vec<String>,
    folder: &mut F,
    r: &mut R,
    w: &mut W,
    e: &mut E,
) -> (u8, u8) {
    (
        obey(rt, alloc, read, folder, &mut NoScreen, r, w, e),
        program(rt, alloc, Ok(words), folder, &mut NoScreen, r, w, e),
    )
}

/// What `main` of the program calls.
pub fn run_devices<T: Threads + Wait + Sync, F: Folder, S: Screen, W: Write + Drop>(
    rt: &T,
    alloc: Global,
    words: Result<Vec<String>, WordsFault>,
    folder: &mut F,
    screen: &mut S,
    input: impl Read + Drop,
    output: io::Result<BufWriter<W>>,
    errors: impl Write + Drop,
) -> ExitCode {
    run_program(rt, alloc, words, folder, screen, input, output, errors)
}

pub fn write_meaning<W: Sink>(
    entry: DictionaryEntry,
    w: &mut W,
) -> (Result<(), Failed>, Result<(), Failed>) {
    (tell_dictionary_entry(entry, w), tell_all_names(w))
}
