//! Carries out a row by `read_words` and `command` alone, over a reader and two writers in memory.

use crate::support::fake::Failing;
use crate::support::invocation::{all_written, words_of};
use crate::support::row::ProgramRow;
use cli::arguments::args::Command;
use cli::arguments::words::{WordsFault, read_words};
use commands::command::command;
use schedule::{Page, Text};
use std::alloc::Global;
use std::sync::Wait;
use std::test::Fail;
use std::thread::Threads;

/// The text of the file with this name.
fn file_named<'a>(row: &ProgramRow<'a>, name: &String) -> Option<&'a str> {
    for (known, text) in row.files {
        if known == name.as_str() {
            return Some(text);
        }
    }
    None
}

/// Compares the fault of the words with what the row prints.
fn refuses(row: &ProgramRow<'_>, fault: &WordsFault) -> Result<(), Fail> {
    let (found, wanted) = match fault {
        WordsFault::Help { text } => (text.as_bytes(), row.printed),
        WordsFault::Refused { text } => (text.as_bytes(), row.reports),
        WordsFault::BadVariant => (b"rmelab: bad variant\n".as_slice(), row.reports),
        WordsFault::BadSize => (b"rmelab: bad size\n".as_slice(), row.reports),
        WordsFault::Unreadable | WordsFault::OutOfMemory => (b"no words".as_slice(), ""),
    };
    all_written(row.line, &[("words", found, wanted)])
}

/// Carries out the command over these texts, and compares what it writes, its status, and what is to be saved.
fn carries_out(
    rt: &(impl Threads + Wait + Sync),
    alloc: Global,
    order: &Command,
    image: Option<&[u8]>,
    input: &str,
    row: &ProgramRow<'_>,
) -> Result<(), Fail> {
    let mut source = Text::new(input.as_bytes(), 64);
    let mut out = Page::new(alloc);
    let mut err = Page::new(alloc);
    let ending = command(rt, alloc, order, image, &mut source, &mut out, &mut err);
    let (_, wanted) = row.saved;
    let save = ending.save.as_deref();
    if ending.status != row.status || save.is_none() != wanted.is_empty() {
        return Err(Fail::new(format_args!("{}: {}", row.line, ending.status)));
    }
    let places = [
        ("output of the command", out.as_slice(), row.printed),
        ("fault of the command", err.as_slice(), row.reports),
        ("save of the command", save.unwrap_or(b""), wanted),
    ];
    all_written(row.line, &places)
}

/// Carries out the command over the files that it names. A row whose file isn't there is one of the program alone.
fn obeys(
    rt: &(impl Threads + Wait + Sync),
    alloc: Global,
    order: &Command,
    row: &ProgramRow<'_>,
) -> Result<(), Fail> {
    let image = match order.image_file() {
        Some(name) => match file_named(row, name) {
            Some(text) => Some(text.as_bytes()),
            None => return Ok(()),
        },
        None => None,
    };
    let input = match order.input_file() {
        Some(name) => match file_named(row, name) {
            Some(text) => text,
            None => return Ok(()),
        },
        None => row.input,
    };
    carries_out(rt, alloc, order, image, input, row)
}

/// Reads the words of the row by `read_words`, and carries out its command by `command`. It writes, ends and saves as the
/// whole program does. A row whose device fails is one of the program alone.
pub fn comes_to_alone(
    rt: &(impl Threads + Wait + Sync),
    alloc: Global,
    row: &ProgramRow<'_>,
) -> Result<(), Fail> {
    if row.failing != Failing::Nothing {
        return Ok(());
    }
    let words = words_of(alloc, row.line)?;
    match read_words(alloc, &words) {
        Ok(order) => obeys(rt, alloc, &order, row),
        Err(fault) => refuses(row, &fault),
    }
}
