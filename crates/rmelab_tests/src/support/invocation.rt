//! Runs the program as the rows of a script say, over a folder in memory and devices that may fail, and compares its whole
//! output.

use crate::support::alone::comes_to_alone;
use crate::support::devices::{Feed, Paper, Ticking};
use crate::support::fake::{Failing, Fake};
use crate::support::refused_memory::meets_refusals;
use crate::support::row::ProgramRow;
use cli::arguments::words::WordsFault;
use commands::Terminal;
use commands::program::run_program;
use std::alloc::{AllocError, Global};
use std::cell::Cell;
use std::io::BufWriter;
use std::process::ExitCode;
use std::sync::Wait;
use std::test::Fail;
use std::thread::Threads;

/// The words of a command line.
pub fn words_of(alloc: Global, line: &str) -> Result<Vec<String>, AllocError> {
    let mut words = Vec::new(alloc);
    for word in line.split(' ') {
        words.push(String::from_str(alloc, word)?)?;
    }
    Ok(words)
}

/// What an invocation has written to its two outputs and to a file, what it has shown, and its exit status.
#[derive(Drop)]
pub struct Printed {
    pub out: Vec<u8>,
    pub err: Vec<u8>,
    pub shown: Vec<u8>,
    pub name: String,
    pub save: Vec<u8>,
    pub code: ExitCode,
}

/// A writer that keeps what is written into this text, or fails.
fn paper<'a>(text: &'a mut Vec<u8>, fails: bool) -> Paper<'a> {
    Paper {
        text,
        fails,
        flush_fails: false,
    }
}

/// Runs the program on these words, and otherwise as the row says.
pub fn printed_by(
    rt: &(impl Threads + Wait + Sync),
    alloc: Global,
    words: Result<Vec<String>, WordsFault>,
    row: &ProgramRow<'_>,
) -> Printed {
    let mut folder = Fake::new(alloc, row.files, row.failing);
    let input = Feed::new(row.input, row.failing == Failing::Read);
    let mut out = Vec::new(alloc);
    let mut err = Vec::new(alloc);
    let output = Paper {
        text: &mut out,
        fails: row.failing == Failing::Write,
        flush_fails: row.failing == Failing::Flush,
    };
    let errors = paper(&mut err, row.failing == Failing::Report);
    let clock = Ticking { read: Cell::new(0) };
    let mut shown = Vec::new(alloc);
    let lines = paper(&mut shown, row.failing == Failing::Shown);
    let mut screen = Terminal::new(&clock, lines, row.is_terminal);
    let code = run_program(
        rt,
        alloc,
        words,
        &mut folder,
        &mut screen,
        input,
        BufWriter::new(alloc, output),
        errors,
    );
    drop(screen);
    let Fake { name, text, .. } = folder;
    Printed {
        out,
        err,
        shown,
        name,
        save: text,
        code,
    }
}

/// Fails the test, unless each place has what is wanted there.
pub fn all_written(line: &str, places: &[(&str, &[u8], &str)]) -> Result<(), Fail> {
    for (place, found, wanted) in places {
        if *found != wanted.as_bytes() {
            let found = str::from_utf8(found).unwrap_or("no text");
            return Err(Fail::new(format_args!("{line}: {place}: {found}\nin place of: {wanted}")));
        }
    }
    Ok(())
}

/// Compares the whole output with what the row says.
fn is_as_expected(found: &Printed, row: &ProgramRow<'_>) -> Result<(), Fail> {
    let (name, save) = row.saved;
    let places = [
        ("standard output", found.out.as_slice(), row.printed),
        ("standard error", found.err.as_slice(), row.reports),
        ("the terminal", found.shown.as_slice(), row.shown),
        ("the saved file's name", found.name.as_bytes(), name),
        ("the saved file", found.save.as_slice(), save),
    ];
    if found.code != ExitCode::from(row.status) {
        return Err(Fail::new(format_args!("{}: {:?}", row.line, found.code)));
    }
    all_written(row.line, &places)
}

/// Runs the program on these words, and otherwise as the row says, and compares its whole output.
pub fn comes_to(
    rt: &(impl Threads + Wait + Sync),
    alloc: Global,
    words: Result<Vec<String>, WordsFault>,
    row: &ProgramRow<'_>,
) -> Result<(), Fail> {
    let found = printed_by(rt, alloc, words, row);
    is_as_expected(&found, row)
}

/// Plays a row of a script with this head. With `@memory` each request for memory is refused in turn. Else the program is run; and so
/// are, without `@program`, `read_words` and `command` alone.
fn is_played(
    rt: &(impl Threads + Wait + Sync),
    alloc: Global,
    head: &str,
    row: &ProgramRow<'_>,
) -> Result<(), Fail> {
    if head.contains("@memory") {
        return meets_refusals(rt, alloc, row);
    }
    comes_to(rt, alloc, Ok(words_of(alloc, row.line)?), row)?;
    if head.contains("@program") {
        return Ok(());
    }
    comes_to_alone(rt, alloc, row)
}

/// Plays each row of the script. The names in it are those of its head, of these scripts of texts, or of algorithms.
fn all_are_played<'a>(
    rt: &(impl Threads + Wait + Sync),
    alloc: Global,
    texts: &[&'a str],
    script: &'a str,
) -> Result<(), Fail> {
    let (head, rows) = script.split_once("@row ").ok_or("no row")?;
    for part in rows.split("@row ") {
        let Some(row) = ProgramRow::read(part, head, texts) else {
            return Err(Fail::new(format_args!("no row: {part}")));
        };
        is_played(rt, alloc, head, &row)?;
    }
    Ok(())
}

/// Plays each row of the script, and compares its whole output.
pub fn all_come_to(
    rt: &(impl Threads + Wait + Sync),
    alloc: Global,
    texts: &[&str],
    script: &str,
) -> Result<(), Fail> {
    all_are_played(rt, alloc, texts, script)
}

/// What the program prints on these words over this input, in a folder where `a.lock` is this text. It has to end with this
/// status.
pub fn output_of<'a>(
    rt: &(impl Threads + Wait + Sync),
    alloc: Global,
    line: &'a str,
    lock: &'a str,
    input: &'a [u8],
    status: u8,
) -> Result<Vec<u8>, Fail> {
    let row = ProgramRow {
        input: str::from_utf8(input)?,
        files: [("", ""), ("a.lock", lock)],
        ..ProgramRow::new(line)
    };
    let found = printed_by(rt, alloc, Ok(words_of(alloc, line)?), &row);
    if found.code != ExitCode::from(status) {
        return Err(Fail::new(format_args!("{line}: {:?}", found.code)));
    }
    Ok(found.out)
}
