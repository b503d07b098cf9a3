//! Each request for memory of whole invocations is refused in turn.

use crate::support::devices::Feed;
use crate::support::fake::Fake;
use crate::support::invocation::words_of;
use crate::support::row::ProgramRow;
use commands::NoScreen;
use commands::program::run_program;
use std::alloc::{AllocError, Global};
use std::io::{BufWriter, Cursor};
use std::process::ExitCode;
use std::sync::Wait;
use std::test::Fail;
use std::thread::Threads;
use test_support::memory_limit::{PIECES, ScarceMemory};

/// The words of a command line, once for each try.
fn all_words(alloc: Global, line: &str) -> Result<Vec<Vec<String>>, AllocError> {
    let mut all = Vec::with_capacity(alloc, PIECES)?;
    for _ in 0..PIECES {
        all.push(words_of(alloc, line)?)?;
    }
    Ok(all)
}

/// Runs the program into buffers that are already there.
fn ends(
    rt: &(impl Threads + Wait + Sync),
    alloc: Global,
    words: Vec<String>,
    row: &ProgramRow<'_>,
    out: &mut [u8],
    err: &mut [u8],
) -> ExitCode {
    let mut folder = Fake::new(alloc, row.files, row.failing);
    let input = Feed::new(row.input, false);
    let output = Cursor::new(out);
    let errors = Cursor::new(err);
    run_program(
        rt,
        alloc,
        Ok(words),
        &mut folder,
        &mut NoScreen,
        input,
        BufWriter::new(alloc, output),
        errors,
    )
}

/// Whether the program meets a refusal. Then it reports that it is out of memory, and ends with 3. Else its output is what the
/// row says.
fn meets_a_refusal(
    rt: &(impl Threads + Wait + Sync),
    alloc: Global,
    words: Vec<String>,
    row: &ProgramRow<'_>,
) -> Result<bool, Fail> {
    let mut out = [0; 16384];
    let mut err = [0; 256];
    let code = ends(rt, alloc, words, row, &mut out, &mut err);
    let is_refused = code == ExitCode::from(3);
    let is_so = if is_refused {
        err.starts_with(b"rmelab: out of memory\n\0")
    } else {
        out.starts_with(row.printed.as_bytes())
            && err.starts_with(row.reports.as_bytes())
            && err.get(row.reports.len()) == Some(&0)
            && code == ExitCode::from(row.status)
    };
    if is_so {
        return Ok(is_refused);
    }
    Err(Fail::new(format_args!("{}: {code:?}", row.line)))
}

/// Each request for memory of the row is refused in turn: it has some, and at the end it meets no refusal. It always meets one
/// less than there are pieces.
pub fn meets_refusals(
    rt: &(impl Threads + Wait + Sync),
    alloc: Global,
    row: &ProgramRow<'_>,
) -> Result<(), Fail> {
    let mut all = all_words(alloc, row.line)?;
    let mut scarce_memory = ScarceMemory::new(alloc)?;
    for refused in 0..PIECES {
        let words = all.pop().unwrap_or(Vec::new(alloc));
        if !meets_a_refusal(rt, alloc, words, row)? {
            if refused == 0 {
                break;
            }
            return Ok(());
        }
        scarce_memory.give_back();
    }
    Err(Fail::new(format_args!("{}: no refusal, or always", row.line)))
}
