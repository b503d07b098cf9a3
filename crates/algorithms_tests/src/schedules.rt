//! Replays of schedules, against the reference program's reports.

use crate::sinks::{Kind, put_out};
use crate::support::{put_fault, put_page, text_named};
use algorithm_texts::read_algorithm;
use schedule::{Page, read_schedule};
use std::alloc::Global;
use std::test::Fail;

/// A replay with each step, of a process that enters alone.
pub const ALONE_BY_STEPS: &str = "== peterson
rme 1 procs 2 limit 1 cap 1
lock 0
step 0 3
--
at 0 rest w flag[0]=1 remote dsm write-through write-back
at 0 rest w turn=1 remote dsm write-through write-back
at 0 section r flag[1] 0 remote dsm write-through write-back
begin 0
ready 0
enter 0
answer 0 done
words flag 1 0
words turn 1
verdict fine
";

/// Writes the lines of a text that are not those of steps.
fn put_other_lines(page: &[u8], text: &mut String) -> Result<(), Fail> {
    for line in str::from_utf8(page)?.lines() {
        if !line.starts_with("at ") {
            put_page(line.as_bytes(), text)?;
            put_page(b"\n", text)?;
        }
    }
    Ok(())
}

/// Replays a schedule, and writes its report, or with `each` step what is not of the steps. Where a line is refused, that follows.
fn put_replay(
    alloc: Global,
    (name, each): (&str, bool),
    schedule: &str,
    text: &mut String,
) -> Result<(), Fail> {
    let schedule = read_schedule(alloc, schedule.as_bytes())?;
    let algorithm = read_algorithm(alloc, text_named(name))?;
    let mut page = Page::new(alloc);
    let kind = if each {
        Kind::ReportOfSteps
    } else {
        Kind::Report
    };
    let ended = put_out(alloc, kind, algorithm, &schedule, &mut page);
    drop(schedule);
    let written = if each {
        put_other_lines(page.as_slice(), text)
    } else {
        put_page(page.as_slice(), text)
    };
    drop(page);
    written?;
    if let Err(fault) = ended {
        put_fault(fault, text)?;
    }
    Ok(())
}

/// A replay of a schedule, as a case: the text. It is replayed with each step too. Where that reports otherwise, both are written.
pub fn put_report(
    alloc: Global,
    words: &[&str; 8],
    schedule: &str,
    text: &mut String,
) -> Result<(), Fail> {
    put_replay(alloc, (words[0], false), schedule, text)?;
    let mut again = String::new(alloc);
    let replayed = put_replay(alloc, (words[0], true), schedule, &mut again);
    let written = if again.as_str() == text.as_str() {
        Ok(())
    } else {
        text.push_str(again.as_str())
    };
    drop(again);
    replayed?;
    Ok(written?)
}
