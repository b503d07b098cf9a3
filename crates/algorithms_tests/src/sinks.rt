//! Reports and drawings whose sink fails.

use crate::cases::case_of;
use crate::drawings::ALONE;
use crate::reports::others::ONE_WORD;
use crate::schedules::ALONE_BY_STEPS;
use crate::support::text_named;
use algorithm_lab::{AlgorithmReplayFault, replay_algorithm};
use algorithm_texts::read_algorithm;
use algorithms::InitializedAlgorithm;
use diagram::{Style, draw_algorithm, follow_algorithm};
use schedule::{Schedule, Sink, ToWriter, Verdict, read_schedule};
use std::alloc::Global;
use std::io;
use std::io::{Cursor, ErrorKind, Write};
use std::test::Fail;

/// What is called.
#[derive(Clone, Copy)]
pub enum Kind {
    Hunt,
    Shrink,
    Report,
    /// A replay with each step.
    ReportOfSteps,
    Drawing,
}

/// A writer that takes everything, and fails when it is flushed.
#[derive(Drop)]
struct Unflushed;

impl Write for Unflushed {
    fn write(&mut self, bytes: &[u8]) -> io::Result<usize> {
        Ok(bytes.len())
    }

    fn flush(&mut self) -> io::Result<()> {
        Err(io::Error::from(ErrorKind::Other))
    }
}

/// Draws a run as text, or reports it, with each step or without.
pub fn put_out<W: Sink>(
    alloc: Global,
    kind: Kind,
    algorithm: InitializedAlgorithm,
    schedule: &Schedule,
    w: &mut W,
) -> Result<Verdict, AlgorithmReplayFault> {
    match kind {
        Kind::Drawing => draw_algorithm(alloc, algorithm, schedule, Style::Text, w),
        Kind::ReportOfSteps => follow_algorithm(alloc, algorithm, schedule, w),
        _ => replay_algorithm(alloc, algorithm, schedule, w),
    }
}

/// Whether the sink fails: the call answers that it does.
fn fails<W: Sink>(
    alloc: Global,
    (kind, name): (Kind, &str),
    schedule: &Schedule,
    w: &mut W,
) -> Result<bool, Fail> {
    let algorithm = read_algorithm(alloc, text_named(name))?;
    let ended = put_out(alloc, kind, algorithm, schedule, w);
    Ok(ended == Err(AlgorithmReplayFault::Write))
}

/// The least room in which the call does not answer that its sink fails, or has not filled it with the beginning of the whole.
fn least_room(
    alloc: Global,
    what: (Kind, &str),
    schedule: &Schedule,
    whole: &[u8],
) -> Result<usize, Fail> {
    for room in 0..whole.len() {
        let mut printed = vec![in alloc; 0u8; room]?;
        let mut sink = ToWriter::new(Cursor::new(printed.as_mut_slice()));
        let failed = fails(alloc, what, schedule, &mut sink)?;
        drop(sink);
        if !failed || !whole.starts_with(printed.as_slice()) {
            return Ok(room);
        }
    }
    Ok(whole.len())
}

/// The name of a case, its schedule, and all that is written of it.
pub fn schedule_of(table: &str) -> (&str, &[u8], &[u8]) {
    let (_, case) = table.split_once("== ").unwrap_or(("", table));
    let (words, given, expected) = case_of(case);
    let whole = expected.strip_suffix("ended: fine\n").unwrap_or(expected);
    (words[0], given.as_bytes(), whole.as_bytes())
}

/// Fails unless the sink of a case fails where it has room for a beginning alone, and where it fails at its end.
fn compare(alloc: Global, kind: Kind, table: &str) -> Result<(), Fail> {
    let (name, given, whole) = schedule_of(table);
    let schedule = read_schedule(alloc, given)?;
    let room = least_room(alloc, (kind, name), &schedule, whole)?;
    let mut sink = ToWriter::new(Unflushed);
    let failed = fails(alloc, (kind, name), &schedule, &mut sink)?;
    drop(schedule);
    if room == whole.len() && failed {
        return Ok(());
    }
    Err(Fail::new(format_args!("{name}: {room}")))
}

#[test]
fn a_sink_fails(rt: HostRuntime) -> Result<(), Fail> {
    compare(rt.alloc(), Kind::Report, ONE_WORD)?;
    compare(rt.alloc(), Kind::ReportOfSteps, ALONE_BY_STEPS)?;
    compare(rt.alloc(), Kind::Drawing, ALONE)
}
