//! Calls while one request for memory after another is refused.

use crate::drawings::ALONE;
use crate::reports::others::ONE_WORD;
use crate::schedules::ALONE_BY_STEPS;
use crate::sinks::{Kind, put_out, schedule_of};
use crate::support::text_named;
use algorithm_hunts::{
    AlgorithmHuntFault, RandomMoves, Unwatched, hunt_algorithm_schedule, shrink_algorithm_schedule,
};
use algorithm_lab::AlgorithmReplayFault;
use algorithm_texts::read_algorithm;
use algorithms::InitializedAlgorithm;
use schedule::{Schedule, ToWriter, read_schedule};
use std::alloc::Global;
use std::io::Cursor;
use std::test::Fail;
use test_support::memory_limit::ScarceMemory;

/// How many requests for memory may be refused.
const TRIES: usize = 200;

/// A hunt of seed 2 with 20 rounds of 1000 steps finds 7 lines, and writes nothing.
const HUNT: &str = "== one_word
rme 1 procs 2 limit 1 cap 1
--
";

/// These lines are made 5, and nothing is written.
const SHRINK: &str = "== one_word
rme 1 procs 2 limit 1 cap 1
crash 1
lock 1
step 1
lock 0
step 0
step 0
step 1
--
";

/// What a call comes to: how many lines it finds, or that memory ran out. Where it writes, and finds nothing, there are 0.
#[derive(Clone, Copy)]
enum Outcome {
    Lines(usize),
    OutOfMemory,
    Otherwise,
}

fn lines_of(found: Option<Schedule>) -> Outcome {
    match found {
        Some(found) => Outcome::Lines(found.lines().len()),
        None => Outcome::Otherwise,
    }
}

fn outcome_of(fault: AlgorithmReplayFault) -> Outcome {
    match fault {
        AlgorithmReplayFault::OutOfMemory => Outcome::OutOfMemory,
        AlgorithmReplayFault::Refused { .. } | AlgorithmReplayFault::Write => Outcome::Otherwise,
    }
}

/// Calls once.
fn called(
    alloc: Global,
    kind: Kind,
    algorithm: InitializedAlgorithm,
    schedule: &Schedule,
    printed: &mut [u8],
) -> Outcome {
    match kind {
        Kind::Hunt => match hunt_algorithm_schedule(
            alloc,
            algorithm,
            2,
            1,
            RandomMoves {
                seed: 2,
                steps: 1000,
                system_crashes: 0,
            },
            20,
            &mut Unwatched,
        ) {
            Ok(found) => lines_of(found),
            Err(AlgorithmHuntFault::OutOfMemory) => Outcome::OutOfMemory,
            Err(_) => Outcome::Otherwise,
        },
        Kind::Shrink => match shrink_algorithm_schedule(alloc, algorithm, schedule) {
            Ok(found) => lines_of(found),
            Err(fault) => outcome_of(fault),
        },
        _ => {
            let mut sink = ToWriter::new(Cursor::new(printed));
            match put_out(alloc, kind, algorithm, schedule, &mut sink) {
                Ok(_) => Outcome::Lines(0),
                Err(fault) => outcome_of(fault),
            }
        }
    }
}

/// What stands before the first zero.
fn before_zeros(bytes: &[u8]) -> &[u8] {
    match bytes.iter().position(|byte| *byte == 0) {
        Some(end) => &bytes[..end],
        None => bytes,
    }
}

/// Whether this is what may be written where memory was refused: nothing, or of a drawing a beginning.
fn may_be_written(kind: Kind, written: &[u8], whole: &[u8]) -> bool {
    let is_beginning = written != whole && whole.starts_with(written);
    written.is_empty() || matches!(kind, Kind::Drawing) && is_beginning
}

/// Calls with each of the algorithms, and a piece more of memory each time, until memory is enough. It answers how often it was
/// not, and how many lines were found, where each time just what may be written was.
fn refusals(
    alloc: Global,
    kind: Kind,
    algorithms: &mut Vec<InitializedAlgorithm>,
    schedule: &Schedule,
    whole: &[u8],
    scarce_memory: &mut ScarceMemory,
) -> (u64, Option<usize>) {
    let mut refused = 0u64;
    for _ in 0..TRIES {
        let Some(algorithm) = algorithms.pop() else {
            break;
        };
        let mut printed = [0u8; 1024];
        let came = called(alloc, kind, algorithm, schedule, &mut printed);
        let written = before_zeros(&printed);
        match came {
            Outcome::Lines(lines) if written == whole => return (refused, Some(lines)),
            Outcome::OutOfMemory if may_be_written(kind, written, whole) => {}
            _ => return (refused, None),
        }
        refused = refused.saturating_add(1);
        scarce_memory.give_back();
    }
    (refused, None)
}

/// The same algorithm, once for each try.
fn all_algorithms(alloc: Global, text: &[u8]) -> Result<Vec<InitializedAlgorithm>, Fail> {
    let mut all = Vec::with_capacity(alloc, TRIES)?;
    for _ in 0..TRIES {
        all.push(read_algorithm(alloc, text)?)?;
    }
    Ok(all)
}

/// Fails unless what comes of a case is as expected, where one request for memory after another is refused.
fn compare(alloc: Global, kind: Kind, table: &str, lines: usize) -> Result<(), Fail> {
    let (name, given, whole) = schedule_of(table);
    let schedule = read_schedule(alloc, given)?;
    let mut algorithms = all_algorithms(alloc, text_named(name))?;
    let mut scarce_memory = ScarceMemory::new(alloc)?;
    let (refused, found) = refusals(
        alloc,
        kind,
        &mut algorithms,
        &schedule,
        whole,
        &mut scarce_memory,
    );
    scarce_memory.end();
    drop(algorithms);
    drop(schedule);
    if found == Some(lines) && 0 < refused && refused < TRIES as u64 {
        return Ok(());
    }
    Err(Fail::new(format_args!("{name}: {refused} {found:?}")))
}

#[test]
fn memory_is_refused(rt: HostRuntime) -> Result<(), Fail> {
    compare(rt.alloc(), Kind::Hunt, HUNT, 7)?;
    compare(rt.alloc(), Kind::Shrink, SHRINK, 5)?;
    compare(rt.alloc(), Kind::Report, ONE_WORD, 0)?;
    compare(rt.alloc(), Kind::ReportOfSteps, ALONE_BY_STEPS, 0)?;
    compare(rt.alloc(), Kind::Drawing, ALONE, 0)
}
