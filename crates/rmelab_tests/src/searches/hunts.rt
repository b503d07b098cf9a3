//! Hunts: what a seed finds, and the moves that it draws.

use crate::support::invocation::{all_come_to, output_of, printed_by, words_of};
use crate::support::row::ProgramRow;
use std::alloc::Global;
use std::process::ExitCode;
use std::sync::Wait;
use std::test::Fail;
use std::thread::Threads;

const WRONG: [&str; 6] = [
    "no-look",
    "no-ties",
    "renumber",
    "exit-on-crash",
    "count-up",
    "last-skipped",
];

/// What seed 1 finds of this wrong variant.
fn hunted(
    rt: &(impl Threads + Wait + Sync),
    alloc: Global,
    variant: &str,
) -> Result<Vec<u8>, Fail> {
    let line = format!(in alloc;
        "rmelab hunt --variant {variant} --seed 1 --rounds 10000 --steps 1000"
    )?;
    output_of(rt, alloc, &line, "", b"", 1)
}

/// Whether the schedule has a verdict against this variant.
fn is_against(
    rt: &(impl Threads + Wait + Sync),
    alloc: Global,
    variant: &str,
    schedule: &[u8],
) -> Result<bool, Fail> {
    let line = format!(in alloc; "rmelab replay --variant {variant}")?;
    let report = output_of(rt, alloc, &line, "", schedule, 1)?;
    Ok(str::from_utf8(&report)?.contains("verdict against"))
}

/// Whether the schedule has no verdict against the right lock.
fn is_fine(
    rt: &(impl Threads + Wait + Sync),
    alloc: Global,
    schedule: &[u8],
) -> Result<bool, Fail> {
    let line = "rmelab replay";
    let row = ProgramRow {
        input: str::from_utf8(schedule)?,
        ..ProgramRow::new(line)
    };
    let code = printed_by(rt, alloc, Ok(words_of(alloc, line)?), &row).code;
    Ok(code == ExitCode::from(0) || code == ExitCode::from(2))
}

/// What `hunt --shrink` writes is what `shrink` makes of the schedule that the same hunt writes.
fn shrinks_what_it_finds(
    rt: &(impl Threads + Wait + Sync),
    alloc: Global,
    variant: &str,
    found: &[u8],
) -> Result<(), Fail> {
    let line = format!(in alloc; "rmelab shrink --variant {variant}")?;
    let least = output_of(rt, alloc, &line, "", found, 1)?;
    let least = str::from_utf8(&least)?;
    let row = format!(in alloc;
        "@row rmelab hunt --shrink --variant {variant} --seed 1 --rounds 10000 --steps 1000 @ends 1 @out\n{least}"
    )?;
    all_come_to(rt, alloc, &[], &row)
}

/// What seed 1 finds of each wrong variant has a verdict against that variant, and none against the right lock. Of two it is made
/// least.
#[test]
fn hunt_seeds(rt: HostRuntime) -> Result<(), Fail> {
    for variant in WRONG {
        let found = hunted(&rt, rt.alloc(), variant)?;
        let is_so = is_against(&rt, rt.alloc(), variant, &found)?;
        assert!(rt; is_so && is_fine(&rt, rt.alloc(), &found)?, "{variant}");
        if variant == "no-look" || variant == "exit-on-crash" {
            shrinks_what_it_finds(&rt, rt.alloc(), variant, &found)?;
        }
    }
    Ok(())
}

/// The schedules that `bench/lab`, a program written by hand, draws by the same rule.
pub const HUNTS: &str = "
@text DRAWN
rme 1 procs 3 limit 1000000 cap 64
lock 2
lock 0
lock 1
crash 1
lock 1
step 2
step 0
step 2
step 2
step 2
step 1
step 1
step 2
crash 0
lock 0
step 0
step 1
step 2
step 2
step 2
step 0
step 2
step 2
step 2
step 1
crash 2
lock 2
step 1
step 2
step 2
step 0
step 2
step 1
step 0
step 2
step 0
step 0
consistent 2
step 1
step 1
step 2
step 1
step 0
step 0
step 2
step 1
step 0
append 2 1 1
step 1
step 2
step 2
step 0
step 0
step 2
step 0
step 1
step 0
step 2
step 2
step 2
step 2
step 1
step 1
step 1
step 2
step 0
step 0
step 2
step 2
step 0
step 2
step 1
step 2
step 1
step 1
step 1
step 2
unlock 2
step 0
step 0
step 0
step 0
step 1
step 0
step 1
step 1
step 1
step 0
step 2
step 0
step 2
step 0
lock 2
step 1
step 0
step 1
@text DRAWN_WITH_A_SYSTEM_CRASH
rme 1 procs 3 limit 1000000 cap 64
lock 2
lock 1
crash all
lock 0
step 0
lock 2
lock 1
step 2
step 2
step 2
step 2
step 0
step 0
step 1
step 1
step 2
step 1
step 0
step 0
step 2
step 1
step 1
step 0
step 2
step 2
step 2
step 0
step 1
step 1
step 0
step 0
step 2
step 2
step 1
step 2
step 0
step 0
@row rmelab hunt --variant no-look --seed 70 --rounds 10000 --steps 1000 @out DRAWN @ends 1
@row rmelab hunt --variant no-look --seed 70 --rounds 10000 --steps 1000 --jobs 1 @out DRAWN @ends 1
@row rmelab hunt --variant no-look --seed 70 --rounds 10000 --steps 1000 --jobs 2 @out DRAWN @ends 1
@row rmelab hunt --variant no-look --seed 70 --rounds 10000 --steps 1000 --jobs 3 @out DRAWN @ends 1
@row rmelab hunt --variant no-look --seed 70 --rounds 10000 --steps 1000 --jobs 7 @out DRAWN @ends 1
@row rmelab hunt --variant no-look --seed 49 --rounds 10 --steps 1000 --system-crashes 20 @out DRAWN_WITH_A_SYSTEM_CRASH @ends 1
@row rmelab hunt --variant no-look --seed 49 --rounds 10 --steps 1000 --system-crashes 20 --jobs 1 @out DRAWN_WITH_A_SYSTEM_CRASH @ends 1
@row rmelab hunt --variant no-look --seed 49 --rounds 10 --steps 1000 --system-crashes 20 --jobs 3 @out DRAWN_WITH_A_SYSTEM_CRASH @ends 1
@row rmelab hunt --variant no-look --seed 49 --first-round 2 --rounds 1 --steps 1000 --system-crashes 20 @out DRAWN_WITH_A_SYSTEM_CRASH @ends 1
@row rmelab hunt --variant no-look --seed 49 --rounds 2 --steps 1000 --system-crashes 20 @out
nothing found
@row rmelab hunt --variant right --seed 1 --rounds 100 --steps 1000 @out
nothing found
@row rmelab hunt --variant right --seed 1 --first-round 9900 --rounds 100 --steps 100 @out
nothing found
@row rmelab hunt --variant right --seed 1 --first-round 9901 --rounds 100 --steps 100 @ends 2 @err
rmelab: bad size
";
