//! A hunt or a search by any number of threads answers what that of one thread answers.

use crate::support::watching::Report;
use crashlab::hunts::hunt_watched;
use crashlab::{HuntFault, RandomMoves, Variant, hunt, hunt_in_parallel, hunt_in_parallel_watched};
use explorer::Unwatched;
use lock_explorer::{
    Bounds, CrashCounts, Variables, shortest_schedule, shortest_schedule_in_parallel,
};
use redomail::Layout;
use rmeworld::Call;
use schedule::{Schedule, write_schedule};
use std::alloc::Global;
use std::test::Fail;
use std::thread::Threads;

const VARIANTS: [Variant; 7] = [
    Variant::Right,
    Variant::NoLook,
    Variant::NoTies,
    Variant::Renumber,
    Variant::ExitOnCrash,
    Variant::CountUp,
    Variant::LastSkipped,
];

const JOBS: [u64; 5] = [0, 1, 2, 3, 7];

/// Seeds, numbers of rounds, moves of each, and crashes of all in 1,000 moves.
const ROUNDS: [(u64, u64, u64, u64); 6] = [
    (1, 400, 60, 0),
    (2, 333, 90, 0),
    (3, 50, 20, 0),
    (4, 1, 700, 0),
    (5, 400, 60, 30),
    (6, 50, 20, 1_000),
];

fn drawn(seed: u64, steps: u64, system_crashes: u64) -> RandomMoves {
    RandomMoves {
        seed,
        steps,
        system_crashes,
    }
}

/// The text of what a hunt has found; no text, where it has found nothing.
fn text_of(alloc: Global, found: Option<Schedule>) -> Result<Option<Vec<u8>>, Fail> {
    match found {
        Some(schedule) => Ok(Some(write_schedule(alloc, &schedule)?)),
        None => Ok(None),
    }
}

/// Whether the hunt finds something. By any number of jobs it has to find the same.
fn is_found(
    rt: &(impl Threads + Sync),
    alloc: Global,
    variant: Variant,
    asked: RandomMoves,
    rounds: u64,
) -> Result<bool, Fail> {
    let one = text_of(
        alloc,
        hunt_watched(alloc, variant, asked, rounds, &mut Unwatched)?,
    )?;
    for jobs in JOBS {
        let found = hunt_in_parallel(rt, alloc, jobs, variant, asked, rounds)?;
        if text_of(alloc, found)? != one {
            return Err(Fail::new(format_args!("{variant:?} {asked:?} {jobs}")));
        }
    }
    if asked.system_crashes == 0 {
        let plain = hunt(alloc, variant, asked.seed, rounds, asked.steps)?;
        if text_of(alloc, plain)? != one {
            return Err(Fail::new(format_args!("{variant:?} {asked:?}")));
        }
    }
    Ok(one.is_some())
}

/// Hunts by seed 1, of rounds of 1,000 moves, find a schedule of each wrong variant. The right lock has fewer rounds. Others have
/// rounds of few moves, so that the one that finds is of a late batch, or none is. In some, a number of 1,000 moves are crashes of all.
#[test]
fn the_same_schedule_for_any_number_of_jobs(rt: HostRuntime) -> Result<(), Fail> {
    for variant in VARIANTS {
        let is_wrong = variant != Variant::Right;
        let rounds = if is_wrong { 10_000 } else { 40 };
        let found = is_found(&rt, rt.alloc(), variant, drawn(1, 1_000, 0), rounds)?;
        assert!(rt; found == is_wrong, "{variant:?}");
        for (seed, rounds, steps, system_crashes) in ROUNDS {
            let asked = drawn(seed, steps, system_crashes);
            is_found(&rt, rt.alloc(), variant, asked, rounds)?;
        }
    }
    Ok(())
}

#[test]
fn a_hunt_by_jobs_is_refused_by_its_size(rt: HostRuntime) {
    for (rounds, steps, fault) in [
        (0, 1, HuntFault::BadRounds),
        (10_001, 0, HuntFault::BadRounds),
        (1, 0, HuntFault::BadSteps),
        (1, 10_001, HuntFault::BadSteps),
    ] {
        for jobs in JOBS {
            let asked = drawn(1, steps, 0);
            let found = hunt_in_parallel(&rt, rt.alloc(), jobs, Variant::Right, asked, rounds);
            assert!(rt; found.err() == Some(fault), "{rounds} {steps} {jobs}");
        }
    }
}

/// Whether each of five rounds of a hunt by this number of jobs is reported once.
fn is_reported_once(
    rt: &(impl Threads + Sync),
    alloc: Global,
    jobs: u64,
) -> Result<bool, HuntFault> {
    let mut reports = Report {
        all: Vec::new(alloc),
    };
    let variant = Variant::Right;
    let asked = drawn(1, 10, 0);
    let found = hunt_in_parallel_watched(rt, alloc, jobs, variant, asked, 5, &mut reports)?;
    let rounds = [(0, 0), (1, 10), (2, 20), (3, 30), (4, 40)];
    Ok(found.is_none() && reports.all.as_slice() == rounds.as_slice())
}

#[test]
fn each_round_is_reported_once(rt: HostRuntime) -> Result<(), Fail> {
    let mut reports = Report {
        all: Vec::new(rt.alloc()),
    };
    let found = hunt_watched(rt.alloc(), Variant::Right, drawn(1, 10, 0), 4, &mut reports)?;
    let rounds = [(0, 0), (1, 10), (2, 20), (3, 30)];
    assert!(rt; found.is_none() && reports.all.as_slice() == rounds.as_slice());
    drop(reports);
    for jobs in JOBS {
        assert!(rt; is_reported_once(&rt, rt.alloc(), jobs)?, "{jobs}");
    }
    Ok(())
}

/// Variants, and the processes, the crashes of one process and of all, and the limit of a search, which finds a schedule for each but
/// the right lock.
const SEARCHES: [(Variant, u64, u64, u64, u64); 7] = [
    (Variant::Right, 1, 0, 0, 1),
    (Variant::Right, 2, 1, 0, 4),
    (Variant::Right, 2, 1, 1, 1),
    (Variant::NoLook, 2, 0, 0, 1),
    (Variant::NoTies, 2, 0, 0, 1),
    (Variant::Renumber, 2, 1, 0, 3),
    (Variant::ExitOnCrash, 2, 0, 1, 1),
];

const BOUNDS: Bounds = Bounds {
    crashes: CrashCounts {
        alone: 0,
        together: 0,
    },
    moves: 1_000,
    states: 10_000,
};

/// Whether a search by several jobs answers what one by one job does.
fn searches_the_same(
    rt: &(impl Threads + Sync),
    alloc: Global,
    variant: Variant,
    layout: Layout,
    limit: u64,
    variables: Variables,
    bounds: &Bounds,
) -> bool {
    let calls = [Call::Lock, Call::Unlock];
    let calls = calls.as_slice();
    let one = shortest_schedule(
        alloc,
        variant,
        layout,
        limit,
        calls,
        variables,
        bounds,
        &mut Unwatched,
    );
    for jobs in [0, 1, 2, 3, 7] {
        let found = shortest_schedule_in_parallel(
            rt,
            alloc,
            jobs,
            variant,
            layout,
            limit,
            calls,
            variables,
            bounds,
            &mut Unwatched,
        );
        if found != one {
            return false;
        }
    }
    one.is_ok()
}

/// Plays each search, over a mailbox with one entry of one word for each process. These variables distinguish states. None: each
/// answers the same by several jobs.
fn first_different(
    rt: &(impl Threads + Sync),
    alloc: Global,
    variables: Variables,
) -> Option<Variant> {
    for (variant, procs, alone, together, limit) in SEARCHES {
        let layout = Layout {
            procs,
            cap: 1,
            width: 1,
        };
        let bounds = Bounds {
            crashes: CrashCounts { alone, together },
            ..BOUNDS
        };
        if !searches_the_same(rt, alloc, variant, layout, limit, variables, &bounds) {
            return Some(variant);
        }
    }
    None
}

#[test]
fn the_same_search_for_any_number_of_jobs(rt: HostRuntime) {
    let all = first_different(&rt, rt.alloc(), Variables::All);
    let live = first_different(&rt, rt.alloc(), Variables::Live);
    assert!(rt; all.is_none() && live.is_none(), "{all:?} {live:?}");
}
