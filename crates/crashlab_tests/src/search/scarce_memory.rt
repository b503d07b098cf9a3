//! Searches and hunts by several jobs while memory is scarce. Each request for memory is refused in turn, those of the threads
//! too. The answer is that memory ran out, or the same as of one job with all memory.

use crate::search::jugs::{Jugs, Pour};
use crate::search::schedules::Sizes;
use crashlab::{HuntFault, RandomMoves, Variant, hunt, hunt_in_parallel};
use explorer::{SearchFault, SearchOutcome, Unwatched, search, search_in_parallel};
use lock_explorer::{
    Bounds, CrashCounts, ExploreFault, Move, Variables, shortest_schedule_in_parallel,
};
use redomail::Layout;
use rmeworld::Call;
use schedule::{Schedule, write_schedule};
use std::alloc::{AllocError, Global};
use std::process::Abort;
use std::test::Fail;
use std::thread;
use std::thread::Threads;
use test_support::memory_limit::{PIECES, ScarceMemory};

/// The pieces that are given back after the reserve.
const SPARE: usize = 64;

/// More memory than the reserve, in greater pieces.
fn spare(alloc: Global) -> Result<Vec<Vec<u8>>, AllocError> {
    let mut spare = Vec::with_capacity(alloc, SPARE)?;
    for _ in 0..SPARE {
        spare.push(Vec::<u8>::with_capacity(alloc, 4096)?)?;
    }
    Ok(spare)
}

/// Whether a thread can be made now.
fn makes_thread<R: Threads>(rt: &R) -> bool {
    match thread::spawn(rt, || ()) {
        Ok(handle) => {
            handle.join(rt);
            true
        }
        Err(_) => false,
    }
}

/// Takes all memory, and makes the call again after each refusal, which it answers by None, until it answers whether it comes to the
/// same as with all memory. Then a thread can be made, or it can't.
fn refuse_in_turn<R: Threads + Sync + Abort, F: Fn() -> Option<bool>>(
    rt: &R,
    alloc: Global,
    name: &str,
    with_threads: bool,
    call: F,
) -> Result<(), AllocError>
    requires { F.IsAlwaysCallable call }
{
    let mut spare = spare(alloc)?;
    let mut scarce_memory = if with_threads {
        ScarceMemory::of_threads(rt, alloc)?
    } else {
        ScarceMemory::new(alloc)?
    };
    for refused in 0..PIECES + SPARE {
        if let Some(is_same) = call() {
            assert!(rt; refused > 0 && is_same, "{name}, after {refused} refusals");
            assert!(rt; makes_thread(rt) == with_threads, "{name}");
            return Ok(());
        }
        scarce_memory.give_back();
        if refused >= PIECES {
            let piece = spare.pop();
            drop(piece);
        }
    }
    panic!(rt; "{name}: never an answer")
}

/// Empty jugs, of which the big one has to hold four litres.
const EMPTY: Jugs = Jugs {
    small: 0,
    big: 0,
    wanted: 4,
    spills: 0,
};

/// Whether the path by this many jobs is the path by one. None: memory ran out.
fn is_poured<R: Threads + Sync>(
    rt: &R,
    alloc: Global,
    jobs: usize,
    one: &Result<SearchOutcome<Pour>, SearchFault>,
) -> Option<bool> {
    let jobs = vec![in alloc; EMPTY; jobs.min(64)].ok()?;
    match search_in_parallel(rt, alloc, EMPTY, jobs, 100, 100, &mut Unwatched) {
        Err(SearchFault::OutOfMemory) => None,
        found => Some(found == *one),
    }
}

/// A search of the jugs.
fn pours<R: Threads + Sync + Abort>(
    rt: &R,
    alloc: Global,
    name: &str,
    jobs: usize,
    with_threads: bool,
) -> Result<(), AllocError> {
    let one = search(alloc, EMPTY, 100, 100, &mut Unwatched);
    refuse_in_turn(
        rt,
        alloc,
        name,
        with_threads,
        || is_poured(rt, alloc, jobs, &one),
    )
}

/// A search of the lock.
const SIZES: Sizes = Sizes {
    variant: Variant::ExitOnCrash,
    layout: Layout {
        procs: 1,
        cap: 1,
        width: 1,
    },
    limit: 1,
    bounds: Bounds {
        crashes: CrashCounts {
            alone: 1,
            together: 1,
        },
        moves: 100,
        states: 1_000,
    },
};

const CALLS: [Call; 2] = [Call::Lock, Call::Unlock];

/// Whether the schedule by three jobs is the schedule by one. None: memory ran out. These variables distinguish states.
fn is_explored<R: Threads + Sync>(
    rt: &R,
    alloc: Global,
    variables: Variables,
    one: &Result<SearchOutcome<Move>, ExploreFault>,
) -> Option<bool> {
    let found = shortest_schedule_in_parallel(
        rt,
        alloc,
        3,
        SIZES.variant,
        SIZES.layout,
        SIZES.limit,
        &CALLS,
        variables,
        &SIZES.bounds,
        &mut Unwatched,
    );
    match found {
        Err(ExploreFault::OutOfMemory) => None,
        found => Some(found == *one),
    }
}

/// A search of the lock by three jobs.
fn explores<R: Threads + Sync + Abort>(
    rt: &R,
    alloc: Global,
    name: &str,
    variables: Variables,
    with_threads: bool,
) -> Result<(), AllocError> {
    let one = SIZES.explore(alloc, &CALLS, variables);
    assert!(rt; one.is_ok());
    refuse_in_turn(
        rt,
        alloc,
        name,
        with_threads,
        || is_explored(rt, alloc, variables, &one),
    )
}

const ROUNDS: u64 = 400;

const STEPS: u64 = 90;

/// The text of what a hunt finds; no text where it finds nothing.
fn text_of(
    alloc: Global,
    found: Result<Option<Schedule>, HuntFault>,
) -> Result<Option<Vec<u8>>, HuntFault> {
    let Some(schedule) = found? else {
        return Ok(None);
    };
    match write_schedule(alloc, &schedule) {
        Ok(text) => Ok(Some(text)),
        Err(_) => Err(HuntFault::OutOfMemory),
    }
}

/// Whether this many jobs find the text. None: memory ran out.
fn is_hunted<R: Threads + Sync>(
    rt: &R,
    alloc: Global,
    one: &Result<Option<Vec<u8>>, HuntFault>,
) -> Option<bool> {
    let asked = RandomMoves {
        seed: 1,
        steps: STEPS,
        system_crashes: 0,
    };
    let found = hunt_in_parallel(rt, alloc, 3, Variant::ExitOnCrash, asked, ROUNDS);
    match text_of(alloc, found) {
        Err(HuntFault::OutOfMemory) => None,
        found => Some(found == *one),
    }
}

/// A hunt by three jobs.
fn hunts<R: Threads + Sync + Abort>(
    rt: &R,
    alloc: Global,
    name: &str,
    with_threads: bool,
) -> Result<(), AllocError> {
    let one = text_of(alloc, hunt(alloc, Variant::ExitOnCrash, 1, ROUNDS, STEPS));
    assert!(rt; matches!(&one, Ok(Some(_))));
    refuse_in_turn(rt, alloc, name, with_threads, || is_hunted(rt, alloc, &one))
}

// A test for each row that makes threads: the C library keeps the stacks of threads that have ended, and what they free.

#[test]
fn a_search_by_two_jobs(rt: HostRuntime) -> Result<(), Fail> {
    pours(&rt, rt.alloc(), "two jobs", 2, true)?;
    Ok(())
}

#[test]
fn a_search_by_three_jobs(rt: HostRuntime) -> Result<(), Fail> {
    pours(&rt, rt.alloc(), "three jobs", 3, true)?;
    Ok(())
}

/// Two of the threads that they ask for can't be made.
#[test]
fn a_search_by_seven_jobs(rt: HostRuntime) -> Result<(), Fail> {
    pours(&rt, rt.alloc(), "seven jobs", 7, true)?;
    Ok(())
}

#[test]
fn a_search_of_the_lock_by_three_jobs(rt: HostRuntime) -> Result<(), Fail> {
    explores(&rt, rt.alloc(), "all variables", Variables::All, true)?;
    Ok(())
}

#[test]
fn a_search_by_live_variables_by_three_jobs(rt: HostRuntime) -> Result<(), Fail> {
    explores(&rt, rt.alloc(), "live variables", Variables::Live, true)?;
    Ok(())
}

#[test]
fn a_hunt_by_three_jobs(rt: HostRuntime) -> Result<(), Fail> {
    hunts(&rt, rt.alloc(), "a hunt", true)?;
    Ok(())
}

/// Where no thread can be made, one does all the work.
#[test]
fn searches_and_a_hunt_without_threads(rt: HostRuntime) -> Result<(), Fail> {
    let alloc = rt.alloc();
    pours(&rt, alloc, "jugs", 3, false)?;
    explores(&rt, alloc, "all variables", Variables::All, false)?;
    explores(&rt, alloc, "live variables", Variables::Live, false)?;
    hunts(&rt, alloc, "a hunt", false)?;
    Ok(())
}
