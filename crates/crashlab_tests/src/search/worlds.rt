//! Searches for stuck states, and for a process that starves, among the worlds of the right lock. The counts of worlds are those of the
//! plain program in bench/explore; for starving those of the reference program, on the text that is the lock.

use crate::search::cases::{crashes_in, number};
use crashlab::Variant;
use lock_explorer::{StarvingOutcome, StuckBounds, Unwatched, starving_schedule, stuck_schedule};
use redomail::Layout;
use rmeworld::Call;
use std::alloc::Global;
use std::fmt::Write;
use std::test::Fail;

/// The processes, the limit, the crashes, the most states, and the calls. Without `unlock` the process that has the lock can't let
/// go of it. Without `consistent` a process that crashed inside can go home only by an unlock that ruins the lock.
pub const STUCK: &str = "\
== 2 4 1 7913 with-consistent
Ok(NeverStuck(7913))
== 2 4 1 7912 with-consistent
Err(TooManyStates)
== 2 1 0+1 3089 with-consistent
Ok(NeverStuck(3089))
== 1 1 0 1000 lock
Ok(Stuck([Start(0, Lock)]))
== 1 1 0+1 1000 lock-and-unlock
Ok(Stuck([Start(0, Lock), Step(0), Step(0), Step(0), Step(0), Step(0), Step(0), Step(0), CrashAll]))
== 1 1 1 1000 lock-and-unlock
Ok(Stuck([Start(0, Lock), Step(0), Step(0), Step(0), Step(0), Step(0), Step(0), Step(0), Crash(0)]))
";

/// The limit, the crashes, the most states, the calls, and `any` where calls count that give up. Nobody starves. But process 1 is
/// out of numbers again and again, or withdraws.
pub const STARVING: &str = "\
== 1 0 211 lock-and-unlock
Ok(NeverStarving(211))
== 4 0 1000 lock-and-unlock
Ok(NeverStarving(799))
== 2 0 1000 with-withdraw
Ok(NeverStarving(458))
== 1 0 210 lock-and-unlock
Err(TooManyStates)
== 0 0 1 lock-and-unlock
Err(Refused(BadLimit))
== 1 0 211 lock-and-unlock any
0 starves: 8 moves, then again and again 8
== 1 1 10000 lock-and-unlock any
0 starves: 8 moves, then again and again 8
== 1 0+1 10000 lock-and-unlock any
0 starves: 8 moves, then again and again 8
== 4 0 1000 lock-and-unlock any
0 starves: 53 moves, then again and again 8
== 2 0 1000 with-withdraw any
0 starves: 8 moves, then again and again 11
";

/// Three calls, and how many of them have this name.
fn calls_named(name: &str) -> ([Call; 3], usize) {
    let last = if name == "with-withdraw" {
        Call::Withdraw
    } else {
        Call::Consistent
    };
    let made = match name {
        "lock" => 1,
        "lock-and-unlock" => 2,
        _ => 3,
    };
    ([Call::Lock, Call::Unlock, last], made)
}

/// The sizes of a world with this many processes.
fn layout_of(procs: u64) -> Layout {
    Layout {
        procs,
        cap: 1,
        width: 1,
    }
}

/// A search of the right lock for a stuck state, as a case.
pub fn put_stuck(alloc: Global, words: &[&str; 8], text: &mut String) -> Result<(), Fail> {
    let [procs, limit, crashes, states, calls, ..] = words;
    let (all, made) = calls_named(calls);
    let all = all.as_slice();
    let bounds = StuckBounds {
        crashes: crashes_in(crashes),
        states: number(states),
    };
    let found = stuck_schedule(
        alloc,
        Variant::Right,
        layout_of(number(procs)),
        number(limit),
        all.get(..made).unwrap_or(all),
        &bounds,
        &mut Unwatched,
    );
    let written = writeln!(text, "{found:?}");
    drop(found);
    Ok(written?)
}

/// A search of the right lock for two processes for one that starves, as a case.
pub fn put_starving(alloc: Global, words: &[&str; 8], text: &mut String) -> Result<(), Fail> {
    let [limit, crashes, states, calls, any, ..] = words;
    let (all, made) = calls_named(calls);
    let all = all.as_slice();
    let bounds = StuckBounds {
        crashes: crashes_in(crashes),
        states: number(states),
    };
    let found = starving_schedule(
        alloc,
        Variant::Right,
        layout_of(2),
        number(limit),
        all.get(..made).unwrap_or(all),
        *any == "any",
        &bounds,
        &mut Unwatched,
    );
    let written = match &found {
        Ok(StarvingOutcome::Starving(lasso)) => writeln!(
            text,
            "{} starves: {} moves, then again and again {}",
            lasso.process,
            lasso.stem.len(),
            lasso.cycle.len()
        ),
        _ => writeln!(text, "{found:?}"),
    };
    drop(found);
    Ok(written?)
}
