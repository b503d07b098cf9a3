//! The worked rows over members that need no threads.

ghost use Rattle.std.specs.Prelude.{◌≡◌};

use crate::both::{Played, wrong_on_both, wrong_on_either_path};
use crate::support::counted::{Counted, never, stepwise};
use crate::support::rows::first_wrong;
use crate::support::tested::Tested;
use crate::support::text::number;
use crash_plans::CrashPlan;
use redomail::Reply;
use std::alloc::Global;
use std::marker::Brand;
use std::process::Abort;
use std::sync::Wait;
use std::sync::ledger::{Blank, Ledger};
use test_support::text::cut;

/// Rows of which locks, the room of the mailbox, calls, and what they leave. After `both` the calls are made on both locks, else
/// on the running lock alone.
const ROWS: &str = "\
# refusals: calls that are refused, and don't ask the plan; one that is blocked reads four times
both 1 | 0 lock_within 0: clean - 12; 0 consistent: not-inconsistent - 0; 1 unlock: not-owner - 0 | anything
both 1 | 0 unlock: not-owner - 0; 0 get 4: not-owner - 0; 0 put 4 1: not-owner - 0; 0 lock_within 0: clean - 12; 0 consistent: not-inconsistent - 0; 0 lock: already-in - 0; 0 recover: already-in - 0; 0 close_within 0: already-in - 0; 0 get 4: bad-index - 0; 0 put 4 1: bad-index 11 0; 0 put 3 7: put - 2; 0 get 3: 7 - 2; 1 close_within 3: not-yet 12 13 | anything
# ruined: an unlock that ruins the lock, and the members that lock after it
both 1 | 0 lock_within 0 @12: crashed 11 12; 0 lock_within 0: owner-died 4 5; 0 unlock: unlocked 3 4; 1 lock_within 0: not-recoverable 13 14; 0 lock_within 0: not-recoverable 13 14 | words 0 0 0 0 0 0 1
# place_kept: a lock that gives up, and one that waits on and keeps its place
both 1 | 0 lock_within 0: clean 11 12; 1 lock_within 0: not-yet 9 10; 0 unlock: unlocked 2 3; 1 lock_within 0: clean 7 8 | words 0 0 0 0 2 1
both 1 | 0 lock_within 0: clean 11 12; 1 lock_within 0: not-yet 9 10; 1 lock_within 3: not-yet 8 9; 0 unlock: unlocked 2 3; 1 lock_within 0: clean 7 8 | words 0 0 0 0 2 1
# withdraw_member: a place in the line that is given up
running 1 | 0 lock_within 0: clean; 1 lock_within 0: not-yet; 1 withdraw: withdrawn 1 2; 1 withdraw: not-owner - 0 | words 0 1 1 0 0 0
# an entry and an exit
running 4 | 0 unlock: not-owner 0 0; 0 lock_within 0: clean 11; 0 lock_within 0: already-in - 0; 0 put 2 7: put; 0 get 2: 7; 0 get 4: bad-index - 0; 0 consistent: not-inconsistent - 0; 1 lock_within 3: not-yet; 1 get 2: not-owner - 0; 1 withdraw: withdrawn 1; 1 withdraw: not-owner - 0; 0 unlock: unlocked 2; 1 lock_within 0: clean; 1 get 2: 7 | anything
# a crash inside
both 4 | 0 lock_within 0 @12: crashed 11; 0 get 0: not-owner - 0; 0 consistent: not-inconsistent - 0; 1 lock_within 9: not-yet; 0 recover: inside 3; 0 consistent: nothing-to-mend 2; 0 unlock: unlocked; 0 recover: idle; 1 lock_within 0: clean | anything
# crash_sweep
both 4 | 0 append_within 1 5 0 @1: crashed 0; 0 append_within 1 5 0: stored 26; 1 append_within 1 9 0 @never: stored | messages 0 1 5; 1 1 9
both 4 | 0 append_within 1 5 0 @2: crashed 1; 0 append_within 1 5 0: stored 26; 1 append_within 1 9 0 @never: stored | messages 0 1 5; 1 1 9
both 4 | 0 append_within 1 5 0 @3: crashed 2; 0 append_within 1 5 0: stored 26; 1 append_within 1 9 0 @never: stored | messages 0 1 5; 1 1 9
both 4 | 0 append_within 1 5 0 @4: crashed 3; 0 append_within 1 5 0: stored 26; 1 append_within 1 9 0 @never: stored | messages 0 1 5; 1 1 9
both 4 | 0 append_within 1 5 0 @5: crashed 4; 0 append_within 1 5 0: stored 25; 1 append_within 1 9 0 @never: stored | messages 0 1 5; 1 1 9
both 4 | 0 append_within 1 5 0 @6: crashed 5; 0 append_within 1 5 0: stored 25; 1 append_within 1 9 0 @never: stored | messages 0 1 5; 1 1 9
both 4 | 0 append_within 1 5 0 @7: crashed 6; 0 append_within 1 5 0: stored 23; 1 append_within 1 9 0 @never: stored | messages 0 1 5; 1 1 9
both 4 | 0 append_within 1 5 0 @8: crashed 7; 0 append_within 1 5 0: stored 22; 1 append_within 1 9 0 @never: stored | messages 0 1 5; 1 1 9
both 4 | 0 append_within 1 5 0 @9: crashed 8; 0 append_within 1 5 0: stored 22; 1 append_within 1 9 0 @never: stored | messages 0 1 5; 1 1 9
both 4 | 0 append_within 1 5 0 @10: crashed 9; 0 append_within 1 5 0: stored 22; 1 append_within 1 9 0 @never: stored | messages 0 1 5; 1 1 9
both 4 | 0 append_within 1 5 0 @11: crashed 10; 0 append_within 1 5 0: stored 21; 1 append_within 1 9 0 @never: stored | messages 0 1 5; 1 1 9
both 4 | 0 append_within 1 5 0 @12: crashed 11; 0 append_within 1 5 0: stored 21; 1 append_within 1 9 0 @never: stored | messages 0 1 5; 1 1 9
both 4 | 0 append_within 1 5 0 @13: crashed 12; 0 append_within 1 5 0: stored 21; 1 append_within 1 9 0 @never: stored | messages 0 1 5; 1 1 9
both 4 | 0 append_within 1 5 0 @14: crashed 13; 0 append_within 1 5 0: stored 21; 1 append_within 1 9 0 @never: stored | messages 0 1 5; 1 1 9
both 4 | 0 append_within 1 5 0 @15: crashed 14; 0 append_within 1 5 0: stored 21; 1 append_within 1 9 0 @never: stored | messages 0 1 5; 1 1 9
both 4 | 0 append_within 1 5 0 @16: crashed 15; 0 append_within 1 5 0: stored 21; 1 append_within 1 9 0 @never: stored | messages 0 1 5; 1 1 9
both 4 | 0 append_within 1 5 0 @17: crashed 16; 0 append_within 1 5 0: stored 21; 1 append_within 1 9 0 @never: stored | messages 0 1 5; 1 1 9
both 4 | 0 append_within 1 5 0 @18: crashed 17; 0 append_within 1 5 0: stored 21; 1 append_within 1 9 0 @never: stored | messages 0 1 5; 1 1 9
both 4 | 0 append_within 1 5 0 @19: crashed 18; 0 append_within 1 5 0: already 20; 1 append_within 1 9 0 @never: stored | messages 0 1 5; 1 1 9
both 4 | 0 append_within 1 5 0 @20: crashed 19; 0 append_within 1 5 0: already 20; 1 append_within 1 9 0 @never: stored | messages 0 1 5; 1 1 9
both 4 | 0 append_within 1 5 0 @21: crashed 20; 0 append_within 1 5 0: already 20; 1 append_within 1 9 0 @never: stored | messages 0 1 5; 1 1 9
both 4 | 0 append_within 1 5 0 @22: crashed 21; 0 append_within 1 5 0: already 20; 1 append_within 1 9 0 @never: stored | messages 0 1 5; 1 1 9
both 4 | 0 append_within 1 5 0 @23: crashed 22; 0 append_within 1 5 0: already 20; 1 append_within 1 9 0 @never: stored | messages 0 1 5; 1 1 9
both 4 | 0 append_within 1 5 0 @24: crashed 23; 0 append_within 1 5 0: already 20; 1 append_within 1 9 0 @never: stored | messages 0 1 5; 1 1 9
both 4 | 0 append_within 1 5 0 @25: crashed 24; 0 append_within 1 5 0: already 11; 1 append_within 1 9 0 @never: stored | messages 0 1 5; 1 1 9
both 4 | 0 append_within 1 5 0 @26: crashed 25; 0 append_within 1 5 0: already 17; 1 append_within 1 9 0 @never: stored | messages 0 1 5; 1 1 9
both 4 | 0 append_within 1 5 0 @27: crashed 26; 0 append_within 1 5 0: already 16; 1 append_within 1 9 0 @never: stored | messages 0 1 5; 1 1 9
# blocked_by_a_crash
both 4 | 0 append_within 1 5 0 @1: crashed; 1 lock_within 0: clean | anything
both 4 | 0 append_within 1 5 0 @2: crashed; 1 lock_within 0: clean | anything
both 4 | 0 append_within 1 5 0 @3: crashed; 1 lock_within 0: clean | anything
both 4 | 0 append_within 1 5 0 @4: crashed; 1 lock_within 0: clean | anything
both 4 | 0 append_within 1 5 0 @5: crashed; 1 lock_within 0: not-yet 8 | anything
both 4 | 0 append_within 1 5 0 @6: crashed; 1 lock_within 0: not-yet 8 | anything
both 4 | 0 append_within 1 5 0 @7: crashed; 1 lock_within 0: not-yet 8 | anything
both 4 | 0 append_within 1 5 0 @8: crashed; 1 lock_within 0: not-yet 9 | anything
both 4 | 0 append_within 1 5 0 @9: crashed; 1 lock_within 0: not-yet 9 | anything
both 4 | 0 append_within 1 5 0 @10: crashed; 1 lock_within 0: not-yet 9 | anything
both 4 | 0 append_within 1 5 0 @11: crashed; 1 lock_within 0: not-yet 9 | anything
both 4 | 0 append_within 1 5 0 @12: crashed; 1 lock_within 0: not-yet 9 | anything
both 4 | 0 append_within 1 5 0 @13: crashed; 1 lock_within 0: not-yet 9 | anything
both 4 | 0 append_within 1 5 0 @14: crashed; 1 lock_within 0: not-yet 9 | anything
both 4 | 0 append_within 1 5 0 @15: crashed; 1 lock_within 0: not-yet 9 | anything
both 4 | 0 append_within 1 5 0 @16: crashed; 1 lock_within 0: not-yet 9 | anything
both 4 | 0 append_within 1 5 0 @17: crashed; 1 lock_within 0: not-yet 9 | anything
both 4 | 0 append_within 1 5 0 @18: crashed; 1 lock_within 0: not-yet 9 | anything
both 4 | 0 append_within 1 5 0 @19: crashed; 1 lock_within 0: not-yet 9 | anything
both 4 | 0 append_within 1 5 0 @20: crashed; 1 lock_within 0: not-yet 9 | anything
both 4 | 0 append_within 1 5 0 @21: crashed; 1 lock_within 0: not-yet 9 | anything
both 4 | 0 append_within 1 5 0 @22: crashed; 1 lock_within 0: not-yet 9 | anything
both 4 | 0 append_within 1 5 0 @23: crashed; 1 lock_within 0: not-yet 9 | anything
both 4 | 0 append_within 1 5 0 @24: crashed; 1 lock_within 0: not-yet 9 | anything
both 4 | 0 append_within 1 5 0 @25: crashed; 1 lock_within 0: not-yet 9 | anything
both 4 | 0 append_within 1 5 0 @26: crashed; 1 lock_within 0: clean | anything
both 4 | 0 append_within 1 5 0 @27: crashed; 1 lock_within 0: clean | anything";

/// Plays a row. It answers the first call that comes to something else, or else what it should have left.
fn wrong_row<'r, R: Abort + Wait>(rt: &R, alloc: Global, row: &'r str) -> Option<&'r str> {
    let mut left = row;
    let mut locks = cut(&mut left, " | ");
    let rows = cut(&mut left, " | ");
    let is_both = cut(&mut locks, " ") == "both";
    let cap = number(&mut locks);
    let played = Played { cap, rows, left };
    if is_both {
        wrong_on_both(rt, alloc, played)
    } else {
        wrong_on_either_path(rt, alloc, played)
    }
}

#[test]
fn each_row_holds(rt: HostRuntime) {
    for row in ROWS.split('\n') {
        if !row.starts_with("# ") {
            let wrong = wrong_row(&rt, rt.alloc(), row);
            assert!(&rt; wrong.is_none(), "{wrong:?} in {row}");
        }
    }
}

/// Plays rows of a member of an arena of its own, which then closes the mailbox.
fn wrong_alone<M: Tested, C: CrashPlan, R: Wait>(
    rt: &R,
    one: &mut M,
    plan: &mut Counted<C>,
) -> Option<&'static str> {
    let rows = "lock_within 0 @1: crashed 0; recover: idle 3 4; lock_within 0 @9: crashed 8 9; \
         unlock: not-owner 8 0; lock_within 0: owner-died 4 5; consistent: nothing-to-mend 2 3; \
         unlock: unlocked 2 3; lock: clean 8 9; unlock: unlocked 2 3";
    let wrong = first_wrong(rt, one, plan, rows);
    if wrong.is_some() {
        return wrong;
    }
    let is_closed = one.close_at_last(rt, plan) == Ok(Reply::ClosedNow);
    if is_closed && one.own_steps() == 12 && plan.taken() == 13 {
        None
    } else {
        Some("close")
    }
}

fn wrong_alone_on_plain<L: Ledger, R: Wait>(
    rt: &R,
    alloc: Global,
    blank: Blank,
) -> Option<&'static str>
    requires name { blank.name ≡ L.name }
    requires parts { blank.parts ≡ L.parts }
    requires one { blank.parts ≡ 1 }
{
    let Ok(mut all) = one_lock::Arena::new::<L, R>(rt, alloc, 1, 10, 1, 1, blank) else {
        return Some("no arena");
    };
    match all.pop() {
        Some(mut one) => wrong_alone(rt, &mut one, &mut never()),
        None => Some("no member"),
    }
}

fn wrong_alone_on_running<C: CrashPlan, R: Wait>(
    rt: &R,
    alloc: Global,
    plan: &mut Counted<C>,
) -> Option<&'static str> {
    let Ok(mut all) = robust::Arena::new(rt, alloc, 1, 10, 1, 1) else {
        return Some("no arena");
    };
    match all.pop() {
        Some(mut one) => wrong_alone(rt, &mut one, plan),
        None => Some("no member"),
    }
}

#[test]
fn crashes_at_askings(rt: HostRuntime) {
    let wrong = wrong_alone_on_plain::<Brand, _>(&rt, rt.alloc(), Blank::new(1))
        .or(wrong_alone_on_running(&rt, rt.alloc(), &mut never()))
        .or(wrong_alone_on_running(&rt, rt.alloc(), &mut stepwise()));
    assert!(&rt; wrong.is_none(), "{wrong:?}");
}

/// Sizes of an arena, its number of processes, limit, capacity and width, and the number of the refusal, or `made`.
const SIZES: &str = "\
0 0 0 0: 1
65 1 1 1: 1
64 0 0 1: 2
1 1 65537 9: 8
1 1 1 9: 15
64 4611686018427387904 2 8: made";

/// Whether an arena of these sizes is refused, or made, as the row says.
fn is_refused<R: Abort>(rt: &R, alloc: Global, row: &str) -> bool {
    let mut wanted = row;
    let mut sizes = cut(&mut wanted, ": ");
    let (procs, limit) = (number(&mut sizes), number(&mut sizes));
    let (cap, width) = (number(&mut sizes), number(&mut sizes));
    match robust::Arena::new(rt, alloc, procs, limit, cap, width).err() {
        Some(refusal) => refusal.number() == wanted.parse::<u64>().ok(),
        None => wanted == "made",
    }
}

#[test]
fn sizes_outside_the_limits(rt: HostRuntime) {
    for row in SIZES.split('\n') {
        assert!(&rt; is_refused(&rt, rt.alloc(), row), "{row}");
    }
}
