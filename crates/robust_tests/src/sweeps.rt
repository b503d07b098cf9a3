//! A call that is cut off at each of its askings in turn.

use crate::both::{Played, wrong_on_plain, wrong_on_running};
use crate::support::counted::{Counted, at};
use crate::support::messages::{are, body};
use crate::support::running::two;
use crash_plans::Both;
use redomail::Reply;
use robust::LockFault;
use std::alloc::Global;
use std::marker::Brand;
use std::process::Abort;
use std::sync::Wait;
use std::sync::ledger::Blank;

/// What the mailbox shows once both members have appended.
const BOTH_STAND: &str = "messages 0 1 5; 1 1 9";

/// The steps of a second append after one that crashed at asking 1, 2 and so on.
const STEPS: [u64; 27] = [
    26, 26, 26, 26, 25, 25, 23, 22, 22, 22, 21, 21, 21, 21, 21, 21, 21, 21, 20, 20, 20, 20, 20, 20,
    11, 17, 16,
];

/// Plays the rows on both locks, where the plan falls at these two askings. It answers the first that comes to something else.
fn wrong_at<R: Abort + Wait>(rt: &R, alloc: Global, k: u64, m: u64) -> Option<&'static str> {
    let played = Played {
        cap: 4,
        rows: "0 append_within 1 5 0: crashed; 0 append_within 1 5 0: crashed; \
               0 append_within 1 5 0: stored-or-already; 1 append_within 1 9 0 @never: stored",
        left: BOTH_STAND,
    };
    let mut plan = Counted::new(Both::new(k, m));
    let on_running = wrong_on_running(rt, alloc, &mut plan, played);
    let mut plan = Counted::new(Both::new(k, m));
    let on_plain = wrong_on_plain::<Brand, _, _>(rt, alloc, &mut plan, played, Blank::new(2));
    on_running.or(on_plain)
}

#[test]
fn crash_pairs(rt: HostRuntime) {
    let mut k = 0u64;
    for steps in STEPS {
        k = k.saturating_add(1);
        for m in 1..steps.saturating_add(2) {
            let wrong = wrong_at(&rt, rt.alloc(), k, m);
            assert!(&rt; wrong.is_none(), "{wrong:?} at {k} and {m}");
        }
    }
}

/// The answer of an append of member 0 that crashes at asking k. Member 1 then reads just these messages.
fn read_after<R: Abort>(rt: &R, alloc: Global, k: u64, shown: &str) -> Result<Reply, LockFault> {
    let (mut one, mut other) = two(rt, alloc, 10, 4);
    let answer = one.append_within(1, body(5), &mut at(k), 0);
    let Ok(messages) = other.read_from(alloc, 0) else {
        panic!(rt; "nothing read at {k}")
    };
    assert!(rt; are(messages.as_slice(), shown), "at {k}");
    answer
}

#[test]
fn late_reader(rt: HostRuntime) {
    for k in 1..29 {
        let wanted = if k < 28 {
            Err(LockFault::Crashed)
        } else {
            Ok(Reply::Stored)
        };
        let shown = if k < 24 { "" } else { "0 1 5" };
        assert!(&rt; read_after(&rt, rt.alloc(), k, shown) == wanted, "at {k}");
    }
}
