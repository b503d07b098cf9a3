//! A plan is asked right before each step, and right before each load of another process's word: what another member finds
//! or does at an asking.

use crate::support::counted::never;
use crate::support::rows::{call_of, first_wrong_of_two, is_named};
use crate::support::running::two;
use crate::support::tested::{MemberCall, Tested};
use crate::support::text::{number, place};
use crash_plans::{At, CrashPlan, Never};
use robust::Member;
use std::alloc::Global;
use std::process::Abort;
use std::sync::Wait;
use test_support::text::cut;

/// What the other member does.
#[derive(Clone, Copy)]
enum Act {
    /// Tries the lock, until it has entered and left once.
    Enter,
    /// Reads the mailbox, until it shows a message.
    Read,
    /// Takes a number, at the asking with this number.
    Lock(u64),
    /// Crashes with its doorway open, at this asking.
    Crash(u64),
    /// Gives its number back, at this asking.
    Unlock(u64),
}

/// The act of these words, as in `lock 5`.
fn act_of(words: &str) -> Option<Act> {
    let mut rest = words;
    match place("enter|read|lock|crash|unlock", cut(&mut rest, " "))? {
        0 => Some(Act::Enter),
        1 => Some(Act::Read),
        2 => Some(Act::Lock(number(&mut rest))),
        3 => Some(Act::Crash(number(&mut rest))),
        _ => Some(Act::Unlock(number(&mut rest))),
    }
}

/// A plan at whose askings another member acts.
#[derive(Drop)]
struct Beside {
    plan: At,
    other: Member,
    alloc: Global,
    act: Act,
    askings: u64,
    /// The asking at which it was done; 0 before that.
    done: u64,
}

/// Acts at this asking. True: it is done.
fn acts(other: &mut Member, alloc: Global, act: Act, asking: u64) -> bool {
    let mut plan = Never::new();
    match act {
        Act::Enter => { other.lock_within(&mut plan, 0).is_ok() && other.unlock(&mut plan).is_ok() }
        Act::Read => match other.read_from(alloc, 0) {
            Ok(messages) => messages.len() == 1,
            Err(_) => false,
        },
        Act::Lock(at) => at == asking && other.lock_within(&mut plan, 0).is_ok(),
        Act::Crash(at) => at == asking && other.lock_within(&mut At::new(5), 0).is_ok(),
        Act::Unlock(at) => at == asking && other.unlock(&mut plan).is_ok(),
    }
}

impl CrashPlan for Beside {
    ghost askings = { λ b. b.plan.askings };

    fn falls(&mut self) -> bool {
        self.askings = self.askings.saturating_add(1);
        if self.done == 0 && acts(&mut self.other, self.alloc, self.act, self.askings) {
            self.done = self.askings;
        }
        self.plan.falls()
    }
}

/// Whether the call has this answer, and the other was done at this asking, of this number of askings, if there are any.
fn is_answered<R: Wait>(
    rt: &R,
    one: &mut Member,
    plan: &mut Beside,
    call: MemberCall,
    (answer, counts): (&str, &str),
) -> bool {
    let mut rest = counts;
    is_named(one.call(rt, call, plan), answer)
        && (rest.is_empty() || number(&mut rest) == plan.done && number(&mut rest) == plan.askings)
}

/// A row of calls before, of the asking at which the plan falls, 0 for none, of what the other member does, and of a call and its
/// answer. Then there may be the asking at which the other was done, and the number of askings.
fn is_met<R: Abort + Wait>(rt: &R, alloc: Global, row: &str) -> bool {
    let mut rest = row;
    let before = cut(&mut rest, " | ");
    let falls_at = number(&mut cut(&mut rest, " | "));
    let (act, call) = (
        act_of(cut(&mut rest, " | ")),
        call_of(cut(&mut rest, " | ")),
    );
    let (Some(act), Some(call)) = (act, call) else {
        return false;
    };
    let answer = cut(&mut rest, " | ");
    let (mut one, mut other) = two(rt, alloc, 10, 1);
    let wrong = first_wrong_of_two(rt, &mut one, &mut other, &mut never(), before);
    let mut plan = Beside {
        plan: At::new(falls_at),
        other,
        alloc,
        act,
        askings: 0,
        done: 0,
    };
    wrong.is_none() && is_answered(rt, &mut one, &mut plan, call, (answer, rest))
}

/// A lock's fifth step loads the other's number, to take the next one; the eighth whether its doorway is open, and the ninth its
/// number again. What is done at a later asking is not found any more.
const ROWS: &str = "\
# asked_before_each_step_of_an_unlock
0 lock_within 0: clean | 0 | enter | unlock | unlocked | 2 3
# asked before each step of an append: the asking at which its message is shown
 | 0 | read | append_within 1 5 0 | stored | 24 27
 | 24 | read | append_within 1 5 0 | crashed | 24 24
 | 23 | read | append_within 1 5 0 | crashed | 0 23
# asked before each load of a lock
 | 0 | lock 1 | lock_within 0 | not-yet
 | 0 | crash 1 | lock_within 0 | not-yet
1 lock_within 0: clean | 0 | unlock 1 | lock_within 0 | clean
 | 0 | lock 2 | lock_within 0 | not-yet
 | 0 | crash 2 | lock_within 0 | not-yet
1 lock_within 0: clean | 0 | unlock 2 | lock_within 0 | clean
 | 0 | lock 3 | lock_within 0 | not-yet
 | 0 | crash 3 | lock_within 0 | not-yet
1 lock_within 0: clean | 0 | unlock 3 | lock_within 0 | clean
 | 0 | lock 4 | lock_within 0 | not-yet
 | 0 | crash 4 | lock_within 0 | not-yet
1 lock_within 0: clean | 0 | unlock 4 | lock_within 0 | clean
 | 0 | lock 5 | lock_within 0 | not-yet
 | 0 | crash 5 | lock_within 0 | not-yet
1 lock_within 0: clean | 0 | unlock 5 | lock_within 0 | clean
 | 0 | lock 6 | lock_within 0 | clean
 | 0 | crash 6 | lock_within 0 | not-yet
1 lock_within 0: clean | 0 | unlock 6 | lock_within 0 | clean
 | 0 | lock 7 | lock_within 0 | clean
 | 0 | crash 7 | lock_within 0 | not-yet
1 lock_within 0: clean | 0 | unlock 7 | lock_within 0 | clean
 | 0 | lock 8 | lock_within 0 | clean
 | 0 | crash 8 | lock_within 0 | not-yet
1 lock_within 0: clean | 0 | unlock 8 | lock_within 0 | clean
 | 0 | lock 9 | lock_within 0 | clean
 | 0 | crash 9 | lock_within 0 | clean
1 lock_within 0: clean | 0 | unlock 9 | lock_within 0 | clean
 | 0 | lock 10 | lock_within 0 | clean
 | 0 | crash 10 | lock_within 0 | clean
1 lock_within 0: clean | 0 | unlock 10 | lock_within 0 | not-yet";

#[test]
fn each_row_holds(rt: HostRuntime) {
    for row in ROWS.split('\n') {
        assert!(&rt;
            row.starts_with("# ") || is_met(&rt, rt.alloc(), row),
            "{row}"
        );
    }
}
