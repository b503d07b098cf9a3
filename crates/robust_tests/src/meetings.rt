//! Two members on two threads, at the same time.

ghost use Rattle.std.specs.Prelude.{◌≡◌};
ghost use Rattle.std.specs.Thread.{IsSend, IsSync};

use crate::support::gated::{Gated, meeting};
use crate::support::messages::body;
use crate::support::tested::{MemberCall, Tested};
use crate::support::{plain, running};
use crash_plans::{CrashPlan, Never};
use redomail::Reply;
use rmeworld::Answer;
use robust::Member;
use std::alloc::Global;
use std::marker::Brand;
use std::process::Abort;
use std::sync::Wait;
use std::sync::ledger::{Blank, Ledger};
use std::thread;
use std::thread::Threads;

/// An append. It answers its member, and whether the message was stored.
fn appends<M: Tested, P: CrashPlan + Drop, R: Wait>(
    rt: &R,
    mut member: M,
    mut plan: P,
    word: u64,
) -> (M, bool) {
    let call = MemberCall::Append {
        seq: 1,
        word,
        turns: None,
    };
    let reports = member.call(rt, call, &mut plan);
    (member, reports == Ok(Answer::Mail(Reply::Stored)))
}

/// Whether a close, or a lock, is answered as it has to be.
fn enters<M: Tested, R: Wait>(rt: &R, mut member: M, mut plan: Gated, closes: bool) -> bool {
    if closes {
        member.close_at_last(rt, &mut plan) == Ok(Reply::ClosedNow)
    } else {
        member.call(rt, MemberCall::Lock(None), &mut plan) == Ok(Answer::Clean)
    }
}

/// The second member closes, or locks, beside an append of the first.
fn meets_an_append<M: Tested + Send, R: Abort + Threads + Wait + Sync>(
    rt: &R,
    alloc: Global,
    members: (M, M),
    closes: bool,
) {
    let (one, other) = members;
    let Ok((first, second, zero, late)) = meeting(alloc, 20) else {
        panic!(rt; "no gates")
    };
    let (appended, entered) = thread::join(
        rt,
        move || -> bool
            requires { IsSend M.row × IsSync R.row }
        { appends(rt, one, first, 1).1 },
        move || -> bool
            requires { IsSend M.row × IsSync R.row }
        { enters(rt, other, second, closes) },
    );
    assert!(rt; appended && entered);
    assert!(rt; !zero.has_given_up() && !late.has_given_up());
}

fn meets_on_plain<L: Ledger + Send + Sync, R: Abort + Threads + Wait + Sync>(
    rt: &R,
    alloc: Global,
    closes: bool,
    blank: Blank,
)
    requires name { blank.name ≡ L.name }
    requires parts { blank.parts ≡ L.parts }
    requires both { blank.parts ≡ 2 }
{
    meets_an_append(rt, alloc, plain::two::<L>(rt, alloc, 10, 2, blank), closes);
}

#[test]
fn a_lock_and_a_close_at_once_with_an_append(rt: HostRuntime) {
    for closes in [false, true] {
        let members = running::two(&rt, rt.alloc(), 10, 2);
        meets_an_append(&rt, rt.alloc(), members, closes);
        meets_on_plain::<Brand, _>(&rt, rt.alloc(), closes, Blank::new(2));
    }
}

/// Both members append, and both messages are stored. It answers the first member.
fn both_append<M: Tested + Send, R: Abort + Threads + Wait + Sync>(rt: &R, members: (M, M)) -> M {
    let (one, other) = members;
    let (first, second) = thread::join(
        rt,
        move || -> (M, bool)
            requires { IsSend M.row × IsSync R.row }
        { appends(rt, one, Never::new(), 5) },
        move || -> (M, bool)
            requires { IsSend M.row × IsSync R.row }
        { appends(rt, other, Never::new(), 9) },
    );
    assert!(rt; first.1 && second.1);
    first.0
}

fn both_append_on_plain<L: Ledger + Send + Sync, R: Abort + Threads + Wait + Sync>(
    rt: &R,
    alloc: Global,
    blank: Blank,
)
    requires name { blank.name ≡ L.name }
    requires parts { blank.parts ≡ L.parts }
    requires both { blank.parts ≡ 2 }
{
    both_append(rt, plain::two::<L>(rt, alloc, 10, 4, blank));
}

/// Whether the member reads its message alone, or both, and nothing past them.
fn reads_its_own(alloc: Global, mut reader: Member) -> bool {
    let (Ok(messages), Ok(past)) = (reader.read_from(alloc, 0), reader.read_from(alloc, 5)) else {
        return false;
    };
    let is_there = messages
        .iter()
        .any(|m| m.sender == 0 && m.seq == 1 && m.value == body(5));
    is_there && messages.len() <= 2 && past.is_empty()
}

#[test]
fn freshness(rt: HostRuntime) {
    both_append_on_plain::<Brand, _>(&rt, rt.alloc(), Blank::new(2));
    let reader = both_append(&rt, running::two(&rt, rt.alloc(), 10, 4));
    assert!(&rt; reads_its_own(rt.alloc(), reader));
}
