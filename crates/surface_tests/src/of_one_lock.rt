//! The items of `robust::one_lock`: the plain reference. `Arena::new` and `gather` take `rt`, as those of the running lock.

ghost use Rattle.std.specs.Prelude.{◌≡◌, All};

use crashlab::CrashPlan;
use redomail::Reply;
use rmecore::{Body, Found, Refusal};
use rmeworld::Image;
use robust::one_lock::{Arena, GatherFault, Member, Sizes, gather, lab};
use robust::{Entry, Gate, LabFault, LabResult, LockFault, Spec};
use std::alloc::Global;
use std::sync::Wait;
use std::sync::ledger::{Blank, Ledger};
use std::thread::Threads;

pub fn new_members<L: Ledger, R>(
    rt: &R,
    alloc: Global,
    procs: u64,
    limit: u64,
    cap: u64,
    width: u64,
    blank: Blank,
) -> Result<Vec<Member<L>>, Refusal>
    requires name { blank.name ≡ L.name }
    requires parts { blank.parts ≡ L.parts }
    requires each { blank.parts ≡ procs }
{
    Arena::new(rt, alloc, procs, limit, cap, width, blank)
}

pub fn enter_and_leave<L: Ledger, R: Wait, P: CrashPlan>(
    member: &mut Member<L>,
    rt: &R,
    plan: &mut P,
    turns: u64,
) -> (
    Result<Entry, LockFault>,
    Result<Found, LockFault>,
    Result<bool, LockFault>,
    Result<(), LockFault>,
) {
    (
        member.lock_within(rt, plan, turns),
        member.recover(rt, plan),
        member.consistent(rt, plan),
        member.unlock(rt, plan),
    )
}

pub fn wait<L: Ledger, R: Wait, P: CrashPlan>(
    member: &mut Member<L>,
    rt: &R,
    plan: &mut P,
    seq: u64,
    value: Body,
) -> (
    Result<Entry, LockFault>,
    Result<Reply, LockFault>,
    Result<Reply, LockFault>,
    u64,
) {
    (
        member.lock(rt, plan),
        member.append(rt, seq, value, plan),
        member.close(rt, plan),
        member.steps(),
    )
}

pub fn board_and_mail<L: Ledger, R: Wait, P: CrashPlan>(
    member: &mut Member<L>,
    rt: &R,
    plan: &mut P,
    (i, v): (u64, u64),
    (seq, value): (u64, Body),
    turns: u64,
) -> (
    Result<u64, LockFault>,
    Result<(), LockFault>,
    Result<Reply, LockFault>,
    Result<Reply, LockFault>,
) {
    (
        member.get(rt, i, plan),
        member.put(rt, i, v, plan),
        member.append_within(rt, seq, value, plan, turns),
        member.close_within(rt, plan, turns),
    )
}

pub fn gathered<L: Ledger, S: Sizes, R: Wait>(
    rt: &R,
    members: Vec<Member<L, S>>,
) -> Result<Image, (Vec<Member<L, S>>, GatherFault)>
    requires { All (λ m. m.layout.procs ≡ L.parts) members.items }
{
    gather(rt, members)
}

pub fn run<G: Gate + Send + Drop, R: Threads + Wait + Sync>(
    rt: &R,
    alloc: Global,
    spec: Spec,
    gates: Vec<G>,
) -> Result<LabResult, LabFault> {
    lab::run_lab(rt, alloc, spec, gates)
}
