//! The items of `robust`: the running lock.

ghost use Rattle.table_runs.specs.GatheredRuns.{OneArena};

use crashlab::CrashPlan;
use redomail::{Layout, Message, Reply};
use rmecore::{Body, Found, Refusal};
use rmeworld::Image;
use robust::{
    Arena, Entry, Gate, GatherFault, LabFault, LabResult, LockFault, Member, Setup, Spec, gather,
    run_lab,
};
use std::alloc::{AllocError, Global};
use std::sync::Wait;
use std::thread::Threads;

pub fn new_members<R>(
    rt: &R,
    alloc: Global,
    procs: u64,
    limit: u64,
    cap: u64,
    width: u64,
) -> Result<Vec<Member>, Refusal> {
    Arena::new(rt, alloc, procs, limit, cap, width)
}

pub fn enter_and_leave<P: CrashPlan>(
    member: &mut Member,
    plan: &mut P,
    turns: u64,
) -> (
    Result<Entry, LockFault>,
    Result<Found, LockFault>,
    Result<bool, LockFault>,
    Result<(), LockFault>,
    Result<(), LockFault>,
) {
    (
        member.lock_within(plan, turns),
        member.recover(plan),
        member.consistent(plan),
        member.unlock(plan),
        member.withdraw(plan),
    )
}

pub fn board_and_mail<P: CrashPlan>(
    member: &mut Member,
    plan: &mut P,
    (i, v): (u64, u64),
    (seq, value): (u64, Body),
    turns: u64,
) -> (
    Result<u64, LockFault>,
    Result<(), LockFault>,
    Result<Reply, LockFault>,
    Result<Reply, LockFault>,
) {
    (
        member.get(i, plan),
        member.put(i, v, plan),
        member.append_within(seq, value, plan, turns),
        member.close_within(plan, turns),
    )
}

pub fn read_from(
    alloc: Global,
    member: &mut Member,
    place: u64,
) -> (Result<Vec<Message>, AllocError>, u64, u64) {
    (
        member.read_from(alloc, place),
        member.steps(),
        member.number(),
    )
}

pub fn wait<R: Wait, P: CrashPlan>(
    rt: &R,
    member: &mut Member,
    plan: &mut P,
    seq: u64,
    value: Body,
) -> (
    Result<Entry, LockFault>,
    Result<Reply, LockFault>,
    Result<Reply, LockFault>,
) {
    (
        member.lock(rt, plan),
        member.append(rt, seq, value, plan),
        member.close(rt, plan),
    )
}

pub fn gathered(alloc: Global, members: Vec<Member>) -> Result<Image, (Vec<Member>, GatherFault)>
    requires { OneArena members.items }
{
    gather(alloc, members)
}

/// A gate gets the answers of a worker's calls.
pub fn run<G: Gate + Send + Drop, R: Threads + Wait + Sync>(
    rt: &R,
    alloc: Global,
    spec: Spec,
    gates: Vec<G>,
    gate: &mut G,
    call: u64,
) -> Result<LabResult, LabFault> {
    gate.answered(call);
    run_lab(rt, alloc, spec, gates)
}

pub fn fields(
    spec: Spec,
    setup: Setup,
    lab: LabResult,
) -> ((u64, u64, u64, u64, u64), (Layout, u64), Vec<Message>) {
    let Spec {
        procs,
        messages,
        limit: limit_of_lab,
        cap,
        width,
    } = spec;
    let Setup { layout, limit } = setup;
    (
        (procs, messages, limit_of_lab, cap, width),
        (layout, limit),
        lab.messages,
    )
}

/// The entries and faults of `robust` are those of `table_runs`.
pub fn of_execution(
    entry: table_runs::Entry,
    fault: table_runs::LockFault,
    setup: table_runs::Setup,
) -> (Entry, LockFault, Setup) {
    (entry, fault, setup)
}

/// The faults of a member have the numbers that docs/use/errors.md has.
pub fn in_variants(
    entry: Entry,
    gathered: GatherFault,
    lab: LabFault,
    fault: LockFault,
) -> (bool, bool, Option<u64>, u64) {
    let is_clean = match entry {
        Entry::Clean => true,
        Entry::OwnerDied => false,
    };
    let lacks_members = match gathered {
        GatherFault::NotAll => true,
        GatherFault::OutOfMemory => false,
    };
    let worker = match lab {
        LabFault::Member { p, fault: _ } | LabFault::Reply { p, reply: _ } => Some(p),
        LabFault::BadSpec | LabFault::OutOfMemory => None,
    };
    let number = match fault {
        LockFault::Crashed => 1,
        LockFault::NotYet => 2,
        LockFault::NumbersSpent => 3,
        LockFault::NotRecoverable => 4,
        LockFault::AlreadyIn => 5,
        LockFault::NotOwner => 6,
        LockFault::NotInconsistent => 7,
        LockFault::BadIndex => 8,
        LockFault::OutOfMemory => 9,
        LockFault::BadWidth => 10,
    };
    (is_clean, lacks_members, worker, number)
}
