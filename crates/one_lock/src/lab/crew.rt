//! The workers of the lab over the plain reference.

ghost use Rattle.std.specs.Prelude.{◌≡◌, ◌≢◌, ◌≤◌, ◌⊎◌, ◌↔◌, Some, All, IsNone, IsTrue, IfOk, IfErr, OnOk, IfSome, false, length, map, vec_len};
ghost use Rattle.std.specs.Thread.{IsSend, IsSync};
ghost use Rattle.rmeworld.specs.declared.call.Call.TheVariants.{Append};
ghost use Rattle.table_runs.specs.declared.lab.spec.Spec.{Spec as SpecOf};
ghost use Rattle.one_lock.specs.Answers.{IsReply};
ghost use Rattle.one_lock.specs.LabEndings.{HaveAllSent, WantedMemory, IsOfLeast, MayEnd};
ghost use Rattle.one_lock.specs.Member.{is_in};
ghost use Rattle.one_lock.specs.Shown.{CanSend, place_of};

use crate::lab::{Gate, LabFault, Spec, WorkerEnd};
use crate::member::Member;
use crate::sizes::Sizes;
use redomail::Reply;
use rmecore::Body;
use std::alloc::{AllocError, Global};
use std::snapshot::Snapshot;
use std::sync::Wait;
use std::sync::ledger::Ledger;
use std::thread;
use std::thread::{Promise, PromisedHandle, Scope, Threads};
use table_runs::LockFault;
use table_runs::lab::sent_messages::{is_crash, is_sent, value_sent};

/// A worker that has ended, with the member that it was given.
#[derive(Drop)]
pub struct Done<L: Ledger, S: Sizes> {
    pub member: Member<L, S>,
    pub ending: WorkerEnd,
}

/// The promise of a worker's thread: it hands back the member that it was given, and has ended in one of a worker's ways.
#[derive(Drop)]
pub struct HandsBack<L: Ledger, S: Sizes>(pub Snapshot<Member<L, S>>, pub Spec);

impl<L: Ledger, S: Sizes> Promise<Done<L, S>> for HandsBack<L, S> {
    ghost use Rattle.std.specs.Prelude.{◌≡◌};
    ghost use Rattle.one_lock.specs.LabEndings.{MayEnd};
    ghost use Rattle.one_lock.specs.Shown.{place_of};

    ghost kept_by = { λ promise done. (place_of done.member ≡ place_of promise.0.value)
        × MayEnd S.named promise.1 done.member.process done.ending };
}

/// Sends the messages of a worker, numbered from 1, each again until it is answered. Each answer is reported to the gate.
fn work<L: Ledger, S: Sizes, G: Gate + Drop, R: Wait>(
    rt: &R,
    mut member: Member<L, S>,
    mut gate: G,
    spec: Spec,
) -> Done<L, S>
    requires most { spec.messages ≤ 4096 }
    requires least { 1 ≤ spec.width }
    requires wide { spec.width ≤ 8 }
    requires ready { CanSend spec.width member }
    ensures place { place_of result.member ≡ place_of member }
    ensures ends { MayEnd S.named spec result.member.process result.ending }
{
    let p = member.process();
    for seq in 1..spec.messages + 1 {
        let value = value_sent(p, seq, spec.width);
        match send(rt, &mut member, &mut gate, seq, value) {
            Ok(reply) => {
                if !is_sent(reply) {
                    let ending = WorkerEnd::Refused(reply);
                    return Done { member, ending };
                }
            }
            Err(fault) => {
                let ending = WorkerEnd::Fault(fault);
                return Done { member, ending };
            }
        }
    }
    let ending = WorkerEnd::AllSent;
    Done { member, ending }
}

/// Sends one message until it is answered. Then the answer is reported to the gate.
#[tactic(auto, using(crate::proofs::Endings::ended_by))]
fn send<L: Ledger, S: Sizes, G: Gate, R: Wait>(
    rt: &R,
    member: &mut Member<L, S>,
    gate: &mut G,
    seq: u64,
    value: Body,
) -> Result<Reply, LockFault>
    requires { CanSend (length value) member.old }
    ensures place { place_of member.new ≡ place_of member.old }
    ensures ready { is_in member.new.standing ≡ false }
    ensures fact { OnOk result ((asking : G) × G.heard asking seq gate.new) }
    ensures answered { IfOk result (λ reply. IsReply S.named member.old.process (Append seq value) reply) }
    ensures ends { IfErr result (λ purpose. (s : SpecOf) → MayEnd S.named s member.new.process (WorkerEnd.Fault purpose)) }
{
    for _ in rt.forever() {
        match member.append(rt, seq, value, gate) {
            Ok(reply) => {
                gate.answered(seq);
                return Ok(reply);
            }
            Err(fault) => {
                if !is_crash(fault) {
                    return Err(fault);
                }
            }
        }
    }
    unreachable!()
}

/// Runs all workers, each in a thread of its own, and answers them once all have ended. If a thread can't be made, it too
/// returns once those that run have ended. `AllocError`: memory or a thread was refused.
pub fn work_all<
    L: Ledger + Send + Sync,
    S: Sizes + Send + Sync,
    G: Gate + Send + Drop,
    R: Threads + Wait + Sync,
>(
    rt: &R,
    alloc: Global,
    spec: Spec,
    members: Vec<Member<L, S>>,
    gates: Vec<G>,
) -> Result<Vec<Done<L, S>>, AllocError>
    requires gates { vec_len gates ≡ vec_len members }
    requires messages { spec.messages ≤ 4096 }
    requires width { (1 ≤ spec.width) × (spec.width ≤ 8) }
    requires ready { All (CanSend spec.width) members.items }
    ensures places { IfOk result (λ all. map (λ d. place_of d.member) all.items ≡ map place_of members.items) }
    ensures ends { IfOk result (λ all. All (λ d. MayEnd S.named spec d.member.process d.ending) all.items) }
{
    thread::scope(
        thread::scope_env(),
        rt,
        |scope| -> Result<Vec<Done<L, S>>, AllocError>
            requires { IsSend G.row × IsSync R.row × (vec_len gates ≡ vec_len members) × (spec.messages ≤ 4096)
                × (1 ≤ spec.width) × (spec.width ≤ 8) × All (CanSend spec.width) members.items }
            ensures { IfOk result (λ all. (map (λ d. place_of d.member) all.items ≡ map place_of members.items)
                × All (λ d. MayEnd S.named spec d.member.process d.ending) all.items) }
        {
            let threads = start_all(scope, rt, alloc, spec, members, gates)?;
            join_all(rt, alloc, threads)
        },
    )
}

/// A thread of the scope for each worker, by process.
fn start_all<
    's,
    E: 's,
    L: Ledger + Send + Sync + 's,
    S: Sizes + Send + Sync + 's,
    G: Gate + Send + Drop + 's,
    R: Wait + Sync,
>(
    scope: &Scope<'s, E>,
    rt: &'s R,
    alloc: Global,
    spec: Spec,
    members: Vec<Member<L, S>>,
    gates: Vec<G>,
) -> Result<Vec<PromisedHandle<Done<L, S>, HandsBack<L, S>>>, AllocError>
    requires gates { vec_len gates ≡ vec_len members }
    requires messages { spec.messages ≤ 4096 }
    requires width { (1 ≤ spec.width) × (spec.width ≤ 8) }
    requires ready { All (CanSend spec.width) members.items }
    ensures places { IfOk result (λ threads. map (λ h. place_of h.promise.0.value) threads.items ≡ map place_of members.items) }
    ensures spec { IfOk result (λ threads. All (λ h. h.promise.1 ≡ spec) threads.items) }
{
    let mut threads = Vec::new(alloc);
    let mut gates = gates.into_iter();
    for member in members {
        let Some(gate) = gates.next() else {
            unreachable!()
        };
        let promise = HandsBack(Snapshot::of(&member), spec);
        let job = move || -> Done<L, S>
            requires { IsSend G.row × IsSync R.row × (spec.messages ≤ 4096) × (1 ≤ spec.width) × (spec.width ≤ 8)
                × CanSend spec.width member }
        { work(rt, member, gate, spec) };
        let Ok(thread) = scope.spawn_with(promise, job) else {
            return Err(AllocError);
        };
        threads.push(thread)?;
    }
    Ok(threads)
}

/// What these threads hand back, once they have ended.
fn join_all<L: Ledger, S: Sizes, R: Threads>(
    rt: &R,
    alloc: Global,
    threads: Vec<PromisedHandle<Done<L, S>, HandsBack<L, S>>>,
) -> Result<Vec<Done<L, S>>, AllocError>
    ensures places { IfOk result (λ all. map (λ d. place_of d.member) all.items
        ≡ map (λ h. place_of h.promise.0.value) threads.items) }
    ensures ends { (spec : SpecOf) → All (λ h. h.promise.1 ≡ spec) threads.items
        → IfOk result (λ all. All (λ d. MayEnd S.named spec d.member.process d.ending) all.items) }
{
    let mut all = Vec::new(alloc);
    for thread in threads {
        all.push(thread.join(rt))?;
    }
    Ok(all)
}

/// The fault that these workers ended with, if any ended early: out of memory if any of them did, otherwise that of the one
/// with the least number.
pub fn first_fault<L: Ledger, S: Sizes>(ended: &[Done<L, S>]) -> Option<LabFault>
    ensures none { IsNone result ↔ HaveAllSent (map (λ d. d.ending) ended.now) }
    ensures memory { (result ≡ Some LabFault.OutOfMemory) ↔ WantedMemory (map (λ d. d.ending) ended.now) }
    ensures least { IfSome result (λ fault. fault ≢ LabFault.OutOfMemory → IsOfLeast (map (λ d. d.ending) ended.now) fault) }
    ensures bad_spec { IfSome result (λ fault. fault ≢ LabFault.BadSpec) }
{
    if want_memory(ended) {
        return Some(LabFault::OutOfMemory);
    }
    least_fault(ended)
}

/// Whether one of these workers ended out of memory.
#[tactic(auto, using(crate::proofs::Endings::one_wanted))]
fn want_memory<L: Ledger, S: Sizes>(ended: &[Done<L, S>]) -> bool
    ensures { IsTrue result ↔ WantedMemory (map (λ d. d.ending) ended.now) }
{
    for done in ended {
        if done.ending == WorkerEnd::Fault(LockFault::OutOfMemory) {
            return true;
        }
    }
    false
}

/// What ended the worker with the least number of those that ended early.
fn least_fault<L: Ledger, S: Sizes>(ended: &[Done<L, S>]) -> Option<LabFault>
    ensures none { IsNone result → HaveAllSent (map (λ d. d.ending) ended.now) }
    ensures least { IfSome result (λ fault. IsOfLeast (map (λ d. d.ending) ended.now) fault) }
{
    for p in 0..ended.len() {
        match ended[p].ending {
            WorkerEnd::AllSent => {}
            WorkerEnd::Fault(fault) => return Some(LabFault::Member { p: p as u64, fault }),
            WorkerEnd::Refused(reply) => return Some(LabFault::Reply { p: p as u64, reply }),
        }
    }
    None
}

/// The members of workers that have ended. `AllocError`: out of memory.
pub fn members_of<L: Ledger, S: Sizes>(
    alloc: Global,
    ended: Vec<Done<L, S>>,
) -> Result<Vec<Member<L, S>>, AllocError>
    ensures { IfOk result (λ all. map place_of all.items ≡ map (λ d. place_of d.member) ended.items) }
{
    let mut members = Vec::with_capacity(alloc, ended.len())?;
    for done in ended {
        members.push(done.member)?;
    }
    Ok(members)
}
