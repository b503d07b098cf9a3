//! The laboratory over the running lock.

ghost use Rattle.std.specs.Prelude.{◌≡◌, ◌⊎◌, ◌<◌, ◌≤◌, ◌↔◌, All, None, OnOk, IfOk, IfErr, IfSome, IsErrOf, map, slice_index, vec_len};
ghost use Rattle.std.specs.Thread.{IsSend, IsSync};
ghost use Rattle.atomic_table.specs.Seated.{TableId};
ghost use Rattle.redomail.specs.Layout.{words_of};
ghost use Rattle.redomail.specs.Shape.{entries, IsNumbered};
ghost use Rattle.rmeworld.specs.ImageRules.{layout_of, IsLawfulImage};
ghost use Rattle.table_runs.specs.declared.lab.spec.Spec.{Spec as SpecOf};
ghost use Rattle.table_runs.specs.Lab.{AreAllSent, IsBadSpec};
ghost use Rattle.robust.specs.LabFaults.{EndsLab, IsFirstWorkerFault};
ghost use Rattle.robust.specs.LabRuns.{AreShownByRun};
ghost use Rattle.robust.specs.NewMembers.{fresh_members};
ghost use Rattle.robust.specs.Worked.{seat_done, seat_promised, sizes_of, HasWorked};
ghost use Rattle.robust.specs.WorkerSends.{IsNew};
ghost use Rattle.robust.specs.MemberLaws.{seats_of};

use crate::arena::Arena;
use crate::lab::worker::{Done, HandsBack, work};
use crate::laws;
use crate::member::Member;
use crate::member_gather::gather;
use redomail::{Layout, content};
use rmecore::Refusal;
use rmeworld::Image;
use std::alloc::{AllocError, Global};
use std::snapshot::Snapshot;
use std::sync::Wait;
use std::thread;
use std::thread::{PromisedHandle, Scope, Threads};
use table_runs::GatherFault;
use table_runs::lab::{Gate, LabFault, LabResult, Spec, WorkerEnd};

/// Runs a worker for each process of a new arena, all at the same time, each on a thread of its own. Worker p appends its
/// messages with the numbers from 1 on. It calls again after each crash of its gate's plan, and reports each answer to its
/// gate. It returns when all workers have ended. The messages are those that are shown by some run in which the workers start
/// no other calls: of each worker its own, once and in order, and no others.
///
/// `BadSpec`: a size is outside its limits, or the number of gates isn't that of the processes. `OutOfMemory`: memory or a
/// thread was refused. `Member`: a lock of that worker was answered `NumbersSpent`. `Reply`: the mailbox was full when one of
/// its messages was to be stored, and has less room than there are messages. It is the worker with the least number of those
/// that ended early: some such run shows all messages of each worker with a lower number.
pub fn run_lab<G: Gate + Send + Drop, R: Threads + Wait + Sync>(
    rt: &R,
    alloc: Global,
    spec: Spec,
    gates: Vec<G>,
) -> Result<LabResult, LabFault>
    ensures all { IfOk result (λ r. AreAllSent spec r.messages.items) }
    ensures run { IfOk result (λ r. AreShownByRun spec r.messages.items) }
    ensures bad_spec { IsErrOf result LabFault.BadSpec ↔ IsBadSpec spec (vec_len gates) }
    ensures ends { IfErr result (λ fault. (fault ≡ LabFault.BadSpec) ⊎ EndsLab spec fault) }
{
    if spec.is_bad(gates.len() as u64) {
        return Err(LabFault::BadSpec);
    }
    run(rt, alloc, spec, gates)
}

/// The lab, with sizes within the limits and a gate for each worker.
fn run<G: Gate + Send + Drop, R: Threads + Wait + Sync>(
    rt: &R,
    alloc: Global,
    spec: Spec,
    gates: Vec<G>,
) -> Result<LabResult, LabFault>
    requires { IsBadSpec spec (vec_len gates) → ⊥ }
    ensures all { IfOk result (λ r. AreAllSent spec r.messages.items) }
    ensures run { IfOk result (λ r. AreShownByRun spec r.messages.items) }
    ensures ends { IfErr result (EndsLab spec) }
{
    laws::runs_show();
    laws::loads_tell();
    laws::nobody_ruins();
    rmeworld::laws::messages_were_sent();
    let members = make_members(rt, alloc, spec)?;
    let Ok(ended) = work_all(rt, alloc, spec, members, gates) else {
        return Err(LabFault::OutOfMemory);
    };
    let early = first_fault(ended.as_slice());
    let Ok(members) = members_of(alloc, ended) else {
        return Err(LabFault::OutOfMemory);
    };
    match gather(alloc, members) {
        Ok(image) => match early {
            None => shown_messages(alloc, spec, &image),
            Some(fault) => Err(fault),
        },
        Err((_, GatherFault::OutOfMemory)) => Err(LabFault::OutOfMemory),
        Err((_, GatherFault::NotAll)) => unreachable!(),
    }
}

/// A new member for each worker.
#[tactic(auto, using(crate::proofs::Worked::length_fresh))]
fn make_members<R>(rt: &R, alloc: Global, spec: Spec) -> Result<Vec<Member>, LabFault>
    ensures seats { IfOk result (λ v. (t : TableId) × (seats_of v.items ≡ seats_of (fresh_members t (sizes_of spec)))) }
    ensures length { IfOk result (λ v. vec_len v ≡ spec.procs) }
    ensures new { IfOk result (λ v. All (IsNew (sizes_of spec)) v.items) }
    ensures memory { IfErr result (λ fault. fault ≡ LabFault.OutOfMemory) }
{
    match Arena::new(rt, alloc, spec.procs, spec.limit, spec.cap, spec.width) {
        Ok(members) => Ok(members),
        Err(_) => Err(LabFault::OutOfMemory),
    }
}

/// Runs all workers, each in a thread of its own, and answers them once all have ended. If a thread can't be made, it too
/// returns once those that run have ended.
fn work_all<G: Gate + Send + Drop, R: Threads + Wait + Sync>(
    rt: &R,
    alloc: Global,
    spec: Spec,
    members: Vec<Member>,
    gates: Vec<G>,
) -> Result<Vec<Done>, AllocError>
    requires gates { vec_len gates ≡ vec_len members }
    requires messages { (1 ≤ spec.messages) × (spec.messages ≤ 4096) }
    requires width { (1 ≤ spec.width) × (spec.width ≤ 8) }
    requires new { All (IsNew (sizes_of spec)) members.items }
    ensures seats { IfOk result (λ all. map seat_done all.items ≡ seats_of members.items) }
    ensures worked { IfOk result (λ all. All (HasWorked spec) all.items) }
{
    thread::scope(
        thread::scope_env(),
        rt,
        |scope| -> Result<Vec<Done>, AllocError>
            requires { IsSend G.row × IsSync R.row × (vec_len gates ≡ vec_len members) × (1 ≤ spec.messages)
                × (spec.messages ≤ 4096) × (1 ≤ spec.width) × (spec.width ≤ 8) × All (IsNew (sizes_of spec)) members.items }
            ensures { IfOk result (λ all. (map seat_done all.items ≡ seats_of members.items) × All (HasWorked spec) all.items) }
        {
            let threads = start_all(scope, rt, alloc, spec, members, gates)?;
            join_all(rt, alloc, threads)
        },
    )
}

/// A thread of the scope for each worker, by process.
fn start_all<'s, E: 's, G: Gate + Send + Drop + 's, R: Wait + Sync>(
    scope: &Scope<'s, E>,
    rt: &'s R,
    alloc: Global,
    spec: Spec,
    members: Vec<Member>,
    gates: Vec<G>,
) -> Result<Vec<PromisedHandle<Done, HandsBack>>, AllocError>
    requires gates { vec_len gates ≡ vec_len members }
    requires messages { (1 ≤ spec.messages) × (spec.messages ≤ 4096) }
    requires width { (1 ≤ spec.width) × (spec.width ≤ 8) }
    requires new { All (IsNew (sizes_of spec)) members.items }
    ensures seats { IfOk result (λ threads. map (λ h. seat_promised h.promise) threads.items ≡ seats_of members.items) }
    ensures spec { IfOk result (λ threads. All (λ h. h.promise.1 ≡ spec) threads.items) }
{
    let mut threads = Vec::new(alloc);
    let mut gates = gates.into_iter();
    for member in members {
        let Some(gate) = gates.next() else {
            unreachable!()
        };
        let promise = HandsBack(Snapshot::of(&member), spec);
        let job = move || -> Done
            requires { IsSend G.row × IsSync R.row × (1 ≤ spec.messages) × (spec.messages ≤ 4096) × (1 ≤ spec.width)
                × (spec.width ≤ 8) × IsNew (sizes_of spec) member }
        { work(rt, member, gate, spec) };
        let Ok(thread) = scope.spawn_with(promise, job) else {
            return Err(AllocError);
        };
        threads.push(thread)?;
    }
    Ok(threads)
}

/// What these threads hand back, once they have ended.
fn join_all<R: Threads>(
    rt: &R,
    alloc: Global,
    threads: Vec<PromisedHandle<Done, HandsBack>>,
) -> Result<Vec<Done>, AllocError>
    ensures seats { IfOk result (λ all. map seat_done all.items ≡ map (λ h. seat_promised h.promise) threads.items) }
    ensures worked { (spec : SpecOf) → All (λ h. h.promise.1 ≡ spec) threads.items
        → IfOk result (λ all. All (HasWorked spec) all.items) }
{
    let mut all = Vec::new(alloc);
    for thread in threads {
        all.push(thread.join(rt))?;
    }
    Ok(all)
}

/// What ended the worker with the least number of those that ended early.
fn first_fault(ended: &[Done]) -> Option<LabFault>
    ensures first { IfSome result (IsFirstWorkerFault ended.now) }
    ensures none { result ≡ None → All (λ done. done.ending ≡ WorkerEnd.AllSent) ended.now }
{
    for done in ended {
        let p = done.member.number();
        match done.ending {
            WorkerEnd::AllSent => {}
            WorkerEnd::Fault(fault) => return Some(LabFault::Member { p, fault }),
            WorkerEnd::Refused(reply) => return Some(LabFault::Reply { p, reply }),
        }
    }
    None
}

/// The members of workers that have ended.
fn members_of(alloc: Global, ended: Vec<Done>) -> Result<Vec<Member>, AllocError>
    ensures { IfOk result (λ all. all.items ≡ map (λ done. done.member) ended.items) }
{
    let mut members = Vec::with_capacity(alloc, ended.len())?;
    for done in ended {
        members.push(done.member)?;
    }
    Ok(members)
}

/// The messages that the data words of the last image show.
fn shown_messages(alloc: Global, spec: Spec, image: &Image) -> Result<LabResult, LabFault>
    requires lawful { IsLawfulImage image.now }
    requires layout { layout_of image.now ≡ (sizes_of spec).layout }
    ensures messages { IfOk result (λ r. r.messages.items ≡ entries (sizes_of spec).layout (words_of image.now.cells)
        (slice_index image.now.cells 2)) }
    ensures numbered { OnOk result (IsNumbered (sizes_of spec).layout (words_of image.now.cells) (slice_index image.now.cells 2)) }
    ensures fault { IfErr result (λ fault. fault ≡ LabFault.OutOfMemory) }
{
    let layout = Layout {
        procs: spec.procs,
        cap: spec.cap,
        width: spec.width,
    };
    match content(alloc, layout, image.cells.as_slice()) {
        Ok(messages) => Ok(LabResult { messages }),
        Err(Refusal::BadShape) => unreachable!(),
        Err(_) => Err(LabFault::OutOfMemory),
    }
}
