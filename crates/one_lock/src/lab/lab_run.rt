//! The laboratory over the plain reference.

ghost use Rattle.std.specs.Prelude.{◌≡◌, ◌⊎◌, ◌↔◌, ◌<◌, ℕ, IfOk, IfErr, OnOk, IsErrOf, Some, vec_len};
ghost use Rattle.one_lock.specs.LabEndings.{MayEndLab, WereSent};
ghost use Rattle.table_runs.specs.Lab.{AreAllSent, IsBadSpec, setup_of};
ghost use Rattle.one_lock.specs.Shown.{AreShown};

use crate::arena::Arena;
use crate::lab::crew::{first_fault, members_of, work_all};
use crate::lab::shown_messages::all_shown;
use crate::lab::{Gate, LabFault, LabResult, Spec};
use crate::member_gather::gather;
use crate::sizes::Sizes;
use std::alloc::Global;
use std::marker::Brand;
use std::sync::Wait;
use std::sync::ledger::{Blank, Ledger};
use std::thread::Threads;
use table_runs::gather_fault::GatherFault;

/// Runs a worker for each process of a new arena, all at the same time, each on a thread of its own. Worker p appends its
/// messages with the numbers from 1 on. It calls again after each crash of its gate's plan, and reports each answer to its
/// gate. It returns when all workers have ended. Each message was answered Stored or Already. The words at the end of some
/// run show the messages: of each worker its own, once and in order, and no others.
///
/// `BadSpec`: a size is outside its limits, or the number of gates isn't that of the processes. `OutOfMemory`: memory or a
/// thread was refused, or a step's deed could not be stored. `Member`: a lock of that worker was answered `NumbersSpent`, or
/// it found the lock ruined. `Reply`: one of its messages was given this reply. Both name the worker with the least number of
/// those that ended early, and each worker with a lower number has sent all its messages.
pub fn run_lab<G: Gate + Send + Drop, R: Threads + Wait + Sync>(
    rt: &R,
    alloc: Global,
    spec: Spec,
    gates: Vec<G>,
) -> Result<LabResult, LabFault>
    ensures bad_spec { IsErrOf result LabFault.BadSpec ↔ IsBadSpec spec (vec_len gates) }
    ensures ends { IfErr result (λ fault. (fault ≡ LabFault.BadSpec) ⊎ MayEndLab spec fault) }
    ensures sent { OnOk result ((p : ℕ) → p < spec.procs → WereSent (Some (setup_of spec)) spec.width p spec.messages) }
    ensures all { IfOk result (λ lab. AreAllSent spec lab.messages.items) }
    ensures shown { IfOk result (λ lab. AreShown (record { procs = spec.procs; cap = spec.cap; width = spec.width }) lab.messages.items) }
{
    if spec.is_bad(gates.len() as u64) {
        return Err(LabFault::BadSpec);
    }
    run::<Brand, Brand, G, R>(rt, alloc, spec, gates, Blank::new(spec.procs))
}

/// The lab, with sizes within the limits and a gate for each worker, over a ledger with a part for each of them.
fn run<
    L: Ledger + Send + Sync,
    S: Sizes + Send + Sync,
    G: Gate + Send + Drop,
    R: Threads + Wait + Sync,
>(rt: &R, alloc: Global, spec: Spec, gates: Vec<G>, blank: Blank) -> Result<LabResult, LabFault>
    requires sizes { IsBadSpec spec (vec_len gates) → ⊥ }
    requires name { blank.name ≡ L.name }
    requires parts { blank.parts ≡ L.parts }
    requires each { blank.parts ≡ spec.procs }
    requires named { S.named ≡ Some (setup_of spec) }
    ensures ends { IfErr result (MayEndLab spec) }
    ensures sent { OnOk result ((p : ℕ) → p < spec.procs → WereSent (Some (setup_of spec)) spec.width p spec.messages) }
    ensures all { IfOk result (λ lab. AreAllSent spec lab.messages.items) }
    ensures shown { IfOk result (λ lab. AreShown (record { procs = spec.procs; cap = spec.cap; width = spec.width }) lab.messages.items) }
{
    let Ok(members) = Arena::of_sizes::<L, S>(
        alloc, spec.procs, spec.limit, spec.cap, spec.width, blank,
    ) else {
        return Err(LabFault::OutOfMemory);
    };
    let Ok(ended) = work_all(rt, alloc, spec, members, gates) else {
        return Err(LabFault::OutOfMemory);
    };
    if let Some(fault) = first_fault(ended.as_slice()) {
        return Err(fault);
    }
    let Ok(members) = members_of(alloc, ended) else {
        return Err(LabFault::OutOfMemory);
    };
    match gather(rt, members) {
        Ok(image) => all_shown(rt, alloc, spec, image.cells.as_slice()),
        Err((_, GatherFault::OutOfMemory)) => Err(LabFault::OutOfMemory),
        Err((_, GatherFault::NotAll)) => unreachable!(),
    }
}
