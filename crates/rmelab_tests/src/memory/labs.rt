//! Each request for memory of a lab over the running lock is refused in turn.

use crash_plans::Never;
use robust::{LabFault, Spec, run_lab};
use std::alloc::{AllocError, Global};
use std::sync::Wait;
use std::test::Fail;
use std::thread::Threads;
use test_support::memory_limit::{PIECES, ScarceMemory};

const TWO: Spec = Spec {
    procs: 2,
    messages: 1,
    limit: 10,
    cap: 2,
    width: 1,
};

/// The gates of a lab, one for each worker: as many lists as there are pieces, and one more.
fn gates(alloc: Global) -> Result<Vec<Vec<Never>>, AllocError> {
    let mut all = Vec::with_capacity(alloc, PIECES + 1)?;
    for _ in 0..PIECES + 1 {
        let mut two = Vec::with_capacity(alloc, 2)?;
        two.push(Never::new())?;
        two.push(Never::new())?;
        all.push(two)?;
    }
    Ok(all)
}

/// The number of messages of the lab, or its fault.
fn lab(
    rt: &(impl Threads + Wait + Sync),
    alloc: Global,
    gates: &mut Vec<Vec<Never>>,
) -> Result<usize, LabFault> {
    let lab = run_lab(rt, alloc, TWO, gates.pop().unwrap_or(Vec::new(alloc)))?;
    Ok(lab.messages.len())
}

/// A thread needs more than the reserve, so the last run has all memory again.
#[test]
fn a_lab(rt: HostRuntime) -> Result<(), Fail> {
    let alloc = rt.alloc();
    let mut gates = gates(alloc)?;
    let mut scarce_memory = ScarceMemory::new(alloc)?;
    let mut refused = 0u64;
    for _ in 0..PIECES {
        let found = lab(&rt, alloc, &mut gates);
        let is_refused = found == Err(LabFault::OutOfMemory);
        assert!(rt; is_refused || found == Ok(2));
        if is_refused {
            refused = refused.saturating_add(1);
        }
        scarce_memory.give_back();
    }
    scarce_memory.end();
    assert!(rt; 0 < refused && lab(&rt, alloc, &mut gates) == Ok(2));
    Ok(())
}
