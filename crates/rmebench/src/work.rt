//! The work that is timed. No member crashes.

ghost use Rattle.std.specs.Prelude.{◌≡◌, ◌≤◌, IfOk};
ghost use Rattle.rmebench.specs.Sizes.{IsFit};

use crate::fault::RunningJudgeFault;
use crate::order::{MOST_MESSAGES, Order};
use crash_plans::Never;
use redomail::Reply;
use rmecore::Body;
use robust::{Arena, LockFault, Member};
use std::alloc::Global;
use std::sync::Wait;
use std::thread;
use std::thread::Threads;

/// The greatest limit of a lock's numbers.
const MOST: u64 = 1 << 62;

/// Does the work, and answers how many entries or messages there were. A fault says why the work stopped early.
pub fn do_work<R: Threads + Wait + Sync>(
    rt: &R,
    alloc: Global,
    order: Order,
) -> Result<u64, RunningJudgeFault>
    requires { IsFit order }
{
    match order {
        Order::Lock {
            procs,
            threads,
            rounds,
        } => {
            let members = members(rt, alloc, procs, 1)?;
            enter_all(rt, members, threads, rounds)
        }
        Order::Append {
            procs,
            width,
            rounds,
        } => {
            let mut members = members(rt, alloc, procs, width)?;
            match members.pop() {
                Some(mut member) => send(rt, &mut member, width, rounds),
                None => Err(RunningJudgeFault::OutOfMemory),
            }
        }
    }
}

/// A member for each process of a new arena.
fn members<R>(
    rt: &R,
    alloc: Global,
    procs: u64,
    width: u64,
) -> Result<Vec<Member>, RunningJudgeFault> {
    match Arena::new(rt, alloc, procs, MOST, MOST_MESSAGES, width) {
        Ok(members) => Ok(members),
        Err(_) => Err(RunningJudgeFault::OutOfMemory),
    }
}

/// Locks and unlocks `rounds` times, and counts the entries. A fault of a call ends it.
pub fn enter<R: Wait>(rt: &R, mut member: Member, rounds: u64) -> Result<u64, LockFault>
    ensures { IfOk result (λ count. count ≡ rounds) }
{
    let mut plan = Never::new();
    let mut entries = 0;
    for _ in 0..rounds {
        member.lock(rt, &mut plan)?;
        member.unlock(&mut plan)?;
        entries += 1;
    }
    Ok(entries)
}

/// Runs the first `threads` members, each on a thread of its own, and adds up their entries.
fn enter_all<R: Threads + Wait + Sync>(
    rt: &R,
    mut members: Vec<Member>,
    threads: u64,
    rounds: u64,
) -> Result<u64, RunningJudgeFault> {
    members.truncate(threads as usize);
    let work = |member: Member| -> Result<u64, LockFault> { enter(rt, member, rounds) };
    let Ok(ended) = thread::map_vec(rt, members, &work) else {
        return Err(RunningJudgeFault::OutOfMemory);
    };
    let mut count = 0u64;
    for end in ended {
        match end {
            Ok(entries) => count = count.saturating_add(entries),
            Err(fault) => return Err(RunningJudgeFault::Lock(fault)),
        }
    }
    Ok(count)
}

/// Appends `rounds` messages, numbered from 1, and counts those that were stored. `Refused`: a message wasn't stored.
/// `Lock`: a call had this fault.
pub fn send<R: Wait>(
    rt: &R,
    member: &mut Member,
    width: u64,
    rounds: u64,
) -> Result<u64, RunningJudgeFault>
    requires least { 1 ≤ width }
    requires most { width ≤ 8 }
    requires rounds { rounds ≤ 65536 }
    ensures { IfOk result (λ count. count ≡ rounds) }
{
    let Ok(value) = Body::new(&[1, 2, 3, 4, 5, 6, 7, 8][..width as usize]) else {
        unreachable!()
    };
    let mut plan = Never::new();
    let mut stored = 0;
    for seq in 1..rounds + 1 {
        match member.append(rt, seq, value, &mut plan) {
            Ok(Reply::Stored) => stored += 1,
            Ok(_) => return Err(RunningJudgeFault::Refused),
            Err(fault) => return Err(RunningJudgeFault::Lock(fault)),
        }
    }
    Ok(stored)
}
