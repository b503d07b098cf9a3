//! Eight threads that enter, crash and go on.

ghost use Rattle.std.specs.Prelude.{◌≡◌, map, IfOk};
ghost use Rattle.std.specs.Thread.{IsSync};
ghost use Rattle.atomic_table.specs.Seated.{TableId};
ghost use Rattle.table_runs.specs.declared.setup.Setup.{Setup};
ghost use Rattle.table_runs.specs.GatheredRuns.{OneArena};
ghost use Rattle.robust.specs.NewMembers.{fresh_members};
ghost use Rattle.robust.specs.MemberLaws.{seat_of, seats_of};

use crash_plans::{CrashPlan, Seeded};
use redomail::Layout;
use rmeworld::{Image, start_of};
use robust::{Arena, Entry, LockFault, Member, gather};
use std::alloc::{AllocError, Global};
use std::process::Abort;
use std::snapshot::Snapshot;
use std::sync::Wait;
use std::test::Fail;
use std::thread;
use std::thread::{Promise, PromisedHandle, Scope, Threads};

const ENTRIES: u64 = 400;

/// A member that has incremented the word of the board, and how often it was cut off meanwhile.
#[derive(Drop)]
struct Raised {
    member: Member,
    times: u64,
    crashes: u64,
}

/// The promise of a thread: it hands back the member that it was given.
#[derive(Drop)]
struct SameSeat(Snapshot<Member>);

impl Promise<Raised> for SameSeat {
    ghost use Rattle.std.specs.Prelude.{◌≡◌};
    ghost use Rattle.robust.specs.MemberLaws.{seat_of};

    ghost kept_by = { λ promise raised. seat_of raised.member ≡ seat_of promise.0.value };
}

/// Enters and, if it crashed inside, mends. A crash is left to the caller.
fn enter<C: CrashPlan, R: Wait>(rt: &R, member: &mut Member, plan: &mut C) -> Result<(), LockFault>
    ensures { seat_of member.new ≡ seat_of member.old }
{
    if member.lock(rt, plan)? == Entry::OwnerDied {
        member.consistent(plan)?;
    }
    Ok(())
}

/// As a holder, increments the word, unless the word was incremented from this value before a crash, and leaves. It keeps
/// the value from which it increments.
fn raise<C: CrashPlan>(
    member: &mut Member,
    from: &mut Option<u64>,
    plan: &mut C,
) -> Result<(), LockFault>
    ensures { seat_of member.new ≡ seat_of member.old }
{
    let word = member.get(0, plan)?;
    if *from == None {
        *from = Some(word);
    }
    if *from == Some(word) {
        member.put(0, word.saturating_add(1), plan)?;
    }
    member.unlock(plan)
}

/// Enters and increments, once.
fn attempt<C: CrashPlan, R: Wait>(
    rt: &R,
    member: &mut Member,
    from: &mut Option<u64>,
    plan: &mut C,
) -> Result<(), LockFault>
    ensures { seat_of member.new ≡ seat_of member.old }
{
    enter(rt, member, plan)?;
    raise(member, from, plan)
}

/// Increments the word this often, and tries again after each crash until it is done.
fn work<R: Wait>(rt: &R, mut member: Member, mut plan: Seeded) -> Raised
    ensures { seat_of result.member ≡ seat_of member }
{
    let mut from = None;
    let mut times = 0u64;
    let mut crashes = 0u64;
    for _ in rt.forever() {
        match attempt(rt, &mut member, &mut from, &mut plan) {
            Ok(()) => times = times.saturating_add(1),
            Err(LockFault::Crashed) => {
                crashes = crashes.saturating_add(1);
                continue;
            }
            Err(_) => break,
        }
        from = None;
        if times >= ENTRIES {
            break;
        }
    }
    Raised {
        member,
        times,
        crashes,
    }
}

fn start_all<'s, E: 's, R: Wait + Sync>(
    scope: &Scope<'s, E>,
    rt: &'s R,
    alloc: Global,
    members: Vec<Member>,
) -> Result<Vec<PromisedHandle<Raised, SameSeat>>, AllocError>
    ensures { IfOk result (λ threads. map (λ h. seat_of h.promise.0.value) threads.items ≡ seats_of members.items) }
{
    let mut threads = Vec::new(alloc);
    for member in members {
        let plan = Seeded::new(member.number(), 10);
        let promise = SameSeat(Snapshot::of(&member));
        let job = move || -> Raised
            requires { IsSync R.row }
        { work(rt, member, plan) };
        let Ok(thread) = scope.spawn_with(promise, job) else {
            return Err(AllocError);
        };
        threads.push(thread)?;
    }
    Ok(threads)
}

/// What the threads hand back: their members, how often they incremented the word, and how often they crashed.
fn join_all<R: Threads>(
    rt: &R,
    alloc: Global,
    threads: Vec<PromisedHandle<Raised, SameSeat>>,
) -> Result<(Vec<Member>, u64, u64), AllocError>
    ensures { IfOk result (λ all. seats_of all.0.items ≡ map (λ h. seat_of h.promise.0.value) threads.items) }
{
    let mut members = Vec::new(alloc);
    let mut times = 0u64;
    let mut crashes = 0u64;
    for thread in threads {
        let raised = thread.join(rt);
        times = times.saturating_add(raised.times);
        crashes = crashes.saturating_add(raised.crashes);
        members.push(raised.member)?;
    }
    Ok((members, times, crashes))
}

fn work_all<R: Threads + Wait + Sync>(
    rt: &R,
    alloc: Global,
    members: Vec<Member>,
) -> Result<(Vec<Member>, u64, u64), AllocError>
    ensures { IfOk result (λ all. seats_of all.0.items ≡ seats_of members.items) }
{
    thread::scope(
        thread::scope_env(),
        rt,
        |scope| -> Result<(Vec<Member>, u64, u64), AllocError>
            requires { IsSync R.row }
            ensures { IfOk result (λ all. seats_of all.0.items ≡ seats_of members.items) }
        {
            let threads = start_all(scope, rt, alloc, members)?;
            join_all(rt, alloc, threads)
        },
    )
}

fn made(rt: &impl Abort, alloc: Global) -> Vec<Member>
    ensures { (t : TableId) × (s : Setup) × (seats_of result.items ≡ seats_of (fresh_members t s)) }
{
    let Ok(members) = Arena::new(rt, alloc, 8, 1_000_000, 1, 1) else {
        panic!(rt; "no members")
    };
    members
}

/// The image of all members' words, which is lawful.
fn gathered_all(rt: &impl Abort, alloc: Global, members: Vec<Member>) -> Image
    requires { OneArena members.items }
{
    let Ok(image) = gather(alloc, members) else {
        panic!(rt; "not gathered")
    };
    assert!(rt; start_of(alloc, &image).is_ok());
    image
}

#[test]
fn eight_threads_that_crash(rt: HostRuntime) -> Result<(), Fail> {
    let alloc = rt.alloc();
    let members = made(&rt, alloc);
    let (members, times, crashes) = work_all(&rt, alloc, members)?;
    assert_eq!(rt; times, 8 * ENTRIES);
    assert!(rt; crashes > 0);
    let layout = Layout {
        procs: 8,
        cap: 1,
        width: 1,
    };
    let image = gathered_all(&rt, alloc, members);
    assert!(rt; image.cells.as_slice().get(layout.board(0) as usize) == Some(&times));
    for own in image.lock.as_slice() {
        assert!(rt; own.choosing == 0 && own.number == 0 && own.inside == 0);
    }
    Ok(())
}
