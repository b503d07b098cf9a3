//! Each request for memory is refused in turn: all memory is taken but for a reserve, which is given back piece by piece
//! until a call meets no refusal.

ghost use Rattle.table_runs.specs.GatheredRuns.{OneArena};

use crate::support::counted::never;
use crate::support::messages::{are, body};
use crate::support::rows::begins_with;
use crate::support::running::two;
use redomail::Reply;
use rmecore::Refusal;
use rmeworld::Image;
use robust::{Arena, GatherFault, Member, gather};
use std::alloc::Global;
use std::process::Abort;
use test_support::memory_limit::{PIECES, ScarceMemory};

/// All memory, taken.
fn scarce<R: Abort>(rt: &R, alloc: Global) -> ScarceMemory {
    let Ok(scarce_memory) = ScarceMemory::new(alloc) else {
        panic!(rt; "no reserve")
    };
    scarce_memory
}

/// The number of members of a new arena.
fn members_made<R: Abort>(rt: &R, alloc: Global) -> Result<usize, Refusal> {
    Ok(Arena::new(rt, alloc, 2, 10, 2, 1)?.len())
}

/// Makes an arena again after each refusal, and counts the refusals.
fn arena_at_last<R: Abort>(rt: &R, alloc: Global, scarce_memory: &mut ScarceMemory) -> u64 {
    let mut refused = 0u64;
    for _ in 0..PIECES {
        let made = members_made(rt, alloc);
        if made.is_ok() {
            assert!(rt; made == Ok(2));
            break;
        }
        assert!(rt; made == Err(Refusal::OutOfMemory));
        refused = refused.saturating_add(1);
        scarce_memory.give_back();
    }
    refused
}

#[test]
fn a_new_arena(rt: HostRuntime) {
    let mut scarce_memory = scarce(&rt, rt.alloc());
    let refused = arena_at_last(&rt, rt.alloc(), &mut scarce_memory);
    assert!(rt; 0 < refused && refused < PIECES as u64);
}

/// Gathers again after each refusal, and counts the refusals.
fn gather_at_last(
    rt: &impl Abort,
    alloc: Global,
    mut members: Vec<Member>,
    scarce_memory: &mut ScarceMemory,
) -> (Option<Image>, u64)
    requires { OneArena members.items }
{
    let mut refused = 0u64;
    for _ in 0..PIECES {
        match gather(alloc, members) {
            Ok(image) => return (Some(image), refused),
            Err((back, fault)) => {
                assert!(rt; fault == GatherFault::OutOfMemory);
                members = back;
            }
        }
        refused = refused.saturating_add(1);
        scarce_memory.give_back();
    }
    (None, refused)
}

#[test]
fn a_gathering(rt: HostRuntime) {
    let alloc = rt.alloc();
    let (one, other) = two(&rt, alloc, 10, 2);
    let Ok(members) = vec![in alloc; one, other] else {
        panic!(rt; "no room")
    };
    let mut scarce_memory = scarce(&rt, alloc);
    let (image, refused) = gather_at_last(&rt, alloc, members, &mut scarce_memory);
    let Some(image) = image else {
        panic!(rt; "never gathered")
    };
    assert!(rt; begins_with(&image, "0 0 0 0 0 0"));
    assert!(rt; 0 < refused && refused < PIECES as u64);
}

/// Reads again after each refusal, and counts the refusals.
fn reading_at_last<R: Abort>(
    rt: &R,
    alloc: Global,
    reader: &mut Member,
    scarce_memory: &mut ScarceMemory,
) -> u64 {
    let mut refused = 0u64;
    for _ in 0..PIECES {
        if let Ok(messages) = reader.read_from(alloc, 0) {
            assert!(rt; are(messages.as_slice(), "0 1 5"));
            break;
        }
        refused = refused.saturating_add(1);
        scarce_memory.give_back();
    }
    refused
}

#[test]
fn a_reading(rt: HostRuntime) {
    let (mut one, mut other) = two(&rt, rt.alloc(), 10, 2);
    assert!(rt; one.append_within(1, body(5), &mut never(), 0) == Ok(Reply::Stored));
    let mut scarce_memory = scarce(&rt, rt.alloc());
    let refused = reading_at_last(&rt, rt.alloc(), &mut other, &mut scarce_memory);
    assert!(rt; 0 < refused && refused < PIECES as u64);
}
