//! An example: three senders on threads of their own. One has died inside: it comes back, mends and goes on.
//!
//! Main item: `send`.
#![tactic(auto)]

use crash_plans::{At, Never};
use redomail::Reply;
use rmecore::Body;
use robust::{Arena, Entry, LockFault, Member};
use std::sync::Wait;
use std::thread;

/// Enters, mends where this process died inside, leaves, and sends a message.
fn send<R: Wait>(rt: &R, mut member: Member, value: Body) -> Result<(Entry, Reply), LockFault> {
    let mut plan = Never::new();
    let entry = member.lock(rt, &mut plan)?;
    if entry == Entry::OwnerDied {
        member.consistent(&mut plan)?;
    }
    member.unlock(&mut plan)?;
    let reply = member.append(rt, 1, value, &mut plan)?;
    Ok((entry, reply))
}

/// Lets process 0 die inside, and then has all three send a message on threads of their own.
fn main(rt: HostRuntime) -> Result<(), anyhow::Error> {
    let value = Body::new(&[77])?;
    // 3 processes, numbers up to 2^62, room for 3 messages of 1 word.
    let mut members = Arena::new(&rt, rt.alloc(), 3, 1 << 62, 3, 1)?;
    if let Some(member) = members.first_mut() {
        // Process 0 dies inside at its 22nd step, right after the commit of its message.
        let died = member.append_within(1, value, &mut At::new(22), 0);
        println!(rt; "{died:?}")?;
    }
    let work = |member: Member| -> Result<(Entry, Reply), LockFault> { send(&rt, member, value) };
    for end in thread::map_vec(&rt, members, &work)? {
        println!(rt; "{:?}", end?)?;
    }
    Ok(())
}
