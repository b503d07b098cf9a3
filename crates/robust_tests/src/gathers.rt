//! Gathering where members are missing.

ghost use Rattle.std.specs.Prelude.{◌≡◌, IfSome};

use crate::support::plain::two;
use crate::support::tested::Tested;
use one_lock::{GatherFault, Member, gather};
use std::alloc::Global;
use std::marker::Brand;
use std::process::Abort;
use std::sync::Wait;
use std::sync::ledger::{Blank, Ledger};

/// Whether nothing is gathered where there is no member.
fn misses_all<L: Ledger, R: Wait>(rt: &R, alloc: Global) -> bool {
    let none: Vec<Member<L>> = Vec::new(alloc);
    match gather(rt, none) {
        Err((back, fault)) => fault == GatherFault::NotAll && back.is_empty(),
        Ok(_) => false,
    }
}

/// The member, as a gathering that misses another hands it back. None: it was gathered.
fn handed_back<L: Ledger, R: Wait>(rt: &R, alloc: Global, member: Member<L>) -> Option<Member<L>>
    requires { member.layout.procs ≡ L.parts }
    ensures { IfSome result (λ m. m.layout.procs ≡ L.parts) }
{
    let some = vec![in alloc; member].ok()?;
    let Err((mut some, GatherFault::NotAll)) = gather(rt, some) else {
        return None;
    };
    if some.len() == 1 { some.pop() } else { None }
}

/// Gathers none, one of two, which is handed back, and both.
fn misses_some<L: Ledger, R: Abort + Wait>(rt: &R, alloc: Global, blank: Blank)
    requires name { blank.name ≡ L.name }
    requires parts { blank.parts ≡ L.parts }
    requires both { blank.parts ≡ 2 }
{
    assert!(rt; misses_all::<L, R>(rt, alloc), "gathered none");
    let (one, other) = two::<L>(rt, alloc, 10, 1, blank);
    let Some(one) = handed_back(rt, alloc, one) else {
        panic!(rt; "gathered one of two")
    };
    match Member::gathered(rt, alloc, one, other) {
        Some(image) => assert!(rt; image.lock.as_slice().len() == 2),
        None => panic!(rt; "no image"),
    }
}

#[test]
fn not_all(rt: HostRuntime) {
    misses_some::<Brand, _>(&rt, rt.alloc(), Blank::new(2));
}
