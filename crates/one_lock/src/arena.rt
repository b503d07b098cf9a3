//! How members are made.

ghost use Rattle.std.specs.Prelude.{◌≡◌, ◌≤◌, IfOk, IfErr, OnOk, None, All};
ghost use Rattle.rmecore.specs.Simulated.{cause};
ghost use Rattle.rmeworld.specs.MachineState.{IsSize};
ghost use Rattle.rmeworld.specs.WorldState.{new_refusal};
ghost use Rattle.one_lock.specs.Member.{new_seats, AreAll};
ghost use Rattle.one_lock.specs.Execution.{AreSizes};

use crate::member::Member;
use crate::shared::Shared;
use crate::sizes::{AnySizes, Sizes};
use redomail::Layout;
use rmecore::Refusal;
use rmeworld::World;
use std::alloc::Global;
use std::sync::ledger::{Blank, Ledger, Share};
use std::sync::{Arc, Mutex};

/// A world and its members.
pub struct Arena;

impl Arena {
    /// One member for each process, over a new world with these sizes. The blank belongs to the ledger that counts the
    /// steps, and has one part for each process. The first bad size is refused; `OutOfMemory`: nothing was made.
    pub fn new<L: Ledger, R>(
        _rt: &R,
        alloc: Global,
        procs: u64,
        limit: u64,
        cap: u64,
        width: u64,
        blank: Blank,
    ) -> Result<Vec<Member<L>>, Refusal>
        requires name { blank.name ≡ L.name }
        requires parts { blank.parts ≡ L.parts }
        requires each { blank.parts ≡ procs }
        ensures accepted { OnOk result (new_refusal (record { procs = procs; cap = cap; width = width }) limit ≡ None) }
        ensures refused { IfErr result (λ e. new_refusal (record { procs = procs; cap = cap; width = width }) limit ≡ cause e) }
        ensures ok { IfOk result
            (λ members. members.items ≡ new_seats (record { procs = procs; cap = cap; width = width }) limit procs) }
        ensures arena { IfOk result (λ members. All (λ m. m.layout.procs ≡ L.parts) members.items) }
        ensures all { IfOk result (λ members. AreAll L.parts members.items) }
    {
        Arena::of_sizes::<L, AnySizes>(alloc, procs, limit, cap, width, blank)
    }

    /// The same as `new`, for members whose type may name the sizes. A refusal is that of `new`.
    pub fn of_sizes<L: Ledger, S: Sizes>(
        alloc: Global,
        procs: u64,
        limit: u64,
        cap: u64,
        width: u64,
        blank: Blank,
    ) -> Result<Vec<Member<L, S>>, Refusal>
        requires sizes { AreSizes S.named (record { procs = procs; cap = cap; width = width }) limit }
        requires name { blank.name ≡ L.name }
        requires parts { blank.parts ≡ L.parts }
        requires each { blank.parts ≡ procs }
        ensures accepted { OnOk result (new_refusal (record { procs = procs; cap = cap; width = width }) limit ≡ None) }
        ensures refused { IfErr result (λ e. new_refusal (record { procs = procs; cap = cap; width = width }) limit ≡ cause e) }
        ensures ok { IfOk result
            (λ members. members.items ≡ new_seats (record { procs = procs; cap = cap; width = width }) limit procs) }
        ensures arena { IfOk result (λ members. All (λ m. m.layout.procs ≡ L.parts) members.items) }
        ensures all { IfOk result (λ members. AreAll L.parts members.items) }
    {
        let world = World::new(alloc, procs, limit, cap, width)?;
        let layout = Layout { procs, cap, width };
        let (book, all) = blank.open::<L>();
        let shared = Arc::new(alloc, Mutex::new(Shared::new(world, book)))?;
        members_of(alloc, layout, limit, shared, all)
    }
}

/// One member for each process, each with one part of the ledger.
fn members_of<L: Ledger, S: Sizes>(
    alloc: Global,
    layout: Layout,
    limit: u64,
    shared: Arc<Mutex<Shared<L, S>>>,
    mut all: Share<L>,
) -> Result<Vec<Member<L, S>>, Refusal>
    requires size { IsSize layout }
    requires limited { 1 ≤ limit }
    requires sizes { AreSizes S.named layout limit }
    requires few { layout.procs ≤ 64 }
    requires parts { all.parts ≡ layout.procs }
    requires none { all.amount ≡ 0 }
    ensures memory { IfErr result (λ e. e ≡ Refusal.OutOfMemory) }
    ensures ok { IfOk result (λ members. members.items ≡ new_seats layout limit layout.procs) }
{
    let mut members = Vec::new(alloc);
    for process in 0..layout.procs {
        let share = all.split_off(1, 0);
        let shared = Arc::try_clone(&shared)?;
        members.push(Member::new(process, layout, limit, shared, share))?;
    }
    Ok(members)
}
