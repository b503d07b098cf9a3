//! How a running lock is made.
ghost use Rattle.std.specs.Prelude.{◌≡◌, ℕ, ◌<◌, ◌≤◌, ◌^◌, ◌⊎◌, Some, None, IfOk, IfErr, OnOk};
ghost use Rattle.redomail.specs.Layout.{size};
ghost use Rattle.rmeworld.specs.MachineState.{IsSize};
ghost use Rattle.atomic_table.specs.Seated.{TableId};
ghost use Rattle.table_runs.specs.Runs.{word_count};
ghost use Rattle.rmeworld.specs.WorldState.{new_refusal};
ghost use Rattle.robust.specs.NewMembers.{fresh_members};

use crate::access::port::{Port, data_words};
use crate::access::table::LockTable;
use crate::member::Member;
use redomail::Layout;
use rmecore::Refusal;
use rmeworld::size::size_refusal;
use std::alloc::{AllocError, Global};
use std::sync::Arc;
use table_runs::Setup;

/// Makes the members of a running lock and its mailbox.
pub struct Arena;

impl Arena {
    /// Makes a new table and one member for each process: member p belongs to process p, and all views are empty. `procs` is
    /// 1 to 64 processes, `limit` the greatest number, 1 to 2^62, `cap` the room for 1 to 65,536 messages, and `width` their
    /// 1 to 8 words.
    ///
    /// `BadProcs`, `BadLimit`, `BadCap` or `BadWidth`: that size is outside its limits, and the first such one is named.
    /// `OutOfMemory`: nothing was made.
    pub fn new<R>(
        _rt: &R,
        alloc: Global,
        procs: u64,
        limit: u64,
        cap: u64,
        width: u64,
    ) -> Result<Vec<Member>, Refusal>
        ensures made { IfOk result (λ v. (t : TableId) × (v.items
            ≡ fresh_members t (record { layout = record { procs = procs; cap = cap; width = width }; limit = limit }))) }
        ensures accepted { OnOk result (new_refusal (record { procs = procs; cap = cap; width = width }) limit ≡ None) }
        ensures refused { IfErr result (λ e. (new_refusal (record { procs = procs; cap = cap; width = width }) limit
            ≡ Some e) ⊎ ((e ≡ Refusal.OutOfMemory) × (new_refusal (record { procs = procs; cap = cap; width = width }) limit
            ≡ None))) }
    {
        let layout = Layout { procs, cap, width };
        if let Some(refusal) = size_refusal(layout, limit) {
            return Err(refusal);
        }
        match make(alloc, Setup { layout, limit }) {
            Ok(members) => Ok(members),
            Err(_) => Err(Refusal::OutOfMemory),
        }
    }
}

/// A new table of zeros with these sizes, and a member for each process. `AllocError`: out of memory.
fn make(alloc: Global, setup: Setup) -> Result<Vec<Member>, AllocError>
    requires size { IsSize setup.layout }
    requires limited { (1 ≤ setup.limit) × (setup.limit ≤ 2 ^ 62) }
    ensures { IfOk result (λ v. (t : TableId) × (v.items ≡ fresh_members t setup)) }
{
    let count = 3 * setup.layout.procs + data_words(&setup.layout);
    let words = Vec::from_elem(alloc, 0u64, count as usize)?;
    let (board, mut seat) = LockTable::of_words(alloc, words.as_slice(), &setup)?;
    let board = Arc::new(alloc, board)?;
    let procs = setup.layout.procs;
    let mut members = Vec::with_capacity(alloc, procs as usize)?;
    for p in 0..procs {
        let port = Port::first(&board, &mut seat, setup, p)?;
        members.push(Member::new(port))?;
    }
    Ok(members)
}
