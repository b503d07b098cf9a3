//! The world's history: reserving room for a deed, and appending it.

ghost use Rattle.std.specs.Prelude.{◌≡◌, ◌<◌, ◌⊎◌, ◌++◌, is_some, true, IfErr, OnOk, OnErr, Some, vec_len, vec_capacity, length, []};
ghost use Rattle.redomail.specs.Layout.{words_of, size};
ghost use Rattle.rmeworld.specs.Replayed.{list_of, deeds_ahead};
ghost use Rattle.rmeworld.specs.MachineState.{next_access};

use crate::memory::deed_of;
use crate::process::Process;
use redomail::Deed;
use rmecore::{Access, Refusal};

/// `make_room` where the history is full.
// Apart: the history is seldom full.
#[inline(never)]
fn make_more_room(
    history: &mut Vec<Deed>,
    process: &Process,
    cells: &[u64],
    access: Access,
    found: u64,
) -> Result<(), Refusal>
    requires next { next_access process.now ≡ Some access }
    requires filled { length cells.now ≡ size process.now.layout }
    ensures same { history.new.items ≡ history.old.items }
    ensures room { OnOk result (vec_len history.new < vec_capacity history.new)
        ⊎ (deeds_ahead process.now (words_of cells.now) access found ≡ []) }
    ensures some { OnErr result ((deeds_ahead process.now (words_of cells.now) access found ≡ []) → ⊥) }
    ensures memory { IfErr result (λ e. e ≡ Refusal.OutOfMemory) }
{
    let outer = process.outlook(found).progress.outer;
    if deed_of(process.layout(), process.index(), cells, access, outer).is_some() {
        history.reserve(1)?;
    }
    Ok(())
}

/// Reserves room for the deed that the next step may do. Only if the history is full is the step worked out in advance.
/// `OutOfMemory`: the room could not be reserved, and nothing changed.
pub fn make_room(
    history: &mut Vec<Deed>,
    process: &Process,
    cells: &[u64],
    access: Access,
    found: u64,
) -> Result<(), Refusal>
    requires next { next_access process.now ≡ Some access }
    requires filled { length cells.now ≡ size process.now.layout }
    ensures same { history.new.items ≡ history.old.items }
    ensures room { OnOk result (vec_len history.new < vec_capacity history.new)
        ⊎ (deeds_ahead process.now (words_of cells.now) access found ≡ []) }
    ensures some { OnErr result ((deeds_ahead process.now (words_of cells.now) access found ≡ []) → ⊥) }
    ensures memory { IfErr result (λ e. e ≡ Refusal.OutOfMemory) }
{
    if history.len() < history.capacity() {
        return Ok(());
    }
    make_more_room(history, process, cells, access, found)
}

/// Appends the deed, if there is one. It does not allocate.
pub fn note(history: &mut Vec<Deed>, deed: &Option<Deed>)
    requires { is_some deed.now ≡ true → vec_len history.old < vec_capacity history.old }
    ensures { history.new.items ≡ history.old.items ++ list_of deed.now }
{
    if let Some(deed) = deed {
        history.push(*deed).unwrap();
    }
}
