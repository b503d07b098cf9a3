//! An append by one feed: of the three words that it loads first. Its stores are named all together, and C makes them in order
//! after.

ghost use Rattle.std.specs.Prelude.{◌≡◌, ◌≢◌, ℕ, ◌+◌, ◌*◌, ◌<◌, ◌≤◌, ◌↔◌, ◌∷◌, true, None, length, take, slice_index};
ghost use Rattle.redomail.specs.Layout.{saturate};
ghost use Rattle.rme_c.specs.Positions.{machine_state_of, position_of, FitsPosition};
ghost use Rattle.rme_c.specs.Runs.{counted_at};
ghost use Rattle.rme_c.specs.Stores.{append_begins, named_to, store_at, IsStored, IsAppended};
ghost use Rattle.rme_c.specs.declared.position.Position.TheVariants as PositionOf;
ghost use Rattle.rme_c.specs.declared.script_position.ScriptPosition.TheVariants as ScriptPositionOf;

use crate::accesses::next_at;
use crate::answers::tell;
use crate::position::{Position, append_position, layout, machine_state};
use crate::process::{RmeAccess, RmeProcess, RmeStores};
use crate::runs::MANY;
use crate::script_position::ScriptPosition;
use crate::steps::{after_decision, after_store};
use redomail::layout::{ARMED, COUNT, RECORD};
use redomail::record::row_word;

/// A message that is stored: its place and its number. Its words are those of the process.
#[derive(Clone, Copy)]
struct NewMessage {
    at: u64,
    seq: u64,
}

/// Names one store of an append after those before it.
// Inline: each store of an append.
#[inline(always)]
fn name(
    p: &RmeProcess,
    entry: NewMessage,
    step: u64,
    place: u64,
    value: u64,
    each: &mut [RmeAccess; 24],
)
    requires before { take step each.old ≡ named_to p.now entry.at entry.seq step }
    requires next { store_at p.now entry.at entry.seq step ≡ record { store = 1; place = place; value = value } }
    requires few { step < 24 }
    requires room { length each.old ≡ 24 }
    ensures room { length each.new ≡ 24 }
    ensures named { take (step + 1) each.new ≡ named_to p.now entry.at entry.seq (step + 1) }
{
    // For the proof alone: their values are read.
    let _ = (p.index, entry.at);
    each[step as usize] = RmeAccess {
        store: 1,
        place,
        value,
    };
}

/// Names the stores of a row that begins at this place of the block: a first word, the number, and the words of the message.
// Inline: twice in each append.
#[inline(always)]
fn name_row(
    p: &RmeProcess,
    entry: NewMessage,
    step: u64,
    start: u64,
    first: u64,
    each: &mut [RmeAccess; 24],
)
    requires before { take step each.old ≡ named_to p.now entry.at entry.seq step }
    requires row { (j : ℕ) → j < 2 + p.now.width → store_at p.now entry.at entry.seq (step + j) ≡ record {
      store = 1;
      place = saturate (start + j);
      value = slice_index (first ∷ entry.seq ∷ take p.now.width p.now.value) j;
    } }
    requires few { p.now.width ≤ 8 }
    requires fits { step + (2 + p.now.width) ≤ 24 }
    requires room { length each.old ≡ 24 }
    ensures room { length each.new ≡ 24 }
    ensures named { take (step + (2 + p.now.width)) each.new ≡ named_to p.now entry.at entry.seq (step + (2 + p.now.width)) }
{
    for j in 0..2 + p.width {
        let value = row_word(first, entry.seq, &p.value, p.width, j);
        name(p, entry, step + j, start.saturating_add(j), value, each);
    }
}

/// Names the stores of an append, in order.
// Inline: once in each append.
#[inline(always)]
fn name_stores(p: &RmeProcess, entry: NewMessage, each: &mut [RmeAccess; 24])
    requires fits { FitsPosition p.now (PositionOf.Within (ScriptPositionOf.Store entry.at entry.seq 0)) }
    requires eight { length p.now.value ≡ 8 }
    requires room { length each.old ≡ 24 }
    ensures room { length each.new ≡ 24 }
    ensures named { take (8 + 2 * p.now.width) each.new ≡ named_to p.now entry.at entry.seq (8 + 2 * p.now.width) }
{
    let layout = layout(p);
    let data = 3 * p.procs;
    let row = 2 + p.width;
    let place = layout.place(entry.at, 0).saturating_add(data);
    name_row(p, entry, 0, data + RECORD, entry.at, each);
    name(p, entry, row, data + ARMED, 1, each);
    name_row(p, entry, row + 1, place, p.index, each);
    name(
        p,
        entry,
        2 * row + 1,
        data + layout.last(p.index),
        entry.seq,
        each,
    );
    name(
        p,
        entry,
        2 * row + 2,
        data + COUNT,
        entry.at.saturating_add(1),
        each,
    );
    name(p, entry, 2 * row + 3, data + ARMED, 0, each);
}

/// Names the stores of an append, in order, and takes their steps, after those of its three loads.
// Inline: once in each append.
#[inline(always)]
fn store_all(p: &mut RmeProcess, entry: NewMessage, stores: &mut RmeStores, next: &mut RmeAccess)
    requires fits { FitsPosition p.old (PositionOf.Within (ScriptPositionOf.Store entry.at entry.seq 0)) }
    requires eight { length p.old.value ≡ 8 }
    requires room { length stores.old.each ≡ 24 }
    requires few { p.old.steps < 4611686018427387904 }
    ensures stored { IsStored (counted_at p.old (p.old.steps + 3) (PositionOf.Within (ScriptPositionOf.Store entry.at entry.seq 0)))
        p.new stores.new next.new }
    ensures some { 0 < stores.new.count }
{
    let count = 8 + 2 * p.width;
    name_stores(p, entry, &mut stores.each);
    stores.count = count;
    let (to, reports) = after_store(p, entry.at, entry.seq, count - 1, 0);
    machine_state(p, to);
    p.steps += 3 + count;
    stores.reports = tell(p.procs, reports, next_at(p, to), next);
}

/// Takes the steps of an append that has loaded these three words, and those of its stores.
// Inline: once in each append.
#[inline(always)]
fn append_run(
    p: &mut RmeProcess,
    seq: u64,
    closed: u64,
    count: u64,
    last: u64,
    stores: &mut RmeStores,
    next: &mut RmeAccess,
)
    requires here { position_of p.old ≡ PositionOf.Within (ScriptPositionOf.Closed seq) }
    requires fits { FitsPosition p.old (PositionOf.Within (ScriptPositionOf.Closed seq)) }
    requires eight { length p.old.value ≡ 8 }
    requires room { length stores.old.each ≡ 24 }
    requires few { p.old.steps < 4611686018427387904 }
    ensures { IsAppended p.old closed count last p.new stores.new next.new }
{
    let (to, reports) = after_decision(p, seq, closed, count, last);
    match to {
        Position::Within(ScriptPosition::Store { at, seq, step: 0 }) => {
            store_all(p, NewMessage { at, seq }, stores, next);
        }
        _ => {
            machine_state(p, to);
            p.steps += 3;
            stores.count = 0;
            stores.reports = tell(p.procs, reports, next_at(p, to), next);
        }
    }
}

/// Feeds an append the words that it loads first: data word 1, data word 2, and its own last number, data word 10 + width + index.
/// Where they let it store its message, it also takes the steps of its stores, and names them in order: C makes them after. 1: that is
/// done. 0: no append is at its first load, or the call has taken 2^62 steps, and nothing changed.
#[unsafe(no_mangle)]
pub extern "C" fn rme_feed_append(
    p: &mut RmeProcess,
    closed: u64,
    count: u64,
    last: u64,
    stores: &mut RmeStores,
    next: &mut RmeAccess,
) -> u64
    ensures fed { result ≡ 1 → IsAppended p.old closed count last p.new stores.new next.new }
    ensures other { result ≢ 1 → (result ≡ 0) × (p.new ≡ p.old) × (stores.new ≡ stores.old) × (next.new ≡ next.old) }
    ensures when { result ≡ 1 ↔ (append_begins (machine_state_of p.old).script_state ≡ true) × (p.old.steps < 4611686018427387904) }
{
    // For the proof alone: their values are read.
    let (_whole, _room) = (*p, *stores);
    match append_position(p) {
        Some(ScriptPosition::Closed { seq }) if p.steps < MANY => {
            append_run(p, seq, closed, count, last, stores, next);
            1
        }
        _ => 0,
    }
}
