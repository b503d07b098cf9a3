//! The words in plain memory, and the deeds of puts.

ghost use Rattle.std.specs.Prelude.{◌≡◌, ℕ, [], IsTrue, length, slice_index, slice_set};
ghost use Rattle.rmecore.specs.Machine.{word_of};
ghost use Rattle.rmecore.specs.Simulated.{own_at};
ghost use Rattle.redomail.specs.Deeds.{deeds_of_put};
ghost use Rattle.redomail.specs.declared.layout.Layout.{Layout as LayoutOf};
ghost use Rattle.redomail.specs.Layout.{IsLayout, Words, words_of, size};
ghost use Rattle.rmeworld.specs.MachineState.{InWords};
ghost use Rattle.rmeworld.specs.World.{reading_of};
ghost use Rattle.rmeworld.specs.Replayed.{words_by, cells_by, mail_by, or_else, list_of};

use redomail::contents::value_at;
use redomail::layout::{ARMED, CLOSED, COUNT, RECORD, RUINED};
use redomail::{Deed, Layout};
use rmecore::{Access, Outer, Own, Word};

/// The data word at an index, 0 past the end.
// Inline: one call a load.
#[inline(always)]
fn cell(cells: &[u64], i: u64) -> u64
    ensures { result ≡ slice_index cells.now i }
{
    match cells.get(i as usize) {
        Some(value) => *value,
        None => 0,
    }
}

/// The current value of a word.
// Inline: one call a step.
#[inline(always)]
pub fn load(words: &[Own], cells: &[u64], word: Word) -> u64
    requires { InWords (length words.now) word }
    ensures { result ≡ reading_of (own_at words.now) (words_of cells.now) word }
{
    match word {
        Word::Choosing(p) => words[p as usize].choosing,
        Word::Number(p) => words[p as usize].number,
        Word::Inside(p) => words[p as usize].inside,
        Word::Data(i) => cell(cells, i),
    }
}

/// Performs the access if it is a store. A load changes nothing.
// Inline: one call a step.
#[inline(always)]
pub fn store(words: &mut [Own], cells: &mut [u64], access: Access)
    requires { InWords (length words.old) (word_of access) }
    ensures words { words.new ≡ words_by words.old access }
    ensures cells { cells.new ≡ cells_by cells.old access }
{
    let Access::Store(_, word, value) = access else {
        return;
    };
    match word {
        Word::Choosing(p) => words[p as usize].choosing = value,
        Word::Number(p) => words[p as usize].number = value,
        Word::Inside(p) => words[p as usize].inside = value,
        Word::Data(i) => put(cells, i, value),
    }
}

/// Stores a value into the data word at an index. Past the end nothing changes.
// Inline: one call a store.
#[inline(always)]
fn put(cells: &mut [u64], i: u64, value: u64)
    ensures { cells.new ≡ slice_set cells.old i value }
{
    if i < cells.len() as u64 {
        cells[i as usize] = value;
    }
}

#[tactic(auto, unfolding(redomail::specs::Layout::place_at))]
/// The deed of a put by process `p`, if it has one. Commit and Show carry the record of the data words.
fn put_deed(layout: Layout, p: u64, cells: &[u64], i: u64, value: u64) -> Option<Deed>
    requires size { IsLayout layout }
    requires filled { length cells.now ≡ size layout }
    ensures { deeds_of_put layout p (words_of cells.now) i value ≡ list_of result }
{
    if cell(cells, i) == value {
        return None;
    }
    match (i, value) {
        (ARMED, 1) => Some(Deed::Commit {
            p,
            seq: cell(cells, RECORD + 1),
            v: value_at(cells, RECORD + 2, layout.width),
        }),
        (COUNT, _) => Some(Deed::Show {
            p,
            at: value.saturating_sub(1),
            seq: cell(cells, RECORD + 1),
            v: value_at(cells, RECORD + 2, layout.width),
        }),
        (CLOSED, 1) => Some(Deed::Close { p }),
        (RUINED, 1) => Some(Deed::Ruin { p }),
        _ => None,
    }
}

/// Whether the access certainly has no deed of the mailbox: it is not a put, or it is a put after the first four data words.
// Inline: one call a silent step.
#[inline(always)]
pub fn puts_silently(access: Access) -> bool
    ensures { IsTrue result → (l : LayoutOf) → (p : ℕ) → (cells : Words) → mail_by l p cells access ≡ [] }
{
    match access {
        Access::Store(_, Word::Data(i), _) => i > ARMED,
        Access::Store(..) | Access::Load(..) => true,
    }
}

/// The deed of a step of process `p`, if it has one: the lock's, or that of a put.
// Inline: one call a step.
#[inline(always)]
pub fn deed_of(
    layout: Layout,
    p: u64,
    cells: &[u64],
    access: Access,
    outer: Option<Outer>,
) -> Option<Deed>
    requires size { IsLayout layout }
    requires filled { length cells.now ≡ size layout }
    ensures { or_else outer (mail_by layout p (words_of cells.now) access) ≡ list_of result }
{
    match (outer, access) {
        (Some(outer), _) => Some(Deed::Outer(outer)),
        (None, Access::Store(_, Word::Data(i), value)) => put_deed(layout, p, cells, i, value),
        (None, _) => None,
    }
}
