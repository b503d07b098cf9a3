//! Gathering: all members of an arena become one again, and its words are read.
ghost use Rattle.std.specs.Prelude.{◌≡◌, ℕ, ◌<◌, ◌≤◌, ◌∷◌, ◌++◌, vec_capacity, map, length, true, false, [], All, IfOk, IfErr};
ghost use Rattle.std.specs.Arc.{arc_value};
ghost use Rattle.redomail.specs.Layout.{size};
ghost use Rattle.rmeworld.specs.ImageRules.{IsLawfulImage};
ghost use Rattle.rmeworld.specs.MachineState.{IsSize};
ghost use Rattle.table_runs.specs.declared.gather_fault.GatherFault.TheVariants.{NotAll, OutOfMemory};
ghost use Rattle.table_runs.specs.Runs.{InTable, IsRun, end_of, has as answers_for, word_count};
ghost use Rattle.table_runs.specs.Rule.{count_from, Did, IsViewOf, stepper};
ghost use Rattle.table_runs.specs.SeatView.{single_seat, glance_step};
ghost use Rattle.table_runs.specs.GatheredRuns.{OneArena, has_member, IsMissing, Gathers, Knows, Absorbs, AnswersAll, Looked, Stays};

use crate::access::port::{Port, data_words, index};
use crate::access::table;
use crate::access::table::{LockTable, RunSeat};
use crate::member::Member;
use rmecore::{Own, Word};
use rmeworld::{DataWords, Image, Owns};
use std::alloc::Global;
use std::sync::Arc;
use table_runs::{GatherFault, Setup};

/// The words of an arena as an image, once all its members are back: the words at the end of the one run of which each
/// member's view is a prefix. The caller gives members of one arena, in any order.
///
/// With a fault the members are handed back as they were. `NotAll`: a member of the arena is missing. `OutOfMemory`: there
/// was no room for the words.
///
/// The first member's seat joins the others' seats into its own, with a glance before each joining, and then reads each word
/// by a glance. No other member is left that could step. All memory is taken before the first joining.
pub fn gather(alloc: Global, mut members: Vec<Member>) -> Result<Image, (Vec<Member>, GatherFault)>
    requires arena { OneArena members.items }
    ensures gathered { IfOk result (Gathers members.items) }
    ensures lawful { IfOk result IsLawfulImage }
    ensures handed_back { IfErr result (λ e. e.0.items ≡ members.items) }
    ensures missing { IfErr result (λ e. e.1 ≡ NotAll → IsMissing members.items) }
    ensures memory { IfErr result (λ e. e.1 ≡ OutOfMemory → ¬ IsMissing members.items) }
{
    if members.is_empty() {
        return Err((members, GatherFault::NotAll));
    }
    let setup = members[0].setup();
    if !has_all(members.as_slice(), setup.layout.procs) {
        return Err((members, GatherFault::NotAll));
    }
    let Ok(lock) = Vec::with_capacity(alloc, setup.layout.procs as usize) else {
        return Err((members, GatherFault::OutOfMemory));
    };
    let Ok(cells) = Vec::with_capacity(alloc, data_words(&setup.layout) as usize) else {
        return Err((members, GatherFault::OutOfMemory));
    };
    let first = members.remove(0);
    Ok(read_all(members, first, lock, cells))
}

/// Whether one of these members is of process p.
fn has(members: &[Member], p: u64) -> bool
    ensures { result ≡ has_member p members.now }
{
    members.iter().any(|member| member.number() == p)
}

/// Whether there is a member of each process.
fn has_all(members: &[Member], procs: u64) -> bool
    ensures yes { result ≡ true → (p : ℕ) → p < procs → has_member p members.now ≡ true }
    ensures no { result ≡ false → ((p : ℕ) × (p < procs) × (has_member p members.now ≡ false)) }
{
    for p in 0..procs {
        if !has(members, p) {
            return false;
        }
    }
    true
}

/// A glance of a seat that answers for one or more processes.
fn look(table: &LockTable, seat: &mut RunSeat, setup: &Setup, word: Word) -> u64
    requires table { (seat.old.table_id ≡ table.now.shared.table_id) × (seat.old.table_id.words ≡ word_count setup.now) }
    requires setup { seat.old.me.0.view.setup ≡ setup.now }
    requires size { IsSize setup.now.layout }
    requires word { InTable setup.now word }
    requires some { answers_for (stepper seat.old.me.0.view) seat.old.me.0.view.answers ≡ true }
    ensures same { (seat.new.table_id ≡ seat.old.table_id) × (seat.new.me.1 ≡ seat.old.me.1) }
    ensures did { Did (glance_step word) seat.old.me.0 result seat.new.me.0 }
{
    let at = index(setup, word);
    table::glance(table, seat, word, at)
}

/// Joins the other seat into this one, which then answers for the other's process too. It takes a glance first: the glance
/// shows that all views joined so far are prefixes of one run.
fn absorb(table: &LockTable, seat: &mut RunSeat, setup: &Setup, other: Port)
    requires table { (seat.old.table_id ≡ table.now.shared.table_id) × (seat.old.table_id.words ≡ word_count setup.now)
        × (other.table ≡ seat.old.table_id) }
    requires setup { seat.old.me.0.view.setup ≡ setup.now }
    requires size { IsSize setup.now.layout }
    requires some { answers_for (stepper seat.old.me.0.view) seat.old.me.0.view.answers ≡ true }
    ensures same { (seat.new.table_id ≡ seat.old.table_id) × (seat.new.me.1 ≡ seat.old.me.1) }
    ensures absorbs { Absorbs seat.old.me.0 other seat.new.me.0 }
{
    look(table, seat, setup, Word::Choosing(0));
    let (_, theirs) = other.into_parts();
    table::take_in(table, seat, theirs);
}

/// Joins the seats of all others into the first member's seat.
fn join_all(
    mut others: Vec<Member>,
    first: Member,
    setup: &Setup,
) -> (Arc<LockTable, Global>, RunSeat)
    requires arena { OneArena (first ∷ others.items) }
    requires setup { setup.now ≡ first.seat_view.setup }
    ensures table { (result.1.table_id ≡ (arc_value result.0).shared.table_id) × (result.1.table_id.words ≡ word_count setup.now) }
    ensures knows { Knows first others.items (length others.items) result.1.me.0 }
{
    let (board, mut seat) = first.into_port().into_parts();
    while let Some(other) = others.pop() {
        absorb(&board, &mut seat, setup, other.into_port());
    }
    (board, seat)
}

/// A glance of a seat that answers for all processes.
fn read(table: &LockTable, seat: &mut RunSeat, setup: &Setup, word: Word) -> u64
    requires table { (seat.old.table_id ≡ table.now.shared.table_id) × (seat.old.table_id.words ≡ word_count setup.now) }
    requires size { IsSize setup.now.layout }
    requires word { InTable setup.now word }
    requires all { AnswersAll setup.now seat.old.me.0.view }
    ensures same { seat.new.table_id ≡ seat.old.table_id }
    ensures looked { Looked setup.now word seat.old.me.0 result seat.new.me.0 }
{
    look(table, seat, setup, word)
}

/// The three lock words of a process.
fn read_own(table: &LockTable, seat: &mut RunSeat, setup: &Setup, p: u64) -> Own
    requires table { (seat.old.table_id ≡ table.now.shared.table_id) × (seat.old.table_id.words ≡ word_count setup.now) }
    requires size { IsSize setup.now.layout }
    requires within { p < setup.now.layout.procs }
    requires all { AnswersAll setup.now seat.old.me.0.view }
    ensures same { seat.new.table_id ≡ seat.old.table_id }
    ensures stays { Stays setup.now seat.old.me.0 seat.new.me.0 }
    ensures own { result ≡ (end_of setup.now seat.old.me.0.view.seen).words p }
{
    let choosing = read(table, seat, setup, Word::Choosing(p));
    let number = read(table, seat, setup, Word::Number(p));
    let inside = read(table, seat, setup, Word::Inside(p));
    Own {
        choosing,
        number,
        inside,
    }
}

/// Reads the lock words of all processes.
fn read_lock(table: &LockTable, seat: &mut RunSeat, setup: &Setup, lock: &mut Vec<Own>)
    requires table { (seat.old.table_id ≡ table.now.shared.table_id) × (seat.old.table_id.words ≡ word_count setup.now) }
    requires size { IsSize setup.now.layout }
    requires all { AnswersAll setup.now seat.old.me.0.view }
    requires room { (lock.old.items ≡ []) × (setup.now.layout.procs ≤ vec_capacity lock.old) }
    ensures same { seat.new.table_id ≡ seat.old.table_id }
    ensures stays { Stays setup.now seat.old.me.0 seat.new.me.0 }
    ensures lock { lock.new.items ≡ map (end_of setup.now seat.old.me.0.view.seen).words (count_from 0 setup.now.layout.procs) }
{
    for p in 0..setup.layout.procs {
        let own = read_own(table, seat, setup, p);
        lock.push_reserved(own);
    }
}

/// Reads all data words.
fn read_cells(table: &LockTable, seat: &mut RunSeat, setup: &Setup, cells: &mut Vec<u64>)
    requires table { (seat.old.table_id ≡ table.now.shared.table_id) × (seat.old.table_id.words ≡ word_count setup.now) }
    requires size { IsSize setup.now.layout }
    requires all { AnswersAll setup.now seat.old.me.0.view }
    requires room { (cells.old.items ≡ []) × (size setup.now.layout ≤ vec_capacity cells.old) }
    ensures cells { cells.new.items ≡ map (end_of setup.now seat.old.me.0.view.seen).cells (count_from 0 (size setup.now.layout)) }
{
    for i in 0..data_words(&setup.layout) {
        let cell = read(table, seat, setup, Word::Data(i));
        cells.push_reserved(cell);
    }
}

/// Joins the seats of all members into one, and reads all words through it.
fn read_all(others: Vec<Member>, first: Member, mut lock: Vec<Own>, mut cells: Vec<u64>) -> Image
    requires arena { OneArena (first ∷ others.items) }
    requires all { (p : ℕ) → p < first.seat_view.setup.layout.procs → has_member p (first ∷ others.items) ≡ true }
    requires lock { (lock.items ≡ []) × (first.seat_view.setup.layout.procs ≤ vec_capacity lock) }
    requires cells { (cells.items ≡ []) × (size first.seat_view.setup.layout ≤ vec_capacity cells) }
    ensures gathers { Gathers (first ∷ others.items) result }
    ensures lawful { IsLawfulImage result }
{
    let setup = first.setup();
    let (board, mut seat) = join_all(others, first, &setup);
    read(&board, &mut seat, &setup, Word::Choosing(0));
    read_lock(&board, &mut seat, &setup, &mut lock);
    read_cells(&board, &mut seat, &setup, &mut cells);
    Image {
        cap: setup.layout.cap,
        cells: DataWords::new(cells),
        limit: setup.limit,
        lock: Owns::new(lock),
        version: 2,
        width: setup.layout.width,
    }
}
