//! The fast path of an append by a holder with nothing to mend, for plans that never fall: its gets and puts as plain loads
//! and stores, proved to be the run of its steps. The machine isn't used, and is in the same state afterwards.
ghost use Rattle.std.specs.Prelude.{◌≡◌, ℕ, ◌+◌, ◌*◌, ◌<◌, ◌≤◌, ◌∷◌, true, length, drop, slice_index};
ghost use Rattle.rmecore.specs.Place.{Inside};
ghost use Rattle.redomail.specs.Layout.{size};
ghost use Rattle.redomail.specs.Tasks.{append_decision};
ghost use Rattle.redomail.specs.declared.reply.Reply.TheVariants.{Stored};
ghost use Rattle.rmeworld.specs.declared.answer.Answer.TheVariants.{Mail};
ghost use Rattle.table_runs.specs.SeatView.{process_state_now};
ghost use Rattle.table_runs.specs.Under.{Appends};
ghost use Rattle.robust.specs.FastPath.{free_process_state, IsClear, IsSame, Unanswered, EndsIn};
ghost use Rattle.robust.specs.FastAppend.{at_append, append_begun, HasLeft, IsSenderOf, steps_of, stored_so_far};

use crate::access::port::Port;
use redomail::Reply;
use redomail::append::early_reply;
use redomail::layout::{ARMED, CLOSED, COUNT, RECORD};
use redomail::record::row_word;
use rmecore::{Body, Kind, Word};
use table_runs::Setup;

/// The words that an append reads first: whether the mailbox is closed, count, and the sender's last number.
#[derive(Clone, Copy)]
struct Heads {
    closed: u64,
    count: u64,
    last: u64,
}

/// A message to be stored at place `at`, with the sizes of its arena and its sender.
#[derive(Clone, Copy)]
struct NewEntry {
    setup: Setup,
    own: u64,
    at: u64,
    seq: u64,
    value: Body,
}

/// Reads the three words.
fn read_heads(port: &mut Port, seq: u64, value: &Body) -> Heads
    requires at { process_state_now port.old ≡ append_begun port.old seq value.now }
    ensures at { process_state_now port.new ≡ at_append seq value.now
        (append_decision port.old.setup.layout port.old.by seq value.now result.closed result.count result.last) }
    ensures left { HasLeft port.old 3
        (append_decision port.old.setup.layout port.old.by seq value.now result.closed result.count result.last) port.new }
    ensures room { result.count ≤ port.old.setup.layout.cap }
    ensures clear { IsClear port.new }
    ensures same { IsSame port.old port.new }
{
    // For the proof alone: its value is read.
    let _ = seq;
    let _ = value;
    let layout = port.setup().layout;
    let own = port.by();
    let closed = port.load(Kind::Get, Word::Data(CLOSED));
    let count = port.load(Kind::Get, Word::Data(COUNT));
    let last = port.load(Kind::Get, Word::Data(layout.last(own)));
    Heads {
        closed,
        count,
        last,
    }
}

/// One put of a storing append, but not the last.
fn put(port: &mut Port, entry: &NewEntry, step: u64, i: u64, v: u64)
    requires clear { IsClear port.old }
    requires of { IsSenderOf port.old entry.now }
    requires table { i < size entry.now.setup.layout }
    requires more { step + 1 < 8 + 2 * length entry.now.value }
    requires next { drop step (steps_of entry.now) ≡ (i, v) ∷ drop (step + 1) (steps_of entry.now) }
    requires at { process_state_now port.old ≡ stored_so_far entry.now step }
    ensures at { process_state_now port.new ≡ stored_so_far entry.now (step + 1) }
    ensures unanswered { Unanswered port.old 1 0 port.new }
    ensures clear { IsClear port.new }
    ensures of { IsSenderOf port.new entry.now }
{
    // For the proof alone: its value is read.
    let _ = step;
    let _ = entry;
    port.store(Kind::Put, Word::Data(i), v);
}

/// The puts of a row: a first word, the sequence number, and the words of the value.
fn put_row(port: &mut Port, entry: &NewEntry, step: u64, start: u64, first: u64)
    requires clear { IsClear port.old }
    requires of { IsSenderOf port.old entry.now }
    requires wide { length entry.now.value ≤ 8 }
    requires table { start + (2 + length entry.now.value) ≤ size entry.now.setup.layout }
    requires small { size entry.now.setup.layout ≤ 900000 }
    requires more { step + (2 + length entry.now.value) < 8 + 2 * length entry.now.value }
    requires row { (j : ℕ) → j < 2 + length entry.now.value
        → drop (step + j) (steps_of entry.now) ≡ (start + j, slice_index (first ∷ entry.now.seq ∷ entry.now.value) j)
        ∷ drop (step + j + 1) (steps_of entry.now) }
    requires at { process_state_now port.old ≡ stored_so_far entry.now step }
    ensures at { process_state_now port.new ≡ stored_so_far entry.now (step + (2 + length entry.now.value)) }
    ensures unanswered { Unanswered port.old (2 + length entry.now.value) 0 port.new }
    ensures clear { IsClear port.new }
    ensures of { IsSenderOf port.new entry.now }
{
    let width = entry.value.width();
    for j in 0..2 + width {
        let word = row_word(first, entry.seq, entry.value.seam_words(), width, j);
        put(port, entry, step + j, start + j, word);
    }
}

/// All puts of a storing append: the record, the commit (armed := 1), the entry at its place, the sender's last number,
/// count, and armed := 0.
fn store(port: &mut Port, entry: &NewEntry)
    requires clear { IsClear port.old }
    requires of { IsSenderOf port.old entry.now }
    requires wide { length entry.now.value ≡ entry.now.setup.layout.width }
    requires room { entry.now.at < entry.now.setup.layout.cap }
    requires at { process_state_now port.old ≡ stored_so_far entry.now 0 }
    ensures at { process_state_now port.new ≡ free_process_state Inside true }
    ensures ends { EndsIn port.old (8 + 2 * length entry.now.value) (Mail Stored) port.new }
    ensures of { IsSenderOf port.new entry.now }
{
    // For the proof alone: its value is read.
    let _seat_view = port.by();
    let layout = entry.setup.layout;
    let row = 2 + entry.value.width();
    put_row(port, entry, 0, RECORD, entry.at);
    put(port, entry, row, ARMED, 1);
    put_row(port, entry, row + 1, layout.place(entry.at, 0), entry.own);
    put(port, entry, 2 * row + 1, layout.last(entry.own), entry.seq);
    put(port, entry, 2 * row + 2, COUNT, entry.at + 1);
    port.store(Kind::Put, Word::Data(ARMED), 0);
}

/// The steps of an append, right after its start. Answers its reply and the number of steps.
pub fn append(port: &mut Port, seq: u64, value: &Body) -> (Reply, u64)
    requires wide { length value.now ≡ port.old.setup.layout.width }
    requires at { process_state_now port.old ≡ append_begun port.old seq value.now }
    ensures at { process_state_now port.new ≡ free_process_state Inside true }
    ensures ends { EndsIn port.old result.1 (Mail result.0) port.new }
    ensures kind { Appends seq result.0 }
    ensures few { result.1 ≤ 27 }
    ensures same { IsSame port.old port.new }
{
    let setup = port.setup();
    let own = port.by();
    let heads = read_heads(port, seq, value);
    match early_reply(setup.layout.cap, seq, heads.closed, heads.count, heads.last) {
        Some(reply) => (reply, 3),
        None => {
            let entry = NewEntry {
                setup,
                own,
                at: heads.count,
                seq,
                value: *value,
            };
            store(port, &entry);
            (Reply::Stored, 11 + 2 * setup.layout.width)
        }
    }
}
