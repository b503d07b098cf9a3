//! Reads the messages from data words, and checks the words.

ghost use Rattle.std.specs.Prelude.{◌≡◌, ℕ, ◌+◌, ◌-◌, ◌<◌, ◌≤◌, ◌^◌, ◌↔◌, ◌⊎◌, IsTrue, IfOk, OnOk, OnErr, IfErr, IsErrOf, IfSome, IsSome, IsNone, IfNone, MatchOption, length, slice_index, slice_set};
ghost use Rattle.redomail.specs.Layout.{words_of, row, last_at, place_at};
ghost use Rattle.redomail.specs.Shape.{entry as entry_of, entries, count_of, recorded_message, IsNumbered, RecordRule};
ghost use Rattle.redomail.specs.Content.{HeadsHold, EntriesHold, IsContent, AreCounts, LastsAre};
ghost use Rattle.redomail.specs.Content.{IsNumberedIn, AreCountsFrom, AreLastsFrom, IsListedIn, IsListedBut, IsNext};

use crate::layout::{ARMED, CLOSED, COUNT, Layout, RECORD, RUINED};
use crate::message::Message;
use rmecore::simulated::MOST_PROCS;
use rmecore::{Body, Refusal};
use std::alloc::{AllocError, Allocator};

/// The messages below count, by rising place ("Content" of the mailbox).
///
/// `BadShape`: the words break a rule of this layout. The layout may be outside the limits too. `OutOfMemory`: an allocation
/// failed.
pub fn content<A: Allocator>(
    alloc: A,
    layout: Layout,
    words: &[u64],
) -> Result<Vec<Message, A>, Refusal>
    ensures messages { IfOk result (λ messages. messages.items ≡ entries layout (words_of words.now) (slice_index words.now 2)) }
    ensures kept { OnOk result (IsContent layout words.now) }
    ensures refused { IsErrOf result Refusal.BadShape → IsContent layout words.now → ⊥ }
    ensures shape { (IsContent layout words.now → ⊥) → IsErrOf result Refusal.BadShape }
    ensures memory { IsErrOf result Refusal.OutOfMemory → IsContent layout words.now }
    ensures only { IfErr result (λ refusal. (refusal ≡ Refusal.BadShape) ⊎ (refusal ≡ Refusal.OutOfMemory)) }
{
    if !heads_hold(layout, words) || !entries_hold(layout, words) {
        return Err(Refusal::BadShape);
    }
    Ok(messages_below(alloc, layout, words)?)
}

/// Whether the entries and the record keep their rules.
fn entries_hold(layout: Layout, words: &[u64]) -> bool
    requires { HeadsHold layout words.now }
    ensures { IsTrue result ↔ EntriesHold layout words.now }
{
    if word(words, ARMED) == 1 {
        some_record(layout, words)
    } else {
        are_listed(layout, words, layout.procs)
    }
}

/// A counter for each of the most processes that a lock can have, all 0.
pub fn counters() -> [u64; 64]
    ensures { (q : ℕ) → slice_index result q ≡ 0 }
{
    [0; 64]
}

/// The word at an index, 0 past the end.
fn word(words: &[u64], i: u64) -> u64
    ensures { result ≡ slice_index words.now i }
{
    words.get(i as usize).copied().unwrap_or(0)
}

/// Whether the length, the width, the flags and count are within the bounds of this layout.
pub fn heads_hold(layout: Layout, words: &[u64]) -> bool
    ensures { IsTrue result ↔ HeadsHold layout words.now }
{
    if layout.width == 0 || layout.width > 8 {
        return false;
    }
    if words.len() as u64 != layout.words() {
        return false;
    }
    let closed = word(words, CLOSED);
    let armed = word(words, ARMED);
    if closed > 1 || armed > 1 || closed + armed == 2 {
        return false;
    }
    word(words, RUINED) <= 1 && word(words, COUNT) <= layout.cap
}

/// The index of the first word of the entry at place `a`.
pub fn place(layout: Layout, words: &[u64], a: u64) -> u64
    requires heads { HeadsHold layout words.now }
    requires room { a < layout.cap }
    ensures at { result ≡ place_at layout a }
    ensures low { 10 + layout.width ≤ result }
    ensures within { result + 2 + layout.width ≤ length words.now }
{
    layout.place(a, 0)
}

/// The `width` words from index `i` on, as a value.
pub fn value_at(words: &[u64], i: u64, width: u64) -> Body
    requires least { 1 ≤ width }
    requires most { width ≤ 8 }
    requires within { i + width ≤ length words.now }
    ensures { result ≡ row (words_of words.now) i width }
{
    let Ok(value) = Body::new(&words[i as usize..(i + width) as usize]) else {
        unreachable!()
    };
    value
}

/// Whether two ranges of words are equal.
fn same_rows(words: &[u64], i: u64, j: u64, width: u64) -> bool
    requires first { i + width ≤ length words.now }
    requires second { j + width ≤ length words.now }
    ensures { IsTrue result ↔ (row (words_of words.now) i width ≡ row (words_of words.now) j width) }
{
    words[i as usize..(i + width) as usize] == words[j as usize..(j + width) as usize]
}

/// The entry at a place.
fn entry(layout: Layout, words: &[u64], a: u64) -> Message
    requires heads { HeadsHold layout words.now }
    requires room { a < layout.cap }
    ensures { result ≡ entry_of layout (words_of words.now) a }
{
    let at = place(layout, words, a);
    Message {
        sender: word(words, at),
        seq: word(words, at + 1),
        value: value_at(words, at + 2, layout.width),
    }
}

/// The messages of the entries below count.
fn messages_below<A: Allocator>(
    alloc: A,
    layout: Layout,
    words: &[u64],
) -> Result<Vec<Message, A>, AllocError>
    requires { HeadsHold layout words.now }
    ensures { IfOk result (λ messages. messages.items ≡ entries layout (words_of words.now) (slice_index words.now 2)) }
{
    let mut messages = Vec::new(alloc);
    for a in 0..word(words, COUNT) {
        messages.push(entry(layout, words, a))?;
    }
    Ok(messages)
}

/// Whether the entries below count are numbered for each sender. If so, `counts` has each sender's number of messages.
/// `counts` has a zero for each process at first. It does not allocate.
pub fn count_entries(layout: Layout, words: &[u64], counts: &mut [u64]) -> bool
    requires heads { HeadsHold layout words.now }
    requires each { length counts.old ≡ layout.procs }
    requires zero { (q : ℕ) → slice_index counts.old q ≡ 0 }
    ensures counts { IsTrue result → AreCounts layout words.now (slice_index words.now 2) counts.new }
    ensures numbered { IsTrue result ↔ IsNumbered layout (words_of words.now) (slice_index words.now 2) }
{
    count_from(layout, words, 0, counts)
}

/// Whether each entry below count has a sender, and those of the processes from `first` on, one for each counter, are
/// numbered. If so, `counts` has the number of messages of each of these processes. `counts` is all zero at first.
fn count_from(layout: Layout, words: &[u64], first: u64, counts: &mut [u64]) -> bool
    requires heads { HeadsHold layout words.now }
    requires zero { (q : ℕ) → slice_index counts.old q ≡ 0 }
    ensures counts { IsTrue result → AreCountsFrom layout words.now (slice_index words.now 2) first counts.new }
    ensures numbered { IsTrue result
        ↔ IsNumberedIn layout (words_of words.now) (slice_index words.now 2) first (first + length counts.old) }
{
    for a in 0..word(words, COUNT) {
        let message = entry(layout, words, a);
        if message.sender >= layout.procs {
            return false;
        }
        if !count_entry(&message, first, counts) {
            return false;
        }
    }
    true
}

/// Counts an entry, where its sender has a counter. False: it has another number than the next of its sender.
fn count_entry(message: &Message, first: u64, counts: &mut [u64]) -> bool
    ensures other { (first ≤ message.now.sender → message.now.sender < first + length counts.old → ⊥)
        → IsTrue result × (counts.new ≡ counts.old) }
    ensures next { first ≤ message.now.sender → message.now.sender < first + length counts.old
        → (IsTrue result ↔ (slice_index counts.old (message.now.sender - first) + 1 ≡ message.now.seq)) }
    ensures counted { first ≤ message.now.sender → message.now.sender < first + length counts.old → IsTrue result
        → counts.new ≡ slice_set counts.old (message.now.sender - first) message.now.seq }
{
    if message.sender < first {
        return true;
    }
    let i = message.sender - first;
    if i >= counts.len() as u64 {
        return true;
    }
    if message.seq == 0 || word(counts, i) != message.seq - 1 {
        return false;
    }
    counts[i as usize] = message.seq;
    true
}

/// Whether the last numbers of all processes except `but` equal these counts.
pub fn lasts_are(layout: Layout, words: &[u64], counts: &[u64], but: u64) -> bool
    requires heads { HeadsHold layout words.now }
    requires counts { length counts.now ≡ layout.procs }
    ensures { IsTrue result ↔ LastsAre layout words.now counts.now but }
{
    lasts_from(layout, words, 0, counts, but)
}

/// Whether the last numbers of the processes from `first` on, one for each count, equal these counts, except that of `but`.
#[tactic(auto, using(crate::proofs::Words::place_low))]
fn lasts_from(layout: Layout, words: &[u64], first: u64, counts: &[u64], but: u64) -> bool
    requires heads { HeadsHold layout words.now }
    requires first { first ≤ layout.procs }
    ensures { IsTrue result ↔ AreLastsFrom layout words.now first counts.now but }
{
    let past = layout.procs.min(first + counts.len() as u64);
    for q in first..past {
        if q != but && word(words, layout.last(q)) != counts[(q - first) as usize] {
            return false;
        }
    }
    true
}

/// Whether the list rule holds for the 64 processes from `first` on, or as many as there are, except `but`.
fn are_listed_from(layout: Layout, words: &[u64], first: u64, but: u64) -> bool
    requires heads { HeadsHold layout words.now }
    requires first { first ≤ layout.procs }
    ensures { IsTrue result ↔ IsListedIn layout (words_of words.now) (slice_index words.now 2) but first (first + 64) }
{
    let mut counts = counters();
    count_from(layout, words, first, &mut counts) && lasts_from(layout, words, first, &counts, but)
}

/// Whether the list rule holds for all processes except `but`. It reads the entries once for 64 processes, whose counters are
/// on the stack.
fn are_listed(layout: Layout, words: &[u64], but: u64) -> bool
    requires { HeadsHold layout words.now }
    ensures { IsTrue result ↔ IsListedBut layout (words_of words.now) (slice_index words.now 2) but }
{
    let blocks = layout.procs.saturating_sub(1) / MOST_PROCS + 1;
    for block in 0..blocks {
        if !are_listed_from(layout, words, block * MOST_PROCS, but) {
            return false;
        }
    }
    true
}

/// Whether the entry at the record's place is the record's message, sent by p.
fn is_recorded(layout: Layout, words: &[u64], p: u64) -> bool
    requires heads { HeadsHold layout words.now }
    requires room { slice_index words.now 4 < layout.cap }
    ensures { IsTrue result
        ↔ (entry_of layout (words_of words.now) (slice_index words.now 4) ≡ recorded_message layout p (words_of words.now)) }
{
    let at = place(layout, words, word(words, RECORD));
    word(words, at) == p
        && word(words, at + 1) == word(words, RECORD + 1)
        && same_rows(words, at + 2, RECORD + 2, layout.width)
}

/// Whether the record rule holds for p.
pub fn has_record(layout: Layout, words: &[u64], counts: &[u64], p: u64) -> bool
    requires heads { HeadsHold layout words.now }
    requires numbered { IsNumbered layout (words_of words.now) (slice_index words.now 2) }
    requires counts { AreCounts layout words.now (slice_index words.now 2) counts.now }
    requires below { p < layout.procs }
    ensures { IsTrue result ↔ RecordRule layout p (words_of words.now) }
{
    lasts_are(layout, words, counts, p) && fits_record(layout, words, counts[p as usize], p)
}

/// Whether the record rule holds for p, where the list rule holds for all others. `entry_count` is the number of p's entries.
#[tactic(auto, using(crate::proofs::Words::place_low))]
fn fits_record(layout: Layout, words: &[u64], counted: u64, p: u64) -> bool
    requires heads { HeadsHold layout words.now }
    requires others { IsListedBut layout (words_of words.now) (slice_index words.now 2) p }
    requires counted { counted ≡ count_of p (entries layout (words_of words.now) (slice_index words.now 2)) }
    requires below { p < layout.procs }
    ensures { IsTrue result ↔ RecordRule layout p (words_of words.now) }
{
    let count = word(words, COUNT);
    let at = word(words, RECORD);
    let seq = word(words, RECORD + 1);
    let last = word(words, layout.last(p));
    if at >= layout.cap {
        return false;
    }
    if count == at {
        if seq == 0 || counted != seq - 1 {
            return false;
        }
        return last == seq - 1 || (last == seq && is_recorded(layout, words, p));
    }
    count == at + 1 && last == counted && is_recorded(layout, words, p)
}

/// The number of p's entries below count.
fn entry_count(layout: Layout, words: &[u64], p: u64) -> u64
    requires { HeadsHold layout words.now }
    ensures { result ≡ count_of p (entries layout (words_of words.now) (slice_index words.now 2)) }
{
    let mut counted = 0;
    for a in 0..word(words, COUNT) {
        if word(words, place(layout, words, a)) == p {
            counted += 1;
        }
    }
    counted
}

/// Whether p is a process for which the record rule holds.
fn keeps_record(layout: Layout, words: &[u64], p: u64) -> bool
    requires { HeadsHold layout words.now }
    ensures { IsTrue result ↔ ((p < layout.procs) × RecordRule layout p (words_of words.now)) }
{
    p < layout.procs
        && are_listed(layout, words, p)
        && fits_record(layout, words, entry_count(layout, words, p), p)
}

/// A process whose last number is the one before the record's.
#[tactic(auto, using(crate::proofs::Words::place_low))]
fn find_next(layout: Layout, words: &[u64]) -> Option<u64>
    requires { HeadsHold layout words.now }
    ensures some { IfSome result (λ q. IsNext layout words.now q) }
    ensures none { IsNone result → (q : ℕ) → IsNext layout words.now q → ⊥ }
{
    let seq = word(words, RECORD + 1);
    for q in 0..layout.procs {
        if seq > 0 && word(words, layout.last(q)) == seq - 1 {
            return Some(q);
        }
    }
    None
}

/// Whether the record rule holds for some process. It then holds for the sender of the entry at the record's place, or for any
/// process whose last number is the one before the record's: the list rule holds for all of these.
fn some_record(layout: Layout, words: &[u64]) -> bool
    requires { HeadsHold layout words.now }
    ensures { IsTrue result ↔ ((q : ℕ) × (q < layout.procs) × RecordRule layout q (words_of words.now)) }
{
    let at = word(words, RECORD);
    if at >= layout.cap {
        return false;
    }
    if keeps_record(layout, words, word(words, place(layout, words, at))) {
        return true;
    }
    match find_next(layout, words) {
        Some(q) => keeps_record(layout, words, q),
        None => false,
    }
}

/// Whether the record rule holds for some process.
pub fn any_record(layout: Layout, words: &[u64], counts: &[u64]) -> bool
    requires heads { HeadsHold layout words.now }
    requires numbered { IsNumbered layout (words_of words.now) (slice_index words.now 2) }
    requires counts { AreCounts layout words.now (slice_index words.now 2) counts.now }
    ensures { IsTrue result ↔ ((q : ℕ) × (q < layout.procs) × RecordRule layout q (words_of words.now)) }
{
    for q in 0..layout.procs {
        if has_record(layout, words, counts, q) {
            return true;
        }
    }
    false
}
