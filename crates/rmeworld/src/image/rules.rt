//! The rules of images.

ghost use Rattle.std.specs.Prelude.{◌≡◌, ◌≢◌, ℕ, ◌-◌, ◌<◌, ◌≤◌, ◌↔◌, IsTrue, IsNone, IfSome, true, length, slice_index};
ghost use Rattle.rmecore.specs.Lawful.{IsRow, IsLawful};
ghost use Rattle.rmecore.specs.Place.{is_before as is_before_of};
ghost use Rattle.rmecore.specs.Simulated.{own_at};
ghost use Rattle.redomail.specs.Layout.{words_of, size};
ghost use Rattle.redomail.specs.Shape.{IsNumbered, RecordRule};
ghost use Rattle.redomail.specs.Content.{AreCounts};
ghost use Rattle.rmeworld.specs.ImageRules.{layout_of, IsVersioned, IsSized, IsInsideByImage, IsListed, IsRecorded, KeepsRules, IsLawfulImage, IsFirstBroken};

use crate::image::Image;
use redomail::Layout;
use redomail::contents::{any_record, count_entries, counters, has_record, heads_hold, lasts_are};
use redomail::layout::{ARMED, RUINED};
use rmecore::Own;
use rmecore::rules::is_before;
use rmecore::simulated::{MOST_LIMIT, MOST_PROCS};

/// The greatest capacity of a mailbox, in messages.
pub const MOST_CAP: u64 = 65_536;
/// The greatest number of words in a message's value.
pub const MOST_WIDTH: u64 = 8;

/// The first of the rules 2 to 9 that an image breaks. None: the image is lawful. Rule 1 is about texts alone.
pub fn first_rule(image: &Image) -> Option<u64>
    ensures lawful { IsNone result ↔ IsLawfulImage image.now }
    ensures broken { IfSome result (λ rule. IsFirstBroken rule image.now) }
{
    for rule in 2..10 {
        if !keeps(image, rule) {
            return Some(rule);
        }
    }
    None
}

/// Whether an image that keeps the rules before this one keeps it too.
fn keeps(image: &Image, rule: u64) -> bool
    requires least { 2 ≤ rule }
    requires most { rule ≤ 9 }
    requires before { KeepsRules (rule - 1) image.now }
    ensures { IsTrue result ↔ KeepsRules rule image.now }
{
    match rule {
        2 => is_versioned(image),
        3 => is_sized(image),
        4 => is_filled(image),
        5 => are_rows(image.lock.as_slice(), image.limit),
        6 => is_first(image.lock.as_slice(), image.limit),
        7 => heads_hold(layout(image), image.cells.as_slice()),
        8 => is_listed(image),
        _ => is_recorded(image),
    }
}

/// The sizes of an image, which decide the indexes of its data words.
pub fn layout(image: &Image) -> Layout
    ensures { result ≡ layout_of image.now }
{
    Layout {
        procs: image.lock.as_slice().len() as u64,
        cap: image.cap,
        width: image.width,
    }
}

/// Whether the version is 2, or 1 with values of one word: rule 2.
fn is_versioned(image: &Image) -> bool
    ensures { IsTrue result ↔ IsVersioned image.now }
{
    image.version == 2 || (image.version == 1 && image.width == 1)
}

/// Whether the processes, the limit, the capacity and the width are within their bounds: rule 3.
fn is_sized(image: &Image) -> bool
    ensures { IsTrue result ↔ IsSized image.now }
{
    let procs = image.lock.as_slice().len() as u64;
    procs >= 1
        && procs <= MOST_PROCS
        && image.limit >= 1
        && image.limit <= MOST_LIMIT
        && image.cap >= 1
        && image.cap <= MOST_CAP
        && image.width >= 1
        && image.width <= MOST_WIDTH
}

/// Whether there are as many data words as the sizes ask for.
#[tactic(auto, unfolding(redomail::specs::Layout::place_at))]
fn is_filled(image: &Image) -> bool
    requires { IsSized image.now }
    ensures { IsTrue result ↔ (length image.now.cells ≡ size (layout_of image.now)) }
{
    let head = 10 + image.width + image.lock.as_slice().len() as u64;
    image.cells.as_slice().len() as u64 == head + (2 + image.width) * image.cap
}

/// Whether the words are a row of the restart table.
fn is_row(own: &Own, limit: u64) -> bool
    ensures { IsTrue result ↔ IsRow limit own.now }
{
    own.choosing <= 1
        && own.number <= limit
        && own.inside <= 1
        && (own.choosing == 0 || own.inside == 0)
}

/// Whether the lock words of each process are a row of the restart table.
fn are_rows(lock: &[Own], limit: u64) -> bool
    ensures { IsTrue result ↔ ((p : ℕ) → IsRow limit (own_at lock.now p)) }
{
    for own in lock {
        if !is_row(own, limit) {
            return false;
        }
    }
    true
}

/// Whether p has the least pair of all processes that hold a number.
fn has_least(lock: &[Own], p: u64) -> bool
    requires { p < length lock.now }
    ensures { IsTrue result ↔ ((q : ℕ) → q < length lock.now → q ≢ p → 0 < (own_at lock.now q).number
        → is_before_of (own_at lock.now p).number p (own_at lock.now q).number q ≡ true) }
{
    let own = lock[p as usize];
    for q in 0..lock.len() as u64 {
        let other = lock[q as usize].number;
        if q != p && other > 0 && !is_before(own.number, p, other, q) {
            return false;
        }
    }
    true
}

/// Whether each process inside has the least pair.
fn is_first(lock: &[Own], limit: u64) -> bool
    requires { (p : ℕ) → IsRow limit (own_at lock.now p) }
    ensures { IsTrue result ↔ IsLawful (length lock.now) limit (own_at lock.now) }
{
    for p in 0..lock.len() as u64 {
        let own = lock[p as usize];
        if own.number > 0 && own.inside > 0 && !has_least(lock, p) {
            return false;
        }
    }
    true
}

/// The data word at an index, 0 past the end.
pub fn word(words: &[u64], i: u64) -> u64
    ensures { result ≡ slice_index words.now i }
{
    words.get(i as usize).copied().unwrap_or(0)
}

/// Whether the list rule holds, if no record is armed.
fn is_listed(image: &Image) -> bool
    requires { KeepsRules 7 image.now }
    ensures { IsTrue result ↔ IsListed image.now }
{
    let layout = layout(image);
    let words = image.cells.as_slice();
    if word(words, ARMED) != 0 {
        return true;
    }
    let mut all = counters();
    let counts = &mut all[..layout.procs as usize];
    if !count_entries(layout, words, counts) {
        return false;
    }
    lasts_are(layout, words, counts, layout.procs)
}

/// Whether the record rule holds, if a record is armed: for the process inside, or in a ruined lock for some process.
fn is_recorded(image: &Image) -> bool
    requires { KeepsRules 7 image.now }
    ensures { IsTrue result ↔ IsRecorded image.now }
{
    let layout = layout(image);
    let words = image.cells.as_slice();
    if word(words, ARMED) == 0 {
        return true;
    }
    let mut all = counters();
    let counts = &mut all[..layout.procs as usize];
    if !count_entries(layout, words, counts) {
        return false;
    }
    if word(words, RUINED) == 1 {
        return any_record(layout, words, counts);
    }
    match find_in(image.lock.as_slice()) {
        Some(p) => has_record(layout, words, counts, p),
        None => false,
    }
}

/// The process that is inside, alive or crashed there.
pub fn find_in(lock: &[Own]) -> Option<u64>
    ensures some { IfSome result (λ p. (p < length lock.now) × (0 < (own_at lock.now p).number) × (0 < (own_at lock.now p).inside)) }
    ensures none { IsNone result → (p : ℕ) → p < length lock.now
        → 0 < (own_at lock.now p).number → 0 < (own_at lock.now p).inside → ⊥ }
{
    for p in 0..lock.len() as u64 {
        let own = lock[p as usize];
        if own.number > 0 && own.inside > 0 {
            return Some(p);
        }
    }
    None
}
