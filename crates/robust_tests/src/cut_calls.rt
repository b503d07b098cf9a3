//! What the words are after a call that crashed at an asking: it has made just the stores of its steps before that asking.

use crate::support::counted::{at, never};
use crate::support::rows::{call_of, first_wrong_of_two, word_at};
use crate::support::running::two;
use crate::support::tested::{MemberCall, Tested};
use crate::support::text::{number, place};
use rmeworld::{Image, start_of};
use robust::{LockFault, Member};
use std::alloc::Global;
use std::process::Abort;
use std::sync::Wait;
use test_support::text::cut;

/// The names of all words: those of both processes, and 11 + n + 3cap data words. The record and place 0 have three each.
const WORDS: &str =
    "choosing|number|inside|other-choosing|other-number|other-inside|ruined|closed|count|armed\
|rec-place|rec-seq|rec-value|board-0|board-1|board-2|board-3|last-0|last-1|sender|seq|value";

/// The word with this index after the stores of the steps before this one.
fn stored_before(step: u64, stores: &str, index: u64) -> u64 {
    let mut rest = stores;
    let mut word = 0;
    for _ in 0..stores.len() {
        if rest.is_empty() {
            break;
        }
        let mut store = cut(&mut rest, "; ");
        let made_at = number(&mut store);
        if place(WORDS, cut(&mut store, " ")) == Some(index) && made_at < step {
            word = number(&mut store);
        }
    }
    word
}

/// The first word that isn't as those stores leave it. There are 22.
fn wrong_word(image: &Image, step: u64, stores: &str) -> Option<u64> {
    for index in 0..22 {
        if word_at(image, index as usize) != Some(stored_before(step, stores, index)) {
            return Some(index);
        }
    }
    if word_at(image, 22).is_none() {
        None
    } else {
        Some(22)
    }
}

/// Plays the rows, and makes the call, which crashes at this asking, or after all of its askings is answered. The image of the
/// words after it. None: it has come to something else.
fn image_after<R: Abort + Wait>(
    rt: &R,
    alloc: Global,
    rows: &str,
    call: MemberCall,
    steps: u64,
    asking: u64,
) -> Option<Image> {
    let (mut one, mut other) = two(rt, alloc, 10, 1);
    let wrong = first_wrong_of_two(rt, &mut one, &mut other, &mut never(), rows);
    let fault = one.call(rt, call, &mut at(asking)).err();
    let (wanted, taken) = if asking > steps.saturating_add(1) {
        (None, steps)
    } else {
        (Some(LockFault::Crashed), asking.saturating_sub(1))
    };
    let is_right = wrong.is_none() && fault == wanted && one.own_steps() == taken;
    let image = Member::gathered(rt, alloc, one, other);
    if is_right { image } else { None }
}

/// Whether the image is lawful and its words are as the stores of the steps before this asking leave them.
fn is_left(alloc: Global, image: Option<Image>, asking: u64, stores: &str) -> bool {
    match image {
        Some(image) => {
            start_of(alloc, &image).is_ok() && wrong_word(&image, asking, stores).is_none()
        }
        None => false,
    }
}

/// A call of process 0, in an arena of two with room for one message of one word: its words, its steps, its stores, and the
/// rows before it. It crashes at each of its askings in turn, and is answered where it crashes at none.
fn cut_at_each<R: Abort + Wait>(rt: &R, alloc: Global, row: &str) {
    let mut rows = row;
    let words = cut(&mut rows, " | ");
    let steps = number(&mut cut(&mut rows, " | "));
    let stores = cut(&mut rows, " | ");
    let Some(call) = call_of(words) else {
        panic!(rt; "no call")
    };
    assert!(rt; steps < 100);
    for asking in 1..steps.saturating_add(3) {
        let image = image_after(rt, alloc, rows, call, steps, asking);
        assert!(rt;
            is_left(alloc, image, asking, stores),
            "{words} at {asking}"
        );
    }
}

/// Calls of process 0, each with its steps, its stores, and the rows before it.
const CALLS: &str = "\
lock_within 0 | 11 | 4 choosing 1; 6 number 1; 7 choosing 0; 10 inside 1
unlock | 2 | 0 number 1; 0 inside 1; 1 number 0; 2 inside 0 | 0 lock_within 0: clean
put 2 7 | 1 | 0 number 1; 0 inside 1; 1 board-2 7 | 0 lock_within 0: clean
get 2 | 1 | 0 number 1; 0 inside 1 | 0 lock_within 0: clean
withdraw | 1 | 0 other-number 1; 0 other-inside 1; 0 number 2; 1 number 0 | 1 lock_within 0: clean; 0 lock_within 0: not-yet
recover | 4 | 0 choosing 1; 0 number 1; 4 choosing 0 | 0 lock_within 0 @7: crashed
recover | 3 | 0 number 1; 0 inside 1 | 0 lock_within 0 @12: crashed
recover | 4 | 0 inside 1; 4 inside 0 | 0 lock_within 0: clean; 0 unlock @2: crashed
consistent | 2 | 0 number 1; 0 inside 1 | 0 append_within 1 5 0 @12: crashed; 0 lock_within 0: owner-died
consistent | 11 | 0 number 1; 0 inside 1; 0 rec-seq 1; 0 rec-value 5; 0 armed 1; 7 seq 1; 8 value 5; 9 last-0 1; 10 count 1; \
11 armed 0 | 0 append_within 1 5 0 @19: crashed; 0 lock_within 0: owner-died
append_within 1 5 0 | 26 | 4 choosing 1; 6 number 1; 7 choosing 0; 10 inside 1; 16 rec-seq 1; 17 rec-value 5; 18 armed 1; \
20 seq 1; 21 value 5; 22 last-0 1; 23 count 1; 24 armed 0; 25 number 0; 26 inside 0
close_within 0 | 15 | 4 choosing 1; 6 number 1; 7 choosing 0; 10 inside 1; 13 closed 1; 14 number 0; 15 inside 0";

#[test]
fn words_after_a_crash(rt: HostRuntime) {
    for row in CALLS.split('\n') {
        cut_at_each(&rt, rt.alloc(), row);
    }
}
