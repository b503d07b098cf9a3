//! The redo record.

ghost use Rattle.std.specs.Prelude.{◌≡◌, ◌+◌, ◌*◌, ◌<◌, ◌≤◌, ◌∷◌, length, take, drop, slice_index};
ghost use Rattle.redomail.specs.Layout.{IsLayout};
ghost use Rattle.redomail.specs.Tasks.{store_steps, record_of};

use crate::layout::{ARMED, COUNT, Layout, RECORD};
use rmecore::Body;

/// The redo record: the message's place, its number and its value.
#[derive(Clone, Copy)]
pub struct Record {
    pub at: u64,
    pub seq: u64,
    pub value: Body,
}

/// Word `j` of a row: a first word, a message's number, then the words of its value.
// Inline: once in each put.
#[inline(always)]
pub fn row_word(first: u64, seq: u64, words: &[u64; 8], width: u64, j: u64) -> u64
    requires within { j < 2 + width }
    requires few { width ≤ 8 }
    ensures { result ≡ slice_index (first ∷ seq ∷ take width words.now) j }
{
    match j {
        0 => first,
        1 => seq,
        _ => words[(j - 2) as usize],
    }
}

/// Step `step` of storing a message at a place: the index and the value of its put. Storing is 8 + 2 * width puts: the record, the
/// commit, and what follows from it.
// Inline: each step of an append.
#[inline(always)]
pub fn put_at(
    layout: Layout,
    sender: u64,
    at: u64,
    seq: u64,
    words: &[u64; 8],
    step: u64,
) -> (u64, u64)
    requires lawful { IsLayout layout }
    requires below { sender < layout.procs }
    requires within { step < 8 + 2 * layout.width }
    ensures { drop step (store_steps layout sender (record_of at seq (take layout.width words.now)))
        ≡ result ∷ drop (step + 1) (store_steps layout sender (record_of at seq (take layout.width words.now))) }
{
    let width = layout.width;
    let record_words = 2 + width;
    if step < record_words {
        return (RECORD + step, row_word(at, seq, words, width, step));
    }
    if step == record_words {
        return (ARMED, 1);
    }
    let apply = step - record_words - 1;
    if apply < record_words {
        return (
            layout.place(at, apply),
            row_word(sender, seq, words, width, apply),
        );
    }
    match apply - record_words {
        0 => (layout.last(sender), seq),
        1 => (COUNT, at.saturating_add(1)),
        _ => (ARMED, 0),
    }
}

impl Record {
    /// Step `step` of storing the record, as `put_at` gives it.
    pub(crate) fn put(&self, layout: Layout, sender: u64, step: u64) -> (u64, u64)
        requires lawful { IsLayout layout }
        requires below { sender < layout.procs }
        requires fits { length self.now.value ≡ layout.width }
        requires within { step < 8 + 2 * layout.width }
        ensures { drop step (store_steps layout sender self.now) ≡ result ∷ drop (step + 1) (store_steps layout sender self.now) }
    {
        let words = self.value.seam_words();
        put_at(layout, sender, self.at, self.seq, words, step)
    }
}
