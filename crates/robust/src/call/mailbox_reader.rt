//! The mailbox read from outside the section: count first, then the entries below it, which never change.
ghost use Rattle.std.specs.Prelude.{◌≡◌, ℕ, ◌+◌, ◌*◌, ◌-◌, ◌<◌, length, drop, IfOk, OnOk, OnErr};
ghost use Rattle.redomail.specs.Layout.{place_at};
ghost use Rattle.redomail.specs.Shape.{entry as entry_of, entries as entries_of};
ghost use Rattle.table_runs.specs.ReadMessages.{cells_of, row_words, entry_words, Glances, ReadsFrom, ReadsCount};

use crate::call::call_driver::CallDriver;
use redomail::Message;
use redomail::contents::value_at;
use redomail::layout::COUNT;
use rmecore::Word;
use std::alloc::{AllocError, Global};

/// The most words of an entry: its sender, its sequence number, and eight of its value.
const MOST_WORDS: usize = 10;

impl CallDriver {
    /// The messages shown, from a place on, at the reading of count. `AllocError`: out of memory, and only count was read.
    pub fn read_from(&mut self, alloc: Global, place: u64) -> Result<Vec<Message>, AllocError>
        ensures messages { IfOk result (λ v. ReadsFrom self.old place v.items self.new) }
        ensures no_room { OnErr result (ReadsCount self.old place self.new) }
    {
        // For the proof alone: its value is read.
        let _setup = self.setup();
        let count = self.glance(Word::Data(COUNT));
        if place >= count {
            return Ok(Vec::new(alloc));
        }
        self.entries(alloc, place, count)
    }

    /// The messages from a place on, below this count.
    fn entries(&mut self, alloc: Global, place: u64, count: u64) -> Result<Vec<Message>, AllocError>
        requires count { count ≡ cells_of self.old.seat_view.setup self.old.seat_view.seen 2 }
        requires below { place < count }
        ensures messages { IfOk result (λ v. v.items ≡ drop place
            (entries_of self.old.seat_view.setup.layout (cells_of self.old.seat_view.setup self.old.seat_view.seen) count)) }
        ensures glances { OnOk result (Glances self.old (entry_words self.old.seat_view.setup.layout place (count - place)) self.new) }
        ensures err { OnErr result (self.new ≡ self.old) }
    {
        // For the proof alone: its value is read.
        let _setup = self.setup();
        let mut messages = Vec::with_capacity(alloc, (count - place) as usize)?;
        for a in place..count {
            let message = self.entry(a);
            messages.push(message).unwrap();
        }
        Ok(messages)
    }

    /// The message at a place below count.
    fn entry(&mut self, a: u64) -> Message
        requires { a < cells_of self.old.seat_view.setup self.old.seat_view.seen 2 }
        ensures message { result
            ≡ entry_of self.old.seat_view.setup.layout (cells_of self.old.seat_view.setup self.old.seat_view.seen) a }
        ensures glances { Glances self.old (row_words (place_at self.old.seat_view.setup.layout a)
            (2 + self.old.seat_view.setup.layout.width)) self.new }
    {
        let layout = self.setup().layout;
        let at = layout.place(a, 0);
        let mut words = [0u64; MOST_WORDS];
        for k in 0..2 + layout.width {
            words[k as usize] = self.glance(Word::Data(at + k));
        }
        Message {
            sender: words[0],
            seq: words[1],
            value: value_at(&words, 2, layout.width),
        }
    }
}
