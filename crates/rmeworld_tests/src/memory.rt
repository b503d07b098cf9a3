//! Cells over words in plain memory. They count their calls, and stop at a given one.

ghost use Rattle.std.specs.Prelude.{◌≡◌, ◌+◌, true, false, if◌then◌else◌};
ghost use Rattle.redomail.specs.Layout.{saturate};

use super::phrase::{Phrase, reply_of};
use redomail::{Cells, Job, Layout, Message, Reply, Stop, Task, content, run_task};
use std::alloc::{AllocError, Global};
use test_support::text::cut;

/// The words, the number of calls of the task, the call at which it stops, and the number of stops.
#[derive(Drop)]
struct Memory {
    words: Vec<u64>,
    layout: Layout,
    calls: u64,
    stop_at: u64,
    stops: u64,
}

impl Memory {
    /// New words, all 0.
    fn new(alloc: Global, layout: Layout, words: usize) -> Result<Memory, AllocError> {
        Ok(Memory {
            words: vec![in alloc; 0; words]?,
            layout,
            calls: 0,
            stop_at: 0,
            stops: 0,
        })
    }

    // Counts a call. True: it stops here.
    fn stops_now(&mut self) -> bool
        ensures words { self.new.words ≡ self.old.words }
        ensures stops { self.new.stops ≡ (if result then saturate (self.old.stops + 1) else self.old.stops) }
        ensures calls { self.new.calls ≡ saturate (self.old.calls + 1) }
    {
        self.calls = self.calls.saturating_add(1);
        if self.calls != self.stop_at {
            return false;
        }
        self.stops = self.stops.saturating_add(1);
        true
    }

    /// Runs a process's task that stops at this call. True: it comes to this, after this number of its calls.
    fn comes_to(
        &mut self,
        (sender, task): (u64, Task),
        stop_at: u64,
        wanted: Result<Reply, Stop>,
        calls: u64,
    ) -> bool {
        let Ok(job) = Job::new(self.layout, sender, task) else {
            return false;
        };
        self.calls = 0;
        self.stop_at = stop_at;
        run_task(self, job) == wanted && self.calls == calls
    }

    /// Plays a line. True: it is so. `append 0 1 77: stops 8` is a task that stops at its call 8, without a number at the call
    /// that the row is played with. `append 0 1 77: calls 13 stored` has its number of calls and its reply, and
    /// `calls 13 14 stored` would stop at call 14. `heads 1 0` are count and armed.
    fn takes(&mut self, text: &str, stop_at: u64) -> bool {
        let mut rest = text;
        let asked = Phrase::read(cut(&mut rest, ": "));
        let answer = Phrase::read(rest);
        let first = answer.numbers(0).first().copied();
        let Some(task) = asked.task() else {
            return asked.word == "heads" && self.words.get(2..4) == Some(asked.numbers(0));
        };
        if answer.word == "stops" {
            let at = first.unwrap_or(stop_at);
            return self.comes_to((asked.number(0), task), at, Err(Stop), at);
        }
        match (reply_of(answer.rest), first) {
            (Some(reply), Some(calls)) => {
                self.comes_to((asked.number(0), task), answer.number(1), Ok(reply), calls)
            }
            _ => false,
        }
    }

    /// Whether each line is so.
    fn are_right(&mut self, script: &str, stop_at: u64) -> bool {
        let mut rest = script;
        for _ in 0..script.len() {
            if rest.is_empty() {
                break;
            }
            if !self.takes(cut(&mut rest, "; "), stop_at) {
                return false;
            }
        }
        true
    }

    /// Whether the content is these messages, each with its sender, its number and its value, and the words are those after
    /// them, if there are any.
    fn shows(&self, alloc: Global, messages: &str, words: &str) -> bool {
        match content(alloc, self.layout, &self.words) {
            Ok(shown) => are_messages(&shown, messages) && are_numbers(&self.words, words),
            Err(_) => false,
        }
    }
}

/// Whether the numbers are these, if there are any.
fn are_numbers(numbers: &[u64], wanted: &str) -> bool {
    let mut rest = wanted;
    for number in numbers {
        if cut(&mut rest, " ").parse::<u64>() != Ok(*number) {
            return wanted.is_empty();
        }
    }
    rest.is_empty()
}

/// A row on words that are all 0: the sizes and the number of words, and then a script, the messages, and the words in the end.
pub fn holds(alloc: Global, sizes: &Phrase<'_>, rest: &str, stop_at: u64) -> bool {
    let layout = Layout {
        procs: sizes.number(0),
        cap: sizes.number(1),
        width: sizes.number(2),
    };
    let mut words = rest;
    let script = cut(&mut words, " | ");
    let messages = cut(&mut words, " | ");
    match Memory::new(alloc, layout, sizes.number(3) as usize) {
        Ok(mut memory) => {
            memory.are_right(script, stop_at) && memory.shows(alloc, messages, words)
        }
        Err(_) => false,
    }
}

/// Whether the messages are these.
pub fn are_messages(shown: &[Message], messages: &str) -> bool {
    let mut rest = messages;
    for message in shown {
        if Phrase::read(cut(&mut rest, "; ")).message() != Some(*message) {
            return false;
        }
    }
    rest.is_empty()
}

impl Cells for Memory {
    ghost words = { λ m. m.words.items };

    ghost stops = { λ m. m.stops };

    ghost calls = { λ m. m.calls };

    fn get(&mut self, i: u64) -> Result<u64, Stop> {
        if self.stops_now() {
            return Err(Stop);
        }
        Ok(self.words.get(i as usize).copied().unwrap_or(0))
    }

    fn put(&mut self, i: u64, v: u64) -> Result<(), Stop> {
        if self.stops_now() {
            return Err(Stop);
        }
        if let Some(word) = self.words.get_mut(i as usize) {
            *word = v;
        }
        Ok(())
    }
}
