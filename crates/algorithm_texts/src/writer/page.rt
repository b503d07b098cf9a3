//! The lines of a text that is written, and the blocks that are open at its end.

use crate::writer::places::{call_end, free_lines, is_entry, is_led_to, may_be_block, number_at};
use crate::writer::statements::{put_deed_word, put_form};
use crate::writer::text_builder::TextBuilder;
use algorithms::algorithm::Algorithm;
use algorithms::line::{AlgorithmLine, LineKind, LocalLine};
use std::alloc::Global;

/// The greatest number of lines of a text.
const MOST_LINES: u64 = 4096;

/// How deep blocks stand in one another at most.
const DEEPEST: usize = 16;

/// What begins a block.
#[derive(Clone, Copy, PartialEq, Eq)]
enum BlockStart {
    If,
    Else,
    For,
}

/// A block that is open, and its end: of a loop the place of its last line, of another the place after it.
#[derive(Clone, Copy)]
struct OpenBlock {
    start: BlockStart,
    end: usize,
}

/// A text that is written line by line.
#[derive(Drop)]
pub struct AlgorithmText {
    pub text: TextBuilder,
    /// How many lines it has.
    count: u64,
    open: Vec<OpenBlock>,
    /// The places of the ways past an `else`.
    ways: Vec<usize>,
    /// The places of the labels that claims name.
    pub labels: Vec<usize>,
    /// How many claims are written.
    pub claims: usize,
    /// Whether a goto at the end of an `if` is the way past an `else` wherever it may be.
    prefers_else: bool,
}

impl AlgorithmText {
    /// An empty text, of an algorithm whose claims name the labels at these places.
    pub fn new(alloc: Global, labels: Vec<usize>, prefers_else: bool) -> AlgorithmText {
        AlgorithmText {
            text: TextBuilder::new(alloc),
            count: 0,
            open: Vec::new(alloc),
            ways: Vec::new(alloc),
            labels,
            claims: 0,
            prefers_else,
        }
    }

    /// Ends a line.
    pub fn end_line(&mut self) {
        self.count = self.count.saturating_add(1);
        self.text.put("\n");
    }

    /// The number of the next line.
    pub fn next_number(&self) -> u64 {
        self.count.saturating_add(1)
    }

    /// Writes empty lines, so that the next line has this number at least.
    pub fn fill(&mut self, number: u64) {
        for _ in self.count.saturating_add(1)..number.min(MOST_LINES) {
            self.end_line();
        }
    }

    /// Writes the spaces before a line of a call.
    fn indent(&mut self) {
        for _ in 0..self.open.len() {
            self.text.put("  ");
        }
        self.text.put("  ");
    }

    /// Writes a line of one word in the block around the one that is open last, and leaves that block.
    fn leave(&mut self, word: &str) {
        self.open.pop();
        self.indent();
        self.text.put(word);
    }

    /// Writes the end of the block that is open last.
    fn put_end(&mut self) {
        self.leave("end");
        self.end_line();
    }

    /// Ends the blocks of an `if` that end before a place.
    pub fn close(&mut self, place: usize) {
        for _ in 0..DEEPEST {
            match self.open.last().copied() {
                Some(block) if block.start != BlockStart::For && block.end <= place => {
                    self.put_end();
                }
                _ => return,
            }
        }
    }

    /// Whether a goto of the text leads to a place, or a claim names the label there.
    fn has_label(&self, algorithm: &Algorithm, place: usize) -> bool {
        if self.labels.contains(&place) {
            return true;
        }
        let mut at: usize = 0;
        for line in &algorithm.lines {
            if let LineKind::Local(LocalLine::Goto(target)) = &line.form {
                if *target == place && !self.ways.contains(&at) {
                    return true;
                }
            }
            at = at.saturating_add(1);
        }
        false
    }

    /// Writes that a call begins, and a label, where they stand before a place.
    fn put_front(&mut self, algorithm: &Algorithm, place: usize) {
        let begins = is_entry(algorithm, place);
        let has_label = self.has_label(algorithm, place);
        let lines = u64::from(begins).saturating_add(u64::from(has_label));
        self.fill(number_at(algorithm, place).saturating_sub(lines));
        if begins {
            self.text.put(call_line(algorithm, place));
            self.end_line();
        }
        if has_label {
            self.text.put_label(place);
            self.text.put(":");
            self.end_line();
        }
    }

    /// The last place that may end a block which begins after this place, in the block around the one that is open last.
    fn limit(&self, algorithm: &Algorithm, place: usize) -> usize {
        let around = self.open.len().saturating_sub(2);
        match self.open.get(around) {
            Some(block) if self.open.len() >= 2 => block.end,
            _ => call_end(algorithm, place),
        }
    }

    /// Whether a place is the last of an `if`.
    fn ends_if(&self, place: usize) -> bool {
        match self.open.last() {
            Some(block) => block.start == BlockStart::If && block.end == place.saturating_add(1),
            None => false,
        }
    }

    /// Whether a place is the last line of a loop, which its `end` is.
    fn ends_loop(&self, place: usize) -> bool {
        match self.open.last() {
            Some(block) => block.start == BlockStart::For && block.end == place,
            None => false,
        }
    }

    /// Whether a goto at a place is the way past an `else`.
    fn is_way(&self, algorithm: &Algorithm, place: usize, target: usize) -> bool {
        let next = place.saturating_add(1);
        self.ends_if(place)
            && next <= target
            && target <= self.limit(algorithm, place)
            && (self.prefers_else || free_lines(algorithm, next) == 0)
            && may_be_block(algorithm, next, target)
    }

    /// Where the block of an `else` may end to which no run comes past the `if`.
    fn free_end(&self, algorithm: &Algorithm, place: usize) -> usize {
        let first = place.saturating_add(1);
        let limit = self.limit(algorithm, place);
        for end in first..limit {
            let fronts = u64::from(self.has_label(algorithm, end));
            if free_lines(algorithm, end) > fronts && may_be_block(algorithm, first, end) {
                return end;
            }
        }
        limit
    }

    /// Writes an `else`, whose block ends before this place.
    fn put_else(&mut self, place: usize, end: usize) {
        self.leave("else");
        if self.ways.push(place).is_err() {
            self.text.lose();
        }
        self.open(BlockStart::Else, end);
    }

    /// Ends a line that opens a block.
    fn open(&mut self, start: BlockStart, end: usize) {
        self.end_line();
        if self.open.push(OpenBlock { start, end }).is_err() {
            self.text.lose();
        }
    }

    /// Writes a statement that begins no block, with the deed of its line, and answers the place after it.
    fn put_statement(&mut self, algorithm: &Algorithm, place: usize) -> usize {
        let next = place.saturating_add(1);
        let Some(line) = algorithm.lines.get(place) else {
            return next;
        };
        put_form(&mut self.text, algorithm, &line.form);
        match (&line.form, algorithm.lines.get(next)) {
            (
                LineKind::Access(_),
                Some(
                    AlgorithmLine {
                        number,
                        form: LineKind::Local(LocalLine::Note(deed)),
                    },
                ),
            ) if *number == line.number => {
                self.text.put(" ");
                put_deed_word(&mut self.text, *deed);
                next.saturating_add(1)
            }
            _ => next,
        }
    }

    /// Writes a statement on a line of its own, and answers the place after it.
    fn put_alone(&mut self, algorithm: &Algorithm, place: usize) -> usize {
        self.indent();
        let next = self.put_statement(algorithm, place);
        self.end_line();
        next
    }

    /// Writes an `if`, with the statement of its line, and answers the place after them.
    fn put_if(&mut self, algorithm: &Algorithm, place: usize, otherwise: usize) -> usize {
        let next = place.saturating_add(1);
        self.indent();
        self.put_statement(algorithm, place);
        if number_at(algorithm, next) == number_at(algorithm, place) {
            self.text.put(" ");
            let after = self.put_statement(algorithm, next);
            self.end_line();
            return after;
        }
        self.open(BlockStart::If, otherwise);
        next
    }

    /// Writes the lines at a place, and answers the place after them.
    pub fn put_place(&mut self, algorithm: &Algorithm, place: usize) -> usize {
        let next = place.saturating_add(1);
        self.close(place);
        self.put_front(algorithm, place);
        let Some(line) = algorithm.lines.get(place) else {
            return next;
        };
        match &line.form {
            LineKind::Local(LocalLine::Branch { otherwise, .. }) => {
                return self.put_if(algorithm, place, *otherwise);
            }
            LineKind::Local(LocalLine::First { after, .. }) => {
                self.indent();
                self.put_statement(algorithm, place);
                self.open(BlockStart::For, after.saturating_sub(1));
            }
            LineKind::Local(LocalLine::Goto(target)) if self.is_way(algorithm, place, *target) => {
                self.put_else(place, *target);
            }
            LineKind::Local(LocalLine::Next { .. }) => {
                self.put_end();
            }
            LineKind::Done(_) if !is_led_to(algorithm, place) && self.ends_loop(place) => {
                self.put_end();
            }
            LineKind::Done(_) if !is_led_to(algorithm, place) && self.ends_if(place) => {
                let end = self.free_end(algorithm, place);
                self.put_else(place, end);
            }
            _ => return self.put_alone(algorithm, place),
        }
        next
    }
}

/// The line that begins the call which begins at a place.
fn call_line(algorithm: &Algorithm, place: usize) -> &'static str {
    let entries = algorithm.entries;
    if entries.lock == place {
        "call lock"
    } else if entries.unlock == place {
        "call unlock"
    } else if entries.recover == Some(place) {
        "call recover"
    } else {
        "call withdraw"
    }
}
