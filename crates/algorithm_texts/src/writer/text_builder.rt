//! Text that is written piece by piece.

use std::alloc::{AllocError, Global};
use std::fmt::Write;

/// A text as far as it is written. Once memory runs out, nothing is added any more, and at its end there is no text: so whoever
/// writes it need not look at each piece.
#[derive(Drop)]
pub struct TextBuilder {
    text: String,
    /// Whether memory ran out.
    is_lost: bool,
}

impl TextBuilder {
    /// A text with nothing in it.
    pub fn new(alloc: Global) -> TextBuilder {
        TextBuilder {
            text: String::new(alloc),
            is_lost: false,
        }
    }

    /// Adds words.
    pub fn put(&mut self, words: &str) {
        if !self.is_lost {
            self.is_lost = self.text.push_str(words).is_err();
        }
    }

    /// Adds words when this holds.
    pub fn put_when(&mut self, holds: bool, words: &str) {
        if holds {
            self.put(words);
        }
    }

    /// Adds a number.
    pub fn put_number(&mut self, number: u64) {
        if !self.is_lost {
            self.is_lost = write!(self.text, "{number}").is_err();
        }
    }

    /// Adds the name of the label before a place.
    pub fn put_label(&mut self, place: usize) {
        self.put("at");
        self.put_number(place as u64);
    }

    /// Notes that memory ran out.
    pub fn lose(&mut self) {
        self.is_lost = true;
    }

    /// The whole text.
    pub fn into_text(self) -> Result<String, AllocError> {
        if self.is_lost {
            Err(AllocError)
        } else {
            Ok(self.text)
        }
    }
}
