//! Images: all that survives a crash of every process.

mod form;
pub mod image_reader;
pub mod image_start;
pub mod image_widener;
pub mod image_writer;
pub mod laws;
pub mod rules;

use crate::cells::DataWords;
use crate::owns::Owns;
use std::fmt;

/// The words of a world with its sizes: all that survives a crash of every process.
#[derive(Drop)]
pub struct Image {
    /// The mailbox's capacity in messages.
    pub cap: u64,
    /// The data words.
    pub cells: DataWords,
    /// The greatest number that a process may take.
    pub limit: u64,
    /// The lock words, by rising process.
    pub lock: Owns,
    /// The version of the image's text: 2, or 1 if it was read from a text of version 1.
    pub version: u64,
    /// The number of words in a message's value, 1 to 8.
    pub width: u64,
}

impl fmt::Debug for Image {
    fn fmt<W: fmt::Write>(&self, f: &mut fmt::Formatter<W>) -> fmt::Result {
        f.write_str("Image")
    }
}
