//! The shared words.

/// A shared word: a lock word of a process, or the data word at an index.
#[derive(Clone, Copy, Debug, PartialEq, Eq)]
pub enum Word {
    Choosing(u64),
    Number(u64),
    Inside(u64),
    Data(u64),
}
