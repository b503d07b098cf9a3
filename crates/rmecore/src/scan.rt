//! A scan over the other processes.

/// The state of a scan in the doorway or of a scan while waiting, in the machine's own representation.
#[derive(Clone, Copy, Debug, PartialEq, Eq)]
pub enum Scan {
    Peeking {
        next: u64,
        greatest: u64,
    },
    Waiting {
        number: u64,
        next: u64,
        looked: bool,
    },
}
