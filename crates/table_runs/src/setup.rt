//! The sizes of an arena.

use redomail::Layout;

/// The sizes of an arena: the number of processes, the capacity and width of its mailbox in messages and words, and the
/// greatest number that a process may take.
#[derive(Clone, Copy, Debug, PartialEq, Eq)]
pub struct Setup {
    pub layout: Layout,
    pub limit: u64,
}
