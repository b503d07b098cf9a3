//! The variant state of a process.

/// What a process of a wrong variant has besides a place of the lock.
#[derive(Clone, Copy, Debug, PartialEq, Eq)]
pub enum Deviation {
    /// Nothing: it goes by the lock's rows.
    Straight,
    /// A number that it has still to drop, since a reread found it inside.
    Dropping,
    /// A number that it keeps while it scans the doorway again.
    Over(u64),
}
