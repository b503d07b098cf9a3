//! What a wrong variant changes of a repair.

/// What a wrong variant still changes of the repair under way.
#[derive(Clone, Copy, Debug, PartialEq, Eq)]
pub enum Change {
    /// Nothing, or nothing more.
    Nothing,
    /// The put of the sender's last number is left out.
    LeavesOut,
    /// A get of count is added before the put of count.
    Counts,
    /// The put of count puts this value instead.
    Counted(u64),
}
