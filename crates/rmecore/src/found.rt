//! What a recovery finds.

/// What a recovery finds in the process's own words (the restart table).
#[derive(Clone, Copy, Debug, PartialEq, Eq)]
pub enum Found {
    Idle,
    /// It crashed in its exit. The exit is finished now.
    Left,
    /// It crashed in its doorway, before it took a number.
    Doorway,
    /// It has a number. Its next lock goes on waiting with it.
    Waiting,
    /// It crashed inside, and is inside again.
    Inside,
}
