//! The phases of the abstract lock.

/// A process's phase in the abstract lock. Its deeds alone decide it.
#[derive(Clone, Copy, Debug, PartialEq, Eq)]
pub enum Phase {
    Out,
    /// In the doorway.
    Door,
    /// The doorway is finished, and the process has not entered.
    Ready,
    Inside,
    /// Crashed inside, and not entered again yet.
    DeadIn,
}
