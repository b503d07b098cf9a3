//! The kinds of work that show their progress.

/// The work whose progress is shown. Each has a line of its own wording.
#[derive(Clone, Copy, Debug, PartialEq, Eq)]
pub enum Work {
    Search,
    Hunt,
}
