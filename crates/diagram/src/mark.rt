//! How a row is marked on the lifeline of its process.

/// How a row is marked on the lifeline of its process.
#[derive(Clone, Copy)]
pub enum Mark {
    /// A dot, with what the process does.
    Step,
    /// A cross.
    Crash,
    /// The row goes on with what the row before it reports.
    Nothing,
}
