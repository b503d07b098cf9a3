//! Why a schedule is not played on.

/// Why a schedule is not played on.
#[derive(Clone, Copy)]
pub enum PlayStop<R, S> {
    /// The machine refuses the line.
    Refused(R),
    /// The machine has no memory for its next event.
    OutOfMemory,
    /// The listener stops.
    Stopped(S),
}
