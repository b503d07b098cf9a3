//! Why the lines of a schedule are not played to their end.

/// Why the lines of a schedule are not played to their end.
#[derive(Clone, Copy)]
pub enum DiagramStop {
    /// The machine refuses the line. The number is that of the `Refusal`.
    Refused(u64),
    /// Out of memory.
    OutOfMemory,
}
