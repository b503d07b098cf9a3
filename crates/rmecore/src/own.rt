//! The lock words of one process.

/// The three lock words of one process: Lamport's `choosing` and `number`, and the mark of the process in the section. Only
/// the process itself writes them.
#[derive(Clone, Copy, Debug, PartialEq, Eq)]
pub struct Own {
    /// 1 while the process is in its doorway, else 0.
    pub choosing: u64,
    /// The process's number, 1 to the limit of numbers. 0 if it has none.
    pub number: u64,
    /// 1 while the process is in the section, also after a crash there. Else 0.
    pub inside: u64,
}

impl Own {
    /// The words of a process that has taken no step.
    pub const ZEROS: Own = Own {
        choosing: 0,
        number: 0,
        inside: 0,
    };
}
