//! The refusals that runs of an algorithm's text have alone.

/// A refusal that the lock's `Refusal` does not have.
#[derive(Clone, Copy)]
pub enum AlgorithmRefused {
    OutOfRange,
    NoSuchCall,
    Malformed,
}
