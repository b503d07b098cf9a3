//! Drawings, explanations and senders, and words that are refused, as whole invocations of the program. Each names public functions
//! of `commands` and of the crates below it.

pub mod drawings;
pub mod explains;
pub mod invocations;
pub mod senders;
