//! Histories for proofs alone: what a run has done so far, as a list of which contracts speak and which takes no memory.
//!
//! Main item: `Log`.
#![tactic(auto)]

pub mod log;

pub use log::Log;
