//! What the tests of several crates need: a limit on memory, and the parts of a text.
//!
//! Main items: `ScarceMemory`, `cut`.
#![tactic(auto)]

pub mod memory_limit;
pub mod text;
