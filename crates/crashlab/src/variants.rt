//! Wrong variants of the lock: their processes and their worlds.

pub mod change;
pub mod deviation;
pub(crate) mod judge_feed;
pub mod variant;
pub mod variant_memory;
pub mod variant_process;
pub mod variant_world;
