//! Remote memory references: which accesses of a run are remote, in three models of memory.

pub mod copies;
pub mod memory_event;
pub mod memory_model;
pub mod own_copies;
mod process_rows;
