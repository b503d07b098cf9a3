//! The worked rows of replays and traces (docs/dev/rows.md), as whole invocations of the program over a folder, an input and
//! two outputs in memory. Each names public functions of `commands` and of the crates below it.

pub mod devices;
pub mod everything;
mod four_methods;
pub mod images;
pub mod replays;
pub mod reports;
pub mod sessions;
pub mod stepwise;
pub mod texts;
pub mod variants;
