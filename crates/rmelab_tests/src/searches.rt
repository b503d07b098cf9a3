//! Hunts, searches, shrunk schedules, and each command on an algorithm as a text, as whole invocations of the program. Each
//! names public functions of `commands` and of the crates below it.

pub mod algorithm_costs;
pub mod algorithm_explores;
pub mod algorithm_exports;
pub mod algorithm_faults;
pub mod algorithm_runs;
pub mod explores;
pub mod hunts;
mod jobs;
pub mod named_texts;
pub mod shrinks;
pub mod states;
pub mod variant_costs;
pub mod watched;
