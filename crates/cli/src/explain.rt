//! The meanings of the numbers and names in reports, faults and steps.

mod algorithm_faults;
pub mod algorithm_refused;
mod answers;
pub mod dictionary_entry;
pub mod meaning;
pub mod meaning_writer;
mod refusals;
pub mod rule;
mod steps;
mod texts;
