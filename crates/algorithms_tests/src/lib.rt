//! Tests of algorithms as texts: what is read, refused, run, drawn, searched, hunted and minimized, against a reference program.
//!
//! Main items: `texts`, `runs`, `searches`.
#![tactic(auto)]

#[cfg(test)]
mod arrays;
#[cfg(test)]
mod bad_texts;
#[cfg(test)]
mod cases;
#[cfg(test)]
mod claims;
#[cfg(test)]
mod constants;
#[cfg(test)]
mod costs;
#[cfg(test)]
mod details;
#[cfg(test)]
mod drawings;
#[cfg(test)]
mod first_values;
#[cfg(test)]
mod homes;
#[cfg(test)]
mod hostile_texts;
#[cfg(test)]
mod hunts;
#[cfg(test)]
mod loops;
#[cfg(test)]
mod mean_costs;
#[cfg(test)]
mod memory;
pub mod models;
#[cfg(test)]
mod promela_models;
#[cfg(test)]
mod remote_references;
#[cfg(test)]
mod replays;
#[cfg(test)]
mod reports;
#[cfg(test)]
mod rows;
#[cfg(test)]
mod runs;
#[cfg(test)]
mod schedules;
#[cfg(test)]
mod searches;
#[cfg(test)]
mod sessions;
#[cfg(test)]
mod shrinks;
#[cfg(test)]
mod sinks;
#[cfg(test)]
mod spelling;
#[cfg(test)]
mod starving;
#[cfg(test)]
mod step_bounds;
#[cfg(test)]
mod stuck;
#[cfg(test)]
mod support;
#[cfg(test)]
mod swaps;
#[cfg(test)]
mod tables;
pub mod texts;
#[cfg(test)]
mod writer;
