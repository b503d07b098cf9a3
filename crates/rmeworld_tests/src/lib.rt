//! The worked rows of the lock in simulation: cores, mailboxes, judges, whole worlds with their images, and crash plans.
//! The rows name public functions of `rmecore`, `redomail`, `judge`, `rmeworld` and `crash_plans`.
//!
//! Main items: `tables`, `cores`, `worlds`.
#![tactic(auto)]

#[cfg(test)]
mod askings;
#[cfg(test)]
mod cores;
#[cfg(test)]
mod images;
#[cfg(test)]
mod judges;
#[cfg(test)]
mod machines;
#[cfg(test)]
mod mailboxes;
#[cfg(test)]
mod memory;
#[cfg(test)]
mod own_steps;
#[cfg(test)]
mod phrase;
#[cfg(test)]
mod played;
#[cfg(test)]
mod redo;
#[cfg(test)]
mod refused_memory;
#[cfg(test)]
mod tables;
#[cfg(test)]
mod torn;
#[cfg(test)]
mod worlds;
