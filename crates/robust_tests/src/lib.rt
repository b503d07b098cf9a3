//! Tests of the running lock and of its plain reference: the worked rows over members, and members that crash. The rows are
//! played on both locks where both have the calls.
//!
//! Main items: `both`, `sweeps`, `labs`.
#![tactic(auto)]

#[cfg(test)]
mod beside;
#[cfg(test)]
mod both;
#[cfg(test)]
mod cut_calls;
#[cfg(test)]
mod eight;
#[cfg(test)]
mod gathers;
#[cfg(test)]
mod labs;
#[cfg(test)]
mod meetings;
#[cfg(test)]
mod members;
#[cfg(test)]
mod scarce_memory;
#[cfg(test)]
pub mod support;
#[cfg(test)]
mod sweeps;
