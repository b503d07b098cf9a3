//! Tests of the program: whole invocations over a folder in memory; and each request for memory is refused in turn.
//!
//! Main items: `replays`, `scripts`, `searches`.
#![tactic(auto)]

#[cfg(test)]
mod arguments;
#[cfg(test)]
mod memory;
#[cfg(test)]
mod program;
#[cfg(test)]
mod replays;
#[cfg(test)]
mod scripts;
#[cfg(test)]
mod searches;
#[cfg(test)]
mod support;
