//! Worked rows of the search, and small state spaces whose shortest paths are known beforehand.

#[cfg(test)]
mod cases;
#[cfg(test)]
mod jug_searches;
#[cfg(test)]
mod jug_sets;
pub mod jugs;
#[cfg(test)]
mod lock_streams;
#[cfg(test)]
mod scarce_memory;
#[cfg(test)]
mod schedules;
pub mod spins;
#[cfg(test)]
mod worlds;
