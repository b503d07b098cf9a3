//! Random schedules of an algorithm: the hunt for one that goes wrong, the minimizing of one, and how many remote references the
//! passages of such schedules have.
//!
//! Main items: `hunt_algorithm_schedule`, `shrink_algorithm_schedule`, `algorithm_cost_totals`.
#![tactic(auto)]

pub mod hunt;
pub mod hunt_fault;
pub mod laws;
mod mean_cost;
pub mod minimization;
pub mod parallel_hunt;
pub mod random_rounds;

pub use crashlab::RandomMoves;
pub use explorer::{Unwatched, Watch};
pub use hunt::{hunt_algorithm_schedule, hunt_least_algorithm_schedule};
pub use hunt_fault::AlgorithmHuntFault;
pub use mean_cost::algorithm_cost_totals;
pub use minimization::shrink_algorithm_schedule;
pub use parallel_hunt::{hunt_algorithm_in_parallel, hunt_least_algorithm_in_parallel};
pub use random_rounds::{CostTotals, RandomRounds};
