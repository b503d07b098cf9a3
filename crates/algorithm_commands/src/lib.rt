//! The commands on an algorithm's text: `replay`, `draw`, `shrink`, `hunt`, `explore`, `cost`, `export`, `states` and `step`.
//!
//! Main items: `algorithm_replay_command`, `algorithm_explore_command`, `algorithm_cost_command`.
#![tactic(auto)]

pub mod algorithm_cost_command;
pub mod algorithm_drawn;
pub mod algorithm_explore_command;
pub mod algorithm_export_command;
pub mod algorithm_hunt_command;
pub mod algorithm_mean_command;
mod algorithm_range;
pub mod algorithm_replay_command;
pub mod algorithm_session;
pub mod algorithm_shrunk;
mod algorithm_starvation;
pub mod algorithm_states_command;
mod algorithm_stuck;
mod line;
mod machine_text;
mod run_fault;
