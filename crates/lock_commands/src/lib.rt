//! The commands on the lock and its variants: `replay`, `draw`, `shrink`, `judge`, `hunt`, `explore`, `cost`, `states`, `run` and
//! `step`.
//!
//! Main items: `replay_command`, `explore_command`, `run_command`.
#![tactic(auto)]

pub mod cost_command;
pub mod drawn;
pub mod explore_command;
pub mod hunt_command;
pub mod judge_command;
mod machine_text;
mod play_start;
pub mod replay_command;
pub mod run_command;
pub mod session_command;
pub mod shrunk;
mod starvation;
pub mod states_command;
mod stuck;
pub mod tally;
