//! The laboratory over algorithms as texts: runs of schedules before the judge, and their reports.
//!
//! Main items: `Monitor`, `replay_algorithm`, `laws`.
#![tactic(auto)]

mod call_rules;
mod claims;
pub mod heard;
pub mod laws;
pub mod line_play;
pub mod monitor;
pub mod monitor_event;
pub mod replay;
pub mod replay_fault;
pub mod report;
pub mod run_refusal;
pub mod run_report;
pub mod section;
mod step_counts;
pub mod verdict;

pub use line_play::{crash_all, hear_lines, play_lines};
pub use monitor::{Monitor, MonitorCheckpoint};
pub use monitor_event::{MonitorCrash, MonitorStep};
pub use replay::{ReplayText, replay_algorithm, report_of_run};
pub use replay_fault::AlgorithmReplayFault;
pub use run_refusal::RunRefusal;
pub use run_report::TextReport;
pub use section::{BoundedSection, StepBound};
