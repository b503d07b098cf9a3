//! Replays a schedule on a machine before a judge, and reports it. Judges a trace while it is read.

pub mod last_words;
pub mod laws;
pub mod pieces;
mod play_in_place;
pub mod replay_fault;
pub mod replay_loop;
mod replay_stop;
pub mod replay_text;
mod report_writer;
mod reporter;
pub mod running_verdict;
pub mod stage;
pub mod trace_judge;
pub mod verdict;
