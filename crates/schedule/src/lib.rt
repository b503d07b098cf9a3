//! Schedules, traces and reports: their texts, the replay of a schedule on any machine, and the judging of a trace.
//!
//! Main items: `Schedule`, `replay`, `judge_trace`.
#![tactic(auto)]

pub mod lexer;
pub mod lines;
pub mod player;
pub mod replays;
pub mod texts;

pub use lines::count::Count;
pub use lines::fault::LineFault;
pub use lines::line::Line;
pub use player::automaton::Automaton;
pub use player::listener::Listener;
pub use player::play_lines::{play_line, play_lines};
pub use player::play_stop::PlayStop;
pub use replays::last_words::put_verdict;
pub use replays::replay_fault::ReplayFault;
pub use replays::replay_loop::replay_on;
pub use replays::replay_text::{replay, replay_to_writer};
pub use replays::trace_judge::judge_trace;
pub use replays::verdict::Verdict;
pub use texts::device::{Failed, Page, Sink, Source, Text};
pub use texts::fault::{OutOfMemory, TextFault};
pub use texts::schedule::{Schedule, read_schedule};
pub use texts::text_writer::write_schedule;
pub use texts::trace::{Trace, read_trace};
pub use texts::wrapped::{FromReader, ToWriter};
