//! The player: it plays the lines of a schedule on a machine, and a listener hears each event.

pub mod automaton;
pub mod listener;
mod machine;
pub mod play_lines;
pub mod play_stop;
