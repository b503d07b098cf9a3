//! The arguments of `rmelab`'s commands, and the words of a command line that spell them.

pub mod args;
mod argument;
mod cost_words;
mod draw_words;
mod explore_words;
mod export_words;
mod hunt_words;
mod parser;
mod replay_words;
mod shrink_words;
mod states_words;
mod step_words;
pub mod words;
