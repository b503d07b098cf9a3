//! The commands of `rmelab`, and the whole program over its words, a folder of files, a reader and two writers.
//!
//! Main items: `run_program`, `command`.
#![tactic(auto)]

pub mod command;
pub mod disk;
pub mod program;

pub use command_parts::{
    CommandFault, Ending, FileFault, Folder, Meter, NoScreen, Screen, Terminal, Work,
};
