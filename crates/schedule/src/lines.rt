//! One line of a schedule, a trace or a report: its words and numbers, what it says, and how it is written.

pub mod answer;
pub mod command;
pub mod count;
pub mod cut;
pub mod deed;
pub mod fault;
pub mod item;
pub mod line;
pub mod line_reader;
pub mod line_writer;
pub mod number;
pub mod range;
pub mod words;
