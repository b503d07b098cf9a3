//! Reads the next line of a text in place, from the front of what is left. No line is kept.

pub mod deed_tokens;
pub mod in_place;
pub mod line_tokens;
pub mod tokens;
