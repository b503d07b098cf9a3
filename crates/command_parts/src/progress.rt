//! The progress of a search or a hunt: one line on a terminal while it works.

mod line;
pub mod meter;
pub mod screen;
pub mod work;
