//! Places as words, and back.

pub mod lists;
pub mod places;
