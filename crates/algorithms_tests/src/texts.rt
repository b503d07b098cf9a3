//! The texts of examples/algorithms, and one with each construct of the format.

pub mod arrays;
pub mod bakeries;
pub mod claims;
pub mod constructs;
pub mod homes;
pub mod loops;
pub mod others;
pub mod promises;
pub mod queues;
pub mod rows;
pub mod swaps;
