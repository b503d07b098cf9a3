//! How a process accesses the words of one atomic table: each load and store through its seat, and the fast paths of a lock,
//! an unlock and an append, which are loops over the words.

pub mod fast_append;
pub mod fast_path;
mod in_line;
pub mod pending_events;
pub mod port;
pub mod table;
