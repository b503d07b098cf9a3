//! Laws of progress of the lock: what must happen if those who wait go on. They bound the work and the waiting of a process in
//! line, and the entries of others meanwhile. Each is the contract of a function that does nothing.
//!
//! Main items: `work_is_bounded`, `waiting_is_bounded`, `one_entry_while_in_line`.
#![tactic(auto)]

pub mod laws;
