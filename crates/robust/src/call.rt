//! The calls of a process over the words of a table: its seat and its machine, step by step. A crash plan is asked before
//! each step.

pub mod call_driver;
mod drive;
mod led;
mod lock_call;
mod mailbox_reader;
mod whole;
