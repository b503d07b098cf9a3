//! Names each public item that users rely on, by its path and with its signature, so that none of them can move, change or go
//! without this crate failing to compile. What the items do is tested elsewhere.
//!
//! Main items: `of_rmecore`, `of_robust`, `of_schedule`.
#![tactic(auto)]

pub mod of_crashlab;
pub mod of_judge;
pub mod of_laws;
pub mod of_one_lock;
pub mod of_program;
pub mod of_redomail;
pub mod of_rmecore;
pub mod of_rmeworld;
pub mod of_robust;
pub mod of_schedule;
pub mod of_searches;
