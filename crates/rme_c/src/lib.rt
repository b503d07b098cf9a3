//! The machine of one process for C, as a static library: which shared word it loads or stores next, and what that step did.
//! C keeps the private memory of the process as plain numbers, and takes each step itself, as one sequentially consistent
//! load or store. Only the judgement of a copied block takes memory.
//!
//! Main items: `RmeProcess`, `exports`, `blocks`.
#![tactic(auto)]

mod accesses;
mod answers;
mod appends;
mod blocks;
mod clean_steps;
mod exports;
mod lock_arms;
mod lock_part;
mod position;
mod process;
mod runs;
mod script_position;
mod starts;
mod steps;
