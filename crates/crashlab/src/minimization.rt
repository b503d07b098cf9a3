//! Minimizes a schedule that goes wrong.

mod change;
mod large_steps;
mod least;
mod made_of;
pub mod minimizer;
pub mod oracle;
mod played;
mod replaced;
mod size;
pub mod whole;
