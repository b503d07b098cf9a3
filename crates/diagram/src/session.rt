//! A session: a schedule that grows by a line at a time, and goes back.

mod algorithm_positions;
mod algorithm_simulation;
mod last_steps;
pub mod laws;
mod line_play;
pub mod lock_simulation;
pub mod opened;
mod positions;
pub mod request;
pub mod session_lines;
pub mod simulation;
mod way;

pub use lock_simulation::LockSimulation;
pub use opened::{Session, SessionReply};
pub use request::Request;
pub use simulation::Simulation;
