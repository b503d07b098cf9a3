//! Crash plans: at each asking a plan decides whether its process crashes there. A member of the running lock asks its plan before
//! each step.
//!
//! Main items: `CrashPlan`, `At`, `Seeded`.
#![tactic(auto)]

mod asking_counter;
mod at;
mod both;
mod crash_plan;
mod never;
mod seeded;

pub use at::At;
pub use both::Both;
pub use crash_plan::CrashPlan;
pub use never::Never;
pub use seeded::Seeded;
