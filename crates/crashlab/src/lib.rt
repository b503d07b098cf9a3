//! Wrong variants of the lock, the hunt that finds their faults, and the minimizing of schedules. Its rooms, in `src`, `specs` and
//! `proofs`: `variants`, `hunts`, `minimization`; `words` and `space` have the states of a search.
//!
//! Main items: `Variant`, `hunt`, `shrink`.
#![tactic(auto)]

pub mod hunts;
pub mod laws;
pub mod minimization;
pub mod space;
pub mod variants;
pub mod words;

pub use crash_plans::{At, Both, CrashPlan, Never, Seeded};
pub use hunts::hunt_fault::HuntFault;
pub use hunts::parallel_hunts::{hunt_in_parallel, hunt_in_parallel_watched};
pub use hunts::random_moves::RandomMoves;
pub use hunts::{hunt, hunt_part, hunt_watched};
pub use minimization::minimizer::minimize;
pub use minimization::oracle::Oracle;
pub use minimization::whole::{shrink, shrink_found};
pub use variants::variant::Variant;
pub use variants::variant_memory::VariantMemory;
pub use variants::variant_world::VariantWorld;
