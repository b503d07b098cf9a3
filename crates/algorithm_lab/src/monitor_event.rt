//! What a step and a crash of a monitor's process say.

use crate::section::BoundedSection;
use algorithms::{Advanced, Promises};
use rmecore::Phase;

/// A step: what it says in the world, the phase of its process before it, what the algorithm promises, the section in which it is
/// the first step above the bound, if there is one, and the line of a claim whose condition holds before it or after it.
#[derive(Clone, Copy, Debug)]
pub struct MonitorStep {
    pub advanced: Advanced,
    pub phase: Phase,
    pub promises: Promises,
    pub excess: Option<BoundedSection>,
    pub broken: Option<u64>,
}

/// A crash: the phase of its process before it, what the algorithm promises, and the line of a claim whose condition holds before
/// it or after it.
#[derive(Clone, Copy, Debug)]
pub struct MonitorCrash {
    pub phase: Phase,
    pub promises: Promises,
    pub broken: Option<u64>,
}
