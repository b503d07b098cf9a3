//! The private memory of a process of a variant.

use crate::variants::change::Change;
use crate::variants::deviation::Deviation;
use rmeworld::PrivateMemory;

/// The private memory of a process of a variant: all that a crash takes from it.
#[derive(Clone, Copy)]
pub struct VariantMemory {
    pub process: PrivateMemory,
    pub deviation: Deviation,
    pub change: Change,
}
