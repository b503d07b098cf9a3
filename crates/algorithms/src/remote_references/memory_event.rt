//! The events of a run as memory sees them.

ghost use Rattle.std.specs.Prelude.{◌≡◌};
ghost use Rattle.algorithms.specs.remote_references.Copies.{stores_or_swaps};

use crate::access::WordAccess;

/// An event of a run, as memory sees it.
#[derive(Clone, Copy, Debug, PartialEq, Eq)]
pub enum MemoryEvent {
    /// A process makes an access, blocked or not.
    Access(u64, WordAccess),
    /// A process crashes.
    Crash(u64),
    /// Every process crashes.
    CrashAll,
}

impl WordAccess {
    /// Whether this is a store or a swap, also a swap that stores nothing.
    pub fn stores_or_swaps(self) -> bool
        ensures { result ≡ stores_or_swaps self }
    {
        self.swaps || self.stores.is_some()
    }
}
