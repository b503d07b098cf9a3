//! Why a report is not written on.

ghost use Rattle.std.specs.Prelude.{◌≡◌};
ghost use Rattle.schedule.specs.declared.replays.replay_stop.ReplayStop.TheVariants.{OutOfMemory as ReplayStopOutOfMemory, Write as ReplayStopWrite};

use crate::texts::device::Failed;
use std::alloc::AllocError;

/// Why a report is not written on.
#[derive(Clone, Copy)]
pub enum ReplayStop {
    /// The sink failed.
    Write,
    /// Out of memory.
    OutOfMemory,
}

impl From<AllocError> for ReplayStop {
    ghost from_gives = { λ _ e. e ≡ ReplayStopOutOfMemory };

    fn from(_e: AllocError) -> ReplayStop {
        ReplayStop::OutOfMemory
    }
}

impl From<Failed> for ReplayStop {
    ghost from_gives = { λ _ e. e ≡ ReplayStopWrite };

    fn from(_e: Failed) -> ReplayStop {
        ReplayStop::Write
    }
}
