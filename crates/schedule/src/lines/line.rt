//! The lines of a schedule.

use crate::lines::count::Count;
use rmeworld::Call;

/// A line after the header.
#[derive(Clone, Copy, Debug, PartialEq, Eq)]
pub enum Line {
    /// A process starts a call.
    Start(u64, Call),
    /// A process takes this many steps, or fewer where its call is answered first.
    Step(u64, Count),
    /// A process crashes.
    Crash(u64),
    /// Every process crashes, one after another.
    CrashAll,
}
