//! The crash and the start before a step of a process.

use rmeworld::Call;

/// The events before a step of a process, in the same critical section: its crash, if its private memory is lost, and the
/// start of its call, if this is the call's first step. Neither touches a word.
#[derive(Clone, Copy, Debug)]
pub struct Opening {
    pub crash: bool,
    pub call: Option<Call>,
}
