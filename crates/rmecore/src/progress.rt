//! The effects of a step.

ghost use Rattle.std.specs.Prelude.{◌≡◌, Some, None, false};

use crate::core_done::CoreDone;
use crate::outer::Outer;

/// The effects of a step: its deed, the call's answer, and whether it was blocked.
#[derive(Clone, Copy, Debug, PartialEq, Eq)]
pub struct Progress {
    pub outer: Option<Outer>,
    pub done: Option<CoreDone>,
    /// A look or a weigh that left the process at its place.
    pub blocked: bool,
}

/// No deed, no answer, not blocked.
pub const SILENT: Progress = Progress {
    outer: None,
    done: None,
    blocked: false,
};

pub(crate) const BLOCKED: Progress = Progress {
    outer: None,
    done: None,
    blocked: true,
};

impl Progress {
    /// A deed in the middle of a call.
    pub(crate) fn deed(outer: Outer) -> Progress
        ensures { result ≡ record { outer = Some outer; done = None; blocked = false } }
    {
        Progress {
            outer: Some(outer),
            done: None,
            blocked: false,
        }
    }

    /// The end of a call, without a deed.
    pub(crate) fn end(done: CoreDone) -> Progress
        ensures { result ≡ record { outer = None; done = Some done; blocked = false } }
    {
        Progress {
            outer: None,
            done: Some(done),
            blocked: false,
        }
    }

    /// A deed that also ends the call.
    pub(crate) fn deed_and_end(outer: Outer, done: CoreDone) -> Progress
        ensures { result ≡ record { outer = Some outer; done = Some done; blocked = false } }
    {
        Progress {
            outer: Some(outer),
            done: Some(done),
            blocked: false,
        }
    }
}
