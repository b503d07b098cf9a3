//! How a command ends.

ghost use Rattle.std.specs.Prelude.{◌≡◌, ◌≤◌};
ghost use Rattle.command_parts.specs.Statuses.{status_after};

use schedule::Verdict;

/// How a command ended without a fault: its exit status, and the bytes of the image to be saved, if any.
#[derive(Debug, Drop, PartialEq, Eq)]
pub struct Ending {
    pub status: u8,
    pub save: Option<Vec<u8>>,
}

/// The exit status after a verdict: 0 if it is fine, 1 if it is against.
pub fn status_after_verdict(verdict: Verdict) -> u8
    ensures reports { result ≡ status_after verdict }
    ensures few { result ≤ 1 }
{
    match verdict {
        Verdict::Fine => 0,
        Verdict::Against { .. } => 1,
    }
}
