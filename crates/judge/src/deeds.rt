//! What the judge reads of a deed, and of a message that is pending.

ghost use Rattle.std.specs.Prelude.{◌≡◌};
ghost use Rattle.redomail.specs.Mailbox.{is_pending as is_pending_in, doer as doer_of};

use redomail::{Deed, Message};
use rmecore::{Body, Outer};

/// Whether the pending message is exactly this one.
pub(crate) fn is_pending(pending: Option<Message>, p: u64, seq: u64, v: Body) -> bool
    ensures { result ≡ is_pending_in pending p seq v }
{
    match pending {
        None => false,
        Some(m) => m.sender == p && m.seq == seq && m.value == v,
    }
}

/// The process that does the deed.
pub(crate) fn doer(deed: &Deed) -> u64
    ensures { result ≡ doer_of deed.now }
{
    match *deed {
        Deed::Outer(Outer::Begin(p)) => p,
        Deed::Outer(Outer::Ready(p)) => p,
        Deed::Outer(Outer::Enter(p)) => p,
        Deed::Outer(Outer::Crash(p)) => p,
        Deed::Outer(Outer::Reenter(p)) => p,
        Deed::Outer(Outer::Leave(p)) => p,
        Deed::Outer(Outer::Quit(p)) => p,
        Deed::Commit { p, .. } => p,
        Deed::Show { p, .. } => p,
        Deed::Close { p } => p,
        Deed::Ruin { p } => p,
    }
}
