//! What an append does once it has read its three words.

ghost use Rattle.std.specs.Prelude.{◌≡◌};
ghost use Rattle.redomail.specs.Tasks.{early_reply as early_reply_of};

use crate::reply::Reply;

/// The reply of an append that stores nothing, from its number, the three words that it has read, and the mailbox's capacity.
/// The first cause in this order decides: a number 0, a number of a message that is there, a number that is not the next,
/// a mailbox that is closed, one that is full. None: it stores its message, at place `count`.
// Inline: once in each append.
#[inline(always)]
pub fn early_reply(cap: u64, seq: u64, closed: u64, count: u64, last: u64) -> Option<Reply>
    ensures { result ≡ early_reply_of cap seq closed count last }
{
    if seq == 0 {
        Some(Reply::OutOfOrder)
    } else if seq <= last {
        Some(Reply::Already)
    } else if seq - 1 > last {
        Some(Reply::OutOfOrder)
    } else if closed == 1 {
        Some(Reply::Closed)
    } else if count == cap {
        Some(Reply::Full)
    } else {
        None
    }
}
