//! The start of a history that earlier deeds came before.

use crate::ahead::Ahead;
use crate::messages::Messages;
use crate::phases::Phases;
use redomail::Message;

/// The state that earlier deeds left, from which `Judge::from_start` continues. The start of an image is one.
#[derive(Debug, Drop)]
pub struct Start {
    /// The number of processes, 1 to 64.
    pub procs: u64,
    /// The mailbox's capacity in messages, 1 to 65,536.
    pub cap: u64,
    /// The phase of each process.
    pub phases: Phases,
    /// The set of processes ahead of each process.
    pub ahead: Ahead,
    /// The messages shown, by rising place.
    pub shown: Messages,
    /// The message that is committed and not shown yet.
    pub pending: Option<Message>,
    /// Whether the mailbox is closed.
    pub closed: bool,
    /// Whether the lock is ruined.
    pub ruined: bool,
}
