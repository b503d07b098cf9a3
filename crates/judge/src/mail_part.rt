//! The mailbox part of a judge's state.

use redomail::Message;

/// The mailbox part of a judge's state, without the number of messages for each sender.
#[derive(Clone, Copy, Debug, PartialEq, Eq)]
pub struct MailPart {
    /// The number of messages shown.
    pub shown: u64,
    pub pending: Option<Message>,
    pub closed: bool,
    pub ruined: bool,
}
