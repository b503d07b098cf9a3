//! A message of the mailbox.

use rmecore::Body;

/// A message: its sender, the sender's number for it (from 1), and its value.
#[derive(Clone, Copy, Debug, PartialEq, Eq)]
pub struct Message {
    pub sender: u64,
    pub seq: u64,
    pub value: Body,
}
