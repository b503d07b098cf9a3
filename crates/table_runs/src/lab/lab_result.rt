//! The result of a lab.

use redomail::Message;

/// The result of a lab: the messages shown, by rising place.
#[derive(Debug, Drop)]
pub struct LabResult {
    pub messages: Vec<Message>,
}
