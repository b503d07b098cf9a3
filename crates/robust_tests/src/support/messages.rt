//! Messages, and checks of them.

ghost use Rattle.std.specs.Prelude.{◌≡◌, length};

use super::text::number;
use redomail::{Layout, Message, content};
use rmecore::Body;
use rmeworld::Image;
use std::alloc::Global;
use table_runs::lab::Spec;
use test_support::text::cut;

/// A value of one word.
pub fn body(word: u64) -> Body
    ensures { length result ≡ 1 }
{
    match Body::new(&[word]) {
        Ok(value) => value,
        Err(_) => unreachable!(),
    }
}

/// Whether the messages are these, as in `0 1 5; 1 1 9`: each one's sender, sequence number and word.
pub fn are(messages: &[Message], wanted: &str) -> bool {
    let mut rest = wanted;
    for message in messages {
        let mut line = cut(&mut rest, "; ");
        let is_sent = number(&mut line) == message.sender && number(&mut line) == message.seq;
        if !is_sent || message.value != body(number(&mut line)) {
            return false;
        }
    }
    rest.is_empty()
}

/// Whether an image of two processes, with values of one word, shows exactly these messages.
pub fn shows(alloc: Global, image: &Image, wanted: &str) -> bool {
    let layout = Layout {
        procs: 2,
        cap: image.cap,
        width: 1,
    };
    match content(alloc, layout, image.cells.as_slice()) {
        Ok(messages) => are(messages.as_slice(), wanted),
        Err(_) => false,
    }
}

/// Whether the message has the words that worker p sends with this number.
fn is_from(message: &Message, p: u64, seq: u64, width: u64) -> bool {
    (0..width).all(|j| {
        let word = p
            .saturating_mul(1_000_000)
            .saturating_add(seq)
            .saturating_add(j);
        message.value.word(j) == Ok(word)
    })
}

/// Whether the messages of worker p are all that it had to send, in order.
fn are_sent_by(spec: Spec, messages: &[Message], p: u64) -> bool {
    let mut seq = 0u64;
    for message in messages {
        if message.sender == p {
            seq = seq.saturating_add(1);
            if message.seq != seq || !is_from(message, p, seq, spec.width) {
                return false;
            }
        }
    }
    seq == spec.messages
}

/// Whether the messages are all that the workers of a lab had to send, each worker's in order.
pub fn are_all_sent(spec: Spec, messages: &[Message]) -> bool {
    messages.len() as u64 == spec.procs.saturating_mul(spec.messages)
        && (0..spec.procs).all(|p| are_sent_by(spec, messages, p))
}
