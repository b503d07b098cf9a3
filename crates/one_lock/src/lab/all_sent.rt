//! Whether the messages that a lab shows are those that its workers have sent.

ghost use Rattle.std.specs.Prelude.{◌≡◌, ◌<◌, ◌≤◌, true};
ghost use Rattle.table_runs.specs.Lab.{AreAllSent, messages_by, messages_sent};

use redomail::Message;
use table_runs::lab::Spec;
use table_runs::lab::sent_messages::value_sent;

/// Are worker p's messages among these all that it sends, once and in order?
#[tactic(auto, using(crate::proofs::AllSent::passes, crate::proofs::AllSent::adds, crate::proofs::AllSent::ends))]
fn has_sent_all(spec: &Spec, p: u64, messages: &[Message]) -> bool
    requires process { p < 64 }
    requires most { spec.now.messages ≤ 4096 }
    requires least { 1 ≤ spec.now.width }
    requires wide { spec.now.width ≤ 8 }
    ensures { result ≡ true → messages_by p messages.now ≡ messages_sent spec.now.width p spec.now.messages }
{
    let mut sent = 0;
    for message in messages {
        if message.sender == p {
            if sent >= spec.messages {
                return false;
            }
            sent += 1;
            let value = value_sent(p, sent, spec.width);
            if message.seq != sent || message.value.as_slice() != value.as_slice() {
                return false;
            }
        }
    }
    sent == spec.messages
}

/// Are these the messages of all workers: of each its own, once and in order, and no others?
#[tactic(auto, using(crate::proofs::AllSent::one_more_sent))]
pub fn are_all_sent(spec: &Spec, messages: &[Message]) -> bool
    requires few { spec.now.procs ≤ 64 }
    requires most { spec.now.messages ≤ 4096 }
    requires least { 1 ≤ spec.now.width }
    requires wide { spec.now.width ≤ 8 }
    ensures { result ≡ true → AreAllSent spec.now messages.now }
{
    for p in 0..spec.procs {
        if !has_sent_all(spec, p, messages) {
            return false;
        }
    }
    messages.len() as u64 == spec.procs * spec.messages
}
