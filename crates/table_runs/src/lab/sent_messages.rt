//! What the workers of a lab send, and how they take an answer.

ghost use Rattle.std.specs.Prelude.{◌≡◌, ◌<◌, ◌≤◌, ◌⊎◌, ◌↔◌, IsTrue, length};
ghost use Rattle.table_runs.specs.Lab.{words_sent};

use crate::LockFault;
use redomail::Reply;
use rmecore::Body;

/// The value of worker p's message with this sequence number, `width` words wide: word j is 1,000,000 * p + seq + j.
pub fn value_sent(p: u64, seq: u64, width: u64) -> Body
    requires process { p < 64 }
    requires number { seq ≤ 4096 }
    requires least { 1 ≤ width }
    requires most { width ≤ 8 }
    ensures words { result ≡ words_sent p seq width }
    ensures width { length result ≡ width }
{
    let mut words = [0; 8];
    for j in 0..width {
        words[j as usize] = 1_000_000 * p + seq + j;
    }
    let Ok(value) = Body::new(&words[..width as usize]) else {
        unreachable!()
    };
    value
}

/// Is the message shown after this reply?
pub fn is_sent(reply: Reply) -> bool
    ensures { IsTrue result ↔ (reply ≡ Reply.Stored) ⊎ (reply ≡ Reply.Already) }
{
    matches!(reply, Reply::Stored | Reply::Already)
}

/// Has the process crashed, so that the worker calls again?
pub fn is_crash(fault: LockFault) -> bool
    ensures { IsTrue result ↔ (fault ≡ LockFault.Crashed) }
{
    matches!(fault, LockFault::Crashed)
}
