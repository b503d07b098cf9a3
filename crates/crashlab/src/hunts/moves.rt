//! The moves of a hunt.

ghost use Rattle.std.specs.Prelude.{◌≡◌, ◌∷◌, []};
ghost use Rattle.crashlab.specs.hunts.Found.{call_by, line_by};

use rmecore::Body;
use rmeworld::Call;
use schedule::{Count, Line};

/// A call that a hunt starts.
#[derive(Clone, Copy)]
pub enum NextCall {
    Lock,
    Consistent,
    /// Appends the message of this number, whose one word is the number.
    Append(u64),
    Unlock,
}

impl NextCall {
    /// The call itself, which takes five times the room.
    pub fn call(self) -> Call
        ensures { result ≡ call_by self }
    {
        match self {
            NextCall::Lock => Call::Lock,
            NextCall::Consistent => Call::Consistent,
            NextCall::Append(seq) => Call::Append {
                seq,
                value: body(seq),
            },
            NextCall::Unlock => Call::Unlock,
        }
    }
}

/// A value of one word.
fn body(word: u64) -> Body
    ensures { result ≡ word ∷ [] }
{
    match Body::new(&[word]) {
        Ok(body) => body,
        Err(_) => unreachable!(),
    }
}

/// A move of a hunt.
#[derive(Clone, Copy)]
pub enum DrawnMove {
    /// A process starts a call.
    Start(u64, NextCall),
    /// A process takes a step.
    Step(u64),
    /// A process crashes.
    Crash(u64),
    /// Every process crashes.
    CrashAll,
}

impl DrawnMove {
    /// The move as a line of a schedule.
    pub fn line(self) -> Line
        ensures { result ≡ line_by self }
    {
        match self {
            DrawnMove::Start(p, next_call) => Line::Start(p, next_call.call()),
            DrawnMove::Step(p) => Line::Step(p, Count::ONE),
            DrawnMove::Crash(p) => Line::Crash(p),
            DrawnMove::CrashAll => Line::CrashAll,
        }
    }
}
