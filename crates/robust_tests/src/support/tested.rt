//! A member of either lock, as tests call it.

ghost use Rattle.std.specs.Prelude.{◌≡◌};

use crash_plans::CrashPlan;
use redomail::Reply;
use rmeworld::{Answer, Image};
use std::alloc::Global;
use std::sync::Wait;
use table_runs::{Entry, LockFault};

/// A call of a member. A lock, or the lock of an append, that has no turns waits as long as it has to. The value of an append
/// has one word.
#[derive(Clone, Copy)]
pub enum MemberCall {
    Lock(Option<u64>),
    Unlock,
    Consistent,
    Recover,
    Withdraw,
    CloseWithin(u64),
    Get(u64),
    Put(u64, u64),
    Append {
        seq: u64,
        word: u64,
        turns: Option<u64>,
    },
}

/// A member of the running lock, or of its plain reference.
/// For the proof: `place` is what no call changes, and `are_all` says that two members are all those of one arena.
pub trait Tested: Drop {
    ghost Place: { Type 0 };

    ghost place: { Self → Place };

    ghost are_all: { Place → Place → Type 0 };

    /// Makes a call.
    fn call<C: CrashPlan, R: Wait>(
        &mut self,
        rt: &R,
        call: MemberCall,
        plan: &mut C,
    ) -> Result<Answer, LockFault>
        ensures { place self.new ≡ place self.old };

    /// A close that waits as long as it has to.
    fn close_at_last<C: CrashPlan, R: Wait>(
        &mut self,
        rt: &R,
        plan: &mut C,
    ) -> Result<Reply, LockFault>;

    /// The own steps of the last call.
    fn own_steps(&self) -> u64;

    /// The image of the words of an arena of two. None: it was not gathered.
    fn gathered<R: Wait>(rt: &R, alloc: Global, one: Self, other: Self) -> Option<Image>
        requires { are_all (place one) (place other) };
}

/// What a call answers that enters.
pub fn entered(entry: Result<Entry, LockFault>) -> Result<Answer, LockFault> {
    match entry {
        Ok(Entry::Clean) => Ok(Answer::Clean),
        Ok(Entry::OwnerDied) => Ok(Answer::OwnerDied),
        Err(fault) => Err(fault),
    }
}

/// What a call of the mailbox answers.
pub fn replied(reply: Result<Reply, LockFault>) -> Result<Answer, LockFault> {
    match reply {
        Ok(reply) => Ok(Answer::Mail(reply)),
        Err(fault) => Err(fault),
    }
}

/// What a call answers that has this one answer.
pub fn done(ended: Result<(), LockFault>, answer: Answer) -> Result<Answer, LockFault> {
    match ended {
        Ok(()) => Ok(answer),
        Err(fault) => Err(fault),
    }
}
