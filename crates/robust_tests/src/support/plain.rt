//! The plain reference of the running lock, in tests: two members of an arena, and what rows come to on them.

ghost use Rattle.std.specs.Prelude.{◌≡◌, ℕ};
ghost use Rattle.redomail.specs.declared.layout.Layout.{Layout};
ghost use Rattle.one_lock.specs.Shown.{place_of};

use crate::support::messages::body;
use crate::support::tested::{MemberCall, Tested, done, entered, replied};
use crash_plans::CrashPlan;
use one_lock::{Arena, Member, gather};
use redomail::Reply;
use rmeworld::{Answer, Image};
use std::alloc::Global;
use std::process::Abort;
use std::sync::Wait;
use std::sync::ledger::{Blank, Ledger};
use table_runs::LockFault;

impl<L: Ledger> Tested for Member<L> {
    ghost Place = { ℕ × Layout };

    ghost place = { λ m. place_of m };

    ghost are_all = { λ a b. (a.1.procs ≡ L.parts) × (b.1.procs ≡ L.parts) };

    fn call<C: CrashPlan, R: Wait>(
        &mut self,
        rt: &R,
        call: MemberCall,
        plan: &mut C,
    ) -> Result<Answer, LockFault> {
        match call {
            MemberCall::Lock(None) => entered(self.lock(rt, plan)),
            MemberCall::Lock(Some(turns)) => entered(self.lock_within(rt, plan, turns)),
            MemberCall::CloseWithin(turns) => replied(self.close_within(rt, plan, turns)),
            MemberCall::Append { seq, word, turns } => {
                let value = body(word);
                match turns {
                    None => replied(self.append(rt, seq, value, plan)),
                    Some(turns) => replied(self.append_within(rt, seq, value, plan, turns)),
                }
            }
            MemberCall::Consistent => Ok(Answer::Mail(Reply::Mended(self.consistent(rt, plan)?))),
            MemberCall::Recover => Ok(Answer::Found(self.recover(rt, plan)?)),
            MemberCall::Get(index) => Ok(Answer::Mail(Reply::Word(self.get(rt, index, plan)?))),
            MemberCall::Put(index, value) => {
                done(self.put(rt, index, value, plan), Answer::Mail(Reply::Done))
            }
            MemberCall::Unlock => done(self.unlock(rt, plan), Answer::Unlocked),
            // The reference has no withdraw: no row on it may have one, since none expects this.
            MemberCall::Withdraw => Ok(Answer::NumbersSpent),
        }
    }

    fn close_at_last<C: CrashPlan, R: Wait>(
        &mut self,
        rt: &R,
        plan: &mut C,
    ) -> Result<Reply, LockFault> {
        self.close(rt, plan)
    }

    fn own_steps(&self) -> u64 {
        self.steps()
    }

    fn gathered<R: Wait>(rt: &R, alloc: Global, one: Self, other: Self) -> Option<Image> {
        let members = vec![in alloc; one, other].ok()?;
        gather(rt, members).ok()
    }
}

/// The two members of a new arena, with values of one word.
pub fn two<L: Ledger>(
    rt: &impl Abort,
    alloc: Global,
    limit: u64,
    cap: u64,
    blank: Blank,
) -> (Member<L>, Member<L>)
    requires name { blank.name ≡ L.name }
    requires parts { blank.parts ≡ L.parts }
    requires both { blank.parts ≡ 2 }
    ensures first { result.0.layout.procs ≡ L.parts }
    ensures second { result.1.layout.procs ≡ L.parts }
{
    let Ok(mut all) = Arena::new::<L, _>(rt, alloc, 2, limit, cap, 1, blank) else {
        panic!(rt; "no members")
    };
    let (Some(second), Some(first)) = (all.pop(), all.pop()) else {
        panic!(rt; "too few members")
    };
    (first, second)
}
