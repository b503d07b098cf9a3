//! The running lock, in tests: two members of an arena.

ghost use Rattle.std.specs.Prelude.{◌≡◌, ℕ};
ghost use Rattle.atomic_table.specs.Seated.{TableId};
ghost use Rattle.table_runs.specs.declared.setup.Setup.{Setup};
ghost use Rattle.robust.specs.MemberLaws.{seat_of};

use crate::support::messages::body;
use crate::support::tested::{MemberCall, Tested, done, entered, replied};
use crash_plans::CrashPlan;
use redomail::Reply;
use rmeworld::{Answer, Image};
use robust::{Arena, Member, gather};
use std::alloc::Global;
use std::process::Abort;
use std::sync::Wait;
use table_runs::LockFault;

impl Tested for Member {
    ghost Place = { TableId × Setup × ℕ };

    ghost place = { λ m. seat_of m };

    ghost are_all = { λ a b. a.0 ≡ b.0 };

    fn call<C: CrashPlan, R: Wait>(
        &mut self,
        rt: &R,
        call: MemberCall,
        plan: &mut C,
    ) -> Result<Answer, LockFault> {
        match call {
            MemberCall::Lock(None) => entered(self.lock(rt, plan)),
            MemberCall::Lock(Some(turns)) => entered(self.lock_within(plan, turns)),
            MemberCall::CloseWithin(turns) => replied(self.close_within(plan, turns)),
            MemberCall::Append { seq, word, turns } => {
                let value = body(word);
                match turns {
                    None => replied(self.append(rt, seq, value, plan)),
                    Some(turns) => replied(self.append_within(seq, value, plan, turns)),
                }
            }
            MemberCall::Consistent => Ok(Answer::Mail(Reply::Mended(self.consistent(plan)?))),
            MemberCall::Recover => Ok(Answer::Found(self.recover(plan)?)),
            MemberCall::Get(index) => Ok(Answer::Mail(Reply::Word(self.get(index, plan)?))),
            MemberCall::Put(index, value) => {
                done(self.put(index, value, plan), Answer::Mail(Reply::Done))
            }
            MemberCall::Unlock => done(self.unlock(plan), Answer::Unlocked),
            MemberCall::Withdraw => done(self.withdraw(plan), Answer::Withdrawn),
        }
    }

    fn close_at_last<C: CrashPlan, R: Wait>(
        &mut self,
        rt: &R,
        plan: &mut C,
    ) -> Result<Reply, LockFault> {
        self.close(rt, plan)
    }

    fn own_steps(&self) -> u64 {
        self.steps()
    }

    fn gathered<R: Wait>(_rt: &R, alloc: Global, one: Self, other: Self) -> Option<Image> {
        let members = vec![in alloc; one, other].ok()?;
        gather(alloc, members).ok()
    }
}

/// The two members of a new arena, with values of one word.
pub fn two(rt: &impl Abort, alloc: Global, limit: u64, cap: u64) -> (Member, Member)
    ensures { result.0.seat_view.table ≡ result.1.seat_view.table }
{
    let Ok(mut all) = Arena::new(rt, alloc, 2, limit, cap, 1) else {
        panic!(rt; "no members")
    };
    let (Some(second), Some(first)) = (all.pop(), all.pop()) else {
        panic!(rt; "too few members")
    };
    assert!(rt; first.number() == 0 && second.number() == 1);
    (first, second)
}
