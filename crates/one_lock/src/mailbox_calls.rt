//! The whole mailbox calls of a member: an append or a close with its lock, its mending and its unlock.

ghost use Rattle.std.specs.Prelude.{◌≡◌, ◌≢◌, ◌⊎◌, ◌↔◌, ℕ, Ok, Some, None, IfOk, IfErr, IsErrOf, OnOk, OnErr, IsSome, true, false, length};
ghost use Rattle.one_lock.specs.Answers.{IsReply, EndsAtLock, reply_by};
ghost use Rattle.one_lock.specs.Whole.{Mends, WorksInside, Whole};
ghost use Rattle.one_lock.specs.Member.{KeepsProcess, AskedEach, AskedOnceMore, CountsSteps, CountsOn, is_in, may_start, of_lock, of_wait, falls_by, stands_out, stands_mended};

use crate::calls::{lock_result, mending_result};
use crate::member::Member;
use crate::member_state::MemberState;
use crate::sizes::Sizes;
use crash_plans::CrashPlan;
use redomail::Reply;
use rmecore::Body;
use rmeworld::{Answer, Call};
use std::sync::Wait;
use std::sync::ledger::Ledger;
use table_runs::LockFault;

/// The reply of a task.
fn reply_of(answer: Option<Answer>) -> Reply
    ensures { result ≡ reply_by answer }
{
    match answer {
        Some(Answer::Mail(reply)) => reply,
        _ => Reply::Done,
    }
}

impl<L: Ledger, S: Sizes> Member<L, S> {
    /// Locks, mends where the owner died, stores a message with this sequence number, and unlocks. Its one answer is the
    /// reply of the append. `BadWidth`: the value has another width than the arena's. The other faults are those of
    /// `lock_within`. After `Crashed` it may be stored or not: send it again with the same number.
    pub fn append_within<R: Wait, P: CrashPlan>(
        &mut self,
        rt: &R,
        seq: u64,
        value: Body,
        plan: &mut P,
        turns: u64,
    ) -> Result<Reply, LockFault>
        ensures narrow { IsErrOf result LockFault.BadWidth ↔ (length value ≢ self.old.layout.width) }
        ensures refused { IsErrOf result LockFault.AlreadyIn
            ↔ ((length value ≡ self.old.layout.width) × (is_in self.old.standing ≡ true)) }
        ensures unasked { is_in self.old.standing ≡ true → (self.new ≡ self.old) × (P.askings plan.new ≡ P.askings plan.old) }
        ensures untaken { length value ≢ self.old.layout.width
            → (self.new ≡ self.old) × (P.askings plan.new ≡ P.askings plan.old) }
        ensures asked { is_in self.old.standing ≡ false → length value ≡ self.old.layout.width
            → AskedOnceMore self.old self.new (P.askings plan.old) (P.askings plan.new) }
        ensures counted { is_in self.old.standing ≡ false → length value ≡ self.old.layout.width → CountsSteps self.old self.new }
        ensures fallen { (P.askings plan.new).fallen ≡ falls_by result (P.askings plan.old).fallen }
        ensures goes { KeepsProcess self.old self.new }
        ensures stands { is_in self.old.standing ≡ false
            → length value ≡ self.old.layout.width → self.new.standing ≡ stands_out result }
        ensures faults { is_in self.old.standing ≡ false
            → length value ≡ self.old.layout.width → IfErr result (λ e. of_lock e ≡ true) }
        ensures at_lock { IfErr result (EndsAtLock S.named self.old (Some turns) self.new.trail) }
        ensures whole { is_in self.old.standing ≡ false → length value ≡ self.old.layout.width
            → Whole S.named self.old (Call.Append seq value) (Some turns) self.new result }
        ensures answered { IfOk result (λ reply. IsReply S.named self.old.process (Call.Append seq value) reply) }
    {
        self.append_by(rt, seq, value, plan, Some(turns))
    }

    /// The same as `append_within`, but it waits as long as it has to. Its faults are those of `append_within`, but for
    /// `NotYet`.
    pub fn append<R: Wait, P: CrashPlan>(
        &mut self,
        rt: &R,
        seq: u64,
        value: Body,
        plan: &mut P,
    ) -> Result<Reply, LockFault>
        ensures narrow { IsErrOf result LockFault.BadWidth ↔ (length value ≢ self.old.layout.width) }
        ensures refused { IsErrOf result LockFault.AlreadyIn
            ↔ ((length value ≡ self.old.layout.width) × (is_in self.old.standing ≡ true)) }
        ensures unasked { is_in self.old.standing ≡ true → (self.new ≡ self.old) × (P.askings plan.new ≡ P.askings plan.old) }
        ensures untaken { length value ≢ self.old.layout.width
            → (self.new ≡ self.old) × (P.askings plan.new ≡ P.askings plan.old) }
        ensures asked { is_in self.old.standing ≡ false → length value ≡ self.old.layout.width
            → AskedOnceMore self.old self.new (P.askings plan.old) (P.askings plan.new) }
        ensures counted { is_in self.old.standing ≡ false → length value ≡ self.old.layout.width → CountsSteps self.old self.new }
        ensures fallen { (P.askings plan.new).fallen ≡ falls_by result (P.askings plan.old).fallen }
        ensures goes { KeepsProcess self.old self.new }
        ensures stands { is_in self.old.standing ≡ false
            → length value ≡ self.old.layout.width → self.new.standing ≡ stands_out result }
        ensures faults { is_in self.old.standing ≡ false
            → length value ≡ self.old.layout.width → IfErr result (λ e. of_wait e ≡ true) }
        ensures at_lock { IfErr result (EndsAtLock S.named self.old None self.new.trail) }
        ensures whole { is_in self.old.standing ≡ false → length value ≡ self.old.layout.width
            → Whole S.named self.old (Call.Append seq value) None self.new result }
        ensures answered { IfOk result (λ reply. IsReply S.named self.old.process (Call.Append seq value) reply) }
    {
        self.append_by(rt, seq, value, plan, None)
    }

    /// An append with this many turns, or without a limit of them.
    fn append_by<R: Wait, P: CrashPlan>(
        &mut self,
        rt: &R,
        seq: u64,
        value: Body,
        plan: &mut P,
        turns: Option<u64>,
    ) -> Result<Reply, LockFault>
        ensures narrow { IsErrOf result LockFault.BadWidth ↔ (length value ≢ self.old.layout.width) }
        ensures refused { IsErrOf result LockFault.AlreadyIn
            ↔ ((length value ≡ self.old.layout.width) × (is_in self.old.standing ≡ true)) }
        ensures unasked { is_in self.old.standing ≡ true → (self.new ≡ self.old) × (P.askings plan.new ≡ P.askings plan.old) }
        ensures untaken { length value ≢ self.old.layout.width
            → (self.new ≡ self.old) × (P.askings plan.new ≡ P.askings plan.old) }
        ensures patient { IsErrOf result LockFault.NotYet → IsSome turns }
        ensures asked { is_in self.old.standing ≡ false → length value ≡ self.old.layout.width
            → AskedOnceMore self.old self.new (P.askings plan.old) (P.askings plan.new) }
        ensures counted { is_in self.old.standing ≡ false → length value ≡ self.old.layout.width → CountsSteps self.old self.new }
        ensures fallen { (P.askings plan.new).fallen ≡ falls_by result (P.askings plan.old).fallen }
        ensures goes { KeepsProcess self.old self.new }
        ensures stands { is_in self.old.standing ≡ false
            → length value ≡ self.old.layout.width → self.new.standing ≡ stands_out result }
        ensures faults { is_in self.old.standing ≡ false
            → length value ≡ self.old.layout.width → IfErr result (λ e. of_lock e ≡ true) }
        ensures at_lock { IfErr result (EndsAtLock S.named self.old turns self.new.trail) }
        ensures whole { is_in self.old.standing ≡ false → length value ≡ self.old.layout.width
            → Whole S.named self.old (Call.Append seq value) turns self.new result }
        ensures answered { IfOk result (λ reply. IsReply S.named self.old.process (Call.Append seq value) reply) }
    {
        if value.width() != self.layout.width {
            return Err(LockFault::BadWidth);
        }
        self.mail_by(rt, plan, Call::Append { seq, value }, turns)
    }

    /// Locks, mends where the owner died, closes the mailbox, and unlocks. Its one answer is the reply of the close. Its
    /// faults are those of `lock_within`.
    pub fn close_within<R: Wait, P: CrashPlan>(
        &mut self,
        rt: &R,
        plan: &mut P,
        turns: u64,
    ) -> Result<Reply, LockFault>
        ensures refused { IsErrOf result LockFault.AlreadyIn ↔ (is_in self.old.standing ≡ true) }
        ensures unasked { is_in self.old.standing ≡ true → (self.new ≡ self.old) × (P.askings plan.new ≡ P.askings plan.old) }
        ensures asked { is_in self.old.standing ≡ false → AskedOnceMore self.old self.new (P.askings plan.old) (P.askings plan.new) }
        ensures counted { is_in self.old.standing ≡ false → CountsSteps self.old self.new }
        ensures fallen { (P.askings plan.new).fallen ≡ falls_by result (P.askings plan.old).fallen }
        ensures goes { KeepsProcess self.old self.new }
        ensures stands { is_in self.old.standing ≡ false → self.new.standing ≡ stands_out result }
        ensures faults { is_in self.old.standing ≡ false → IfErr result (λ e. of_lock e ≡ true) }
        ensures at_lock { IfErr result (EndsAtLock S.named self.old (Some turns) self.new.trail) }
        ensures whole { is_in self.old.standing ≡ false → Whole S.named self.old Call.Close (Some turns) self.new result }
        ensures answered { IfOk result (λ reply. IsReply S.named self.old.process Call.Close reply) }
    {
        self.mail_by(rt, plan, Call::Close, Some(turns))
    }

    /// The same as `close_within`, but it waits as long as it has to. Its faults are those of `lock_within`, but for
    /// `NotYet`.
    pub fn close<R: Wait, P: CrashPlan>(&mut self, rt: &R, plan: &mut P) -> Result<Reply, LockFault>
        ensures refused { IsErrOf result LockFault.AlreadyIn ↔ (is_in self.old.standing ≡ true) }
        ensures unasked { is_in self.old.standing ≡ true → (self.new ≡ self.old) × (P.askings plan.new ≡ P.askings plan.old) }
        ensures asked { is_in self.old.standing ≡ false → AskedOnceMore self.old self.new (P.askings plan.old) (P.askings plan.new) }
        ensures counted { is_in self.old.standing ≡ false → CountsSteps self.old self.new }
        ensures fallen { (P.askings plan.new).fallen ≡ falls_by result (P.askings plan.old).fallen }
        ensures goes { KeepsProcess self.old self.new }
        ensures stands { is_in self.old.standing ≡ false → self.new.standing ≡ stands_out result }
        ensures faults { is_in self.old.standing ≡ false → IfErr result (λ e. of_wait e ≡ true) }
        ensures at_lock { IfErr result (EndsAtLock S.named self.old None self.new.trail) }
        ensures whole { is_in self.old.standing ≡ false → Whole S.named self.old Call.Close None self.new result }
        ensures answered { IfOk result (λ reply. IsReply S.named self.old.process Call.Close reply) }
    {
        self.mail_by(rt, plan, Call::Close, None)
    }

    /// A whole mailbox call: a lock, `consistent` where the entry is `OwnerDied`, the task and an unlock. The plan is asked
    /// once before the one answer.
    #[tactic(auto, using(crate::proofs::Answered::cut_at_lock, crate::proofs::Answered::locked_out, crate::proofs::Answered::came_in, crate::proofs::Whole::cut_whole, crate::proofs::Whole::whole_outside, crate::proofs::Whole::whole_inside))]
    fn mail_by<R: Wait, P: CrashPlan>(
        &mut self,
        rt: &R,
        plan: &mut P,
        call: Call,
        turns: Option<u64>,
    ) -> Result<Reply, LockFault>
        requires { may_start MemberState.Mended call ≡ true }
        ensures refused { IsErrOf result LockFault.AlreadyIn ↔ (is_in self.old.standing ≡ true) }
        ensures unasked { is_in self.old.standing ≡ true → (self.new ≡ self.old) × (P.askings plan.new ≡ P.askings plan.old) }
        ensures patient { IsErrOf result LockFault.NotYet → IsSome turns }
        ensures asked { is_in self.old.standing ≡ false → AskedOnceMore self.old self.new (P.askings plan.old) (P.askings plan.new) }
        ensures counted { is_in self.old.standing ≡ false → CountsSteps self.old self.new }
        ensures fallen { (P.askings plan.new).fallen ≡ falls_by result (P.askings plan.old).fallen }
        ensures goes { KeepsProcess self.old self.new }
        ensures stands { is_in self.old.standing ≡ false → self.new.standing ≡ stands_out result }
        ensures faults { is_in self.old.standing ≡ false → IfErr result (λ e. of_lock e ≡ true) }
        ensures at_lock { IfErr result (EndsAtLock S.named self.old turns self.new.trail) }
        ensures whole { is_in self.old.standing ≡ false → Whole S.named self.old call turns self.new result }
        ensures answered { IfOk result (λ reply. IsReply S.named self.old.process call reply) }
    {
        if self.standing.is_in() {
            return Err(LockFault::AlreadyIn);
        }
        let (entry, standing) = lock_result(self.begin(rt, plan, Call::Lock, turns)?);
        match entry {
            Ok(_) => {
                self.standing = standing;
                let reply = self.work(rt, plan, call)?;
                self.conclude(plan, reply, MemberState::Out)
            }
            Err(fault) => self.conclude(plan, Err(fault), standing),
        }
    }

    /// What a mailbox call does once it is in, up to the asking before its answer. If the lock is ruined, it leaves without
    /// the task.
    #[tactic(auto, using(crate::proofs::Answered::replied_by, crate::proofs::Whole::works_by, crate::proofs::Whole::leaves_by))]
    fn work<R: Wait, P: CrashPlan>(
        &mut self,
        rt: &R,
        plan: &mut P,
        call: Call,
    ) -> Result<Result<Reply, LockFault>, LockFault>
        requires inside { is_in self.old.standing ≡ true }
        requires task { may_start MemberState.Mended call ≡ true }
        ensures goes { KeepsProcess self.old self.new }
        ensures counted { CountsOn self.old self.new }
        ensures asked { OnOk result (AskedEach self.old self.new (P.askings plan.old) (P.askings plan.new)) }
        ensures ended { OnErr result (AskedOnceMore self.old self.new (P.askings plan.old) (P.askings plan.new)) }
        ensures fallen { (P.askings plan.new).fallen ≡ falls_by result (P.askings plan.old).fallen }
        ensures falls { IfOk result (λ reply. (f : ℕ) → falls_by reply f ≡ f) }
        ensures faults { IfOk result (λ reply. IfErr reply (λ e. e ≡ LockFault.NotRecoverable)) }
        ensures lost { OnErr result (self.new.standing ≡ MemberState.Lost) }
        ensures only { IfErr result (λ e. (e ≡ LockFault.Crashed) ⊎ (e ≡ LockFault.OutOfMemory)) }
        ensures works { IfOk result
            (λ reply. WorksInside S.named self.old.process call self.old.standing self.old.trail self.new.trail reply) }
        ensures answered { IfOk result (λ answer. IfOk answer (λ reply. IsReply S.named self.old.process call reply)) }
    {
        let mended = self.mend(rt, plan)?;
        let reply = match mended {
            Ok(_) => Ok(reply_of(self.pursue(rt, plan, call, None)?)),
            Err(fault) => Err(fault),
        };
        self.pursue(rt, plan, Call::Unlock, None)?;
        Ok(reply)
    }

    /// Mends, if the owner died.
    #[tactic(auto, using(crate::proofs::Whole::needs_none, crate::proofs::Whole::mends_by))]
    fn mend<R: Wait, P: CrashPlan>(
        &mut self,
        rt: &R,
        plan: &mut P,
    ) -> Result<Result<bool, LockFault>, LockFault>
        requires { is_in self.old.standing ≡ true }
        ensures goes { KeepsProcess self.old self.new }
        ensures counted { CountsOn self.old self.new }
        ensures asked { OnOk result (AskedEach self.old self.new (P.askings plan.old) (P.askings plan.new)) }
        ensures ended { OnErr result (AskedOnceMore self.old self.new (P.askings plan.old) (P.askings plan.new)) }
        ensures fallen { (P.askings plan.new).fallen ≡ falls_by result (P.askings plan.old).fallen }
        ensures stands { IfOk result (λ mended. self.new.standing ≡ stands_mended mended) }
        ensures mends { IfOk result
            (λ mended. Mends S.named self.old.process self.old.standing self.old.trail self.new.trail mended) }
        ensures faults { IfOk result (λ mended. IfErr mended (λ e. e ≡ LockFault.NotRecoverable)) }
        ensures lost { OnErr result (self.new.standing ≡ MemberState.Lost) }
        ensures only { IfErr result (λ e. (e ≡ LockFault.Crashed) ⊎ (e ≡ LockFault.OutOfMemory)) }
    {
        if self.standing == MemberState::Mended {
            return Ok(Ok(false));
        }
        let (repaired, standing) = mending_result(self.pursue(rt, plan, Call::Consistent, None)?);
        self.standing = standing;
        Ok(repaired)
    }
}
