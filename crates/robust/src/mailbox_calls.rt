//! The whole mailbox calls of a member. Each locks, mends where the owner died, does its task and unlocks, and its one
//! answer is the task's reply.
ghost use Rattle.std.specs.Prelude.{◌≡◌, ◌≢◌, ◌⊎◌, ℕ, ◌+◌, ◌≤◌, length, Ok, Err, IfOk, IfErr, OnOk};
ghost use Rattle.redomail.specs.Mailbox.{IsAmong};
ghost use Rattle.table_runs.specs.WorkingMembers.{began};
ghost use Rattle.table_runs.specs.Faults.{refusal_now, free_to_start};
ghost use Rattle.table_runs.specs.Headline.{shown_by};
ghost use Rattle.table_runs.specs.AppendReplies.{ReportedIn};
ghost use Rattle.table_runs.specs.Under.{Appends};
ghost use Rattle.robust.specs.MemberLaws.{seat_of};
ghost use Rattle.table_runs.specs.WholeSteps.{most_whole};
ghost use Rattle.table_runs.specs.Whole.{WholeEnds, WholeFails, AppendFails, append_request};

use crate::laws;
use crate::member::Member;
use crash_plans::CrashPlan;
use redomail::Reply;
use rmecore::Body;
use rmeworld::Call;
use std::sync::Wait;
use table_runs::LockFault;

impl Member {
    /// Stores a message with this sequence number, from 1, unless the process is blocked once more than `turns` times
    /// (docs/theory/mailbox.md, Append; its lock is docs/theory/model.md, Lock). After Stored the message is shown; after Already, the
    /// message that was stored under this number before. Full, Closed and OutOfOrder are what held of the mailbox at one
    /// moment of the call. The first two stay so. After OutOfOrder, send this sender's next number.
    ///
    /// `BadWidth`: the value's width isn't the arena's; send a value of that width. `AlreadyIn`: the process is in the
    /// section; unlock first. `Crashed`: the message may be stored or not; send it again with the same number, which answers
    /// Already if it is stored. `NotYet`: the process still waits and keeps its place; send again to wait on, or `withdraw`.
    /// `NumbersSpent`: another process held the last number, and this call has stored nothing; send again once that process
    /// has left. `NotRecoverable` (POSIX: ENOTRECOVERABLE): the lock is ruined for good, and this call has stored nothing;
    /// `read_from` still reads.
    pub fn append_within<C: CrashPlan>(
        &mut self,
        seq: u64,
        value: Body,
        plan: &mut C,
        turns: u64,
    ) -> Result<Reply, LockFault>
        ensures wide { OnOk result (length value ≡ self.old.seat_view.setup.layout.width) }
        ensures accepted { OnOk result (refusal_now (free_to_start self.old) Call.Lock ≡ None) }
        ensures replied { IfOk result (λ reply. WholeEnds (began (free_to_start self.old) Call.Lock) turns (Call.Append seq value)
            (Ok reply)
            self.new (C.askings plan.old) (C.askings plan.new)) }
        ensures fails { IfErr result (AppendFails self.old turns (append_request seq value) self.new (C.askings plan.old)
            (C.askings plan.new)) }
        ensures few { OnOk result (self.new.steps ≤ most_whole self.old.seat_view.setup.layout (Call.Append seq value) + turns) }
        ensures few_out { IfErr result (λ e. e ≢ LockFault.AlreadyIn → e ≢ LockFault.BadWidth
            → self.new.steps ≤ most_whole self.old.seat_view.setup.layout (Call.Append seq value) + turns) }
        ensures kind { IfOk result (Appends seq) }
        ensures tells { IfOk result (λ reply. ReportedIn self.old seq reply self.new) }
        ensures shown { IfOk result (λ reply. (reply ≡ Reply.Stored) ⊎ (reply ≡ Reply.Already)
            → IsAmong self.old.seat_view.by seq (shown_by self.new.seat_view.setup self.new.seat_view.seen)) }
        ensures out { result ≢ Err LockFault.AlreadyIn → result ≢ Err LockFault.BadWidth
            → refusal_now (free_to_start self.new) Call.Lock ≡ None }
        ensures waits { result ≡ Err LockFault.NotYet → refusal_now self.new Call.Withdraw ≡ None }
        ensures seat { seat_of self.new ≡ seat_of self.old }
    {
        laws::every_run_is_sound();
        rmeworld::laws::messages_were_sent();
        if value.width() != self.call_driver.setup().layout.width {
            return Err(LockFault::BadWidth);
        }
        self.call_driver
            .mail_within(plan, &Call::Append { seq, value }, turns)
    }

    /// Closes the mailbox, unless the process is blocked once more than `turns` times (docs/theory/mailbox.md, Close; its lock is
    /// docs/theory/model.md, Lock). It answers ClosedNow, or AlreadyClosed where it was closed before. From then on each sender's
    /// next message is answered Closed.
    ///
    /// `AlreadyIn`: the process is in the section; unlock first. `Crashed`: the mailbox may be closed or not; close it
    /// again, which answers AlreadyClosed if it is closed. `NotYet`: the process still waits and keeps its place; close
    /// again to wait on, or `withdraw`. `NumbersSpent`: another process held the last number, and this call has closed
    /// nothing; close again once that process has left. `NotRecoverable` (POSIX: ENOTRECOVERABLE): the lock is ruined for
    /// good, and this call has closed nothing; `read_from` still reads.
    pub fn close_within<C: CrashPlan>(
        &mut self,
        plan: &mut C,
        turns: u64,
    ) -> Result<Reply, LockFault>
        ensures accepted { OnOk result (refusal_now (free_to_start self.old) Call.Lock ≡ None) }
        ensures replied { IfOk result (λ reply. WholeEnds (began (free_to_start self.old) Call.Lock) turns Call.Close (Ok reply) self.new
            (C.askings plan.old) (C.askings plan.new)) }
        ensures fails { IfErr result (WholeFails self.old turns Call.Close self.new (C.askings plan.old) (C.askings plan.new)) }
        ensures few { OnOk result (self.new.steps ≤ most_whole self.old.seat_view.setup.layout Call.Close + turns) }
        ensures few_out { IfErr result (λ e. e ≢ LockFault.AlreadyIn
            → self.new.steps ≤ most_whole self.old.seat_view.setup.layout Call.Close + turns) }
        ensures out { result ≢ Err LockFault.AlreadyIn → refusal_now (free_to_start self.new) Call.Lock ≡ None }
        ensures waits { result ≡ Err LockFault.NotYet → refusal_now self.new Call.Withdraw ≡ None }
        ensures seat { seat_of self.new ≡ seat_of self.old }
    {
        self.call_driver.mail_within(plan, &Call::Close, turns)
    }

    /// Stores a message with this sequence number, from 1, and waits as long as it has to (docs/theory/mailbox.md, Append). Its
    /// answers are those of `append_within`.
    ///
    /// `BadWidth`, `AlreadyIn`, `Crashed`, `NumbersSpent` and `NotRecoverable` as at `append_within`; never `NotYet`.
    pub fn append<R: Wait, C: CrashPlan>(
        &mut self,
        rt: &R,
        seq: u64,
        value: Body,
        plan: &mut C,
    ) -> Result<Reply, LockFault>
        ensures wide { OnOk result (length value ≡ self.old.seat_view.setup.layout.width) }
        ensures accepted { OnOk result (refusal_now (free_to_start self.old) Call.Lock ≡ None) }
        ensures replied { IfOk result (λ reply. (turns : ℕ)
            × WholeEnds (began (free_to_start self.old) Call.Lock) turns (Call.Append seq value) (Ok reply) self.new (C.askings plan.old)
            (C.askings plan.new)) }
        ensures fails { IfErr result (λ e. (turns : ℕ)
            × AppendFails self.old turns (append_request seq value) self.new (C.askings plan.old) (C.askings plan.new) e) }
        ensures patient { IfErr result (λ e. e ≢ LockFault.NotYet) }
        ensures kind { IfOk result (Appends seq) }
        ensures tells { IfOk result (λ reply. ReportedIn self.old seq reply self.new) }
        ensures shown { IfOk result (λ reply. (reply ≡ Reply.Stored) ⊎ (reply ≡ Reply.Already)
            → IsAmong self.old.seat_view.by seq (shown_by self.new.seat_view.setup self.new.seat_view.seen)) }
        ensures out { result ≢ Err LockFault.AlreadyIn → result ≢ Err LockFault.BadWidth
            → refusal_now (free_to_start self.new) Call.Lock ≡ None }
        ensures seat { seat_of self.new ≡ seat_of self.old }
    {
        laws::every_run_is_sound();
        rmeworld::laws::messages_were_sent();
        if value.width() != self.call_driver.setup().layout.width {
            return Err(LockFault::BadWidth);
        }
        self.call_driver
            .mail(rt, plan, &Call::Append { seq, value })
    }

    /// Closes the mailbox, and waits as long as it has to (docs/theory/mailbox.md, Close).
    ///
    /// `AlreadyIn`, `Crashed`, `NumbersSpent` and `NotRecoverable` as at `close_within`; never `NotYet`.
    pub fn close<R: Wait, C: CrashPlan>(&mut self, rt: &R, plan: &mut C) -> Result<Reply, LockFault>
        ensures accepted { OnOk result (refusal_now (free_to_start self.old) Call.Lock ≡ None) }
        ensures replied { IfOk result (λ reply. (turns : ℕ)
            × WholeEnds (began (free_to_start self.old) Call.Lock) turns Call.Close (Ok reply) self.new (C.askings plan.old)
            (C.askings plan.new)) }
        ensures fails { IfErr result (λ e. (turns : ℕ)
            × WholeFails self.old turns Call.Close self.new (C.askings plan.old) (C.askings plan.new) e) }
        ensures patient { IfErr result (λ e. e ≢ LockFault.NotYet) }
        ensures out { result ≢ Err LockFault.AlreadyIn → refusal_now (free_to_start self.new) Call.Lock ≡ None }
        ensures seat { seat_of self.new ≡ seat_of self.old }
    {
        self.call_driver.mail(rt, plan, &Call::Close)
    }
}
