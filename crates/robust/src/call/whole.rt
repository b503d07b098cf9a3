//! What a whole mailbox call does after the start of its lock.
ghost use Rattle.std.specs.Prelude.{◌≡◌, ◌≢◌, ℕ, ◌+◌, ◌≤◌, List, [], ◌∷◌, Ok, Err, Some, None, true, false, IfOk, IfErr, IfSome, OnOk, OnErr};
ghost use Rattle.redomail.specs.declared.reply.Reply.{Reply as ReplyOf};
ghost use Rattle.rmeworld.specs.declared.call.Call.{Call as CallOf};
ghost use Rattle.rmeworld.specs.declared.call.Call.TheVariants.{Lock, Unlock, Withdraw};
ghost use Rattle.rmeworld.specs.declared.answer.Answer.{Answer as AnswerOf};
ghost use Rattle.rmeworld.specs.declared.answer.Answer.TheVariants.{Mail, Unlocked};
ghost use Rattle.rmeworld.specs.OwnSteps.{most_steps};
ghost use Rattle.table_runs.specs.SeatView.{process_state_now};
ghost use Rattle.crash_plans.specs.Plans.{Askings};
ghost use Rattle.table_runs.specs.WorkingMembers.{Seated, began};
ghost use Rattle.table_runs.specs.Tabled.{CountsAtMost};
ghost use Rattle.table_runs.specs.Under.{IsAnswerOf, Leaves, IsHolder};
ghost use Rattle.table_runs.specs.Faults.{refusal_now, free_to_start, CutIn, CutBy, AnsweredBy, call_series, LockBy, answer_of};
ghost use Rattle.table_runs.specs.WholeSteps.{InsideCounts, most_inside, most_whole};
ghost use Rattle.table_runs.specs.Whole.{IsTask, IsFront, IsInner, AreCallsOf, Inner, WholeBy, whole_task, WholeGoes, WholeEnds, WholeFails};

use crate::call::call_driver::CallDriver;
use crash_plans::CrashPlan;
use redomail::Reply;
use rmeworld::{Answer, Call};
use std::sync::Wait;
use table_runs::{Entry, LockFault};

impl CallDriver {
    /// Starts a call after another one, one that is never blocked, and takes its steps up to its answer. The plan is not yet
    /// asked for the answer: the caller does that.
    fn follow<C: CrashPlan>(&mut self, plan: &mut C, call: &Call) -> Result<Answer, LockFault>
        requires idle { self.old.seat_view.start ≡ None }
        requires accepted { refusal_now self.old call.now ≡ None }
        requires brief { call.now ≢ Lock }
        ensures answered { IfOk result (λ a. AnsweredBy 0 self.old (call_series (call.now ∷ []) (a ∷ []) 0) self.new
            (C.askings plan.old)
            (C.askings plan.new)) }
        ensures leaves { IfOk result (λ a. IsAnswerOf call.now a × Leaves call.now a (process_state_now self.new.seat_view)) }
        ensures crashed { IfErr result (λ e. e ≡ LockFault.Crashed) }
        ensures cut { OnErr result (CutIn self.old call.now self.new (C.askings plan.old) (C.askings plan.new)) }
        ensures few { CountsAtMost (most_steps self.old.seat_view.setup.layout call.now) self.old self.new }
    {
        if self.has_fast_way(plan, call) {
            return Ok(self.fast_call(plan, call));
        }
        match self.begin_further(call) {
            Ok(()) => match self.run(plan, call)? {
                Some(answer) => Ok(answer),
                None => unreachable!(),
            },
            Err(_) => unreachable!(),
        }
    }

    /// Does a task of the mailbox as a holder with nothing to mend, and leaves.
    fn work<C: CrashPlan>(&mut self, plan: &mut C, task: &Call) -> Result<Reply, LockFault>
        requires idle { self.old.seat_view.start ≡ None }
        requires holder { IsHolder (process_state_now self.old.seat_view) × ((process_state_now self.old.seat_view).mended ≡ true) }
        requires task { IsTask self.old.seat_view.setup.layout task.now }
        ensures fits { IfOk result (λ reply. IsAnswerOf task.now (Mail reply)) }
        ensures out { OnOk result (refusal_now (free_to_start self.new) Lock ≡ None) }
        ensures done { IfOk result (λ reply. AnsweredBy 0 self.old (call_series (task.now ∷ Unlock ∷ [])
            (Mail reply ∷ Unlocked ∷ []) 0)
            self.new (C.askings plan.old) (C.askings plan.new)) }
        ensures crashed { IfErr result (λ e. e ≡ LockFault.Crashed) }
        ensures cut { OnErr result (CutBy self.old (λ order. IsFront order (task.now ∷ Unlock ∷ [])) self.new (C.askings plan.old)
            (C.askings plan.new)) }
        ensures counts { IfOk result (λ reply. InsideCounts self.old true (task.now ∷ Unlock ∷ []) (Mail reply ∷ Unlocked ∷ [])
            self.new) }
        ensures few { CountsAtMost
            (most_steps self.old.seat_view.setup.layout task.now + most_steps self.old.seat_view.setup.layout Unlock)
            self.old self.new }
    {
        let answer = self.follow(plan, task)?;
        self.follow(plan, &Call::Unlock)?;
        match answer {
            Answer::Mail(reply) => Ok(reply),
            _ => unreachable!(),
        }
    }

    /// Mends, does a task of the mailbox and leaves. If the mending finds the lock ruined, it leaves at once.
    fn mend_and_work<C: CrashPlan>(
        &mut self,
        plan: &mut C,
        task: &Call,
    ) -> Result<Result<Reply, LockFault>, LockFault>
        requires idle { self.old.seat_view.start ≡ None }
        requires holder { Leaves Lock (answer_of Entry.OwnerDied) (process_state_now self.old.seat_view) }
        requires task { IsTask self.old.seat_view.setup.layout task.now }
        ensures done { IfOk result (λ r. (order : List CallOf) × (answers : List AnswerOf)
            × Inner Entry.OwnerDied task.now r order answers
            × AnsweredBy 0 self.old (call_series order answers 0) self.new (C.askings plan.old) (C.askings plan.new)
            × InsideCounts self.old false order answers self.new) }
        ensures fits { IfOk result (λ r. IfOk r (λ reply. IsAnswerOf task.now (Mail reply))) }
        ensures out { OnOk result (refusal_now (free_to_start self.new) Lock ≡ None) }
        ensures crashed { IfErr result (λ e. e ≡ LockFault.Crashed) }
        ensures cut { OnErr result (CutBy self.old (IsInner Entry.OwnerDied task.now) self.new (C.askings plan.old) (C.askings plan.new)) }
        ensures few { CountsAtMost (most_inside self.old.seat_view.setup.layout task.now) self.old self.new }
    {
        match self.follow(plan, &Call::Consistent)? {
            Answer::Mail(_) => {
                let reply = self.work(plan, task)?;
                Ok(Ok(reply))
            }
            Answer::NotRecoverable => {
                self.follow(plan, &Call::Unlock)?;
                Ok(Err(LockFault::NotRecoverable))
            }
            _ => unreachable!(),
        }
    }

    /// The rest of the call once the lock has its answer, or has used up its turns (`None`). The plan is not yet asked for
    /// the answer.
    fn come<C: CrashPlan>(
        &mut self,
        plan: &mut C,
        answer: Option<Answer>,
        task: &Call,
    ) -> Result<Result<Reply, LockFault>, LockFault>
        requires idle { self.old.seat_view.start ≡ None }
        requires leaves { IfSome answer (λ a. IsAnswerOf Lock a × Leaves Lock a (process_state_now self.old.seat_view)) }
        requires task { IsTask self.old.seat_view.setup.layout task.now }
        ensures fits { IfOk result (λ r. IfOk r (λ reply. IsAnswerOf task.now (Mail reply))) }
        ensures out { (answer ≡ None → refusal_now (free_to_start self.old) Lock ≡ None)
            → refusal_now (free_to_start self.new) Lock ≡ None }
        ensures comes { IfOk result (λ r. (x : Seated) (turns : ℕ) (a : Askings)
            → LockBy 0 x turns answer self.old a (C.askings plan.old) → WholeBy 0 x (whole_task turns task.now) r self.new a
            (C.askings plan.new)) }
        ensures patient { IfOk result (λ r. r ≡ Err LockFault.NotYet → answer ≡ None) }
        ensures stays { OnOk result (answer ≡ None → self.new ≡ self.old) }
        ensures crashed { IfErr result (λ e. e ≡ LockFault.Crashed) }
        ensures cut { OnErr result ((x : Seated) (turns : ℕ) (a : Askings) → LockBy 0 x turns answer self.old a (C.askings plan.old)
            → CutBy x (AreCallsOf task.now) self.new a (C.askings plan.new)) }
        ensures few { CountsAtMost (most_inside self.old.seat_view.setup.layout task.now) self.old self.new }
    {
        match answer {
            Some(answer) => match answer {
                Answer::Clean => {
                    let reply = self.work(plan, task)?;
                    Ok(Ok(reply))
                }
                Answer::OwnerDied => {
                    let ended = self.mend_and_work(plan, task)?;
                    Ok(ended)
                }
                Answer::NumbersSpent => Ok(Err(LockFault::NumbersSpent)),
                _ => Ok(Err(LockFault::NotRecoverable)),
            },
            None => Ok(Err(LockFault::NotYet)),
        }
    }

    /// The same as `come`, and the plan is asked once more, before the answer.
    fn finish<C: CrashPlan>(
        &mut self,
        plan: &mut C,
        answer: Option<Answer>,
        task: &Call,
    ) -> Result<Reply, LockFault>
        requires idle { self.old.seat_view.start ≡ None }
        requires leaves { IfSome answer (λ a. IsAnswerOf Lock a × Leaves Lock a (process_state_now self.old.seat_view)) }
        requires task { IsTask self.old.seat_view.setup.layout task.now }
        ensures fits { IfOk result (λ reply. IsAnswerOf task.now (Mail reply)) }
        ensures out { (answer ≡ None → refusal_now (free_to_start self.old) Lock ≡ None)
            → refusal_now (free_to_start self.new) Lock ≡ None }
        ensures goes { (x : Seated) (turns : ℕ) (a : Askings) → LockBy 0 x turns answer self.old a (C.askings plan.old)
            → WholeGoes x turns task.now result self.new a (C.askings plan.new) }
        ensures patient { result ≡ Err LockFault.NotYet → answer ≡ None }
        ensures stays { result ≡ Err LockFault.NotYet → self.new ≡ self.old }
        ensures few { CountsAtMost (most_inside self.old.seat_view.setup.layout task.now) self.old self.new }
    {
        let reply = self.come(plan, answer, task)?;
        match self.ask(plan) {
            Ok(()) => reply,
            Err(fault) => Err(fault),
        }
    }

    /// A whole mailbox call, which gives up once it has been blocked more than `turns` times (`NotYet`).
    #[tactic(auto, using(table_runs::proofs::WholeCalls::whole_replied, table_runs::proofs::WholeCalls::whole_fails, table_runs::proofs::WholeCalls::cut_fails, table_runs::proofs::WholeCalls::goes_idle, table_runs::proofs::WholeCalls::task_fits, table_runs::proofs::Chained::lock_idle))]
    pub fn mail_within<C: CrashPlan>(
        &mut self,
        plan: &mut C,
        task: &Call,
        turns: u64,
    ) -> Result<Reply, LockFault>
        requires idle { self.old.seat_view.start ≡ None }
        requires task { IsTask self.old.seat_view.setup.layout task.now }
        ensures accepted { OnOk result (refusal_now (free_to_start self.old) Lock ≡ None) }
        ensures fits { IfOk result (λ reply. IsAnswerOf task.now (Mail reply)) }
        ensures out { result ≢ Err LockFault.AlreadyIn → refusal_now (free_to_start self.new) Lock ≡ None }
        ensures waits { result ≡ Err LockFault.NotYet → refusal_now self.new Withdraw ≡ None }
        ensures replied { IfOk result (λ reply. WholeEnds (began (free_to_start self.old) Lock) turns task.now (Ok reply) self.new
            (C.askings plan.old) (C.askings plan.new)) }
        ensures fails { IfErr result (WholeFails self.old turns task.now self.new (C.askings plan.old) (C.askings plan.new)) }
        ensures idle { self.new.seat_view.start ≡ None }
        ensures few { OnOk result (self.new.steps ≤ most_whole self.old.seat_view.setup.layout task.now + turns) }
        ensures few_out { IfErr result (λ e. e ≢ LockFault.AlreadyIn
            → self.new.steps ≤ most_whole self.old.seat_view.setup.layout task.now + turns) }
    {
        self.set_out_lock()?;
        match self.take_turns(plan, turns) {
            Ok(answer) => self.finish(plan, answer, task),
            Err(fault) => Err(fault),
        }
    }

    /// A whole mailbox call, however often it is blocked. Its faults are those of `Member::append`.
    pub fn mail<R: Wait, C: CrashPlan>(
        &mut self,
        rt: &R,
        plan: &mut C,
        task: &Call,
    ) -> Result<Reply, LockFault>
        requires idle { self.old.seat_view.start ≡ None }
        requires task { IsTask self.old.seat_view.setup.layout task.now }
        ensures accepted { OnOk result (refusal_now (free_to_start self.old) Lock ≡ None) }
        ensures fits { IfOk result (λ reply. IsAnswerOf task.now (Mail reply)) }
        ensures out { result ≢ Err LockFault.AlreadyIn → refusal_now (free_to_start self.new) Lock ≡ None }
        ensures replied { IfOk result (λ reply. (turns : ℕ)
            × WholeEnds (began (free_to_start self.old) Lock) turns task.now (Ok reply) self.new (C.askings plan.old)
            (C.askings plan.new)) }
        ensures fails { IfErr result (λ e. (turns : ℕ)
            × WholeFails self.old turns task.now self.new (C.askings plan.old) (C.askings plan.new) e) }
        ensures patient { IfErr result (λ e. e ≢ LockFault.NotYet) }
        ensures idle { self.new.seat_view.start ≡ None }
    {
        self.set_out_lock()?;
        match self.take_all(rt, plan) {
            Ok(answer) => self.finish(plan, Some(answer), task),
            Err(fault) => Err(fault),
        }
    }
}
