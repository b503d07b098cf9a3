//! A lock that may be blocked, and calls that may start anywhere outside the section.
ghost use Rattle.std.specs.Prelude.{◌≡◌, ◌⊎◌, ℕ, ◌≤◌, ◌+◌, List, length, Some, None, true, false, IfOk, IfErr, IfSome, OnOk, OnErr};
ghost use Rattle.rmecore.specs.declared.refusal.Refusal.{Refusal as RefusalOf};
ghost use Rattle.rmeworld.specs.declared.call.Call.TheVariants.{Lock, Recover, Withdraw};
ghost use Rattle.rmeworld.specs.OwnSteps.{most_steps};
ghost use Rattle.rmeworld.specs.Refused.{is_idle};
ghost use Rattle.table_runs.specs.SeatView.{IsSeatView, process_state_now};
ghost use Rattle.table_runs.specs.WorkingMembers.{began};
ghost use Rattle.table_runs.specs.Tabled.{LockCounts, CountsAtMost};
ghost use Rattle.table_runs.specs.Under.{Begun, IsAnswerOf, Leaves};
ghost use Rattle.table_runs.specs.Faults.{refusal_now, free_to_start, CutIn, LockBy, LockEnds};

use crate::call::call_driver::CallDriver;
use crash_plans::CrashPlan;
use crossbeam_utils::Backoff;
use rmecore::Refusal;
use rmeworld::{Answer, Call};
use std::sync::Wait;
use table_runs::LockFault;

impl CallDriver {
    /// Starts a lock or a recovery, unless the process is in the section (`AlreadyIn`). A process whose lock still waits
    /// crashes first: it gives up that call, and its words stay.
    pub fn set_out(&mut self, call: &Call) -> Result<(), LockFault>
        requires idle { self.old.seat_view.start ≡ None }
        requires comes { (call.now ≡ Lock) ⊎ (call.now ≡ Recover) }
        ensures out { OnOk result ((self.new ≡ began (free_to_start self.old) call.now)
            × Begun call.now self.new.seat_view.setup.layout.procs (process_state_now self.new.seat_view)
            × IsSeatView self.new.seat_view) }
        ensures accepted { OnOk result (refusal_now (free_to_start self.old) call.now ≡ None) }
        ensures refused { OnErr result ((self.new ≡ self.old) × (refusal_now self.old call.now ≡ Some Refusal.AlreadyIn)) }
        ensures fault { IfErr result (λ e. e ≡ LockFault.AlreadyIn) }
    {
        match self.begin(call) {
            Ok(()) => Ok(()),
            Err(Refusal::AlreadyIn) => Err(LockFault::AlreadyIn),
            Err(_) => {
                self.crash();
                match self.begin(call) {
                    Ok(()) => Ok(()),
                    Err(_) => unreachable!(),
                }
            }
        }
    }

    /// Starts a lock, as `set_out` does. `AlreadyIn`: nothing was started.
    // Inline: once in each lock.
    #[inline(always)]
    pub fn set_out_lock(&mut self) -> Result<(), LockFault>
        requires idle { self.old.seat_view.start ≡ None }
        ensures out { OnOk result ((self.new ≡ began (free_to_start self.old) Lock)
            × Begun Lock self.new.seat_view.setup.layout.procs (process_state_now self.new.seat_view)
            × IsSeatView self.new.seat_view) }
        ensures accepted { OnOk result (refusal_now (free_to_start self.old) Lock ≡ None) }
        ensures refused { OnErr result ((self.new ≡ self.old) × (refusal_now self.old Lock ≡ Some Refusal.AlreadyIn)) }
        ensures fault { IfErr result (λ e. e ≡ LockFault.AlreadyIn) }
    {
        if self.start_lock() {
            return Ok(());
        }
        self.set_out(&Call::Lock)
    }

    /// Takes the steps of a lock up to its answer, or until it has been blocked once more than `turns` times. Between two
    /// blocked readings it backs off. None: the process still waits in the line. The plan is not yet asked for the answer:
    /// the caller does that. `Crashed`: the plan fell.
    pub fn take_turns<C: CrashPlan>(
        &mut self,
        plan: &mut C,
        turns: u64,
    ) -> Result<Option<Answer>, LockFault>
        requires begun { Begun Lock self.old.seat_view.setup.layout.procs (process_state_now self.old.seat_view) }
        requires seat_view { IsSeatView self.old.seat_view }
        requires start { self.old.seat_view.start ≡ Some Lock }
        ensures ends { IfOk result (λ o. LockBy 0 self.old turns o self.new (C.askings plan.old) (C.askings plan.new)) }
        ensures fits { IfOk result (λ o. IfSome o (λ a. IsAnswerOf Lock a × Leaves Lock a (process_state_now self.new.seat_view))) }
        ensures waits { IfOk result (λ o. o ≡ None → is_idle (process_state_now self.new.seat_view) ≡ false) }
        ensures waiting { IfOk result (λ o. o ≡ None → refusal_now self.new Withdraw ≡ None) }
        ensures crashed { IfErr result (λ e. e ≡ LockFault.Crashed) }
        ensures cut { OnErr result (CutIn self.old Lock self.new (C.askings plan.old) (C.askings plan.new)) }
        ensures few { CountsAtMost (most_steps self.old.seat_view.setup.layout Lock + turns) self.old self.new }
    {
        let backoff = Backoff::new();
        let mut left = turns;
        loop {
            if let Some(answer) = self.run(plan, &Call::Lock)? {
                return Ok(Some(answer));
            }
            if left == 0 {
                return Ok(None);
            }
            left -= 1;
            backoff.snooze();
        }
    }

    /// Takes the steps of a lock up to its answer, however often it is blocked. The plan is not yet asked for the answer:
    /// the caller does that. `Crashed`: the plan fell.
    // Inline: once in each lock.
    #[inline(always)]
    pub fn take_all<R: Wait, C: CrashPlan>(
        &mut self,
        rt: &R,
        plan: &mut C,
    ) -> Result<Answer, LockFault>
        requires begun { Begun Lock self.old.seat_view.setup.layout.procs (process_state_now self.old.seat_view) }
        requires seat_view { IsSeatView self.old.seat_view }
        requires start { self.old.seat_view.start ≡ Some Lock }
        ensures ends { IfOk result (λ a. (turns : ℕ)
            × LockBy 0 self.old turns (Some a) self.new (C.askings plan.old) (C.askings plan.new)) }
        ensures fits { IfOk result (λ a. IsAnswerOf Lock a × Leaves Lock a (process_state_now self.new.seat_view)) }
        ensures crashed { IfErr result (λ e. e ≡ LockFault.Crashed) }
        ensures cut { OnErr result (CutIn self.old Lock self.new (C.askings plan.old) (C.askings plan.new)) }
    {
        let backoff = Backoff::new();
        for _ in rt.forever() {
            if let Some(answer) = self.run(plan, &Call::Lock)? {
                return Ok(answer);
            }
            backoff.snooze();
        }
        unreachable!()
    }

    /// The same as `take_turns`, and the plan is asked once more, before the answer. `Crashed`: the plan fell.
    pub fn wait_turns<C: CrashPlan>(
        &mut self,
        plan: &mut C,
        turns: u64,
    ) -> Result<Option<Answer>, LockFault>
        requires begun { Begun Lock self.old.seat_view.setup.layout.procs (process_state_now self.old.seat_view) }
        requires seat_view { IsSeatView self.old.seat_view }
        requires start { self.old.seat_view.start ≡ Some Lock }
        ensures ends { IfOk result (λ o. LockEnds self.old turns o self.new (C.askings plan.old) (C.askings plan.new)) }
        ensures fits { IfOk result (λ o. IfSome o (IsAnswerOf Lock)) }
        ensures waiting { IfOk result (λ o. o ≡ None → refusal_now self.new Withdraw ≡ None) }
        ensures crashed { IfErr result (λ e. e ≡ LockFault.Crashed) }
        ensures cut { OnErr result (CutIn self.old Lock self.new (C.askings plan.old) (C.askings plan.new)) }
        ensures idle { self.new.seat_view.start ≡ None }
        ensures counts { IfOk result (λ o. LockCounts self.old o self.new) }
        ensures few { CountsAtMost (most_steps self.old.seat_view.setup.layout Lock + turns) self.old self.new }
    {
        let answer = self.take_turns(plan, turns)?;
        self.ask(plan)?;
        Ok(answer)
    }

    /// The same as `take_all`, and the plan is asked once more, before the answer. `Crashed`: the plan fell.
    pub fn wait<R: Wait, C: CrashPlan>(&mut self, rt: &R, plan: &mut C) -> Result<Answer, LockFault>
        requires begun { Begun Lock self.old.seat_view.setup.layout.procs (process_state_now self.old.seat_view) }
        requires seat_view { IsSeatView self.old.seat_view }
        requires start { self.old.seat_view.start ≡ Some Lock }
        ensures ends { IfOk result (λ a. (turns : ℕ)
            × LockEnds self.old turns (Some a) self.new (C.askings plan.old) (C.askings plan.new)) }
        ensures fits { IfOk result (IsAnswerOf Lock) }
        ensures crashed { IfErr result (λ e. e ≡ LockFault.Crashed) }
        ensures cut { OnErr result (CutIn self.old Lock self.new (C.askings plan.old) (C.askings plan.new)) }
        ensures idle { self.new.seat_view.start ≡ None }
        ensures counts { IfOk result (λ a. LockCounts self.old (Some a) self.new) }
    {
        let answer = self.take_all(rt, plan)?;
        self.ask(plan)?;
        Ok(answer)
    }
}
