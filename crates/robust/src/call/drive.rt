//! A call under way, step by step. A crash plan is asked before each step.
ghost use Rattle.std.specs.Prelude.{◌≡◌, ◌≢◌, ℕ, ◌+◌, ◌≤◌, List, [], ◌∷◌, length, Some, None, true, false, IfOk, IfErr, OnOk, OnErr};
ghost use Rattle.rmeworld.specs.declared.call.Call.TheVariants.{Lock};
ghost use Rattle.rmeworld.specs.OwnSteps.{most_steps};
ghost use Rattle.rmeworld.specs.Refused.{is_idle};
ghost use Rattle.table_runs.specs.declared.entry.TakenStep.{TakenStep};
ghost use Rattle.table_runs.specs.SeatView.{IsSeatView, process_state_now};
ghost use Rattle.table_runs.specs.Calls.{blocked_of, Ran, CutOff, Still, Served, Crashes};
ghost use Rattle.crash_plans.specs.Plans.{NeverCrashes, Fell};
ghost use Rattle.table_runs.specs.StepBounds.{Lasts};
ghost use Rattle.table_runs.specs.WorkingMembers.{began};
ghost use Rattle.table_runs.specs.Tabled.{table_steps, CountsAtMost};
ghost use Rattle.robust.specs.MemberLaws.{seat_of};
ghost use Rattle.table_runs.specs.Faults.{fault_for as fault_of, refusal_now, FailsUnblocked};
ghost use Rattle.table_runs.specs.Under.{IsUnder, Begun, IsAnswerOf};

use crate::call::call_driver::CallDriver;
use crash_plans::CrashPlan;
use rmecore::Refusal;
use rmeworld::{Answer, Call};
use table_runs::LockFault;

/// More steps than any call takes, blocked ones not counted.
const MOST_STEPS: u64 = 256;

impl CallDriver {
    /// Takes the steps of the call under way, up to its answer or to a blocked reading (`None`). `Crashed`: the plan fell.
    pub fn run<C: CrashPlan>(
        &mut self,
        plan: &mut C,
        call: &Call,
    ) -> Result<Option<Answer>, LockFault>
        requires under { IsUnder call.now (process_state_now self.old.seat_view) }
        requires busy { is_idle (process_state_now self.old.seat_view) ≡ false }
        requires lasts { Lasts self.old.seat_view.setup.layout.procs 256 (process_state_now self.old.seat_view) }
        ensures ran { IfOk result (λ o. (mine : List TakenStep) × Ran self.old o self.new mine
            × NeverCrashes (length mine) (C.askings plan.old) (C.askings plan.new)) }
        ensures still { IfOk result (λ o. Still call.now self.new o) }
        ensures crashed { IfErr result (λ e. e ≡ LockFault.Crashed) }
        ensures cut { OnErr result ((mine : List TakenStep) × CutOff self.old mine self.new
            × Fell (length mine + 1) (C.askings plan.old) (C.askings plan.new) × (blocked_of self.old.seat_view mine ≡ 0)) }
    {
        if let Some(ran) = self.fast_way(plan, call) {
            return Ok(ran);
        }
        for turn in 0..MOST_STEPS {
            self.ask(plan)?;
            let outcome = self.advance();
            if let Some(answer) = outcome.answer {
                return Ok(Some(answer));
            }
            if outcome.progress.blocked {
                return Ok(None);
            }
        }
        unreachable!()
    }

    /// Takes the steps of a call that is never blocked, up to its answer. `Crashed`: the plan fell.
    pub fn serve<C: CrashPlan>(&mut self, plan: &mut C, call: &Call) -> Result<Answer, LockFault>
        requires begun { Begun call.now self.old.seat_view.setup.layout.procs (process_state_now self.old.seat_view) }
        requires seat_view { IsSeatView self.old.seat_view }
        requires start { self.old.seat_view.start ≡ Some call.now }
        requires brief { call.now ≢ Lock }
        ensures answered { IfOk result (λ a. (mine : List TakenStep) × Served self.old call.now (a ∷ []) 0 self.new mine
            × NeverCrashes (length mine + 1) (C.askings plan.old) (C.askings plan.new)) }
        ensures fits { IfOk result (λ a. IsAnswerOf call.now a) }
        ensures crashed { IfErr result (λ e. e ≡ LockFault.Crashed) }
        ensures cut { OnErr result ((mine : List TakenStep) × Crashes self.old call.now self.new mine
            × Fell (length mine + 1) (C.askings plan.old) (C.askings plan.new)) }
        ensures idle { self.new.seat_view.start ≡ None }
        ensures few { CountsAtMost (most_steps self.old.seat_view.setup.layout call.now) self.old self.new }
    {
        match self.run(plan, call)? {
            Some(answer) => {
                self.ask(plan)?;
                Ok(answer)
            }
            None => unreachable!(),
        }
    }

    /// Starts a call that is never blocked, and takes its steps up to its answer. A refusal is answered as its fault;
    /// `Crashed`: the plan fell.
    pub fn call<C: CrashPlan>(&mut self, plan: &mut C, call: &Call) -> Result<Answer, LockFault>
        requires idle { self.old.seat_view.start ≡ None }
        requires brief { call.now ≢ Lock }
        ensures answered { IfOk result (λ a. (mine : List TakenStep)
            × Served (began self.old call.now) call.now (a ∷ []) 0 self.new mine
            × NeverCrashes (length mine + 1) (C.askings plan.old) (C.askings plan.new)) }
        ensures accepted { OnOk result (refusal_now self.old call.now ≡ None) }
        ensures fits { IfOk result (λ a. IsAnswerOf call.now a) }
        ensures fails { IfErr result (FailsUnblocked self.old call.now self.new (C.askings plan.old) (C.askings plan.new)) }
        ensures idle { self.new.seat_view.start ≡ None }
        ensures seat { seat_of self.new ≡ seat_of self.old }
        ensures table { IfOk result (λ a. table_steps self.old.seat_view call.now a ≡ Some self.new.steps) }
        ensures few { refusal_now self.old call.now ≡ None → self.new.steps ≤ most_steps self.old.seat_view.setup.layout call.now }
    {
        match self.begin(call) {
            Ok(()) => self.serve(plan, call),
            Err(refusal) => Err(fault_for(call, refusal)),
        }
    }
}

/// The fault that a refused start answers.
fn fault_for(call: &Call, refusal: Refusal) -> LockFault
    ensures { result ≡ fault_of call.now refusal }
{
    match (call, refusal) {
        (Call::Consistent, _) => LockFault::NotInconsistent,
        (_, Refusal::AlreadyIn) => LockFault::AlreadyIn,
        (_, Refusal::BadIndex) => LockFault::BadIndex,
        _ => LockFault::NotOwner,
    }
}
