//! A member: a process's access to the world.

ghost use Rattle.std.specs.Prelude.{◌≡◌, ℕ, ◌<◌, ◌≤◌, ◌+◌, ◌↔◌, IfOk, IfErr, OnOk, OnErr, Some, IsNone, IsSome, IsTrue, true, false};
ghost use Rattle.rmecore.specs.Simulated.{one_more};
ghost use Rattle.one_lock.specs.Member.{KeepsProcess, AskedEach, AskedOnceMore, CountsSteps, CountsOn, falls_by, may_start, new_seat};
ghost use Rattle.rmeworld.specs.MachineState.{IsSize};
ghost use Rattle.rmeworld.specs.WorldState.{HasConfiguration};
ghost use Rattle.one_lock.specs.Answers.{Mirrors, TrailGrows, IsAnsweredCall, asked_call, turns_after_one};
ghost use Rattle.one_lock.specs.Execution.{AreSizes};
ghost use Rattle.one_lock.specs.Trails.{IsOwnTrail, longer_trail, answer_with, is_blocked_with};

use crate::member_state::MemberState;
use crate::opening::Opening;
use crate::own_process::OwnProcess;
use crate::shared::Shared;
use crate::sizes::{AnySizes, Sizes};
use crate::turn::StepReport;
use crash_plans::CrashPlan;
use crossbeam_utils::Backoff;
use redomail::Layout;
use rmeworld::{Answer, Call, Outcome};
use std::marker::Model;
use std::sync::ledger::{Ledger, Share};
use std::sync::{Arc, Mutex, Wait};
use table_runs::LockFault;

/// The access of one process to the world. It may move to a thread. Its share of the ledger counts its own steps and takes
/// no bytes. The steps of its last call are a number of their own. It steps its process's machine beside the world's.
#[derive(Drop)]
pub struct Member<L: Ledger, S: Sizes = AnySizes> {
    pub(super) process: u64,
    pub(super) layout: Layout,
    pub(super) standing: MemberState,
    pub(super) shared: Arc<Mutex<Shared<L, S>>>,
    pub(super) share: Share<L>,
    pub(super) counted: u64,
    pub(super) own: OwnProcess,
}

impl<L: Ledger, S: Sizes> Model for Member<L, S> {
    ghost use Rattle.std.specs.Prelude.{◌≡◌, ◌<◌};
    ghost use Rattle.one_lock.specs.Member.{Seat};
    ghost use Rattle.one_lock.specs.Trails.{IsOwnTrail};

    ghost Value = { Seat };

    ghost view = { λ m. record { process = m.process; layout = m.layout; standing = m.standing; steps = m.share.amount; counted = m.counted; trail = m.own } };

    ghost invariant = { λ m. (m.share.parts ≡ 1) × (m.process < 64)
        × IsOwnTrail S.named (record { process = m.process; layout = m.layout; standing = m.standing; steps = m.share.amount; counted = m.counted; trail = m.own }) };
}

/// Waits for ever.
pub(crate) fn never_return<R: Wait>(rt: &R)
    ensures { ⊥ }
{
    for _ in rt.forever() {}
    unreachable!()
}

/// Takes the step that the world has taken. The world has one member for each process, so it takes the step that the member's
/// machine is at. No contract says so of a world under a mutex: where it did not, the call would not return.
fn follow<R: Wait>(rt: &R, own: &mut OwnProcess, opening: Opening, turn: StepReport) -> Outcome
    ensures mirrors { Mirrors opening turn own.old.machine }
    ensures trail { own.new ≡ longer_trail opening own.old turn.happened.value }
    ensures outcome { (result.answer ≡ answer_with opening own.old.machine turn.happened.value)
        × (result.progress.blocked ≡ is_blocked_with opening own.old.machine turn.happened.value) }
    ensures sizes { HasConfiguration own.old.machine.layout own.old.machine.limit own.old.machine.index own.new.machine }
{
    let Some(outcome) = own.follow(opening, turn) else {
        never_return(rt);
        unreachable!()
    };
    outcome
}

/// Takes one of the turns that are left. True: there was none. With no limit of turns it is never true.
fn is_spent(left: &mut Option<u64>) -> bool
    ensures none { IsTrue result ↔ (left.old ≡ Some 0) }
    ensures less { result ≡ false → left.new ≡ turns_after_one left.old }
{
    match *left {
        Some(0) => return true,
        Some(more) => *left = Some(more - 1),
        None => {}
    }
    false
}

impl<L: Ledger, S: Sizes> Member<L, S> {
    ghost use Rattle.std.specs.Prelude.{Err, ◌⊎◌};

    /// A member whose process is at rest.
    pub(super) fn new(
        process: u64,
        layout: Layout,
        limit: u64,
        shared: Arc<Mutex<Shared<L, S>>>,
        share: Share<L>,
    ) -> Member<L, S>
        requires size { IsSize layout }
        requires limited { 1 ≤ limit }
        requires sizes { AreSizes S.named layout limit }
        requires below { process < layout.procs }
        requires few { layout.procs ≤ 64 }
        requires part { share.parts ≡ 1 }
        requires none { share.amount ≡ 0 }
        ensures { result ≡ new_seat layout limit process }
    {
        Member {
            process,
            layout,
            standing: MemberState::Out,
            shared,
            share,
            counted: 0,
            own: OwnProcess::new(layout, limit, process),
        }
    }

    /// Its process.
    pub fn process(&self) -> u64
        ensures value { result ≡ self.now.process }
        ensures few { result < 64 }
        ensures trail { IsOwnTrail S.named self.now }
    {
        self.process
    }

    /// Its state between its calls.
    pub fn standing(&self) -> MemberState
        ensures { result ≡ self.now.standing }
    {
        self.standing
    }

    /// The own steps of the last call that was started: what it added to the member's share, at most the greatest u64; 0
    /// before any call. A step that the world refused, out of memory, isn't counted. A call that is refused before any
    /// asking isn't started.
    pub fn steps(&self) -> u64
        ensures { result ≡ self.now.counted }
    {
        self.counted
    }

    /// Its share of the ledger, one part with its own steps.
    pub(super) fn into_share(self) -> Share<L>
        ensures parts { result.parts ≡ 1 }
        ensures amount { result.amount ≡ self.steps }
    {
        let Member { share, .. } = self;
        share
    }

    /// Asks the plan. If it falls, the process has lost its private memory.
    fn ask<P: CrashPlan>(&mut self, plan: &mut P) -> Result<(), LockFault>
        ensures asked { (P.askings plan.new).asked ≡ one_more (P.askings plan.old).asked }
        ensures fallen { (P.askings plan.new).fallen ≡ falls_by result (P.askings plan.old).fallen }
        ensures ok { OnOk result (self.new ≡ self.old) }
        ensures err { OnErr result (self.new ≡ record self.old { standing = MemberState.Lost }) }
        ensures only { IfErr result (λ e. e ≡ LockFault.Crashed) }
    {
        if plan.falls() {
            self.standing = MemberState::Lost;
            return Err(LockFault::Crashed);
        }
        Ok(())
    }

    /// One step of its process: it asks the plan, then takes the mutex for one step of the world. The process may take each
    /// step that the member asks for, so the world refuses only out of memory. The member's private memory is lost then.
    fn step<R: Wait, P: CrashPlan>(
        &mut self,
        rt: &R,
        plan: &mut P,
        opening: Opening,
    ) -> Result<Outcome, LockFault>
        ensures asked { (P.askings plan.new).asked ≡ one_more (P.askings plan.old).asked }
        ensures fallen { (P.askings plan.new).fallen ≡ falls_by result (P.askings plan.old).fallen }
        ensures ok { OnOk result (self.new ≡ record self.old {
          steps = self.old.steps + 1;
          counted = one_more self.old.counted;
          trail = self.new.trail;
        }) }
        ensures grows { IfOk result
            (λ outcome. TrailGrows S.named self.old.process opening self.old.trail outcome self.new.trail) }
        ensures err { OnErr result (self.new ≡ record self.old { standing = MemberState.Lost }) }
        ensures only { IfErr result (λ e. (e ≡ LockFault.Crashed) ⊎ (e ≡ LockFault.OutOfMemory)) }
    {
        self.ask(plan)?;
        // A copy, since the world takes it too.
        let own_opening = opening;
        let taken = self
            .shared
            .lock(rt)
            .step(&mut self.share, self.process, opening);
        let Ok(turn) = taken else {
            self.standing = MemberState::Lost;
            return Err(LockFault::OutOfMemory);
        };
        self.counted = self.counted.saturating_add(1);
        Ok(follow(rt, &mut self.own, own_opening, turn))
    }

    /// Starts a call and takes its steps, as `pursue` does. Its own steps are counted from 0.
    pub(super) fn begin<R: Wait, P: CrashPlan>(
        &mut self,
        rt: &R,
        plan: &mut P,
        call: Call,
        turns: Option<u64>,
    ) -> Result<Option<Answer>, LockFault>
        requires { may_start self.old.standing call ≡ true }
        ensures goes { KeepsProcess self.old self.new }
        ensures counted { CountsSteps self.old self.new }
        ensures asked { OnOk result (AskedEach self.old self.new (P.askings plan.old) (P.askings plan.new)) }
        ensures ended { OnErr result (AskedOnceMore self.old self.new (P.askings plan.old) (P.askings plan.new)) }
        ensures fallen { (P.askings plan.new).fallen ≡ falls_by result (P.askings plan.old).fallen }
        ensures kept { OnOk result (self.new.standing ≡ self.old.standing) }
        ensures lost { OnErr result (self.new.standing ≡ MemberState.Lost) }
        ensures only { IfErr result (λ e. (e ≡ LockFault.Crashed) ⊎ (e ≡ LockFault.OutOfMemory)) }
        ensures patient { IsNone turns → IfOk result (λ answer. IsSome answer) }
        ensures answered { IfOk result
            (λ answer.
            IsAnsweredCall (asked_call S.named self.old.process self.old.standing call turns) self.old.trail self.new.trail
            answer) }
    {
        self.counted = 0;
        self.pursue(rt, plan, call, turns)
    }

    /// Takes the steps of a call that its process may start, up to its answer or until it has been blocked once more than
    /// its turns; without turns it waits as long as it has to. Its own steps are counted on. The plan is not yet asked for
    /// the answer: the caller does that.
    #[tactic(auto, using(crate::proofs::Answered::begins, crate::proofs::Answered::answered_by, crate::proofs::Answered::given_up))]
    pub(super) fn pursue<R: Wait, P: CrashPlan>(
        &mut self,
        rt: &R,
        plan: &mut P,
        call: Call,
        turns: Option<u64>,
    ) -> Result<Option<Answer>, LockFault>
        requires { may_start self.old.standing call ≡ true }
        ensures goes { KeepsProcess self.old self.new }
        ensures counted { CountsOn self.old self.new }
        ensures asked { OnOk result (AskedEach self.old self.new (P.askings plan.old) (P.askings plan.new)) }
        ensures ended { OnErr result (AskedOnceMore self.old self.new (P.askings plan.old) (P.askings plan.new)) }
        ensures fallen { (P.askings plan.new).fallen ≡ falls_by result (P.askings plan.old).fallen }
        ensures kept { OnOk result (self.new.standing ≡ self.old.standing) }
        ensures lost { OnErr result (self.new.standing ≡ MemberState.Lost) }
        ensures only { IfErr result (λ e. (e ≡ LockFault.Crashed) ⊎ (e ≡ LockFault.OutOfMemory)) }
        ensures patient { IsNone turns → IfOk result (λ answer. IsSome answer) }
        ensures answered { IfOk result
            (λ answer.
            IsAnsweredCall (asked_call S.named self.old.process self.old.standing call turns) self.old.trail self.new.trail
            answer) }
    {
        let mut left = turns;
        let mut opening = Opening {
            crash: self.standing.is_lost(),
            call: Some(call),
        };
        let backoff = Backoff::new();
        for _ in rt.forever() {
            let outcome = self.step(rt, plan, opening)?;
            if outcome.answer.is_some() {
                return Ok(outcome.answer);
            }
            opening = Opening {
                crash: false,
                call: None,
            };
            if outcome.progress.blocked {
                if is_spent(&mut left) {
                    return Ok(None);
                }
                backoff.snooze();
            }
        }
        unreachable!()
    }

    /// The last asking of a call, before its answer, and the state that the answer leaves the member in.
    pub(super) fn conclude<P: CrashPlan, T: Copy>(
        &mut self,
        plan: &mut P,
        answer: Result<T, LockFault>,
        standing: MemberState,
    ) -> Result<T, LockFault>
        requires { (f : ℕ) → falls_by answer f ≡ f }
        ensures asked { (P.askings plan.new).asked ≡ one_more (P.askings plan.old).asked }
        ensures fallen { (P.askings plan.new).fallen ≡ falls_by result (P.askings plan.old).fallen }
        ensures answer { ((result ≡ answer) × (self.new ≡ record self.old { standing = standing }))
            ⊎ ((result ≡ Err LockFault.Crashed) × (self.new ≡ record self.old { standing = MemberState.Lost })) }
    {
        self.ask(plan)?;
        self.standing = standing;
        answer
    }
}
