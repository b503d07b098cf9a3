//! The process of a member, which the member steps beside the world's.

ghost use Rattle.std.specs.Prelude.{◌≡◌, ◌<◌, ◌++◌, ◌∷◌, ◌↔◌, IfSome, IsTrue, [], true};
ghost use Rattle.rmecore.specs.Machine.{kind_of, word_of, carried_value};
ghost use Rattle.rmeworld.specs.MachineState.{IsSize, resting, machine_after_step, outcome, next_access};
ghost use Rattle.rmeworld.specs.WorldState.{HasConfiguration};
ghost use Rattle.one_lock.specs.Answers.{Mirrors};
ghost use Rattle.one_lock.specs.Trails.{Accepts, IsEventOf, crashed_if, opened_machine, longer_trail, answer_with, is_blocked_with};

use crate::opening::Opening;
use crate::turn::StepReport;
use histories::Log;
use redomail::Layout;
use rmecore::{Access, Happened};
use rmeworld::{Outcome, Process};
use std::marker::Model;

/// The private memory of a member's process, and for proofs the values of its own steps. Of a world under a mutex a contract
/// knows no more than that some run ends in it. Where its process stands and what it has read is the member's own.
#[derive(Drop)]
pub struct OwnProcess {
    process: Process,
    values: Log<u64>,
}

impl Model for OwnProcess {
    ghost use Rattle.one_lock.specs.Member.{Trail};

    ghost Value = { Trail };

    ghost view = { λ m. record { machine = m.process; values = m.values.items } };
}

/// Is this the event of this access?
fn is_event_of(access: Access, happened: Happened) -> bool
    ensures { IsTrue result ↔ ((happened.kind ≡ kind_of access) × (happened.word ≡ word_of access)
        × (happened.value ≡ carried_value access happened.value)) }
{
    let value = match access {
        Access::Load(..) => happened.value,
        Access::Store(_, _, value) => value,
    };
    happened.kind == access.kind() && happened.word == access.word() && happened.value == value
}

impl OwnProcess {
    /// A process at rest that has taken no step.
    pub fn new(layout: Layout, limit: u64, index: u64) -> OwnProcess
        requires size { IsSize layout }
        requires below { index < layout.procs }
        ensures { result ≡ record { machine = resting layout limit index; values = [] } }
    {
        OwnProcess {
            process: Process::new(layout, limit, index),
            values: Log::new(),
        }
    }

    /// The crash before a step, where there is one.
    fn crash_before(&mut self, crash: bool)
        ensures { self.new ≡ record { machine = crashed_if crash self.old.machine; values = self.old.values } }
    {
        if crash {
            self.process.crash();
        }
    }

    /// The crash and the start before a step. False: the start is refused.
    #[tactic(auto, using(crate::proofs::OwnSteps::keeps_crashed, crate::proofs::OwnSteps::keeps_then, crate::proofs::OwnSteps::kept_by_start))]
    fn open(&mut self, opening: Opening) -> bool
        ensures accepts { result ≡ true → Accepts opening.call (crashed_if opening.crash self.old.machine) }
        ensures opened { result ≡ true
            → self.new ≡ record { machine = opened_machine opening self.old.machine; values = self.old.values } }
        ensures sizes { HasConfiguration self.old.machine.layout self.old.machine.limit self.old.machine.index self.new.machine }
    {
        self.crash_before(opening.crash);
        if let Some(call) = opening.call {
            if self.process.start(call).is_err() {
                return false;
            }
        }
        true
    }

    /// Takes the step that the world has taken. None: it is another step than the machine's next one, or has another outcome.
    #[tactic(auto, using(crate::proofs::OwnSteps::is_its_event, crate::proofs::OwnSteps::kept_by_step))]
    fn take(&mut self, turn: StepReport) -> Option<Outcome>
        ensures steps { IfSome result (λ o. IsEventOf self.old.machine turn.happened) }
        ensures answer { IfSome result (λ o. (o.answer ≡ turn.answer) × (o.progress.blocked ≡ turn.blocked)
            × (o ≡ outcome self.old.machine (next_access self.old.machine) turn.happened.value)) }
        ensures trail { IfSome result (λ o. self.new ≡ record {
          machine = machine_after_step self.old.machine turn.happened.value;
          values = self.old.values ++ turn.happened.value ∷ [];
        }) }
        ensures sizes { HasConfiguration self.old.machine.layout self.old.machine.limit self.old.machine.index self.new.machine }
    {
        let access = self.process.next()?;
        if !is_event_of(access, turn.happened) {
            return None;
        }
        let outcome = self.process.feed(turn.happened.value);
        if outcome.answer != turn.answer || outcome.progress.blocked != turn.blocked {
            return None;
        }
        self.values = self.values.and(&turn.happened.value);
        Some(outcome)
    }

    /// Takes the step that the world has taken, with its crash and start. None: the machine's next step is another one, or has
    /// another outcome.
    #[tactic(auto, using(crate::proofs::OwnSteps::mirrors_by, crate::proofs::OwnSteps::keeps_then))]
    pub fn follow(&mut self, opening: Opening, turn: StepReport) -> Option<Outcome>
        ensures mirrors { IfSome result (λ o. Mirrors opening turn self.old.machine) }
        ensures trail { IfSome result (λ o. self.new ≡ longer_trail opening self.old turn.happened.value) }
        ensures answer { IfSome result
            (λ o. (o.answer ≡ answer_with opening self.old.machine turn.happened.value)
            × (o.progress.blocked ≡ is_blocked_with opening self.old.machine turn.happened.value)) }
        ensures sizes { HasConfiguration self.old.machine.layout self.old.machine.limit self.old.machine.index self.new.machine }
    {
        if !self.open(opening) {
            return None;
        }
        self.take(turn)
    }
}
