//! The driver of a process's calls: its port and its machine, one step at a time.
ghost use Rattle.std.specs.Prelude.{◌≡◌, ℕ, List, [], ◌∷◌, length, IfSome, ◌<◌, ◌≤◌, ◌^◌, true, false, Some, None, IsSome, is_none, IfErr, OnOk, OnErr, IsTrue};
ghost use Rattle.rmecore.specs.Machine.{kind_of, word_of, carried_value};
ghost use Rattle.rmecore.specs.World.{is_store};
ghost use Rattle.rmeworld.specs.Refused.{start_refusal, is_idle};
ghost use Rattle.rmeworld.specs.MachineState.{IsSize, InWords, StoresOwn};
ghost use Rattle.table_runs.specs.Runs.{InTable, IsBeyond};
ghost use Rattle.rmecore.specs.Place.{Inside, Rest};
ghost use Rattle.rmeworld.specs.OwnSteps.{most_steps};
ghost use Rattle.rmeworld.specs.declared.answer.Answer.TheVariants.{Unlocked};
ghost use Rattle.rmeworld.specs.declared.call.Call.TheVariants.{Append, Lock, Unlock};
ghost use Rattle.table_runs.specs.declared.entry.TakenStep.{TakenStep};
ghost use Rattle.table_runs.specs.Calls.{Ran, Going, Still};
ghost use Rattle.table_runs.specs.Faults.{refusal_now, AnsweredIn};
ghost use Rattle.table_runs.specs.Tabled.{table_steps};
ghost use Rattle.table_runs.specs.Under.{Begun, IsAnswerOf, Leaves};
ghost use Rattle.crash_plans.specs.Plans.{NeverCrashes, Fell};
ghost use Rattle.robust.specs.FastPath.{free_process_state, EndsIn};
ghost use Rattle.robust.specs.FastCalls.{reports_by, HasFastWay};
ghost use Rattle.robust.specs.MemberLaws.{seat_of};
ghost use Rattle.table_runs.specs.SeatView.{CarriesPending, Looks, IsSeatView, new_seat_view, process_state_now, moved_process_state};

use crate::access::fast_append::append;
use crate::access::fast_path::{Reached, go_in, leave};
use crate::access::port::{Port, data_words};
use crate::call::led::{Led, bar, led_answer};
use crash_plans::CrashPlan;
use rmecore::{Access, Body, Kind, Refusal, Stage, Word};
use rmeworld::{Answer, Call, Outcome, Process};
use std::marker::Model;
use table_runs::{LockFault, Setup};

/// A process with its port, its machine, and the own steps of its last call, at most the greatest u64.
#[derive(Drop)]
pub struct CallDriver {
    port: Port,
    process: Process,
    steps: u64,
}

impl Model for CallDriver {
    ghost use Rattle.table_runs.specs.WorkingMembers.{Seated, IsRunBy};

    ghost Value = { Seated };

    ghost view = { λ r. record { seat_view = r.port; steps = r.steps } };

    ghost invariant = { λ r. IsRunBy r.port r.process };
}

/// Whether the table has the word. It has each lock word, and the data words up to its end.
fn in_table(setup: &Setup, word: Word) -> bool
    requires size { IsSize setup.now.layout }
    requires within { InWords setup.now.layout.procs word }
    ensures yes { result ≡ true → InTable setup.now word }
    ensures no { result ≡ false → IsBeyond setup.now word }
{
    match word {
        Word::Data(i) => i < data_words(&setup.layout),
        _ => true,
    }
}

/// One load of the machine. Past the table's end it reads 0.
fn read(port: &mut Port, kind: Kind, word: Word) -> u64
    requires within { InWords port.old.setup.layout.procs word }
    requires kind { is_store kind ≡ false }
    requires allowed { (v : ℕ) → IsSome (moved_process_state port.old kind word v) }
    ensures { CarriesPending port.old kind word result port.new }
{
    let setup = port.setup();
    if in_table(&setup, word) {
        return port.load(kind, word);
    }
    port.step_past_end(kind, word, 0);
    0
}

/// One access of the machine: one load or store of the table.
fn perform(port: &mut Port, access: Access) -> u64
    requires within { InWords port.old.setup.layout.procs (word_of access) }
    requires own { StoresOwn port.old.by access }
    requires allowed { (v : ℕ) → IsSome (moved_process_state port.old (kind_of access) (word_of access) (carried_value access v)) }
    ensures { CarriesPending port.old (kind_of access) (word_of access) (carried_value access result) port.new }
{
    let setup = port.setup();
    match access {
        Access::Load(kind, word) => read(port, kind, word),
        Access::Store(kind, word, value) => {
            if in_table(&setup, word) {
                port.store(kind, word, value);
            } else {
                port.step_past_end(kind, word, value);
            }
            value
        }
    }
}

/// Counts the askings of a plan that never falls, in place of asking.
fn count_without_crash<C: CrashPlan>(plan: &mut C, askings: u64)
    requires { C.never_crashes plan.old ≡ true }
    ensures { NeverCrashes askings (C.askings plan.old) (C.askings plan.new) }
{
    plan.count_askings(askings);
}

impl CallDriver {
    ghost use Rattle.table_runs.specs.WorkingMembers.{Seated, TakesStep, fell, began, after_further_start};

    /// A process at rest, with this port.
    pub fn new(port: Port) -> CallDriver
        requires { port ≡ new_seat_view port.table port.setup port.by }
        ensures { result ≡ record { seat_view = port; steps = 0 } }
    {
        let setup = port.setup();
        let process = Process::new(setup.layout, setup.limit, port.by());
        CallDriver {
            port,
            process,
            steps: 0,
        }
    }

    /// Its process.
    pub fn by(&self) -> u64
        ensures is { result ≡ self.now.seat_view.by }
        ensures seat_view { IsSeatView self.now.seat_view }
    {
        self.port.by()
    }

    /// The sizes of the arena.
    pub fn setup(&self) -> Setup
        ensures is { result ≡ self.now.seat_view.setup }
        ensures seat_view { IsSeatView self.now.seat_view }
    {
        self.port.setup()
    }

    /// The own steps of the last call that was started.
    pub fn steps(&self) -> u64
        ensures { result ≡ self.now.steps }
    {
        self.steps
    }

    /// Loses the private memory.
    pub fn crash(&mut self)
        ensures { self.new ≡ fell self.old }
    {
        self.port.crash();
        self.process.crash();
    }

    /// Asks the plan once. If it falls, the process crashes. It answers `Crashed` then.
    #[tactic(auto, using(crash_plans::proofs::Counted::goes_on_once, crash_plans::proofs::Counted::falls_once))]
    pub fn ask<C: CrashPlan>(&mut self, plan: &mut C) -> Result<(), LockFault>
        ensures goes_on { OnOk result ((self.new ≡ self.old) × NeverCrashes 1 (C.askings plan.old) (C.askings plan.new)) }
        ensures falls { OnErr result ((self.new ≡ fell self.old) × Fell 1 (C.askings plan.old) (C.askings plan.new)) }
        ensures crashed { IfErr result (λ e. e ≡ LockFault.Crashed) }
    {
        if plan.falls() {
            self.crash();
            return Err(LockFault::Crashed);
        }
        Ok(())
    }

    /// Takes the next step.
    pub fn advance(&mut self) -> Outcome
        requires { is_idle (process_state_now self.old.seat_view) ≡ false }
        ensures { TakesStep self.old result self.new }
    {
        if let Some((scan, Access::Load(kind, word))) = self.process.scan() {
            let found = read(&mut self.port, kind, word);
            self.steps = self.steps.saturating_add(1);
            return self.process.scan_on(scan, found);
        }
        let Some(access) = self.process.next() else {
            unreachable!()
        };
        let value = perform(&mut self.port, access);
        self.steps = self.steps.saturating_add(1);
        self.process.feed(value)
    }

    /// The fast path of a lock that has just been started or was blocked, where the plan never falls: its steps up to its
    /// answer or to a blocked reading, or as far as they go without the machine. The askings before them are counted
    /// afterwards.
    // Inline: once in each lock.
    #[inline(always)]
    fn fast_lock<C: CrashPlan>(&mut self, plan: &mut C) -> Led
        requires begun { Begun Lock self.old.seat_view.setup.layout.procs (process_state_now self.old.seat_view) }
        ensures ran { IfSome (reports_by result) (λ o. (mine : List TakenStep) × Ran self.old o self.new mine
            × NeverCrashes (length mine) (C.askings plan.old) (C.askings plan.new)) }
        ensures still { IfSome (reports_by result) (Still Lock self.new) }
        ensures on { reports_by result ≡ None → (mine : List TakenStep) × Going self.old mine self.new
            × NeverCrashes (length mine) (C.askings plan.old) (C.askings plan.new) }
        ensures begun { reports_by result ≡ None
            → Begun Lock self.new.seat_view.setup.layout.procs (process_state_now self.new.seat_view) }
    {
        if !plan.never_crashes() {
            return Led::Further;
        }
        let Some(stage) = self.process.stage() else {
            return Led::Further;
        };
        let Some((reached, taken)) = go_in(&mut self.port, stage) else {
            return Led::Further;
        };
        self.steps = self.steps.saturating_add(taken);
        count_without_crash(plan, taken);
        match reached {
            Reached::Blocked(stage) => {
                self.process.seam_machine_state(stage);
                Led::Blocked
            }
            Reached::Stands(stage) => {
                self.process.seam_machine_state(stage);
                Led::Further
            }
            Reached::Clean => {
                self.process.seam_machine_state_clean();
                Led::Entered
            }
            Reached::Ruined => {
                bar(&mut self.process);
                Led::Further
            }
        }
    }

    /// The fast path of a call, where it has one.
    pub fn fast_way<C: CrashPlan>(&mut self, plan: &mut C, call: &Call) -> Option<Option<Answer>>
        requires begun { Begun call.now self.old.seat_view.setup.layout.procs (process_state_now self.old.seat_view) }
        ensures ran { IfSome result (λ o. (mine : List TakenStep) × Ran self.old o self.new mine
            × NeverCrashes (length mine) (C.askings plan.old) (C.askings plan.new)) }
        ensures still { IfSome result (Still call.now self.new) }
        ensures on { result ≡ None → (mine : List TakenStep) × Going self.old mine self.new
            × NeverCrashes (length mine) (C.askings plan.old) (C.askings plan.new) }
        ensures begun { result ≡ None → Begun call.now self.new.seat_view.setup.layout.procs (process_state_now self.new.seat_view) }
    {
        match call {
            Call::Lock if self.is_at_start() => led_answer(self.fast_lock(plan)),
            Call::Lock => led_answer(self.fast_lock_later(plan)),
            _ => None,
        }
    }

    /// Whether a call of the lock has just been started.
    fn is_at_start(&self) -> bool {
        matches!(self.process.stage(), Some(Stage::ReadingChoosing { .. }))
    }

    /// The same as `fast_lock`, for a lock that was blocked: a copy of its own, so that an uncontended lock pays nothing for
    /// it.
    // Apart: keeps an uncontended lock small.
    #[inline(never)]
    fn fast_lock_later<C: CrashPlan>(&mut self, plan: &mut C) -> Led
        requires begun { Begun Lock self.old.seat_view.setup.layout.procs (process_state_now self.old.seat_view) }
        ensures ran { IfSome (reports_by result) (λ o. (mine : List TakenStep) × Ran self.old o self.new mine
            × NeverCrashes (length mine) (C.askings plan.old) (C.askings plan.new)) }
        ensures still { IfSome (reports_by result) (Still Lock self.new) }
        ensures on { reports_by result ≡ None → (mine : List TakenStep) × Going self.old mine self.new
            × NeverCrashes (length mine) (C.askings plan.old) (C.askings plan.new) }
        ensures begun { reports_by result ≡ None
            → Begun Lock self.new.seat_view.setup.layout.procs (process_state_now self.new.seat_view) }
    {
        self.fast_lock(plan)
    }

    /// Whether the process is a holder with nothing to mend and no call under way.
    pub fn is_clean(&self) -> bool
        ensures { result ≡ true → process_state_now self.now.seat_view ≡ free_process_state Inside true }
    {
        self.process.is_clean()
    }

    /// An unlock of a holder with nothing to mend, where the plan never falls: two stores. The askings before them and
    /// before the answer are counted afterwards.
    pub fn fast_unlock<C: CrashPlan>(&mut self, plan: &mut C)
        requires idle { self.old.seat_view.start ≡ None }
        requires clean { process_state_now self.old.seat_view ≡ free_process_state Inside true }
        requires never_crashes { C.never_crashes plan.old ≡ true }
        ensures accepted { refusal_now self.old Unlock ≡ None }
        ensures served { AnsweredIn (began self.old Unlock) Unlock (Unlocked ∷ []) 0 self.new (C.askings plan.old) (C.askings plan.new) }
        ensures table { table_steps self.old.seat_view Unlock Unlocked ≡ Some self.new.steps }
        ensures few { self.new.steps ≤ most_steps self.old.seat_view.setup.layout Unlock }
        ensures seat { seat_of self.new ≡ seat_of self.old }
    {
        self.go_out();
        self.steps = 2;
        count_without_crash(plan, 3);
    }

    /// The two stores of an unlock of a holder with nothing to mend. The caller counts them.
    // Inline: two stores of each unlock.
    #[inline(always)]
    fn go_out(&mut self)
        requires idle { self.old.seat_view.start ≡ None }
        requires clean { process_state_now self.old.seat_view ≡ free_process_state Inside true }
        ensures seat_view { IsSeatView (after_further_start self.old Unlock).seat_view }
        ensures ends { EndsIn (after_further_start self.old Unlock).seat_view 2 Unlocked self.new.seat_view }
        ensures out { (process_state_now self.new.seat_view).lock ≡ Rest }
        ensures steps { self.new.steps ≡ self.old.steps }
    {
        self.port.begin(Call::Unlock);
        // For the proof alone: its value is read.
        let _seat_view = self.port.by();
        leave(&mut self.port);
        self.process.seam_machine_state(Stage::Rest);
    }

    /// Whether the fast path takes a call that follows another one: an append or an unlock of a holder with nothing to mend,
    /// where the plan never falls.
    pub fn has_fast_way<C: CrashPlan>(&self, plan: &C, call: &Call) -> bool
        ensures clean { result ≡ true → process_state_now self.now.seat_view ≡ free_process_state Inside true }
        ensures never_crashes { result ≡ true → C.never_crashes plan.now ≡ true }
        ensures call { result ≡ true → HasFastWay call.now }
    {
        match call {
            Call::Append { .. } | Call::Unlock => self.process.is_clean() && plan.never_crashes(),
            _ => false,
        }
    }

    /// The fast path of an append: its gets and puts. The machine's state stays the same.
    fn fast_append<C: CrashPlan>(&mut self, plan: &mut C, seq: u64, value: &Body) -> Answer
        requires idle { self.old.seat_view.start ≡ None }
        requires accepted { refusal_now self.old (Append seq value.now) ≡ None }
        requires clean { process_state_now self.old.seat_view ≡ free_process_state Inside true }
        requires never_crashes { C.never_crashes plan.old ≡ true }
        ensures ran { (mine : List TakenStep) × Ran (after_further_start self.old (Append seq value.now)) (Some result) self.new mine
            × NeverCrashes (length mine) (C.askings plan.old) (C.askings plan.new) }
        ensures seat_view { IsSeatView (after_further_start self.old (Append seq value.now)).seat_view }
        ensures leaves { IsAnswerOf (Append seq value.now) result
            × Leaves (Append seq value.now) result (process_state_now self.new.seat_view) }
    {
        self.port.begin(Call::Append { seq, value: *value });
        // For the proof alone: its value is read.
        let _seat_view = self.port.by();
        let (reply, taken) = append(&mut self.port, seq, value);
        self.steps = self.steps.saturating_add(taken);
        count_without_crash(plan, taken);
        Answer::Mail(reply)
    }

    /// The fast path of an unlock after another call: two stores.
    fn fast_leave<C: CrashPlan>(&mut self, plan: &mut C) -> Answer
        requires idle { self.old.seat_view.start ≡ None }
        requires clean { process_state_now self.old.seat_view ≡ free_process_state Inside true }
        requires never_crashes { C.never_crashes plan.old ≡ true }
        ensures ran { (mine : List TakenStep) × Ran (after_further_start self.old Unlock) (Some result) self.new mine
            × NeverCrashes (length mine) (C.askings plan.old) (C.askings plan.new) }
        ensures seat_view { IsSeatView (after_further_start self.old Unlock).seat_view }
        ensures leaves { IsAnswerOf Unlock result × Leaves Unlock result (process_state_now self.new.seat_view) }
    {
        self.go_out();
        self.steps = self.steps.saturating_add(2);
        count_without_crash(plan, 2);
        Answer::Unlocked
    }

    /// The fast path of a call after another one. The askings before its steps are counted afterwards.
    pub fn fast_call<C: CrashPlan>(&mut self, plan: &mut C, call: &Call) -> Answer
        requires idle { self.old.seat_view.start ≡ None }
        requires accepted { refusal_now self.old call.now ≡ None }
        requires clean { process_state_now self.old.seat_view ≡ free_process_state Inside true }
        requires never_crashes { C.never_crashes plan.old ≡ true }
        requires call { HasFastWay call.now }
        ensures ran { (mine : List TakenStep) × Ran (after_further_start self.old call.now) (Some result) self.new mine
            × NeverCrashes (length mine) (C.askings plan.old) (C.askings plan.new) }
        ensures seat_view { IsSeatView (after_further_start self.old call.now).seat_view }
        ensures leaves { IsAnswerOf call.now result × Leaves call.now result (process_state_now self.new.seat_view) }
    {
        match call {
            Call::Append { seq, value } => self.fast_append(plan, *seq, value),
            Call::Unlock => self.fast_leave(plan),
            _ => unreachable!(),
        }
    }

    /// Starts a lock, if the process is neither inside nor in a call. Otherwise it answers false, and nothing changes.
    pub fn start_lock(&mut self) -> bool
        requires idle { self.old.seat_view.start ≡ None }
        ensures started { result ≡ true → (self.new ≡ began self.old Lock)
            × Begun Lock self.new.seat_view.setup.layout.procs (process_state_now self.new.seat_view)
            × IsSeatView self.new.seat_view × (refusal_now self.old Lock ≡ None) }
        ensures not { result ≡ false → self.new ≡ self.old }
    {
        if !self.process.start_lock() {
            return false;
        }
        self.port.begin(Call::Lock);
        // For the proof alone: its value is read.
        let _seat_view = self.port.by();
        self.steps = 0;
        true
    }

    /// Starts a call after another one, unless it is refused. The steps of both are counted together.
    pub fn begin_further(&mut self, call: &Call) -> Result<(), Refusal>
        requires { self.old.seat_view.start ≡ None }
        ensures accepted { OnOk result ((start_refusal self.old.seat_view.setup.layout (process_state_now self.old.seat_view)
            call.now ≡ None) × (self.new ≡ after_further_start self.old call.now)) }
        ensures begun { OnOk result (Begun call.now self.old.seat_view.setup.layout.procs (process_state_now self.new.seat_view)) }
        ensures seat_view { OnOk result (IsSeatView self.new.seat_view) }
        ensures refused { IfErr result (λ e. start_refusal self.old.seat_view.setup.layout
            (process_state_now self.old.seat_view) call.now ≡ Some e) }
        ensures err { OnErr result (self.new ≡ self.old) }
    {
        self.process.start(*call)?;
        self.port.begin(*call);
        // For the proof alone: its value is read.
        let _by = self.port.by();
        Ok(())
    }

    /// Starts a call, unless it is refused.
    pub fn begin(&mut self, call: &Call) -> Result<(), Refusal>
        requires { self.old.seat_view.start ≡ None }
        ensures accepted { OnOk result ((start_refusal self.old.seat_view.setup.layout (process_state_now self.old.seat_view)
            call.now ≡ None) × (self.new ≡ began self.old call.now)) }
        ensures begun { OnOk result (Begun call.now self.old.seat_view.setup.layout.procs (process_state_now self.new.seat_view)) }
        ensures seat_view { OnOk result (IsSeatView self.new.seat_view) }
        ensures refused { IfErr result (λ e. start_refusal self.old.seat_view.setup.layout
            (process_state_now self.old.seat_view) call.now ≡ Some e) }
        ensures err { OnErr result (self.new ≡ self.old) }
    {
        self.begin_further(call)?;
        self.steps = 0;
        Ok(())
    }

    /// Reads any word of the table.
    pub fn glance(&mut self, word: Word) -> u64
        requires { InTable self.old.seat_view.setup word }
        ensures seen { Looks self.old.seat_view word result self.new.seat_view }
        ensures steps { self.new.steps ≡ self.old.steps }
    {
        self.port.glance(word)
    }

    /// Gives the port back.
    pub fn into_port(self) -> Port
        ensures { result ≡ self.seat_view }
    {
        let CallDriver {
            port,
            process: _,
            steps: _,
        } = self;
        port
    }
}
