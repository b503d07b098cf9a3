//! The rows of the lock's part that a variant changes: the table, and the steps by it.

ghost use Rattle.std.specs.Prelude.{◌≡◌, ◌<◌, ◌+◌, ℕ, false, Some, None, IfSome};
ghost use Rattle.rmecore.specs.Machine.{place_of};
ghost use Rattle.crashlab.specs.variants.Variants.{lock_or_recover as lock_or_recover_of};
ghost use Rattle.rmeworld.specs.declared.script_state.ScriptState.TheVariants.{Free};
ghost use Rattle.rmeworld.specs.MachineState.{next_access, machine_after_step};
ghost use Rattle.crashlab.specs.variants.VariantStands.{changed_row as row_of, weighing_row as weighing_row_of, tied_row as tied_row_of, taken_row as taken_row_of, inside_row as inside_row_of, outside_at};

use crate::variants::deviation::Deviation;
use crate::variants::variant::Variant;
use crate::variants::variant_process::VariantProcess;
use rmecore::rules::passes;
use rmecore::{Access, CoreCall, Kind, Stage, Word};
use rmeworld::script_state::ScriptState;
use rmeworld::{Outcome, PrivateMemory, Process};

/// The script state of a process.
pub(super) fn script_state_of(process: &Process) -> ScriptState
    ensures { result ≡ process.now.script_state }
{
    process.seam_memory().script_state
}

/// The place of the lock's part of a process.
fn stage_of(process: &Process) -> Stage
    ensures { place_of process.now.layout.procs process.now.index result ≡ process.now.lock }
{
    process.seam_memory().stage
}

/// Sets a process to a place outside the section, with no script and nothing to mend.
fn machine_state_outside(process: &mut Process, to: Stage)
    ensures { process.new ≡ outside_at process.old (place_of process.old.layout.procs process.old.index to) }
{
    let _ = process.seam_set(&PrivateMemory {
        stage: to,
        mended: true,
        barred: false,
        script_state: ScriptState::Free,
    });
}

/// Takes the lock's step, and leaves the process outside the section.
fn feed_outside(process: &mut Process, value: u64)
    ensures { process.new ≡ outside_at (machine_after_step process.old value) (machine_after_step process.old value).lock }
{
    process.feed(value);
    let stage = stage_of(process);
    machine_state_outside(process, stage);
}

/// The place of a waiter that has passed process j, and so all before it.
fn past(procs: u64, number: u64, j: u64) -> Stage
    requires { j < procs }
    ensures { result ≡ Stage.Wait number (j + 1) false }
{
    prove!(j < procs);
    Stage::Wait {
        number,
        next: j + 1,
        looked: false,
    }
}

/// `NoLook`: in place of a look the waiter weighs, and passes or stays.
fn weighing_row(process: &Process, value: u64) -> Option<(Stage, Deviation)>
    requires { process.now.script_state ≡ Free }
    ensures some { IfSome result (λ r. weighing_row_of process.now.index process.now.lock (next_access process.now) value
        ≡ Some (place_of process.now.layout.procs process.now.index r.0, r.1)) }
    ensures none { result ≡ None → weighing_row_of process.now.index process.now.lock (next_access process.now) value ≡ None }
{
    let stage = stage_of(process);
    let Stage::Wait { number, .. } = stage else {
        return None;
    };
    let Some(Access::Load(Kind::Look, Word::Choosing(j))) = process.next() else {
        return None;
    };
    if !passes(number, process.index(), value, j) {
        return Some((stage, Deviation::Straight));
    }
    let past = past(process.layout().procs, number, j);
    Some((past, Deviation::Straight))
}

/// `NoTies`: a weigh that finds an equal number passes.
fn tied_row(process: &Process, value: u64) -> Option<(Stage, Deviation)>
    requires { process.now.script_state ≡ Free }
    ensures some { IfSome result (λ r. tied_row_of process.now.lock (next_access process.now) value
        ≡ Some (place_of process.now.layout.procs process.now.index r.0, r.1)) }
    ensures none { result ≡ None → tied_row_of process.now.lock (next_access process.now) value ≡ None }
{
    let Stage::Wait { number, .. } = stage_of(process) else {
        return None;
    };
    let Some(Access::Load(Kind::Weigh, Word::Number(j))) = process.next() else {
        return None;
    };
    if number != value {
        return None;
    }
    let past = past(process.layout().procs, number, j);
    Some((past, Deviation::Straight))
}

/// `Renumber`: a lock whose third reread finds a number taken in the doorway scans again.
fn taken_row(stage: Stage) -> Option<(Stage, Deviation)>
    ensures some { IfSome result (λ r. (n p : ℕ) → taken_row_of n p (place_of n p stage) ≡ Some (place_of n p r.0, r.1)) }
    ensures none { result ≡ None → (n p : ℕ) → taken_row_of n p (place_of n p stage) ≡ None }
{
    match stage {
        Stage::ReadingInside {
            call: CoreCall::Lock,
            choosing,
            number,
        } => {
            if choosing == 0 || number == 0 {
                return None;
            }
            Some((Stage::DOORWAY, Deviation::Over(number)))
        }
        _ => None,
    }
}

/// `ExitOnCrash`: a process that the third reread finds inside drops its number, and goes on as if it was found leaving.
fn inside_row(stage: Stage, value: u64) -> Option<(Stage, Deviation)>
    ensures some { IfSome result (λ r. (n p : ℕ) → inside_row_of (place_of n p stage) value ≡ Some (place_of n p r.0, r.1)) }
    ensures none { result ≡ None → (n p : ℕ) → inside_row_of (place_of n p stage) value ≡ None }
{
    match stage {
        Stage::ReadingInside {
            call,
            choosing,
            number,
        } => {
            if choosing != 0 || number == 0 || value == 0 {
                return None;
            }
            let call = lock_or_recover(call);
            Some((Stage::Unmarking { call }, Deviation::Dropping))
        }
        _ => None,
    }
}

/// `Lock` for a lock, else `Recover`.
fn lock_or_recover(call: CoreCall) -> CoreCall
    ensures { result ≡ lock_or_recover_of call }
{
    match call {
        CoreCall::Lock => CoreCall::Lock,
        _ => CoreCall::Recover,
    }
}

impl VariantProcess {
    ghost use Rattle.crashlab.specs.variants.VariantStands.{unless_changed, plain_outcome, process_led_to, by_row, over_way, part_beside, part_outcome, silent_outcome};

    /// Takes a step of a variant that changes rows of the lock.
    pub(super) fn feed_by_rows(&mut self, value: u64) -> Outcome
        ensures exact { self.new ≡ part_beside self.old.machine_state.script_state self.old.deviation self.old value }
        ensures outcome { result ≡ part_outcome self.old.machine_state.script_state self.old.deviation self.old value }
    {
        match (script_state_of(&self.process), self.deviation) {
            (ScriptState::Doing(..), _) => self.process.feed(value),
            (ScriptState::Free, Deviation::Straight) => self.go_by_row(value),
            (ScriptState::Free, Deviation::Over(number)) => {
                self.scan_again(number, value);
                Outcome::SILENT
            }
            (ScriptState::Free, Deviation::Dropping) => {
                let stage = stage_of(&self.process);
                machine_state_outside(&mut self.process, stage);
                self.deviation = Deviation::Straight;
                Outcome::SILENT
            }
        }
    }

    /// Takes a step of a process without a variant state: by a row that the variant changes, or by the lock's.
    fn go_by_row(&mut self, value: u64) -> Outcome
        requires { self.old.machine_state.script_state ≡ Free }
        ensures exact { self.new ≡ by_row self.old (row_of self.old.variant self.old.machine_state value) value }
        ensures outcome { result ≡ unless_changed (row_of self.old.variant self.old.machine_state value)
            (plain_outcome self.old.machine_state value) }
    {
        match self.row(value) {
            Some((to, deviation)) => {
                self.go(to, deviation);
                Outcome::SILENT
            }
            None => self.process.feed(value),
        }
    }

    /// Where the next step leads, if it is by a row that the variant changes.
    fn row(&self, value: u64) -> Option<(Stage, Deviation)>
        requires { self.now.machine_state.script_state ≡ Free }
        ensures some { IfSome result (λ r. row_of self.now.variant self.now.machine_state value
            ≡ Some (place_of self.now.machine_state.layout.procs self.now.machine_state.index r.0, r.1)) }
        ensures none { result ≡ None → row_of self.now.variant self.now.machine_state value ≡ None }
    {
        match self.variant {
            Variant::NoLook => weighing_row(&self.process, value),
            Variant::NoTies => tied_row(&self.process, value),
            Variant::Renumber => taken_row(stage_of(&self.process)),
            Variant::ExitOnCrash => inside_row(stage_of(&self.process), value),
            _ => None,
        }
    }

    /// Goes where such a row leads.
    fn go(&mut self, to: Stage, deviation: Deviation)
        requires { self.old.machine_state.script_state ≡ Free }
        ensures { self.new
            ≡ process_led_to self.old (place_of self.old.machine_state.layout.procs self.old.machine_state.index to) deviation }
    {
        match deviation {
            Deviation::Straight => self.process.seam_machine_state(to),
            Deviation::Dropping => {
                machine_state_outside(&mut self.process, to);
                self.deviation = Deviation::Dropping;
            }
            Deviation::Over(number) => {
                machine_state_outside(&mut self.process, to);
                self.deviation = Deviation::Over(number);
            }
        }
    }

    /// Takes a step of a process that scans again and keeps its number. Where no number is left it waits with that one.
    fn scan_again(&mut self, number: u64, value: u64)
        ensures { self.new ≡ over_way self.old number (next_access self.old.machine_state) value }
    {
        let Some(access) = self.process.next() else {
            return;
        };
        match access.kind() {
            Kind::Shut => {
                machine_state_outside(&mut self.process, Stage::waiting(number));
                self.deviation = Deviation::Straight;
            }
            Kind::Take => {
                feed_outside(&mut self.process, value);
                self.deviation = Deviation::Straight;
            }
            _ => {
                feed_outside(&mut self.process, value);
                self.deviation = Deviation::Over(number);
            }
        }
    }
}
