//! One process of a variant, as a machine over its private memory alone: the world's process, with what the variant
//! changes.

ghost use Rattle.std.specs.Prelude.{◌≡◌, ◌<◌, ◌↔◌, false, IsTrue, OnOk, OnErr, IfErr, IsErrOf, IfSome, Some, None};
ghost use Rattle.crashlab.specs.variants.VariantScripts.{raised_count as raised_to};
ghost use Rattle.crashlab.specs.variants.VariantStands.{change_of, is_put};

mod lock_rows;

use crate::variants::change::Change;
use crate::variants::deviation::Deviation;
use crate::variants::variant::Variant;
use crate::variants::variant_memory::VariantMemory;
use lock_rows::script_state_of;
use redomail::Layout;
use redomail::layout::COUNT;
use rmecore::{Access, Kind, Refusal, Scan, Word};
use rmeworld::script_state::ScriptState;
use rmeworld::{Answer, Call, Outcome, Process};
use std::marker::Model;

/// One process of a variant. Its calls take no memory.
#[derive(Debug, Drop)]
pub struct VariantProcess {
    variant: Variant,
    process: Process,
    deviation: Deviation,
    change: Change,
}

impl Model for VariantProcess {
    ghost use Rattle.crashlab.specs.variants.VariantStands.{VariantMachineState};

    ghost Value = { VariantMachineState };

    ghost view = { λ s. record { variant = s.variant; machine_state = s.process; deviation = s.deviation; change = s.change } };
}

impl VariantProcess {
    ghost use Rattle.rmeworld.specs.ProcessState.{Begins, next_process_state};
    ghost use Rattle.rmecore.specs.Machine.{word_of, place_of, at_scan, no_progress};
    ghost use Rattle.rmeworld.specs.WorldSteps.{ScanGoesOn};
    ghost use Rattle.rmeworld.specs.InPlace.{IsWorking, Works};
    ghost use Rattle.rmeworld.specs.declared.script_state.ScriptState.TheVariants.{Free};
    ghost use Rattle.rmeworld.specs.ScriptStates.{HoldsJob};
    ghost use Rattle.crashlab.specs.variants.VariantSeams.{with_variant_memory};
    ghost use Rattle.rmeworld.specs.MachineState.{IsSize, InWords, IsAllowed, StoresOwn, standing, process_state_of, next_access, process_state_after};
    ghost use Rattle.rmeworld.specs.Refused.{start_refusal};
    ghost use Rattle.crashlab.specs.variants.VariantStands.{IsRightProcess, variant_resting, variant_crashed, variant_next_access, variant_stepped, variant_outcome, variant_started};

    /// A process at rest, in a world of these sizes.
    pub fn new(variant: Variant, layout: Layout, limit: u64, index: u64) -> VariantProcess
        requires size { IsSize layout }
        requires below { index < layout.procs }
        ensures { result ≡ variant_resting variant layout limit index }
    {
        VariantProcess {
            variant,
            process: Process::new(layout, limit, index),
            deviation: Deviation::Straight,
            change: Change::Nothing,
        }
    }

    /// Loses the private memory.
    // Inline: one call a crash.
    #[inline(always)]
    pub fn crash(&mut self)
        ensures { self.new ≡ variant_crashed self.old }
    {
        self.process.crash();
        self.deviation = Deviation::Straight;
        self.change = Change::Nothing;
    }

    /// For this workspace alone, which saves and restores states of processes: the private memory.
    pub fn seam_memory(&self) -> VariantMemory
        ensures { with_variant_memory self.now result ≡ self.now }
    {
        VariantMemory {
            process: self.process.seam_memory(),
            deviation: self.deviation,
            change: self.change,
        }
    }

    /// As `seam_memory`: sets the private memory. Answers false, and changes nothing, where the process can't have it.
    pub fn seam_set(&mut self, memory: &VariantMemory) -> bool
        ensures set { IsTrue result → self.new ≡ with_variant_memory self.old memory.now }
        ensures same { result ≡ false → self.new ≡ self.old }
        ensures held { IsTrue result ↔ HoldsJob memory.now.process.script_state
            (place_of self.old.machine_state.layout.procs self.old.machine_state.index memory.now.process.stage) }
    {
        if !self.process.seam_set(&memory.process) {
            return false;
        }
        self.deviation = memory.deviation;
        self.change = memory.change;
        true
    }

    /// The next step, if a call is under way.
    // Inline: one call a step.
    #[inline(always)]
    pub fn next(&self) -> Option<Access>
        ensures next { result ≡ variant_next_access self.now }
        ensures within { IfSome result (λ a. InWords self.now.machine_state.layout.procs (word_of a)) }
        ensures allowed { IsRightProcess self.now → IfSome result (IsAllowed self.now.machine_state) }
        ensures own { IsRightProcess self.now → IfSome result (StoresOwn self.now.machine_state.index) }
    {
        match self.variant {
            Variant::NoLook | Variant::ExitOnCrash | Variant::CountUp => self.next_otherwise(),
            Variant::Right | Variant::NoTies | Variant::Renumber | Variant::LastSkipped => {
                self.process.next()
            }
        }
    }

    /// As `next`, for a variant that may change the step.
    // Apart: wrong variants alone.
    #[inline(never)]
    fn next_otherwise(&self) -> Option<Access>
        ensures next { result ≡ variant_next_access self.now }
        ensures within { IfSome result (λ a. InWords self.now.machine_state.layout.procs (word_of a)) }
        ensures allowed { IsRightProcess self.now → IfSome result (IsAllowed self.now.machine_state) }
        ensures own { IsRightProcess self.now → IfSome result (StoresOwn self.now.machine_state.index) }
    {
        match (self.variant, self.process.next()) {
            (Variant::NoLook, Some(Access::Load(Kind::Look, Word::Choosing(j)))) => {
                Some(Access::Load(Kind::Weigh, Word::Number(j)))
            }
            (Variant::ExitOnCrash, next) => match (self.deviation, script_state_of(&self.process)) {
                (Deviation::Dropping, ScriptState::Free) => {
                    Some(Access::Store(Kind::Drop, Word::Number(self.process.index()), 0))
                }
                _ => next,
            },
            (Variant::CountUp, next) => match (self.change, next) {
                (Change::Counts, Some(Access::Store(Kind::Put, Word::Data(COUNT), _))) => {
                    Some(Access::Load(Kind::Get, Word::Data(COUNT)))
                }
                (Change::Counted(count), Some(Access::Store(Kind::Put, Word::Data(COUNT), _))) => {
                    Some(Access::Store(Kind::Put, Word::Data(COUNT), count))
                }
                (_, next) => next,
            },
            (_, next) => next,
        }
    }

    /// The scan that the process is in, and its next load. None unless the process is one of the lock, with nothing changed.
    // Inline: one call a step.
    #[inline(always)]
    pub(crate) fn scan(&self) -> Option<(Scan, Access)>
        ensures plain { IfSome result (λ r. IsRightProcess self.now) }
        ensures goes_on { IfSome result (λ r. ScanGoesOn self.now.machine_state r.0 r.1) }
    {
        match (self.variant, self.deviation, self.change) {
            (Variant::Right, Deviation::Straight, Change::Nothing) => {}
            _ => return None,
        }
        let (scan, access) = self.process.scan()?;
        match access {
            Access::Load(..) => Some((scan, access)),
            Access::Store(..) => None,
        }
    }

    /// Takes the next step of such a scan, as `feed` does.
    // Inline: one call a step.
    #[inline(always)]
    pub(crate) fn scan_on(&mut self, scan: Scan, value: u64) -> Outcome
        requires plain { IsRightProcess self.old }
        requires free { self.old.machine_state.script_state ≡ Free }
        requires at { at_scan (standing self.old.machine_state) scan ≡ standing self.old.machine_state }
        ensures exact { self.new ≡ variant_stepped self.old value }
        ensures outcome { result ≡ variant_outcome self.old value }
    {
        self.process.scan_on(scan, value)
    }

    /// The next step, where it is likely to be silent. None unless the process is one of the lock, with nothing changed.
    // Inline: one call a step.
    #[inline(always)]
    pub(crate) fn next_silently(&self) -> Option<Access>
        ensures plain { IfSome result (λ a. IsRightProcess self.now) }
        ensures next { IfSome result (λ a. variant_next_access self.now ≡ Some a) }
        ensures within { IfSome result (λ a. InWords self.now.machine_state.layout.procs (word_of a)) }
    {
        match (self.variant, self.deviation, self.change) {
            (Variant::Right, Deviation::Straight, Change::Nothing) => self.process.next_silently(),
            _ => None,
        }
    }

    /// Takes the next step of such a process, with the value that it read, where it is seen at once to be silent. Answers
    /// true then. Else it answers false, and changes nothing.
    // Inline: one call a step.
    #[inline(always)]
    pub(crate) fn feed_silently(&mut self, value: u64) -> bool
        requires plain { IsRightProcess self.old }
        ensures exact { IsTrue result → self.new ≡ variant_stepped self.old value }
        ensures silent { IsTrue result → ((variant_outcome self.old value).progress.outer ≡ None)
            × ((variant_outcome self.old value).answer ≡ None) }
        ensures same { result ≡ false → self.new ≡ self.old }
    {
        match self.process.feed_silently(value) {
            Some(_) => true,
            None => false,
        }
    }

    /// The next step, where it is one of a job. None unless the process is one of the lock, with nothing changed.
    // Inline: one call a step.
    #[inline(always)]
    pub(crate) fn job_next(&self) -> Option<Access>
        ensures plain { IfSome result (λ a. IsRightProcess self.now) }
        ensures works { IfSome result (Works self.now.machine_state) }
    {
        match (self.variant, self.deviation, self.change) {
            (Variant::Right, Deviation::Straight, Change::Nothing) => self.process.job_next(),
            _ => None,
        }
    }

    /// Takes the next step of such a job, as `feed` does. It is silent but for its answer, so only that is answered.
    // Inline: one call a step.
    #[inline(always)]
    pub(crate) fn job_on(&mut self, value: u64) -> Option<Answer>
        requires plain { IsRightProcess self.old }
        requires working { IsWorking self.old.machine_state.script_state }
        ensures exact { self.new ≡ variant_stepped self.old value }
        ensures outcome { variant_outcome self.old value ≡ record { progress = no_progress; answer = result } }
    {
        self.process.job_on(value)
    }

    /// Starts a call, as the world's process does.
    // Inline: one call a start.
    #[inline(always)]
    pub fn start(&mut self, call: Call) -> Result<(), Refusal>
        ensures accepted { OnOk result (start_refusal self.old.machine_state.layout (process_state_of self.old.machine_state) call
            ≡ None) }
        ensures refused { IfErr result (λ e. start_refusal self.old.machine_state.layout
            (process_state_of self.old.machine_state) call ≡ Some e) }
        ensures memory { IsErrOf result Refusal.OutOfMemory → ⊥ }
        ensures ok { OnOk result (self.new ≡ variant_started self.old call) }
        ensures process_state { OnOk result (next_process_state self.old.machine_state.layout self.old.machine_state.limit
            (process_state_of self.old.machine_state) (Begins self.old.machine_state.index call)
            ≡ Some (process_state_of self.new.machine_state)) }
        ensures err { OnErr result (self.new ≡ self.old) }
    {
        let change = change_by(self.variant, &call);
        if let Call::Lock = call {
            if self.process.start_lock() {
                self.change = change;
                return Ok(());
            }
        }
        self.process.start(call)?;
        self.change = change;
        Ok(())
    }

    /// Takes the next step, with the value that it read. A step that stores ignores the value.
    /// Where there is no step nothing changes.
    // Inline: one call a step.
    #[inline(always)]
    pub fn feed(&mut self, value: u64) -> Outcome
        ensures exact { self.new ≡ variant_stepped self.old value }
        ensures outcome { result ≡ variant_outcome self.old value }
        ensures plain { IsRightProcess self.old → process_state_of self.new.machine_state
            ≡ process_state_after self.old.machine_state (next_access self.old.machine_state) value }
    {
        match (self.variant, self.process.stage()) {
            (Variant::Right, Some(_)) => self.process.lock_on(value),
            _ => self.feed_otherwise(value),
        }
    }

    /// As `feed`, for any variant and any part of a call.
    // Apart: few steps come here.
    #[inline(never)]
    fn feed_otherwise(&mut self, value: u64) -> Outcome
        ensures exact { self.new ≡ variant_stepped self.old value }
        ensures outcome { result ≡ variant_outcome self.old value }
        ensures plain { IsRightProcess self.old → process_state_of self.new.machine_state
            ≡ process_state_after self.old.machine_state (next_access self.old.machine_state) value }
    {
        match self.variant {
            Variant::Right => self.process.feed(value),
            Variant::NoLook => self.feed_by_rows(value),
            Variant::NoTies => self.feed_by_rows(value),
            Variant::Renumber => self.feed_by_rows(value),
            Variant::ExitOnCrash => self.feed_by_rows(value),
            Variant::CountUp => self.count_up(value),
            Variant::LastSkipped => self.leave_out(value),
        }
    }
}

impl VariantProcess {
    ghost use Rattle.crashlab.specs.variants.VariantStands.{counted_up, left_out, plain_outcome, counting_outcome, leaving_outcome};

    /// Takes a step of a variant whose repair counts up from the count that it reads.
    fn count_up(&mut self, value: u64) -> Outcome
        ensures exact { self.new ≡ counted_up self.old self.old.change value }
        ensures outcome { result ≡ counting_outcome self.old self.old.change value }
    {
        if self.change != Change::Counts {
            self.change = Change::Nothing;
            return self.process.feed(value);
        }
        if puts(self.process.next(), COUNT) {
            self.change = Change::Counted(raised_count(self.process.layout().cap, value));
            return Outcome::SILENT;
        }
        let outcome = self.process.feed(value);
        if outcome.answer.is_some() {
            self.change = Change::Nothing;
        }
        outcome
    }

    /// Takes a step of a variant whose repair leaves out the sender's last number.
    fn leave_out(&mut self, value: u64) -> Outcome
        ensures exact { self.new ≡ left_out self.old self.old.change value }
        ensures outcome { result ≡ leaving_outcome self.old self.old.change value }
    {
        if self.change != Change::LeavesOut {
            self.change = Change::Nothing;
            return self.process.feed(value);
        }
        let outcome = self.process.feed(value);
        if puts(
            self.process.next(),
            self.process.layout().last(self.process.index()),
        ) {
            self.change = Change::Nothing;
            return self.process.feed(0);
        }
        if outcome.answer.is_some() {
            self.change = Change::Nothing;
        }
        outcome
    }
}

/// One more than the count that was read, or the same at the capacity.
fn raised_count(cap: u64, count: u64) -> u64
    ensures { result ≡ raised_to cap count }
{
    if count == cap {
        count
    } else {
        count.saturating_add(1)
    }
}

/// What the variant changes of the script of a call.
fn change_by(variant: Variant, call: &Call) -> Change
    ensures { result ≡ change_of variant call.now }
{
    match (variant, *call) {
        (Variant::CountUp, Call::Consistent) => Change::Counts,
        (Variant::LastSkipped, Call::Consistent) => Change::LeavesOut,
        _ => Change::Nothing,
    }
}

/// Whether the step is a put of data word i.
fn puts(access: Option<Access>, i: u64) -> bool
    ensures { result ≡ is_put i access }
{
    match access {
        Some(Access::Store(Kind::Put, Word::Data(j), _)) => j == i,
        _ => false,
    }
}
