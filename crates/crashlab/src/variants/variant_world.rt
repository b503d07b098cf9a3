//! A world of a variant in memory. Each step is taken on request.

ghost use Rattle.std.specs.Prelude.{◌≡◌, ◌<◌, ◌⊎◌, ℕ, IfOk, IfErr, ◌↔◌, false, length, slice_get, IfSome, IsSome, IsTrue, OnOk, OnErr, IsErrOf, Some, None, vec_len};
ghost use Rattle.rmecore.specs.Machine.{carried_value};
ghost use Rattle.rmecore.specs.Simulated.{cause};
ghost use Rattle.rmeworld.specs.MachineState.{IsSize};
ghost use Rattle.rmeworld.specs.WorldState.{new_refusal};
ghost use Rattle.crashlab.specs.variants.VariantWorlds.{at_rest_from, new_world};
ghost use Rattle.rmecore.specs.declared.refusal.Refusal.TheVariants.{OutOfMemory};

use crate::variants::judge_feed::{MoveOutcome, tell_step};
use crate::variants::variant::Variant;
use crate::variants::variant_memory::VariantMemory;
use crate::variants::variant_process::VariantProcess;
use judge::Judge;
use redomail::{Deed, Layout};
use rmecore::{Access, Happened, Outer, Own, Refusal, Scan};
use rmeworld::memory::{deed_of, load, puts_silently, store};
use rmeworld::size::size_refusal;
use rmeworld::{Answer, Call, DataWords, Image, Machine, Owns, Stepped};
use std::alloc::Global;
use std::marker::Model;

/// A world of a variant: its processes with their private memories, and the words that they share.
#[derive(Debug, Drop)]
pub struct VariantWorld {
    variant: Variant,
    layout: Layout,
    limit: u64,
    words: Vec<Own>,
    cells: Vec<u64>,
    processes: Vec<VariantProcess>,
}

impl Model for VariantWorld {
    ghost use Rattle.crashlab.specs.variants.VariantWorlds.{VariantState, IsVariantConfigured};

    ghost Value = { VariantState };

    ghost view = { λ w. record { variant = w.variant; layout = w.layout; limit = w.limit; words = w.words.items; cells = w.cells.items; processes = w.processes.items } };

    ghost invariant = { λ w. IsVariantConfigured
        (record { variant = w.variant; layout = w.layout; limit = w.limit; words = w.words.items; cells = w.cells.items; processes = w.processes.items }) };
}

/// The processes of a new world of the variant, each at rest.
fn all_at_rest(
    alloc: Global,
    variant: Variant,
    layout: Layout,
    limit: u64,
) -> Result<Vec<VariantProcess>, Refusal>
    requires { IsSize layout }
    ensures rest { IfOk result (λ processes. processes.items ≡ at_rest_from variant layout limit 0 layout.procs) }
    ensures memory { IfErr result (λ e. e ≡ Refusal.OutOfMemory) }
{
    let mut processes = Vec::with_capacity(alloc, layout.procs as usize)?;
    for index in 0..layout.procs {
        processes.push(VariantProcess::new(variant, layout, limit, index))?;
    }
    Ok(processes)
}

impl VariantWorld {
    ghost use Rattle.std.specs.Prelude.{[]};
    ghost use Rattle.crashlab.specs.variants.LockWorlds.{IsLockWorld};

    /// A new world: all words are 0, and all processes at rest. Refused in this order: `BadProcs` (not 1 to 64),
    /// `BadLimit` (not 1 to 2^62), `BadCap` (not 1 to 65,536), `BadWidth` (not 1 to 8), `OutOfMemory`.
    pub fn new(
        alloc: Global,
        variant: Variant,
        procs: u64,
        limit: u64,
        cap: u64,
        width: u64,
    ) -> Result<VariantWorld, Refusal>
        ensures accepted { OnOk result (new_refusal (record { procs = procs; cap = cap; width = width }) limit ≡ None) }
        ensures refused { IfErr result (λ e. new_refusal (record { procs = procs; cap = cap; width = width }) limit ≡ cause e) }
        ensures ok { IfOk result (λ world. world ≡ new_world variant (record { procs = procs; cap = cap; width = width }) limit) }
        ensures lock { IfOk result (λ world. variant ≡ Variant.Right → IsLockWorld world []) }
    {
        let layout = Layout { procs, cap, width };
        if let Some(refusal) = size_refusal(layout, limit) {
            return Err(refusal);
        }
        let words = vec![in alloc; Own::ZEROS; procs as usize]?;
        let cells = vec![in alloc; 0; layout.words() as usize]?;
        let processes = all_at_rest(alloc, variant, layout, limit)?;
        Ok(VariantWorld {
            variant,
            layout,
            limit,
            words,
            cells,
            processes,
        })
    }
}

impl VariantWorld {
    ghost use Rattle.std.specs.Prelude.{List};
    ghost use Rattle.redomail.specs.declared.deed.Deed.{Deed as DeedOf};
    ghost use Rattle.judge.specs.Table.{empty_state};
    ghost use Rattle.judge.specs.Stands.{StandsAfter};
    ghost use Rattle.crashlab.specs.variants.JudgeFeeds.{IsDeedGiven};
    ghost use Rattle.crashlab.specs.variants.VariantWorlds.{start_refusal, variant_after_start, advance_refusal, variant_step_report, variant_after_step, crash_refusal, crash_deed, variant_after_crash};
    ghost use Rattle.crashlab.specs.variants.VariantStands.{IsRightProcess};
    ghost use Rattle.crashlab.specs.variants.VariantWorlds.{machine_state_at};
    ghost use Rattle.rmeworld.specs.WorldSteps.{ScanGoesOn};
    ghost use Rattle.rmeworld.specs.InPlace.{Works};

    /// Starts a call of process p.
    // Inline: one call a start.
    #[inline(always)]
    pub(crate) fn take_start(&mut self, p: u64, call: Call) -> Result<(), Refusal>
        ensures accepted { OnOk result (start_refusal self.old p call ≡ None) }
        ensures refused { IfErr result (λ e. start_refusal self.old p call ≡ Some e) }
        ensures memory { IsErrOf result Refusal.OutOfMemory → ⊥ }
        ensures ok { OnOk result (self.new ≡ variant_after_start self.old p call) }
        ensures err { OnErr result (self.new ≡ self.old) }
    {
        if p >= self.layout.procs {
            return Err(Refusal::NoSuchProcess);
        }
        self.processes[p as usize].start(call)
    }

    /// Takes the next step of process p.
    pub(crate) fn take_step(&mut self, p: u64) -> Result<Stepped, Refusal>
        ensures accepted { OnOk result (advance_refusal self.old p ≡ None) }
        ensures refused { IfErr result (λ e. advance_refusal self.old p ≡ Some e) }
        ensures memory { IsErrOf result Refusal.OutOfMemory → ⊥ }
        ensures reports { IfOk result (λ s. s ≡ variant_step_report self.old p) }
        ensures ok { OnOk result (self.new ≡ variant_after_step self.old p) }
        ensures err { OnErr result (self.new ≡ self.old) }
    {
        if p >= self.layout.procs {
            return Err(Refusal::NoSuchProcess);
        }
        let Some(access) = self.processes[p as usize].next() else {
            return Err(Refusal::NothingToDo);
        };
        let found = load(&self.words, &self.cells, access.word());
        let outcome = self.processes[p as usize].feed(found);
        let deed = deed_of(self.layout, p, &self.cells, access, outcome.progress.outer);
        store(&mut self.words, &mut self.cells, access);
        Ok(Stepped {
            happened: Happened {
                kind: access.kind(),
                word: access.word(),
                value: carried_by(access, found),
                outer: outcome.progress.outer,
                done: outcome.progress.done,
            },
            deed,
            answer: outcome.answer,
        })
    }

    /// Takes the next step of process p, as `take_step` does, and gives the judge of a hunt its deed, if it has one.
    // Inline: one call a step.
    #[inline(always)]
    pub(crate) fn step_before(
        &mut self,
        judge: &mut Judge,
        p: u64,
    ) -> Result<(MoveOutcome, Option<Answer>), Refusal>
        ensures accepted { OnOk result (advance_refusal self.old p ≡ None) }
        ensures refused { IfErr result (λ e. advance_refusal self.old p ≡ Some e) }
        ensures reports { (history : List DeedOf) → StandsAfter (empty_state 3 64) history judge.old
            → IfOk result (λ r. IsDeedGiven history (variant_step_report self.old p).deed judge.new r.0) }
        ensures answer { IfOk result (λ r. r.1 ≡ (variant_step_report self.old p).answer) }
        ensures ok { OnOk result (self.new ≡ variant_after_step self.old p) }
        ensures err { OnErr result ((self.new ≡ self.old) × (judge.new ≡ judge.old)) }
    {
        if p >= self.layout.procs {
            return Err(Refusal::NoSuchProcess);
        }
        let Some(access) = self.processes[p as usize].next() else {
            return Err(Refusal::NothingToDo);
        };
        let found = load(&self.words, &self.cells, access.word());
        let outcome = self.processes[p as usize].feed(found);
        let outer = &outcome.progress.outer;
        let made = tell_step(judge, &self.layout, p, &self.cells, &access, outer);
        store(&mut self.words, &mut self.cells, access);
        Ok((made, outcome.answer))
    }

    /// The next step of process p, where it is one of a job. None unless the process is of the lock, with nothing changed.
    // Inline: one call a step.
    #[inline(always)]
    pub(crate) fn job_next(&self, p: u64) -> Option<Access>
        ensures below { IfSome result (λ a. p < self.now.layout.procs) }
        ensures plain { IfSome result (λ a. IsRightProcess (machine_state_at self.now.processes p)) }
        ensures works { IfSome result (Works (machine_state_at self.now.processes p).machine_state) }
    {
        if p >= self.layout.procs {
            return None;
        }
        self.processes[p as usize].job_next()
    }

    /// Takes such a step, and gives the judge of a hunt its deed, if it has one.
    // Inline: one call a step.
    #[inline(always)]
    pub(crate) fn job_on(
        &mut self,
        judge: &mut Judge,
        p: u64,
        access: Access,
    ) -> (MoveOutcome, Option<Answer>)
        requires below { p < self.old.layout.procs }
        requires plain { IsRightProcess (machine_state_at self.old.processes p) }
        requires works { Works (machine_state_at self.old.processes p).machine_state access }
        ensures accepted { advance_refusal self.old p ≡ None }
        ensures reports { (history : List DeedOf) → StandsAfter (empty_state 3 64) history judge.old
            → IsDeedGiven history (variant_step_report self.old p).deed judge.new result.0 }
        ensures answer { result.1 ≡ (variant_step_report self.old p).answer }
        ensures ok { self.new ≡ variant_after_step self.old p }
    {
        let found = load(&self.words, &self.cells, access.word());
        let process = &mut self.processes[p as usize];
        let answer = process.job_on(found);
        let made = tell_step(judge, &self.layout, p, &self.cells, &access, &None);
        store(&mut self.words, &mut self.cells, access);
        (made, answer)
    }

    /// Takes the next step of process p where it is seen at once to be silent: it has no deed and ends no call. Answers true
    /// then. Leaves any other step to `take_step`, and answers false.
    // Inline: one call a step.
    #[inline(always)]
    pub(crate) fn take_silent_step(&mut self, p: u64) -> bool
        ensures accepted { IsTrue result → advance_refusal self.old p ≡ None }
        ensures silent { IsTrue result
            → ((variant_step_report self.old p).deed ≡ None) × ((variant_step_report self.old p).answer ≡ None) }
        ensures ok { IsTrue result → self.new ≡ variant_after_step self.old p }
        ensures same { result ≡ false → self.new ≡ self.old }
    {
        match self.scan(p) {
            Some((scan, access)) => {
                self.scan_on(p, scan, access);
                true
            }
            None => self.step_unobserved(p),
        }
    }

    /// As `take_silent_step`, for a step that is none of a scan.
    // Inline: one call a step.
    #[inline(always)]
    fn step_unobserved(&mut self, p: u64) -> bool
        ensures accepted { IsTrue result → advance_refusal self.old p ≡ None }
        ensures silent { IsTrue result
            → ((variant_step_report self.old p).deed ≡ None) × ((variant_step_report self.old p).answer ≡ None) }
        ensures ok { IsTrue result → self.new ≡ variant_after_step self.old p }
        ensures same { result ≡ false → self.new ≡ self.old }
    {
        if p >= self.layout.procs {
            return false;
        }
        let Some(access) = self.processes[p as usize].next_silently() else {
            return false;
        };
        if !puts_silently(access) {
            return false;
        }
        let found = load(&self.words, &self.cells, access.word());
        if !self.processes[p as usize].feed_silently(found) {
            return false;
        }
        store(&mut self.words, &mut self.cells, access);
        true
    }

    /// The scan that process p is in, and its next load. None unless the process is one of the lock, with nothing changed.
    // Inline: one call a step.
    #[inline(always)]
    fn scan(&self, p: u64) -> Option<(Scan, Access)>
        ensures below { IfSome result (λ r. p < self.now.layout.procs) }
        ensures plain { IfSome result (λ r. IsRightProcess (machine_state_at self.now.processes p)) }
        ensures goes_on { IfSome result (λ r. ScanGoesOn (machine_state_at self.now.processes p).machine_state r.0 r.1) }
    {
        if p >= self.layout.procs {
            return None;
        }
        self.processes[p as usize].scan()
    }

    /// Takes the next step of such a scan.
    // Inline: one call a step.
    #[inline(always)]
    fn scan_on(&mut self, p: u64, scan: Scan, access: Access)
        requires below { p < self.old.layout.procs }
        requires plain { IsRightProcess (machine_state_at self.old.processes p) }
        requires goes_on { ScanGoesOn (machine_state_at self.old.processes p).machine_state scan access }
        ensures accepted { advance_refusal self.old p ≡ None }
        ensures silent { ((variant_step_report self.old p).deed ≡ None) × ((variant_step_report self.old p).answer ≡ None) }
        ensures ok { self.new ≡ variant_after_step self.old p }
    {
        let found = load(&self.words, &self.cells, access.word());
        let process = &mut self.processes[p as usize];
        process.scan_on(scan, found);
    }

    /// Crashes process p.
    // Inline: one call a crash.
    #[inline(always)]
    pub(crate) fn take_crash(&mut self, p: u64) -> Result<Deed, Refusal>
        ensures accepted { OnOk result (crash_refusal self.old p ≡ None) }
        ensures refused { IfErr result (λ e. crash_refusal self.old p ≡ Some e) }
        ensures memory { IsErrOf result Refusal.OutOfMemory → ⊥ }
        ensures reports { IfOk result (λ d. d ≡ crash_deed p) }
        ensures ok { OnOk result (self.new ≡ variant_after_crash self.old p) }
        ensures err { OnErr result (self.new ≡ self.old) }
    {
        if p >= self.layout.procs {
            return Err(Refusal::NoSuchProcess);
        }
        self.processes[p as usize].crash();
        Ok(Deed::Outer(Outer::Crash(p)))
    }
}

impl VariantWorld {
    ghost use Rattle.redomail.specs.Layout.{size};
    ghost use Rattle.rmecore.specs.Machine.{place_of};
    ghost use Rattle.rmeworld.specs.ScriptStates.{HoldsJob};
    ghost use Rattle.crashlab.specs.variants.VariantSeams.{with_variant_memory, with_process};
    ghost use Rattle.crashlab.specs.variants.VariantWorlds.{machine_state_at, next_of};

    /// The sizes of the world.
    pub fn layout(&self) -> Layout
        ensures layout { result ≡ self.now.layout }
        ensures size { IsSize result }
    {
        self.layout
    }

    /// The next step of process p. None where there is no process p, or no step of it.
    pub fn next_access(&self, p: u64) -> Option<Access>
        ensures { result ≡ next_of self.now p }
    {
        if p >= self.layout.procs {
            return None;
        }
        self.processes[p as usize].next()
    }

    /// For this workspace alone, which saves and restores worlds: the data words.
    pub fn seam_cells(&self) -> &[u64]
        ensures { result.now ≡ self.now.cells }
    {
        self.cells.as_slice()
    }

    /// As `seam_cells`: the lock words and the private memory of process p. None where there is no process p.
    pub fn seam_process(&self, p: u64) -> Option<(Own, VariantMemory)>
        ensures some { IsSome result ↔ (p < self.now.layout.procs) }
        ensures own { IfSome result (λ r. slice_get self.now.words p ≡ Some r.0) }
        ensures memory { IfSome result (λ r. with_variant_memory (machine_state_at self.now.processes p) r.1
            ≡ machine_state_at self.now.processes p) }
    {
        if p >= self.layout.procs {
            return None;
        }
        let memory = self.processes[p as usize].seam_memory();
        Some((self.words[p as usize], memory))
    }

    /// As `seam_cells`: sets the data words, and takes no memory.
    /// Answers false, and changes nothing, where their number is not the one of the sizes.
    pub fn seam_set_cells(&mut self, cells: &[u64]) -> bool
        ensures set { IsTrue result → self.new ≡ record self.old { cells = cells.now } }
        ensures same { result ≡ false → self.new ≡ self.old }
        ensures length { IsTrue result ↔ (length cells.now ≡ size self.old.layout) }
    {
        if cells.len() != self.cells.len() {
            return false;
        }
        self.cells.copy_from_slice(cells);
        true
    }

    /// As `seam_process`: sets the lock words and the private memory of process p. Answers false, and changes nothing, where
    /// there is no process p, or where it can't have that memory.
    pub fn seam_set_process(&mut self, p: u64, own: Own, memory: &VariantMemory) -> bool
        ensures set { IsTrue result → self.new ≡ with_process self.old p own memory.now }
        ensures same { result ≡ false → self.new ≡ self.old }
        ensures held { IsTrue result ↔ ((p < self.old.layout.procs)
            × HoldsJob memory.now.process.script_state (place_of self.old.layout.procs p memory.now.process.stage)) }
    {
        if p >= self.layout.procs {
            return false;
        }
        if !self.processes[p as usize].seam_set(memory) {
            return false;
        }
        self.words[p as usize] = own;
        true
    }
}

/// The value of a step: the one that it reads, or the one that it writes.
fn carried_by(access: Access, found: u64) -> u64
    ensures { result ≡ carried_value access found }
{
    match access {
        Access::Load(_, _) => found,
        Access::Store(_, _, value) => value,
    }
}

impl Machine for VariantWorld {
    ghost use Rattle.crashlab.specs.variants.VariantWorlds.{variant_behaviour};

    ghost behaviour = { variant_behaviour };

    fn start(&mut self, p: u64, call: Call) -> Result<(), Refusal> {
        self.take_start(p, call)
    }

    fn advance(&mut self, p: u64) -> Result<Stepped, Refusal> {
        self.take_step(p)
    }

    fn step_silently(&mut self, p: u64) -> bool {
        self.take_silent_step(p)
    }

    fn crash(&mut self, p: u64) -> Result<Deed, Refusal> {
        self.take_crash(p)
    }

    fn image(&self) -> Result<Image, Refusal> {
        Ok(Image {
            cap: self.layout.cap,
            cells: DataWords::new(self.cells.clone()?),
            limit: self.limit,
            lock: Owns::new(self.words.clone()?),
            version: 2,
            width: self.layout.width,
        })
    }
}
