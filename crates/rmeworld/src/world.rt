//! A whole world in memory, one step at a time.

ghost use Rattle.std.specs.Prelude.{◌≡◌, ◌<◌, ◌≤◌, ◌⊎◌, ◌++◌, ℕ, map, is_some, true, IfOk, IfErr, OnOk, OnErr, IsErrOf, Some, None, vec_len, slice_index_or, slice_get};
ghost use Rattle.rmecore.specs.Machine.{word_of};
ghost use Rattle.rmecore.specs.Simulated.{cause, new_tally};
ghost use Rattle.redomail.specs.Layout.{words_of};
ghost use Rattle.rmeworld.specs.ProcessState.{Begins, Falls};
ghost use Rattle.rmeworld.specs.MachineState.{IsSize, IsLeast, InWords, next_access, outcome, resting, machine_after_crash};
ghost use Rattle.rmeworld.specs.World.{reading};
ghost use Rattle.rmeworld.specs.WorldState.{absent_machine, machine_state_at, process_state_at, global_state_of, Takes, world_event_of, ChoosesLeast, new_world, new_refusal, image_world};

mod silent;

use crate::call::Call;
use crate::cells::DataWords;
use crate::history::{make_room, note};
use crate::image::Image;
use crate::image::rules::{first_rule, layout};
use crate::machine::Machine;
use crate::memory::{deed_of, load, store};
use crate::owns::Owns;
use crate::process::Process;
use crate::size::size_refusal;
use crate::stepped::{Prospect, Stepped};
use redomail::{Deed, Layout};
use rmecore::{Access, Outer, Own, Refusal, Scan, Tally};
use std::alloc::Global;
use std::fmt;
use std::marker::Model;

/// All processes with their private memories, the words that they share, and the deeds done so far.
#[derive(Drop)]
pub struct World {
    layout: Layout,
    limit: u64,
    words: Vec<Own>,
    cells: Vec<u64>,
    processes: Vec<Process>,
    tallies: Vec<Tally>,
    history: Vec<Deed>,
}

impl fmt::Debug for World {
    fn fmt<W: fmt::Write>(&self, f: &mut fmt::Formatter<W>) -> fmt::Result {
        f.write_str("World")
    }
}

impl Model for World {
    ghost use Rattle.rmeworld.specs.WorldState.{WorldState};
    ghost use Rattle.rmeworld.specs.Reached.{IsWorld};

    ghost Value = { WorldState };

    ghost view = { λ w. record { layout = w.layout; limit = w.limit; words = w.words.items; cells = w.cells.items; processes = w.processes.items; tallies = w.tallies.items; history = w.history.items } };

    ghost invariant = { λ w. IsWorld (record { layout = w.layout; limit = w.limit; words = w.words.items; cells = w.cells.items; processes = w.processes.items; tallies = w.tallies.items; history = w.history.items }) };
}

/// The processes of a new world, each at rest with nothing under way.
fn all_at_rest(alloc: Global, layout: Layout, limit: u64) -> Result<Vec<Process>, Refusal>
    requires { IsSize layout }
    ensures each { IfOk result (λ processes. (p : ℕ) → p < layout.procs
        → slice_index_or processes.items p absent_machine ≡ resting layout limit p) }
    ensures length { IfOk result (λ processes. vec_len processes ≡ layout.procs) }
    ensures memory { IfErr result (λ e. e ≡ Refusal.OutOfMemory) }
{
    let mut processes = Vec::with_capacity(alloc, layout.procs as usize)?;
    for index in 0..layout.procs {
        processes.push_reserved(Process::new(layout, limit, index));
    }
    Ok(processes)
}

/// The processes of a world that goes on from an image: each has crashed.
fn all_crashed(alloc: Global, layout: Layout, limit: u64) -> Result<Vec<Process>, Refusal>
    requires { IsSize layout }
    ensures each { IfOk result (λ processes. (p : ℕ) → p < layout.procs
        → slice_index_or processes.items p absent_machine ≡ machine_after_crash (resting layout limit p)) }
    ensures length { IfOk result (λ processes. vec_len processes ≡ layout.procs) }
    ensures memory { IfErr result (λ e. e ≡ Refusal.OutOfMemory) }
{
    let mut processes = Vec::with_capacity(alloc, layout.procs as usize)?;
    for index in 0..layout.procs {
        let mut process = Process::new(layout, limit, index);
        process.crash();
        processes.push_reserved(process);
    }
    Ok(processes)
}

/// The counts of each process before its first call.
fn all_unstarted(alloc: Global, words: &[Own]) -> Result<Vec<Tally>, Refusal>
    ensures ok { IfOk result (λ tallies. tallies.items ≡ map new_tally words.now) }
    ensures memory { IfErr result (λ e. e ≡ Refusal.OutOfMemory) }
{
    let mut tallies = Vec::with_capacity(alloc, words.len())?;
    for own in words {
        tallies.push_reserved(Tally {
            steps: 0,
            blocked: 0,
            began: *own,
        });
    }
    Ok(tallies)
}

impl World {
    ghost use Rattle.std.specs.Prelude.{◌+◌, false, IfSome, IsTrue};
    ghost use Rattle.rmecore.specs.Paid.{is_glance};
    ghost use Rattle.rmecore.specs.Simulated.{own_at, tally_at};
    ghost use Rattle.rmecore.specs.Tallied.{IsExact, IsRereading};
    ghost use Rattle.rmeworld.specs.OwnSteps.{most_steps};
    ghost use Rattle.rmeworld.specs.Tallied.{HasTaken, IsTaking};
    ghost use Rattle.rmeworld.specs.UnderWay.{call_at};
    ghost use Rattle.rmeworld.specs.Reached.{IsReached, IsLegalHistory};
    ghost use Rattle.rmeworld.specs.ImageRules.{IsLawfulImage};
    ghost use Rattle.rmeworld.specs.ImageStart.{IsUnstarted};
    ghost use Rattle.rmeworld.specs.Replayed.{start_refusal, world_after_start, advance_refusal, world_step_report, silent_step, world_after_step, crash_refusal, crash_deed, world_after_crash as world_crashed, image_of};
    ghost use Rattle.rmeworld.specs.WorldSteps.{Advances, ScanGoesOn};

    /// A new world: all words 0, all processes at rest. `limit` is the greatest number that a process may take, `cap` the
    /// mailbox's capacity in messages, `width` the number of words in a message's value.
    ///
    /// The first cause in this order is the answer: `BadProcs`, `BadLimit`, `BadCap`, `BadWidth` (a size outside its
    /// limits), `OutOfMemory`.
    pub fn new(
        alloc: Global,
        procs: u64,
        limit: u64,
        cap: u64,
        width: u64,
    ) -> Result<World, Refusal>
        ensures accepted { OnOk result (new_refusal (record { procs = procs; cap = cap; width = width }) limit ≡ None) }
        ensures refused { IfErr result (λ e. new_refusal (record { procs = procs; cap = cap; width = width }) limit ≡ cause e) }
        ensures ok { IfOk result (λ world. world ≡ new_world (record { procs = procs; cap = cap; width = width }) limit) }
    {
        let layout = Layout { procs, cap, width };
        if let Some(refusal) = size_refusal(layout, limit) {
            return Err(refusal);
        }
        let words = vec![in alloc; Own::ZEROS; procs as usize]?;
        let cells = vec![in alloc; 0; layout.words() as usize]?;
        let tallies = vec![in alloc; Tally::UNSTARTED; procs as usize]?;
        let processes = all_at_rest(alloc, layout, limit)?;
        Ok(World {
            layout,
            limit,
            words,
            cells,
            processes,
            tallies,
            history: Vec::new(alloc),
        })
    }

    /// The world of an image: its words, with every process crashed. The history begins there. `BadImage` names the first
    /// rule that the image breaks. `OutOfMemory`: an allocation failed.
    pub fn from_image(alloc: Global, image: &Image) -> Result<World, Refusal>
        ensures ok { IfOk result (λ world. world ≡ image_world image.now) }
        ensures lawful { OnOk result (IsLawfulImage image.now) }
        ensures refused { IfErr result (IsUnstarted image.now) }
    {
        if let Some(rule) = first_rule(image) {
            return Err(Refusal::BadImage { rule });
        }
        World::of_lawful(alloc, image)
    }

    /// The world of a lawful image.
    fn of_lawful(alloc: Global, image: &Image) -> Result<World, Refusal>
        requires { IsLawfulImage image.now }
        ensures ok { IfOk result (λ world. world ≡ image_world image.now) }
        ensures err { IfErr result (λ e. e ≡ Refusal.OutOfMemory) }
    {
        let layout = layout(image);
        let words = Vec::from_slice(alloc, image.lock.as_slice())?;
        let cells = Vec::from_slice(alloc, image.cells.as_slice())?;
        let tallies = all_unstarted(alloc, image.lock.as_slice())?;
        let processes = all_crashed(alloc, layout, image.limit)?;
        Ok(World {
            layout,
            limit: image.limit,
            words,
            cells,
            processes,
            tallies,
            history: Vec::new(alloc),
        })
    }

    /// The next step of a process, with the current value of its word.
    // Inline: one call a step.
    #[inline(always)]
    fn prospect(&self, p: u64) -> Result<Prospect, Refusal>
        ensures accepted { OnOk result (advance_refusal self.now p ≡ None) }
        ensures refused { IfErr result (λ e. advance_refusal self.now p ≡ Some e) }
        ensures named { IsErrOf result Refusal.OutOfMemory → ⊥ }
        ensures below { OnOk result (p < self.now.layout.procs) }
        ensures access { IfOk result (λ step. next_access (machine_state_at self.now.processes p) ≡ Some step.access) }
        ensures least { IfOk result (λ step. IsLeast (machine_state_at self.now.processes p) step.access) }
        ensures within { IfOk result (λ step. InWords self.now.layout.procs (word_of step.access)) }
        ensures found { IfOk result (λ step. step.found ≡ reading (global_state_of self.now) (word_of step.access)) }
    {
        if p >= self.layout.procs {
            return Err(Refusal::NoSuchProcess);
        }
        let Some(access) = self.processes[p as usize].next() else {
            return Err(Refusal::NothingToDo);
        };
        let found = load(&self.words, &self.cells, access.word());
        Ok(Prospect { access, found })
    }

    /// Takes the next step of process `p`. `NothingToDo`: no call of the process is under way. `OutOfMemory`: nothing
    /// changed, and the step can be tried again. A step that is no deed does not allocate.
    // Inline: one call a step.
    #[inline(always)]
    pub fn advance(&mut self, p: u64) -> Result<Stepped, Refusal>
        ensures accepted { OnOk result (advance_refusal self.old p ≡ None) }
        ensures refused { IfErr result (λ e. (e ≡ Refusal.OutOfMemory) ⊎ (advance_refusal self.old p ≡ Some e)) }
        ensures memory { IsErrOf result Refusal.OutOfMemory → (advance_refusal self.old p ≡ None)
            × (is_some (world_step_report self.old p).deed ≡ true) }
        ensures step { IfOk result (λ s. Takes self.old (world_event_of p s.happened) self.new) }
        ensures kind { IfOk result (λ s. is_glance s.happened.kind ≡ false) }
        ensures least { IfOk result (λ s. ChoosesLeast self.old p s.happened) }
        ensures reports { IfOk result (λ s. s ≡ world_step_report self.old p) }
        ensures ok { OnOk result (self.new ≡ world_after_step self.old p) }
        ensures taken { IfOk result (λ s. IfSome s.answer (λ a. IsExact (tally_at self.new.tallies p)
            → HasTaken self.old.layout (process_state_at self.old.processes p) (tally_at self.new.tallies p) a)) }
        ensures err { OnErr result (self.new ≡ self.old) }
    {
        let step = self.prospect(p)?;
        let layout = self.layout;
        let process = &self.processes[p as usize];
        make_room(
            &mut self.history,
            process,
            &self.cells,
            step.access,
            step.found,
        )?;
        let outcome = self.processes[p as usize].feed(step.found);
        let outer = outcome.progress.outer;
        let deed = deed_of(layout, p, &self.cells, step.access, outer);
        store(&mut self.words, &mut self.cells, step.access);
        note(&mut self.history, &deed);
        self.tallies[p as usize].count(outcome.progress.blocked);
        Ok(step.step_report(outcome, deed))
    }

    /// Takes the next step of process `p` if it is silent and cheap to see as such: each step of a scan, the other silent
    /// steps of the lock's part except clearing the mark, and the silent steps of an append. True: the step was taken.
    /// False: nothing changed, and `advance` has to take it.
    // Inline: one call a step.
    #[inline(always)]
    pub fn step_silently(&mut self, p: u64) -> bool
        ensures accepted { IsTrue result → advance_refusal self.old p ≡ None }
        ensures silent { IsTrue result
            → ((world_step_report self.old p).deed ≡ None) × ((world_step_report self.old p).answer ≡ None) }
        ensures ok { IsTrue result → self.new ≡ world_after_step self.old p }
        ensures same { result ≡ false → self.new ≡ self.old }
    {
        match self.scan(p) {
            Some((scan, access)) => {
                self.scan_on(p, scan, access);
                true
            }
            None => self.step_unobserved(p),
        }
    }

    /// The scan in progress of process `p`, if it has one, and its next load.
    fn scan(&self, p: u64) -> Option<(Scan, Access)>
        ensures below { IfSome result (λ r. p < self.now.layout.procs) }
        ensures goes_on { IfSome result (λ r. ScanGoesOn (machine_state_at self.now.processes p) r.0 r.1) }
    {
        if p >= self.layout.procs {
            return None;
        }
        let (scan, access) = self.processes[p as usize].scan()?;
        match access {
            Access::Load(..) => Some((scan, access)),
            Access::Store(..) => None,
        }
    }

    /// Takes the next step of a scan. It is a load, and silent. The result is the value that was read.
    // Inline: one call a scan's step.
    #[inline(always)]
    fn scan_on(&mut self, p: u64, scan: Scan, access: Access) -> u64
        requires below { p < self.old.layout.procs }
        requires goes_on { ScanGoesOn (machine_state_at self.old.processes p) scan access }
        ensures advances { Advances self.old p (world_step_report self.old p) self.new }
        ensures silent { world_step_report self.old p ≡ silent_step access result }
    {
        let found = load(&self.words, &self.cells, access.word());
        let scanned = self.processes[p as usize].scan_on(scan, found);
        self.tallies[p as usize].count(scanned.progress.blocked);
        found
    }

    /// Crashes process `p`: it loses its private memory and its call under way. `OutOfMemory`: the history could not grow,
    /// and nothing changed.
    pub fn crash(&mut self, p: u64) -> Result<Deed, Refusal>
        ensures accepted { OnOk result (crash_refusal self.old p ≡ None) }
        ensures refused { IfErr result (λ e. (e ≡ Refusal.OutOfMemory) ⊎ (crash_refusal self.old p ≡ Some e)) }
        ensures memory { IsErrOf result Refusal.OutOfMemory → crash_refusal self.old p ≡ None }
        ensures crash { OnOk result (Takes self.old (Falls p) self.new) }
        ensures reports { IfOk result (λ d. d ≡ crash_deed p) }
        ensures ok { OnOk result (self.new ≡ world_crashed self.old p) }
        ensures err { OnErr result (self.new ≡ self.old) }
    {
        if p >= self.layout.procs {
            return Err(Refusal::NoSuchProcess);
        }
        self.history.push(Deed::Outer(Outer::Crash(p)))?;
        self.processes[p as usize].crash();
        Ok(Deed::Outer(Outer::Crash(p)))
    }

    /// Starts a call of process `p`. It does not allocate. The refusals are `NoSuchProcess` and those of `Process::start`.
    pub fn start(&mut self, p: u64, call: Call) -> Result<(), Refusal>
        ensures accepted { OnOk result (start_refusal self.old p call ≡ None) }
        ensures refused { IfErr result (λ e. start_refusal self.old p call ≡ Some e) }
        ensures memory { IsErrOf result Refusal.OutOfMemory → ⊥ }
        ensures start { OnOk result (Takes self.old (Begins p call) self.new) }
        ensures ok { OnOk result (self.new ≡ world_after_start self.old p call) }
        ensures err { OnErr result (self.new ≡ self.old) }
    {
        if p >= self.layout.procs {
            return Err(Refusal::NoSuchProcess);
        }
        self.processes[p as usize].start(call)?;
        self.tallies[p as usize] = Tally {
            steps: 0,
            blocked: 0,
            began: self.words[p as usize],
        };
        Ok(())
    }

    /// The deeds done so far, in order. They are a legal history, so they have the plain properties.
    pub fn history(&self) -> &[Deed]
        ensures history { result.now ≡ self.now.history }
        ensures legal { IsLegalHistory self.now }
        ensures reached { IsReached self.now.layout self.now.limit (global_state_of self.now) self.now.history }
    {
        &self.history
    }

    /// The current words, with the world's sizes. `OutOfMemory`: an allocation failed.
    pub fn image(&self) -> Result<Image, Refusal>
        ensures ok { IfOk result (λ image. image ≡ image_of self.now) }
        ensures lawful { IfOk result IsLawfulImage }
        ensures err { IfErr result (λ e. e ≡ Refusal.OutOfMemory) }
    {
        let alloc = *self.cells.allocator();
        let cells = DataWords::new(Vec::from_slice(alloc, &self.cells)?);
        let lock = Owns::new(Vec::from_slice(alloc, &self.words)?);
        Ok(Image {
            cap: self.layout.cap,
            cells,
            limit: self.limit,
            lock,
            version: 2,
            width: self.layout.width,
        })
    }

    /// The number of steps of the process's last call, blocked ones included. It saturates at the greatest u64. Before the
    /// first call it is 0. A withdraw is a call of its own.
    pub fn steps(&self, p: u64) -> Result<u64, Refusal>
        ensures ok { IfOk result (λ steps. (p < self.now.layout.procs) × (steps ≡ (tally_at self.now.tallies p).steps)) }
        ensures taking { IsExact (tally_at self.now.tallies p) → p < self.now.layout.procs
            → IsTaking self.now.layout (process_state_at self.now.processes p) (tally_at self.now.tallies p) }
        ensures most { IsExact (tally_at self.now.tallies p) → p < self.now.layout.procs
            → IfSome (call_at (process_state_at self.now.processes p))
            (λ call.
            (tally_at self.now.tallies p).steps < most_steps self.now.layout call + (tally_at self.now.tallies p).blocked) }
        ensures refused { IfErr result (λ e. (self.now.layout.procs ≤ p) × (e ≡ Refusal.NoSuchProcess)) }
    {
        Ok(self.tally(p)?.steps)
    }

    /// The number of blocked looks and weighs among those steps. It saturates at the greatest u64.
    pub fn blocked(&self, p: u64) -> Result<u64, Refusal>
        ensures ok { IfOk result (λ blocked. (p < self.now.layout.procs) × (blocked ≡ (tally_at self.now.tallies p).blocked)) }
        ensures refused { IfErr result (λ e. (self.now.layout.procs ≤ p) × (e ≡ Refusal.NoSuchProcess)) }
    {
        Ok(self.tally(p)?.blocked)
    }

    /// The lock words of a process at the start of its last call.
    pub fn began(&self, p: u64) -> Result<Own, Refusal>
        ensures ok { IfOk result (λ began. (p < self.now.layout.procs) × (began ≡ (tally_at self.now.tallies p).began)) }
        ensures rereading { p < self.now.layout.procs → IsRereading (process_state_at self.now.processes p).lock
            → (tally_at self.now.tallies p).began ≡ own_at self.now.words p }
        ensures refused { IfErr result (λ e. (self.now.layout.procs ≤ p) × (e ≡ Refusal.NoSuchProcess)) }
    {
        Ok(self.tally(p)?.began)
    }

    /// The counts of a process's last call. `NoSuchProcess`: there are fewer processes.
    fn tally(&self, p: u64) -> Result<Tally, Refusal>
        ensures ok { IfOk result (λ tally. (p < self.now.layout.procs) × (tally ≡ tally_at self.now.tallies p)) }
        ensures taking { IsExact (tally_at self.now.tallies p) → p < self.now.layout.procs
            → IsTaking self.now.layout (process_state_at self.now.processes p) (tally_at self.now.tallies p) }
        ensures most { IsExact (tally_at self.now.tallies p) → p < self.now.layout.procs
            → IfSome (call_at (process_state_at self.now.processes p))
            (λ call.
            (tally_at self.now.tallies p).steps < most_steps self.now.layout call + (tally_at self.now.tallies p).blocked) }
        ensures rereading { p < self.now.layout.procs → IsRereading (process_state_at self.now.processes p).lock
            → (tally_at self.now.tallies p).began ≡ own_at self.now.words p }
        ensures refused { IfErr result (λ e. (self.now.layout.procs ≤ p) × (e ≡ Refusal.NoSuchProcess)) }
    {
        match self.tallies.get(p as usize) {
            Some(tally) => Ok(*tally),
            None => Err(Refusal::NoSuchProcess),
        }
    }
}

impl Machine for World {
    ghost use Rattle.rmeworld.specs.Replayed.{world_behaviour};

    ghost behaviour = { world_behaviour };

    fn start(&mut self, p: u64, call: Call) -> Result<(), Refusal> {
        World::start(self, p, call)
    }

    // Inline: passes the call on.
    #[inline(always)]
    fn advance(&mut self, p: u64) -> Result<Stepped, Refusal> {
        World::advance(self, p)
    }

    // Inline: passes the call on.
    #[inline(always)]
    fn step_silently(&mut self, p: u64) -> bool {
        World::step_silently(self, p)
    }

    fn crash(&mut self, p: u64) -> Result<Deed, Refusal> {
        World::crash(self, p)
    }

    fn image(&self) -> Result<Image, Refusal> {
        World::image(self)
    }
}
