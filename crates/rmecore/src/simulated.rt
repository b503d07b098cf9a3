//! The lock's core in simulation: all processes over words in plain memory, one step at a time.

ghost use Rattle.std.specs.Prelude.{◌≡◌, ◌<◌, ◌≤◌, ◌⊎◌, ◌↔◌, IfSome, IfOk, IfErr, OnOk, OnErr, IsErrOf, Ok, Err, Some, None, ℕ, length, vec_len, slice_index_or, slice_set, replicate};
ghost use Rattle.rmecore.specs.Place.{Starts, Crashes, Rest};
ghost use Rattle.rmecore.specs.Machine.{absent_process};
ghost use Rattle.rmecore.specs.World.{at_rest, deed, IsReached};
ghost use Rattle.rmecore.specs.Lawful.{IsLawful};
ghost use Rattle.rmecore.specs.Machine.{answer, is_blocked};

use crate::core_call::CoreCall;
use crate::happened::Happened;
use crate::memory::perform;
use crate::outer::Outer;
use crate::own::Own;
use crate::process::LockProcess;
use crate::refusal::Refusal;
use crate::tally::Tally;
use std::alloc::Global;
use std::fmt;
use std::marker::Model;

/// The greatest number of processes of one lock.
pub const MOST_PROCS: u64 = 64;

/// The greatest limit of numbers, 2^62. So a number plus one always fits in a u64.
pub const MOST_LIMIT: u64 = 4_611_686_018_427_387_904;

/// All processes of a lock and the words that they share. A caller starts a call and then steps it until a step carries its
/// answer. A crash may come before any step. Processes are numbered from 0. Only `new` allocates.
#[derive(Drop)]
pub struct Core {
    procs: u64,
    limit: u64,
    words: Vec<Own>,
    processes: Vec<LockProcess>,
    tallies: Vec<Tally>,
}

impl fmt::Debug for Core {
    fn fmt<W: fmt::Write>(&self, f: &mut fmt::Formatter<W>) -> fmt::Result {
        f.write_str("Core")
    }
}

impl Model for Core {
    ghost use Rattle.rmecore.specs.World.{IsReached};
    ghost use Rattle.rmecore.specs.Simulated.{Simulated, IsConfigured, own_at, place_at};
    ghost use Rattle.rmecore.specs.Tallied.{AllTallied};

    ghost Value = { Simulated };

    ghost view = { λ c. record { procs = c.procs; limit = c.limit; words = c.words.items; processes = c.processes.items; tallies = c.tallies.items } };

    ghost invariant = { λ c. record { configured : IsConfigured c.procs c.limit c.words.items c.processes.items c.tallies.items; reached : IsReached c.procs c.limit (record { words = own_at c.words.items; places = place_at c.processes.items }); tallied : AllTallied c.procs (record { words = own_at c.words.items; places = place_at c.processes.items }) c.tallies.items } };
}

/// The processes of a new lock, each at rest with nothing under way.
fn all_at_rest(alloc: Global, procs: u64, limit: u64) -> Result<Vec<LockProcess>, Refusal>
    ensures length { IfOk result (λ processes. vec_len processes ≡ procs) }
    ensures each { IfOk result (λ processes. (p : ℕ) → p < procs
        → slice_index_or processes.items p absent_process ≡ record { procs = procs; limit = limit; index = p; place = Rest }) }
    ensures memory { IfErr result (λ e. e ≡ Refusal.OutOfMemory) }
{
    let mut processes = Vec::with_capacity(alloc, procs as usize)?;
    for index in 0..procs {
        processes.push(LockProcess::new(procs, limit, index))?;
    }
    Ok(processes)
}

impl Core {
    ghost use Rattle.std.specs.Prelude.{◌+◌, false};
    ghost use Rattle.rmecore.specs.OwnSteps.{most_steps};
    ghost use Rattle.rmecore.specs.Paid.{is_glance};
    ghost use Rattle.rmecore.specs.Refused.{is_idle};
    ghost use Rattle.rmecore.specs.Tallied.{IsExact, HasTaken, IsTaking, IsRereading};
    ghost use Rattle.rmecore.specs.Simulated.{world_of, own_at, place_at, tally_at, Takes, event_of, ChoosesLeast, refusal_at, step_refusal, tally_after_step, new_tally, zeros, new_refusal, cause};

    /// A core with all words 0 and all processes at rest. `limit` is the greatest number that a process may take.
    ///
    /// `BadProcs`: not 1 to 64 processes. `BadLimit`: not 1 to 2^62. `OutOfMemory`: a list of the processes could not be
    /// allocated.
    pub fn new(alloc: Global, procs: u64, limit: u64) -> Result<Core, Refusal>
        ensures accepted { OnOk result (new_refusal procs limit ≡ None) }
        ensures refused { IfErr result (λ e. new_refusal procs limit ≡ cause e) }
        ensures sizes { IfOk result (λ core. (core.procs ≡ procs) × (core.limit ≡ limit)) }
        ensures world { IfOk result (λ core. world_of core ≡ at_rest) }
        ensures tallies { IfOk result (λ core. core.tallies ≡ replicate procs (new_tally zeros)) }
    {
        if procs == 0 || procs > MOST_PROCS {
            return Err(Refusal::BadProcs);
        }
        if limit == 0 || limit > MOST_LIMIT {
            return Err(Refusal::BadLimit);
        }
        let words = vec![in alloc; Own::ZEROS; procs as usize]?;
        let tallies = vec![in alloc; Tally::UNSTARTED; procs as usize]?;
        let processes = all_at_rest(alloc, procs, limit)?;
        Ok(Core {
            procs,
            limit,
            words,
            processes,
            tallies,
        })
    }

    /// Starts a lock, from rest or after a crash. After a crash the process's words decide how it goes on.
    ///
    /// `CallUnderWay`: another call has to end first. `AlreadyIn`: the process is inside.
    pub fn start_lock(&mut self, p: u64) -> Result<(), Refusal>
        ensures accepted { OnOk result (refusal_at self.old p CoreCall.Lock ≡ None) }
        ensures refused { IfErr result (λ e. refusal_at self.old p CoreCall.Lock ≡ Some e) }
        ensures start { OnOk result (Takes self.old (Starts p CoreCall.Lock) self.new) }
        ensures reached { OnOk result (IsReached self.new.procs self.new.limit (world_of self.new)) }
        ensures tally { OnOk result (self.new.tallies ≡ slice_set self.old.tallies p (new_tally (own_at self.old.words p))) }
        ensures err { OnErr result (self.new ≡ self.old) }
    {
        self.start(p, CoreCall::Lock)
    }

    /// Starts a recovery. It answers what the process was doing when it crashed. It never scans, so it never waits.
    ///
    /// `CallUnderWay` and `AlreadyIn` as for a lock.
    pub fn start_recover(&mut self, p: u64) -> Result<(), Refusal>
        ensures accepted { OnOk result (refusal_at self.old p CoreCall.Recover ≡ None) }
        ensures refused { IfErr result (λ e. refusal_at self.old p CoreCall.Recover ≡ Some e) }
        ensures start { OnOk result (Takes self.old (Starts p CoreCall.Recover) self.new) }
        ensures reached { OnOk result (IsReached self.new.procs self.new.limit (world_of self.new)) }
        ensures tally { OnOk result (self.new.tallies ≡ slice_set self.old.tallies p (new_tally (own_at self.old.words p))) }
        ensures err { OnErr result (self.new ≡ self.old) }
    {
        self.start(p, CoreCall::Recover)
    }

    /// Starts the exit of a process that is inside. It clears the number, which lets the next process in, and then the mark.
    ///
    /// `NotOwner`: the process is not inside, or crashed there and has not entered again.
    pub fn start_unlock(&mut self, p: u64) -> Result<(), Refusal>
        ensures accepted { OnOk result (refusal_at self.old p CoreCall.Unlock ≡ None) }
        ensures refused { IfErr result (λ e. refusal_at self.old p CoreCall.Unlock ≡ Some e) }
        ensures start { OnOk result (Takes self.old (Starts p CoreCall.Unlock) self.new) }
        ensures reached { OnOk result (IsReached self.new.procs self.new.limit (world_of self.new)) }
        ensures tally { OnOk result (self.new.tallies ≡ slice_set self.old.tallies p (new_tally (own_at self.old.words p))) }
        ensures err { OnErr result (self.new ≡ self.old) }
    {
        self.start(p, CoreCall::Unlock)
    }

    /// Withdraws the lock that waits, and replaces it. That lock is never answered.
    ///
    /// `NotWaiting`: no lock of the process is under way, or the lock does not wait yet.
    pub fn start_withdraw(&mut self, p: u64) -> Result<(), Refusal>
        ensures accepted { OnOk result (refusal_at self.old p CoreCall.Withdraw ≡ None) }
        ensures refused { IfErr result (λ e. refusal_at self.old p CoreCall.Withdraw ≡ Some e) }
        ensures start { OnOk result (Takes self.old (Starts p CoreCall.Withdraw) self.new) }
        ensures reached { OnOk result (IsReached self.new.procs self.new.limit (world_of self.new)) }
        ensures tally { OnOk result (self.new.tallies ≡ slice_set self.old.tallies p (new_tally (own_at self.old.words p))) }
        ensures err { OnErr result (self.new ≡ self.old) }
    {
        self.start(p, CoreCall::Withdraw)
    }

    /// The lock words of a process.
    pub fn words(&self, p: u64) -> Result<Own, Refusal>
        ensures reached { IsReached self.now.procs self.now.limit (world_of self.now) }
        ensures lawful { IsLawful self.now.procs self.now.limit (world_of self.now).words }
        ensures ok { IfOk result (λ own. (p < self.now.procs) × (own ≡ (world_of self.now).words p)) }
        ensures refused { IfErr result (λ e. (self.now.procs ≤ p) × (e ≡ Refusal.NoSuchProcess)) }
    {
        match self.words.get(p as usize) {
            Some(own) => Ok(*own),
            None => Err(Refusal::NoSuchProcess),
        }
    }

    /// Takes the next step of a process: one load or one store of one word. A blocked reading is a step too, and the next
    /// step reads the same word again.
    ///
    /// `NothingToDo`: no call of the process is under way.
    pub fn step(&mut self, p: u64) -> Result<Happened, Refusal>
        ensures accepted { OnOk result (step_refusal self.old p ≡ None) }
        ensures refused { IfErr result (λ e. step_refusal self.old p ≡ Some e) }
        ensures step { IfOk result (λ h. Takes self.old (event_of p h) self.new) }
        ensures kind { IfOk result (λ h. is_glance h.kind ≡ false) }
        ensures least { IfOk result (ChoosesLeast self.old p) }
        ensures reached { OnOk result (IsReached self.new.procs self.new.limit (world_of self.new)) }
        ensures outer { IfOk result (λ h. h.outer ≡ deed (place_at self.old.processes p) (event_of p h)) }
        ensures done { IfOk result (λ h. h.done ≡ answer (place_at self.old.processes p) h.kind h.value) }
        ensures tally { IfOk result (λ h. self.new.tallies ≡ slice_set self.old.tallies p
            (tally_after_step (tally_at self.old.tallies p) (is_blocked p (place_at self.old.processes p) h.kind h.value))) }
        ensures taken { IfOk result (λ h. IfSome h.done (λ done. IsExact (tally_at self.new.tallies p)
            → HasTaken self.old.procs (tally_at self.new.tallies p) done)) }
        ensures err { OnErr result (self.new ≡ self.old) }
    {
        if p >= self.procs {
            return Err(Refusal::NoSuchProcess);
        }
        let process = &mut self.processes[p as usize];
        let Some(access) = process.next() else {
            return Err(Refusal::NothingToDo);
        };
        let value = perform(&mut self.words, access);
        let progress = process.feed(value);
        self.tallies[p as usize].count(progress.blocked);
        Ok(Happened {
            kind: access.kind(),
            word: access.word(),
            value,
            outer: progress.outer,
            done: progress.done,
        })
    }

    /// Starts a call of a process, and begins to count its steps.
    fn start(&mut self, p: u64, call: CoreCall) -> Result<(), Refusal>
        ensures accepted { OnOk result (refusal_at self.old p call ≡ None) }
        ensures refused { IfErr result (λ e. refusal_at self.old p call ≡ Some e) }
        ensures start { OnOk result (Takes self.old (Starts p call) self.new) }
        ensures reached { OnOk result (IsReached self.new.procs self.new.limit (world_of self.new)) }
        ensures tally { OnOk result (self.new.tallies ≡ slice_set self.old.tallies p (new_tally (own_at self.old.words p))) }
        ensures err { OnErr result (self.new ≡ self.old) }
    {
        if p >= self.procs {
            return Err(Refusal::NoSuchProcess);
        }
        let process = &mut self.processes[p as usize];
        process.start(call)?;
        self.tallies[p as usize] = Tally {
            steps: 0,
            blocked: 0,
            began: self.words[p as usize],
        };
        Ok(())
    }

    /// Crashes a process: it loses its private memory and its call under way. All words keep their values. A process that is
    /// idle or has crashed may crash as well.
    pub fn crash(&mut self, p: u64) -> Result<Outer, Refusal>
        ensures refused { IfErr result (λ e. (self.old.procs ≤ p) × (e ≡ Refusal.NoSuchProcess)) }
        ensures crash { OnOk result (Takes self.old (Crashes p) self.new) }
        ensures reached { OnOk result (IsReached self.new.procs self.new.limit (world_of self.new)) }
        ensures outer { IfOk result (λ outer. deed (place_at self.old.processes p) (Crashes p) ≡ Some outer) }
        ensures tallies { self.new.tallies ≡ self.old.tallies }
        ensures err { OnErr result (self.new ≡ self.old) }
    {
        if p >= self.procs {
            return Err(Refusal::NoSuchProcess);
        }
        self.processes[p as usize].crash();
        Ok(Outer::Crash(p))
    }

    /// The number of steps of the process's last call, blocked ones included. It saturates at the greatest u64. Before the
    /// first call it is 0. A withdraw is a call of its own.
    pub fn steps(&self, p: u64) -> Result<u64, Refusal>
        ensures ok { IfOk result (λ steps. (p < self.now.procs) × (steps ≡ (tally_at self.now.tallies p).steps)) }
        ensures taking { IsExact (tally_at self.now.tallies p) → p < self.now.procs
            → IsTaking self.now.procs (tally_at self.now.tallies p) (place_at self.now.processes p) }
        ensures most { IsExact (tally_at self.now.tallies p) → p < self.now.procs
            → is_idle (place_at self.now.processes p) ≡ false
            → (tally_at self.now.tallies p).steps < most_steps self.now.procs + (tally_at self.now.tallies p).blocked }
        ensures refused { IfErr result (λ e. (self.now.procs ≤ p) × (e ≡ Refusal.NoSuchProcess)) }
    {
        Ok(self.tally(p)?.steps)
    }

    /// The number of blocked looks and weighs among those steps. It saturates at the greatest u64.
    pub fn blocked(&self, p: u64) -> Result<u64, Refusal>
        ensures ok { IfOk result (λ blocked. (p < self.now.procs) × (blocked ≡ (tally_at self.now.tallies p).blocked)) }
        ensures refused { IfErr result (λ e. (self.now.procs ≤ p) × (e ≡ Refusal.NoSuchProcess)) }
    {
        Ok(self.tally(p)?.blocked)
    }

    /// The lock words of a process at the start of its last call.
    pub fn began(&self, p: u64) -> Result<Own, Refusal>
        ensures ok { IfOk result (λ began. (p < self.now.procs) × (began ≡ (tally_at self.now.tallies p).began)) }
        ensures rereading { p < self.now.procs → IsRereading (place_at self.now.processes p)
            → (tally_at self.now.tallies p).began ≡ own_at self.now.words p }
        ensures refused { IfErr result (λ e. (self.now.procs ≤ p) × (e ≡ Refusal.NoSuchProcess)) }
    {
        Ok(self.tally(p)?.began)
    }

    /// The counts of a process's last call. `NoSuchProcess`: there are fewer processes.
    fn tally(&self, p: u64) -> Result<Tally, Refusal>
        ensures ok { IfOk result (λ tally. (p < self.now.procs) × (tally ≡ tally_at self.now.tallies p)) }
        ensures taking { IsExact (tally_at self.now.tallies p) → p < self.now.procs
            → IsTaking self.now.procs (tally_at self.now.tallies p) (place_at self.now.processes p) }
        ensures most { IsExact (tally_at self.now.tallies p) → p < self.now.procs
            → is_idle (place_at self.now.processes p) ≡ false
            → (tally_at self.now.tallies p).steps < most_steps self.now.procs + (tally_at self.now.tallies p).blocked }
        ensures rereading { p < self.now.procs → IsRereading (place_at self.now.processes p)
            → (tally_at self.now.tallies p).began ≡ own_at self.now.words p }
        ensures refused { IfErr result (λ e. (self.now.procs ≤ p) × (e ≡ Refusal.NoSuchProcess)) }
    {
        match self.tallies.get(p as usize) {
            Some(tally) => Ok(*tally),
            None => Err(Refusal::NoSuchProcess),
        }
    }
}
