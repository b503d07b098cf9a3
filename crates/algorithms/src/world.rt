//! The worlds of an algorithm.

ghost use Rattle.std.specs.Prelude.{◌≡◌, ◌<◌, Some, None, Ok, Err, IfOk, IfErr, OnOk, OnErr, is_ok, length, true};
ghost use Rattle.algorithms.specs.Worlds.{words_after_access};

use crate::access::{Address, Advanced, Taken, WordAccess};
use crate::algorithm::{Algorithm, AlgorithmCall};
use crate::constants::{Constants, MOST_PROCS};
use crate::expression::NAMES;
use crate::first_rows::{FirstRows, all_at_rest, rest_all, restart_rows, rows_at_beginning};
use crate::first_values::InitializedAlgorithm;
use crate::first_words::{first_rows, has_all_values};
use crate::process::{AlgorithmPlace, AlgorithmProcess};
use crate::process_step::{access_at, begin, call_entry, place_of, state_at, step_from, take};
use crate::promised_steps::PromisedSteps;
use crate::refusal::AlgorithmRefusal;
use std::alloc::{AllocError, Global};
use std::marker::Model;
use std::mem;
use std::sync::Arc;

/// The greatest limit of numbers, 2^62.
pub const MOST_LIMIT: u64 = 4_611_686_018_427_387_904;

/// The processes of an algorithm and the words that they share. A caller starts a call and then steps it until a step carries
/// its answer. A crash may come before any step. Only `new` and `checkpoint` allocate.
#[derive(Drop)]
pub struct AlgorithmWorld {
    algorithm: Arc<Algorithm>,
    procs: u64,
    limit: u64,
    promised_steps: PromisedSteps,
    first_rows: Arc<Option<FirstRows>>,
    words: Vec<[u64; MOST_PROCS]>,
    processes: Vec<AlgorithmProcess>,
}

/// What steps change in a world: its words and its processes.
#[derive(Drop)]
pub struct WorldCheckpoint {
    pub words: Vec<[u64; MOST_PROCS]>,
    pub processes: Vec<AlgorithmProcess>,
}

impl Model for AlgorithmWorld {
    ghost use Rattle.std.specs.Prelude.{◌≡◌, vec_len};
    ghost use Rattle.std.specs.Arc.{arc_value};
    ghost use Rattle.std.specs.Coded.{codes};
    ghost use Rattle.algorithms.specs.contracts.condition.Condition as condition;
    ghost use Rattle.algorithms.specs.contracts.expression.Expression as expression;
    ghost use Rattle.algorithms.specs.FirstWords.{held_rows};
    ghost use Rattle.algorithms.specs.PromisedSteps.{promised_steps_at};
    ghost use Rattle.algorithms.specs.Worlds.{AlgorithmWorldState};

    ghost Value = { AlgorithmWorldState };

    ghost coded = { Prim.hlevel (codes, expression.the_row.coded, condition.the_row.coded) };

    ghost view = { λ w. record {
      algorithm = arc_value w.algorithm;
      procs = w.procs;
      limit = w.limit;
      first_rows = held_rows (arc_value w.first_rows);
      words = w.words.items;
      processes = w.processes.items;
    } };

    ghost invariant = { λ w. (vec_len w.processes ≡ w.procs)
        × (w.promised_steps ≡ promised_steps_at w.procs w.limit (arc_value w.algorithm).step_bounds) };
}

/// Stores the value of an access, if it has one.
pub(crate) fn store(words: &mut [[u64; MOST_PROCS]], access: WordAccess)
    ensures { words.new ≡ words_after_access words.old access.address access.stores }
{
    let Address { declaration, index } = access.address;
    let Some(value) = access.stores else {
        return;
    };
    if index < MOST_PROCS as u64 && declaration < words.len() {
        let row = &mut words[declaration];
        row[index as usize] = value;
    }
}

impl AlgorithmWorld {
    ghost use Rattle.algorithms.specs.Worlds.{first_world, new_refusal, cause, constants_of, process_of, start, start_of_process, begun_call, step, advance, next_access, crash, world_at_beginning, with_process, promised_steps};

    /// A world with the first values of all words, and all processes at rest. `limit` is the algorithm's `limit`.
    ///
    /// `BadProcs`: the algorithm is not for this number of processes. `BadLimit`: not 1 to 2^62. `BadProcs` also where at these
    /// sizes a constant, a first value or a bound on own steps is out of range, a first value above its bound, or an array has no
    /// word or more than 64.
    pub fn new(
        alloc: Global,
        algorithm: InitializedAlgorithm,
        procs: u64,
        limit: u64,
    ) -> Result<AlgorithmWorld, AlgorithmRefusal>
        ensures accepted { OnOk result (new_refusal algorithm procs limit ≡ None) }
        ensures refused { IfErr result (λ e. new_refusal algorithm procs limit ≡ cause e) }
        ensures world { IfOk result (λ w. w ≡ first_world algorithm procs limit) }
    {
        let InitializedAlgorithm {
            algorithm,
            first_values,
        } = algorithm;
        if procs < algorithm.least
            || procs > algorithm.most
            || procs == 0
            || procs > MOST_PROCS as u64
        {
            return Err(AlgorithmRefusal::BadProcs);
        }
        if limit == 0 || limit > MOST_LIMIT {
            return Err(AlgorithmRefusal::BadLimit);
        }
        if !has_all_values(&algorithm, &first_values, procs, limit) {
            return Err(AlgorithmRefusal::BadProcs);
        }
        let rows = first_rows(alloc, &algorithm, &first_values, procs, limit)?;
        let words = rows_at_beginning(alloc, &rows, algorithm.declarations.len())?;
        let processes = all_at_rest(alloc, procs as usize)?;
        let algorithm = Arc::new(alloc, algorithm)?;
        let promised_steps = algorithm.step_bounds.promised_steps(procs, limit);
        let first_rows = Arc::new(alloc, rows)?;
        Ok(AlgorithmWorld {
            algorithm,
            procs,
            limit,
            promised_steps,
            first_rows,
            words,
            processes,
        })
    }

    /// Starts a call of a process. A withdraw replaces the lock under way, which is never answered.
    ///
    /// `NoSuchProcess`, then `NoSuchCall`: the algorithm has no such call. `CallUnderWay`: another call has to end first.
    /// `NotWaiting`: a withdraw where the process is at no line with `may withdraw`. Which calls a process may make by what
    /// it has done, as an unlock only where it is inside, is not asked here.
    pub fn start(&mut self, p: u64, call: AlgorithmCall) -> Result<(), AlgorithmRefusal>
        ensures ok { OnOk result (start self.old p call ≡ Ok self.new) }
        ensures refused { IfErr result (λ e. start self.old p call ≡ Err e) }
        ensures err { OnErr result (self.new ≡ self.old) }
    {
        let entry = call_entry(&self.algorithm, self.process_at(p)?, call)?;
        self.begin_call(p, entry)
    }

    /// Takes a process to the first access of its call, from where the call begins.
    fn begin_call(&mut self, p: u64, entry: usize) -> Result<(), AlgorithmRefusal>
        ensures ok { OnOk result (begun_call self.old p entry ≡ Ok self.new) }
        ensures refused { IfErr result (λ e. begun_call self.old p entry ≡ Err e) }
        ensures err { OnErr result (self.new ≡ self.old) }
    {
        let process = self.process_at(p)?;
        let state = begin(&self.algorithm, self.constants(p), process, entry)?;
        let process = &mut self.processes[p as usize];
        process.place = AlgorithmPlace::At(state.at);
        let names = state.store;
        process.store = names;
        Ok(())
    }

    /// Takes the next step of a process: one load, store or swap of one word, and the local lines after it. A blocked reading
    /// is a step too, and the next step reads the same word again. A blocked swap has stored all the same.
    ///
    /// `NoSuchProcess`, then `NothingToDo`: no call of the process is under way. `OutOfRange`: the algorithm leaves its
    /// bounds here.
    pub fn step(&mut self, p: u64) -> Result<Taken, AlgorithmRefusal>
        ensures ok { IfOk result (λ t. step self.old p ≡ Ok (t, self.new)) }
        ensures refused { IfErr result (λ e. step self.old p ≡ Err e) }
        ensures err { OnErr result (self.new ≡ self.old) }
    {
        let process = self.process_at(p)?;
        let AlgorithmPlace::At(at) = process.place else {
            return Err(AlgorithmRefusal::NothingToDo);
        };
        let before = state_at(at, process);
        let mut state = before;
        let constants = self.constants(p);
        let advanced = take(
            &self.algorithm,
            constants,
            self.words.as_slice(),
            &mut state,
        )?;
        let taken = step_from(&before, &advanced, &state);
        store(self.words.as_mut_slice(), taken.access);
        self.processes[p as usize] = taken.moved.process;
        Ok(taken)
    }

    /// As `step`, and answers what the step says without the process that it leaves, which is not copied.
    pub fn advance(&mut self, p: u64) -> Result<Advanced, AlgorithmRefusal>
        ensures ok { IfOk result (λ a. advance self.old p ≡ Ok (a, self.new)) }
        ensures refused { IfErr result (λ e. advance self.old p ≡ Err e) }
        ensures err { OnErr result (self.new ≡ self.old) }
    {
        let process = self.process_at(p)?;
        let AlgorithmPlace::At(at) = process.place else {
            return Err(AlgorithmRefusal::NothingToDo);
        };
        let mut state = state_at(at, process);
        let constants = self.constants(p);
        let advanced = take(
            &self.algorithm,
            constants,
            self.words.as_slice(),
            &mut state,
        )?;
        store(self.words.as_mut_slice(), advanced.access);
        if !advanced.blocked {
            let process = &mut self.processes[p as usize];
            process.place = place_of(&state, advanced.answer);
            let names = state.store;
            process.store = names;
        }
        Ok(advanced)
    }

    /// Whether a process can start a call. Refused as `start` is.
    pub fn check_start(&self, p: u64, call: AlgorithmCall) -> Result<(), AlgorithmRefusal>
        ensures ok { OnOk result (is_ok (start self.now p call) ≡ true) }
        ensures refused { IfErr result (λ e. start self.now p call ≡ Err e) }
    {
        let entry = call_entry(&self.algorithm, self.process_at(p)?, call)?;
        self.check_begin_call(p, entry)
    }

    /// Whether a process comes to the first access of its call, from where the call begins.
    fn check_begin_call(&self, p: u64, entry: usize) -> Result<(), AlgorithmRefusal>
        ensures ok { OnOk result (is_ok (begun_call self.now p entry) ≡ true) }
        ensures refused { IfErr result (λ e. begun_call self.now p entry ≡ Err e) }
    {
        let process = self.process_at(p)?;
        begin(&self.algorithm, self.constants(p), process, entry)?;
        Ok(())
    }

    /// Whether a process can take a step. Refused as `step` is.
    pub fn check_step(&self, p: u64) -> Result<(), AlgorithmRefusal>
        ensures ok { OnOk result (is_ok (advance self.now p) ≡ true) }
        ensures refused { IfErr result (λ e. advance self.now p ≡ Err e) }
    {
        let process = self.process_at(p)?;
        let AlgorithmPlace::At(at) = process.place else {
            return Err(AlgorithmRefusal::NothingToDo);
        };
        let mut state = state_at(at, process);
        let constants = self.constants(p);
        take(
            &self.algorithm,
            constants,
            self.words.as_slice(),
            &mut state,
        )?;
        Ok(())
    }

    /// The access that a process makes next, as far as it is known before its word is read: of a swap not whether it stores.
    ///
    /// Refused as a step is that comes to no access. A later value that leaves the bounds is not seen.
    pub fn next_access(&self, p: u64) -> Result<WordAccess, AlgorithmRefusal>
        ensures ok { IfOk result (λ access. next_access self.now p ≡ Ok access) }
        ensures refused { IfErr result (λ e. next_access self.now p ≡ Err e) }
    {
        let process = self.process_at(p)?;
        let AlgorithmPlace::At(at) = process.place else {
            return Err(AlgorithmRefusal::NothingToDo);
        };
        let line = access_at(&self.algorithm, at)?;
        let declarations = self.algorithm.declarations.as_slice();
        let access = line.access(declarations, self.constants(p), &process.store);
        access.ok_or(AlgorithmRefusal::OutOfRange { place: at })
    }

    /// The process with this number. `NoSuchProcess`: there are fewer.
    fn process_at(&self, p: u64) -> Result<&AlgorithmProcess, AlgorithmRefusal>
        ensures ok { IfOk result (λ process. process_of self.now p ≡ Ok process.now) }
        ensures within { OnOk result (p < self.now.procs) }
        ensures refused { IfErr result (λ e. process_of self.now p ≡ Err e) }
    {
        self.processes
            .get(p as usize)
            .ok_or(AlgorithmRefusal::NoSuchProcess)
    }

    /// Crashes a process. It loses its place and its names.
    pub fn crash(&mut self, p: u64) -> Result<(), AlgorithmRefusal>
        ensures ok { OnOk result (crash self.old p ≡ Ok self.new) }
        ensures refused { IfErr result (λ e. crash self.old p ≡ Err e) }
        ensures err { OnErr result (self.new ≡ self.old) }
    {
        self.process_at(p)?;
        self.processes[p as usize] = AlgorithmProcess {
            place: AlgorithmPlace::Dead,
            store: [0; NAMES],
        };
        Ok(())
    }

    /// A new world of the same algorithm and the same sizes. Both share the one algorithm.
    pub fn beside(&self, alloc: Global) -> Result<AlgorithmWorld, AlgorithmRefusal>
        ensures world { IfOk result (λ w. w ≡ world_at_beginning self.now) }
        ensures memory { IfErr result (λ e. e ≡ AlgorithmRefusal.OutOfMemory) }
    {
        let words = rows_at_beginning(alloc, &self.first_rows, self.words.len())?;
        let processes = all_at_rest(alloc, self.processes.len())?;
        let algorithm = Arc::try_clone(&self.algorithm)?;
        let first_rows = Arc::try_clone(&self.first_rows)?;
        Ok(AlgorithmWorld {
            algorithm,
            procs: self.procs,
            limit: self.limit,
            promised_steps: self.promised_steps,
            first_rows,
            words,
            processes,
        })
    }

    /// Gives all words their first values and puts all processes at rest, as in a new world of the same sizes.
    pub fn restart(&mut self)
        ensures { self.new ≡ world_at_beginning self.old }
    {
        restart_rows(self.words.as_mut_slice(), &self.first_rows);
        rest_all(self.processes.as_mut_slice());
    }

    /// A copy of what steps change, to go back to.
    pub fn checkpoint(&self, alloc: Global) -> Result<WorldCheckpoint, AllocError>
        ensures copy { IfOk result (λ copy. (copy.words.items ≡ self.now.words) × (copy.processes.items ≡ self.now.processes)) }
        ensures count { OnOk result (length self.now.processes ≡ self.now.procs) }
    {
        let words = Vec::from_slice(alloc, self.words.as_slice())?;
        let processes = Vec::from_slice(alloc, self.processes.as_slice())?;
        Ok(WorldCheckpoint { words, processes })
    }

    /// Goes back to a checkpoint, which has the processes of this world.
    pub fn go_back(&mut self, checkpoint: WorldCheckpoint)
        requires { length checkpoint.processes.items ≡ self.old.procs }
        ensures { self.new ≡ record self.old { words = checkpoint.words.items; processes = checkpoint.processes.items } }
    {
        self.words = checkpoint.words;
        self.processes = checkpoint.processes;
    }

    /// The private memory of a process.
    pub fn process(&self, p: u64) -> Result<AlgorithmProcess, AlgorithmRefusal>
        ensures value { result ≡ process_of self.now p }
        ensures within { OnOk result (p < self.now.procs) }
    {
        let process = self.processes.get(p as usize);
        process.copied().ok_or(AlgorithmRefusal::NoSuchProcess)
    }

    /// The shared words, a row for each declaration. A declaration of one word uses the first of its row, another the first
    /// of it, one for each process.
    pub fn words(&self) -> &[[u64; MOST_PROCS]]
        ensures { result.now ≡ self.now.words }
    {
        self.words.as_slice()
    }

    /// The private memory of each process.
    pub fn processes(&self) -> &[AlgorithmProcess]
        ensures { result.now ≡ self.now.processes }
    {
        self.processes.as_slice()
    }

    /// The algorithm.
    pub fn algorithm(&self) -> &Algorithm
        ensures { result.now ≡ self.now.algorithm }
    {
        &self.algorithm
    }

    /// The number of processes.
    pub fn procs(&self) -> u64
        ensures { result ≡ self.now.procs }
    {
        self.procs
    }

    /// The algorithm's `limit`.
    pub fn limit(&self) -> u64
        ensures { result ≡ self.now.limit }
    {
        self.limit
    }

    /// The algorithm's bounds on own steps in worlds of these sizes. They were reckoned where the world was made.
    pub fn promised_steps(&self) -> PromisedSteps
        ensures { result ≡ promised_steps self.now }
    {
        self.promised_steps
    }

    /// For this workspace alone, to decode a world: sets a shared word. An address outside of the words changes nothing.
    pub fn seam_set_word(&mut self, address: Address, value: u64)
        ensures { self.new ≡ record self.old { words = words_after_access self.old.words address (Some value) } }
    {
        let access = WordAccess {
            address,
            stores: Some(value),
            swaps: false,
        };
        store(self.words.as_mut_slice(), access);
    }

    /// For this workspace alone, as `seam_set_word`: takes these processes for its own, and gives its own for them.
    pub fn seam_swap_processes(&mut self, processes: &mut Vec<AlgorithmProcess>)
        requires { length processes.old.items ≡ self.old.procs }
        ensures world { self.new ≡ record self.old { processes = processes.old.items } }
        ensures given { processes.new.items ≡ self.old.processes }
    {
        mem::swap(&mut self.processes, processes);
    }

    /// What this process knows beside its private names.
    fn constants(&self, p: u64) -> Constants
        ensures { result ≡ constants_of self.now p }
    {
        Constants {
            me: p,
            procs: self.procs,
            limit: self.limit,
        }
    }
}
