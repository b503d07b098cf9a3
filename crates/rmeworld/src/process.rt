//! One process's algorithm, as a state machine over private memory alone: the lock's machine, and a job on the data words
//! while the process is inside. The machine names the word that it loads or stores next. The caller performs that access and
//! feeds the value back. The world and the running lock run this machine over their words.

ghost use Rattle.std.specs.Prelude.{◌≡◌, ◌==◌, true, false, not, if◌then◌else◌, [], ◌∷◌, Some, None, IfSome, OnOk, OnErr, IfErr, IsErrOf, IsTrue, ◌↔◌, is_none};
ghost use Rattle.rmecore.specs.Place.{Inside};
ghost use Rattle.rmecore.specs.Machine.{at_scan, progress, next_access as lock_access};
ghost use Rattle.redomail.specs.Refusals.{task_refusal};
ghost use Rattle.rmeworld.specs.Purposes.{task_of};
ghost use Rattle.rmeworld.specs.ScriptStates.{HoldsJob};
ghost use Rattle.rmeworld.specs.Refused.{is_inside, is_waiting};

mod in_place;
mod silent;

use crate::call::Call;
use crate::lock_part::{begin_lock, leave, lock_scan, lock_step};
use crate::outcome::{Outcome, job_outcome, job_step, lock_outcome};
use crate::private_memory::PrivateMemory;
use crate::purpose::Purpose;
use crate::readiness::Readiness;
use crate::script_state::{ScriptState, check_next, job};
use redomail::{Job, Layout, Next, Reply, Task};
use rmecore::{Access, CoreCall, Kind, LockProcess, Progress, Refusal, Scan, Stage, Word};
use std::fmt;
use std::marker::Model;

/// One process with its whole private memory. It does not allocate.
#[derive(Drop)]
pub struct Process {
    lock: LockProcess,
    layout: Layout,
    index: u64,
    mended: bool,
    barred: bool,
    script_state: ScriptState,
}

impl fmt::Debug for Process {
    fn fmt<W: fmt::Write>(&self, f: &mut fmt::Formatter<W>) -> fmt::Result {
        f.write_str("Process")
    }
}

impl Model for Process {
    ghost use Rattle.std.specs.Prelude.{◌≡◌, ◌<◌};
    ghost use Rattle.rmeworld.specs.MachineState.{MachineState, IsSize};
    ghost use Rattle.rmeworld.specs.ScriptStates.{HoldsJob};

    ghost Value = { MachineState };

    ghost view = { λ s. record { layout = s.layout; limit = s.lock.limit; index = s.index; lock = s.lock.place; mended = s.mended; barred = s.barred; script_state = s.script_state } };

    ghost invariant = { λ s. record {
      size : IsSize s.layout;
      procs : s.lock.procs ≡ s.layout.procs;
      index : s.lock.index
          ≡ s.index;
      below : s.index < s.layout.procs;
      held : HoldsJob s.script_state s.lock.place;
    } };
}

impl Process {
    ghost use Rattle.rmecore.specs.Named.{own_number, own_call};
    ghost use Rattle.std.specs.Prelude.{◌<◌};
    ghost use Rattle.rmecore.specs.Machine.{word_of, place_of};
    ghost use Rattle.rmeworld.specs.ProcessState.{next_process_state, Begins};
    ghost use Rattle.rmeworld.specs.Refused.{start_refusal, is_idle};
    ghost use Rattle.rmeworld.specs.Seams.{with_memory};
    ghost use Rattle.rmeworld.specs.MachineState.{IsSize, MachineState, standing, process_state_of, resting, machine_after_crash, machine_after_step, machine_after_start, works, ended_by, next_access, process_state_after, outcome, IsAllowed, IsLeast, InWords, StoresOwn};

    /// A process at rest, of a world of these sizes. `limit` is the greatest number that it may take.
    pub fn new(layout: Layout, limit: u64, index: u64) -> Process
        requires size { IsSize layout }
        requires below { index < layout.procs }
        ensures { result ≡ resting layout limit index }
    {
        Process {
            lock: LockProcess::new(layout.procs, limit, index),
            layout,
            index,
            mended: true,
            barred: false,
            script_state: ScriptState::Free,
        }
    }

    /// Crashes: the private memory is lost, and with it the call under way.
    pub fn crash(&mut self)
        ensures { self.new ≡ machine_after_crash self.old }
    {
        self.lock.crash();
        self.mended = true;
        self.barred = false;
        match &self.script_state {
            ScriptState::Free => {}
            ScriptState::Doing(..) => self.script_state = ScriptState::Free,
        }
    }

    /// The next access, if a call is under way. Scans go by rising index.
    // Inline: one call a step.
    #[inline(always)]
    pub fn next(&self) -> Option<Access>
        ensures next { result ≡ next_access self.now }
        ensures allowed { IfSome result (IsAllowed self.now) }
        ensures least { IfSome result (IsLeast self.now) }
        ensures within { IfSome result (λ a. InWords self.now.layout.procs (word_of a)) }
        ensures own { IfSome result (StoresOwn self.now.index) }
        ensures idle { is_none result ≡ is_idle (process_state_of self.now) }
    {
        match &self.script_state {
            ScriptState::Free => self.lock.next(),
            ScriptState::Doing(_, job) => match job.next() {
                Next::Get(i) => Some(Access::Load(Kind::Get, Word::Data(i))),
                Next::Put(i, v) => Some(Access::Store(Kind::Put, Word::Data(i), v)),
                Next::Done(_) => None,
            },
        }
    }

    /// What `feed` would answer for this value. Nothing changes.
    pub fn outlook(&self, value: u64) -> Outcome
        ensures { result ≡ outcome self.now (next_access self.now) value }
    {
        match self.script_state {
            ScriptState::Free => lock_outcome(self.barred, self.lock.outlook(value)),
            ScriptState::Doing(purpose, job) => {
                let mut job = job;
                job.feed(value);
                job_outcome(purpose, self.mended, &job)
            }
        }
    }

    /// Takes the next step with the value that was read. A store ignores the value. If no call is under way, nothing
    /// changes.
    // Apart: keeps its callers small.
    #[inline(never)]
    pub fn feed(&mut self, value: u64) -> Outcome
        ensures exact { self.new ≡ machine_after_step self.old value }
        ensures process_state { process_state_of self.new ≡ process_state_after self.old (next_access self.old) value }
        ensures allowed { IfSome (next_access self.old) (IsAllowed self.old) }
        ensures outcome { result ≡ outcome self.old (next_access self.old) value }
    {
        match &mut self.script_state {
            ScriptState::Free => {
                let barred = self.barred;
                lock_outcome(barred, self.move_on(value))
            }
            ScriptState::Doing(..) => job_step(self.job_on(value)),
        }
    }

    /// A step of the lock's part.
    // Inline: one call a step.
    #[inline(always)]
    fn move_on(&mut self, value: u64) -> Progress
        requires { self.old.script_state ≡ ScriptState.Free }
        ensures exact { self.new ≡ machine_after_step self.old value }
        ensures process_state { process_state_of self.new ≡ process_state_after self.old (next_access self.old) value }
        ensures allowed { IfSome (next_access self.old) (IsAllowed self.old) }
        ensures progress { result ≡ progress (standing self.old) (lock_access (standing self.old)) value }
    {
        let (progress, mended, checks) = lock_step(&mut self.lock, self.mended, value);
        self.mended = mended;
        check_next(&mut self.script_state, self.layout, self.index, checks);
        progress
    }

    /// The scan in progress, if there is one, and its next load. The load is what `next` answers. None is a safe answer: the
    /// caller then takes the step by `next` and `feed`.
    // Inline: one call a step.
    #[inline(always)]
    pub fn scan(&self) -> Option<(Scan, Access)>
        ensures free { IfSome result (λ r. self.now.script_state ≡ ScriptState.Free) }
        ensures at { IfSome result (λ r. at_scan (standing self.now) r.0 ≡ standing self.now) }
        ensures next { IfSome result (λ r. next_access self.now ≡ Some r.1) }
        ensures allowed { IfSome result (λ r. IsAllowed self.now r.1) }
        ensures least { IfSome result (λ r. IsLeast self.now r.1) }
        ensures within { IfSome result (λ r. InWords self.now.layout.procs (word_of r.1)) }
        ensures own { IfSome result (λ r. StoresOwn self.now.index r.1) }
    {
        match &self.script_state {
            ScriptState::Free => self.lock.scan(),
            ScriptState::Doing(..) => None,
        }
    }

    /// Takes the next step of this scan. It does what `feed` does.
    // Inline: one call a scan's step.
    #[inline(always)]
    pub fn scan_on(&mut self, scan: Scan, value: u64) -> Outcome
        requires free { self.old.script_state ≡ ScriptState.Free }
        requires at { at_scan (standing self.old) scan ≡ standing self.old }
        ensures exact { self.new ≡ machine_after_step self.old value }
        ensures process_state { process_state_of self.new ≡ process_state_after self.old (next_access self.old) value }
        ensures allowed { IfSome (next_access self.old) (IsAllowed self.old) }
        ensures outcome { result ≡ outcome self.old (next_access self.old) value }
    {
        let barred = self.barred;
        lock_outcome(barred, self.move_by(scan, value))
    }

    /// A step of this scan in the lock's part.
    // Inline: one call a scan's step.
    #[inline(always)]
    fn move_by(&mut self, scan: Scan, value: u64) -> Progress
        requires free { self.old.script_state ≡ ScriptState.Free }
        requires at { at_scan (standing self.old) scan ≡ standing self.old }
        ensures exact { self.new ≡ machine_after_step self.old value }
        ensures process_state { process_state_of self.new ≡ process_state_after self.old (next_access self.old) value }
        ensures allowed { IfSome (next_access self.old) (IsAllowed self.old) }
        ensures progress { result ≡ progress (standing self.old) (lock_access (standing self.old)) value }
    {
        let (progress, mended, checks) = lock_scan(&mut self.lock, scan, self.mended, value);
        self.mended = mended;
        check_next(&mut self.script_state, self.layout, self.index, checks);
        progress
    }

    /// The stage of the lock's part, if the process has no job.
    // Inline: one call a lock.
    #[inline(always)]
    pub fn stage(&self) -> Option<Stage>
        ensures free { IfSome result (λ t. self.now.script_state ≡ ScriptState.Free) }
        ensures place { IfSome result (λ t. place_of self.now.layout.procs self.now.index t ≡ self.now.lock) }
        ensures none { result ≡ None → self.now.script_state ≡ ScriptState.Free → ⊥ }
    {
        match self.script_state {
            ScriptState::Free => Some(self.lock.stage()),
            ScriptState::Doing(..) => None,
        }
    }

    /// Puts the lock's part at a stage. For this workspace alone: the running lock's fast path takes steps without the
    /// machine and then sets its stage. Any stage is accepted, also one that no step reaches.
    pub fn seam_machine_state(&mut self, to: Stage)
        requires { self.old.script_state ≡ ScriptState.Free }
        ensures { self.new ≡ record self.old { lock = place_of self.old.layout.procs self.old.index to } }
    {
        self.lock.seam_machine_state(to);
    }

    /// As `seam_machine_state`, for steps that led inside with nothing to mend.
    pub fn seam_machine_state_clean(&mut self)
        requires { self.old.script_state ≡ ScriptState.Free }
        ensures { self.new ≡ record self.old { lock = Inside; mended = true } }
    {
        let mended = &mut self.mended;
        *mended = true;
        self.lock.seam_machine_state(Stage::Inside);
    }

    /// For this workspace alone, to encode a process's state: the private memory.
    pub fn seam_memory(&self) -> PrivateMemory
        ensures { with_memory self.now result ≡ self.now }
    {
        PrivateMemory {
            stage: self.lock.stage(),
            mended: self.mended,
            barred: self.barred,
            script_state: self.script_state,
        }
    }

    /// For this workspace alone, the inverse of `seam_memory`: sets the private memory. False: the memory has a job and the
    /// process is not inside, or the job has ended. Then nothing changed. Any other memory is accepted, also one that no
    /// step reaches.
    pub fn seam_set(&mut self, memory: &PrivateMemory) -> bool
        ensures set { IsTrue result → self.new ≡ with_memory self.old memory.now }
        ensures same { result ≡ false → self.new ≡ self.old }
        ensures held { IsTrue result ↔ HoldsJob memory.now.script_state (place_of self.old.layout.procs self.old.index memory.now.stage) }
    {
        if !memory.is_held() {
            return false;
        }
        self.lock.seam_machine_state(memory.stage);
        self.mended = memory.mended;
        self.barred = memory.barred;
        self.script_state = memory.script_state;
        true
    }

    /// Starts a lock if the process is at rest or has crashed. False: it is not, and nothing changed. `start` gives the
    /// refusal then.
    pub fn start_lock(&mut self) -> bool
        ensures accepted { result ≡ true → start_refusal self.old.layout (process_state_of self.old) Call.Lock ≡ None }
        ensures exact { result ≡ true → self.new ≡ machine_after_start self.old Call.Lock }
        ensures process_state { result ≡ true → next_process_state self.old.layout self.old.limit (process_state_of self.old)
            (Begins self.old.index Call.Lock) ≡ Some (process_state_of self.new) }
        ensures refused { result ≡ false → start_refusal self.old.layout (process_state_of self.old) Call.Lock ≡ None → ⊥ }
        ensures not { result ≡ false → self.new ≡ self.old }
    {
        match (&self.script_state, self.lock.stage()) {
            (ScriptState::Free, Stage::Rest | Stage::Dead) => {
                let call = CoreCall::Lock;
                self.lock
                    .seam_machine_state(Stage::ReadingChoosing { call });
                self.barred = false;
                true
            }
            _ => false,
        }
    }

    /// Whether the process is inside with nothing to mend and no call under way. An unlock is two stores then.
    pub fn is_clean(&self) -> bool
        ensures clean { result ≡ true → (self.now.script_state ≡ ScriptState.Free) × (self.now.lock ≡ Inside)
            × (self.now.mended ≡ true) × (self.now.barred ≡ false) }
        ensures other { result ≡ false → self.now.script_state ≡ ScriptState.Free → self.now.lock ≡ Inside
            → self.now.mended ≡ true → self.now.barred ≡ false → ⊥ }
    {
        match (&self.script_state, self.lock.stage()) {
            (ScriptState::Free, Stage::Inside) => self.mended && !self.barred,
            _ => false,
        }
    }

    /// Ends a script: the process stays inside or starts its exit.
    fn end(&mut self, purpose: Purpose, reply: Reply)
        requires { self.old.lock ≡ Inside }
        ensures { self.new ≡ ended_by self.old purpose reply }
    {
        self.script_state = ScriptState::Free;
        match (purpose, reply) {
            (Purpose::Checking, Reply::Ruined(true)) => {
                leave(&mut self.lock);
                self.barred = true;
            }
            (Purpose::Ruining, _) => leave(&mut self.lock),
            (Purpose::Mending, Reply::Mended(_)) => self.mended = true,
            _ => {}
        }
    }

    /// The index of the process in its world.
    pub fn index(&self) -> u64
        ensures index { result ≡ self.now.index }
        ensures below { result < self.now.layout.procs }
    {
        self.index
    }

    /// The sizes of its world.
    pub fn layout(&self) -> Layout
        ensures layout { result ≡ self.now.layout }
        ensures size { IsSize result }
    {
        self.layout
    }

    /// The process's own number, if the stage of the lock's part holds it.
    pub fn number(&self) -> Option<u64>
        ensures { result ≡ own_number self.now.lock }
    {
        self.lock.number()
    }

    /// The call of the lock's part, if its stage holds it.
    pub fn call(&self) -> Option<CoreCall>
        ensures { result ≡ own_call self.now.lock }
    {
        self.lock.call()
    }

    /// Starts a call. It does not allocate.
    ///
    /// The first cause in the order of the call's own refusals is the answer: `CallUnderWay` (another call has to end
    /// first), `AlreadyIn` (lock, recover), `NotOwner` (unlock, `consistent` and every call of the mailbox or the board),
    /// `NotInconsistent` (`consistent` with nothing to mend), `Unmended` (append and close before `consistent`), `BadWidth`
    /// (append), `BadIndex` (get and put), `NotWaiting` (withdraw).
    pub fn start(&mut self, call: Call) -> Result<(), Refusal>
        ensures accepted { OnOk result (start_refusal self.old.layout (process_state_of self.old) call ≡ None) }
        ensures refused { IfErr result (λ e. start_refusal self.old.layout (process_state_of self.old) call ≡ Some e) }
        ensures memory { IsErrOf result Refusal.OutOfMemory → ⊥ }
        ensures exact { OnOk result (self.new ≡ machine_after_start self.old call) }
        ensures process_state { OnOk result (next_process_state self.old.layout self.old.limit (process_state_of self.old)
            (Begins self.old.index call) ≡ Some (process_state_of self.new)) }
        ensures not_allowed { OnErr result (next_process_state self.old.layout self.old.limit (process_state_of self.old)
            (Begins self.old.index call) ≡ None) }
        ensures err { OnErr result (self.new ≡ self.old) }
    {
        // For the proof alone: its value is read.
        let _ = &self.script_state;
        self.check(&call)?;
        self.begin(call);
        Ok(())
    }

    /// The refusal of this call now, if it would be refused.
    fn check(&self, call: &Call) -> Result<(), Refusal>
        ensures accepted { OnOk result (start_refusal self.now.layout (process_state_of self.now) call.now ≡ None) }
        ensures refused { IfErr result (λ e. start_refusal self.now.layout (process_state_of self.now) call.now ≡ Some e) }
    {
        self.readiness().check(self.layout.width, call)
    }

    /// What the refusals of a start need to know of the process.
    fn readiness(&self) -> Readiness
        ensures idle { result.is_idle ≡ is_idle (process_state_of self.now) }
        ensures inside { result.is_inside ≡ is_inside self.now.lock }
        ensures waiting { result.is_waiting ≡ is_waiting self.now.lock }
        ensures mended { result.is_mended ≡ self.now.mended }
    {
        let (is_idle, is_inside, is_waiting) = match (&self.script_state, self.lock.stage()) {
            (ScriptState::Doing(..), _) => (false, true, false),
            (ScriptState::Free, Stage::Rest | Stage::Dead) => (true, false, false),
            (ScriptState::Free, Stage::Inside) => (true, true, false),
            (ScriptState::Free, Stage::Wait { .. }) => (false, false, true),
            (ScriptState::Free, _) => (false, false, false),
        };
        Readiness {
            is_idle,
            is_inside,
            is_waiting,
            is_mended: self.mended,
        }
    }

    /// Begins a call that is not refused.
    fn begin(&mut self, call: Call)
        requires { start_refusal self.old.layout (process_state_of self.old) call ≡ None }
        ensures { self.new ≡ machine_after_start self.old call }
    {
        self.barred = false;
        match call {
            Call::Lock => begin_lock(&mut self.lock, CoreCall::Lock),
            Call::Recover => begin_lock(&mut self.lock, CoreCall::Recover),
            Call::Withdraw => begin_lock(&mut self.lock, CoreCall::Withdraw),
            Call::Unlock if self.mended => begin_lock(&mut self.lock, CoreCall::Unlock),
            Call::Unlock => self.take_up(Purpose::Ruining),
            Call::Consistent => {
                let job = Job::seam_mending(self.layout, self.index);
                self.script_state = ScriptState::Doing(Purpose::Mending, job);
            }
            Call::Append { seq, value } => self.take_up(Purpose::Working(Task::Append {
                seq,
                value,
            })),
            Call::Close => self.take_up(Purpose::Working(Task::Close)),
            Call::Get(i) => self.take_up(Purpose::Working(Task::BoardGet(i))),
            Call::Put(i, v) => self.take_up(Purpose::Working(Task::BoardPut(i, v))),
        }
    }

    /// Begins the script of a purpose.
    fn take_up(&mut self, purpose: Purpose)
        requires inside { self.old.lock ≡ Inside }
        requires fits { task_refusal self.old.layout self.old.index (task_of purpose) ≡ None }
        ensures { self.new ≡ works self.old purpose }
    {
        let task = purpose.task();
        self.script_state = ScriptState::Doing(purpose, job(self.layout, self.index, task));
    }
}
