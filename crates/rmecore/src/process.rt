//! The lock's algorithm for one process, as a state machine over private memory alone. The machine names the word that it
//! loads or stores next. The caller performs that access and feeds the value back.

ghost use Rattle.std.specs.Prelude.{◌≡◌, ◌==◌, ◌||◌, Some, None, true, false, IfSome, OnOk, OnErr, IfOk, IfErr, is_none};
ghost use Rattle.rmecore.specs.Place.{above, is_before};

use crate::access::Access;
use crate::core_call::CoreCall;
use crate::core_done::CoreDone;
use crate::kind::Kind;
use crate::outer::Outer;
use crate::progress::{BLOCKED, Progress, SILENT};
use crate::refusal::Refusal;
use crate::restart::{after_shut, after_unmark, restart_call};
use crate::rules::{access_at, first_other, passes};
use crate::scan::Scan;
use crate::stage::Stage;
use crate::word::Word;
use std::fmt;
use std::marker::Model;

/// The state machine of process `index` of `procs`. `limit` is the greatest number that it may take.
#[derive(Drop)]
pub struct LockProcess {
    procs: u64,
    limit: u64,
    index: u64,
    stage: Stage,
}

impl fmt::Debug for LockProcess {
    fn fmt<W: fmt::Write>(&self, f: &mut fmt::Formatter<W>) -> fmt::Result {
        f.write_str("LockProcess")
    }
}

impl Model for LockProcess {
    ghost use Rattle.std.specs.Prelude.{◌<◌};
    ghost use Rattle.rmecore.specs.Machine.{Standing, place_of};

    ghost Value = { Standing };

    ghost view = { λ s. record { procs = s.procs; limit = s.limit; index = s.index; place = place_of s.procs s.index s.stage } };

    ghost invariant = { λ s. s.index < s.procs };
}

impl LockProcess {
    ghost use Rattle.std.specs.Prelude.{◌<◌};
    ghost use Rattle.rmecore.specs.Place.{Rest, Dead, place_after_start};
    ghost use Rattle.rmecore.specs.Refused.{start_refusal, is_idle};
    ghost use Rattle.rmecore.specs.Named.{own_number, own_call};
    ghost use Rattle.rmecore.specs.Machine.{Standing, first, place_of, next_access, after_access, at_door, at_wait, at_scan, progress, word_of, InLock, IsAllowed, IsLeast, StoresOwn};

    /// A process at rest.
    pub fn new(procs: u64, limit: u64, index: u64) -> LockProcess
        requires { index < procs }
        ensures { result ≡ record { procs = procs; limit = limit; index = index; place = Rest } }
    {
        LockProcess {
            procs,
            limit,
            index,
            stage: Stage::Rest,
        }
    }

    /// The next access, if a call is under way. Scans go by rising index.
    pub fn next(&self) -> Option<Access>
        ensures next { result ≡ next_access self.now }
        ensures allowed { IfSome result (IsAllowed self.now) }
        ensures least { IfSome result (IsLeast self.now) }
        ensures within { IfSome result (λ a. InLock self.now.procs (word_of a)) }
        ensures own { IfSome result (StoresOwn self.now.index) }
        ensures idle { is_none result ≡ is_idle self.now.place }
    {
        // For the proof alone: its value is read.
        let _ = &self.stage;
        self.access()
    }

    /// The next access, by the stage alone. None: no call is under way.
    fn access(&self) -> Option<Access>
        ensures next { result ≡ next_access self.now }
        ensures idle { is_none result ≡ is_idle self.now.place }
    {
        access_at(self.procs, self.limit, self.index, self.stage)
    }

    /// The scan in progress, if there is one, and its next load. The load is what `next` answers.
    pub fn scan(&self) -> Option<(Scan, Access)>
        ensures at { IfSome result (λ r. at_scan self.now r.0 ≡ self.now) }
        ensures next { IfSome result (λ r. next_access self.now ≡ Some r.1) }
        ensures allowed { IfSome result (λ r. IsAllowed self.now r.1) }
        ensures least { IfSome result (λ r. IsLeast self.now r.1) }
        ensures within { IfSome result (λ r. InLock self.now.procs (word_of r.1)) }
        ensures own { IfSome result (λ r. StoresOwn self.now.index r.1) }
    {
        // For the proof alone: its value is read.
        let _ = &self.stage;
        self.scan_access()
    }

    /// The scan in progress with its next load, by the stage alone.
    fn scan_access(&self) -> Option<(Scan, Access)>
        ensures at { IfSome result (λ r. at_scan self.now r.0 ≡ self.now) }
        ensures next { IfSome result (λ r. next_access self.now ≡ Some r.1) }
    {
        match self.stage {
            Stage::Door { next, greatest } => {
                let j = first_other(self.procs, self.index, next)?;
                let access = Access::Load(Kind::Peek, Word::Number(j));
                Some((Scan::Peeking { next, greatest }, access))
            }
            Stage::Wait {
                number,
                next,
                looked,
            } => {
                let j = first_other(self.procs, self.index, next)?;
                let scan = Scan::Waiting {
                    number,
                    next,
                    looked,
                };
                if looked {
                    return Some((scan, Access::Load(Kind::Weigh, Word::Number(j))));
                }
                Some((scan, Access::Load(Kind::Look, Word::Choosing(j))))
            }
            _ => None,
        }
    }

    /// The stage after the next step, and the step's effects, for the value that was read.
    fn after(&self, value: u64) -> (Stage, Progress)
        ensures place { place_of self.now.procs self.now.index result.0 ≡ after_access self.now (next_access self.now) value }
        ensures progress { result.1 ≡ progress self.now (next_access self.now) value }
    {
        let own = self.index;
        match self.stage {
            Stage::Rest | Stage::Dead | Stage::Inside => (self.stage, SILENT),
            Stage::ReadingChoosing { call } => {
                let choosing = value;
                (Stage::ReadingNumber { call, choosing }, SILENT)
            }
            Stage::ReadingNumber { call, choosing } => (
                Stage::ReadingInside {
                    call,
                    choosing,
                    number: value,
                },
                SILENT,
            ),
            Stage::ReadingInside {
                call,
                choosing,
                number,
            } => restart_call(own, call, choosing, number, value),
            Stage::Opening => (Stage::DOORWAY, Progress::deed(Outer::Begin(own))),
            Stage::Door { next, greatest } => self.after_door(next, greatest, value),
            Stage::Shutting { call, number } => after_shut(call, number),
            Stage::Wait {
                number,
                next,
                looked,
            } => self.after_wait(number, next, looked, value),
            Stage::Leaving => self.leave(),
            Stage::Withdrawing => self.quit(CoreDone::Withdrawn),
            Stage::Unmarking { call } => after_unmark(call),
        }
    }

    /// The `drop` of an exit. The mark is still to be cleared.
    fn leave(&self) -> (Stage, Progress)
        ensures { result ≡ (
          Stage.Unmarking CoreCall.Unlock,
          record {
            outer = Some (Outer.Leave self.now.index);
            done = None;
            blocked = false;
          },
        ) }
    {
        let call = CoreCall::Unlock;
        (
            Stage::Unmarking { call },
            Progress::deed(Outer::Leave(self.index)),
        )
    }

    /// The super-passage is given up, and the call ends.
    fn quit(&self, done: CoreDone) -> (Stage, Progress)
        ensures { result ≡ (Stage.Rest, record { outer = Some (Outer.Quit self.now.index); done = Some done; blocked = false }) }
    {
        (
            Stage::Rest,
            Progress::deed_and_end(Outer::Quit(self.index), done),
        )
    }

    /// The stage after a step in the doorway, and its effects.
    fn after_door(&self, next: u64, greatest: u64, value: u64) -> (Stage, Progress)
        ensures place { place_of self.now.procs self.now.index result.0
            ≡ after_access (at_door self.now next greatest) (next_access (at_door self.now next greatest)) value }
        ensures progress { result.1 ≡ progress (at_door self.now next greatest) (next_access (at_door self.now next greatest)) value }
    {
        match first_other(self.procs, self.index, next) {
            Some(j) => (
                Stage::Door {
                    next: j + 1,
                    greatest: greatest.max(value),
                },
                SILENT,
            ),
            None if greatest < self.limit => (
                Stage::Shutting {
                    call: CoreCall::Lock,
                    number: greatest + 1,
                },
                Progress::deed(Outer::Ready(self.index)),
            ),
            None => self.quit(CoreDone::Spent),
        }
    }

    /// The stage after a step while waiting, and its effects. A step that was blocked leaves the stage as it is.
    fn after_wait(&self, number: u64, next: u64, looked: bool, value: u64) -> (Stage, Progress)
        ensures place { place_of self.now.procs self.now.index result.0
            ≡ after_access (at_wait self.now number next looked) (next_access (at_wait self.now number next looked)) value }
        ensures progress { result.1 ≡ progress (at_wait self.now number next looked)
            (next_access (at_wait self.now number next looked)) value }
    {
        match first_other(self.procs, self.index, next) {
            Some(j) if looked && passes(number, self.index, value, j) => (
                Stage::Wait {
                    number,
                    next: j + 1,
                    looked: false,
                },
                SILENT,
            ),
            Some(_) if looked || value != 0 => (
                Stage::Wait {
                    number,
                    next,
                    looked,
                },
                BLOCKED,
            ),
            Some(_) => (
                Stage::Wait {
                    number,
                    next,
                    looked: true,
                },
                SILENT,
            ),
            None => (
                Stage::Inside,
                Progress::deed_and_end(Outer::Enter(self.index), CoreDone::In),
            ),
        }
    }

    /// Takes the next step with the value that was read. A store ignores the value. If no call is under way, nothing
    /// changes.
    pub fn feed(&mut self, value: u64) -> Progress
        ensures place { self.new ≡ record self.old { place = after_access self.old (next_access self.old) value } }
        ensures allowed { IfSome (next_access self.old) (IsAllowed self.old) }
        ensures progress { result ≡ progress self.old (next_access self.old) value }
    {
        let (stage, progress) = self.after(value);
        self.stage = stage;
        progress
    }

    /// Takes the next step of this scan. It does what `feed` does, with fewer cases to distinguish.
    pub fn scan_on(&mut self, scan: Scan, value: u64) -> Progress
        requires { at_scan self.old scan ≡ self.old }
        ensures place { self.new ≡ record self.old { place = after_access self.old (next_access self.old) value } }
        ensures allowed { IfSome (next_access self.old) (IsAllowed self.old) }
        ensures progress { result ≡ progress self.old (next_access self.old) value }
    {
        let (to, progress) = self.after_scan(scan, value);
        self.stage = to;
        progress
    }

    /// The stage after a step of a scan, and its effects.
    fn after_scan(&self, scan: Scan, value: u64) -> (Stage, Progress)
        ensures place { place_of self.now.procs self.now.index result.0
            ≡ after_access (at_scan self.now scan) (next_access (at_scan self.now scan)) value }
        ensures progress { result.1 ≡ progress (at_scan self.now scan) (next_access (at_scan self.now scan)) value }
    {
        match scan {
            Scan::Peeking { next, greatest } => self.after_door(next, greatest, value),
            Scan::Waiting {
                number,
                next,
                looked,
            } => self.after_wait(number, next, looked, value),
        }
    }

    /// What `feed` would answer for this value. Nothing changes.
    pub fn outlook(&self, value: u64) -> Progress
        ensures { result ≡ progress self.now (next_access self.now) value }
    {
        self.after(value).1
    }

    /// The stage, in the machine's own representation.
    pub fn stage(&self) -> Stage
        ensures { place_of self.now.procs self.now.index result ≡ self.now.place }
    {
        self.stage
    }

    /// Puts the machine at a stage. For this workspace alone: the running lock's fast path takes steps without the machine
    /// and then sets its stage. Any stage is accepted, also one that no step reaches.
    pub fn seam_machine_state(&mut self, to: Stage)
        ensures { self.new ≡ record self.old { place = place_of self.old.procs self.old.index to } }
    {
        let here = &mut self.stage;
        *here = to;
    }

    /// Why `start` would refuse this call now, if it would.
    pub fn refusal(&self, call: CoreCall) -> Option<Refusal>
        ensures { result ≡ start_refusal self.now.place call }
    {
        self.stage_at_start(call).err()
    }

    /// The process's own number, if the stage holds it.
    pub fn number(&self) -> Option<u64>
        ensures { result ≡ own_number self.now.place }
    {
        match self.stage {
            Stage::ReadingInside { number, .. }
            | Stage::Shutting { number, .. }
            | Stage::Wait { number, .. } => Some(number),
            _ => None,
        }
    }

    /// The call under way, if the stage holds it.
    pub fn call(&self) -> Option<CoreCall>
        ensures { result ≡ own_call self.now.place }
    {
        match self.stage {
            Stage::ReadingChoosing { call }
            | Stage::ReadingNumber { call, .. }
            | Stage::ReadingInside { call, .. }
            | Stage::Shutting { call, .. }
            | Stage::Unmarking { call } => Some(call),
            _ => None,
        }
    }

    /// Starts a call.
    ///
    /// `CallUnderWay`: another call has to end first. `AlreadyIn`: a lock or a recovery of a process that is inside.
    /// `NotOwner`: an unlock of a process that is not inside. `NotWaiting`: a withdraw where no lock waits.
    pub fn start(&mut self, call: CoreCall) -> Result<(), Refusal>
        ensures ok { OnOk result (place_after_start self.old.place call ≡ Some self.new.place) }
        ensures same { self.new ≡ record self.old { place = self.new.place } }
        ensures accepted { OnOk result (start_refusal self.old.place call ≡ None) }
        ensures refused { IfErr result (λ e. start_refusal self.old.place call ≡ Some e) }
        ensures not_allowed { OnErr result (place_after_start self.old.place call ≡ None) }
        ensures err { OnErr result (self.new ≡ self.old) }
    {
        self.stage = self.stage_at_start(call)?;
        Ok(())
    }

    /// The stage in which a call begins, or why it is refused.
    fn stage_at_start(&self, call: CoreCall) -> Result<Stage, Refusal>
        ensures ok { IfOk result (λ stage. place_after_start self.now.place call ≡ Some (place_of self.now.procs self.now.index stage)) }
        ensures accepted { OnOk result (start_refusal self.now.place call ≡ None) }
        ensures refused { IfErr result (λ e. start_refusal self.now.place call ≡ Some e) }
        ensures not_allowed { OnErr result (place_after_start self.now.place call ≡ None) }
    {
        match (call, self.stage) {
            (CoreCall::Withdraw, Stage::Wait { .. }) => Ok(Stage::Withdrawing),
            (CoreCall::Withdraw, _) => Err(Refusal::NotWaiting),
            (CoreCall::Unlock, Stage::Inside) => Ok(Stage::Leaving),
            (CoreCall::Unlock, Stage::Rest | Stage::Dead) => Err(Refusal::NotOwner),
            (CoreCall::Lock | CoreCall::Recover, Stage::Rest | Stage::Dead) => {
                Ok(Stage::ReadingChoosing { call })
            }
            (CoreCall::Lock | CoreCall::Recover, Stage::Inside) => Err(Refusal::AlreadyIn),
            (_, _) => Err(Refusal::CallUnderWay),
        }
    }

    /// Crashes: the private memory is lost, and with it the call under way.
    pub fn crash(&mut self)
        ensures { self.new ≡ record self.old { place = Dead } }
    {
        self.stage = Stage::Dead;
    }
}
