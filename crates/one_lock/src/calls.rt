//! The calls of a member, but for those of the whole mailbox. Each takes the world's mutex once for each of its steps. Contracts hold if the call returns.
//!
//! Each plan is asked before each step and once before the answer, while the mutex is not held. The first asking that falls
//! ends the call. A call that is refused for the member's state or its arguments takes no step and asks nothing.

ghost use Rattle.std.specs.Prelude.{◌≡◌, ◌≢◌, ◌<◌, ◌≤◌, ◌⊎◌, ◌↔◌, ℕ, Ok, Some, None, IfErr, IsErrOf, OnOk, OnErr, IsNone, IsSome, true, false};
ghost use Rattle.one_lock.specs.Answers.{ReturnsAnswer, entry_by, found_by, mended_by, word_by};
ghost use Rattle.one_lock.specs.Member.{KeepsProcess, AskedOnceMore, CountsSteps, is_in, of_lock, of_wait, of_steps, of_consistent, falls_by, stands_entered, stands_out, stands_found, stands_mended, stands_still};

use crate::member::Member;
use crate::member_state::MemberState;
use crate::sizes::Sizes;
use crash_plans::CrashPlan;
use redomail::Reply;
use rmecore::Found;
use rmeworld::{Answer, Call};
use std::sync::Wait;
use std::sync::ledger::Ledger;
use table_runs::{Entry, LockFault};

/// The number of board words.
const BOARD: u64 = 4;

/// The result of a lock from its answer, and the member's state after it. None: the lock has used up its turns.
pub(crate) fn lock_result(answer: Option<Answer>) -> (Result<Entry, LockFault>, MemberState)
    ensures fact { result.0 ≡ entry_by answer }
    ensures stands { result.1 ≡ stands_entered result.0 }
    ensures inside { OnOk result.0 (is_in result.1 ≡ true) }
    ensures falls { (f : ℕ) → falls_by result.0 f ≡ f }
    ensures faults { IfErr result.0 (λ e. of_lock e ≡ true) }
    ensures patient { IsErrOf result.0 LockFault.NotYet → IsNone answer }
{
    match answer {
        None => (Err(LockFault::NotYet), MemberState::Lost),
        Some(Answer::Clean) => (Ok(Entry::Clean), MemberState::Mended),
        Some(Answer::OwnerDied) => (Ok(Entry::OwnerDied), MemberState::Unmended),
        Some(Answer::NumbersSpent) => (Err(LockFault::NumbersSpent), MemberState::Out),
        Some(_) => (Err(LockFault::NotRecoverable), MemberState::Out),
    }
}

/// The result of a recovery from its answer, and the member's state after it.
fn recovery_result(answer: Option<Answer>) -> (Result<Found, LockFault>, MemberState)
    ensures fact { result.0 ≡ found_by answer }
    ensures stands { result.1 ≡ stands_found result.0 }
    ensures falls { (f : ℕ) → falls_by result.0 f ≡ f }
    ensures fine { OnErr result.0 ⊥ }
{
    match answer {
        Some(Answer::Found(Found::Inside)) => (Ok(Found::Inside), MemberState::Unmended),
        Some(Answer::Found(Found::Left)) => (Ok(Found::Left), MemberState::Out),
        Some(Answer::Found(Found::Doorway)) => (Ok(Found::Doorway), MemberState::Out),
        Some(Answer::Found(Found::Waiting)) => (Ok(Found::Waiting), MemberState::Out),
        _ => (Ok(Found::Idle), MemberState::Out),
    }
}

/// The result of `consistent` from its answer, and the member's state after it.
pub(crate) fn mending_result(answer: Option<Answer>) -> (Result<bool, LockFault>, MemberState)
    ensures fact { result.0 ≡ mended_by answer }
    ensures stands { result.1 ≡ stands_mended result.0 }
    ensures falls { (f : ℕ) → falls_by result.0 f ≡ f }
    ensures faults { IfErr result.0 (λ e. e ≡ LockFault.NotRecoverable) }
{
    match answer {
        Some(Answer::Mail(Reply::Mended(repaired))) => (Ok(repaired), MemberState::Mended),
        _ => (Err(LockFault::NotRecoverable), MemberState::Unmended),
    }
}

/// The board word that a call read.
fn word_read(answer: Option<Answer>) -> u64
    ensures { Ok result ≡ word_by answer }
{
    match answer {
        Some(Answer::Mail(Reply::Word(word))) => word,
        _ => 0,
    }
}

impl<L: Ledger, S: Sizes> Member<L, S> {
    /// Enters the section, also after a crash. `OwnerDied`: the process crashed inside. `NotYet`: it was blocked once more
    /// than `turns` times; the next lock waits on with the same number. `AlreadyIn`: the process is in the section.
    /// `Crashed`: the plan fell. `NumbersSpent`: no number is left. `NotRecoverable`: the lock is ruined. `OutOfMemory`: a
    /// step's deed could not be stored; the process is as after a crash.
    pub fn lock_within<R: Wait, P: CrashPlan>(
        &mut self,
        rt: &R,
        plan: &mut P,
        turns: u64,
    ) -> Result<Entry, LockFault>
        ensures refused { IsErrOf result LockFault.AlreadyIn ↔ (is_in self.old.standing ≡ true) }
        ensures unasked { is_in self.old.standing ≡ true → (self.new ≡ self.old) × (P.askings plan.new ≡ P.askings plan.old) }
        ensures asked { is_in self.old.standing ≡ false → AskedOnceMore self.old self.new (P.askings plan.old) (P.askings plan.new) }
        ensures counted { is_in self.old.standing ≡ false → CountsSteps self.old self.new }
        ensures fallen { (P.askings plan.new).fallen ≡ falls_by result (P.askings plan.old).fallen }
        ensures goes { KeepsProcess self.old self.new }
        ensures stands { is_in self.old.standing ≡ false → self.new.standing ≡ stands_entered result }
        ensures faults { is_in self.old.standing ≡ false → IfErr result (λ e. of_lock e ≡ true) }
        ensures answered { is_in self.old.standing ≡ false
            → ReturnsAnswer S.named entry_by self.old Call.Lock (Some turns) self.new result }
    {
        self.lock_by(rt, plan, Some(turns))
    }

    /// Enters the section, and waits as long as it has to. Its faults are those of `lock_within`, but for `NotYet`.
    pub fn lock<R: Wait, P: CrashPlan>(&mut self, rt: &R, plan: &mut P) -> Result<Entry, LockFault>
        ensures refused { IsErrOf result LockFault.AlreadyIn ↔ (is_in self.old.standing ≡ true) }
        ensures unasked { is_in self.old.standing ≡ true → (self.new ≡ self.old) × (P.askings plan.new ≡ P.askings plan.old) }
        ensures asked { is_in self.old.standing ≡ false → AskedOnceMore self.old self.new (P.askings plan.old) (P.askings plan.new) }
        ensures counted { is_in self.old.standing ≡ false → CountsSteps self.old self.new }
        ensures fallen { (P.askings plan.new).fallen ≡ falls_by result (P.askings plan.old).fallen }
        ensures goes { KeepsProcess self.old self.new }
        ensures stands { is_in self.old.standing ≡ false → self.new.standing ≡ stands_entered result }
        ensures faults { is_in self.old.standing ≡ false → IfErr result (λ e. of_wait e ≡ true) }
        ensures answered { is_in self.old.standing ≡ false → ReturnsAnswer S.named entry_by self.old Call.Lock None self.new result }
    {
        self.lock_by(rt, plan, None)
    }

    /// A lock with this many turns, or without a limit of them.
    #[tactic(auto, using(crate::proofs::Answered::cut_off, crate::proofs::Answered::as_reported))]
    fn lock_by<R: Wait, P: CrashPlan>(
        &mut self,
        rt: &R,
        plan: &mut P,
        turns: Option<u64>,
    ) -> Result<Entry, LockFault>
        ensures refused { IsErrOf result LockFault.AlreadyIn ↔ (is_in self.old.standing ≡ true) }
        ensures unasked { is_in self.old.standing ≡ true → (self.new ≡ self.old) × (P.askings plan.new ≡ P.askings plan.old) }
        ensures patient { IsErrOf result LockFault.NotYet → IsSome turns }
        ensures asked { is_in self.old.standing ≡ false → AskedOnceMore self.old self.new (P.askings plan.old) (P.askings plan.new) }
        ensures counted { is_in self.old.standing ≡ false → CountsSteps self.old self.new }
        ensures fallen { (P.askings plan.new).fallen ≡ falls_by result (P.askings plan.old).fallen }
        ensures goes { KeepsProcess self.old self.new }
        ensures stands { is_in self.old.standing ≡ false → self.new.standing ≡ stands_entered result }
        ensures faults { is_in self.old.standing ≡ false → IfErr result (λ e. of_lock e ≡ true) }
        ensures answered { is_in self.old.standing ≡ false → ReturnsAnswer S.named entry_by self.old Call.Lock turns self.new result }
    {
        if self.standing.is_in() {
            return Err(LockFault::AlreadyIn);
        }
        let (entry, standing) = lock_result(self.begin(rt, plan, Call::Lock, turns)?);
        self.conclude(plan, entry, standing)
    }

    /// Finds out where a crash has left the process, with as few steps as possible. A process that crashed inside is inside
    /// again, and has to mend. `AlreadyIn`: the process is in the section. `Crashed` and `OutOfMemory` as for `lock_within`.
    #[tactic(auto, using(crate::proofs::Answered::cut_off, crate::proofs::Answered::as_reported))]
    pub fn recover<R: Wait, P: CrashPlan>(
        &mut self,
        rt: &R,
        plan: &mut P,
    ) -> Result<Found, LockFault>
        ensures refused { IsErrOf result LockFault.AlreadyIn ↔ (is_in self.old.standing ≡ true) }
        ensures unasked { is_in self.old.standing ≡ true → (self.new ≡ self.old) × (P.askings plan.new ≡ P.askings plan.old) }
        ensures asked { is_in self.old.standing ≡ false → AskedOnceMore self.old self.new (P.askings plan.old) (P.askings plan.new) }
        ensures counted { is_in self.old.standing ≡ false → CountsSteps self.old self.new }
        ensures fallen { (P.askings plan.new).fallen ≡ falls_by result (P.askings plan.old).fallen }
        ensures goes { KeepsProcess self.old self.new }
        ensures stands { is_in self.old.standing ≡ false → self.new.standing ≡ stands_found result }
        ensures faults { is_in self.old.standing ≡ false → IfErr result (λ e. of_steps e ≡ true) }
        ensures answered { is_in self.old.standing ≡ false → ReturnsAnswer S.named found_by self.old Call.Recover None self.new result }
    {
        if self.standing.is_in() {
            return Err(LockFault::AlreadyIn);
        }
        let (found, standing) = recovery_result(self.begin(rt, plan, Call::Recover, None)?);
        self.conclude(plan, found, standing)
    }

    /// Mends what a crash inside has left (POSIX: pthread_mutex_consistent). True: an append was cut off after its commit.
    /// `NotRecoverable`: the lock is ruined; the member is still inside and has not mended. `NotInconsistent`: there is
    /// nothing to mend, and no step was taken. `Crashed` and `OutOfMemory` as for `lock_within`.
    #[tactic(auto, using(crate::proofs::Answered::cut_off, crate::proofs::Answered::as_reported))]
    pub fn consistent<R: Wait, P: CrashPlan>(
        &mut self,
        rt: &R,
        plan: &mut P,
    ) -> Result<bool, LockFault>
        ensures refused { IsErrOf result LockFault.NotInconsistent ↔ (self.old.standing ≢ MemberState.Unmended) }
        ensures unasked { self.old.standing ≢ MemberState.Unmended
            → (self.new ≡ self.old) × (P.askings plan.new ≡ P.askings plan.old) }
        ensures asked { self.old.standing ≡ MemberState.Unmended
            → AskedOnceMore self.old self.new (P.askings plan.old) (P.askings plan.new) }
        ensures counted { self.old.standing ≡ MemberState.Unmended → CountsSteps self.old self.new }
        ensures fallen { (P.askings plan.new).fallen ≡ falls_by result (P.askings plan.old).fallen }
        ensures goes { KeepsProcess self.old self.new }
        ensures stands { self.old.standing ≡ MemberState.Unmended → self.new.standing ≡ stands_mended result }
        ensures faults { self.old.standing ≡ MemberState.Unmended → IfErr result (λ e. of_consistent e ≡ true) }
        ensures answered { self.old.standing ≡ MemberState.Unmended
            → ReturnsAnswer S.named mended_by self.old Call.Consistent None self.new result }
    {
        if self.standing != MemberState::Unmended {
            return Err(LockFault::NotInconsistent);
        }
        let (repaired, standing) = mending_result(self.begin(rt, plan, Call::Consistent, None)?);
        self.conclude(plan, repaired, standing)
    }

    /// Leaves the section. A holder that has to mend and hasn't ruins the lock. `NotOwner`: the process isn't in the
    /// section. `Crashed` and `OutOfMemory` as for `lock_within`.
    #[tactic(auto, using(crate::proofs::Answered::cut_off, crate::proofs::Answered::as_reported))]
    pub fn unlock<R: Wait, P: CrashPlan>(&mut self, rt: &R, plan: &mut P) -> Result<(), LockFault>
        ensures refused { IsErrOf result LockFault.NotOwner ↔ (is_in self.old.standing ≡ false) }
        ensures unasked { is_in self.old.standing ≡ false → (self.new ≡ self.old) × (P.askings plan.new ≡ P.askings plan.old) }
        ensures asked { is_in self.old.standing ≡ true → AskedOnceMore self.old self.new (P.askings plan.old) (P.askings plan.new) }
        ensures counted { is_in self.old.standing ≡ true → CountsSteps self.old self.new }
        ensures fallen { (P.askings plan.new).fallen ≡ falls_by result (P.askings plan.old).fallen }
        ensures goes { KeepsProcess self.old self.new }
        ensures stands { is_in self.old.standing ≡ true → self.new.standing ≡ stands_out result }
        ensures faults { is_in self.old.standing ≡ true → IfErr result (λ e. of_steps e ≡ true) }
        ensures answered { is_in self.old.standing ≡ true
            → ReturnsAnswer S.named (λ _. Ok tt) self.old Call.Unlock None self.new result }
    {
        if !self.standing.is_in() {
            return Err(LockFault::NotOwner);
        }
        self.begin(rt, plan, Call::Unlock, None)?;
        self.conclude(plan, Ok(()), MemberState::Out)
    }

    /// Reads a word of the board, 0 to 3. `BadIndex`: there is no such word. `NotOwner`: the process isn't in the section.
    /// `Crashed` and `OutOfMemory` as for `lock_within`.
    #[tactic(auto, using(crate::proofs::Answered::cut_off, crate::proofs::Answered::as_reported))]
    pub fn get<R: Wait, P: CrashPlan>(
        &mut self,
        rt: &R,
        i: u64,
        plan: &mut P,
    ) -> Result<u64, LockFault>
        ensures refused { IsErrOf result LockFault.NotOwner ↔ (is_in self.old.standing ≡ false) }
        ensures past { IsErrOf result LockFault.BadIndex ↔ ((is_in self.old.standing ≡ true) × (4 ≤ i)) }
        ensures unasked { is_in self.old.standing ≡ false → (self.new ≡ self.old) × (P.askings plan.new ≡ P.askings plan.old) }
        ensures untaken { 4 ≤ i → (self.new ≡ self.old) × (P.askings plan.new ≡ P.askings plan.old) }
        ensures asked { is_in self.old.standing ≡ true → i < 4
            → AskedOnceMore self.old self.new (P.askings plan.old) (P.askings plan.new) }
        ensures counted { is_in self.old.standing ≡ true → i < 4 → CountsSteps self.old self.new }
        ensures fallen { (P.askings plan.new).fallen ≡ falls_by result (P.askings plan.old).fallen }
        ensures goes { KeepsProcess self.old self.new }
        ensures stands { is_in self.old.standing ≡ true → i < 4 → self.new.standing ≡ stands_still self.old.standing result }
        ensures faults { is_in self.old.standing ≡ true → i < 4 → IfErr result (λ e. of_steps e ≡ true) }
        ensures answered { is_in self.old.standing ≡ true → i < 4
            → ReturnsAnswer S.named word_by self.old (Call.Get i) None self.new result }
    {
        if !self.standing.is_in() {
            return Err(LockFault::NotOwner);
        }
        if i >= BOARD {
            return Err(LockFault::BadIndex);
        }
        let standing = self.standing;
        let word = word_read(self.begin(rt, plan, Call::Get(i), None)?);
        self.conclude(plan, Ok(word), standing)
    }

    /// Writes a word of the board, 0 to 3. `BadIndex`: there is no such word. `NotOwner`: the process isn't in the section.
    /// `Crashed` and `OutOfMemory` as for `lock_within`.
    #[tactic(auto, using(crate::proofs::Answered::cut_off, crate::proofs::Answered::as_reported))]
    pub fn put<R: Wait, P: CrashPlan>(
        &mut self,
        rt: &R,
        i: u64,
        value: u64,
        plan: &mut P,
    ) -> Result<(), LockFault>
        ensures refused { IsErrOf result LockFault.NotOwner ↔ (is_in self.old.standing ≡ false) }
        ensures past { IsErrOf result LockFault.BadIndex ↔ ((is_in self.old.standing ≡ true) × (4 ≤ i)) }
        ensures unasked { is_in self.old.standing ≡ false → (self.new ≡ self.old) × (P.askings plan.new ≡ P.askings plan.old) }
        ensures untaken { 4 ≤ i → (self.new ≡ self.old) × (P.askings plan.new ≡ P.askings plan.old) }
        ensures asked { is_in self.old.standing ≡ true → i < 4
            → AskedOnceMore self.old self.new (P.askings plan.old) (P.askings plan.new) }
        ensures counted { is_in self.old.standing ≡ true → i < 4 → CountsSteps self.old self.new }
        ensures fallen { (P.askings plan.new).fallen ≡ falls_by result (P.askings plan.old).fallen }
        ensures goes { KeepsProcess self.old self.new }
        ensures stands { is_in self.old.standing ≡ true → i < 4 → self.new.standing ≡ stands_still self.old.standing result }
        ensures faults { is_in self.old.standing ≡ true → i < 4 → IfErr result (λ e. of_steps e ≡ true) }
        ensures answered { is_in self.old.standing ≡ true → i < 4
            → ReturnsAnswer S.named (λ _. Ok tt) self.old (Call.Put i value) None self.new result }
    {
        if !self.standing.is_in() {
            return Err(LockFault::NotOwner);
        }
        if i >= BOARD {
            return Err(LockFault::BadIndex);
        }
        let standing = self.standing;
        self.begin(rt, plan, Call::Put(i, value), None)?;
        self.conclude(plan, Ok(()), standing)
    }
}
