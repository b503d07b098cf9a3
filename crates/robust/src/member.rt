//! A process of the running lock.
ghost use Rattle.std.specs.Prelude.{◌≡◌, ◌≢◌, ℕ, ◌+◌, ◌*◌, ◌≤◌, ◌⊎◌, List, [], ◌∷◌, length, Some, None, Err, IfOk, IfErr, OnOk, OnErr};
ghost use Rattle.redomail.specs.declared.reply.Reply.{Reply as ReplyOf};
ghost use Rattle.table_runs.specs.declared.entry.TakenStep.{TakenStep};
ghost use Rattle.rmeworld.specs.OwnSteps.{most_steps};
ghost use Rattle.table_runs.specs.SeatView.{new_seat_view, process_state_now, IsSeatView};
ghost use Rattle.table_runs.specs.WorkingMembers.{Seated, began};
ghost use Rattle.crash_plans.specs.Plans.{NeverCrashes};
ghost use Rattle.table_runs.specs.Calls.{Served};
ghost use Rattle.table_runs.specs.Under.{IsAnswerOf};
ghost use Rattle.table_runs.specs.ReadMessages.{ReadsFrom, ReadsCount};
ghost use Rattle.table_runs.specs.Headline.{IsSoundRun};
ghost use Rattle.table_runs.specs.Tabled.{table_steps, LockCounts, LockCountsOut};
ghost use Rattle.robust.specs.MemberLaws.{seat_of};
ghost use Rattle.table_runs.specs.Board.{last_put, value_or, LastIsOwn};
ghost use Rattle.table_runs.specs.Faults.{refusal_now, free_to_start, FailsUnblocked, FailsOut, AnsweredIn, LockEnds, LockFails, answer_of};

use crate::access::port::Port;
use crate::call::call_driver::CallDriver;
use crate::laws;
use crash_plans::CrashPlan;
use redomail::{Message, Reply};
use rmecore::Found;
use rmeworld::{Answer, Call};
use std::alloc::{AllocError, Global};
use std::marker::Model;
use std::sync::Wait;
use table_runs::{Entry, LockFault, Setup};

/// A process of the running lock. It owns a seat at the table and may move to a thread. Contracts see it as its view, a
/// prefix of the one run, with the own steps of its last call.
///
/// A call that is refused (`AlreadyIn`, `NotOwner`, `NotInconsistent`, `BadIndex`, `BadWidth`) has taken no step and asked
/// nothing. After `Crashed` the process has lost its private memory. The next `lock`, `lock_within`, `recover` or whole
/// mailbox call finds its place again from its lock words. Until then every other call but `read_from` is refused. An append
/// that crashed is sent again with the same number: it answers `Already` if the message was stored.
#[derive(Drop)]
pub struct Member {
    pub(crate) call_driver: CallDriver,
}

impl Model for Member {
    ghost use Rattle.std.specs.Prelude.{◌≡◌, None};
    ghost use Rattle.table_runs.specs.WorkingMembers.{Seated};

    ghost Value = { Seated };

    ghost view = { λ m. m.call_driver };

    ghost invariant = { λ m. m.call_driver.seat_view.start ≡ None };
}

impl Member {
    /// A member at rest, with this port.
    pub(crate) fn new(port: Port) -> Member
        requires { port ≡ new_seat_view port.table port.setup port.by }
        ensures { result ≡ record { seat_view = port; steps = 0 } }
    {
        Member {
            call_driver: CallDriver::new(port),
        }
    }

    /// Gives its port back.
    pub(crate) fn into_port(self) -> Port
        ensures { result ≡ self.seat_view }
    {
        self.call_driver.into_port()
    }

    /// The sizes of its arena.
    pub(crate) fn setup(&self) -> Setup
        ensures is { result ≡ self.now.seat_view.setup }
        ensures seat_view { IsSeatView self.now.seat_view }
    {
        self.call_driver.setup()
    }

    /// Which process it is, from 0. The run of which its view is a prefix is sound: no two are inside, nobody enters
    /// before one that crashed inside has entered again, first come, first served, and each sender's messages are there once, in order.
    pub fn number(&self) -> u64
        ensures is { result ≡ self.now.seat_view.by }
        ensures seat_view { IsSeatView self.now.seat_view }
        ensures sound { IsSoundRun self.now.seat_view.setup self.now.seat_view.seen }
    {
        laws::every_run_is_sound();
        self.call_driver.by()
    }

    /// The own steps of the last call that was started, at most the greatest u64; 0 before any call (docs/theory/model.md, Own
    /// steps of a call). A whole mailbox call is one call. A refused call and `read_from` leave the number as it was.
    pub fn steps(&self) -> u64
        ensures { result ≡ self.now.steps }
    {
        self.call_driver.steps()
    }

    /// The messages shown, from `place` on. It reads from anywhere, also while a lock still waits or after a crash. The
    /// messages are those of one moment, the reading of count, so they are no older than anything that the caller has seen.
    /// It is no call of the process: `steps` answers as before (docs/theory/mailbox.md, Entries below count).
    ///
    /// `AllocError`: there was no room for all of them, and only count was read. Ask again from a later place, or once there
    /// is memory.
    pub fn read_from(&mut self, alloc: Global, place: u64) -> Result<Vec<Message>, AllocError>
        ensures messages { IfOk result (λ v. ReadsFrom self.old place v.items self.new) }
        ensures no_room { OnErr result (ReadsCount self.old place self.new) }
        ensures seat { seat_of self.new ≡ seat_of self.old }
    {
        self.call_driver.read_from(alloc, place)
    }

    /// Leaves the section (POSIX: `pthread_mutex_unlock`; docs/theory/model.md, Unlock). A holder that entered again after a crash
    /// and hasn't mended ruins the lock for good, as an unlock without `pthread_mutex_consistent` does.
    ///
    /// `NotOwner` (POSIX: EPERM): the process isn't in the section, or crashed there; lock first. `Crashed`: it may have
    /// left or not; a `recover` answers which (`Inside`, `Left` or `Idle`), and a lock goes on from either.
    pub fn unlock<C: CrashPlan>(&mut self, plan: &mut C) -> Result<(), LockFault>
        ensures accepted { OnOk result (refusal_now self.old Call.Unlock ≡ None) }
        ensures served { OnOk result ((mine : List TakenStep)
            × Served (began self.old Call.Unlock) Call.Unlock (Answer.Unlocked ∷ []) 0 self.new mine
            × NeverCrashes (length mine + 1) (C.askings plan.old) (C.askings plan.new)) }
        ensures fails { IfErr result (FailsUnblocked self.old Call.Unlock self.new (C.askings plan.old) (C.askings plan.new)) }
        ensures seat { seat_of self.new ≡ seat_of self.old }
        ensures table { OnOk result (table_steps self.old.seat_view Call.Unlock Answer.Unlocked ≡ Some self.new.steps) }
        ensures few { refusal_now self.old Call.Unlock ≡ None
            → self.new.steps ≤ most_steps self.old.seat_view.setup.layout Call.Unlock }
    {
        if self.call_driver.is_clean() && plan.never_crashes() {
            self.call_driver.fast_unlock(plan);
            return Ok(());
        }
        match self.call_driver.call(plan, &Call::Unlock)? {
            Answer::Unlocked => Ok(()),
            _ => unreachable!(),
        }
    }

    /// Gives up the place in the line, after a call that answered NotYet (docs/theory/model.md, Withdraw). A later lock is after
    /// those that have a number then.
    ///
    /// `NotOwner`: the process doesn't wait, since its last call didn't answer NotYet; there is nothing to give up.
    /// `Crashed`: the place may still be held; a lock waits on with it, and a `recover` answers which (`Waiting` or `Idle`).
    pub fn withdraw<C: CrashPlan>(&mut self, plan: &mut C) -> Result<(), LockFault>
        ensures accepted { OnOk result (refusal_now self.old Call.Withdraw ≡ None) }
        ensures served { OnOk result ((mine : List TakenStep)
            × Served (began self.old Call.Withdraw) Call.Withdraw (Answer.Withdrawn ∷ []) 0 self.new mine
            × NeverCrashes (length mine + 1) (C.askings plan.old) (C.askings plan.new)) }
        ensures fails { IfErr result (FailsUnblocked self.old Call.Withdraw self.new (C.askings plan.old) (C.askings plan.new)) }
        ensures seat { seat_of self.new ≡ seat_of self.old }
        ensures table { OnOk result (table_steps self.old.seat_view Call.Withdraw Answer.Withdrawn ≡ Some self.new.steps) }
        ensures few { refusal_now self.old Call.Withdraw ≡ None
            → self.new.steps ≤ most_steps self.old.seat_view.setup.layout Call.Withdraw }
    {
        match self.call_driver.call(plan, &Call::Withdraw)? {
            Answer::Withdrawn => Ok(()),
            _ => unreachable!(),
        }
    }

    /// Reads a word of the board, 0 to 3, as a holder: the value of the run's last `put` there, or 0 where there is none. If
    /// the caller has put there since it entered, crashes between or not, that last `put` is its own (docs/theory/mailbox.md,
    /// BoardGet).
    ///
    /// `NotOwner`: the process isn't in the section, or crashed there; lock first. `BadIndex`: there is no such word; take
    /// one from 0 to 3. `Crashed`: lock again, which answers `OwnerDied`, or `NotRecoverable` where the lock is ruined.
    pub fn get<C: CrashPlan>(&mut self, i: u64, plan: &mut C) -> Result<u64, LockFault>
        ensures accepted { OnOk result (refusal_now self.old (Call.Get i) ≡ None) }
        ensures served { IfOk result (λ v. (mine : List TakenStep)
            × Served (began self.old (Call.Get i)) (Call.Get i) (Answer.Mail (Reply.Word v) ∷ []) 0 self.new mine
            × NeverCrashes (length mine + 1) (C.askings plan.old) (C.askings plan.new)) }
        ensures last { IfOk result (λ v. v ≡ value_or (last_put self.old.seat_view.setup i self.new.seat_view.seen) 0) }
        ensures own { OnOk result (LastIsOwn self.old.seat_view.setup self.old.seat_view.by i self.new.seat_view.seen) }
        ensures fails { IfErr result (FailsUnblocked self.old (Call.Get i) self.new (C.askings plan.old) (C.askings plan.new)) }
        ensures seat { seat_of self.new ≡ seat_of self.old }
        ensures table { IfOk result (λ v. table_steps self.old.seat_view (Call.Get i) (Answer.Mail (Reply.Word v))
            ≡ Some self.new.steps) }
        ensures few { refusal_now self.old (Call.Get i) ≡ None
            → self.new.steps ≤ most_steps self.old.seat_view.setup.layout (Call.Get i) }
    {
        // For the proof alone: its value is read.
        let _by = self.call_driver.by();
        match self.call_driver.call(plan, &Call::Get(i))? {
            Answer::Mail(Reply::Word(value)) => Ok(value),
            _ => unreachable!(),
        }
    }

    /// Writes a word of the board, 0 to 3, as a holder (docs/theory/mailbox.md, BoardPut).
    ///
    /// `NotOwner`: the process isn't in the section, or crashed there; lock first. `BadIndex`: there is no such word; take
    /// one from 0 to 3. `Crashed`: the word may be written or not; lock again, which answers `OwnerDied`, and write it
    /// again; or it answers `NotRecoverable`, where the lock is ruined.
    pub fn put<C: CrashPlan>(&mut self, i: u64, value: u64, plan: &mut C) -> Result<(), LockFault>
        ensures accepted { OnOk result (refusal_now self.old (Call.Put i value) ≡ None) }
        ensures served { OnOk result ((reply : ReplyOf) × (mine : List TakenStep)
            × Served (began self.old (Call.Put i value)) (Call.Put i value) (Answer.Mail reply ∷ []) 0 self.new mine
            × NeverCrashes (length mine + 1) (C.askings plan.old) (C.askings plan.new)) }
        ensures last { OnOk result ((e : TakenStep) × (last_put self.old.seat_view.setup i self.new.seat_view.seen ≡ Some e)
            × (e.by ≡ self.old.seat_view.by) × (e.value ≡ value)) }
        ensures fails { IfErr result (FailsUnblocked self.old (Call.Put i value) self.new (C.askings plan.old) (C.askings plan.new)) }
        ensures seat { seat_of self.new ≡ seat_of self.old }
        ensures table { OnOk result ((reply : ReplyOf) × (table_steps self.old.seat_view (Call.Put i value)
            (Answer.Mail reply) ≡ Some self.new.steps)) }
        ensures few { refusal_now self.old (Call.Put i value) ≡ None
            → self.new.steps ≤ most_steps self.old.seat_view.setup.layout (Call.Put i value) }
    {
        match self.call_driver.call(plan, &Call::Put(i, value))? {
            Answer::Mail(_) => Ok(()),
            _ => unreachable!(),
        }
    }

    /// Mends what a crash inside has left, as a holder that entered again (POSIX: `pthread_mutex_consistent`; docs/theory/model.md,
    /// Consistent). True: an append was cut off after its commit, and its message is shown from now on. False: there was
    /// none.
    ///
    /// `NotInconsistent` (POSIX: EINVAL): the process is in the section with nothing to mend, and goes on; or it isn't
    /// there, or crashed there: lock first. `Crashed`: lock again, which answers `OwnerDied`, and mend then; or it answers
    /// `NotRecoverable`. `NotRecoverable`: the lock is ruined, and the process is still inside: unlock.
    pub fn consistent<C: CrashPlan>(&mut self, plan: &mut C) -> Result<bool, LockFault>
        ensures accepted { OnOk result (refusal_now self.old Call.Consistent ≡ None) }
        ensures served { IfOk result (λ mended. (mine : List TakenStep)
            × Served (began self.old Call.Consistent) Call.Consistent (Answer.Mail (Reply.Mended mended) ∷ []) 0 self.new mine
            × NeverCrashes (length mine + 1) (C.askings plan.old) (C.askings plan.new)) }
        ensures fails { IfErr result (λ e. FailsUnblocked self.old Call.Consistent self.new (C.askings plan.old) (C.askings plan.new) e
            ⊎ (e ≡ LockFault.NotRecoverable)
            × ((mine : List TakenStep)
            × Served (began self.old Call.Consistent) Call.Consistent (Answer.NotRecoverable ∷ []) 0 self.new mine
            × NeverCrashes (length mine + 1) (C.askings plan.old) (C.askings plan.new))) }
        ensures seat { seat_of self.new ≡ seat_of self.old }
        ensures table { IfOk result (λ mended. table_steps self.old.seat_view Call.Consistent
            (Answer.Mail (Reply.Mended mended)) ≡ Some self.new.steps) }
        ensures table_ruined { IfErr result (λ e. e ≡ LockFault.NotRecoverable
            → table_steps self.old.seat_view Call.Consistent Answer.NotRecoverable ≡ Some self.new.steps) }
        ensures few { refusal_now self.old Call.Consistent ≡ None
            → self.new.steps ≤ most_steps self.old.seat_view.setup.layout Call.Consistent }
    {
        match self.call_driver.call(plan, &Call::Consistent)? {
            Answer::Mail(Reply::Mended(mended)) => Ok(mended),
            Answer::NotRecoverable => Err(LockFault::NotRecoverable),
            _ => unreachable!(),
        }
    }

    /// Finds out where a crash has left the process, with as few steps as possible: it never waits (docs/theory/model.md, Recover).
    /// Found inside, the process is a holder that has to mend: its unlock ruins the lock otherwise. Found waiting or in its
    /// doorway, it holds nothing, and its next lock goes on from there. Found idle or left, it is at rest.
    ///
    /// `AlreadyIn`: the process is in the section; there is nothing to find out. `Crashed`: recover or lock again.
    pub fn recover<C: CrashPlan>(&mut self, plan: &mut C) -> Result<Found, LockFault>
        ensures accepted { OnOk result (refusal_now (free_to_start self.old) Call.Recover ≡ None) }
        ensures served { IfOk result (λ found. AnsweredIn (began (free_to_start self.old) Call.Recover) Call.Recover
            (Answer.Found found ∷ []) 0
            self.new (C.askings plan.old) (C.askings plan.new)) }
        ensures fails { IfErr result (FailsOut self.old Call.Recover self.new (C.askings plan.old) (C.askings plan.new)) }
        ensures seat { seat_of self.new ≡ seat_of self.old }
        ensures table { IfOk result (λ found. table_steps (free_to_start self.old).seat_view Call.Recover (Answer.Found found)
            ≡ Some self.new.steps) }
        ensures few { IfErr result (λ e. e ≢ LockFault.AlreadyIn
            → self.new.steps ≤ most_steps self.old.seat_view.setup.layout Call.Recover) }
    {
        self.call_driver.set_out(&Call::Recover)?;
        match self.call_driver.serve(plan, &Call::Recover)? {
            Answer::Found(found) => Ok(found),
            _ => unreachable!(),
        }
    }

    /// Enters the section, also after a crash, unless it is blocked once more than `turns` times (POSIX:
    /// `pthread_mutex_timedlock`, with turns in place of time; docs/theory/model.md, Lock). `OwnerDied` (POSIX: EOWNERDEAD): this
    /// process itself crashed inside; call `consistent` before the unlock.
    ///
    /// `AlreadyIn`: the process is in the section, and goes on there. `Crashed`: lock again. `NotYet`: it still waits and
    /// keeps its place; lock again to wait on, or `withdraw`. `NumbersSpent`: another process held the last number, and this
    /// one is at rest; lock again once that process has left. `NotRecoverable` (POSIX: ENOTRECOVERABLE): the lock is ruined
    /// and the process has left; each later lock answers the same, and `read_from` still reads the messages.
    pub fn lock_within<C: CrashPlan>(
        &mut self,
        plan: &mut C,
        turns: u64,
    ) -> Result<Entry, LockFault>
        ensures accepted { OnOk result (refusal_now (free_to_start self.old) Call.Lock ≡ None) }
        ensures entered { IfOk result (λ entry. LockEnds (began (free_to_start self.old) Call.Lock) turns (Some (answer_of entry)) self.new
            (C.askings plan.old) (C.askings plan.new)) }
        ensures fails { IfErr result (LockFails self.old turns self.new (C.askings plan.old) (C.askings plan.new)) }
        ensures waits { result ≡ Err LockFault.NotYet → refusal_now self.new Call.Withdraw ≡ None }
        ensures seat { seat_of self.new ≡ seat_of self.old }
        ensures counts { IfOk result (λ entry. LockCounts (began (free_to_start self.old) Call.Lock) (Some (answer_of entry)) self.new) }
        ensures counts_out { IfErr result (LockCountsOut (began (free_to_start self.old) Call.Lock) self.new) }
        ensures few { OnOk result (self.new.steps ≤ 3 * self.old.seat_view.setup.layout.procs + 8 + turns) }
        ensures few_out { IfErr result (λ e. e ≢ LockFault.AlreadyIn
            → self.new.steps ≤ 3 * self.old.seat_view.setup.layout.procs + 8 + turns) }
    {
        self.call_driver.set_out_lock()?;
        match self.call_driver.wait_turns(plan, turns)? {
            Some(answer) => lock_result(answer),
            None => Err(LockFault::NotYet),
        }
    }

    /// Enters the section, also after a crash, and waits as long as it has to (POSIX: `pthread_mutex_lock`; docs/theory/model.md,
    /// Lock). `OwnerDied` (POSIX: EOWNERDEAD): this process itself crashed inside; call `consistent` before the unlock.
    ///
    /// `AlreadyIn`, `Crashed`, `NumbersSpent` and `NotRecoverable` as at `lock_within`; never `NotYet`.
    pub fn lock<R: Wait, C: CrashPlan>(&mut self, rt: &R, plan: &mut C) -> Result<Entry, LockFault>
        ensures accepted { OnOk result (refusal_now (free_to_start self.old) Call.Lock ≡ None) }
        ensures entered { IfOk result (λ entry. (turns : ℕ)
            × LockEnds (began (free_to_start self.old) Call.Lock) turns (Some (answer_of entry)) self.new (C.askings plan.old)
            (C.askings plan.new)) }
        ensures fails { IfErr result (λ e. (turns : ℕ)
            × LockFails self.old turns self.new (C.askings plan.old) (C.askings plan.new) e) }
        ensures patient { IfErr result (λ e. e ≢ LockFault.NotYet) }
        ensures seat { seat_of self.new ≡ seat_of self.old }
        ensures counts { IfOk result (λ entry. LockCounts (began (free_to_start self.old) Call.Lock) (Some (answer_of entry)) self.new) }
        ensures counts_out { IfErr result (LockCountsOut (began (free_to_start self.old) Call.Lock) self.new) }
    {
        self.call_driver.set_out_lock()?;
        lock_result(self.call_driver.wait(rt, plan)?)
    }
}

/// The result of a lock, from its answer.
fn lock_result(answer: Answer) -> Result<Entry, LockFault>
    requires { IsAnswerOf Call.Lock answer }
    ensures inside { IfOk result (λ entry. answer ≡ answer_of entry) }
    ensures out { IfErr result (λ e. ((e ≡ LockFault.NumbersSpent) × (answer ≡ Answer.NumbersSpent))
        ⊎ ((e ≡ LockFault.NotRecoverable) × (answer ≡ Answer.NotRecoverable))) }
{
    match answer {
        Answer::Clean => Ok(Entry::Clean),
        Answer::OwnerDied => Ok(Entry::OwnerDied),
        Answer::NumbersSpent => Err(LockFault::NumbersSpent),
        Answer::NotRecoverable => Err(LockFault::NotRecoverable),
        _ => unreachable!(),
    }
}
