//! A task under way.

ghost use Rattle.std.specs.Prelude.{◌≡◌, ◌<◌, ◌↔◌, Some, None, IfSome, IsSome, IfOk, IfErr, OnOk};
ghost use Rattle.redomail.specs.Jobs.{FitsStage};
ghost use Rattle.redomail.specs.Layout.{IsLayout};
ghost use Rattle.redomail.specs.Refusals.{task_refusal as refusal_of};
ghost use Rattle.redomail.specs.Runs.{StepKept};
ghost use Rattle.redomail.specs.Script.{head, tail, reply_in};
ghost use Rattle.redomail.specs.Tasks.{script, consistent};

use crate::layout::Layout;
use crate::next::Next;
use crate::reply::Reply;
use crate::stage::JobStage;
use crate::task::Task;
use rmecore::Refusal;
use std::fmt;
use std::marker::Model;

/// A process's task in progress. It asks for one access of a data word after another, and its caller performs them. It does
/// not allocate. In contracts it is the rest of its script.
#[derive(Clone, Copy)]
pub struct Job {
    layout: Layout,
    sender: u64,
    stage: JobStage,
}

impl fmt::Debug for Job {
    fn fmt<W: fmt::Write>(&self, f: &mut fmt::Formatter<W>) -> fmt::Result {
        f.write_str("Job")
    }
}

impl Model for Job {
    ghost use Rattle.std.specs.Prelude.{◌<◌};
    ghost use Rattle.redomail.specs.Layout.{IsLayout};
    ghost use Rattle.redomail.specs.Jobs.{FitsStage};
    ghost use Rattle.redomail.specs.Left.{Pending};

    ghost Value = { Pending };

    ghost view = { λ j. record { layout = j.layout; sender = j.sender; stage = j.stage } };

    ghost invariant = { λ j. record { lawful : IsLayout j.layout; below : j.sender < j.layout.procs; fits : FitsStage j.layout j.stage } };

    ghost inverse = { λ v. record { layout = v.layout; sender = v.sender; stage = v.stage } };
}

impl Job {
    ghost use Rattle.redomail.specs.Left.{script_left, pending_task, mending, job_after_word};

    /// A task of process `sender`, at its first step.
    ///
    /// The first cause in this order is the answer: `BadProcs`, `BadCap`, `NoSuchProcess` (a sender that is no process of
    /// the layout), `BadIndex` (a board index that is not below 4), `BadWidth` (of the layout, or of the task's value).
    pub fn new(layout: Layout, sender: u64, task: Task) -> Result<Job, Refusal>
        ensures made { IfOk result (λ job. script_left job ≡ script layout sender task) }
        ensures exact { IfOk result (λ job. job ≡ pending_task layout sender task) }
        ensures allowed { OnOk result (refusal_of layout sender task ≡ None) }
        ensures refused { IfErr result (λ refusal. refusal_of layout sender task ≡ Some refusal) }
    {
        check(&layout, sender, &task)?;
        let stage = JobStage::first(layout, sender, task);
        Ok(Job {
            layout,
            sender,
            stage,
        })
    }

    /// For this workspace alone: the call `consistent` at its first step. It is no task of the mailbox, since it first reads
    /// whether the lock is ruined.
    pub fn seam_mending(layout: Layout, sender: u64) -> Job
        requires lawful { IsLayout layout }
        requires below { sender < layout.procs }
        ensures left { script_left result ≡ consistent layout sender }
        ensures exact { result ≡ mending layout sender }
    {
        Job {
            layout,
            sender,
            stage: JobStage::AskUsable,
        }
    }

    /// The next access, or the reply.
    pub fn next(&self) -> Next
        ensures { result ≡ head (script_left self.now) }
    {
        self.stage.next(self.layout, self.sender)
    }

    /// The reply, if the job is done. It is the reply that `next` gives then.
    // Inline: one call a step.
    #[inline(always)]
    pub fn reply(&self) -> Option<Reply>
        ensures { result ≡ reply_in (head (script_left self.now)) }
    {
        self.stage.reply()
    }

    /// Takes one step. After a `Get` the caller passes the word that was read, after a `Put` any value. After `Done` nothing
    /// changes.
    // Inline: one call a step.
    #[inline(always)]
    pub fn feed(&mut self, value: u64)
        ensures left { script_left self.new ≡ tail (script_left self.old) value }
        ensures kept { StepKept (script_left self.old) value (script_left self.new) }
        ensures exact { self.new ≡ job_after_word self.old value }
    {
        self.stage.go_on(self.layout, self.sender, value);
    }

    /// The sizes of its mailbox.
    pub fn layout(&self) -> Layout
        ensures { result ≡ self.now.layout }
    {
        self.layout
    }

    /// The process whose task it is.
    pub fn sender(&self) -> u64
        ensures { result ≡ self.now.sender }
    {
        self.sender
    }

    /// For this workspace alone: the job's stage, for a caller that encodes a process's state.
    pub fn seam_stage(&self) -> JobStage
        ensures { result ≡ self.now.stage }
    {
        self.stage
    }

    /// For this workspace alone, the inverse of `seam_stage`: a job of this process at this stage. None: the sizes or the
    /// stage's values are outside the limits. It accepts a stage that no run reaches.
    pub fn seam_at(layout: Layout, sender: u64, stage: JobStage) -> Option<Job>
        ensures at { IfSome result (λ job. job ≡ record { layout = layout; sender = sender; stage = stage }) }
        ensures some { IsSome result ↔ (IsLayout layout × (sender < layout.procs) × FitsStage layout stage) }
    {
        if !layout.is_lawful() || sender >= layout.procs || !stage.fits(layout) {
            return None;
        }
        Some(Job {
            layout,
            sender,
            stage,
        })
    }
}

/// The first cause to refuse this task.
fn check(layout: &Layout, sender: u64, task: &Task) -> Result<(), Refusal>
    ensures allowed { OnOk result (refusal_of layout.now sender task.now ≡ None) }
    ensures refused { IfErr result (λ refusal. refusal_of layout.now sender task.now ≡ Some refusal) }
{
    if layout.procs == 0 || layout.procs > 64 {
        return Err(Refusal::BadProcs);
    }
    if layout.cap == 0 || layout.cap > 65536 {
        return Err(Refusal::BadCap);
    }
    if sender >= layout.procs {
        return Err(Refusal::NoSuchProcess);
    }
    if let Task::BoardGet(i) | Task::BoardPut(i, _) = *task {
        if i >= 4 {
            return Err(Refusal::BadIndex);
        }
    }
    if layout.width == 0 || layout.width > 8 {
        return Err(Refusal::BadWidth);
    }
    if let Task::Append { value, .. } = *task {
        if value.width() != layout.width {
            return Err(Refusal::BadWidth);
        }
    }
    Ok(())
}
