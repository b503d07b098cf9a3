//! The script state of a process: its job on the data words, if it has one.

ghost use Rattle.std.specs.Prelude.{◌≡◌, None, IsTrue, if◌then◌else◌};
ghost use Rattle.redomail.specs.Left.{pending_task, job_after_word, script_left};
ghost use Rattle.redomail.specs.Refusals.{task_refusal};
ghost use Rattle.rmeworld.specs.ScriptStates.{HasStep};

use crate::purpose::Purpose;
use redomail::stage::JobStage;
use redomail::{Job, Layout, Task};

/// The script state of a process that is inside. Free: it has no job on the data words.
#[derive(Clone, Copy)]
pub enum ScriptState {
    Free,
    Doing(Purpose, Job),
}

/// The job of a task that is not refused for this process.
pub(crate) fn job(layout: Layout, sender: u64, task: Task) -> Job
    requires { task_refusal layout sender task ≡ None }
    ensures { result ≡ pending_task layout sender task }
{
    match Job::new(layout, sender, task) {
        Ok(job) => job,
        Err(_) => unreachable!(),
    }
}

/// Begins the ruin check after an entry by a lock.
pub(crate) fn check_next(script_state: &mut ScriptState, layout: Layout, index: u64, checks: bool)
    requires free { script_state.old ≡ ScriptState.Free }
    requires fits { task_refusal layout index Task.Check ≡ None }
    ensures { script_state.new
        ≡ if checks then ScriptState.Doing Purpose.Checking (pending_task layout index Task.Check) else ScriptState.Free }
{
    if checks {
        *script_state = ScriptState::Doing(Purpose::Checking, job(layout, index, Task::Check));
    }
}

/// Whether the next step of a job is likely to be silent: no deed, and not the job's last step. A wrong guess costs time
/// only.
// Inline: one call a silent step.
#[inline(always)]
pub(crate) fn may_go_on(job: &Job) -> bool {
    match job.seam_stage() {
        JobStage::AskClosed(..) | JobStage::AskCount(..) | JobStage::AskLast(..) => true,
        JobStage::Write(record, step, _) => {
            let width = record.value.width();
            step != 2 + width && step < 6 + 2 * width
        }
        _ => false,
    }
}

/// Whether the job certainly has a step left after the step with this word. It is so for all steps of an append but the
/// last. For other tasks the answer is false: they are short or rare.
// Inline: one call a silent step.
#[inline(always)]
pub(crate) fn goes_on(job: &Job, word: u64) -> bool
    ensures { IsTrue result → HasStep (script_left (job_after_word job.now word)) }
{
    match job.seam_stage() {
        JobStage::AskClosed(..) | JobStage::AskCount(..) => true,
        JobStage::AskLast(seq, _, closed, count) => {
            seq > word && seq - 1 <= word && closed != 1 && count != job.layout().cap
        }
        JobStage::Write(record, step, _) => {
            let width = record.value.width();
            width == job.layout().width && step < 7 + 2 * width
        }
        _ => false,
    }
}
