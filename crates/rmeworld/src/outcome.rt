//! The effects of a process's step, with its call's answer.

ghost use Rattle.std.specs.Prelude.{◌≡◌, Some, None};
ghost use Rattle.rmecore.specs.Machine.{no_progress};
ghost use Rattle.redomail.specs.Left.{script_left};
ghost use Rattle.rmeworld.specs.Answered.{by_lock, by_reply, by_script};

use crate::answer::Answer;
use crate::purpose::Purpose;
use redomail::{Job, Next, Reply};
use rmecore::progress::SILENT;
use rmecore::{CoreDone, Progress};

/// The effects of a step: those of the lock's part, and the answer if the step ends its call.
#[derive(Clone, Copy, Debug, PartialEq, Eq)]
pub struct Outcome {
    pub progress: Progress,
    pub answer: Option<Answer>,
}

impl Outcome {
    /// No deed, no answer, not blocked.
    pub const SILENT: Outcome = Outcome {
        progress: SILENT,
        answer: None,
    };
}

/// The effects of a job's step, from the answer of its call.
pub(crate) fn job_step(answer: Option<Answer>) -> Outcome
    ensures { result ≡ record { progress = no_progress; answer = answer } }
{
    Outcome {
        progress: SILENT,
        answer,
    }
}

/// The effects of a step of the lock's part. `barred`: the call has found the lock ruined.
pub(crate) fn lock_outcome(barred: bool, progress: Progress) -> Outcome
    ensures { result ≡ record { progress = progress; answer = by_lock barred progress.done } }
{
    Outcome {
        progress,
        answer: core_answer(barred, progress.done),
    }
}

/// The call's answer when the lock's part ends, if the call ends with it. `barred`: the call has found the lock ruined.
// Inline: once in each lock step in C.
#[inline(always)]
pub fn core_answer(barred: bool, done: Option<CoreDone>) -> Option<Answer>
    ensures { result ≡ by_lock barred done }
{
    match done? {
        CoreDone::In | CoreDone::InAgain => None,
        CoreDone::Spent => Some(Answer::NumbersSpent),
        CoreDone::Out if barred => Some(Answer::NotRecoverable),
        CoreDone::Out => Some(Answer::Unlocked),
        CoreDone::Found(found) => Some(Answer::Found(found)),
        CoreDone::Withdrawn => Some(Answer::Withdrawn),
    }
}

/// The effects of a step of a script, after which this job is left.
pub(crate) fn job_outcome(purpose: Purpose, mended: bool, job: &Job) -> Outcome
    ensures { result ≡ record { progress = no_progress; answer = by_script purpose mended (script_left job.now) } }
{
    job_step(match job.next() {
        Next::Done(reply) => reply_answer(purpose, mended, reply),
        Next::Get(_) | Next::Put(..) => None,
    })
}

/// The call's answer when a script ends with this reply, if the call ends with it.
pub(crate) fn reply_answer(purpose: Purpose, mended: bool, reply: Reply) -> Option<Answer>
    ensures { result ≡ by_reply purpose mended reply }
{
    match (purpose, reply) {
        (Purpose::Checking, Reply::Ruined(true)) | (Purpose::Ruining, _) => None,
        (Purpose::Checking, _) if mended => Some(Answer::Clean),
        (Purpose::Checking, _) => Some(Answer::OwnerDied),
        (Purpose::Mending, Reply::Ruined(_)) => Some(Answer::NotRecoverable),
        (Purpose::Mending | Purpose::Working(_), _) => Some(Answer::Mail(reply)),
    }
}
