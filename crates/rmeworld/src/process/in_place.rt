//! Steps of a process by its script state: a job's steps, which change the job in place, and the lock's steps.

ghost use Rattle.std.specs.Prelude.{◌≡◌, Some, None, IfSome};
ghost use Rattle.rmecore.specs.Machine.{no_progress};
ghost use Rattle.redomail.specs.Left.{script_left};
ghost use Rattle.redomail.specs.Script.{Done};
ghost use Rattle.rmeworld.specs.ScriptStates.{HasStep};
ghost use Rattle.rmeworld.specs.declared.script_state.ScriptState.TheVariants.{Free};
ghost use Rattle.rmeworld.specs.InPlace.{IsWorking};

use crate::answer::Answer;
use crate::outcome::{Outcome, lock_outcome, reply_answer};
use crate::process::Process;
use crate::script_state::ScriptState;
use redomail::{Job, Next, Reply};
use rmecore::{Access, Kind, Word};

/// The reply of a job, if it is done.
fn reply_of(job: &Job) -> Option<Reply>
    ensures done { IfSome result (λ reply. script_left job.now ≡ Done reply) }
    ensures goes_on { result ≡ None → HasStep (script_left job.now) }
{
    job.reply()
}

impl Process {
    ghost use Rattle.rmecore.specs.Machine.{word_of};
    ghost use Rattle.rmeworld.specs.MachineState.{InWords, IsAllowed, StoresOwn, process_state_of, machine_after_step, next_access, process_state_after, outcome};

    /// The next access, if it is a job's. It is what `next` answers then.
    // Inline: one call a job's step.
    #[inline(always)]
    pub fn job_next(&self) -> Option<Access>
        ensures working { IfSome result (λ a. IsWorking self.now.script_state) }
        ensures next { IfSome result (λ a. next_access self.now ≡ Some a) }
        ensures allowed { IfSome result (IsAllowed self.now) }
        ensures within { IfSome result (λ a. InWords self.now.layout.procs (word_of a)) }
        ensures own { IfSome result (StoresOwn self.now.index) }
        ensures none { result ≡ None → self.now.script_state ≡ Free }
    {
        match &self.script_state {
            ScriptState::Doing(_, job) => match job.next() {
                Next::Get(i) => Some(Access::Load(Kind::Get, Word::Data(i))),
                Next::Put(i, v) => Some(Access::Store(Kind::Put, Word::Data(i), v)),
                Next::Done(_) => None,
            },
            ScriptState::Free => None,
        }
    }

    /// Takes the next step of a job, as `feed` does. Such a step is never a deed of the lock, so the answer is the whole
    /// result.
    // Inline: one call a job's step.
    #[inline(always)]
    pub fn job_on(&mut self, value: u64) -> Option<Answer>
        requires { IsWorking self.old.script_state }
        ensures exact { self.new ≡ machine_after_step self.old value }
        ensures process_state { process_state_of self.new ≡ process_state_after self.old (next_access self.old) value }
        ensures allowed { IfSome (next_access self.old) (IsAllowed self.old) }
        ensures outcome { outcome self.old (next_access self.old) value ≡ record { progress = no_progress; answer = result } }
    {
        match &mut self.script_state {
            ScriptState::Doing(purpose, job) => {
                job.feed(value);
                let reply = reply_of(job)?;
                let purpose = *purpose;
                // For the proof alone: its value is read.
                let same = purpose;
                let answer = reply_answer(same, self.mended, reply);
                self.script_state = ScriptState::Free;
                self.end(purpose, reply);
                answer
            }
            ScriptState::Free => unreachable!(),
        }
    }

    /// Takes the next step of the lock's part, as `feed` does.
    // Inline: one call a step.
    #[inline(always)]
    pub fn lock_on(&mut self, value: u64) -> Outcome
        requires { self.old.script_state ≡ Free }
        ensures exact { self.new ≡ machine_after_step self.old value }
        ensures process_state { process_state_of self.new ≡ process_state_after self.old (next_access self.old) value }
        ensures allowed { IfSome (next_access self.old) (IsAllowed self.old) }
        ensures outcome { result ≡ outcome self.old (next_access self.old) value }
    {
        let barred = self.barred;
        lock_outcome(barred, self.move_on(value))
    }
}
