//! The data words as an interface whose calls may stop, and a task run over them.

ghost use Rattle.std.specs.Prelude.{◌≡◌, ℕ, ◌+◌, List, slice_index, slice_set, IfOk, OnOk, OnErr};
ghost use Rattle.redomail.specs.Layout.{saturate};
ghost use Rattle.redomail.specs.Cells.{outcome, steps_left, IsOnWay, StopsAfter, TaskKept, TaskAnswered};
ghost use Rattle.redomail.specs.Left.{script_left};

use crate::job::Job;
use crate::next::Next;
use crate::reply::Reply;
use thiserror::Error;

/// The process stops: it crashed, or its caller treats it as crashed. The accesses before the stop keep their effect.
#[derive(Clone, Copy, Debug, PartialEq, Eq, Error)]
#[error("stopped")]
pub struct Stop;

/// Access to the data words. Each call is one atomic load or store. Any call may stop, and then it changes no word.
pub trait Cells {
    /// The data words.
    ghost words: { Self → List ℕ };

    /// The number of calls that stopped, saturating at the greatest u64.
    ghost stops: { Self → ℕ };

    /// How often it was called, also where the call stopped, held at the greatest u64.
    ghost calls: { Self → ℕ };

    /// Loads the word at an index. Past the end it is 0.
    fn get(&mut self, i: u64) -> Result<u64, Stop>
        ensures word { IfOk result (λ v. v ≡ slice_index (words self.old) i) }
        ensures same { words self.new ≡ words self.old }
        ensures calm { OnOk result (stops self.new ≡ stops self.old) }
        ensures stopped { OnErr result (stops self.new ≡ saturate (stops self.old + 1)) }
        ensures called { calls self.new ≡ saturate (calls self.old + 1) };

    /// Stores a value into the word at an index. Past the end nothing changes.
    fn put(&mut self, i: u64, v: u64) -> Result<(), Stop>
        ensures word { OnOk result (words self.new ≡ slice_set (words self.old) i v) }
        ensures same { OnErr result (words self.new ≡ words self.old) }
        ensures calm { OnOk result (stops self.new ≡ stops self.old) }
        ensures stopped { OnErr result (stops self.new ≡ saturate (stops self.old + 1)) }
        ensures called { calls self.new ≡ saturate (calls self.old + 1) };
}

/// Runs a task to its end, or up to a stop. Each `Next` of the job is one call of the cells. It does not allocate.
pub fn run_task<C: Cells>(cells: &mut C, job: Job) -> Result<Reply, Stop>
    // A reply comes with the words at the script's end. A stop leaves the words after some of the script's steps.
    ensures done { IfOk result (λ reply. outcome (script_left job) (C.words cells.old) ≡ (reply, C.words cells.new)) }
    ensures on_way { IsOnWay (script_left job) (C.words cells.old) (C.words cells.new) }
    ensures calm { OnOk result (C.stops cells.new ≡ C.stops cells.old) }
    ensures stopped { OnErr result (C.stops cells.new ≡ saturate (C.stops cells.old + 1)) }
    // Each step is one call: as many as the task has, or those up to the one that stopped.
    ensures counted { OnOk result (saturate (C.calls cells.new)
        ≡ saturate (C.calls cells.old + steps_left (script_left job) (C.words cells.old))) }
    ensures cut { OnErr result (StopsAfter (script_left job) (C.words cells.old) (C.words cells.new) (C.calls cells.old)
        (C.calls cells.new)) }

    // The mailbox is kept, also by a stop. The reply says what changed in it.
    ensures kept { TaskKept (script_left job) (C.words cells.old) (C.words cells.new) }
    ensures answered { IfOk result (λ reply. TaskAnswered (script_left job) (C.words cells.old) reply (C.words cells.new)) }
{
    let mut job = job;
    loop {
        match job.next() {
            Next::Get(i) => {
                let word = cells.get(i)?;
                job.feed(word);
            }
            Next::Put(i, v) => {
                cells.put(i, v)?;
                job.feed(0);
            }
            Next::Done(reply) => {
                return Ok(reply);
            }
        }
    }
}
