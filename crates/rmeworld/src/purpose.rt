//! The purpose of a script on the data words.

ghost use Rattle.std.specs.Prelude.{◌≡◌};

use redomail::Task;

/// The purpose of a script on the data words. It decides how the call goes on after the script.
#[derive(Clone, Copy, Debug, PartialEq, Eq)]
pub enum Purpose {
    /// The ruin check after an entry by a lock.
    Checking,
    /// The put of ruined before the exit of an unmended holder.
    Ruining,
    /// The call `consistent`.
    Mending,
    /// A call of the mailbox or of the board.
    Working(Task),
}

impl Purpose {
    ghost use Rattle.rmeworld.specs.Purposes.{task_of};

    /// The task of the script. `consistent` has one step more: it first reads whether the lock is ruined.
    pub fn task(&self) -> Task
        ensures { result ≡ task_of self.now }
    {
        match *self {
            Purpose::Checking => Task::Check,
            Purpose::Ruining => Task::Ruin,
            Purpose::Mending => Task::Repair,
            Purpose::Working(task) => task,
        }
    }
}
