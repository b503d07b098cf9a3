//! Reads a schedule from its text.

ghost use Rattle.std.specs.Prelude.{◌≡◌, ◌⊎◌, ◌≤◌, ℕ, List, Ok, IfErr, IfOk};
ghost use Rattle.schedule.specs.Schedules.{schedule_at};
ghost use Rattle.command_parts.specs.Endings.{FailsToRead};
ghost use Rattle.command_parts.specs.ScheduleTexts.{IsWrongText, IsNoSchedule};
ghost use Rattle.command_parts.specs.Statuses.{status_of};
ghost use Rattle.schedule.specs.Wholes.{WasRead};

use crate::fault::CommandFault;
use schedule::replays::pieces::read_all;
use schedule::{Schedule, Source, read_schedule};
use std::alloc::Global;

/// Reads the whole text from the reader, and the schedule from it. `Text`: a line can't be read. `Read`: the reader has
/// failed.
#[tactic(auto, unfolding(crate::specs::ScheduleTexts::IsWrongText))]
pub fn schedule_read<R: Source>(alloc: Global, r: &mut R) -> Result<Schedule, CommandFault>
    ensures read { IfOk result (λ schedule. (text : List ℕ) × WasRead (R.reading r.old) (R.reading r.new) text
        × (schedule_at text ≡ Ok schedule)) }
    ensures unread { IfErr result (λ fault. ((R.reading r.new).failures ≡ (R.reading r.old).failures)
        ⊎ (fault ≡ CommandFault.Read)) }
    ensures wrong { IfErr result (λ fault. FailsToRead (R.reading r.old) (R.reading r.new) fault
        ⊎ IsWrongText (R.reading r.old) (R.reading r.new) fault) }
    ensures status { IfErr result (λ fault. 2 ≤ status_of fault) }
{
    let text = read_all(alloc, r)?;
    Ok(read_schedule(alloc, &text)?)
}

/// The schedule of this text. `Text`: it is none.
pub fn schedule_of(alloc: Global, text: &[u8]) -> Result<Schedule, CommandFault>
    ensures read { IfOk result (λ schedule. schedule_at text.now ≡ Ok schedule) }
    ensures unread { IfErr result (λ fault. (fault ≡ CommandFault.OutOfMemory) ⊎ IsNoSchedule text.now fault) }
{
    Ok(read_schedule(alloc, text)?)
}
