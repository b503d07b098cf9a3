//! The command `shrink`.

ghost use Rattle.std.specs.Prelude.{IfOk, false};
ghost use Rattle.command_parts.specs.Endings.{IsEnded, TellsReads};
ghost use Rattle.lock_commands.specs.Shrinks.{ShrinkEnds, ShrinksSchedule};

use cli::arguments::args::ShrinkArgs;
use command_parts::findings::{tell_fine, tell_schedule};
use command_parts::schedule_text::schedule_read;
use command_parts::{CommandFault, Ending};
use crashlab::{Variant, shrink};
use schedule::{Schedule, Sink, Source};
use std::alloc::Global;

/// Shrinks the schedule and writes it, or writes the line of a fine verdict.
fn shrink_schedule<W: Sink>(
    alloc: Global,
    variant: Variant,
    schedule: &Schedule,
    w: &mut W,
) -> Result<Ending, CommandFault>
    ensures shrinks { ShrinksSchedule variant schedule.now (W.tape w.old) (W.tape w.new) result }
    ensures ended { IfOk result (IsEnded false (W.tape w.old).failures (W.tape w.new).failures) }
{
    match shrink(alloc, variant, schedule)? {
        Some(least) => tell_schedule(alloc, &least, w),
        None => tell_fine(alloc, w),
    }
}

/// Runs `shrink`: reads the schedule, plays it on the variant, and shrinks it if the verdict is against. A fault says what
/// can't be read, which line the world refuses, or that a device or memory has failed.
pub fn shrink_command<R: Source, W: Sink>(
    alloc: Global,
    args: &ShrinkArgs,
    r: &mut R,
    w: &mut W,
) -> Result<Ending, CommandFault>
    ensures ends { ShrinkEnds args.now (R.reading r.old) (R.reading r.new) (W.tape w.old) (W.tape w.new) result }
    ensures reads { TellsReads (R.reading r.old) (R.reading r.new) result }
    ensures ended { IfOk result (IsEnded false (W.tape w.old).failures (W.tape w.new).failures) }
{
    let schedule = schedule_read(alloc, r)?;
    shrink_schedule(alloc, args.variant, &schedule, w)
}
