//! What a command writes of what it found, or that it found nothing.

ghost use Rattle.std.specs.Prelude.{◌≡◌, ◌≤◌, IfErr, IfOk, false, ◌++◌, length};
ghost use Rattle.schedule.specs.Reports.{verdict_line};
ghost use Rattle.schedule.specs.Schedules.{spelling};
ghost use Rattle.command_parts.specs.Endings.{IsEnded, Prints};
ghost use Rattle.command_parts.specs.Findings.{nothing_line, all_line, within_line, never_starving_line, starves_line as starves_line_by, never_line};
ghost use Rattle.std.specs.Fmt.{decimal};

use crate::ending::Ending;
use crate::fault::CommandFault;
use crate::line::{line_around, starves_line};
use explorer::Lasso;
use schedule::texts::device::write_all;
use schedule::{Schedule, Sink, Verdict, put_verdict, write_schedule};
use std::alloc::{AllocError, Global};

/// Writes a text. The command then ends with this status.
pub fn tell_text<W: Sink>(text: &[u8], status: u8, w: &mut W) -> Result<Ending, CommandFault>
    requires { status ≤ 1 }
    ensures prints { Prints status text.now (W.tape w.old) (W.tape w.new) result }
    ensures ended { IfOk result (IsEnded false (W.tape w.old).failures (W.tape w.new).failures) }
    ensures failed { IfErr result (λ fault. fault ≡ CommandFault.Write) }
{
    if write_all(w, text).is_err() {
        return Err(CommandFault::Write);
    }
    Ok(Ending { status, save: None })
}

/// Writes the schedule that was found, or the minimized one.
pub fn tell_schedule<W: Sink>(
    alloc: Global,
    schedule: &Schedule,
    w: &mut W,
) -> Result<Ending, CommandFault>
    ensures prints { Prints 1 (spelling schedule.now) (W.tape w.old) (W.tape w.new) result }
    ensures ended { IfOk result (IsEnded false (W.tape w.old).failures (W.tape w.new).failures) }
{
    let text = write_schedule(alloc, schedule)?;
    tell_text(&text, 1, w)
}

/// Writes the line of a fine verdict: there is nothing to shrink.
pub fn tell_fine<W: Sink>(alloc: Global, w: &mut W) -> Result<Ending, CommandFault>
    ensures prints { Prints 0 (verdict_line Verdict.Fine) (W.tape w.old) (W.tape w.new) result }
    ensures ended { IfOk result (IsEnded false (W.tape w.old).failures (W.tape w.new).failures) }
{
    let mut line = Vec::new(alloc);
    put_verdict(&mut line, Verdict::Fine)?;
    tell_text(&line, 0, w)
}

/// Writes that a hunt has found nothing.
pub fn tell_nothing<W: Sink>(w: &mut W) -> Result<Ending, CommandFault>
    ensures prints { Prints 0 nothing_line (W.tape w.old) (W.tape w.new) result }
    ensures ended { IfOk result (IsEnded false (W.tape w.old).failures (W.tape w.new).failures) }
{
    tell_text(b"nothing found\n", 0, w)
}

/// Writes that nothing was found, and how far the search got.
pub(crate) fn tell_none<W: Sink>(
    before: &str,
    number: u64,
    after: &str,
    w: &mut W,
) -> Result<Ending, CommandFault>
    requires { (length before.now ≤ 21) × (length after.now ≤ 20) }
    ensures prints { Prints 0 (before.now ++ decimal number ++ after.now) (W.tape w.old) (W.tape w.new) result }
    ensures ended { IfOk result (IsEnded false (W.tape w.old).failures (W.tape w.new).failures) }
{
    let line = line_around(before, number, after);
    tell_text(line.as_bytes(), 0, w)
}

/// Writes that nothing was found within this many moves.
pub fn tell_within<W: Sink>(moves: u64, w: &mut W) -> Result<Ending, CommandFault>
    ensures prints { Prints 0 (within_line moves) (W.tape w.old) (W.tape w.new) result }
    ensures ended { IfOk result (IsEnded false (W.tape w.old).failures (W.tape w.new).failures) }
{
    tell_none("nothing found within ", moves, " moves\n", w)
}

/// Writes that nothing was found in this many states, which are all.
pub fn tell_all<W: Sink>(states: u64, w: &mut W) -> Result<Ending, CommandFault>
    ensures prints { Prints 0 (all_line states) (W.tape w.old) (W.tape w.new) result }
    ensures ended { IfOk result (IsEnded false (W.tape w.old).failures (W.tape w.new).failures) }
{
    tell_none("nothing found: all ", states, " states\n", w)
}

/// Writes that no process starves in any of this many worlds, which are all.
pub fn tell_never_starving<W: Sink>(states: u64, w: &mut W) -> Result<Ending, CommandFault>
    ensures prints { Prints 0 (never_starving_line states) (W.tape w.old) (W.tape w.new) result }
    ensures ended { IfOk result (IsEnded false (W.tape w.old).failures (W.tape w.new).failures) }
{
    tell_none("never starving: all ", states, " states\n", w)
}

/// The moves of the stem, and then those of the cycle.
pub fn path_of_lasso<M: Copy>(alloc: Global, lasso: &Lasso<M>) -> Result<Vec<M>, AllocError>
    ensures { IfOk result (λ path. path.items ≡ lasso.now.stem.items ++ lasso.now.cycle.items) }
{
    let mut path = Vec::from_slice(alloc, lasso.stem.as_slice())?;
    path.extend_from_slice(lasso.cycle.as_slice())?;
    Ok(path)
}

/// Writes the schedule in which a process starves, and then whose call it is and how long the cycle at its end.
pub fn tell_starves<W: Sink>(
    alloc: Global,
    schedule: &Schedule,
    process: u64,
    cycle: u64,
    w: &mut W,
) -> Result<Ending, CommandFault>
    ensures prints { Prints 1 (spelling schedule.now ++ starves_line_by process cycle) (W.tape w.old) (W.tape w.new) result }
    ensures ended { IfOk result (IsEnded false (W.tape w.old).failures (W.tape w.new).failures) }
{
    tell_schedule(alloc, schedule, w)?;
    let line = starves_line(process, cycle);
    tell_text(line.as_bytes(), 1, w)
}

/// Writes that none of this many states, which are all, is stuck.
pub fn tell_never<W: Sink>(states: u64, w: &mut W) -> Result<Ending, CommandFault>
    ensures prints { Prints 0 (never_line states) (W.tape w.old) (W.tape w.new) result }
    ensures ended { IfOk result (IsEnded false (W.tape w.old).failures (W.tape w.new).failures) }
{
    tell_none("never stuck: all ", states, " states\n", w)
}
