//! The command `judge`.

ghost use Rattle.std.specs.Prelude.{◌≡◌, Result, IfOk, false};
ghost use Rattle.lock_commands.specs.Ends.{JudgeEnds, verdict_text};
ghost use Rattle.command_parts.specs.Endings.{IsEnded, Prints};
ghost use Rattle.command_parts.specs.Statuses.{status_after};

use command_parts::ending::status_after_verdict;
use command_parts::{CommandFault, Ending};
use diagram::put_verdict_object;
use schedule::texts::device::write_all;
use schedule::{Sink, Source, Verdict, judge_trace, put_verdict};
use std::alloc::{AllocError, Global};

/// The line of a verdict, or its JSON object.
fn verdict_line(alloc: Global, json: bool, verdict: Verdict) -> Result<Vec<u8>, AllocError>
    ensures { IfOk result (λ line. line.items ≡ verdict_text json verdict) }
{
    let mut line = Vec::new(alloc);
    if json {
        put_verdict_object(&mut line, verdict)?;
    } else {
        put_verdict(&mut line, verdict)?;
    }
    Ok(line)
}

/// Writes a verdict.
fn tell_verdict<W: Sink>(
    alloc: Global,
    json: bool,
    verdict: Verdict,
    w: &mut W,
) -> Result<Ending, CommandFault>
    ensures reports { Prints (status_after verdict) (verdict_text json verdict) (W.tape w.old) (W.tape w.new) result }
    ensures ended { IfOk result (IsEnded false (W.tape w.old).failures (W.tape w.new).failures) }
{
    let line = verdict_line(alloc, json, verdict)?;
    if write_all(w, &line).is_err() {
        return Err(CommandFault::Write);
    }
    Ok(Ending {
        status: status_after_verdict(verdict),
        save: None,
    })
}

/// Writes the verdict of a trace, as a line or as a JSON object.
pub fn judge_command<R: Source, W: Sink>(
    alloc: Global,
    json: bool,
    r: &mut R,
    w: &mut W,
) -> Result<Ending, CommandFault>
    ensures ends { JudgeEnds json (R.reading r.old) (R.reading r.new) (W.tape w.old) (W.tape w.new) result }
    ensures ended { IfOk result (IsEnded false (W.tape w.old).failures (W.tape w.new).failures) }
{
    let verdict = judge_trace(alloc, r)?;
    tell_verdict(alloc, json, verdict, w)
}
