//! Writes the text of a schedule.

ghost use Rattle.std.specs.Prelude.{◌≡◌, ◌++◌, ◌∷◌, [], OnOk, IfOk, codes};
ghost use Rattle.std.specs.List.{join_with_byte};
ghost use Rattle.std.specs.Fmt.{decimal};
ghost use Rattle.schedule.specs.Schedules.{words_of_head, spelling};
ghost use Rattle.schedule.specs.Words.{line_of};

use crate::lines::line_writer::{put_line, put_named};
use crate::texts::fault::OutOfMemory;
use crate::texts::head::Head;
use crate::texts::schedule::Schedule;
use std::alloc::{AllocError, Global};

/// Writes the processes, the limit and the capacity of a header.
fn put_sizes(out: &mut Vec<u8>, head: &Head) -> Result<(), AllocError>
    ensures { OnOk result (out.new.items ≡ out.old.items ++ 32 ∷ join_with_byte 32 (codes "procs" ∷ decimal head.now.procs
        ∷ codes "limit" ∷ decimal head.now.limit ∷ codes "cap" ∷ decimal head.now.cap ∷ [])) }
{
    put_named(out, b"procs", head.procs)?;
    put_named(out, b"limit", head.limit)?;
    put_named(out, b"cap", head.cap)
}

/// Writes the words of a header.
fn put_head_words(out: &mut Vec<u8>, head: &Head) -> Result<(), AllocError>
    ensures { OnOk result (out.new.items ≡ out.old.items ++ join_with_byte 32 (words_of_head head.now)) }
{
    if head.width == 1 {
        out.extend_from_slice(b"rme 1")?;
        put_sizes(out, head)
    } else {
        out.extend_from_slice(b"rme 2")?;
        put_sizes(out, head)?;
        put_named(out, b"width", head.width)
    }
}

/// Writes the line of a header.
fn put_head(out: &mut Vec<u8>, head: &Head) -> Result<(), AllocError>
    ensures { OnOk result (out.new.items ≡ out.old.items ++ line_of (words_of_head head.now)) }
{
    put_head_words(out, head)?;
    out.push(b'\n')?;
    Ok(())
}

/// The text of a schedule, in its one spelling.
pub fn write_schedule(alloc: Global, schedule: &Schedule) -> Result<Vec<u8>, OutOfMemory>
    ensures { IfOk result (λ text. text.items ≡ spelling schedule.now) }
{
    let mut out = Vec::new(alloc);
    put_head(&mut out, &schedule.head())?;
    for line in schedule.lines() {
        put_line(&mut out, line)?;
    }
    Ok(out)
}
