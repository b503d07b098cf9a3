//! The drawing as text: a column for each process, a row for each step or crash.

ghost use Rattle.std.specs.Prelude.{◌≡◌, ◌++◌, OnOk};
ghost use Rattle.diagram.specs.Columns.{end_line, end_text, lead as lead_in, row_text, telling, top_text};

use crate::bars::{put_bars, put_columns, put_heads};
use crate::drawing::End;
use crate::page_parts::{put_around, put_text};
use crate::phase::LifelinePhase;
use crate::shown_row::ShownRow;
use redomail::Deed;
use schedule::lines::answer::put_deed;
use schedule::put_verdict;
use std::alloc::AllocError;

/// What stands before the report of a row, with arrows where the row is marked.
fn lead(marked: bool) -> &'static [u8]
    ensures { result.now ≡ lead_in marked }
{
    if marked { b" >>> " } else { b" " }
}

/// Writes what a row reports, as lines of the report.
fn put_telling(
    out: &mut Vec<u8>,
    phases: &[LifelinePhase],
    marked: bool,
    deed: &Option<Deed>,
    answer: &[u8],
) -> Result<(), AllocError>
    ensures { OnOk result (out.new.items ≡ out.old.items ++ telling phases.now marked deed.now answer.now) }
{
    let Some(deed) = deed else {
        if answer.is_empty() {
            return put_text(out, b"\n");
        }
        put_text(out, b" ")?;
        return put_text(out, answer);
    };
    put_text(out, lead(marked))?;
    put_deed(out, deed)?;
    if answer.is_empty() {
        return Ok(());
    }
    put_bars(out, phases)?;
    put_text(out, b"| ")?;
    put_text(out, answer)
}

/// Writes a row, with what it reports at the right.
pub fn put_row(
    out: &mut Vec<u8>,
    phases: &[LifelinePhase],
    marked: bool,
    row: &ShownRow,
) -> Result<(), AllocError>
    ensures { OnOk result (out.new.items ≡ out.old.items ++ row_text phases.now marked row.now) }
{
    put_columns(out, row, phases)?;
    put_text(out, b"|")?;
    put_telling(out, phases, marked, &row.deed, row.answer.as_slice())
}

/// Writes the numbers of the processes above their columns.
pub fn put_top(out: &mut Vec<u8>, phases: &[LifelinePhase]) -> Result<(), AllocError>
    ensures { OnOk result (out.new.items ≡ out.old.items ++ top_text phases.now) }
{
    put_heads(out, phases)?;
    put_text(out, b"|\n")
}

/// Writes the verdict, or the line that was refused.
pub fn put_last(out: &mut Vec<u8>, end: &End) -> Result<(), AllocError>
    ensures { OnOk result (out.new.items ≡ out.old.items ++ end_line end.now) }
{
    match *end {
        End::Judged(verdict) => put_verdict(out, verdict),
        End::Refused { line, number, .. } => {
            put_around(out, b"line ", line, b" refused ")?;
            put_around(out, b"", number, b"\n")
        }
    }
}

/// Writes how the run ends, and what the bars mean.
pub fn put_end(out: &mut Vec<u8>, end: &End) -> Result<(), AllocError>
    ensures { OnOk result (out.new.items ≡ out.old.items ++ end_text end.now) }
{
    put_last(out, end)?;
    put_text(out, b". rest  : doorway  | waiting  # section  x crash\n")
}
