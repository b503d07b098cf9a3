//! The rows of the SVG drawing.

ghost use Rattle.std.specs.Prelude.{◌≡◌, ◌≤◌, ◌++◌, OnOk};
ghost use Rattle.diagram.specs.Pictures.{deed_line, flag, join, joint, left_of, margin, marked_by, remarks, remarks_at, reports, right_of, row_picture, row_title, step_mark};

use crate::lifelines::{far_from, put_group, put_group_end, put_lifeline_if, x_of};
use crate::mark::Mark;
use crate::page_parts::{put_around, put_text};
use crate::shown_row::ShownRow;
use redomail::Deed;
use schedule::lines::answer::put_deed;
use std::alloc::AllocError;

/// Writes the line of a deed, if there is one.
fn put_deed_line(out: &mut Vec<u8>, deed: &Option<Deed>) -> Result<(), AllocError>
    ensures { OnOk result (out.new.items ≡ out.old.items ++ deed_line deed.now) }
{
    match deed {
        Some(deed) => put_deed(out, deed),
        None => Ok(()),
    }
}

/// Writes the lines that a row reports.
fn put_reports(out: &mut Vec<u8>, deed: &Option<Deed>, answer: &[u8]) -> Result<(), AllocError>
    ensures { OnOk result (out.new.items ≡ out.old.items ++ reports deed.now answer.now) }
{
    put_deed_line(out, deed)?;
    put_text(out, answer)
}

/// Writes the title of a row, which a viewer shows where the reader points at it.
#[tactic(auto, unfolding(crate::specs::Pictures::row_title))]
fn put_title(
    out: &mut Vec<u8>,
    p: u64,
    sign: &[u8],
    deed: &Option<Deed>,
    answer: &[u8],
) -> Result<(), AllocError>
    ensures { OnOk result (out.new.items ≡ out.old.items ++ row_title p sign.now deed.now answer.now) }
{
    put_around(out, b"<title>process ", p, b" ")?;
    put_text(out, sign)?;
    put_text(out, b"\n")?;
    put_reports(out, deed, answer)?;
    put_text(out, b"</title>")
}

/// Writes the dot of a step, with its access.
#[tactic(auto, unfolding(crate::specs::Pictures::step_mark))]
fn put_step(out: &mut Vec<u8>, p: u64, sign: &[u8]) -> Result<(), AllocError>
    ensures { OnOk result (out.new.items ≡ out.old.items ++ step_mark p sign.now) }
{
    put_around(
        out,
        b"<circle r='3'/><text x='10' y='4'><tspan class='p'>",
        p,
        b"</tspan> ",
    )?;
    put_text(out, sign)?;
    put_text(out, b"</text>")
}

/// Writes the mark of a row: the dot of a step, or the cross of a crash.
fn put_mark(out: &mut Vec<u8>, mark: Mark, p: u64, sign: &[u8]) -> Result<(), AllocError>
    ensures { OnOk result (out.new.items ≡ out.old.items ++ marked_by mark p sign.now) }
{
    match mark {
        Mark::Step => put_step(out, p, sign),
        Mark::Crash => put_text(out, b"<path class='crash' d='M-6 -6l12 12m0 -12l-12 12'/>"),
        Mark::Nothing => Ok(()),
    }
}

/// Writes the line from a deed to the mailbox, `far` pixels long.
#[tactic(auto, unfolding(crate::specs::Pictures::joint))]
fn put_line(out: &mut Vec<u8>, far: u64) -> Result<(), AllocError>
    ensures { OnOk result (out.new.items ≡ out.old.items ++ joint far) }
{
    put_around(
        out,
        b"<path class='join' d='M0 7H",
        far,
        b"'/><circle r='4' cy='7' cx='",
    )?;
    put_around(out, b"", far, b"'/>")
}

/// Joins a deed of the mailbox to the mailbox's lifeline.
fn put_join(out: &mut Vec<u8>, deed: &Option<Deed>, far: u64) -> Result<(), AllocError>
    ensures { OnOk result (out.new.items ≡ out.old.items ++ join deed.now far) }
{
    match deed {
        None | Some(Deed::Outer(_)) => Ok(()),
        Some(Deed::Commit { .. }) | Some(Deed::Show { .. }) => put_line(out, far),
        Some(Deed::Close { .. }) | Some(Deed::Ruin { .. }) => put_line(out, far),
    }
}

/// Writes what a step reports, in one line.
fn put_remarks(out: &mut Vec<u8>, deed: &Option<Deed>, answer: &[u8]) -> Result<(), AllocError>
    ensures { OnOk result (out.new.items ≡ out.old.items ++ remarks deed.now answer.now) }
{
    let Some(deed) = deed else {
        return put_text(out, answer);
    };
    put_deed(out, deed)?;
    if answer.is_empty() {
        return Ok(());
    }
    put_text(out, b" / ")?;
    put_text(out, answer)
}

/// Writes this line at the right.
#[tactic(auto, unfolding(crate::specs::Pictures::remarks_at))]
fn put_remarks_at(
    out: &mut Vec<u8>,
    far: u64,
    deed: &Option<Deed>,
    answer: &[u8],
) -> Result<(), AllocError>
    requires { far ≤ 12348 }
    ensures { OnOk result (out.new.items ≡ out.old.items ++ remarks_at far deed.now answer.now) }
{
    put_around(out, b"<text y='4' x='", far + 16, b"'>")?;
    put_remarks(out, deed, answer)?;
    put_text(out, b"</text>")
}

/// Writes what a row reports, if it reports anything.
fn put_margin(
    out: &mut Vec<u8>,
    far: u64,
    deed: &Option<Deed>,
    answer: &[u8],
) -> Result<(), AllocError>
    requires { far ≤ 12348 }
    ensures { OnOk result (out.new.items ≡ out.old.items ++ margin far deed.now answer.now) }
{
    if deed.is_none() && answer.is_empty() {
        return Ok(());
    }
    put_remarks_at(out, far, deed, answer)
}

/// Writes a frame around the deed that the verdict is against.
fn put_flag(out: &mut Vec<u8>, marked: bool, far: u64) -> Result<(), AllocError>
    requires { far ≤ 12348 }
    ensures { OnOk result (out.new.items ≡ out.old.items ++ flag marked far) }
{
    if !marked {
        return Ok(());
    }
    put_around(
        out,
        b"<circle class='against' r='8'/><rect class='against' y='-9' height='17' width='270' x='",
        far + 10,
        b"'><title>the verdict is against this deed</title></rect>",
    )
}

/// Writes the part of a row at its right.
#[tactic(auto, unfolding(crate::specs::Pictures::right_of))]
fn put_right(out: &mut Vec<u8>, row: &ShownRow, far: u64, marked: bool) -> Result<(), AllocError>
    requires { far ≤ 12348 }
    ensures { OnOk result (out.new.items ≡ out.old.items ++ right_of row.now far marked) }
{
    put_join(out, &row.deed, far)?;
    put_margin(out, far, &row.deed, row.answer.as_slice())?;
    put_flag(out, marked, far)
}

/// Writes the part of a row at the lifeline of its process.
#[tactic(auto, unfolding(crate::specs::Pictures::left_of))]
fn put_left(out: &mut Vec<u8>, row: &ShownRow, below: u64) -> Result<(), AllocError>
    ensures { OnOk result (out.new.items ≡ out.old.items ++ left_of row.now below) }
{
    put_title(
        out,
        row.p,
        row.sign.as_slice(),
        &row.deed,
        row.answer.as_slice(),
    )?;
    put_lifeline_if(out, row.phase, below)?;
    put_mark(out, row.mark, row.p, row.sign.as_slice())
}

/// Writes a row at the height `y`, with `below` pixels down to the end of its lifeline, among the lifelines of `procs` processes.
pub fn put_row(
    out: &mut Vec<u8>,
    procs: u64,
    y: u64,
    below: u64,
    marked: bool,
    row: &ShownRow,
) -> Result<(), AllocError>
    ensures { OnOk result (out.new.items ≡ out.old.items ++ row_picture procs y below marked row.now) }
{
    let far = far_from(procs, row.p);
    put_group(out, x_of(row.p), y)?;
    put_left(out, row, below)?;
    put_right(out, row, far, marked)?;
    put_group_end(out)
}
