//! The lifelines of the SVG drawing, and where its parts are, in pixels.

ghost use Rattle.std.specs.Prelude.{◌≡◌, ◌≤◌, ◌<◌, ◌^◌, ◌++◌, OnOk};
ghost use Rattle.diagram.specs.Pictures.{bottom_of as bottom_for, class_of as class_for, far_from as far_between, group_at, group_end, lifeline, lifeline_if, x_of as x_for, y_of as y_for};

use crate::page_parts::{put_around, put_text};
use crate::phase::LifelinePhase;
use std::alloc::AllocError;

/// The x of a process's lifeline. That of the mailbox is the x of a next process.
pub fn x_of(p: u64) -> u64
    ensures at { result ≡ x_for p }
    ensures most { result ≤ 12348 }
{
    192 * p.min(64) + 60
}

/// The distance from a process's lifeline to the mailbox's.
pub fn far_from(procs: u64, p: u64) -> u64
    ensures far { result ≡ far_between procs p }
    ensures most { result ≤ 12348 }
{
    x_of(procs).saturating_sub(x_of(p))
}

/// The y of a row. Rows count from 1.
pub fn y_of(row: u64) -> u64
    ensures { result ≡ y_for row }
{
    row.saturating_mul(18).saturating_add(82)
}

/// The y where the lifelines end, below this many rows.
pub fn bottom_of(rows: u64) -> u64
    ensures { result ≡ bottom_for rows }
{
    y_of(rows).saturating_add(18)
}

/// The name of a phase, which is the class of its colour.
pub fn class_of(phase: LifelinePhase) -> &'static [u8]
    ensures { result.now ≡ class_for phase }
{
    match phase {
        LifelinePhase::Rest => b"rest",
        LifelinePhase::Doorway => b"doorway",
        LifelinePhase::Waiting => b"waiting",
        LifelinePhase::Section => b"section",
        LifelinePhase::Dead => b"dead",
    }
}

/// Writes a lifeline downward from here, in the colour of a phase.
#[tactic(auto, unfolding(crate::specs::Pictures::lifeline))]
pub fn put_lifeline(out: &mut Vec<u8>, phase: LifelinePhase, long: u64) -> Result<(), AllocError>
    ensures { OnOk result (out.new.items ≡ out.old.items ++ lifeline phase long) }
{
    put_text(out, b"<rect class='")?;
    put_text(out, class_of(phase))?;
    put_around(out, b"' x='-4.5' y='.5' width='9' height='", long, b"'/>")
}

/// Writes such a lifeline, if there is a phase.
pub fn put_lifeline_if(
    out: &mut Vec<u8>,
    phase: Option<LifelinePhase>,
    long: u64,
) -> Result<(), AllocError>
    ensures { OnOk result (out.new.items ≡ out.old.items ++ lifeline_if phase long) }
{
    match phase {
        None => Ok(()),
        Some(phase) => put_lifeline(out, phase, long),
    }
}

/// Begins a group: what follows is drawn from this point on.
#[tactic(auto, unfolding(crate::specs::Pictures::group_at))]
pub fn put_group(out: &mut Vec<u8>, x: u64, y: u64) -> Result<(), AllocError>
    ensures { OnOk result (out.new.items ≡ out.old.items ++ group_at x y) }
{
    put_around(out, b"<g transform='translate(", x, b" ")?;
    put_around(out, b"", y, b")'>")
}

/// Ends a group.
pub fn put_group_end(out: &mut Vec<u8>) -> Result<(), AllocError>
    ensures { OnOk result (out.new.items ≡ out.old.items ++ group_end) }
{
    put_text(out, b"</g>\n")
}
