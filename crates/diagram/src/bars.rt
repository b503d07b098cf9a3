//! The columns of the text drawing.

ghost use Rattle.std.specs.Prelude.{◌≡◌, ◌++◌, ◌∷◌, [], OnOk};
ghost use Rattle.diagram.specs.Columns.{bar_at as bar_in, bar_of as bar_for, bars, blank, cell, column, columns, head, heads};

use crate::mark::Mark;
use crate::page_parts::{fill, put_decimal, put_spaces, put_text};
use crate::phase::LifelinePhase;
use crate::shown_row::ShownRow;
use std::alloc::AllocError;

/// The character of a lifeline in this phase.
fn bar_of(phase: LifelinePhase) -> u8
    ensures { result ≡ bar_for phase }
{
    match phase {
        LifelinePhase::Rest => b'.',
        LifelinePhase::Doorway => b':',
        LifelinePhase::Waiting => b'|',
        LifelinePhase::Section => b'#',
        LifelinePhase::Dead => b' ',
    }
}

/// The first byte of a cell: the bar of the phase, or `x` for a crash.
fn bar_at(mark: Mark, phase: LifelinePhase) -> u8
    ensures { result ≡ bar_in mark phase }
{
    match mark {
        Mark::Crash => b'x',
        Mark::Step | Mark::Nothing => bar_of(phase),
    }
}

/// Writes the cell of a row: what its process does.
fn put_cell(out: &mut Vec<u8>, row: &ShownRow) -> Result<(), AllocError>
    ensures { OnOk result (out.new.items ≡ out.old.items ++ cell row.now) }
{
    out.push(b' ')?;
    let start = out.len();
    put_text(out, row.sign.as_slice())?;
    fill(out, start, row.wide)
}

/// Writes a column without an access.
#[tactic(auto, unfolding(crate::specs::Columns::blank))]
fn put_blank(out: &mut Vec<u8>, phase: LifelinePhase) -> Result<(), AllocError>
    ensures { OnOk result (out.new.items ≡ out.old.items ++ blank phase) }
{
    out.push(bar_of(phase))?;
    put_spaces(out, 25)
}

/// Writes the column of process q.
fn put_column(
    out: &mut Vec<u8>,
    row: &ShownRow,
    q: u64,
    phase: LifelinePhase,
) -> Result<(), AllocError>
    ensures { OnOk result (out.new.items ≡ out.old.items ++ column row.now q phase) }
{
    if q == row.p {
        out.push(bar_at(row.mark, phase))?;
        return put_cell(out, row);
    }
    put_blank(out, phase)
}

/// Writes the columns of a row.
pub fn put_columns(
    out: &mut Vec<u8>,
    row: &ShownRow,
    phases: &[LifelinePhase],
) -> Result<(), AllocError>
    ensures { OnOk result (out.new.items ≡ out.old.items ++ columns row.now 0 phases.now) }
{
    let mut q = 0;
    for phase in phases {
        put_column(out, row, q, *phase)?;
        q += 1;
    }
    Ok(())
}

/// Writes columns without an access.
pub fn put_bars(out: &mut Vec<u8>, phases: &[LifelinePhase]) -> Result<(), AllocError>
    ensures { OnOk result (out.new.items ≡ out.old.items ++ bars phases.now) }
{
    for phase in phases {
        put_blank(out, *phase)?;
    }
    Ok(())
}

/// Writes the number of a process above its column.
#[tactic(auto, unfolding(crate::specs::Columns::head))]
fn put_number(out: &mut Vec<u8>, p: u64) -> Result<(), AllocError>
    ensures { OnOk result (out.new.items ≡ out.old.items ++ head p) }
{
    let start = out.len();
    put_decimal(out, p)?;
    fill(out, start, 26)
}

/// Writes the numbers of the processes above their columns.
pub fn put_heads(out: &mut Vec<u8>, phases: &[LifelinePhase]) -> Result<(), AllocError>
    ensures { OnOk result (out.new.items ≡ out.old.items ++ heads 0 phases.now) }
{
    for p in 0..phases.len() {
        put_number(out, p as u64)?;
    }
    Ok(())
}
