//! Writes a drawing.

ghost use Rattle.std.specs.Prelude.{◌≡◌, ◌++◌, map, OnOk};
ghost use Rattle.diagram.specs.DiagramLayouts.{lifeline_state_shown};
ghost use Rattle.diagram.specs.Drawings.{end_in, row_spelled, rows_spelled, diagram_layout_of as diagram_layout_for, drawing_text, spelled_from, WritesText, top_in};

use crate::diagram_layout::{DiagramLayout, Style, diagram_layout_of};
use crate::drawing::{Drawing, End};
use crate::lifeline_state::LifelineState;
use crate::lifelines::{bottom_of, y_of};
use crate::phase::LifelinePhase;
use crate::shown_row::{Row, ShownRow};
use crate::{columns, frame, picture};
use schedule::texts::device::write_all;
use schedule::{ReplayFault, Sink};
use std::alloc::{AllocError, Global};

/// The memory in which a drawing is written: a part of its text, and what a row shows.
#[derive(Drop)]
pub(crate) struct Buffers {
    page: Vec<u8>,
    shown: ShownRow,
}

impl Buffers {
    /// Buffers with nothing in them.
    pub(crate) fn new(alloc: Global) -> Buffers {
        Buffers {
            page: Vec::new(alloc),
            shown: ShownRow::new(alloc),
        }
    }
}

/// Writes a row. The lifeline state has taken the row.
fn put_row(
    out: &mut Vec<u8>,
    diagram_layout: &DiagramLayout,
    lifeline_state: &LifelineState,
    row: &ShownRow,
) -> Result<(), AllocError>
    ensures { OnOk result (out.new.items ≡ out.old.items ++ row_spelled diagram_layout.now lifeline_state.now row.now) }
{
    let marked = lifeline_state.is_deed(diagram_layout.against, row);
    match diagram_layout.style {
        Style::Text => columns::put_row(out, lifeline_state.phases(), marked, row),
        Style::Svg => {
            let y = y_of(lifeline_state.rows());
            let below = bottom_of(diagram_layout.rows).saturating_sub(y);
            picture::put_row(out, diagram_layout.layout.procs, y, below, marked, row)
        }
    }
}

/// Writes the part above the rows.
fn put_top(
    out: &mut Vec<u8>,
    mailbox: bool,
    diagram_layout: &DiagramLayout,
    phases: &[LifelinePhase],
) -> Result<(), AllocError>
    ensures { OnOk result (out.new.items ≡ out.old.items ++ top_in diagram_layout.now.style mailbox diagram_layout.now phases.now) }
{
    match diagram_layout.style {
        Style::Text => columns::put_top(out, phases),
        Style::Svg => frame::put_top(
            out,
            mailbox,
            diagram_layout.layout.procs,
            bottom_of(diagram_layout.rows),
            phases,
        ),
    }
}

/// Writes the part below the rows.
fn put_end(out: &mut Vec<u8>, diagram_layout: &DiagramLayout, end: &End) -> Result<(), AllocError>
    ensures { OnOk result (out.new.items ≡ out.old.items ++ end_in diagram_layout.now.style diagram_layout.now end.now) }
{
    match diagram_layout.style {
        Style::Text => columns::put_end(out, end),
        Style::Svg => frame::put_end(out, bottom_of(diagram_layout.rows), end),
    }
}

/// Writes the part above the rows to a sink.
fn write_top<W: Sink>(
    page: &mut Vec<u8>,
    mailbox: bool,
    diagram_layout: &DiagramLayout,
    phases: &[LifelinePhase],
    w: &mut W,
) -> Result<(), ReplayFault>
    ensures { WritesText (W.tape w.old) (W.tape w.new) (top_in diagram_layout.now.style mailbox diagram_layout.now phases.now) result }
{
    page.clear();
    put_top(page, mailbox, diagram_layout, phases)?;
    write_all(w, page)?;
    Ok(())
}

/// Writes a row to a sink. The lifeline state has taken the row.
fn write_shown<W: Sink>(
    page: &mut Vec<u8>,
    diagram_layout: &DiagramLayout,
    lifeline_state: &LifelineState,
    row: &ShownRow,
    w: &mut W,
) -> Result<(), ReplayFault>
    ensures { WritesText (W.tape w.old) (W.tape w.new) (row_spelled diagram_layout.now lifeline_state.now row.now) result }
{
    page.clear();
    put_row(page, diagram_layout, lifeline_state, row)?;
    write_all(w, page)?;
    Ok(())
}

/// Takes what the next row shows, and writes the row to a sink.
fn write_row<R: Row, W: Sink>(
    buffers: &mut Buffers,
    diagram_layout: &DiagramLayout,
    names: &R::Names,
    lifeline_state: &mut LifelineState,
    row: &R,
    w: &mut W,
) -> Result<(), ReplayFault>
    ensures written { let shown = R.shows names.now row.now in WritesText (W.tape w.old) (W.tape w.new)
        (row_spelled diagram_layout.now (lifeline_state_shown lifeline_state.old shown) shown) result }
    ensures taken { OnOk result (lifeline_state.new ≡ lifeline_state_shown lifeline_state.old (R.shows names.now row.now)) }
{
    row.show(names, &mut buffers.shown)?;
    lifeline_state.take_shown(&buffers.shown);
    write_shown(
        &mut buffers.page,
        diagram_layout,
        lifeline_state,
        &buffers.shown,
        w,
    )
}

/// Writes all rows to a sink.
fn write_rows<R: Row, W: Sink>(
    buffers: &mut Buffers,
    diagram_layout: &DiagramLayout,
    names: &R::Names,
    lifeline_state: &mut LifelineState,
    rows: &[R],
    w: &mut W,
) -> Result<(), ReplayFault>
    ensures { WritesText (W.tape w.old) (W.tape w.new)
        (rows_spelled diagram_layout.now lifeline_state.old (map (R.shows names.now) rows.now)) result }
{
    for row in rows {
        write_row(buffers, diagram_layout, names, lifeline_state, row, w)?;
    }
    Ok(())
}

/// Writes the part below the rows to a sink.
fn write_last<W: Sink>(
    page: &mut Vec<u8>,
    diagram_layout: &DiagramLayout,
    end: &End,
    w: &mut W,
) -> Result<(), ReplayFault>
    ensures { WritesText (W.tape w.old) (W.tape w.new) (end_in diagram_layout.now.style diagram_layout.now end.now) result }
{
    page.clear();
    put_end(page, diagram_layout, end)?;
    write_all(w, page)?;
    Ok(())
}

/// Writes the part below the rows to a sink, and flushes it.
fn write_end<W: Sink>(
    page: &mut Vec<u8>,
    diagram_layout: &DiagramLayout,
    end: &End,
    w: &mut W,
) -> Result<(), ReplayFault>
    ensures { WritesText (W.tape w.old) (W.tape w.new) (end_in diagram_layout.now.style diagram_layout.now end.now) result }
{
    write_last(page, diagram_layout, end, w)?;
    w.flush()?;
    Ok(())
}

/// What a drawing has beside its rows.
#[derive(Clone, Copy)]
pub(crate) struct Outline {
    pub(crate) diagram_layout: DiagramLayout,
    /// Whether there is a lifeline of the mailbox.
    pub(crate) mailbox: bool,
    pub(crate) end: End,
}

/// Writes all parts of a drawing, one after the other.
pub(crate) fn write_parts<R: Row, W: Sink>(
    buffers: &mut Buffers,
    outline: &Outline,
    names: &R::Names,
    lifeline_state: &mut LifelineState,
    rows: &[R],
    w: &mut W,
) -> Result<(), ReplayFault>
    ensures { WritesText (W.tape w.old) (W.tape w.new) (spelled_from outline.now.mailbox outline.now.diagram_layout lifeline_state.old
        (map (R.shows names.now) rows.now) outline.now.end) result }
{
    let diagram_layout = &outline.diagram_layout;
    write_top(
        &mut buffers.page,
        outline.mailbox,
        diagram_layout,
        lifeline_state.phases(),
        w,
    )?;
    write_rows(buffers, diagram_layout, names, lifeline_state, rows, w)?;
    write_end(&mut buffers.page, diagram_layout, &outline.end, w)
}

/// Writes a drawing, a row at a time.
pub fn write_drawing<W: Sink>(
    alloc: Global,
    drawing: &Drawing,
    style: Style,
    w: &mut W,
) -> Result<(), ReplayFault>
    // Just the drawing's text is written, or a beginning of it and the reason why not the rest.
    ensures { WritesText (W.tape w.old) (W.tape w.new) (drawing_text
        (diagram_layout_for style drawing.now.head drawing.now.rows.items drawing.now.end)
        drawing.now.first drawing.now.rows.items drawing.now.end) result }
{
    let outline = Outline {
        diagram_layout: diagram_layout_of(style, drawing),
        mailbox: true,
        end: drawing.end,
    };
    let mut lifeline_state = LifelineState::new(alloc, drawing.head.procs, drawing.first)?;
    let mut buffers = Buffers::new(alloc);
    write_parts(
        &mut buffers,
        &outline,
        &outline.diagram_layout.layout,
        &mut lifeline_state,
        drawing.rows.as_slice(),
        w,
    )
}
