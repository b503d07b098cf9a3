//! Writes the page of a run.

ghost use Rattle.std.specs.Prelude.{◌++◌};
ghost use Rattle.diagram.specs.Drawings.{WritesText, diagram_layout_of, drawing_text};
ghost use Rattle.diagram.specs.Pages.{end_lines, page_text};
ghost use Rattle.diagram.specs.Rows.{events_in};
ghost use Rattle.diagram.specs.StepLines.{step_lines};
ghost use Rattle.diagram.specs.declared.diagram_layout.Style.TheVariants.{Svg};
ghost use Rattle.diagram.specs.declared.page_text.TheConstants.{PAGE_HEAD as page_head, PAGE_STEP as page_step, PAGE_SCRIPT as page_script};

use crate::diagram_layout::Style;
use crate::drawing::{Drawing, End};
use crate::drawing_writer::write_drawing;
use crate::following_lines::{write_last, write_steps};
use crate::page_text::{PAGE_HEAD, PAGE_SCRIPT, PAGE_STEP};
use rmeworld::Image;
use schedule::texts::device::write_all;
use schedule::{ReplayFault, Sink};
use std::alloc::Global;

/// Writes a fixed part.
fn write_fixed<W: Sink>(text: &str, w: &mut W) -> Result<(), ReplayFault>
    ensures { WritesText (W.tape w.old) (W.tape w.new) text.now result }
{
    write_all(w, text.as_bytes())?;
    Ok(())
}

/// Writes the last fixed part, and flushes the sink.
fn write_script<W: Sink>(w: &mut W) -> Result<(), ReplayFault>
    ensures { WritesText (W.tape w.old) (W.tape w.new) page_script.now result }
{
    write_fixed(PAGE_SCRIPT, w)?;
    w.flush()?;
    Ok(())
}

/// Writes the lines after the steps.
fn write_end<W: Sink>(alloc: Global, image: &Image, end: &End, w: &mut W) -> Result<(), ReplayFault>
    ensures { WritesText (W.tape w.old) (W.tape w.new) (end_lines image.now end.now) result }
{
    match *end {
        End::Judged(verdict) => write_last(alloc, image, verdict, w),
        End::Refused { .. } => Ok(()),
    }
}

/// Writes the lines after the steps, and what follows.
fn write_after_steps<W: Sink>(
    alloc: Global,
    image: &Image,
    end: &End,
    w: &mut W,
) -> Result<(), ReplayFault>
    ensures { WritesText (W.tape w.old) (W.tape w.new) (end_lines image.now end.now ++ page_script.now) result }
{
    write_end(alloc, image, end, w)?;
    write_script(w)
}

/// Writes all lines, and what follows.
fn write_from_lines<W: Sink>(
    alloc: Global,
    first: &Image,
    drawing: &Drawing,
    last: &Image,
    w: &mut W,
) -> Result<(), ReplayFault>
    ensures { WritesText (W.tape w.old) (W.tape w.new) (step_lines drawing.now.head drawing.now.first first.now
        (events_in drawing.now.rows.items) ++ (end_lines last.now drawing.now.end ++ page_script.now)) result }
{
    write_steps(alloc, first, drawing, w)?;
    write_after_steps(alloc, last, &drawing.end, w)
}

/// Writes what follows the drawing.
fn write_after_drawing<W: Sink>(
    alloc: Global,
    first: &Image,
    drawing: &Drawing,
    last: &Image,
    w: &mut W,
) -> Result<(), ReplayFault>
    ensures { WritesText (W.tape w.old) (W.tape w.new) (page_step.now ++ (step_lines drawing.now.head drawing.now.first first.now
        (events_in drawing.now.rows.items) ++ (end_lines last.now drawing.now.end ++ page_script.now))) result }
{
    write_fixed(PAGE_STEP, w)?;
    write_from_lines(alloc, first, drawing, last, w)
}

/// Writes the drawing, and what follows.
fn write_from_drawing<W: Sink>(
    alloc: Global,
    first: &Image,
    drawing: &Drawing,
    last: &Image,
    w: &mut W,
) -> Result<(), ReplayFault>
    ensures { WritesText (W.tape w.old) (W.tape w.new)
        (drawing_text (diagram_layout_of Svg drawing.now.head drawing.now.rows.items drawing.now.end)
        drawing.now.first drawing.now.rows.items drawing.now.end ++ (page_step.now ++ (step_lines
        drawing.now.head drawing.now.first first.now (events_in drawing.now.rows.items)
        ++ (end_lines last.now drawing.now.end ++ page_script.now)))) result }
{
    write_drawing(alloc, drawing, Style::Svg, w)?;
    write_after_drawing(alloc, first, drawing, last, w)
}

/// Writes the page of a drawing, whose run begins with the image `first` and ends with the image `last`.
pub fn write_page<W: Sink>(
    alloc: Global,
    first: &Image,
    drawing: &Drawing,
    last: &Image,
    w: &mut W,
) -> Result<(), ReplayFault>
    // Just the page's text is written, or a beginning of it and the reason why not the rest.
    ensures { WritesText (W.tape w.old) (W.tape w.new) (page_text drawing.now.head drawing.now.first first.now
        drawing.now.rows.items last.now drawing.now.end) result }
{
    write_fixed(PAGE_HEAD, w)?;
    write_from_drawing(alloc, first, drawing, last, w)
}
