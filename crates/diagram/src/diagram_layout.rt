//! What all rows of a drawing are drawn with.

ghost use Rattle.std.specs.Prelude.{◌≡◌, length};
ghost use Rattle.diagram.specs.DiagramLayouts.{against as against_in, deed_against as deed_in, is_of_deed, layout_of as layout_in};
ghost use Rattle.diagram.specs.Drawings.{diagram_layout_of as diagram_layout_for};

use crate::drawing::{Drawing, End};
use redomail::Layout;
use rmecore::Fault;
use schedule::Verdict;
use schedule::texts::head::Head;

/// The style of a drawing.
#[derive(Clone, Copy)]
pub enum Style {
    /// A column for each process, a row for each step or crash.
    Text,
    /// A lifeline for each process, time downward.
    Svg,
}

/// What all rows of a drawing are drawn with.
#[derive(Clone, Copy)]
pub struct DiagramLayout {
    pub style: Style,
    pub layout: Layout,
    /// The number of rows.
    pub rows: u64,
    /// The number of the deed that the verdict is against; 0 if there is none.
    pub against: u64,
}

/// Whether a fault is of a deed that is refused. Else it is of own steps, or of a claim.
fn is_of_deed(fault: Fault) -> bool
    ensures { result ≡ is_of_deed fault }
{
    match fault {
        Fault::LongExit | Fault::LongRecovery | Fault::LongDoorway | Fault::BrokenClaim => false,
        Fault::OutOfPlace
        | Fault::TwoInside
        | Fault::NotReentered
        | Fault::Overtaken { .. }
        | Fault::NotInside
        | Fault::MailOrder
        | Fault::AfterClose => true,
    }
}

/// The number of the deed that a verdict is against; 0 where it is against none.
fn deed_against(verdict: Verdict) -> u64
    ensures { result ≡ deed_in verdict }
{
    match verdict {
        Verdict::Fine => 0,
        Verdict::Against { at, fault } => if is_of_deed(fault) { at } else { 0 },
    }
}

/// The number of the deed that the verdict at the end of a run is against; 0 where it is against none.
fn against(end: &End) -> u64
    ensures { result ≡ against_in end.now }
{
    match *end {
        End::Judged(verdict) | End::Refused { verdict, .. } => deed_against(verdict),
    }
}

/// The sizes that a header names, without the limit.
pub fn layout_of(head: Head) -> Layout
    ensures { result ≡ layout_in head }
{
    Layout {
        procs: head.procs,
        cap: head.cap,
        width: head.width,
    }
}

/// What this number of rows is drawn with.
pub fn layout_with(style: Style, head: Head, rows: u64, end: &End) -> DiagramLayout
    ensures { result ≡ record { style = style; layout = layout_in head; rows = rows; against = against_in end.now } }
{
    DiagramLayout {
        style,
        layout: layout_of(head),
        rows,
        against: against(end),
    }
}

/// What the rows of this drawing are drawn with.
pub fn diagram_layout_of(style: Style, drawing: &Drawing) -> DiagramLayout
    ensures { result ≡ diagram_layout_for style drawing.now.head drawing.now.rows.items drawing.now.end }
{
    layout_with(style, drawing.head, drawing.rows.len() as u64, &drawing.end)
}
