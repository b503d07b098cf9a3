//! What a row of a drawing shows, whatever world its process is of.

ghost use Rattle.std.specs.Prelude.{◌≡◌, ◌++◌, OnOk};
ghost use Rattle.diagram.specs.ShownRows.{ShownRowState, answer_line, mark_of as mark_in, shown_of, sign_width as width_in, wide_of as wide_in};

use crate::act::{DiagramRow, RowAct};
use crate::mark::Mark;
use crate::phase::{LifelinePhase, phase_shown};
use crate::signs::put_sign;
use redomail::{Deed, Layout};
use rmeworld::Answer;
use schedule::lines::answer::put_answer;
use std::alloc::{AllocError, Global};
use std::marker::Model;

/// What a row shows. A drawing has one, which takes what each row shows in turn.
#[derive(Drop)]
pub struct ShownRow {
    pub p: u64,
    /// What the process does.
    pub sign: Vec<u8>,
    /// The number of bytes that a column has for the sign. A longer one is not cut.
    pub wide: usize,
    pub mark: Mark,
    /// The phase that it leads to. None where the process stays in its phase.
    pub phase: Option<LifelinePhase>,
    pub deed: Option<Deed>,
    /// The line of the answer. Empty where the row ends no call.
    pub answer: Vec<u8>,
}

impl Model for ShownRow {
    ghost use Rattle.diagram.specs.ShownRows.{ShownRowState};

    ghost Value = { ShownRowState };

    ghost view = { λ r. record { p = r.p; sign = r.sign.items; wide = r.wide; mark = r.mark; phase = r.phase; deed = r.deed; answer = r.answer.items } };
}

impl ShownRow {
    /// Before the first row.
    pub fn new(alloc: Global) -> ShownRow {
        ShownRow {
            p: 0,
            sign: Vec::new(alloc),
            wide: 0,
            mark: Mark::Nothing,
            phase: None,
            deed: None,
            answer: Vec::new(alloc),
        }
    }
}

/// A row of a drawing.
pub trait Row {
    /// What its words are named by.
    type Names;

    ghost shows: { Self.Names → Self → ShownRowState };

    /// Takes what the row shows.
    fn show(&self, names: &Self::Names, shown: &mut ShownRow) -> Result<(), AllocError>
        ensures { OnOk result (shown.new ≡ shows names.now self.now) };
}

/// The number of bytes that a column has for the sign of what is done this often. The sign of a repetition is one character of
/// two bytes.
pub(crate) fn sign_width(times: u64) -> usize
    ensures { result ≡ width_in times }
{
    if times == 1 { 24 } else { 25 }
}

/// The number of bytes that a column has for what a row does.
fn wide_of(act: &RowAct) -> usize
    ensures { result ≡ wide_in act.now }
{
    match act {
        RowAct::Silent(_, times) => sign_width(*times),
        RowAct::Telling(_) | RowAct::Fell(_) => sign_width(1),
    }
}

/// The mark of a row with this act.
fn mark_of(act: &RowAct) -> Mark
    ensures { result ≡ mark_in act.now }
{
    match act {
        RowAct::Fell(_) => Mark::Crash,
        RowAct::Silent(..) | RowAct::Telling(_) => Mark::Step,
    }
}

/// Writes the line of an answer, if there is one.
fn put_answer_line(out: &mut Vec<u8>, p: u64, answer: Option<Answer>) -> Result<(), AllocError>
    ensures { OnOk result (out.new.items ≡ out.old.items ++ answer_line p answer) }
{
    match answer {
        Some(answer) => put_answer(out, p, answer),
        None => Ok(()),
    }
}

impl Row for DiagramRow {
    type Names = Layout;

    ghost shows = { λ layout row. shown_of layout row };

    fn show(&self, names: &Layout, shown: &mut ShownRow) -> Result<(), AllocError> {
        shown.sign.clear();
        put_sign(&mut shown.sign, names, self)?;
        shown.answer.clear();
        put_answer_line(&mut shown.answer, self.p, self.answer())?;
        shown.p = self.p;
        shown.wide = wide_of(&self.act);
        shown.mark = mark_of(&self.act);
        shown.phase = phase_shown(self);
        shown.deed = self.deed();
        Ok(())
    }
}
