//! The rows of a drawing of an algorithm's run.

ghost use Rattle.std.specs.Prelude.{◌≡◌, ◌++◌, OnOk};
ghost use Rattle.diagram.specs.AlgorithmEvents.{act_of as act_in, lifeline_phase as phase_in};
ghost use Rattle.diagram.specs.AlgorithmRows.{access_sign, answer_reported, blocked_sign, deed_report as deed_in, load_sign, mark_of as mark_in, swap_sign, shown_in, sign_of, wide_of as wide_in, word_name, word_sign};

use crate::mark::Mark;
use crate::page_parts::{put_indexed, put_piece, put_text};
use crate::phase::LifelinePhase;
use crate::shown_row::{Row, ShownRow, sign_width};
use algorithm_lab::TextReport;
use algorithm_lab::report::put_reports;
use algorithms::{Address, Advanced, Algorithm, Extent, WordAccess};
use redomail::Deed;
use rmecore::Phase;
use std::alloc::AllocError;

/// What a process of an algorithm does in one row.
#[derive(Clone, Copy)]
pub enum AlgorithmAct {
    /// A step, with the value that it reads, or stores where it reads none.
    Took(WordAccess, u64),
    /// A blocked reading of a word, with its value. It counts how often it was taken with no other step between.
    Blocked(WordAccess, u64, u64),
    /// Nothing more: a further line of what the row before it reports.
    Further,
    Crashed,
}

/// One row of a drawing of an algorithm's run. It reports one line at most.
#[derive(Clone, Copy)]
pub struct AlgorithmRow {
    pub p: u64,
    pub act: AlgorithmAct,
    /// The phase that it leads to. None where the process stays in its phase.
    pub phase: Option<LifelinePhase>,
    pub reports: Option<TextReport>,
}

/// A step, as it is drawn.
pub(crate) fn act_of(advanced: &Advanced) -> AlgorithmAct
    ensures { result ≡ act_in advanced.now }
{
    if advanced.blocked {
        AlgorithmAct::Blocked(advanced.access, advanced.value, 1)
    } else {
        AlgorithmAct::Took(advanced.access, advanced.value)
    }
}

/// The phase of a process by the deeds of it that are heard.
pub(crate) fn lifeline_phase(phase: Phase) -> LifelinePhase
    ensures { result ≡ phase_in phase }
{
    match phase {
        Phase::Out => LifelinePhase::Rest,
        Phase::Door => LifelinePhase::Doorway,
        Phase::Ready => LifelinePhase::Waiting,
        Phase::Inside => LifelinePhase::Section,
        Phase::DeadIn => LifelinePhase::Dead,
    }
}

/// Writes the name of a shared word, with its place in an array.
fn put_word_name(
    out: &mut Vec<u8>,
    extent: &Extent,
    name: &[u8],
    index: u64,
) -> Result<(), AllocError>
    ensures { OnOk result (out.new.items ≡ out.old.items ++ word_name extent.now name.now index) }
{
    match extent {
        Extent::One => put_text(out, name),
        Extent::Each | Extent::Array(_) | Extent::Table(..) => put_indexed(out, name, index),
    }
}

/// Writes the name of a shared word.
pub(crate) fn put_word(
    out: &mut Vec<u8>,
    algorithm: &Algorithm,
    address: Address,
) -> Result<(), AllocError>
    ensures { OnOk result (out.new.items ≡ out.old.items ++ word_sign algorithm.now address) }
{
    match algorithm.declarations.get(address.declaration) {
        None => Ok(()),
        Some(declaration) => {
            let name = declaration.name.as_bytes();
            put_word_name(out, &declaration.extent, name, address.index)
        }
    }
}

/// Writes a load as `r turn 1`.
fn put_load(
    out: &mut Vec<u8>,
    algorithm: &Algorithm,
    address: Address,
    value: u64,
) -> Result<(), AllocError>
    ensures { OnOk result (out.new.items ≡ out.old.items ++ load_sign algorithm.now address value) }
{
    put_text(out, b"r ")?;
    put_word(out, algorithm, address)?;
    put_piece(out, b" ", value)
}

/// Writes a swap as `s tail 2=0`: it read 2 and stored 0. One that stores nothing is `s tail 2`.
fn put_swap(
    out: &mut Vec<u8>,
    algorithm: &Algorithm,
    access: WordAccess,
    value: u64,
) -> Result<(), AllocError>
    ensures { OnOk result (out.new.items ≡ out.old.items ++ swap_sign algorithm.now access value) }
{
    put_text(out, b"s ")?;
    put_word(out, algorithm, access.address)?;
    put_piece(out, b" ", value)?;
    match access.stores {
        Some(stored) => put_piece(out, b"=", stored),
        None => Ok(()),
    }
}

/// Writes a store as `w flag[0]=1`, a swap, and a load.
fn put_access(
    out: &mut Vec<u8>,
    algorithm: &Algorithm,
    access: WordAccess,
    value: u64,
) -> Result<(), AllocError>
    ensures { OnOk result (out.new.items ≡ out.old.items ++ access_sign algorithm.now access value) }
{
    if access.swaps {
        return put_swap(out, algorithm, access, value);
    }
    if access.stores.is_some() {
        put_text(out, b"w ")?;
        put_word(out, algorithm, access.address)?;
        return put_piece(out, b"=", value);
    }
    put_load(out, algorithm, access.address, value)
}

/// Writes a blocked reading: one that is repeated as `await turn 1 ×17`.
fn put_blocked(
    out: &mut Vec<u8>,
    algorithm: &Algorithm,
    access: WordAccess,
    value: u64,
    times: u64,
) -> Result<(), AllocError>
    ensures { OnOk result (out.new.items ≡ out.old.items ++ blocked_sign algorithm.now access value times) }
{
    if times == 1 {
        return put_access(out, algorithm, access, value);
    }
    put_text(out, b"await ")?;
    put_word(out, algorithm, access.address)?;
    put_piece(out, b" ", value)?;
    put_piece(out, b" \xc3\x97", times)
}

/// Writes what a row does: a store as `w flag[0]=1`, a load as `r turn 1`, a swap as `s tail 2=0`, and nothing for a crash.
pub(crate) fn put_sign(
    out: &mut Vec<u8>,
    algorithm: &Algorithm,
    act: AlgorithmAct,
) -> Result<(), AllocError>
    ensures { OnOk result (out.new.items ≡ out.old.items ++ sign_of algorithm.now act) }
{
    match act {
        AlgorithmAct::Took(access, value) => put_access(out, algorithm, access, value),
        AlgorithmAct::Blocked(access, value, times) => {
            put_blocked(out, algorithm, access, value, times)
        }
        AlgorithmAct::Further | AlgorithmAct::Crashed => Ok(()),
    }
}

/// The number of bytes that a column has for what a row does.
fn wide_of(act: AlgorithmAct) -> usize
    ensures { result ≡ wide_in act }
{
    match act {
        AlgorithmAct::Blocked(_, _, times) => sign_width(times),
        AlgorithmAct::Took(..) | AlgorithmAct::Further | AlgorithmAct::Crashed => sign_width(1),
    }
}

/// The mark of a row with this act.
fn mark_of(act: AlgorithmAct) -> Mark
    ensures { result ≡ mark_in act }
{
    match act {
        AlgorithmAct::Took(..) | AlgorithmAct::Blocked(..) => Mark::Step,
        AlgorithmAct::Further => Mark::Nothing,
        AlgorithmAct::Crashed => Mark::Crash,
    }
}

/// The deed in what a row reports.
fn deed_report(reports: Option<TextReport>) -> Option<Deed>
    ensures { result ≡ deed_in reports }
{
    match reports {
        Some(TextReport::Did(outer)) => Some(Deed::Outer(outer)),
        Some(TextReport::Answered(..) | TextReport::Exceeded(..) | TextReport::Broken(_)) | None =>
            None,
    }
}

/// Writes the line of the answer or of the breach in what a row reports.
fn put_answer_report(
    out: &mut Vec<u8>,
    algorithm: &Algorithm,
    reports: Option<TextReport>,
) -> Result<(), AllocError>
    ensures { OnOk result (out.new.items ≡ out.old.items ++ answer_reported algorithm.now reports) }
{
    match reports {
        Some(TextReport::Answered(p, answer)) => put_reports(
            out,
            algorithm,
            TextReport::Answered(p, answer),
        ),
        Some(TextReport::Exceeded(p, section)) => put_reports(
            out,
            algorithm,
            TextReport::Exceeded(p, section),
        ),
        Some(TextReport::Broken(line)) => put_reports(out, algorithm, TextReport::Broken(line)),
        Some(TextReport::Did(_)) | None => Ok(()),
    }
}

impl Row for AlgorithmRow {
    type Names = Algorithm;

    ghost shows = { λ algorithm row. shown_in algorithm row };

    fn show(&self, names: &Algorithm, shown: &mut ShownRow) -> Result<(), AllocError> {
        shown.sign.clear();
        put_sign(&mut shown.sign, names, self.act)?;
        shown.answer.clear();
        put_answer_report(&mut shown.answer, names, self.reports)?;
        shown.p = self.p;
        shown.wide = wide_of(self.act);
        shown.mark = mark_of(self.act);
        shown.phase = self.phase;
        shown.deed = deed_report(self.reports);
        Ok(())
    }
}
