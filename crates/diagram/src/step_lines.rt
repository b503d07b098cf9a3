//! A run as JSON, an object a line.

ghost use Rattle.std.specs.Prelude.{◌≡◌, ℕ, List, ◌++◌, ◌∷◌, [], OnOk, codes};
ghost use Rattle.std.specs.Fmt.{decimal};
ghost use Rattle.std.specs.List.{join_with_byte};
ghost use Rattle.schedule.specs.Answers.{words_of_answer};
ghost use Rattle.schedule.specs.Deeds.{words_of_deed};
ghost use Rattle.diagram.specs.StepLines.{access_name, act_text, against_text, answer_text, deed_text, fault_text, happened_text, object_line, object_of};
ghost use Rattle.diagram.specs.StepLines.{own_text, more_owns, overtaking_text, owns_text, place_text, report_text, step_place, verdict_object};

use crate::act::{DiagramRow, RowAct};
use crate::lifelines::class_of;
use crate::lock_words::Played;
use crate::page_parts::{put_around, put_decimal, put_text};
use crate::phase::LifelinePhase;
use crate::remote_marks::put_marks_member;
use crate::signs::{name_of, put_word};
use crate::step_by_step::phase_of;
use passages::lock_memory::stores;
use redomail::{Deed, Layout};
use rmecore::{Fault, Happened, Kind, Own};
use rmeworld::Answer;
use schedule::Verdict;
use schedule::lines::answer::{put_answer, put_deed};
use schedule::replays::verdict::fault_number;
use std::alloc::AllocError;

/// Whether a step loads its word or stores it.
fn name_of_access(kind: Kind) -> &'static [u8]
    ensures { result.now ≡ access_name kind }
{
    if stores(kind) { b"store" } else { b"load" }
}

/// Writes the kind of a step, and its word.
#[tactic(auto, unfolding(crate::specs::StepLines::happened_text))]
fn put_happened(out: &mut Vec<u8>, layout: &Layout, happened: &Happened) -> Result<(), AllocError>
    ensures { OnOk result (out.new.items ≡ out.old.items ++ happened_text layout.now happened.now) }
{
    put_text(out, b"\"kind\":\"")?;
    put_text(out, name_of(happened.kind))?;
    put_text(out, b"\",\"access\":\"")?;
    put_text(out, name_of_access(happened.kind))?;
    put_text(out, b"\",\"word\":\"")?;
    put_word(out, layout, layout.procs, happened.word)?;
    put_around(out, b"\",\"value\":", happened.value, b"")
}

/// Writes what a process does.
fn put_act(out: &mut Vec<u8>, layout: &Layout, act: &RowAct) -> Result<(), AllocError>
    ensures { OnOk result (out.new.items ≡ out.old.items ++ act_text layout.now act.now) }
{
    match act {
        RowAct::Silent(happened, _) => put_happened(out, layout, happened),
        RowAct::Telling(stepped) => put_happened(out, layout, &stepped.happened),
        RowAct::Fell(_) => put_text(
            out,
            b"\"kind\":\"crash\",\"access\":null,\"word\":null,\"value\":null",
        ),
    }
}

/// Takes away the last byte.
fn take_last(out: &mut Vec<u8>)
    ensures { (front : List ℕ) (last : ℕ) → out.old.items ≡ front ++ last ∷ [] → out.new.items ≡ front }
{
    let kept = out.len().saturating_sub(1);
    out.truncate(kept);
}

/// Writes a deed's line, without its end.
#[tactic(auto, using(crate::proofs::Lines::unended))]
fn put_deed_words(out: &mut Vec<u8>, deed: &Deed) -> Result<(), AllocError>
    ensures { OnOk result (out.new.items ≡ out.old.items ++ join_with_byte 32 (words_of_deed deed.now)) }
{
    put_deed(out, deed)?;
    take_last(out);
    Ok(())
}

/// Writes the line of an answer of p, without its end.
fn put_answer_words(out: &mut Vec<u8>, p: u64, answer: Answer) -> Result<(), AllocError>
    ensures { OnOk result (out.new.items ≡ out.old.items
        ++ join_with_byte 32 (codes "answer" ∷ decimal p ∷ words_of_answer answer)) }
{
    put_answer(out, p, answer)?;
    take_last(out);
    Ok(())
}

/// Writes a deed as a JSON text, or `null`.
fn put_quoted_deed(out: &mut Vec<u8>, deed: &Option<Deed>) -> Result<(), AllocError>
    ensures { OnOk result (out.new.items ≡ out.old.items ++ deed_text deed.now) }
{
    let Some(deed) = deed else {
        return put_text(out, b"null");
    };
    put_text(out, b"\"")?;
    put_deed_words(out, deed)?;
    put_text(out, b"\"")
}

/// Writes an answer of p as a JSON text, or `null`.
fn put_quoted_answer(out: &mut Vec<u8>, p: u64, answer: Option<Answer>) -> Result<(), AllocError>
    ensures { OnOk result (out.new.items ≡ out.old.items ++ answer_text p answer) }
{
    let Some(answer) = answer else {
        return put_text(out, b"null");
    };
    put_text(out, b"\"")?;
    put_answer_words(out, p, answer)?;
    put_text(out, b"\"")
}

/// Writes the lock words of a process.
#[tactic(auto, unfolding(crate::specs::StepLines::own_text))]
fn put_own(out: &mut Vec<u8>, own: &Own) -> Result<(), AllocError>
    ensures { OnOk result (out.new.items ≡ out.old.items ++ own_text own.now) }
{
    put_around(out, b"[", own.choosing, b",")?;
    put_around(out, b"", own.number, b",")?;
    put_around(out, b"", own.inside, b"]")
}

/// Writes the lock words of further processes, each after a comma.
fn put_more_owns(out: &mut Vec<u8>, lock: &[Own]) -> Result<(), AllocError>
    ensures { OnOk result (out.new.items ≡ out.old.items ++ more_owns lock.now) }
{
    for own in lock {
        put_text(out, b",")?;
        put_own(out, own)?;
    }
    Ok(())
}

/// Writes the lock words of all processes.
fn put_lock(out: &mut Vec<u8>, lock: &[Own]) -> Result<(), AllocError>
    ensures { OnOk result (out.new.items ≡ out.old.items ++ owns_text lock.now) }
{
    let Some((own, more)) = lock.split_first() else {
        return Ok(());
    };
    put_own(out, own)?;
    put_more_owns(out, more)
}

/// Writes the number of a step, its process and the process's phase.
#[tactic(auto, unfolding(crate::specs::StepLines::step_place))]
pub(crate) fn put_step_place(
    out: &mut Vec<u8>,
    step: u64,
    p: u64,
    phase: LifelinePhase,
) -> Result<(), AllocError>
    ensures { OnOk result (out.new.items ≡ out.old.items ++ step_place step p phase) }
{
    put_around(out, b"{\"step\":", step, b",\"process\":")?;
    put_around(out, b"", p, b",\"phase\":\"")?;
    put_text(out, class_of(phase))?;
    put_text(out, b"\",")
}

/// Writes the same of a row, which has been played.
fn put_place(out: &mut Vec<u8>, played: &Played, row: &DiagramRow) -> Result<(), AllocError>
    ensures { OnOk result (out.new.items ≡ out.old.items ++ place_text (object_of played.now row.now)) }
{
    let lifelines = played.steps().lifelines();
    put_step_place(
        out,
        lifelines.rows(),
        row.p,
        phase_of(lifelines.phases(), row.p),
    )
}

/// Writes what a step tells, and the lock words after it.
#[tactic(auto, unfolding(crate::specs::StepLines::report_text))]
fn put_reports(
    out: &mut Vec<u8>,
    p: u64,
    deed: &Option<Deed>,
    answer: Option<Answer>,
    lock: &[Own],
) -> Result<(), AllocError>
    ensures { OnOk result (out.new.items ≡ out.old.items ++ report_text p deed.now answer lock.now) }
{
    put_text(out, b",\"deed\":")?;
    put_quoted_deed(out, deed)?;
    put_text(out, b",\"answer\":")?;
    put_quoted_answer(out, p, answer)?;
    put_text(out, b",\"lock\":[")?;
    put_lock(out, lock)?;
    put_text(out, b"]}\n")
}

/// Writes the line of a row, which has been played.
#[tactic(auto, unfolding(crate::specs::StepLines::object_line))]
pub fn put_line(
    out: &mut Vec<u8>,
    layout: &Layout,
    played: &Played,
    row: &DiagramRow,
) -> Result<(), AllocError>
    ensures { OnOk result (out.new.items ≡ out.old.items ++ object_line layout.now (object_of played.now row.now)) }
{
    put_place(out, played, row)?;
    put_act(out, layout, &row.act)?;
    put_marks_member(out, played.steps().last_marks())?;
    put_reports(out, row.p, &row.deed(), row.answer(), played.lock())
}

/// Writes who came before whom, if the fault is of that.
fn put_overtaking(out: &mut Vec<u8>, fault: Fault) -> Result<(), AllocError>
    ensures { OnOk result (out.new.items ≡ out.old.items ++ overtaking_text fault) }
{
    let Fault::Overtaken { by, of } = fault else {
        return Ok(());
    };
    put_around(out, b",\"by\":", by, b",\"of\":")?;
    put_decimal(out, of)
}

/// Writes the number of a fault.
#[tactic(auto, unfolding(crate::specs::StepLines::fault_text))]
fn put_fault(out: &mut Vec<u8>, fault: Fault) -> Result<(), AllocError>
    ensures { OnOk result (out.new.items ≡ out.old.items ++ fault_text fault) }
{
    put_around(
        out,
        b"{\"verdict\":\"against\",\"fault\":",
        fault_number(fault),
        b",\"deed\":",
    )
}

/// Writes the deed that a verdict is against, and why.
#[tactic(auto, unfolding(crate::specs::StepLines::against_text))]
fn put_against(out: &mut Vec<u8>, at: u64, fault: Fault) -> Result<(), AllocError>
    ensures { OnOk result (out.new.items ≡ out.old.items ++ against_text at fault) }
{
    put_fault(out, fault)?;
    put_decimal(out, at)?;
    put_overtaking(out, fault)?;
    put_text(out, b"}\n")
}

/// Writes a verdict as a JSON object, with its line feed.
pub fn put_verdict_object(out: &mut Vec<u8>, verdict: Verdict) -> Result<(), AllocError>
    ensures { OnOk result (out.new.items ≡ out.old.items ++ verdict_object verdict) }
{
    match verdict {
        Verdict::Fine => put_text(out, b"{\"verdict\":\"fine\"}\n"),
        Verdict::Against { at, fault } => put_against(out, at, fault),
    }
}
