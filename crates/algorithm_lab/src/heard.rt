//! What a judge hears of the deeds that an algorithm's lines note.

ghost use Rattle.std.specs.Prelude.{◌≡◌, ◌++◌, ◌∷◌, [], OnOk};
ghost use Rattle.schedule.specs.Transitions.{Took, Fell};
ghost use Rattle.algorithm_lab.specs.Heard.{doorway_reports, doorway_end_reports, entered_out_of_order, entry_reports, heard_of, phase_after, given_up, ended_by_crash, phase_crashed, heard_if, phase_if, deeds_heard, heard_of_crash};
ghost use Rattle.algorithm_lab.specs.Monitors.{answer_reports, broken_reports, excess_reports};
ghost use Rattle.algorithm_lab.specs.Runs.{event_reports};

use crate::monitor_event::{MonitorCrash, MonitorStep};
use crate::run_report::TextReport;
use crate::section::BoundedSection;
use algorithms::{AlgorithmDeed, NotedDeeds, Promises};
use rmecore::{Outer, Phase};
use std::alloc::AllocError;

/// Appends a deed to the list.
fn put(reports: &mut Vec<TextReport>, outer: Outer) -> Result<(), AllocError>
    ensures { OnOk result (reports.new.items ≡ reports.old.items ++ TextReport.Did outer ∷ []) }
{
    reports.push(TextReport::Did(outer))?;
    Ok(())
}

/// Appends Begin, unless the process has begun already.
fn put_begun(reports: &mut Vec<TextReport>, p: u64, phase: Phase) -> Result<(), AllocError>
    ensures { OnOk result (reports.new.items ≡ reports.old.items ++ doorway_reports p phase) }
{
    match phase {
        Phase::Door | Phase::Ready => Ok(()),
        Phase::Out | Phase::Inside | Phase::DeadIn => put(reports, Outer::Begin(p)),
    }
}

/// Appends Ready, unless the process is ready already.
fn put_readied(reports: &mut Vec<TextReport>, p: u64, phase: Phase) -> Result<(), AllocError>
    ensures { OnOk result (reports.new.items ≡ reports.old.items ++ doorway_end_reports p phase) }
{
    match phase {
        Phase::Ready => Ok(()),
        Phase::Out | Phase::Door | Phase::Inside | Phase::DeadIn => put(reports, Outer::Ready(p)),
    }
}

/// Appends an entry that keeps no order: a second one after a crash inside, else the whole of Begin, Ready and Enter.
fn put_out_of_order(reports: &mut Vec<TextReport>, p: u64, phase: Phase) -> Result<(), AllocError>
    ensures { OnOk result (reports.new.items ≡ reports.old.items ++ entered_out_of_order p phase) }
{
    match phase {
        Phase::DeadIn => put(reports, Outer::Reenter(p)),
        Phase::Out | Phase::Door | Phase::Ready | Phase::Inside => {
            put(reports, Outer::Begin(p))?;
            put(reports, Outer::Ready(p))?;
            put(reports, Outer::Enter(p))
        }
    }
}

/// Appends an entry, in the line's order where the algorithm promises one.
fn put_entered(
    reports: &mut Vec<TextReport>,
    promises: Promises,
    p: u64,
    phase: Phase,
) -> Result<(), AllocError>
    ensures { OnOk result (reports.new.items ≡ reports.old.items ++ entry_reports promises p phase) }
{
    if promises.order {
        put(reports, Outer::Enter(p))
    } else {
        put_out_of_order(reports, p, phase)
    }
}

/// Adds what is heard of a deed that p notes in this phase.
fn put_heard(
    reports: &mut Vec<TextReport>,
    promises: Promises,
    p: u64,
    phase: Phase,
    deed: AlgorithmDeed,
) -> Result<(), AllocError>
    ensures { OnOk result (reports.new.items ≡ reports.old.items ++ heard_of promises p phase deed) }
{
    match deed {
        AlgorithmDeed::Begin => put_begun(reports, p, phase),
        AlgorithmDeed::Ready => put_readied(reports, p, phase),
        AlgorithmDeed::Enter => put_entered(reports, promises, p, phase),
        AlgorithmDeed::Reenter => put(reports, Outer::Reenter(p)),
        AlgorithmDeed::Leave => put(reports, Outer::Leave(p)),
        AlgorithmDeed::Quit => put(reports, Outer::Quit(p)),
    }
}

/// The phase of a process after a deed that it notes.
fn phase_after(deed: AlgorithmDeed, phase: Phase) -> Phase
    ensures { result ≡ phase_after deed phase }
{
    match deed {
        AlgorithmDeed::Begin => match phase {
            Phase::Ready => Phase::Ready,
            Phase::Out | Phase::Door | Phase::Inside | Phase::DeadIn => Phase::Door,
        },
        AlgorithmDeed::Ready => Phase::Ready,
        AlgorithmDeed::Enter | AlgorithmDeed::Reenter => Phase::Inside,
        AlgorithmDeed::Leave | AlgorithmDeed::Quit => Phase::Out,
    }
}

/// The phase of a process after a deed, if there is one.
fn phase_if(deed: Option<AlgorithmDeed>, phase: Phase) -> Phase
    ensures { result ≡ phase_if deed phase }
{
    match deed {
        None => phase,
        Some(deed) => phase_after(deed, phase),
    }
}

/// The phase of a process after the deeds that a step notes.
pub fn phase_after_step(phase: Phase, noted: NotedDeeds) -> Phase
    ensures { result ≡ phase_if noted.third (phase_if noted.second (phase_if noted.first phase)) }
{
    let second = phase_if(noted.first, phase);
    phase_if(noted.third, phase_if(noted.second, second))
}

/// Adds what is heard of a deed, if there is one.
fn put_if(
    reports: &mut Vec<TextReport>,
    promises: Promises,
    p: u64,
    phase: Phase,
    deed: Option<AlgorithmDeed>,
) -> Result<(), AllocError>
    ensures { OnOk result (reports.new.items ≡ reports.old.items ++ heard_if promises p phase deed) }
{
    match deed {
        None => Ok(()),
        Some(deed) => put_heard(reports, promises, p, phase, deed),
    }
}

/// Adds what is heard of the deeds that a step of p notes.
fn put_all_heard(
    reports: &mut Vec<TextReport>,
    promises: Promises,
    p: u64,
    phase: Phase,
    noted: NotedDeeds,
) -> Result<(), AllocError>
    ensures { OnOk result (reports.new.items ≡ reports.old.items ++ (deeds_heard promises p phase noted).reports) }
{
    if let (None, None, None) = (noted.first, noted.second, noted.third) {
        return Ok(());
    }
    let second = phase_if(noted.first, phase);
    let third = phase_if(noted.second, second);
    put_if(reports, promises, p, phase, noted.first)?;
    put_if(reports, promises, p, second, noted.second)?;
    put_if(reports, promises, p, third, noted.third)
}

/// Adds the answer of p, if there is one.
fn put_answer(
    reports: &mut Vec<TextReport>,
    p: u64,
    answer: Option<usize>,
) -> Result<(), AllocError>
    ensures { OnOk result (reports.new.items ≡ reports.old.items ++ answer_reports p answer) }
{
    if let Some(answer) = answer {
        reports.push(TextReport::Answered(p, answer))?;
    }
    Ok(())
}

/// Adds that a step of p is the first above the bound of a section, if it is.
fn put_excess(
    reports: &mut Vec<TextReport>,
    p: u64,
    excess: Option<BoundedSection>,
) -> Result<(), AllocError>
    ensures { OnOk result (reports.new.items ≡ reports.old.items ++ excess_reports p excess) }
{
    if let Some(section) = excess {
        reports.push(TextReport::Exceeded(p, section))?;
    }
    Ok(())
}

/// Adds that the condition of the claim of a line holds, if one does.
fn put_broken(reports: &mut Vec<TextReport>, line: Option<u64>) -> Result<(), AllocError>
    ensures { OnOk result (reports.new.items ≡ reports.old.items ++ broken_reports line) }
{
    if let Some(line) = line {
        reports.push(TextReport::Broken(line))?;
    }
    Ok(())
}

/// Adds what a step of p reports.
pub fn put_step(reports: &mut Vec<TextReport>, p: u64, step: &MonitorStep) -> Result<(), AllocError>
    ensures { OnOk result (reports.new.items ≡ reports.old.items ++ event_reports (Took p step.now)) }
{
    put_broken(reports, step.broken)?;
    put_excess(reports, p, step.excess)?;
    put_all_heard(reports, step.promises, p, step.phase, step.advanced.noted)?;
    put_answer(reports, p, step.advanced.answer)
}

/// Adds what a crash of p in this phase ends.
fn put_given_up(reports: &mut Vec<TextReport>, p: u64, phase: Phase) -> Result<(), AllocError>
    ensures { OnOk result (reports.new.items ≡ reports.old.items ++ given_up p phase) }
{
    match phase {
        Phase::Door | Phase::Ready => put(reports, Outer::Quit(p)),
        Phase::Inside => put(reports, Outer::Leave(p)),
        Phase::Out | Phase::DeadIn => Ok(()),
    }
}

/// Appends what a crash of p in this phase ends, unless the algorithm promises that p enters again.
fn end_by_crash(
    reports: &mut Vec<TextReport>,
    promises: Promises,
    p: u64,
    phase: Phase,
) -> Result<(), AllocError>
    ensures { OnOk result (reports.new.items ≡ reports.old.items ++ ended_by_crash promises p phase) }
{
    if promises.reentry {
        Ok(())
    } else {
        put_given_up(reports, p, phase)
    }
}

/// The phase of a process after a crash.
pub(crate) fn phase_crashed(promises: Promises, phase: Phase) -> Phase
    ensures { result ≡ phase_crashed promises phase }
{
    match phase {
        Phase::DeadIn => Phase::DeadIn,
        Phase::Inside if promises.reentry => Phase::DeadIn,
        _ if promises.reentry => phase,
        _ => Phase::Out,
    }
}

/// Adds what a crash of p reports.
pub fn put_crash(
    reports: &mut Vec<TextReport>,
    p: u64,
    crash: &MonitorCrash,
) -> Result<(), AllocError>
    ensures { OnOk result (reports.new.items ≡ reports.old.items ++ event_reports (Fell p crash.now)) }
{
    put_broken(reports, crash.broken)?;
    end_by_crash(reports, crash.promises, p, crash.phase)?;
    put(reports, Outer::Crash(p))
}
