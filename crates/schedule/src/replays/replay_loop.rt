//! Replays a schedule.

ghost use Rattle.std.specs.Prelude.{◌≡◌, ℕ, ◌+◌, ◌-◌, ◌^◌, min, ◌⊎◌, List, None, Some, OnOk, IfErr};
ghost use Rattle.judge.specs.Table.{State};
ghost use Rattle.judge.specs.Stands.{Keeps};
ghost use Rattle.schedule.specs.Tapes.{Writes, Begins};
ghost use Rattle.schedule.specs.ReplayStops.{IsRefused, IsOver};
ghost use Rattle.schedule.specs.Runs.{deeds_of, run_on};
ghost use Rattle.schedule.specs.RunningVerdicts.{state_after_deeds};
ghost use Rattle.schedule.specs.Replays.{Replays, Closes};

use crate::replays::last_words::put_end;
use crate::replays::replay_fault::ReplayFault;
use crate::replays::report_writer::report_lines;
use crate::replays::reporter::Reporter;
use crate::replays::verdict::Verdict;
use crate::texts::device::{Sink, write_all};
use crate::texts::schedule::Schedule;
use judge::Judge;
use rmeworld::{Image, Machine};
use std::alloc::Global;

/// Writes a text and flushes the sink.
fn put_out<W: Sink>(w: &mut W, text: &[u8]) -> Result<(), ReplayFault>
    ensures written { OnOk result (Writes (W.tape w.old) (W.tape w.new) text.now) }
    ensures failed { IfErr result (λ fault. (fault ≡ ReplayFault.Write)
        × Begins (W.tape w.old).taken (W.tape w.new).taken text.now
        × ((W.tape w.new).failures ≡ min ((W.tape w.old).failures + 1) (2 ^ 64 - 1))) }
{
    write_all(w, text)?;
    w.flush()?;
    Ok(())
}

/// Writes the end of a report: lock words, mailbox and verdict.
pub fn close<W: Sink>(
    alloc: Global,
    image: &Image,
    verdict: Verdict,
    w: &mut W,
) -> Result<(), ReplayFault>
    ensures { Closes (W.tape w.old) (W.tape w.new) image.now verdict result }
{
    let mut page = Vec::new(alloc);
    put_end(alloc, &mut page, image, verdict)?;
    put_out(w, &page)
}

/// Flushes the sink after a refused line. Answers the fault, or `Write` where the flush fails.
pub(crate) fn settle<W: Sink>(w: &mut W, fault: ReplayFault) -> ReplayFault
    ensures taken { (W.tape w.new).taken ≡ (W.tape w.old).taken }
    ensures fault { (result ≡ fault) × ((W.tape w.new).failures ≡ (W.tape w.old).failures) ⊎ (result ≡ ReplayFault.Write)
        × ((W.tape w.new).failures ≡ min ((W.tape w.old).failures + 1) (2 ^ 64 - 1)) × IsRefused fault }
{
    match fault {
        ReplayFault::Refused { .. } => match w.flush() {
            Ok(()) => fault,
            Err(_) => ReplayFault::Write,
        },
        _ => fault,
    }
}

/// Replays a schedule on a machine and before a judge that are lent, and writes the report as the steps are taken.
/// The sizes of the machine and the judge count; those that the schedule names are not compared.
/// The contract speaks of the run that the machine's own steps make.
pub fn replay_on<M: Machine, W: Sink>(
    alloc: Global,
    machine: &mut M,
    judge: &mut Judge,
    schedule: &Schedule,
    w: &mut W,
) -> Result<Verdict, ReplayFault>
    // The report of just this run is written and its verdict answered, or the reason why not.
    ensures replay { (start : State) → Keeps judge.old start
        → Replays (W.tape w.old) (W.tape w.new) start M.behaviour.image_of
        (run_on M.behaviour 2 machine.old schedule.now.lines) result }
    // After a verdict or a refused line the machine is as the run leaves it. A run ends at the line that is refused.
    ensures left { IsOver result → machine.new ≡ (run_on M.behaviour 2 machine.old schedule.now.lines).left }
    // The judge was given the deeds of just this run, up to the first that is not allowed.
    ensures heard { (start : State) → Keeps judge.old start → IsOver result
        → Keeps judge.new (state_after_deeds start (deeds_of (run_on M.behaviour 2 machine.old schedule.now.lines).reports)) }
{
    let mut reporter = Reporter::new(alloc);
    if let Err(fault) = report_lines(machine, judge, &mut reporter, w, schedule.lines()) {
        return Err(settle(w, fault));
    }
    let verdict = reporter.verdict();
    let Ok(image) = machine.image() else {
        return Err(ReplayFault::OutOfMemory);
    };
    close(alloc, &image, verdict, w)?;
    Ok(verdict)
}
