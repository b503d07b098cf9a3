//! The verdict on what a run reports: that of a judge on its deeds, and that on what else is promised.

ghost use Rattle.std.specs.Prelude.{◌≡◌, ◌∷◌, [], IfOk};
ghost use Rattle.std.specs.List.{list_any};
ghost use Rattle.judge.specs.Stands.{Keeps};
ghost use Rattle.judge.specs.Table.{State};
ghost use Rattle.schedule.specs.RunningVerdicts.{running_judge, Hears};
ghost use Rattle.schedule.specs.Verdicts.{verdict_on};
ghost use Rattle.algorithm_lab.specs.Runs.{deeds_of};
ghost use Rattle.algorithm_lab.specs.Reports.{is_breach, or_verdict, promises_verdict, verdict_of};

use crate::run_report::TextReport;
use algorithms::Algorithm;
use judge::Judge;
use redomail::Deed;
use rmecore::Fault;
use schedule::Verdict;
use schedule::replays::running_verdict::RunningVerdict;
use std::alloc::{AllocError, Global};

/// Gives the judge a deed that is reported.
fn hear(running_verdict: &mut RunningVerdict, judge: &mut Judge, reports: &TextReport)
    ensures { Hears (running_judge judge.old running_verdict.old) (deeds_of (reports.now ∷ []))
        (running_judge judge.new running_verdict.new) }
{
    match reports {
        TextReport::Did(outer) => running_verdict.hear(judge, &Deed::Outer(*outer)),
        TextReport::Answered(_, _) | TextReport::Exceeded(_, _) | TextReport::Broken(_) => {}
    }
}

/// Gives the judge the deeds that are reported, one after another.
pub fn hear_all(running_verdict: &mut RunningVerdict, judge: &mut Judge, reports: &[TextReport])
    ensures { Hears (running_judge judge.old running_verdict.old) (deeds_of reports.now)
        (running_judge judge.new running_verdict.new) }
{
    for one in reports {
        hear(running_verdict, judge, one);
    }
}

/// Whether it is a breach of a promise on own steps, or of a claim.
fn is_breach(report: &TextReport) -> bool
    ensures { result ≡ is_breach report.now }
{
    match report {
        TextReport::Exceeded(_, _) | TextReport::Broken(_) => true,
        TextReport::Did(_) | TextReport::Answered(_, _) => false,
    }
}

/// Whether a breach is reported.
pub fn has_breach(reports: &[TextReport]) -> bool
    ensures { result ≡ list_any is_breach reports.now }
{
    reports.iter().any(|report| is_breach(report))
}

/// The verdict on own steps and claims: against the first breach, by the number of the deed that comes next.
fn promises_verdict(reports: &[TextReport]) -> Verdict
    ensures { result ≡ promises_verdict 1 reports.now }
{
    let mut number: u64 = 1;
    for report in reports {
        match report {
            TextReport::Did(_) => number = number.saturating_add(1),
            TextReport::Answered(_, _) => {}
            TextReport::Exceeded(_, section) => return Verdict::Against {
                at: number,
                fault: section.fault(),
            },
            TextReport::Broken(_) => return Verdict::Against {
                at: number,
                fault: Fault::BrokenClaim,
            },
        }
    }
    Verdict::Fine
}

/// Where one verdict is fine, the other.
fn or_verdict(verdict: Verdict, other: Verdict) -> Verdict
    ensures { result ≡ or_verdict verdict other }
{
    match verdict {
        Verdict::Fine => other,
        Verdict::Against { .. } => verdict,
    }
}

/// The verdict of a judge on the deeds that are reported.
fn judge_reports(judge: &mut Judge, reports: &[TextReport]) -> Verdict
    ensures { (start : State) → Keeps judge.old start → result ≡ verdict_on start (deeds_of reports.now) }
{
    let mut running_verdict = RunningVerdict::OPENED;
    hear_all(&mut running_verdict, judge, reports);
    running_verdict.verdict()
}

/// The verdict on what a run of the algorithm reports: that of a judge of a new lock on its deeds, and where it allows all of them,
/// that on own steps and claims.
pub fn verdict_of(
    alloc: Global,
    algorithm: &Algorithm,
    procs: u64,
    reports: &[TextReport],
) -> Result<Verdict, AllocError>
    ensures { IfOk result (λ verdict. verdict ≡ verdict_of algorithm.now procs reports.now) }
{
    let most_inside = algorithm.promises.most_inside;
    let Ok(mut judge) = Judge::of_exclusion(alloc, most_inside, procs, 1) else {
        return Err(AllocError);
    };
    let judged = judge_reports(&mut judge, reports);
    Ok(or_verdict(judged, promises_verdict(reports)))
}
