//! The verdict on the deeds of rows.

ghost use Rattle.std.specs.Prelude.{◌≡◌};
ghost use Rattle.judge.specs.Stands.{Keeps};
ghost use Rattle.judge.specs.Table.{State};
ghost use Rattle.schedule.specs.Runs.{deeds_of, did};
ghost use Rattle.schedule.specs.RunningVerdicts.{running_judge, Hears};
ghost use Rattle.schedule.specs.Verdicts.{verdict_on as verdict_of};
ghost use Rattle.diagram.specs.Events.{reports_in};
ghost use Rattle.diagram.specs.Rows.{deed_of, events_in};

use crate::act::DiagramRow;
use judge::Judge;
use schedule::Verdict;
use schedule::replays::running_verdict::RunningVerdict;

/// Gives the judge the deed of a row, if it has one.
fn hear(running_verdict: &mut RunningVerdict, judge: &mut Judge, row: &DiagramRow)
    ensures { Hears (running_judge judge.old running_verdict.old) (deeds_of (did (deed_of row.now.act)))
        (running_judge judge.new running_verdict.new) }
{
    let Some(deed) = row.deed() else {
        return;
    };
    running_verdict.hear(judge, &deed);
}

/// The verdict of a judge on the deeds of rows.
pub fn verdict_on(judge: &mut Judge, rows: &[DiagramRow]) -> Verdict
    ensures { (start : State) → Keeps judge.old start → result ≡ verdict_of start (deeds_of (reports_in (events_in rows.now))) }
{
    let mut running_verdict = RunningVerdict::OPENED;
    for row in rows {
        hear(&mut running_verdict, judge, row);
    }
    running_verdict.verdict()
}
