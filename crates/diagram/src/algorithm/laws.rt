//! A law over every run of an algorithm. It is the contract of a function with an empty body.

ghost use Rattle.std.specs.Prelude.{◌≡◌, [], ℕ, List};
ghost use Rattle.schedule.specs.declared.lines.line.Line.{Line};
ghost use Rattle.algorithm_lab.specs.Monitors.{MonitorState};
ghost use Rattle.algorithm_lab.specs.Runs.{run_on};
ghost use Rattle.diagram.specs.AlgorithmEvents.{events_on};
ghost use Rattle.diagram.specs.AlgorithmRows.{reported_in, with_events};

/// The rows of a drawing report just what the run of its lines reports, in order.
pub fn rows_report_their_run()
    ensures { (k : ℕ) (m : MonitorState) (lines : List Line)
        → reported_in (with_events [] (events_on m lines)) ≡ (run_on k m lines).reports }
{}
