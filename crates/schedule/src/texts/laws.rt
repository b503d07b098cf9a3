//! Laws of the texts.

ghost use Rattle.std.specs.Prelude.{◌≡◌, ℕ, List, Ok};
ghost use Rattle.schedule.specs.Schedules.{Scheduled, IsScheduled, spelling, schedule_at};
ghost use Rattle.schedule.specs.Traces.{Traced, IsTraced, trace_spelling, trace_at};

/// A text has no fault exactly where it is the spelling of a schedule, and then that schedule is read.
pub fn one_spelling()
    ensures again { (schedule : Scheduled) → IsScheduled schedule → schedule_at (spelling schedule) ≡ Ok schedule }
    ensures takes { (text : List ℕ) (schedule : Scheduled) → schedule_at text ≡ Ok schedule
        → (text ≡ spelling schedule) × IsScheduled schedule }
    ensures only { (one other : Scheduled) → IsScheduled one → IsScheduled other → spelling one ≡ spelling other → one ≡ other }
{}

/// A text has no fault exactly where it is the spelling of a trace, and then that trace is read.
pub fn one_spelling_of_traces()
    ensures again { (trace : Traced) → IsTraced trace → trace_at (trace_spelling trace) ≡ Ok trace }
    ensures takes { (text : List ℕ) (trace : Traced) → trace_at text ≡ Ok trace
        → (text ≡ trace_spelling trace) × IsTraced trace }
    ensures only { (one other : Traced) → IsTraced one → IsTraced other
        → trace_spelling one ≡ trace_spelling other → one ≡ other }
{}
