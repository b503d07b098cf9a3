//! Laws over every session. Each law is the contract of a function with an empty body.

ghost use Rattle.std.specs.Prelude.{◌≡◌, ◌++◌, ◌∷◌, [], None, ℕ, List};
ghost use Rattle.algorithm_lab.specs.Monitors.{MonitorState};
ghost use Rattle.algorithm_lab.specs.Runs.{run_on as run_of_algorithm};
ghost use Rattle.rmeworld.specs.Replayed.{world_behaviour};
ghost use Rattle.schedule.specs.Runs.{run_on};
ghost use Rattle.schedule.specs.Schedules.{Scheduled};
ghost use Rattle.schedule.specs.declared.lines.line.Line.{Line};
ghost use Rattle.schedule.specs.declared.texts.head.Head.{Head};
ghost use Rattle.diagram.specs.AlgorithmEvents.{events_on as events_of_algorithm};
ghost use Rattle.diagram.specs.AlgorithmSimulations.{algorithm_semantics, events_text};
ghost use Rattle.diagram.specs.DiagramLayouts.{layout_of};
ghost use Rattle.diagram.specs.Events.{events_on};
ghost use Rattle.diagram.specs.Followed.{run_text};
ghost use Rattle.diagram.specs.LockSimulations.{LockSimulationState, lock_semantics};
ghost use Rattle.diagram.specs.Semantics.{lines_on};
ghost use Rattle.diagram.specs.Sessions.{IsOfSchedule, SessionState, after_redo, after_undo, at_schedule, lines_text};
ghost use Rattle.diagram.specs.Sessions.{played, refusal_in, session_after};

use crate::session::simulation::Simulation;

/// Whatever lines a session was given, it shows the simulation of its schedule, played from its beginning.
pub fn sessions_show_their_schedule<S: Simulation>()
    ensures { (first : S) (schedule : Scheduled) (inputs : List (List ℕ))
        → IsOfSchedule S.semantics (session_after S.semantics (at_schedule S.semantics first schedule []) inputs) }
{}

/// After a line that was taken, undo leads to the session before it, and redo takes the line again.
pub fn undo_leads_back<S: Simulation>()
    ensures undo { (session : SessionState S) (undone : List Line) (line : Line) → IsOfSchedule S.semantics session
        → refusal_in S.semantics session line ≡ None
        → after_undo S.semantics (played S.semantics session undone line) ≡ record session { undone = undone ++ line ∷ [] } }
    ensures redo { (session : SessionState S) (undone : List Line) (line : Line) → IsOfSchedule S.semantics session
        → refusal_in S.semantics session line ≡ None
        → after_redo S.semantics (after_undo S.semantics (played S.semantics session undone line))
        ≡ played S.semantics session undone line }
{}

/// The steps that a session writes for lines one by one are those of their run, as a replay writes them, no more and no
/// less; and the world after them is that of the run.
pub fn steps_are_those_of_the_run()
    ensures steps { (head : Head) (lock : LockSimulationState) (lines : List Line)
        → (run_on world_behaviour 2 lock.world lines).refused ≡ None → lines_text lock_semantics head lock lines
        ≡ run_text (layout_of head) lock.last_steps.phases (events_on world_behaviour lock.world lines) }
    ensures world { (lock : LockSimulationState) (lines : List Line)
        → (run_on world_behaviour 2 lock.world lines).refused ≡ None
        → (lines_on lock_semantics.after lock lines).world ≡ (run_on world_behaviour 2 lock.world lines).left }
{}

/// The steps that a session over an algorithm writes for lines one by one are those of their run, no more and no less; and the
/// world after them is that of the run.
pub fn steps_of_an_algorithm_are_those_of_the_run()
    ensures steps { (head : Head) (m : MonitorState) (lines : List Line) → (run_of_algorithm 2 m lines).refused ≡ None
        → lines_text algorithm_semantics head m lines ≡ events_text m.world.algorithm (events_of_algorithm m lines) }
    ensures world { (m : MonitorState) (lines : List Line) → (run_of_algorithm 2 m lines).refused ≡ None
        → lines_on algorithm_semantics.after m lines ≡ (run_of_algorithm 2 m lines).left }
{}
