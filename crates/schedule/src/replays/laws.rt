//! Laws of the runs of schedules on worlds.

ghost use Rattle.std.specs.Prelude.{◌≡◌, ℕ, ◌≤◌, List, map, Result, Some, None, IfOk};
ghost use Rattle.std.specs.List.{range_with_len};
ghost use Rattle.redomail.specs.declared.layout.Layout.{Layout as LayoutOf};
ghost use Rattle.judge.specs.Starts.{state_of};
ghost use Rattle.judge.specs.Table.{empty_state};
ghost use Rattle.judge.specs.declared.start.Start.{Start as StartOf};
ghost use Rattle.rmeworld.specs.declared.image.Image.{Image as ImageOf};
ghost use Rattle.rmeworld.specs.ImageRules.{layout_of, IsLawfulImage};
ghost use Rattle.rmeworld.specs.ImageStart.{IsStartOf};
ghost use Rattle.rmeworld.specs.Replayed.{image_of, world_behaviour};
ghost use Rattle.rmeworld.specs.WorldState.{WorldState, new_world, new_refusal, image_world};
ghost use Rattle.schedule.specs.declared.lines.line.Line.{Line as LineOf};
ghost use Rattle.schedule.specs.declared.lines.line.Line.TheVariants.{Crash, CrashAll};
ghost use Rattle.schedule.specs.declared.replays.replay_fault.ReplayFault.{ReplayFault as ReplayFaultOf};
ghost use Rattle.schedule.specs.declared.replays.verdict.Verdict.{Verdict as VerdictOf};
ghost use Rattle.schedule.specs.declared.replays.verdict.Verdict.TheVariants.{Fine};
ghost use Rattle.schedule.specs.Tapes.{Tape};
ghost use Rattle.schedule.specs.Replays.{Replays};
ghost use Rattle.schedule.specs.Runs.{deeds_of, run_on, IsSameAsLines};
ghost use Rattle.schedule.specs.Executions.{IsExecution};
ghost use Rattle.schedule.specs.Verdicts.{verdict_on};

/// The run of a schedule on a world is an execution of the model, also where a line is refused or memory runs out.
/// From a new world, or from that of a lawful image, some execution has just the starts, steps and crashes of the lines that
/// were played, and just the deeds and answers of the run, in its order, and ends with just the words that the run leaves.
/// A replay reports just this run.
pub fn runs_are_executions()
    ensures new { (l : LayoutOf) (limit : ℕ) (lines : List LineOf) → new_refusal l limit ≡ None
        → IsExecution l limit None lines (run_on world_behaviour 2 (new_world l limit) lines) }
    ensures later { (i : ImageOf) (lines : List LineOf) → IsLawfulImage i
        → IsExecution (layout_of i) i.limit (Some i) lines (run_on world_behaviour 2 (image_world i) lines) }
{}

/// On a world the line `crash all` is a crash of each process in a row: it reports and leaves just what the lines `crash 0`,
/// `crash 1`, .. do, one for each process. None of them is refused.
pub fn crash_all_is_each_crash()
    ensures { (world : WorldState) → world.layout.procs ≤ 64
        → IsSameAsLines world_behaviour world CrashAll (map Crash (range_with_len 0 world.layout.procs)) }
{}

/// The lock theorem for replays: whatever lines are played on a new world, a new judge of its processes and its capacity
/// allows each deed. So does a judge made from the start of an image, on the world of that image.
/// `replayed` and `replayed_later` say it of what `replay_on` answers there.
pub fn worlds_are_never_found_out()
    ensures new { (l : LayoutOf) (limit : ℕ) (lines : List LineOf) → new_refusal l limit ≡ None
        → verdict_on (empty_state l.procs l.cap) (deeds_of (run_on world_behaviour 2 (new_world l limit) lines).reports) ≡ Fine }
    ensures later { (i : ImageOf) (s : StartOf) (lines : List LineOf) → IsLawfulImage i → IsStartOf i s
        → verdict_on (state_of s) (deeds_of (run_on world_behaviour 2 (image_world i) lines).reports) ≡ Fine }
    ensures replayed { (l : LayoutOf) (limit : ℕ) (lines : List LineOf) (before now : Tape)
        (answer : Result VerdictOf ReplayFaultOf) → new_refusal l limit ≡ None
        → Replays before now (empty_state l.procs l.cap) image_of (run_on world_behaviour 2 (new_world l limit) lines) answer
        → IfOk answer (λ verdict. verdict ≡ Fine) }
    ensures replayed_later { (i : ImageOf) (s : StartOf) (lines : List LineOf) (before now : Tape)
        (answer : Result VerdictOf ReplayFaultOf) → IsLawfulImage i → IsStartOf i s
        → Replays before now (state_of s) image_of (run_on world_behaviour 2 (image_world i) lines) answer
        → IfOk answer (λ verdict. verdict ≡ Fine) }
{}
