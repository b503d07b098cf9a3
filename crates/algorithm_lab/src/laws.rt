//! What the text of the recoverable Bakery means, and of what a verdict comes. Each law is the contract of a function with an empty
//! body.

ghost use Rattle.std.specs.Prelude.{◌≡◌, ◌≢◌, ◌<◌, ◌≤◌, ◌^◌, false, ℕ, List, [], ◌++◌, All, Some, None, Result, IfOk, option_and_then, option_map};
ghost use Rattle.rmecore.specs.Machine.{answer};
ghost use Rattle.rmecore.specs.Paid.{is_glance};
ghost use Rattle.rmecore.specs.Place.{Starts, Crashes};
ghost use Rattle.rmecore.specs.Refused.{number_of};
ghost use Rattle.rmecore.specs.Simulated.{Simulated, Takes, ChoosesLeast, event_of, own_at, place_at, refusal_at, step_refusal, world_of, new_refusal as lock_refusal};
ghost use Rattle.rmecore.specs.World.{World, IsReached, at_rest, deed};
ghost use Rattle.rmecore.specs.declared.core_done.CoreDone.{CoreDone};
ghost use Rattle.rmecore.specs.declared.happened.Happened.{Happened};
ghost use Rattle.rmecore.specs.declared.outer.Outer.{Outer};
ghost use Rattle.rmecore.specs.declared.phase.Phase.{Phase as PhaseOf};
ghost use Rattle.rmecore.specs.declared.refusal.Refusal.{Refusal};
ghost use Rattle.schedule.specs.Reports.{line_of_report as lock_line};
ghost use Rattle.schedule.specs.Runs.{Answered as LockAnswered, run_on as lock_run_on};
ghost use Rattle.schedule.specs.Tapes.{Tape};
ghost use Rattle.schedule.specs.Verdicts.{verdict_on};
ghost use Rattle.schedule.specs.declared.lines.line.Line.{Line as LineOf};
ghost use Rattle.schedule.specs.declared.replays.verdict.Verdict.{Verdict as VerdictOf};
ghost use Rattle.schedule.specs.declared.replays.verdict.Verdict.TheVariants.{Fine};
ghost use Rattle.algorithms.specs.FirstWords.{from_zeros};
ghost use Rattle.algorithms.specs.Worlds.{AlgorithmWorldState as WorldOf, new_refusal};
ghost use Rattle.algorithms.specs.declared.algorithm.Algorithm.{Algorithm};
ghost use Rattle.algorithms.specs.declared.first_values.InitializedAlgorithm.{InitializedAlgorithm as InitializedOf};
ghost use Rattle.algorithms.specs.declared.algorithm.AlgorithmCall.{AlgorithmCall};
ghost use Rattle.algorithms.specs.declared.never_claim.NeverClaim.{NeverClaim as ClaimOf};
ghost use Rattle.algorithm_lab.specs.Claims.{holds_of, is_broken};
ghost use Rattle.algorithm_lab.specs.Monitors.{answer_reports, first_monitor};
ghost use Rattle.algorithm_lab.specs.Refusals.{number_of_world};
ghost use Rattle.algorithm_lab.specs.Bakery.{IsBakery};
ghost use Rattle.algorithm_lab.specs.LockLines.{IsOfLock, SameRun, answer_of, image_of, lock_behaviour};
ghost use Rattle.algorithm_lab.specs.Moves.{ScheduleMove, Start, Step, Crash, Tells, all_said, left_by, core_call, answer_number, deed_report, refused_outcome, lock_move, text_move, SameWords};
ghost use Rattle.algorithm_lab.specs.Replays.{ReplaysAlgorithm, run_of};
ghost use Rattle.algorithm_lab.specs.Reports.{first_judge, line_of_report, verdict_of};
ghost use Rattle.algorithm_lab.specs.Runs.{deeds_of, run_on};
ghost use Rattle.algorithm_lab.specs.Sections.{bounds_steps};
ghost use Rattle.algorithm_lab.specs.declared.replay_fault.AlgorithmReplayFault.{AlgorithmReplayFault};
ghost use Rattle.algorithm_lab.specs.declared.run_report.TextReport.TheVariants.{Answered};

/// The text of the recoverable Bakery means the proved lock. For every schedule of starts of lock, unlock, recover and
/// withdraw, of steps and of crashes, an algorithm with its lines says in the laboratory, move by move, what the lock says:
/// the same deeds, the same answers, and a refusal with the same number. Then its shared words are the lock words. A world
/// of it is refused for the sizes for which a lock is. That the text spells such an algorithm, and no first values, is a test.
pub fn the_text_means_the_lock()
    ensures said { (a : Algorithm) (n limit : ℕ) (moves : List ScheduleMove) → IsBakery a → n ≤ 64 → limit ≤ 2 ^ 62
        → all_said text_move (first_monitor (from_zeros a) n limit) moves ≡ all_said (lock_move n limit) at_rest moves }
    ensures words { (a : Algorithm) (n limit : ℕ) (moves : List ScheduleMove) → IsBakery a → n ≤ 64 → limit ≤ 2 ^ 62
        → SameWords n (left_by (lock_move n limit) at_rest moves) (left_by text_move (first_monitor (from_zeros a) n limit) moves) }
    ensures sizes { (a : Algorithm) (n limit : ℕ) → IsBakery a
        → option_and_then number_of_world (new_refusal (from_zeros a) n limit) ≡ option_and_then number_of (lock_refusal n limit) }
{}

/// A core makes these moves: what its contract says of a start, a step or a crash is so of the move of the lock alone.
pub fn a_core_makes_these_moves()
    ensures start { (s t : Simulated) (p : ℕ) (call : AlgorithmCall) → refusal_at s p (core_call call) ≡ None
        → Takes s (Starts p (core_call call)) t
        → lock_move s.procs s.limit (world_of s) (Start p call) ≡ record { said = Tells []; left = world_of t } }
    ensures no_start { (s : Simulated) (p : ℕ) (call : AlgorithmCall) (e : Refusal) → refusal_at s p (core_call call) ≡ Some e
        → lock_move s.procs s.limit (world_of s) (Start p call) ≡ refused_outcome (world_of s) e }
    ensures step { (s t : Simulated) (p : ℕ) (h : Happened) → IsReached s.procs s.limit (world_of s) → Takes s (event_of p h) t
        → is_glance h.kind ≡ false → ChoosesLeast s p h → h.outer ≡ deed (place_at s.processes p) (event_of p h)
        → h.done ≡ answer (place_at s.processes p) h.kind h.value
        → lock_move s.procs s.limit (world_of s) (Step p) ≡ record {
          said = Tells (deed_report h.outer ++ answer_reports p (option_map answer_number h.done));
          left = world_of t;
        } }
    ensures no_step { (s : Simulated) (p : ℕ) (e : Refusal) → step_refusal s p ≡ Some e
        → lock_move s.procs s.limit (world_of s) (Step p) ≡ refused_outcome (world_of s) e }
    ensures crash { (s t : Simulated) (p : ℕ) (outer : Outer) → deed (place_at s.processes p) (Crashes p) ≡ Some outer
        → Takes s (Crashes p) t
        → lock_move s.procs s.limit (world_of s) (Crash p) ≡ record { said = Tells (deed_report (Some outer)); left = world_of t } }
{}

/// A schedule on the text of the recoverable Bakery is that schedule on the lock alone, line by line, `step P K` too. For every
/// list of lines whose calls are lock, unlock, recover and withdraw, both runs report the same deeds and answers, in lines of the
/// same bytes; the same line is refused, by the same number; and the words left are the same (`lines`). The text's report ends
/// with a line of them for each declaration, that of the lock with one for each process. Each answer of the lock is one of the
/// text, in the same words (`answers`). An image of the lock has the words that are left (`image`).
pub fn the_text_plays_as_the_lock()
    ensures lines { (a : Algorithm) (n limit first : ℕ) (lines : List LineOf) → IsBakery a → n ≤ 64 → limit ≤ 2 ^ 62
        → All IsOfLock lines → SameRun a n (run_on first (first_monitor (from_zeros a) n limit) lines)
        (lock_run_on (lock_behaviour n limit) first at_rest lines) }
    ensures answers { (a : Algorithm) (p : ℕ) (done : CoreDone) → IsBakery a
        → line_of_report a (Answered p (answer_number done)) ≡ lock_line (LockAnswered p (answer_of done)) }
    ensures image { (n limit p : ℕ) (w : World) → p < n → own_at (image_of n limit w).lock p ≡ w.words p }
{}

/// No replay of the text of the recoverable Bakery is against, whatever its sizes and its lines are: also where a line is refused,
/// as one with a call that the text has not. `replayed` says it of what `replay_algorithm` answers.
pub fn the_text_is_never_found_out()
    ensures judged { (a : Algorithm) (n limit : ℕ) (lines : List LineOf) → IsBakery a
        → verdict_of a n (run_of (from_zeros a) n limit lines).reports ≡ Fine }
    ensures replayed { (a : Algorithm) (n limit : ℕ) (lines : List LineOf) (before now : Tape)
        (answer : Result VerdictOf AlgorithmReplayFault) → IsBakery a
        → ReplaysAlgorithm before now (run_of (from_zeros a) n limit lines) answer
        → IfOk answer (λ verdict. verdict ≡ Fine) }
{}

/// A text that promises no bound on own steps, and claims that nothing never holds, is judged by its deeds alone, on every schedule.
pub fn without_bounds_only_deeds_count()
    ensures { (a : InitializedOf) (n limit : ℕ) (lines : List LineOf) → bounds_steps a.algorithm.step_bounds ≡ false
        → a.algorithm.claims.items ≡ [] → verdict_of a.algorithm n (run_of a n limit lines).reports
        ≡ verdict_on (first_judge a.algorithm n) (deeds_of (run_of a n limit lines).reports) }
{}

/// Where a monitor does not find a claim of the text broken, its condition holds of no different processes of that state.
pub fn unbroken_claims_hold_of_nobody()
    ensures none { (w : WorldOf) (phases : List PhaseOf) (claim : ClaimOf) → claim.processes ≡ 0 → is_broken w phases claim ≡ false
        → holds_of w phases claim None None ≡ false }
    ensures one { (w : WorldOf) (phases : List PhaseOf) (claim : ClaimOf) (p : ℕ) → claim.processes ≡ 1
        → is_broken w phases claim ≡ false → p < w.procs → holds_of w phases claim (Some p) None ≡ false }
    ensures two { (w : WorldOf) (phases : List PhaseOf) (claim : ClaimOf) (p q : ℕ) → claim.processes ≡ 2
        → is_broken w phases claim ≡ false → p < w.procs → q < w.procs → q ≢ p
        → holds_of w phases claim (Some p) (Some q) ≡ false }
{}
