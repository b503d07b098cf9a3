//! Laws of worlds of the variants. Each is the contract of a function that does nothing.

ghost use Rattle.std.specs.Prelude.{◌≡◌, ◌+◌, ◌<◌, ◌≤◌, ℕ, List, map, Some, None};
ghost use Rattle.std.specs.List.{range_with_len};
ghost use Rattle.rmecore.specs.Machine.{kind_of, carried_value};
ghost use Rattle.rmecore.specs.declared.access.Access.{Access};
ghost use Rattle.redomail.specs.declared.layout.Layout.{Layout};
ghost use Rattle.rmeworld.specs.declared.call.Call.{Call};
ghost use Rattle.rmeworld.specs.ProcessState.{ProcessState, WorldEvent, Begins, Falls, at_rest, next_process_state, lock_deed};
ghost use Rattle.schedule.specs.Runs.{IsSameAsLines};
ghost use Rattle.schedule.specs.declared.lines.line.Line.TheVariants.{Crash, CrashAll};
ghost use Rattle.crashlab.specs.declared.hunts.moves.DrawnMove.TheVariants as drawn;
ghost use Rattle.crashlab.specs.hunts.Draws.{Sight, drawn_move, move_of_word};
ghost use Rattle.crashlab.specs.hunts.Hunted.{found_from, hunt_result, or_else};
ghost use Rattle.crashlab.specs.declared.variants.deviation.Deviation.TheVariants.{Straight};
ghost use Rattle.crashlab.specs.variants.VariantProcessStates.{beside, variant_process_state, variant_outer, variant_answer_at, variant_done_at, variant_access_at};
ghost use Rattle.crashlab.specs.variants.VariantWorlds.{VariantState, new_world, start_refusal, variant_after_start, access_at, found_by, variant_step_report, variant_after_step, variant_after_crash, variant_behaviour};
ghost use Rattle.crashlab.specs.variants.VariantRuns.{IsVariantRun, process_state_at, move};

use crate::hunts::random_moves::RandomMoves;
use crate::variants::variant::Variant;

/// In every run of a world of a variant each process follows the variant's definition. This is the lock's, but for the rows
/// that the variant changes. A process begins at rest. Its starts, steps and crashes lead where the definition says.
/// Its next step is the definition's, with the least process where there is a choice. The deed of the lock, the answer of
/// the lock's part and the call's answer are the definition's.
pub fn variants_keep_to_their_rows()
    ensures rest { (variant : Variant) (l : Layout) (limit p : ℕ) → p < l.procs
        → process_state_at (new_world variant l limit) p ≡ record { process_state = at_rest; deviation = Straight } }
    ensures starts { (s : VariantState) (p : ℕ) (call : Call) → IsVariantRun s → start_refusal s p call ≡ None
        → variant_process_state s.variant s.layout s.limit (process_state_at s p) (Begins p call)
        ≡ Some (process_state_at (variant_after_start s p call) p) }
    ensures next { (s : VariantState) (p : ℕ) → IsVariantRun s → p < s.layout.procs
        → access_at s p ≡ variant_access_at s.variant s.limit p (process_state_at s p) }
    ensures steps { (s : VariantState) (p : ℕ) (a : Access) → IsVariantRun s → p < s.layout.procs → access_at s p ≡ Some a
        → variant_process_state s.variant s.layout s.limit (process_state_at s p) (move s p a)
        ≡ Some (process_state_at (variant_after_step s p) p) }
    ensures deeds { (s : VariantState) (p : ℕ) (a : Access) → IsVariantRun s → p < s.layout.procs → access_at s p ≡ Some a
        → (variant_step_report s p).happened.outer ≡ variant_outer s.variant (process_state_at s p) (move s p a) }
    ensures answers { (s : VariantState) (p : ℕ) (a : Access) → IsVariantRun s → p < s.layout.procs → access_at s p ≡ Some a
        → (variant_step_report s p).answer
        ≡ variant_answer_at s.variant (process_state_at s p) (kind_of a) (carried_value a (found_by s a)) }
    ensures done { (s : VariantState) (p : ℕ) (a : Access) → IsVariantRun s → p < s.layout.procs → access_at s p ≡ Some a
        → (variant_step_report s p).happened.done ≡ variant_done_at s.variant (process_state_at s p) (kind_of a)
        (carried_value a (found_by s a)) }
    ensures falls { (s : VariantState) (p : ℕ) → IsVariantRun s → p < s.layout.procs
        → variant_process_state s.variant s.layout s.limit (process_state_at s p) (Falls p)
        ≡ Some (process_state_at (variant_after_crash s p) p) }
{}

/// On a world of a variant, too, the line `crash all` is a crash of each process in a row.
pub fn crash_all_of_a_variant_is_each_crash()
    ensures { (world : VariantState) → world.layout.procs ≤ 64
        → IsSameAsLines variant_behaviour world CrashAll (map Crash (range_with_len 0 world.layout.procs)) }
{}

/// A hunt is that of its parts: what some rounds find is what the first of them find, or else what those after them find. So of shards
/// that share out the rounds of a hunt, the least that finds a schedule finds that of the whole hunt.
pub fn hunts_are_of_their_parts()
    ensures parts { (variant : Variant) (asked : RandomMoves) (first rounds more : ℕ)
        → found_from variant asked first (rounds + more)
        ≡ or_else (found_from variant asked first rounds) (found_from variant asked (first + rounds) more) }
    ensures whole { (variant : Variant) (seed rounds steps : ℕ) → hunt_result variant seed rounds steps
        ≡ found_from variant (record { seed = seed; steps = steps; system_crashes = 0 }) 0 rounds }
{}

/// Crashes of all processes are drawn beside the moves of one process: with none of them in 1,000 moves a word draws the move that it
/// draws without them, and with 1,000 of them each word draws one.
pub fn system_crashes_are_drawn_in_1000_moves()
    ensures none { (seen : ℕ → List Sight) (word : ℕ) → drawn_move 0 seen word ≡ move_of_word seen word }
    ensures all { (seen : ℕ → List Sight) (word : ℕ) → drawn_move 1000 seen word ≡ drawn.CrashAll }
{}

/// The variant that is the lock changes no row: its process states and its deeds are the lock's.
pub fn right_changes_nothing()
    ensures process_states { (l : Layout) (limit : ℕ) (process_state : ProcessState) (h : WorldEvent)
        → variant_process_state Variant.Right l limit (record { process_state = process_state; deviation = Straight }) h
        ≡ beside Straight (next_process_state l limit process_state h) }
    ensures deeds { (process_state : ProcessState) (h : WorldEvent)
        → variant_outer Variant.Right (record { process_state = process_state; deviation = Straight }) h
        ≡ lock_deed process_state h }
{}
