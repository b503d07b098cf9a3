//! Laws of progress over every run of the definitions. Each law is the contract of a function with an empty body.

ghost use Rattle.std.specs.Prelude.{◌≡◌, ◌<◌, ◌+◌, ℕ, List, []};
ghost use Rattle.rmecore.specs.AbstractLock.{Abstract};
ghost use Rattle.rmecore.specs.HomeState.{IsInLine};
ghost use Rattle.rmecore.specs.Place.{Event, Reread, Leaving};
ghost use Rattle.rmecore.specs.World.{World, at_rest, Run, final};
ghost use Rattle.rmecore.specs.Lawful.{IsLawful, all_dead};
ghost use Rattle.rmecore.specs.declared.core_call.CoreCall.TheVariants.{Lock, Recover};
ghost use Rattle.rmecore.specs.declared.own.Own.{Own};
ghost use Rattle.redomail.specs.Layout.{Words};
ghost use Rattle.rmeworld.specs.ImageRules.{layout_of, IsLawfulImage};
ghost use Rattle.rmeworld.specs.ProcessState.{WorldEvent};
ghost use Rattle.rmeworld.specs.Reached.{crashed_global_state};
ghost use Rattle.rmeworld.specs.World.{at_first, Execution, last_global_state};
ghost use Rattle.rmeworld.specs.WorldState.{global_state_of, image_world};
ghost use Rattle.table_runs.specs.Runs.{IsRun};
ghost use Rattle.progress.specs.WaitingBounds.{WorkIsBounded, WaitingIsBounded};
ghost use Rattle.progress.specs.Bypass.{EntersOnce, EntersOnceWhileReady, IsInDoorway, LaterWaitsForDoorway};
ghost use Rattle.progress.specs.Pieces.{HasFullPiece};
ghost use Rattle.progress.specs.WaitFree.{LeavesWithin, IsBeforeLine, IsRereadOfLock, IsLeaving, IsRecovering};
ghost use Rattle.progress.specs.UnspentNumbers.{NumbersAreUnspent};
ghost use Rattle.progress.specs.ThreadWaitingBounds.{ThreadWaitingIsBounded};
ghost use Rattle.progress.specs.WorldWaitingBounds.{WorldWaitingIsBounded};

use redomail::Layout;
use rmeworld::image::Image;
use table_runs::Setup;
use table_runs::entry::TakenStep;

/// The law of work. While a process in line has not entered, at most `(n - 1)(6n + 13) + 8` starts and steps that are neither
/// blocked nor a glance are made by all processes together. Each disturbance adds `3n + 4`. Nothing is asked of a scheduler.
pub fn work_is_bounded()
    ensures from_rest { (n limit p : ℕ) (events : List Event) → p < n → Run n limit at_rest events
        → WorkIsBounded n limit (final n limit at_rest events) p }
    ensures later { (n limit p : ℕ) (words : ℕ → Own) (events : List Event) → p < n → IsLawful n limit words
        → Run n limit (all_dead words) events → WorkIsBounded n limit (final n limit (all_dead words) events) p }
{}

/// Bounded waiting, so starvation freedom. A process in line enters within `(n - 1)(6n + 13) + 9` pieces of a run, in each of
/// which each process moves that is in its doorway, or has the least pair of all that hold a number. Each disturbance adds
/// `3n + 5` pieces. Others may lock again without end, and those after it may stay crashed.
pub fn waiting_is_bounded()
    ensures from_rest { (n limit p : ℕ) (events : List Event) → p < n → Run n limit at_rest events
        → WaitingIsBounded n limit (final n limit at_rest events) p }
    ensures later { (n limit p : ℕ) (words : ℕ → Own) (events : List Event) → p < n → IsLawful n limit words
        → Run n limit (all_dead words) events → WaitingIsBounded n limit (final n limit (all_dead words) events) p }
{}

/// Bounded waiting in a whole world, from all words 0, from lawful lock words with all processes crashed (`later`) and from each
/// lawful image. A process in line enters within as many pieces, in each of which each process that owes a step of the lock
/// takes one. The steps of a task are none of these, so a holder may hold the others up by tasks without end.
pub fn waiting_in_a_world_is_bounded()
    ensures new { (l : Layout) (limit p : ℕ) (execution : List WorldEvent) → p < l.procs → Execution l limit at_first execution
        → WorldWaitingIsBounded l limit (last_global_state l limit at_first execution) p }
    ensures later { (l : Layout) (limit p : ℕ) (words : ℕ → Own) (cells : Words) (execution : List WorldEvent) → p < l.procs
        → IsLawful l.procs limit words → let first = crashed_global_state l.procs words cells in
        Execution l limit first execution → WorldWaitingIsBounded l limit (last_global_state l limit first execution) p }
    ensures image { (i : Image) (p : ℕ) (execution : List WorldEvent) → IsLawfulImage i → p < (layout_of i).procs
        → let first = global_state_of (image_world i) in Execution (layout_of i) i.limit first execution
        → WorldWaitingIsBounded (layout_of i) i.limit (last_global_state (layout_of i) i.limit first execution) p }
{}

/// Bounded waiting of threads. Whatever steps the members of an arena have taken, one that is in line enters within as many
/// pieces of the steps that follow, in each of which each member that owes a step of the lock takes one. That a thread runs is
/// up to its scheduler.
pub fn waiting_of_threads_is_bounded()
    ensures { (s : Setup) (steps : List TakenStep) (p : ℕ) → p < s.layout.procs → IsRun s steps
        → ThreadWaitingIsBounded s steps p }
{}

/// Bounded overtaking in line. While a process is in line, each other process enters once at most, whatever crashes and gives
/// up. Of a re-entry after a crash nothing is said. The same of every lock whose histories the abstract lock allows.
pub fn one_entry_while_in_line()
    ensures from_rest { (n limit p : ℕ) (events : List Event) → p < n → Run n limit at_rest events
        → EntersOnce IsInLine n limit (final n limit at_rest events) p }
    ensures later { (n limit p : ℕ) (words : ℕ → Own) (events : List Event) → p < n → IsLawful n limit words
        → Run n limit (all_dead words) events → EntersOnce IsInLine n limit (final n limit (all_dead words) events) p }
    ensures legal { (n p : ℕ) (a : Abstract) → p < n → EntersOnceWhileReady n a p }
{}

/// Bounded overtaking in the doorway. While a process is in its doorway, alive or crashed, each other process enters once at
/// most. One that begins after it does not enter before the process in the doorway has its number, or gives up.
pub fn one_entry_while_in_doorway()
    ensures from_rest { (n limit p : ℕ) (events : List Event) → p < n → Run n limit at_rest events
        → EntersOnce IsInDoorway n limit (final n limit at_rest events) p }
    ensures later { (n limit p : ℕ) (words : ℕ → Own) (events : List Event) → p < n → IsLawful n limit words
        → Run n limit (all_dead words) events → EntersOnce IsInDoorway n limit (final n limit (all_dead words) events) p }
    ensures begun { (n limit p : ℕ) (events : List Event) → p < n → Run n limit at_rest events
        → LaterWaitsForDoorway n limit (final n limit at_rest events) p }
    ensures begun_later { (n limit p : ℕ) (words : ℕ → Own) (events : List Event) → p < n → IsLawful n limit words
        → Run n limit (all_dead words) events → LaterWaitsForDoorway n limit (final n limit (all_dead words) events) p }
{}

/// The wait-free parts. A lock has its number, and has shut its doorway, or has given up, by its own step `n + 6`, counted from
/// its first reread. A process that enters again after a crash inside has its rereads alone, which are three steps. An exit
/// takes two steps, and a recovery four at most. Whatever the others do.
pub fn doorway_exit_and_recovery_are_wait_free()
    ensures doorway { (n limit p : ℕ) (w : World) → p < n → w.places p ≡ Reread Lock []
        → LeavesWithin (n + 6) IsBeforeLine n limit w p }
    ensures reentry { (n limit p : ℕ) (w : World) → p < n → w.places p ≡ Reread Lock []
        → LeavesWithin 3 IsRereadOfLock n limit w p }
    ensures exit { (n limit p : ℕ) (w : World) → p < n → w.places p ≡ Leaving → LeavesWithin 2 IsLeaving n limit w p }
    ensures recovery { (n limit p : ℕ) (w : World) → p < n → w.places p ≡ Reread Recover []
        → LeavesWithin 4 IsRecovering n limit w p }
{}

/// Numbers are not spent before a process in line enters, where the limit is at least `n - 1` above the greatest number that
/// any process holds or has read in its doorway. A withdraw of another process costs at most one number more. Crashes and
/// recoveries cost none.
pub fn numbers_are_not_spent()
    ensures from_rest { (n limit p : ℕ) (events : List Event) → p < n → Run n limit at_rest events
        → NumbersAreUnspent n limit (final n limit at_rest events) p }
    ensures later { (n limit p : ℕ) (words : ℕ → Own) (events : List Event) → p < n → IsLawful n limit words
        → Run n limit (all_dead words) events → NumbersAreUnspent n limit (final n limit (all_dead words) events) p }
{}

/// A full piece can always follow. In every world of a run there is one of starts and steps alone, in which each process moves.
/// So the pieces that bounded waiting asks for can be as many as wanted.
pub fn a_full_piece_can_follow()
    ensures from_rest { (n limit : ℕ) (events : List Event) → Run n limit at_rest events
        → HasFullPiece n limit (final n limit at_rest events) }
    ensures later { (n limit : ℕ) (words : ℕ → Own) (events : List Event) → IsLawful n limit words
        → Run n limit (all_dead words) events → HasFullPiece n limit (final n limit (all_dead words) events) }
{}
