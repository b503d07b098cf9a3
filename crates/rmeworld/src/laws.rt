//! Laws over every execution of a world: every list of events, of any number of processes, in which each event is allowed
//! after those before it. Each law is the contract of a function.

ghost use Rattle.std.specs.Prelude.{◌≡◌, ℕ, ◌<◌, ◌≤◌, false, List, [], ◌∷◌, ◌++◌, length, None};
ghost use Rattle.rmecore.specs.Lawful.{IsLawful};
ghost use Rattle.rmecore.specs.Paid.{is_glance};
ghost use Rattle.rmecore.specs.Simulated.{own_at};
ghost use Rattle.rmecore.specs.declared.own.Own.{Own};
ghost use Rattle.redomail.specs.Layout.{Words, IsLayout, words_of};
ghost use Rattle.judge.specs.Legal.{Leads, IsLegal};
ghost use Rattle.judge.specs.Starts.{state_of};
ghost use Rattle.judge.specs.Table.{State};
ghost use Rattle.rmeworld.specs.declared.call.Call.{Call as CallOf};
ghost use Rattle.rmeworld.specs.Acts.{Act};
ghost use Rattle.rmeworld.specs.Answered.{answer_at, done_by};
ghost use Rattle.rmeworld.specs.ImageRules.{layout_of, IsLawfulImage};
ghost use Rattle.rmeworld.specs.ImageStart.{IsStartOf};
ghost use Rattle.rmeworld.specs.CallWalk.{CallsTakeTheirSteps, NoCallTakesMore};
ghost use Rattle.rmeworld.specs.Holders.{OnlyHoldersPut};
ghost use Rattle.rmeworld.specs.HomeState.{CanComeHome, CanComeHomeMended, CanStillEnter};
ghost use Rattle.rmeworld.specs.Law.{IsLater, EveryExecutionIsSound, EveryExecutionIsLegal, EveryExecutionEndsLawful};
ghost use Rattle.rmeworld.specs.Reached.{crashed_global_state, EveryLaterExecutionIsSound, EveryExecutionLeavesAnImage};
ghost use Rattle.rmeworld.specs.Replayed.{start_refusal, world_after_start, advance_refusal, world_step_report, world_after_step, crash_refusal, crash_deed, world_after_crash, list_of};
ghost use Rattle.rmeworld.specs.ReplyEvents.{AnswersHaveTheirEvents};
ghost use Rattle.rmeworld.specs.Sent.{EveryDeedWasAsked, EveryMessageWasSent, EveryCloseWasAsked, EveryRuinWasAsked, RepliesTell, StoredIsShown};
ghost use Rattle.rmeworld.specs.ProcessState.{WorldEvent, Begins, Falls, lock_deed};
ghost use Rattle.rmeworld.specs.World.{GlobalState, at_first, Can, state_after_event, Execution, last_global_state, event_deeds, deeds, own_world_events, process_state_after};
ghost use Rattle.rmeworld.specs.WorldRuns.{run_of, IsEndOfRun};
ghost use Rattle.rmeworld.specs.WorldState.{WorldState, process_state_at, global_state_of, Takes, world_event_of, ChoosesLeast, new_world, new_refusal, image_world};

use crate::image::Image;
use judge::Start;
use redomail::Layout;

/// The lock theorem. In every execution the judge allows each deed, so the list of all deeds is legal. The data words keep
/// their shape. If an append is answered Stored or Already, its number is among the messages shown. The lock words stay
/// lawful. The same holds of the world of a lawful image, with a judge that begins at the image's start (`later`). After
/// every execution from either beginning, the words make a lawful image (`image`).
pub fn every_execution_is_sound()
    ensures sound { EveryExecutionIsSound }
    ensures legal { EveryExecutionIsLegal }
    ensures lawful { EveryExecutionEndsLawful }
    ensures later { EveryLaterExecutionIsSound }
    ensures image { EveryExecutionLeavesAnImage }
{
    redomail::laws::new_words();
    rmecore::laws::every_run_is_legal();
    rmecore::laws::every_run_ends_lawful();
}

/// A process's state follows from its own events.
pub fn process_states_are_own()
    ensures { (l : Layout) (limit p : ℕ) (w : GlobalState) (execution : List WorldEvent)
        → (last_global_state l limit w execution).process_states p
        ≡ process_state_after l limit (w.process_states p) (own_world_events p execution) }
{}

/// If an event is allowed after an execution, the longer list is an execution. Its deeds are those of the execution, then
/// the event's. An event is allowed wherever its process's state allows it and, if it reads a word, the word has that value.
/// Nothing else is needed for a load, a store, a start, a crash or a glance.
pub fn executions_grow()
    ensures execution { (l : Layout) (limit : ℕ) (w : GlobalState) (execution : List WorldEvent) (e : WorldEvent)
        → Execution l limit w execution → Can l limit (last_global_state l limit w execution) e
        → Execution l limit w (execution ++ e ∷ []) }
    ensures deeds { (l : Layout) (limit : ℕ) (w : GlobalState) (execution : List WorldEvent) (e : WorldEvent)
        → deeds l limit w (execution ++ e ∷ []) ≡ deeds l limit w execution
        ++ event_deeds l (last_global_state l limit w execution) e }
    ensures global_state { (l : Layout) (limit : ℕ) (w : GlobalState) (execution : List WorldEvent) (e : WorldEvent)
        → last_global_state l limit w (execution ++ e ∷ []) ≡ state_after_event l limit (last_global_state l limit w execution) e }
{}

/// The global state of a new world is the first one. The global state of an image's world has every process crashed. A judge
/// of the latter starts from the state that the image's words describe.
pub fn worlds_begin()
    ensures new { (l : Layout) (limit : ℕ) → global_state_of (new_world l limit) ≡ at_first }
    ensures image { (i : Image) → global_state_of (image_world i)
        ≡ crashed_global_state (length i.lock) (own_at i.lock) (words_of i.cells) }
    ensures judged { (i : Image) (s : Start) → IsLawfulImage i → IsStartOf i s
        → IsLater (layout_of i) i.limit (own_at i.lock) (words_of i.cells) (state_of s) }
{}

/// A world follows the definition in every run, with or without memory failures. From a new world or a lawful image, each
/// start, step and crash that is not refused is one that the definition allows, with the result that it gives. Where the
/// definition leaves a choice, the step is that of the least process. The report of a step is the definition's: the event
/// with the lock's deed and the core's answer, the one deed of the history, and the call's answer.
pub fn worlds_keep_to_the_definition()
    ensures starts { (s : WorldState) (p : ℕ) (call : CallOf) → IsEndOfRun s → start_refusal s p call ≡ None
        → Takes s (Begins p call) (world_after_start s p call) }
    ensures steps { (s : WorldState) (p : ℕ) → IsEndOfRun s → advance_refusal s p ≡ None
        → Takes s (world_event_of p (world_step_report s p).happened) (world_after_step s p) }
    ensures kind { (s : WorldState) (p : ℕ) → IsEndOfRun s → advance_refusal s p ≡ None
        → is_glance (world_step_report s p).happened.kind ≡ false }
    ensures least { (s : WorldState) (p : ℕ) → IsEndOfRun s → advance_refusal s p ≡ None
        → ChoosesLeast s p (world_step_report s p).happened }
    ensures outer { (s : WorldState) (p : ℕ) → IsEndOfRun s → advance_refusal s p ≡ None
        → (world_step_report s p).happened.outer
        ≡ lock_deed (process_state_at s.processes p) (world_event_of p (world_step_report s p).happened) }
    ensures done { (s : WorldState) (p : ℕ) → IsEndOfRun s → advance_refusal s p ≡ None
        → (world_step_report s p).happened.done ≡ done_by (process_state_at s.processes p).lock
        (process_state_at s.processes p).script_state (world_step_report s p).happened.kind (world_step_report s p).happened.value }
    ensures deed { (s : WorldState) (p : ℕ) → IsEndOfRun s → advance_refusal s p ≡ None
        → list_of (world_step_report s p).deed
        ≡ event_deeds s.layout (global_state_of s) (world_event_of p (world_step_report s p).happened) }
    ensures answers { (s : WorldState) (p : ℕ) → IsEndOfRun s → advance_refusal s p ≡ None
        → (world_step_report s p).answer ≡ answer_at (process_state_at s.processes p) (world_step_report s p).happened.kind
        (world_step_report s p).happened.value }
    ensures crashes { (s : WorldState) (p : ℕ) → IsEndOfRun s → crash_refusal s p ≡ None
        → Takes s (Falls p) (world_after_crash s p) }
    ensures reports { (s : WorldState) (p : ℕ) → crash_deed p ∷ [] ≡ event_deeds s.layout (global_state_of s) (Falls p) }
{}

/// A world's history is legal from the world's beginning: for a new world from no deed, for a lawful image from its start.
/// Memory failures don't matter, since a refused act adds nothing.
pub fn histories_are_legal()
    ensures new { (l : Layout) (limit : ℕ) (acts : List Act) → new_refusal l limit ≡ None
        → IsLegal l.procs l.cap (run_of (new_world l limit) acts).history }
    ensures later { (i : Image) (s : Start) (acts : List Act) → IsLawfulImage i → IsStartOf i s
        → (t : State) × Leads (state_of s) (run_of (image_world i) acts).history t }
{}

/// In an execution from all words 0: after an Enter of a process, and until its next Leave or Quit, every put of a data word
/// is that process's own. A crash inside and an entry after it may come in between.
pub fn only_holders_put()
    ensures { OnlyHoldersPut }
{}

/// The steps of one call, whatever its loads read, except that rereads read the process's words at the start. While the call
/// is under way it has taken fewer steps than the bound for such a call. It has one answer, and with it exactly the steps in
/// the table of own steps. Blocked steps are not counted. Neither other processes nor stored words are part of the law.
pub fn calls_take_their_steps()
    ensures reports { CallsTakeTheirSteps }
    ensures most { NoCallTakesMore }
{}

/// Each answer has its events in the call, in their order, as the table of replies says: of any process, from any process state
/// in which the call may begin, whatever its loads read.
pub fn answers_have_their_events()
    ensures { AnswersHaveTheirEvents }
{}

/// Where the mailbox's contents come from, in an execution from all words 0. Each message shown is one that its sender began
/// to append, with this number and value, also if a repair applied it after a crash. An append that is answered Stored has
/// its message shown from then on, with its value. A mailbox is closed only if some process began to close it. A lock is
/// ruined only if some holder began to unlock after it had entered again and before it had mended. An append answered Full,
/// Closed or OutOfOrder is right about the mailbox at that step. So each deed of the mailbox belongs to the start of such a
/// call.
pub fn messages_were_sent()
    ensures sent { EveryMessageWasSent }
    ensures closed { EveryCloseWasAsked }
    ensures ruined { EveryRuinWasAsked }
    ensures replies { RepliesTell }
    ensures stored { StoredIsShown }
    ensures asked { EveryDeedWasAsked }
{}

/// After every execution, some continuation without crash and withdraw answers each call that is under way and leads to a
/// global state in which all processes rest and all lock words are 0. In it all that are in line enter, in the order of their
/// pairs. If the lock is not ruined, and no unlock under way ruins it, nothing in the continuation ruins it. Also from lawful
/// lock words with all processes crashed, whatever the data words are (`later`), so from each lawful image (`image`). From all
/// words 0 (`mended`) and from a lawful image (`image`), no record is armed at the end of such a continuation: what a crash cut
/// off is mended. That it is taken is not said.
pub fn every_execution_can_come_home()
    ensures new { (l : Layout) (limit : ℕ) (execution : List WorldEvent) → Execution l limit at_first execution
        → CanComeHome l limit (last_global_state l limit at_first execution) }
    ensures later { (l : Layout) (limit : ℕ) (words : ℕ → Own) (cells : Words) (execution : List WorldEvent)
        → IsLawful l.procs limit words → let first = crashed_global_state l.procs words cells in
        Execution l limit first execution → CanComeHome l limit (last_global_state l limit first execution) }
    ensures image { (i : Image) (execution : List WorldEvent) → IsLawfulImage i
        → let first = global_state_of (image_world i) in Execution (layout_of i) i.limit first execution
        → CanComeHomeMended (layout_of i) i.limit (last_global_state (layout_of i) i.limit first execution) }
    ensures mended { (l : Layout) (limit : ℕ) (execution : List WorldEvent) → IsLayout l → Execution l limit at_first execution
        → CanComeHomeMended l limit (last_global_state l limit at_first execution) }
{}

/// After every execution each process can still enter, where the limit is at least 1: in some continuation without crash and
/// withdraw it enters. If the lock is not ruined, and no unlock under way ruins it, nothing in the continuation ruins it, and
/// the process holds the lock at the end. Also from lawful lock words with all processes crashed, whatever the data words are
/// (`later`), and from each lawful image (`image`). That it is taken is not said.
pub fn every_process_can_enter()
    ensures new { (l : Layout) (limit p : ℕ) (execution : List WorldEvent) → p < l.procs → 1 ≤ limit
        → Execution l limit at_first execution → CanStillEnter l limit (last_global_state l limit at_first execution) p }
    ensures later { (l : Layout) (limit p : ℕ) (words : ℕ → Own) (cells : Words) (execution : List WorldEvent) → p < l.procs
        → 1 ≤ limit → IsLawful l.procs limit words → let first = crashed_global_state l.procs words cells in
        Execution l limit first execution → CanStillEnter l limit (last_global_state l limit first execution) p }
    ensures image { (i : Image) (p : ℕ) (execution : List WorldEvent) → IsLawfulImage i → p < (layout_of i).procs
        → let first = global_state_of (image_world i) in Execution (layout_of i) i.limit first execution
        → CanStillEnter (layout_of i) i.limit (last_global_state (layout_of i) i.limit first execution) p }
{}
