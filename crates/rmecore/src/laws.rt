//! Laws over every run of the definitions. Each law is the contract of a function with an empty body.

ghost use Rattle.std.specs.Prelude.{◌≡◌, ◌≢◌, ◌≤◌, ◌<◌, ◌+◌, false, if◌then◌else◌, IsSome, IfSome, Some, None, unwrap_or, ℕ, List, [], ◌∷◌, ◌++◌, ◌⊎◌};
ghost use Rattle.rmecore.specs.Samples.{two, giving_up, missed_in_a_doorway};
ghost use Rattle.rmecore.specs.Place.{Event, process, Place, Door, Reread, Wait, Inside, Leaving, Withdrawing, others, next};
ghost use Rattle.rmecore.specs.Machine.{is_blocked, answer};
ghost use Rattle.rmecore.specs.OwnSteps.{own_steps, most_steps};
ghost use Rattle.rmecore.specs.Refused.{is_idle};
ghost use Rattle.rmecore.specs.Paid.{Pays, ReadsBegun, is_glance};
ghost use Rattle.rmecore.specs.declared.kind.Kind.{Kind};
ghost use Rattle.rmecore.specs.declared.word.Word.{Word};
ghost use Rattle.rmecore.specs.declared.word.Word.TheVariants.{Data};
ghost use Rattle.rmecore.specs.declared.core_call.CoreCall.{CoreCall};
ghost use Rattle.rmecore.specs.World.{World, IsReached, at_rest, May, Run, after, final, own_events, place_after, deed, deeds, and_then, step_deed};
ghost use Rattle.rmecore.specs.Lawful.{IsRow, IsLawful, all_dead, start_of};
ghost use Rattle.rmecore.specs.Needs.{AllHold};
ghost use Rattle.rmecore.specs.AbstractLock.{Abstract, nobody, needs, abstract_after, doer, Legal};
ghost use Rattle.rmecore.specs.Sole.{IsInSection, IsEnter, IsLeave, Sole, all_done};
ghost use Rattle.rmecore.specs.Turn.{Turn};
ghost use Rattle.rmecore.specs.HomeState.{CanComeHome, CanStillEnter, CanEnterIfAhead, CanEnterIfFirst};

use crate::outer::Outer;
use crate::own::Own;
use crate::phase::Phase;

/// The deeds of every run, of any number of processes, are allowed by the abstract lock.
pub fn every_run_is_legal()
    ensures { (n limit : ℕ) (events : List Event) → Run n limit at_rest events → Legal n nobody (deeds n limit at_rest events) }
{}

/// After every run the words are lawful: the process inside, alive or crashed, has the least pair of all that hold a number.
pub fn every_run_ends_lawful()
    ensures { (n limit : ℕ) (events : List Event) → Run n limit at_rest events
        → IsLawful n limit (final n limit at_rest events).words }
{}

/// From any lawful words with every process crashed, each run's deeds are allowed by the abstract lock, and after it the words
/// are lawful.
pub fn every_later_run_is_legal()
    ensures legal { (n limit : ℕ) (words : ℕ → Own) (events : List Event) → IsLawful n limit words
        → Run n limit (all_dead words) events → Legal n (start_of words) (deeds n limit (all_dead words) events) }
    ensures lawful { (n limit : ℕ) (words : ℕ → Own) (events : List Event) → IsLawful n limit words
        → Run n limit (all_dead words) events → IsLawful n limit (final n limit (all_dead words) events).words }
{}

/// A process's place is a function of its own events.
pub fn places_are_own()
    ensures { (n limit p : ℕ) (w : World) (events : List Event)
        → (final n limit w events).places p ≡ place_after n limit (w.places p) (own_events p events) }
{}

/// If the definition allows an event after a run, the longer list is a run too. Its deeds are those of the run, then the
/// event's.
pub fn runs_grow()
    ensures run { (n limit : ℕ) (w : World) (events : List Event) (e : Event) → Run n limit w events
        → May n limit (final n limit w events) e → Run n limit w (events ++ e ∷ []) }
    ensures deeds { (n limit : ℕ) (w : World) (events : List Event) (e : Event)
        → deeds n limit w (events ++ e ∷ []) ≡ deeds n limit w events
        ++ and_then (deed ((final n limit w events).places (process e)) e) [] }
    ensures world { (n limit : ℕ) (w : World) (events : List Event) (e : Event)
        → final n limit w (events ++ e ∷ []) ≡ after n limit (final n limit w events) e }
{}

/// Three runs written out, with their deeds. In the third 1 waits with the least pair and nobody is inside, and yet 0 enters
/// first: its doorway had read the word of 1 before.
pub fn a_run()
    ensures runs { Run 2 10 at_rest two }
    ensures gives_up { Run 2 10 at_rest giving_up }
    ensures given_up { deeds 2 10 at_rest giving_up ≡ Outer.Begin 0 ∷ Outer.Ready 0 ∷ Outer.Begin 1 ∷ Outer.Ready 1
        ∷ Outer.Quit 0 ∷ Outer.Enter 1 ∷ [] }
    ensures misses { Run 3 10 at_rest missed_in_a_doorway }
    ensures missed { deeds 3 10 at_rest missed_in_a_doorway ≡ Outer.Begin 2 ∷ Outer.Ready 2 ∷ Outer.Begin 0 ∷ Outer.Begin 1
        ∷ Outer.Ready 1 ∷ Outer.Enter 2 ∷ Outer.Leave 2 ∷ Outer.Ready 0 ∷ Outer.Enter 0 ∷ [] }
    ensures deeds { deeds 2 10 at_rest two ≡ Outer.Begin 0 ∷ Outer.Begin 1 ∷ Outer.Ready 1 ∷ Outer.Ready 0 ∷ Outer.Enter 0
        ∷ Outer.Crash 0 ∷ Outer.Reenter 0 ∷ Outer.Leave 0 ∷ Outer.Enter 1 ∷ [] }
{}

/// The abstract lock refuses three faults: a second process inside, an entry before a process that crashed inside has
/// entered again, and an entry out of order.
pub fn abstract_lock_refuses()
    ensures two_inside { Legal 2 nobody (Outer.Begin 0 ∷ Outer.Ready 0 ∷ Outer.Begin 1 ∷ Outer.Ready 1 ∷ Outer.Enter 0
        ∷ Outer.Enter 1 ∷ []) → ⊥ }
    ensures not_reentered { Legal 2 nobody (Outer.Begin 0 ∷ Outer.Ready 0 ∷ Outer.Begin 1 ∷ Outer.Ready 1 ∷ Outer.Enter 0
        ∷ Outer.Crash 0 ∷ Outer.Enter 1 ∷ []) → ⊥ }
    ensures overtaken_on_second_try { Legal 2 nobody (Outer.Begin 0 ∷ Outer.Ready 0 ∷ Outer.Begin 1 ∷ Outer.Ready 1
        ∷ Outer.Quit 1 ∷ Outer.Begin 1 ∷ Outer.Ready 1 ∷ Outer.Enter 1 ∷ []) → ⊥ }
    ensures overtaken { Legal 2 nobody (Outer.Begin 0 ∷ Outer.Ready 0 ∷ Outer.Begin 1 ∷ Outer.Ready 1 ∷ Outer.Enter 1 ∷ [])
        → ⊥ }
{}

/// The definitions are total, but a run uses only the cases of the tables of docs/theory/model.md. No number read is above the
/// limit. A process's words are always a row of the restart table.
pub fn tables_are_kept()
    ensures greatest { (n limit p m : ℕ) (w : World) (unread : List ℕ)
        → IsReached n limit w → w.places p ≡ Door unread m → m ≤ limit }
    ensures rows { (n limit p : ℕ) (w : World) → IsReached n limit w → IsRow limit (w.words p) }
{}

/// A call's steps, blocked ones not counted, are 0 at its start, and grow by one with each such step. With the answer their
/// number is the one in the table of own steps. While a call is under way it is below the
/// greatest of that table. A lock from words 0 takes n + 5 steps up to the end of its `shut`. The words that the call
/// rereads are those at its start.
pub fn steps_of_a_call()
    ensures first { (n c k i : ℕ) (call : CoreCall) → Pays n c k i (Reread call []) 0 }
    ensures exit { (n c k i : ℕ) → Pays n c k i Leaving 0 }
    ensures withdraw { (n c k i : ℕ) → Pays n c k i Withdrawing 0 }
    ensures each { (n limit p c k i : ℕ) (place : Place) (kind : Kind) (word : Word) (v steps : ℕ) → p < n
        → IsSome (next n limit p place kind word v) → is_glance kind ≡ false → ReadsBegun c k i place v
        → Pays n c k i place steps → Pays n c k i (unwrap_or (next n limit p place kind word v) place)
        (if is_blocked p place kind v then steps else steps + 1) }
    ensures answered { (n limit p c k i : ℕ) (place : Place) (kind : Kind) (word : Word) (v steps : ℕ) → p < n
        → IsSome (next n limit p place kind word v) → is_glance kind ≡ false → ReadsBegun c k i place v
        → Pays n c k i place steps → IfSome (answer place kind v)
        (λ reply. own_steps n c k i reply ≡ Some (if is_blocked p place kind v then steps else steps + 1)) }
    ensures fresh_start { (n p k steps : ℕ) → p < n → Pays n 0 0 0 (Wait k (others n p) None) steps → steps ≡ n + 5 }
    ensures most { (n c k i : ℕ) (place : Place) (steps : ℕ) → 0 < n → is_idle place ≡ false → Pays n c k i place steps
        → steps < most_steps n }
{}

/// Mutual exclusion: after every list of legal deeds at most one process is in the section, alive or crashed. A deed changes
/// only the phase of its own process. Only an entry brings a process in, and only an exit takes it out.
pub fn one_is_in()
    ensures nobody { (n : ℕ) → Sole n nobody }
    ensures each { (n : ℕ) (a : Abstract) (d : Outer) → AllHold (needs n a d) → Sole n a → Sole n (abstract_after a d) }
    ensures legal { (n : ℕ) (a : Abstract) (ds : List Outer) → Legal n a ds → Sole n a → Sole n (all_done a ds) }
    ensures others { (a : Abstract) (d : Outer) (q : ℕ) → q ≢ doer d → (abstract_after a d).phase q ≡ a.phase q }
    ensures came { (n : ℕ) (a : Abstract) (d : Outer) (q : ℕ) → AllHold (needs n a d) → (IsEnter d → ⊥)
        → IsInSection ((abstract_after a d).phase q) → IsInSection (a.phase q) }
    ensures stays { (n : ℕ) (a : Abstract) (d : Outer) (q : ℕ) → AllHold (needs n a d) → (IsLeave d → ⊥)
        → IsInSection (a.phase q)
        → IsInSection ((abstract_after a d).phase q) }
{}

/// What a step changes in who is in the section: an entry, a re-entry, an exit, or nothing. No step of the core touches a
/// data word.
pub fn steps_are_turns()
    ensures turn { (n limit p : ℕ) (s : Place) (kind : Kind) (word : Word) (v : ℕ) (t : Place)
        → next n limit p s kind word v ≡ Some t → Turn p s t (step_deed p s kind v) }
    ensures no_data { (n limit p : ℕ) (s : Place) (kind : Kind) (i v : ℕ) → IsSome (next n limit p s kind (Data i) v) → ⊥ }
{}

/// After every run, a process whose place is inside or at the start of its exit is in the section of the abstract lock too.
pub fn who_stands_inside_is_in()
    ensures from_rest { (n limit p : ℕ) (events : List Event) → p < n → Run n limit at_rest events
        → ((final n limit at_rest events).places p ≡ Inside) ⊎ ((final n limit at_rest events).places p ≡ Leaving)
        → (all_done nobody (deeds n limit at_rest events)).phase p ≡ Phase.Inside }
    ensures later { (n limit p : ℕ) (words : ℕ → Own) (events : List Event) → p < n → IsLawful n limit words
        → Run n limit (all_dead words) events → ((final n limit (all_dead words) events).places p ≡ Inside)
        ⊎ ((final n limit (all_dead words) events).places p ≡ Leaving)
        → (all_done (start_of words) (deeds n limit (all_dead words) events)).phase p ≡ Phase.Inside }
{}

/// After every run, some continuation without crash and withdraw answers each call that is under way and leads to the world
/// in which all rest and all words are 0. In it all that are in line enter, in the order of their pairs. In line are those that
/// have a number, have not entered with it and are not withdrawing, alive or crashed. That it is taken is not said.
pub fn every_run_can_come_home()
    ensures from_rest { (n limit : ℕ) (events : List Event) → Run n limit at_rest events
        → CanComeHome n limit (final n limit at_rest events) }
    ensures later { (n limit : ℕ) (words : ℕ → Own) (events : List Event) → IsLawful n limit words
        → Run n limit (all_dead words) events → CanComeHome n limit (final n limit (all_dead words) events) }
{}

/// After every run each process can still enter, where the limit is at least 1: in some continuation without crash and withdraw
/// it enters, and is inside at the end. That it is taken is not said.
pub fn every_process_can_enter()
    ensures from_rest { (n limit p : ℕ) (events : List Event) → p < n → 1 ≤ limit → Run n limit at_rest events
        → CanStillEnter n limit (final n limit at_rest events) p }
    ensures later { (n limit p : ℕ) (words : ℕ → Own) (events : List Event) → p < n → 1 ≤ limit → IsLawful n limit words
        → Run n limit (all_dead words) events → CanStillEnter n limit (final n limit (all_dead words) events) p }
{}

/// Forward first come, first served. A process waits with the least pair of all that hold a number, so nobody is inside, alive
/// or crashed. No doorway that is under way has read its number too early: so it is where each of them began after its own was
/// finished. Once these doorways are finished, its own steps alone lead to its entry. If there is no doorway, they are all of
/// the continuation.
pub fn the_least_pair_can_enter()
    ensures from_rest { (n limit p : ℕ) (events : List Event) → p < n → Run n limit at_rest events
        → CanEnterIfFirst n limit (final n limit at_rest events) p }
    ensures later { (n limit p : ℕ) (words : ℕ → Own) (events : List Event) → p < n → IsLawful n limit words
        → Run n limit (all_dead words) events → CanEnterIfFirst n limit (final n limit (all_dead words) events) p }
    ensures ahead { (n limit p : ℕ) (events : List Event) → p < n → Run n limit at_rest events
        → CanEnterIfAhead n limit (final n limit at_rest events) (all_done nobody (deeds n limit at_rest events)) p }
    ensures ahead_later { (n limit p : ℕ) (words : ℕ → Own) (events : List Event) → p < n → IsLawful n limit words
        → Run n limit (all_dead words) events → CanEnterIfAhead n limit (final n limit (all_dead words) events)
        (all_done (start_of words) (deeds n limit (all_dead words) events)) p }
{}
