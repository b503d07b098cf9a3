//! Where local lines of a call go round by gotos.

ghost use Rattle.std.specs.Prelude.{◌≡◌, ◌⊎◌, ◌+◌, ◌<◌, ◌≤◌, ◌&&◌, ℕ, true, false, not, Some, [], OnOk, IfOk, IfErr, MatchBool, length, slice_set, if◌then◌else◌};
ghost use Rattle.std.specs.List.{list_any};
ghost use Rattle.algorithms.specs.declared.fault.ReadFault.TheVariants.{Endless};
ghost use Rattle.algorithm_texts.specs.declared.flow.RunKind.TheVariants.{All};
ghost use Rattle.algorithm_texts.specs.Drafts.{draft_view};
ghost use Rattle.algorithm_texts.specs.FinishedDrafts.{is_in, is_within};
ghost use Rattle.algorithm_texts.specs.Marks.{KeepsMarks, MarksReached, and_then, places_of_ways};
ghost use Rattle.algorithm_texts.specs.Rounds.{LeadOn, LocalMarked, ReturnsMarked, RoundsMarked, count_marks, is_loose, leads_on};
ghost use Rattle.algorithm_texts.specs.Runs.{NoneReturns, NotOnRound, ReturnsByGoto, is_access, leads_to, ways_from};
ghost use Rattle.algorithm_texts.specs.TextFaults.{IsFaultAtFirst, OrMemory};
ghost use Rattle.algorithm_texts.specs.TextLines.{IsRefusalOf};
ghost use Rattle.algorithm_texts.specs.Usage.{uses, passes_at};

use crate::flow::{RunKind, Ways, is_access, mark};
use crate::lines::{CallRead, Draft};
use crate::marks::is_in;
use algorithms::fault::{AlgorithmFault, ReadFault};
use std::alloc::{AllocError, Global};

/// Marks the place to which a way leads.
fn mark_way(marks: &mut [bool], way: Option<usize>)
    ensures size { length marks.new ≡ length marks.old }
    ensures kept { KeepsMarks marks.old marks.new }
    ensures marked { (place : ℕ) → leads_to (and_then way []) place ≡ true → place < length marks.new
        → is_in marks.new place ≡ true }
    ensures comes { (place : ℕ) → is_in marks.new place ≡ true
        → (is_in marks.old place ≡ true) ⊎ (leads_to (and_then way []) place ≡ true) }
{
    if let Some(place) = way {
        mark(marks, place);
    }
}

/// Whether a way leads to one of these places.
fn is_marked_way(marks: &[bool], way: Option<usize>) -> bool
    ensures { result ≡ list_any (is_in marks.now) (and_then way []) }
{
    match way {
        Some(place) => is_in(marks, place),
        None => false,
    }
}

/// Takes a place's mark away.
#[tactic(auto, using(std::proofs::lemmas::List::set_past))]
fn unmark(marks: &mut [bool], place: usize)
    ensures { marks.new ≡ slice_set marks.old place false }
{
    if place < marks.len() {
        marks[place] = false;
    }
}

impl Draft {
    /// The places to which a line leads.
    fn all_ways(&self, call: CallRead, place: usize) -> Ways
        ensures { places_of_ways result ≡ ways_from (draft_view self.now) call All place }
    {
        self.ways_from(call, RunKind::All, place)
    }

    /// Whether the line at a place loads or stores a word.
    fn is_access_at(&self, place: usize) -> bool
        ensures { result ≡ passes_at is_access (uses (draft_view self.now).lines) place }
    {
        match self.algorithm.lines.get(place) {
            Some(line) => is_access(&line.form),
            None => false,
        }
    }

    /// Whether a line leads to one of these places.
    fn leads_on(&self, call: CallRead, place: usize, places: &[bool]) -> bool
        ensures { result ≡ leads_on (draft_view self.now) call places.now place }
    {
        let ways = self.all_ways(call, place);
        is_marked_way(places, ways.first) || is_marked_way(places, ways.second)
    }

    /// Marks the places to which runs of this kind go from a line.
    fn follow(&self, call: CallRead, runs: RunKind, place: usize, places: &mut [bool])
        ensures size { length places.new ≡ length places.old }
        ensures kept { KeepsMarks places.old places.new }
        ensures marked { (way : ℕ) → leads_to (ways_from (draft_view self.now) call runs place) way ≡ true → way < length places.new
            → is_in places.new way ≡ true }
        ensures comes { (way : ℕ) → is_in places.new way ≡ true
            → (is_in places.old way ≡ true) ⊎ (leads_to (ways_from (draft_view self.now) call runs place) way ≡ true) }
    {
        let ways = self.ways_from(call, runs, place);
        mark_way(places, ways.first);
        mark_way(places, ways.second);
    }

    /// Takes away the marks of a call's places.
    fn unmark_all(&self, call: CallRead, marks: &mut [bool])
        ensures { length marks.new ≡ length marks.old }
    {
        for place in call.from..call.to {
            unmark(marks, place);
        }
    }

    /// Marks just the places to which those that are left lead.
    fn follow_all(&self, call: CallRead, left: &[bool], followed: &mut [bool])
        ensures size { length followed.new ≡ length followed.old }
        ensures marked { (at way : ℕ) → is_within (call.«from», call.to) at ≡ true → is_in left.now at ≡ true
            → leads_to (ways_from (draft_view self.now) call All at) way ≡ true → way < length followed.new
            → is_in followed.new way ≡ true }
    {
        self.unmark_all(call, followed);
        for place in call.from..call.to {
            if is_in(left, place) {
                self.follow(call, RunKind::All, place, followed);
            }
        }
    }

    /// Takes out a place that is left, where it leads to none that is, or is not led to. Whether it was taken out.
    fn take_loose(&self, call: CallRead, place: usize, followed: &[bool], left: &mut [bool]) -> bool
        ensures took { result ≡ is_loose (draft_view self.now) call followed.now left.old place }
        ensures left { left.new ≡ (if result then slice_set left.old place false else left.old) }
    {
        if is_in(left, place) && !(is_in(followed, place) && self.leads_on(call, place, left)) {
            unmark(left, place);
            true
        } else {
            false
        }
    }

    /// Takes out the places that none of those that are left leads to, and those that lead to none of them. Whether there was one.
    fn take_out(&self, call: CallRead, left: &mut [bool], followed: &mut [bool]) -> bool
        requires { length followed.old ≡ length (draft_view self.now).lines + 1 }
        ensures size { (length left.new ≡ length left.old) × (length followed.new ≡ length followed.old) }
        ensures fewer { KeepsMarks left.new left.old }
        ensures rounds { RoundsMarked (draft_view self.now) call left.old → RoundsMarked (draft_view self.now) call left.new }
        ensures count { count_marks left.new ≤ count_marks left.old }
        ensures progress { MatchBool result (count_marks left.new < count_marks left.old) (LeadOn (draft_view self.now) call left.new) }
    {
        self.follow_all(call, left, followed);
        let mut fewer = false;
        for place in call.from..call.to {
            fewer = self.take_loose(call, place, followed, left) || fewer;
        }
        fewer
    }

    /// Takes places out as long as there is one to take out.
    fn take_all(&self, call: CallRead, left: &mut [bool], followed: &mut [bool])
        requires { length followed.old ≡ length (draft_view self.now).lines + 1 }
        ensures size { length left.new ≡ length left.old }
        ensures fewer { KeepsMarks left.new left.old }
        ensures rounds { RoundsMarked (draft_view self.now) call left.old → RoundsMarked (draft_view self.now) call left.new }
        ensures rest { LeadOn (draft_view self.now) call left.new }
    {
        let mut more = true;
        while more {
            more = self.take_out(call, left, followed);
        }
    }

    /// `Endless` at the first line of those that gotos lead round without an access. They are among those that are left where local
    /// lines at the ends are taken out again and again.
    pub fn check_ends(
        &self,
        alloc: Global,
        call: CallRead,
        reached: &[bool],
    ) -> Result<(), AlgorithmFault>
        requires { MarksReached (draft_view self.now) call reached.now }
        ensures ok { OnOk result (NoneReturns (draft_view self.now) call) }
        ensures err { IfErr result (λ fault. IsRefusalOf fault (NoneReturns (draft_view self.now) call)) }
        ensures first { IfErr result (λ fault. OrMemory fault
            (IsFaultAtFirst (draft_view self.now).lines Endless (NotOnRound (draft_view self.now) call) fault)) }
    {
        let mut left = self.marks_from(alloc, call, false)?;
        let mut followed = self.marks_from(alloc, call, false)?;
        self.mark_rounds(call, reached, left.as_mut_slice(), followed.as_mut_slice());
        self.check_left(alloc, call, left.as_slice())
    }

    /// Marks the local places that are reached, and takes out those at the ends again and again.
    fn mark_rounds(
        &self,
        call: CallRead,
        reached: &[bool],
        left: &mut [bool],
        followed: &mut [bool],
    )
        requires reached { MarksReached (draft_view self.now) call reached.now }
        requires none { (at : ℕ) → is_in left.old at ≡ true → ⊥ }
        requires size { length left.old ≡ length (draft_view self.now).lines + 1 }
        requires long { length followed.old ≡ length (draft_view self.now).lines + 1 }
        ensures size { length left.new ≡ length left.old }
        ensures rounds { RoundsMarked (draft_view self.now) call left.new }
        ensures rest { LeadOn (draft_view self.now) call left.new }
        ensures local { (at : ℕ) → is_in left.new at ≡ true → LocalMarked (draft_view self.now) call reached.now at }
    {
        self.mark_local(call, reached, left);
        self.take_all(call, left, followed);
    }

    /// Whether a place is among these, and of no access.
    fn is_local_in(&self, places: &[bool], place: usize) -> bool
        ensures { result ≡ (is_in places.now place && not (passes_at is_access (uses (draft_view self.now).lines) place)) }
    {
        is_in(places, place) && !self.is_access_at(place)
    }

    /// Marks the places that are reached and of no access.
    fn mark_local(&self, call: CallRead, reached: &[bool], left: &mut [bool])
        ensures size { length left.new ≡ length left.old }
        ensures marked { (at : ℕ) → LocalMarked (draft_view self.now) call reached.now at → at < length left.new
            → is_in left.new at ≡ true }
        ensures comes { (at : ℕ) → is_in left.new at ≡ true
            → (is_in left.old at ≡ true) ⊎ LocalMarked (draft_view self.now) call reached.now at }
    {
        for place in call.from..call.to {
            if self.is_local_in(reached, place) {
                mark(left, place);
            }
        }
    }

    /// Whether a run by gotos without an access comes from a place back to it.
    fn comes_back(&self, alloc: Global, call: CallRead, place: usize) -> Result<bool, AllocError>
        ensures yes { IfOk result (λ back. back ≡ true → ReturnsByGoto (draft_view self.now) call place) }
        ensures no { IfOk result (λ back. ReturnsByGoto (draft_view self.now) call place → back ≡ true) }
    {
        let mut marks = self.marks_from(alloc, call, false)?;
        self.follow(call, RunKind::Forward, place, marks.as_mut_slice());
        self.spread(call, RunKind::Forward, marks.as_mut_slice());
        Ok(is_in(marks.as_slice(), place))
    }

    /// Whether a place is left, and a run by gotos without an access comes from it back to it.
    fn is_on_round(
        &self,
        alloc: Global,
        call: CallRead,
        left: &[bool],
        place: usize,
    ) -> Result<bool, AllocError>
        ensures yes { IfOk result (λ on. on ≡ true
            → (is_in left.now place ≡ true) × ReturnsByGoto (draft_view self.now) call place) }
        ensures no { IfOk result (λ on. is_in left.now place ≡ true
            → ReturnsByGoto (draft_view self.now) call place → on ≡ true) }
    {
        if is_in(left, place) {
            self.comes_back(alloc, call, place)
        } else {
            Ok(false)
        }
    }

    /// `Endless` at the first place of those that are left from which a run by gotos without an access comes back to it.
    fn check_left(&self, alloc: Global, call: CallRead, left: &[bool]) -> Result<(), AlgorithmFault>
        ensures ok { OnOk result ((at : ℕ) → ReturnsMarked (draft_view self.now) call left.now at → ⊥) }
        ensures first { IfErr result (λ fault. OrMemory fault (IsFaultAtFirst (draft_view self.now).lines Endless
            (λ at. ReturnsMarked (draft_view self.now) call left.now at → ⊥) fault)) }
    {
        for place in call.from..call.to {
            let on = self.is_on_round(alloc, call, left, place)?;
            if on {
                return Err(self.fault_at(ReadFault::Endless, place));
            }
        }
        Ok(())
    }
}
