//! Where the runs of a call come. Which way a branch goes is not asked.

ghost use Rattle.std.specs.Prelude.{◌≡◌, ◌⊎◌, ◌+◌, ◌-◌, ◌^◌, ◌<◌, ◌≤◌, ℕ, true, [], ◌∷◌, None, Some, IfOk, MatchOption, length, slice_set, if◌then◌else◌};
ghost use Rattle.std.specs.List.{find};
ghost use Rattle.algorithm_texts.specs.Drafts.{draft_view, form_of, line_of, local_form};
ghost use Rattle.algorithm_texts.specs.FinishedDrafts.{is_in, is_within, ways};
ghost use Rattle.algorithm_texts.specs.Marks.{places_of_ways, is_free, free_of, free_way, past_marked, marks_from, IsClosed, KeepsMarks, MarksReached};
ghost use Rattle.algorithm_texts.specs.Runs.{is_access, goes_on, forward_ways, kind_ways, ways_from, RunComesTo, IsReachedWithout, way_past, past_from};

use crate::checks::is_within;
use crate::lines::{CallRead, Draft};
use crate::loops::has_round;
use crate::marks::is_in;
use crate::usage::{begins_loop, ends_loop, sets};
use algorithms::line::{LineKind, LocalLine};
use std::alloc::{AllocError, Global};

/// Which runs are asked for.
#[derive(Clone, Copy)]
pub enum RunKind {
    All,
    /// Those without an access.
    Silent,
    /// Those without an access, within a round of each loop.
    Forward,
    /// Those that do not set this name.
    Without(usize),
}

/// Where a line leads: at most two places.
#[derive(Clone, Copy)]
pub struct Ways {
    pub first: Option<usize>,
    pub second: Option<usize>,
}

/// No place: nothing follows.
fn no_way() -> Ways
    ensures { places_of_ways result ≡ [] }
{
    Ways {
        first: None,
        second: None,
    }
}

/// One place follows.
fn one_way(place: usize) -> Ways
    ensures { places_of_ways result ≡ place ∷ [] }
{
    Ways {
        first: Some(place),
        second: None,
    }
}

/// One of two places follows.
fn two_ways(first: usize, second: usize) -> Ways
    ensures { places_of_ways result ≡ first ∷ (second ∷ []) }
{
    Ways {
        first: Some(first),
        second: Some(second),
    }
}

/// Where a local line leads, where `least` is the least number of processes and `next` the place of the line after it.
fn local_ways(line: &LocalLine, least: u64, next: usize) -> Ways
    ensures { places_of_ways result ≡ ways least next (local_form line.now) }
{
    match line {
        LocalLine::Assign { .. } => one_way(next),
        LocalLine::AssignRow { .. } => one_way(next),
        LocalLine::Note(_) => one_way(next),
        LocalLine::Goto(target) => one_way(*target),
        LocalLine::Branch { otherwise, .. } => two_ways(next, *otherwise),
        LocalLine::First { members, after, .. } => {
            if has_round(least, members) {
                one_way(next)
            } else {
                two_ways(next, *after)
            }
        }
        LocalLine::Next { body, .. } => two_ways(*body, next),
    }
}

/// Where a line leads.
fn form_ways(form: &LineKind, least: u64, next: usize) -> Ways
    ensures { places_of_ways result ≡ ways least next (form_of form.now) }
{
    match form {
        LineKind::Access(_) => one_way(next),
        LineKind::Local(line) => local_ways(line, least, next),
        LineKind::Done(_) => no_way(),
    }
}

/// Where a local line leads but for the way back to the next round of a loop.
fn forward_local_ways(line: &LocalLine, least: u64, next: usize) -> Ways
    ensures { places_of_ways result ≡ forward_ways least next (local_form line.now) }
{
    match line {
        LocalLine::Next { .. } => one_way(next),
        LocalLine::Assign { .. }
        | LocalLine::AssignRow { .. }
        | LocalLine::Note(_)
        | LocalLine::Goto(_)
        | LocalLine::Branch { .. }
        | LocalLine::First { .. } => local_ways(line, least, next),
    }
}

/// Where a line leads but for the way back to the next round of a loop.
fn forward_form_ways(form: &LineKind, least: u64, next: usize) -> Ways
    ensures { places_of_ways result ≡ forward_ways least next (form_of form.now) }
{
    match form {
        LineKind::Access(_) => one_way(next),
        LineKind::Local(line) => forward_local_ways(line, least, next),
        LineKind::Done(_) => no_way(),
    }
}

/// Where a line leads runs of this kind.
fn kind_ways(runs: RunKind, form: &LineKind, least: u64, next: usize) -> Ways
    ensures { places_of_ways result ≡ kind_ways runs least next (form_of form.now) }
{
    match runs {
        RunKind::All | RunKind::Silent | RunKind::Without(_) => form_ways(form, least, next),
        RunKind::Forward => forward_form_ways(form, least, next),
    }
}

/// Whether a line loads or stores a word.
pub fn is_access(form: &LineKind) -> bool
    ensures { result ≡ is_access (form_of form.now) }
{
    match form {
        LineKind::Access(_) => true,
        LineKind::Local(_) | LineKind::Done(_) => false,
    }
}

/// Whether runs of this kind go on after a line.
fn goes_on(runs: RunKind, form: &LineKind) -> bool
    ensures { result ≡ goes_on runs (form_of form.now) }
{
    match runs {
        RunKind::All => true,
        RunKind::Silent | RunKind::Forward => !is_access(form),
        RunKind::Without(name) => {
            !(sets(form, name) || (begins_loop(form, name) || ends_loop(form, name)))
        }
    }
}

/// The place after a loop with this name, at the lines from which a run can go on there.
fn way_past(form: &LineKind, name: usize, least: u64, next: usize) -> Option<usize>
    ensures { result ≡ way_past name least next (form_of form.now) }
{
    match form {
        LineKind::Local(line) => local_way_past(line, name, least, next),
        LineKind::Access(_) | LineKind::Done(_) => None,
    }
}

/// As `way_past`, of a local line.
fn local_way_past(line: &LocalLine, name: usize, least: u64, next: usize) -> Option<usize>
    ensures { result ≡ way_past name least next (local_form line.now) }
{
    match line {
        LocalLine::First {
            name: own,
            members,
            after,
        } => {
            if *own == name {
                if has_round(least, members) {
                    None
                } else {
                    Some(*after)
                }
            } else {
                None
            }
        }
        LocalLine::Next { name: own, .. } => { if *own == name { Some(next) } else { None } }
        LocalLine::Assign { .. }
        | LocalLine::AssignRow { .. }
        | LocalLine::Note(_)
        | LocalLine::Goto(_)
        | LocalLine::Branch { .. } => None,
    }
}

/// Marks a place, if there is a mark for it.
#[tactic(auto, using(std::proofs::lemmas::List::set_past))]
pub fn mark(marks: &mut [bool], place: usize)
    ensures { marks.new ≡ slice_set marks.old place true }
{
    if place < marks.len() {
        marks[place] = true;
    }
}

/// Marks the places of a call that are reached.
pub fn mark_all(marks: &mut [bool], call: CallRead, reached: &[bool])
    ensures size { length marks.new ≡ length marks.old }
    ensures kept { KeepsMarks marks.old marks.new }
    ensures marked { (at : ℕ) → is_within (call.«from», call.to) at ≡ true → is_in reached.now at ≡ true
        → at < length marks.new
        → is_in marks.new at ≡ true }
    ensures comes { (at : ℕ) → is_in marks.new at ≡ true → (is_in marks.old at ≡ true) ⊎ (is_in reached.now at ≡ true) }
{
    for place in call.from..call.to {
        if is_in(reached, place) {
            mark(marks, place);
        }
    }
}

/// Whether a place is not marked, and there is a mark for it.
pub fn is_free(marks: &[bool], place: usize) -> bool
    ensures { result ≡ is_free marks.now place }
{
    place < marks.len() && !is_in(marks, place)
}

/// The first of these places that is not marked.
fn first_free(marks: &[bool], ways: Ways) -> Option<usize>
    ensures { result ≡ find (is_free marks.now) (places_of_ways ways) }
{
    match ways.first {
        Some(way) => {
            if is_free(marks, way) {
                Some(way)
            } else {
                free_of(marks, ways.second)
            }
        }
        None => free_of(marks, ways.second),
    }
}

/// The place of a way, if it is not marked yet.
fn free_of(marks: &[bool], way: Option<usize>) -> Option<usize>
    ensures { result ≡ free_of marks.now way }
{
    match way {
        Some(way) => { if is_free(marks, way) { Some(way) } else { None } }
        None => None,
    }
}

impl Draft {
    /// The places to which a line of the call leads.
    pub fn ways_from(&self, call: CallRead, runs: RunKind, place: usize) -> Ways
        ensures { places_of_ways result ≡ ways_from (draft_view self.now) call runs place }
    {
        if !is_within((call.from, call.to), place) {
            return no_way();
        }
        match self.algorithm.lines.get(place) {
            Some(line) => self.ways_of(runs, place, &line.form),
            None => no_way(),
        }
    }

    /// The places to which runs of this kind go from a line, if they go on after it.
    fn ways_of(&self, runs: RunKind, place: usize, form: &LineKind) -> Ways
        requires { place < 2 ^ 64 - 1 }
        ensures { places_of_ways result
            ≡ (if goes_on runs (form_of form.now)
            then kind_ways runs (draft_view self.now).head.least (place + 1) (form_of form.now) else []) }
    {
        if goes_on(runs, form) {
            kind_ways(runs, form, self.algorithm.least, place + 1)
        } else {
            no_way()
        }
    }

    /// A place that is not marked, to which a line that is marked leads.
    fn free_way(&self, call: CallRead, runs: RunKind, marks: &[bool], place: usize) -> Option<usize>
        ensures { result ≡ free_way (draft_view self.now) call runs marks.now place }
    {
        if is_in(marks, place) {
            first_free(marks, self.ways_from(call, runs, place))
        } else {
            None
        }
    }

    /// A place that is not marked, to which one of the lines that are marked leads.
    fn next_free(&self, call: CallRead, runs: RunKind, marks: &[bool]) -> Option<usize>
        ensures { MatchOption result ((at : ℕ) → free_way (draft_view self.now) call runs marks.now at ≡ None)
            (λ way. (at : ℕ) × (free_way (draft_view self.now) call runs marks.now at ≡ Some way)) }
    {
        for place in call.from..call.to {
            if let Some(way) = self.free_way(call, runs, marks, place) {
                return Some(way);
            }
        }
        None
    }

    /// Marks all places to which runs come from those that are marked.
    pub fn spread(&self, call: CallRead, runs: RunKind, marks: &mut [bool])
        ensures size { length marks.new ≡ length marks.old }
        ensures kept { KeepsMarks marks.old marks.new }
        ensures closed { IsClosed (draft_view self.now) call runs marks.new }
        ensures comes { (at : ℕ) → is_in marks.new at ≡ true
            → RunComesTo (draft_view self.now) call runs (λ first. is_in marks.old first ≡ true) at }
    {
        while let Some(place) = self.next_free(call, runs, marks) {
            mark(marks, place);
        }
    }

    /// A mark for each line and for the place after the last. That of the call's first line is set where `first`.
    pub fn marks_from(
        &self,
        alloc: Global,
        call: CallRead,
        first: bool,
    ) -> Result<Vec<bool>, AllocError>
        ensures { IfOk result (λ marks. marks.items ≡ marks_from (length (draft_view self.now).lines + 1) call.«from» first) }
    {
        let mut marks = vec![in alloc; false; self.algorithm.lines.len() + 1]?;
        if first {
            mark(marks.as_mut_slice(), call.from);
        }
        Ok(marks)
    }

    /// The places to which runs of the call come, among those of lines and the place after the last.
    pub fn reached_places(
        &self,
        alloc: Global,
        call: CallRead,
        runs: RunKind,
    ) -> Result<Vec<bool>, AllocError>
        ensures size { IfOk result (λ marks. length marks.items ≡ length (draft_view self.now).lines + 1) }
        ensures comes { IfOk result (λ marks. (at : ℕ) → is_in marks.items at ≡ true
            → RunComesTo (draft_view self.now) call runs (λ first. first ≡ call.«from») at) }
        ensures all { IfOk result (λ marks. (at : ℕ) → at ≤ length (draft_view self.now).lines
            → RunComesTo (draft_view self.now) call runs (λ first. first ≡ call.«from») at → is_in marks.items at ≡ true) }
    {
        let mut marks = self.marks_from(alloc, call, true)?;
        self.spread(call, runs, marks.as_mut_slice());
        Ok(marks)
    }

    /// The place after a loop with this name, where a run can go on there from this place.
    fn past_from(&self, call: CallRead, name: usize, place: usize) -> Option<usize>
        ensures { result ≡ past_from (draft_view self.now) call name place }
    {
        if !is_within((call.from, call.to), place) {
            return None;
        }
        match self.algorithm.lines.get(place) {
            Some(line) => way_past(&line.form, name, self.algorithm.least, place + 1),
            None => None,
        }
    }

    /// Marks the places after loops with this name, where one of these places is a line from which a run can go on there.
    fn mark_past(&self, call: CallRead, name: usize, reached: &[bool], marks: &mut [bool])
        ensures size { length marks.new ≡ length marks.old }
        ensures kept { KeepsMarks marks.old marks.new }
        ensures marked { (at way : ℕ) → past_marked (draft_view self.now) call name reached.now at ≡ Some way
            → way < length marks.new
            → is_in marks.new way ≡ true }
        ensures comes { (way : ℕ) → is_in marks.new way ≡ true
            → (is_in marks.old way ≡ true)
            ⊎ ((at : ℕ) × (past_marked (draft_view self.now) call name reached.now at ≡ Some way)) }
    {
        for place in call.from..call.to {
            if let Some(way) = self.past_marked(call, name, reached, place) {
                mark(marks, way);
            }
        }
    }

    /// The place past a loop with this name, if runs come to the line at `place`.
    fn past_marked(
        &self,
        call: CallRead,
        name: usize,
        reached: &[bool],
        place: usize,
    ) -> Option<usize>
        ensures { result ≡ past_marked (draft_view self.now) call name reached.now place }
    {
        if is_in(reached, place) {
            self.past_from(call, name, place)
        } else {
            None
        }
    }

    /// The places to which runs of the call come that have not set a name, where `reached` are those to which any run comes.
    pub fn reached_without(
        &self,
        alloc: Global,
        call: CallRead,
        name: usize,
        reached: &[bool],
    ) -> Result<Vec<bool>, AllocError>
        requires { MarksReached (draft_view self.now) call reached.now }
        ensures comes { IfOk result (λ marks. (at : ℕ) → is_in marks.items at ≡ true
            → IsReachedWithout (draft_view self.now) call name at) }
        ensures all { IfOk result (λ marks. (at : ℕ) → at ≤ length (draft_view self.now).lines
            → IsReachedWithout (draft_view self.now) call name at → is_in marks.items at ≡ true) }
    {
        let mut marks = self.marks_from(alloc, call, self.algorithm.lasting <= name)?;
        self.mark_past(call, name, reached, marks.as_mut_slice());
        self.spread(call, RunKind::Without(name), marks.as_mut_slice());
        Ok(marks)
    }
}
