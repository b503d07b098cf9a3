//! What the runs of a call may do: which lines they come to, which names they have set, and when they make an access.

ghost use Rattle.std.specs.Prelude.{◌≡◌, ◌⊎◌, ◌<◌, ◌≤◌, ℕ, true, false, None, Some, [], OnOk, OnErr, IfOk, IfErr, IfSome, IsTrue, IsFalse, MatchBool, MatchOption};
ghost use Rattle.std.specs.List.{All as AllOf, list_all};
ghost use Rattle.algorithms.specs.Faults.{fault_of};
ghost use Rattle.algorithms.specs.declared.fault.ReadFault.TheVariants.{NeverReached, NoStep, Unset};
ghost use Rattle.algorithm_texts.specs.declared.flow.RunKind.TheVariants.{All};
ghost use Rattle.algorithm_texts.specs.Drafts.{draft_view, form_of, local_form};
ghost use Rattle.algorithm_texts.specs.FinishedDrafts.{is_in, is_within};
ghost use Rattle.algorithm_texts.specs.Marks.{MarksReached, ReadsMarked, SeenMarked, and_then};
ghost use Rattle.algorithm_texts.specs.Runs.{EachIsReached, LineReachedAt, NamesSetAt, ReadsUnset, RunsFit, RunsSet, RunsStay, StepFirstAt, StepsComeFirst, has_jump, is_line_in, is_own, is_seen, leads_in, ways_from};
ghost use Rattle.algorithm_texts.specs.TextFaults.{IsFaultAtFirst, IsFaultOfEnd, IsFaultOfRuns, OrMemory, number_at};
ghost use Rattle.algorithm_texts.specs.TextLines.{IsRefusalOf};
ghost use Rattle.algorithm_texts.specs.Usage.{uses, passes_at};

use crate::checks::{is_within, number_at};
use crate::flow::RunKind;
use crate::lines::{CallRead, Draft, Jump};
use crate::marks::is_in;
use crate::usage::Usage;
use algorithms::fault::{AlgorithmFault, ReadFault};
use algorithms::line::{LineKind, LocalLine};
use std::alloc::{AllocError, Global};

/// Whether a goto of the text stands at this place.
fn has_jump(jumps: &[Jump], place: usize) -> bool
    ensures { result ≡ has_jump jumps.now place }
{
    jumps.iter().any(|jump| jump.place == place)
}

/// Whether the text has this line.
fn is_own(jumps: &[Jump], place: usize, form: &LineKind) -> bool
    ensures { result ≡ is_own jumps.now place (form_of form.now) }
{
    match form {
        LineKind::Access(_) | LineKind::Done(_) => true,
        LineKind::Local(line) => is_own_local(jumps, place, line),
    }
}

/// As `is_own`, of a local line.
fn is_own_local(jumps: &[Jump], place: usize, line: &LocalLine) -> bool
    ensures { result ≡ is_own jumps.now place (local_form line.now) }
{
    match line {
        LocalLine::Goto(_) => has_jump(jumps, place),
        LocalLine::Next { .. } => false,
        LocalLine::Assign { .. }
        | LocalLine::AssignRow { .. }
        | LocalLine::Note(_)
        | LocalLine::Branch { .. }
        | LocalLine::First { .. } => true,
    }
}

/// Whether a line is an end or a deed, which others see.
fn is_seen(form: &LineKind) -> bool
    ensures { result ≡ is_seen (form_of form.now) }
{
    match form {
        LineKind::Done(_) | LineKind::Local(LocalLine::Note(_)) => true,
        _ => false,
    }
}

/// The lesser of two places.
fn earlier(first: Option<usize>, second: Option<usize>) -> Option<usize>
    ensures none { result ≡ None → (first ≡ None) × (second ≡ None) }
    ensures some { IfSome result (λ place. (first ≡ Some place) ⊎ (second ≡ Some place)) }
    ensures least { IfSome result (λ place. IfSome first (λ at. place ≤ at) × IfSome second (λ at. place ≤ at)) }
{
    match (first, second) {
        (Some(first), Some(second)) => Some(first.min(second)),
        (Some(first), None) => Some(first),
        (None, second) => second,
    }
}

impl Draft {
    /// This fault of the line at a place.
    pub fn fault_at(&self, fault: ReadFault, place: usize) -> AlgorithmFault
        ensures { result ≡ fault_of (number_at (draft_view self.now).lines place) fault }
    {
        fault.at(number_at(self.algorithm.lines.as_slice(), place))
    }

    /// Whether the text has the line at a place.
    fn is_own_at(&self, place: usize) -> bool
        ensures { result ≡ passes_at (is_own (draft_view self.now).jumps place) (uses (draft_view self.now).lines) place }
    {
        match self.algorithm.lines.get(place) {
            Some(line) => is_own(self.jumps.as_slice(), place, &line.form),
            None => false,
        }
    }

    /// Whether the line at a place is an end or a deed.
    fn is_seen_at(&self, place: usize) -> bool
        ensures { result ≡ passes_at is_seen (uses (draft_view self.now).lines) place }
    {
        match self.algorithm.lines.get(place) {
            Some(line) => is_seen(&line.form),
            None => false,
        }
    }

    /// `NeverReached` at the first line of the text to which no run comes.
    fn check_reached(&self, call: CallRead, reached: &[bool]) -> Result<(), AlgorithmFault>
        requires { MarksReached (draft_view self.now) call reached.now }
        ensures ok { OnOk result (EachIsReached (draft_view self.now) call) }
        ensures err { IfErr result (λ fault. IsRefusalOf fault (EachIsReached (draft_view self.now) call)) }
        ensures first { IfErr result (λ fault. IsFaultAtFirst (draft_view self.now).lines NeverReached
            (LineReachedAt (draft_view self.now) call) fault) }
    {
        for place in call.from..call.to {
            if self.is_own_at(place) && !is_in(reached, place) {
                return Err(self.fault_at(ReadFault::NeverReached, place));
            }
        }
        Ok(())
    }

    /// Whether a line of the call stands at a place.
    fn is_line_in(&self, call: CallRead, place: usize) -> bool
        ensures { result ≡ is_line_in (draft_view self.now) call place }
    {
        is_within((call.from, call.to), place) && place < self.algorithm.lines.len()
    }

    /// Whether a way leads to a line of the call, if there is one.
    fn way_stays(&self, call: CallRead, way: Option<usize>) -> bool
        ensures { result ≡ list_all (is_line_in (draft_view self.now) call) (and_then way []) }
    {
        match way {
            Some(place) => self.is_line_in(call, place),
            None => true,
        }
    }

    /// Whether the line at a place leads to lines of the call alone.
    fn leads_in(&self, call: CallRead, place: usize) -> bool
        ensures { result ≡ leads_in (draft_view self.now) call place }
    {
        let ways = self.ways_from(call, RunKind::All, place);
        self.way_stays(call, ways.first) && self.way_stays(call, ways.second)
    }

    /// Whether all lines of the call at these places lead to lines of the call alone.
    fn all_lead_in(&self, call: CallRead, places: &[bool]) -> bool
        ensures { MatchBool result
            ((at : ℕ) → is_within (call.«from», call.to) at ≡ true → is_in places.now at ≡ true
            → leads_in (draft_view self.now) call at ≡ true)
            ((at : ℕ) × (is_in places.now at ≡ true) × (leads_in (draft_view self.now) call at ≡ false)) }
    {
        for place in call.from..call.to {
            if is_in(places, place) && !self.leads_in(call, place) {
                return false;
            }
        }
        true
    }

    /// Whether runs of the call come to its lines alone, where `reached` are the places to which they come.
    fn stays_in_call(&self, call: CallRead, reached: &[bool]) -> bool
        requires { MarksReached (draft_view self.now) call reached.now }
        ensures yes { IsTrue result → RunsStay (draft_view self.now) call }
        ensures no { IsFalse result → RunsStay (draft_view self.now) call → ⊥ }
    {
        if !self.is_line_in(call, call.from) {
            return false;
        }
        self.all_lead_in(call, reached)
    }

    /// `FallsOff` where a run comes past the call's last line, or the call has no lines.
    fn check_end(&self, call: CallRead, reached: &[bool]) -> Result<(), AlgorithmFault>
        requires { MarksReached (draft_view self.now) call reached.now }
        ensures ok { OnOk result (RunsStay (draft_view self.now) call) }
        ensures err { IfErr result (λ fault. IsRefusalOf fault (RunsStay (draft_view self.now) call)) }
        ensures first { IfErr result (λ fault. IsFaultOfEnd (draft_view self.now) call fault) }
    {
        if self.stays_in_call(call, reached) {
            Ok(())
        } else {
            Err(ReadFault::FallsOff.at(call.last))
        }
    }

    /// The first of these places whose line reads a name.
    fn first_read(&self, call: CallRead, name: usize, places: &[bool]) -> Option<usize>
        ensures reads { MatchOption result ((at : ℕ) → ReadsMarked (draft_view self.now) call name places.now at → ⊥)
            (λ at. ReadsMarked (draft_view self.now) call name places.now at) }
        ensures first { IfSome result (λ at. (k : ℕ) → k < at → ReadsMarked (draft_view self.now) call name places.now k → ⊥) }
    {
        for place in call.from..call.to {
            if is_in(places, place) && self.uses_at(Usage::Reads, name, place) {
                return Some(place);
            }
        }
        None
    }

    /// The first place where a line may read a name that is not set.
    fn first_unset(
        &self,
        alloc: Global,
        call: CallRead,
        name: usize,
        reached: &[bool],
    ) -> Result<Option<usize>, AllocError>
        requires { MarksReached (draft_view self.now) call reached.now }
        ensures reads { IfOk result (λ first. MatchOption first ((at : ℕ) → ReadsUnset (draft_view self.now) call name at → ⊥)
            (λ at. ReadsUnset (draft_view self.now) call name at)) }
        ensures first { IfOk result (λ first. IfSome first (λ at.
            (k : ℕ) → k < at → ReadsUnset (draft_view self.now) call name k → ⊥)) }
    {
        let without = self.reached_without(alloc, call, name, reached)?;
        Ok(self.first_read(call, name, without.as_slice()))
    }

    /// `Unset` at the first line that may read a name before it is set.
    fn check_set(
        &self,
        alloc: Global,
        call: CallRead,
        reached: &[bool],
    ) -> Result<(), AlgorithmFault>
        requires { MarksReached (draft_view self.now) call reached.now }
        ensures ok { OnOk result (RunsSet (draft_view self.now) call) }
        ensures err { IfErr result (λ fault. IsRefusalOf fault (RunsSet (draft_view self.now) call)) }
        ensures first { IfErr result (λ fault. OrMemory fault
            (IsFaultAtFirst (draft_view self.now).lines Unset (NamesSetAt (draft_view self.now) call) fault)) }
    {
        let mut first = None;
        for name in 0..self.algorithm.names.len() {
            let unset = self.first_unset(alloc, call, name, reached)?;
            first = earlier(first, unset);
        }
        match first {
            Some(place) => Err(self.fault_at(ReadFault::Unset, place)),
            None => Ok(()),
        }
    }

    /// `NoStep` at the first end or deed among these places.
    fn check_silent(&self, call: CallRead, silent: &[bool]) -> Result<(), AlgorithmFault>
        ensures ok { OnOk result ((at : ℕ) → SeenMarked (draft_view self.now) call silent.now at → ⊥) }
        ensures err { OnErr result ((at : ℕ) × SeenMarked (draft_view self.now) call silent.now at) }
        ensures first { IfErr result (λ fault. IsFaultAtFirst (draft_view self.now).lines NoStep
            (λ at. SeenMarked (draft_view self.now) call silent.now at → ⊥) fault) }
    {
        for place in call.from..call.to {
            if is_in(silent, place) && self.is_seen_at(place) {
                return Err(self.fault_at(ReadFault::NoStep, place));
            }
        }
        Ok(())
    }

    /// `NoStep` at the first end or deed that can come before the call's first access.
    fn check_steps(&self, alloc: Global, call: CallRead) -> Result<(), AlgorithmFault>
        ensures ok { OnOk result (StepsComeFirst (draft_view self.now) call) }
        ensures err { IfErr result (λ fault. IsRefusalOf fault (StepsComeFirst (draft_view self.now) call)) }
        ensures first { IfErr result (λ fault. OrMemory fault
            (IsFaultAtFirst (draft_view self.now).lines NoStep (StepFirstAt (draft_view self.now) call) fault)) }
    {
        let silent = self.reached_places(alloc, call, RunKind::Silent)?;
        self.check_silent(call, silent.as_slice())
    }

    /// Checks what the runs of the call may do, where `reached` are the places to which they come.
    fn check_places(
        &self,
        alloc: Global,
        call: CallRead,
        reached: &[bool],
    ) -> Result<(), AlgorithmFault>
        requires { MarksReached (draft_view self.now) call reached.now }
        ensures ok { OnOk result (RunsFit (draft_view self.now) call) }
        ensures err { IfErr result (λ fault. IsRefusalOf fault (RunsFit (draft_view self.now) call)) }
        ensures first { IfErr result (λ fault. OrMemory fault (IsFaultOfRuns (draft_view self.now) call fault)) }
    {
        self.check_reached(call, reached)?;
        self.check_end(call, reached)?;
        self.check_set(alloc, call, reached)?;
        self.check_ends(alloc, call, reached)?;
        self.check_steps(alloc, call)
    }

    /// Checks what the runs of the call may do, and answers which places they come to.
    pub fn check_runs(&self, alloc: Global, call: CallRead) -> Result<Vec<bool>, AlgorithmFault>
        ensures ok { OnOk result (RunsFit (draft_view self.now) call) }
        ensures marks { IfOk result (λ marks. MarksReached (draft_view self.now) call marks.items) }
        ensures err { IfErr result (λ fault. IsRefusalOf fault (RunsFit (draft_view self.now) call)) }
        ensures first { IfErr result (λ fault. OrMemory fault (IsFaultOfRuns (draft_view self.now) call fault)) }
    {
        let reached = self.reached_places(alloc, call, RunKind::All)?;
        self.check_places(alloc, call, reached.as_slice())?;
        Ok(reached)
    }
}
