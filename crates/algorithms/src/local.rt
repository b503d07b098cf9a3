//! What a process does between two accesses. It is local and free, and it ends.

ghost use Rattle.std.specs.Prelude.{◌≡◌, ◌<◌, Some, None, Ok, Err, IfOk, IfErr, IfSome, length, slice_set};
ghost use Rattle.algorithms.specs.LocalRuns.{at_place, with_value, with_row, names_after_row, with_deed, least_from, end_value, first_number, number_after, round_at, local_line_done};
ghost use Rattle.algorithms.specs.Arrivals.{local_step_at, is_way_back, round_outcome, arrives, landing, most_local_rounds, IsDone, IsRoundEnd};
ghost use Rattle.algorithms.specs.declared.line.LocalLine.TheVariants.{AssignRow as RowLine, Next as NextLine};

use crate::constants::Constants;
use crate::expression::{Expression, MOST_ELEMENTS, NAMES, name_at};
use crate::line::{AlgorithmDeed, AlgorithmLine, Elements, LineKind, LocalLine, Members};
use crate::noted::NotedDeeds;
use crate::refusal::AlgorithmRefusal;

/// A process between two accesses: the place of its next line, its private names, and the deeds noted since its access.
#[derive(Clone, Copy)]
pub struct LocalState {
    pub at: usize,
    pub store: [u64; NAMES],
    pub noted: NotedDeeds,
}

/// What one line does to a process between two accesses: it goes on, or begins the next round of its loop, or the line is an
/// access, or with an answer the end of the call.
#[derive(Clone, Copy)]
pub enum LineStep {
    GoesOn,
    GoesBack,
    Stops(Option<usize>),
}

/// How the local lines of one round end: the process stops as at a line, or the line at a place begins the next round of its
/// loop.
#[derive(Clone, Copy)]
pub enum RoundEnd {
    Stops(Option<usize>),
    Repeats(usize),
}

/// How many further rounds of loops may come between two accesses.
const MOST_LOCAL_ROUNDS: u64 = 1_000_000;

/// Sets a private name. An index that is no name changes nothing.
#[tactic(auto, using(std::proofs::lemmas::List::set_past))]
pub fn set_name(store: &mut [u64; NAMES], name: usize, value: u64)
    ensures { store.new ≡ slice_set store.old name value }
{
    if name < NAMES {
        store[name] = value;
    }
}

/// Sets all values of a row of this size. The names of the row that are left become 0.
fn set_row(store: &mut [u64; NAMES], row: usize, size: u64, value: u64)
    ensures { store.new ≡ with_row row size value store.old }
{
    for index in 0..MOST_ELEMENTS {
        let here = if (index as u64) < size { value } else { 0 };
        set_name(store, row.saturating_add(index), here);
    }
}

/// Sets these values of a row. `None` where there is no such value, or one is out of range.
fn set_elements(
    store: &mut [u64; NAMES],
    row: usize,
    elements: &Elements,
    constants: Constants,
    value: u64,
) -> Option<()>
    ensures done { IfSome result (λ done. names_after_row constants row elements.now value store.old ≡ Some store.new) }
    ensures out { result ≡ None → names_after_row constants row elements.now value store.old ≡ None }
{
    match elements {
        Elements::All(size) => {
            let size = size.evaluate(constants, store)?;
            set_row(store, row, size, value);
        }
        Elements::At(index) => {
            let index = index.evaluate(constants, store)?;
            let name = name_at(row, index)?;
            set_name(store, name, value);
        }
    }
    Some(())
}

/// The value of an end of a loop.
fn end_value(end: &Expression, constants: Constants) -> Option<u64>
    ensures { result ≡ end_value constants end.now }
{
    end.evaluate(constants, &[0; NAMES])
}

impl Members {
    /// The least process of the set that is not below `from`. Numbers are no processes.
    fn least_from(&self, constants: Constants, from: u64) -> Option<u64>
        requires { constants.me < constants.procs }
        ensures { result ≡ least_from constants self.now from }
    {
        let member = match self {
            Members::All | Members::Lower | Members::Up(..) | Members::Down(..) => from,
            Members::Others => { if from == constants.me { from + 1 } else { from } }
            Members::Higher => from.max(constants.me + 1),
        };
        let end = match self {
            Members::Lower => constants.me,
            Members::All | Members::Others | Members::Higher => constants.procs,
            Members::Up(..) | Members::Down(..) => 0,
        };
        if member < end { Some(member) } else { None }
    }

    /// The first number of a loop, if there is one. None as a whole: an end has no value.
    fn first_number(&self, constants: Constants) -> Option<Option<u64>>
        requires { constants.me < constants.procs }
        ensures { result ≡ first_number constants self.now }
    {
        match self {
            Members::All | Members::Others | Members::Lower | Members::Higher => Some(
                self.least_from(constants, 0),
            ),
            Members::Up(first, last) => {
                let first = end_value(first, constants)?;
                let last = end_value(last, constants)?;
                Some(if first <= last { Some(first) } else { None })
            }
            Members::Down(first, last) => {
                let first = end_value(first, constants)?;
                let last = end_value(last, constants)?;
                Some(if last <= first { Some(first) } else { None })
            }
        }
    }

    /// The number of a loop after this one, if there is one. None as a whole: it, or the end, has no value.
    fn number_after(&self, constants: Constants, number: u64) -> Option<Option<u64>>
        requires { constants.me < constants.procs }
        ensures { result ≡ number_after constants self.now number }
    {
        match self {
            Members::All | Members::Others | Members::Lower | Members::Higher => {
                let further = number.checked_add(1)?;
                Some(self.least_from(constants, further))
            }
            Members::Up(_, last) => {
                let last = end_value(last, constants)?;
                Some(if number < last {
                    Some(number + 1)
                } else {
                    None
                })
            }
            Members::Down(_, last) => {
                let last = end_value(last, constants)?;
                Some(if last < number {
                    Some(number - 1)
                } else {
                    None
                })
            }
        }
    }
}

impl LocalState {
    /// Goes to another place.
    fn go_to(&mut self, place: usize)
        ensures { self.new ≡ at_place place self.old }
    {
        self.at = place;
    }

    /// Sets a name.
    fn set(&mut self, name: usize, value: u64)
        ensures { self.new ≡ with_value name value self.old }
    {
        set_name(&mut self.store, name, value);
    }

    /// Notes one deed more. `None` where it is the fourth of the step.
    fn note(&mut self, deed: AlgorithmDeed) -> Option<()>
        ensures noted { IfSome result (λ done. with_deed deed self.old ≡ Some self.new) }
        ensures full { result ≡ None → with_deed deed self.old ≡ None }
    {
        self.noted = self.noted.and(deed)?;
        Some(())
    }

    /// Begins the next round of a loop with this member, or goes to the line after the loop where there is none.
    fn go_round(&mut self, member: Option<u64>, name: usize, body: usize, after: usize)
        ensures { self.new ≡ round_at name body after self.old member }
    {
        match member {
            Some(member) => {
                self.set(name, member);
                self.go_to(body);
            }
            None => {
                self.set(name, 0);
                self.go_to(after);
            }
        }
    }

    /// Sets values of a row, and goes to the next line. `None` where a value is out of range.
    fn assign_row(
        &mut self,
        row: usize,
        elements: &Elements,
        value: &Expression,
        constants: Constants,
        next: usize,
    ) -> Option<()>
        ensures done { IfSome result (λ done.
            local_line_done constants next (RowLine row elements.now value.now) self.old ≡ Some self.new) }
        ensures out { result ≡ None → local_line_done constants next (RowLine row elements.now value.now) self.old ≡ None }
    {
        let value = value.evaluate(constants, &self.store)?;
        set_elements(&mut self.store, row, elements, constants, value)?;
        self.go_to(next);
        Some(())
    }

    /// Ends a round of a loop: it begins the next one, or goes to the line after the loop. `None` where a value is out of range.
    fn go_on(
        &mut self,
        name: usize,
        members: &Members,
        constants: Constants,
        body: usize,
        after: usize,
    ) -> Option<()>
        requires { constants.me < constants.procs }
        ensures done { IfSome result (λ done.
            local_line_done constants after (NextLine name members.now body) self.old ≡ Some self.new) }
        ensures out { result ≡ None → local_line_done constants after (NextLine name members.now body) self.old ≡ None }
    {
        let number = self.store.get(name).copied()?;
        let member = members.number_after(constants, number)?;
        self.go_round(member, name, body, after);
        Some(())
    }

    /// Does one local line, of which `next` is the place of the line after it. `None` where a value is out of range.
    fn do_local(&mut self, line: &LocalLine, constants: Constants, next: usize) -> Option<()>
        requires { constants.me < constants.procs }
        ensures done { IfSome result (λ done. local_line_done constants next line.now self.old ≡ Some self.new) }
        ensures out { result ≡ None → local_line_done constants next line.now self.old ≡ None }
    {
        match line {
            LocalLine::Assign { name, value } => {
                let value = value.evaluate(constants, &self.store)?;
                self.set(*name, value);
                self.go_to(next);
            }
            LocalLine::AssignRow {
                row,
                elements,
                value,
            } => self.assign_row(*row, elements, value, constants, next)?,
            LocalLine::Note(deed) => {
                self.note(*deed)?;
                self.go_to(next);
            }
            LocalLine::Goto(place) => self.go_to(*place),
            LocalLine::Branch {
                condition,
                otherwise,
            } => {
                let holds = condition.holds(constants, &self.store)?;
                self.go_to(if holds { next } else { *otherwise });
            }
            LocalLine::First {
                name,
                members,
                after,
            } => {
                let member = members.first_number(constants)?;
                self.go_round(member, *name, next, *after);
            }
            LocalLine::Next {
                name,
                members,
                body,
            } => self.go_on(*name, members, constants, *body, next)?,
        }
        Some(())
    }
}

/// Whether a line that has led to this place begins the next round of its loop.
fn is_way_back(line: &LocalLine, at: usize) -> bool
    ensures { result ≡ is_way_back line.now at }
{
    match line {
        LocalLine::Next { body, .. } => *body == at,
        LocalLine::Assign { .. }
        | LocalLine::AssignRow { .. }
        | LocalLine::Note(_)
        | LocalLine::Goto(_)
        | LocalLine::Branch { .. }
        | LocalLine::First { .. } => false,
    }
}

/// Does the line at which the process is. At a line that is not local it changes nothing.
fn do_line(
    lines: &[AlgorithmLine],
    constants: Constants,
    state: &mut LocalState,
) -> Result<LineStep, AlgorithmRefusal>
    requires { constants.me < constants.procs }
    ensures done { IfOk result (λ step. IsDone (local_step_at lines.now constants state.old) step state.old state.new) }
    ensures refused { IfErr result (λ e. local_step_at lines.now constants state.old ≡ Err e) }
{
    let at = state.at;
    let line = lines
        .get(at)
        .ok_or(AlgorithmRefusal::Malformed { place: at })?;
    match &line.form {
        LineKind::Access(_) => Ok(LineStep::Stops(None)),
        LineKind::Done(answer) => Ok(LineStep::Stops(Some(*answer))),
        LineKind::Local(local) => match state.do_local(local, constants, at + 1) {
            Some(()) => {
                if is_way_back(local, state.at) {
                    Ok(LineStep::GoesBack)
                } else {
                    Ok(LineStep::GoesOn)
                }
            }
            None => Err(AlgorithmRefusal::OutOfRange { place: at }),
        },
    }
}

/// Goes on by local lines to the end of a round. `Malformed` where it does as many lines as there are and has not come to one.
fn end_round(
    lines: &[AlgorithmLine],
    constants: Constants,
    state: &mut LocalState,
) -> Result<RoundEnd, AlgorithmRefusal>
    requires { constants.me < constants.procs }
    ensures ended { IfOk result (λ end. IsRoundEnd (round_outcome lines.now constants (length lines.now) state.old) end state.new) }
    ensures refused { IfErr result (λ e. round_outcome lines.now constants (length lines.now) state.old ≡ Err e) }
{
    let mut left = lines.len();
    while left > 0 {
        let at = state.at;
        match do_line(lines, constants, state)? {
            LineStep::GoesOn => {}
            LineStep::GoesBack => return Ok(RoundEnd::Repeats(at)),
            LineStep::Stops(answer) => return Ok(RoundEnd::Stops(answer)),
        }
        left -= 1;
    }
    Err(AlgorithmRefusal::Malformed { place: state.at })
}

/// Goes on by the local lines of a process to where it stops: before an access, or at the end of its call, with its answer.
/// `OutOfRange` at the end of a loop that would begin one round too many.
#[tactic(auto, using(crate::proofs::LocalRounds::one_further, crate::proofs::LocalRounds::none_further))]
pub(crate) fn arrive(
    lines: &[AlgorithmLine],
    constants: Constants,
    state: &mut LocalState,
) -> Result<Option<usize>, AlgorithmRefusal>
    requires { constants.me < constants.procs }
    ensures stops { IfOk result (λ answer. arrives lines.now constants most_local_rounds state.old ≡ Ok (landing answer state.new)) }
    ensures refused { IfErr result (λ e. arrives lines.now constants most_local_rounds state.old ≡ Err e) }
{
    let mut rounds = MOST_LOCAL_ROUNDS;
    while rounds > 0 {
        match end_round(lines, constants, state)? {
            RoundEnd::Stops(answer) => return Ok(answer),
            RoundEnd::Repeats(_) => {}
        }
        rounds -= 1;
    }
    match end_round(lines, constants, state)? {
        RoundEnd::Stops(answer) => Ok(answer),
        RoundEnd::Repeats(place) => Err(AlgorithmRefusal::OutOfRange { place }),
    }
}
