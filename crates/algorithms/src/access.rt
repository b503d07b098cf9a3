//! The access that a process makes next, and what its value leads to.

ghost use Rattle.std.specs.Prelude.{◌≡◌, ◌<◌, ◌-◌, ◌^◌, Ok, Err, IfOk, IfErr};
ghost use Rattle.algorithms.specs.Accesses.{index_of, bound_of, value_stored, is_swap, access_of, names_after_read, holds_if, value_swapped, access_after_read, passes};
ghost use Rattle.algorithms.specs.declared.line.Action.TheVariants.{Store as StoreAction};
ghost use Rattle.algorithms.specs.LocalRuns.{nothing_noted};
ghost use Rattle.algorithms.specs.Steps.{goes_on, value_of, step_before_access, process_stopped_at, move_to_state, step_from};

use crate::algorithm::{Algorithm, Declaration, Extent};
use crate::condition::Condition;
use crate::constants::{Constants, MOST_PROCS};
use crate::expression::{Expression, NAMES};
use crate::line::{AccessLine, Action, WordOf};
use crate::local::{LocalState, arrive, set_name};
use crate::noted::NotedDeeds;
use crate::process::{AlgorithmProcess, keep};
use crate::refusal::AlgorithmRefusal;

/// A shared word of a world: its declaration, and which of the declaration's words it is.
#[derive(Clone, Copy, Debug, PartialEq, Eq)]
pub struct Address {
    pub declaration: usize,
    pub index: u64,
}

/// One load, store or swap of one shared word.
#[derive(Clone, Copy, Debug, PartialEq, Eq)]
pub struct WordAccess {
    pub address: Address,
    /// The value that is stored. `None` for a load, and for a swap whose guard does not hold.
    pub stores: Option<u64>,
    /// Whether it is a swap, which reads the word and may store in the same step.
    pub swaps: bool,
}

/// A step that was taken: the place of its line, its access, the value that was read, or stored where none is read, and what it
/// leaves.
#[derive(Clone, Copy, Debug)]
pub struct Taken {
    pub at: usize,
    pub access: WordAccess,
    pub value: u64,
    pub moved: Moved,
}

/// What a step leaves of its process, and what it says.
#[derive(Clone, Copy, Debug)]
pub struct Moved {
    pub process: AlgorithmProcess,
    pub noted: NotedDeeds,
    /// The answer of the call, by its index, where the step ends it.
    pub answer: Option<usize>,
    /// The reading was blocked. The next step reads the same word again.
    pub blocked: bool,
}

/// Which of a declaration's words a line names. None: the index has no value, or there is no such word.
fn index_of(
    word: &WordOf,
    extent: &Extent,
    constants: Constants,
    store: &[u64; NAMES],
) -> Option<u64>
    ensures { result ≡ index_of constants store.now extent.now word.now.index }
{
    match &word.index {
        None => Some(0),
        Some(index) => {
            let index = index.evaluate(constants, store)?;
            if index < extent.places_end(constants.procs, constants.limit) {
                Some(index)
            } else {
                None
            }
        }
    }
}

/// The greatest value that a shared word may hold. None: the bound has no value.
fn bound_of(declaration: &Declaration, constants: Constants, store: &[u64; NAMES]) -> Option<u64>
    ensures { result ≡ bound_of constants store.now declaration.now.bound }
{
    match &declaration.bound {
        None => Some(u64::MAX),
        Some(bound) => bound.evaluate(constants, store),
    }
}

/// What a store of this value stores. `None` where the value does not exist, or is too great.
pub(crate) fn value_within(
    declaration: &Declaration,
    value: &Expression,
    constants: Constants,
    store: &[u64; NAMES],
) -> Option<Option<u64>>
    ensures { result ≡ value_stored constants store.now declaration.now (StoreAction value.now) }
{
    let bound = bound_of(declaration, constants, store)?;
    let value = value.evaluate(constants, store)?;
    if value <= bound {
        Some(Some(value))
    } else {
        None
    }
}

/// The value that an action stores, or none where it first has to read. None as a whole: a value that is needed does not exist,
/// or is too great.
fn value_stored(
    declaration: &Declaration,
    action: &Action,
    constants: Constants,
    store: &[u64; NAMES],
) -> Option<Option<u64>>
    ensures { result ≡ value_stored constants store.now declaration.now action.now }
{
    match action {
        Action::Load { .. } | Action::Await { .. } | Action::Swap { .. } => Some(None),
        Action::Store { value } => value_within(declaration, value, constants, store),
    }
}

/// Whether a condition holds, where there is one. `None` where a value is out of range.
fn holds_if(
    condition: &Option<Condition>,
    constants: Constants,
    store: &[u64; NAMES],
) -> Option<bool>
    ensures { result ≡ holds_if constants store.now condition.now }
{
    match condition {
        None => Some(true),
        Some(condition) => condition.holds(constants, store),
    }
}

/// The value that a swap stores, with the names once its word is read, or none where its guard does not hold. None as a whole: a
/// value that is needed does not exist, or is too great.
fn value_swapped(
    declaration: &Declaration,
    value: &Expression,
    guard: &Option<Condition>,
    constants: Constants,
    store: &[u64; NAMES],
) -> Option<Option<u64>>
    ensures { result ≡ value_swapped constants store.now declaration.now value.now guard.now }
{
    if holds_if(guard, constants, store)? {
        value_within(declaration, value, constants, store)
    } else {
        Some(None)
    }
}

impl AccessLine {
    /// The access that a process at this line makes, as far as it is known before the word is read. `None` where a value is out
    /// of range.
    pub fn access(
        &self,
        declarations: &[Declaration],
        constants: Constants,
        store: &[u64; NAMES],
    ) -> Option<WordAccess>
        ensures { result ≡ access_of declarations.now constants store.now self.now }
    {
        let declaration = declarations.get(self.word.declaration)?;
        let index = index_of(&self.word, &declaration.extent, constants, store)?;
        let stores = value_stored(declaration, &self.action, constants, store)?;
        let declaration = self.word.declaration;
        Some(WordAccess {
            address: Address { declaration, index },
            stores,
            swaps: self.action.is_swap(),
        })
    }
}

impl Action {
    /// Whether this reads a word and may store in the same step.
    fn is_swap(&self) -> bool
        ensures { result ≡ is_swap self.now }
    {
        match self {
            Action::Swap { .. } => true,
            Action::Load { .. } | Action::Store { .. } | Action::Await { .. } => false,
        }
    }

    /// The access once its word is read, with the names after that: a swap now stores, where its guard holds. `None` where a
    /// value is out of range.
    fn complete(
        &self,
        declarations: &[Declaration],
        constants: Constants,
        store: &[u64; NAMES],
        access: WordAccess,
    ) -> Option<WordAccess>
        ensures { result ≡ access_after_read declarations.now constants store.now self.now access }
    {
        match self {
            Action::Load { .. } | Action::Store { .. } | Action::Await { .. } => Some(access),
            Action::Swap { value, guard, .. } => {
                let declaration = declarations.get(access.address.declaration)?;
                let stores = value_swapped(declaration, value, guard, constants, store)?;
                Some(WordAccess { stores, ..access })
            }
        }
    }

    /// Reads the value into its name, if it has one.
    fn receive(&self, value: u64, store: &mut [u64; NAMES])
        ensures { store.new ≡ names_after_read self.now value store.old }
    {
        match self {
            Action::Store { .. } => {}
            Action::Load { name } | Action::Await { name, .. } | Action::Swap { name, .. } => {
                set_name(store, *name, value)
            }
        }
    }

    /// Whether the process goes on, with the names once the value is read. `None` where a value is out of range.
    fn passes(&self, constants: Constants, store: &[u64; NAMES]) -> Option<bool>
        ensures { result ≡ passes constants store.now self.now }
    {
        match self {
            Action::Load { .. } | Action::Store { .. } => Some(true),
            Action::Await { until, .. } => until.holds(constants, store),
            Action::Swap { until, .. } => holds_if(until, constants, store),
        }
    }
}

/// What a step says, beside the process that it leaves.
#[derive(Clone, Copy, Debug)]
pub struct Advanced {
    pub access: WordAccess,
    pub value: u64,
    pub noted: NotedDeeds,
    /// The answer of the call, by its index, where the step ends it.
    pub answer: Option<usize>,
    /// The reading was blocked. The next step reads the same word again.
    pub blocked: bool,
}

/// Goes on by the local lines from this place to the next access, or to the end of the call, with its answer.
fn go_on(
    algorithm: &Algorithm,
    constants: Constants,
    state: &mut LocalState,
) -> Result<Option<usize>, AlgorithmRefusal>
    requires own { constants.me < constants.procs }
    requires first { state.old.noted ≡ nothing_noted }
    ensures ok { IfOk result (λ answer. goes_on algorithm.now constants state.old.at state.old.store
        ≡ Ok (move_to_state state.new answer)) }
    ensures refused { IfErr result (λ e. goes_on algorithm.now constants state.old.at state.old.store ≡ Err e) }
{
    let answer = arrive(algorithm.lines.as_slice(), constants, state)?;
    if answer.is_some() {
        keep(&mut state.store, algorithm.lasting);
    }
    Ok(answer)
}

/// The value that an access reads, or the one that it stores.
fn value_of(words: &[[u64; MOST_PROCS]], access: WordAccess) -> Option<u64>
    ensures { result ≡ value_of words.now access }
{
    match access.stores {
        Some(value) => Some(value),
        None => {
            let row = words.get(access.address.declaration)?;
            row.get(access.address.index as usize).copied()
        }
    }
}

/// Takes the step of a process before the access at its place. After a blocked reading the process is as it was, whatever
/// `state` is.
pub(crate) fn act(
    algorithm: &Algorithm,
    constants: Constants,
    words: &[[u64; MOST_PROCS]],
    line: &AccessLine,
    state: &mut LocalState,
) -> Result<Advanced, AlgorithmRefusal>
    requires own { constants.me < constants.procs }
    requires place { state.old.at < 2 ^ 64 - 1 }
    requires first { state.old.noted ≡ nothing_noted }
    ensures ok { IfOk result (λ a. step_before_access algorithm.now constants words.now state.old.at line.now state.old.store
        ≡ Ok (step_from state.old a state.new)) }
    ensures refused { IfErr result (λ e. step_before_access algorithm.now constants words.now state.old.at line.now state.old.store
        ≡ Err e) }
{
    let at = state.at;
    let declarations = algorithm.declarations.as_slice();
    let access = line.access(declarations, constants, &state.store);
    let access = access.ok_or(AlgorithmRefusal::OutOfRange { place: at })?;
    let value = value_of(words, access).ok_or(AlgorithmRefusal::Malformed { place: at })?;
    line.action.receive(value, &mut state.store);
    let access = line
        .action
        .complete(declarations, constants, &state.store, access);
    let access = access.ok_or(AlgorithmRefusal::OutOfRange { place: at })?;
    let passes = line.action.passes(constants, &state.store);
    let passes = passes.ok_or(AlgorithmRefusal::OutOfRange { place: at })?;
    let answer = if passes {
        state.at = at + 1;
        go_on(algorithm, constants, state)?
    } else {
        None
    };
    Ok(Advanced {
        access,
        value,
        noted: state.noted,
        answer,
        blocked: !passes,
    })
}
