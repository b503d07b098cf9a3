//! What one process does by itself: the start of a call, and a step with the words as they are.

ghost use Rattle.std.specs.Prelude.{◌≡◌, ◌<◌, None, Ok, Err, IfOk, IfErr, OnOk, length};
ghost use Rattle.algorithms.specs.declared.constants.Constants.{Constants as ConstantsOf};
ghost use Rattle.algorithms.specs.LocalRuns.{nothing_noted};
ghost use Rattle.algorithms.specs.Steps.{before_step, lasting_names, process_stopped_at, step_from};
ghost use Rattle.algorithms.specs.Worlds.{access_at, begun_from, start_refusal, process_after_start, taken_by};

use crate::access::{Advanced, Moved, Taken, act};
use crate::algorithm::{Algorithm, AlgorithmCall};
use crate::constants::{Constants, MOST_PROCS};
use crate::line::{AccessLine, LineKind};
use crate::local::{LocalState, arrive};
use crate::noted::NotedDeeds;
use crate::process::{AlgorithmPlace, AlgorithmProcess, keep};
use crate::refusal::AlgorithmRefusal;

/// The access line at a place.
pub(crate) fn access_at(algorithm: &Algorithm, at: usize) -> Result<&AccessLine, AlgorithmRefusal>
    ensures ok { IfOk result (λ line. access_at algorithm.now at ≡ Ok line.now) }
    ensures err { IfErr result (λ e. access_at algorithm.now at ≡ Err e) }
    ensures place { OnOk result (at < length algorithm.now.lines.items) }
{
    match algorithm.lines.get(at) {
        None => Err(AlgorithmRefusal::Malformed { place: at }),
        Some(line) => match &line.form {
            LineKind::Access(access) => Ok(access),
            LineKind::Local(_) | LineKind::Done(_) => Err(AlgorithmRefusal::Malformed {
                place: at,
            }),
        },
    }
}

/// Why a process at this place may not start the call.
fn start_refusal(
    algorithm: &Algorithm,
    place: AlgorithmPlace,
    call: AlgorithmCall,
) -> Option<AlgorithmRefusal>
    ensures { result ≡ start_refusal algorithm.now place call }
{
    match (place, call) {
        (AlgorithmPlace::At(at), AlgorithmCall::Withdraw) => match access_at(algorithm, at) {
            Ok(line) if line.may_withdraw => None,
            _ => Some(AlgorithmRefusal::NotWaiting),
        },
        (AlgorithmPlace::Rest | AlgorithmPlace::Dead, AlgorithmCall::Withdraw) => Some(
            AlgorithmRefusal::NotWaiting,
        ),
        (
            AlgorithmPlace::At(_),
            AlgorithmCall::Lock | AlgorithmCall::Unlock | AlgorithmCall::Recover,
        ) => Some(AlgorithmRefusal::CallUnderWay),
        (
            AlgorithmPlace::Rest | AlgorithmPlace::Dead,
            AlgorithmCall::Lock | AlgorithmCall::Unlock | AlgorithmCall::Recover,
        ) => None,
    }
}

/// Where the call of a process begins, if it may start it.
pub(crate) fn call_entry(
    algorithm: &Algorithm,
    process: &AlgorithmProcess,
    call: AlgorithmCall,
) -> Result<usize, AlgorithmRefusal>
    ensures ok { IfOk result (λ entry. (c : ConstantsOf) → process_after_start algorithm.now c process.now call
        ≡ begun_from algorithm.now c entry (lasting_names algorithm.now.lasting process.now.store)) }
    ensures refused { IfErr result (λ e. (c : ConstantsOf) → process_after_start algorithm.now c process.now call ≡ Err e) }
{
    let entry = algorithm
        .entries
        .of(call)
        .ok_or(AlgorithmRefusal::NoSuchCall)?;
    match start_refusal(algorithm, process.place, call) {
        None => Ok(entry),
        Some(refusal) => Err(refusal),
    }
}

/// Brings a process from where its call begins to the first access.
pub(crate) fn begin(
    algorithm: &Algorithm,
    constants: Constants,
    process: &AlgorithmProcess,
    entry: usize,
) -> Result<LocalState, AlgorithmRefusal>
    requires { constants.me < constants.procs }
    ensures ok { IfOk result (λ s. begun_from algorithm.now constants entry (lasting_names algorithm.now.lasting process.now.store)
        ≡ Ok (process_stopped_at s None)) }
    ensures refused { IfErr result (λ e. begun_from algorithm.now constants entry (lasting_names algorithm.now.lasting process.now.store)
        ≡ Err e) }
{
    let store = process.store;
    let mut state = LocalState {
        at: entry,
        store,
        noted: NotedDeeds::nothing(),
    };
    keep(&mut state.store, algorithm.lasting);
    match arrive(algorithm.lines.as_slice(), constants, &mut state)? {
        None => Ok(state),
        Some(_) => Err(AlgorithmRefusal::Malformed { place: state.at }),
    }
}

/// Takes the step of a process with this state, with the words as they are.
pub(crate) fn take(
    algorithm: &Algorithm,
    constants: Constants,
    words: &[[u64; MOST_PROCS]],
    state: &mut LocalState,
) -> Result<Advanced, AlgorithmRefusal>
    requires own { constants.me < constants.procs }
    requires first { state.old.noted ≡ nothing_noted }
    ensures ok { IfOk result (λ a. taken_by algorithm.now constants words.now (process_stopped_at state.old None)
        ≡ Ok (step_from state.old a state.new)) }
    ensures refused { IfErr result (λ e. taken_by algorithm.now constants words.now (process_stopped_at state.old None) ≡ Err e) }
{
    let line = access_at(algorithm, state.at)?;
    act(algorithm, constants, words, line, state)
}

/// A process before the access at this place.
pub(crate) fn state_at(at: usize, process: &AlgorithmProcess) -> LocalState
    ensures { result ≡ before_step at process.now }
{
    let store = process.store;
    LocalState {
        at,
        store,
        noted: NotedDeeds::nothing(),
    }
}

/// The place of a process that has stopped here, with the answer of its call where that has ended.
pub(crate) fn place_of(state: &LocalState, answer: Option<usize>) -> AlgorithmPlace
    ensures { result ≡ (process_stopped_at state.now answer).place }
{
    match answer {
        None => AlgorithmPlace::At(state.at),
        Some(_) => AlgorithmPlace::Rest,
    }
}

/// The step that says this, of a process that was before at one place, and has stopped at another.
pub(crate) fn step_from(before: &LocalState, advanced: &Advanced, state: &LocalState) -> Taken
    ensures { result ≡ step_from before.now advanced.now state.now }
{
    let (place, store) = if advanced.blocked {
        let store = before.store;
        (AlgorithmPlace::At(before.at), store)
    } else {
        let store = state.store;
        (place_of(state, advanced.answer), store)
    };
    let process = AlgorithmProcess { place, store };
    Taken {
        at: before.at,
        access: advanced.access,
        value: advanced.value,
        moved: Moved {
            process,
            noted: advanced.noted,
            answer: advanced.answer,
            blocked: advanced.blocked,
        },
    }
}
