//! All scripts of whole invocations, by what they are about. A script stands in the file of what it is about.

use crate::arguments::helps;
use crate::program::{drawings, explains, invocations, senders};
use crate::replays::{
    devices, everything, images, replays, reports, sessions, stepwise, texts, variants,
};
use crate::searches::{
    algorithm_costs, algorithm_explores, algorithm_faults, algorithm_runs, explores, hunts,
    named_texts, shrinks, states, variant_costs, watched,
};
use crate::support::invocation::all_come_to;
use std::test::Fail;

/// Replays and traces.
const REPLAYS: [&str; 7] = [
    devices::DEVICES_AND_FILES_THAT_FAIL,
    everything::CRASH_OF_EVERYTHING,
    images::IMAGES,
    replays::REPLAYS,
    reports::REPORTS_AND_IMAGES,
    texts::HOSTILE_TEXTS,
    variants::VARIANTS_AND_TRACES,
];

/// Sessions, and replays with each step.
const SESSIONS: [&str; 3] = [
    sessions::SESSIONS,
    sessions::A_SESSION_IS_SAVED,
    stepwise::REPLAYS_STEP_BY_STEP,
];

/// Helps, drawings, explanations, senders, and words that are refused.
const OTHERS: [&str; 5] = [
    helps::HELPS_AND_WRONG_WORDS,
    drawings::DRAWINGS,
    explains::EXPLANATIONS,
    invocations::REPORTS_AND_REFUSALS,
    senders::FOUR_SENDERS,
];

#[test]
fn replays_sessions_and_others(rt: HostRuntime) -> Result<(), Fail> {
    for script in REPLAYS {
        all_come_to(&rt, rt.alloc(), &[reports::TEXTS], script)?;
    }
    for script in SESSIONS {
        all_come_to(&rt, rt.alloc(), &[sessions::TEXTS, stepwise::TEXTS], script)?;
    }
    for script in OTHERS {
        all_come_to(&rt, rt.alloc(), &[drawings::TEXTS, explains::TEXTS], script)?;
    }
    Ok(())
}

/// Commands on algorithms as texts.
const ALGORITHMS: [&str; 7] = [
    algorithm_runs::COMMANDS_ON_AN_ALGORITHM,
    algorithm_runs::SESSIONS_FROM_A_FILE,
    algorithm_runs::COMMANDS_ON_AN_ALGORITHM_THAT_FAIL,
    algorithm_faults::TEXTS_THAT_ARE_REFUSED,
    algorithm_faults::ALGORITHMS_WHERE_DEVICES_FAIL,
    states::STATES,
    states::STATES_WHERE_DEVICES_FAIL,
];

#[test]
fn commands_on_algorithms(rt: HostRuntime) -> Result<(), Fail> {
    for script in ALGORITHMS {
        let texts = [
            named_texts::SHARED,
            algorithm_runs::TEXTS,
            algorithm_faults::TEXTS,
            states::TEXTS,
        ];
        all_come_to(&rt, rt.alloc(), &texts, script)?;
    }
    Ok(())
}

/// Searches of algorithms, and their costs.
const ALGORITHM_SEARCHES: [&str; 4] = [
    algorithm_costs::COSTS,
    algorithm_costs::COSTS_THAT_FAIL,
    algorithm_explores::SEARCHES_OF_ALGORITHMS,
    algorithm_explores::SEARCHES_OF_ALGORITHMS_WHERE_DEVICES_FAIL,
];

#[test]
fn searches_of_algorithms(rt: HostRuntime) -> Result<(), Fail> {
    for script in ALGORITHM_SEARCHES {
        let texts = [
            named_texts::SHARED,
            algorithm_runs::TEXTS,
            algorithm_costs::TEXTS,
            algorithm_explores::TEXTS,
            explores::TEXTS,
        ];
        all_come_to(&rt, rt.alloc(), &texts, script)?;
    }
    Ok(())
}

/// Searches of the lock, its costs, and progress.
const SEARCHES: [&str; 4] = [
    explores::EXPLORES,
    variant_costs::COSTS_OF_VARIANTS,
    variant_costs::COSTS_OF_TWO,
    watched::SHOWN,
];

#[test]
fn searches_and_progress(rt: HostRuntime) -> Result<(), Fail> {
    for script in SEARCHES {
        all_come_to(&rt, rt.alloc(), &[explores::TEXTS], script)?;
    }
    Ok(())
}

/// Hunts of the lock, and schedules that are shrunk.
const HUNTS: [&str; 2] = [hunts::HUNTS, shrinks::SHRINKS];

#[test]
fn hunts_and_least_schedules(rt: HostRuntime) -> Result<(), Fail> {
    for script in HUNTS {
        all_come_to(&rt, rt.alloc(), &[shrinks::TEXTS], script)?;
    }
    Ok(())
}
