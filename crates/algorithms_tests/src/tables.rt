//! All tables of cases, by what is done in them. A table stands in the file of what it is about.

use crate::cases::compare_cases;
use crate::drawings::{bakeries as bakery_drawings, others as other_drawings};
use crate::replays::{bakeries as replays, others as other_replays};
use crate::reports::{
    bakeries as reports, constructs, others as other_reports, refusals, variants,
};
use crate::{
    arrays, bad_texts, claims, constants, costs, details, drawings, first_values, homes,
    hostile_texts, hunts, loops, mean_costs, remote_references, rows, searches, sessions, shrinks,
    spelling, starving, step_bounds, stuck, swaps,
};
use algorithm_explorer::laws::{no_search_finds_the_text_out, which_states_are_one};
use algorithm_lab::laws::{
    a_core_makes_these_moves, the_text_is_never_found_out, the_text_means_the_lock,
    the_text_plays_as_the_lock,
};
use algorithm_texts::laws::{
    a_line_says_one_thing, a_text_without_values_begins_at_zero, lines_make_blocks,
    tokens_are_at_their_places, tokens_are_read_as_said, tokens_say_one_part,
};
use algorithm_texts::read_algorithm;
use algorithms::AlgorithmFault;
use std::test::Fail;

/// Texts that are read, and those that ask for much or of which a line is at fault.
const READ: [&str; 5] = [
    bad_texts::BAD,
    bad_texts::GOOD,
    details::DETAILS,
    hostile_texts::HOSTILE,
    hostile_texts::LONG,
];

/// The same of declarations.
const DECLARED: [&str; 8] = [
    arrays::BAD,
    arrays::GOOD,
    constants::BAD,
    constants::GOOD,
    first_values::BAD,
    first_values::GOOD,
    homes::BAD,
    homes::GOOD,
];

/// The same of lines and of claims.
const SAID: [&str; 10] = [
    claims::BAD,
    claims::GOOD,
    loops::BAD,
    loops::GOOD,
    rows::BAD,
    rows::GOOD,
    step_bounds::BAD,
    step_bounds::GOOD,
    swaps::BAD,
    swaps::GOOD,
];

/// What texts spell.
const SPELLED: [&str; 11] = [
    arrays::HOMES,
    arrays::SPELLED,
    constants::SPELLED,
    first_values::SPELLED,
    homes::HOMES,
    homes::SPELLED,
    loops::SPELLED,
    spelling::BAKERY,
    spelling::SPACED,
    step_bounds::SPELLED,
    swaps::SPELLED,
];

/// Runs, move by move, and sessions.
const RUN: [&str; 9] = [
    arrays::RUNS,
    first_values::RUNS,
    loops::RUNS,
    other_replays::OTHERS,
    remote_references::RUNS,
    replays::BAKERIES,
    sessions::PETERSON,
    sessions::REFUSED,
    swaps::RUNS,
];

/// Reports of replays.
const REPORTED: [&str; 8] = [
    claims::REPORTS,
    constructs::CONSTRUCTS,
    other_reports::ONE_WORD,
    other_reports::OTHERS,
    refusals::REFUSALS,
    reports::BAKERIES,
    step_bounds::REPORTS,
    variants::VARIANTS,
];

/// Drawings, and schedules that are found by hunts or made least.
const DRAWN: [&str; 9] = [
    bakery_drawings::BAKERIES,
    drawings::ALONE,
    drawings::REFUSED,
    hunts::HUNTS,
    other_drawings::OTHERS,
    shrinks::LEAST,
    step_bounds::DRAWING,
    step_bounds::LEAST,
    swaps::DRAWN,
];

/// Searches for a schedule that goes wrong.
const SEARCHED: [&str; 15] = [
    arrays::SEARCHES,
    claims::SEARCHES,
    constants::SEARCHES,
    first_values::SEARCHES,
    homes::SEARCHES,
    loops::SEARCHES,
    rows::SEARCHES,
    searches::BAKERIES,
    searches::FOR_THREE,
    searches::LARGER,
    searches::OTHERS,
    searches::VARIANTS,
    searches::WITH_SYSTEM_CRASHES,
    step_bounds::SEARCHES,
    swaps::SEARCHES,
];

/// Searches for a stuck state, for a process that starves, and for costs.
const WAITED: [&str; 13] = [
    costs::COSTS,
    mean_costs::TOTALS,
    starving::AT_LENGTH,
    starving::NOBODY,
    starving::PROMISED,
    starving::QUITTERS,
    starving::REFUSED,
    starving::SOMEBODY,
    stuck::NEVER,
    stuck::STUCK,
    stuck::WRONG,
    swaps::STARVING,
    swaps::STUCK,
];

/// A text that is no ASCII is no case.
#[test]
fn texts_are_read(rt: HostRuntime) -> Result<(), Fail> {
    let high = read_algorithm(rt.alloc(), b"\xff\xff\xff\n").err();
    assert!(rt;
        high == Some(AlgorithmFault::At { line: 1, number: 2 }),
        "no ASCII"
    );
    for table in READ {
        compare_cases(rt.alloc(), table)?;
    }
    Ok(())
}

#[test]
fn declarations_are_read(rt: HostRuntime) -> Result<(), Fail> {
    for table in DECLARED {
        compare_cases(rt.alloc(), table)?;
    }
    Ok(())
}

#[test]
fn lines_and_claims_are_read(rt: HostRuntime) -> Result<(), Fail> {
    for table in SAID {
        compare_cases(rt.alloc(), table)?;
    }
    Ok(())
}

/// Also the laws that speak of what texts spell.
#[test]
fn texts_are_spelled(rt: HostRuntime) -> Result<(), Fail> {
    a_line_says_one_thing();
    tokens_say_one_part();
    the_text_means_the_lock();
    the_text_plays_as_the_lock();
    the_text_is_never_found_out();
    a_core_makes_these_moves();
    no_search_finds_the_text_out();
    which_states_are_one();
    lines_make_blocks();
    tokens_are_read_as_said();
    tokens_are_at_their_places();
    a_text_without_values_begins_at_zero();
    for table in SPELLED {
        compare_cases(rt.alloc(), table)?;
    }
    Ok(())
}

#[test]
fn runs_and_sessions(rt: HostRuntime) -> Result<(), Fail> {
    for table in RUN {
        compare_cases(rt.alloc(), table)?;
    }
    Ok(())
}

#[test]
fn replays_are_reported(rt: HostRuntime) -> Result<(), Fail> {
    for table in REPORTED {
        compare_cases(rt.alloc(), table)?;
    }
    Ok(())
}

#[test]
fn schedules_are_drawn(rt: HostRuntime) -> Result<(), Fail> {
    for table in DRAWN {
        compare_cases(rt.alloc(), table)?;
    }
    Ok(())
}

#[test]
fn searches_find(rt: HostRuntime) -> Result<(), Fail> {
    for table in SEARCHED {
        compare_cases(rt.alloc(), table)?;
    }
    Ok(())
}

#[test]
fn waits_and_costs(rt: HostRuntime) -> Result<(), Fail> {
    for table in WAITED {
        compare_cases(rt.alloc(), table)?;
    }
    Ok(())
}
