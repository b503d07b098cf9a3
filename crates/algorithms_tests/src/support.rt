//! What tests of several files use.

use crate::sessions;
use crate::texts::{
    arrays, bakeries, claims, constructs, homes, loops, others, promises, queues, rows, swaps,
};
use algorithm_explorer::{CrashesLeft, SearchedAlgorithm};
use algorithm_lab::AlgorithmReplayFault;
use algorithm_texts::read_algorithm;
use algorithms::AlgorithmCall;
use schedule::{Schedule, write_schedule};
use std::alloc::{AllocError, Global};
use std::fmt::Write;
use std::test::Fail;

/// The number that a word spells. Where it spells none, no case expects what comes of it.
pub fn number(word: &str) -> u64 {
    word.parse().unwrap_or(u64::MAX)
}

/// The crashes that a word spells: of a process alone, or `any`, and after a plus of all.
pub fn crashes_left(word: &str) -> CrashesLeft {
    let (alone, together) = word.split_once('+').unwrap_or((word, "0"));
    CrashesLeft {
        alone: if alone == "any" {
            None
        } else {
            Some(number(alone))
        },
        together: number(together),
    }
}

/// All calls.
const CALLS: [AlgorithmCall; 4] = [
    AlgorithmCall::Lock,
    AlgorithmCall::Unlock,
    AlgorithmCall::Recover,
    AlgorithmCall::Withdraw,
];

/// All calls but recover.
const WITHDRAWS: [AlgorithmCall; 3] = [
    AlgorithmCall::Lock,
    AlgorithmCall::Unlock,
    AlgorithmCall::Withdraw,
];

/// The calls that a word names: `lock` alone, `all`, or lock and unlock, and beside them `recover` or `withdraw`.
pub fn calls_named(word: &str) -> &'static [AlgorithmCall] {
    match word {
        "lock" => &CALLS[..1],
        "recover" => &CALLS[..3],
        "withdraw" => &WITHDRAWS,
        "all" => &CALLS,
        _ => &CALLS[..2],
    }
}

/// The search of a case: the text, the sizes and the crashes, with these calls.
pub fn searched_with(
    alloc: Global,
    words: &[&str; 8],
    calls: &[AlgorithmCall],
) -> Result<SearchedAlgorithm, Fail> {
    let [name, procs, limit, crashes, ..] = words;
    Ok(SearchedAlgorithm {
        algorithm: read_algorithm(alloc, text_named(name))?,
        procs: number(procs),
        limit: number(limit),
        crashes: crashes_left(crashes),
        calls: Vec::from_slice(alloc, calls)?,
    })
}

/// The search of a case: the text, the sizes, the crashes and the calls.
pub fn searched(alloc: Global, words: &[&str; 8]) -> Result<SearchedAlgorithm, Fail> {
    searched_with(alloc, words, calls_named(words[4]))
}

/// The name in the header of a text.
fn name_of(text: &[u8]) -> &str {
    let text = std::str::from_utf8(text).unwrap_or("");
    let (_, header) = text.split_once("algorithm ").unwrap_or(("", text));
    let (name, _) = header.split_once(' ').unwrap_or((header, ""));
    name
}

/// The text of that name among those that say what never holds, or that calls end. That of no name is empty, which is read by no test.
fn claims_named(name: &str) -> &'static [u8] {
    for text in [
        claims::BEGUN_TICKET,
        claims::CLAIMED_TICKET,
        claims::KEPT_TICKET,
        claims::LINKED_MCS,
        claims::UNLINKED_MCS,
        promises::CLEARING,
        promises::CROSSED_FLAGS,
        promises::FAIR_TEST_AND_SET,
        promises::FREE_TEST_AND_SET,
        promises::HASTY_CLEARING,
        promises::MCS_NO_WAIT,
        promises::SEMAPHORE_2,
        promises::SQUARED,
        queues::DHOKED_MITTAL,
        queues::RECOVERABLE_CLH,
        queues::RECOVERABLE_MCS,
        rows::JAYANTI_JAYANTI_JOSHI,
        rows::JAYANTI_JAYANTI_JOSHI_TWO_NODES,
    ] {
        if name_of(text) == name {
            return text;
        }
    }
    b""
}

/// The text of that name among those with swaps, or of those that `claims_named` knows.
fn swaps_named(name: &str) -> &'static [u8] {
    for text in [
        swaps::ANDERSON,
        swaps::MCS,
        swaps::RECOVERABLE_TEST_AND_SET,
        swaps::RECOVERABLE_TICKET,
        swaps::TEST_AND_SET,
        swaps::TEST_AND_TEST_AND_SET,
        swaps::TICKET,
        swaps::BOARD,
        swaps::COUNTER,
        swaps::MCS_NIL,
        swaps::NAMED,
        swaps::NARROW,
        swaps::SEATS,
        swaps::OWNER,
        swaps::TURNSTILE,
    ] {
        if name_of(text) == name {
            return text;
        }
    }
    claims_named(name)
}

/// The text of that name among those with arrays of other sizes, with loops over numbers, or with swaps.
fn arrays_named(name: &str) -> &'static [u8] {
    for text in [
        arrays::CLH,
        arrays::CORNER,
        arrays::GOLAB_RAMARAJU_TOURNAMENT,
        arrays::PETERSON_TOURNAMENT,
        arrays::TABLE,
        loops::FILTER,
        loops::STAIRS,
        loops::TALLY,
    ] {
        if name_of(text) == name {
            return text;
        }
    }
    swaps_named(name)
}

/// The text of that name.
pub fn text_named(name: &str) -> &'static [u8] {
    for text in [
        bakeries::BAKERY,
        bakeries::BAKERY_RUIN,
        bakeries::EXIT_ON_CRASH,
        bakeries::NO_LOOK,
        bakeries::NO_TIES,
        bakeries::RENUMBER,
        others::BAKERY_1974,
        others::BURNS,
        others::DEKKER,
        others::FORGETFUL_PETERSON,
        others::LAMPORT_FAST,
        others::NO_TURN,
        others::ONE_WORD,
        others::PETERSON,
        others::PETERSON_ORDER,
        others::RECOVERABLE_PETERSON,
        others::SZYMANSKI,
        constructs::CONSTRUCTS,
        homes::GOLAB_RAMARAJU,
        homes::HOMES,
        homes::YANG_ANDERSON,
        promises::BOUNDED_PETERSON,
        promises::BOUNDED_TEST_AND_SET,
        promises::BOUNDED_TICKET,
        promises::HURRIED_TICKET,
        promises::INSTANT_TEST_AND_SET,
        promises::MCS_EXIT_3,
        promises::TICKET_EXIT_1,
        promises::TICKET_EXIT_2,
        sessions::BOUNDED,
    ] {
        if name_of(text) == name {
            return text;
        }
    }
    arrays_named(name)
}

/// Writes what another writer has written.
pub fn put_page(page: &[u8], text: &mut String) -> Result<(), Fail> {
    text.push_str(std::str::from_utf8(page)?)?;
    Ok(())
}

/// Writes the text of a schedule.
pub fn put_schedule(alloc: Global, schedule: &Schedule, text: &mut String) -> Result<(), Fail> {
    let written = write_schedule(alloc, schedule)?;
    put_page(written.as_slice(), text)
}

/// Writes why a replay or a drawing ended: a line that is refused, with its number and that of the refusal.
pub fn put_fault(fault: AlgorithmReplayFault, text: &mut String) -> Result<(), AllocError> {
    match fault {
        AlgorithmReplayFault::Refused { line, refusal } => {
            let number = refusal.number().unwrap_or(0);
            writeln!(text, "ended: refused {line} {number}")
        }
        AlgorithmReplayFault::Write => text.push_str("ended: write failed\n"),
        AlgorithmReplayFault::OutOfMemory => text.push_str("ended: out of memory\n"),
    }
}
