//! Cases as texts. The first line of each begins with `== `, and has numbers and names. Under it, up to `--`, stands what is given,
//! and then what comes of it.

use crate::search::{jug_searches, jug_sets, schedules, worlds};
use lock_explorer::CrashCounts;
use std::alloc::Global;
use std::test::Fail;

/// What is done in a case.
#[derive(Clone, Copy)]
pub enum Kind {
    /// A search for a number of litres.
    Jugs,
    /// A search for stuck jugs.
    StuckJugs,
    /// A search for a process that starves by test and set.
    Spin,
    /// Whether a set of jugs is closed, as far as a part goes.
    Closed,
    /// Whether it is, each line of it as a block.
    Blocks,
    /// The states that moves lead to.
    Successors,
    /// The sets in a text.
    Sets,
    /// Those states from which a move leads into a set.
    Predecessors,
    /// A walk through sets.
    Walk,
    /// A search of a variant for a shortest schedule.
    Schedule,
    /// A search of the lock for a stuck state.
    Stuck,
    /// A search of the lock for a process that starves.
    Starving,
}

/// The words of a line, and empty ones after them.
fn words(line: &str) -> [&str; 8] {
    let mut all = [""; 8];
    let mut parts = line.split(' ');
    for at in 0..8 {
        if let Some(word) = parts.next() {
            all[at] = word;
        }
    }
    all
}

/// The number that a word spells. Where it spells none, no case expects what comes of it.
pub fn number(word: &str) -> u64 {
    word.parse().unwrap_or(u64::MAX)
}

/// The numbers of crashes that a word spells: of one process, and after `+` of all.
pub fn crashes_in(word: &str) -> CrashCounts {
    let (alone, together) = word.split_once('+').unwrap_or((word, "0"));
    CrashCounts {
        alone: number(alone),
        together: number(together),
    }
}

/// Does what the words say with what is given, and writes what comes of it.
fn put_outcome(
    alloc: Global,
    kind: Kind,
    words: &[&str; 8],
    given: &str,
    text: &mut String,
) -> Result<(), Fail> {
    match kind {
        Kind::Jugs => jug_searches::put_search(alloc, words, text),
        Kind::StuckJugs => jug_searches::put_stuck(alloc, words, text),
        Kind::Spin => jug_searches::put_starving(alloc, words, text),
        Kind::Closed => jug_sets::put_closed(alloc, words, given, text),
        Kind::Blocks => jug_sets::put_closed_by_blocks(alloc, words, given, text),
        Kind::Successors => jug_sets::put_successors(alloc, given, text),
        Kind::Sets => jug_sets::put_sets(alloc, given, text),
        Kind::Predecessors => jug_sets::put_predecessors_of(alloc, words, given, text),
        Kind::Walk => jug_sets::put_walk(alloc, given, text),
        Kind::Schedule => schedules::put_shortest(alloc, words, text),
        Kind::Stuck => worlds::put_stuck(alloc, words, text),
        Kind::Starving => worlds::put_starving(alloc, words, text),
    }
}

/// Compares what comes of each case of a table with what it says, by a text to write on.
fn compare_on(
    alloc: Global,
    table: &str,
    kind: Kind,
    cases: &str,
    text: &mut String,
) -> Result<(), Fail> {
    let cases = cases.strip_prefix("== ").ok_or("no case")?;
    for part in cases.split("== ") {
        let (head, body) = part.split_once('\n').unwrap_or((part, ""));
        let (given, expected) = body.split_once("--\n").unwrap_or(("", body));
        text.clear();
        put_outcome(alloc, kind, &words(head), given, text)?;
        if text.as_str() != expected {
            return Err(Fail::new(format_args!("{table}: {part}but this comes of it:\n{text}")));
        }
    }
    Ok(())
}

/// Compares what comes of each case of a table with what it says. Where something else comes of one, the failure has both.
pub fn compare_cases(alloc: Global, table: &str, kind: Kind, cases: &str) -> Result<(), Fail> {
    let mut text = String::new(alloc);
    compare_on(alloc, table, kind, cases, &mut text)
}

#[test]
fn jugs_and_test_and_set(rt: HostRuntime) -> Result<(), Fail> {
    for (table, kind, cases) in [
        ("searches", Kind::Jugs, jug_searches::SEARCHES),
        ("stuck jugs", Kind::StuckJugs, jug_searches::STUCK),
        ("test and set", Kind::Spin, jug_searches::SPINS),
        ("closed sets", Kind::Closed, jug_sets::CLOSED),
        ("blocks", Kind::Blocks, jug_sets::BLOCKS),
        ("successors", Kind::Successors, jug_sets::SUCCESSORS),
        ("sets of a text", Kind::Sets, jug_sets::SETS),
        ("predecessors", Kind::Predecessors, jug_sets::PREDECESSORS),
        ("walks", Kind::Walk, jug_sets::WALKS),
    ] {
        compare_cases(rt.alloc(), table, kind, cases)?;
    }
    assert!(rt; jug_sets::begins_right(rt.alloc()) == Some(true));
    Ok(())
}

#[test]
fn shortest_schedules(rt: HostRuntime) -> Result<(), Fail> {
    for (table, kind, cases) in [
        ("shortest schedules", Kind::Schedule, schedules::SHORTEST),
        ("bounds", Kind::Schedule, schedules::BOUNDS),
    ] {
        compare_cases(rt.alloc(), table, kind, cases)?;
    }
    Ok(())
}

#[test]
fn stuck_and_starving_worlds(rt: HostRuntime) -> Result<(), Fail> {
    for (table, kind, cases) in [
        ("stuck worlds", Kind::Stuck, worlds::STUCK),
        ("starving worlds", Kind::Starving, worlds::STARVING),
    ] {
        compare_cases(rt.alloc(), table, kind, cases)?;
    }
    Ok(())
}
