//! Searches of the jugs, and of two processes that take a lock by test and set.

use crate::search::cases::number;
use crate::search::jugs::{Jugs, Pour};
use crate::search::spins::Spin;
use explorer::{
    SearchFault, SearchOutcome, StarvingOutcome, Unwatched, Watch, find_starving, find_stuck,
    search, search_in_parallel,
};
use std::alloc::Global;
use std::fmt::Write;
use std::test::Fail;
use std::thread::Threads;

/// The litres, and the most moves and states. Four litres take six moves. Seven are nowhere among the 16 states. Two moves lead to
/// 6 of these, and five to 12.
pub const SEARCHES: &str = "\
== 4 6 16
Ok(Path([FillBig, BigToSmall, EmptySmall, BigToSmall, FillBig, BigToSmall]))
== 4 5 16
Ok(NoneWithin)
== 4 0 16
Ok(NoneWithin)
== 7 100 16
Ok(Nowhere(16))
== 7 8 16
Ok(Nowhere(16))
== 7 7 16
Ok(NoneWithin)
== 7 100 15
Err(TooManyStates)
== 7 2 6
Ok(NoneWithin)
== 7 2 5
Err(TooManyStates)
== 4 5 12
Ok(NoneWithin)
";

/// What is in the small jug, the litres, 1 where emptying a jug is a crash, and the most states. Where nothing may be spilt, a litre
/// that is in a jug stays in the jugs. A fault is answered before a stuck state, also where the path to it is longer.
pub const STUCK: &str = "\
== 0 7 0 16
Ok(NeverStuck(16))
== 0 7 0 15
Err(TooManyStates)
== 0 7 1 16
Ok(Stuck([FillSmall]))
== 1 7 1 16
Ok(Stuck([]))
== 0 4 1 16
Ok(Fault([FillBig, BigToSmall, EmptySmall, BigToSmall, FillBig, BigToSmall]))
";

/// The place of the second process, and the most states. It takes the lock again and again, and each try of the first meets it
/// inside. Nobody starves alone.
pub const SPINS: &str = "\
== 0 1000
0 starves: 1 move, then again and again 5
== 4 4
Ok(NeverStarving(4))
== 4 3
Err(TooManyStates)
";

/// A search from empty jugs, as a case.
pub fn put_search(alloc: Global, words: &[&str; 8], text: &mut String) -> Result<(), Fail> {
    let [wanted, moves, states, ..] = words;
    let start = Jugs::empty(number(wanted));
    let found = search(alloc, start, number(moves), number(states), &mut Unwatched);
    let written = writeln!(text, "{found:?}");
    drop(found);
    Ok(written?)
}

/// A search for jugs from which no pouring leads to empty jugs, as a case.
pub fn put_stuck(alloc: Global, words: &[&str; 8], text: &mut String) -> Result<(), Fail> {
    let [small, wanted, spills, states, ..] = words;
    let start = Jugs {
        small: number(small),
        big: 0,
        wanted: number(wanted),
        spills: number(spills),
    };
    let found = find_stuck(alloc, start, number(states), &mut Unwatched);
    let written = writeln!(text, "{found:?}");
    drop(found);
    Ok(written?)
}

/// A search for a process that starves, as a case.
pub fn put_starving(alloc: Global, words: &[&str; 8], text: &mut String) -> Result<(), Fail> {
    let [second, states, ..] = words;
    let start = Spin {
        held: 0,
        first: 0,
        second: number(second),
    };
    let found = find_starving(alloc, start, false, number(states), &mut Unwatched);
    let written = match &found {
        Ok(StarvingOutcome::Starving(lasso)) => writeln!(
            text,
            "{} starves: {} move, then again and again {}",
            lasso.process,
            lasso.stem.len(),
            lasso.cycle.len()
        ),
        _ => writeln!(text, "{found:?}"),
    };
    drop(found);
    Ok(written?)
}

/// The answer of a search by this many threads.
fn answer_by(
    rt: &(impl Threads + Sync),
    alloc: Global,
    threads: usize,
    wanted: u64,
    most_moves: u64,
    most_states: u64,
) -> Result<SearchOutcome<Pour>, SearchFault> {
    let jobs = vec![in alloc; Jugs::empty(wanted); threads.min(64)]?;
    let start = Jugs::empty(wanted);
    search_in_parallel(
        rt,
        alloc,
        start,
        jobs,
        most_moves,
        most_states,
        &mut Unwatched,
    )
}

/// At each bound of states and of moves, threads find what one search does.
#[test]
fn any_number_of_threads_answers_the_same_at_the_bounds(rt: HostRuntime) {
    for wanted in [1, 2, 4, 5, 7] {
        for most_moves in 0..10 {
            for most_states in 0..18 {
                for threads in [1, 2, 3, 7] {
                    let found = answer_by(
                        &rt,
                        rt.alloc(),
                        threads,
                        wanted,
                        most_moves,
                        most_states,
                    );
                    let start = Jugs::empty(wanted);
                    let is_same = found
                        == search(rt.alloc(), start, most_moves, most_states, &mut Unwatched);
                    drop(found);
                    assert!(rt; is_same, "{wanted} {most_moves} {most_states} {threads}");
                }
            }
        }
    }
}

/// What a search showed its watcher: how many states, the sum of the moves to them, and the first and the last call.
#[derive(Drop)]
struct Report {
    times: u64,
    moves: u64,
    first: (u64, u64),
    last: (u64, u64),
}

impl Watch for Report {
    fn see(&mut self, moves: u64, states: u64) {
        if self.times == 0 {
            self.first = (moves, states);
        }
        self.times = self.times.saturating_add(1);
        self.moves = self.moves.saturating_add(moves);
        self.last = (moves, states);
    }
}

/// The levels have 1, 2, 3, 2, 2, 2, 2 and 2 states.
#[test]
fn each_state_is_reported_once(rt: HostRuntime) {
    let mut reports = Report {
        times: 0,
        moves: 0,
        first: (0, 0),
        last: (0, 0),
    };
    let is_nowhere = search(rt.alloc(), Jugs::empty(7), 100, 16, &mut reports)
        == Ok(SearchOutcome::Nowhere(16));
    assert!(rt; is_nowhere);
    assert!(rt; reports.times == 16 && reports.moves == 58);
    assert!(rt; reports.first == (0, 1) && reports.last == (7, 16));
}
