//! Hunts on algorithms. What the hunt of a seed finds was found with the reference program and the drawing rule.

use crate::support::{number, put_schedule, text_named};
use algorithm_hunts::{AlgorithmHuntFault, RandomMoves, Unwatched, hunt_algorithm_schedule};
use algorithm_texts::read_algorithm;
use schedule::Schedule;
use std::alloc::Global;
use std::fmt::Write;
use std::test::Fail;

/// What hunts find: after the text the number of processes, the limit, the seed, the rounds and their steps. After `lines` they are
/// only counted. Last is how many of 1,000 moves are crashes of all.
pub const HUNTS: &str = "hunt by a seed
== one_word 2 1 2 20 1000
--
rme 1 procs 2 limit 1 cap 1
crash 1
lock 1
step 1
lock 0
step 0
step 0
step 1
== peterson 2 1 1 20 1000
--
rme 1 procs 2 limit 1 cap 1
lock 0
step 0
step 0
step 0
lock 1
step 1
step 1
crash 0
step 1
step 1
step 1
step 1
step 1
step 1
step 1
step 1
lock 0
step 0
step 1
step 0
step 1
== no_look 2 1 2 20 1000 lines
--
208 lines
== no_ties 2 1 1 20 1000 lines
--
213 lines
== renumber 2 3 1 20 1000 lines
--
68 lines
== exit_on_crash 1 1 1 20 1000 lines
--
25 lines
== bakery 2 1 1 20 1000
--
none
== recoverable_peterson 2 1 1 3 200
--
none
== one_word 2 1 2 1 7
--
none
== one_word 2 1 2 20 1000 whole 50
--
rme 1 procs 2 limit 1 cap 1
crash all
crash 1
lock 1
step 1
crash all
crash all
crash 1
crash all
lock 1
lock 0
step 0
step 1
step 0
step 1
== one_word 2 1 5 20 1000 whole 100
--
rme 1 procs 2 limit 1 cap 1
crash all
crash all
lock 1
crash all
crash all
crash all
lock 0
step 0
lock 1
step 1
step 0
step 1
== one_word 2 1 4 20 1000 lines 300
--
6 lines
== one_word 2 1 1 20 1000 whole 300
--
none
== one_word 2 1 1 20 1000 whole 1000
--
none
== recoverable_peterson 2 1 1 3 200 whole 50
--
none
== peterson 2 1 2 20 1000 lines
--
302 lines
== peterson 2 1 1 0 0
--
bad rounds
== peterson 2 1 1 10001 0
--
bad rounds
== peterson 2 1 1 1 0
--
bad steps
== peterson 2 1 1 1 10001
--
bad steps
== peterson 3 1 1 1 1
--
the algorithm is not for this number of processes
";

/// Writes what a hunt answers: a schedule, or how many lines it has.
fn put_answer(
    alloc: Global,
    found: &Result<Option<Schedule>, AlgorithmHuntFault>,
    counted: bool,
    text: &mut String,
) -> Result<(), Fail> {
    match found {
        Ok(Some(found)) if counted => Ok(writeln!(text, "{} lines", found.lines().len())?),
        Ok(Some(found)) => put_schedule(alloc, found, text),
        Ok(None) => Ok(text.push_str("none\n")?),
        Err(fault) => Ok(writeln!(text, "{fault}")?),
    }
}

/// A hunt, as a case: the text, the sizes, the seed, the rounds, their steps, the form and the crashes of all.
pub fn put_hunt(alloc: Global, words: &[&str; 8], text: &mut String) -> Result<(), Fail> {
    let algorithm = read_algorithm(alloc, text_named(words[0]))?;
    let [_, procs, limit, seed, rounds, steps, form, system_crashes] = words;
    let asked = RandomMoves {
        seed: number(seed),
        steps: number(steps),
        system_crashes: system_crashes.parse().unwrap_or(0),
    };
    let found = hunt_algorithm_schedule(
        alloc,
        algorithm,
        number(procs),
        number(limit),
        asked,
        number(rounds),
        &mut Unwatched,
    );
    put_answer(alloc, &found, *form == "lines", text)
}

#[test]
fn the_same_seed(rt: HostRuntime) -> Result<(), Fail> {
    let words = ["peterson", "2", "1", "2", "20", "1000", "", ""];
    let mut first = String::new(rt.alloc());
    put_hunt(rt.alloc(), &words, &mut first)?;
    let mut second = String::new(rt.alloc());
    put_hunt(rt.alloc(), &words, &mut second)?;
    assert!(rt; first.as_str() == second.as_str());
    Ok(())
}
