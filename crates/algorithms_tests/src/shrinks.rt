//! Schedules made least on algorithms, against the reference program: a schedule without a line, with a count lowered, and with
//! two lines of steps made one.

use crate::support::{put_fault, put_schedule, text_named};
use algorithm_hunts::shrink_algorithm_schedule;
use algorithm_texts::read_algorithm;
use schedule::read_schedule;
use std::alloc::Global;
use std::test::Fail;

/// Process 0 crashes inside, alone or with process 1, and both enter then: none of the lines can go. What the hunt of seed 2 finds in `one_word`: both read
/// the word before either sets it.
pub const LEAST: &str = "shrink schedules
== peterson
rme 1 procs 2 limit 1 cap 1
lock 0
step 0 3
crash 0
lock 0
lock 1
step 1 2
step 0 2
step 1 2
--
rme 1 procs 2 limit 1 cap 1
lock 0
step 0 3
crash 0
lock 0
lock 1
step 1 2
step 0 2
step 1 2
== peterson
rme 1 procs 2 limit 1 cap 1
lock 0
step 0 3
crash all
lock 0
lock 1
step 1 2
step 0 2
step 1 2
--
rme 1 procs 2 limit 1 cap 1
lock 0
step 0 3
crash all
lock 0
lock 1
step 1 2
step 0 2
step 1 2
== one_word
rme 1 procs 2 limit 1 cap 1
crash 1
lock 1
step 1
lock 0
step 0
step 0
step 1
--
rme 1 procs 2 limit 1 cap 1
lock 1
step 1
lock 0
step 0 2
step 1
== one_word
rme 1 procs 2 limit 1 cap 1
lock 1
step 1
lock 0
step 0 2
step 1
--
rme 1 procs 2 limit 1 cap 1
lock 1
step 1
lock 0
step 0 2
step 1
== peterson
rme 1 procs 2 limit 1 cap 1
lock 0
step 0 3
unlock 0
step 0
--
none
== peterson
rme 1 procs 2 limit 1 cap 1
lock 0
step 0 2
unlock 1
--
ended: refused 4 5
== peterson
rme 1 procs 3 limit 1 cap 1
lock 0
--
ended: refused 1 1
";

/// A schedule made least, as a case: the text.
pub fn put_least(
    alloc: Global,
    words: &[&str; 8],
    given: &str,
    text: &mut String,
) -> Result<(), Fail> {
    let schedule = read_schedule(alloc, given.as_bytes())?;
    let algorithm = read_algorithm(alloc, text_named(words[0]))?;
    let least = shrink_algorithm_schedule(alloc, algorithm, &schedule);
    drop(schedule);
    match &least {
        Ok(Some(least)) => put_schedule(alloc, least, text),
        Ok(None) => Ok(text.push_str("none\n")?),
        Err(fault) => Ok(put_fault(*fault, text)?),
    }
}
