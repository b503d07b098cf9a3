//! Searches for a stuck state: how many moves a shortest schedule to one has, or how many states there are. After the text a case
//! has the sizes, how many crashes there may be, and which calls processes make.

use crate::support::searched;
use algorithm_explorer::{StuckOutcome, Unwatched, stuck_algorithm_schedule};
use std::alloc::Global;
use std::fmt::Write;
use std::test::Fail;

/// From each state all come home: these locks are free of deadlocks, and one recovers.
pub const NEVER: &str = "\
stuck never\n\
== peterson 2 1 0 lock-and-unlock\n--\n58 states\n\
== szymanski 2 1 0 lock-and-unlock\n--\n86 states\n\
== lamport_fast 2 1 0 lock-and-unlock\n--\n386 states\n\
== recoverable_peterson 2 1 any all\n--\n1342 states\n\
";

/// Nobody leaves; who has crashed waits for itself; and a number is needed above the limit.
pub const STUCK: &str = "\
stuck states\n\
== peterson 2 1 0 lock\n--\nstuck after 1 moves\n\
== one_word 1 1 1 lock-and-unlock\n--\nstuck after 4 moves\n\
== lamport_fast 2 1 1 lock-and-unlock\n--\nstuck after 6 moves\n\
== bakery_1974 2 1 0 lock-and-unlock\n--\nstuck after 6 moves\n\
== bakery_1974 2 3 0 lock-and-unlock\n--\nstuck after 24 moves\n\
";

/// A schedule that goes wrong comes first, and a world that there is not before all.
pub const WRONG: &str = "\
stuck after a fault\n\
== one_word 2 1 1 lock-and-unlock\n--\nfault after 6 moves\n\
== peterson 2 1 1 lock-and-unlock\n--\nfault after 13 moves\n\
== peterson 3 1 0 lock-and-unlock\n--\nthe algorithm is not for this number of processes\n\
";

/// A search, as a case: the text, the sizes, the crashes and the calls.
pub fn put_stuck(alloc: Global, words: &[&str; 8], text: &mut String) -> Result<(), Fail> {
    let search = searched(alloc, words)?;
    let found = stuck_algorithm_schedule(alloc, search, 100_000, &mut Unwatched);
    let written = match &found {
        Ok(StuckOutcome::Fault(moves)) => writeln!(text, "fault after {} moves", moves.len()),
        Ok(StuckOutcome::Stuck(moves)) => writeln!(text, "stuck after {} moves", moves.len()),
        Ok(StuckOutcome::NeverStuck(states)) => writeln!(text, "{states} states"),
        Err(fault) => writeln!(text, "{fault}"),
    };
    drop(found);
    Ok(written?)
}
