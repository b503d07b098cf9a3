//! Searches for a process that starves, against the numbers of the reference program: the process, how many moves the stem and the
//! cycle have, or how many worlds there are. After the text a case has the sizes, the crashes, the calls beside lock and unlock, and
//! `any` where anybody may give up.

use crate::support::searched;
use algorithm_explorer::{StarvingOutcome, Unwatched, starving_algorithm_schedule};
use std::alloc::Global;
use std::fmt::Write;
use std::test::Fail;

pub const NOBODY: &str = "\
starve nobody\n\
== peterson 2 1 0 none\n--\n58 worlds\n\
== recoverable_peterson 2 1 0 none\n--\n116 worlds\n\
== dekker 2 1 0 none\n--\n134 worlds\n\
== szymanski 2 1 0 none\n--\n86 worlds\n\
== szymanski 3 1 0 none\n--\n1791 worlds\n\
== bakery 2 3 0 none\n--\n527 worlds\n\
== no_look 2 3 0 none\n--\n547 worlds\n\
== peterson 2 1 1 none\n--\n266 worlds\n\
== recoverable_peterson 2 1 1 none\n--\n432 worlds\n\
== recoverable_peterson 2 1 2 withdraw\n--\n1194 worlds\n\
== dekker 2 1 1 none\n--\n382 worlds\n\
== szymanski 2 1 1 none\n--\n360 worlds\n\
== bakery 2 3 1 none\n--\n2790 worlds\n\
";

pub const SOMEBODY: &str = "\
starve somebody\n\
== burns 2 1 0 none\n--\n1 starves, stem 1, cycle 8\n\
== burns 3 1 0 none\n--\n1 starves, stem 1, cycle 9\n\
== no_turn 2 1 0 none\n--\n0 starves, stem 4, cycle 2\n\
== lamport_fast 2 1 0 none\n--\n0 starves, stem 1, cycle 14\n\
== one_word 2 1 0 none\n--\n0 starves, stem 1, cycle 6\n\
== burns 2 1 1 none\n--\n1 starves, stem 1, cycle 8\n\
== no_turn 2 1 1 none\n--\n0 starves, stem 4, cycle 2\n\
== lamport_fast 2 1 1 none\n--\n0 starves, stem 11, cycle 1\n\
== one_word 2 1 1 none\n--\n0 starves, stem 5, cycle 1\n\
";

/// Whose step is refused for a value out of range goes on as one that waits.
pub const REFUSED: &str = "\
starve at a bound\n\
== bakery_1974 2 3 0 none\n--\n0 starves, stem 26, cycle 2\n\
== bakery_1974 2 3 1 none\n--\n0 starves, stem 22, cycle 2\n\
== unlinked_mcs 2 1 0 none\n--\n0 starves, stem 12, cycle 2\n\
== mcs_no_wait 2 1 0 none\n--\n0 starves, stem 12, cycle 2\n\
";

/// Of the Bakery a process starves only where another gives up: it is out of numbers, or it withdraws or recovers.
pub const QUITTERS: &str = "\
starve beside quitters\n\
== bakery 2 1 0 none\n--\n193 worlds\n\
== bakery 2 1 0 none any\n--\n0 starves, stem 8, cycle 8\n\
== bakery 2 3 0 none any\n--\n0 starves, stem 36, cycle 8\n\
== bakery 2 2 0 withdraw\n--\n415 worlds\n\
== bakery 2 2 0 withdraw any\n--\n0 starves, stem 8, cycle 11\n\
== peterson 2 1 0 none any\n--\n58 worlds\n\
";

/// Of a text that promises deadlock freedom alone a process starves only where nobody enters.
pub const PROMISED: &str = "\
starve against a promise\n\
== free_test_and_set 2 1 0 none\n--\n12 worlds\n\
== fair_test_and_set 2 1 0 none\n--\n0 starves, stem 1, cycle 5\n\
== crossed_flags 2 1 0 none\n--\n0 starves, stem 4, cycle 2\n\
";

pub const AT_LENGTH: &str = "\
starve at length\n\
== bakery 2 4 1 recover\n--\n7048 worlds\n\
== bakery 2 4 1 recover any\n--\n0 starves, stem 15, cycle 5\n\
";

/// A search, as a case: the text, the sizes, the crashes, the calls, and who may give up.
pub fn put_starving(alloc: Global, words: &[&str; 8], text: &mut String) -> Result<(), Fail> {
    let any = words[5] == "any";
    let search = searched(alloc, words)?;
    let found = starving_algorithm_schedule(alloc, search, any, 100_000, &mut Unwatched);
    let written = match &found {
        Ok(StarvingOutcome::Fault(moves)) => writeln!(text, "fault after {} moves", moves.len()),
        Ok(StarvingOutcome::Starving(lasso)) => writeln!(
            text,
            "{} starves, stem {}, cycle {}",
            lasso.process,
            lasso.stem.len(),
            lasso.cycle.len()
        ),
        Ok(StarvingOutcome::NeverStarving(states)) => writeln!(text, "{states} worlds"),
        Err(fault) => writeln!(text, "{fault}"),
    };
    drop(found);
    Ok(written?)
}
