//! Searches of algorithms, against the numbers of the reference program's `explore`: how many moves a shortest schedule has, or
//! how many states there are, with the moves left out. After the text a case has the sizes, how many crashes there may be, of a process
//! alone and after a plus of all, and whether processes make all calls.

use crate::support::searched;
use algorithm_explorer::{
    AlgorithmBounds, AlgorithmOutcome, LeftOut, SearchOutcome, Unwatched,
    shortest_algorithm_schedule,
};
use std::alloc::{AllocError, Global};
use std::fmt::Write;
use std::test::Fail;

pub const VARIANTS: &str = "\
search wrong bakeries\n\
== no_look 2 1 0\n--\n20 moves\n\
== no_ties 2 1 0\n--\n22 moves\n\
== renumber 2 2 1\n--\n2460 states\n\
== renumber 2 3 1\n--\n26 moves\n\
== exit_on_crash 1 1 1\n--\n16 moves\n\
";

pub const BAKERIES: &str = "\
search bakeries\n\
== bakery_ruin 2 1 0\n--\n259 states\n\
== bakery_ruin 2 2 0\n--\n461 states\n\
== bakery_ruin 2 3 0\n--\n693 states\n\
== bakery_ruin 2 4 0\n--\n925 states\n\
== bakery_ruin 2 1 1\n--\n2057 states\n\
== bakery_ruin 2 2 1\n--\n3741 states\n\
== bakery 2 4 0\n--\n833 states\n\
== bakery 2 2 1\n--\n2206 states\n\
";

pub const LARGER: &str = "\
search bakeries with more numbers\n\
== bakery_ruin 2 3 1\n--\n5699 states\n\
== bakery_ruin 2 4 1\n--\n7657 states\n\
";

pub const FOR_THREE: &str = "search the bakery for three\n== bakery_ruin 3 1 0\n--\n9145 states\n";

pub const OTHERS: &str = "\
search other algorithms\n\
== peterson 2 1 0\n--\n58 states\n\
== peterson 2 1 1\n--\n13 moves\n\
== peterson 3 1 0\n--\nthe algorithm is not for this number of processes\n\
== recoverable_peterson 2 1 any all\n--\n1342 states\n\
== szymanski 2 1 0\n--\n86 states\n\
== szymanski 2 1 1\n--\n22 moves\n\
== lamport_fast 2 1 0\n--\n386 states\n\
== lamport_fast 2 1 1\n--\n1286 states\n\
== forgetful_peterson 2 1 0\n--\n108 states\n\
== forgetful_peterson 2 1 1\n--\n16 moves\n\
== peterson_order 2 1 any\n--\n188 states\n\
== one_word 2 1 0\n--\n6 moves\n\
== bakery_1974 2 4 0\n--\n449 states, 26 moves left out from line 16\n\
== bakery_1974 2 1 1\n--\n358 states, 79 moves left out from line 16\n\
";

pub const WITH_SYSTEM_CRASHES: &str = "\
search with crashes of all\n\
== bakery_ruin 2 1 0+1\n--\n2925 states\n\
== bakery_ruin 2 2 0+1\n--\n5393 states\n\
== recoverable_peterson 2 1 0+1\n--\n618 states\n\
== recoverable_peterson 2 1 1+1\n--\n1512 states\n\
== recoverable_peterson 2 1 0+2\n--\n1098 states\n\
== szymanski 2 1 0+1\n--\n325 states\n\
== lamport_fast 2 1 0+1\n--\n1032 states\n\
== forgetful_peterson 2 1 0+1\n--\n16 moves\n\
== peterson 2 1 0+1\n--\n13 moves\n\
";

const BOUNDS: AlgorithmBounds = AlgorithmBounds {
    moves: 1000,
    states: 100_000,
};

/// What a search has found.
fn put_found(text: &mut String, found: &AlgorithmOutcome) -> Result<(), AllocError> {
    match (&found.outcome, found.left_out) {
        (SearchOutcome::Path(moves), _) => writeln!(text, "{} moves", moves.len()),
        (SearchOutcome::NoneWithin, _) => text.push_str("none within\n"),
        (SearchOutcome::Nowhere(states), None) => writeln!(text, "{states} states"),
        (SearchOutcome::Nowhere(states), Some(LeftOut { moves, line })) => writeln!(
            text,
            "{states} states, {moves} moves left out from line {line}"
        ),
    }
}

/// A search, as a case: the text, the sizes, the crashes and the calls.
pub fn put_search(alloc: Global, words: &[&str; 8], text: &mut String) -> Result<(), Fail> {
    let search = searched(alloc, words)?;
    let found = shortest_algorithm_schedule(alloc, search, &BOUNDS, &mut Unwatched);
    let written = match &found {
        Ok(found) => put_found(text, found),
        Err(fault) => writeln!(text, "{fault}"),
    };
    drop(found);
    Ok(written?)
}
