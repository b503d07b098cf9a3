//! All tables, walked by one test. An empty line is between two tables. The first line of a table is what its rows speak of, and
//! its name. Then each line is a row, or a comment after `#`. A row that begins with `for 1 7: ` is played with each of these
//! numbers.

use super::phrase::{Phrase, place};
use super::{
    askings, cores, images, judges, machines, mailboxes, memory, own_steps, redo, torn, worlds,
};
use std::alloc::Global;
use test_support::text::cut;

/// What has no rows.
const CALLS: &str = "\
calls: of public functions
knows-no-word
bodies
numbers-of-refusals
indexes-are-held
content-needs-memory
beginnings";

/// Whether the calls with this name come to what they should.
fn are_answered(alloc: Global, name: &str) -> bool {
    let names =
        "knows-no-word|bodies|numbers-of-refusals|indexes-are-held|content-needs-memory|beginnings";
    match place(names, name) {
        Some(0) => machines::knows_no_word(),
        Some(1) => machines::bodies(),
        Some(2) => machines::numbers_of_refusals(alloc),
        Some(3) => mailboxes::indexes_are_held(),
        Some(4) => mailboxes::needs_memory(alloc),
        Some(_) => images::beginnings(alloc),
        None => false,
    }
}

/// Whether the row holds, played with this number.
fn holds(alloc: Global, kind: &str, row: &str, number: u64) -> bool {
    let kinds =
        "cores|worlds|judges|starts|memory|contents|tasks|jobs|images|texts|members|versions|plans|calls";
    let mut rest = row;
    let start = cut(&mut rest, ": ");
    let sizes = Phrase::read(start);
    match place(kinds, kind) {
        Some(0) => cores::holds(alloc, &sizes, rest),
        Some(1) => worlds::holds(alloc, &sizes, rest, number),
        Some(2) => judges::holds(alloc, &sizes, rest),
        Some(3) => judges::holds_from(alloc, start, rest),
        Some(4) => memory::holds(alloc, &sizes, rest, number),
        Some(5) => mailboxes::is_content(alloc, &sizes, rest),
        Some(6) => mailboxes::is_refused(row),
        Some(7) => mailboxes::is_job(row),
        Some(8) => images::holds(alloc, row),
        Some(9) => images::breaks_rule(alloc, "", row),
        Some(10) => images::breaks_rule(alloc, images::HEAD, row),
        Some(11) => images::is_rule(alloc, row),
        Some(12) => askings::holds(row),
        Some(_) => are_answered(alloc, row),
        None => false,
    }
}

/// The number with which the line does not hold. None: it holds with each of its numbers.
fn wrong_number(alloc: Global, kind: &str, line: &str) -> Option<u64> {
    let mut row = line;
    let numbers = Phrase::read(if line.starts_with("for ") {
        cut(&mut row, ": ")
    } else {
        "for 0 0"
    });
    for number in numbers.number(0)..numbers.number(1).saturating_add(1) {
        if !holds(alloc, kind, row, number) {
            return Some(number);
        }
    }
    None
}

/// The first row of the table that does not hold, and the number with which it does not.
fn wrong_row<'t>(alloc: Global, table: &'t str) -> Option<(&'t str, u64)> {
    let mut rest = table;
    let mut name = cut(&mut rest, "\n");
    let kind = cut(&mut name, ": ");
    for _ in 0..table.len() {
        if rest.is_empty() {
            break;
        }
        let line = cut(&mut rest, "\n");
        if line.starts_with("# ") {
            continue;
        }
        if let Some(number) = wrong_number(alloc, kind, line) {
            return Some((line, number));
        }
    }
    None
}

/// The tables of all files.
const TABLES: [&str; 10] = [
    askings::TABLES,
    cores::TABLES,
    own_steps::TABLES,
    worlds::TABLES,
    torn::TABLES,
    judges::TABLES,
    mailboxes::TABLES,
    redo::TABLES,
    images::TABLES,
    CALLS,
];

#[test]
fn each_row_holds(rt: HostRuntime) {
    for text in TABLES {
        for table in text.split("\n\n") {
            let wrong = wrong_row(rt.alloc(), table);
            assert!(rt; wrong.is_none(), "{wrong:?} in {table}");
        }
    }
}
