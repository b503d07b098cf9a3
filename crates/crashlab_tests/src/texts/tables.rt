//! The tables of rows, and a test that walks each of them.

use crate::texts::kit::{holds, replays};
use crate::texts::{
    crash_all, everything, lock, mailbox, refusals, shrinks, texts, traces, variants,
};
use std::alloc::Global;
use std::process::Abort;

const TABLES: [&str; 12] = [
    lock::ROWS,
    mailbox::ROWS,
    refusals::KINDS,
    refusals::ROWS,
    crash_all::REFUSED,
    variants::RIGHT,
    variants::RENUMBERED,
    variants::UNLOOKED,
    shrinks::ROWS,
    shrinks::NONE,
    traces::ROWS,
    texts::ROWS,
];

/// Fails the test at the first row of the table that does not hold.
fn walk(rt: &impl Abort, alloc: Global, table: &str) {
    let (names, rows) = table.split_once("\n").unwrap_or(("", table));
    for name in names.split(' ') {
        for row in rows.split("==\n") {
            assert!(rt; holds(alloc, name, row), "{name}: {row}");
        }
    }
}

/// Last the longest row, with a crash of each process, and with one of all.
#[test]
fn each_row_holds(rt: HostRuntime) {
    for table in TABLES {
        walk(&rt, rt.alloc(), table);
    }
    for schedule in [everything::SCHEDULE, crash_all::EVERYTHING] {
        let is_so = replays(rt.alloc(), None, schedule, everything::REPORT, None);
        assert!(rt; is_so, "64 processes");
    }
}
