//! A worked schedule cut off after each of its lines, with the whole report of what is left.

use crate::texts::devices::{REPORT, TORN, writes_fail};
use schedule::{Page, Text, Verdict, replay};
use std::alloc::Global;

const AT_FIRST: &[u8] = b"words 0 0 0 0
mail 0 closed 0 ruined 0
verdict fine
";

const INSIDE: &[u8] = b"words 0 0 1 1
mail 0 closed 0 ruined 0
verdict fine
";

const SHOWN: &[u8] = b"words 0 0 1 1
mail 1 closed 0 ruined 0
message 0 0 1 77
verdict fine
";

/// For each number of lines, from one on, the number of deeds and answers that they make.
const TOLD: &str = "0 0 4 4 5 6 6 8 8 10 10 11";

/// The first `lines` lines of a text.
fn front(text: &[u8], lines: u64) -> &[u8] {
    let mut taken = 0usize;
    let mut ended = 0u64;
    for byte in text {
        if ended >= lines {
            break;
        }
        taken = taken.saturating_add(1);
        if *byte == b'\n' {
            ended = ended.saturating_add(1);
        }
    }
    text.get(..taken).unwrap_or(text)
}

/// Whether the first `lines` lines give the first `reports` lines of the report and the end of it, also where a write fails.
fn is_cut_off(alloc: Global, lines: u64, reports: u64) -> bool {
    let end = match lines {
        1 | 2 => AT_FIRST,
        3..=9 => INSIDE,
        _ => SHOWN,
    };
    let schedule = front(TORN, lines);
    let mut page = Page::new(alloc);
    let answer = replay(alloc, &mut Text::new(schedule, 7), &mut page);
    answer == Ok(Verdict::Fine)
        && page.as_slice().strip_prefix(front(REPORT, reports)) == Some(end)
        && writes_fail(alloc, schedule, page.as_slice())
}

#[test]
fn reports_of_beginnings(rt: HostRuntime) {
    let mut lines = 0u64;
    for reports in TOLD.split(' ') {
        lines = lines.saturating_add(1);
        let reports = reports.parse::<u64>().unwrap_or(u64::MAX);
        assert!(rt; is_cut_off(rt.alloc(), lines, reports), "{lines} lines");
    }
    assert!(rt; front(TORN, lines) == TORN);
}
