//! Traces, whole and in pieces.

use crate::texts::kit::{early, judges};
use judge::Judge;
use redomail::Deed;
use rmecore::{Body, Fault, Outer};
use schedule::Verdict;
use schedule::texts::trace::{TraceHead, read_trace};
use std::alloc::Global;

const OVERTAKEN: &[u8] = b"trace 1 procs 2 cap 1
begin 0
ready 0
begin 1
ready 1
enter 1
";

const IN_ORDER: &[u8] = b"trace 1 procs 2 cap 1
begin 0
ready 0
begin 1
ready 1
enter 0
";

const COMMITTED: &[u8] = b"trace 1 procs 1 cap 1
commit 0 1 5
";

const WITHDRAWN: &[u8] = b"trace 1 procs 2 cap 1
begin 0
ready 0
begin 1
ready 1
quit 0
enter 1
";

/// A fault of the text comes first.
pub const ROWS: &str = "\
trace
text 7 2
trace 1 procs 2 cap 1
begin 0
ready 0
begin 1
ready 1
enter 1
entr 1
==
text 3 3
trace 1 procs 65 cap 1
begin 0
begin 01
==
sizes 1 1
trace 1 procs 65 cap 1
begin 0
==
sizes 1 8
trace 1 procs 2 cap 65537
==
text 2 5
trace 1 procs 2 cap 1
begin==
text 1 1
==
text 1 3
trace 2 procs 1 cap 1 width 1
";

/// The verdict on the deeds: the first that the judge refuses, counted from 1.
fn verdict_on(judge: &mut Judge, deeds: &[Deed]) -> Verdict {
    let mut at = 0u64;
    for deed in deeds {
        at = at.saturating_add(1);
        if let Err(fault) = judge.feed(*deed) {
            return Verdict::Against { at, fault };
        }
    }
    Verdict::Fine
}

const BOTH_WAIT: [Deed; 4] = [
    Deed::Outer(Outer::Begin(0)),
    Deed::Outer(Outer::Ready(0)),
    Deed::Outer(Outer::Begin(1)),
    Deed::Outer(Outer::Ready(1)),
];

/// Whether the text is read as these deeds of this many processes, one after another, and a judge that is fed them has this
/// verdict. The text has it too.
fn reads(
    alloc: Global,
    text: &[u8],
    procs: u64,
    (first, then): (&[Deed], &[Deed]),
    verdict: Verdict,
) -> bool {
    let head = TraceHead {
        procs,
        cap: 1,
        width: 1,
    };
    let is_read = match (read_trace(alloc, text), Judge::new(alloc, procs, 1)) {
        (Ok(trace), Ok(mut judge)) => {
            trace.head() == head
                && trace.deeds().strip_prefix(first) == Some(then)
                && verdict_on(&mut judge, trace.deeds()) == verdict
        }
        _ => false,
    };
    is_read && judges(alloc, text, verdict, None)
}

/// The traces of the worked rows, as deeds. Of each beginning of one: the verdict on its whole lines, or the fault of the line that
/// is cut off.
#[test]
fn traces_as_deeds(rt: HostRuntime) {
    let alloc = rt.alloc();
    let Ok(v) = Body::new(&[5]) else {
        panic!(rt; "no value")
    };
    let committed = [Deed::Commit { p: 0, seq: 1, v }];
    let second = [Deed::Outer(Outer::Enter(1))];
    let first = [Deed::Outer(Outer::Enter(0))];
    let withdrawn = [Deed::Outer(Outer::Quit(0)), Deed::Outer(Outer::Enter(1))];
    let overtaken = Verdict::Against {
        at: 5,
        fault: Fault::Overtaken { by: 1, of: 0 },
    };
    let outside = Verdict::Against {
        at: 1,
        fault: Fault::NotInside,
    };
    assert!(rt; reads(alloc, OVERTAKEN, 2, (&BOTH_WAIT, &second), overtaken));
    assert!(rt; reads(alloc, IN_ORDER, 2, (&BOTH_WAIT, &first), Verdict::Fine));
    assert!(rt; reads(alloc, WITHDRAWN, 2, (&BOTH_WAIT, &withdrawn), Verdict::Fine));
    assert!(rt; reads(alloc, COMMITTED, 1, (&committed, &[]), outside));
    for end in 0..WITHDRAWN.len() {
        let text = &WITHDRAWN[..end];
        assert!(rt;
            judges(alloc, text, Verdict::Fine, early(text)),
            "{end} bytes"
        );
    }
}
