//! Texts that are faulty, and texts that are written as they were read.

use redomail::Reply;
use rmecore::Found;
use rmeworld::Answer;
use schedule::TextFault;
use schedule::lines::answer::{put_answer, put_deed};
use schedule::texts::device::{Page, write_all};
use schedule::texts::trace::{Trace, read_trace};
use std::alloc::Global;

/// Schedules that are written as they were read, and texts with a fault.
pub const ROWS: &str = "\
schedule
schedules
rme 2 procs 2 limit 10 cap 1 width 2
lock 0
unlock 1
consistent 0
recover 1
append 0 1 5 18446744073709551615
close 0
put 0 1 7
get 0 3
withdraw 1
step 0
step 0 1000000
crash 1
crash all
==
schedules
rme 1 procs 0 limit 0 cap 0
==
text 1 1
==
text 2 5
rme 1 procs 2 limit 10 cap 1
lock 0==
text 2 2
rme 1 procs 2 limit 10 cap 1
lok 0
==
text 2 3
rme 1 procs 2 limit 10 cap 1
lock 01
==
text 2 3
rme 1 procs 2 limit 10 cap 1
lock
==
text 2 3
rme 1 procs 2 limit 10 cap 1
step 0 1
==
text 2 4
rme 1 procs 2 limit 10 cap 1
append 0 1 18446744073709551616
==
text 2 4
rme 1 procs 2 limit 10 cap 1
step 0 1000001
==
text 2 6
rme 1 procs 2 limit 10 cap 1
lock 0 0
==
text 2 6
rme 1 procs 2 limit 10 cap 1
lock 0\x20
==
text 2 3
rme 1 procs 2 limit 10 cap 1
step 0\x20
==
text 1 6
rme 1 procs 2 limit 10 cap 1 width 2
==
text 1 1
rme 2 procs 2 limit 10 cap 1
==
text 1 3
rme 2 procs 2 limit 10 cap 1 width 1
==
text 1 4
rme 2 procs 2 limit 10 cap 1 width 9
==
text 1 1
rme 3 procs 2 limit 10 cap 1
==
text 1 1
rme 1 procs x limit 10 cop 1
==
text 1 3
rme 1 procs 2 limit 10 cap
==
text 1 5
rme 1 procs 2 limit 10 cap 1==
text 2 2
rme 1 procs 2 limit 10 cap 1

==
text 2 3
rme 1 procs 2 limit 10 cap 1
lock  0
==
text 2 3
rme 1 procs 2 limit 10 cap 1
lock 0\r
==
text 2 3
rme 1 procs 2 limit 10 cap 1
crash alle
==
text 2 3
rme 1 procs 2 limit 10 cap 1
crash  all
==
text 2 6
rme 1 procs 2 limit 10 cap 1
crash all 0
==
text 2 6
rme 1 procs 2 limit 10 cap 1
crash all\x20
==
text 2 5
rme 1 procs 2 limit 10 cap 1
crash all";

/// Whether the trace has nine deeds, and is written as this text.
fn is_written(alloc: Global, trace: &Trace, text: &[u8]) -> bool {
    let mut out = Vec::new(alloc);
    let mut fits = out.extend_from_slice(b"trace 1 procs 2 cap 1\n").is_ok();
    for deed in trace.deeds() {
        fits = fits && put_deed(&mut out, deed).is_ok();
    }
    fits && trace.deeds().len() == 9 && out.as_slice() == text
}

/// Whether three answers are written as this text, and a page that takes all of it has it.
fn are_written(alloc: Global, text: &[u8]) -> bool {
    let mut out = Vec::new(alloc);
    let mut page = Page::new(alloc);
    put_answer(&mut out, 0, Answer::Clean).is_ok()
        && put_answer(&mut out, 1, Answer::Found(Found::Doorway)).is_ok()
        && put_answer(&mut out, 2, Answer::Mail(Reply::Word(7))).is_ok()
        && out.as_slice() == text
        && write_all(&mut page, text).is_ok()
        && page.as_slice() == text
}

#[test]
fn traces_and_answers(rt: HostRuntime) {
    let alloc = rt.alloc();
    let text =
        b"trace 1 procs 2 cap 1\nbegin 0\nready 0\nbegin 1\nready 1\nquit 0\ncommit 0 1 5\nshow 0 0 1 5\nclose 1\nruin 1\n";
    let is_so = match read_trace(alloc, text) {
        Ok(trace) => is_written(alloc, &trace, text),
        Err(_) => false,
    };
    assert!(rt; is_so);
    let faulty = b"trace 1 procs 2 cap 1\nbegin 0\nready 0\nbegin 1\nready 1\nenter 1\nentr 1\n";
    let fault = read_trace(alloc, faulty).err();
    assert!(rt; fault == Some(TextFault::At { line: 7, number: 2 }));
    let text = b"answer 0 clean\nanswer 1 found doorway\nanswer 2 word 7\n";
    assert!(rt; are_written(alloc, text));
}
