//! The lab over the running lock, and that over the plain reference: workers that crash, that are refused, and that meet at
//! an asking.

use crate::support::gated::{WorkerProgress, add_gates, have_reported};
use crate::support::messages::{are, are_all_sent};
use crate::support::noting::{ALONE, Noting};
use crate::support::text::{number, place};
use crash_plans::{Never, Seeded};
use redomail::Reply;
use std::alloc::Global;
use std::process::Abort;
use std::sync::Wait;
use std::thread::Threads;
use table_runs::LockFault;
use table_runs::lab::{Gate, LabFault, LabResult, Spec};
use test_support::text::cut;

/// Which lab.
#[derive(Clone, Copy, Debug)]
enum Lab {
    Plain,
    Running,
}

const BOTH: [Lab; 2] = [Lab::Plain, Lab::Running];

/// Runs this lab.
fn run<G: Gate + Send + Drop, R: Threads + Wait + Sync>(
    rt: &R,
    alloc: Global,
    lab: Lab,
    spec: Spec,
    gates: Vec<G>,
) -> Result<LabResult, LabFault> {
    match lab {
        Lab::Plain => one_lock::run_lab(rt, alloc, spec, gates),
        Lab::Running => robust::run_lab(rt, alloc, spec, gates),
    }
}

/// The fault of this text, as in `spent 1`.
fn fault_of(text: &str) -> Option<LabFault> {
    let mut rest = text;
    match place("spent|full|bad-spec", cut(&mut rest, " "))? {
        0 => Some(LabFault::Member {
            p: number(&mut rest),
            fault: LockFault::NumbersSpent,
        }),
        1 => Some(LabFault::Reply {
            p: number(&mut rest),
            reply: Reply::Full,
        }),
        _ => Some(LabFault::BadSpec),
    }
}

/// Whether a lab comes to what the text says: `sent 0 1 1; 1 1 1000001` are all its messages, and after `fine` it has any.
fn comes_to(ended: Result<LabResult, LabFault>, wanted: &str) -> bool {
    match ended {
        Ok(result) => match wanted.strip_prefix("sent ") {
            Some(messages) => are(result.messages.as_slice(), messages),
            None => wanted == "fine",
        },
        Err(fault) => fault_of(wanted) == Some(fault),
    }
}

/// A row of the number of workers, the limit and the capacity, of what holds each worker and what it reports, and of what the lab
/// comes to. Each worker sends one message of one word. No gate gives up.
fn is_met<R: Threads + Wait + Sync>(rt: &R, alloc: Global, lab: Lab, row: &str) -> bool {
    let mut wanted = row;
    let mut sizes = cut(&mut wanted, " | ");
    let holds = cut(&mut wanted, " | ");
    let spec = Spec {
        procs: number(&mut sizes),
        messages: 1,
        limit: number(&mut sizes),
        cap: number(&mut sizes),
        width: 1,
    };
    let mut workers = Vec::new(alloc);
    let mut gates = Vec::new(alloc);
    let are_made = WorkerProgress::add(alloc, spec.procs, &mut workers).is_ok()
        && add_gates(holds, workers.as_slice(), &mut gates).is_ok();
    let ended = run(rt, alloc, lab, spec, gates);
    are_made && comes_to(ended, wanted) && have_reported(workers.as_slice(), holds)
}

/// A worker's part of a row: the asking at which it is held, 0 for none; until which asking, or which answer, of which other
/// worker; its last answer, 0 for none; and its askings in the end, at least and at most, where a dash is no bound.
const HELD: &str = "\
# both_at_once: worker 1 comes while worker 0 is inside, which goes on once worker 1 is at its asking 20
2 10 2 | 12 asking 20 1 1 27 27; 1 asking 12 0 1 20 - | sent 0 1 1; 1 1 1000001
# numbers_spent
2 1 2 | 12 asking 7 1 1 27 27; 1 asking 12 0 0 7 7 | spent 1
# two_workers_at_once: the other worker waits for one at its first asking
2 10 2 | 1 answer 1 1 1 27 27; 0 answer 1 0 1 27 27 | sent 1 1 1000001; 0 1 1
2 10 2 | 0 answer 1 1 1 27 27; 1 answer 1 0 1 27 27 | sent 0 1 1; 1 1 1000001
# numbers_enough
2 2 2 | 12 asking 20 1 1 27 27; 1 asking 12 0 1 20 - | sent 0 1 1; 1 1 1000001
2 1 2 | 1 answer 1 1 1 27 27; 0 answer 1 0 1 27 27 | sent 1 1 1000001; 0 1 1
2 1 2 | 0 answer 1 1 1 27 27; 1 answer 1 0 1 27 27 | sent 0 1 1; 1 1 1000001
# the least of two that are refused: one of three stores its message, and the others come after one another; there is room for one
3 10 1 | 1 answer 1 1 1 1 -; 1 answer 1 2 1 1 -; 0 answer 1 2 1 1 - | full 0
3 10 1 | 1 answer 1 2 1 1 -; 1 answer 1 0 1 1 -; 0 answer 1 2 1 1 - | full 0
3 10 1 | 1 answer 1 2 1 1 -; 0 answer 1 1 1 1 -; 1 answer 1 1 1 1 - | full 0
3 10 1 | 1 answer 1 1 1 1 -; 0 answer 1 1 1 1 -; 1 answer 1 0 1 1 - | full 0
3 10 1 | 0 answer 1 0 1 1 -; 1 answer 1 2 1 1 -; 1 answer 1 0 1 1 - | full 1
3 10 1 | 0 answer 1 0 1 1 -; 1 answer 1 0 1 1 -; 1 answer 1 1 1 1 - | full 1
# the least of two without numbers: the first of an order is held inside, at its asking 15, until the others have come after one
# another, each up to its asking 8, where it finds the limit reached
3 1 3 | 15 asking 8 2 1 15 -; 1 asking 15 0 0 8 8; 1 asking 8 1 0 8 8 | spent 1
3 1 3 | 15 asking 8 1 1 15 -; 1 asking 8 2 0 8 8; 1 asking 15 0 0 8 8 | spent 1
3 1 3 | 1 asking 15 1 0 8 8; 15 asking 8 2 1 15 -; 1 asking 8 0 0 8 8 | spent 0
3 1 3 | 1 asking 8 2 0 8 8; 15 asking 8 0 1 15 -; 1 asking 15 1 0 8 8 | spent 0
3 1 3 | 1 asking 15 2 0 8 8; 1 asking 8 0 0 8 8; 15 asking 8 1 1 15 - | spent 0
3 1 3 | 1 asking 8 1 0 8 8; 1 asking 15 2 0 8 8; 15 asking 8 0 1 15 - | spent 0";

/// Fails the test at the first row that does not hold on this lab.
fn each_is_met<R: Abort + Threads + Wait + Sync>(rt: &R, alloc: Global, lab: Lab) {
    let mut rest = HELD;
    for _ in 0..HELD.len() {
        if rest.is_empty() {
            break;
        }
        let row = cut(&mut rest, "\n");
        assert!(rt;
            row.starts_with("# ") || is_met(rt, alloc, lab, row),
            "{lab:?}: {row}"
        );
    }
}

#[test]
fn workers_that_meet(rt: HostRuntime) {
    for lab in BOTH {
        each_is_met(&rt, rt.alloc(), lab);
    }
}

/// Whether the messages of this lab are all that its workers had to send.
fn are_sent(spec: Spec, ended: Result<LabResult, LabFault>) -> bool {
    match ended {
        Ok(result) => are_all_sent(spec, result.messages.as_slice()),
        Err(_) => false,
    }
}

/// Whether a gate notes the answers that it should.
fn tells<R: Threads + Wait + Sync>(rt: &R, alloc: Global, lab: Lab) -> bool {
    let Ok((gate, notes)) = Noting::new(alloc) else {
        return false;
    };
    let mut gates = Vec::new(alloc);
    let is_made = gates.push(gate).is_ok();
    is_made && are_sent(ALONE, run(rt, alloc, lab, ALONE, gates)) && notes.are_right()
}

#[test]
fn answers_reported(rt: HostRuntime) {
    for lab in BOTH {
        assert!(rt; tells(&rt, rt.alloc(), lab), "{lab:?}");
    }
}

/// A row of sizes and a number of gates, and what such a lab comes to.
fn is_spec<R: Threads + Wait + Sync>(rt: &R, alloc: Global, lab: Lab, row: &str) -> bool {
    let mut wanted = row;
    let mut sizes = cut(&mut wanted, ": ");
    let spec = Spec {
        procs: number(&mut sizes),
        messages: number(&mut sizes),
        limit: number(&mut sizes),
        cap: number(&mut sizes),
        width: number(&mut sizes),
    };
    let mut gates = Vec::new(alloc);
    let mut are_made = true;
    for _ in 0..number(&mut sizes) {
        are_made = gates.push(Never::new()).is_ok() && are_made;
    }
    are_made && comes_to(run(rt, alloc, lab, spec, gates), wanted)
}

const SPECS: &str = "\
# a_full_mailbox
1 2 10 1 1 1: full 0
# bad specs
0 1 1 1 1 0: bad-spec
65 1 1 1 1 65: bad-spec
1 0 1 1 1 1: bad-spec
1 4097 1 1 1 1: bad-spec
1 1 0 1 1 1: bad-spec
1 1 4611686018427387905 1 1 1: bad-spec
1 1 1 0 1 1: bad-spec
1 1 1 65537 1 1: bad-spec
1 1 1 1 0 1: bad-spec
1 1 1 1 9 1: bad-spec
2 1 1 1 1 1: bad-spec
1 1 1 1 1 2: bad-spec
1 1 1 1 1 1: fine";

#[test]
fn specs(rt: HostRuntime) {
    for lab in BOTH {
        for row in SPECS.split('\n') {
            let holds = row.starts_with("# ") || is_spec(&rt, rt.alloc(), lab, row);
            assert!(rt; holds, "{lab:?}: {row}");
        }
    }
}

/// Whether a lab with this many workers sends all, where each crashes at 20 of 1,000 askings.
fn sends_all<R: Threads + Wait + Sync>(
    rt: &R,
    alloc: Global,
    lab: Lab,
    procs: u64,
    width: u64,
) -> bool {
    let spec = Spec {
        procs,
        messages: 50,
        limit: 1 << 62,
        cap: procs.saturating_mul(50),
        width,
    };
    let mut gates = Vec::new(alloc);
    let mut are_made = true;
    for p in 0..procs {
        are_made = gates.push(Seeded::new(p.saturating_add(7), 20)).is_ok() && are_made;
    }
    are_made && are_sent(spec, run(rt, alloc, lab, spec, gates))
}

#[test]
fn lab_run(rt: HostRuntime) {
    for (procs, width) in [(1, 1), (4, 1), (4, 8), (8, 1), (8, 8)] {
        for lab in BOTH {
            assert!(rt;
                sends_all(&rt, rt.alloc(), lab, procs, width),
                "{lab:?}, {procs}, {width}"
            );
        }
    }
}
