//! Lists of deeds for a judge, and starts. A deed that is refused has its fault after it, as in `enter 1 overtaken 1 0`.

use super::phrase::{Phrase, is_refusal, place};
use judge::{Ahead, Judge, Messages, Phases, Start};
use redomail::Message;
use rmecore::{Fault, Phase};
use std::alloc::{AllocError, Global};
use test_support::text::cut;

/// The fault with this name and these processes.
fn fault_of(text: &str) -> Option<Fault> {
    let phrase = Phrase::read(text);
    let names = "out-of-place|two-inside|not-reentered|overtaken|not-inside|mail-order|after-close";
    match place(names, phrase.word)? {
        0 => Some(Fault::OutOfPlace),
        1 => Some(Fault::TwoInside),
        2 => Some(Fault::NotReentered),
        3 => Some(Fault::Overtaken {
            by: phrase.number(0),
            of: phrase.number(1),
        }),
        4 => Some(Fault::NotInside),
        5 => Some(Fault::MailOrder),
        _ => Some(Fault::AfterClose),
    }
}

/// Feeds a deed. True: it is refused with its fault, or accepted if it has none.
fn feed(judge: &mut Judge, text: &str) -> bool {
    let phrase = Phrase::read(text);
    let fault = fault_of(phrase.rest);
    match phrase.deed() {
        Some(deed) => {
            fault.is_some() != phrase.rest.is_empty() && judge.feed(deed).err() == fault
        }
        None => false,
    }
}

/// Whether the deeds are judged as they say.
fn are_judged(judge: &mut Judge, deeds: &str) -> bool {
    let mut rest = deeds;
    for _ in 0..deeds.len() {
        if rest.is_empty() {
            break;
        }
        if !feed(judge, cut(&mut rest, "; ")) {
            return false;
        }
    }
    true
}

/// A row on a new judge: the number of processes, the capacity and, if not 1, the most processes inside; and then deeds, or the
/// refusal of the sizes, as `refused 8`.
pub fn holds(alloc: Global, sizes: &Phrase<'_>, rest: &str) -> bool {
    let (procs, cap) = (sizes.number(0), sizes.number(1));
    let judge = match sizes.numbers(2).first() {
        Some(most_inside) => Judge::of_exclusion(alloc, *most_inside, procs, cap),
        None => Judge::new(alloc, procs, cap),
    };
    match judge {
        Ok(mut judge) => are_judged(&mut judge, rest),
        Err(refusal) => is_refusal(refusal, rest),
    }
}

/// A start, read from a text. `sizes 3 2` comes first. Then a line for each process has its phase and the processes ahead of
/// it, as in `ready 0 1`. `lone out` is a phase without a set, `set 1` a set without a phase. `shown` and `pending` have a
/// message. `closed` and `ruined` have no value.
#[derive(Drop)]
struct Parts {
    procs: u64,
    cap: u64,
    phases: Vec<Phase>,
    ahead: Vec<Vec<u64>>,
    shown: Vec<Message>,
    pending: Option<Message>,
    closed: bool,
    ruined: bool,
}

fn phase_of(name: &str) -> Option<Phase> {
    match place("out|door|ready|inside|dead-in", name)? {
        0 => Some(Phase::Out),
        1 => Some(Phase::Door),
        2 => Some(Phase::Ready),
        3 => Some(Phase::Inside),
        _ => Some(Phase::DeadIn),
    }
}

impl Parts {
    fn add_phase(&mut self, name: &str) -> Result<(), AllocError> {
        if let Some(phase) = phase_of(name) {
            self.phases.push(phase)?;
        }
        Ok(())
    }

    fn add_set(&mut self, alloc: Global, names: &[u64]) -> Result<(), AllocError> {
        let names = Vec::from_slice(alloc, names)?;
        match self.ahead.push(names) {
            Ok(()) => Ok(()),
            Err(_) => Err(AllocError),
        }
    }

    /// Adds what a line says.
    fn add(&mut self, alloc: Global, phrase: &Phrase<'_>) -> Result<(), AllocError> {
        match place("sizes|pending|closed|ruined|shown|lone", phrase.word) {
            Some(0) => {
                self.procs = phrase.number(0);
                self.cap = phrase.number(1);
            }
            Some(1) => self.pending = phrase.message(),
            Some(2) => self.closed = true,
            Some(3) => self.ruined = true,
            Some(4) => {
                if let Some(message) = phrase.message() {
                    self.shown.push(message)?;
                }
            }
            Some(_) => return self.add_phase(phrase.rest),
            None => {
                self.add_phase(phrase.word)?;
                return self.add_set(alloc, phrase.numbers(0));
            }
        }
        Ok(())
    }

    fn add_all(&mut self, alloc: Global, text: &str) -> Result<(), AllocError> {
        let mut rest = text;
        for _ in 0..text.len() {
            if rest.is_empty() {
                break;
            }
            self.add(alloc, &Phrase::read(cut(&mut rest, "; ")))?;
        }
        Ok(())
    }
}

/// The start in a text.
pub fn start_of(alloc: Global, text: &str) -> Result<Start, AllocError> {
    let mut parts = Parts {
        procs: 0,
        cap: 0,
        phases: Vec::new(alloc),
        ahead: Vec::new(alloc),
        shown: Vec::new(alloc),
        pending: None,
        closed: false,
        ruined: false,
    };
    parts.add_all(alloc, text)?;
    Ok(Start {
        procs: parts.procs,
        cap: parts.cap,
        phases: Phases::new(parts.phases),
        ahead: Ahead::new(parts.ahead),
        shown: Messages::new(parts.shown),
        pending: parts.pending,
        closed: parts.closed,
        ruined: parts.ruined,
    })
}

/// Whether a judge from this start judges the deeds as they say, or is refused as the row says.
fn goes_on(alloc: Global, start: &Start, rest: &str) -> bool {
    match Judge::from_start(alloc, start) {
        Ok(mut judge) => are_judged(&mut judge, rest),
        Err(refusal) => is_refusal(refusal, rest),
    }
}

/// A row on a judge from a start: the start, and then deeds, or the refusal of the start.
pub fn holds_from(alloc: Global, start: &str, rest: &str) -> bool {
    match start_of(alloc, start) {
        Ok(start) => goes_on(alloc, &start, rest),
        Err(_) => false,
    }
}

/// Lists of deeds, and starts.
pub const TABLES: &str = "\
judges: worked lists
# 0 is ready before 1 begins, so 1 can't enter first
sizes 2 2: begin 0; ready 0; begin 1; ready 1; enter 1 overtaken 1 0
sizes 2 2: begin 0; ready 0; begin 1; ready 1; enter 0
# no process is inside, so nothing can be committed
sizes 1 2: commit 0 1 5 not-inside
# after 0 has withdrawn, 1 waits for no process
sizes 2 2: begin 0; ready 0; begin 1; ready 1; quit 0; enter 1
sizes 2 2: begin 0; quit 0; begin 1; ready 1; enter 1
# 0 leaves or quits before 1 enters
sizes 2 2: begin 0; ready 0; begin 1; ready 1; enter 0; leave 0; enter 1
# 0 is in the doorway again, so 1 enters first
sizes 2 2: begin 0; ready 0; begin 1; ready 1; quit 0; begin 0; ready 0; enter 0 overtaken 0 1
# a message is committed and shown; no process leaves while a message is pending, unless the lock is ruined
sizes 1 2: begin 0; ready 0; enter 0; commit 0 1 7 8; show 0 0 1 7 8; leave 0
sizes 1 2: begin 0; ready 0; enter 0; commit 0 1 7 8; leave 0 mail-order
sizes 1 2: begin 0; ready 0; enter 0; commit 0 1 7 8; ruin 0; leave 0
# the message shown is the one committed, in its width too; a process that crashed inside shows it later
sizes 1 2: begin 0; ready 0; enter 0; commit 0 1 7 8; show 0 0 1 7 mail-order
sizes 1 2: begin 0; ready 0; enter 0; commit 0 1 7; crash 0; reenter 0; show 0 0 1 7; close 0; leave 0

judges: each fault
# Each fault, for the first and for the last process. A process that does not exist has no deed, not even a crash. If
# two processes are ahead, the lesser is named.
sizes 64 2: ready 0 out-of-place
sizes 64 2: ready 63 out-of-place
sizes 64 2: begin 0; ready 0; begin 63; ready 63; enter 0; leave 0; begin 0; ready 0; enter 63; enter 0 two-inside
sizes 64 2: begin 63; ready 63; begin 0; ready 0; enter 63; leave 63; begin 63; ready 63; enter 0; enter 63 two-inside
sizes 64 2: begin 63; ready 63; begin 0; ready 0; enter 63; crash 63; enter 0 not-reentered
sizes 64 2: begin 0; ready 0; begin 63; ready 63; enter 0; crash 0; enter 63 not-reentered
sizes 64 2: begin 63; ready 63; begin 0; ready 0; enter 0 overtaken 0 63
sizes 64 2: begin 0; ready 0; begin 63; ready 63; enter 63 overtaken 63 0
sizes 64 2: begin 0; ready 0; close 0 not-inside
sizes 64 2: begin 63; ready 63; close 63 not-inside
sizes 64 2: begin 0; ready 0; enter 0; commit 0 2 5 mail-order
sizes 64 2: begin 63; ready 63; enter 63; commit 63 2 5 mail-order
sizes 64 2: begin 0; ready 0; enter 0; close 0; commit 0 1 5 after-close
sizes 64 2: begin 63; ready 63; enter 63; close 63; commit 63 1 5 after-close
sizes 64 2: crash 64 out-of-place
sizes 64 2: begin 40; ready 40; begin 9; ready 9; begin 63; ready 63; enter 63 overtaken 63 9

judges: two inside
# A third can't enter, one that crashed inside counts, and the order of entries is the same.
sizes 3 2 2: begin 0; ready 0; begin 1; ready 1; begin 2; ready 2; enter 0; enter 1; enter 2 two-inside; leave 0; enter 2
sizes 3 2 2: begin 0; ready 0; enter 0; begin 1; ready 1; enter 1; crash 0; begin 2; ready 2; enter 2 not-reentered; leave 1; enter 2; reenter 0
sizes 3 2 2: begin 0; ready 0; begin 1; ready 1; enter 1 overtaken 1 0
# with one it is mutual exclusion, with none nobody enters
sizes 2 2 1: begin 0; ready 0; enter 0; begin 1; ready 1; enter 1 two-inside
sizes 2 2 1: begin 0; ready 0; enter 0; crash 0; begin 1; ready 1; enter 1 not-reentered
sizes 2 2 0: begin 0; ready 0; enter 0 two-inside
sizes 0 2 2: refused 1
sizes 2 0 2: refused 8

judges: limits
sizes 0 0: refused 1
sizes 65 1: refused 1
sizes 64 0: refused 8
sizes 1 65537: refused 8
sizes 64 65536: begin 0
sizes 1 1: begin 0

starts: refusals
# the refusals in order
sizes 0 0; inside: refused 1
sizes 65 2; inside: refused 1
sizes 1 0; inside: refused 8
sizes 1 65537; inside: refused 8
sizes 1 2; inside: refused 11
# a process may be ahead of itself, two may be ahead of each other, a process that is out may have a set, and a
# message may be pending in a ruined lock
sizes 3 2; out 2; ready 2 1; ready 1; pending 0 1 7; ruined
# two processes dead in
sizes 3 2; dead-in; out; dead-in: refused 11
# too few phases, and too few sets
sizes 2 2; out; set: refused 11
sizes 2 2; out; lone out: refused 11
# a process in a set that is not ready, or does not exist
sizes 2 2; door 1; ready 1 0: refused 11
sizes 2 2; door 1; ready 1 2: refused 11
sizes 2 2; door 1; ready 1 64: refused 11
sizes 2 2; door 1; ready 1 18446744073709551615: refused 11

starts: messages
sizes 1 2; out; shown 0 1 7; shown 0 2 7
# a number is missing, or occurs twice
sizes 1 2; out; shown 0 2 7: refused 11
sizes 1 2; out; shown 0 1 7; shown 0 1 7: refused 11
# no such sender
sizes 1 2; out; shown 1 1 7: refused 11
# more messages than the capacity
sizes 1 2; out; shown 0 1 7; shown 0 2 7; shown 0 3 7: refused 11
# the pending message does not have its sender's next number
sizes 1 2; out; shown 0 1 7; pending 0 1 7: refused 11
sizes 1 2; out; shown 0 1 7; pending 0 3 7: refused 11
sizes 1 2; out; shown 0 1 7; pending 1 1 7: refused 11
# no room for the pending message
sizes 1 2; out; shown 0 1 7; shown 0 2 7; pending 0 3 7: refused 11
sizes 1 2; out; shown 0 1 7; pending 0 2 7
# pending in a closed mailbox
sizes 1 2; out; shown 0 1 7; pending 0 2 7; closed: refused 11

starts: going on
# From a start with 0 dead in and its message pending, and 1 ready and ahead of 2. At the end two messages are shown,
# and the capacity is two.
sizes 3 2; dead-in 1 1; ready; ready 1; shown 1 1 5; pending 0 1 7: enter 2 not-reentered; reenter 0; leave 0 mail-order; show 0 1 1 7; leave 0; enter 2 overtaken 2 1; enter 1; leave 1; enter 2; commit 2 1 9 mail-order";
