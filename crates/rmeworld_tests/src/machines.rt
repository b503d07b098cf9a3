//! The state machine of one process, bodies, and the numbers and texts of refusals.

use rmecore::{Access, Body, CoreCall, Kind, LockProcess, Outer, Refusal, Word};
use std::alloc::Global;

/// Rereads three zeros, up to the doorway.
fn rereads(process: &mut LockProcess) -> bool {
    for word in [Word::Choosing(1), Word::Number(1), Word::Inside(1)] {
        if process.next() != Some(Access::Load(Kind::Reread, word)) {
            return false;
        }
        process.feed(0);
    }
    true
}

/// Whether the process begins its doorway, and takes the number after the one that it reads.
fn takes_five(process: &mut LockProcess) -> bool {
    if process.outlook(0).outer != Some(Outer::Begin(1))
        || process.feed(0).outer != Some(Outer::Begin(1))
    {
        return false;
    }
    process.feed(4);
    if process.next() != Some(Access::Store(Kind::Take, Word::Number(1), 5)) {
        return false;
    }
    process.feed(0);
    process.number() == Some(5)
}

/// A process that a test feeds with values.
pub fn knows_no_word() -> bool {
    let mut process = LockProcess::new(2, 10, 1);
    let is_led = process.next().is_none()
        && process.refusal(CoreCall::Unlock) == Some(Refusal::NotOwner)
        && process.start(CoreCall::Lock).is_ok()
        && process.call() == Some(CoreCall::Lock)
        && rereads(&mut process)
        && takes_five(&mut process);
    process.crash();
    is_led && process.next().is_none() && process.refusal(CoreCall::Lock).is_none()
}

const WORDS: [u64; 9] = [7, 8, 9, 10, 11, 12, 13, 14, 15];

/// Whether the body has this width, and its last word is the right one.
fn is_body(body: &Body, width: u64) -> bool {
    body.width() == width
        && body.word(width.saturating_sub(1)) == Ok(width.saturating_add(6))
        && body.word(width) == Err(Refusal::BadIndex)
}

pub fn bodies() -> bool {
    for width in 1..9u64 {
        let is_so = match Body::new(&WORDS[..width as usize]) {
            Ok(body) => is_body(&body, width),
            Err(_) => false,
        };
        if !is_so {
            return false;
        }
    }
    let two = Body::new(&[7, 8]);
    Body::new(&[]) == Err(Refusal::BadWidth)
        && Body::new(&WORDS) == Err(Refusal::BadWidth)
        && two.is_ok()
        && Body::new(&[7, 8]) == two
        && Body::new(&[7]) != two
        && Body::new(&[7, 0]) != Body::new(&[7])
}

fn is_shown(alloc: Global, refusal: Refusal, wanted: &str) -> bool {
    match format!(in alloc; "{refusal}") {
        Ok(text) => text.as_str() == wanted,
        Err(_) => false,
    }
}

pub fn numbers_of_refusals(alloc: Global) -> bool {
    let refusals = [
        Refusal::BadProcs,
        Refusal::BadLimit,
        Refusal::NoSuchProcess,
        Refusal::CallUnderWay,
        Refusal::NotOwner,
        Refusal::AlreadyIn,
        Refusal::NothingToDo,
        Refusal::BadCap,
        Refusal::BadImage { rule: 2 },
        Refusal::NotInconsistent,
        Refusal::BadShape,
        Refusal::Unmended,
        Refusal::BadIndex,
        Refusal::NotWaiting,
        Refusal::BadWidth,
    ];
    let mut number = 0u64;
    for refusal in refusals {
        number = number.saturating_add(1);
        if refusal.number() != Some(number) {
            return false;
        }
    }
    let broken = Refusal::BadImage { rule: 2 };
    Refusal::OutOfMemory.number().is_none() && is_shown(alloc, broken, "the image breaks rule 2")
}
