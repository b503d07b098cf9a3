//! The worked rows on a simulated core. A script is like one for a world (`played`), without data words. `step 0 7 in` ends
//! with this answer of the core.

use super::phrase::{Phrase, found_of, is_refusal, place};
use super::played::are_words;
use rmecore::{Core, CoreDone, Happened, Kind, Outer, Refusal, Word};
use std::alloc::Global;
use test_support::text::cut;

/// The core's answer with this name.
fn done_of(name: &str) -> Option<CoreDone> {
    match place("in|in-again|spent|out|withdrawn", name) {
        Some(0) => Some(CoreDone::In),
        Some(1) => Some(CoreDone::InAgain),
        Some(2) => Some(CoreDone::Spent),
        Some(3) => Some(CoreDone::Out),
        Some(_) => Some(CoreDone::Withdrawn),
        None => Some(CoreDone::Found(found_of(name)?)),
    }
}

/// Whether the deed, if there is one, is the next of these deeds. Where they are `any`, it is.
fn is_reported(deeds: &mut &str, outer: Option<Outer>) -> bool {
    match outer {
        Some(outer) => { *deeds == "any" || Phrase::read(cut(deeds, "; ")).outer() == Some(outer) }
        None => true,
    }
}

/// Takes steps. True: the last one and no other has the wanted answer, and their deeds are the next of these deeds.
fn step(
    core: &mut Core,
    deeds: &mut &str,
    (p, count): (u64, u64),
    wanted: Option<CoreDone>,
) -> bool {
    for k in 0..count {
        let Ok(happened) = core.step(p) else {
            return false;
        };
        let is_last = k.saturating_add(1) == count;
        if happened.done != if is_last { wanted } else { None }
            || !is_reported(deeds, happened.outer)
        {
            return false;
        }
    }
    true
}

/// Starts a call. A word that is no call gives a refusal without a number.
fn start(core: &mut Core, phrase: &Phrase<'_>) -> Result<(), Refusal> {
    let p = phrase.number(0);
    match place("lock|recover|unlock|withdraw", phrase.word) {
        Some(0) => core.start_lock(p),
        Some(1) => core.start_recover(p),
        Some(2) => core.start_unlock(p),
        Some(_) => core.start_withdraw(p),
        None => Err(Refusal::OutOfMemory),
    }
}

/// The refusal of a call or a question.
fn refusal_of(core: &mut Core, phrase: &Phrase<'_>) -> Option<Refusal> {
    let p = phrase.number(0);
    match place("step|crash|words|steps|blocked|began", phrase.word) {
        Some(0) => core.step(p).err(),
        Some(1) => core.crash(p).err(),
        Some(2) => core.words(p).err(),
        Some(3) => core.steps(p).err(),
        Some(4) => core.blocked(p).err(),
        Some(_) => core.began(p).err(),
        None => start(core, phrase).err(),
    }
}

/// Whether a call or a question is refused with this number.
fn is_refused(core: &mut Core, asked: &str) -> bool {
    let mut line = asked;
    let number = cut(&mut line, " ").parse::<u64>().ok();
    match refusal_of(core, &Phrase::read(line)) {
        Some(refusal) => number.is_some() && refusal.number() == number,
        None => false,
    }
}

/// Whether a question has this answer, or a call is accepted.
fn is_so(core: &mut Core, phrase: &Phrase<'_>) -> bool {
    let p = phrase.number(0);
    match place("steps|blocked|words|began", phrase.word) {
        Some(0) => core.steps(p) == Ok(phrase.number(1)),
        Some(1) => core.blocked(p) == Ok(phrase.number(1)),
        Some(2) => are_words(core.words(p).ok(), phrase),
        Some(_) => are_words(core.began(p).ok(), phrase),
        None => start(core, phrase).is_ok(),
    }
}

/// Whether the next step of a process reads this value, as in `look 1 0 2`: process 1 looks at choosing of 0, and reads 2.
fn is_reading(core: &mut Core, phrase: &Phrase<'_>) -> bool {
    let of = phrase.number(1);
    let (kind, word) = if phrase.word == "look" {
        (Kind::Look, Word::Choosing(of))
    } else {
        (Kind::Weigh, Word::Number(of))
    };
    match core.step(phrase.number(0)) {
        Ok(happened) => {
            happened.kind == kind && happened.word == word && happened.value == phrase.number(2)
        }
        Err(_) => false,
    }
}

/// Plays a line. True: it has the result that the line says.
fn line(core: &mut Core, text: &str, deeds: &mut &str) -> bool {
    let phrase = Phrase::read(text);
    let p = phrase.number(0);
    match place("step|crash|refused|look|weigh", phrase.word) {
        Some(0) => {
            let wanted = done_of(phrase.rest);
            wanted.is_some() != phrase.rest.is_empty()
                && step(core, deeds, (p, phrase.number(1)), wanted)
        }
        Some(1) => is_reported(deeds, core.crash(p).ok()),
        Some(2) => is_refused(core, text.strip_prefix("refused ").unwrap_or("")),
        Some(_) => is_reading(core, &phrase),
        None => is_so(core, &phrase),
    }
}

/// Whether the script has the results that it says, and its deeds are those of the row.
fn is_played(core: &mut Core, row: &str) -> bool {
    let mut deeds = row;
    let mut rest = cut(&mut deeds, " | ");
    for _ in 0..row.len() {
        if rest.is_empty() {
            break;
        }
        if !line(core, cut(&mut rest, "; "), &mut deeds) {
            return false;
        }
    }
    deeds.is_empty() || deeds == "any"
}

/// A row on a new core: the number of processes and the limit, and then a script and its deeds, or the refusal of the sizes,
/// as `refused 1`.
pub fn holds(alloc: Global, sizes: &Phrase<'_>, rest: &str) -> bool {
    match Core::new(alloc, sizes.number(0), sizes.number(1)) {
        Ok(mut core) => is_played(&mut core, rest),
        Err(refusal) => is_refusal(refusal, rest),
    }
}

/// The worked rows on a core.
pub const TABLES: &str = "\
cores: lock rows
# smallest
sizes 1 10: lock 0; step 0 7 in; words 0 0 1 1 | begin 0; ready 0; enter 0
# first-steps
sizes 1 1: lock 0; step 0 1; step 0 3; words 0 1 0 0 | begin 0
# tie: both read 0 and take 1; the weigh of process 1 is blocked by (1, 0)
sizes 2 10: lock 0; lock 1; step 0 5; step 1 5; step 0 2; step 1 2; step 1 3; step 0 3 in; words 0 0 1 1; words 1 0 1 0; blocked 1 2 | begin 0; begin 1; ready 0; ready 1; enter 0
# dead-in-the-doorway: the look of process 0 is blocked until 1 restarts, takes 2 and shuts
sizes 2 10: lock 1; step 1 5; crash 1; lock 0; step 0 8; lock 1; step 1 6; step 0 3 in; words 1 0 2 0; blocked 0 1 | begin 1; crash 1; begin 0; ready 0; ready 1; enter 0
# between-two-words: 0 restarts with choosing and a number both set, shuts and enters; 1 stays blocked
sizes 2 10: lock 0; step 0 6; crash 0; lock 1; step 1 8; lock 0; step 0 7 in; step 1 4; words 0 0 1 1; words 1 0 2 0; began 0 1 1 0 | begin 0; ready 0; crash 0; begin 1; ready 1; enter 0
# re-entry
sizes 2 10: lock 0; step 0 10 in; lock 1; step 1 7; crash 0; step 1 3; lock 0; step 0 3 in-again; words 1 0 2 0 | begin 0; ready 0; enter 0; begin 1; ready 1; crash 0; reenter 0

cores: ends of waiting
# half-an-exit: the number is cleared, so the next process enters; the mark is left to the recovery
sizes 2 10: lock 0; step 0 10 in; lock 1; step 1 8; unlock 0; step 0 1; crash 0; step 1 2 in; recover 0; step 0 4 found left; words 0 0 0 0; words 1 0 2 1 | begin 0; ready 0; enter 0; begin 1; ready 1; leave 0; crash 0; enter 1
# number-limit
sizes 2 1: lock 0; step 0 10 in; lock 1; step 1 6 spent; unlock 0; step 0 2 out; lock 1; step 1 10 in; words 1 0 1 1 | begin 0; ready 0; enter 0; begin 1; quit 1; leave 0; begin 1; ready 1; enter 1
# withdraw-waiting
sizes 2 10: lock 0; step 0 7; lock 1; step 1 9; withdraw 0; step 0 1 withdrawn; step 1 2 in; words 0 0 0 0; words 1 0 2 1 | begin 0; ready 0; begin 1; ready 1; quit 0; enter 1
# withdraw-and-return
sizes 2 10: lock 0; step 0 10 in; lock 1; step 1 9; withdraw 1; step 1 1 withdrawn; lock 1; step 1 9; unlock 0; step 0 2 out; step 1 2 in; words 1 0 2 1; blocked 1 1; steps 1 11 | begin 0; ready 0; enter 0; begin 1; ready 1; quit 1; begin 1; ready 1; leave 0; enter 1

cores: looks first
# There is no weigh without a look: 1 waits for the process in its doorway, and then the tie decides.
sizes 2 10: lock 0; lock 1; step 0 5; step 1 6; step 1 4; step 0 5 in; blocked 1 3; look 1 0 0; weigh 1 0 1 | begin 0; begin 1; ready 1; ready 0; enter 0

cores: crash of everything
# All 64 processes crash. Their words are kept, and the locks go on from them.
sizes 64 100: lock 0; step 0 196 in; lock 1; step 1 69; crash 0; crash 1; crash 2; crash 3; crash 4; crash 5; crash 6; \
crash 7; crash 8; crash 9; crash 10; crash 11; crash 12; crash 13; crash 14; crash 15; crash 16; crash 17; crash 18; \
crash 19; crash 20; crash 21; crash 22; crash 23; crash 24; crash 25; crash 26; crash 27; crash 28; crash 29; crash \
30; crash 31; crash 32; crash 33; crash 34; crash 35; crash 36; crash 37; crash 38; crash 39; crash 40; crash 41; \
crash 42; crash 43; crash 44; crash 45; crash 46; crash 47; crash 48; crash 49; crash 50; crash 51; crash 52; crash \
53; crash 54; crash 55; crash 56; crash 57; crash 58; crash 59; crash 60; crash 61; crash 62; crash 63; words 0 0 1 1; \
words 1 0 2 0; words 63 0 0 0; lock 1; step 1 5; lock 0; step 0 3 in-again; blocked 1 1 | begin 0; ready 0; enter 0; \
begin 1; ready 1; crash 0; crash 1; crash 2; crash 3; crash 4; crash 5; crash 6; crash 7; crash 8; crash 9; crash 10; \
crash 11; crash 12; crash 13; crash 14; crash 15; crash 16; crash 17; crash 18; crash 19; crash 20; crash 21; crash \
22; crash 23; crash 24; crash 25; crash 26; crash 27; crash 28; crash 29; crash 30; crash 31; crash 32; crash 33; \
crash 34; crash 35; crash 36; crash 37; crash 38; crash 39; crash 40; crash 41; crash 42; crash 43; crash 44; crash \
45; crash 46; crash 47; crash 48; crash 49; crash 50; crash 51; crash 52; crash 53; crash 54; crash 55; crash 56; \
crash 57; crash 58; crash 59; crash 60; crash 61; crash 62; crash 63; reenter 0

cores: refused calls
# Refusals for a process that does not exist, and for a process at rest, in the doorway, waiting and inside. Any process
# may crash, also an idle or a crashed one. A crash ends the call under way.
sizes 2 10: refused 3 lock 2; refused 3 recover 2; refused 3 unlock 2; refused 3 withdraw 2; refused 3 step 2; refused 3 crash 2; refused 3 words 2; refused 3 steps 2; refused 3 blocked 2; refused 3 began 2
sizes 2 10: steps 0 0; blocked 0 0; began 0 0 0 0; refused 7 step 0; refused 5 unlock 0; refused 14 withdraw 0
sizes 2 10: crash 1; crash 1; lock 0; step 0 10 in; unlock 0; crash 0; refused 7 step 0; refused 5 unlock 0; words 0 0 1 1 | crash 1; crash 1; begin 0; ready 0; enter 0; crash 0

cores: out of place
# At each step of a lock another call is refused, a withdraw until it is waiting; then the same of a process that is
# inside.
sizes 2 10: lock 0; refused 4 lock 0; refused 4 recover 0; refused 4 unlock 0; refused 14 withdraw 0; step 0 1; \
refused 4 lock 0; refused 4 recover 0; refused 4 unlock 0; refused 14 withdraw 0; step 0 1; refused 4 lock 0; refused \
4 recover 0; refused 4 unlock 0; refused 14 withdraw 0; step 0 1; refused 4 lock 0; refused 4 recover 0; refused 4 \
unlock 0; refused 14 withdraw 0; step 0 1; refused 4 lock 0; refused 4 recover 0; refused 4 unlock 0; refused 14 \
withdraw 0; step 0 1; refused 4 lock 0; refused 4 recover 0; refused 4 unlock 0; refused 14 withdraw 0; step 0 1; \
refused 4 lock 0; refused 4 recover 0; refused 4 unlock 0; refused 14 withdraw 0; step 0 1; refused 4 lock 0; refused \
4 recover 0; refused 4 unlock 0; step 0 1; refused 4 lock 0; refused 4 recover 0; refused 4 unlock 0; step 0 1; \
refused 4 lock 0; refused 4 recover 0; refused 4 unlock 0; step 0 1 in; refused 6 lock 0; refused 6 recover 0; refused \
14 withdraw 0; refused 7 step 0 | begin 0; ready 0; enter 0

cores: refused sizes
sizes 0 0: refused 1
sizes 65 10: refused 1
sizes 64 0: refused 2
sizes 1 4611686018427387905: refused 2
sizes 64 4611686018427387904: lock 0";
