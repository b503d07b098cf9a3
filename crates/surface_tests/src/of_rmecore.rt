//! The items of `rmecore`.

ghost use Rattle.std.specs.Prelude.{◌≡◌};
ghost use Rattle.rmecore.specs.Refused.{number_of};

use rmecore::{Body, Core, CoreDone, Found, Happened, Kind, Outer, Own, Refusal, Word};
use std::alloc::Global;

pub fn new(
    alloc: Global,
    procs: u64,
    limit: u64,
    words: &[u64],
) -> (Result<Core, Refusal>, Result<Body, Refusal>) {
    (Core::new(alloc, procs, limit), Body::new(words))
}

pub fn moves(
    core: &mut Core,
    p: u64,
) -> (
    [Result<(), Refusal>; 4],
    Result<Happened, Refusal>,
    Result<Outer, Refusal>,
) {
    let starts = [
        core.start_lock(p),
        core.start_recover(p),
        core.start_unlock(p),
        core.start_withdraw(p),
    ];
    (starts, core.step(p), core.crash(p))
}

pub fn last_call(
    core: &Core,
    p: u64,
) -> (
    Result<Own, Refusal>,
    Result<u64, Refusal>,
    Result<u64, Refusal>,
    Result<Own, Refusal>,
) {
    (core.words(p), core.steps(p), core.blocked(p), core.began(p))
}

pub fn fields(
    happened: Happened,
    own: Own,
) -> (
    (Kind, Word, u64, Option<Outer>, Option<CoreDone>),
    (u64, u64, u64),
) {
    let Happened {
        kind,
        word,
        value,
        outer,
        done,
    } = happened;
    let Own {
        choosing,
        number,
        inside,
    } = own;
    ((kind, word, value, outer, done), (choosing, number, inside))
}

pub fn in_variants(
    word: Word,
    done: CoreDone,
    found: Found,
    outer: Outer,
) -> (u64, Option<Found>, bool, u64) {
    let index = match word {
        Word::Choosing(p) | Word::Number(p) | Word::Inside(p) => p,
        Word::Data(i) => i,
    };
    let found_by = match done {
        CoreDone::Found(found) => Some(found),
        CoreDone::In | CoreDone::InAgain | CoreDone::Spent | CoreDone::Out | CoreDone::Withdrawn =>
            None,
    };
    let was_under_way = match found {
        Found::Idle | Found::Left => false,
        Found::Doorway | Found::Waiting | Found::Inside => true,
    };
    let process = match outer {
        Outer::Begin(p)
        | Outer::Ready(p)
        | Outer::Enter(p)
        | Outer::Crash(p)
        | Outer::Reenter(p)
        | Outer::Leave(p)
        | Outer::Quit(p) => p,
    };
    (index, found_by, was_under_way, process)
}

/// The refusals and their numbers, as docs/use/errors.md has them. `number` answers the same.
pub fn number_specified(refusal: Refusal) -> Option<u64>
    ensures { result ≡ number_of refusal }
{
    match refusal {
        Refusal::BadProcs => Some(1),
        Refusal::BadLimit => Some(2),
        Refusal::NoSuchProcess => Some(3),
        Refusal::CallUnderWay => Some(4),
        Refusal::NotOwner => Some(5),
        Refusal::AlreadyIn => Some(6),
        Refusal::NothingToDo => Some(7),
        Refusal::BadCap => Some(8),
        Refusal::BadImage { rule: _ } => Some(9),
        Refusal::NotInconsistent => Some(10),
        Refusal::BadShape => Some(11),
        Refusal::Unmended => Some(12),
        Refusal::BadIndex => Some(13),
        Refusal::NotWaiting => Some(14),
        Refusal::BadWidth => Some(15),
        Refusal::OutOfMemory => None,
    }
}

pub fn number(refusal: Refusal) -> Option<u64> {
    refusal.number()
}

pub fn of_body(body: &Body, j: u64) -> (u64, Result<u64, Refusal>, &[u64]) {
    (body.width(), body.word(j), body.as_slice())
}
