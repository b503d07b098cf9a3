//! The codes of accesses, answers and refusals for C.

ghost use Rattle.std.specs.Prelude.{◌≡◌, ◌<◌, ◌≤◌, IfSome, None};
ghost use Rattle.rmecore.specs.Machine.{word_of};
ghost use Rattle.rmeworld.specs.MachineState.{InWords};
ghost use Rattle.rme_c.specs.Codes.{place as place_at, access_for_c as wanted_by, found_code as code_of_found, reply_code as code_of_reply, answer_code as code_of_answer, answer_word as word_of_answer, refusal_code as code_of_refusal, reported_as, goes_as, next_for_c as shown_by};

use crate::process::RmeAccess;
use redomail::Reply;
use rmecore::{Access, Found, Refusal, Word};
use rmeworld::Answer;

/// The values of `RmeAccess::store` for a load and for a store.
const LOAD: u64 = 0;

const STORE: u64 = 1;

/// What a step meant for its call.
#[derive(Clone, Copy)]
pub struct Effect {
    pub answer: Option<Answer>,
    /// A look or a weigh that has to be taken again.
    pub blocked: bool,
}

/// What `next` is when there is nothing to name.
pub const NOTHING: RmeAccess = RmeAccess {
    store: 0,
    place: 0,
    value: 0,
};

/// The index of a word in the block. An index too great for a u64 is the greatest one.
// Inline: once in each C step.
#[inline(always)]
fn place(procs: u64, word: Word) -> u64
    requires procs { procs ≤ 64 }
    requires word { InWords procs word }
    ensures { result ≡ place_at procs word }
{
    match word {
        Word::Choosing(p) => 3 * p,
        Word::Number(p) => 3 * p + 1,
        Word::Inside(p) => 3 * p + 2,
        Word::Data(i) => i.saturating_add(3 * procs),
    }
}

/// A load or store for C.
// Inline: once in each C step.
#[inline(always)]
pub fn access_for_c(procs: u64, access: Access) -> RmeAccess
    requires procs { procs ≤ 64 }
    requires word { InWords procs (word_of access) }
    ensures { result ≡ wanted_by procs access }
{
    match access {
        Access::Load(_, word) => RmeAccess {
            store: LOAD,
            place: place(procs, word),
            value: 0,
        },
        Access::Store(_, word, value) => RmeAccess {
            store: STORE,
            place: place(procs, word),
            value,
        },
    }
}

/// The code for C of what a recovery has found.
// Inline: once in each answer.
#[inline(always)]
fn found_code(found: Found) -> u64
    ensures is { result ≡ code_of_found found }
    ensures small { result < 64 }
{
    match found {
        Found::Idle => 23,
        Found::Left => 24,
        Found::Doorway => 25,
        Found::Waiting => 26,
        Found::Inside => 27,
    }
}

/// The code for C of a reply of the mailbox or its board.
// Inline: once in each answer.
#[inline(always)]
fn reply_code(reply: Reply) -> u64
    ensures is { result ≡ code_of_reply reply }
    ensures small { result < 64 }
{
    match reply {
        Reply::Stored => 28,
        Reply::Already => 29,
        Reply::OutOfOrder => 30,
        Reply::Full => 31,
        Reply::Closed => 32,
        Reply::ClosedNow => 33,
        Reply::AlreadyClosed => 34,
        Reply::Mended(true) => 35,
        Reply::Mended(false) => 36,
        Reply::Word(_) => 37,
        Reply::Done => 38,
        Reply::Ruined(_) => 39,
    }
}

/// The code of an answer.
// Inline: once in each answer.
#[inline(always)]
fn answer_code(answer: Answer) -> u64
    ensures is { result ≡ code_of_answer answer }
    ensures small { result < 64 }
{
    match answer {
        Answer::Clean => 17,
        Answer::OwnerDied => 18,
        Answer::NumbersSpent => 19,
        Answer::NotRecoverable => 20,
        Answer::Unlocked => 21,
        Answer::Withdrawn => 22,
        Answer::Found(found) => found_code(found),
        Answer::Mail(reply) => reply_code(reply),
    }
}

/// The board word that was read, or 0.
// Inline: once in each answer.
#[inline(always)]
fn answer_word(answer: Answer) -> u64
    ensures { result ≡ word_of_answer answer }
{
    match answer {
        Answer::Mail(Reply::Word(v)) => v,
        _ => 0,
    }
}

/// What `next` is after an answer.
// Inline: once in each answer.
#[inline(always)]
fn answer_for_c(answer: Answer) -> RmeAccess
    ensures { result ≡ record { store = 0; place = 0; value = word_of_answer answer } }
{
    RmeAccess {
        store: 0,
        place: 0,
        value: answer_word(answer),
    }
}

/// What `next` is: the next access, or after an answer.
// Inline: once in each C step.
#[inline(always)]
pub fn next_for_c(procs: u64, answer: Option<Answer>, next: Option<Access>) -> RmeAccess
    requires procs { procs ≤ 64 }
    requires word { IfSome next (λ a. InWords procs (word_of a)) }
    ensures { result ≡ shown_by procs answer next }
{
    match (answer, next) {
        (Some(answer), _) => answer_for_c(answer),
        (None, Some(access)) => access_for_c(procs, access),
        (None, None) => NOTHING,
    }
}

/// The code of a call that goes on. A load of a lock word is in the code itself; any other access is written to `next`.
// Inline: once in each C step.
#[inline(always)]
fn goes_on(procs: u64, after: Option<Access>, next: &mut RmeAccess) -> u64
    requires procs { procs ≤ 64 }
    requires word { IfSome after (λ a. InWords procs (word_of a)) }
    ensures code { result ≡ goes_as after }
    ensures next { result < 64 → next.new ≡ shown_by procs None after }
    ensures kept { 64 ≤ result → next.new ≡ next.old }
    ensures few { result < 256 }
{
    match after {
        Some(Access::Load(_, Word::Choosing(j))) => 64 + 3 * j,
        Some(Access::Load(_, Word::Number(j))) => 64 + (3 * j + 1),
        Some(Access::Load(_, Word::Inside(j))) => 64 + (3 * j + 2),
        Some(Access::Load(_, Word::Data(_)) | Access::Store(_, _, _)) | None => {
            *next = next_for_c(procs, None, after);
            0
        }
    }
}

/// The code of a step. `next` is the next access or the board word that was read, unless the code says it all.
// Inline: once in each C step.
#[inline(always)]
pub fn tell(procs: u64, reports: Effect, after: Option<Access>, next: &mut RmeAccess) -> u64
    requires procs { procs ≤ 64 }
    requires word { IfSome after (λ a. InWords procs (word_of a)) }
    ensures code { result ≡ reported_as reports.answer reports.blocked after }
    ensures next { result < 64 → next.new ≡ shown_by procs reports.answer after }
    ensures kept { 64 ≤ result → next.new ≡ next.old }
    ensures few { result < 256 }
{
    match reports.answer {
        Some(answer) => {
            *next = answer_for_c(answer);
            answer_code(answer)
        }
        None if reports.blocked => {
            *next = next_for_c(procs, None, after);
            16
        }
        None => goes_on(procs, after, next),
    }
}

/// The code of a refusal; 0 for none, 16 for out of memory.
pub fn refusal_code(refusal: Option<Refusal>) -> u64
    ensures { result ≡ code_of_refusal refusal }
{
    match refusal {
        Some(refusal) => refusal.number().unwrap_or(16),
        None => 0,
    }
}
