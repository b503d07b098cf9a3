//! Rows of calls, as in `1 lock_within 0: not-yet 9 10`: the member, its call, and after the colon the answer, the own steps
//! and the askings. Of steps that are left out, or are `-`, a row says nothing. Askings that are left out are one more than
//! the steps.
//!
//! A call takes the plan that the rows are played with; after `@12` one that falls at its asking 12, and after `@never` one that
//! never falls.

ghost use Rattle.std.specs.Prelude.{◌≡◌};

use super::counted::{Counted, at, never};
use super::messages::shows;
use super::tested::{MemberCall, Tested};
use super::text::{number, part, place};
use crash_plans::CrashPlan;
use redomail::Reply;
use rmecore::Found;
use rmeworld::{Answer, Image, start_of};
use std::alloc::Global;
use std::process::Abort;
use std::sync::Wait;
use table_runs::LockFault;
use test_support::text::cut;

/// The call of these words.
pub fn call_of(words: &str) -> Option<MemberCall> {
    let names =
        "lock|lock_within|unlock|consistent|recover|withdraw|close_within|get|put|append_within";
    let mut rest = words;
    let name = cut(&mut rest, " ");
    let (first, second, third) = (number(&mut rest), number(&mut rest), number(&mut rest));
    Some(match place(names, name)? {
        0 => MemberCall::Lock(None),
        1 => MemberCall::Lock(Some(first)),
        2 => MemberCall::Unlock,
        3 => MemberCall::Consistent,
        4 => MemberCall::Recover,
        5 => MemberCall::Withdraw,
        6 => MemberCall::CloseWithin(first),
        7 => MemberCall::Get(first),
        8 => MemberCall::Put(first, second),
        _ => MemberCall::Append {
            seq: first,
            word: second,
            turns: Some(third),
        },
    })
}

fn fault_name(fault: LockFault) -> &'static str {
    match fault {
        LockFault::Crashed => "crashed",
        LockFault::NotYet => "not-yet",
        LockFault::NotRecoverable => "not-recoverable",
        LockFault::AlreadyIn => "already-in",
        LockFault::NotOwner => "not-owner",
        LockFault::NotInconsistent => "not-inconsistent",
        LockFault::BadIndex => "bad-index",
        _ => "another fault",
    }
}

fn answer_name(answer: Answer) -> &'static str {
    match answer {
        Answer::Clean => "clean",
        Answer::OwnerDied => "owner-died",
        Answer::Unlocked => "unlocked",
        Answer::Withdrawn => "withdrawn",
        Answer::Found(Found::Idle) => "idle",
        Answer::Found(Found::Inside) => "inside",
        Answer::Mail(Reply::Stored) => "stored",
        Answer::Mail(Reply::Already) => "already",
        Answer::Mail(Reply::Mended(false)) => "nothing-to-mend",
        Answer::Mail(Reply::Done) => "put",
        _ => "another answer",
    }
}

/// Whether the answer has this name. The answer of a `get` is a number.
pub fn is_named(reports: Result<Answer, LockFault>, name: &str) -> bool {
    match reports {
        Ok(Answer::Mail(Reply::Word(word))) => name.parse::<u64>() == Ok(word),
        Ok(answer) => {
            let reports = answer_name(answer);
            reports == name
                || name == "stored-or-already" && place("stored|already", reports).is_some()
        }
        Err(fault) => fault_name(fault) == name,
    }
}

/// Whether the own steps and the askings are those of the row.
fn are_counted(row: &str, steps: u64, askings: u64) -> bool {
    let mut rest = row;
    let own = cut(&mut rest, " ");
    let is_own = own.is_empty() || own == "-" || own.parse::<u64>() == Ok(steps);
    let wanted = if rest.is_empty() {
        steps.saturating_add(1)
    } else {
        number(&mut rest)
    };
    is_own && askings == wanted
}

/// Makes a call. It answers what the member answers, and how often the plan was asked.
fn counted<M: Tested, C: CrashPlan, R: Wait>(
    rt: &R,
    member: &mut M,
    call: MemberCall,
    plan: &mut Counted<C>,
) -> (Result<Answer, LockFault>, u64)
    ensures { M.place member.new ≡ M.place member.old }
{
    let reports = member.call(rt, call, plan);
    (reports, plan.taken())
}

/// Whether the member's call comes to what the row says.
fn is_right<M: Tested, C: CrashPlan, R: Wait>(
    rt: &R,
    member: &mut M,
    plan: &mut Counted<C>,
    row: &str,
) -> bool
    ensures { M.place member.new ≡ M.place member.old }
{
    let mut wanted = row;
    let mut falls = cut(&mut wanted, ": ");
    let Some(call) = call_of(cut(&mut falls, " @")) else {
        return false;
    };
    let (reports, askings) = if falls.is_empty() {
        counted(rt, member, call, plan)
    } else if falls == "never" {
        counted(rt, member, call, &mut never())
    } else {
        counted(rt, member, call, &mut at(number(&mut falls)))
    };
    is_named(reports, cut(&mut wanted, " ")) && are_counted(wanted, member.own_steps(), askings)
}

/// Plays rows of one member alone, which name no member. It answers the first row that comes to something else.
pub fn first_wrong<'r, M: Tested, C: CrashPlan, R: Wait>(
    rt: &R,
    one: &mut M,
    plan: &mut Counted<C>,
    rows: &'r str,
) -> Option<&'r str> {
    for at in 0..rows.len() {
        let row = part(rows, at);
        if row.is_empty() {
            break;
        }
        if !is_right(rt, one, plan, row) {
            return Some(row);
        }
    }
    None
}

/// Plays rows of two members. It answers the first row that comes to something else.
pub fn first_wrong_of_two<'r, M: Tested, C: CrashPlan, R: Wait>(
    rt: &R,
    one: &mut M,
    other: &mut M,
    plan: &mut Counted<C>,
    rows: &'r str,
) -> Option<&'r str>
    ensures one { M.place one.new ≡ M.place one.old }
    ensures other { M.place other.new ≡ M.place other.old }
{
    for at in 0..rows.len() {
        let whole = part(rows, at);
        if whole.is_empty() {
            break;
        }
        let mut row = whole;
        let member = cut(&mut row, " ");
        let is_right = if member == "0" {
            is_right(rt, one, plan, row)
        } else {
            member == "1" && is_right(rt, other, plan, row)
        };
        if !is_right {
            return Some(whole);
        }
    }
    None
}

/// The word with this index: those of process 0, those of process 1, then the data words.
pub fn word_at(image: &Image, index: usize) -> Option<u64> {
    if index >= 6 {
        return image.cells.as_slice().get(index - 6).copied();
    }
    let own = image.lock.as_slice().get(index / 3)?;
    match index % 3 {
        0 => Some(own.choosing),
        1 => Some(own.number),
        _ => Some(own.inside),
    }
}

/// Whether the words, from the first on, are these.
pub fn begins_with(image: &Image, words: &str) -> bool {
    let mut rest = words;
    for index in 0..words.len() {
        if rest.is_empty() {
            break;
        }
        if word_at(image, index) != Some(number(&mut rest)) {
            return false;
        }
    }
    true
}

/// Whether a lawful image of two processes shows `words 0 1 1 0 2 0`, its first words, or `messages 0 1 5; 1 1 9`, all
/// of its messages: each one's sender, number and word.
pub fn is_left(alloc: Global, image: &Image, left: &str) -> bool {
    let mut rest = left;
    let is_shown = match place("words|messages|anything", cut(&mut rest, " ")) {
        Some(0) => begins_with(image, rest),
        Some(1) => shows(alloc, image, rest),
        Some(_) => true,
        None => false,
    };
    is_shown && image.lock.as_slice().len() == 2 && start_of(alloc, image).is_ok()
}

/// Plays rows, and looks at the words of the arena after them. It answers the first row that comes to something else, or
/// else what the words should have been and are not.
pub fn wrong<'r, M: Tested, C: CrashPlan, R: Wait>(
    rt: &R,
    alloc: Global,
    members: (M, M),
    plan: &mut Counted<C>,
    rows: &'r str,
    left: &'r str,
) -> Option<&'r str>
    requires { M.are_all (M.place members.0) (M.place members.1) }
{
    let (mut one, mut other) = members;
    let row = first_wrong_of_two(rt, &mut one, &mut other, plan, rows);
    let image = M::gathered(rt, alloc, one, other);
    row.or(wrong_image(alloc, image, left))
}

/// What the image should have shown, where it shows something else.
fn wrong_image<'r>(alloc: Global, image: Option<Image>, left: &'r str) -> Option<&'r str> {
    match image {
        Some(image) if is_left(alloc, &image, left) => None,
        _ => Some(left),
    }
}
