//! The items of `judge`.

use judge::{Ahead, Deed, Fault, Judge, Messages, Phase, Phases, Start};
use redomail::Message;
use rmecore::{Body, Refusal};
use std::alloc::Global;

pub fn new_judge(
    alloc: Global,
    procs: u64,
    cap: u64,
    start: &Start,
) -> [Result<Judge, Refusal>; 3] {
    [
        Judge::new(alloc, procs, cap),
        Judge::of_exclusion(alloc, 2, procs, cap),
        Judge::from_start(alloc, start),
    ]
}

pub fn fed(judge: &mut Judge, deed: Deed) -> (Result<(), Fault>, Result<(), Fault>, u64) {
    (judge.feed(deed), judge.feed_from(&deed), judge.procs())
}

/// The faults have the numbers that docs/use/errors.md has.
pub fn in_variants(deed: Deed, phase: Phase, fault: Fault) -> (Option<Body>, bool, u64) {
    let body = match deed {
        Deed::Commit { p: _, seq: _, v }
        | Deed::Show {
            p: _,
            at: _,
            seq: _,
            v,
        } => Some(v),
        Deed::Outer(_) | Deed::Close { p: _ } | Deed::Ruin { p: _ } => None,
    };
    let is_in = match phase {
        Phase::Inside | Phase::DeadIn => true,
        Phase::Out | Phase::Door | Phase::Ready => false,
    };
    let number = match fault {
        Fault::OutOfPlace => 1,
        Fault::TwoInside => 2,
        Fault::NotReentered => 3,
        Fault::Overtaken { by: _, of: _ } => 4,
        Fault::NotInside => 5,
        Fault::MailOrder => 6,
        Fault::AfterClose => 7,
        Fault::LongExit => 8,
        Fault::LongRecovery => 9,
        Fault::LongDoorway => 10,
        Fault::BrokenClaim => 11,
    };
    (body, is_in, number)
}

/// A start, made of lists that give their `Vec` back.
pub fn new_start(
    procs: u64,
    cap: u64,
    phases: Vec<Phase>,
    ahead: Vec<Vec<u64>>,
    shown: Vec<Message>,
    pending: Option<Message>,
    closed: bool,
    ruined: bool,
) -> Start {
    Start {
        procs,
        cap,
        phases: Phases::new(phases),
        ahead: Ahead::new(ahead),
        shown: Messages::new(shown),
        pending,
        closed,
        ruined,
    }
}

pub fn lists_of_start(
    start: &Start,
    phases: Phases,
    ahead: Ahead,
    shown: Messages,
) -> (
    (&[Phase], &[Vec<u64>], &[Message]),
    (Vec<Phase>, Vec<Vec<u64>>, Vec<Message>),
) {
    (
        (
            start.phases.as_slice(),
            start.ahead.as_slice(),
            start.shown.as_slice(),
        ),
        (phases.into_vec(), ahead.into_vec(), shown.into_vec()),
    )
}
