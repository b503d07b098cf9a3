//! The items of `rmeworld`.

use judge::{Deed, Start};
use redomail::Reply;
use rmecore::{Found, Happened, Own, Refusal};
use rmeworld::{
    Answer, Call, DataWords, Image, Machine, Owns, Stepped, World, first_rule, read_image,
    start_of, widen, write_image,
};
use std::alloc::Global;

pub fn new_world(
    alloc: Global,
    procs: u64,
    limit: u64,
    cap: u64,
    width: u64,
    image: &Image,
) -> (Result<World, Refusal>, Result<World, Refusal>) {
    (
        World::new(alloc, procs, limit, cap, width),
        World::from_image(alloc, image),
    )
}

pub fn moves(
    world: &mut World,
    p: u64,
    call: Call,
) -> (
    Result<(), Refusal>,
    Result<Stepped, Refusal>,
    Result<Deed, Refusal>,
) {
    (world.start(p, call), world.advance(p), world.crash(p))
}

pub fn last_call(
    world: &World,
    p: u64,
) -> (
    &[Deed],
    Result<Image, Refusal>,
    Result<u64, Refusal>,
    Result<u64, Refusal>,
    Result<Own, Refusal>,
) {
    (
        world.history(),
        world.image(),
        world.steps(p),
        world.blocked(p),
        world.began(p),
    )
}

/// The four methods that a machine has to have, and the one that it has.
pub fn take_turns<M: Machine>(
    machine: &mut M,
    p: u64,
    call: Call,
) -> (
    Result<(), Refusal>,
    Result<Stepped, Refusal>,
    Result<Deed, Refusal>,
    Result<Image, Refusal>,
    bool,
) {
    (
        machine.start(p, call),
        machine.advance(p),
        machine.crash(p),
        machine.image(),
        machine.step_silently(p),
    )
}

pub fn world_takes_turns(world: &mut World, p: u64, call: Call) -> bool {
    let (_, _, _, _, silently) = take_turns(world, p, call);
    silently
}

pub fn in_variants(
    call: Call,
    answer: Answer,
    stepped: Stepped,
) -> (
    bool,
    (Option<Found>, Option<Reply>),
    (Happened, Option<Deed>, Option<Answer>),
) {
    let takes_a_word = match call {
        Call::Get(_) | Call::Put(_, _) => true,
        Call::Lock
        | Call::Unlock
        | Call::Consistent
        | Call::Recover
        | Call::Append { seq: _, value: _ }
        | Call::Close
        | Call::Withdraw => false,
    };
    let reports = match answer {
        Answer::Found(found) => (Some(found), None),
        Answer::Mail(reply) => (None, Some(reply)),
        Answer::Clean
        | Answer::OwnerDied
        | Answer::NumbersSpent
        | Answer::NotRecoverable
        | Answer::Unlocked
        | Answer::Withdrawn => (None, None),
    };
    let Stepped {
        happened,
        deed,
        answer: ended_by,
    } = stepped;
    (takes_a_word, reports, (happened, deed, ended_by))
}

/// An image, made of lists that give their `Vec` back.
pub fn new_image(
    cap: u64,
    cells: Vec<u64>,
    limit: u64,
    lock: Vec<Own>,
    version: u64,
    width: u64,
) -> Image {
    Image {
        cap,
        cells: DataWords::new(cells),
        limit,
        lock: Owns::new(lock),
        version,
        width,
    }
}

pub fn of_image(
    image: &Image,
    cells: DataWords,
    lock: Owns,
) -> (&[u64], &[Own], Option<u64>, (Vec<u64>, Vec<Own>)) {
    (
        image.cells.as_slice(),
        image.lock.as_slice(),
        first_rule(image),
        (cells.into_vec(), lock.into_vec()),
    )
}

pub fn texts(
    alloc: Global,
    text: &[u8],
    image: &Image,
    width: u64,
) -> (
    Result<Image, Refusal>,
    Result<Start, Refusal>,
    Result<Vec<u8>, Refusal>,
    Result<Image, Refusal>,
) {
    (
        read_image(alloc, text),
        start_of(alloc, image),
        write_image(alloc, image),
        widen(alloc, image, width),
    )
}
