//! Remote references of runs, against the numbers of the reference program's second version.

use crate::cases::words;
use crate::runs::call_named;
use crate::support::{number, text_named};
use algorithm_texts::read_algorithm;
use algorithms::{
    Address, Algorithm, AlgorithmWorld, Copies, Extent, MemoryEvent, MemoryModel, WordAccess,
};
use std::alloc::Global;
use std::fmt::Write;
use std::test::Fail;

/// Runs of the most costly passages that a search found, and with crashes. `at-owner`: a word of a process lives there.
pub const RUNS: &str = "\
refer to words\n\
== mcs 2 4 at-owner\n\
lock 0 -> started\n\
lock 1 -> started\n\
step 1 -> write-through write-back\n\
step 1 -> dsm write-through write-back\n\
unlock 1 -> started\n\
step 1 -> local\n\
step 0 -> write-through write-back\n\
step 0 -> dsm write-through write-back\n\
step 0 -> write-through write-back\n\
step 0 -> dsm write-through write-back\n\
step 1 -> dsm write-through write-back\n\
step 1 -> write-through write-back\n\
step 1 -> dsm write-through write-back\n\
step 0 -> write-through write-back\n\
unlock 0 -> started\n\
step 0 -> local\n\
lock 1 -> started\n\
step 1 -> write-through write-back\n\
step 1 -> dsm write-through\n\
step 0 -> dsm write-through write-back\n\
step 1 -> write-through write-back\n\
step 1 -> dsm write-through write-back\n\
step 0 -> write-through write-back\n\
step 0 -> dsm write-through write-back\n\
process 0: dsm 4 write-through 8 write-back 8\n\
process 1: dsm 5 write-through 9 write-back 8\n\
== ticket 2 4\n\
lock 0 -> started\n\
lock 1 -> started\n\
step 1 -> dsm write-through write-back\n\
step 1 -> dsm write-through write-back\n\
unlock 1 -> started\n\
step 1 -> dsm\n\
step 1 -> dsm write-through write-back\n\
lock 1 -> started\n\
step 1 -> dsm write-through\n\
step 1 -> dsm\n\
unlock 1 -> started\n\
step 1 -> dsm\n\
step 0 -> dsm write-through write-back\n\
step 0 -> dsm write-through write-back\n\
step 1 -> dsm write-through write-back\n\
step 0 -> dsm write-through write-back\n\
unlock 0 -> started\n\
step 0 -> dsm\n\
step 0 -> dsm write-through write-back\n\
process 0: dsm 5 write-through 4 write-back 4\n\
process 1: dsm 8 write-through 5 write-back 4\n\
== recoverable_test_and_set 2 4\n\
lock 0 -> started\n\
step 0 -> dsm write-through write-back\n\
step 0 -> dsm write-through write-back\n\
crash 0 -> crashed\n\
lock 0 -> started\n\
step 0 -> dsm write-through write-back\n\
lock 1 -> started\n\
step 1 -> dsm write-through write-back\n\
step 1 -> dsm write-through write-back\n\
step 1 -> dsm write-through\n\
unlock 0 -> started\n\
step 0 -> dsm write-through write-back\n\
step 1 -> dsm write-through write-back\n\
crash 1 -> crashed\n\
lock 1 -> started\n\
step 1 -> dsm write-through write-back\n\
unlock 1 -> started\n\
step 1 -> dsm write-through write-back\n\
process 0: dsm 4 write-through 4 write-back 4\n\
process 1: dsm 6 write-through 6 write-back 5\n\
== test_and_test_and_set 2 4\n\
lock 0 -> started\n\
lock 1 -> started\n\
step 0 -> dsm write-through write-back\n\
step 1 -> dsm write-through write-back\n\
step 0 -> dsm write-through write-back\n\
step 1 -> dsm write-through write-back\n\
step 1 -> dsm\n\
unlock 0 -> started\n\
step 0 -> dsm write-through write-back\n\
step 1 -> dsm write-through write-back\n\
step 1 -> dsm write-through write-back\n\
process 0: dsm 3 write-through 3 write-back 3\n\
process 1: dsm 5 write-through 4 write-back 4\n\
";

/// The models, with their names.
pub const MODELS: [(MemoryModel, &str); 3] = [
    (MemoryModel::Distributed, "dsm"),
    (MemoryModel::WriteThrough, "write-through"),
    (MemoryModel::WriteBack, "write-back"),
];

/// The remote references of two processes in each model.
type Counts = [[u64; 3]; 2];

/// Where a word lives: with `at_owner` each word of a process lives there.
fn home_of(algorithm: &Algorithm, address: Address, at_owner: bool) -> Option<u64> {
    match algorithm.declarations.get(address.declaration) {
        Some(declaration) if matches!(declaration.extent, Extent::Each) && at_owner => Some(
            address.index,
        ),
        Some(_) | None => None,
    }
}

/// Counts an access in the models in which it is remote, and writes these.
fn put_remote(
    copies: &Copies,
    home: Option<u64>,
    p: u64,
    access: WordAccess,
    counts: &mut Counts,
    text: &mut String,
) -> Result<(), Fail> {
    let mut local = true;
    for at in 0..3 {
        let (model, name) = MODELS[at];
        if copies.is_remote(model, home, p, access) {
            local = false;
            write!(text, " {name}")?;
            if let Some(row) = counts.get_mut(p as usize) {
                row[at] = row[at].saturating_add(1);
            }
        }
    }
    if local {
        text.push_str(" local")?;
    }
    Ok(())
}

/// Plays one move, and writes what it does.
fn put_move(
    world: &mut AlgorithmWorld,
    copies: &mut Copies,
    asked: &str,
    at_owner: bool,
    counts: &mut Counts,
    text: &mut String,
) -> Result<(), Fail> {
    let [word, process, ..] = words(asked);
    let p = number(process);
    if word == "step" {
        let access = world.step(p)?.access;
        let home = home_of(world.algorithm(), access.address, at_owner);
        put_remote(copies, home, p, access, counts, text)?;
        copies.note(MemoryEvent::Access(p, access));
    } else if word == "crash" {
        world.crash(p)?;
        copies.note(MemoryEvent::Crash(p));
        text.push_str(" crashed")?;
    } else {
        world.start(p, call_named(word))?;
        text.push_str(" started")?;
    }
    Ok(())
}

/// Plays each move, and writes it with what it does, and the counts of each process at the end.
fn put_moves(
    world: &mut AlgorithmWorld,
    copies: &mut Copies,
    moves: &str,
    at_owner: bool,
    text: &mut String,
) -> Result<(), Fail> {
    let mut counts = [[0; 3]; 2];
    for line in moves.lines() {
        if let Some((asked, _)) = line.split_once(" -> ") {
            text.push_str(asked)?;
            text.push_str(" ->")?;
            put_move(world, copies, asked, at_owner, &mut counts, text)?;
            text.push_str("\n")?;
        }
    }
    for p in 0..2 {
        write!(text, "process {p}:")?;
        for at in 0..3 {
            write!(text, " {} {}", MODELS[at].1, counts[p][at])?;
        }
        text.push_str("\n")?;
    }
    Ok(())
}

/// The remote references of a run, as a case: the text, the number of processes, the limit, and where words live.
pub fn put_references(
    alloc: Global,
    words: &[&str; 8],
    moves: &str,
    text: &mut String,
) -> Result<(), Fail> {
    let algorithm = read_algorithm(alloc, text_named(words[0]))?;
    let mut copies = Copies::new(alloc, algorithm.algorithm.declarations.len())?;
    let mut world = AlgorithmWorld::new(alloc, algorithm, number(words[1]), number(words[2]))?;
    let at_owner = words[3] == "at-owner";
    let written = put_moves(&mut world, &mut copies, moves, at_owner, text);
    drop(world);
    written
}
