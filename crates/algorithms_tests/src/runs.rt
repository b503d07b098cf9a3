//! Replays, against the reference interpreter's reports.

use crate::cases::words;
use crate::support::{number, text_named};
use crate::texts::bakeries;
use algorithm_texts::read_algorithm;
use algorithms::{
    Algorithm, AlgorithmCall, AlgorithmDeed, AlgorithmPlace, AlgorithmRefusal, AlgorithmWorld,
    Extent, NAMES, Taken,
};
use std::alloc::{AllocError, Global};
use std::fmt::Write;
use std::test::Fail;

/// The name of a deed, after a space.
fn name_of(deed: AlgorithmDeed) -> &'static str {
    match deed {
        AlgorithmDeed::Begin => " begin",
        AlgorithmDeed::Ready => " ready",
        AlgorithmDeed::Enter => " enter",
        AlgorithmDeed::Reenter => " reenter",
        AlgorithmDeed::Leave => " leave",
        AlgorithmDeed::Quit => " quit",
    }
}

/// Writes what an access reads or stores: of a swap `swap 0 = 1`.
fn put_value(taken: &Taken, text: &mut String) -> Result<(), AllocError> {
    if taken.access.swaps {
        write!(text, " swap {}", taken.value)?;
        if let Some(stored) = taken.access.stores {
            write!(text, " = {stored}")?;
        }
        return Ok(());
    }
    if taken.access.stores.is_some() {
        text.push_str(" =")?;
    }
    write!(text, " {}", taken.value)
}

/// Writes the access of a step: `9 flag[0] = 1`.
fn put_access(algorithm: &Algorithm, taken: &Taken, text: &mut String) -> Result<(), AllocError> {
    let address = taken.access.address;
    let Some(line) = algorithm.lines.get(taken.at) else {
        return text.push_str("no line");
    };
    let Some(word) = algorithm.declarations.get(address.declaration) else {
        return text.push_str("no word");
    };
    write!(text, "{} {}", line.number, word.name)?;
    match word.extent {
        Extent::One => {}
        Extent::Each | Extent::Array(_) | Extent::Table(..) => {
            write!(text, "[{}]", address.index)?;
        }
    }
    put_value(taken, text)
}

/// Writes a step as the reference interpreter does: `9 flag[0] = 1 begin`, and that a call ends, with its answer.
fn put_step(algorithm: &Algorithm, taken: &Taken, text: &mut String) -> Result<(), AllocError> {
    put_access(algorithm, taken, text)?;
    if taken.moved.blocked {
        text.push_str(" blocked")?;
    }
    let noted = taken.moved.noted;
    for deed in [noted.first, noted.second, noted.third] {
        if let Some(deed) = deed {
            text.push_str(name_of(deed))?;
        }
    }
    let Some(answer) = taken.moved.answer else {
        return Ok(());
    };
    text.push_str(" done")?;
    let Some(answer) = algorithm.answers.get(answer) else {
        return text.push_str(" no answer");
    };
    if answer.is_empty() {
        return Ok(());
    }
    text.push_str(" ")?;
    text.push_str(answer.as_str())
}

/// Writes a refusal as the reference interpreter does.
fn put_refusal(
    algorithm: &Algorithm,
    refusal: AlgorithmRefusal,
    text: &mut String,
) -> Result<(), AllocError> {
    let why = match refusal {
        AlgorithmRefusal::NoSuchProcess => "refused: no such process",
        AlgorithmRefusal::CallUnderWay => "refused: call under way",
        AlgorithmRefusal::NothingToDo => "refused: nothing to do",
        AlgorithmRefusal::NotWaiting => "refused: not waiting",
        AlgorithmRefusal::NoSuchCall => "refused: no such call",
        AlgorithmRefusal::OutOfRange { place } => {
            let Some(line) = algorithm.lines.get(place) else {
                return text.push_str("no line");
            };
            return write!(text, "out of range at {}", line.number);
        }
        _ => "another refusal",
    };
    text.push_str(why)
}

/// The call of this name.
pub fn call_named(word: &str) -> AlgorithmCall {
    if word == "lock" {
        AlgorithmCall::Lock
    } else if word == "unlock" {
        AlgorithmCall::Unlock
    } else if word == "recover" {
        AlgorithmCall::Recover
    } else {
        AlgorithmCall::Withdraw
    }
}

/// Plays one move of a schedule, and writes what it does.
fn put_move(world: &mut AlgorithmWorld, asked: &str, text: &mut String) -> Result<(), AllocError> {
    let [word, process, ..] = words(asked);
    let p = number(process);
    if word == "step" {
        return match world.step(p) {
            Ok(taken) => put_step(world.algorithm(), &taken, text),
            Err(refusal) => put_refusal(world.algorithm(), refusal, text),
        };
    }
    let (done, result) = if word == "crash" {
        ("crashed", world.crash(p))
    } else {
        ("started", world.start(p, call_named(word)))
    };
    match result {
        Ok(()) => text.push_str(done),
        Err(refusal) => put_refusal(world.algorithm(), refusal, text),
    }
}

/// Plays each move, and writes it with what it does, and the values of all words at the end.
fn put_moves(world: &mut AlgorithmWorld, moves: &str, text: &mut String) -> Result<(), AllocError> {
    for line in moves.lines() {
        if let Some((asked, _)) = line.split_once(" -> ") {
            text.push_str(asked)?;
            text.push_str(" -> ")?;
            put_move(world, asked, text)?;
            text.push_str("\n")?;
        }
    }
    text.push_str("words")?;
    for (declared, row) in world.algorithm().declarations.iter().zip(world.words()) {
        let used = declared.extent.length(world.procs(), world.limit());
        for value in row.iter().take(used as usize) {
            write!(text, " {value}")?;
        }
    }
    text.push_str("\n")
}

/// A replay of moves, as a case: the text, the number of processes and the limit.
pub fn put_run(
    alloc: Global,
    words: &[&str; 8],
    moves: &str,
    text: &mut String,
) -> Result<(), Fail> {
    let algorithm = read_algorithm(alloc, text_named(words[0]))?;
    let mut world = AlgorithmWorld::new(alloc, algorithm, number(words[1]), number(words[2]))?;
    let written = put_moves(&mut world, moves, text);
    drop(world);
    Ok(written?)
}

/// Whether a crash loses the place and the names of process 1, some of which have a value before.
fn crash_loses_all(world: &mut AlgorithmWorld) -> Result<bool, AlgorithmRefusal> {
    let rests = world.process(1)?.place == AlgorithmPlace::Rest;
    world.start(1, AlgorithmCall::Lock)?;
    for _ in 0..8 {
        world.step(1)?;
    }
    let before = world.process(1)?.store;
    world.crash(1)?;
    let after = world.process(1)?;
    let lost = after.place == AlgorithmPlace::Dead && after.store == [0; NAMES];
    Ok(rests && before != [0; NAMES] && lost)
}

#[test]
fn a_crash_loses_the_place_and_the_names(rt: HostRuntime) -> Result<(), Fail> {
    let algorithm = read_algorithm(rt.alloc(), bakeries::BAKERY)?;
    let mut world = AlgorithmWorld::new(rt.alloc(), algorithm, 2, 5)?;
    let sizes = (world.procs(), world.limit());
    let loses_all = crash_loses_all(&mut world);
    let no_process = world.process(2).err();
    drop(world);
    assert!(rt; loses_all == Ok(true));
    assert!(rt; sizes == (2, 5));
    assert!(rt; no_process == Some(AlgorithmRefusal::NoSuchProcess));
    Ok(())
}
