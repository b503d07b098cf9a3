//! Scripts played on a world: calls, steps and crashes, and questions about the world between them.
//!
//! `step 0 8 clean` is eight steps of process 0. The last has the answer clean, and the others have none. Without an answer
//! none of the eight may have one. `take 0 8` is eight steps with any answers, and `take 0` as many as the row is played with.
//! `refused 5 unlock 0` is a call that is refused with this number. `words 0 0 1 1` are the lock words of process 0, `began`
//! those at the start of its call. `steps`, `blocked` and `deeds` are counts, `data` is a data word, and `image` the text of
//! the image. `from-image` replaces the world by a new one from its image, which is lawful and is read as it was written.

use super::phrase::{Phrase, answer_of, place};
use redomail::Deed;
use rmecore::{Own, Refusal};
use rmeworld::image::laws::written_is_read;
use rmeworld::{Answer, Image, World, first_rule, write_image};
use std::alloc::Global;
use test_support::text::cut;

/// Takes steps. True: the last one and no other has the wanted answer.
fn step(world: &mut World, p: u64, count: u64, wanted: Option<Answer>) -> bool {
    for k in 0..count {
        let Ok(stepped) = world.advance(p) else {
            return false;
        };
        let is_last = k.saturating_add(1) == count;
        if stepped.answer != if is_last { wanted } else { None } {
            return false;
        }
    }
    true
}

/// Takes steps, with any answers.
fn take(world: &mut World, p: u64, count: u64) -> bool {
    for _ in 0..count {
        if world.advance(p).is_err() {
            return false;
        }
    }
    true
}

/// The refusal of a call or a question.
fn refusal_of(world: &mut World, phrase: &Phrase<'_>) -> Option<Refusal> {
    let p = phrase.number(0);
    match place("step|crash|steps", phrase.word) {
        Some(0) => world.advance(p).err(),
        Some(1) => world.crash(p).err(),
        Some(_) => world.steps(p).err(),
        None => world.start(p, phrase.call()?).err(),
    }
}

/// Whether a call or a question is refused with this number.
fn is_refused(world: &mut World, asked: &str) -> bool {
    let mut line = asked;
    let number = cut(&mut line, " ").parse::<u64>().ok();
    match refusal_of(world, &Phrase::read(line)) {
        Some(refusal) => number.is_some() && refusal.number() == number,
        None => false,
    }
}

/// Whether the lock words are those of the phrase.
pub fn are_words(own: Option<Own>, phrase: &Phrase<'_>) -> bool {
    match own {
        Some(own) => phrase.numbers(1) == [own.choosing, own.number, own.inside].as_slice(),
        None => false,
    }
}

/// Whether the world's image is written so.
fn is_written(alloc: Global, world: &World, text: &str) -> bool {
    let Ok(image) = world.image() else {
        return false;
    };
    match write_image(alloc, &image) {
        Ok(bytes) => bytes.strip_suffix(b"\n") == Some(text.as_bytes()),
        Err(_) => false,
    }
}

/// Whether the image has this word.
fn has_word(image: &Image, phrase: &Phrase<'_>) -> bool {
    let at = phrase.number(0) as usize;
    match place("data|words", phrase.word) {
        Some(0) => image.cells.as_slice().get(at).copied() == Some(phrase.number(1)),
        Some(_) => are_words(image.lock.as_slice().get(at).copied(), phrase),
        None => false,
    }
}

/// Whether the world's image has this word.
fn shows(world: &World, phrase: &Phrase<'_>) -> bool {
    match world.image() {
        Ok(image) => has_word(&image, phrase),
        Err(_) => false,
    }
}

/// Whether the question has this answer.
fn is_so(world: &World, phrase: &Phrase<'_>) -> bool {
    let p = phrase.number(0);
    match place("steps|blocked|deeds|began", phrase.word) {
        Some(0) => world.steps(p) == Ok(phrase.number(1)),
        Some(1) => world.blocked(p) == Ok(phrase.number(1)),
        Some(2) => world.history().len() as u64 == p,
        Some(_) => are_words(world.began(p).ok(), phrase),
        None => shows(world, phrase),
    }
}

/// Whether two images are the same in all fields.
pub fn is_same(image: &Image, other: &Image) -> bool {
    image.cap == other.cap
        && image.cells.as_slice() == other.cells.as_slice()
        && image.limit == other.limit
        && image.lock.as_slice() == other.lock.as_slice()
        && image.version == other.version
        && image.width == other.width
}

/// A new world from the image, once it was written and read. None: it is not lawful, or not the same after that.
fn again(alloc: Global, image: &Image) -> Option<World> {
    match written_is_read(alloc, image) {
        Ok(read) if first_rule(image).is_none() && is_same(image, &read) => {
            World::from_image(alloc, &read).ok()
        }
        _ => None,
    }
}

/// Replaces the world by a new one from its image.
fn goes_on_from_image(alloc: Global, world: &mut World) -> bool {
    let Ok(image) = world.image() else {
        return false;
    };
    match again(alloc, &image) {
        Some(made) => {
            *world = made;
            true
        }
        None => false,
    }
}

/// Plays a line, with this number of steps where it has none. True: it has the result that the line says.
fn line(alloc: Global, world: &mut World, text: &str, steps: u64) -> bool {
    let phrase = Phrase::read(text);
    let p = phrase.number(0);
    match place("step|crash|refused|image|from-image|take", phrase.word) {
        Some(0) => {
            let wanted = answer_of(phrase.rest);
            wanted.is_some() != phrase.rest.is_empty() && step(world, p, phrase.number(1), wanted)
        }
        Some(1) => world.crash(p).is_ok(),
        Some(2) => is_refused(world, text.strip_prefix("refused ").unwrap_or("")),
        Some(3) => is_written(alloc, world, phrase.rest),
        Some(4) => goes_on_from_image(alloc, world),
        Some(_) => take(
            world,
            p,
            phrase.numbers(1).first().copied().unwrap_or(steps),
        ),
        None => match phrase.call() {
            Some(call) => world.start(p, call).is_ok(),
            None => is_so(world, &phrase),
        },
    }
}

/// Whether each line has the result that it says.
pub fn are_right(alloc: Global, world: &mut World, script: &str, steps: u64) -> bool {
    let mut rest = script;
    for _ in 0..script.len() {
        if rest.is_empty() {
            break;
        }
        if !line(alloc, world, cut(&mut rest, "; "), steps) {
            return false;
        }
    }
    true
}

/// Whether the history is these deeds. Where they are `any`, it is.
pub fn are_deeds(history: &[Deed], deeds: &str) -> bool {
    if deeds == "any" {
        return true;
    }
    let mut rest = deeds;
    for deed in history {
        if Phrase::read(cut(&mut rest, "; ")).deed() != Some(*deed) {
            return false;
        }
    }
    rest.is_empty()
}

/// A new world with this number of processes, limit, capacity and width.
pub fn world_of(alloc: Global, sizes: &Phrase<'_>) -> Result<World, Refusal> {
    World::new(
        alloc,
        sizes.number(0),
        sizes.number(1),
        sizes.number(2),
        sizes.number(3),
    )
}
