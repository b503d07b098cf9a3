//! Each request for memory of worlds and of images is refused in turn: all memory is taken but for a reserve, which is given
//! back piece by piece until a call meets no refusal. What it then gives is compared whole with what ample memory gives.

use super::images::is_written;
use super::phrase::Phrase;
use super::played::{are_right, is_same, world_of};
use redomail::Deed;
use rmecore::Refusal;
use rmeworld::{Image, Stepped, World, read_image, write_image};
use std::alloc::Global;
use std::process::Abort;
use test_support::memory_limit::{PIECES, ScarceMemory};
use test_support::text::cut;

/// A world after this script.
fn played(rt: &impl Abort, alloc: Global, script: &str) -> World {
    let Ok(mut world) = world_of(alloc, &Phrase::read("sizes 2 10 2 1")) else {
        panic!(rt; "no world")
    };
    assert!(rt; are_right(alloc, &mut world, script, 0), "{script}");
    world
}

fn scarce(rt: &impl Abort, alloc: Global) -> ScarceMemory {
    let Ok(scarce_memory) = ScarceMemory::new(alloc) else {
        panic!(rt; "no reserve")
    };
    scarce_memory
}

/// Whether each process has the same counts in two worlds.
fn have_same_counts(one: &World, other: &World) -> bool {
    for p in 0..2 {
        if one.steps(p) != other.steps(p)
            || one.blocked(p) != other.blocked(p)
            || one.began(p) != other.began(p)
        {
            return false;
        }
    }
    true
}

/// Whether the world has this image.
fn has_image(world: &World, image: &Image) -> bool {
    match world.image() {
        Ok(of_world) => is_same(&of_world, image),
        Err(_) => false,
    }
}

/// Whether two worlds have the same history and the same words, and the same counts of each process.
fn are_alike(one: &World, other: &World) -> bool {
    match one.image() {
        Ok(image) => {
            one.history() == other.history()
                && have_same_counts(one, other)
                && has_image(other, &image)
        }
        Err(_) => false,
    }
}

/// What asks for memory.
trait Work {
    type Output: Drop;

    fn make(&self, alloc: Global) -> Result<Self::Output, Refusal>;
}

/// What is made once there is memory for it, after one refusal at least.
fn at_last<W: Work>(rt: &impl Abort, alloc: Global, work: &W) -> W::Output {
    let mut scarce_memory = scarce(rt, alloc);
    for refused in 0..PIECES {
        match work.make(alloc) {
            Ok(made) => {
                assert!(rt; refused > 0);
                return made;
            }
            Err(refusal) => assert!(rt; refusal == Refusal::OutOfMemory),
        }
        scarce_memory.give_back();
    }
    panic!(rt; "never made")
}

#[derive(Drop)]
struct NewWorld;

impl Work for NewWorld {
    type Output = World;

    fn make(&self, alloc: Global) -> Result<World, Refusal> {
        World::new(alloc, 2, 10, 2, 1)
    }
}

#[test]
fn a_new_world(rt: HostRuntime) {
    let alloc = rt.alloc();
    let world = at_last(&rt, alloc, &NewWorld);
    assert!(rt; are_alike(&world, &played(&rt, alloc, "")));
}

/// The image of a world with a message, and a process inside.
fn written(rt: &impl Abort, alloc: Global) -> Image {
    let script = "lock 0; step 0 11 clean; append 0 1 77; step 0 13 stored";
    let world = played(rt, alloc, script);
    match world.image() {
        Ok(image) => image,
        Err(_) => panic!(rt; "no image"),
    }
}

#[derive(Drop)]
struct Writing<'a> {
    image: &'a Image,
}

impl Work for Writing<'_> {
    type Output = Vec<u8>;

    fn make(&self, alloc: Global) -> Result<Vec<u8>, Refusal> {
        write_image(alloc, self.image)
    }
}

#[derive(Drop)]
struct Reading<'a> {
    text: &'a [u8],
}

impl Work for Reading<'_> {
    type Output = Image;

    fn make(&self, alloc: Global) -> Result<Image, Refusal> {
        read_image(alloc, self.text)
    }
}

#[test]
fn a_written_image_and_a_read_one(rt: HostRuntime) {
    let alloc = rt.alloc();
    let image = written(&rt, alloc);
    let text = at_last(&rt, alloc, &Writing { image: &image });
    let read = at_last(&rt, alloc, &Reading { text: &text });
    assert!(rt; is_same(&read, &image) && is_written(alloc, &image, &text));
}

/// A step of process 0, taken once there is memory for it, and how often it was refused. None: it was refused for another
/// reason, or a refusal changed something.
fn taken_at_last(scarce_memory: &mut ScarceMemory, world: &mut World) -> Option<(Stepped, usize)> {
    let before = (world.steps(0), world.history().len());
    for refused in 0..PIECES {
        match world.advance(0) {
            Ok(stepped) => return Some((stepped, refused)),
            Err(refusal) => {
                let after = (world.steps(0), world.history().len());
                if refusal != Refusal::OutOfMemory || after != before {
                    return None;
                }
            }
        }
        scarce_memory.give_back();
    }
    None
}

/// Rows of a deed and what comes before it, each of another kind. The history is full before the step with the deed.
const DEEDS: &str = "\
begin 0: lock 0; step 0 3
ready 0: crash 1; crash 1; crash 1; lock 0; step 0 5
enter 0: crash 1; crash 1; lock 0; step 0 9
reenter 0: lock 0; step 0 11 clean; crash 0; lock 0; step 0 2
leave 0: crash 1; lock 0; step 0 11 clean; unlock 0
quit 0: crash 1; crash 1; lock 0; step 0 7; withdraw 0
commit 0 1 77: crash 1; lock 0; step 0 11 clean; append 0 1 77; step 0 6
show 0 0 1 77: lock 0; step 0 11 clean; append 0 1 77; step 0 11
close 0: crash 1; lock 0; step 0 11 clean; close 0; step 0 1
ruin 0: crash 1; crash 1; crash 1; lock 0; step 0 11 clean; crash 0; lock 0; step 0 4 owner-died; unlock 0";

/// Whether the next steps of two worlds are the same.
fn go_on_alike(world: &mut World, ample: &mut World) -> bool {
    for _ in 0..16 {
        if !are_alike(world, ample) || world.advance(0) != ample.advance(0) {
            return false;
        }
    }
    true
}

/// Whether the next step comes with this deed after a refusal at least, and it and all that come after it are those of a
/// world with ample memory.
fn is_taken(
    scarce_memory: ScarceMemory,
    world: &mut World,
    ample: &mut World,
    deed: Option<Deed>,
) -> bool {
    let mut scarce_memory = scarce_memory;
    let taken = taken_at_last(&mut scarce_memory, world);
    scarce_memory.end();
    match taken {
        Some((stepped, refused)) => {
            refused > 0
                && stepped.deed == deed
                && ample.advance(0) == Ok(stepped)
                && go_on_alike(world, ample)
        }
        None => false,
    }
}

/// Whether the step with the deed of the row is taken so.
fn comes_at_last(rt: &impl Abort, alloc: Global, row: &str) -> bool {
    let mut script = row;
    let wanted = Phrase::read(cut(&mut script, ": ")).deed();
    let mut ample = played(rt, alloc, script);
    let mut world = played(rt, alloc, script);
    is_taken(scarce(rt, alloc), &mut world, &mut ample, wanted)
}

#[test]
fn a_step_with_each_kind_of_deed(rt: HostRuntime) {
    for row in DEEDS.split('\n') {
        assert!(rt; comes_at_last(&rt, rt.alloc(), row), "{row}");
    }
}

/// The steps of a lock of process 0.
fn steps_of_a_lock(world: &mut World) -> [Option<Stepped>; 11] {
    let mut steps = [None; 11];
    for slot in &mut steps {
        *slot = world.advance(0).ok();
    }
    steps
}

/// Whether the next steps are these. Those that are no deed ask for no memory.
fn are_taken(scarce_memory: ScarceMemory, world: &mut World, wanted: &[Option<Stepped>]) -> bool {
    let mut scarce_memory = scarce_memory;
    for step in wanted {
        match taken_at_last(&mut scarce_memory, world) {
            Some((stepped, refused)) if stepped.deed.is_some() || refused == 0 => {
                if *step != Some(stepped) {
                    return false;
                }
            }
            _ => return false,
        }
    }
    true
}

/// The steps of a lock while memory is scarce.
#[test]
fn steps_of_a_world(rt: HostRuntime) {
    let alloc = rt.alloc();
    let mut ample = played(&rt, alloc, "lock 0");
    let wanted = steps_of_a_lock(&mut ample);
    let mut world = played(&rt, alloc, "lock 0");
    let are_same = are_taken(scarce(&rt, alloc), &mut world, &wanted);
    assert!(rt; are_same && are_alike(&world, &ample));
}
