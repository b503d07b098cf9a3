//! A memory limit for tests: it takes all memory except a reserve, and gives the reserve back piece by piece. So each
//! allocation of a call fails in turn, until the call succeeds.
use std::alloc::{AllocError, Global};
use std::sync::atomic::{AtomicU64, Ordering};
use std::thread;
use std::thread::Threads;

const LARGEST: usize = 8 * 1024 * 1024 * 1024;

const BLOCKS: usize = 200_000;

/// The number of pieces in the reserve.
pub const PIECES: usize = 600;

const PIECE: usize = 240;

/// The blocks in which the pieces have room, and the bytes of one. The C library keeps a few bytes beside each piece.
const ROOMS: usize = 3;

const ROOM: usize = (PIECES / ROOMS + 1) * (PIECE + 16);

/// The threads that take memory: this one, the four whose arenas are left to others, and one more, whose arena this one takes
/// over when its own has nothing left.
const THREADS: usize = 6;

/// How often a thread looks whether the others have begun.
const LOOKS: u64 = 1_000_000;

/// Blocks that are taken.
#[derive(Drop)]
struct Taken {
    blocks: Vec<Vec<u8>>,
}

/// All memory, taken, with a reserve.
#[derive(Drop)]
pub struct ScarceMemory {
    reserve: Vec<Vec<u8>>,
    taken: Vec<Taken>,
}

impl ScarceMemory {
    /// Takes all memory that is free. `AllocError`: there is not even enough for the reserve.
    pub fn new(alloc: Global) -> Result<ScarceMemory, AllocError> {
        let mut taken = nothing_taken(alloc, 1)?;
        let mut reserve = Vec::with_capacity(alloc, PIECES)?;
        let rooms = rooms(alloc)?;
        take_all(alloc, &mut taken);
        drop(rooms);
        fill(alloc, &mut reserve)?;
        take_all(alloc, &mut taken);
        Ok(ScarceMemory { reserve, taken })
    }

    /// The same for calls that have as many as four other threads at once. The C library has an arena for each thread: what is
    /// free there is taken too. It keeps the stacks of four threads that have ended, so that as many can be made while memory
    /// is scarce.
    pub fn of_threads<R: Threads + Sync>(
        rt: &R,
        alloc: Global,
    ) -> Result<ScarceMemory, AllocError> {
        let mut of_others = nothing_taken(alloc, THREADS)?;
        let mut taken = nothing_taken(alloc, 1)?;
        taken.reserve(THREADS)?;
        let mut reserve = Vec::with_capacity(alloc, PIECES)?;
        let rooms = rooms(alloc)?;
        take_in_threads(rt, alloc, of_others.as_mut_slice());
        take_all(alloc, &mut taken);
        drop(rooms);
        fill(alloc, &mut reserve)?;
        take_all(alloc, &mut taken);
        taken.append(&mut of_others)?;
        Ok(ScarceMemory { reserve, taken })
    }

    /// Frees one piece of the reserve, if one is left.
    pub fn give_back(&mut self) {
        let piece = self.reserve.pop();
        drop(piece);
    }

    /// Frees everything.
    pub fn end(self) {
        let ScarceMemory { reserve, taken } = self;
        drop(reserve);
        drop(taken);
    }
}

/// Blocks in which the pieces have room. They are kept while all else is taken, and no piece lies in a hole that an earlier call
/// left: so pieces that are given back lie side by side, and make room for a larger request.
fn rooms(alloc: Global) -> Result<Vec<Vec<u8>>, AllocError> {
    let mut rooms = Vec::with_capacity(alloc, ROOMS)?;
    for _ in 0..ROOMS {
        rooms.push(Vec::<u8>::with_capacity(alloc, ROOM)?)?;
    }
    Ok(rooms)
}

/// Adds the pieces of the reserve.
fn fill(alloc: Global, reserve: &mut Vec<Vec<u8>>) -> Result<(), AllocError> {
    for _ in 0..PIECES {
        reserve.push(Vec::<u8>::with_capacity(alloc, PIECE)?)?;
    }
    Ok(())
}

/// Takes all memory that this thread finds.
fn take_all(alloc: Global, taken: &mut Vec<Taken>) {
    if let Some(last) = taken.last_mut() {
        last.take_all(alloc);
    }
}

/// Room for the blocks that this many threads take.
fn nothing_taken(alloc: Global, threads: usize) -> Result<Vec<Taken>, AllocError> {
    let mut taken = Vec::with_capacity(alloc, threads)?;
    for _ in 0..threads {
        taken.push(Taken {
            blocks: Vec::with_capacity(alloc, BLOCKS)?,
        })?;
    }
    Ok(taken)
}

/// Takes all memory in as many threads.
fn take_in_threads<R: Threads + Sync>(rt: &R, alloc: Global, taken: &mut [Taken]) {
    let begun = AtomicU64::new(0);
    thread::for_each_mut(
        rt,
        taken,
        THREADS,
        &|_, one| { one.take_beside(alloc, &begun) },
    );
}

impl Taken {
    /// Allocates smaller and smaller blocks, until the smallest fails.
    fn take_all(&mut self, alloc: Global) {
        let mut size = LARGEST;
        for _ in 0..2 * BLOCKS {
            if self.blocks.len() + 1 >= BLOCKS {
                break;
            }
            match Vec::<u8>::with_capacity(alloc, size) {
                Ok(block) => {
                    if self.blocks.push(block).is_err() {
                        break;
                    }
                }
                Err(_) if size <= 16 => break,
                Err(_) if size <= 4096 => size -= 16,
                Err(_) => size /= 2,
            }
        }
    }

    /// The same once all the threads have an arena, so that none takes the arena of another.
    fn take_beside(&mut self, alloc: Global, begun: &AtomicU64) {
        let first = Vec::<u8>::with_capacity(alloc, PIECE);
        begun.fetch_add(1, Ordering::SeqCst);
        for _ in 0..LOOKS {
            if begun.load(Ordering::SeqCst) >= THREADS as u64 {
                break;
            }
            thread::yield_now();
        }
        self.take_all(alloc);
        drop(first);
    }
}
