//! The worked rows on a world.

use super::phrase::{Phrase, is_refusal};
use super::played::{are_deeds, are_right, world_of};
use rmeworld::World;
use std::alloc::Global;
use test_support::text::cut;

/// Whether the script has the results that it says, and its deeds are those of the row.
fn is_played(alloc: Global, world: &mut World, row: &str, steps: u64) -> bool {
    let mut deeds = row;
    let script = cut(&mut deeds, " | ");
    are_right(alloc, world, script, steps) && are_deeds(world.history(), deeds)
}

/// A row on a new world: the sizes, and then a script and its deeds, or the refusal of the sizes, as `refused 1`.
pub fn holds(alloc: Global, sizes: &Phrase<'_>, rest: &str, steps: u64) -> bool {
    match world_of(alloc, sizes) {
        Ok(mut world) => is_played(alloc, &mut world, rest, steps),
        Err(refusal) => is_refusal(refusal, rest),
    }
}

/// The worked rows on a world.
pub const TABLES: &str = r#"worlds: lock rows
# smallest
sizes 1 10 1 1: lock 0; step 0 8 clean; image {"cap":1,"data":[0,0,0,0,0,0,0,0,0,0,0,0,0,0,0],"limit":10,"lock":[[0,1,1]],"version":2,"width":1} | begin 0; ready 0; enter 0
# tie
sizes 2 10 1 1: lock 0; lock 1; step 0 5; step 1 5; step 0 2; step 1 2; step 1 3; step 0 4 clean; blocked 1 2; words 0 0 1 1; words 1 0 1 0 | begin 0; begin 1; ready 0; ready 1; enter 0
# half-an-exit
sizes 2 10 1 1: lock 0; step 0 11 clean; lock 1; step 1 8; unlock 0; step 0 1; crash 0; step 1 3 clean; recover 0; step 0 4 found left; words 0 0 0 0; words 1 0 2 1 | begin 0; ready 0; enter 0; begin 1; ready 1; leave 0; crash 0; enter 1
# ruined
sizes 2 10 1 1: lock 0; step 0 11 clean; crash 0; lock 0; step 0 4 owner-died; unlock 0; step 0 3 unlocked; lock 1; step 1 13 not-recoverable; lock 0; step 0 13 not-recoverable; words 0 0 0 0; words 1 0 0 0; data 0 1; deeds 15 | begin 0; ready 0; enter 0; crash 0; reenter 0; ruin 0; leave 0; begin 1; ready 1; enter 1; leave 1; begin 0; ready 0; enter 0; leave 0
# number-limit
sizes 2 1 1 1: lock 0; step 0 11 clean; lock 1; step 1 6 numbers-spent; unlock 0; step 0 2 unlocked; lock 1; step 1 11 clean; words 0 0 0 0; words 1 0 1 1 | begin 0; ready 0; enter 0; begin 1; quit 1; leave 0; begin 1; ready 1; enter 1
# withdraw-waiting
sizes 2 10 1 1: lock 0; step 0 7; lock 1; step 1 9; withdraw 0; step 0 1 withdrawn; step 1 3 clean; words 0 0 0 0; words 1 0 2 1 | begin 0; ready 0; begin 1; ready 1; quit 0; enter 1

worlds: mailbox rows
# torn-before-the-commit
sizes 1 10 2 1: lock 0; step 0 8 clean; append 0 1 77; step 0 6; crash 0; lock 0; step 0 4 owner-died; consistent 0; step 0 2 nothing-to-mend; append 0 1 77; step 0 13 stored; unlock 0; step 0 2 unlocked; deeds 8 | begin 0; ready 0; enter 0; crash 0; reenter 0; commit 0 1 77; show 0 0 1 77; leave 0
# torn-after-the-commit
sizes 1 10 2 1: lock 0; step 0 8 clean; append 0 1 77; step 0 7; crash 0; image {"cap":2,"data":[0,0,0,1,0,1,77,0,0,0,0,0,0,0,0,0,0,0],"limit":10,"lock":[[0,1,1]],"version":2,"width":1}; lock 0; step 0 4 owner-died; consistent 0; step 0 11 mended; append 0 1 77; step 0 3 already; deeds 7 | begin 0; ready 0; enter 0; commit 0 1 77; crash 0; reenter 0; show 0 0 1 77
# repair-of-what-is-done
sizes 1 10 2 1: lock 0; step 0 8 clean; append 0 1 77; step 0 12; crash 0; lock 0; step 0 4 owner-died; consistent 0; step 0 11 mended; append 0 1 77; step 0 3 already; data 2 1; data 3 0; deeds 7 | begin 0; ready 0; enter 0; commit 0 1 77; show 0 0 1 77; crash 0; reenter 0
# boundaries
sizes 1 10 1 1: lock 0; step 0 8 clean; append 0 1 5; step 0 13 stored; append 0 0 9; step 0 3 out-of-order; append 0 3 9; step 0 3 out-of-order; append 0 2 9; step 0 3 full; append 0 1 5; step 0 3 already | begin 0; ready 0; enter 0; commit 0 1 5; show 0 0 1 5
# closing
sizes 1 10 1 1: lock 0; step 0 8 clean; close 0; step 0 2 closed-now; append 0 1 5; step 0 3 closed; close 0; step 0 1 already-closed | begin 0; ready 0; enter 0; close 0
# board
sizes 1 10 1 1: lock 0; step 0 8 clean; put 0 2 9; step 0 1 put; get 0 2; step 0 1 word 9; deeds 3 | begin 0; ready 0; enter 0

worlds: steps of calls
# The number of steps of each call. A lock of one process of two, from words 0: 3n + 5 with the ruin check. An unlock:
# 2. A re-entry: 4. A `consistent` that mends: 9 + 2W. An append that stores: 11 + 2W, one that is refused: 3.
sizes 2 10 1 1: lock 0; step 0 11 clean; steps 0 11; blocked 0 0; began 0 0 0 0; unlock 0; steps 0 0; began 0 0 1 1; step 0 2 unlocked; steps 0 2; refused 7 step 0 | begin 0; ready 0; enter 0; leave 0
sizes 1 10 2 1: lock 0; step 0 8 clean; append 0 1 7; step 0 7; crash 0; lock 0; step 0 4 owner-died; steps 0 4; consistent 0; step 0 11 mended; steps 0 11; append 0 2 8; step 0 13 stored; steps 0 13; append 0 4 8; step 0 3 out-of-order; steps 0 3; close 0; step 0 2 closed-now; refused 7 step 0 | begin 0; ready 0; enter 0; commit 0 1 7; crash 0; reenter 0; show 0 0 1 7; commit 0 2 8; show 0 1 2 8; close 0

worlds: refused calls
# Which calls are refused, with which number: at rest, inside, by a process that entered again and has not mended (it
# may use the board and unlock, and nothing else), and which withdraws.
sizes 1 10 1 1: refused 3 lock 1; refused 3 step 1; refused 7 step 0; refused 3 crash 1; refused 5 unlock 0; refused 5 consistent 0; refused 5 get 0 9; refused 14 withdraw 0; refused 3 steps 1; lock 0; refused 4 lock 0; refused 14 withdraw 0
sizes 2 10 1 1: lock 0; step 0 11 clean; refused 6 lock 0; refused 6 recover 0; refused 14 withdraw 0; refused 10 consistent 0; refused 13 get 0 4; refused 13 put 0 4 1; refused 15 append 0 1 1 2; close 0; refused 4 get 0 4 | begin 0; ready 0; enter 0
sizes 2 10 1 1: lock 0; step 0 11 clean; crash 0; lock 0; step 0 4 owner-died; refused 12 append 0 1 5; refused 12 close 0; refused 12 append 0 1 1 2; get 0 0; step 0 1 word 0; unlock 0 | begin 0; ready 0; enter 0; crash 0; reenter 0
sizes 2 10 1 1: lock 0; step 0 4; refused 14 withdraw 0 | begin 0
sizes 2 10 1 1: lock 0; step 0 7; withdraw 0; refused 14 withdraw 0 | begin 0; ready 0

worlds: refused sizes
sizes 0 0 0 0: refused 1
sizes 65 1 1 1: refused 1
sizes 1 0 0 0: refused 2
sizes 1 1 0 0: refused 8
sizes 1 1 65537 0: refused 8
sizes 1 1 1 0: refused 15
sizes 1 1 1 9: refused 15
sizes 64 1 1 8: deeds 0

worlds: an image goes on
# A world from the image of one of two processes that stops after its commit. It continues from the image's words.
sizes 2 10 2 1: lock 0; step 0 11 clean; append 0 1 77; step 0 7; from-image; deeds 0; steps 0 0; began 0 0 1 1; recover 0; step 0 3 found inside; image {"cap":2,"data":[0,0,0,1,0,1,77,0,0,0,0,0,0,0,0,0,0,0,0],"limit":10,"lock":[[0,1,1],[0,0,0]],"version":2,"width":1} | reenter 0"#;
