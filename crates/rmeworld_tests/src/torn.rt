//! Images torn at each step of an append and of a repair. Each is lawful and is read as it was written. A world from it ends
//! with the mailbox of a run without a crash.

/// Appends and repairs that are torn.
pub const TABLES: &str = r#"worlds: torn appends and repairs
# One process with a capacity of two messages has sent one, and takes steps of the second append, whose values have W
# words. Up to the commit there are W + 6: three gets, the puts of the record, and the put of armed. Then W + 5 apply
# it. In the last rows it crashes after the commit, and takes steps of the repair, W + 4 gets and the same W + 5. From
# the image it locks, mends, and sends the second message again, each with exactly its number of steps.
for 0 6: sizes 1 10 2 1: lock 0; step 0 8 clean; append 0 1 1; step 0 13 stored; append 0 2 2; take 0; from-image; lock 0; step 0 4 owner-died; consistent 0; step 0 2 nothing-to-mend; append 0 2 2; step 0 13 stored; image {"cap":2,"data":[0,0,2,0,1,2,2,0,0,0,0,2,0,1,1,0,2,2],"limit":10,"lock":[[0,1,1]],"version":2,"width":1} | any
for 7 12: sizes 1 10 2 1: lock 0; step 0 8 clean; append 0 1 1; step 0 13 stored; append 0 2 2; take 0; from-image; lock 0; step 0 4 owner-died; consistent 0; step 0 11 mended; append 0 2 2; step 0 3 already; image {"cap":2,"data":[0,0,2,0,1,2,2,0,0,0,0,2,0,1,1,0,2,2],"limit":10,"lock":[[0,1,1]],"version":2,"width":1} | any
sizes 1 10 2 1: lock 0; step 0 8 clean; append 0 1 1; step 0 13 stored; append 0 2 2; take 0 13; from-image; lock 0; step 0 4 owner-died; consistent 0; step 0 2 nothing-to-mend; append 0 2 2; step 0 3 already; image {"cap":2,"data":[0,0,2,0,1,2,2,0,0,0,0,2,0,1,1,0,2,2],"limit":10,"lock":[[0,1,1]],"version":2,"width":1} | any
for 0 10: sizes 1 10 2 1: lock 0; step 0 8 clean; append 0 1 1; step 0 13 stored; append 0 2 2; take 0 7; crash 0; lock 0; step 0 4 owner-died; consistent 0; take 0; from-image; lock 0; step 0 4 owner-died; consistent 0; step 0 11 mended; append 0 2 2; step 0 3 already; image {"cap":2,"data":[0,0,2,0,1,2,2,0,0,0,0,2,0,1,1,0,2,2],"limit":10,"lock":[[0,1,1]],"version":2,"width":1} | any
sizes 1 10 2 1: lock 0; step 0 8 clean; append 0 1 1; step 0 13 stored; append 0 2 2; take 0 7; crash 0; lock 0; step 0 4 owner-died; consistent 0; take 0 11; from-image; lock 0; step 0 4 owner-died; consistent 0; step 0 2 nothing-to-mend; append 0 2 2; step 0 3 already; image {"cap":2,"data":[0,0,2,0,1,2,2,0,0,0,0,2,0,1,1,0,2,2],"limit":10,"lock":[[0,1,1]],"version":2,"width":1} | any
for 0 8: sizes 1 10 2 3: lock 0; step 0 8 clean; append 0 1 1 8 9; step 0 17 stored; append 0 2 2 8 9; take 0; from-image; lock 0; step 0 4 owner-died; consistent 0; step 0 2 nothing-to-mend; append 0 2 2 8 9; step 0 17 stored; image {"cap":2,"data":[0,0,2,0,1,2,2,8,9,0,0,0,0,2,0,1,1,8,9,0,2,2,8,9],"limit":10,"lock":[[0,1,1]],"version":2,"width":3} | any
for 9 16: sizes 1 10 2 3: lock 0; step 0 8 clean; append 0 1 1 8 9; step 0 17 stored; append 0 2 2 8 9; take 0; from-image; lock 0; step 0 4 owner-died; consistent 0; step 0 15 mended; append 0 2 2 8 9; step 0 3 already; image {"cap":2,"data":[0,0,2,0,1,2,2,8,9,0,0,0,0,2,0,1,1,8,9,0,2,2,8,9],"limit":10,"lock":[[0,1,1]],"version":2,"width":3} | any
sizes 1 10 2 3: lock 0; step 0 8 clean; append 0 1 1 8 9; step 0 17 stored; append 0 2 2 8 9; take 0 17; from-image; lock 0; step 0 4 owner-died; consistent 0; step 0 2 nothing-to-mend; append 0 2 2 8 9; step 0 3 already; image {"cap":2,"data":[0,0,2,0,1,2,2,8,9,0,0,0,0,2,0,1,1,8,9,0,2,2,8,9],"limit":10,"lock":[[0,1,1]],"version":2,"width":3} | any
for 0 14: sizes 1 10 2 3: lock 0; step 0 8 clean; append 0 1 1 8 9; step 0 17 stored; append 0 2 2 8 9; take 0 9; crash 0; lock 0; step 0 4 owner-died; consistent 0; take 0; from-image; lock 0; step 0 4 owner-died; consistent 0; step 0 15 mended; append 0 2 2 8 9; step 0 3 already; image {"cap":2,"data":[0,0,2,0,1,2,2,8,9,0,0,0,0,2,0,1,1,8,9,0,2,2,8,9],"limit":10,"lock":[[0,1,1]],"version":2,"width":3} | any
sizes 1 10 2 3: lock 0; step 0 8 clean; append 0 1 1 8 9; step 0 17 stored; append 0 2 2 8 9; take 0 9; crash 0; lock 0; step 0 4 owner-died; consistent 0; take 0 15; from-image; lock 0; step 0 4 owner-died; consistent 0; step 0 2 nothing-to-mend; append 0 2 2 8 9; step 0 3 already; image {"cap":2,"data":[0,0,2,0,1,2,2,8,9,0,0,0,0,2,0,1,1,8,9,0,2,2,8,9],"limit":10,"lock":[[0,1,1]],"version":2,"width":3} | any

worlds: torn between last and count
# Between the put of last and the put of count, two steps before the end of the append, and of the repair, last has the
# new number already, and the message is not shown yet.
sizes 1 10 2 1: lock 0; step 0 8 clean; append 0 1 1; step 0 13 stored; append 0 2 2; take 0 11; data 2 1; data 3 1; data 11 2; words 0 0 1 1 | any
sizes 1 10 2 1: lock 0; step 0 8 clean; append 0 1 1; step 0 13 stored; append 0 2 2; take 0 7; crash 0; lock 0; step 0 4 owner-died; consistent 0; take 0 9; data 2 1; data 3 1; data 11 2; words 0 0 1 1 | any
sizes 1 10 2 3: lock 0; step 0 8 clean; append 0 1 1 8 9; step 0 17 stored; append 0 2 2 8 9; take 0 15; data 2 1; data 3 1; data 13 2; words 0 0 1 1 | any
sizes 1 10 2 3: lock 0; step 0 8 clean; append 0 1 1 8 9; step 0 17 stored; append 0 2 2 8 9; take 0 9; crash 0; lock 0; step 0 4 owner-died; consistent 0; take 0 13; data 2 1; data 3 1; data 13 2; words 0 0 1 1 | any"#;
