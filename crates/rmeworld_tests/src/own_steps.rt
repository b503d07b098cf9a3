//! The table of own steps, with 1, 2, 3 and 64 processes. The last of n processes crashes, or another process is there too.
//! Each row has all numbers of its n. Deeds are not compared.

/// The steps of the calls of a process that crashed, that has spent the numbers, and that waits.
pub const TABLES: &str = "\
cores: own steps of locks
# The steps of a lock of a process that crashed: 3n + 4 where it had taken no step, 3n + 3 in its doorway, 2n + 3 with
# its number taken, 2n + 2 waiting, 3 inside, 3n + 5 between the two stores of its exit, where the limit is 1.
sizes 1 10: lock 0; crash 0; lock 0; step 0 7 in; steps 0 7; blocked 0 0; unlock 0; step 0 2 out; steps 0 2 | any
sizes 1 10: lock 0; step 0 4; crash 0; lock 0; step 0 6 in; steps 0 6; blocked 0 0; unlock 0; step 0 2 out; steps 0 2 | any
sizes 1 10: lock 0; step 0 5; crash 0; lock 0; step 0 5 in; steps 0 5; blocked 0 0; unlock 0; step 0 2 out; steps 0 2 | any
sizes 1 10: lock 0; step 0 6; crash 0; lock 0; step 0 4 in; steps 0 4; blocked 0 0; unlock 0; step 0 2 out; steps 0 2 | any
sizes 1 10: lock 0; step 0 7 in; crash 0; lock 0; step 0 3 in-again; steps 0 3; blocked 0 0; unlock 0; step 0 2 out; steps 0 2 | any
sizes 1 1: lock 0; step 0 7 in; unlock 0; step 0 1; crash 0; lock 0; step 0 8 in; steps 0 8; blocked 0 0; unlock 0; step 0 2 out; steps 0 2 | any
sizes 2 10: lock 1; crash 1; lock 1; step 1 10 in; steps 1 10; blocked 1 0; unlock 1; step 1 2 out; steps 1 2 | any
sizes 2 10: lock 1; step 1 4; crash 1; lock 1; step 1 9 in; steps 1 9; blocked 1 0; unlock 1; step 1 2 out; steps 1 2 | any
sizes 2 10: lock 1; step 1 6; crash 1; lock 1; step 1 7 in; steps 1 7; blocked 1 0; unlock 1; step 1 2 out; steps 1 2 | any
sizes 2 10: lock 1; step 1 7; crash 1; lock 1; step 1 6 in; steps 1 6; blocked 1 0; unlock 1; step 1 2 out; steps 1 2 | any
sizes 2 10: lock 1; step 1 10 in; crash 1; lock 1; step 1 3 in-again; steps 1 3; blocked 1 0; unlock 1; step 1 2 out; steps 1 2 | any
sizes 2 1: lock 1; step 1 10 in; unlock 1; step 1 1; crash 1; lock 1; step 1 11 in; steps 1 11; blocked 1 0; unlock 1; step 1 2 out; steps 1 2 | any
sizes 3 10: lock 2; crash 2; lock 2; step 2 13 in; steps 2 13; blocked 2 0; unlock 2; step 2 2 out; steps 2 2 | any
sizes 3 10: lock 2; step 2 4; crash 2; lock 2; step 2 12 in; steps 2 12; blocked 2 0; unlock 2; step 2 2 out; steps 2 2 | any
sizes 3 10: lock 2; step 2 7; crash 2; lock 2; step 2 9 in; steps 2 9; blocked 2 0; unlock 2; step 2 2 out; steps 2 2 | any
sizes 3 10: lock 2; step 2 8; crash 2; lock 2; step 2 8 in; steps 2 8; blocked 2 0; unlock 2; step 2 2 out; steps 2 2 | any
sizes 3 10: lock 2; step 2 13 in; crash 2; lock 2; step 2 3 in-again; steps 2 3; blocked 2 0; unlock 2; step 2 2 out; steps 2 2 | any
sizes 3 1: lock 2; step 2 13 in; unlock 2; step 2 1; crash 2; lock 2; step 2 14 in; steps 2 14; blocked 2 0; unlock 2; step 2 2 out; steps 2 2 | any
sizes 64 10: lock 63; crash 63; lock 63; step 63 196 in; steps 63 196; blocked 63 0; unlock 63; step 63 2 out; steps 63 2 | any
sizes 64 10: lock 63; step 63 4; crash 63; lock 63; step 63 195 in; steps 63 195; blocked 63 0; unlock 63; step 63 2 out; steps 63 2 | any
sizes 64 10: lock 63; step 63 68; crash 63; lock 63; step 63 131 in; steps 63 131; blocked 63 0; unlock 63; step 63 2 out; steps 63 2 | any
sizes 64 10: lock 63; step 63 69; crash 63; lock 63; step 63 130 in; steps 63 130; blocked 63 0; unlock 63; step 63 2 out; steps 63 2 | any
sizes 64 10: lock 63; step 63 196 in; crash 63; lock 63; step 63 3 in-again; steps 63 3; blocked 63 0; unlock 63; step 63 2 out; steps 63 2 | any
sizes 64 1: lock 63; step 63 196 in; unlock 63; step 63 1; crash 63; lock 63; step 63 197 in; steps 63 197; blocked 63 0; unlock 63; step 63 2 out; steps 63 2 | any

cores: own steps of recoveries
# The steps of a recovery of a process that crashed in the same places.
sizes 1 10: lock 0; crash 0; recover 0; step 0 3 found idle; steps 0 3 | any
sizes 1 10: lock 0; step 0 4; crash 0; recover 0; step 0 3 found doorway; steps 0 3 | any
sizes 1 10: lock 0; step 0 5; crash 0; recover 0; step 0 4 found waiting; steps 0 4 | any
sizes 1 10: lock 0; step 0 6; crash 0; recover 0; step 0 3 found waiting; steps 0 3 | any
sizes 1 10: lock 0; step 0 7 in; crash 0; recover 0; step 0 3 found inside; steps 0 3 | any
sizes 1 1: lock 0; step 0 7 in; unlock 0; step 0 1; crash 0; recover 0; step 0 4 found left; steps 0 4 | any
sizes 2 10: lock 1; crash 1; recover 1; step 1 3 found idle; steps 1 3 | any
sizes 2 10: lock 1; step 1 4; crash 1; recover 1; step 1 3 found doorway; steps 1 3 | any
sizes 2 10: lock 1; step 1 6; crash 1; recover 1; step 1 4 found waiting; steps 1 4 | any
sizes 2 10: lock 1; step 1 7; crash 1; recover 1; step 1 3 found waiting; steps 1 3 | any
sizes 2 10: lock 1; step 1 10 in; crash 1; recover 1; step 1 3 found inside; steps 1 3 | any
sizes 2 1: lock 1; step 1 10 in; unlock 1; step 1 1; crash 1; recover 1; step 1 4 found left; steps 1 4 | any
sizes 3 10: lock 2; crash 2; recover 2; step 2 3 found idle; steps 2 3 | any
sizes 3 10: lock 2; step 2 4; crash 2; recover 2; step 2 3 found doorway; steps 2 3 | any
sizes 3 10: lock 2; step 2 7; crash 2; recover 2; step 2 4 found waiting; steps 2 4 | any
sizes 3 10: lock 2; step 2 8; crash 2; recover 2; step 2 3 found waiting; steps 2 3 | any
sizes 3 10: lock 2; step 2 13 in; crash 2; recover 2; step 2 3 found inside; steps 2 3 | any
sizes 3 1: lock 2; step 2 13 in; unlock 2; step 2 1; crash 2; recover 2; step 2 4 found left; steps 2 4 | any
sizes 64 10: lock 63; crash 63; recover 63; step 63 3 found idle; steps 63 3 | any
sizes 64 10: lock 63; step 63 4; crash 63; recover 63; step 63 3 found doorway; steps 63 3 | any
sizes 64 10: lock 63; step 63 68; crash 63; recover 63; step 63 4 found waiting; steps 63 4 | any
sizes 64 10: lock 63; step 63 69; crash 63; recover 63; step 63 3 found waiting; steps 63 3 | any
sizes 64 10: lock 63; step 63 196 in; crash 63; recover 63; step 63 3 found inside; steps 63 3 | any
sizes 64 1: lock 63; step 63 196 in; unlock 63; step 63 1; crash 63; recover 63; step 63 4 found left; steps 63 4 | any

cores: own steps where numbers are spent
# Another process holds the only number: n + 4 steps, n + 3 after a crash in the doorway, and n + 5 after one between
# the two stores of the exit, where the other process enters too.
sizes 2 1: lock 1; crash 1; lock 0; step 0 7; lock 1; step 1 6 spent; steps 1 6; blocked 1 0 | any
sizes 2 1: lock 1; step 1 4; crash 1; lock 0; step 0 7; lock 1; step 1 5 spent; steps 1 5; blocked 1 0 | any
sizes 2 1: lock 1; step 1 10 in; unlock 1; step 1 1; crash 1; lock 0; step 0 10 in; lock 1; step 1 7 spent; steps 1 7; blocked 1 0 | any
sizes 3 1: lock 2; crash 2; lock 0; step 0 8; lock 2; step 2 7 spent; steps 2 7; blocked 2 0 | any
sizes 3 1: lock 2; step 2 4; crash 2; lock 0; step 0 8; lock 2; step 2 6 spent; steps 2 6; blocked 2 0 | any
sizes 3 1: lock 2; step 2 13 in; unlock 2; step 2 1; crash 2; lock 0; step 0 13 in; lock 2; step 2 8 spent; steps 2 8; blocked 2 0 | any
sizes 64 1: lock 63; crash 63; lock 0; step 0 69; lock 63; step 63 68 spent; steps 63 68; blocked 63 0 | any
sizes 64 1: lock 63; step 63 4; crash 63; lock 0; step 0 69; lock 63; step 63 67 spent; steps 63 67; blocked 63 0 | any
sizes 64 1: lock 63; step 63 196 in; unlock 63; step 63 1; crash 63; lock 0; step 0 196 in; lock 63; step 63 69 spent; steps 63 69; blocked 63 0 | any

cores: own steps of waiting
# Blocked readings are steps too: 0 is inside while the last process has 20 of them. A withdraw takes one step, also if
# there is no other process.
sizes 1 10: lock 0; step 0 6; withdraw 0; began 0 0 1 0; step 0 1 withdrawn; steps 0 1; words 0 0 0 0 | any
sizes 2 10: lock 0; step 0 10 in; lock 1; step 1 28; blocked 1 20; unlock 0; step 0 2 out; step 1 2 in; steps 1 30 | any
sizes 2 10: lock 1; step 1 7; withdraw 1; began 1 0 1 0; step 1 1 withdrawn; steps 1 1; words 1 0 0 0 | any
sizes 3 10: lock 0; step 0 13 in; lock 2; step 2 29; blocked 2 20; unlock 0; step 0 2 out; step 2 4 in; steps 2 33 | any
sizes 3 10: lock 2; step 2 8; withdraw 2; began 2 0 1 0; step 2 1 withdrawn; steps 2 1; words 2 0 0 0 | any
sizes 64 10: lock 0; step 0 196 in; lock 63; step 63 90; blocked 63 20; unlock 0; step 0 2 out; step 63 126 in; steps 63 216 | any
sizes 64 10: lock 63; step 63 69; withdraw 63; began 63 0 1 0; step 63 1 withdrawn; steps 63 1; words 63 0 0 0 | any";
