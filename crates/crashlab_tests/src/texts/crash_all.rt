//! The line `crash all`: it is played as a crash of each process, by rising number.

/// The longest worked row, with one line for the crashes of its 64 processes.
pub const EVERYTHING: &[u8] = b"rme 1 procs 64 limit 100 cap 1
lock 0
step 0 197
lock 1
step 1 69
crash all
";

/// After a crash of all nobody has a step to take. The refused line counts a crash of all as one.
pub const REFUSED: &str = "\
lock right
crash-all 5 7
rme 1 procs 2 limit 10 cap 1
lock 0
step 0 5
crash all
step 0
--
begin 0
crash 0
crash 1
";
