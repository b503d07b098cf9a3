//! Schedules and what they are minimized to.

/// Process 0 has read the numbers and not taken its own, while process 1 enters; then 0 enters too. Process 1 needs nine steps to
/// enter, and process 0 needs four after the five in its doorway. A crash of all at the end can go. Then schedules that are
/// refused: a repair of what needs none, and a header that no world has.
pub const ROWS: &str = "\
shrink-no-look
two-inside
rme 1 procs 2 limit 10 cap 1
lock 0
lock 1
step 0 5
step 1 6
step 1 4
step 0 6
--
rme 1 procs 2 limit 10 cap 1
lock 0
lock 1
step 0 5
step 1 9
step 0 4
==
two-inside-and-a-crash
rme 1 procs 2 limit 10 cap 1
lock 0
lock 1
step 0 5
step 1 6
step 1 4
step 0 6
crash all
--
rme 1 procs 2 limit 10 cap 1
lock 0
lock 1
step 0 5
step 1 9
step 0 4
==
mended-first 4 10
rme 1 procs 1 limit 10 cap 1
lock 0
step 0 8
consistent 0
--
==
sizes 1 1
rme 1 procs 65 limit 10 cap 1
--
";

/// The lock does nothing wrong.
pub const NONE: &str = "\
shrink-right
two-inside
rme 1 procs 2 limit 10 cap 1
lock 0
lock 1
step 0 5
step 1 6
step 1 4
step 0 6
--
";
