//! Worked rows that a world refuses: the line, the number, and what was written before.

/// Each kind of line: a lock of a process that is inside, and of one whose lock is under way, a step of a process without a
/// call, a crash of a process that does not exist.
pub const KINDS: &str = "\
lock right no-look no-ties renumber exit-on-crash count-up last-skipped
already-in 4 6
rme 1 procs 2 limit 10 cap 1
lock 0
step 0 11
lock 0
--
begin 0
ready 0
enter 0
answer 0 clean
==
call-under-way 3 4
rme 1 procs 2 limit 10 cap 1
lock 0
lock 0
--
==
nothing-to-do 2 7
rme 1 procs 2 limit 10 cap 1
step 0
--
==
no-such-process 2 3
rme 1 procs 2 limit 10 cap 1
crash 5
--
";

pub const ROWS: &str = "\
lock
sizes 1 2
rme 1 procs 1 limit 0 cap 1
lock 0
--
==
sizes 1 8
rme 1 procs 1 limit 10 cap 0
lock 0
--
==
sizes 1 8
rme 1 procs 1 limit 10 cap 65537
lock 0
--
==
refusals 4 10
rme 1 procs 1 limit 10 cap 1
lock 0
step 0 8
consistent 0
--
begin 0
ready 0
enter 0
answer 0 clean
==
refusals 2 5
rme 1 procs 1 limit 10 cap 1
unlock 0
--
==
refusals-of-the-unmended 7 12
rme 1 procs 1 limit 10 cap 1
lock 0
step 0 8
crash 0
lock 0
step 0 4
append 0 1 5
--
begin 0
ready 0
enter 0
answer 0 clean
crash 0
reenter 0
answer 0 owner-died
==
withdraw-refused 2 14
rme 1 procs 2 limit 10 cap 1
withdraw 0
--
==
withdraw-refused 4 14
rme 1 procs 2 limit 10 cap 1
lock 0
step 0 4
withdraw 0
--
begin 0
==
withdraw-refused 4 14
rme 1 procs 2 limit 10 cap 1
lock 0
step 0 11
withdraw 0
--
begin 0
ready 0
enter 0
answer 0 clean
==
board-index 4 13
rme 1 procs 2 limit 10 cap 1
lock 0
step 0 11
get 0 4
--
begin 0
ready 0
enter 0
answer 0 clean
==
hostile-lines 2 3
rme 1 procs 2 limit 10 cap 1
step 2
--
==
hostile-lines 2 7
rme 1 procs 2 limit 10 cap 1
step 0
--
==
hostile-lines 2 5
rme 1 procs 2 limit 10 cap 1
get 0 4
--
==
hostile-lines 1 1
rme 1 procs 65 limit 10 cap 1
--
";
