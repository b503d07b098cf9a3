//! Worked schedules, under a variant and under the lock.

/// The lock. Process 0 restarts with its number taken and its doorway not shut. Or it has read the numbers and not taken its own,
/// while process 1 waits.
pub const RIGHT: &str = "\
right
between-two-words
rme 1 procs 2 limit 10 cap 1
lock 0
step 0 6
crash 0
lock 1
step 1 8
lock 0
step 0 8
step 1 4
--
begin 0
ready 0
crash 0
begin 1
ready 1
enter 0
answer 0 clean
words 0 0 1 1
words 1 0 2 0
mail 0 closed 0 ruined 0
verdict fine
==
wrong-variant
rme 1 procs 2 limit 10 cap 1
lock 0
lock 1
step 0 5
step 1 6
step 1 4
step 0 6
--
begin 0
begin 1
ready 1
ready 0
enter 0
answer 0 clean
words 0 0 1 1
words 1 0 1 0
mail 0 closed 0 ruined 0
verdict fine
";

/// The first under the variant that restarts so with a new number: another overtakes it.
pub const RENUMBERED: &str = "\
renumber
between-two-words
rme 1 procs 2 limit 10 cap 1
lock 0
step 0 6
crash 0
lock 1
step 1 8
lock 0
step 0 8
step 1 4
--
begin 0
ready 0
crash 0
begin 1
ready 1
enter 1
answer 1 clean
words 0 0 3 0
words 1 0 2 1
mail 0 closed 0 ruined 0
verdict against 4 at 6 by 1 of 0
";

/// The second under the variant that does not look: two are inside.
pub const UNLOOKED: &str = "\
no-look
wrong-variant
rme 1 procs 2 limit 10 cap 1
lock 0
lock 1
step 0 5
step 1 6
step 1 4
step 0 6
--
begin 0
begin 1
ready 1
enter 1
answer 1 clean
ready 0
enter 0
answer 0 clean
words 0 0 1 1
words 1 0 1 1
mail 0 closed 0 ruined 0
verdict against 2 at 6
";
