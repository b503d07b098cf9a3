//! The worked rows of the lock: schedules and their reports.

pub const ROWS: &str = "\
lock
smallest
rme 1 procs 1 limit 10 cap 1
lock 0
step 0 8
--
begin 0
ready 0
enter 0
answer 0 clean
words 0 0 1 1
mail 0 closed 0 ruined 0
verdict fine
==
first-steps
rme 1 procs 1 limit 1 cap 1
lock 0
step 0
step 0 3
--
begin 0
words 0 1 0 0
mail 0 closed 0 ruined 0
verdict fine
==
tie
rme 1 procs 2 limit 10 cap 1
lock 0
lock 1
step 0 5
step 1 5
step 0 2
step 1 2
step 1 3
step 0 4
--
begin 0
begin 1
ready 0
ready 1
enter 0
answer 0 clean
words 0 0 1 1
words 1 0 1 0
mail 0 closed 0 ruined 0
verdict fine
==
dead-in-the-doorway
rme 1 procs 2 limit 10 cap 1
lock 1
step 1 5
crash 1
lock 0
step 0 8
lock 1
step 1 6
step 0 4
--
begin 1
crash 1
begin 0
ready 0
ready 1
enter 0
answer 0 clean
words 0 0 1 1
words 1 0 2 0
mail 0 closed 0 ruined 0
verdict fine
==
between-two-words
rme 1 procs 2 limit 10 cap 1
lock 0
step 0 6
crash 0
lock 1
step 1 8
lock 0
step 0 8
step 1 4
--
begin 0
ready 0
crash 0
begin 1
ready 1
enter 0
answer 0 clean
words 0 0 1 1
words 1 0 2 0
mail 0 closed 0 ruined 0
verdict fine
==
re-entry
rme 1 procs 2 limit 10 cap 1
lock 0
step 0 11
lock 1
step 1 7
crash 0
step 1 3
lock 0
step 0 4
--
begin 0
ready 0
enter 0
answer 0 clean
begin 1
ready 1
crash 0
reenter 0
answer 0 owner-died
words 0 0 1 1
words 1 0 2 0
mail 0 closed 0 ruined 0
verdict fine
==
half-an-exit
rme 1 procs 2 limit 10 cap 1
lock 0
step 0 11
lock 1
step 1 8
unlock 0
step 0
crash 0
step 1 3
recover 0
step 0 4
--
begin 0
ready 0
enter 0
answer 0 clean
begin 1
ready 1
leave 0
crash 0
enter 1
answer 1 clean
answer 0 found left
words 0 0 0 0
words 1 0 2 1
mail 0 closed 0 ruined 0
verdict fine
==
ruined
rme 1 procs 2 limit 10 cap 1
lock 0
step 0 11
crash 0
lock 0
step 0 4
unlock 0
step 0 3
lock 1
step 1 13
lock 0
step 0 13
--
begin 0
ready 0
enter 0
answer 0 clean
crash 0
reenter 0
answer 0 owner-died
ruin 0
leave 0
answer 0 unlocked
begin 1
ready 1
enter 1
leave 1
answer 1 not-recoverable
begin 0
ready 0
enter 0
leave 0
answer 0 not-recoverable
words 0 0 0 0
words 1 0 0 0
mail 0 closed 0 ruined 1
verdict fine
==
number-limit
rme 1 procs 2 limit 1 cap 1
lock 0
step 0 11
lock 1
step 1 6
unlock 0
step 0 2
lock 1
step 1 11
--
begin 0
ready 0
enter 0
answer 0 clean
begin 1
quit 1
answer 1 numbers-spent
leave 0
answer 0 unlocked
begin 1
ready 1
enter 1
answer 1 clean
words 0 0 0 0
words 1 0 1 1
mail 0 closed 0 ruined 0
verdict fine
==
withdraw-waiting
rme 1 procs 2 limit 10 cap 1
lock 0
step 0 7
lock 1
step 1 9
withdraw 0
step 0
step 1 3
--
begin 0
ready 0
begin 1
ready 1
quit 0
answer 0 withdrawn
enter 1
answer 1 clean
words 0 0 0 0
words 1 0 2 1
mail 0 closed 0 ruined 0
verdict fine
==
withdraw-and-return
rme 1 procs 2 limit 10 cap 1
lock 0
step 0 11
lock 1
step 1 9
withdraw 1
step 1
lock 1
step 1 9
unlock 0
step 0 2
step 1 3
--
begin 0
ready 0
enter 0
answer 0 clean
begin 1
ready 1
quit 1
answer 1 withdrawn
begin 1
ready 1
leave 0
answer 0 unlocked
enter 1
answer 1 clean
words 0 0 0 0
words 1 0 2 1
mail 0 closed 0 ruined 0
verdict fine
==
wrong-variant
rme 1 procs 2 limit 10 cap 1
lock 0
lock 1
step 0 5
step 1 6
step 1 4
step 0 6
--
begin 0
begin 1
ready 1
ready 0
enter 0
answer 0 clean
words 0 0 1 1
words 1 0 1 0
mail 0 closed 0 ruined 0
verdict fine
";
