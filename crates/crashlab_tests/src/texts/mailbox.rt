//! The worked rows of the mailbox: schedules and their reports.

pub const ROWS: &str = "\
lock
torn-before-the-commit
rme 1 procs 1 limit 10 cap 2
lock 0
step 0 8
append 0 1 77
step 0 6
crash 0
lock 0
step 0 4
consistent 0
step 0 2
append 0 1 77
step 0 13
unlock 0
step 0 2
--
begin 0
ready 0
enter 0
answer 0 clean
crash 0
reenter 0
answer 0 owner-died
answer 0 nothing-to-mend
commit 0 1 77
show 0 0 1 77
answer 0 stored
leave 0
answer 0 unlocked
words 0 0 0 0
mail 1 closed 0 ruined 0
message 0 0 1 77
verdict fine
==
torn-after-the-commit
rme 1 procs 1 limit 10 cap 2
lock 0
step 0 8
append 0 1 77
step 0 7
crash 0
lock 0
step 0 4
consistent 0
step 0 11
append 0 1 77
step 0 3
--
begin 0
ready 0
enter 0
answer 0 clean
commit 0 1 77
crash 0
reenter 0
answer 0 owner-died
show 0 0 1 77
answer 0 mended
answer 0 already
words 0 0 1 1
mail 1 closed 0 ruined 0
message 0 0 1 77
verdict fine
==
repair-of-what-is-done
rme 1 procs 1 limit 10 cap 2
lock 0
step 0 8
append 0 1 77
step 0 12
crash 0
lock 0
step 0 4
consistent 0
step 0 11
append 0 1 77
step 0 3
--
begin 0
ready 0
enter 0
answer 0 clean
commit 0 1 77
show 0 0 1 77
crash 0
reenter 0
answer 0 owner-died
answer 0 mended
answer 0 already
words 0 0 1 1
mail 1 closed 0 ruined 0
message 0 0 1 77
verdict fine
==
boundaries
rme 1 procs 1 limit 10 cap 1
lock 0
step 0 8
append 0 1 5
step 0 13
append 0 0 9
step 0 3
append 0 3 9
step 0 3
append 0 2 9
step 0 3
append 0 1 5
step 0 3
--
begin 0
ready 0
enter 0
answer 0 clean
commit 0 1 5
show 0 0 1 5
answer 0 stored
answer 0 out-of-order
answer 0 out-of-order
answer 0 full
answer 0 already
words 0 0 1 1
mail 1 closed 0 ruined 0
message 0 0 1 5
verdict fine
==
closing
rme 1 procs 1 limit 10 cap 1
lock 0
step 0 8
close 0
step 0 2
append 0 1 5
step 0 3
close 0
step 0
--
begin 0
ready 0
enter 0
answer 0 clean
close 0
answer 0 closed-now
answer 0 closed
answer 0 already-closed
words 0 0 1 1
mail 0 closed 1 ruined 0
verdict fine
==
board
rme 1 procs 1 limit 10 cap 1
lock 0
step 0 8
put 0 2 9
step 0
get 0 2
step 0
--
begin 0
ready 0
enter 0
answer 0 clean
answer 0 put
answer 0 word 9
words 0 0 1 1
mail 0 closed 0 ruined 0
verdict fine
==
wide-torn
rme 2 procs 1 limit 10 cap 1 width 3
lock 0
step 0 8
append 0 1 7 8 9
step 0 9
crash 0
--
begin 0
ready 0
enter 0
answer 0 clean
commit 0 1 7 8 9
crash 0
words 0 0 1 1
mail 0 closed 0 ruined 0
verdict fine
==
wide-torn-and-mended
rme 2 procs 1 limit 10 cap 1 width 3
lock 0
step 0 8
append 0 1 7 8 9
step 0 9
crash 0
lock 0
step 0 4
consistent 0
step 0 15
--
begin 0
ready 0
enter 0
answer 0 clean
commit 0 1 7 8 9
crash 0
reenter 0
answer 0 owner-died
show 0 0 1 7 8 9
answer 0 mended
words 0 0 1 1
mail 1 closed 0 ruined 0
message 0 0 1 7 8 9
verdict fine
==
torn-image
rme 1 procs 1 limit 10 cap 2
lock 0
step 0 8
append 0 1 77
step 0 7
crash 0
--
begin 0
ready 0
enter 0
answer 0 clean
commit 0 1 77
crash 0
words 0 0 1 1
mail 0 closed 0 ruined 0
verdict fine
";
