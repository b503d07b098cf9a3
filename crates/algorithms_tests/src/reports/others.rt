//! Reports of the other locks.

pub const ONE_WORD: &str = r"report of one word
== one_word
rme 1 procs 3 limit 1 cap 1
lock 0
lock 1
lock 2
step 1 2
crash 2
lock 2
unlock 1
step 2 9
step 1 5
step 2
step 0 3
lock 1
step 2 2
unlock 0
step 0 2
unlock 2
step 2 2
step 1 9
unlock 1
step 1 5
--
begin 1
ready 1
enter 1
answer 1 done
crash 2
leave 1
answer 1 done
begin 0
ready 0
enter 0
answer 0 done
begin 2
ready 2
enter 2
answer 2 done
leave 0
answer 0 done
leave 2
answer 2 done
begin 1
ready 1
enter 1
answer 1 done
leave 1
answer 1 done
words held 0
verdict against 2 at 11
";

pub const OTHERS: &str = r"report of other locks
== peterson
rme 1 procs 2 limit 1 cap 1
lock 1
crash 0
step 1 9
unlock 1
lock 0
step 0 5
step 0 5
crash 1
lock 1
step 0
step 1 9
step 0 3
step 1 3
step 1 5
unlock 0
step 1 2
step 0 9
step 1 9
lock 0
step 0
unlock 1
step 1 3
--
crash 0
begin 1
ready 1
enter 1
answer 1 done
crash 1
begin 0
ready 0
enter 0
answer 0 done
leave 0
answer 0 done
reenter 1
answer 1 done
leave 1
answer 1 done
words flag 1 0
words turn 0
verdict against 3 at 8
== peterson_order
rme 1 procs 2 limit 1 cap 1
lock 0
lock 1
step 0 5
unlock 0
step 0 2
step 1 2
lock 0
step 0 2
step 1 5
unlock 1
crash 0
step 1 9
lock 0
step 0 9
lock 1
step 1 2
unlock 0
step 1 9
step 1 9
step 0
lock 0
step 0 2
step 1
step 1
--
begin 0
ready 0
enter 0
answer 0 done
leave 0
answer 0 done
begin 1
ready 1
begin 0
ready 0
enter 1
answer 1 done
quit 0
crash 0
leave 1
answer 1 done
begin 0
ready 0
enter 0
answer 0 done
begin 1
ready 1
leave 0
answer 0 done
begin 0
ready 0
enter 1
answer 1 done
words flag 1 1
words turn 1
verdict fine
== recoverable_peterson
rme 1 procs 2 limit 1 cap 1
lock 0
lock 1
step 0 5
step 0 5
step 1
step 1 2
unlock 0
step 0 9
lock 0
step 1 3
crash 1
recover 1
step 1 9
unlock 1
step 1 3
lock 1
step 0 2
step 0 5
unlock 0
step 1 2
step 1 3
withdraw 1
step 0 5
lock 0
step 0 2
step 1 9
--
begin 0
ready 0
enter 0
answer 0 clean
begin 1
leave 0
answer 0 unlocked
ready 1
enter 1
answer 1 clean
crash 1
reenter 1
answer 1 found inside
leave 1
answer 1 unlocked
begin 0
ready 0
enter 0
answer 0 clean
begin 1
ready 1
leave 0
answer 0 unlocked
begin 0
quit 1
answer 1 withdrawn
words flag 1 0
words turn 0
verdict fine
== forgetful_peterson
rme 1 procs 2 limit 1 cap 1
lock 1
lock 0
step 1
step 0 5
step 1 9
unlock 0
step 1 3
step 1 5
step 0 5
lock 0
step 0 9
step 1 9
crash 0
unlock 1
step 1 2
lock 1
lock 0
step 1 2
step 1 3
step 1
step 0 9
step 0 2
step 1 9
step 0 3
unlock 1
step 1 5
--
begin 0
ready 0
enter 0
answer 0 clean
begin 1
ready 1
leave 0
answer 0 unlocked
begin 0
ready 0
enter 1
answer 1 clean
crash 0
leave 1
answer 1 unlocked
begin 1
ready 1
enter 1
answer 1 clean
leave 1
answer 1 unlocked
words flag 1 0
words turn 1
verdict against 4 at 14 by 1 of 0
== lamport_fast
rme 1 procs 3 limit 1 cap 1
lock 2
lock 1
lock 0
step 1 3
step 1 5
step 0 2
unlock 1
step 2 9
step 2 5
step 1 5
crash 1
step 2 2
step 2 9
unlock 2
step 2 5
lock 1
step 0 9
unlock 0
lock 2
step 2 2
crash 2
step 0 9
lock 2
step 1 5
crash 1
lock 0
--
begin 1
ready 1
enter 1
answer 1 done
leave 1
answer 1 done
crash 1
begin 2
ready 2
enter 2
answer 2 done
leave 2
answer 2 done
begin 0
ready 0
enter 0
answer 0 done
crash 2
leave 0
answer 0 done
begin 1
ready 1
enter 1
answer 1 done
leave 1
crash 1
words b 0 1 1
words x 1
words y 2
verdict fine
== szymanski
rme 1 procs 2 limit 1 cap 1
lock 0
step 0
step 0
lock 1
step 1
step 1
step 1
step 1
step 0
step 0
step 0
crash 0
lock 0
step 1
step 1
step 0
step 0
step 1
step 1
step 0
step 0
step 0
--
begin 0
ready 0
enter 0
answer 0 done
leave 0
crash 0
begin 1
ready 1
enter 1
answer 1 done
begin 0
ready 0
enter 0
answer 0 done
words flag 4 4
verdict against 2 at 11
== recoverable_peterson
rme 1 procs 2 limit 1 cap 1
lock 0
step 0 3
lock 1
step 1
crash all
lock 1
step 1 9
lock 0
step 0 9
--
begin 0
crash 0
crash 1
begin 1
ready 1
ready 0
words flag 2 2
words turn 1
verdict fine
== one_word
rme 1 procs 3 limit 1 cap 1
lock 1
step 1 2
crash all
lock 2
step 2 9
--
begin 1
ready 1
enter 1
answer 1 done
crash 0
leave 1
crash 1
crash 2
words held 1
verdict fine
";
