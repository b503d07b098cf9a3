//! Reports of wrong bakeries.

pub const VARIANTS: &str = r"report of wrong bakeries
== no_look
rme 1 procs 2 limit 3 cap 1
lock 0
lock 1
step 1 2
step 0 9
unlock 0
step 1 5
step 1 3
step 1 3
step 0 5
withdraw 1
step 1
lock 1
step 1 3
lock 0
step 0 5
step 1 5
step 1 9
step 0 9
unlock 0
step 0 5
lock 0
step 0 2
step 0 9
unlock 1
crash 1
step 0 2
lock 1
step 1 3
--
begin 0
ready 0
enter 0
answer 0 clean
begin 1
ready 1
leave 0
answer 0 unlocked
quit 1
answer 1 withdrawn
begin 0
begin 1
ready 1
enter 1
answer 1 clean
ready 0
enter 0
answer 0 clean
leave 0
answer 0 unlocked
begin 0
ready 0
crash 1
reenter 1
answer 1 owner-died
words choosing 0 0
words number 2 1
words inside 0 1
verdict against 2 at 13
== no_ties
rme 1 procs 2 limit 3 cap 1
lock 1
lock 0
step 0 5
step 1 2
step 1 9
step 0 5
step 1 2
unlock 0
step 1
crash 0
lock 0
unlock 1
step 1 9
lock 1
step 1 5
step 1 2
withdraw 1
step 1 5
lock 1
step 1 3
step 1
step 1 2
step 0
step 1 2
step 1 3
step 0 3
unlock 0
step 0 5
--
begin 0
begin 1
ready 1
ready 0
enter 0
answer 0 clean
enter 1
answer 1 clean
crash 0
leave 1
answer 1 unlocked
begin 1
ready 1
quit 1
answer 1 withdrawn
begin 1
ready 1
reenter 0
answer 0 owner-died
leave 0
answer 0 unlocked
words choosing 0 0
words number 0 2
words inside 0 0
verdict against 2 at 6
== renumber
rme 1 procs 2 limit 5 cap 1
lock 0
lock 1
step 1
step 0 3
step 0
step 0 2
step 1 2
step 0 3
step 1
step 1
step 1 2
step 0 5
step 1 3
unlock 0
crash 0
lock 0
step 0 5
step 1
step 1 2
unlock 0
step 1 2
step 1 5
step 1 2
withdraw 1
step 1 5
step 0 5
lock 0
step 0 2
--
begin 0
ready 0
begin 1
ready 1
enter 0
answer 0 clean
crash 0
reenter 0
answer 0 owner-died
quit 1
answer 1 withdrawn
leave 0
answer 0 unlocked
words choosing 0 0
words number 0 0
words inside 0 0
verdict fine
== exit_on_crash
rme 1 procs 2 limit 3 cap 1
lock 1
step 1
step 1 3
step 1 5
lock 0
step 0
step 0 5
step 1 5
crash 1
recover 1
step 1 2
step 0 5
step 1
step 0 2
step 1
step 0
step 1 3
lock 1
step 1 5
crash 1
step 0 2
lock 1
unlock 0
step 0 5
--
begin 1
ready 1
begin 0
ready 0
enter 1
answer 1 clean
crash 1
answer 1 found left
begin 1
crash 1
enter 0
answer 0 clean
leave 0
answer 0 unlocked
words choosing 0 1
words number 0 0
words inside 0 0
verdict against 1 at 7
";
