//! Reports of bakeries.

pub const BAKERIES: &str = r"report of bakeries
== bakery
rme 1 procs 3 limit 3 cap 1
lock 2
lock 0
step 0 9
lock 1
step 0 2
step 1 2
step 1 2
step 1 9
step 0 2
crash 0
step 1 9
recover 0
step 2 2
step 2 2
step 0 5
unlock 0
step 0 3
step 1 9
lock 0
step 1 9
step 0 2
step 0 5
step 0 2
withdraw 1
step 2 5
lock 2
step 1 5
step 2 9
--
begin 0
ready 0
begin 1
ready 1
enter 0
answer 0 clean
crash 0
begin 2
reenter 0
answer 0 found inside
leave 0
answer 0 unlocked
begin 0
ready 0
quit 2
answer 2 numbers-spent
quit 1
answer 1 withdrawn
begin 2
quit 2
answer 2 numbers-spent
words choosing 0 0 0
words number 3 0 0
words inside 0 0 0
verdict fine
== bakery_ruin
rme 1 procs 2 limit 4 cap 1
lock 1
lock 0
step 0 5
step 1 3
step 0 9
step 1 9
step 1 3
unlock 0
step 1
crash 0
step 1 2
step 1 5
step 1 3
withdraw 1
step 1 5
lock 1
lock 0
step 0 9
step 1
unlock 0
step 1
step 1 9
step 0 5
lock 0
step 1 9
lock 1
step 0 9
step 0 3
--
begin 0
ready 0
enter 0
answer 0 clean
begin 1
ready 1
crash 0
quit 1
answer 1 withdrawn
reenter 0
answer 0 owner-died
begin 1
ready 1
leave 0
answer 0 unlocked
enter 1
leave 1
answer 1 not-recoverable
begin 0
ready 0
enter 0
leave 0
words choosing 0 0
words number 0 0
words inside 1 0
words ruined 1
verdict fine
== bakery_1974
rme 1 procs 3 limit 4 cap 1
crash 2
lock 2
step 2 5
step 2 3
step 2 3
unlock 2
step 2 9
lock 2
crash 2
lock 0
step 0 9
unlock 0
lock 1
step 1
step 0 2
lock 0
lock 2
step 2
step 2 9
crash 2
lock 2
step 1 3
step 1 2
step 2 5
step 2 2
step 0 5
crash 0
step 1 3
--
crash 2
begin 2
ready 2
enter 2
answer 2 done
leave 2
answer 2 done
crash 2
begin 0
ready 0
enter 0
answer 0 done
begin 1
leave 0
answer 0 done
begin 2
ready 2
quit 2
crash 2
ready 1
begin 2
ready 2
begin 0
ready 0
quit 0
crash 0
enter 1
answer 1 done
words choosing 0 0 0
words number 4 2 3
verdict fine
";
