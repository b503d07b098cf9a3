//! Schedules of which a line is refused: its number, that of the refusal, and what the lines before it report.

pub const REFUSALS: &str = r"report of refusals
== peterson
rme 1 procs 3 limit 1 cap 1
lock 0
--
ended: refused 1 1
== peterson
rme 1 procs 2 limit 4611686018427387905 cap 1
lock 0
--
ended: refused 1 2
== peterson
rme 1 procs 2 limit 1 cap 1
lock 2
--
ended: refused 2 3
== peterson
rme 1 procs 2 limit 1 cap 1
step 2
--
ended: refused 2 3
== peterson
rme 1 procs 2 limit 1 cap 1
crash 2
--
ended: refused 2 3
== peterson
rme 1 procs 2 limit 1 cap 1
consistent 2
--
ended: refused 2 3
== peterson
rme 1 procs 2 limit 1 cap 1
lock 0
lock 0
--
ended: refused 3 4
== peterson
rme 1 procs 2 limit 1 cap 1
lock 0
step 0 3
crash 1
lock 1
unlock 1
--
begin 0
ready 0
enter 0
answer 0 done
crash 1
ended: refused 6 4
== peterson
rme 1 procs 2 limit 1 cap 1
unlock 0
--
ended: refused 2 5
== peterson
rme 1 procs 2 limit 1 cap 1
lock 0
step 0 3
lock 0
--
begin 0
ready 0
enter 0
answer 0 done
ended: refused 4 6
== peterson
rme 1 procs 2 limit 1 cap 1
lock 0
step 0 3
unlock 0
unlock 0
--
begin 0
ready 0
enter 0
answer 0 done
ended: refused 5 4
== peterson
rme 1 procs 2 limit 1 cap 1
step 0
--
ended: refused 2 7
== peterson
rme 1 procs 2 limit 1 cap 1
lock 0
step 0 3
step 0
--
begin 0
ready 0
enter 0
answer 0 done
ended: refused 4 7
== peterson
rme 1 procs 2 limit 1 cap 1
lock 0
step 0 3
crash 0
step 0 2
--
begin 0
ready 0
enter 0
answer 0 done
crash 0
ended: refused 5 7
== peterson
rme 1 procs 2 limit 1 cap 1
recover 0
--
ended: refused 2 17
== peterson
rme 1 procs 2 limit 1 cap 1
withdraw 0
--
ended: refused 2 17
== peterson
rme 1 procs 2 limit 1 cap 1
lock 0
step 0 3
consistent 0
--
begin 0
ready 0
enter 0
answer 0 done
ended: refused 4 17
== peterson
rme 1 procs 2 limit 1 cap 1
lock 0
step 0 3
append 0 1 5
--
begin 0
ready 0
enter 0
answer 0 done
ended: refused 4 17
== peterson
rme 1 procs 2 limit 1 cap 1
lock 0
step 0 3
close 0
--
begin 0
ready 0
enter 0
answer 0 done
ended: refused 4 17
== peterson
rme 1 procs 2 limit 1 cap 1
lock 0
step 0 3
put 0 0 1
--
begin 0
ready 0
enter 0
answer 0 done
ended: refused 4 17
== peterson
rme 1 procs 2 limit 1 cap 1
lock 0
step 0 3
get 0 0
--
begin 0
ready 0
enter 0
answer 0 done
ended: refused 4 17
== recoverable_peterson
rme 1 procs 2 limit 1 cap 1
withdraw 1
--
ended: refused 2 14
== recoverable_peterson
rme 1 procs 2 limit 1 cap 1
lock 0
step 0
withdraw 0
--
ended: refused 4 14
== recoverable_peterson
rme 1 procs 2 limit 1 cap 1
lock 0
step 0 9
recover 0
--
begin 0
ready 0
enter 0
answer 0 clean
ended: refused 4 6
== recoverable_peterson
rme 1 procs 2 limit 1 cap 1
lock 0
step 0 9
unlock 1
--
begin 0
ready 0
enter 0
answer 0 clean
ended: refused 4 5
== recoverable_peterson
rme 1 procs 2 limit 1 cap 1
lock 0
step 0 9
crash 0
unlock 0
--
begin 0
ready 0
enter 0
answer 0 clean
crash 0
ended: refused 5 5
== bakery_1974
rme 1 procs 2 limit 0 cap 1
--
ended: refused 1 2
== bakery_1974
rme 1 procs 2 limit 1 cap 1
lock 1
step 1 9
lock 0
step 0 9
--
begin 1
ready 1
enter 1
answer 1 done
begin 0
ended: refused 5 16
== bakery_1974
rme 1 procs 2 limit 1 cap 1
lock 1
step 1 9
lock 0
step 0
step 0
step 0 2
--
begin 1
ready 1
enter 1
answer 1 done
begin 0
ended: refused 7 16
";
