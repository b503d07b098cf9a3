//! Schedules, their reports, and a refusal after part of a report.

pub const REPLAYS: &str = "
@row rmelab replay @name first-steps @in
rme 1 procs 1 limit 1 cap 1
lock 0
step 0
step 0 3
@out
begin 0
words 0 1 0 0
mail 0 closed 0 ruined 0
verdict fine
@row rmelab replay @ends 2 @in
rme 1 procs 1 limit 0 cap 1
lock 0
@err
rmelab: line 1: refused 2
@row rmelab replay @ends 2 @in
rme 1 procs 1 limit 10 cap 0
lock 0
@err
rmelab: line 1: refused 8
@row rmelab replay @ends 2 @in
rme 1 procs 1 limit 10 cap 65537
lock 0
@err
rmelab: line 1: refused 8
@row rmelab replay @name ruined @in
rme 1 procs 2 limit 10 cap 1
lock 0
step 0 11
crash 0
lock 0
step 0 4
unlock 0
step 0 3
lock 1
step 1 13
lock 0
step 0 13
@out
begin 0
ready 0
enter 0
answer 0 clean
crash 0
reenter 0
answer 0 owner-died
ruin 0
leave 0
answer 0 unlocked
begin 1
ready 1
enter 1
leave 1
answer 1 not-recoverable
begin 0
ready 0
enter 0
leave 0
answer 0 not-recoverable
words 0 0 0 0
words 1 0 0 0
mail 0 closed 0 ruined 1
verdict fine
@row rmelab replay @name refusals @ends 2 @in
rme 1 procs 1 limit 10 cap 1
lock 0
step 0 8
consistent 0
@out
begin 0
ready 0
enter 0
answer 0 clean
@err
rmelab: line 4: refused 10
@row rmelab replay @ends 2 @in
rme 1 procs 1 limit 10 cap 1
unlock 0
@err
rmelab: line 2: refused 5
@row rmelab replay @ends 2 @in
rme 1 procs 1 limit 10 cap 1
lock 0
step 0 8
crash 0
lock 0
step 0 4
append 0 1 5
@out
begin 0
ready 0
enter 0
answer 0 clean
crash 0
reenter 0
answer 0 owner-died
@err
rmelab: line 7: refused 12
@row rmelab replay @name withdraw-refused @ends 2 @in
rme 1 procs 2 limit 10 cap 1
withdraw 0
@err
rmelab: line 2: refused 14
@row rmelab replay @ends 2 @in
rme 1 procs 2 limit 10 cap 1
lock 0
step 0 4
withdraw 0
@out
begin 0
@err
rmelab: line 4: refused 14
@row rmelab replay @ends 2 @in
rme 1 procs 2 limit 10 cap 1
lock 0
step 0 11
withdraw 0
@out
begin 0
ready 0
enter 0
answer 0 clean
@err
rmelab: line 4: refused 14
@row rmelab replay @name torn-after-the-commit @in
rme 1 procs 1 limit 10 cap 2
lock 0
step 0 8
append 0 1 77
step 0 7
crash 0
lock 0
step 0 4
consistent 0
step 0 11
append 0 1 77
step 0 3
@out
begin 0
ready 0
enter 0
answer 0 clean
commit 0 1 77
crash 0
reenter 0
answer 0 owner-died
show 0 0 1 77
answer 0 mended
answer 0 already
words 0 0 1 1
mail 1 closed 0 ruined 0
message 0 0 1 77
verdict fine
@row rmelab replay @name wide-torn @in
rme 2 procs 1 limit 10 cap 1 width 3
lock 0
step 0 8
append 0 1 7 8 9
step 0 9
crash 0
@out
begin 0
ready 0
enter 0
answer 0 clean
commit 0 1 7 8 9
crash 0
words 0 0 1 1
mail 0 closed 0 ruined 0
verdict fine
@row rmelab replay @in
rme 2 procs 1 limit 10 cap 1 width 3
lock 0
step 0 8
append 0 1 7 8 9
step 0 9
crash 0
lock 0
step 0 4
consistent 0
step 0 15
@out
begin 0
ready 0
enter 0
answer 0 clean
commit 0 1 7 8 9
crash 0
reenter 0
answer 0 owner-died
show 0 0 1 7 8 9
answer 0 mended
words 0 0 1 1
mail 1 closed 0 ruined 0
message 0 0 1 7 8 9
verdict fine
@row rmelab replay @name hostile-text @ends 2 @in
rme 1 procs 2 limit 10 cap 1
lock 0
step 0 11
get 0 4
@out
begin 0
ready 0
enter 0
answer 0 clean
@err
rmelab: line 4: refused 13
";
