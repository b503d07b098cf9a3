//! Replays under variants, and traces.

pub const VARIANTS_AND_TRACES: &str = "
@row rmelab replay --variant renumber @name between-two-words @ends 1 @in
rme 1 procs 2 limit 10 cap 1
lock 0
step 0 6
crash 0
lock 1
step 1 8
lock 0
step 0 8
step 1 4
@out
begin 0
ready 0
crash 0
begin 1
ready 1
enter 1
answer 1 clean
words 0 0 3 0
words 1 0 2 1
mail 0 closed 0 ruined 0
verdict against 4 at 6 by 1 of 0
@row rmelab replay --variant no-look @name wrong-variant @ends 1 @in
rme 1 procs 2 limit 10 cap 1
lock 0
lock 1
step 0 5
step 1 6
step 1 4
step 0 6
@out
begin 0
begin 1
ready 1
enter 1
answer 1 clean
ready 0
enter 0
answer 0 clean
words 0 0 1 1
words 1 0 1 1
mail 0 closed 0 ruined 0
verdict against 2 at 6
@row rmelab replay --variant right @in
rme 1 procs 2 limit 10 cap 1
lock 0
lock 1
step 0 5
step 1 6
step 1 4
step 0 6
@out
begin 0
begin 1
ready 1
ready 0
enter 0
answer 0 clean
words 0 0 1 1
words 1 0 1 0
mail 0 closed 0 ruined 0
verdict fine
@row rmelab judge @name trace @ends 1 @in
trace 1 procs 2 cap 1
begin 0
ready 0
begin 1
ready 1
enter 1
@out
verdict against 4 at 5 by 1 of 0
@row rmelab judge @in
trace 1 procs 2 cap 1
begin 0
ready 0
begin 1
ready 1
enter 0
@out
verdict fine
@row rmelab judge @ends 1 @in
trace 1 procs 1 cap 1
commit 0 1 5
@out
verdict against 5 at 1
@row rmelab judge @ends 2 @in
trace 1 procs 2 cap 1
begin 0
ready 0
begin 1
ready 1
enter 1
entr 1
@err
rmelab: line 7: fault 2
@row rmelab judge @in
trace 1 procs 2 cap 1
begin 0
ready 0
begin 1
ready 1
quit 0
enter 1
@out
verdict fine
";
