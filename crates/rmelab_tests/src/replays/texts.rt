//! Texts that aren't schedules, and schedules whose first line or step is refused.

pub const HOSTILE_TEXTS: &str = "
@row rmelab replay @ends 2 @err
rmelab: line 1: fault 1
@row rmelab replay @ends 2 @in
rme 1 procs 2 limit 10 cap 1
lock 0@err
rmelab: line 2: fault 5
@row rmelab replay @ends 2 @in
rme 1 procs 2 limit 10 cap 1
lok 0
@err
rmelab: line 2: fault 2
@row rmelab replay @ends 2 @in
rme 1 procs 2 limit 10 cap 1
lock 01
@err
rmelab: line 2: fault 3
@row rmelab replay @ends 2 @in
rme 1 procs 2 limit 10 cap 1
lock
@err
rmelab: line 2: fault 3
@row rmelab replay @ends 2 @in
rme 1 procs 2 limit 10 cap 1
step 0 1
@err
rmelab: line 2: fault 3
@row rmelab replay @ends 2 @in
rme 1 procs 2 limit 10 cap 1
append 0 1 18446744073709551616
@err
rmelab: line 2: fault 4
@row rmelab replay @ends 2 @in
rme 1 procs 2 limit 10 cap 1
step 0 1000001
@err
rmelab: line 2: fault 4
@row rmelab replay @ends 2 @in
rme 1 procs 2 limit 10 cap 1
lock 0 0
@err
rmelab: line 2: fault 6
@row rmelab replay @ends 2 @in
rme 1 procs 2 limit 10 cap 1
lock 0 
@err
rmelab: line 2: fault 6
@row rmelab replay @ends 2 @in
rme 1 procs 2 limit 10 cap 1
step 0 
@err
rmelab: line 2: fault 3
@row rmelab replay @ends 2 @in
rme 1 procs 2 limit 10 cap 1
step 2
@err
rmelab: line 2: refused 3
@row rmelab replay @ends 2 @in
rme 1 procs 2 limit 10 cap 1
step 0
@err
rmelab: line 2: refused 7
@row rmelab replay @ends 2 @in
rme 1 procs 2 limit 10 cap 1
get 0 4
@err
rmelab: line 2: refused 5
@row rmelab replay @ends 2 @in
rme 1 procs 65 limit 10 cap 1
@err
rmelab: line 1: refused 1
";
