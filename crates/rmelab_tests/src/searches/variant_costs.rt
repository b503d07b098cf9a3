//! The costs of variants. Each schedule was replayed, and its remote references were counted. But for those with `consistent` or
//! `append`, a search by brute force in Python, over the steps of docs/theory/model.md, found the same costs.

/// Of one process. In a super-passage it reads its own words, and whether the lock is ruined, anew after the crash. An append that was
/// made already can be asked for again and again, in one passage.
pub const COSTS_OF_VARIANTS: &str = "
@row rmelab cost --variant right --model dsm --procs 1 --limit 1 --crashes 1 @out
rme 1 procs 1 limit 1 cap 1
lock 0
step 0
step 0
step 0
step 0
step 0
step 0
step 0
crash 0
lock 0
step 0
step 0
step 0
step 0
unlock 0
step 0
process 0 passage cost 2
@row rmelab cost --variant right --model dsm --procs 1 --limit 1 --crashes 1 --super-passages @out
rme 1 procs 1 limit 1 cap 1
lock 0
step 0
step 0
step 0
step 0
step 0
step 0
step 0
step 0
crash 0
lock 0
step 0
step 0
step 0
step 0
unlock 0
step 0
process 0 super-passage cost 3
@row rmelab cost --variant right --model write-through --procs 1 --limit 1 --crashes 1 --super-passages @out
rme 1 procs 1 limit 1 cap 1
lock 0
step 0
step 0
step 0
step 0
step 0
step 0
step 0
step 0
unlock 0
step 0
crash 0
lock 0
step 0
step 0
step 0
step 0
step 0
step 0
step 0
step 0
step 0
unlock 0
step 0
step 0
process 0 super-passage cost 20
@row rmelab cost --variant right --model write-back --procs 1 --limit 1 --crashes 1 --super-passages @out
rme 1 procs 1 limit 1 cap 1
lock 0
step 0
step 0
step 0
step 0
step 0
step 0
step 0
step 0
crash 0
lock 0
step 0
step 0
step 0
step 0
unlock 0
step 0
step 0
step 0
process 0 super-passage cost 14
@row rmelab cost --variant right --model dsm --procs 1 --limit 1 --crashes 1 --super-passages --calls lock,unlock,consistent @out
rme 1 procs 1 limit 1 cap 1
lock 0
step 0
step 0
step 0
step 0
step 0
step 0
step 0
step 0
crash 0
lock 0
step 0
step 0
step 0
step 0
consistent 0
step 0
step 0
process 0 super-passage cost 4
@row rmelab cost --variant right --model dsm --procs 1 --limit 1 --calls lock,unlock,append @ends 1 @out
rme 1 procs 1 limit 1 cap 1
lock 0
step 0
step 0
step 0
step 0
step 0
step 0
step 0
step 0
append 0 1 1
step 0
step 0
step 0
step 0
step 0
step 0
step 0
step 0
step 0
step 0
step 0
step 0
step 0
append 0 1 1
step 0
step 0
step 0
process 0 passage cost unbounded cycle 4
@row rmelab cost --variant right --model write-back --procs 1 --limit 1 --calls lock,unlock,append @out
rme 1 procs 1 limit 1 cap 1
lock 0
step 0
step 0
step 0
step 0
step 0
step 0
step 0
step 0
append 0 1 1
step 0
step 0
step 0
step 0
step 0
step 0
step 0
step 0
step 0
step 0
step 0
step 0
process 0 passage cost 19
@row rmelab cost --variant right --model write-back --procs 2 --limit 1 --calls unlock @out
rme 1 procs 2 limit 1 cap 1
process 0 passage cost 0
@row rmelab cost --variant right --model dsm --procs 1 --limit 0 @ends 2 @err
rmelab: bad size
";

/// Of two processes. In distributed shared memory one waits on a word of the other, for ever if the other does not move; with caches
/// its copy serves until the other stores.
pub const COSTS_OF_TWO: &str = "
@program
@row rmelab cost --variant right --model dsm --procs 2 --limit 1 --calls lock @ends 1 @out
rme 1 procs 2 limit 1 cap 1
lock 0
step 0
step 0
step 0
step 0
step 0
step 0
step 0
lock 1
step 1
step 1
step 1
step 1
step 0
process 0 passage cost unbounded cycle 1
@row rmelab cost --variant right --model write-through --procs 2 --limit 2 --calls lock @out
rme 1 procs 2 limit 2 cap 1
lock 0
step 0
step 0
step 0
step 0
step 0
step 0
step 0
lock 1
step 1
step 1
step 1
step 1
step 0
step 1
step 1
step 1
step 0
step 0
step 0
step 0
process 0 passage cost 12
@row rmelab cost --variant no-look --model write-back --procs 2 --limit 1 --calls lock @out
rme 1 procs 2 limit 1 cap 1
lock 0
step 0
step 0
step 0
step 0
step 0
lock 1
step 1
step 1
step 1
step 1
step 1
step 0
step 0
step 1
step 0
step 0
step 0
process 0 passage cost 9
@row rmelab cost --variant right --model dsm --procs 1 --limit 1 @fails write @ends 3 @err
rmelab: write failed
";
