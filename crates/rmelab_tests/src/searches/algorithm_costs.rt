//! The costs of algorithms. The schedules have as many moves as those of the reference program of the format's second version, and cost
//! as much by its counting.

/// `COSTLY`: process 0 stores three times, and reads each of the other's words anew. `SHARED`: the other has read its flag before it
/// stores again. `FREE`: nobody starts a lock. `ALONE_COSTS`: it reads the word, and stores twice. `SPINS`: it waits for itself.
/// `NO_SEARCH`: what is printed for an option that does not go with `--mean`, or only with it.
pub const TEXTS: &str = "
@text COSTLY
rme 1 procs 2 limit 4 cap 1
lock 0
lock 1
step 1
step 1
step 1
step 0
step 0
step 0
unlock 1
step 1
lock 1
step 1
step 0
step 0
step 1
step 0
unlock 0
step 0
process 0 passage cost 6
@text SHARED
rme 1 procs 2 limit 4 cap 1
lock 0
step 0
lock 1
step 1
step 1
step 0
step 0
step 1
step 1
unlock 1
step 1
lock 1
step 1
step 0
step 0
step 1
step 0
unlock 0
step 0
process 0 super-passage cost 6
@text FREE
rme 1 procs 2 limit 4 cap 1
process 0 passage cost 0
@text ALONE_COSTS
rme 1 procs 1 limit 1 cap 1
lock 0
step 0
step 0
unlock 0
step 0
process 0 passage cost 3
@text SPINS
rme 1 procs 1 limit 1 cap 1
lock 0
step 0
step 0
crash 0
lock 0
step 0
process 0 passage cost unbounded cycle 1
@text NO_SEARCH
error: with '--mean' there is no '--variant', no '--super-passages', no '--calls', no '--crashes', no '--system-crashes' and no '--states', and without it no '--seed', no '--rounds' and no '--steps'

For more information, try '--help'.
";

/// Alone the lock reads its three words, stores six times, and reads whether it is ruined: 10 where stores go through, and written
/// back 7, as it has its words for itself after the first store of each. Its own words live at it, the data word does not.
/// Of those with `--mean` the first has the numbers of the reference program. Of one process the first passage costs 3, and each later
/// one 2, as it has a copy of the word that it reads; written back, the first costs 2, and each later one nothing.
pub const COSTS: &str = "
@row rmelab cost --algorithm a.lock --model write-through --procs 2 @file a.lock PETERSON @out COSTLY
@row rmelab cost --algorithm a.lock --model write-back --procs 2 --super-passages @file a.lock PETERSON @out SHARED
@row rmelab cost --algorithm a.lock --model write-back --procs 2 --calls unlock @file a.lock PETERSON @out FREE
@row rmelab cost --algorithm a.lock --model write-through --procs 1 --limit 1 @file a.lock ONE_WORD @out ALONE_COSTS
@row rmelab cost --algorithm a.lock --model dsm --procs 1 --limit 1 --crashes 1 @file a.lock ONE_WORD @out SPINS @ends 1
@row rmelab cost --algorithm a.lock --model write-through --procs 2 --states 50 @file a.lock PETERSON @ends 3 @err
rmelab: too many states
@row rmelab cost --algorithm a.lock --model write-through --procs 3 @file a.lock PETERSON @ends 2 @err BAD_SIZE
@row rmelab cost --algorithm a.lock --model dsm --procs 2 --limit 0 @file a.lock PETERSON @ends 2 @err BAD_SIZE
@row rmelab cost --algorithm a.lock --model numa --procs 2 @ends 2 @err BAD_SIZE
@row rmelab cost --algorithm a.lock --model dsm --procs 2 --calls lock,close @ends 2 @err BAD_SIZE
@row rmelab cost --algorithm a.lock --model dsm --procs 2 --mean --seed 7 --rounds 20 --steps 500 @file a.lock PETERSON @out
passages 1123 cost 7556 mean 6.72
@row rmelab cost --algorithm a.lock --model write-through --procs 1 --mean --rounds 1 --steps 500 @file a.lock ONE_WORD @out
passages 100 cost 201 mean 2.01
@row rmelab cost --algorithm a.lock --model write-back --procs 1 --mean --limit 1 --rounds 2 @file a.lock ONE_WORD @out
passages 400 cost 4 mean 0.01
@row rmelab cost --algorithm a.lock --model dsm --procs 2 --mean --steps 1 @file a.lock PETERSON @out
passages 0 cost 0
@row rmelab cost --algorithm a.lock --model dsm --procs 3 --mean @file a.lock PETERSON @ends 2 @err BAD_SIZE
@row rmelab cost --algorithm a.lock --model dsm --procs 2 --mean --limit 0 @file a.lock PETERSON @ends 2 @err BAD_SIZE
@row rmelab cost --algorithm a.lock --model numa --procs 2 --mean @ends 2 @err BAD_SIZE
@row rmelab cost --algorithm a.lock --model dsm --procs 2 --mean --rounds 10001 @ends 2 @err BAD_SIZE
@row rmelab cost --algorithm a.lock --model dsm --procs 2 --mean --steps 0 @ends 2 @err BAD_SIZE
@row rmelab cost --algorithm a.lock --model numa --procs 2 --mean --super-passages @ends 2 @err NO_SEARCH
@row rmelab cost --algorithm a.lock --model dsm --procs 2 --mean --crashes 1 @ends 2 @err NO_SEARCH
@row rmelab cost --algorithm a.lock --model dsm --procs 2 --seed 1 @ends 2 @err NO_SEARCH
@row rmelab cost --variant right --model dsm --procs 1 --limit 2 @out
rme 1 procs 1 limit 2 cap 1
lock 0
step 0
step 0
step 0
step 0
step 0
step 0
step 0
step 0
process 0 passage cost 1
@row rmelab cost --variant right --model write-back --procs 1 --limit 2 @out
rme 1 procs 1 limit 2 cap 1
lock 0
step 0
step 0
step 0
step 0
step 0
step 0
step 0
step 0
process 0 passage cost 7
@row rmelab cost --variant right --model write-through --procs 1 --limit 2 @out
rme 1 procs 1 limit 2 cap 1
lock 0
step 0
step 0
step 0
step 0
step 0
step 0
step 0
step 0
unlock 0
step 0
step 0
process 0 passage cost 10
@row rmelab cost --variant right --model dsm --procs 2 --mean @ends 2 @err NO_SEARCH
@row rmelab cost --variant right --model numa --procs 2 --seed 1 @ends 2 @err NO_SEARCH
@row rmelab cost --variant wrong --model dsm --procs 2 --mean @ends 2 @err BAD_VARIANT
@row rmelab cost --variant right --algorithm a.lock --model dsm --procs 2 @ends 2 @err BAD_VARIANT
@row rmelab cost --variant right --model numa --procs 2 @ends 2 @err BAD_SIZE
@row rmelab cost --variant right --model dsm --procs 2 --calls lock,nothing @ends 2 @err BAD_SIZE
@row rmelab cost --variant right --model dsm --procs 65 @ends 2 @err BAD_SIZE
@row rmelab cost --variant right --model dsm --procs 2 --states 50 @ends 3 @err
rmelab: too many states
";

pub const COSTS_THAT_FAIL: &str = "
@program
@row rmelab cost --algorithm a.lock --model dsm --procs 2 @file a.lock HIDDEN @ends 2 @err
rmelab: algorithm line 6, column 6: fault 7: a second access in one line
@row rmelab cost --algorithm a.lock --model dsm --procs 2 @ends 3 @err UNREAD
@row rmelab cost --algorithm a.lock --model dsm --procs 2 @file a.lock PETERSON @fails file-read @ends 3 @err UNREAD
@row rmelab cost --algorithm a.lock --model write-through --procs 2 @file a.lock PETERSON @fails write @ends 3 @err UNWRITTEN
@row rmelab cost --algorithm a.lock --model dsm --procs 2 --mean @file a.lock HIDDEN @ends 2 @err
rmelab: algorithm line 6, column 6: fault 7: a second access in one line
@row rmelab cost --algorithm a.lock --model dsm --procs 2 --mean --steps 1 @file a.lock PETERSON @fails write @ends 3 @err UNWRITTEN
";
