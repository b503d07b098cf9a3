//! Searches of algorithms. The schedules and the counts are those of the reference interpreter of the format.

/// `TWO_AT_ONCE`: both read that nobody holds it before either has stored. `CRASH_INSIDE`: process 0 dies inside, comes back and
/// gives way, and process 1 enters; `CRASH_OF_ALL`: so it does where all die. `STARVES`: process 1 sees the flag of process 0 each time. `OUT_OF_NUMBERS`: process 1 waits for no
/// number, process 0 for its doorway. `OUT_OF_RANGE`: the second entry is counted as 2. `NO_WAIT`: who leaves finds
/// no successor, and waits for none. `LEFT_HELD`: process 0 waits for itself. `THIRD_INSIDE`: a third enters where two may be inside. `NO_MAILBOX`: the options of a
/// variant's search alone.
pub const TEXTS: &str = "
@text CRASH_INSIDE
rme 1 procs 2 limit 1 cap 1
lock 0
step 0
step 0
step 0
crash 0
lock 0
step 0
lock 1
step 1
step 1
step 0
step 1
step 1
@text CRASH_OF_ALL
rme 1 procs 2 limit 1 cap 1
lock 0
step 0
step 0
step 0
crash all
lock 0
step 0
lock 1
step 1
step 1
step 0
step 1
step 1
@text TWO_AT_ONCE
rme 1 procs 2 limit 4 cap 1
lock 0
step 0
lock 1
step 1
step 0
step 1
@text STARVES
rme 1 procs 2 limit 1 cap 1
lock 1
lock 0
step 0
step 0
step 0
unlock 0
step 1
step 1
step 0
starves 1 cycle 8
@text STEM
rme 1 procs 2 limit 1 cap 1
lock 1
@text STEM_AND_CYCLES
rme 1 procs 2 limit 1 cap 1
lock 1
lock 0
step 0 3
unlock 0
step 1 2
step 0
lock 0
step 0 3
unlock 0
step 1 2
step 0
@text STEM_OF_0
rme 1 procs 2 limit 1 cap 1
lock 0
@text OUT_OF_NUMBERS
rme 1 procs 2 limit 1 cap 1
lock 0
step 0
step 0
step 0
lock 1
step 1
@text COUNTED
algorithm counted for 1 to 2 processes
promises exclusion, bounds
shared held up to 1
shared entries up to 1
call lock
  await h := swap held to 1 until h = 0
  this is enter
  e := entries
  entries := e + 1
  done
call unlock
  held := 0 this is leave
  done
@text COUNTED_MODULO_TWO
algorithm counted for 2 processes
promises exclusion, bounds
shared held up to 1
shared entries up to 1
call lock
  await h := swap held to 1 until h = 0
  this is enter
  e := entries
  entries := (e + 1) mod 2
  done
call unlock
  held := 0 this is leave
  done
@text COUNTED_UNHELD
algorithm counted for 2 processes
promises exclusion, bounds
shared held up to 1
call lock
  h := held
  this is enter
  done
call unlock
  held := 0 this is leave
  done
@text SEATS
algorithm seats for 1 to 64 processes
promises exclusion of 2, deadlock freedom, bounds
shared taken up to procs
call lock
  await t := swap taken to t + 1 if t < 2 until t < 2
  this is enter
  done
call unlock
  t := swap taken to t - 1 this is leave
  done
@text THREE_SEATS
algorithm seats for 1 to 64 processes
promises exclusion of 2, deadlock freedom, bounds
shared taken up to procs
call lock
  await t := swap taken to t + 1 if t < 3 until t < 3
  this is enter
  done
call unlock
  t := swap taken to t - 1 this is leave
  done
@text THIRD_INSIDE
rme 1 procs 3 limit 1 cap 1
lock 0
step 0
lock 1
step 1
lock 2
step 2
@text OUT_OF_RANGE
rme 1 procs 2 limit 1 cap 1
lock 0
step 0
step 0
step 0
unlock 0
step 0
lock 0
step 0
step 0
step 0
@text LINE_11
rmelab: line 11: refused 16: out of range at algorithm line 9
@text NO_WAIT
rme 1 procs 2 limit 4 cap 1
lock 0
step 0
step 0
unlock 0
step 0
lock 1
step 1
step 1
step 0
step 0
step 1
step 1
step 0
step 1
@text LINE_14
rmelab: line 14: refused 16: out of range at algorithm line 27
@text OUT_OF_RANGE_ALONE
rme 1 procs 1 limit 1 cap 1
lock 0
step 0
step 0
step 0
unlock 0
step 0
lock 0
step 0
step 0
step 0
@text LEFT_HELD
rme 1 procs 1 limit 1 cap 1
lock 0
step 0
step 0
crash 0
@text BAD_SIZE
rmelab: bad size
@text UNREAD
rmelab: read failed
@text UNWRITTEN
rmelab: write failed
@text BAD_VARIANT
rmelab: bad variant
@text NO_MAILBOX
error: with '--algorithm <FILE>' there is no '--all-variables', no '--cap' and no '--width'

For more information, try '--help'.
";

/// Words that are refused open no file. A schedule that is found replays to its fault; the cycle of one that starves comes back to
/// the same words each time.
pub const SEARCHES_OF_ALGORITHMS: &str = "
@row rmelab explore --algorithm a.lock --procs 2 --limit 1 @file a.lock NO_LOOK @out SHORTEST @ends 1
@row rmelab explore --procs 2 --algorithm a.lock --limit 1 --moves 20 --calls unlock,lock --jobs 3 @file a.lock NO_LOOK @out SHORTEST @ends 1
@row rmelab explore --procs 2 --algorithm a.lock --limit 1 --moves 20 --calls unlock,lock --jobs 1 @file a.lock NO_LOOK @out SHORTEST @ends 1
@row rmelab explore --algorithm a.lock --procs 2 --limit 1 --crashes 1 @file a.lock PETERSON @out CRASH_INSIDE @ends 1
@row rmelab explore --algorithm a.lock --procs 2 --limit 1 --system-crashes 1 @file a.lock PETERSON @out CRASH_OF_ALL @ends 1
@row rmelab explore --algorithm a.lock --procs 2 --limit 1 --system-crashes 1 --jobs 3 @file a.lock PETERSON @out CRASH_OF_ALL @ends 1
@row rmelab explore --algorithm a.lock --procs 2 --limit 1 --system-crashes 1 --calls lock,unlock @file a.lock BAKERY_RUIN @out
nothing found: all 2925 states
@row rmelab explore --algorithm a.lock --procs 2 --limit 1 --system-crashes 1 --stuck @file a.lock PETERSON @out CRASH_OF_ALL @ends 1
@row rmelab explore --variant wrong --procs 2 --system-crashes 1 @ends 2 @err BAD_VARIANT
@row rmelab explore --algorithm a.lock --procs 2 @file a.lock ONE_WORD @out TWO_AT_ONCE @ends 1
@row rmelab explore --algorithm a.lock --procs 2 --limit 1 --moves 19 --jobs 1 @file a.lock NO_LOOK @out
nothing found within 19 moves
@row rmelab explore --algorithm a.lock --procs 2 --limit 1 --moves 19 --jobs 3 @file a.lock NO_LOOK @out
nothing found within 19 moves
@row rmelab explore --algorithm a.lock --procs 2 --calls lock,unlock @file a.lock BAKERY_RUIN @out
nothing found: all 925 states
@row rmelab explore --algorithm a.lock --procs 2 @file a.lock BAKERY_RUIN @out
nothing found: all 1741 states
@row rmelab explore --algorithm a.lock --procs 2 --calls lock,unlock,recover,withdraw @file a.lock BAKERY_RUIN @out
nothing found: all 1741 states
@row rmelab explore --algorithm a.lock --procs 2 --states 58 --jobs 1 @file a.lock PETERSON @out
nothing found: all 58 states
@row rmelab explore --algorithm a.lock --procs 2 --states 58 --jobs 3 @file a.lock PETERSON @out
nothing found: all 58 states
@row rmelab explore --algorithm a.lock --procs 2 --jobs 1 @file a.lock BAKERY_1974 @out
nothing found: all 449 states, 26 moves left out from line 16
@row rmelab explore --algorithm a.lock --procs 2 --jobs 3 @file a.lock BAKERY_1974 @out
nothing found: all 449 states, 26 moves left out from line 16
@row rmelab explore --algorithm a.lock --procs 2 --limit 1 --crashes 1 @file a.lock BAKERY_1974 @out
nothing found: all 358 states, 79 moves left out from line 16
@row rmelab explore --algorithm a.lock --procs 2 --calls recover @file a.lock PETERSON @out
nothing found: all 1 states
@row rmelab explore --algorithm a.lock --procs 2 --limit 1 --jobs 1 @file a.lock COUNTED @out OUT_OF_RANGE @ends 1
@row rmelab explore --algorithm a.lock --procs 2 --limit 1 --jobs 3 @file a.lock COUNTED @out OUT_OF_RANGE @ends 1
@row rmelab explore --algorithm a.lock --procs 2 --limit 1 --moves 9 @file a.lock COUNTED @out
nothing found within 9 moves
@row rmelab explore --algorithm a.lock --procs 2 --states 5 @file a.lock COUNTED @ends 3 @err
rmelab: too many states
@row rmelab explore --algorithm a.lock --procs 3 @file a.lock COUNTED @ends 2 @err BAD_SIZE
@row rmelab explore --algorithm a.lock --procs 2 @file a.lock COUNTED_MODULO_TWO @out
nothing found: all 40 states
@row rmelab explore --algorithm a.lock --procs 2 --limit 1 @file a.lock COUNTED_UNHELD @ends 1 @out
rme 1 procs 2 limit 1 cap 1
lock 0
step 0
lock 1
step 1
@row rmelab replay --algorithm a.lock @in OUT_OF_RANGE @file a.lock COUNTED @ends 2 @err LINE_11 @out
begin 0
ready 0
enter 0
answer 0 done
leave 0
answer 0 done
begin 0
ready 0
enter 0
@row rmelab explore --algorithm a.lock --procs 3 --limit 1 --jobs 1 @file a.lock SEATS @out
nothing found: all 56 states
never starving: all 56 states
@row rmelab explore --algorithm a.lock --procs 3 --limit 1 --jobs 3 @file a.lock SEATS @out
nothing found: all 56 states
never starving: all 56 states
@row rmelab explore --algorithm a.lock --procs 3 --limit 1 --jobs 1 @file a.lock THREE_SEATS @out THIRD_INSIDE @ends 1
@row rmelab explore --algorithm a.lock --procs 3 --limit 1 --jobs 3 @file a.lock THREE_SEATS @out THIRD_INSIDE @ends 1
@row rmelab replay --algorithm a.lock @in THIRD_INSIDE @file a.lock THREE_SEATS @ends 1 @out
begin 0
ready 0
enter 0
answer 0 done
begin 1
ready 1
enter 1
answer 1 done
begin 2
ready 2
enter 2
answer 2 done
words taken 3
verdict against 2 at 9
@row rmelab hunt --algorithm a.lock --procs 3 --limit 1 --seed 2 --rounds 20 --steps 60 --shrink @file a.lock THREE_SEATS @ends 1 @out
rme 1 procs 3 limit 1 cap 1
lock 2
lock 1
step 1
lock 0
step 0
step 2
@row rmelab hunt --algorithm a.lock --procs 3 --limit 1 --seed 2 --rounds 20 --steps 60 @file a.lock SEATS @out
nothing found
@row rmelab explore --algorithm a.lock --procs 2 --limit 1 --starving @file a.lock BURNS @out STARVES @ends 1
@row rmelab explore --algorithm a.lock --procs 2 --limit 1 --starving any --jobs 2 @file a.lock BURNS @out STARVES @ends 1
@row rmelab explore --algorithm a.lock --procs 2 --limit 1 --starving nobody --states 58 @file a.lock PETERSON @out
never starving: all 58 states
@row rmelab explore --algorithm a.lock --procs 2 --limit 1 --starving @file a.lock BAKERY_1974 @ends 1 @out
rme 1 procs 2 limit 1 cap 1
lock 0
step 0
step 0
step 0
step 0
lock 1
step 1
step 1
step 0
step 1
starves 0 cycle 2
@row rmelab explore --algorithm a.lock --procs 2 @file a.lock MCS_NO_WAIT @ends 1 @out
nothing found: all 95 states, 6 moves left out from line 27
rme 1 procs 2 limit 4 cap 1
lock 0
step 0
step 0
unlock 0
step 0
lock 1
step 1
step 1
step 0
step 0
step 1
step 1
step 0
step 1
starves 0 cycle 2
@row rmelab replay --algorithm a.lock @in NO_WAIT @file a.lock MCS_NO_WAIT @ends 2 @err LINE_14 @out
begin 0
ready 0
enter 0
answer 0 done
begin 1
ready 1
@row rmelab explore --algorithm a.lock --procs 2 --limit 1 --jobs 3 @file a.lock FREE_TEST_AND_SET @out
nothing found: all 12 states
never starving: all 12 states
@row rmelab explore --algorithm a.lock --procs 2 --limit 1 --moves 3 @file a.lock FREE_TEST_AND_SET @out
nothing found within 3 moves
@row rmelab explore --algorithm a.lock --procs 2 --limit 1 @file a.lock FAIR_TEST_AND_SET @ends 1 @out
nothing found: all 12 states
rme 1 procs 2 limit 1 cap 1
lock 0
lock 1
step 1
step 0
unlock 1
step 1
starves 0 cycle 5
@row rmelab explore --algorithm a.lock --procs 2 --starving some @ends 2 @err BAD_SIZE
@row rmelab explore --algorithm a.lock --procs 2 --starving --moves 9 @ends 2 @err BAD_SIZE
@row rmelab explore --algorithm a.lock --procs 3 --starving @file a.lock PETERSON @ends 2 @err BAD_SIZE
@row rmelab explore --algorithm a.lock --procs 2 --states 57 --starving @file a.lock PETERSON @ends 3 @err
rmelab: too many states
@row rmelab explore --algorithm a.lock --procs 2 --stuck --states 58 @file a.lock PETERSON @out
never stuck: all 58 states
@row rmelab explore --algorithm a.lock --procs 2 --stuck --jobs 3 --limit 1 --crashes 1 @file a.lock PETERSON @out CRASH_INSIDE @ends 1
@row rmelab explore --algorithm a.lock --procs 2 --stuck --limit 1 @file a.lock BAKERY_1974 @out OUT_OF_NUMBERS @ends 1
@row rmelab explore --algorithm a.lock --procs 2 --stuck --limit 1 --calls lock @file a.lock BURNS @out STEM_OF_0 @ends 1
@row rmelab explore --algorithm a.lock --procs 1 --stuck --limit 1 --crashes 1 @file a.lock ONE_WORD @out LEFT_HELD @ends 1
@row rmelab explore --algorithm a.lock --procs 2 --stuck --starving --limit 1 @file a.lock PETERSON @out
never stuck: all 58 states
never starving: all 58 states
@row rmelab explore --algorithm a.lock --procs 1 --starving --stuck --limit 1 --crashes 1 @file a.lock ONE_WORD @ends 1 @out
rme 1 procs 1 limit 1 cap 1
lock 0
step 0
step 0
crash 0
rme 1 procs 1 limit 1 cap 1
lock 0
step 0
step 0
crash 0
lock 0
step 0
starves 0 cycle 1
@row rmelab explore --algorithm a.lock --procs 2 --stuck --moves 9 @ends 2 @err BAD_SIZE
@row rmelab explore --algorithm a.lock --procs 3 --stuck @file a.lock PETERSON @ends 2 @err BAD_SIZE
@row rmelab explore --algorithm a.lock --procs 3 --stuck --starving @file a.lock PETERSON @ends 2 @err BAD_SIZE
@row rmelab explore --algorithm a.lock --procs 2 --states 57 --stuck @file a.lock PETERSON @ends 3 @err
rmelab: too many states
@row rmelab explore --procs 2 --algorithm a.lock --variant right @ends 2 @err BAD_VARIANT
@row rmelab explore --procs 2 --variant wrong --algorithm a.lock --stuck @ends 2 @err BAD_VARIANT
@row rmelab explore --procs 2 --algorithm a.lock --calls lock,append @ends 2 @err BAD_SIZE
@row rmelab explore --procs 2 --algorithm a.lock --calls consistent @ends 2 @err BAD_SIZE
@row rmelab explore --procs 2 --algorithm a.lock --all-variables @ends 2 @err NO_MAILBOX
@row rmelab explore --procs 2 --algorithm a.lock --calls run --cap 1 @ends 2 @err NO_MAILBOX
@row rmelab explore --procs 2 --algorithm a.lock --width 1 @ends 2 @err NO_MAILBOX
@row rmelab explore --procs 2 --stuck --moves 1 @ends 2 @err NO_LOCK
@row rmelab explore --procs 2 --calls run @ends 2 @err NO_LOCK
@row rmelab explore --algorithm a.lock --procs 3 @file a.lock PETERSON @ends 2 @err BAD_SIZE
@row rmelab explore --algorithm a.lock --procs 2 --limit 0 @file a.lock PETERSON @ends 2 @err BAD_SIZE
@row rmelab explore --algorithm a.lock --procs 2 --states 57 --jobs 1 @file a.lock PETERSON @ends 3 @err
rmelab: too many states
@row rmelab explore --algorithm a.lock --procs 2 --states 57 --jobs 3 @file a.lock PETERSON @ends 3 @err
rmelab: too many states
@row rmelab explore --algorithm a.lock --procs 2 @ends 2 @file a.lock
algorithm a for 2 processes
promises exclusion@err
rmelab: algorithm line 2: fault 3: the last line is not ended by a line feed
@row rmelab replay --algorithm a.lock @in STEM @file a.lock BURNS @out
words flag 0 0
verdict fine
@row rmelab replay --algorithm a.lock @in STEM_AND_CYCLES @file a.lock BURNS @out
begin 0
ready 0
enter 0
answer 0 done
leave 0
answer 0 done
begin 0
ready 0
enter 0
answer 0 done
leave 0
answer 0 done
words flag 0 0
verdict fine
@row rmelab replay --algorithm a.lock @in TWO_AT_ONCE @file a.lock ONE_WORD @ends 1 @out
begin 0
ready 0
enter 0
answer 0 done
begin 1
ready 1
enter 1
answer 1 done
words held 1
verdict against 2 at 6
";

pub const SEARCHES_OF_ALGORITHMS_WHERE_DEVICES_FAIL: &str = "
@program
@row rmelab explore --algorithm a.lock --procs 2 @ends 3 @err UNREAD
@row rmelab explore --algorithm a.lock --procs 2 @file a.lock PETERSON @fails file-read @ends 3 @err UNREAD
@row rmelab explore --algorithm a.lock --procs 2 @file a.lock PETERSON @fails write @ends 3 @err UNWRITTEN
@row rmelab explore --algorithm a.lock --procs 2 --moves 3 @file a.lock PETERSON @fails write @ends 3 @err UNWRITTEN
@row rmelab explore --algorithm a.lock --procs 2 --limit 1 @file a.lock BAKERY_1974 @fails write @ends 3 @err UNWRITTEN
@row rmelab explore --algorithm a.lock --procs 2 --limit 1 --crashes 1 @file a.lock PETERSON @fails write @ends 3 @err UNWRITTEN
@row rmelab explore --algorithm a.lock --procs 2 --limit 1 --starving @file a.lock BURNS @fails write @ends 3 @err UNWRITTEN
@row rmelab explore --algorithm a.lock --procs 2 --limit 1 --starving @file a.lock PETERSON @fails write @ends 3 @err UNWRITTEN
@row rmelab explore --algorithm a.lock --procs 2 --limit 1 --crashes 1 @file a.lock PETERSON @fails flush @out CRASH_INSIDE @ends 3 @err UNWRITTEN
";
