//! Schedules shrunk by `shrink` and by `hunt --shrink`.

/// `TWO_INSIDE`: process 0 has read the numbers and not taken its own while 1 enters. Then 0 enters too. `LEAST`: process 1
/// needs nine steps to enter, and 0 four after the five in its doorway.
pub const TEXTS: &str = "
@text TWO_INSIDE
rme 1 procs 2 limit 10 cap 1
lock 0
lock 1
step 0 5
step 1 6
step 1 4
step 0 6
@text LEAST
rme 1 procs 2 limit 10 cap 1
lock 0
lock 1
step 0 5
step 1 9
step 0 4
@text OTHER
a text that no command reads
@text FINE
verdict fine
@text UNREAD
rmelab: read failed
@text UNWRITTEN
rmelab: write failed
";

pub const SHRINKS: &str = "
@row rmelab shrink --variant no-look @in TWO_INSIDE @out LEAST @ends 1
@row rmelab shrink --variant no-look @in LEAST @out LEAST @ends 1
@row rmelab shrink --variant no-look s.rme @in OTHER @file s.rme TWO_INSIDE @out LEAST @ends 1
@row rmelab shrink --variant right @in TWO_INSIDE @out FINE
@row rmelab shrink --variant no-ties @in TWO_INSIDE @out FINE
@row rmelab shrink --variant no-look @ends 2 @in
rme 1 procs 1 limit 10 cap 1
lock 0
step 0 8
consistent 0
@err
rmelab: line 4: refused 10
@row rmelab shrink --variant no-look @ends 2 @in
rme 1 procs 65 limit 10 cap 1
@err
rmelab: line 1: refused 1
@row rmelab shrink --variant no-look @ends 2 @in
rme 1 procs 1 limit 10 cap 1
lock 01
@err
rmelab: line 2: fault 3
@row rmelab shrink --variant wrong @in TWO_INSIDE @ends 2 @err
rmelab: bad variant
@row rmelab shrink --variant no-look @in TWO_INSIDE @fails read @ends 3 @err UNREAD
@row rmelab shrink --variant no-look s.rme @in OTHER @file s.rme TWO_INSIDE @fails file-read @ends 3 @err UNREAD
@row rmelab shrink --variant no-look @in TWO_INSIDE @fails write @ends 3 @err UNWRITTEN
@row rmelab shrink --variant right @in TWO_INSIDE @fails write @ends 3 @err UNWRITTEN
@row rmelab shrink --variant no-look @in TWO_INSIDE @fails flush @out LEAST @ends 3 @err UNWRITTEN
@row rmelab shrink --variant no-look s.rme @in OTHER @fails file-memory @ends 3 @err
rmelab: out of memory
@row rmelab hunt --shrink --variant right --seed 1 --rounds 1 --steps 100 @out
nothing found
";
