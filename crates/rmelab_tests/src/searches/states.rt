//! The states of searches as lines of texts. The lines are computed by hand, from the words of a state.

/// `FIRST`: of one process that may lock and unlock. `NARROW`: the same, by one character a word. `STILL`: it may only unlock, which is
/// refused outside, so that no move leads anywhere. `CRASH_OF_ALL`: the same where a crash of all may come. `NO_STATES`: the header alone. `NO_WORDS`: a key without words, which no state has.
pub const TEXTS: &str = "
@text FIRST
!states 1 words 68 digits 2 of right procs 1 calls lock unlock crashes 0 limit 4 cap 1 width 1
000?0000000000000000000000000000000000000000000001000000000000000000000000000000000000000000000000000000000000000000000000000000000000000T
@text NARROW
!states 1 words 68 digits 1 of right procs 1 calls lock unlock crashes 0 limit 4 cap 1 width 1
0?000000000000000000000010000000000000000000000000000000000000000000T
@text STILL
!states 1 words 68 digits 2 of right procs 1 calls unlock crashes 0 limit 4 cap 1 width 1
000?0000000000000000000000000000000000000000000001000000000000000000000000000000000000000000000000000000000000000000000000000000000000000T
@text CRASH_OF_ALL
!states 1 words 69 digits 2 of right procs 1 calls unlock crashes 0 system-crashes 1 limit 4 cap 1 width 1
000?000000000000000000000000000000000000000000000100000000000000000000000100000000000000000000000000000000000000000000000000000000000000000U
@text STILL_TWICE
!states 1 words 68 digits 2 of right procs 1 calls unlock crashes 0 limit 4 cap 1 width 1
000?0000000000000000000000000000000000000000000001000000000000000000000000000000000000000000000000000000000000000000000000000000000000000T
!states 1 words 68 digits 2 of right procs 1 calls unlock crashes 0 limit 4 cap 1 width 1
000?0000000000000000000000000000000000000000000001000000000000000000000000000000000000000000000000000000000000000000000000000000000000000T
@text NO_STATES
!states 1 words 68 digits 2 of right procs 1 calls unlock crashes 0 limit 4 cap 1 width 1
@text DAMAGED
!states 1 words 68 digits 2 of right procs 1 calls unlock crashes 0 limit 4 cap 1 width 1
000?0000000000000000000000000000000000000000000001000000000000000000000000000000000000000000000000000000000000000000000000000000000000000T
~
@text NO_WORDS
!states 1 words 68 digits 2 of right procs 1 calls unlock crashes 0 limit 4 cap 1 width 1
000000000000000000000000000000000000000000000000000000000000000000000000000000000000000000000000000000000000000000000000000000000000000000
@text BAD_SIZE
rmelab: bad size
@text UNREAD
rmelab: read failed
@text UNWRITTEN
rmelab: write failed
@text OTHER_HEADER
rmelab: states line 1: fault 1: this is no header of these states
";

/// A lock leads out of the set of the first state alone. Where nothing moves, that set is closed, whatever the part.
pub const STATES: &str = "
@row rmelab states first --variant right --procs 1 @out FIRST
@row rmelab states first --variant right --procs 1 --calls unlock,lock --words 0 @out FIRST
@row rmelab states first --variant right --procs 1 --digits 1 @out NARROW
@row rmelab states first --variant right --procs 1 --calls unlock --words 68 @out STILL
@row rmelab states first --variant right --procs 1 --calls unlock --system-crashes 1 @out CRASH_OF_ALL
@row rmelab states check --variant right --procs 1 --calls unlock --system-crashes 1 @in CRASH_OF_ALL @ends 1 @out
open: state 1 leads out of it
@row rmelab states expand --variant right --procs 1 --calls unlock @in CRASH_OF_ALL @ends 2 @err OTHER_HEADER
@row rmelab states expand --variant right --procs 1 --calls unlock @in STILL @out NO_STATES
@row rmelab states expand --variant right --procs 1 --calls unlock a.states @file a.states STILL @out NO_STATES
@row rmelab states expand --variant right --procs 1 --calls unlock @in NO_STATES @out NO_STATES
@row rmelab states lead --variant right --procs 1 --calls unlock @in STILL_TWICE @out NO_STATES
@row rmelab states home --variant right --procs 1 --calls unlock @in STILL_TWICE @out STILL
@row rmelab states check --variant right --procs 1 @in FIRST @ends 1 @out
open: state 1 leads out of it
@row rmelab states check --variant right --procs 1 --calls unlock @in NO_STATES @ends 1 @out
open: the first state is not in the set
@row rmelab states check --variant right --procs 1 --calls unlock @in STILL @out
closed: 1 states, part 0 of 1, sha256 ec246a7240ad486a98a4c1014d26056d83ddc2a6fd6ace4f9789c2b46c740fd2
@row rmelab states check --variant right --procs 1 --calls unlock --parts 3 --part 2 @in STILL @out
closed: 1 states, part 2 of 3, sha256 ec246a7240ad486a98a4c1014d26056d83ddc2a6fd6ace4f9789c2b46c740fd2
@row rmelab states expand --variant right --procs 1 @in STILL @ends 2 @err OTHER_HEADER
@row rmelab states expand --variant right --procs 1 @ends 2 @err OTHER_HEADER
@row rmelab states check --variant right --procs 1 @in STILL @ends 2 @err OTHER_HEADER
@row rmelab states lead --variant right --procs 1 @in STILL @ends 2 @err OTHER_HEADER
@row rmelab states home --variant right --procs 1 @in STILL @ends 2 @err OTHER_HEADER
@row rmelab states walk --variant right --procs 1 @in STILL @ends 2 @err OTHER_HEADER
@row rmelab states expand --variant right --procs 1 --calls unlock @in DAMAGED @ends 2 @out NO_STATES @err
rmelab: states line 3: fault 2: this is no line of a state
@row rmelab states check --variant right --procs 1 --calls unlock @in DAMAGED @ends 2 @err
rmelab: states line 3: fault 2: this is no line of a state
@row rmelab states expand --variant right --procs 1 --calls unlock @in NO_WORDS @ends 2 @out NO_STATES @err
rmelab: states line 2: fault 3: there is no such state
@row rmelab states check --variant right --procs 1 --calls unlock @in NO_WORDS @ends 2 @err
rmelab: states line 2: fault 3: there is no such state
@row rmelab states lead --variant right --procs 1 --calls unlock @in STILL @ends 2 @err
rmelab: states line 1: fault 5: the text has not two sets of states
@row rmelab states walk --variant right --procs 1 --calls unlock @in NO_STATES @ends 2 @err
rmelab: states line 1: fault 6: no move leads into this set
@row rmelab states walk --variant right --procs 1 --calls unlock @ends 2 @err
rmelab: states line 1: fault 7: no move goes wrong after this set
@row rmelab states last --variant right --procs 1 @ends 2 @err BAD_SIZE
@row rmelab states first --variant right --procs 65 @ends 2 @err BAD_SIZE
@row rmelab states first --variant right --procs 1 --words 35 @ends 2 @err BAD_SIZE
@row rmelab states first --variant right --procs 1 --digits 0 @ends 2 @err BAD_SIZE
@row rmelab states first --variant right --procs 1 --digits 11 @ends 2 @err BAD_SIZE
@row rmelab states first --variant right --procs 1 --calls lock,run @ends 2 @err BAD_SIZE
@row rmelab states check --variant right --procs 1 --part 1 @ends 2 @err BAD_SIZE
@row rmelab states check --variant right --procs 1 --parts 0 @ends 2 @err BAD_SIZE
@row rmelab states first --variant wrong --procs 1 @ends 2 @err
rmelab: bad variant
@row rmelab states first --procs 2 @ends 2 @err NO_LOCK
@row rmelab states first --algorithm a.lock --procs 3 @file a.lock PETERSON @ends 2 @err BAD_SIZE
@row rmelab states expand --algorithm a.lock --procs 2 @file a.lock PETERSON @in STILL @ends 2 @err OTHER_HEADER
";

pub const STATES_WHERE_DEVICES_FAIL: &str = "
@program
@row rmelab states first --variant right --procs 1 @fails write @ends 3 @err UNWRITTEN
@row rmelab states expand --variant right --procs 1 --calls unlock @in STILL @fails read @ends 3 @err UNREAD
@row rmelab states expand --variant right --procs 1 --calls unlock @in STILL @fails write @ends 3 @err UNWRITTEN
@row rmelab states check --variant right --procs 1 --calls unlock @in STILL @fails read @ends 3 @err UNREAD
@row rmelab states check --variant right --procs 1 --calls unlock @in STILL @fails write @ends 3 @err UNWRITTEN
@row rmelab states lead --variant right --procs 1 --calls unlock @in STILL_TWICE @fails write @ends 3 @err UNWRITTEN
@row rmelab states walk --variant right --procs 1 --calls unlock @in STILL @fails read @ends 3 @err UNREAD
@row rmelab states first --algorithm a.lock --procs 2 @ends 3 @err UNREAD
";
