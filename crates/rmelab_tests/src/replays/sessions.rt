//! Sessions: the lines of a schedule one by one, back and on again, saved, and refused.

/// A session with the header alone; one that goes back; and one over the header alone that saves, in a folder where that fails.
pub const TEXTS: &str = "
@text HEADED
rme 1 procs 2 limit 10 cap 1
@text AT_REST
process 0: 0,0,0 (row 0,0,0 idle), outside
process 1: 0,0,0 (row 0,0,0 idle), outside
inside: nobody
@text UNREAD
rmelab: read failed
@text IN_AND_BACK
rme 1 procs 1 limit 10 cap 1
lock 0
step 0 4
to answer 0
undo
redo
quit
crash 0
@text IN_AND_BACK_TOLD
process 0: 0,0,0 (row 0,0,0 idle), outside
inside: nobody
process 0: 0,0,0 (row 0,0,0 idle), outside
inside: nobody
at 0 rest r choosing 0
at 0 rest r number 0
at 0 rest r inside 0
at 0 doorway w choosing=1
begin 0
process 0: 1,0,0 (row 1,0,0 doorway unfinished), in the doorway, has read 0 of 0 numbers
inside: nobody
at 0 waiting w number=1
ready 0
at 0 waiting w choosing=0
at 0 section w inside=1
enter 0
at 0 section r ruined 0
answer 0 clean
process 0: 0,1,1 (row 0,k,1 inside), inside
inside: process 0
process 0: 1,0,0 (row 1,0,0 doorway unfinished), in the doorway, has read 0 of 0 numbers
inside: nobody
at 0 waiting w number=1
ready 0
at 0 waiting w choosing=0
at 0 section w inside=1
enter 0
at 0 section r ruined 0
answer 0 clean
process 0: 0,1,1 (row 0,k,1 inside), inside
inside: process 0
@text UNSAVED
rme 1 procs 2 limit 10 cap 1
save b.rme
undo
@text UNSAVED_TOLD
process 0: 0,0,0 (row 0,0,0 idle), outside
process 1: 0,0,0 (row 0,0,0 idle), outside
inside: nobody
not saved
nothing to undo
@text UNWRITTEN
rmelab: write failed
";

/// What is refused or can't be read changes nothing, and is answered with the number of the schedule's next line.
/// In one session a process waits for another, is seen in the doorway, and comes back after a crash.
pub const SESSIONS: &str = "
@row rmelab step @in HEADED @out AT_REST
@row rmelab step a.rme @out AT_REST @file a.rme
rme 1 procs 2 limit 10 cap 1
lock 0
step 0 2
@row rmelab step @ends 2 @err
rmelab: line 1: fault 1
@row rmelab step @ends 2 @in
rme 1 procs 0 limit 10 cap 1
@err
rmelab: line 1: refused 1
@row rmelab step @ends 2 @in
rme 1 procs 2 limit 10 cap 1@err
rmelab: line 1: fault 5
@row rmelab step a.rme @ends 2 @file a.rme
rme 1 procs 2 limit 10 cap 1
lock 0
lock 0
@err
rmelab: line 3: refused 4
@row rmelab step b.rme @ends 3 @err UNREAD
@row rmelab step @in IN_AND_BACK @out IN_AND_BACK_TOLD
@row rmelab step @in
rme 1 procs 1 limit 10 cap 1
lock 1
lock
lock 01
wait 0

undo 0
to answer
to go 0
to answer 0
to answer 1
save
save a b
undo
redo
lock 0
crash 0 0
quit now
end@out
process 0: 0,0,0 (row 0,0,0 idle), outside
inside: nobody
line 2: refused 3
line 2: fault 3
line 2: fault 3
line 2: fault 2
line 2: fault 2
line 2: fault 6
line 2: fault 3
line 2: fault 2
line 2: refused 7
line 2: refused 3
line 2: fault 2
line 2: fault 6
nothing to undo
nothing to redo
process 0: 0,0,0 (row 0,0,0 idle), outside
inside: nobody
line 3: fault 6
line 3: fault 6
line 3: fault 5
@row rmelab step @in
rme 1 procs 3 limit 10 cap 1
lock 0
step 0 5
lock 1
to answer 1
step 1 9
step 0
step 0
step 1
crash 1
lock 1
step 1 2
@out
process 0: 0,0,0 (row 0,0,0 idle), outside
process 1: 0,0,0 (row 0,0,0 idle), outside
process 2: 0,0,0 (row 0,0,0 idle), outside
inside: nobody
process 0: 0,0,0 (row 0,0,0 idle), outside
process 1: 0,0,0 (row 0,0,0 idle), outside
process 2: 0,0,0 (row 0,0,0 idle), outside
inside: nobody
at 0 rest r choosing 0
at 0 rest r number 0
at 0 rest r inside 0
at 0 doorway w choosing=1
begin 0
at 0 doorway r number[1] 0
process 0: 1,0,0 (row 1,0,0 doorway unfinished), in the doorway, has read 1 of 2 numbers
process 1: 0,0,0 (row 0,0,0 idle), outside
process 2: 0,0,0 (row 0,0,0 idle), outside
inside: nobody
process 0: 1,0,0 (row 1,0,0 doorway unfinished), in the doorway, has read 1 of 2 numbers
process 1: 0,0,0 (row 0,0,0 idle), outside
process 2: 0,0,0 (row 0,0,0 idle), outside
inside: nobody
process 1 gets no answer by its own steps
at 1 rest r choosing 0
at 1 rest r number 0
at 1 rest r inside 0
at 1 doorway w choosing=1
begin 1
at 1 doorway r number[0] 0
at 1 doorway r number[2] 0
at 1 waiting w number=1
ready 1
at 1 waiting w choosing=0
at 1 waiting r choosing[0] 1
process 0: 1,0,0 (row 1,0,0 doorway unfinished), in the doorway, has read 1 of 2 numbers
process 1: 0,1,0 (row 0,k,0 waiting), waits for process 0, which is in the doorway
process 2: 0,0,0 (row 0,0,0 idle), outside
inside: nobody
at 0 doorway r number[2] 0
process 0: 1,0,0 (row 1,0,0 doorway unfinished), in the doorway, has read 2 of 2 numbers
process 1: 0,1,0 (row 0,k,0 waiting), waits for process 0, which is in the doorway
process 2: 0,0,0 (row 0,0,0 idle), outside
inside: nobody
at 0 waiting w number=1
ready 0
process 0: 1,1,0 (row 1,k,0 number taken), waits
process 1: 0,1,0 (row 0,k,0 waiting), waits for process 0, which is in the doorway
process 2: 0,0,0 (row 0,0,0 idle), outside
inside: nobody
at 1 waiting r choosing[0] 1
process 0: 1,1,0 (row 1,k,0 number taken), waits
process 1: 0,1,0 (row 0,k,0 waiting), waits for process 0, which is in the doorway
process 2: 0,0,0 (row 0,0,0 idle), outside
inside: nobody
at 1 dead
crash 1
process 0: 1,1,0 (row 1,k,0 number taken), waits
process 1: 0,1,0 (row 0,k,0 waiting), crashed
process 2: 0,0,0 (row 0,0,0 idle), outside
inside: nobody
process 0: 1,1,0 (row 1,k,0 number taken), waits
process 1: 0,1,0 (row 0,k,0 waiting), crashed
process 2: 0,0,0 (row 0,0,0 idle), outside
inside: nobody
at 1 dead r choosing 0
at 1 dead r number 1
process 0: 1,1,0 (row 1,k,0 number taken), waits
process 1: 0,1,0 (row 0,k,0 waiting), crashed, rereads its words
process 2: 0,0,0 (row 0,0,0 idle), outside
inside: nobody
@row rmelab step @in HEADED @fails read @out AT_REST @ends 3 @err UNREAD
@row rmelab step @in HEADED @fails write @ends 3 @err UNWRITTEN
@row rmelab step @in HEADED @fails flush @out AT_REST @ends 3 @err UNWRITTEN
@row rmelab step a.rme @file a.rme HEADED @fails file-read @ends 3 @err UNREAD
@row rmelab step @in
rme 1 procs 2 limit 10 cap 1
help
quit
lock 0
@out
process 0: 0,0,0 (row 0,0,0 idle), outside
process 1: 0,0,0 (row 0,0,0 idle), outside
inside: nobody
a line of a schedule: lock P, step P K, crash P, unlock P, recover P, withdraw P
                      of the built-in lock also: consistent P, append P SEQ VALUE, ..
undo         go back to before the last line
redo         take the line again that was undone last
to answer P  take steps of P until its call is answered
save FILE    write the schedule so far to a file, for replay
help, quit
";

pub const A_SESSION_IS_SAVED: &str = "
@program
@row rmelab step @in
rme 1 procs 2 limit 10 cap 1
lock 1
undo
lock 0
step 0 2
undo
save b.rme
@out
process 0: 0,0,0 (row 0,0,0 idle), outside
process 1: 0,0,0 (row 0,0,0 idle), outside
inside: nobody
process 0: 0,0,0 (row 0,0,0 idle), outside
process 1: 0,0,0 (row 0,0,0 idle), outside
inside: nobody
process 0: 0,0,0 (row 0,0,0 idle), outside
process 1: 0,0,0 (row 0,0,0 idle), outside
inside: nobody
process 0: 0,0,0 (row 0,0,0 idle), outside
process 1: 0,0,0 (row 0,0,0 idle), outside
inside: nobody
at 0 rest r choosing 0
at 0 rest r number 0
process 0: 0,0,0 (row 0,0,0 idle), outside
process 1: 0,0,0 (row 0,0,0 idle), outside
inside: nobody
process 0: 0,0,0 (row 0,0,0 idle), outside
process 1: 0,0,0 (row 0,0,0 idle), outside
inside: nobody
saved
@saves b.rme
rme 1 procs 2 limit 10 cap 1
lock 0
@row rmelab step @in UNSAVED @fails file @out UNSAVED_TOLD
@row rmelab step @in UNSAVED @fails file-memory @out UNSAVED_TOLD
";
