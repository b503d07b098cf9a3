//! Swaps, against the numbers and the runs of the reference program's second version.

pub const SEARCHES: &str = "\
search with swaps\n\
== test_and_set 1 1 0\n--\n4 states\n\
== test_and_set 2 1 0\n--\n12 states\n\
== test_and_set 2 1 1\n--\n39 states\n\
== test_and_set 3 1 1\n--\n119 states\n\
== test_and_test_and_set 2 1 0\n--\n21 states\n\
== test_and_test_and_set 2 1 1\n--\n63 states\n\
== test_and_test_and_set 3 1 1\n--\n271 states\n\
== ticket 2 1 0\n--\n56 states\n\
== ticket 2 1 1\n--\n8 moves\n\
== ticket 3 2 0\n--\n384 states\n\
== mcs 2 1 0\n--\n89 states\n\
== mcs 2 1 1\n--\n644 states\n\
== mcs 3 1 0\n--\n2361 states\n\
== recoverable_test_and_set 2 1 0\n--\n21 states\n\
== recoverable_test_and_set 2 1 1\n--\n64 states\n\
== recoverable_test_and_set 2 1 2\n--\n112 states\n\
== recoverable_test_and_set 3 1 1\n--\n279 states\n\
== recoverable_ticket 2 1 0\n--\n138 states\n\
== recoverable_ticket 2 1 1\n--\n14 moves\n\
== recoverable_ticket 3 1 0\n--\n1647 states\n\
== counter 1 1 0\n--\n7 states, 1 moves left out from line 9\n\
== counter 2 1 0\n--\n20 states, 10 moves left out from line 9\n\
== counter 2 3 0\n--\n64 states, 10 moves left out from line 9\n\
== counter 2 1 1\n--\n60 states, 28 moves left out from line 9\n\
== counter 3 1 1\n--\n182 states, 150 moves left out from line 9\n\
== owner 2 1 0\n--\n12 states\n\
== owner 2 1 1\n--\n40 states\n\
== owner 3 1 1\n--\n124 states\n\
== turnstile 1 1 0\n--\n5 states\n\
== turnstile 2 1 0\n--\n7 moves\n\
== board 1 1 0\n--\n5 states\n\
== board 2 1 0\n--\n8 moves\n\
== board 3 2 0\n--\n10 moves\n\
";

/// From each state all come home, or nobody does once a process has died.
pub const STUCK: &str = "\
stuck with swaps\n\
== ticket 3 1 0 lock-and-unlock\n--\n384 states\n\
== mcs 2 1 0 lock-and-unlock\n--\n89 states\n\
== recoverable_test_and_set 2 1 1 lock-and-unlock\n--\n64 states\n\
== test_and_set 2 1 1 lock-and-unlock\n--\nstuck after 3 moves\n\
== mcs 2 1 1 lock-and-unlock\n--\nstuck after 4 moves\n\
";

pub const STARVING: &str = "\
starve in a queue\n\
== ticket 2 1 0 none\n--\n56 worlds\n\
== ticket 3 1 0 none\n--\n384 worlds\n\
== mcs 2 1 0 none\n--\n89 worlds\n\
== mcs 3 1 0 none\n--\n1707 worlds\n\
";

pub const RUNS: &str = "\
run swaps\n\
== owner 2 1\n\
lock 0 -> started\n\
lock 1 -> started\n\
step 0 -> 8 owner swap 0 = 1 enter done\n\
step 1 -> 8 owner swap 1 blocked\n\
unlock 0 -> started\n\
step 0 -> 13 owner swap 1 = 0 leave done\n\
step 1 -> 8 owner swap 0 = 2 enter done\n\
unlock 1 -> started\n\
step 1 -> 13 owner swap 2 = 0 leave done\n\
words 0\n\
== turnstile 2 1\n\
lock 0 -> started\n\
lock 1 -> started\n\
step 0 -> 8 gate swap 0 = 1 blocked\n\
step 1 -> 8 gate swap 1 = 2 enter done\n\
step 0 -> 8 gate swap 2 = 0 blocked\n\
step 0 -> 8 gate swap 0 = 1 blocked\n\
step 0 -> 8 gate swap 1 = 2 enter done\n\
unlock 1 -> started\n\
step 1 -> 13 gate = 0 leave done\n\
step 0 -> refused: nothing to do\n\
words 0\n\
== counter 2 1\n\
lock 0 -> started\n\
lock 1 -> started\n\
step 0 -> 9 next swap 0 = 1 begin ready\n\
step 1 -> out of range at 9\n\
step 0 -> 11 serving 0 enter done\n\
unlock 0 -> started\n\
step 0 -> 16 serving swap 0 = 1 leave done\n\
lock 0 -> started\n\
step 0 -> out of range at 9\n\
step 1 -> out of range at 9\n\
words 1 1\n\
== mcs 2 1\n\
lock 0 -> started\n\
step 0 -> 10 next[0] = 0 begin\n\
step 0 -> 11 tail swap 0 = 1 ready enter done\n\
lock 1 -> started\n\
step 1 -> 10 next[1] = 0 begin\n\
step 1 -> 11 tail swap 1 = 2 ready\n\
step 1 -> 13 locked[1] = 1\n\
unlock 0 -> started\n\
step 0 -> 21 next[0] 0\n\
step 0 -> 23 tail swap 2\n\
step 0 -> 28 next[0] 0 blocked\n\
step 1 -> 14 next[0] = 2\n\
step 0 -> 28 next[0] 2\n\
step 0 -> 30 locked[1] = 0 leave done\n\
step 1 -> 15 locked[1] 0 enter done\n\
unlock 1 -> started\n\
step 1 -> 21 next[1] 0\n\
step 1 -> 23 tail swap 2 = 0 leave done\n\
words 0 2 0 0 0\n\
";

/// A swap shows what it read, and what it stored where it did.
pub const DRAWN: &str = "draw swaps
== mcs
rme 1 procs 2 limit 1 cap 1
lock 0
step 0 2
lock 1
step 1 3
unlock 0
step 0 3
step 1 2
step 0 2
step 1
--
0                         1                         |
: w next[0]=0             .                         | begin 0
# s tail 0=1              .                         | ready 0
#                         .                         | enter 0
#                         .                         | answer 0 done
#                         : w next[1]=0             | begin 1
#                         | s tail 1=2              | ready 1
#                         | w locked[1]=1           |
# r next[0] 0             |                         |
# s tail 2                |                         |
# r next[0] 0             |                         |
#                         | w next[0]=2             |
#                         | r locked[1] 1           |
# r next[0] 2             |                         |
. w locked[1]=0           |                         | leave 0
.                         |                         | answer 0 done
.                         # r locked[1] 0           | enter 1
.                         #                         | answer 1 done
verdict fine
. rest  : doorway  | waiting  # section  x crash
ended: fine
== test_and_set
rme 1 procs 2 limit 1 cap 1
lock 0
step 0
lock 1
step 1
unlock 0
step 0
step 1
--
0                         1                         |
# s held 0=1              .                         | begin 0
#                         .                         | ready 0
#                         .                         | enter 0
#                         .                         | answer 0 done
#                         . s held 1=1              |
. w held=0                .                         | leave 0
.                         .                         | answer 0 done
.                         # s held 0=1              | begin 1
.                         #                         | ready 1
.                         #                         | enter 1
.                         #                         | answer 1 done
verdict fine
. rest  : doorway  | waiting  # section  x crash
ended: fine
";

pub const SPELLED: &str = "spell swaps
== recoverable_test_and_set
--
Access(AccessLine { word: WordOf { declaration: 0, index: None }, action: Load { name: 0 }, may_withdraw: false })
Local(Branch { condition: Compare(Equal, Private(0), Joined(Sum, Me, Number(1))), otherwise: 3 })
Local(Goto(4))
Access(AccessLine { word: WordOf { declaration: 0, index: None }, action: Swap { name: 0, value: Joined(Sum, Me, Number(1)), guard: Some(Compare(Equal, Private(0), Number(0))), until: Some(Compare(Equal, Private(0), Number(0))) }, may_withdraw: false })
Local(Note(Enter))
Done(0)
Access(AccessLine { word: WordOf { declaration: 0, index: None }, action: Store { value: Number(0) }, may_withdraw: false })
Local(Note(Leave))
Done(0)
answer \n\
Entries { lock: 0, unlock: 6, recover: None, withdraw: None }
recoverable_test_and_set [\"h\"]
[Declaration { name: \"holder\", extent: One, bound: Some(Procs), home: None }]
Promises { most_inside: 1, reentry: true, order: false, progress: None, bounds: false }
StepBounds { exit: None, recovery: None, doorway: None }
1 to 64 processes, 0 lasting names
first values None
";

/// What is wrong, a text, and where: the line, and the number of its fault.
pub const BAD: &str = "\
read faults of swaps\n\
== no new value\nalgorithm a for 2 processes\npromises exclusion\nshared w up to 2\nshared a[procs]\ncall lock\n  v := swap w\n  this is enter\n  done\ncall unlock\n  w := 0 this is leave\n  done\n--\nline 6: fault 4\n\
== no value\nalgorithm a for 2 processes\npromises exclusion\nshared w up to 2\nshared a[procs]\ncall lock\n  v := swap w to\n  this is enter\n  done\ncall unlock\n  w := 0 this is leave\n  done\n--\nline 6: fault 4\n\
== no to\nalgorithm a for 2 processes\npromises exclusion\nshared w up to 2\nshared a[procs]\ncall lock\n  v := swap w 1\n  this is enter\n  done\ncall unlock\n  w := 0 this is leave\n  done\n--\nline 6: fault 4\n\
== no index\nalgorithm a for 2 processes\npromises exclusion\nshared w up to 2\nshared a[procs]\ncall lock\n  v := swap a to 1\n  this is enter\n  done\ncall unlock\n  w := 0 this is leave\n  done\n--\nline 6: fault 4\n\
== an index too many\nalgorithm a for 2 processes\npromises exclusion\nshared w up to 2\nshared a[procs]\ncall lock\n  v := swap a[0][1] to 1\n  this is enter\n  done\ncall unlock\n  w := 0 this is leave\n  done\n--\nline 6: fault 4\n\
== an index to one word\nalgorithm a for 2 processes\npromises exclusion\nshared w up to 2\nshared a[procs]\ncall lock\n  v := swap w[0] to 1\n  this is enter\n  done\ncall unlock\n  w := 0 this is leave\n  done\n--\nline 6: fault 4\n\
== until without await\nalgorithm a for 2 processes\npromises exclusion\nshared w up to 2\nshared a[procs]\ncall lock\n  v := swap w to 1 until v = 0\n  this is enter\n  done\ncall unlock\n  w := 0 this is leave\n  done\n--\nline 6: fault 4\n\
== await without until\nalgorithm a for 2 processes\npromises exclusion\nshared w up to 2\nshared a[procs]\ncall lock\n  await v := swap w to 1\n  this is enter\n  done\ncall unlock\n  w := 0 this is leave\n  done\n--\nline 6: fault 4\n\
== await with a guard alone\nalgorithm a for 2 processes\npromises exclusion\nshared w up to 2\nshared a[procs]\ncall lock\n  await v := swap w to 1 if v = 0\n  this is enter\n  done\ncall unlock\n  w := 0 this is leave\n  done\n--\nline 6: fault 4\n\
== the guard last\nalgorithm a for 2 processes\npromises exclusion\nshared w up to 2\nshared a[procs]\ncall lock\n  await v := swap w to 1 until v = 0 if v = 0\n  this is enter\n  done\ncall unlock\n  w := 0 this is leave\n  done\n--\nline 6: fault 4\n\
== a value as the guard\nalgorithm a for 2 processes\npromises exclusion\nshared w up to 2\nshared a[procs]\ncall lock\n  v := swap w to 1 if v\n  this is enter\n  done\ncall unlock\n  w := 0 this is leave\n  done\n--\nline 6: fault 4\n\
== a store of a swap\nalgorithm a for 2 processes\npromises exclusion\nshared w up to 2\nshared a[procs]\ncall lock\n  w := swap a[0] to 1\n  this is enter\n  done\ncall unlock\n  w := 0 this is leave\n  done\n--\nline 6: fault 4\n\
== unknown shared\nalgorithm a for 2 processes\npromises exclusion\nshared w up to 2\nshared a[procs]\ncall lock\n  v := swap x to 1\n  this is enter\n  done\ncall unlock\n  w := 0 this is leave\n  done\n--\nline 6: fault 6\n\
== unknown shared with an index\nalgorithm a for 2 processes\npromises exclusion\nshared w up to 2\nshared a[procs]\ncall lock\n  v := swap x[0] to 1\n  this is enter\n  done\ncall unlock\n  w := 0 this is leave\n  done\n--\nline 6: fault 6\n\
== unknown name in the value\nalgorithm a for 2 processes\npromises exclusion\nshared w up to 2\nshared a[procs]\ncall lock\n  v := swap w to u\n  this is enter\n  done\ncall unlock\n  w := 0 this is leave\n  done\n--\nline 6: fault 6\n\
== unknown name in the guard\nalgorithm a for 2 processes\npromises exclusion\nshared w up to 2\nshared a[procs]\ncall lock\n  v := swap w to 1 if u = 0\n  this is enter\n  done\ncall unlock\n  w := 0 this is leave\n  done\n--\nline 6: fault 6\n\
== a word in the index\nalgorithm a for 2 processes\npromises exclusion\nshared w up to 2\nshared a[procs]\ncall lock\n  v := swap a[w] to 1\n  this is enter\n  done\ncall unlock\n  w := 0 this is leave\n  done\n--\nline 6: fault 7\n\
== the word in the value\nalgorithm a for 2 processes\npromises exclusion\nshared w up to 2\nshared a[procs]\ncall lock\n  v := swap w to w + 1\n  this is enter\n  done\ncall unlock\n  w := 0 this is leave\n  done\n--\nline 6: fault 7\n\
== another word in the value\nalgorithm a for 2 processes\npromises exclusion\nshared w up to 2\nshared a[procs]\ncall lock\n  v := swap w to a[0]\n  this is enter\n  done\ncall unlock\n  w := 0 this is leave\n  done\n--\nline 6: fault 7\n\
== the word in the guard\nalgorithm a for 2 processes\npromises exclusion\nshared w up to 2\nshared a[procs]\ncall lock\n  v := swap w to 1 if w = 0\n  this is enter\n  done\ncall unlock\n  w := 0 this is leave\n  done\n--\nline 6: fault 7\n\
== me is set\nalgorithm a for 2 processes\npromises exclusion\nshared w up to 2\nshared a[procs]\ncall lock\n  me := swap w to 1\n  this is enter\n  done\ncall unlock\n  w := 0 this is leave\n  done\n--\nline 6: fault 8\n\
== await sets a shared word\nalgorithm a for 2 processes\npromises exclusion\nshared w up to 2\nshared a[procs]\ncall lock\n  await w := swap a[0] to 1 until w = 0\n  this is enter\n  done\ncall unlock\n  w := 0 this is leave\n  done\n--\nline 6: fault 8\n\
== a loop's name is set\nalgorithm a for 2 processes\npromises exclusion\nshared w up to 2\nshared a[procs]\ncall lock\n  for j in all\n  j := swap w to 1\n  end\n  this is enter\n  done\ncall unlock\n  w := 0 this is leave\n  done\n--\nline 7: fault 8\n\
== the index is reckoned before\nalgorithm a for 2 processes\npromises exclusion\nshared w up to 2\nshared a[procs]\ncall lock\n  v := swap a[v] to 1\n  this is enter\n  done\ncall unlock\n  w := 0 this is leave\n  done\n--\nline 6: fault 11\n\
== no withdraw\nalgorithm a for 2 processes\npromises exclusion\nshared w up to 2\nshared a[procs]\ncall lock\n  v := swap w to 1 may withdraw\n  this is enter\n  done\ncall unlock\n  w := 0 this is leave\n  done\n--\nline 6: fault 17\n\
";

/// `swap` is no word of the format.
pub const GOOD: &str = "\
read names with swap\n\
== a shared word of this name\nalgorithm a for 2 processes\npromises exclusion\nshared swap[procs] up to 2\nshared turn up to 2\ncall lock\n  v := swap[me]\n  v := swap swap[v] to v + 1 if v < 2\n  await v := swap[me] until v > 0\n  await v := swap turn to me until v != me may withdraw\n  turn := v this is enter\n  done\ncall unlock\n  swap[me] := 0 this is leave\n  done\ncall withdraw\n  swap[me] := 0\n  done\n--\nread\n\
== one word of this name\nalgorithm a for 2 processes\npromises exclusion\nshared swap\ncall lock\n  x := swap may withdraw this is enter\n  x := swap swap to x\n  await x := swap until x = x\n  swap := x\n  done\ncall unlock\n  x := swap this is leave\n  done\ncall withdraw\n  swap := 0\n  done\n--\nread\n\
== a private name of this name\nalgorithm a for 2 processes\npromises exclusion\nshared turn\ncall lock\n  swap := turn\n  x := swap\n  x := swap + 1\n  x := swap mod 2\n  swap := swap turn to swap if swap = x\n  turn := swap this is enter\n  done\ncall unlock\n  turn := 0 this is leave\n  done\n--\nread\n\
== in an if\nalgorithm a for 2 processes\npromises exclusion\nshared turn\ncall lock\n  x := turn\n  if x = 0 then x := swap turn to 1 if x = 0 this is enter\n  done\ncall unlock\n  turn := 0 this is leave\n  done\n--\nread\n\
";
