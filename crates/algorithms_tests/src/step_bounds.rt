//! Bounds on own steps, against the numbers of the reference program's second version: an exit of `ticket` takes at most 2 steps, one
//! of `mcs` waits for its successor without a bound, `recoverable_test_and_set` has entered again after 1 step, and a doorway of
//! `ticket` takes 1 step.

/// A bound that is kept makes no state of a search, where the place of a process says how many steps it has taken. After a crash in
/// its doorway `bounded_peterson` comes to the same place by fewer steps.
pub const SEARCHES: &str = "\
search with bounds on own steps\n\
== ticket_exit_2 2 1 0\n--\n56 states\n\
== ticket_exit_1 2 1 0\n--\n6 moves\n\
== mcs_exit_3 2 1 0\n--\n11 moves\n\
== bounded_test_and_set 2 1 0\n--\n21 states\n\
== bounded_test_and_set 2 1 1\n--\n64 states\n\
== instant_test_and_set 2 1 0\n--\n21 states\n\
== instant_test_and_set 2 1 1\n--\n6 moves\n\
== bounded_ticket 2 1 0\n--\n56 states\n\
== hurried_ticket 2 1 0\n--\n2 moves\n\
== bounded_peterson 2 1 0\n--\n138 states\n\
== bounded_peterson 2 1 1\n--\n594 states\n\
== semaphore_2 3 4 0\n--\n56 states\n\
== clearing 2 1 0\n--\n20 states\n\
== clearing 3 1 0\n--\n68 states\n\
== hasty_clearing 2 1 0\n--\n6 moves\n\
== hasty_clearing 3 1 0\n--\n7 moves\n\
== squared 1 1 0\n--\nthe algorithm is not for this number of processes\n\
== squared 2 1 0\n--\n12 states\n\
== squared 2 2147483648 0\n--\n12 states\n\
== squared 2 4294967296 0\n--\nthe algorithm is not for this number of processes\n\
== squared 2 4611686018427387904 0\n--\nthe algorithm is not for this number of processes\n\
";

/// The values of the bounds are kept as they are said.
pub const SPELLED: &str = "spell bounds of values
== squared
--
Access(AccessLine { word: WordOf { declaration: 0, index: None }, action: Swap { name: 0, value: Number(1), guard: None, until: Some(Compare(Equal, Private(0), Number(0))) }, may_withdraw: false })
Local(Note(Enter))
Done(0)
Access(AccessLine { word: WordOf { declaration: 0, index: None }, action: Store { value: Number(0) }, may_withdraw: false })
Local(Note(Leave))
Done(0)
answer \n\
Entries { lock: 0, unlock: 3, recover: None, withdraw: None }
squared [\"v\"]
[Declaration { name: \"held\", extent: One, bound: Some(Number(1)), home: None }]
Promises { most_inside: 1, reentry: false, order: false, progress: None, bounds: false }
StepBounds { exit: Some(Joined(Product, Limit, Limit)), recovery: Some(Joined(Difference, Procs, Number(2))), doorway: None }
1 to 64 processes, 0 lasting names
first values None
";

/// The first step above the bound is reported once, before the deeds of the step. A crash gives the section up. The verdict on the
/// deeds comes first.
pub const REPORTS: &str = "\
report of an excess\n\
== mcs_exit_3
rme 1 procs 2 limit 1 cap 1
lock 0
step 0 2
unlock 0
step 0
lock 1
step 1 2
step 0 5
--
begin 0
ready 0
enter 0
answer 0 done
begin 1
ready 1
exceeds 0 exit
words tail 2
words next 0 0
words locked 0 0
verdict against 8 at 6
== ticket_exit_1
rme 1 procs 1 limit 1 cap 1
lock 0
step 0 2
unlock 0
step 0 2
--
begin 0
ready 0
enter 0
answer 0 done
exceeds 0 exit
leave 0
answer 0 done
words next 0
words serving 0
verdict against 8 at 4
== ticket_exit_1
rme 1 procs 1 limit 1 cap 1
lock 0
step 0 2
unlock 0
step 0
crash 0
lock 0
step 0
--
begin 0
ready 0
enter 0
answer 0 done
leave 0
crash 0
begin 0
ready 0
words next 0
words serving 0
verdict fine
== instant_test_and_set
rme 1 procs 1 limit 1 cap 1
lock 0
step 0 2
crash 0
lock 0
step 0
--
begin 0
ready 0
enter 0
answer 0 done
crash 0
exceeds 0 recovery
reenter 0
answer 0 done
words holder 1
verdict against 9 at 5
== hurried_ticket
rme 1 procs 1 limit 1 cap 1
lock 0
step 0 2
--
exceeds 0 doorway
begin 0
ready 0
enter 0
answer 0 done
words next 0
words serving 0
verdict against 10 at 1
== hasty_clearing
rme 1 procs 2 limit 1 cap 1
lock 0
step 0
unlock 0
step 0 3
--
begin 0
ready 0
enter 0
answer 0 done
exceeds 0 exit
leave 0
answer 0 done
words held 0
words wants 0 0
verdict against 8 at 4
== hasty_clearing
rme 1 procs 3 limit 1 cap 1
lock 0
step 0
unlock 0
step 0 3
step 0
--
begin 0
ready 0
enter 0
answer 0 done
exceeds 0 exit
leave 0
answer 0 done
words held 0
words wants 0 0 0
verdict against 8 at 4
== clearing
rme 1 procs 3 limit 1 cap 1
lock 0
step 0
unlock 0
step 0 4
--
begin 0
ready 0
enter 0
answer 0 done
leave 0
answer 0 done
words held 0
words wants 0 0 0
verdict fine
";

/// A schedule that a search finds is least already, but for its lines of steps.
pub const LEAST: &str = "\
shrink a schedule against a bound\n\
== mcs_exit_3
rme 1 procs 2 limit 1 cap 1
lock 0
step 0
step 0
unlock 0
step 0
lock 1
step 1
step 1
step 0
step 0
step 0
--
rme 1 procs 2 limit 1 cap 1
lock 0
step 0 2
unlock 0
lock 1
step 1 2
step 0 4
";

/// The excess has a row of its own. The verdict is against no deed, so that none is marked.
pub const DRAWING: &str = "\
draw an excess\n\
== ticket_exit_1
rme 1 procs 1 limit 1 cap 1
lock 0
step 0 2
unlock 0
step 0 2
--
0                         |
| s next 0=0              | begin 0
|                         | ready 0
# r serving 0             | enter 0
#                         | answer 0 done
# r serving 0             |
. w serving=0             | exceeds 0 exit
.                         | leave 0
.                         | answer 0 done
verdict against 8 at 4
. rest  : doorway  | waiting  # section  x crash
ended: against at 4
";

/// What is wrong, a text, and where: the line, and the number of its fault.
pub const BAD: &str = "\
read faults of bounds\n\
== no bound\nalgorithm a for 2 processes\npromises exclusion, exit\nshared w\ncall lock\n  w := 1 this is enter\n  done\ncall unlock\n  w := 0 this is leave\n  done\n--\nline 2: fault 4\n\
== no number\nalgorithm a for 2 processes\npromises exclusion, exit within\nshared w\ncall lock\n  w := 1 this is enter\n  done\ncall unlock\n  w := 0 this is leave\n  done\n--\nline 2: fault 4\n\
== a name\nalgorithm a for 2 processes\npromises exclusion, exit within x\nshared w\ncall lock\n  w := 1 this is enter\n  done\ncall unlock\n  w := 0 this is leave\n  done\n--\nline 2: fault 4\n\
== no comma\nalgorithm a for 2 processes\npromises exclusion exit within 1\nshared w\ncall lock\n  w := 1 this is enter\n  done\ncall unlock\n  w := 0 this is leave\n  done\n--\nline 2: fault 4\n\
== two numbers\nalgorithm a for 2 processes\npromises exclusion, exit within 1 2\nshared w\ncall lock\n  w := 1 this is enter\n  done\ncall unlock\n  w := 0 this is leave\n  done\n--\nline 2: fault 4\n\
== before order\nalgorithm a for 2 processes\npromises exclusion, exit within 1, order\nshared w\ncall lock\n  w := 1 this is enter\n  done\ncall unlock\n  w := 0 this is leave\n  done\n--\nline 2: fault 4\n\
== twice\nalgorithm a for 2 processes\npromises exclusion, exit within 1, exit within 1\nshared w\ncall lock\n  w := 1 this is enter\n  done\ncall unlock\n  w := 0 this is leave\n  done\n--\nline 2: fault 4\n\
== a doorway without order\nalgorithm a for 2 processes\npromises exclusion, reentry, doorway within 1\nshared w\ncall lock\n  w := 1 this is enter\n  done\ncall unlock\n  w := 0 this is leave\n  done\n--\nline 2: fault 4\n\
== no freedom\nalgorithm a for 2 processes\npromises exclusion, deadlock\nshared w\ncall lock\n  w := 1 this is enter\n  done\ncall unlock\n  w := 0 this is leave\n  done\n--\nline 2: fault 4\n\
== two freedoms\nalgorithm a for 2 processes\npromises exclusion, deadlock freedom, starvation freedom\nshared w\ncall lock\n  w := 1 this is enter\n  done\ncall unlock\n  w := 0 this is leave\n  done\n--\nline 2: fault 4\n\
== freedom first\nalgorithm a for 2 processes\npromises exclusion, deadlock freedom, order\nshared w\ncall lock\n  w := 1 this is enter\n  done\ncall unlock\n  w := 0 this is leave\n  done\n--\nline 2: fault 4\n\
== alone\nalgorithm a for 2 processes\npromises exit within 1\nshared w\ncall lock\n  w := 1 this is enter\n  done\ncall unlock\n  w := 0 this is leave\n  done\n--\nline 2: fault 4\n\
== a doorway with exclusion alone\nalgorithm a for 2 processes\npromises exclusion, doorway within 3\nshared w\ncall lock\n  w := 1 this is enter\n  done\ncall unlock\n  w := 0 this is leave\n  done\n--\nline 2: fault 4\n\
== the recovery twice\nalgorithm a for 2 processes\npromises exclusion, reentry, recovery within 1, bounds, recovery within 2\nshared w\ncall lock\n  w := 1 this is enter\n  done\ncall unlock\n  w := 0 this is leave\n  done\n--\nline 2: fault 4\n\
== the doorway twice\nalgorithm a for 2 processes\npromises exclusion, order, doorway within 1, doorway within 1\nshared w\ncall lock\n  w := 1 this is enter\n  done\ncall unlock\n  w := 0 this is leave\n  done\n--\nline 2: fault 4\n\
== a freedom twice\nalgorithm a for 2 processes\npromises exclusion, deadlock freedom, exit within 1, deadlock freedom\nshared w\ncall lock\n  w := 1 this is enter\n  done\ncall unlock\n  w := 0 this is leave\n  done\n--\nline 2: fault 4\n\
== two freedoms, the stronger first\nalgorithm a for 2 processes\npromises exclusion, starvation freedom, bounds, deadlock freedom\nshared w\ncall lock\n  w := 1 this is enter\n  done\ncall unlock\n  w := 0 this is leave\n  done\n--\nline 2: fault 4\n\
== bounds twice\nalgorithm a for 2 processes\npromises exclusion, bounds, bounds\nshared w\ncall lock\n  w := 1 this is enter\n  done\ncall unlock\n  w := 0 this is leave\n  done\n--\nline 2: fault 4\n\
== bounds before re-entry\nalgorithm a for 2 processes\npromises exclusion, bounds, reentry\nshared w\ncall lock\n  w := 1 this is enter\n  done\ncall unlock\n  w := 0 this is leave\n  done\n--\nline 2: fault 4\n\
== bounds before order\nalgorithm a for 2 processes\npromises exclusion, bounds, order\nshared w\ncall lock\n  w := 1 this is enter\n  done\ncall unlock\n  w := 0 this is leave\n  done\n--\nline 2: fault 4\n\
== order before re-entry\nalgorithm a for 2 processes\npromises exclusion, order, reentry\nshared w\ncall lock\n  w := 1 this is enter\n  done\ncall unlock\n  w := 0 this is leave\n  done\n--\nline 2: fault 4\n\
== re-entry twice\nalgorithm a for 2 processes\npromises exclusion, reentry, reentry\nshared w\ncall lock\n  w := 1 this is enter\n  done\ncall unlock\n  w := 0 this is leave\n  done\n--\nline 2: fault 4\n\
== a comma at the end\nalgorithm a for 2 processes\npromises exclusion,\nshared w\ncall lock\n  w := 1 this is enter\n  done\ncall unlock\n  w := 0 this is leave\n  done\n--\nline 2: fault 4\n\
== a comma after the last\nalgorithm a for 2 processes\npromises exclusion, reentry, bounds,\nshared w\ncall lock\n  w := 1 this is enter\n  done\ncall unlock\n  w := 0 this is leave\n  done\n--\nline 2: fault 4\n\
== two commas\nalgorithm a for 2 processes\npromises exclusion,, bounds\nshared w\ncall lock\n  w := 1 this is enter\n  done\ncall unlock\n  w := 0 this is leave\n  done\n--\nline 2: fault 4\n\
== a number of bounds\nalgorithm a for 2 processes\npromises exclusion, bounds within 1\nshared w\ncall lock\n  w := 1 this is enter\n  done\ncall unlock\n  w := 0 this is leave\n  done\n--\nline 2: fault 4\n\
== bounds without a comma\nalgorithm a for 2 processes\npromises exclusion, deadlock freedom bounds\nshared w\ncall lock\n  w := 1 this is enter\n  done\ncall unlock\n  w := 0 this is leave\n  done\n--\nline 2: fault 4\n\
== no promise\nalgorithm a for 2 processes\npromises exclusion, fairness\nshared w\ncall lock\n  w := 1 this is enter\n  done\ncall unlock\n  w := 0 this is leave\n  done\n--\nline 2: fault 4\n\
== a number\nalgorithm a for 2 processes\npromises exclusion, 1\nshared w\ncall lock\n  w := 1 this is enter\n  done\ncall unlock\n  w := 0 this is leave\n  done\n--\nline 2: fault 4\n\
== of no number\nalgorithm a for 2 processes\npromises exclusion of\nshared w\ncall lock\n  w := 1 this is enter\n  done\ncall unlock\n  w := 0 this is leave\n  done\n--\nline 2: fault 4\n\
== of twice\nalgorithm a for 2 processes\npromises exclusion of of 2\nshared w\ncall lock\n  w := 1 this is enter\n  done\ncall unlock\n  w := 0 this is leave\n  done\n--\nline 2: fault 4\n\
== of after a comma\nalgorithm a for 2 processes\npromises exclusion, of 2\nshared w\ncall lock\n  w := 1 this is enter\n  done\ncall unlock\n  w := 0 this is leave\n  done\n--\nline 2: fault 4\n\
== of a name\nalgorithm a for 2 processes\npromises exclusion of w\nshared w\ncall lock\n  w := 1 this is enter\n  done\ncall unlock\n  w := 0 this is leave\n  done\n--\nline 2: fault 4\n\
== of and a comma\nalgorithm a for 2 processes\npromises exclusion of, reentry\nshared w\ncall lock\n  w := 1 this is enter\n  done\ncall unlock\n  w := 0 this is leave\n  done\n--\nline 2: fault 4\n\
== of two numbers\nalgorithm a for 2 processes\npromises exclusion of 2 3\nshared w\ncall lock\n  w := 1 this is enter\n  done\ncall unlock\n  w := 0 this is leave\n  done\n--\nline 2: fault 4\n\
== of and of\nalgorithm a for 2 processes\npromises exclusion of 2 of 2\nshared w\ncall lock\n  w := 1 this is enter\n  done\ncall unlock\n  w := 0 this is leave\n  done\n--\nline 2: fault 4\n\
== a number without of\nalgorithm a for 2 processes\npromises exclusion 2\nshared w\ncall lock\n  w := 1 this is enter\n  done\ncall unlock\n  w := 0 this is leave\n  done\n--\nline 2: fault 4\n\
== of after re-entry\nalgorithm a for 2 processes\npromises exclusion, reentry of 2\nshared w\ncall lock\n  w := 1 this is enter\n  done\ncall unlock\n  w := 0 this is leave\n  done\n--\nline 2: fault 4\n\
== of without exclusion\nalgorithm a for 2 processes\npromises of 2\nshared w\ncall lock\n  w := 1 this is enter\n  done\ncall unlock\n  w := 0 this is leave\n  done\n--\nline 2: fault 4\n\
== me\nalgorithm a for 2 processes\npromises exclusion, exit within me\nshared w\ncall lock\n  w := 1 this is enter\n  done\ncall unlock\n  w := 0 this is leave\n  done\n--\nline 2: fault 4\n\
== a sum without an end\nalgorithm a for 2 processes\npromises exclusion, exit within procs +\nshared w\ncall lock\n  w := 1 this is enter\n  done\ncall unlock\n  w := 0 this is leave\n  done\n--\nline 2: fault 4\n\
== a condition\nalgorithm a for 2 processes\npromises exclusion, exit within 1 < 2\nshared w\ncall lock\n  w := 1 this is enter\n  done\ncall unlock\n  w := 0 this is leave\n  done\n--\nline 2: fault 4\n\
== a pair\nalgorithm a for 2 processes\npromises exclusion, exit within (1, 2)\nshared w\ncall lock\n  w := 1 this is enter\n  done\ncall unlock\n  w := 0 this is leave\n  done\n--\nline 2: fault 4\n\
== more after the value\nalgorithm a for 2 processes\npromises exclusion, exit within procs this\nshared w\ncall lock\n  w := 1 this is enter\n  done\ncall unlock\n  w := 0 this is leave\n  done\n--\nline 2: fault 4\n\
== a bracket without an end\nalgorithm a for 2 processes\npromises exclusion, exit within (procs + 1, bounds\nshared w\ncall lock\n  w := 1 this is enter\n  done\ncall unlock\n  w := 0 this is leave\n  done\n--\nline 2: fault 4\n\
== a bracket too many\nalgorithm a for 2 processes\npromises exclusion, exit within procs + 1), bounds\nshared w\ncall lock\n  w := 1 this is enter\n  done\ncall unlock\n  w := 0 this is leave\n  done\n--\nline 2: fault 4\n\
== a number after a comma\nalgorithm a for 2 processes\npromises exclusion, exit within procs, 2\nshared w\ncall lock\n  w := 1 this is enter\n  done\ncall unlock\n  w := 0 this is leave\n  done\n--\nline 2: fault 4\n\
== a maximum of one\nalgorithm a for 2 processes\npromises exclusion, exit within max(procs), bounds\nshared w\ncall lock\n  w := 1 this is enter\n  done\ncall unlock\n  w := 0 this is leave\n  done\n--\nline 2: fault 4\n\
== a shared word of the next line\nalgorithm a for 2 processes\npromises exclusion, exit within w\nshared w\ncall lock\n  w := 1 this is enter\n  done\ncall unlock\n  w := 0 this is leave\n  done\n--\nline 2: fault 4\n\
== a name with an index\nalgorithm a for 2 processes\npromises exclusion, exit within x[1]\nshared w\ncall lock\n  w := 1 this is enter\n  done\ncall unlock\n  w := 0 this is leave\n  done\n--\nline 2: fault 6\n\
== the first fault\nalgorithm a for 2 processes\npromises exclusion, exit within x[1], exit within x\nshared w\ncall lock\n  w := 1 this is enter\n  done\ncall unlock\n  w := 0 this is leave\n  done\n--\nline 2: fault 6\n\
== an exit twice, the second with a fault\nalgorithm a for 2 processes\npromises exclusion, exit within 1, exit within x[1]\nshared w\ncall lock\n  w := 1 this is enter\n  done\ncall unlock\n  w := 0 this is leave\n  done\n--\nline 2: fault 4\n\
== a doorway with a fault, without order\nalgorithm a for 2 processes\npromises exclusion, doorway within x[1]\nshared w\ncall lock\n  w := 1 this is enter\n  done\ncall unlock\n  w := 0 this is leave\n  done\n--\nline 2: fault 4\n\
== seventeen brackets\nalgorithm a for 2 processes\npromises exclusion, exit within (((((((((((((((((1)))))))))))))))))\nshared w\ncall lock\n  w := 1 this is enter\n  done\ncall unlock\n  w := 0 this is leave\n  done\n--\nline 2: fault 16\n\
== too great\nalgorithm a for 2 processes\npromises exclusion, exit within 18446744073709551616\nshared w\ncall lock\n  w := 1 this is enter\n  done\ncall unlock\n  w := 0 this is leave\n  done\n--\nline 2: fault 16\n\
== of too many\nalgorithm a for 2 processes\npromises exclusion of 18446744073709551616\nshared w\ncall lock\n  w := 1 this is enter\n  done\ncall unlock\n  w := 0 this is leave\n  done\n--\nline 2: fault 16\n\
";

/// `of`, `exit`, `recovery`, `doorway`, `within`, `freedom` and `bounds` are no words of the format. Further promises come in any order.
pub const GOOD: &str = "\
read bounds\n\
== a recovery alone\nalgorithm a for 2 processes\npromises exclusion, recovery within 0\nshared w\ncall lock\n  w := 1 this is enter\n  done\ncall unlock\n  w := 0 this is leave\n  done\n--\nread\n\
== all of them\nalgorithm a for 2 processes\npromises exclusion, reentry, order, exit within 18446744073709551615, recovery within 7, doorway within 2, starvation freedom\nshared w\ncall lock\n  w := 1 this is begin\n  w := 2 this is ready\n  w := 3 this is enter\n  done\ncall unlock\n  w := 0 this is leave\n  done\n--\nread\n\
== a sum\nalgorithm a for 2 processes\npromises exclusion, exit within procs + 1\nshared w\ncall lock\n  w := 1 this is enter\n  done\ncall unlock\n  w := 0 this is leave\n  done\n--\nread\n\
== commas in brackets\nalgorithm a for 2 processes\npromises exclusion, reentry, exit within max(procs, min(limit, 3)) - 1, recovery within 3 * (procs - 1), bounds\nshared w\ncall lock\n  w := 1 this is enter\n  done\ncall unlock\n  w := 0 this is leave\n  done\n--\nread\n\
== out of range at each size\nalgorithm a for 2 processes\npromises exclusion, exit within 0 - 1, recovery within 1 / 0\nshared w\ncall lock\n  w := 1 this is enter\n  done\ncall unlock\n  w := 0 this is leave\n  done\n--\nread\n\
== sixteen brackets\nalgorithm a for 2 processes\npromises exclusion, exit within ((((((((((((((((1))))))))))))))))\nshared w\ncall lock\n  w := 1 this is enter\n  done\ncall unlock\n  w := 0 this is leave\n  done\n--\nread\n\
== as the reference program has it\nalgorithm a for 2 processes\npromises exclusion of 2, deadlock freedom, exit within procs + 1\nshared w\ncall lock\n  w := 1 this is enter\n  done\ncall unlock\n  w := 0 this is leave\n  done\n--\nread\n\
== as names\nalgorithm exit for 2 processes\npromises exclusion, exit within 1\nshared within\ncall lock\n  recovery := within\n  within := recovery this is enter\n  done\ncall unlock\n  within := 0 this is leave\n  done\n--\nread\n\
== promises as names\nalgorithm bounds for 2 processes\npromises exclusion, bounds\nshared bounds\ncall lock\n  freedom := bounds\n  bounds := freedom this is enter\n  done\ncall unlock\n  bounds := 0 this is leave\n  done\n--\nread\n\
== bounds alone\nalgorithm a for 2 processes\npromises exclusion, bounds\nshared w\ncall lock\n  w := 1 this is enter\n  done\ncall unlock\n  w := 0 this is leave\n  done\n--\nread\n\
== the recovery first\nalgorithm a for 2 processes\npromises exclusion, reentry, recovery within 1, exit within 1\nshared w\ncall lock\n  w := 1 this is enter\n  done\ncall unlock\n  w := 0 this is leave\n  done\n--\nread\n\
== the doorway first\nalgorithm a for 2 processes\npromises exclusion, order, doorway within 1, exit within 1\nshared w\ncall lock\n  w := 1 this is begin\n  w := 2 this is ready\n  w := 3 this is enter\n  done\ncall unlock\n  w := 0 this is leave\n  done\n--\nread\n\
== from the last to the first\nalgorithm a for 2 processes\npromises exclusion, reentry, order, bounds, starvation freedom, doorway within 3, recovery within 2, exit within 1\nshared w\ncall lock\n  w := 1 this is begin\n  w := 2 this is ready\n  w := 3 this is enter\n  done\ncall unlock\n  w := 0 this is leave\n  done\n--\nread\n\
== of two\nalgorithm a for 2 processes\npromises exclusion of 2\nshared w\ncall lock\n  w := 1 this is enter\n  done\ncall unlock\n  w := 0 this is leave\n  done\n--\nread\n\
== of none\nalgorithm a for 2 processes\npromises exclusion of 0\nshared w\ncall lock\n  w := 1 this is enter\n  done\ncall unlock\n  w := 0 this is leave\n  done\n--\nread\n\
== of one, and the rest\nalgorithm a for 2 processes\npromises exclusion of 1, reentry, order, bounds\nshared w\ncall lock\n  w := 1 this is begin\n  w := 2 this is ready\n  w := 3 this is enter\n  done\ncall unlock\n  w := 0 this is leave\n  done\n--\nread\n\
== of the most\nalgorithm a for 2 processes\npromises exclusion of 18446744073709551615, bounds\nshared w\ncall lock\n  w := 1 this is enter\n  done\ncall unlock\n  w := 0 this is leave\n  done\n--\nread\n\
== of as a name\nalgorithm of for 2 processes\npromises exclusion of 2\nshared of\ncall lock\n  of := 1 this is enter\n  done\ncall unlock\n  of := 0 this is leave\n  done\n--\nread\n\
== as the reference program has it\nalgorithm a for 2 processes\npromises exclusion, deadlock freedom, exit within 1\nshared w\ncall lock\n  w := 1 this is enter\n  done\ncall unlock\n  w := 0 this is leave\n  done\n--\nread\n\
== as the reference program has it\nalgorithm a for 2 processes\npromises exclusion, order, starvation freedom, bounds, doorway within 2\nshared w\ncall lock\n  w := 1 this is begin\n  w := 2 this is ready\n  w := 3 this is enter\n  done\ncall unlock\n  w := 0 this is leave\n  done\n--\nread\n\
== as the reference program has it\nalgorithm a for 2 processes\npromises exclusion, order, starvation freedom, bounds, exit within 2, doorway within 1\nshared w\ncall lock\n  w := 1 this is begin\n  w := 2 this is ready\n  w := 3 this is enter\n  done\ncall unlock\n  w := 0 this is leave\n  done\n--\nread\n\
== as the reference program has it\nalgorithm a for 2 processes\npromises exclusion, order, starvation freedom, bounds, exit within 4, doorway within 3\nshared w\ncall lock\n  w := 1 this is begin\n  w := 2 this is ready\n  w := 3 this is enter\n  done\ncall unlock\n  w := 0 this is leave\n  done\n--\nread\n\
== as the reference program has it\nalgorithm a for 2 processes\npromises exclusion, reentry, deadlock freedom\nshared w\ncall lock\n  w := 1 this is enter\n  done\ncall unlock\n  w := 0 this is leave\n  done\n--\nread\n\
== as the reference program has it\nalgorithm a for 2 processes\npromises exclusion, reentry, deadlock freedom, bounds, exit within 1, recovery within 1\nshared w\ncall lock\n  w := 1 this is enter\n  done\ncall unlock\n  w := 0 this is leave\n  done\n--\nread\n\
== as the reference program has it\nalgorithm a for 2 processes\npromises exclusion, reentry, deadlock freedom, bounds, exit within 4, recovery within 1\nshared w\ncall lock\n  w := 1 this is enter\n  done\ncall unlock\n  w := 0 this is leave\n  done\n--\nread\n\
== as the reference program has it\nalgorithm a for 2 processes\npromises exclusion, reentry, deadlock freedom, bounds, exit within 5, recovery within 3\nshared w\ncall lock\n  w := 1 this is enter\n  done\ncall unlock\n  w := 0 this is leave\n  done\n--\nread\n\
== as the reference program has it\nalgorithm a for 2 processes\npromises exclusion, reentry, deadlock freedom, bounds, recovery within 1\nshared w\ncall lock\n  w := 1 this is enter\n  done\ncall unlock\n  w := 0 this is leave\n  done\n--\nread\n\
== as the reference program has it\nalgorithm a for 2 processes\npromises exclusion, reentry, starvation freedom, bounds, exit within 5, recovery within 1\nshared w\ncall lock\n  w := 1 this is enter\n  done\ncall unlock\n  w := 0 this is leave\n  done\n--\nread\n\
== as the reference program has it\nalgorithm a for 2 processes\npromises exclusion, reentry, starvation freedom, bounds, exit within 6, recovery within 1\nshared w\ncall lock\n  w := 1 this is enter\n  done\ncall unlock\n  w := 0 this is leave\n  done\n--\nread\n\
== as the reference program has it\nalgorithm a for 2 processes\npromises exclusion, reentry, starvation freedom, bounds, recovery within 2\nshared w\ncall lock\n  w := 1 this is enter\n  done\ncall unlock\n  w := 0 this is leave\n  done\n--\nread\n\
== as the reference program has it\nalgorithm a for 2 processes\npromises exclusion, starvation freedom, bounds\nshared w\ncall lock\n  w := 1 this is enter\n  done\ncall unlock\n  w := 0 this is leave\n  done\n--\nread\n\
== as the reference program has it\nalgorithm a for 2 processes\npromises exclusion, starvation freedom, bounds, exit within 1\nshared w\ncall lock\n  w := 1 this is enter\n  done\ncall unlock\n  w := 0 this is leave\n  done\n--\nread\n\
== as the reference program has it\nalgorithm a for 2 processes\npromises exclusion, starvation freedom, exit within 3\nshared w\ncall lock\n  w := 1 this is enter\n  done\ncall unlock\n  w := 0 this is leave\n  done\n--\nread\n\
";
