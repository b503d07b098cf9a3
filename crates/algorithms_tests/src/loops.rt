//! Loops over numbers, and rounds without an access, against the numbers of the reference program's second version.

/// What a text with such a loop spells.
pub const SPELLED: &str = "spell loops over numbers
== filter
--
Local(First { name: 0, members: Up(Number(1), Joined(Difference, Procs, Number(1))), after: 11 })
Access(AccessLine { word: WordOf { declaration: 0, index: Some(Me) }, action: Store { value: Private(0) }, may_withdraw: false })
Access(AccessLine { word: WordOf { declaration: 1, index: Some(Private(0)) }, action: Store { value: Me }, may_withdraw: false })
Local(First { name: 1, members: Others, after: 10 })
Access(AccessLine { word: WordOf { declaration: 0, index: Some(Private(1)) }, action: Load { name: 2 }, may_withdraw: false })
Local(Branch { condition: Compare(AtLeast, Private(2), Private(0)), otherwise: 9 })
Access(AccessLine { word: WordOf { declaration: 1, index: Some(Private(0)) }, action: Load { name: 3 }, may_withdraw: false })
Local(Branch { condition: Compare(Equal, Private(3), Me), otherwise: 9 })
Local(Goto(3))
Local(Next { name: 1, members: Others, body: 4 })
Local(Next { name: 0, members: Up(Number(1), Joined(Difference, Procs, Number(1))), body: 1 })
Local(Note(Enter))
Done(0)
Access(AccessLine { word: WordOf { declaration: 0, index: Some(Me) }, action: Store { value: Number(0) }, may_withdraw: false })
Local(Note(Leave))
Done(0)
answer \n\
Entries { lock: 0, unlock: 13, recover: None, withdraw: None }
filter [\"l\", \"k\", \"v\", \"w\"]
[Declaration { name: \"level\", extent: Each, bound: Some(Joined(Difference, Procs, Number(1))), home: Some(Me) }, Declaration { name: \"last\", extent: Each, bound: Some(Joined(Difference, Procs, Number(1))), home: None }]
Promises { most_inside: 1, reentry: false, order: false, progress: None, bounds: false }
StepBounds { exit: None, recovery: None, doorway: None }
2 to 64 processes, 0 lasting names
first values None
";

pub const SEARCHES: &str = "\
search with loops over numbers\n\
== filter 2 4 0\n--\n58 states\n\
== filter 3 4 0\n--\n2947 states\n\
== tally 2 4 0\n--\n8 moves\n\
";

pub const RUNS: &str = "\
run loops over numbers\n\
== stairs 2 2\n\
lock 0 -> started\n\
step 0 -> 10 step[2] = 4\n\
step 0 -> 10 step[1] = 3\n\
step 0 -> 10 step[0] = 2\n\
step 0 -> 13 step[1] 3\n\
step 0 -> 13 step[2] 4\n\
step 0 -> 15 step[0] = 9 enter done\n\
unlock 0 -> started\n\
step 0 -> out of range at 26\n\
words 9 3 4\n\
== stairs 2 1\n\
lock 1 -> started\n\
step 1 -> 10 step[2] = 4\n\
step 1 -> 10 step[1] = 3\n\
step 1 -> 10 step[0] = 2\n\
step 1 -> 15 step[0] = 9 enter done\n\
unlock 1 -> started\n\
step 1 -> 25 step[0] = 1 leave\n\
step 1 -> 27 step[1] = 0\n\
step 1 -> 27 step[1] = 1\n\
step 1 -> 27 step[1] = 2\n\
step 1 -> 27 step[1] = 3 done\n\
words 1 3 4\n\
== tally 2 3\n\
lock 0 -> started\n\
step 0 -> 16 sum = 12\n\
step 0 -> 21 sum 12\n\
step 0 -> 25 most = 14 enter done\n\
unlock 0 -> started\n\
step 0 -> 29 most = 0 leave\n\
step 0 -> 34 most = 3 done\n\
words 12 3\n\
== tally 3 4\n\
lock 1 -> started\n\
step 1 -> 16 sum = 40\n\
step 1 -> 21 sum 40\n\
step 1 -> 25 most = 46 enter done\n\
unlock 1 -> started\n\
step 1 -> 29 most = 0 leave\n\
step 1 -> 34 most = 4 done\n\
words 40 4\n\
== tally 3 30\n\
lock 1 -> started\n\
step 1 -> 19 sum = 100\n\
step 1 -> 21 sum 100\n\
step 1 -> 25 most = 340 enter done\n\
unlock 1 -> started\n\
step 1 -> 29 most = 0 leave\n\
step 1 -> 34 most = 30 done\n\
words 100 30\n\
== tally 1 1\n\
lock 0 -> started\n\
step 0 -> 16 sum = 0\n\
step 0 -> 21 sum 0\n\
step 0 -> 25 most = 0 enter done\n\
unlock 0 -> started\n\
step 0 -> 29 most = 0 leave\n\
step 0 -> 34 most = 0 done\n\
words 0 0\n\
== tally 1 1000001\n\
lock 0 -> started\n\
step 0 -> 16 sum = 0\n\
step 0 -> 21 sum 0\n\
step 0 -> 25 most = 250000500000 enter done\n\
unlock 0 -> started\n\
step 0 -> 29 most = 0 leave\n\
step 0 -> 34 most = 1000001 done\n\
words 0 1000001\n\
== tally 1 1000002\n\
lock 0 -> out of range at 15\n\
words 0 0\n\
";

/// What is wrong, a text, and where: the line, and the number of its fault.
pub const BAD: &str = "\
read faults of loops over numbers\n\
== a name in the first end\nalgorithm a for 2 processes\npromises exclusion\nshared w\nprivate kept\ncall lock\n  for j from kept to 3\n    w := j\n  end\n  w := 1 this is enter\n  done\ncall unlock\n  w := 0 this is leave\n  done\n--\nline 6: fault 4\n\
== a name in the second end\nalgorithm a for 2 processes\npromises exclusion\nshared w\nprivate kept\ncall lock\n  for j from 1 to kept\n    w := j\n  end\n  w := 1 this is enter\n  done\ncall unlock\n  w := 0 this is leave\n  done\n--\nline 6: fault 4\n\
== a new name in an end\nalgorithm a for 2 processes\npromises exclusion\nshared w\nprivate kept\ncall lock\n  for j from y to 3\n    w := j\n  end\n  w := 1 this is enter\n  done\ncall unlock\n  w := 0 this is leave\n  done\n--\nline 6: fault 4\n\
== a shared word in the first end\nalgorithm a for 2 processes\npromises exclusion\nshared w\nprivate kept\ncall lock\n  for j from w to 3\n    w := j\n  end\n  w := 1 this is enter\n  done\ncall unlock\n  w := 0 this is leave\n  done\n--\nline 6: fault 7\n\
== a shared word in the second end\nalgorithm a for 2 processes\npromises exclusion\nshared w\nprivate kept\ncall lock\n  for j from 1 to w\n    w := j\n  end\n  w := 1 this is enter\n  done\ncall unlock\n  w := 0 this is leave\n  done\n--\nline 6: fault 7\n\
== a shared word after a name\nalgorithm a for 2 processes\npromises exclusion\nshared w\nprivate kept\ncall lock\n  for j from kept to w\n    w := j\n  end\n  w := 1 this is enter\n  done\ncall unlock\n  w := 0 this is leave\n  done\n--\nline 6: fault 7\n\
== no first end\nalgorithm a for 2 processes\npromises exclusion\nshared w\nprivate kept\ncall lock\n  for j from to 3\n    w := j\n  end\n  w := 1 this is enter\n  done\ncall unlock\n  w := 0 this is leave\n  done\n--\nline 6: fault 4\n\
== no second end\nalgorithm a for 2 processes\npromises exclusion\nshared w\nprivate kept\ncall lock\n  for j from 1 to\n    w := j\n  end\n  w := 1 this is enter\n  done\ncall unlock\n  w := 0 this is leave\n  done\n--\nline 6: fault 4\n\
== no ends\nalgorithm a for 2 processes\npromises exclusion\nshared w\nprivate kept\ncall lock\n  for j from\n    w := j\n  end\n  w := 1 this is enter\n  done\ncall unlock\n  w := 0 this is leave\n  done\n--\nline 6: fault 4\n\
== no to\nalgorithm a for 2 processes\npromises exclusion\nshared w\nprivate kept\ncall lock\n  for j from 1 3\n    w := j\n  end\n  w := 1 this is enter\n  done\ncall unlock\n  w := 0 this is leave\n  done\n--\nline 6: fault 4\n\
== down without to\nalgorithm a for 2 processes\npromises exclusion\nshared w\nprivate kept\ncall lock\n  for j from 3 down 1\n    w := j\n  end\n  w := 1 this is enter\n  done\ncall unlock\n  w := 0 this is leave\n  done\n--\nline 6: fault 4\n\
== to before down\nalgorithm a for 2 processes\npromises exclusion\nshared w\nprivate kept\ncall lock\n  for j from 3 to down 1\n    w := j\n  end\n  w := 1 this is enter\n  done\ncall unlock\n  w := 0 this is leave\n  done\n--\nline 6: fault 4\n\
== more after the end\nalgorithm a for 2 processes\npromises exclusion\nshared w\nprivate kept\ncall lock\n  for j from 1 to 3 4\n    w := j\n  end\n  w := 1 this is enter\n  done\ncall unlock\n  w := 0 this is leave\n  done\n--\nline 6: fault 4\n\
== a condition as an end\nalgorithm a for 2 processes\npromises exclusion\nshared w\nprivate kept\ncall lock\n  for j from 1 to 2 < 3\n    w := j\n  end\n  w := 1 this is enter\n  done\ncall unlock\n  w := 0 this is leave\n  done\n--\nline 6: fault 4\n\
== in and from\nalgorithm a for 2 processes\npromises exclusion\nshared w\nprivate kept\ncall lock\n  for j in from 1 to 3\n    w := j\n  end\n  w := 1 this is enter\n  done\ncall unlock\n  w := 0 this is leave\n  done\n--\nline 6: fault 4\n\
== a declared private name\nalgorithm a for 2 processes\npromises exclusion\nshared w\nprivate kept\ncall lock\n  for kept from 1 to 3\n    w := 1\n  end\n  w := 1 this is enter\n  done\ncall unlock\n  w := 0 this is leave\n  done\n--\nline 6: fault 5\n\
== a loop's name is set\nalgorithm a for 2 processes\npromises exclusion\nshared w\nprivate kept\ncall lock\n  for j from 1 to 3\n    j := 2\n  end\n  w := 1 this is enter\n  done\ncall unlock\n  w := 0 this is leave\n  done\n--\nline 7: fault 8\n\
== a constant name\nalgorithm a for 2 processes\npromises exclusion\nshared w\nprivate kept\ncall lock\n  for procs from 1 to 3\n    w := 1\n  end\n  w := 1 this is enter\n  done\ncall unlock\n  w := 0 this is leave\n  done\n--\nline 6: fault 8\n\
== a shared name\nalgorithm a for 2 processes\npromises exclusion\nshared w\nprivate kept\ncall lock\n  for w from 1 to 3\n    w := 1\n  end\n  w := 1 this is enter\n  done\ncall unlock\n  w := 0 this is leave\n  done\n--\nline 6: fault 8\n\
== known within the loop\nalgorithm a for 2 processes\npromises exclusion\nshared w\ncall lock\n  for j from 1 to 2\n    w := j\n  end\n  w := j this is enter\n  done\ncall unlock\n  w := 0 this is leave\n  done\n--\nline 8: fault 6\n\
== set in a loop that may have no round\nalgorithm a for 2 processes\npromises exclusion\nshared w\ncall lock\n  for j from 1 to me\n    v := w\n  end\n  w := v this is enter\n  done\ncall unlock\n  w := 0 this is leave\n  done\n--\nline 8: fault 11\n\
== set in a loop that may have no round for one process\nalgorithm a for 1 to 2 processes\npromises exclusion\nshared w\ncall lock\n  for j from procs - 1 down to 1\n    v := w\n  end\n  w := v this is enter\n  done\ncall unlock\n  w := 0 this is leave\n  done\n--\nline 8: fault 11\n\
== a ring within a round without an access\nalgorithm a for 2 processes\npromises exclusion\nshared w\ncall lock\n  for j in all\nl:\n    if j = 0 then goto l\n  end\n  w := 1 this is enter\n  done\ncall unlock\n  w := 0 this is leave\n  done\n--\nline 7: fault 12\n\
== a ring round a loop without an access\nalgorithm a for 2 processes\npromises exclusion\nshared w\ncall lock\n  n := 0\nl:\n  for j in others\n    n := n + j\n  end\n  goto l\ncall unlock\n  w := 0 this is leave\n  done\n--\nline 7: fault 12\n\
== a ring that leaves rounds without an access\nalgorithm a for 2 processes\npromises exclusion\nshared w\ncall lock\n  n := 0\nl:\n  for j from 1 to me\n    n := n + j\n    if n < 9 then goto l\n  end\n  w := 1 this is enter\n  done\ncall unlock\n  w := 0 this is leave\n  done\n--\nline 7: fault 12\n\
== rounds without an access, and an end\nalgorithm a for 2 processes\npromises exclusion\nshared w\ncall lock\n  n := 0\n  for j in all\n    n := n + j\n  end\n  done\ncall unlock\n  w := 0 this is leave\n  done\n--\nline 9: fault 13\n\
";

/// `from` and `down` are no words of the format.
pub const GOOD: &str = "\
read loops over numbers\n\
== names\nalgorithm a for 2 processes\npromises exclusion\nconstant from = 3\nshared down up to from\ncall lock\n  for j from from down to 1\n    down := j\n  end\n  down := 1 this is enter\n  done\ncall unlock\n  down := 0 this is leave\n  done\n--\nread\n\
== a round wherever there are two processes\nalgorithm a for 2 processes\npromises exclusion\nshared w\ncall lock\n  for j from procs - 1 down to 1\n    v := w\n  end\n  w := v this is enter\n  done\ncall unlock\n  w := 0 this is leave\n  done\n--\nread\n\
== all parts of a value\nalgorithm a for 2 processes\npromises exclusion\nshared w\ncall lock\n  for j from max(me, 1) * 2 to (limit + procs) mod 7\n    w := j\n  end\n  w := 1 this is enter\n  done\ncall unlock\n  w := 0 this is leave\n  done\n--\nread\n\
== rounds without an access\nalgorithm a for 2 processes\npromises exclusion\nshared w\ncall lock\n  n := 0\n  for j in all\n    if j != me then n := n + j\n  end\n  w := n this is enter\n  done\ncall unlock\n  w := 0 this is leave\n  done\n--\nread\n\
== rounds without an access in such rounds\nalgorithm a for 2 processes\npromises exclusion\nshared w\ncall lock\n  n := 0\n  for j in all\n    for k from 0 to 9\n      n := n + k * j\n    end\n  end\n  w := n this is enter\n  done\ncall unlock\n  w := 0 this is leave\n  done\n--\nread\n\
== a way out of rounds without an access\nalgorithm a for 2 processes\npromises exclusion\nshared w\ncall lock\n  n := 0\n  for j in all\n    if n + j > 1 then goto past\n    n := 2\n  end\npast:\n  w := n this is enter\n  done\ncall unlock\n  w := 0 this is leave\n  done\n--\nread\n\
== a ring with an access that leaves rounds without one\nalgorithm a for 2 processes\npromises exclusion\nshared w\ncall lock\nagain:\n  v := w\n  for j in all\n    if v = j then goto again\n  end\n  w := 1 this is enter\n  done\ncall unlock\n  w := 0 this is leave\n  done\n--\nread\n\
== rounds of no lines\nalgorithm a for 2 processes\npromises exclusion\nshared w\ncall lock\n  for j in all\n  end\n  w := 1 this is enter\n  done\ncall unlock\n  w := 0 this is leave\n  done\n--\nread\n\
";
