//! Constants: names for values.

/// Where a constant is named, its value is spelled.
pub const SPELLED: &str = "spell constants
== named
--
Access(AccessLine { word: WordOf { declaration: 0, index: None }, action: Load { name: 0 }, may_withdraw: false })
Local(Branch { condition: Compare(Equal, Private(0), Joined(Sum, Me, Number(1))), otherwise: 3 })
Local(Goto(4))
Access(AccessLine { word: WordOf { declaration: 0, index: None }, action: Swap { name: 0, value: Joined(Sum, Me, Number(1)), guard: Some(Compare(Equal, Private(0), Number(0))), until: Some(Compare(Equal, Private(0), Number(0))) }, may_withdraw: false })
Local(Note(Enter))
Done(0)
Access(AccessLine { word: WordOf { declaration: 0, index: None }, action: Store { value: Number(0) }, may_withdraw: false })
Local(Note(Leave))
Done(0)
answer \n\
Entries { lock: 0, unlock: 6, recover: None, withdraw: None }
named [\"h\"]
[Declaration { name: \"holder\", extent: One, bound: Some(Joined(Difference, Joined(Product, Number(2), Joined(Sum, Number(0), Procs)), Joined(Sum, Number(0), Procs))), home: None }]
Promises { most_inside: 1, reentry: true, order: false, progress: None, bounds: false }
StepBounds { exit: None, recovery: None, doorway: None }
1 to 64 processes, 0 lasting names
first values Some(FirstValues { starts: [None] })
";

/// As `recoverable_test_and_set`, which has no constants.
pub const SEARCHES: &str = "\
search with constants\n\
== named 2 1 0\n--\n21 states\n\
== named 2 1 1\n--\n64 states\n\
";

/// What is wrong, a text, and where: the line, and the number of its fault.
pub const BAD: &str = "\
read faults of constants\n\
== a name in the value\nalgorithm a for 2 processes\npromises exclusion\nconstant nil = procs\nshared w up to nil\nconstant x = procs + y\ncall lock\n  w := nil this is enter\n  done\ncall unlock\n  w := 0 this is leave\n  done\n--\nline 5: fault 4\n\
== me in the value\nalgorithm a for 2 processes\npromises exclusion\nconstant nil = procs\nshared w up to nil\nconstant x = me\ncall lock\n  w := nil this is enter\n  done\ncall unlock\n  w := 0 this is leave\n  done\n--\nline 5: fault 4\n\
== no value\nalgorithm a for 2 processes\npromises exclusion\nconstant nil = procs\nshared w up to nil\nconstant x =\ncall lock\n  w := nil this is enter\n  done\ncall unlock\n  w := 0 this is leave\n  done\n--\nline 5: fault 4\n\
== no equal sign\nalgorithm a for 2 processes\npromises exclusion\nconstant nil = procs\nshared w up to nil\nconstant x 1\ncall lock\n  w := nil this is enter\n  done\ncall unlock\n  w := 0 this is leave\n  done\n--\nline 5: fault 4\n\
== assigned\nalgorithm a for 2 processes\npromises exclusion\nconstant nil = procs\nshared w up to nil\nconstant x := 1\ncall lock\n  w := nil this is enter\n  done\ncall unlock\n  w := 0 this is leave\n  done\n--\nline 5: fault 4\n\
== more after the value\nalgorithm a for 2 processes\npromises exclusion\nconstant nil = procs\nshared w up to nil\nconstant x = 1 2\ncall lock\n  w := nil this is enter\n  done\ncall unlock\n  w := 0 this is leave\n  done\n--\nline 5: fault 4\n\
== a condition\nalgorithm a for 2 processes\npromises exclusion\nconstant nil = procs\nshared w up to nil\nconstant x = 1 < 2\ncall lock\n  w := nil this is enter\n  done\ncall unlock\n  w := 0 this is leave\n  done\n--\nline 5: fault 4\n\
== a constant after it\nalgorithm a for 2 processes\npromises exclusion\nconstant nil = procs\nshared w up to nil\nconstant x = y\nconstant y = 1\ncall lock\n  w := nil this is enter\n  done\ncall unlock\n  w := 0 this is leave\n  done\n--\nline 5: fault 4\n\
== declared before\nalgorithm a for 2 processes\npromises exclusion\nconstant nil = procs\nshared w up to nil\nconstant w = 1\ncall lock\n  w := nil this is enter\n  done\ncall unlock\n  w := 0 this is leave\n  done\n--\nline 5: fault 5\n\
== named before\nalgorithm a for 2 processes\npromises exclusion\nconstant nil = procs\nshared w up to nil\nconstant nil = 1\ncall lock\n  w := nil this is enter\n  done\ncall unlock\n  w := 0 this is leave\n  done\n--\nline 5: fault 5\n\
== a shared word of its name\nalgorithm a for 2 processes\npromises exclusion\nconstant nil = procs\nshared w up to nil\nshared nil\ncall lock\n  w := nil this is enter\n  done\ncall unlock\n  w := 0 this is leave\n  done\n--\nline 5: fault 5\n\
== a private name of its name\nalgorithm a for 2 processes\npromises exclusion\nconstant nil = procs\nshared w up to nil\nprivate nil\ncall lock\n  w := nil this is enter\n  done\ncall unlock\n  w := 0 this is leave\n  done\n--\nline 5: fault 5\n\
== a word of the format\nalgorithm a for 2 processes\npromises exclusion\nconstant nil = procs\nshared w up to nil\nconstant end = 1\ncall lock\n  w := nil this is enter\n  done\ncall unlock\n  w := 0 this is leave\n  done\n--\nline 5: fault 5\n\
== a shared word in the value\nalgorithm a for 2 processes\npromises exclusion\nconstant nil = procs\nshared w up to nil\nconstant x = w + 1\ncall lock\n  w := nil this is enter\n  done\ncall unlock\n  w := 0 this is leave\n  done\n--\nline 5: fault 7\n\
== seventeen numbers\nalgorithm a for 2 processes\npromises exclusion\nconstant nil = procs\nshared w up to nil\nconstant x = 1 + 1 + 1 + 1 + 1 + 1 + 1 + 1 + 1 + 1 + 1 + 1 + 1 + 1 + 1 + 1 + 1\ncall lock\n  w := nil this is enter\n  done\ncall unlock\n  w := 0 this is leave\n  done\n--\nline 5: fault 16\n\
== seventeen numbers by constants\nalgorithm a for 2 processes\npromises exclusion\nconstant nil = procs\nshared w up to nil\nconstant x = nil + nil + nil + nil + nil + nil + nil + nil\nconstant y = x + x + 1\ncall lock\n  w := nil this is enter\n  done\ncall unlock\n  w := 0 this is leave\n  done\n--\nline 6: fault 16\n\
== in a call\nalgorithm a for 2 processes\npromises exclusion\nconstant nil = procs\nshared w up to nil\ncall lock\n  constant x = 1\n  w := nil this is enter\n  done\ncall unlock\n  w := 0 this is leave\n  done\n--\nline 6: fault 4\n\
== with an index\nalgorithm a for 2 processes\npromises exclusion\nconstant nil = procs\nshared w up to nil\ncall lock\n  v := nil[0]\n  w := nil this is enter\n  done\ncall unlock\n  w := 0 this is leave\n  done\n--\nline 6: fault 6\n\
== swapped\nalgorithm a for 2 processes\npromises exclusion\nconstant nil = procs\nshared w up to nil\ncall lock\n  v := swap nil to 1\n  w := nil this is enter\n  done\ncall unlock\n  w := 0 this is leave\n  done\n--\nline 6: fault 6\n\
== set\nalgorithm a for 2 processes\npromises exclusion\nconstant nil = procs\nshared w up to nil\ncall lock\n  nil := 1\n  w := nil this is enter\n  done\ncall unlock\n  w := 0 this is leave\n  done\n--\nline 6: fault 8\n\
== set by await\nalgorithm a for 2 processes\npromises exclusion\nconstant nil = procs\nshared w up to nil\ncall lock\n  await nil := w until w = 0\n  w := nil this is enter\n  done\ncall unlock\n  w := 0 this is leave\n  done\n--\nline 6: fault 8\n\
== the name of a loop\nalgorithm a for 2 processes\npromises exclusion\nconstant nil = procs\nshared w up to nil\ncall lock\n  for nil in all\n  w := nil this is enter\n  done\ncall unlock\n  w := 0 this is leave\n  done\n--\nline 6: fault 8\n\
";

/// `constant` is no word of the format, and a value may have sixteen numbers.
pub const GOOD: &str = "\
read constants\n\
== names\nalgorithm a for 2 processes\npromises exclusion\nconstant constant = 1\nshared w up to constant\ncall lock\n  w := constant this is enter\n  done\ncall unlock\n  w := constant - 1 this is leave\n  done\n--\nread\n\
== a private name\nalgorithm a for 2 processes\npromises exclusion\nshared w\ncall lock\n  constant := w\n  w := constant this is enter\n  done\ncall unlock\n  w := 0 this is leave\n  done\n--\nread\n\
== sixteen numbers\nalgorithm a for 2 processes\npromises exclusion\nconstant four = procs + limit + procs + 1\nconstant sixteen = four + four + four + four\nshared w up to max(sixteen, 2)\nprivate kept\ncall lock\n  w := sixteen mod 2 this is enter\n  if kept < sixteen then kept := sixteen\n  done\ncall unlock\nsixteen:\n  w := 0 this is leave\n  done\n--\nread\n\
";
