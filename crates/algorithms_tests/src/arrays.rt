//! Arrays of other sizes than `procs`, and tables, against the numbers of the reference program's second version.

/// What a text with tables spells.
pub const SPELLED: &str = "spell tables
== corner
--
Access(AccessLine { word: WordOf { declaration: 1, index: Some(Joined(Difference, Limit, Number(1))) }, action: Load { name: 0 }, may_withdraw: false })
Access(AccessLine { word: WordOf { declaration: 0, index: Some(Joined(Sum, Joined(Product, Number(0), Procs), Joined(Within, Joined(Sum, Private(0), Me), Procs))) }, action: Load { name: 0 }, may_withdraw: false })
Access(AccessLine { word: WordOf { declaration: 0, index: Some(Joined(Sum, Joined(Product, Private(0), Procs), Joined(Within, Me, Procs))) }, action: Store { value: Number(1) }, may_withdraw: false })
Local(Note(Enter))
Done(0)
Access(AccessLine { word: WordOf { declaration: 0, index: Some(Joined(Sum, Joined(Product, Joined(Sum, Me, Number(1)), Procs), Joined(Within, Number(0), Procs))) }, action: Load { name: 0 }, may_withdraw: false })
Access(AccessLine { word: WordOf { declaration: 0, index: Some(Joined(Sum, Joined(Product, Number(0), Procs), Joined(Within, Me, Procs))) }, action: Store { value: Joined(Sum, Private(0), Number(2)) }, may_withdraw: false })
Local(Note(Leave))
Done(0)
answer \n\
Entries { lock: 0, unlock: 5, recover: None, withdraw: None }
corner [\"v\"]
[Declaration { name: \"grid\", extent: Table(Joined(Product, Procs, Procs), Procs), bound: None, home: None }, Declaration { name: \"line\", extent: Array(Limit), bound: None, home: None }]
Promises { most_inside: 1, reentry: false, order: false, progress: None, bounds: false }
StepBounds { exit: None, recovery: None, doorway: None }
2 to 2 processes, 0 lasting names
first values Some(FirstValues { starts: [None, Some(Me)] })
";

/// The numbers of texts with arrays, and sizes of which there is no world: an array without a word, and one of more than 64.
pub const SEARCHES: &str = "\
search with arrays\n\
== peterson_tournament 2 4 0\n--\n58 states\n\
== peterson_tournament 3 4 0\n--\n1664 states\n\
== clh 2 4 0\n--\n830 states\n\
== clh 2 4 1\n--\n5407 states\n\
== golab_ramaraju_tournament 2 4 0\n--\n1843 states\n\
== golab_ramaraju_tournament 2 4 1\n--\n10901 states\n\
== recoverable_clh 2 4 0\n--\n9181 states\n\
== recoverable_clh 2 4 1\n--\n50957 states\n\
== recoverable_mcs 2 4 0\n--\n47684 states\n\
== dhoked_mittal 2 4 1\n--\n40 moves\n\
== table 1 1 0\n--\nthe algorithm is not for this number of processes\n\
== table 32 1 0\n--\nthe algorithm is not for this number of processes\n\
== corner 2 65 0\n--\nthe algorithm is not for this number of processes\n\
";

pub const RUNS: &str = "\
run over arrays\n\
== table 2 1\n\
lock 0 -> started\n\
step 0 -> 11 grid[5] 2\n\
step 0 -> 12 pair[1] swap 7 = 2\n\
step 0 -> 13 grid[0] = 7 enter done\n\
unlock 0 -> started\n\
step 0 -> 17 pair[0] = 0\n\
step 0 -> 18 grid[3] = 1 leave done\n\
lock 1 -> started\n\
step 1 -> 11 grid[5] 2\n\
step 1 -> 12 pair[3] swap 7 = 2\n\
words 7 1 1 1 2 2 0 2 7 2 0\n\
== corner 2 1\n\
lock 0 -> started\n\
step 0 -> 9 line[0] 0\n\
step 0 -> 10 grid[0] 0\n\
step 0 -> 11 grid[0] = 1 enter done\n\
unlock 0 -> started\n\
step 0 -> 15 grid[2] 0\n\
step 0 -> 16 grid[0] = 2 leave done\n\
lock 1 -> started\n\
step 1 -> 9 line[0] 0\n\
step 1 -> 10 grid[1] 0\n\
step 1 -> 11 grid[1] = 1 enter done\n\
unlock 1 -> started\n\
step 1 -> out of range at 15\n\
words 2 1 0 0 0\n\
== corner 2 2\n\
lock 1 -> started\n\
step 1 -> 9 line[1] 1\n\
step 1 -> out of range at 10\n\
words 0 0 0 0 0 1\n\
";

/// What is wrong, a text, and where: the line, and the number of its fault.
pub const BAD: &str = "\
read faults of arrays\n\
== me in a size\nalgorithm a for 2 processes\npromises exclusion\nshared w\nshared x[me]\ncall lock\n  v := w\n  w := 1 this is enter\n  done\ncall unlock\n  w := 0 this is leave\n  done\n--\nline 4: fault 4\n\
== a name in a size\nalgorithm a for 2 processes\npromises exclusion\nshared w\nshared x[y]\ncall lock\n  v := w\n  w := 1 this is enter\n  done\ncall unlock\n  w := 0 this is leave\n  done\n--\nline 4: fault 4\n\
== a shared word in a size\nalgorithm a for 2 processes\npromises exclusion\nshared w\nshared x[w]\ncall lock\n  v := w\n  w := 1 this is enter\n  done\ncall unlock\n  w := 0 this is leave\n  done\n--\nline 4: fault 7\n\
== an empty size\nalgorithm a for 2 processes\npromises exclusion\nshared w\nshared x[]\ncall lock\n  v := w\n  w := 1 this is enter\n  done\ncall unlock\n  w := 0 this is leave\n  done\n--\nline 4: fault 4\n\
== a size that is open\nalgorithm a for 2 processes\npromises exclusion\nshared w\nshared x[2\ncall lock\n  v := w\n  w := 1 this is enter\n  done\ncall unlock\n  w := 0 this is leave\n  done\n--\nline 4: fault 4\n\
== a third size\nalgorithm a for 2 processes\npromises exclusion\nshared w\nshared x[2][3][4]\ncall lock\n  v := w\n  w := 1 this is enter\n  done\ncall unlock\n  w := 0 this is leave\n  done\n--\nline 4: fault 4\n\
== a condition as a size\nalgorithm a for 2 processes\npromises exclusion\nshared w\nshared x[1 < 2]\ncall lock\n  v := w\n  w := 1 this is enter\n  done\ncall unlock\n  w := 0 this is leave\n  done\n--\nline 4: fault 4\n\
== me in a second size\nalgorithm a for 2 processes\npromises exclusion\nshared w\nshared x[2][me]\ncall lock\n  v := w\n  w := 1 this is enter\n  done\ncall unlock\n  w := 0 this is leave\n  done\n--\nline 4: fault 4\n\
== owner in a size\nalgorithm a for 2 processes\npromises exclusion\nshared w\nshared x[owner]\ncall lock\n  v := w\n  w := 1 this is enter\n  done\ncall unlock\n  w := 0 this is leave\n  done\n--\nline 4: fault 4\n\
== an index too few in a load\nalgorithm a for 2 processes\npromises exclusion\nshared w\nshared x[2][2]\ncall lock\n  v := x[0]\n  w := 1 this is enter\n  done\ncall unlock\n  w := 0 this is leave\n  done\n--\nline 6: fault 4\n\
== an index too few in a store\nalgorithm a for 2 processes\npromises exclusion\nshared w\nshared x[2][2]\ncall lock\n  x[0] := 1\n  w := 1 this is enter\n  done\ncall unlock\n  w := 0 this is leave\n  done\n--\nline 6: fault 4\n\
== an index too few in a swap\nalgorithm a for 2 processes\npromises exclusion\nshared w\nshared x[2][2]\ncall lock\n  v := swap x[0] to 1\n  w := 1 this is enter\n  done\ncall unlock\n  w := 0 this is leave\n  done\n--\nline 6: fault 4\n\
== an index too many in a store\nalgorithm a for 2 processes\npromises exclusion\nshared w\nshared x[2][2]\ncall lock\n  x[0][0][0] := 1\n  w := 1 this is enter\n  done\ncall unlock\n  w := 0 this is leave\n  done\n--\nline 6: fault 4\n\
== an index too many of an array\nalgorithm a for 2 processes\npromises exclusion\nshared w\nshared x[2]\ncall lock\n  x[0][0] := 1\n  w := 1 this is enter\n  done\ncall unlock\n  w := 0 this is leave\n  done\n--\nline 6: fault 4\n\
== no index\nalgorithm a for 2 processes\npromises exclusion\nshared w\nshared x[2]\ncall lock\n  v := x\n  w := 1 this is enter\n  done\ncall unlock\n  w := 0 this is leave\n  done\n--\nline 6: fault 4\n\
== no indexes\nalgorithm a for 2 processes\npromises exclusion\nshared w\nshared x[2][2]\ncall lock\n  v := x\n  w := 1 this is enter\n  done\ncall unlock\n  w := 0 this is leave\n  done\n--\nline 6: fault 4\n\
== a shared word in a second index\nalgorithm a for 2 processes\npromises exclusion\nshared w\nshared x[2][2]\ncall lock\n  v := x[0][w]\n  w := 1 this is enter\n  done\ncall unlock\n  w := 0 this is leave\n  done\n--\nline 6: fault 7\n\
== an unknown word in a second index\nalgorithm a for 2 processes\npromises exclusion\nshared w\nshared x[2][2]\ncall lock\n  v := x[0][y[0]]\n  w := 1 this is enter\n  done\ncall unlock\n  w := 0 this is leave\n  done\n--\nline 6: fault 6\n\
== a third index of a load\nalgorithm a for 2 processes\npromises exclusion\nshared w\nshared x[2][2]\ncall lock\n  v := x[0][0][0]\n  w := 1 this is enter\n  done\ncall unlock\n  w := 0 this is leave\n  done\n--\nline 6: fault 4\n\
== a second index of a load\nalgorithm a for 2 processes\npromises exclusion\nshared w\nshared x[procs]\ncall lock\n  v := x[0][0]\n  w := 1 this is enter\n  done\ncall unlock\n  w := 0 this is leave\n  done\n--\nline 6: fault 4\n\
";

pub const GOOD: &str = "\
read arrays\n\
== brackets in a size\nalgorithm a for 2 processes\npromises exclusion\nshared w\nshared x[(procs)]\ncall lock\n  v := x[me]\n  w := 1 this is enter\n  done\ncall unlock\n  w := 0 this is leave\n  done\n--\nread\n\
== a constant that is procs\nalgorithm a for 2 processes\npromises exclusion\nshared w\nconstant n = procs\nshared x[n]\ncall lock\n  v := x[me]\n  w := 1 this is enter\n  done\ncall unlock\n  w := 0 this is leave\n  done\n--\nread\n\
== sizes of all parts\nalgorithm a for 2 processes\npromises exclusion\nshared w\nshared x[2 * procs + 1][max(limit, 2)] up to 9 starts owner at owner\ncall lock\n  x[me][1] := 1\n  w := 1 this is enter\n  done\ncall unlock\n  w := 0 this is leave\n  done\n--\nread\n\
== one word in an array\nalgorithm a for 2 processes\npromises exclusion\nshared w\nshared x[1]\ncall lock\n  v := x[0]\n  w := 1 this is enter\n  done\ncall unlock\n  w := 0 this is leave\n  done\n--\nread\n\
";

/// The owner of a word is its first index.
pub const HOMES: &str = "\
homes in arrays\n\
== table 2\n\
0 0 1 -> 0\n\
0 2 1 -> 0\n\
0 3 1 -> 1\n\
1 1 1 -> 0\n\
1 2 1 -> 1\n\
1 3 1 -> 1\n\
";
