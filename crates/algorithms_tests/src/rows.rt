//! Rows of private names.

/// Searches of texts with two rows. Where a row would have more than 16 values there is no world.
pub const SEARCHES: &str = "\
search with rows\n\
== jayanti_jayanti_joshi 2 2 0\n--\n1826 states\n\
== jayanti_jayanti_joshi 2 2 1\n--\n21777 states\n\
== jayanti_jayanti_joshi 3 1 0\n--\n9707 states\n\
== jayanti_jayanti_joshi_two_nodes 2 4 0\n--\n4784 states\n\
== jayanti_jayanti_joshi_two_nodes 2 4 1\n--\n78 moves\n\
== jayanti_jayanti_joshi 2 8 0\n--\nthe algorithm is not for this number of processes\n\
";

/// What is wrong, a text, and where: the line, and the number of its fault.
pub const BAD: &str = "\
read faults of rows\n\
== a row alone\nalgorithm a for 2 processes\npromises exclusion\nshared w\nprivate row[3]\ncall lock\n  v := w\n  v := row\n  w := 1 this is enter\n  done\ncall unlock\n  w := 0 this is leave\n  done\n--\nline 7: fault 4\n\
== a row alone, and more\nalgorithm a for 2 processes\npromises exclusion\nshared w\nprivate row[3]\ncall lock\n  v := w\n  v := row + 1\n  w := 1 this is enter\n  done\ncall unlock\n  w := 0 this is leave\n  done\n--\nline 7: fault 4\n\
== a second index\nalgorithm a for 2 processes\npromises exclusion\nshared w\nprivate row[3]\ncall lock\n  v := w\n  v := row[0][1]\n  w := 1 this is enter\n  done\ncall unlock\n  w := 0 this is leave\n  done\n--\nline 7: fault 4\n\
== no index\nalgorithm a for 2 processes\npromises exclusion\nshared w\nprivate row[3]\ncall lock\n  v := w\n  v := row[]\n  w := 1 this is enter\n  done\ncall unlock\n  w := 0 this is leave\n  done\n--\nline 7: fault 4\n\
== an index without an end\nalgorithm a for 2 processes\npromises exclusion\nshared w\nprivate row[3]\ncall lock\n  v := w\n  v := row[0\n  w := 1 this is enter\n  done\ncall unlock\n  w := 0 this is leave\n  done\n--\nline 7: fault 4\n\
== a bracket of another kind\nalgorithm a for 2 processes\npromises exclusion\nshared w\nprivate row[3]\ncall lock\n  v := w\n  v := row(0)\n  w := 1 this is enter\n  done\ncall unlock\n  w := 0 this is leave\n  done\n--\nline 7: fault 4\n\
== a name that is no row\nalgorithm a for 2 processes\npromises exclusion\nshared w\nprivate row[3]\ncall lock\n  v := w\n  v := v[0]\n  w := 1 this is enter\n  done\ncall unlock\n  w := 0 this is leave\n  done\n--\nline 7: fault 6\n\
== set that is no row\nalgorithm a for 2 processes\npromises exclusion\nshared w\nprivate row[3]\ncall lock\n  v := w\n  v[0] := 1\n  w := 1 this is enter\n  done\ncall unlock\n  w := 0 this is leave\n  done\n--\nline 7: fault 6\n\
== set to a shared word\nalgorithm a for 2 processes\npromises exclusion\nshared w\nprivate row[3]\ncall lock\n  v := w\n  row := w\n  w := 1 this is enter\n  done\ncall unlock\n  w := 0 this is leave\n  done\n--\nline 7: fault 8\n\
== set by a swap\nalgorithm a for 2 processes\npromises exclusion\nshared w\nprivate row[3]\ncall lock\n  v := w\n  row := swap w to 1\n  w := 1 this is enter\n  done\ncall unlock\n  w := 0 this is leave\n  done\n--\nline 7: fault 8\n\
== set by an await\nalgorithm a for 2 processes\npromises exclusion\nshared w\nprivate row[3]\ncall lock\n  v := w\n  await row := w until w = 1\n  w := 1 this is enter\n  done\ncall unlock\n  w := 0 this is leave\n  done\n--\nline 7: fault 8\n\
== the name of a loop\nalgorithm a for 2 processes\npromises exclusion\nshared w\nprivate row[3]\ncall lock\n  v := w\n  for row in all\n  end\n  w := 1 this is enter\n  done\ncall unlock\n  w := 0 this is leave\n  done\n--\nline 7: fault 8\n\
== a value set to a shared word\nalgorithm a for 2 processes\npromises exclusion\nshared w\nprivate row[3]\ncall lock\n  v := w\n  row[0] := w\n  w := 1 this is enter\n  done\ncall unlock\n  w := 0 this is leave\n  done\n--\nline 7: fault 7\n\
== a shared word in its index\nalgorithm a for 2 processes\npromises exclusion\nshared w\nprivate row[3]\ncall lock\n  v := w\n  v := row[w]\n  w := 1 this is enter\n  done\ncall unlock\n  w := 0 this is leave\n  done\n--\nline 7: fault 7\n\
== with a deed\nalgorithm a for 2 processes\npromises exclusion\nshared w\nprivate row[3]\ncall lock\n  v := w\n  row[0] := 1 this is enter\n  w := 1 this is enter\n  done\ncall unlock\n  w := 0 this is leave\n  done\n--\nline 7: fault 15\n\
== all with a deed\nalgorithm a for 2 processes\npromises exclusion\nshared w\nprivate row[3]\ncall lock\n  v := w\n  row := 1 this is enter\n  w := 1 this is enter\n  done\ncall unlock\n  w := 0 this is leave\n  done\n--\nline 7: fault 15\n\
== a deep index\nalgorithm a for 2 processes\npromises exclusion\nshared w\nprivate row[3]\ncall lock\n  v := w\n  v := row[row[row[row[row[row[row[row[row[row[row[row[row[row[row[row[row[0]]]]]]]]]]]]]]]]]\n  w := 1 this is enter\n  done\ncall unlock\n  w := 0 this is leave\n  done\n--\nline 7: fault 16\n\
== a name in its size\nalgorithm a for 2 processes\npromises exclusion\nshared w\nprivate row[v]\ncall lock\n  v := w\n  w := 1 this is enter\n  done\ncall unlock\n  w := 0 this is leave\n  done\n--\nline 4: fault 4\n\
== me in its size\nalgorithm a for 2 processes\npromises exclusion\nshared w\nprivate row[me]\ncall lock\n  v := w\n  w := 1 this is enter\n  done\ncall unlock\n  w := 0 this is leave\n  done\n--\nline 4: fault 4\n\
== no size\nalgorithm a for 2 processes\npromises exclusion\nshared w\nprivate row[]\ncall lock\n  v := w\n  w := 1 this is enter\n  done\ncall unlock\n  w := 0 this is leave\n  done\n--\nline 4: fault 4\n\
== two sizes\nalgorithm a for 2 processes\npromises exclusion\nshared w\nprivate row[3][4]\ncall lock\n  v := w\n  w := 1 this is enter\n  done\ncall unlock\n  w := 0 this is leave\n  done\n--\nline 4: fault 4\n\
== more after its size\nalgorithm a for 2 processes\npromises exclusion\nshared w\nprivate row[3] 4\ncall lock\n  v := w\n  w := 1 this is enter\n  done\ncall unlock\n  w := 0 this is leave\n  done\n--\nline 4: fault 4\n\
== declared before\nalgorithm a for 2 processes\npromises exclusion\nshared w\nprivate w[3]\ncall lock\n  v := w\n  w := 1 this is enter\n  done\ncall unlock\n  w := 0 this is leave\n  done\n--\nline 4: fault 5\n\
== declared twice\nalgorithm a for 2 processes\npromises exclusion\nshared w\nprivate row[3]\nprivate row\ncall lock\n  v := w\n  w := 1 this is enter\n  done\ncall unlock\n  w := 0 this is leave\n  done\n--\nline 5: fault 5\n\
== a constant of its name\nalgorithm a for 2 processes\npromises exclusion\nshared w\nprivate row[3]\nconstant row = 1\ncall lock\n  v := w\n  w := 1 this is enter\n  done\ncall unlock\n  w := 0 this is leave\n  done\n--\nline 5: fault 5\n\
== a word of the format\nalgorithm a for 2 processes\npromises exclusion\nshared w\nprivate end[3]\ncall lock\n  v := w\n  w := 1 this is enter\n  done\ncall unlock\n  w := 0 this is leave\n  done\n--\nline 4: fault 5\n\
== five rows\nalgorithm a for 2 processes\npromises exclusion\nshared w\nprivate a[1]\nprivate b[1]\nprivate c[1]\nprivate d[1]\nprivate e[1]\ncall lock\n  v := w\n  w := 1 this is enter\n  done\ncall unlock\n  w := 0 this is leave\n  done\n--\nline 8: fault 16\n\
== in a claim\nalgorithm a for 2 processes\npromises exclusion\nshared w\nprivate row[3]\nnever row[0] = 1\ncall lock\n  v := w\n  w := 1 this is enter\n  done\ncall unlock\n  w := 0 this is leave\n  done\n--\nline 5: fault 6\n\
== in the index of a claim\nalgorithm a for 2 processes\npromises exclusion\nshared w\nprivate row[3]\nshared x[3]\nnever x[row[0]] = 1\ncall lock\n  v := w\n  w := 1 this is enter\n  done\ncall unlock\n  w := 0 this is leave\n  done\n--\nline 6: fault 6\n\
";

/// A row may be set as a whole or value by value, and its values may be indexes of values.
pub const GOOD: &str = "\
read rows\n\
== a row\nalgorithm a for 2 processes\npromises exclusion\nshared w\nprivate row[3]\ncall lock\n  v := w\n  row := v\n  row[0] := row[1] + row[row[2]]\n  if row[0] > max(row[1], 2) then v := row[v - 1]\n  w := 1 this is enter\n  done\ncall unlock\n  w := 0 this is leave\n  done\n--\nread\n\
== three rows\nalgorithm a for 2 processes\npromises exclusion\nshared w\nprivate a[procs + 1]\nprivate b[limit]\nprivate c[16]\ncall lock\n  v := w\n  a := 1\n  w := 1 this is enter\n  done\ncall unlock\n  w := 0 this is leave\n  done\n--\nread\n\
== in an index\nalgorithm a for 2 processes\npromises exclusion\nshared w\nconstant k = 2\nprivate row[k]\nshared x[k]\ncall lock\n  v := w\n  x[row[1]] := row[0]\n  v := x[row[row[0]]]\n  w := 1 this is enter\n  done\ncall unlock\n  w := 0 this is leave\n  done\n--\nread\n\
== a process of its name in a claim\nalgorithm a for 2 processes\npromises exclusion\nshared w\nprivate row[3]\nnever for row: row is dead\ncall lock\n  v := w\n  w := 1 this is enter\n  done\ncall unlock\n  w := 0 this is leave\n  done\n--\nread\n\
== sixteen indexes\nalgorithm a for 2 processes\npromises exclusion\nshared w\nprivate row[3]\ncall lock\n  v := w\n  v := row[row[row[row[row[row[row[row[row[row[row[row[row[row[row[row[0]]]]]]]]]]]]]]]]\n  w := 1 this is enter\n  done\ncall unlock\n  w := 0 this is leave\n  done\n--\nread\n\
";
