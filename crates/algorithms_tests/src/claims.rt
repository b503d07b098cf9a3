//! Conditions that never hold, against the numbers of the reference program's second version, but where a condition holds from a start
//! on: that is found with the step after it.

/// A claim that is kept makes no state of a search: it is of the state alone.
pub const SEARCHES: &str = "\
search with claims\n\
== kept_ticket 2 1 0\n--\n56 states\n\
== kept_ticket 3 1 0\n--\n384 states\n\
== kept_ticket 2 1 1\n--\n8 moves\n\
== claimed_ticket 2 1 0\n--\n7 moves\n\
== begun_ticket 2 1 0\n--\n2 moves\n\
== linked_mcs 2 1 0\n--\n89 states\n\
== linked_mcs 3 1 0\n--\n2361 states\n\
== linked_mcs 2 1 1\n--\n4 moves\n\
== unlinked_mcs 2 1 0\n--\n95 states, 6 moves left out from line 30\n\
== unlinked_mcs 2 1 1\n--\n9 moves\n\
";

/// A step or a crash after which a condition holds, or before which it held, reports so before its deeds. The verdict is by the first
/// such step.
pub const REPORTS: &str = "\
report of broken claims\n\
== claimed_ticket
rme 1 procs 2 limit 1 cap 1
lock 0
step 0 2
unlock 0
step 0
lock 1
step 1
step 0
step 1
--
begin 0
ready 0
enter 0
answer 0 done
breaks 6
begin 1
ready 1
breaks 6
leave 0
answer 0 done
enter 1
answer 1 done
words next 0
words serving 1
verdict against 11 at 4
== begun_ticket
rme 1 procs 2 limit 1 cap 1
lock 0
step 0
--
breaks 5
begin 0
ready 0
words next 1
words serving 0
verdict against 11 at 1
== linked_mcs
rme 1 procs 2 limit 1 cap 1
lock 0
step 0 2
crash 0
--
begin 0
ready 0
enter 0
answer 0 done
breaks 9
leave 0
crash 0
words tail 0
words next 2 2
words locked 0 0
verdict against 11 at 4
";

/// What is wrong, a text, and where: the line, and the number of its fault.
pub const BAD: &str = "\
read faults of claims\n\
== no condition\nalgorithm a for 2 processes\npromises exclusion\nconstant nil = procs\nshared w up to nil starts nil\nshared a[procs]\nnever\ncall lock\n  v := w\nhere:\n  w := me this is enter\n  done\ncall unlock\nhere:\n  v := a[0]\nonly:\n  w := nil this is leave\n  done\n--\nline 6: fault 4\n\
== a value alone\nalgorithm a for 2 processes\npromises exclusion\nconstant nil = procs\nshared w up to nil starts nil\nshared a[procs]\nnever w\ncall lock\n  v := w\nhere:\n  w := me this is enter\n  done\ncall unlock\nhere:\n  v := a[0]\nonly:\n  w := nil this is leave\n  done\n--\nline 6: fault 4\n\
== no colon\nalgorithm a for 2 processes\npromises exclusion\nconstant nil = procs\nshared w up to nil starts nil\nshared a[procs]\nnever for p p is inside\ncall lock\n  v := w\nhere:\n  w := me this is enter\n  done\ncall unlock\nhere:\n  v := a[0]\nonly:\n  w := nil this is leave\n  done\n--\nline 6: fault 4\n\
== no comma\nalgorithm a for 2 processes\npromises exclusion\nconstant nil = procs\nshared w up to nil starts nil\nshared a[procs]\nnever for p q: p is inside\ncall lock\n  v := w\nhere:\n  w := me this is enter\n  done\ncall unlock\nhere:\n  v := a[0]\nonly:\n  w := nil this is leave\n  done\n--\nline 6: fault 4\n\
== three processes\nalgorithm a for 2 processes\npromises exclusion\nconstant nil = procs\nshared w up to nil starts nil\nshared a[procs]\nnever for p, q, r: p is inside\ncall lock\n  v := w\nhere:\n  w := me this is enter\n  done\ncall unlock\nhere:\n  v := a[0]\nonly:\n  w := nil this is leave\n  done\n--\nline 6: fault 4\n\
== half a condition\nalgorithm a for 2 processes\npromises exclusion\nconstant nil = procs\nshared w up to nil starts nil\nshared a[procs]\nnever for p: p is inside and\ncall lock\n  v := w\nhere:\n  w := me this is enter\n  done\ncall unlock\nhere:\n  v := a[0]\nonly:\n  w := nil this is leave\n  done\n--\nline 6: fault 4\n\
== no phase\nalgorithm a for 2 processes\npromises exclusion\nconstant nil = procs\nshared w up to nil starts nil\nshared a[procs]\nnever for p: p is\ncall lock\n  v := w\nhere:\n  w := me this is enter\n  done\ncall unlock\nhere:\n  v := a[0]\nonly:\n  w := nil this is leave\n  done\n--\nline 6: fault 4\n\
== another phase\nalgorithm a for 2 processes\npromises exclusion\nconstant nil = procs\nshared w up to nil starts nil\nshared a[procs]\nnever for p: p is dying\ncall lock\n  v := w\nhere:\n  w := me this is enter\n  done\ncall unlock\nhere:\n  v := a[0]\nonly:\n  w := nil this is leave\n  done\n--\nline 6: fault 4\n\
== no label\nalgorithm a for 2 processes\npromises exclusion\nconstant nil = procs\nshared w up to nil starts nil\nshared a[procs]\nnever for p: p at\ncall lock\n  v := w\nhere:\n  w := me this is enter\n  done\ncall unlock\nhere:\n  v := a[0]\nonly:\n  w := nil this is leave\n  done\n--\nline 6: fault 4\n\
== no index\nalgorithm a for 2 processes\npromises exclusion\nconstant nil = procs\nshared w up to nil starts nil\nshared a[procs]\nnever for p: a = p\ncall lock\n  v := w\nhere:\n  w := me this is enter\n  done\ncall unlock\nhere:\n  v := a[0]\nonly:\n  w := nil this is leave\n  done\n--\nline 6: fault 4\n\
== an index too many\nalgorithm a for 2 processes\npromises exclusion\nconstant nil = procs\nshared w up to nil starts nil\nshared a[procs]\nnever for p: w[p] = p\ncall lock\n  v := w\nhere:\n  w := me this is enter\n  done\ncall unlock\nhere:\n  v := a[0]\nonly:\n  w := nil this is leave\n  done\n--\nline 6: fault 4\n\
== an own number\nalgorithm a for 2 processes\npromises exclusion\nconstant nil = procs\nshared w up to nil starts nil\nshared a[procs]\nnever for p: me = p\ncall lock\n  v := w\nhere:\n  w := me this is enter\n  done\ncall unlock\nhere:\n  v := a[0]\nonly:\n  w := nil this is leave\n  done\n--\nline 6: fault 4\n\
== a process twice\nalgorithm a for 2 processes\npromises exclusion\nconstant nil = procs\nshared w up to nil starts nil\nshared a[procs]\nnever for p, p: p is inside\ncall lock\n  v := w\nhere:\n  w := me this is enter\n  done\ncall unlock\nhere:\n  v := a[0]\nonly:\n  w := nil this is leave\n  done\n--\nline 6: fault 5\n\
== a shared word as a process\nalgorithm a for 2 processes\npromises exclusion\nconstant nil = procs\nshared w up to nil starts nil\nshared a[procs]\nnever for w: w is inside\ncall lock\n  v := w\nhere:\n  w := me this is enter\n  done\ncall unlock\nhere:\n  v := a[0]\nonly:\n  w := nil this is leave\n  done\n--\nline 6: fault 5\n\
== a constant as a process\nalgorithm a for 2 processes\npromises exclusion\nconstant nil = procs\nshared w up to nil starts nil\nshared a[procs]\nnever for nil: nil is inside\ncall lock\n  v := w\nhere:\n  w := me this is enter\n  done\ncall unlock\nhere:\n  v := a[0]\nonly:\n  w := nil this is leave\n  done\n--\nline 6: fault 5\n\
== a word of the format as a process\nalgorithm a for 2 processes\npromises exclusion\nconstant nil = procs\nshared w up to nil starts nil\nshared a[procs]\nnever for if: w = 1\ncall lock\n  v := w\nhere:\n  w := me this is enter\n  done\ncall unlock\nhere:\n  v := a[0]\nonly:\n  w := nil this is leave\n  done\n--\nline 6: fault 5\n\
== another process\nalgorithm a for 2 processes\npromises exclusion\nconstant nil = procs\nshared w up to nil starts nil\nshared a[procs]\nnever for p: q is inside\ncall lock\n  v := w\nhere:\n  w := me this is enter\n  done\ncall unlock\nhere:\n  v := a[0]\nonly:\n  w := nil this is leave\n  done\n--\nline 6: fault 6\n\
== no process\nalgorithm a for 2 processes\npromises exclusion\nconstant nil = procs\nshared w up to nil starts nil\nshared a[procs]\nnever p is inside\ncall lock\n  v := w\nhere:\n  w := me this is enter\n  done\ncall unlock\nhere:\n  v := a[0]\nonly:\n  w := nil this is leave\n  done\n--\nline 6: fault 6\n\
== no such name\nalgorithm a for 2 processes\npromises exclusion\nconstant nil = procs\nshared w up to nil starts nil\nshared a[procs]\nnever w = x\ncall lock\n  v := w\nhere:\n  w := me this is enter\n  done\ncall unlock\nhere:\n  v := a[0]\nonly:\n  w := nil this is leave\n  done\n--\nline 6: fault 6\n\
== no such name in an index\nalgorithm a for 2 processes\npromises exclusion\nconstant nil = procs\nshared w up to nil starts nil\nshared a[procs]\nnever for p: a[x] = p\ncall lock\n  v := w\nhere:\n  w := me this is enter\n  done\ncall unlock\nhere:\n  v := a[0]\nonly:\n  w := nil this is leave\n  done\n--\nline 6: fault 6\n\
== no such word\nalgorithm a for 2 processes\npromises exclusion\nconstant nil = procs\nshared w up to nil starts nil\nshared a[procs]\nnever for p: b[p] = p\ncall lock\n  v := w\nhere:\n  w := me this is enter\n  done\ncall unlock\nhere:\n  v := a[0]\nonly:\n  w := nil this is leave\n  done\n--\nline 6: fault 6\n\
== a constant in a phase\nalgorithm a for 2 processes\npromises exclusion\nconstant nil = procs\nshared w up to nil starts nil\nshared a[procs]\nnever for p: nil is inside\ncall lock\n  v := w\nhere:\n  w := me this is enter\n  done\ncall unlock\nhere:\n  v := a[0]\nonly:\n  w := nil this is leave\n  done\n--\nline 6: fault 6\n\
== an own number as a process\nalgorithm a for 2 processes\npromises exclusion\nconstant nil = procs\nshared w up to nil starts nil\nshared a[procs]\nnever for me: me is inside\ncall lock\n  v := w\nhere:\n  w := me this is enter\n  done\ncall unlock\nhere:\n  v := a[0]\nonly:\n  w := nil this is leave\n  done\n--\nline 6: fault 8\n\
== no such label\nalgorithm a for 2 processes\npromises exclusion\nconstant nil = procs\nshared w up to nil starts nil\nshared a[procs]\nnever for p: p at nowhere\ncall lock\n  v := w\nhere:\n  w := me this is enter\n  done\ncall unlock\nhere:\n  v := a[0]\nonly:\n  w := nil this is leave\n  done\n--\nline 6: fault 10\n\
== a label of two calls\nalgorithm a for 2 processes\npromises exclusion\nconstant nil = procs\nshared w up to nil starts nil\nshared a[procs]\nnever for p: p at here\ncall lock\n  v := w\nhere:\n  w := me this is enter\n  done\ncall unlock\nhere:\n  v := a[0]\nonly:\n  w := nil this is leave\n  done\n--\nline 6: fault 10\n\
== too great\nalgorithm a for 2 processes\npromises exclusion\nconstant nil = procs\nshared w up to nil starts nil\nshared a[procs]\nnever w = 18446744073709551616\ncall lock\n  v := w\nhere:\n  w := me this is enter\n  done\ncall unlock\nhere:\n  v := a[0]\nonly:\n  w := nil this is leave\n  done\n--\nline 6: fault 16\n\
== 65 names\nalgorithm a for 2 processes\npromises exclusion\nconstant nil = procs\nshared w up to nil starts nil\nshared a[procs]\nnever w = 0 or w = 0 or w = 0 or w = 0 or w = 0 or w = 0 or w = 0 or w = 0 or w = 0 or w = 0 or w = 0 or w = 0 or w = 0 or w = 0 or w = 0 or w = 0 or w = 0 or w = 0 or w = 0 or w = 0 or w = 0 or w = 0 or w = 0 or w = 0 or w = 0 or w = 0 or w = 0 or w = 0 or w = 0 or w = 0 or w = 0 or w = 0 or w = 0 or w = 0 or w = 0 or w = 0 or w = 0 or w = 0 or w = 0 or w = 0 or w = 0 or w = 0 or w = 0 or w = 0 or w = 0 or w = 0 or w = 0 or w = 0 or w = 0 or w = 0 or w = 0 or w = 0 or w = 0 or w = 0 or w = 0 or w = 0 or w = 0 or w = 0 or w = 0 or w = 0 or w = 0 or w = 0 or w = 0 or w = 0 or w = 0\ncall lock\n  v := w\nhere:\n  w := me this is enter\n  done\ncall unlock\nhere:\n  v := a[0]\nonly:\n  w := nil this is leave\n  done\n--\nline 6: fault 16\n\
";

/// `never`, the phases and `at` are no words of the format.
pub const GOOD: &str = "\
read claims\n\
== one word\nalgorithm a for 2 processes\npromises exclusion\nconstant nil = procs\nshared w up to nil starts nil\nshared a[procs]\nnever w > nil\ncall lock\n  v := w\nhere:\n  w := me this is enter\n  done\ncall unlock\nhere:\n  v := a[0]\nonly:\n  w := nil this is leave\n  done\n--\nread\n\
== two processes\nalgorithm a for 2 processes\npromises exclusion\nconstant nil = procs\nshared w up to nil starts nil\nshared a[procs]\nnever for p, q: p is inside and a[q] = 1 and w = p\ncall lock\n  v := w\nhere:\n  w := me this is enter\n  done\ncall unlock\nhere:\n  v := a[0]\nonly:\n  w := nil this is leave\n  done\n--\nread\n\
== a label\nalgorithm a for 2 processes\npromises exclusion\nconstant nil = procs\nshared w up to nil starts nil\nshared a[procs]\nnever for p: p at only\ncall lock\n  v := w\nhere:\n  w := me this is enter\n  done\ncall unlock\nhere:\n  v := a[0]\nonly:\n  w := nil this is leave\n  done\n--\nread\n\
== an index of an index\nalgorithm a for 2 processes\npromises exclusion\nconstant nil = procs\nshared w up to nil starts nil\nshared a[procs]\nnever for p: a[a[p]] = p\ncall lock\n  v := w\nhere:\n  w := me this is enter\n  done\ncall unlock\nhere:\n  v := a[0]\nonly:\n  w := nil this is leave\n  done\n--\nread\n\
== the phase of a value\nalgorithm a for 2 processes\npromises exclusion\nconstant nil = procs\nshared w up to nil starts nil\nshared a[procs]\nnever for p: a[p] is waiting\ncall lock\n  v := w\nhere:\n  w := me this is enter\n  done\ncall unlock\nhere:\n  v := a[0]\nonly:\n  w := nil this is leave\n  done\n--\nread\n\
== pairs\nalgorithm a for 2 processes\npromises exclusion\nconstant nil = procs\nshared w up to nil starts nil\nshared a[procs]\nnever for p: (p, w) < (w, p)\ncall lock\n  v := w\nhere:\n  w := me this is enter\n  done\ncall unlock\nhere:\n  v := a[0]\nonly:\n  w := nil this is leave\n  done\n--\nread\n\
== brackets\nalgorithm a for 2 processes\npromises exclusion\nconstant nil = procs\nshared w up to nil starts nil\nshared a[procs]\nnever for p, q: not (p is inside or (q is dead and max(w, p) - 1 = limit mod 2))\ncall lock\n  v := w\nhere:\n  w := me this is enter\n  done\ncall unlock\nhere:\n  v := a[0]\nonly:\n  w := nil this is leave\n  done\n--\nread\n\
== 64 names\nalgorithm a for 2 processes\npromises exclusion\nconstant nil = procs\nshared w up to nil starts nil\nshared a[procs]\nnever w = 0 or w = 0 or w = 0 or w = 0 or w = 0 or w = 0 or w = 0 or w = 0 or w = 0 or w = 0 or w = 0 or w = 0 or w = 0 or w = 0 or w = 0 or w = 0 or w = 0 or w = 0 or w = 0 or w = 0 or w = 0 or w = 0 or w = 0 or w = 0 or w = 0 or w = 0 or w = 0 or w = 0 or w = 0 or w = 0 or w = 0 or w = 0 or w = 0 or w = 0 or w = 0 or w = 0 or w = 0 or w = 0 or w = 0 or w = 0 or w = 0 or w = 0 or w = 0 or w = 0 or w = 0 or w = 0 or w = 0 or w = 0 or w = 0 or w = 0 or w = 0 or w = 0 or w = 0 or w = 0 or w = 0 or w = 0 or w = 0 or w = 0 or w = 0 or w = 0 or w = 0 or w = 0 or w = 0 or w = 0\ncall lock\n  v := w\nhere:\n  w := me this is enter\n  done\ncall unlock\nhere:\n  v := a[0]\nonly:\n  w := nil this is leave\n  done\n--\nread\n\
== as a name\nalgorithm a for 2 processes\npromises exclusion\nconstant nil = procs\nshared w up to nil starts nil\nshared a[procs]\nshared never\nnever never = 1\ncall lock\n  v := w\nhere:\n  w := me this is enter\n  done\ncall unlock\nhere:\n  v := a[0]\nonly:\n  w := nil this is leave\n  done\n--\nread\n\
";
