//! A text for each fault, with its line and its number, and some texts that have none.

use crate::details::detail_of;
use algorithm_texts::read_algorithm;
use std::alloc::Global;
use std::fmt::Write;
use std::test::Fail;

/// What is wrong, a text, and where: the line, and the number of its fault.
pub const BAD: &str = "\
read texts with a fault\n\
== empty\n--\nline 1: fault 1\n\
== no header\npromises exclusion\n--\nline 1: fault 1\n\
== header without for\nalgorithm a 2 processes\n--\nline 1: fault 1\n\
== no promises\nalgorithm a for 2 processes\nshared x\n--\nline 2: fault 1\n\
== a tab\nalgorithm a for 2 processes\npromises exclusion\n\tshared x\n--\nline 3: fault 2\n\
== a strange character\nalgorithm a for 2 processes\npromises exclusion\nshared flag[procs] up to 1\nshared turn\ncall lock\n  turn := 1 & 2\n  done\ncall unlock\n  turn := 0 this is leave\n  done\n--\nline 6: fault 2\n\
== no last line feed\nalgorithm a for 2 processes\npromises exclusion\nshared flag[procs] up to 1\nshared turn\ncall lock\n  turn := 1\n  done\ncall unlock\n  turn := 0 this is leave\n  done--\nline 10: fault 3\n\
== no form\nalgorithm a for 2 processes\npromises exclusion\nshared flag[procs] up to 1\nshared turn\ncall lock\n  turn = 1\n  done\ncall unlock\n  turn := 0 this is leave\n  done\n--\nline 6: fault 4\n\
== a number with 0 before\nalgorithm a for 2 processes\npromises exclusion\nshared flag[procs] up to 1\nshared turn\ncall lock\n  turn := 01\n  done\ncall unlock\n  turn := 0 this is leave\n  done\n--\nline 6: fault 4\n\
== two statements\nalgorithm a for 2 processes\npromises exclusion\nshared flag[procs] up to 1\nshared turn\ncall lock\n  turn := 1 done\n  done\ncall unlock\n  turn := 0 this is leave\n  done\n--\nline 6: fault 4\n\
== an index to one word\nalgorithm a for 2 processes\npromises exclusion\nshared flag[procs] up to 1\nshared turn\ncall lock\n  turn[0] := 1\n  done\ncall unlock\n  turn := 0 this is leave\n  done\n--\nline 6: fault 4\n\
== no index\nalgorithm a for 2 processes\npromises exclusion\nshared flag[procs] up to 1\nshared turn\ncall lock\n  flag := 1\n  done\ncall unlock\n  turn := 0 this is leave\n  done\n--\nline 6: fault 4\n\
== a pair with a number\nalgorithm a for 2 processes\npromises exclusion\nshared flag[procs] up to 1\nshared turn\ncall lock\n  v := turn\n  if (v, 1) < 2 then done\n  done\ncall unlock\n  turn := 0 this is leave\n  done\n--\nline 7: fault 4\n\
== if in one line within if\nalgorithm a for 2 processes\npromises exclusion\nshared flag[procs] up to 1\nshared turn\ncall lock\n  v := turn\n  if v = 1 then if v = 2 then done\n  done\ncall unlock\n  turn := 0 this is leave\n  done\n--\nline 7: fault 4\n\
== declared twice\nalgorithm a for 2 processes\npromises exclusion\nshared x\nprivate x\n--\nline 4: fault 5\n\
== a word of the format\nalgorithm a for 2 processes\npromises exclusion\nshared begin\n--\nline 3: fault 5\n\
== a label twice\nalgorithm a for 2 processes\npromises exclusion\nshared flag[procs] up to 1\nshared turn\ncall lock\nl:\n  turn := 1\nl:\n  done\ncall unlock\n  turn := 0 this is leave\n  done\n--\nline 8: fault 5\n\
== a loop in a loop with its name\nalgorithm a for 2 processes\npromises exclusion\nshared flag[procs] up to 1\nshared turn\ncall lock\n  for j in all\n    for j in all\n      turn := j\n    end\n  end\n  done\ncall unlock\n  turn := 0 this is leave\n  done\n--\nline 7: fault 5\n\
== unknown shared\nalgorithm a for 2 processes\npromises exclusion\nshared flag[procs] up to 1\nshared turn\ncall lock\n  trun := flag[me]\n  x := tunr[me]\n  done\ncall unlock\n  turn := 0 this is leave\n  done\n--\nline 7: fault 6\n\
== unknown name\nalgorithm a for 2 processes\npromises exclusion\nshared flag[procs] up to 1\nshared turn\ncall lock\n  turn := k\n  done\ncall unlock\n  turn := 0 this is leave\n  done\n--\nline 6: fault 6\n\
== a loop's name outside\nalgorithm a for 2 processes\npromises exclusion\nshared flag[procs] up to 1\nshared turn\ncall lock\n  for j in others\n    v := flag[j]\n  end\n  turn := j\n  done\ncall unlock\n  turn := 0 this is leave\n  done\n--\nline 9: fault 6\n\
== two words in one line\nalgorithm a for 2 processes\npromises exclusion\nshared flag[procs] up to 1\nshared turn\ncall lock\n  turn := flag[me]\n  done\ncall unlock\n  turn := 0 this is leave\n  done\n--\nline 6: fault 7\n\
== a word in a condition\nalgorithm a for 2 processes\npromises exclusion\nshared flag[procs] up to 1\nshared turn\ncall lock\n  v := turn\n  if flag[me] = 1 then done\n  done\ncall unlock\n  turn := 0 this is leave\n  done\n--\nline 7: fault 7\n\
== a word in a sum\nalgorithm a for 2 processes\npromises exclusion\nshared flag[procs] up to 1\nshared turn\ncall lock\n  v := turn + 1\n  done\ncall unlock\n  turn := 0 this is leave\n  done\n--\nline 6: fault 7\n\
== a word in an index\nalgorithm a for 2 processes\npromises exclusion\nshared flag[procs] up to 1\nshared turn\ncall lock\n  flag[turn] := 1\n  done\ncall unlock\n  turn := 0 this is leave\n  done\n--\nline 6: fault 7\n\
== await on two words\nalgorithm a for 2 processes\npromises exclusion\nshared flag[procs] up to 1\nshared turn\ncall lock\n  await v := turn until v = 1 or flag[me] = 0\n  done\ncall unlock\n  turn := 0 this is leave\n  done\n--\nline 6: fault 7\n\
== me is set\nalgorithm a for 2 processes\npromises exclusion\nshared flag[procs] up to 1\nshared turn\ncall lock\n  me := 1\n  turn := 1\n  done\ncall unlock\n  turn := 0 this is leave\n  done\n--\nline 6: fault 8\n\
== a loop's name is set\nalgorithm a for 2 processes\npromises exclusion\nshared flag[procs] up to 1\nshared turn\ncall lock\n  for j in others\n    j := 1\n    turn := j\n  end\n  done\ncall unlock\n  turn := 0 this is leave\n  done\n--\nline 7: fault 8\n\
== a loop over a shared name\nalgorithm a for 2 processes\npromises exclusion\nshared flag[procs] up to 1\nshared turn\ncall lock\n  for turn in others\n    flag[me] := 1\n  end\n  done\ncall unlock\n  turn := 0 this is leave\n  done\n--\nline 6: fault 8\n\
== end missing\nalgorithm a for 2 processes\npromises exclusion\nshared flag[procs] up to 1\nshared turn\ncall lock\n  for j in others\n    turn := j\n  done\ncall unlock\n  turn := 0 this is leave\n  done\n--\nline 9: fault 9\n\
== end too many\nalgorithm a for 2 processes\npromises exclusion\nshared flag[procs] up to 1\nshared turn\ncall lock\n  turn := 1\n  end\n  done\ncall unlock\n  turn := 0 this is leave\n  done\n--\nline 7: fault 9\n\
== else without if\nalgorithm a for 2 processes\npromises exclusion\nshared flag[procs] up to 1\nshared turn\ncall lock\n  turn := 1\n  else\n  done\ncall unlock\n  turn := 0 this is leave\n  done\n--\nline 7: fault 9\n\
== no label\nalgorithm a for 2 processes\npromises exclusion\nshared flag[procs] up to 1\nshared turn\ncall lock\n  turn := 1\n  goto nowhere\ncall unlock\n  turn := 0 this is leave\n  done\n--\nline 7: fault 10\n\
== a label within a block\nalgorithm a for 2 processes\npromises exclusion\nshared flag[procs] up to 1\nshared turn\ncall lock\n  turn := 1\n  goto in_there\n  for j in others\nin_there:\n    turn := j\n  end\n  done\ncall unlock\n  turn := 0 this is leave\n  done\n--\nline 7: fault 10\n\
== a label of the other call\nalgorithm a for 2 processes\npromises exclusion\nshared flag[procs] up to 1\nshared turn\ncall lock\n  turn := 1\n  goto there\ncall unlock\nthere:\n  turn := 0\n  done\n--\nline 7: fault 10\n\
== read before set\nalgorithm a for 2 processes\npromises exclusion\nshared flag[procs] up to 1\nshared turn\ncall lock\n  v := turn\n  if v = 0 then k := 1\n  turn := k\n  done\ncall unlock\n  turn := 0 this is leave\n  done\n--\nline 8: fault 11\n\
== read before set, loop that may be empty\nalgorithm a for 1 to 2 processes\npromises exclusion\nshared flag[procs] up to 1\nshared turn\ncall lock\n  for j in others\n    v := flag[j]\n  end\n  turn := v\n  done\ncall unlock\n  turn := 0 this is leave\n  done\n--\nline 9: fault 11\n\
== for ever\nalgorithm a for 2 processes\npromises exclusion\nshared flag[procs] up to 1\nshared turn\ncall lock\n  v := turn\nl:\n  v := max(v, 1)\n  goto l\ncall unlock\n  turn := 0 this is leave\n  done\n--\nline 8: fault 12\n\
== for ever at the start\nalgorithm a for 2 processes\npromises exclusion\nshared flag[procs] up to 1\nshared turn\ncall lock\nl:\n  if me = 0 then goto l\n  turn := 1\n  done\ncall unlock\n  turn := 0 this is leave\n  done\n--\nline 7: fault 12\n\
== two ways round, and lines between them before both\nalgorithm a for 2 processes\npromises exclusion\nshared flag[procs] up to 1\nshared turn\ncall lock\n  goto one\nmid:\n  v := 1\n  goto two\none:\n  if me = 0 then goto one\n  goto mid\ntwo:\n  v := 2\n  goto two\ncall unlock\n  turn := 0 this is leave\n  done\n--\nline 11: fault 12\n\
== for ever round an empty loop\nalgorithm a for 1 to 2 processes\npromises exclusion\nshared flag[procs] up to 1\nshared turn\ncall lock\nl:\n  for j in others\n    v := flag[j]\n    if v = 1 then goto out\n  end\n  goto l\nout:\n  turn := 1\n  done\ncall unlock\n  turn := 0 this is leave\n  done\n--\nline 7: fault 12\n\
== without a step\nalgorithm a for 2 processes\npromises exclusion\nshared flag[procs] up to 1\nshared turn\ncall lock\n  if me = 0 then done\n  turn := 1\n  done\ncall unlock\n  turn := 0 this is leave\n  done\n--\nline 6: fault 13\n\
== falls off\nalgorithm a for 2 processes\npromises exclusion\nshared flag[procs] up to 1\nshared turn\ncall lock\n  turn := 1\ncall unlock\n  turn := 0 this is leave\n  done\n--\nline 6: fault 14\n\
== falls off by an if\nalgorithm a for 2 processes\npromises exclusion\nshared flag[procs] up to 1\nshared turn\ncall lock\n  v := turn\n  if v = 1 then done\ncall unlock\n  turn := 0 this is leave\n  done\n--\nline 7: fault 14\n\
== an empty call\nalgorithm a for 2 processes\npromises exclusion\nshared flag[procs] up to 1\nshared turn\ncall lock\ncall unlock\n  turn := 0 this is leave\n  done\n--\nline 5: fault 14\n\
== begin without order\nalgorithm a for 2 processes\npromises exclusion\nshared flag[procs] up to 1\nshared turn\ncall lock\n  turn := 1 this is begin\n  done\ncall unlock\n  turn := 0 this is leave\n  done\n--\nline 6: fault 15\n\
== reenter without reentry\nalgorithm a for 2 processes\npromises exclusion, order\nshared flag[procs] up to 1\nshared turn\ncall lock\n  turn := 1 this is reenter\n  done\ncall unlock\n  turn := 0 this is leave\n  done\n--\nline 6: fault 15\n\
== a deed of no step\nalgorithm a for 2 processes\npromises exclusion\nshared flag[procs] up to 1\nshared turn\ncall lock\n  turn := 0\n  v := 1 this is enter\n  turn := v\n  done\ncall unlock\n  turn := 0 this is leave\n  done\n--\nline 7: fault 15\n\
== a deed before a step\nalgorithm a for 2 processes\npromises exclusion\nshared flag[procs] up to 1\nshared turn\ncall lock\n  this is enter\n  turn := 1\n  done\ncall unlock\n  turn := 0 this is leave\n  done\n--\nline 6: fault 13\n\
== no deed\nalgorithm a for 2 processes\npromises exclusion\nshared flag[procs] up to 1\nshared turn\ncall lock\n  turn := 1 this is mine\n  done\ncall unlock\n  turn := 0 this is leave\n  done\n--\nline 6: fault 4\n\
== a number above u64\nalgorithm a for 2 processes\npromises exclusion\nshared flag[procs] up to 1\nshared turn\ncall lock\n  turn := 18446744073709551616\n  done\ncall unlock\n  turn := 0 this is leave\n  done\n--\nline 6: fault 16\n\
== 65 processes\nalgorithm a for 65 processes\n--\nline 1: fault 16\n\
== a deep bracket\nalgorithm a for 2 processes\npromises exclusion\nshared flag[procs] up to 1\nshared turn\ncall lock\n  turn := ((((((((((((((((((1))))))))))))))))))\n  done\ncall unlock\n  turn := 0 this is leave\n  done\n--\nline 6: fault 16\n\
== deep blocks\nalgorithm a for 2 processes\npromises exclusion\nshared flag[procs] up to 1\nshared turn\ncall lock\n  v := turn\n  if v = 0 then\n  if v = 0 then\n  if v = 0 then\n  if v = 0 then\n  if v = 0 then\n  if v = 0 then\n  if v = 0 then\n  if v = 0 then\n  if v = 0 then\n  if v = 0 then\n  if v = 0 then\n  if v = 0 then\n  if v = 0 then\n  if v = 0 then\n  if v = 0 then\n  if v = 0 then\n  if v = 0 then\n  v := 1\n  end\n  end\n  end\n  end\n  end\n  end\n  end\n  end\n  end\n  end\n  end\n  end\n  end\n  end\n  end\n  end\n  end\n  done\ncall unlock\n  turn := 0 this is leave\n  done\n--\nline 23: fault 16\n\
== three loops\nalgorithm a for 2 processes\npromises exclusion\nshared flag[procs] up to 1\nshared turn\ncall lock\n  for a in all\n    for b in all\n      for c in all\n        turn := c\n      end\n    end\n  end\n  done\ncall unlock\n  turn := 0 this is leave\n  done\n--\nline 8: fault 16\n\
== no unlock\nalgorithm a for 2 processes\npromises exclusion\nshared flag[procs] up to 1\nshared turn\ncall lock\n  turn := 1\n  done\n--\nline 7: fault 17\n\
== lock twice\nalgorithm a for 2 processes\npromises exclusion\nshared flag[procs] up to 1\nshared turn\ncall lock\n  turn := 1\n  done\ncall lock\n  turn := 0\n  done\n--\nline 8: fault 17\n\
== withdraw that is never allowed\nalgorithm a for 2 processes\npromises exclusion\nshared flag[procs] up to 1\nshared turn\ncall lock\n  turn := 1\n  done\ncall unlock\n  turn := 0 this is leave\n  done\ncall withdraw\n  turn := 0\n  done\n--\nline 11: fault 17\n\
== may withdraw without it\nalgorithm a for 2 processes\npromises exclusion\nshared flag[procs] up to 1\nshared turn\ncall lock\n  turn := 1 may withdraw\n  done\ncall unlock\n  turn := 0 this is leave\n  done\n--\nline 6: fault 17\n\
== something is taken from a fact\nalgorithm a for 2 processes\npromises exclusion\nshared flag[procs] up to 1\nshared turn\nnever for p: p is inside and 1 - p is inside\ncall lock\n  turn := 1 this is enter\n  done\ncall unlock\n  turn := 0 this is leave\n  done\n--\nline 5: fault 4\n\
== never reached\nalgorithm a for 2 processes\npromises exclusion\nshared flag[procs] up to 1\nshared turn\ncall lock\n  turn := 1\n  done\n  turn := 2\n  done\ncall unlock\n  turn := 0 this is leave\n  done\n--\nline 8: fault 18\n\
== promises in another order\nalgorithm a for 2 processes\npromises order, exclusion\n--\nline 2: fault 4\n\
== letters after a number\nalgorithm a for 2 processes\npromises exclusion\nshared flag[procs] up to 1\nshared turn\ncall lock\n  turn := 1a\n  done\ncall unlock\n  turn := 0 this is leave\n  done\n--\nline 6: fault 4\n\
== `_` in a number\nalgorithm a for 2 processes\npromises exclusion\nshared flag[procs] up to 1\nshared turn\ncall lock\n  turn := 10_000\n  done\ncall unlock\n  turn := 0 this is leave\n  done\n--\nline 6: fault 4\n\
== an answer with two dashes\nalgorithm a for 2 processes\npromises exclusion\nshared flag[procs] up to 1\nshared turn\ncall lock\n  turn := 1\n  done a--b\ncall unlock\n  turn := 0 this is leave\n  done\n--\nline 7: fault 4\n\
== an answer of a dash\nalgorithm a for 2 processes\npromises exclusion\nshared flag[procs] up to 1\nshared turn\ncall lock\n  turn := 1\n  done -\ncall unlock\n  turn := 0 this is leave\n  done\n--\nline 7: fault 4\n\
== an answer that ends with a dash\nalgorithm a for 2 processes\npromises exclusion\nshared flag[procs] up to 1\nshared turn\ncall lock\n  turn := 1\n  done a- b\ncall unlock\n  turn := 0 this is leave\n  done\n--\nline 7: fault 4\n\
== a dash at done\nalgorithm a for 2 processes\npromises exclusion\nshared flag[procs] up to 1\nshared turn\ncall lock\n  turn := 1\n  done-x\ncall unlock\n  turn := 0 this is leave\n  done\n--\nline 7: fault 4\n\
== an index to one word that is loaded\nalgorithm a for 2 processes\npromises exclusion\nshared flag[procs] up to 1\nshared turn\ncall lock\n  x := turn[me]\n  done\ncall unlock\n  turn := 0 this is leave\n  done\n--\nline 6: fault 4\n\
== unknown shared in a sum\nalgorithm a for 2 processes\npromises exclusion\nshared flag[procs] up to 1\nshared turn\ncall lock\n  x := 1 + y[me]\n  done\ncall unlock\n  turn := 0 this is leave\n  done\n--\nline 6: fault 6\n\
== unknown shared in a condition\nalgorithm a for 2 processes\npromises exclusion\nshared flag[procs] up to 1\nshared turn\ncall lock\nl:\n  turn := 1\n  if y[me] = 1 then goto l\n  done\ncall unlock\n  turn := 0 this is leave\n  done\n--\nline 8: fault 6\n\
== unknown shared in an index\nalgorithm a for 2 processes\npromises exclusion\nshared flag[procs] up to 1\nshared turn\ncall lock\n  flag[y[me]] := 1\n  done\ncall unlock\n  turn := 0 this is leave\n  done\n--\nline 6: fault 6\n\
== unknown name in recover\nalgorithm a for 2 processes\npromises exclusion\nshared flag[procs] up to 1\nshared turn\ncall lock\n  turn := 1\n  done\ncall unlock\n  turn := 0 this is leave\n  done\ncall recover\n  turn := k\n  done\n--\nline 12: fault 6\n\
== no label in withdraw\nalgorithm a for 2 processes\npromises exclusion\nshared flag[procs] up to 1\nshared turn\ncall lock\n  turn := 1 may withdraw\n  done\ncall unlock\n  turn := 0 this is leave\n  done\ncall withdraw\n  turn := 0\n  goto nowhere\n--\nline 13: fault 10\n\
== read before set in recover\nalgorithm a for 2 processes\npromises exclusion\nshared flag[procs] up to 1\nshared turn\ncall lock\n  turn := 1\n  done\ncall unlock\n  turn := 0 this is leave\n  done\ncall recover\n  v := turn\n  if v = 0 then k := 1\n  turn := k\n  done\n--\nline 14: fault 11\n\
== falls off in withdraw\nalgorithm a for 2 processes\npromises exclusion\nshared flag[procs] up to 1\nshared turn\ncall lock\n  turn := 1 may withdraw\n  done\ncall unlock\n  turn := 0 this is leave\n  done\ncall withdraw\n  turn := 0\n--\nline 12: fault 14\n\
== never reached in recover\nalgorithm a for 2 processes\npromises exclusion\nshared flag[procs] up to 1\nshared turn\ncall lock\n  turn := 1\n  done\ncall unlock\n  turn := 0 this is leave\n  done\ncall recover\n  turn := 0\n  done\n  turn := 1\n  done\n--\nline 14: fault 18\n\
== may withdraw in unlock\nalgorithm a for 2 processes\npromises exclusion\nshared flag[procs] up to 1\nshared turn\ncall lock\n  turn := 1 may withdraw\n  done\ncall unlock\n  turn := 0 may withdraw this is leave\n  done\ncall withdraw\n  turn := 0\n  done\n--\nline 9: fault 17\n\
== no enter in lock\nalgorithm a for 2 processes\npromises exclusion\nshared flag[procs] up to 1\nshared turn\ncall lock\n  turn := 1\n  done\ncall unlock\n  turn := 0 this is leave\n  done\n--\nline 5: fault 15\n\
== no leave in unlock\nalgorithm a for 2 processes\npromises exclusion\nshared flag[procs] up to 1\nshared turn\ncall lock\n  turn := 1 this is enter\n  done\ncall unlock\n  turn := 0\n  done\n--\nline 8: fault 15\n\
== enter in unlock alone\nalgorithm a for 2 processes\npromises exclusion\nshared flag[procs] up to 1\nshared turn\ncall lock\n  turn := 1\n  done\ncall unlock\n  turn := 1 this is enter\n  turn := 0 this is leave\n  done\n--\nline 5: fault 15\n\
== leave in lock alone\nalgorithm a for 2 processes\npromises exclusion\nshared flag[procs] up to 1\nshared turn\ncall unlock\n  turn := 0\n  done\ncall lock\n  turn := 1 this is enter\n  turn := 0 this is leave\n  done\n--\nline 5: fault 15\n\
";

/// Texts in which nothing is wrong.
pub const GOOD: &str = "\
read texts without a fault\n\
== good\nalgorithm a for 2 processes\npromises exclusion\nshared flag[procs] up to 1\nshared turn\ncall lock\nl:\n  for j in others\n    v := flag[j]\n    if v = 1 then goto out\n  end\n  goto l\nout:\n  turn := v this is enter\n  done\ncall unlock\n  turn := 0 this is leave\n  done\n--\nread\n\
== good\nalgorithm a for 2 processes\npromises exclusion\nshared flag[procs] up to 1\nshared turn\ncall lock\n  v := turn this is enter\n  if not (v = 1 or (v, me) <= (2, (v + 1) * 2)) and (v) < 3 then done\n  done\ncall unlock\n  turn := 0 this is leave\n  done\n--\nread\n\
== good\nalgorithm a for 2 processes\npromises exclusion\nshared flag[procs] up to 1\nshared turn\ncall lock\n  v := turn this is enter\n  if v = 1then done\n  done\ncall unlock\n  turn := 0 this is leave\n  done\n--\nread\n\
== good\nalgorithm a for 2 processes\npromises exclusion\nshared flag[procs] up to 1\nshared turn\ncall unlock\n  turn := 0 this is leave\n  done\ncall lock\n  turn := 1 this is enter\n  done\ncall recover\n  f := flag[me]\n  if f = 1 then\n    flag[me] := 0\n    done left\n  else\n    done nothing\n  end\n--\nread\n\
== good\nalgorithm a for 2 processes\npromises exclusion\nshared flag[procs] up to 1\nshared turn\ncall lock\n  v := turn this is enter\n  if v = 1 then\n    if me = 0 then\n      done\n    else\n      done\n    end\n  else\n    done\n  end\ncall unlock\n  k := me\n  flag[k] := 0 this is leave\n  done\n--\nread\n\
== good\nalgorithm a for 2 processes\npromises exclusion\nshared flag[procs] up to 1\nshared turn\ncall lock\n  turn := 1 this is enter\n  done\ncall unlock\n  turn := 0 this is leave\n  for j in all\n    v := flag[j]\n    done\n  end\n--\nread\n\
== good\nalgorithm a for 2 processes\npromises exclusion\nshared flag[procs] up to 1\nshared turn\ncall lock\nl:\n  v := turn\n  if v = 1 then\n    turn := 0\n    goto l\n  else\n    turn := 1 this is enter\n    goto l\n  end\ncall unlock\nl:\n  turn := 0 this is leave\n  goto l\n--\nread\n\
";

/// Writes what the reading of a text comes to. What more is said of its fault names a part of the text.
pub fn put_reading(alloc: Global, given: &[u8], text: &mut String) -> Result<(), Fail> {
    match read_algorithm(alloc, given) {
        Ok(_) => text.push_str("read\n")?,
        Err(fault) => {
            detail_of(alloc, given, fault)?;
            writeln!(text, "{fault}")?
        }
    }
    Ok(())
}
