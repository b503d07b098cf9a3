//! What more is said of faulty lines.

use algorithm_texts::{FaultDetail, fault_detail, read_algorithm};
use algorithms::{AlgorithmFault, ReadFault};
use std::alloc::Global;
use std::fmt::Write;
use std::test::Fail;

/// Texts with a fault, and what more is said of it.
pub const DETAILS: &str = "\
detail of texts with a fault\n\
== a tab\nalgorithm a for 2 processes\npromises exclusion\n  \tshared x\n--\nline 3: fault 2: Tab { column: 3 }\n\
== a tab in a comment\nalgorithm a for 2 processes\npromises exclusion\nshared x # a\tb\n--\nline 3: fault 2: Tab { column: 13 }\n\
== lines that end with CR LF\nalgorithm a for 2 processes\r\npromises exclusion\r\n--\nline 1: fault 2: CarriageReturn { column: 28 }\n\
== no ASCII\nalgorithm a for 2 processes\npromises exclusion\nshared x # caf\u{e9}\n--\nline 3: fault 2: Unprintable { column: 15 }\n\
== a character of no token\nalgorithm a for 2 processes\npromises exclusion\nshared flag[procs] up to 1\nshared turn\nshared board[procs][procs]\ncall lock\n  turn := 1 & 2\n  done\ncall unlock\n  turn := 0 this is leave\n  done\n--\nline 7: fault 2: NoToken { column: 13 }\n\
== an exclamation mark alone\nalgorithm a for 2 processes\npromises exclusion\nshared flag[procs] up to 1\nshared turn\nshared board[procs][procs]\ncall lock\n  if turn ! 1 then done\n  done\ncall unlock\n  turn := 0 this is leave\n  done\n--\nline 7: fault 2: NoToken { column: 11 }\n\
== a character of no token after a sign of two\nalgorithm a for 2 processes\npromises exclusion\nshared flag[procs] up to 1\nshared turn\nshared board[procs][procs]\ncall lock\n  if turn != 1 then v := $\n  done\ncall unlock\n  turn := 0 this is leave\n  done\n--\nline 7: fault 2: NoToken { column: 26 }\n\
== a leading zero\nalgorithm a for 2 processes\npromises exclusion\nshared flag[procs] up to 1\nshared turn\nshared board[procs][procs]\ncall lock\n  turn := 007\n  done\ncall unlock\n  turn := 0 this is leave\n  done\n--\nline 7: fault 4: LeadingZero { column: 11 }\n\
== no then\nalgorithm a for 2 processes\npromises exclusion\nshared flag[procs] up to 1\nshared turn\nshared board[procs][procs]\ncall lock\n  v := turn\n  if v = 1 goto out\n  done\ncall unlock\n  turn := 0 this is leave\n  done\n--\nline 8: fault 4: NoThen\n\
== then in a comment\nalgorithm a for 2 processes\npromises exclusion\nshared flag[procs] up to 1\nshared turn\nshared board[procs][procs]\ncall lock\n  v := turn\n  if v = 1 goto out # then\n  done\ncall unlock\n  turn := 0 this is leave\n  done\n--\nline 8: fault 4: NoThen\n\
== then in an answer\nalgorithm a for 2 processes\npromises exclusion\nshared flag[procs] up to 1\nshared turn\nshared board[procs][procs]\ncall lock\n  v := turn\n  if v = 1 done then\n  done\ncall unlock\n  turn := 0 this is leave\n  done\n--\nline 8: fault 4: NoThen\n\
== another fault of an if\nalgorithm a for 2 processes\npromises exclusion\nshared flag[procs] up to 1\nshared turn\nshared board[procs][procs]\ncall lock\n  v := turn\n  if v 1 then done\n  done\ncall unlock\n  turn := 0 this is leave\n  done\n--\nline 8: fault 4\n\
== no index\nalgorithm a for 2 processes\npromises exclusion\nshared flag[procs] up to 1\nshared turn\nshared board[procs][procs]\ncall lock\n  flag := 1\n  done\ncall unlock\n  turn := 0 this is leave\n  done\n--\nline 7: fault 4: WrongIndexes { column: 3, declared: 1, given: 0 }\n\
== an index to one word\nalgorithm a for 2 processes\npromises exclusion\nshared flag[procs] up to 1\nshared turn\nshared board[procs][procs]\ncall lock\n  v := turn[me]\n  done\ncall unlock\n  turn := 0 this is leave\n  done\n--\nline 7: fault 4: WrongIndexes { column: 8, declared: 0, given: 1 }\n\
== one index of two\nalgorithm a for 2 processes\npromises exclusion\nshared flag[procs] up to 1\nshared turn\nshared board[procs][procs]\ncall lock\n  v := turn\n  if v = 1 then board[me] := 1\n  done\ncall unlock\n  turn := 0 this is leave\n  done\n--\nline 8: fault 4: WrongIndexes { column: 17, declared: 2, given: 1 }\n\
== three indexes of two\nalgorithm a for 2 processes\npromises exclusion\nshared flag[procs] up to 1\nshared turn\nshared board[procs][procs]\ncall lock\n  v := swap board[me][0][(1)] to 1\n  done\ncall unlock\n  turn := 0 this is leave\n  done\n--\nline 7: fault 4: WrongIndexes { column: 13, declared: 2, given: 3 }\n\
== a label named as a word\nalgorithm a for 2 processes\npromises exclusion\nshared flag[procs] up to 1\nshared turn\nshared board[procs][procs]\ncall lock\n  goto flag 1\n  done\ncall unlock\n  turn := 0 this is leave\n  done\n--\nline 7: fault 4\n\
== a label and a statement\nalgorithm a for 2 processes\npromises exclusion\nshared flag[procs] up to 1\nshared turn\nshared board[procs][procs]\ncall lock\nflag: turn := 1\n  done\ncall unlock\n  turn := 0 this is leave\n  done\n--\nline 7: fault 4\n\
== two indexes as they are\nalgorithm a for 2 processes\npromises exclusion\nshared flag[procs] up to 1\nshared turn\nshared board[procs][procs]\ncall lock\n  board[me][0] 1\n  done\ncall unlock\n  turn := 0 this is leave\n  done\n--\nline 7: fault 4\n\
== a word of the format is declared\nalgorithm a for 2 processes\npromises exclusion\nshared begin\n--\nline 3: fault 5: ReservedWord { column: 8 }\n\
== a word of the format as a label\nalgorithm a for 2 processes\npromises exclusion\nshared flag[procs] up to 1\nshared turn\nshared board[procs][procs]\ncall lock\nthen:\n  turn := 1\n  done\ncall unlock\n  turn := 0 this is leave\n  done\n--\nline 7: fault 5: ReservedWord { column: 1 }\n\
== a word of the format in a loop\nalgorithm a for 2 processes\npromises exclusion\nshared flag[procs] up to 1\nshared turn\nshared board[procs][procs]\ncall lock\n  for is in all\n  done\ncall unlock\n  turn := 0 this is leave\n  done\n--\nline 7: fault 5: ReservedWord { column: 7 }\n\
== a word of the format is awaited\nalgorithm a for 2 processes\npromises exclusion\nshared flag[procs] up to 1\nshared turn\nshared board[procs][procs]\ncall lock\n  await up := turn until up = 0\n  done\ncall unlock\n  turn := 0 this is leave\n  done\n--\nline 7: fault 5: ReservedWord { column: 9 }\n\
== a word of the format after then\nalgorithm a for 2 processes\npromises exclusion\nshared flag[procs] up to 1\nshared turn\nshared board[procs][procs]\ncall lock\n  v := turn\n  if v = 1 then goto end\n  done\ncall unlock\n  turn := 0 this is leave\n  done\n--\nline 8: fault 5: ReservedWord { column: 22 }\n\
== a name is taken\nalgorithm a for 2 processes\npromises exclusion\nshared x\nprivate x\n--\nline 4: fault 5: AtColumn { column: 9 }\n\
== no end of a for and an if\nalgorithm a for 2 processes\npromises exclusion\nshared flag[procs] up to 1\nshared turn\nshared board[procs][procs]\ncall lock\n  for j in others\n    v := flag[j]\n    if v = 1 then\n      turn := j\n  done\ncall unlock\n  turn := 0 this is leave\n  done\n--\nline 12: fault 9: NoEnd { line: 9 }\n\
== no end of an else\nalgorithm a for 2 processes\npromises exclusion\nshared flag[procs] up to 1\nshared turn\nshared board[procs][procs]\ncall lock\n  v := turn\n  if v = 1 then\n    turn := 1\n  else\n    if v = 2 then goto l\n    for j in all\n      v := flag[j]\n    end\nl:\n  done\ncall unlock\n  turn := 0 this is leave\n  done\n--\nline 17: fault 9: NoEnd { line: 10 }\n\
== an end that is missed at the end\nalgorithm a for 2 processes\npromises exclusion\nshared flag[procs] up to 1\nshared turn\nshared board[procs][procs]\ncall lock\n  turn := 1\n  done\ncall unlock\n  v := turn\n  for j in all\n    if v = 1 then\n      turn := 0 this is leave\n    end\n--\nline 14: fault 9: NoEnd { line: 11 }\n\
== an else at the end\nalgorithm a for 2 processes\npromises exclusion\nshared flag[procs] up to 1\nshared turn\nshared board[procs][procs]\ncall lock\n  turn := 1\n  done\ncall unlock\n  v := turn\n  if v = 1 then\n    turn := 0 this is leave\n  else\n--\nline 13: fault 9: NoEnd { line: 13 }\n\
== an end too many\nalgorithm a for 2 processes\npromises exclusion\nshared flag[procs] up to 1\nshared turn\nshared board[procs][procs]\ncall lock\n  v := turn\n  if v = 1 then\n    turn := 1\n  end\n  end\n  done\ncall unlock\n  turn := 0 this is leave\n  done\n--\nline 11: fault 9: NoBlock\n\
== an else alone\nalgorithm a for 2 processes\npromises exclusion\nshared flag[procs] up to 1\nshared turn\nshared board[procs][procs]\ncall lock\n  turn := 1\n  else\n  done\ncall unlock\n  turn := 0 this is leave\n  done\n--\nline 8: fault 9: NoIf\n\
== an else in a for\nalgorithm a for 2 processes\npromises exclusion\nshared flag[procs] up to 1\nshared turn\nshared board[procs][procs]\ncall lock\n  for j in all\n    turn := j\n  else\n  end\n  done\ncall unlock\n  turn := 0 this is leave\n  done\n--\nline 9: fault 9: NoIf\n\
== a second else\nalgorithm a for 2 processes\npromises exclusion\nshared flag[procs] up to 1\nshared turn\nshared board[procs][procs]\ncall lock\n  v := turn\n  if v = 1 then\n    turn := 1\n  else\n    turn := 2\n  else\n  end\n  done\ncall unlock\n  turn := 0 this is leave\n  done\n--\nline 12: fault 9: NoIf\n\
== a large number\nalgorithm a for 2 processes\npromises exclusion\nshared flag[procs] up to 1\nshared turn\nshared board[procs][procs]\ncall lock\n  turn := 18446744073709551616\n  done\ncall unlock\n  turn := 0 this is leave\n  done\n--\nline 7: fault 16: LargeNumber { column: 11 }\n\
== a long name\nalgorithm a for 2 processes\npromises exclusion\nshared flag[procs] up to 1\nshared turn\nshared board[procs][procs]\ncall lock\n  v := 1 + abcdefghijklmnopqrstuvwxyz_123456\n  done\ncall unlock\n  turn := 0 this is leave\n  done\n--\nline 7: fault 16: LongName { column: 12 }\n\
== brackets that are too deep\nalgorithm a for 2 processes\npromises exclusion\nshared flag[procs] up to 1\nshared turn\nshared board[procs][procs]\ncall lock\n  v := ((((((((((((((((((1))))))))))))))))))\n  done\ncall unlock\n  turn := 0 this is leave\n  done\n--\nline 7: fault 16\n\
== a row of a taken name\nalgorithm a for 2 processes\npromises exclusion\nshared flag[procs] up to 1\nshared turn\nshared board[procs][procs]\nprivate turn[3]\n--\nline 6: fault 5: AtColumn { column: 9 }\n\
== a label is there already\nalgorithm a for 2 processes\npromises exclusion\nshared flag[procs] up to 1\nshared turn\nshared board[procs][procs]\ncall lock\nl:\n  turn := 1\n  l:\n  done\ncall unlock\n  turn := 0 this is leave\n  done\n--\nline 9: fault 5: AtColumn { column: 3 }\n\
== a declared name in a loop\nalgorithm a for 2 processes\npromises exclusion\nshared flag[procs] up to 1\nshared turn\nshared board[procs][procs]\nprivate j\ncall lock\n  for j in all\n  end\n  done\ncall unlock\n  turn := 0 this is leave\n  done\n--\nline 8: fault 5: AtColumn { column: 7 }\n\
== a word of the format is set after then\nalgorithm a for 2 processes\npromises exclusion\nshared flag[procs] up to 1\nshared turn\nshared board[procs][procs]\ncall lock\n  v := turn\n  if v = 1 then end := 2\n  done\ncall unlock\n  turn := 0 this is leave\n  done\n--\nline 8: fault 5: ReservedWord { column: 17 }\n\
== a word of the format begins a loop\nalgorithm a for 2 processes\npromises exclusion\nshared flag[procs] up to 1\nshared turn\nshared board[procs][procs]\ncall lock\n  for if in all\n  end\n  done\ncall unlock\n  turn := 0 this is leave\n  done\n--\nline 7: fault 5: ReservedWord { column: 7 }\n\
== a word of the format is a label that begins others\nalgorithm a for 2 processes\npromises exclusion\nshared flag[procs] up to 1\nshared turn\nshared board[procs][procs]\ncall lock\ngoto:\n  done\ncall unlock\n  turn := 0 this is leave\n  done\n--\nline 7: fault 5: ReservedWord { column: 1 }\n\
== a word of the format is a second process\nalgorithm a for 2 processes\npromises exclusion\nshared flag[procs] up to 1\nshared turn\nshared board[procs][procs]\nnever for p, end: turn = 1\n--\nline 6: fault 5: ReservedWord { column: 14 }\n\
== a word of the format is a label of a claim\nalgorithm a for 2 processes\npromises exclusion\nshared flag[procs] up to 1\nshared turn\nshared board[procs][procs]\nnever for p: p at then\n--\nline 6: fault 5: ReservedWord { column: 19 }\n\
== a process has the name of a word\nalgorithm a for 2 processes\npromises exclusion\nshared flag[procs] up to 1\nshared turn\nshared board[procs][procs]\nnever for turn: turn = 1\n--\nline 6: fault 5\n\
== a number is set\nalgorithm a for 2 processes\npromises exclusion\nshared flag[procs] up to 1\nshared turn\nshared board[procs][procs]\ncall lock\n  me := 1\n  done\ncall unlock\n  turn := 0 this is leave\n  done\n--\nline 7: fault 8: AtColumn { column: 3 }\n\
== a constant is set after then\nalgorithm a for 2 processes\npromises exclusion\nshared flag[procs] up to 1\nshared turn\nshared board[procs][procs]\nconstant nil = 1\ncall lock\n  v := turn\n  if v = 1 then nil := 2\n  done\ncall unlock\n  turn := 0 this is leave\n  done\n--\nline 9: fault 8: AtColumn { column: 17 }\n\
== a shared word is awaited\nalgorithm a for 2 processes\npromises exclusion\nshared flag[procs] up to 1\nshared turn\nshared board[procs][procs]\ncall lock\n  await turn := flag[0] until turn = 1\n  done\ncall unlock\n  turn := 0 this is leave\n  done\n--\nline 7: fault 8: AtColumn { column: 9 }\n\
== the name of a loop is set\nalgorithm a for 2 processes\npromises exclusion\nshared flag[procs] up to 1\nshared turn\nshared board[procs][procs]\ncall lock\n  for j in all\n    j := 1\n  end\n  done\ncall unlock\n  turn := 0 this is leave\n  done\n--\nline 8: fault 8: AtColumn { column: 5 }\n\
== a number is a process\nalgorithm a for 2 processes\npromises exclusion\nshared flag[procs] up to 1\nshared turn\nshared board[procs][procs]\nnever for procs: turn = 1\n--\nline 6: fault 8: AtColumn { column: 11 }\n\
== a deed without order\nalgorithm a for 2 processes\npromises exclusion\nshared flag[procs] up to 1\nshared turn\nshared board[procs][procs]\ncall lock\n  turn := 1 this is begin\n  done\ncall unlock\n  turn := 0 this is leave\n  done\n--\nline 7: fault 15: UnfitDeed { column: 21 }\n\
== a deed after no step\nalgorithm a for 2 processes\npromises exclusion\nshared flag[procs] up to 1\nshared turn\nshared board[procs][procs]\ncall lock\n  turn := 1\n  v := 1 this is enter\n  done\ncall unlock\n  turn := 0 this is leave\n  done\n--\nline 8: fault 15: UnfitDeed { column: 18 }\n\
== no step may withdraw\nalgorithm a for 2 processes\npromises exclusion\nshared flag[procs] up to 1\nshared turn\nshared board[procs][procs]\ncall lock\n  turn := 1\n  v := 1 may withdraw\n  done\ncall unlock\n  turn := 0 this is leave\n  done\n--\nline 8: fault 15\n\
== a lock without enter\nalgorithm a for 2 processes\npromises exclusion\nshared flag[procs] up to 1\nshared turn\nshared board[procs][procs]\ncall lock\n  turn := 1\n  done\ncall unlock\n  turn := 0 this is leave\n  done\n--\nline 6: fault 15\n\
== no such label\nalgorithm a for 2 processes\npromises exclusion\nshared flag[procs] up to 1\nshared turn\nshared board[procs][procs]\ncall lock\n  turn := 1\n  goto nowhere\n  done\ncall unlock\n  turn := 0 this is leave\n  done\n--\nline 8: fault 10: AtColumn { column: 8 }\n\
== a label in a block\nalgorithm a for 2 processes\npromises exclusion\nshared flag[procs] up to 1\nshared turn\nshared board[procs][procs]\ncall lock\n  v := turn\n  if v = 1 then\nl:\n    turn := 1\n  end\n  if v = 2 then goto l\n  done\ncall unlock\n  turn := 0 this is leave\n  done\n--\nline 12: fault 10: AtColumn { column: 22 }\n\
== no such label of a claim\nalgorithm a for 2 processes\npromises exclusion\nshared flag[procs] up to 1\nshared turn\nshared board[procs][procs]\nnever for p: p at lost\ncall lock\n  turn := 1 this is enter\n  done\ncall unlock\n  turn := 0 this is leave\n  done\n--\nline 6: fault 10: AtColumn { column: 19 }\n\
== two labels of a claim\nalgorithm a for 2 processes\npromises exclusion\nshared flag[procs] up to 1\nshared turn\nshared board[procs][procs]\nnever for p, q: p at l and q at lost\ncall lock\nl:\n  turn := 1 this is enter\n  done\ncall unlock\n  turn := 0 this is leave\n  done\n--\nline 6: fault 10\n\
== a shared word in a condition\nalgorithm a for 2 processes\npromises exclusion\nshared flag[procs] up to 1\nshared turn\nshared board[procs][procs]\ncall lock\n  if flag[me] = 0 then turn := 1\n  done\ncall unlock\n  turn := 0 this is leave\n  done\n--\nline 7: fault 7: AtColumn { column: 6 }\n\
== a shared word in an index\nalgorithm a for 2 processes\npromises exclusion\nshared flag[procs] up to 1\nshared turn\nshared board[procs][procs]\ncall lock\n  flag[turn] := 1\n  done\ncall unlock\n  turn := 0 this is leave\n  done\n--\nline 7: fault 7: AtColumn { column: 8 }\n\
== a shared word is stored after then\nalgorithm a for 2 processes\npromises exclusion\nshared flag[procs] up to 1\nshared turn\nshared board[procs][procs]\ncall lock\n  v := turn\n  if v = 1 then turn := 1 + flag[me]\n  done\ncall unlock\n  turn := 0 this is leave\n  done\n--\nline 8: fault 7: AtColumn { column: 29 }\n\
== a shared word is added to\nalgorithm a for 2 processes\npromises exclusion\nshared flag[procs] up to 1\nshared turn\nshared board[procs][procs]\ncall lock\n  v := turn + 1\n  done\ncall unlock\n  turn := 0 this is leave\n  done\n--\nline 7: fault 7: AtColumn { column: 8 }\n\
== a shared word in a swap\nalgorithm a for 2 processes\npromises exclusion\nshared flag[procs] up to 1\nshared turn\nshared board[procs][procs]\ncall lock\n  v := swap turn to board[0][me]\n  done\ncall unlock\n  turn := 0 this is leave\n  done\n--\nline 7: fault 7: AtColumn { column: 21 }\n\
== a shared word in the bound of another\nalgorithm a for 2 processes\npromises exclusion\nshared flag[procs] up to 1\nshared turn\nshared board[procs][procs]\nshared x up to turn\n--\nline 6: fault 7: AtColumn { column: 16 }\n\
== a label of the name of a word\nalgorithm a for 2 processes\npromises exclusion\nshared flag[procs] up to 1\nshared turn\nshared board[procs][procs]\ncall lock\nturn:\n  v := 1 + flag[me]\n  goto turn\n  done\ncall unlock\n  turn := 0 this is leave\n  done\n--\nline 8: fault 7: AtColumn { column: 12 }\n\
== a name that is set nowhere\nalgorithm a for 2 processes\npromises exclusion\nshared flag[procs] up to 1\nshared turn\nshared board[procs][procs]\ncall lock\n  turn := k\n  done\ncall unlock\n  turn := 0 this is leave\n  done\n--\nline 7: fault 6: AtColumn { column: 11 }\n\
== a name that another call sets\nalgorithm a for 2 processes\npromises exclusion\nshared flag[procs] up to 1\nshared turn\nshared board[procs][procs]\ncall lock\n  v := turn\n  turn := 1 this is enter\n  done\ncall unlock\n  turn := v this is leave\n  done\n--\nline 11: fault 6: AtColumn { column: 11 }\n\
== a name in a condition\nalgorithm a for 2 processes\npromises exclusion\nshared flag[procs] up to 1\nshared turn\nshared board[procs][procs]\ncall lock\n  v := turn\n  if v = 1 or w = 1 then goto l\nl:\n  done\ncall unlock\n  turn := 0 this is leave\n  done\n--\nline 8: fault 6: AtColumn { column: 15 }\n\
== no such shared word\nalgorithm a for 2 processes\npromises exclusion\nshared flag[procs] up to 1\nshared turn\nshared board[procs][procs]\ncall lock\n  v := flga[me]\n  done\ncall unlock\n  turn := 0 this is leave\n  done\n--\nline 7: fault 6: AtColumn { column: 8 }\n\
== an index of a name that is no row\nalgorithm a for 2 processes\npromises exclusion\nshared flag[procs] up to 1\nshared turn\nshared board[procs][procs]\ncall lock\n  v := turn\n  v[0] := 1\n  done\ncall unlock\n  turn := 0 this is leave\n  done\n--\nline 8: fault 6: AtColumn { column: 3 }\n\
== no such word is swapped\nalgorithm a for 2 processes\npromises exclusion\nshared flag[procs] up to 1\nshared turn\nshared board[procs][procs]\ncall lock\n  v := swap trun to 1\n  done\ncall unlock\n  turn := 0 this is leave\n  done\n--\nline 7: fault 6: AtColumn { column: 13 }\n\
== the name of a loop after it\nalgorithm a for 2 processes\npromises exclusion\nshared flag[procs] up to 1\nshared turn\nshared board[procs][procs]\ncall lock\n  for j in all\n    turn := j\n  end\n  turn := j\n  done\ncall unlock\n  turn := 0 this is leave\n  done\n--\nline 10: fault 6\n\
== no such process\nalgorithm a for 2 processes\npromises exclusion\nshared flag[procs] up to 1\nshared turn\nshared board[procs][procs]\nnever for p: q is inside\n--\nline 6: fault 6\n\
== a name is set by an equal sign\nalgorithm a for 2 processes\npromises exclusion\nshared flag[procs] up to 1\nshared turn\nshared board[procs][procs]\ncall lock\n  turn = 1\n  done\ncall unlock\n  turn := 0 this is leave\n  done\n--\nline 7: fault 4: EqualSign { column: 8 }\n\
== an array is set by an equal sign\nalgorithm a for 2 processes\npromises exclusion\nshared flag[procs] up to 1\nshared turn\nshared board[procs][procs]\ncall lock\n  flag[me] = 1\n  done\ncall unlock\n  turn := 0 this is leave\n  done\n--\nline 7: fault 4: EqualSign { column: 12 }\n\
== an equal sign after then\nalgorithm a for 2 processes\npromises exclusion\nshared flag[procs] up to 1\nshared turn\nshared board[procs][procs]\ncall lock\n  v := turn\n  if v = 1 then v = 2\n  done\ncall unlock\n  turn := 0 this is leave\n  done\n--\nline 8: fault 4: EqualSign { column: 19 }\n\
== a word is awaited by an equal sign\nalgorithm a for 2 processes\npromises exclusion\nshared flag[procs] up to 1\nshared turn\nshared board[procs][procs]\ncall lock\n  await v = turn until v = 0\n  done\ncall unlock\n  turn := 0 this is leave\n  done\n--\nline 7: fault 4: EqualSign { column: 11 }\n\
== a condition as a value\nalgorithm a for 2 processes\npromises exclusion\nshared flag[procs] up to 1\nshared turn\nshared board[procs][procs]\ncall lock\n  v := me = 1\n  done\ncall unlock\n  turn := 0 this is leave\n  done\n--\nline 7: fault 4\n\
== a word is declared with an equal sign\nalgorithm a for 2 processes\npromises exclusion\nshared flag[procs] up to 1\nshared turn\nshared board[procs][procs]\nshared x = 0\n--\nline 6: fault 4\n\
== a fault of which no more is said\nalgorithm a for 2 processes\npromises exclusion\nshared flag[procs] up to 1\nshared turn\nshared board[procs][procs]\ncall lock\n  turn := 1\n  done\n  turn := 2\n  done\ncall unlock\n  turn := 0 this is leave\n  done\n--\nline 9: fault 18\n\
";

/// All faults of texts, by their numbers.
const FAULTS: [ReadFault; 18] = [
    ReadFault::NoHeader,
    ReadFault::BadCharacter,
    ReadFault::NoNewline,
    ReadFault::BadForm,
    ReadFault::NameTaken,
    ReadFault::UnknownName,
    ReadFault::TwoAccesses,
    ReadFault::NotAssignable,
    ReadFault::BadBlock,
    ReadFault::BadLabel,
    ReadFault::Unset,
    ReadFault::Endless,
    ReadFault::NoStep,
    ReadFault::FallsOff,
    ReadFault::BadDeed,
    ReadFault::TooBig,
    ReadFault::BadCall,
    ReadFault::NeverReached,
];

/// The fault whose number was answered.
fn fault_by(number: u64) -> ReadFault {
    for fault in FAULTS {
        if fault.at(1) == (AlgorithmFault::At { line: 1, number }) {
            return fault;
        }
    }
    ReadFault::OutOfMemory
}

/// The column that a detail names.
fn column_in(detail: FaultDetail) -> Option<u64> {
    match detail {
        FaultDetail::Tab { column }
        | FaultDetail::CarriageReturn { column }
        | FaultDetail::Unprintable { column }
        | FaultDetail::NoToken { column }
        | FaultDetail::LeadingZero { column }
        | FaultDetail::LargeNumber { column }
        | FaultDetail::LongName { column }
        | FaultDetail::WrongIndexes { column, .. }
        | FaultDetail::ReservedWord { column }
        | FaultDetail::EqualSign { column }
        | FaultDetail::UnfitDeed { column }
        | FaultDetail::AtColumn { column } => Some(column),
        _ => None,
    }
}

/// The line of this number.
fn line_at(text: &[u8], number: u64) -> &[u8] {
    let mut rest = number;
    for line in text.split(|byte| *byte == b'\n') {
        rest = rest.saturating_sub(1);
        if rest == 0 {
            return line;
        }
    }
    text
}

/// Fails the test, unless the detail names a column of this line, or a line up to it.
fn is_within(text: &[u8], number: u64, detail: FaultDetail) -> Result<(), Fail> {
    let size = line_at(text, number).len() as u64;
    let (place, most) = match (column_in(detail), detail) {
        (Some(column), _) => (column, size),
        (None, FaultDetail::NoEnd { line }) => (line, number),
        _ => (1, 1),
    };
    if place == 0 || place > most {
        return Err(Fail::new(format_args!("line {number}: {detail:?}")));
    }
    Ok(())
}

/// What more is said of a fault that was answered of a text.
pub fn detail_of(
    alloc: Global,
    text: &[u8],
    fault: AlgorithmFault,
) -> Result<Option<FaultDetail>, Fail> {
    let AlgorithmFault::At { line, number } = fault else {
        return Ok(None);
    };
    let detail = fault_detail(alloc, text, line, fault_by(number))?;
    if let Some(detail) = detail {
        is_within(text, line, detail)?;
    }
    Ok(detail)
}

/// Writes the fault of a text, and what more is said of it.
pub fn put_detail(alloc: Global, given: &[u8], text: &mut String) -> Result<(), Fail> {
    let Err(fault) = read_algorithm(alloc, given) else {
        return Ok(());
    };
    match detail_of(alloc, given, fault)? {
        Some(detail) => writeln!(text, "{fault}: {detail:?}")?,
        None => writeln!(text, "{fault}")?,
    }
    Ok(())
}
