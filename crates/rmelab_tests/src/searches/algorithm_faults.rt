//! Replays of algorithms where a text, a schedule, words or a file are at fault.

use crate::support::invocation::all_come_to;
use std::test::Fail;

pub const TEXTS: &str = "
@text NINE_STEPS
rme 1 procs 2 limit 1 cap 1
lock 0
step 0 9
@text LONG_LINE
rmelab: algorithm line 1, column 1001: fault 16: a line of more than 1000 characters
@text LARGE_NUMBER
rmelab: algorithm line 1, column 17: fault 16: a number above 18446744073709551615
@text BAD_VARIANT
rmelab: bad variant
@text UNREAD
rmelab: read failed
";

/// A fault of the text comes before one of the schedule. A step may have three deeds: four are refused.
pub const TEXTS_THAT_ARE_REFUSED: &str = "
@row rmelab replay --algorithm a.lock @in NINE_STEPS @ends 2 @file a.lock
@err
rmelab: algorithm line 1: fault 1: the first two lines are no header and promises
@row rmelab replay --algorithm a.lock @ends 2 @in
rme@file a.lock
@err
rmelab: algorithm line 1: fault 1: the first two lines are no header and promises
@row rmelab replay --algorithm a.lock @in NINE_STEPS @file a.lock HIDDEN @ends 2 @err
rmelab: algorithm line 6, column 6: fault 7: a second access in one line
@row rmelab replay --algorithm a.lock @file a.lock HIDDEN @ends 2 @in
rme@err
rmelab: algorithm line 6, column 6: fault 7: a second access in one line
@row rmelab replay --algorithm a.lock @in NINE_STEPS @ends 2 @file a.lock
algorithm \0
@err
rmelab: algorithm line 1, column 11: fault 2: a byte that is not printable ASCII
@row rmelab replay --algorithm a.lock @ends 2 @in
rme@file a.lock
algorithm \0
@err
rmelab: algorithm line 1, column 11: fault 2: a byte that is not printable ASCII
@row rmelab replay --algorithm a.lock @in NINE_STEPS @ends 2 @file a.lock
algorithm a for 2 processes
promises exclusion@err
rmelab: algorithm line 2: fault 3: the last line is not ended by a line feed
@row rmelab replay --algorithm a.lock @ends 2 @in
rme@file a.lock
algorithm a for 2 processes
promises exclusion@err
rmelab: algorithm line 2: fault 3: the last line is not ended by a line feed
@row rmelab replay --algorithm a.lock @in NINE_STEPS @ends 2 @err LARGE_NUMBER @file a.lock
algorithm a for 18446744073709551616 processes
@row rmelab replay --algorithm a.lock @ends 2 @err LARGE_NUMBER @in
rme@file a.lock
algorithm a for 18446744073709551616 processes
@row rmelab replay --algorithm a.lock @in NINE_STEPS @ends 2 @file a.lock
algorithm a for 2 processes
promises exclusion
shared x
call lock
v := ((((((((((((((((((1))))))))))))))))))
@err
rmelab: algorithm line 5: fault 16: a limit is passed
@row rmelab replay --algorithm a.lock @ends 2 @in
rme@file a.lock
algorithm a for 2 processes
promises exclusion
shared x
call lock
v := ((((((((((((((((((1))))))))))))))))))
@err
rmelab: algorithm line 5: fault 16: a limit is passed
@row rmelab replay --algorithm a.lock @in NINE_STEPS @ends 2 @file a.lock
algorithm a for 2 processes
promises exclusion
shared x
call lock
  x := 1
  done
  x := 2
  done
call unlock
  x := 0
  done
@err
rmelab: algorithm line 7: fault 18: no run comes to this line
@row rmelab replay --algorithm a.lock @ends 2 @in
rme@file a.lock
algorithm a for 2 processes
promises exclusion
shared x
call lock
  x := 1
  done
  x := 2
  done
call unlock
  x := 0
  done
@err
rmelab: algorithm line 7: fault 18: no run comes to this line
@row rmelab replay --algorithm a.lock @in NINE_STEPS @ends 2 @file a.lock
algorithm a for 2 processes
promises exclusion
shared x
call lock
  for j in all
    v := x
    if v = j then
      x := 1
  done
call unlock
  x := 0
  done
@err
rmelab: algorithm line 10: fault 9: no `end` for the block of line 7
@row rmelab explore --algorithm a.lock --procs 2 @ends 2 @file a.lock
algorithm a for 2 processes
promises exclusion
shared x[procs]
call lock
  v := x
  done
@err
rmelab: algorithm line 5, column 8: fault 4: indexes given: 0, declared: 1
@row rmelab explore --algorithm a.lock --procs 2 @ends 2 @file a.lock
algorithm a for 2 processes
promises exclusion
shared x
call lock
  x := 1 this is begin
  done
call unlock
  x := 0 this is leave
  done
@err
rmelab: algorithm line 5, column 18: fault 15: this deed does not fit here
@row rmelab explore --algorithm a.lock --procs 2 @ends 2 @file a.lock
algorithm a for 2 processes
promises exclusion
shared x
call lock
  x := 1
  done
call unlock
  x := 0 this is leave
  done
@err
rmelab: algorithm line 4: fault 15: a deed does not fit, or `enter` or `leave` is missing
@row rmelab explore --algorithm a.lock --procs 2 @ends 2 @file a.lock
algorithm a for 2 processes
promises exclusion
shared x
call lock
  x = 1
  done
@err
rmelab: algorithm line 5, column 5: fault 4: a `=` where `:=` is meant
@row rmelab replay --algorithm a.lock b.rme @file a.lock PETERSON @ends 2 @file b.rme
rme 1 procs 3 limit 1 cap 1
lock 0
@err
rmelab: line 1: refused 1
@row rmelab replay --algorithm a.lock b.rme @file a.lock PETERSON @ends 2 @file b.rme
rme 1 procs 2 limit 0 cap 1
lock 0
@err
rmelab: line 1: refused 2
@row rmelab replay --algorithm a.lock b.rme @file a.lock PETERSON @ends 2 @file b.rme
rme 1 procs 2 limit 1 cap 1
lock 0
step 0 9
recover 1
@out
begin 0
ready 0
enter 0
answer 0 done
@err
rmelab: line 4: refused 17
@row rmelab replay --algorithm a.lock b.rme @file a.lock PETERSON @ends 2 @file b.rme
rme 1 procs 2 limit 1 cap 1
append 0 1 1
@err
rmelab: line 2: refused 17
@row rmelab replay --algorithm a.lock b.rme @file a.lock PETERSON @ends 2 @file b.rme
rme 1 procs 2 limit 1 cap 1
unlock 0
@err
rmelab: line 2: refused 5
@row rmelab replay --algorithm a.lock b.rme @file a.lock BAKERY_1974 @ends 2 @file b.rme
rme 1 procs 2 limit 1 cap 1
lock 0
step 0 9
lock 1
step 1 9
@out
begin 0
ready 0
enter 0
answer 0 done
begin 1
@err
rmelab: line 5: refused 16: out of range at algorithm line 16
@row rmelab replay --algorithm a.lock b.rme @ends 2 @file a.lock
algorithm four for 2 processes
promises exclusion, order
shared x up to 1
call lock
  x := 1
  this is begin
  this is ready
  this is enter
  this is leave
  done
call unlock
  x := 0 this is leave
  done
@file b.rme
rme 1 procs 2 limit 1 cap 1
lock 0
step 0
@err
rmelab: line 3: refused 16: out of range at algorithm line 9
@row rmelab replay --algorithm a.lock --variant right @ends 2 @err BAD_VARIANT
@row rmelab replay --variant wrong --algorithm a.lock @ends 2 @err BAD_VARIANT
@row rmelab replay --algorithm a.lock --image a.json @ends 2 @err BAD_VARIANT
@row rmelab replay --algorithm a.lock --save a.json @ends 2 @err BAD_VARIANT
@row rmelab replay --each --algorithm a.lock --variant right @ends 2 @err BAD_VARIANT
@row rmelab replay --json --algorithm a.lock --save a.json @ends 2 @err BAD_VARIANT
";

/// Adds a text with this name: an algorithm whose own name has this number of letters.
fn add_long_text(texts: &mut String, name: &str, letters: u64, end: &str) -> Result<(), Fail> {
    texts.push_str("@text ")?;
    texts.push_str(name)?;
    texts.push_str("\nalgorithm ")?;
    for _ in 0..letters {
        texts.push('a')?;
    }
    texts.push_str(end)?;
    Ok(())
}

const LONG_TEXTS_OF_ALGORITHMS: &str = "
@program
@row rmelab replay --algorithm a.lock @in NINE_STEPS @file a.lock LONG @ends 2 @err LONG_LINE
@row rmelab replay --algorithm a.lock @in NINE_STEPS @file a.lock LONG_NAME @ends 2 @err LONG_LINE
";

/// A megabyte in one line, and a name of 10,000 letters.
#[test]
fn long_texts_of_algorithms(rt: HostRuntime) -> Result<(), Fail> {
    let mut texts = String::new(rt.alloc());
    add_long_text(&mut texts, "LONG", 1_000_000, "\n")?;
    add_long_text(&mut texts, "LONG_NAME", 10_000, " for 2 processes\n")?;
    let texts = [texts.as_str(), TEXTS];
    all_come_to(&rt, rt.alloc(), &texts, LONG_TEXTS_OF_ALGORITHMS)
}

pub const ALGORITHMS_WHERE_DEVICES_FAIL: &str = "
@program
@row rmelab replay --algorithm b.lock @in NINE_STEPS @ends 3 @err UNREAD
@row rmelab replay --algorithm a.lock @in NINE_STEPS @file a.lock PETERSON @fails file-read @ends 3 @err UNREAD
@row rmelab replay --algorithm a.lock @in NINE_STEPS @file a.lock PETERSON @fails read @ends 3 @err UNREAD
@row rmelab replay --algorithm a.lock @in NINE_STEPS @file a.lock PETERSON @fails write @ends 3 @err
rmelab: write failed
@row rmelab replay --algorithm a.lock @file a.lock PETERSON @ends 2 @in
rme 1
@err
rmelab: line 1: fault 1
";
