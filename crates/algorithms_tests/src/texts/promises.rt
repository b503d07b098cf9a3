//! Texts that bound the own steps of a section, or promise that calls end.

pub const TICKET_EXIT_2: &[u8] = br"algorithm ticket_exit_2 for 1 to 64 processes
promises exclusion, order, exit within 2
shared next up to procs - 1
shared serving up to procs - 1
call lock
  t := swap next to (t + 1) mod procs   this is begin
  this is ready
  await s := serving until s = t
  this is enter
  done
call unlock
  s := serving
  serving := (s + 1) mod procs          this is leave
  done
";

pub const TICKET_EXIT_1: &[u8] = br"algorithm ticket_exit_1 for 1 to 64 processes
promises exclusion, order, exit within 1
shared next up to procs - 1
shared serving up to procs - 1
call lock
  t := swap next to (t + 1) mod procs   this is begin
  this is ready
  await s := serving until s = t
  this is enter
  done
call unlock
  s := serving
  serving := (s + 1) mod procs          this is leave
  done
";

pub const MCS_EXIT_3: &[u8] = br"algorithm mcs_exit_3 for 1 to 64 processes
promises exclusion, order, exit within 3
shared tail up to procs
shared next[procs] up to procs
shared locked[procs] up to 1
call lock
  next[me] := 0                         this is begin
  p := swap tail to me + 1              this is ready
  if p != 0 then
    locked[me] := 1
    next[p - 1] := me + 1
    await l := locked[me] until l = 0
  end
  this is enter
  done
call unlock
  n := next[me]
  if n = 0 then
    t := swap tail to 0 if t = me + 1
    if t = me + 1 then
      this is leave
      done
    end
    await n := next[me] until n != 0
  end
  locked[n - 1] := 0                    this is leave
  done
";

pub const CLEARING: &[u8] = br"algorithm clearing for 1 to 64 processes
promises exclusion, exit within procs + 1, bounds
shared held up to 1
shared wants[procs] up to 1
call lock
  await v := swap held to 1 until v = 0
  this is enter
  done
call unlock
  for p in all
    wants[p] := 0
  end
  held := 0                             this is leave
  done
";

pub const HASTY_CLEARING: &[u8] = br"algorithm hasty_clearing for 1 to 64 processes
promises exclusion, bounds, exit within procs
shared held up to 1
shared wants[procs] up to 1
call lock
  await v := swap held to 1 until v = 0
  this is enter
  done
call unlock
  for p in all
    wants[p] := 0
  end
  held := 0                             this is leave
  done
";

pub const SQUARED: &[u8] = br"algorithm squared for 1 to 64 processes
promises exclusion, exit within limit * limit, recovery within procs - 2
shared held up to 1
call lock
  await v := swap held to 1 until v = 0
  this is enter
  done
call unlock
  held := 0                             this is leave
  done
";

pub const BOUNDED_TEST_AND_SET: &[u8] = br"algorithm bounded_test_and_set for 1 to 64 processes
promises exclusion, reentry, exit within 1, recovery within 1
shared holder up to procs
call lock
  h := holder
  if h = me + 1 then goto in_now
  await h := swap holder to me + 1 if h = 0 until h = 0
in_now:
  this is enter
  done
call unlock
  holder := 0                           this is leave
  done
";

pub const INSTANT_TEST_AND_SET: &[u8] = br"algorithm instant_test_and_set for 1 to 64 processes
promises exclusion, reentry, recovery within 0
shared holder up to procs
call lock
  h := holder
  if h = me + 1 then goto in_now
  await h := swap holder to me + 1 if h = 0 until h = 0
in_now:
  this is enter
  done
call unlock
  holder := 0                           this is leave
  done
";

pub const BOUNDED_TICKET: &[u8] = br"algorithm bounded_ticket for 1 to 64 processes
promises exclusion, order, exit within 2, doorway within 1
shared next up to procs - 1
shared serving up to procs - 1
call lock
  t := swap next to (t + 1) mod procs   this is begin
  this is ready
  await s := serving until s = t
  this is enter
  done
call unlock
  s := serving
  serving := (s + 1) mod procs          this is leave
  done
";

pub const HURRIED_TICKET: &[u8] = br"algorithm hurried_ticket for 1 to 64 processes
promises exclusion, order, doorway within 0
shared next up to procs - 1
shared serving up to procs - 1
call lock
  t := swap next to (t + 1) mod procs   this is begin
  this is ready
  await s := serving until s = t
  this is enter
  done
call unlock
  s := serving
  serving := (s + 1) mod procs          this is leave
  done
";

pub const BOUNDED_PETERSON: &[u8] = br"algorithm bounded_peterson for 2 processes
promises exclusion, reentry, order, doorway within 4
shared flag[procs] up to 3
shared turn up to 1
call lock
  f := flag[me]
  if f = 3 then
    this is reenter
    done owner-died
  end
  if f = 2 then goto waiting
  if f = 0 then
    flag[me] := 1                       this is begin
  end
  turn := 1 - me
  flag[me] := 2                         this is ready
waiting:
  f := flag[1 - me]                     may withdraw
  if f = 0 then goto in_now
  t := turn                             may withdraw
  if t != me then goto waiting
in_now:
  flag[me] := 3                         may withdraw  this is enter
  done clean
call unlock
  flag[me] := 0                         this is leave
  done unlocked
call recover
  f := flag[me]
  if f = 0 then done found idle
  if f = 1 then done found doorway
  if f = 2 then done found waiting
  this is reenter
  done found inside
call withdraw
  flag[me] := 0                         this is quit
  done withdrawn
";

pub const FREE_TEST_AND_SET: &[u8] = br"algorithm free_test_and_set for 1 to 64 processes
promises exclusion, deadlock freedom
shared held up to 1
call lock
  await h := swap held to 1 until h = 0
  this is enter
  done
call unlock
  held := 0                             this is leave
  done
";

pub const FAIR_TEST_AND_SET: &[u8] = br"algorithm fair_test_and_set for 1 to 64 processes
promises exclusion, starvation freedom
shared held up to 1
call lock
  await h := swap held to 1 until h = 0
  this is enter
  done
call unlock
  held := 0                             this is leave
  done
";

pub const CROSSED_FLAGS: &[u8] = br"algorithm crossed_flags for 2 processes
promises exclusion, deadlock freedom
shared flag[procs] up to 1
call lock
  flag[me] := 1
  await f := flag[1 - me] until f = 0
  this is enter
  done
call unlock
  flag[me] := 0                         this is leave
  done
";

/// MCS whose exit looks once for its successor, and does not wait: a bound is met.
pub const MCS_NO_WAIT: &[u8] = br"algorithm mcs_no_wait for 1 to 64 processes
promises exclusion, order, deadlock freedom
constant nil = procs
shared tail up to nil starts nil
shared next[procs] up to nil starts nil
shared locked[procs] up to 1
call lock
  next[me] := nil                       this is begin
  pred := swap tail to me               this is ready
  if pred != nil then
    locked[me] := 1
    next[pred] := me
    await l := locked[me] until l = 0
  end
  this is enter
  done
call unlock
  n := next[me]
  if n = nil then
    t := swap tail to nil if t = me
    if t = me then
      this is leave
      done
    end
    n := next[me]
  end
  locked[n] := 0                        this is leave
  done
";

pub const SEMAPHORE_2: &[u8] =
    br"# Dijkstra 1965, a semaphore for two: taken counts those inside. A process may starve, and a crash inside holds one place for ever.
algorithm semaphore_2 for 1 to 64 processes
promises exclusion of 2, deadlock freedom, bounds, exit within 1

constant places = 2
shared taken up to places

call lock
  await t := swap taken to t + 1 if t < places until t < places
  this is enter
  done

call unlock
  t := swap taken to t - 1              this is leave
  done
";
