//! The other texts of examples/algorithms.

pub const BAKERY_1974: &[u8] = br"# Lamport 1974 as it was: without a limit, and not recoverable.
algorithm bakery_1974 for 1 to 64 processes
promises exclusion, order

shared choosing[procs] up to 1
shared number[procs] up to limit

call lock
  choosing[me] := 1                     this is begin
  m := 0
  for j in others
    v := number[j]
    m := max(m, v)
  end
  k := m + 1
  number[me] := k                       this is ready
  choosing[me] := 0
  for j in others
    await c := choosing[j] until c = 0
    await v := number[j] until v = 0 or (k, me) < (v, j)
  end
  this is enter
  done

call unlock
  number[me] := 0                       this is leave
  done
";

pub const BURNS: &[u8] = br"# Burns and Lynch 1993: one bit a process. A process may starve.
algorithm burns for 2 to 64 processes
promises exclusion

shared flag[procs] up to 1

call lock
start:
  flag[me] := 0
  for j in lower
    f := flag[j]
    if f = 1 then goto start
  end
  flag[me] := 1
  for j in lower
    f := flag[j]
    if f = 1 then goto start
  end
  for j in higher
    await f := flag[j] until f = 0
  end
  this is enter
  done

call unlock
  flag[me] := 0                         this is leave
  done
";

pub const DEKKER: &[u8] = br"# Dekker 1965, for two.
algorithm dekker for 2 processes
promises exclusion

shared flag[procs] up to 1
shared turn up to 1

call lock
  flag[me] := 1
again:
  f := flag[1 - me]
  if f = 0 then goto in_now
  t := turn
  if t = me then goto again
  flag[me] := 0
  await t := turn until t = me
  flag[me] := 1
  goto again
in_now:
  this is enter
  done

call unlock
  turn := 1 - me
  flag[me] := 0                         this is leave
  done
";

pub const FORGETFUL_PETERSON: &[u8] =
    br"# recoverable-peterson with one value less: after a crash nothing tells whether turn was given away.
algorithm forgetful_peterson for 2 processes
promises exclusion, reentry, order

shared flag[procs] up to 2
shared turn up to 1

call lock
  f := flag[me]
  if f = 2 then
    this is reenter
    done owner-died
  end
  flag[me] := 1                         this is begin
  turn := 1 - me                        this is ready
waiting:
  f := flag[1 - me]
  if f = 0 then goto in_now
  t := turn
  if t != me then goto waiting
in_now:
  flag[me] := 2                         this is enter
  done clean

call unlock
  flag[me] := 0                         this is leave
  done unlocked
";

pub const LAMPORT_FAST: &[u8] =
    br"# Lamport 1987: a fast mutual exclusion algorithm. y is 0 where it is free, else the process plus 1.
algorithm lamport_fast for 2 to 64 processes
promises exclusion

shared b[procs] up to 1
shared x up to procs - 1
shared y up to procs

call lock
start:
  b[me] := 1
  x := me
  v := y
  if v != 0 then
    b[me] := 0
    await v := y until v = 0
    goto start
  end
  y := me + 1
  v := x
  if v = me then goto in_now
  b[me] := 0
  for j in others
    await v := b[j] until v = 0
  end
  v := y
  if v = me + 1 then goto in_now
  await v := y until v = 0
  goto start
in_now:
  this is enter
  done

call unlock
  y := 0                                this is leave
  b[me] := 0
  done
";

pub const NO_TURN: &[u8] = br"# peterson without the turn: both may wait for each other for ever.
algorithm no_turn for 2 processes
promises exclusion

shared flag[procs] up to 1

call lock
  flag[me] := 1
  await f := flag[1 - me] until f = 0
  this is enter
  done

call unlock
  flag[me] := 0                         this is leave
  done
";

pub const ONE_WORD: &[u8] = br"# Test, and then set: wrong at once.
algorithm one_word for 1 to 64 processes
promises exclusion

shared held up to 1

call lock
  await h := held until h = 0
  held := 1                             this is enter
  done

call unlock
  held := 0                             this is leave
  done
";

pub const PETERSON: &[u8] = br"# Peterson 1981, for two. It is not recoverable: a crash shows it.
algorithm peterson for 2 processes
promises exclusion, reentry

shared flag[procs] up to 1
shared turn up to 1

call lock
  flag[me] := 1
  turn := 1 - me
again:
  f := flag[1 - me]
  if f = 0 then goto in_now
  t := turn
  if t != me then goto again
in_now:
  this is enter
  done

call unlock
  flag[me] := 0                         this is leave
  done
";

pub const PETERSON_ORDER: &[u8] =
    br"# Peterson 1981, for two, with its doorway: first come, first served, where nobody crashes.
algorithm peterson_order for 2 processes
promises exclusion, order

shared flag[procs] up to 1
shared turn up to 1

call lock
  flag[me] := 1                         this is begin
  turn := 1 - me                        this is ready
again:
  f := flag[1 - me]
  if f = 0 then goto in_now
  t := turn
  if t != me then goto again
in_now:
  this is enter
  done

call unlock
  flag[me] := 0                         this is leave
  done
";

pub const RECOVERABLE_PETERSON: &[u8] =
    br"# Peterson's lock for two, made recoverable: the flag tells how far its process has come.
# 0 out, 1 in the doorway, 2 waiting, 3 inside. Only the process itself writes its flag.
algorithm recoverable_peterson for 2 processes
promises exclusion, reentry, order

shared flag[procs] up to 3
shared turn up to 1

call lock
  f := flag[me]
  if f = 3 then
    this is reenter
    done owner-died
  end
  if f = 2 then goto waiting
  if f = 0 then
    flag[me] := 1                       this is begin
  end
  turn := 1 - me
  flag[me] := 2                         this is ready
waiting:
  f := flag[1 - me]                     may withdraw
  if f = 0 then goto in_now
  t := turn                             may withdraw
  if t != me then goto waiting
in_now:
  flag[me] := 3                         may withdraw  this is enter
  done clean

call unlock
  flag[me] := 0                         this is leave
  done unlocked

call recover
  f := flag[me]
  if f = 0 then done found idle
  if f = 1 then done found doorway
  if f = 2 then done found waiting
  this is reenter
  done found inside

call withdraw
  flag[me] := 0                         this is quit
  done withdrawn
";

pub const SZYMANSKI: &[u8] =
    br"# Szymanski 1988, five values a process. It waits within its doorway, so order is not promised.
algorithm szymanski for 2 to 64 processes
promises exclusion

shared flag[procs] up to 4

call lock
  flag[me] := 1
  for j in others
    await f := flag[j] until f < 3
  end
  flag[me] := 3
  for j in others
    f := flag[j]
    if f = 1 then goto room
  end
  goto shut
room:
  flag[me] := 2
search:
  for j in others
    f := flag[j]
    if f = 4 then goto shut
  end
  goto search
shut:
  flag[me] := 4
  for j in lower
    await f := flag[j] until f < 2
  end
  this is enter
  done

call unlock
  for j in higher
    await f := flag[j] until f < 2 or f = 4
  end
  flag[me] := 0                         this is leave
  done
";
