//! The recoverable Bakery of examples/algorithms, and the wrong forms of it.

pub const BAKERY_RUIN: &[u8] =
    br"# The recoverable Bakery with the word ruined, as the World of the project has it.
algorithm bakery_ruin for 1 to 64 processes
promises exclusion, reentry, order

shared choosing[procs] up to 1
shared number[procs] up to limit
shared inside[procs] up to 1
shared ruined up to 1
private unmended

call lock
  c := choosing[me]
  k := number[me]
  i := inside[me]
  if c = 1 and k = 0 then goto doorway
  if c = 1 then goto shut
  if k > 0 and i = 0 then goto waiting
  if k > 0 then
    this is reenter
    unmended := 1
    goto check
  end
  if i = 1 then inside[me] := 0
  choosing[me] := 1                                          this is begin
doorway:
  m := 0
  for j in others
    v := number[j]
    m := max(m, v)
  end
  if m = limit then
    choosing[me] := 0                                        this is quit
    done numbers-spent
  end
  k := m + 1
  number[me] := k                                            this is ready
shut:
  choosing[me] := 0
waiting:
  for j in others
    await c := choosing[j] until c = 0                       may withdraw
    await v := number[j] until v = 0 or (k, me) < (v, j)     may withdraw
  end
  inside[me] := 1                                            may withdraw  this is enter
  unmended := 0
check:
  r := ruined
  if r = 1 then
    number[me] := 0                                          this is leave
    inside[me] := 0
    done not-recoverable
  end
  if unmended = 1 then done owner-died
  done clean

call unlock
  if unmended = 1 then ruined := 1
  number[me] := 0                                            this is leave
  inside[me] := 0
  done unlocked

call recover
  c := choosing[me]
  k := number[me]
  i := inside[me]
  if c = 1 and k = 0 then done found doorway
  if c = 1 then
    choosing[me] := 0
    done found waiting
  end
  if k > 0 and i = 0 then done found waiting
  if k > 0 then
    this is reenter
    unmended := 1
    done found inside
  end
  if i = 0 then done found idle
  inside[me] := 0
  done found left

call withdraw
  number[me] := 0                                            this is quit
  done withdrawn
";

pub const BAKERY: &[u8] =
    br"# The recoverable Bakery: Lamport 1974 with a third word for each process.
algorithm bakery for 1 to 64 processes
promises exclusion, reentry, order

shared choosing[procs] up to 1
shared number[procs] up to limit
shared inside[procs] up to 1

call lock
  c := choosing[me]
  k := number[me]
  i := inside[me]
  if c = 1 and k = 0 then goto doorway
  if c = 1 then goto shut
  if k > 0 and i = 0 then goto waiting
  if k > 0 then
    this is reenter
    done owner-died
  end
  if i = 1 then inside[me] := 0
  choosing[me] := 1                                          this is begin
doorway:
  m := 0
  for j in others
    v := number[j]
    m := max(m, v)
  end
  if m = limit then
    choosing[me] := 0                                        this is quit
    done numbers-spent
  end
  k := m + 1
  number[me] := k                                            this is ready
shut:
  choosing[me] := 0
waiting:
  for j in others
    await c := choosing[j] until c = 0                       may withdraw
    await v := number[j] until v = 0 or (k, me) < (v, j)     may withdraw
  end
  inside[me] := 1                                            may withdraw  this is enter
  done clean

call unlock
  number[me] := 0                                            this is leave
  inside[me] := 0
  done unlocked

call recover
  c := choosing[me]
  k := number[me]
  i := inside[me]
  if c = 1 and k = 0 then done found doorway
  if c = 1 then
    choosing[me] := 0
    done found waiting
  end
  if k > 0 and i = 0 then done found waiting
  if k > 0 then
    this is reenter
    done found inside
  end
  if i = 0 then done found idle
  inside[me] := 0
  done found left

call withdraw
  number[me] := 0                                            this is quit
  done withdrawn
";

pub const EXIT_ON_CRASH: &[u8] =
    br"# exit-on-crash: the Bakery that leaves, unseen, after a crash inside.
algorithm exit_on_crash for 1 to 64 processes
promises exclusion, reentry, order

shared choosing[procs] up to 1
shared number[procs] up to limit
shared inside[procs] up to 1

call lock
  c := choosing[me]
  k := number[me]
  i := inside[me]
  if c = 1 and k = 0 then goto doorway
  if c = 1 then goto shut
  if k > 0 and i = 0 then goto waiting
  if k > 0 then number[me] := 0
  if i = 1 then inside[me] := 0
  choosing[me] := 1                                          this is begin
doorway:
  m := 0
  for j in others
    v := number[j]
    m := max(m, v)
  end
  if m = limit then
    choosing[me] := 0                                        this is quit
    done numbers-spent
  end
  k := m + 1
  number[me] := k                                            this is ready
shut:
  choosing[me] := 0
waiting:
  for j in others
    await c := choosing[j] until c = 0                       may withdraw
    await v := number[j] until v = 0 or (k, me) < (v, j)     may withdraw
  end
  inside[me] := 1                                            may withdraw  this is enter
  done clean

call unlock
  number[me] := 0                                            this is leave
  inside[me] := 0
  done unlocked

call recover
  c := choosing[me]
  k := number[me]
  i := inside[me]
  if c = 1 and k = 0 then done found doorway
  if c = 1 then
    choosing[me] := 0
    done found waiting
  end
  if k > 0 and i = 0 then done found waiting
  if i = 0 then done found idle
  if k > 0 then number[me] := 0
  inside[me] := 0
  done found left

call withdraw
  number[me] := 0                                            this is quit
  done withdrawn
";

pub const NO_LOOK: &[u8] = br"# no-look: the Bakery without looking at choosing.
algorithm no_look for 1 to 64 processes
promises exclusion, reentry, order

shared choosing[procs] up to 1
shared number[procs] up to limit
shared inside[procs] up to 1

call lock
  c := choosing[me]
  k := number[me]
  i := inside[me]
  if c = 1 and k = 0 then goto doorway
  if c = 1 then goto shut
  if k > 0 and i = 0 then goto waiting
  if k > 0 then
    this is reenter
    done owner-died
  end
  if i = 1 then inside[me] := 0
  choosing[me] := 1                                          this is begin
doorway:
  m := 0
  for j in others
    v := number[j]
    m := max(m, v)
  end
  if m = limit then
    choosing[me] := 0                                        this is quit
    done numbers-spent
  end
  k := m + 1
  number[me] := k                                            this is ready
shut:
  choosing[me] := 0
waiting:
  for j in others
    await v := number[j] until v = 0 or (k, me) < (v, j)     may withdraw
  end
  inside[me] := 1                                            may withdraw  this is enter
  done clean

call unlock
  number[me] := 0                                            this is leave
  inside[me] := 0
  done unlocked

call recover
  c := choosing[me]
  k := number[me]
  i := inside[me]
  if c = 1 and k = 0 then done found doorway
  if c = 1 then
    choosing[me] := 0
    done found waiting
  end
  if k > 0 and i = 0 then done found waiting
  if k > 0 then
    this is reenter
    done found inside
  end
  if i = 0 then done found idle
  inside[me] := 0
  done found left

call withdraw
  number[me] := 0                                            this is quit
  done withdrawn
";

pub const NO_TIES: &[u8] = br"# no-ties: the Bakery that lets equal numbers pass.
algorithm no_ties for 1 to 64 processes
promises exclusion, reentry, order

shared choosing[procs] up to 1
shared number[procs] up to limit
shared inside[procs] up to 1

call lock
  c := choosing[me]
  k := number[me]
  i := inside[me]
  if c = 1 and k = 0 then goto doorway
  if c = 1 then goto shut
  if k > 0 and i = 0 then goto waiting
  if k > 0 then
    this is reenter
    done owner-died
  end
  if i = 1 then inside[me] := 0
  choosing[me] := 1                                          this is begin
doorway:
  m := 0
  for j in others
    v := number[j]
    m := max(m, v)
  end
  if m = limit then
    choosing[me] := 0                                        this is quit
    done numbers-spent
  end
  k := m + 1
  number[me] := k                                            this is ready
shut:
  choosing[me] := 0
waiting:
  for j in others
    await c := choosing[j] until c = 0                       may withdraw
    await v := number[j] until v = 0 or k <= v               may withdraw
  end
  inside[me] := 1                                            may withdraw  this is enter
  done clean

call unlock
  number[me] := 0                                            this is leave
  inside[me] := 0
  done unlocked

call recover
  c := choosing[me]
  k := number[me]
  i := inside[me]
  if c = 1 and k = 0 then done found doorway
  if c = 1 then
    choosing[me] := 0
    done found waiting
  end
  if k > 0 and i = 0 then done found waiting
  if k > 0 then
    this is reenter
    done found inside
  end
  if i = 0 then done found idle
  inside[me] := 0
  done found left

call withdraw
  number[me] := 0                                            this is quit
  done withdrawn
";

pub const RENUMBER: &[u8] =
    br"# renumber: the Bakery that takes a new number after a crash past its doorway.
algorithm renumber for 1 to 64 processes
promises exclusion, reentry, order

shared choosing[procs] up to 1
shared number[procs] up to limit
shared inside[procs] up to 1

call lock
  c := choosing[me]
  k := number[me]
  i := inside[me]
  if c = 1 then goto doorway
  if k > 0 and i = 0 then goto waiting
  if k > 0 then
    this is reenter
    done owner-died
  end
  if i = 1 then inside[me] := 0
  choosing[me] := 1                                          this is begin
doorway:
  m := 0
  for j in others
    v := number[j]
    m := max(m, v)
  end
  if m = limit then
    choosing[me] := 0
    if k > 0 then goto waiting
    this is quit
    done numbers-spent
  end
  k := m + 1
  number[me] := k                                            this is ready
  choosing[me] := 0
waiting:
  for j in others
    await c := choosing[j] until c = 0                       may withdraw
    await v := number[j] until v = 0 or (k, me) < (v, j)     may withdraw
  end
  inside[me] := 1                                            may withdraw  this is enter
  done clean

call unlock
  number[me] := 0                                            this is leave
  inside[me] := 0
  done unlocked

call recover
  c := choosing[me]
  k := number[me]
  i := inside[me]
  if c = 1 and k = 0 then done found doorway
  if c = 1 then
    choosing[me] := 0
    done found waiting
  end
  if k > 0 and i = 0 then done found waiting
  if k > 0 then
    this is reenter
    done found inside
  end
  if i = 0 then done found idle
  inside[me] := 0
  done found left

call withdraw
  number[me] := 0                                            this is quit
  done withdrawn
";
