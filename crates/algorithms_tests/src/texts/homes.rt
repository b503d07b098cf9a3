//! The texts of examples/algorithms whose words have homes, and one with homes of each kind.

pub const GOLAB_RAMARAJU: &[u8] =
    br"# Golab and Ramaraju 2016: Yang and Anderson's lock for two, made recoverable. The word at says how far its process has come.
algorithm golab_ramaraju for 2 processes
promises exclusion, reentry

shared at[procs] up to 3 at owner       # 1 in the entry, 2 inside, 3 leaving
shared here[procs] up to 1
shared turn up to 1
shared spin[procs] up to 2 at owner

call lock
  a := at[me]
  if a = 2 then goto in_now
  if a = 3 then
    here[me] := 0
    t := turn
    if t != me then spin[1 - me] := 2
  end
  if a = 1 then spin[1 - me] := 2
  at[me] := 1
  here[me] := 1
  turn := me
  spin[me] := 0
  h := here[1 - me]
  if h = 1 then
    t := turn
    if t = me then
      s := spin[1 - me]
      if s = 0 then spin[1 - me] := 1
      await s := spin[me] until s >= 1
      t := turn
      if t = me then
        await s := spin[me] until s = 2
      end
    end
  end
  at[me] := 2
in_now:
  this is enter
  done

call unlock
  at[me] := 3                           this is leave
  here[me] := 0
  t := turn
  if t != me then spin[1 - me] := 2
  at[me] := 0
  done
";

pub const YANG_ANDERSON: &[u8] =
    br"# Yang and Anderson 1995, for two: loads and stores alone. Each spins on a word of its own, which lives at its process.
algorithm yang_anderson for 2 processes
promises exclusion

shared here[procs] up to 1
shared turn up to 1
shared spin[procs] up to 2 at owner

call lock
  here[me] := 1
  turn := me
  spin[me] := 0
  h := here[1 - me]
  if h = 0 then goto in_now
  t := turn
  if t != me then goto in_now
  s := spin[1 - me]
  if s = 0 then spin[1 - me] := 1
  await s := spin[me] until s >= 1
  t := turn
  if t = me then
    await s := spin[me] until s = 2
  end
in_now:
  this is enter
  done

call unlock
  here[me] := 0                         this is leave
  t := turn
  if t != me then spin[1 - me] := 2
  done
";

/// Homes that are processes, and homes that are none.
pub const HOMES: &[u8] = br"# Words that live at processes, and words that live at none.
algorithm homes for 1 to 64 processes
promises exclusion

constant half = procs / 2
shared held up to 1 at half
shared near[procs] at owner
shared before[procs] up to 9 starts 1 at owner - 1
shared far[procs] at procs + owner
shared limited at limit

call lock
  await h := swap held to 1 until h = 0
  this is enter
  done

call unlock
  held := 0                             this is leave
  done
";
