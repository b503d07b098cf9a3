//! The texts of examples/algorithms with swaps, and some that swap in other ways.

pub const ANDERSON: &[u8] =
    br"# Anderson 1990: an array of slots, taken in turn. Each spins on a slot of its own; the first one is open at the beginning.
algorithm anderson for 1 to 64 processes
promises exclusion, order

shared tail up to procs - 1
shared open[procs] up to 1 starts 1 - min(owner, 1)
private s

call lock
  s := swap tail to (s + 1) mod procs   this is begin
  this is ready
  await o := open[s] until o = 1
  this is enter
  done

call unlock
  open[s] := 0
  open[(s + 1) mod procs] := 1          this is leave
  done
";

pub const MCS: &[u8] =
    br"# Mellor-Crummey and Scott 1991: a queue, in which each spins on a word of its own. 0 is nobody, else the process plus 1.
algorithm mcs for 1 to 64 processes
promises exclusion, order

shared tail up to procs
shared next[procs] up to procs
shared locked[procs] up to 1

call lock
  next[me] := 0                         this is begin
  p := swap tail to me + 1              this is ready
  if p != 0 then
    locked[me] := 1
    next[p - 1] := me + 1
    await l := locked[me] until l = 0
  end
  this is enter
  done

call unlock
  n := next[me]
  if n = 0 then
    t := swap tail to 0 if t = me + 1
    if t = me + 1 then
      this is leave
      done
    end
    await n := next[me] until n != 0
  end
  locked[n - 1] := 0                    this is leave
  done
";

pub const RECOVERABLE_TEST_AND_SET: &[u8] =
    br"# Test-and-set made recoverable, by compare-and-swap: the word itself says who is inside. 0 is nobody, else the process plus 1.
algorithm recoverable_test_and_set for 1 to 64 processes
promises exclusion, reentry

shared holder up to procs

call lock
  h := holder
  if h = me + 1 then goto in_now
  await h := swap holder to me + 1 if h = 0 until h = 0
in_now:
  this is enter
  done

call unlock
  holder := 0                           this is leave
  done
";

pub const RECOVERABLE_TICKET: &[u8] =
    br"# The ticket lock with the ticket kept in a word: a crash between the swap and the store loses it. 0 is no ticket, else it plus 1.
algorithm recoverable_ticket for 1 to 64 processes
promises exclusion, reentry

shared next up to procs - 1
shared serving up to procs - 1
shared mine[procs] up to procs

call lock
  t := mine[me]
  if t = 0 then
    t := swap next to (t + 1) mod procs
    t := t + 1
    mine[me] := t
  end
  await s := serving until s + 1 = t
  this is enter
  done

call unlock
  t := mine[me]
  mine[me] := 0
  serving := t mod procs                this is leave
  done
";

pub const TEST_AND_SET: &[u8] =
    br"# Test-and-set: the oldest lock with a read-modify-write. A process may starve, and a crash inside holds it for ever.
algorithm test_and_set for 1 to 64 processes
promises exclusion

shared held up to 1

call lock
  await h := swap held to 1 until h = 0
  this is enter
  done

call unlock
  held := 0                             this is leave
  done
";

pub const TEST_AND_TEST_AND_SET: &[u8] =
    br"# Rudolph and Segall 1984, test and test-and-set: it spins on a load, and swaps only where the lock looked free.
algorithm test_and_test_and_set for 1 to 64 processes
promises exclusion

shared held up to 1

call lock
again:
  await h := held until h = 0
  h := swap held to 1
  if h = 1 then goto again
  this is enter
  done

call unlock
  held := 0                             this is leave
  done
";

pub const TICKET: &[u8] =
    br"# Reed and Kanodia 1979, the ticket lock: tickets by fetch-and-increment modulo procs, since at most procs are out at once.
algorithm ticket for 1 to 64 processes
promises exclusion, order

shared next up to procs - 1
shared serving up to procs - 1

call lock
  t := swap next to (t + 1) mod procs   this is begin
  this is ready
  await s := serving until s = t
  this is enter
  done

call unlock
  s := serving
  serving := (s + 1) mod procs          this is leave
  done
";

/// An index that reads the name that the swap sets.
pub const BOARD: &[u8] = br"# The index reads the value that v had before the swap sets it.
algorithm board for 1 to 64 processes
promises exclusion

shared seen[procs] up to 3

call lock
  v := seen[me]
  for j in all
    v := swap seen[(j + v) mod procs] to v + 1 if v < 2
  end
  this is enter
  done

call unlock
  seen[me] := 0                         this is leave
  done
";

/// Tickets without end: a counter that runs into its bound.
pub const COUNTER: &[u8] = br"# Tickets without end, up to the limit.
algorithm counter for 1 to 64 processes
promises exclusion, order

shared next up to limit
shared serving up to limit

call lock
  t := swap next to t + 1               this is begin
  this is ready
  await s := serving until s = t
  this is enter
  done

call unlock
  s := swap serving to s + 1            this is leave
  done
";

/// Compare-and-swap to take the lock and to give it back.
pub const OWNER: &[u8] = br"# Compare-and-swap, to take the lock and to give it back.
algorithm owner for 1 to 64 processes
promises exclusion

shared owner up to procs

call lock
  await v := swap owner to me + 1 if v = 0 until v = 0
  this is enter
  done

call unlock
  v := swap owner to 0 if v = me + 1    this is leave
  done
";

/// A blocked swap that changes its word.
pub const TURNSTILE: &[u8] = br"# A swap that is blocked turns the gate all the same.
algorithm turnstile for 1 to 64 processes
promises exclusion

shared gate up to 2

call lock
  await v := swap gate to (v + 1) mod 3 until v = 1
  this is enter
  done

call unlock
  gate := 0                             this is leave
  done
";

/// Constants.
pub const NAMED: &[u8] = br"# A lock whose numbers have names.
algorithm named for 1 to 64 processes
promises exclusion, reentry

constant free = 0
constant most = free + procs
constant twice = 2 * most - most

shared holder up to twice

call lock
  h := holder
  if h = me + 1 then goto in_now
  await h := swap holder to me + 1 if h = free until h = free
in_now:
  this is enter
  done

call unlock
  holder := free                        this is leave
  done
";

/// First values.
pub const MCS_NIL: &[u8] =
    br"# Mellor-Crummey and Scott 1991, where nobody is the number after the last process: tail and next begin with it.
algorithm mcs_nil for 1 to 64 processes
promises exclusion, order

constant nil = procs
shared tail up to nil starts nil
shared next[procs] up to nil starts nil
shared locked[procs] up to 1

call lock
  next[me] := nil                       this is begin
  p := swap tail to me                  this is ready
  if p != nil then
    locked[me] := 1
    next[p] := me
    await l := locked[me] until l = 0
  end
  this is enter
  done

call unlock
  n := next[me]
  if n = nil then
    t := swap tail to nil if t = me
    if t = me then
      this is leave
      done
    end
    await n := next[me] until n != nil
  end
  locked[n] := 0                        this is leave
  done
";

/// First values that are too great for some sizes.
pub const SEATS: &[u8] =
    br"# All words begin with the number of processes, which is above their bound from three on.
algorithm seats for 1 to 64 processes
promises exclusion

shared seat[procs] up to 2 starts procs

call lock
  v := seat[me]
  await v := swap seat[0] to 0 if v = procs until v = procs
  this is enter
  done

call unlock
  seat[0] := procs                      this is leave
  done
";

/// A constant without a value for some sizes.
pub const NARROW: &[u8] = br"# A constant that has no value where there are few processes.
algorithm narrow for 1 to 64 processes
promises exclusion

constant more = procs - 2
shared held up to 1

call lock
  await h := swap held to 1 until h = 0
  this is enter
  done

call unlock
  held := 0                             this is leave
  done
";
