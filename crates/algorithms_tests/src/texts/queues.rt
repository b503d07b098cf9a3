//! Recoverable locks that are queues, of examples/algorithms.

pub const RECOVERABLE_CLH: &[u8] =
    br"# A CLH lock made recoverable, of our own: the queue is entered by compare-and-swap, and the node before is noted first, in pred. So
# one that comes back is in the queue where tail or a pred is its node. Two nodes a process, in turn; one in seen is not taken anew.
algorithm recoverable_clh for 1 to 32 processes
promises exclusion, reentry, deadlock freedom, bounds, exit within 4, recovery within 1

constant nil = 2 * procs
shared tail up to nil starts nil
shared busy[2 * procs] up to 1 at owner / 2
shared state[procs] up to 5 at owner    # 0 free, 1 and 2 preparing, 3 trying, 4 queued, 5 inside
shared mine[procs] up to nil starts 2 * owner at owner
shared seen[procs] up to nil starts nil at owner
shared pred[procs] up to nil starts nil at owner

call lock
  st := state[me]
  if st = 5 then goto in_now
  i := mine[me]
  if st = 1 or st = 2 then goto prepare
  if st = 4 then goto wait
  if st = 3 then
    t := tail
    if t = i then goto queued
    for j in others
      q := pred[j]
      if q = i then goto queued
    end
    goto try
  end
  busy[i] := 0
  st := 2 - i mod 2
  state[me] := st
prepare:
  i := 2 * me + st - 1
  mine[me] := i
  for k in others
    await h := seen[k] until h != i
  end
  busy[i] := 1
  state[me] := 3
try:
  pred[me] := nil
  t := tail
  seen[me] := t
  u := tail
  if u != t then goto try
  pred[me] := t
  u := swap tail to i if u = t
  if u != t then goto try
queued:
  state[me] := 4
wait:
  p := pred[me]
  if p != nil then
    await b := busy[p] until b = 0
    pred[me] := nil
  end
  seen[me] := nil
  state[me] := 5
in_now:
  this is enter
  done

call unlock
  i := mine[me]
  state[me] := 0                        this is leave
  busy[i] := 0
  done
";

pub const RECOVERABLE_MCS: &[u8] =
    br"# An MCS lock made recoverable, of our own, with its queue as in recoverable-clh.lock. wait says by which node a node is let in: a
# release is a compare-and-swap on it, so that one repeated after a crash does no harm.
algorithm recoverable_mcs for 1 to 32 processes
promises exclusion, reentry, deadlock freedom, bounds, recovery within 1

constant nil = 2 * procs
shared tail up to nil starts nil
shared next[2 * procs] up to nil starts nil at owner / 2
shared wait[2 * procs] up to nil starts nil at owner / 2
shared state[procs] up to 6 at owner    # 0 free, 1 and 2 preparing, 3 trying, 4 queued, 5 inside, 6 leaving
shared mine[procs] up to nil starts 2 * owner at owner
shared seen[procs] up to nil starts nil at owner
shared pred[procs] up to nil starts nil at owner

call lock
  st := state[me]
  if st = 5 then goto in_now
  i := mine[me]
  if st = 1 or st = 2 then goto prepare
  if st = 4 then goto link
  if st = 0 then goto choose
  if st = 3 then
    t := tail
    if t = i then goto queued
    for j in others
      q := pred[j]
      if q = i then goto queued
    end
    goto try
  end
leaving:
  n := next[i]
  if n = nil then
    t := swap tail to nil if t = i
    if t = i then goto free
    for j in others
      q := pred[j]
      if q = i then goto leaving
    end
    goto free
  end
  w := swap wait[n] to nil if w = i
free:
  state[me] := 0
choose:
  st := 2 - i mod 2
  state[me] := st
prepare:
  i := 2 * me + st - 1
  mine[me] := i
  for k in others
    await h := seen[k] until h != i
  end
  next[i] := nil
  state[me] := 3
try:
  pred[me] := nil
  t := tail
  seen[me] := t
  u := tail
  if u != t then goto try
  pred[me] := t
  u := swap tail to i if u = t
  if u != t then goto try
queued:
  p := pred[me]
  wait[i] := p
  state[me] := 4
link:
  p := pred[me]
  if p != nil then
    next[p] := i
    await w := wait[i] until w = nil
    pred[me] := nil
  end
  seen[me] := nil
  state[me] := 5
in_now:
  this is enter
  done

call unlock
  i := mine[me]
  state[me] := 6                        this is leave
leaving:
  n := next[i]
  if n = nil then
    t := swap tail to nil if t = i
    if t = i then goto free
    for j in others
      q := pred[j]
      if q = i then goto leaving
    end
    goto free
  end
  w := swap wait[n] to nil if w = i
free:
  state[me] := 0
  done
";

pub const DHOKED_MITTAL: &[u8] =
    br"# Dhoked and Mittal 2020, their weakly recoverable lock: MCS whose exit does not wait. A process that crashes between the swap
# and the store of pred gives its node up; two may be inside until the queue is mended. Our own: two nodes a process, in turn.
algorithm dhoked_mittal for 1 to 32 processes
promises exclusion, reentry, starvation freedom, bounds, exit within 6, recovery within 1

constant nil = 2 * procs
shared tail up to nil starts nil
shared next[2 * procs] up to nil starts nil at owner / 2
shared locked[2 * procs] up to 1 at owner / 2
shared state[procs] up to 5 at owner    # 0 free, 1 and 2 preparing node 0 or 1, 3 trying, 4 inside, 5 leaving
shared mine[procs] up to nil starts 2 * owner at owner
shared pred[procs] up to nil starts nil at owner

call lock
  st := state[me]
  if st = 4 then goto in_now
  i := mine[me]
  if st = 1 or st = 2 then goto prepare
  if st = 0 then goto choose
  if st = 3 then
    p := pred[me]
    if p != i then goto link
    state[me] := 5
  end
  t := swap tail to nil if t = i
  n := swap next[i] to i if n = nil
  if n != nil and n != i then locked[n] := 0
  state[me] := 0
choose:
  st := 2 - i mod 2
  state[me] := st
prepare:
  i := 2 * me + st - 1
  mine[me] := i
  next[i] := nil
  locked[i] := 1
  pred[me] := i
  state[me] := 3
  p := swap tail to i
  pred[me] := p
link:
  if p != nil then
    n := swap next[p] to i if n = nil
    if n = nil or n = i then
      await l := locked[i] until l = 0
    end
  end
  state[me] := 4
in_now:
  this is enter
  done

call unlock
  i := mine[me]
  state[me] := 5                        this is leave
  t := swap tail to nil if t = i
  n := swap next[i] to i if n = nil
  if n != nil and n != i then locked[n] := 0
  state[me] := 0
  done
";
