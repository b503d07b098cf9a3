//! Texts that say what never holds.

pub const CLAIMED_TICKET: &[u8] = br"algorithm claimed_ticket for 1 to 64 processes
promises exclusion, order
shared next up to procs - 1
shared serving up to procs - 1
never for p, q: p is inside and q is inside
never for p, q: p is waiting and q at served
never for p: p is dead
call lock
  t := swap next to (t + 1) mod procs   this is begin
  this is ready
waiting:
  await s := serving until s = t
  this is enter
  done
call unlock
  s := serving
served:
  serving := (s + 1) mod procs          this is leave
  done
";

pub const KEPT_TICKET: &[u8] = br"algorithm kept_ticket for 1 to 64 processes
promises exclusion, order
constant last = procs - 1
shared next up to procs - 1
shared serving up to procs - 1
never for p, q: p is inside and q is inside
never for p, q: p at served and (p != q and q is inside or q at served)
never serving > last or next > last
never for p: p at served and not (serving = serving and p is inside)
never for p, q: p is waiting and q is out and next = serving and serving != 0 and procs < 3
call lock
  t := swap next to (t + 1) mod procs   this is begin
  this is ready
waiting:
  await s := serving until s = t
  this is enter
  done
call unlock
  s := serving
served:
  serving := (s + 1) mod procs          this is leave
  done
";

pub const BEGUN_TICKET: &[u8] = br"algorithm begun_ticket for 1 to 64 processes
promises exclusion, order
shared next up to procs - 1
shared serving up to procs - 1
never for p: p at taking
call lock
taking:
  t := swap next to (t + 1) mod procs   this is begin
  this is ready
  await s := serving until s = t
  this is enter
  done
call unlock
  s := serving
  serving := (s + 1) mod procs          this is leave
  done
";

pub const LINKED_MCS: &[u8] = br"algorithm linked_mcs for 1 to 64 processes
promises exclusion, order
constant nil = procs
shared tail up to nil starts nil
shared next[procs] up to nil starts nil at owner
shared locked[procs] up to 1 at owner
never for p, q: next[p] = q and next[q] = p and p is waiting and q is waiting
never for p: next[next[p]] = p
never for p: tail = p and p is out
never tail != nil and next[tail] = tail
call lock
  next[me] := nil                       this is begin
  pred := swap tail to me               this is ready
  if pred != nil then
    locked[me] := 1
    next[pred] := me
    await l := locked[me] until l = 0
  end
  this is enter
  done
call unlock
  n := next[me]
  if n = nil then
    t := swap tail to nil if t = me
    if t = me then
      this is leave
      done
    end
    await n := next[me] until n != nil
  end
  locked[n] := 0                        this is leave
  done
";

pub const UNLINKED_MCS: &[u8] = br"algorithm unlinked_mcs for 1 to 64 processes
promises exclusion, order
constant nil = procs
shared tail up to nil starts nil
shared next[procs] up to nil starts nil at owner
shared locked[procs] up to 1 at owner
never for p, q: next[p] = q and next[q] = p and p is waiting and q is waiting
never for p: next[next[p]] = p
never tail != nil and next[tail] = tail
call lock
  next[me] := nil                       this is begin
  pred := swap tail to me               this is ready
  if pred != nil then
    locked[me] := 1
    next[pred] := me
    await l := locked[me] until l = 0
  end
  this is enter
  done
call unlock
  n := next[me]
  if n = nil then
    t := swap tail to nil if t = me
    if t = me then
      this is leave
      done
    end
    n := next[me]
  end
  locked[n] := 0                        this is leave
  done
";
