//! A text with each construct of the format. It is not among the examples.

pub const CONSTRUCTS: &[u8] = br"# Each construct of the format.
algorithm constructs for 2 to 3 processes
promises exclusion, reentry, order

shared cell[procs] up to 13 * limit + 2
shared turn up to procs
shared compared
shared reckoned[procs]
shared decided[procs]
shared passed[procs]
private kept

call lock
  k := cell[me]
  if k > 90 then goto back
  cell[me] := (7 + 2 * 3) / 4 * 2 + 17 mod 5 - min(1, 2)   this is begin
  n := 0
  for j in all
    v := cell[j]
    w := j * j + 1
    if j < 1 then n := n + w
    if j <= 1 then n := n + 10 * w
    if j = 1 then n := n + 100 * w
    if j != 1 then n := n + 1000 * w
    if j >= 1 then n := n + 10000 * w
    if j > 1 then n := n + 100000 * w
  end
  compared := n
  n := 17 mod 5
  n := n * 10 + 17 / 5
  n := n * 10 + min(me + 1, 2)
  n := n * 10 + max(me + 1, 2)
  n := n * 10 + (9 - 4 - 3)
  n := n * 10 + 9 - (4 - 3)
  n := n * 10 + 16 / 4 / 2
  n := n * 10 + 12 / (2 * 3) mod 5
  reckoned[me] := n * procs + limit
  d := 0
  if (me, 5) < (1, 4) then d := d + 1
  if (1, me) <= (1, 1) then d := d + 2
  if (me, 1) >= (1, 1) and not (me = 1) then d := d + 4
  if (1, me) > (1, 1) then d := d + 8
  if (me, 1) = (1, 1) then d := d + 16
  if (me, me) != (1, 0 + 1) then d := d + 32
  if me = 0 or me = 1 and kept > 5 then d := d + 64
  if (me = 0 or me = 1) and kept < 5 then d := d + 128
  if kept = 0 or 4 / kept > 3 then d := d + 256
  if kept != 0 and 4 / kept > 3 then d := d + 512
  if me = 0 then
    if kept = 0 then
      d := d + 1024
    else
      d := d + 2048
    end
  else
    d := d + 4096
  end
  decided[me] := d
  n := 0
  for j in others
    v := cell[j]
    n := n * 4 + j + 1
    for i in higher
      v := cell[i]
      n := n * 4 + i + 1
    end
  end
  for j in lower
    v := cell[j]
    n := n * 4 + j + 1
  end
  passed[me] := n                                          this is ready
  goto wait
back:
  this is reenter
  done owner   died-inside  again
wait:
  await t := turn until t = 0 or not (t != me + 1)         may withdraw
  turn := me + 1                                           may withdraw
  cell[me] := 91 + me                                      this is enter
  if kept >= 1 then
    if kept > 1 then
      done inside once-more
    else
      done inside again
    end
  else
    done inside
  end

call unlock
  kept := kept + 1
  cell[me] := max(kept, 1)                                 this is leave
  t := turn
  if t = me + 1 then
    turn := 0
  else
    t := 0
  end
  done

call withdraw
  cell[me] := 0                                            this is quit
  done withdrawn

call recover
  k := cell[me]
  for j in all
    v := cell[j]
    if v > 90 then goto busy
  end
  done found nobody
busy:
  if k > 90 then
    this is reenter
    if v = k then
      done found itself
    else
      done found itself beside another
    end
  else
    done found another
  end
";
