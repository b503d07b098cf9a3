//! The texts of examples/algorithms with loops over numbers, one with such loops of each kind, and one whose rounds make no access.

pub const FILTER: &[u8] =
    br"# Peterson 1981, for more than two: at each level the last one to come waits.
algorithm filter for 2 to 64 processes
promises exclusion

shared level[procs] up to procs - 1 at owner
shared last[procs] up to procs - 1

call lock
  for l from 1 to procs - 1
    level[me] := l
    last[l] := me
look:
    for k in others
      v := level[k]
      if v >= l then
        w := last[l]
        if w = me then goto look
      end
    end
  end
  this is enter
  done

call unlock
  level[me] := 0                        this is leave
  done
";

/// Loops up and down, without a round, and with an end that has no value.
pub const STAIRS: &[u8] = br"# Loops over numbers, up and down, and some without a round.
algorithm stairs for 1 to 64 processes
promises exclusion

constant top = 2
shared step[top + 1] up to 9 starts 1

call lock
  for i from top down to 0
    step[i] := i + 2
  end
  for i from me + 1 to limit
    v := step[i mod (top + 1)]
  end
  step[0] := 9                          this is enter
  done

call unlock
  for i from 5 to 4
    step[0] := 7
  end
  for i from limit down to limit + 1
    step[0] := 7
  end
  step[0] := 1                          this is leave
  for i from me - 1 to 3
    step[1] := i
  end
  done
";

/// Rounds without an access.
pub const TALLY: &[u8] =
    br"# Rounds without an access: nested, left by a goto, up and down, and as many as the limit says.
algorithm tally for 1 to 64 processes
promises exclusion

shared sum up to 100
shared most

call lock
  n := 0
  for i from 1 to limit
    for j in others
      n := n + i * (j + 1)
      if n > 100 then goto full
    end
  end
  sum := n
  goto on
full:
  sum := 100
on:
  m := sum
  for i from limit down to 1
    if i mod 2 = 0 then m := m + i
  end
  most := m                             this is enter
  done

call unlock
  most := 0                             this is leave
  n := 0
  for i from 2 to limit
    n := i
  end
  most := n
  done
";
