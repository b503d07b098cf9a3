//! The texts of examples/algorithms with arrays of other sizes than `procs`, and some with tables.

pub const CLH: &[u8] =
    br"# Craig 1993; Landin and Hagersten 1994: each spins on the node of the one before it, and takes that node over.
algorithm clh for 1 to 63 processes
promises exclusion, order

constant nodes = procs + 1
shared tail up to procs starts procs
shared busy[nodes] up to 1 at owner
shared mine[procs] up to procs starts owner at owner
shared before[procs] up to procs at owner

call lock
  i := mine[me]                         this is begin
  busy[i] := 1
  p := swap tail to i                   this is ready
  before[me] := p
  await b := busy[p] until b = 0
  this is enter
  done

call unlock
  i := mine[me]
  p := before[me]
  mine[me] := p
  busy[i] := 0                          this is leave
  done
";

pub const GOLAB_RAMARAJU_TOURNAMENT: &[u8] =
    br"# Golab and Ramaraju 2016: a tree of the locks of golab-ramaraju.lock. One that comes back climbs again from its leaf.
algorithm golab_ramaraju_tournament for 2 to 4 processes
promises exclusion, reentry

constant size = 2 * min(procs - 1, 2)
constant levels = size / 2
constant nil = procs
shared at[procs][levels] up to 3 at owner
shared here[size][2] up to nil starts nil
shared turn[size] up to nil starts nil
shared spin[procs][levels] up to 2 at owner

call lock
  l := 0
climb:
  node := (size + me) / (2 * l + 2)
  side := (size + me) / (l + 1) mod 2
  a := at[me][l]
  if a = 2 then goto held
  if a = 3 then
    here[node][side] := nil
    t := turn[node]
    if t != me then spin[t][l] := 2
  end
  if a = 1 then
    r := here[node][1 - side]
    if r != nil then spin[r][l] := 2
  end
  at[me][l] := 1
  here[node][side] := me
  turn[node] := me
  spin[me][l] := 0
  r := here[node][1 - side]
  if r != nil then
    t := turn[node]
    if t = me then
      s := spin[r][l]
      if s = 0 then spin[r][l] := 1
      await s := spin[me][l] until s >= 1
      t := turn[node]
      if t = me then
        await s := spin[me][l] until s = 2
      end
    end
  end
  at[me][l] := 2
held:
  l := l + 1
  if l < levels then goto climb
  this is enter
  done

call unlock
  l := levels
down:
  l := l - 1
  node := (size + me) / (2 * l + 2)
  side := (size + me) / (l + 1) mod 2
  at[me][l] := 3
  if l + 1 = levels then
    this is leave
  end
  here[node][side] := nil
  t := turn[node]
  if t != me then spin[t][l] := 2
  at[me][l] := 0
  if l > 0 then goto down
  done
";

pub const PETERSON_TOURNAMENT: &[u8] =
    br"# Peterson and Fischer 1977: a tree of Peterson's locks for two. Node 1 is the root, and the leaf of a process size + me.
algorithm peterson_tournament for 2 to 4 processes
promises exclusion

constant size = 2 * min(procs - 1, 2)
shared flag[size][2] up to 1
shared turn[size] up to 1

call lock
  d := 2
climb:
  node := (size + me) / d
  side := (size + me) / (d / 2) mod 2
  flag[node][side] := 1
  turn[node] := side
again:
  f := flag[node][1 - side]
  if f = 1 then
    t := turn[node]
    if t = side then goto again
  end
  d := 2 * d
  if d <= size then goto climb
  this is enter
  done

call unlock
  d := size
down:
  node := (size + me) / d
  side := (size + me) / (d / 2) mod 2
  flag[node][side] := 0
  if d = size then
    this is leave
  end
  d := d / 2
  if d >= 2 then goto down
  done
";

/// A table and arrays, and sizes that there are no worlds of.
pub const TABLE: &[u8] = br"# A table of two rows, and arrays of other sizes.
algorithm table for 1 to 40 processes
promises exclusion

constant rows = 2
shared grid[rows][procs + 1] up to 9 starts owner + 1 at owner
shared pair[rows * procs] starts 7 at owner / 2
shared few[procs - 1] up to limit

call lock
  v := grid[1][procs]
  await w := swap pair[2 * me + 1] to v if w = 7 until w = 7
  grid[0][me] := w                      this is enter
  done

call unlock
  pair[2 * me] := 0
  grid[1][0] := 1                       this is leave
  done
";

/// Indexes out of range.
pub const CORNER: &[u8] =
    br"# The second index of a table has an end of its own, and so has the first.
algorithm corner for 2 processes
promises exclusion

shared grid[procs][procs]
shared line[limit] starts owner

call lock
  v := line[limit - 1]
  v := grid[0][v + me]
  grid[v][me] := 1                      this is enter
  done

call unlock
  v := grid[me + 1][0]
  grid[0][me] := v + 2                  this is leave
  done
";
