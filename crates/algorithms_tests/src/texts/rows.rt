//! The texts of examples/algorithms with rows of private names.

pub const JAYANTI_JAYANTI_JOSHI: &[u8] =
    br"# Jayanti, Jayanti and Joshi 2019: a queue entered by swap. One that lost in a crash what its swap answered mends the queue.
# It looks at all nodes, under a lock for the menders, and hangs its piece of the queue after the tail, the piece in front, or
# nothing. From the paper, from memory: the order of all accesses, and the choice of where to hang. Our own: `limit` nodes for
# each process in place of new ones, after which lock answers nodes-spent; bits for its signals, as for cache coherence; and
# the menders' lock is recoverable-test-and-set.lock.
algorithm jayanti_jayanti_joshi for 1 to 16 processes
promises exclusion, reentry, deadlock freedom, bounds, exit within 5, recovery within 3

constant nodes = limit * procs + 1          # the last one is the special node: left, and its successor may go
constant nil = nodes
constant crashed = nodes + 1
constant incs = nodes + 2
constant left = nodes + 3
constant nobody = procs
shared tail up to nil starts nodes - 1
shared node[procs] up to nil starts nil at owner
shared used[procs] up to limit at owner
shared pred[nodes] up to left starts nil + 3 * (owner / (limit * procs)) at owner / limit
shared known[nodes] up to 1 at owner / limit
shared go[nodes] up to 1 starts owner / (limit * procs) at owner / limit
shared mender up to nobody starts nobody
private front[nodes]
private back[nodes]

call lock
  i := node[me]
  if i = nil then goto fresh
  p := pred[i]
  if p = nil then
    p := crashed
    pred[i] := crashed
  end
  if p = incs then goto in_now
  if p = left then
    go[i] := 1
    used[me] := i - limit * me + 1
    node[me] := nil
    goto fresh
  end
  known[i] := 1
  h := mender
  if h != me then
    await h := swap mender to me if h = nobody until h = nobody
  end
  p := pred[i]
  if p = crashed then
    front := 0
    back := 0
    t := tail
    for j in all
      c := node[j]
      if c != nil then
        await k := known[c] until k = 1
        q := pred[c]
        front[c] := q + 1
        if q < nil then back[q] := c + 1
      end
    end
    s := i
    for v from 1 to nodes
      if back[s] > 0 then s := back[s] - 1
    end
    z := left
    if front[t] > 0 or back[t] > 0 then
      e := t
      for v from 1 to nodes
        if front[e] > 0 and front[e] <= nil then e := front[e] - 1
      end
      z := pred[e]
    end
    if z = incs or z = left then
      p := swap tail to s
    else
      p := nodes - 1
      for x from 0 to nodes - 1
        if (front[x] > nil) or (front[x] = 0 and back[x] > 0) then
          z := pred[x]
          if z = incs or z = left then
            s := x
            for v from 1 to nodes
              if back[s] > 0 then s := back[s] - 1
            end
            y := pred[s]
            if y != left then p := s
          end
        end
      end
    end
    front := 0
    back := 0
    pred[i] := p
  end
  mender := nobody
  goto wait
fresh:
  u := used[me]
  if u = limit then done nodes-spent
  i := limit * me + u
  pred[i] := nil
  known[i] := 0
  go[i] := 0
  node[me] := i
  p := swap tail to i
  pred[i] := p
  known[i] := 1
wait:
  await g := go[p] until g = 1
  pred[i] := incs
in_now:
  this is enter
  done

call unlock
  i := node[me]
  pred[i] := left                       this is leave
  go[i] := 1
  used[me] := i - limit * me + 1
  node[me] := nil
  done
";

pub const JAYANTI_JAYANTI_JOSHI_TWO_NODES: &[u8] =
    br"# jayanti-jayanti-joshi with two nodes for each process, used in turn in place of new ones. That is our own doing, and fails.
algorithm jayanti_jayanti_joshi_two_nodes for 1 to 16 processes
promises exclusion, reentry, deadlock freedom, bounds, exit within 5, recovery within 3

constant nodes = 2 * procs + 1          # the last one is the special node: left, and its successor may go
constant nil = nodes
constant crashed = nodes + 1
constant incs = nodes + 2
constant left = nodes + 3
constant nobody = procs
shared tail up to nil starts nodes - 1
shared node[procs] up to nil starts nil at owner
shared last[procs] up to nil starts 2 * owner at owner
shared pred[nodes] up to left starts nil + 3 * (owner / (2 * procs)) at owner / 2
shared known[nodes] up to 1 at owner / 2
shared go[nodes] up to 1 starts owner / (2 * procs) at owner / 2
shared mender up to nobody starts nobody
private front[nodes]
private back[nodes]

call lock
  i := node[me]
  if i = nil then goto fresh
  p := pred[i]
  if p = nil then
    p := crashed
    pred[i] := crashed
  end
  if p = incs then goto in_now
  if p = left then
    go[i] := 1
    last[me] := i
    node[me] := nil
    goto fresh
  end
  known[i] := 1
  h := mender
  if h != me then
    await h := swap mender to me if h = nobody until h = nobody
  end
  p := pred[i]
  if p = crashed then
    front := 0
    back := 0
    t := tail
    for j in all
      c := node[j]
      if c != nil then
        await k := known[c] until k = 1
        q := pred[c]
        front[c] := q + 1
        if q < nil then back[q] := c + 1
      end
    end
    s := i
    for u from 1 to nodes
      if back[s] > 0 then s := back[s] - 1
    end
    z := left
    if front[t] > 0 or back[t] > 0 then
      e := t
      for u from 1 to nodes
        if front[e] > 0 and front[e] <= nil then e := front[e] - 1
      end
      z := pred[e]
    end
    if z = incs or z = left then
      p := swap tail to s
    else
      p := nodes - 1
      for x from 0 to nodes - 1
        if (front[x] > nil) or (front[x] = 0 and back[x] > 0) then
          z := pred[x]
          if z = incs or z = left then
            s := x
            y := z
            for u from 1 to nodes
              if back[s] > 0 then
                s := back[s] - 1
                y := front[s] - 1
              end
            end
            if y != left then p := s
          end
        end
      end
    end
    front := 0
    back := 0
    pred[i] := p
  end
  mender := nobody
  goto wait
fresh:
  i := last[me]
  i := 4 * me + 1 - i
  pred[i] := nil
  known[i] := 0
  go[i] := 0
  node[me] := i
  p := swap tail to i
  pred[i] := p
  known[i] := 1
wait:
  await g := go[p] until g = 1
  pred[i] := incs
in_now:
  this is enter
  done

call unlock
  i := node[me]
  pred[i] := left                       this is leave
  go[i] := 1
  last[me] := i
  node[me] := nil
  done
";
