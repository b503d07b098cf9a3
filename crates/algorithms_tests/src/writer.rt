//! Algorithms that are written as texts, and read again.

use crate::support::text_named;
use algorithm_texts::{WritingFault, read_algorithm, write_algorithm};
use algorithms::Expression;
use std::alloc::Global;
use std::fmt::Write;
use std::process::Abort;
use std::test::Fail;

/// All names of texts.
const NAMES: &str = "\
bakery bakery_ruin exit_on_crash no_look no_ties renumber bakery_1974 burns dekker \
forgetful_peterson lamport_fast no_turn one_word peterson peterson_order recoverable_peterson \
szymanski anderson mcs recoverable_test_and_set recoverable_ticket test_and_set \
test_and_test_and_set ticket board counter mcs_nil named narrow seats owner turnstile constructs \
bounded golab_ramaraju yang_anderson homes clh corner golab_ramaraju_tournament peterson_tournament \
table filter stairs bounded_peterson bounded_test_and_set bounded_ticket hurried_ticket \
instant_test_and_set mcs_exit_3 ticket_exit_1 ticket_exit_2 begun_ticket claimed_ticket kept_ticket \
linked_mcs unlinked_mcs crossed_flags fair_test_and_set free_test_and_set mcs_no_wait \
jayanti_jayanti_joshi jayanti_jayanti_joshi_two_nodes semaphore_2 clearing hasty_clearing squared";

/// A text as it is written: blocks that end in lines to which no run comes, gotos at the end of an `if`, and brackets.
const BLOCKS: &str = "algorithm blocks for 2 to 4 processes
promises exclusion
shared x
shared each[procs] up to (procs + 1) * 2
private last

call lock
  a := x
  if a = 1 then
    if last = 0 then
      done one
    else
      each[me] := 1
      done two
    end
  else
    last := 7 - (3 - 1) - 1
  end
  for j in all
    b := each[j]
    if b = max(j, 1) or not ((a, b) < (1, last * (2 + a))) and a >= 0 then
      goto at22
    end
    if b = 2 then
      x := 3
    else
      x := 4
    end
    for k in others
      c := each[k]
      done three
    end
  end
at22:
  x := (a + 1) mod 2 this is enter
  if a = 0 then
    x := 5
    goto at29
  end
  last := 1
at28:
  await d := x until d = 0
at29:
  e := x
  if e = 8 then goto at28
  done

call unlock
  x := 0 this is leave
  done
";

/// A text as it is written: two inside at once, constants, whose values stand where they were named, bounds and first values.
const VALUES: &str = "algorithm values for 2 to 8 processes
promises exclusion of 2, order
constant two = 2
constant most = max(procs, 2) - (limit - 1)
constant twice = (max(procs, 2) - (limit - 1)) * 2
shared x up to (max(procs, 2) - (limit - 1)) * 2 starts max(procs, 2) - (limit - 1)
shared turn[procs] up to procs * 2 starts (owner + 1) mod procs
shared other starts 0
shared free[procs]
shared lone[procs] starts min(owner, 1) * (7 - (owner - 1))
private last

call lock
  x := max(procs, 2) - (limit - 1) this is begin
  last := me + 2
  a := other this is ready
  b := lone[a] this is enter
  free[me] := b
  turn[me] := 0
  done

call unlock
  x := 0 this is leave
  done
";

/// A text as it is written: bounds on own steps, sizes, homes, words of tables, and loops over numbers.
const EXTENTS: &str = "algorithm extents for 2 to 8 processes
promises exclusion, reentry, order, exit within max(procs, 3) - 1, recovery within 18446744073709551615 / (limit + 1), doorway within 2 * (procs - 1)
constant two = 2
shared row[procs + 1] up to (procs + 1) * 2 starts owner * 2 at owner - 1
shared grid[2 * (procs - 1)][max(procs, limit) - 1] up to 9 at min(owner / 2, 1)
shared square[2][procs] starts 1
shared lone[1] at 0
shared far at procs - 1
shared each[procs] at owner
private last

call lock
  a := row[me] this is begin
  for l from 1 to procs - 1
    grid[l][0] := l + 1
    for k from limit - (me + 1) * 2 down to max(me, 2)
      row[(k + l) mod (procs + 1)] := k
    end
  end
  b := grid[me + 1][a * 2]
  await c := square[(a + 1) * 2][b - 1] until c = 0 this is ready
  last := swap grid[a][b] to c if last = 1
  for j from 2 to 1
    lone[0] := j
  end
  each[me] := 0 this is enter
  done

call unlock
  far := 0 this is leave
  done
";

/// A text as it is written: what never holds, between declarations and after them, and labels that nothing but a claim names.
const CLAIMS: &str = "algorithm claims for 2 to 8 processes
promises exclusion, order, exit within 3, starvation freedom, bounds
shared p1
never for p2: p1 = p2 and p2 is out
shared tail up to procs starts procs
shared next[procs] up to procs at owner
shared grid[2 * procs][procs]
constant nil = procs
private last
never for p2, p3: next[p2] = p3 and next[next[p3]] = p2 or not (p2 is waiting)
never p1 > tail and next[tail] = tail + p1 * 2

never for p2: p2 at at1 and (p2 at at4 or p2 is inside and p2 at at11)
never for p2, p3: (p2, grid[p3 * 2][p2]) < (p3, 1) and tail is doorway
never for p2: p2 is dead

call lock
  last := me
at1:
  a := tail this is begin
  this is ready
at4:
  if a = last then
    last := 1
  end
  p1 := a this is enter
  done

call unlock
  next[me] := 0 this is leave
at11:
  done
";

/// A text that says of exclusion what goes without saying, and further promises in another order than they are written in.
const UNORDERED: &str = "algorithm unordered for 2 to 4 processes
promises exclusion of 1, reentry, order, bounds, doorway within 3, starvation freedom, recovery within 2, exit within 1
shared x

call lock
  x := 1 this is begin
  x := 2 this is ready
  x := 3 this is enter
  done

call unlock
  x := 0 this is leave
  done
";

/// The same as it is written.
const ORDERED: &str = "algorithm unordered for 2 to 4 processes
promises exclusion, reentry, order, exit within 1, recovery within 2, doorway within 3, starvation freedom, bounds
shared x

call lock
  x := 1 this is begin
  x := 2 this is ready
  x := 3 this is enter
  done

call unlock
  x := 0 this is leave
  done
";

/// What is written of a text that is read. It is read again as the same algorithm.
fn written_of<R: Abort>(rt: &R, alloc: Global, text: &[u8]) -> Result<String, Fail> {
    let read = read_algorithm(alloc, text)?;
    let written = write_algorithm(alloc, &read)?;
    let again = read_algorithm(alloc, written.as_bytes())?;
    let mut first = String::new(alloc);
    write!(first, "{read:?}")?;
    let mut second = String::new(alloc);
    write!(second, "{again:?}")?;
    assert!(rt; first == second, "{written}");
    Ok(written)
}

/// A text that is as it is written is written so again.
#[test]
fn texts_are_written_and_read_again(rt: HostRuntime) -> Result<(), Fail> {
    for name in NAMES.split(' ') {
        written_of(&rt, rt.alloc(), text_named(name))?;
    }
    for text in [BLOCKS, VALUES, EXTENTS, CLAIMS] {
        let written = written_of(&rt, rt.alloc(), text.as_bytes())?;
        assert!(rt; written.as_str() == text, "{written}");
    }
    Ok(())
}

/// Further promises are read in any order, and written in one. `of 1` is read, and not written.
#[test]
fn promises_are_written_in_one_order(rt: HostRuntime) -> Result<(), Fail> {
    let written = written_of(&rt, rt.alloc(), UNORDERED.as_bytes())?;
    assert!(rt; written.as_str() == ORDERED, "{written}");
    Ok(())
}

/// Whether the writing is refused of `peterson` without its last line, of `named` without first values, of `clearing` with a bound
/// that names a process, or of another algorithm without the last of its first values.
fn is_refused(alloc: Global, name: &str) -> Result<bool, Fail> {
    let mut initialized = read_algorithm(alloc, text_named(name))?;
    if name == "peterson" {
        initialized.algorithm.lines.pop();
    } else if name == "named" {
        initialized.first_values = None;
    } else if name == "clearing" {
        initialized.algorithm.step_bounds.recovery = Some(Expression::Me);
    } else if let Some(values) = &mut initialized.first_values {
        values.starts.pop();
    }
    Ok(write_algorithm(alloc, &initialized).err() == Some(WritingFault::NotSpelled))
}

/// Where a constant is named or a first value is said, all algorithms of the text have first values.
#[test]
fn what_no_text_spells_is_refused(rt: HostRuntime) -> Result<(), Fail> {
    for name in ["peterson", "named", "clearing", "seats"] {
        assert!(rt; is_refused(rt.alloc(), name)?, "{name}");
    }
    Ok(())
}
