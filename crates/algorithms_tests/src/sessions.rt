//! Sessions over algorithms: the lines that are given, and all that is written.

use crate::support::{put_page, text_named};
use algorithm_lab::Monitor;
use algorithm_texts::read_algorithm;
use diagram::Session;
use schedule::read_schedule;
use std::alloc::{AllocError, Global};
use std::test::Fail;

pub const PETERSON: &str = "session on peterson
== peterson
lock 0
step 0
to answer 0
unlock 1
undo
crash 0
--
process 0: outside, no call
process 1: outside, no call
process 0: outside, before line 9
process 1: outside, no call
at 0 rest w flag[0]=1
process 0: outside, before line 10
process 1: outside, no call
words flag 1 0
at 0 rest w turn=1
at 0 section r flag[1] 0
begin 0
ready 0
enter 0
answer 0 done
process 0: inside, no call
process 1: outside, no call
words flag 1 0
words turn 1
line 5: refused 5
process 0: outside, before line 10
process 1: outside, no call
words flag 1 0
at 0 dead
crash 0
process 0: outside, no call since its crash
process 1: outside, no call
words flag 1 0
";

/// A third step that stores a value above the bound of its word.
pub const BOUNDED: &[u8] = br"algorithm bounded for 2 processes
promises exclusion

shared x up to 1

call lock
  x := 1
  v := x
  x := v + 1
  this is enter
  done

call unlock
  x := 0                                this is leave
  done
";

/// Lines of steps and one to an answer are refused in their midst.
pub const REFUSED: &str = "session with lines that are refused
== bounded
lock 0
step 0 2
undo
step 0 3
to answer 0
redo
--
process 0: outside, no call
process 1: outside, no call
process 0: outside, before line 7
process 1: outside, no call
at 0 rest w x=1
at 0 rest r x 1
process 0: outside, before line 9, v=1
process 1: outside, no call
words x 1
process 0: outside, before line 7
process 1: outside, no call
line 3: refused 16
line 3: refused 16
at 0 rest w x=1
at 0 rest r x 1
process 0: outside, before line 9, v=1
process 1: outside, no call
words x 1
";

fn session_over(alloc: Global, text: &[u8]) -> Result<Session<Monitor>, Fail> {
    let monitor = Monitor::new(alloc, read_algorithm(alloc, text)?, 2, 1)?;
    let schedule = read_schedule(alloc, b"rme 1 procs 2 limit 1 cap 1\n")?;
    Ok(Session::with_simulation(alloc, monitor, schedule)?)
}

/// Writes the state, and then what the session answers to each line.
fn put_answers(
    alloc: Global,
    session: &mut Session<Monitor>,
    lines: &str,
    page: &mut Vec<u8>,
) -> Result<(), AllocError> {
    session.put_state(page)?;
    for line in lines.lines() {
        session.answer(alloc, line.as_bytes(), page)?;
    }
    Ok(())
}

/// A session, as a case: the text.
pub fn put_session(
    alloc: Global,
    words: &[&str; 8],
    lines: &str,
    text: &mut String,
) -> Result<(), Fail> {
    let mut session = session_over(alloc, text_named(words[0]))?;
    let mut page = Vec::new(alloc);
    let answered = put_answers(alloc, &mut session, lines, &mut page);
    drop(session);
    answered?;
    put_page(page.as_slice(), text)
}
