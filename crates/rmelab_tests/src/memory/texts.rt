//! Each request for memory of a replay is refused in turn, and of the verdict of a trace. Judging keeps one line of a trace in memory:
//! a long trace meets as many refusals as a short one.

use schedule::{ReplayFault, Text, ToWriter, Verdict, judge_trace, replay};
use std::alloc::{AllocError, Global};
use std::io::Cursor;
use std::test::Fail;
use test_support::memory_limit::{PIECES, ScarceMemory};

const TORN: &str =
    "rme 1 procs 1 limit 10 cap 2\nlock 0\nstep 0 8\nappend 0 1 77\nstep 0 7\ncrash 0\nlock 0\nstep 0 4\nconsistent 0\nstep 0 11\nappend 0 1 77\nstep 0 3\n";

const REPORT: &str =
    "begin 0\nready 0\nenter 0\nanswer 0 clean\ncommit 0 1 77\ncrash 0\nreenter 0\nanswer 0 owner-died\nshow 0 0 1 77\nanswer 0 mended\nanswer 0 already\nwords 0 0 1 1\nmail 1 closed 0 ruined 0\nmessage 0 0 1 77\nverdict fine\n";

const IN_ORDER: &[u8] = b"trace 1 procs 2 cap 1
begin 0
ready 0
begin 1
ready 1
enter 0
";

/// The verdict of this trace. None: of a replay of `TORN` into a buffer that is already there, which has `REPORT`.
fn verdict_of(alloc: Global, trace: Option<&[u8]>) -> Result<Verdict, ReplayFault> {
    if let Some(text) = trace {
        return judge_trace(alloc, &mut Text::new(text, 512));
    }
    let mut printed = [0u8; 512];
    let mut source = Text::new(TORN.as_bytes(), 64);
    let mut sink = ToWriter::new(Cursor::new(printed.as_mut_slice()));
    let verdict = replay(alloc, &mut source, &mut sink)?;
    drop(sink);
    if printed.starts_with(REPORT.as_bytes()) {
        return Ok(verdict);
    }
    Err(ReplayFault::Write)
}

/// How many requests for memory are refused in a row until the verdict is fine. None: it never is.
fn refusals(alloc: Global, trace: Option<&[u8]>) -> Result<Option<u64>, AllocError> {
    let mut scarce_memory = ScarceMemory::new(alloc)?;
    let mut refused = 0u64;
    for _ in 0..PIECES {
        match verdict_of(alloc, trace) {
            Ok(Verdict::Fine) => return Ok(Some(refused)),
            Err(ReplayFault::OutOfMemory) => {}
            _ => break,
        }
        refused = refused.saturating_add(1);
        scarce_memory.give_back();
    }
    Ok(None)
}

#[test]
fn a_replay_and_a_long_trace(rt: HostRuntime) -> Result<(), Fail> {
    let alloc = rt.alloc();
    let replayed = refusals(alloc, None)?;
    assert!(rt; replayed.is_some() && replayed != Some(0));

    let mut long = Vec::new(alloc);
    long.extend_from_slice(IN_ORDER)?;
    for _ in 0..10_000 {
        long.extend_from_slice(b"crash 0\n")?;
    }
    let few = refusals(alloc, Some(IN_ORDER))?;
    let many = refusals(alloc, Some(&long))?;
    assert!(rt; few.is_some() && few != Some(0) && many == few);
    Ok(())
}
