//! Readers and writers that fail once, at every place, and texts that end too early.

use crate::texts::everything::{REPORT as EVERYTHING_REPORT, SCHEDULE as EVERYTHING};
use crate::texts::kit::early;
use schedule::{FromReader, Page, ReplayFault, Text, ToWriter, Verdict, judge_trace, replay};
use std::alloc::Global;
use std::io;
use std::io::{ErrorKind, Read, Write};

pub const TORN: &[u8] = b"rme 1 procs 1 limit 10 cap 2
lock 0
step 0 8
append 0 1 77
step 0 7
crash 0
lock 0
step 0 4
consistent 0
step 0 11
append 0 1 77
step 0 3
";

pub const REPORT: &[u8] = b"begin 0
ready 0
enter 0
answer 0 clean
commit 0 1 77
crash 0
reenter 0
answer 0 owner-died
show 0 0 1 77
answer 0 mended
answer 0 already
words 0 0 1 1
mail 1 closed 0 ruined 0
message 0 0 1 77
verdict fine
";

/// Gives a text in pieces, and fails at the read `at`.
#[derive(Drop)]
struct Pieces<'a> {
    left: &'a [u8],
    at: u64,
    reads: u64,
}

impl Read for Pieces<'_> {
    fn read(&mut self, buf: &mut [u8]) -> io::Result<usize> {
        self.reads = self.reads.saturating_add(1);
        if self.reads == self.at {
            return Err(io::Error::from(ErrorKind::Interrupted));
        }
        let n = self.left.len().min(40).min(buf.len());
        buf[..n].copy_from_slice(&self.left[..n]);
        self.left = &self.left[n..];
        Ok(n)
    }
}

/// Adds to a text at most `most` bytes a write, and fails at the write `at`, or takes nothing there. Its flush may fail.
#[derive(Drop)]
struct Lines<'a> {
    text: &'a mut Vec<u8>,
    at: u64,
    takes_none: bool,
    most: usize,
    is_flushed: bool,
    writes: u64,
}

impl Write for Lines<'_> {
    fn write(&mut self, bytes: &[u8]) -> io::Result<usize> {
        self.writes = self.writes.saturating_add(1);
        if self.writes == self.at {
            if self.takes_none {
                return Ok(0);
            }
            return Err(io::Error::from(ErrorKind::Other));
        }
        let n = bytes.len().min(self.most);
        self.text.extend_from_slice(&bytes[..n])?;
        Ok(n)
    }

    fn flush(&mut self) -> io::Result<()> {
        if self.is_flushed {
            return Ok(());
        }
        Err(io::Error::from(ErrorKind::Other))
    }
}

/// Two schedules with their reports: one whose append is torn and mended, and the longest one.
const ROWS: [(&[u8], &[u8]); 2] = [(TORN, REPORT), (EVERYTHING, EVERYTHING_REPORT)];

/// Whether a replay whose read `at` fails has this answer and writes just this.
fn reads_to(
    alloc: Global,
    text: &[u8],
    at: u64,
    written: &[u8],
    answer: Result<Verdict, ReplayFault>,
) -> bool {
    let pieces = Pieces {
        left: text,
        at,
        reads: 0,
    };
    let mut page = Page::new(alloc);
    replay(alloc, &mut FromReader::new(pieces), &mut page) == answer && page.as_slice() == written
}

/// Whether the beginning of a text gives the report of its lines, or the fault of the last one.
fn begins(alloc: Global, text: &[u8]) -> bool {
    let mut page = Page::new(alloc);
    let answer = replay(alloc, &mut Text::new(text, 512), &mut page);
    match early(text) {
        None => answer == Ok(Verdict::Fine) && page.as_slice().ends_with(b"\nverdict fine\n"),
        Some(fault) => answer == Err(fault) && page.as_slice().is_empty(),
    }
}

/// Nothing is written where a read of a text fails, whichever it is, or the text ends too early. To fail one read more than there are
/// changes nothing. So it is with a trace.
#[test]
fn a_read_fails(rt: HostRuntime) {
    let alloc = rt.alloc();
    for (text, report) in ROWS {
        // Pieces of 40 bytes, the last of them shorter, and the read that answers the end.
        let reads = text.len() as u64 / 40 + 2;
        for at in 1..reads + 1 {
            let fails = reads_to(alloc, text, at, b"", Err(ReplayFault::Read));
            assert!(rt; fails, "read {at} of {reads}");
        }
        assert!(rt; reads_to(alloc, text, reads + 1, report, Ok(Verdict::Fine)));
        for end in 0..text.len() {
            assert!(rt; begins(alloc, &text[..end]), "{end} bytes");
        }
    }
    let text = b"trace 1 procs 1 cap 1\nbegin 0\nready 0\nenter 0\nleave 0\nbegin 0\nquit 0\n";
    for at in 1..5u64 {
        let pieces = Pieces {
            left: text,
            at,
            reads: 0,
        };
        let answer = judge_trace(alloc, &mut FromReader::new(pieces));
        let wanted = if at < 4 {
            Err(ReplayFault::Read)
        } else {
            Ok(Verdict::Fine)
        };
        assert!(rt; answer == wanted, "read {at} of the trace");
    }
}

/// What a replay answers whose write `at` fails, or takes nothing, and how much of the report it writes. None: it writes something
/// else.
fn written_to(
    alloc: Global,
    schedule: &[u8],
    report: &[u8],
    at: u64,
    takes_none: bool,
) -> Option<(Result<Verdict, ReplayFault>, usize)> {
    let mut text = Vec::new(alloc);
    let lines = Lines {
        text: &mut text,
        at,
        takes_none,
        most: if at == 0 { usize::MAX } else { 5 },
        is_flushed: at > 0,
        writes: 0,
    };
    let answer = replay(
        alloc,
        &mut Text::new(schedule, 512),
        &mut ToWriter::new(lines),
    );
    if report.starts_with(&text) {
        Some((answer, text.len()))
    } else {
        None
    }
}

/// Fails each write of a report once, until there is no such write. It fails in two ways.
pub fn writes_fail(alloc: Global, schedule: &[u8], report: &[u8]) -> bool {
    for at in 1..10_000u64 {
        let failed = written_to(alloc, schedule, report, at, false);
        if written_to(alloc, schedule, report, at, true) != failed {
            return false;
        }
        match failed {
            Some((Err(ReplayFault::Write), length)) if length < report.len() => {}
            // No write takes more than five bytes.
            Some((Ok(Verdict::Fine), length)) => {
                return length == report.len() && at > report.len() as u64 / 5;
            }
            _ => return false,
        }
    }
    false
}

/// Each write fails. A replay has written all where the flush at its end fails, also the replay of a schedule that is refused.
#[test]
fn a_write_fails(rt: HostRuntime) {
    for (schedule, report) in ROWS {
        assert!(rt; writes_fail(rt.alloc(), schedule, report));
    }
    let refused = b"rme 1 procs 1 limit 10 cap 2\nlock 0\nstep 0 3\nunlock 0\n";
    let refused_later = b"rme 1 procs 1 limit 10 cap 2\nlock 0\nstep 0 4\nunlock 0\n";
    for (schedule, written) in [
        ROWS[0],
        ROWS[1],
        (refused.as_slice(), b"".as_slice()),
        (refused_later.as_slice(), b"begin 0\n".as_slice()),
    ] {
        let answer = written_to(rt.alloc(), schedule, written, 0, false);
        assert!(rt; answer == Some((Err(ReplayFault::Write), written.len())));
    }
}
