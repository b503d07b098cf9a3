//! Whole invocations of other kinds: senders, a hunt, the version, and words that are refused.

use crate::support::invocation::comes_to;
use crate::support::row::ProgramRow;
use cli::arguments::words::words_given;
use commands::CommandFault;
use commands::program::close;
use schedule::Page;
use std::env::FillError;
use std::rt::Env;
use std::test::Fail;

/// A bad variant is found before a bad size.
pub const REPORTS_AND_REFUSALS: &str = "
@row rmelab run --procs 1 --messages 1 --crash 0 --seed 1 @out
sender 0 messages 1 twice 0 order yes
total 1
@row rmelab hunt --variant right --seed 1 --rounds 1 --steps 1 @out
nothing found
@row rmelab --version @out
rmelab 0.1.0
@row rmelab -V @out
rmelab 0.1.0
@row rmelab run --procs 1 --messages 1 --crash 0 --seed 1 @fails write @ends 3 @err
rmelab: write failed
@row rmelab hunt --variant right --seed 1 --rounds 1 --steps 1 @fails write @ends 3 @err
rmelab: write failed
@row rmelab --help @fails write @ends 3 @err
rmelab: write failed
@row rmelab hunt --variant wrong --seed 1 --rounds 0 --steps 1 @ends 2 @err
rmelab: bad variant
@row rmelab run --procs 0 --messages 1 --crash 0 --seed 1 @ends 2 @err
rmelab: bad size
@row rmelab run --procs 17 --messages 1 --crash 0 --seed 1 @ends 2 @err
rmelab: bad size
@row rmelab run --procs 1 --messages 0 --crash 0 --seed 1 @ends 2 @err
rmelab: bad size
@row rmelab run --procs 1 --messages 4097 --crash 0 --seed 1 @ends 2 @err
rmelab: bad size
@row rmelab run --procs 1 --messages 1 --crash 51 --seed 1 @ends 2 @err
rmelab: bad size
@row rmelab run --procs 1 --messages 1 --crash 0 --seed 1 --width 0 @ends 2 @err
rmelab: bad size
@row rmelab run --procs 1 --messages 1 --crash 0 --seed 1 --width 9 @ends 2 @err
rmelab: bad size
@row rmelab hunt --variant right --seed 1 --rounds 0 --steps 1 @ends 2 @err
rmelab: bad size
@row rmelab hunt --variant right --seed 1 --rounds 1 --steps 1 --system-crashes 1001 @ends 2 @err
rmelab: bad size
@row rmelab hunt --variant no-look --seed 1 --rounds 20 --steps 1000 --system-crashes 1000 @out
nothing found
";

const MEMBER_3_FAILED: &str = "rmelab: member 3 failed\n";

/// The words of a process. The second one isn't UTF-8 text.
#[derive(Drop)]
struct BadWords;

impl Env for BadWords {
    fn arg(&self, i: usize, buf: &mut [u8]) -> Result<usize, FillError> {
        let word = match i {
            0 => b"rmelab",
            1 => b"re\xfflay",
            _ => return Err(FillError::NotPresent),
        };
        if buf.len() < word.len() {
            return Err(FillError::TooLong);
        }
        buf[..word.len()].copy_from_slice(word);
        Ok(word.len())
    }

    fn var(&self, _name: &str, _buf: &mut [u8]) -> Result<usize, FillError> {
        Err(FillError::NotPresent)
    }

    fn var_at(&self, _i: usize, _buf: &mut [u8]) -> Result<usize, FillError> {
        Err(FillError::NotPresent)
    }
}

const NO_TEXT: &str =
    "error: invalid UTF-8 was detected in one or more arguments\n\nFor more information, try '--help'.\n";

/// No command line makes a member of a lab fail. So the end of a command is tested by itself, where each fault is reported. And
/// the words of a process may be no text.
#[test]
fn a_member_that_fails_and_words_that_are_no_text(rt: HostRuntime) -> Result<(), Fail> {
    let mut page = Page::new(rt.alloc());
    let status = close(Err(CommandFault::Member { p: 3 }), &mut page);
    assert!(rt; status == 3 && page.as_slice() == MEMBER_3_FAILED.as_bytes());

    let words = words_given(&(BadWords, rt.alloc()));
    let row = ProgramRow {
        reports: NO_TEXT,
        status: 2,
        ..ProgramRow::new("words that are no text")
    };
    comes_to(&rt, rt.alloc(), words, &row)
}
