//! The progress line, in a buffer of fixed size.

ghost use Rattle.std.specs.Prelude.{◌≡◌, ◌+◌, ◌≤◌, ◌++◌, length};
ghost use Rattle.std.specs.Fmt.{decimal};
ghost use Rattle.command_parts.specs.Shown.{hunt_line as line_of_hunt, line_shown, search_line as line_of_search};

use crate::progress::work::Work;
use arrayvec::ArrayString;
use itoa::Buffer;

/// Appends a number and then a text to a line.
fn put(line: &mut ArrayString<128>, number: u64, text: &str)
    requires { length line.old.bytes + length text.now + 20 ≤ 128 }
    ensures bytes { line.new.bytes ≡ line.old.bytes ++ decimal number ++ text.now }
    ensures few { length line.new.bytes ≤ length line.old.bytes + length text.now + 20 }
{
    line.push_str(Buffer::new().format(number));
    line.push_str(text);
}

/// The progress line of a search.
fn search_line(moves: u64, states: u64, speed: u64) -> ArrayString<128>
    ensures { result.bytes ≡ line_of_search moves states speed }
{
    let mut line = ArrayString::new();
    line.push_str("\r");
    put(&mut line, states, " states, ");
    put(&mut line, moves, " moves deep, ");
    put(&mut line, speed, " states a second");
    line.push_str("\x1b[K");
    line
}

/// The progress line of a hunt.
fn hunt_line(rounds: u64, moves: u64, speed: u64) -> ArrayString<128>
    ensures { result.bytes ≡ line_of_hunt rounds moves speed }
{
    let mut line = ArrayString::new();
    line.push_str("\r");
    put(&mut line, rounds, " rounds, ");
    put(&mut line, moves, " moves, ");
    put(&mut line, speed, " moves a second");
    line.push_str("\x1b[K");
    line
}

/// The progress line: how far the work has got, how much is done, and how much a second.
pub(crate) fn line_of(work: Work, far: u64, done: u64, speed: u64) -> ArrayString<128>
    ensures { result.bytes ≡ line_shown work far done speed }
{
    match work {
        Work::Search => search_line(far, done, speed),
        Work::Hunt => hunt_line(far, done, speed),
    }
}
