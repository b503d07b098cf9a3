//! What is wrong with a line.

ghost use Rattle.std.specs.Prelude.{◌≡◌};

use std::fmt;

/// What is wrong with a line.
#[derive(Clone, Copy, Debug, PartialEq, Eq)]
pub enum LineFault {
    /// The text is empty, or a fixed word of its first line is missing or another.
    NoHeader,
    /// The first word is no command of a schedule, or no deed of a trace.
    BadWord,
    /// A number is missing, has a leading zero or a byte that is no digit, or is too small.
    BadNumber,
    /// A number is too great.
    TooBig,
    /// The line has no LF at its end.
    NoNewline,
    /// Text follows the last word of the line.
    TrailingText,
}

impl LineFault {
    ghost use Rattle.schedule.specs.Numbers.{number_of};

    /// Its number, from 1 to 6, as `ReplayFault::Text` has it.
    pub fn number(self) -> u64
        ensures { result ≡ number_of self }
    {
        match self {
            LineFault::NoHeader => 1,
            LineFault::BadWord => 2,
            LineFault::BadNumber => 3,
            LineFault::TooBig => 4,
            LineFault::NoNewline => 5,
            LineFault::TrailingText => 6,
        }
    }
}

impl fmt::Display for LineFault {
    fn fmt<W: fmt::Write>(&self, f: &mut fmt::Formatter<W>) -> fmt::Result {
        let text = match self {
            LineFault::NoHeader => "no header",
            LineFault::BadWord => "no command",
            LineFault::BadNumber => "no number",
            LineFault::TooBig => "too great a number",
            LineFault::NoNewline => "no newline",
            LineFault::TrailingText => "trailing text",
        };
        f.write_str(text)
    }
}

impl std::error::Error for LineFault {}
