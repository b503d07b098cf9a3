//! Where progress is shown.

ghost use Rattle.std.specs.Prelude.{◌≡◌, Bool, true, false, not, None};

use std::io::Write;
use std::time::Clock;

/// Where progress is shown: one line, which the next line overwrites.
pub trait Screen {
    /// nothing is shown
    ghost is_dark: { Self → Bool };

    /// The milliseconds of a monotonic clock; none if nothing is shown or the clock can't be read.
    fn millis(&self) -> Option<u64>
        ensures { is_dark self.now ≡ true → result ≡ None };

    /// Shows a text. A text that can't be shown is dropped.
    fn show(&mut self, text: &str)
        ensures { is_dark self.new ≡ is_dark self.old };
}

/// Shows nothing.
#[derive(Clone, Copy, Debug, PartialEq, Eq)]
pub struct NoScreen;

impl Screen for NoScreen {
    ghost is_dark = { λ _. true };

    fn millis(&self) -> Option<u64> {
        None
    }

    fn show(&mut self, _text: &str) {}
}

/// A writer that may be a terminal, with a clock. If it isn't a terminal, nothing is written.
#[derive(Drop)]
pub struct Terminal<'a, C, E> {
    clock: &'a C,
    pub errors: E,
    pub is_terminal: bool,
}

impl<'a, C, E> Terminal<'a, C, E> {
    /// `is_terminal`: whether the writer is a terminal.
    pub fn new(clock: &'a C, errors: E, is_terminal: bool) -> Terminal<'a, C, E>
        ensures errors { result.errors ≡ errors }
        ensures is_terminal { result.is_terminal ≡ is_terminal }
    {
        Terminal {
            clock,
            errors,
            is_terminal,
        }
    }
}

impl<'a, C: Clock, E: Write> Screen for Terminal<'a, C, E> {
    ghost is_dark = { λ t. not t.is_terminal };

    fn millis(&self) -> Option<u64> {
        if !self.is_terminal {
            return None;
        }
        match self.clock.monotonic() {
            Ok(time) => u64::try_from(time.as_millis()).ok(),
            Err(_) => None,
        }
    }

    fn show(&mut self, text: &str)
        ensures kept { self.new.is_terminal ≡ self.old.is_terminal }
        ensures dark { self.old.is_terminal ≡ false → self.new ≡ self.old }
    {
        if self.is_terminal {
            let _ = self.errors.write_all(text.as_bytes());
        }
    }
}
