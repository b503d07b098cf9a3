//! The progress of a search or a hunt, shown once a second.

ghost use Rattle.std.specs.Prelude.{◌≡◌, ◌*◌, ◌/◌, ◌^◌, ◌-◌, min, max};

use crate::progress::line::line_of;
use crate::progress::screen::Screen;
use crate::progress::work::Work;
use explorer::Watch;

/// The clock is read at one in this many reports of progress.
const SELDOM: u64 = 64;

/// The milliseconds between two lines.
const PAUSE: u64 = 1_000;

/// Shows a line once a second, the first one after a second.
#[derive(Drop)]
pub struct Meter<'a, S> {
    screen: &'a mut S,
    work: Work,
    /// The clock's milliseconds when the work began; none if nothing is shown.
    began: Option<u64>,
    /// The clock's milliseconds when the last line was shown, or when the work began.
    last: u64,
    reports: u64,
    is_written: bool,
}

impl<'a, S: Screen> Meter<'a, S> {
    /// Starts the clock of this work.
    pub fn new(screen: &'a mut S, work: Work) -> Meter<'a, S> {
        let began = screen.millis();
        Meter {
            screen,
            work,
            began,
            last: began.unwrap_or(0),
            reports: 0,
            is_written: false,
        }
    }

    /// Ends the work: the line is cleared.
    pub fn end(self) {
        if self.is_written {
            self.screen.show("\r\x1b[K");
        }
    }

    /// Shows the line, if a second has passed since the last one.
    fn show(&mut self, began: u64, far: u64, done: u64) {
        let Some(now) = self.screen.millis() else {
            return;
        };
        if now.saturating_sub(self.last) < PAUSE {
            return;
        }
        let speed = per_second(done, now.saturating_sub(began));
        let line = line_of(self.work, far, done, speed);
        self.screen.show(line.as_str());
        self.last = now;
        self.is_written = true;
    }
}

impl<'a, S: Screen> Watch for Meter<'a, S> {
    fn see(&mut self, far: u64, done: u64) {
        let Some(began) = self.began else {
            return;
        };
        self.reports = self.reports.wrapping_add(1);
        if self.reports % SELDOM == 0 {
            self.show(began, far, done);
        }
    }
}

/// How many per second, if `done` took this many milliseconds. A time of 0 counts as 1 ms.
fn per_second(done: u64, millis: u64) -> u64
    ensures { result ≡ min (done * 1000) (2 ^ 64 - 1) / max millis 1 }
{
    done.saturating_mul(1_000) / millis.max(1)
}
