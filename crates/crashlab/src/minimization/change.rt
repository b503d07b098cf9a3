//! A large change of a schedule.

ghost use Rattle.std.specs.Prelude.{◌≡◌, IfSome, IsTrue};
ghost use Rattle.crashlab.specs.minimization.MadeOf.{is_line_of as concerns, process_in};

use schedule::{Count, Line};

/// Which lines go, and which take their place. A range of lines ends before `to`.
#[derive(Clone, Copy)]
pub enum Removal {
    /// These lines go.
    LeaveOut {
        from: usize,
        to: usize,
    },
    /// The lines of one process in this range go.
    Silence {
        process: u64,
        from: usize,
        to: usize,
    },
    /// The count of a line is lowered by `by`.
    Lower {
        at: usize,
        by: u64,
    },
    /// Two lines of steps become one, in the place of one of them.
    Gather {
        first: usize,
        second: usize,
        at: usize,
        line: Line,
    },
}

/// The process of a line. None where it is one of all processes.
pub fn process_of(line: &Line) -> Option<u64>
    ensures { result ≡ process_in line.now }
{
    match *line {
        Line::Start(p, _) | Line::Step(p, _) | Line::Crash(p) => Some(p),
        Line::CrashAll => None,
    }
}

/// Whether a line is one of this process. A crash of all is one of each.
pub fn is_line_of(process: u64, line: &Line) -> bool
    ensures line { result ≡ concerns process line.now }
    ensures process { IsTrue result → IfSome (process_in line.now) (λ p. p ≡ process) }
{
    match process_of(line) {
        Some(p) => process == p,
        None => true,
    }
}

/// Two lines of steps of one process as one line. None for other lines, or where the count is too great.
pub fn both(first: &Line, second: &Line) -> Option<Line> {
    match (first, second) {
        (Line::Step(p, m), Line::Step(q, n)) if p == q => {
            Some(Line::Step(*p, Count::new(m.get() + n.get())?))
        }
        _ => None,
    }
}

/// The line with its count lowered by `by`. A line stays where it has no count, or where nothing would be left.
fn lower(line: &Line, by: u64) -> Line {
    let Line::Step(p, count) = *line else {
        return *line;
    };
    match Count::new(count.get().saturating_sub(by)) {
        Some(less) => Line::Step(p, less),
        None => *line,
    }
}

impl Removal {
    /// The line in the place of line number `index`. None where that line goes.
    pub fn replacement(&self, index: usize, line: &Line) -> Option<Line> {
        match *self {
            Removal::LeaveOut { from, to } if from <= index && index < to => None,
            Removal::Silence { process, from, to }
                if from <= index && index < to && process_of(line) == Some(process) => None,
            Removal::Lower { at, by } if index == at => Some(lower(line, by)),
            Removal::Gather { at, line, .. } if index == at => Some(line),
            Removal::Gather { first, second, .. } if index == first || index == second => None,
            _ => Some(*line),
        }
    }
}
