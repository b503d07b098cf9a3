//! Whether one schedule is made of the moves of another.

ghost use Rattle.std.specs.Prelude.{◌≡◌, ◌<◌, ℕ, List, ◌++◌, IfSome, IsTrue};
ghost use Rattle.schedule.specs.declared.lines.line.Line.{Line as LineOf};
ghost use Rattle.crashlab.specs.minimization.MadeOf.{IsSubsequence, steps_by, moves_by, moves_left, moves_of, IsMadeOf};

use crate::minimization::change::is_line_of;
use rmeworld::Call;
use schedule::{Line, Schedule};

/// The number of steps of process p that a line asks for.
fn steps_for(p: u64, line: &Line) -> u64
    ensures { (xs ys : List LineOf) → IsSubsequence xs (steps_by p result ++ ys) → IsSubsequence xs (moves_by p line.now ++ ys) }
{
    match *line {
        Line::Step(q, count) => if q == p { count.get() } else { 0 },
        _ => 0,
    }
}

/// What is left after `wanted` steps of process p, where `steps` steps of it are left and then these lines. None where it
/// makes fewer.
fn take_steps<'a>(p: u64, steps: u64, lines: &'a [Line], wanted: u64) -> Option<(u64, &'a [Line])>
    ensures { IfSome result (λ left. (xs : List LineOf) → IsSubsequence xs (moves_left p left.0 left.1.now)
        → IsSubsequence (steps_by p wanted ++ xs) (moves_left p steps lines.now)) }
{
    let mut steps = steps;
    let mut lines = lines;
    let mut wanted = wanted;
    while wanted > steps {
        wanted -= steps;
        let (first, rest) = lines.split_first()?;
        steps = steps_for(p, first);
        lines = rest;
    }
    Some((steps - wanted, lines))
}

/// Whether two calls are the same.
fn is_same_call(call: &Call, other: &Call) -> bool
    ensures { IsTrue result → call.now ≡ other.now }
{
    match (call, other) {
        (
            Call::Append { seq, value },
            Call::Append {
                seq: other_seq,
                value: other_value,
            },
        ) => { seq == other_seq && value.as_slice() == other_value.as_slice() }
        (Call::Get(index), Call::Get(other_index)) => index == other_index,
        (Call::Put(index, word), Call::Put(other_index, other_word)) => {
            index == other_index && word == other_word
        }
        (Call::Lock, Call::Lock) => true,
        (Call::Unlock, Call::Unlock) => true,
        (Call::Consistent, Call::Consistent) => true,
        (Call::Recover, Call::Recover) => true,
        (Call::Close, Call::Close) => true,
        (Call::Withdraw, Call::Withdraw) => true,
        _ => false,
    }
}

/// Whether two lines are the same start or the same crash, of one process or of all.
fn is_same_move(line: &Line, other: &Line) -> bool
    ensures { IsTrue result → line.now ≡ other.now }
{
    match (line, other) {
        (Line::Start(p, call), Line::Start(q, other_call)) => {
            p == q && is_same_call(call, other_call)
        }
        (Line::Crash(p), Line::Crash(q)) => p == q,
        (Line::CrashAll, Line::CrashAll) => true,
        _ => false,
    }
}

/// The lines after the first of these that is the same as this one. None where there is none.
fn take_line<'a>(p: u64, lines: &'a [Line], wanted: &Line) -> Option<&'a [Line]>
    ensures { IfSome result (λ left. (xs : List LineOf) → IsSubsequence xs (moves_of p left.now)
        → IsSubsequence (moves_by p wanted.now ++ xs) (moves_of p lines.now)) }
{
    let mut lines = lines;
    while let Some((first, rest)) = lines.split_first() {
        lines = rest;
        if is_same_move(first, wanted) {
            return Some(lines);
        }
    }
    None
}

/// What is left after the moves of process p in this line, where `steps` steps of it are left and then these lines. None
/// where they are not there.
fn take<'a>(p: u64, steps: u64, lines: &'a [Line], wanted: &Line) -> Option<(u64, &'a [Line])>
    ensures { IfSome result (λ left. (xs : List LineOf) → IsSubsequence xs (moves_left p left.0 left.1.now)
        → IsSubsequence (moves_by p wanted.now ++ xs) (moves_left p steps lines.now)) }
{
    if !is_line_of(p, wanted) {
        return Some((steps, lines));
    }
    if let Line::Step(_, count) = wanted {
        return take_steps(p, steps, lines, count.get());
    }
    let rest = take_line(p, lines, wanted)?;
    Some((0, rest))
}

/// Whether the moves of process p in these lines are among its moves in those before, in the same order.
fn are_moves_of(p: u64, now: &[Line], before: &[Line]) -> bool
    ensures { IsTrue result → IsSubsequence (moves_of p now.now) (moves_of p before.now) }
{
    let mut steps = 0;
    let mut lines = before;
    for line in now {
        let Some((fewer, rest)) = take(p, steps, lines, line) else {
            return false;
        };
        steps = fewer;
        lines = rest;
    }
    true
}

/// Whether each process makes moves that it makes in the schedule before, in the same order, and no others.
pub fn is_made_of(now: &Schedule, before: &Schedule) -> bool
    ensures { IsTrue result → IsMadeOf before.now now.now }
{
    let procs = before.head().procs;
    for p in 0..procs {
        if !are_moves_of(p, now.lines(), before.lines()) {
            return false;
        }
    }
    true
}
