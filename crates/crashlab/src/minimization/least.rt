//! Changes by one: a line is left out, or a count is lowered by one.

ghost use Rattle.std.specs.Prelude.{◌≡◌, ◌<◌, ◌∷◌, [], IfOk, OnOk, MatchOption, length};
ghost use Rattle.schedule.specs.declared.lines.line.Line.{Line as LineOf};
ghost use Rattle.crashlab.specs.minimization.Least.{IsMinimal, IsSmaller, IsLowered, IsNeeded, IsShorter, IsShrunk, Loses, with_lines_at};

use crate::minimization::oracle::Oracle;
use crate::minimization::replaced::with_replaced;
use schedule::{Count, Line, OutOfMemory, Schedule};
use std::alloc::Global;

/// The schedule with line `at` replaced by these, if it still goes wrong.
fn try_lines<O: Oracle>(
    alloc: Global,
    oracle: &mut O,
    schedule: &Schedule,
    at: usize,
    new: &[Line],
) -> Result<Option<Schedule>, OutOfMemory>
    requires within { at < length schedule.now.lines }
    requires shorter { IsShorter schedule.now (with_lines_at at new.now schedule.now) }
    ensures found { IfOk result (λ found. MatchOption found
        (Loses (O.is_wrong (O.criterion_of oracle.old)) (with_lines_at at new.now schedule.now))
        (IsSmaller (O.is_wrong (O.criterion_of oracle.old)) schedule.now)) }
    ensures same { OnOk result (O.criterion_of oracle.new ≡ O.criterion_of oracle.old) }
{
    let changed = with_replaced(alloc, schedule, at, new)?;
    if oracle.goes_wrong(&changed)? {
        return Ok(Some(changed));
    }
    Ok(None)
}

/// The line of this number with its count lowered by one. None where it has no count, or a count of one.
fn lower_count(lines: &[Line], at: usize) -> Option<Line>
    requires { at < length lines.now }
    ensures { MatchOption result ((less : LineOf) → IsLowered lines.now at less → ⊥) (IsLowered lines.now at) }
{
    match lines[at] {
        Line::Step(p, count) => Some(Line::Step(p, Count::new(count.get() - 1)?)),
        _ => None,
    }
}

/// The schedule without this line, or else with its count lowered by one, if it still goes wrong.
fn less_at<O: Oracle>(
    alloc: Global,
    oracle: &mut O,
    schedule: &Schedule,
    at: usize,
) -> Result<Option<Schedule>, OutOfMemory>
    requires { at < length schedule.now.lines }
    ensures found { IfOk result (λ found. MatchOption found (IsNeeded (O.is_wrong (O.criterion_of oracle.old)) schedule.now at)
        (IsSmaller (O.is_wrong (O.criterion_of oracle.old)) schedule.now)) }
    ensures same { OnOk result (O.criterion_of oracle.new ≡ O.criterion_of oracle.old) }
{
    if let Some(found) = try_lines(alloc, oracle, schedule, at, &[])? {
        return Ok(Some(found));
    }
    match lower_count(schedule.lines(), at) {
        Some(line) => try_lines(alloc, oracle, schedule, at, &[line]),
        None => Ok(None),
    }
}

/// A schedule that is smaller by one such change and still goes wrong. None where there is no such schedule.
fn find_smaller<O: Oracle>(
    alloc: Global,
    oracle: &mut O,
    schedule: &Schedule,
) -> Result<Option<Schedule>, OutOfMemory>
    ensures found { IfOk result (λ found. MatchOption found (IsMinimal (O.is_wrong (O.criterion_of oracle.old)) schedule.now)
        (IsSmaller (O.is_wrong (O.criterion_of oracle.old)) schedule.now)) }
    ensures same { OnOk result (O.criterion_of oracle.new ≡ O.criterion_of oracle.old) }
{
    for at in 0..schedule.lines().len() {
        if let Some(found) = less_at(alloc, oracle, schedule, at)? {
            return Ok(Some(found));
        }
    }
    Ok(None)
}

/// Makes such changes until none is left.
pub fn make_least<O: Oracle>(
    alloc: Global,
    oracle: &mut O,
    schedule: Schedule,
) -> Result<Schedule, OutOfMemory>
    requires { O.is_wrong (O.criterion_of oracle.old) schedule }
    ensures { IfOk result (IsShrunk (O.is_wrong (O.criterion_of oracle.old)) schedule) }
{
    let mut now = schedule;
    while let Some(found) = find_smaller(alloc, oracle, &now)? {
        now = found;
    }
    Ok(now)
}
