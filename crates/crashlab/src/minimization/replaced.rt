//! Schedules with the sizes of another.

ghost use Rattle.std.specs.Prelude.{◌≡◌, ◌<◌, ◌++◌, [], IfOk, OnOk, length};
ghost use Rattle.crashlab.specs.minimization.Least.{with_lines, with_lines_at};

use schedule::{Line, OutOfMemory, Schedule};
use std::alloc::Global;

/// Adds lines.
fn put_lines(schedule: &mut Schedule, lines: &[Line]) -> Result<(), OutOfMemory>
    ensures { OnOk result (schedule.new ≡ with_lines schedule.old (schedule.old.lines ++ lines.now)) }
{
    for line in lines {
        if schedule.push(*line).is_err() {
            return Err(OutOfMemory);
        }
    }
    Ok(())
}

/// A schedule of the same sizes without lines.
pub fn without_lines(alloc: Global, schedule: &Schedule) -> Result<Schedule, OutOfMemory>
    ensures { IfOk result (λ empty. empty ≡ with_lines schedule.now []) }
{
    let head = schedule.head();
    match Schedule::new(alloc, head.procs, head.limit, head.cap, head.width) {
        Ok(empty) => Ok(empty),
        Err(_) => Err(OutOfMemory),
    }
}

/// A copy of the schedule.
pub fn copy_of(alloc: Global, schedule: &Schedule) -> Result<Schedule, OutOfMemory>
    ensures { IfOk result (λ copy. copy ≡ schedule.now) }
{
    let mut copy = without_lines(alloc, schedule)?;
    put_lines(&mut copy, schedule.lines())?;
    Ok(copy)
}

/// The schedule with line `at` replaced by these.
pub fn with_replaced(
    alloc: Global,
    schedule: &Schedule,
    at: usize,
    new: &[Line],
) -> Result<Schedule, OutOfMemory>
    requires { at < length schedule.now.lines }
    ensures { IfOk result (λ changed. changed ≡ with_lines_at at new.now schedule.now) }
{
    let lines = schedule.lines();
    let mut changed = without_lines(alloc, schedule)?;
    put_lines(&mut changed, &lines[..at])?;
    put_lines(&mut changed, new)?;
    put_lines(&mut changed, &lines[at + 1..])?;
    Ok(changed)
}
