//! Large changes, so that few changes by one are left. Nothing is proved of them: their result is played once more.

ghost use Rattle.std.specs.Prelude.{◌≡◌, ◌<◌, OnOk};

use crate::minimization::change::{Removal, both, is_line_of, process_of};
use crate::minimization::oracle::Oracle;
use crate::minimization::replaced::{copy_of, without_lines};
use schedule::{Line, OutOfMemory, Schedule};
use std::alloc::Global;

/// The schedule with a change.
fn with_change(
    alloc: Global,
    schedule: &Schedule,
    change: &Removal,
) -> Result<Schedule, OutOfMemory> {
    let mut changed = without_lines(alloc, schedule)?;
    for (index, line) in schedule.lines().iter().enumerate() {
        if let Some(line) = change.replacement(index, line) {
            if changed.push(line).is_err() {
                return Err(OutOfMemory);
            }
        }
    }
    Ok(changed)
}

/// Makes a change, if the schedule still goes wrong with it. Answers whether the change was made.
fn make<O: Oracle>(
    alloc: Global,
    oracle: &mut O,
    schedule: &mut Schedule,
    change: Removal,
) -> Result<bool, OutOfMemory>
    ensures { OnOk result (O.criterion_of oracle.new ≡ O.criterion_of oracle.old) }
{
    let changed = with_change(alloc, schedule, &change)?;
    let wrong = oracle.goes_wrong(&changed)?;
    if wrong {
        *schedule = changed;
    }
    Ok(wrong)
}

/// Leaves out `size` lines at a time, from the end on.
fn sweep<O: Oracle>(
    alloc: Global,
    oracle: &mut O,
    schedule: &mut Schedule,
    size: usize,
) -> Result<(), OutOfMemory>
    requires { 0 < size }
    ensures { OnOk result (O.criterion_of oracle.new ≡ O.criterion_of oracle.old) }
{
    let mut to = schedule.lines().len();
    while to > 0 {
        let from = to.saturating_sub(size);
        make(alloc, oracle, schedule, Removal::LeaveOut { from, to })?;
        to = from;
    }
    Ok(())
}

/// Leaves out ranges of lines, each time half as long.
fn sweep_all<O: Oracle>(
    alloc: Global,
    oracle: &mut O,
    schedule: &mut Schedule,
) -> Result<(), OutOfMemory>
    ensures { OnOk result (O.criterion_of oracle.new ≡ O.criterion_of oracle.old) }
{
    let mut size = schedule.lines().len();
    while size > 1 {
        size /= 2;
        sweep(alloc, oracle, schedule, size)?;
    }
    Ok(())
}

/// Leaves out all lines of a process, for each process.
fn silence<O: Oracle>(
    alloc: Global,
    oracle: &mut O,
    schedule: &mut Schedule,
) -> Result<(), OutOfMemory>
    ensures { OnOk result (O.criterion_of oracle.new ≡ O.criterion_of oracle.old) }
{
    for process in 0..schedule.head().procs {
        let to = schedule.lines().len();
        let from = 0;
        make(
            alloc,
            oracle,
            schedule,
            Removal::Silence { process, from, to },
        )?;
    }
    Ok(())
}

/// The next line, from this one on, at which the process starts a call or crashes, alone or with all. The end where there is
/// none.
fn next_turn(lines: &[Line], process: u64, from: usize) -> usize {
    for next in from..lines.len() {
        match lines[next] {
            Line::Start(p, _) | Line::Crash(p) if p == process => return next,
            Line::CrashAll => return next,
            _ => {}
        }
    }
    lines.len()
}

/// Leaves out the lines of this line's process from it on, up to each of the next four starts or crashes of the process.
fn silence_from<O: Oracle>(
    alloc: Global,
    oracle: &mut O,
    schedule: &mut Schedule,
    from: usize,
) -> Result<(), OutOfMemory>
    ensures { OnOk result (O.criterion_of oracle.new ≡ O.criterion_of oracle.old) }
{
    let mut to = from;
    for _ in 0..4 {
        let Some(line) = schedule.lines().get(from) else {
            return Ok(());
        };
        let Some(process) = process_of(line) else {
            return Ok(());
        };
        to = next_turn(schedule.lines(), process, to.saturating_add(1));
        make(
            alloc,
            oracle,
            schedule,
            Removal::Silence { process, from, to },
        )?;
    }
    Ok(())
}

/// Leaves out what a process does in one call, or in a few.
fn silence_calls<O: Oracle>(
    alloc: Global,
    oracle: &mut O,
    schedule: &mut Schedule,
) -> Result<(), OutOfMemory>
    ensures { OnOk result (O.criterion_of oracle.new ≡ O.criterion_of oracle.old) }
{
    for at in (0..schedule.lines().len()).rev() {
        silence_from(alloc, oracle, schedule, at)?;
    }
    Ok(())
}

/// The next line of the same process. None where this one is of all processes.
fn next_of(lines: &[Line], first: usize) -> Option<usize> {
    let process = process_of(lines.get(first)?)?;
    for second in first.saturating_add(1)..lines.len() {
        if is_line_of(process, &lines[second]) {
            return Some(second);
        }
    }
    None
}

/// Makes two lines of steps one line, in the place `at`.
fn gather_into<O: Oracle>(
    alloc: Global,
    oracle: &mut O,
    schedule: &mut Schedule,
    first: usize,
    second: usize,
    at: usize,
) -> Result<bool, OutOfMemory>
    ensures { OnOk result (O.criterion_of oracle.new ≡ O.criterion_of oracle.old) }
{
    let lines = schedule.lines();
    let (Some(before), Some(after)) = (lines.get(first), lines.get(second)) else {
        return Ok(false);
    };
    let Some(line) = both(before, after) else {
        return Ok(false);
    };
    let change = Removal::Gather {
        first,
        second,
        at,
        line,
    };
    make(alloc, oracle, schedule, change)
}

/// Makes this line and the next of its process one, in the place of the first, else of the second.
fn gather_at<O: Oracle>(
    alloc: Global,
    oracle: &mut O,
    schedule: &mut Schedule,
    first: usize,
) -> Result<bool, OutOfMemory>
    ensures { OnOk result (O.criterion_of oracle.new ≡ O.criterion_of oracle.old) }
{
    let Some(second) = next_of(schedule.lines(), first) else {
        return Ok(false);
    };
    if gather_into(alloc, oracle, schedule, first, second, first)? {
        return Ok(true);
    }
    gather_into(alloc, oracle, schedule, first, second, second)
}

/// Makes two lines of steps one, wherever no other line of their process is between them.
fn gather<O: Oracle>(
    alloc: Global,
    oracle: &mut O,
    schedule: &mut Schedule,
) -> Result<(), OutOfMemory>
    ensures { OnOk result (O.criterion_of oracle.new ≡ O.criterion_of oracle.old) }
{
    for first in (0..schedule.lines().len()).rev() {
        gather_at(alloc, oracle, schedule, first)?;
    }
    Ok(())
}

/// Lowers each count by `by`, where something is left.
fn lower<O: Oracle>(
    alloc: Global,
    oracle: &mut O,
    schedule: &mut Schedule,
    by: u64,
) -> Result<(), OutOfMemory>
    ensures { OnOk result (O.criterion_of oracle.new ≡ O.criterion_of oracle.old) }
{
    for at in 0..schedule.lines().len() {
        if let Some(Line::Step(_, count)) = schedule.lines().get(at) {
            if count.get() > by {
                make(alloc, oracle, schedule, Removal::Lower { at, by })?;
            }
        }
    }
    Ok(())
}

/// Lowers counts, each time by half as much.
fn lower_all<O: Oracle>(
    alloc: Global,
    oracle: &mut O,
    schedule: &mut Schedule,
) -> Result<(), OutOfMemory>
    ensures { OnOk result (O.criterion_of oracle.new ≡ O.criterion_of oracle.old) }
{
    let mut by = 1_000_000;
    while by > 1 {
        by /= 2;
        lower(alloc, oracle, schedule, by)?;
    }
    Ok(())
}

/// Makes the large changes of each kind once.
fn shorten_once<O: Oracle>(
    alloc: Global,
    oracle: &mut O,
    schedule: &mut Schedule,
) -> Result<(), OutOfMemory>
    ensures { OnOk result (O.criterion_of oracle.new ≡ O.criterion_of oracle.old) }
{
    silence(alloc, oracle, schedule)?;
    sweep_all(alloc, oracle, schedule)?;
    silence_calls(alloc, oracle, schedule)?;
    gather(alloc, oracle, schedule)?;
    lower_all(alloc, oracle, schedule)?;
    Ok(())
}

/// The schedule with large changes made. It still goes wrong.
pub fn shorten<O: Oracle>(
    alloc: Global,
    oracle: &mut O,
    schedule: &Schedule,
) -> Result<Schedule, OutOfMemory>
    ensures { OnOk result (O.criterion_of oracle.new ≡ O.criterion_of oracle.old) }
{
    let mut now = copy_of(alloc, schedule)?;
    for _ in 0..3 {
        shorten_once(alloc, oracle, &mut now)?;
    }
    Ok(now)
}
