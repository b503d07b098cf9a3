//! The length of a schedule.

ghost use Rattle.std.specs.Prelude.{◌≡◌, IfSome, IsTrue};
ghost use Rattle.crashlab.specs.minimization.Least.{steps_asked as steps_in, IsNoLonger};

use schedule::{Line, Schedule};

/// The number of steps that the lines ask for. None where it takes more than 64 bits.
fn steps_asked(lines: &[Line]) -> Option<u64>
    ensures { IfSome result (λ steps. steps ≡ steps_in lines.now) }
{
    let mut sum = 0u64;
    for line in lines {
        if let Line::Step(_, count) = line {
            sum = sum.checked_add(count.get())?;
        }
    }
    Some(sum)
}

/// Whether a schedule has the sizes of another, and no more lines or steps. False also where the steps can't be counted.
pub fn is_no_longer(now: &Schedule, before: &Schedule) -> bool
    ensures { IsTrue result → IsNoLonger before.now now.now }
{
    if now.head() != before.head() || now.lines().len() > before.lines().len() {
        return false;
    }
    match (steps_asked(now.lines()), steps_asked(before.lines())) {
        (Some(fewer), Some(steps)) => fewer <= steps,
        _ => false,
    }
}
