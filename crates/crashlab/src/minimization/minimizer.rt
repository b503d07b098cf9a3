//! Minimizes a schedule that goes wrong on some world.

ghost use Rattle.std.specs.Prelude.{◌≡◌, IfOk, OnOk};
ghost use Rattle.crashlab.specs.minimization.Least.{IsLike, IsShrunk};

use crate::minimization::large_steps::shorten;
use crate::minimization::least::make_least;
use crate::minimization::made_of::is_made_of;
use crate::minimization::oracle::Oracle;
use crate::minimization::replaced::copy_of;
use crate::minimization::size::is_no_longer;
use schedule::{OutOfMemory, Schedule};
use std::alloc::Global;

/// The schedule with large changes made, if it still goes wrong, is no longer and has no other moves; else a copy of the
/// schedule.
fn shorten_by_large_steps<O: Oracle>(
    alloc: Global,
    oracle: &mut O,
    schedule: &Schedule,
) -> Result<Schedule, OutOfMemory>
    requires { O.is_wrong (O.criterion_of oracle.old) schedule.now }
    ensures like { IfOk result (IsLike (O.is_wrong (O.criterion_of oracle.old)) schedule.now) }
    ensures same { OnOk result (O.criterion_of oracle.new ≡ O.criterion_of oracle.old) }
{
    let short = shorten(alloc, oracle, schedule)?;
    if is_no_longer(&short, schedule)
        && is_made_of(&short, schedule)
        && oracle.goes_wrong(&short)?
    {
        return Ok(short);
    }
    copy_of(alloc, schedule)
}

/// Minimizes a schedule that goes wrong. No line of the result can be left out, and no count of steps lowered by one, or it
/// goes wrong no more.
pub fn minimize<O: Oracle>(
    alloc: Global,
    oracle: &mut O,
    schedule: &Schedule,
) -> Result<Schedule, OutOfMemory>
    requires { O.is_wrong (O.criterion_of oracle.old) schedule.now }
    ensures { IfOk result (IsShrunk (O.is_wrong (O.criterion_of oracle.old)) schedule.now) }
{
    let short = shorten_by_large_steps(alloc, oracle, schedule)?;
    make_least(alloc, oracle, short)
}
