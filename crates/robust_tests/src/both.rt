//! Rows, played on both locks.

ghost use Rattle.std.specs.Prelude.{◌≡◌};

use crate::support::counted::{Counted, never, stepwise};
use crate::support::{plain, rows, running};
use crash_plans::CrashPlan;
use std::alloc::Global;
use std::marker::Brand;
use std::process::Abort;
use std::sync::Wait;
use std::sync::ledger::{Blank, Ledger};

/// Rows of two members, and what they leave.
#[derive(Clone, Copy)]
pub struct Played<'r> {
    /// The room of the mailbox.
    pub cap: u64,
    pub rows: &'r str,
    pub left: &'r str,
}

/// Plays the rows on the plain reference. It answers the first that comes to something else.
pub fn wrong_on_plain<'r, L: Ledger, C: CrashPlan, R: Abort + Wait>(
    rt: &R,
    alloc: Global,
    plan: &mut Counted<C>,
    played: Played<'r>,
    blank: Blank,
) -> Option<&'r str>
    requires name { blank.name ≡ L.name }
    requires parts { blank.parts ≡ L.parts }
    requires both { blank.parts ≡ 2 }
{
    let members = plain::two::<L>(rt, alloc, 10, played.cap, blank);
    rows::wrong(rt, alloc, members, plan, played.rows, played.left)
}

/// Plays the rows on the running lock. It answers the first that comes to something else.
pub fn wrong_on_running<'r, C: CrashPlan, R: Abort + Wait>(
    rt: &R,
    alloc: Global,
    plan: &mut Counted<C>,
    played: Played<'r>,
) -> Option<&'r str> {
    let members = running::two(rt, alloc, 10, played.cap);
    rows::wrong(rt, alloc, members, plan, played.rows, played.left)
}

/// Plays the rows on the running lock, by its fast paths and step by step.
pub fn wrong_on_either_path<'r, R: Abort + Wait>(
    rt: &R,
    alloc: Global,
    played: Played<'r>,
) -> Option<&'r str> {
    wrong_on_running(rt, alloc, &mut never(), played).or(wrong_on_running(
        rt,
        alloc,
        &mut stepwise(),
        played,
    ))
}

/// Plays the rows on both locks.
pub fn wrong_on_both<'r, R: Abort + Wait>(
    rt: &R,
    alloc: Global,
    played: Played<'r>,
) -> Option<&'r str> {
    wrong_on_plain::<Brand, _, _>(rt, alloc, &mut never(), played, Blank::new(2)).or(
        wrong_on_either_path(rt, alloc, played),
    )
}
