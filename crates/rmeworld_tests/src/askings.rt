//! The askings at which each crash plan falls.

use super::phrase::{Phrase, place};
use crash_plans::{At, Both, CrashPlan, Never, Seeded};
use test_support::text::cut;

/// Whether the plan falls just at these askings, of its first twelve.
fn falls_at<P: CrashPlan>(plan: &mut P, askings: &[u64]) -> bool {
    for asking in 1..13u64 {
        if plan.falls() != askings.contains(&asking) {
            return false;
        }
    }
    true
}

/// A row of a plan, and the askings at which it falls.
pub fn holds(row: &str) -> bool {
    let mut rest = row;
    let plan = Phrase::read(cut(&mut rest, ": "));
    let falls = Phrase::read(rest);
    let (askings, first, second) = (falls.numbers(0), plan.number(0), plan.number(1));
    match place("never|at|both|seeded", plan.word) {
        Some(0) => falls_at(&mut Never::new(), askings),
        Some(1) => falls_at(&mut At::new(first), askings),
        Some(2) => falls_at(&mut Both::new(first, second), askings),
        Some(_) => falls_at(&mut Seeded::new(first, second), askings),
        None => false,
    }
}

/// The askings at which plans fall.
pub const TABLES: &str = "\
plans: a plan falls at its askings
never: none
at 0: none
at 1: falls 1
at 12: falls 12
at 13: none
both 2 3: falls 2 5
both 0 3: falls 3
both 2 0: falls 2
both 0 0: none
both 2 18446744073709551615: falls 2

plans: a seeded plan falls below its per mille
# From seed 1 an independent generator draws 574, 214, 417, 984, 235, 480, 784, 712, 836, 536, 507, 636 modulo 1,000.
seeded 1 214: none
seeded 1 215: falls 2
seeded 1 418: falls 2 3 5";
