//! What hunts find, how short it is minimized, and what they refuse.

use crashlab::hunts::{hunt, hunt_watched};
use crashlab::{HuntFault, RandomMoves, Variant, shrink_found};
use explorer::Unwatched;
use std::alloc::Global;

/// The most rounds of a hunt of seed 1, and the number of lines of its minimized schedule, which has some fifty to four hundred
/// lines at first. 0: it finds nothing.
const LINES: [(Variant, u64, usize); 7] = [
    (Variant::NoLook, 10_000, 6),
    (Variant::NoTies, 10_000, 11),
    (Variant::Renumber, 10_000, 10),
    (Variant::ExitOnCrash, 10_000, 5),
    (Variant::CountUp, 10_000, 12),
    (Variant::LastSkipped, 10_000, 19),
    (Variant::Right, 100, 0),
];

/// The number of lines of the minimized schedule of a hunt of seed 1. 0: it finds nothing.
fn least_lines_of_a_hunt(alloc: Global, variant: Variant, rounds: u64) -> Option<usize> {
    match hunt(alloc, variant, 1, rounds, 1_000) {
        Ok(Some(found)) => match shrink_found(alloc, variant, &found) {
            Ok(least) => Some(least.lines().len()),
            Err(_) => None,
        },
        Ok(None) => Some(0),
        Err(_) => None,
    }
}

#[test]
fn hunts_of_seed_1(rt: HostRuntime) {
    for (variant, rounds, lines) in LINES {
        let least = least_lines_of_a_hunt(rt.alloc(), variant, rounds);
        assert!(rt; least == Some(lines), "{variant:?}");
    }
    for (rounds, steps, fault) in [
        (0, 1, HuntFault::BadRounds),
        (10_001, 0, HuntFault::BadRounds),
        (1, 0, HuntFault::BadSteps),
        (1, 10_001, HuntFault::BadSteps),
    ] {
        let refused = hunt(rt.alloc(), Variant::Right, 1, rounds, steps).err();
        assert!(rt; refused == Some(fault), "{rounds} {steps}");
    }
}

/// A round of crashes of all alone finds nothing, and more than 1,000 of them in 1,000 moves are as many.
#[test]
fn system_crashes_alone(rt: HostRuntime) -> Result<(), HuntFault> {
    for system_crashes in [1_000, 1_001, u64::MAX] {
        let asked = RandomMoves {
            seed: 1,
            steps: 1_000,
            system_crashes,
        };
        let found = hunt_watched(rt.alloc(), Variant::NoLook, asked, 20, &mut Unwatched)?;
        assert!(rt; found.is_none(), "{system_crashes}");
    }
    Ok(())
}
