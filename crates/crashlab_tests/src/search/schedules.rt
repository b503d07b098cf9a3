//! The shortest schedules of the wrong variants, and the lock searched to the end. The numbers are those of the plain search
//! in bench/explore.

use crate::search::cases;
use crate::search::cases::{crashes_in, number};
use crate::texts::kit::variant_named;
use crashlab::{Variant, VariantWorld};
use judge::Judge;
use lock_explorer::{
    Bounds, ExploreFault, Move, SearchOutcome, Unwatched, Variables, shortest_schedule,
};
use redomail::Layout;
use rmecore::{Body, Fault, Refusal};
use rmeworld::{Call, Machine};
use std::alloc::Global;
use std::fmt::Write;
use std::test::Fail;

/// The variant, the processes, the crashes (of one process, and after `+` of all), the limit, the room for messages, the most moves
/// and states, and the variables that distinguish states: of all variables and of the live ones a shortest schedule is the same. What
/// comes of it is the number of moves, and the fault of the last deed.
pub const SHORTEST: &str = "\
== no-look 2 0 1 1 20 1000000 both
20 moves: Ok(Some(TwoInside))
== no-look 2 0 1 1 19 1000000 both
Ok(NoneWithin)
== no-ties 2 0 1 1 22 1000000 both
22 moves: Ok(Some(TwoInside))
== no-ties 2 0 1 1 21 1000000 both
Ok(NoneWithin)
== renumber 2 1 3 1 26 1000000 both
26 moves: Ok(Some(Overtaken { by: 1, of: 0 }))
== renumber 2 1 3 1 25 1000000 both
Ok(NoneWithin)
== exit-on-crash 1 1 1 1 16 1000000 both
16 moves: Ok(Some(OutOfPlace))
== renumber 2 0+1 3 1 26 1000000 both
26 moves: Ok(Some(Overtaken { by: 1, of: 0 }))
== exit-on-crash 1 1 1 1 15 1000000 both
Ok(NoneWithin)
== exit-on-crash 2 0+1 1 1 19 1000000 both
19 moves: Ok(Some(OutOfPlace))
== exit-on-crash 2 0+1 1 1 18 1000000 both
Ok(NoneWithin)
== count-up 1 1 1 2 40 1000000 both
40 moves: Ok(Some(MailOrder))
== count-up 1 1 1 2 39 1000000 both
Ok(NoneWithin)
== count-up 1 0+1 1 2 40 1000000 both
40 moves: Ok(Some(MailOrder))
== last-skipped 1 1 1 2 42 1000000 both
42 moves: Ok(Some(MailOrder))
== last-skipped 1 1 1 2 41 1000000 both
Ok(NoneWithin)
";

/// More states than may be kept are reported. Those past the moves are not counted: forty moves lead to 3,490 of the 7,729 states,
/// and to 3,162 of the 6,031 that live variables distinguish. No world has 65 processes.
pub const BOUNDS: &str = "\
== right 2 1 4 1 1000 7728 all
Err(TooManyStates)
== right 2 1 4 1 1000 6030 live
Err(TooManyStates)
== right 2 1 4 1 40 3490 all
Ok(NoneWithin)
== right 2 1 4 1 40 3489 all
Err(TooManyStates)
== right 2 1 4 1 40 3162 live
Ok(NoneWithin)
== right 2 1 4 1 40 3161 live
Err(TooManyStates)
== right 2 1+1 1 1 1000 9661 all
Err(TooManyStates)
== right 65 0+1 1 1 1 1000000 all
Err(Refused(BadProcs))
== right 65 0 1 1 1 1000000 all
Err(Refused(BadProcs))
== right 65 0 1 1 1 1000000 live
Err(Refused(BadProcs))
";

#[test]
fn the_lock_is_searched_to_the_end(rt: HostRuntime) -> Result<(), Fail> {
    let rows = "\
== right 2 1 4 1 1000 1000000 all
Ok(Nowhere(7729))
== right 2 1 4 1 1000 1000000 live
Ok(Nowhere(6031))
== right 2 2 4 1 1000 1000000 all
Ok(Nowhere(24774))
== right 2 2 4 1 1000 1000000 live
Ok(Nowhere(17289))
== right 2 0+1 4 1 1000 1000000 all
Ok(Nowhere(11277))
== right 2 0+1 4 1 1000 1000000 live
Ok(Nowhere(9489))
== right 2 1+1 1 1 1000 1000000 all
Ok(Nowhere(9662))
== right 2 1+1 1 1 1000 1000000 live
Ok(Nowhere(6689))
== right 2 0+2 2 1 1000 1000000 all
Ok(Nowhere(12901))
== right 3 0 3 1 1000 1000000 all
Ok(Nowhere(43762))
== right 3 0 3 1 1000 1000000 live
Ok(Nowhere(43762))
";
    cases::compare_cases(rt.alloc(), "to the end", cases::Kind::Schedule, rows)?;
    Ok(())
}

/// The sizes of a search: a variant's world, and the bounds.
#[derive(Clone, Copy)]
pub struct Sizes {
    pub variant: Variant,
    pub layout: Layout,
    pub limit: u64,
    pub bounds: Bounds,
}

impl Sizes {
    /// Searches for a shortest schedule with these calls. These variables distinguish states.
    pub fn explore(
        &self,
        alloc: Global,
        calls: &[Call],
        variables: Variables,
    ) -> Result<SearchOutcome<Move>, ExploreFault> {
        shortest_schedule(
            alloc,
            self.variant,
            self.layout,
            self.limit,
            calls,
            variables,
            &self.bounds,
            &mut Unwatched,
        )
    }

    /// The fault of the last deed of these moves. None where the judge allows it, or refuses an earlier one.
    fn judged(&self, alloc: Global, moves: &[Move]) -> Result<Option<Fault>, Refusal> {
        let Layout { procs, cap, width } = self.layout;
        match (
            VariantWorld::new(alloc, self.variant, procs, self.limit, cap, width),
            Judge::new(alloc, procs, cap),
        ) {
            (Ok(mut world), Ok(mut judge)) => judged_on(&mut world, &mut judge, moves),
            _ => Ok(None),
        }
    }
}

/// Crashes every process. The judge allows each crash.
fn crash_all(world: &mut VariantWorld, judge: &mut Judge) -> Result<(), Refusal> {
    for p in 0..world.layout().procs {
        let deed = world.crash(p)?;
        if judge.feed(deed).is_err() {
            return Err(Refusal::NoSuchProcess);
        }
    }
    Ok(())
}

/// The fault of the last deed of these moves. None where the judge allows it, or refuses an earlier one.
fn judged_on(
    world: &mut VariantWorld,
    judge: &mut Judge,
    moves: &[Move],
) -> Result<Option<Fault>, Refusal> {
    let mut fault = None;
    for next in moves {
        if fault.is_some() {
            return Ok(None);
        }
        let deed = match *next {
            Move::Start(p, call) => {
                world.start(p, call)?;
                None
            }
            Move::Step(p) => world.advance(p)?.deed,
            Move::Crash(p) => Some(world.crash(p)?),
            Move::CrashAll => {
                crash_all(world, judge)?;
                None
            }
        };
        if let Some(deed) = deed {
            fault = judge.feed(deed).err();
        }
    }
    Ok(fault)
}

/// Searches for a shortest schedule with these calls, and writes what is found.
fn put_found(
    alloc: Global,
    sizes: Sizes,
    calls: &[Call],
    variables: &str,
    text: &mut String,
) -> Result<(), Fail> {
    let first = if variables == "live" {
        Variables::Live
    } else {
        Variables::All
    };
    let found = sizes.explore(alloc, calls, first);
    let is_same = variables != "both" || sizes.explore(alloc, calls, Variables::Live) == found;
    let written = match &found {
        _ if !is_same => text.push_str("another one by live variables\n"),
        Ok(SearchOutcome::Path(path)) => {
            let fault = sizes.judged(alloc, path);
            writeln!(text, "{} moves: {fault:?}", path.len())
        }
        _ => writeln!(text, "{found:?}"),
    };
    drop(found);
    Ok(written?)
}

/// A search for a shortest schedule, as a case. Where there is room for two messages, all calls that a repair needs are made, else
/// locks and unlocks alone.
pub fn put_shortest(alloc: Global, words: &[&str; 8], text: &mut String) -> Result<(), Fail> {
    let [
        variant,
        procs,
        crashes,
        limit,
        cap,
        moves,
        states,
        variables,
    ] = words;
    let calls = [
        Call::Lock,
        Call::Unlock,
        Call::Consistent,
        Call::Append {
            seq: 1,
            value: Body::new(&[1])?,
        },
        Call::Append {
            seq: 2,
            value: Body::new(&[2])?,
        },
    ];
    let sizes = Sizes {
        variant: variant_named(variant),
        layout: Layout {
            procs: number(procs),
            cap: number(cap),
            width: 1,
        },
        limit: number(limit),
        bounds: Bounds {
            crashes: crashes_in(crashes),
            moves: number(moves),
            states: number(states),
        },
    };
    let made = if *cap == "2" { 5 } else { 2 };
    put_found(alloc, sizes, &calls[..made], variables, text)
}
