//! The items of `crashlab`. A plan has counts of its own, so it is made by `new`.

ghost use Rattle.crashlab.specs.hunts.Hunts.{IsFound};

use crashlab::{
    At, Both, CrashPlan, HuntFault, Never, RandomMoves, Seeded, Variant, VariantWorld, hunt,
    hunt_in_parallel, hunt_in_parallel_watched, hunt_part, hunt_watched, shrink, shrink_found,
};
use explorer::Watch;
use redomail::Layout;
use rmecore::Refusal;
use rmeworld::Machine;
use schedule::{OutOfMemory, ReplayFault, Schedule};
use std::alloc::Global;
use std::thread::Threads;

pub fn ask<P: CrashPlan>(plan: &mut P, askings: u64) -> (bool, bool) {
    let falls: bool = plan.falls();
    plan.count_askings(askings);
    (falls, plan.never_crashes())
}

/// The plans of `crashlab` are those of `crash_plans`.
pub fn ask_each<P: crash_plans::CrashPlan>(
    plan: &mut P,
    (k, m): (u64, u64),
    seed: u64,
    per_mille: u64,
) -> [(bool, bool); 5] {
    [
        ask(plan, k),
        ask(&mut Never::new(), 1),
        ask(&mut At::new(k), 1),
        ask(&mut Both::new(k, m), 1),
        ask(&mut Seeded::new(seed, per_mille), 1),
    ]
}

pub fn in_variants(variant: Variant, fault: HuntFault) -> (bool, bool) {
    let is_right = match variant {
        Variant::Right => true,
        Variant::NoLook
        | Variant::NoTies
        | Variant::Renumber
        | Variant::ExitOnCrash
        | Variant::CountUp
        | Variant::LastSkipped => false,
    };
    let is_of_memory = match fault {
        HuntFault::OutOfMemory => true,
        HuntFault::BadRounds | HuntFault::BadSteps => false,
    };
    (is_right, is_of_memory)
}

pub fn new_world(
    alloc: Global,
    variant: Variant,
    procs: u64,
    limit: u64,
    cap: u64,
    width: u64,
) -> Result<VariantWorld, Refusal> {
    VariantWorld::new(alloc, variant, procs, limit, cap, width)
}

fn has_an_image<M: Machine>(machine: &M) -> bool {
    machine.image().is_ok()
}

pub fn is_a_machine(world: &VariantWorld) -> (Layout, bool) {
    (world.layout(), has_an_image(world))
}

/// The moves of a hunt with this many crashes of all in 1,000.
pub fn moves_with(seed: u64, steps: u64, system_crashes: u64) -> (RandomMoves, bool) {
    let asked = RandomMoves {
        seed,
        steps,
        system_crashes,
    };
    (asked, asked.is_system_crash(0))
}

/// By one thread, by several, each with its progress watched, and from a round on.
pub fn hunted<R: Threads + Sync, W: Watch>(
    rt: &R,
    alloc: Global,
    jobs: u64,
    variant: Variant,
    asked: RandomMoves,
    rounds: u64,
    watch: &mut W,
) -> (
    Result<Option<Schedule>, HuntFault>,
    Result<Option<Schedule>, HuntFault>,
    Result<Option<Schedule>, HuntFault>,
    Result<Option<Schedule>, HuntFault>,
    Result<Option<Schedule>, HuntFault>,
) {
    (
        hunt(alloc, variant, asked.seed, rounds, asked.steps),
        hunt_watched(alloc, variant, asked, rounds, watch),
        hunt_in_parallel(rt, alloc, jobs, variant, asked, rounds),
        hunt_in_parallel_watched(rt, alloc, jobs, variant, asked, rounds, watch),
        hunt_part(alloc, variant, asked, 1, rounds),
    )
}

pub fn minimized(
    alloc: Global,
    variant: Variant,
    schedule: &Schedule,
    found: &Schedule,
) -> (
    Result<Option<Schedule>, ReplayFault>,
    Result<Schedule, OutOfMemory>,
)
    requires { IsFound variant found.now }
{
    (
        shrink(alloc, variant, schedule),
        shrink_found(alloc, variant, found),
    )
}
