//! The command `hunt` on an algorithm's text.

ghost use Rattle.std.specs.Prelude.{◌≡◌, ◌+◌, ◌<◌, ◌≤◌, ◌⊎◌, ◌↔◌, false, None, Some, IfOk, IfSome, IsErrOf, OnOk, option_copied};
ghost use Rattle.algorithms.specs.Worlds.{new_refusal};
ghost use Rattle.algorithms.specs.declared.refusal.AlgorithmRefusal.{AlgorithmRefusal as RefusalOf};
ghost use Rattle.algorithm_hunts.specs.Hunted.{IsFoundByHunt};
ghost use Rattle.algorithm_commands.specs.AlgorithmHunts.{AlgorithmHuntEnds, answer_for, fault_of_hunt, HuntsAlgorithm, IsWrittenFor};
ghost use Rattle.command_parts.specs.Endings.{IsEnded};

use crate::algorithm_replay_command::algorithm_read;
use algorithm_hunts::{
    AlgorithmHuntFault, Watch, hunt_algorithm_in_parallel, hunt_least_algorithm_in_parallel,
};
use algorithms::InitializedAlgorithm;
use cli::arguments::args::AlgorithmHuntArgs;
use command_parts::findings::{tell_nothing, tell_schedule};
use command_parts::options::jobs_of;
use command_parts::{CommandFault, Ending, Meter, Screen, Work};
use schedule::{Schedule, Sink};
use std::alloc::Global;
use std::thread::Threads;

/// The command's fault for a fault of a hunt.
pub(crate) fn hunt_fault(fault: AlgorithmHuntFault) -> CommandFault
    ensures { result ≡ fault_of_hunt fault }
{
    match fault {
        AlgorithmHuntFault::OutOfMemory => CommandFault::OutOfMemory,
        AlgorithmHuntFault::BadRounds
        | AlgorithmHuntFault::BadSteps
        | AlgorithmHuntFault::Refused(_) => CommandFault::BadSize,
    }
}

/// Hunts on the algorithm. The schedule that is found is minimized if that is asked for.
fn schedule_hunted<T: Threads + Sync, M: Watch>(
    rt: &T,
    alloc: Global,
    algorithm: InitializedAlgorithm,
    args: &AlgorithmHuntArgs,
    watch: &mut M,
) -> Result<Option<Schedule>, AlgorithmHuntFault>
    ensures written { IfOk result (IsWrittenFor args.now.shrink algorithm (answer_for algorithm args.now)) }
    ensures found { OnOk result (IfSome (answer_for algorithm args.now)
        (IsFoundByHunt algorithm args.now.procs args.now.limit args.now.moves.steps)) }
    ensures accepted { OnOk result (new_refusal algorithm args.now.procs args.now.limit ≡ None) }
    ensures rounds { IsErrOf result AlgorithmHuntFault.BadRounds
        ↔ ((args.now.rounds ≡ 0) ⊎ (10000 < args.now.first_round + args.now.rounds)) }
    ensures steps { IsErrOf result AlgorithmHuntFault.BadSteps
        ↔ ((0 < args.now.rounds) × (args.now.first_round + args.now.rounds ≤ 10000)
        × ((args.now.moves.steps ≡ 0) ⊎ (10000 < args.now.moves.steps))) }
    ensures refused { (e : RefusalOf) → IsErrOf result (AlgorithmHuntFault.Refused e)
        → new_refusal algorithm args.now.procs args.now.limit ≡ Some e }
{
    let (procs, limit) = (args.procs, args.limit);
    let (moves, first, rounds) = (args.moves, args.first_round, args.rounds);
    let jobs = jobs_of(rt, args.jobs);
    if args.shrink {
        hunt_least_algorithm_in_parallel(
            rt, alloc, jobs, algorithm, procs, limit, moves, first, rounds, watch,
        )
    } else {
        hunt_algorithm_in_parallel(
            rt, alloc, jobs, algorithm, procs, limit, moves, first, rounds, watch,
        )
    }
}

/// Writes the schedule that a hunt on the algorithm finds, minimized if that is asked for, or that there is none.
fn tell_hunted<T: Threads + Sync, S: Screen, W: Sink>(
    rt: &T,
    alloc: Global,
    algorithm: InitializedAlgorithm,
    args: &AlgorithmHuntArgs,
    screen: &mut S,
    w: &mut W,
) -> Result<Ending, CommandFault>
    ensures ends { HuntsAlgorithm algorithm args.now (W.tape w.old) (W.tape w.new) result }
    ensures ended { IfOk result (IsEnded false (W.tape w.old).failures (W.tape w.new).failures) }
{
    let mut meter = Meter::new(screen, Work::Hunt);
    let found = schedule_hunted(rt, alloc, algorithm, args, &mut meter);
    meter.end();
    match found {
        Ok(Some(schedule)) => tell_schedule(alloc, &schedule, w),
        Ok(None) => tell_nothing(w),
        Err(fault) => Err(hunt_fault(fault)),
    }
}

/// Runs `hunt --algorithm`: reads the algorithm from its text, draws schedules of it, and writes the first that goes wrong, minimized
/// if that is asked for, or that there is none. It is the same for any number of threads. Progress is shown on the screen.
/// `Algorithm`: the text's fault. `BadSize`: the algorithm is not for this number of processes, or another number is outside its
/// range. Other faults are those of the writer and of memory.
#[tactic(auto, using(crate::proofs::AlgorithmTexts::no_algorithm_alone))]
pub fn algorithm_hunt_command<T: Threads + Sync, S: Screen, W: Sink>(
    rt: &T,
    alloc: Global,
    args: &AlgorithmHuntArgs,
    text: Option<&[u8]>,
    screen: &mut S,
    w: &mut W,
) -> Result<Ending, CommandFault>
    ensures ends { AlgorithmHuntEnds args.now (option_copied text.entry) (W.tape w.old) (W.tape w.new) result }
    ensures ended { IfOk result (IsEnded false (W.tape w.old).failures (W.tape w.new).failures) }
{
    let algorithm = algorithm_read(alloc, text)?;
    tell_hunted(rt, alloc, algorithm, args, screen, w)
}
