//! The command `explore` on an algorithm's text.

ghost use Rattle.std.specs.Prelude.{◌≡◌, false, unwrap_or, IfErr, IfOk, OnOk, Some, option_copied};
ghost use Rattle.algorithm_commands.specs.AlgorithmExplores.{AlgorithmExploreEnds, AlgorithmBothEnd, AlgorithmShortestEnds, AlgorithmStarvingEnds, AlgorithmStuckEnds, all_line_but, ExploresAlgorithm, ExploresJudged, asked_search as search_asked, calls_had as had_calls, calls_listed as listed_calls, schedule_of as schedule_by, searches_progress as progress_searched};
ghost use Rattle.algorithm_commands.specs.AlgorithmFindings.{line_by, world_call};
ghost use Rattle.algorithm_explorer.specs.Spaces.{search_of};
ghost use Rattle.command_parts.specs.Endings.{IsEnded, Prints};
ghost use Rattle.schedule.specs.Schedules.{spelling};

use crate::algorithm_range::tell_in_range;
use crate::algorithm_replay_command::algorithm_read;
use crate::algorithm_starvation::tell_starving;
use crate::algorithm_stuck::tell_stuck;
use crate::line::left_out_line;
use algorithm_explorer::{
    AlgorithmBounds, AlgorithmExploreFault, AlgorithmMove, CrashesLeft, LeftOut, SearchOutcome,
    SearchedAlgorithm, shortest_algorithm_schedule_in_parallel,
};
use algorithms::{AlgorithmCall, Entries, InitializedAlgorithm, ProgressPromise};
use cli::arguments::args::{AlgorithmCalls, AlgorithmExploreArgs, Cycles};
use command_parts::findings::{tell_all, tell_schedule, tell_text, tell_within};
use command_parts::options::{jobs_of, put_call};
use command_parts::{CommandFault, Ending, Meter, Screen, Work};
use rmeworld::Call as WorldCall;
use schedule::{Count, Line, Schedule, Sink};
use std::alloc::{AllocError, Global};
use std::thread::Threads;

/// The calls that a text has.
pub(crate) fn calls_had(entries: &Entries) -> AlgorithmCalls
    ensures { result ≡ had_calls entries.now }
{
    AlgorithmCalls {
        lock: true,
        unlock: true,
        recover: entries.recover.is_some(),
        withdraw: entries.withdraw.is_some(),
    }
}

/// The calls that are asked for, or else those that the text has.
pub(crate) fn asked_calls(
    algorithm: &InitializedAlgorithm,
    args: &AlgorithmExploreArgs,
) -> AlgorithmCalls
    ensures { result ≡ unwrap_or args.now.calls (had_calls algorithm.now.algorithm.entries) }
{
    match args.calls {
        Some(asked) => asked,
        None => calls_had(&algorithm.algorithm.entries),
    }
}

/// These calls, always in this order.
pub(crate) fn calls_listed(
    alloc: Global,
    asked: AlgorithmCalls,
) -> Result<Vec<AlgorithmCall>, AllocError>
    ensures { IfOk result (λ calls. calls.items ≡ listed_calls asked) }
{
    let mut calls = Vec::new(alloc);
    put_call(&mut calls, asked.lock, AlgorithmCall::Lock)?;
    put_call(&mut calls, asked.unlock, AlgorithmCall::Unlock)?;
    put_call(&mut calls, asked.recover, AlgorithmCall::Recover)?;
    put_call(&mut calls, asked.withdraw, AlgorithmCall::Withdraw)?;
    Ok(calls)
}

/// The search that is asked for.
pub(crate) fn asked_search(
    alloc: Global,
    algorithm: InitializedAlgorithm,
    args: &AlgorithmExploreArgs,
) -> Result<SearchedAlgorithm, AllocError>
    ensures { IfOk result (λ search. search_of search ≡ search_asked algorithm args.now) }
{
    let calls = calls_listed(alloc, asked_calls(&algorithm, args))?;
    Ok(SearchedAlgorithm {
        algorithm,
        procs: args.procs,
        limit: args.limit,
        crashes: CrashesLeft {
            alone: Some(args.crashes),
            together: args.system_crashes,
        },
        calls,
    })
}

/// A call as one of a schedule.
fn world_call(call: AlgorithmCall) -> WorldCall
    ensures { result ≡ world_call call }
{
    match call {
        AlgorithmCall::Lock => WorldCall::Lock,
        AlgorithmCall::Unlock => WorldCall::Unlock,
        AlgorithmCall::Recover => WorldCall::Recover,
        AlgorithmCall::Withdraw => WorldCall::Withdraw,
    }
}

/// A move as a line of a schedule.
fn line_of_move(made: &AlgorithmMove) -> Line
    ensures { result ≡ line_by made.now }
{
    match *made {
        AlgorithmMove::Start(p, call) => Line::Start(p, world_call(call)),
        AlgorithmMove::Step(p) => Line::Step(p, Count::ONE),
        AlgorithmMove::Crash(p) => Line::Crash(p),
        AlgorithmMove::CrashAll => Line::CrashAll,
    }
}

/// The moves as a schedule.
pub(crate) fn schedule_of(
    alloc: Global,
    args: &AlgorithmExploreArgs,
    path: &[AlgorithmMove],
) -> Result<Schedule, CommandFault>
    ensures schedule { IfOk result (λ schedule. schedule ≡ schedule_by args.now path.now) }
    ensures failed { IfErr result (λ fault. fault ≡ CommandFault.OutOfMemory) }
{
    let Ok(mut schedule) = Schedule::new(alloc, args.procs, args.limit, 1, 1) else {
        return Err(CommandFault::OutOfMemory);
    };
    for made in path {
        if schedule.push(line_of_move(made)).is_err() {
            return Err(CommandFault::OutOfMemory);
        }
    }
    Ok(schedule)
}

/// Writes the moves as a schedule.
pub(crate) fn tell_path<W: Sink>(
    alloc: Global,
    args: &AlgorithmExploreArgs,
    path: &[AlgorithmMove],
    w: &mut W,
) -> Result<Ending, CommandFault>
    ensures prints { Prints 1 (spelling (schedule_by args.now path.now)) (W.tape w.old) (W.tape w.new) result }
    ensures ended { IfOk result (IsEnded false (W.tape w.old).failures (W.tape w.new).failures) }
{
    let schedule = schedule_of(alloc, args, path)?;
    tell_schedule(alloc, &schedule, w)
}

/// Writes that nothing was found in this many states, which are all, and which moves were left out, if any.
fn tell_all_but<W: Sink>(
    states: u64,
    left_out: Option<LeftOut>,
    w: &mut W,
) -> Result<Ending, CommandFault>
    ensures prints { Prints 0 (all_line_but states left_out) (W.tape w.old) (W.tape w.new) result }
    ensures ended { IfOk result (IsEnded false (W.tape w.old).failures (W.tape w.new).failures) }
{
    let Some(left) = left_out else {
        return tell_all(states, w);
    };
    let line = left_out_line(states, left);
    tell_text(line.as_bytes(), 0, w)
}

/// Writes the schedule of fewest moves of an algorithm that goes wrong, or that there is none, and which moves were left out.
fn tell_judged<T: Threads + Sync, S: Screen, W: Sink>(
    rt: &T,
    alloc: Global,
    algorithm: InitializedAlgorithm,
    args: &AlgorithmExploreArgs,
    screen: &mut S,
    w: &mut W,
) -> Result<Ending, CommandFault>
    ensures ends { ExploresJudged algorithm args.now (W.tape w.old) (W.tape w.new) result }
    ensures ended { IfOk result (IsEnded false (W.tape w.old).failures (W.tape w.new).failures) }
{
    let bounds = AlgorithmBounds {
        moves: args.moves,
        states: args.states,
    };
    let search = asked_search(alloc, algorithm, args)?;
    let mut meter = Meter::new(screen, Work::Search);
    let found = shortest_algorithm_schedule_in_parallel(
        rt,
        alloc,
        jobs_of(rt, args.jobs) as usize,
        search,
        &bounds,
        &mut meter,
    );
    meter.end();
    match found {
        Ok(found) => match found.outcome {
            SearchOutcome::Path(path) => tell_path(alloc, args, &path, w),
            SearchOutcome::NoneWithin => tell_within(args.moves, w),
            SearchOutcome::Nowhere(states) => tell_all_but(states, found.left_out, w),
        },
        Err(AlgorithmExploreFault::Refused(_)) => Err(CommandFault::BadSize),
        Err(AlgorithmExploreFault::TooManyStates) => Err(CommandFault::TooManyStates),
        Err(AlgorithmExploreFault::OutOfMemory) => Err(CommandFault::OutOfMemory),
    }
}

/// Writes the schedule of fewest moves of the algorithm that goes wrong, or that there is none.
fn tell_shortest<T: Threads + Sync, S: Screen, W: Sink>(
    rt: &T,
    alloc: Global,
    algorithm: InitializedAlgorithm,
    args: &AlgorithmExploreArgs,
    screen: &mut S,
    w: &mut W,
) -> Result<Ending, CommandFault>
    ensures ends { ExploresAlgorithm algorithm args.now (W.tape w.old) (W.tape w.new) result }
    ensures ended { IfOk result (IsEnded false (W.tape w.old).failures (W.tape w.new).failures) }
{
    if algorithm.algorithm.promises.bounds {
        tell_in_range(rt, alloc, algorithm, args, screen, w)
    } else {
        tell_judged(rt, alloc, algorithm, args, screen, w)
    }
}

/// Reads the algorithm from its text, and writes the schedule of fewest moves that goes wrong, or that there is none. Where the text
/// promises progress, and none was found with no bound on the moves, it writes then what `--starving` does, and reads the text again.
#[tactic(auto, using(crate::proofs::AlgorithmTexts::no_algorithm_alone))]
fn search_shortest<T: Threads + Sync, S: Screen, W: Sink>(
    rt: &T,
    alloc: Global,
    args: &AlgorithmExploreArgs,
    text: Option<&[u8]>,
    screen: &mut S,
    w: &mut W,
) -> Result<Ending, CommandFault>
    ensures ends { AlgorithmShortestEnds args.now (option_copied text.entry) (W.tape w.old) (W.tape w.new) result }
    ensures ended { IfOk result (IsEnded false (W.tape w.old).failures (W.tape w.new).failures) }
{
    let algorithm = algorithm_read(alloc, text)?;
    let progress = algorithm.algorithm.promises.progress;
    let first = tell_shortest(rt, alloc, algorithm, args, screen, w)?;
    if searches_progress(progress, args, first.status) {
        return search_starving(alloc, args, text, Cycles::Nobody, screen, w);
    }
    Ok(first)
}

/// The same with `--stuck`: the schedule that goes wrong, or else the one of fewest moves to a stuck state.
#[tactic(auto, using(crate::proofs::AlgorithmTexts::no_algorithm_alone))]
fn search_stuck<S: Screen, W: Sink>(
    alloc: Global,
    args: &AlgorithmExploreArgs,
    text: Option<&[u8]>,
    screen: &mut S,
    w: &mut W,
) -> Result<Ending, CommandFault>
    ensures ends { AlgorithmStuckEnds args.now (option_copied text.entry) (W.tape w.old) (W.tape w.new) result }
    ensures ended { IfOk result (IsEnded false (W.tape w.old).failures (W.tape w.new).failures) }
{
    let algorithm = algorithm_read(alloc, text)?;
    tell_stuck(alloc, algorithm, args, screen, w)
}

/// The same with `--starving`: the schedule of fewest moves in which a process starves.
#[tactic(auto, using(crate::proofs::AlgorithmTexts::no_algorithm_alone))]
fn search_starving<S: Screen, W: Sink>(
    alloc: Global,
    args: &AlgorithmExploreArgs,
    text: Option<&[u8]>,
    cycles: Cycles,
    screen: &mut S,
    w: &mut W,
) -> Result<Ending, CommandFault>
    ensures ends { AlgorithmStarvingEnds cycles args.now (option_copied text.entry) (W.tape w.old) (W.tape w.new) result }
    ensures ended { IfOk result (IsEnded false (W.tape w.old).failures (W.tape w.new).failures) }
{
    let algorithm = algorithm_read(alloc, text)?;
    tell_starving(alloc, algorithm, args, cycles, screen, w)
}

/// Whether the text promises progress, and the search ended with this status: nothing was found, with no bound on the moves.
fn searches_progress(
    progress: Option<ProgressPromise>,
    args: &AlgorithmExploreArgs,
    status: u8,
) -> bool
    ensures { result ≡ progress_searched progress args.now status }
{
    progress.is_some() && (status == 0 && args.moves == u64::MAX)
}

/// Writes what the search for stuck states has found, and then what the one for a process that starves has. Each reads the text.
fn search_both<S: Screen, W: Sink>(
    alloc: Global,
    args: &AlgorithmExploreArgs,
    text: Option<&[u8]>,
    cycles: Cycles,
    screen: &mut S,
    w: &mut W,
) -> Result<Ending, CommandFault>
    ensures ends { AlgorithmBothEnd cycles args.now (option_copied text.entry) (W.tape w.old) (W.tape w.new) result }
    ensures ended { IfOk result (IsEnded false (W.tape w.old).failures (W.tape w.new).failures) }
{
    let first = search_stuck(alloc, args, text, screen, w)?;
    let second = search_starving(alloc, args, text, cycles, screen, w)?;
    Ok(Ending {
        status: first.status.max(second.status),
        save: None,
    })
}

/// Runs `explore --algorithm`: reads the algorithm from its text, searches its schedules, and writes the schedule of fewest moves that
/// goes wrong or, where the text promises `bounds`, ends with a move to a value out of range; or that there is none, and then, where the
/// text promises progress and the moves have no bound, what `--starving` finds. With `--stuck` it writes also one to a stuck state, and
/// with `--starving` one in which a process starves, both in this thread. Progress is shown on the screen. `Algorithm`: the text's fault. `BadSize`: the algorithm is not for this
/// number of processes, or the limit is outside its range. `TooManyStates`: the search reached more states than it may keep.
pub fn algorithm_explore_command<T: Threads + Sync, S: Screen, W: Sink>(
    rt: &T,
    alloc: Global,
    args: &AlgorithmExploreArgs,
    text: Option<&[u8]>,
    screen: &mut S,
    w: &mut W,
) -> Result<Ending, CommandFault>
    ensures ends { AlgorithmExploreEnds args.now (option_copied text.entry) (W.tape w.old) (W.tape w.new) result }
    ensures ended { IfOk result (IsEnded false (W.tape w.old).failures (W.tape w.new).failures) }
{
    match args.starving {
        Some(cycles) if args.stuck => search_both(alloc, args, text, cycles, screen, w),
        Some(cycles) => search_starving(alloc, args, text, cycles, screen, w),
        None if args.stuck => search_stuck(alloc, args, text, screen, w),
        None => search_shortest(rt, alloc, args, text, screen, w),
    }
}
