//! The command `explore`.

ghost use Rattle.std.specs.Prelude.{◌≡◌, ◌++◌, false, ◌≤◌, take, replicate, IfErr, IfOk, IfSome, IsOk, IsSome, OnOk, ◌↔◌};
ghost use Rattle.command_parts.specs.Endings.{IsEnded, Prints};
ghost use Rattle.schedule.specs.Schedules.{spelling};
ghost use Rattle.lock_commands.specs.Explores.{appends as appends_of, calls_of as calls_asked, crash_counts, ExploreEnds, IsNoSize, ShortestEnds, layout_of as layout_by, schedule_of as schedule_by, variables_by};
ghost use Rattle.crashlab.specs.space.Spaces.{line_by};

use crate::starvation::{tell_both, tell_starving};
use crate::stuck::tell_stuck;
use cli::arguments::args::ExploreArgs;
use command_parts::findings::{tell_all, tell_schedule, tell_within};
use command_parts::options::{jobs_of, put_call};
use command_parts::{CommandFault, Ending, Meter, Screen, Work};
use lock_explorer::{
    Bounds, CrashCounts, ExploreFault, Move, SearchOutcome, Variables,
    shortest_schedule_in_parallel,
};
use redomail::Layout;
use rmecore::Body;
use rmeworld::Call;
use schedule::{Count, Line, Schedule, Sink};
use std::alloc::Global;
use std::thread::Threads;

/// The append with this number. Its value has `width` words, and each is the number. None: no value has that width.
fn append_of(seq: u64, width: u64) -> Option<Call>
    ensures same { IfSome result (λ call. call ≡ Call.Append seq (take width (replicate 8 seq))) }
    ensures wide { IsSome result ↔ ((1 ≤ width) × (width ≤ 8)) }
{
    if width > 8 {
        return None;
    }
    let words = [seq; 8];
    match Body::new(&words[..width as usize]) {
        Ok(value) => Some(Call::Append { seq, value }),
        Err(_) => None,
    }
}

/// Adds the appends with each number from 1 to the capacity.
fn put_appends(calls: &mut Vec<Call>, args: &ExploreArgs) -> Result<(), CommandFault>
    ensures listed { OnOk result (calls.new.items ≡ calls.old.items ++ appends_of args.now.width args.now.cap) }
    ensures failed { IfErr result (λ fault. fault ≡ CommandFault.OutOfMemory) }
{
    for seq in 0..args.cap {
        let Some(call) = append_of(seq + 1, args.width) else {
            return Err(CommandFault::OutOfMemory);
        };
        calls.push(call)?;
    }
    Ok(())
}

/// The calls that the search starts, always in this order.
pub(crate) fn calls_of(alloc: Global, args: &ExploreArgs) -> Result<Vec<Call>, CommandFault>
    ensures listed { IfOk result (λ calls. calls.items ≡ calls_asked args.now) }
    ensures failed { IfErr result (λ fault. fault ≡ CommandFault.OutOfMemory) }
{
    let asked = &args.calls;
    let mut calls = Vec::new(alloc);
    put_call(&mut calls, asked.lock, Call::Lock)?;
    put_call(&mut calls, asked.unlock, Call::Unlock)?;
    put_call(&mut calls, asked.recover, Call::Recover)?;
    put_call(&mut calls, asked.consistent, Call::Consistent)?;
    put_call(&mut calls, asked.withdraw, Call::Withdraw)?;
    if asked.append {
        put_appends(&mut calls, args)?;
    }
    put_call(&mut calls, asked.close, Call::Close)?;
    Ok(calls)
}

/// A move as a line of a schedule.
fn line_of_move(made: &Move) -> Line
    ensures { result ≡ line_by made.now }
{
    match *made {
        Move::Start(p, call) => Line::Start(p, call),
        Move::Step(p) => Line::Step(p, Count::ONE),
        Move::Crash(p) => Line::Crash(p),
        Move::CrashAll => Line::CrashAll,
    }
}

/// The moves as a schedule.
pub(crate) fn schedule_of(
    alloc: Global,
    args: &ExploreArgs,
    path: &[Move],
) -> Result<Schedule, CommandFault>
    ensures schedule { IfOk result (λ schedule. schedule ≡ schedule_by args.now path.now) }
    ensures failed { IfErr result (λ fault. fault ≡ CommandFault.OutOfMemory) }
{
    let Ok(mut schedule) = Schedule::new(alloc, args.procs, args.limit, args.cap, args.width) else {
        return Err(CommandFault::OutOfMemory);
    };
    for made in path {
        if schedule.push(line_of_move(made)).is_err() {
            return Err(CommandFault::OutOfMemory);
        }
    }
    Ok(schedule)
}

/// Writes the moves as a schedule.
pub(crate) fn tell_path<W: Sink>(
    alloc: Global,
    args: &ExploreArgs,
    path: &[Move],
    w: &mut W,
) -> Result<Ending, CommandFault>
    ensures prints { Prints 1 (spelling (schedule_by args.now path.now)) (W.tape w.old) (W.tape w.new) result }
    ensures ended { IfOk result (IsEnded false (W.tape w.old).failures (W.tape w.new).failures) }
{
    let schedule = schedule_of(alloc, args, path)?;
    tell_schedule(alloc, &schedule, w)
}

/// The sizes of the search's worlds. `BadSize`: no value has this width.
pub(crate) fn layout_of(args: &ExploreArgs) -> Result<Layout, CommandFault>
    ensures layout { IfOk result (λ layout. layout ≡ layout_by args.now) }
    ensures wide { IsOk result ↔ ((1 ≤ args.now.width) × (args.now.width ≤ 8)) }
    ensures refused { IfErr result (λ fault. (fault ≡ CommandFault.BadSize) × IsNoSize args.now) }
{
    if args.width == 0 || args.width > 8 {
        return Err(CommandFault::BadSize);
    }
    Ok(Layout {
        procs: args.procs,
        cap: args.cap,
        width: args.width,
    })
}

/// The most crashes of a schedule.
pub(crate) fn counts_of(args: &ExploreArgs) -> CrashCounts
    ensures { result ≡ crash_counts args.now }
{
    CrashCounts {
        alone: args.crashes,
        together: args.system_crashes,
    }
}

/// The variables that distinguish the states of the search.
fn variables_of(args: &ExploreArgs) -> Variables
    ensures { result ≡ variables_by args.now.all_variables }
{
    if args.all_variables {
        Variables::All
    } else {
        Variables::Live
    }
}

/// Writes the schedule of fewest moves that was found, or that there is none.
fn tell_shortest<T: Threads + Sync, S: Screen, W: Sink>(
    rt: &T,
    alloc: Global,
    args: &ExploreArgs,
    screen: &mut S,
    w: &mut W,
) -> Result<Ending, CommandFault>
    ensures ends { ShortestEnds args.now (W.tape w.old) (W.tape w.new) result }
    ensures ended { IfOk result (IsEnded false (W.tape w.old).failures (W.tape w.new).failures) }
{
    let layout = layout_of(args)?;
    let bounds = Bounds {
        crashes: counts_of(args),
        moves: args.moves,
        states: args.states,
    };
    let calls = calls_of(alloc, args)?;
    let mut meter = Meter::new(screen, Work::Search);
    let found = shortest_schedule_in_parallel(
        rt,
        alloc,
        jobs_of(rt, args.jobs) as usize,
        args.variant,
        layout,
        args.limit,
        &calls,
        variables_of(args),
        &bounds,
        &mut meter,
    );
    meter.end();
    match found {
        Ok(SearchOutcome::Path(path)) => tell_path(alloc, args, &path, w),
        Ok(SearchOutcome::NoneWithin) => tell_within(args.moves, w),
        Ok(SearchOutcome::Nowhere(states)) => tell_all(states, w),
        Err(ExploreFault::Refused(_)) => Err(CommandFault::BadSize),
        Err(ExploreFault::TooManyStates) => Err(CommandFault::TooManyStates),
        Err(ExploreFault::OutOfMemory) => Err(CommandFault::OutOfMemory),
    }
}

/// Runs `explore`: writes the schedule of fewest moves that was found, or that there is none; with `--stuck` also one to a stuck
/// state, and with `--starving` one in which a process starves. Progress is shown on the screen. `BadSize`: a size is outside its
/// limits. `TooManyStates`: the search reached more states than it may keep.
pub fn explore_command<T: Threads + Sync, S: Screen, W: Sink>(
    rt: &T,
    alloc: Global,
    args: &ExploreArgs,
    screen: &mut S,
    w: &mut W,
) -> Result<Ending, CommandFault>
    ensures ends { ExploreEnds args.now (W.tape w.old) (W.tape w.new) result }
    ensures ended { IfOk result (IsEnded false (W.tape w.old).failures (W.tape w.new).failures) }
{
    match args.starving {
        Some(cycles) if args.stuck => tell_both(alloc, args, cycles, screen, w),
        Some(cycles) => tell_starving(alloc, args, cycles, screen, w),
        None if args.stuck => tell_stuck(alloc, args, screen, w),
        None => tell_shortest(rt, alloc, args, screen, w),
    }
}
