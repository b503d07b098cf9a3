//! The items of `explorer`, `lock_explorer` and `diagram`.

use crashlab::Variant;
use diagram::{
    Drawing, LifelinePhase, LockSimulation, Session, SessionReply, Style, draw, follow,
    follow_as_lines, put_verdict_object, write_drawing, write_page,
};
use explorer::{MoveVerdict, SearchFault, SearchOutcome, Space, Unwatched, Watch, search};
use judge::Judge;
use lock_explorer::{Bounds, CrashCounts, ExploreFault, Move, Variables, shortest_schedule};
use redomail::Layout;
use rmeworld::{Call, Image, Machine};
use schedule::{OutOfMemory, ReplayFault, Schedule, Sink, Verdict};
use std::alloc::{AllocError, Global};

pub fn searched<S: Space>(
    alloc: Global,
    start: S,
    most_moves: u64,
    most_states: u64,
) -> Result<SearchOutcome<S::Move>, SearchFault> {
    search(alloc, start, most_moves, most_states, &mut Unwatched)
}

pub fn watched<M: Copy, W: Watch>(
    outcome: &SearchOutcome<M>,
    watch: &mut W,
    moves: u64,
    states: u64,
) -> Option<usize> {
    watch.see(moves, states);
    match outcome {
        SearchOutcome::Path(moves) => Some(moves.len()),
        SearchOutcome::NoneWithin | SearchOutcome::Nowhere(_) => None,
    }
}

pub fn in_variants(
    verdict: MoveVerdict,
    made: Move,
    fault: ExploreFault,
    reply: &SessionReply,
) -> (bool, u64, bool, bool) {
    let is_fault = match verdict {
        MoveVerdict::Fault => true,
        MoveVerdict::Silent => false,
    };
    let process = match made {
        Move::Start(p, _) | Move::Step(p) | Move::Crash(p) => p,
        Move::CrashAll => 0,
    };
    let has_given_up = match fault {
        ExploreFault::TooManyStates => true,
        ExploreFault::Refused(_) | ExploreFault::OutOfMemory => false,
    };
    let quits = *reply == SessionReply::Quits;
    (is_fault, process, has_given_up, quits)
}

pub fn searched_for_schedule<W: Watch>(
    alloc: Global,
    variant: Variant,
    layout: Layout,
    limit: u64,
    calls: &[Call],
    variables: Variables,
    (crashes, moves, states): (CrashCounts, u64, u64),
    watch: &mut W,
) -> Result<SearchOutcome<Move>, ExploreFault> {
    let bounds = Bounds {
        crashes,
        moves,
        states,
    };
    shortest_schedule(
        alloc, variant, layout, limit, calls, variables, &bounds, watch,
    )
}

pub fn written<W: Sink>(
    alloc: Global,
    first: &Image,
    drawing: &Drawing,
    last: &Image,
    w: &mut W,
) -> (
    Result<(), ReplayFault>,
    Result<(), ReplayFault>,
    Result<(), ReplayFault>,
) {
    (
        write_drawing(alloc, drawing, Style::Svg, w),
        write_drawing(alloc, drawing, Style::Text, w),
        write_page(alloc, first, drawing, last, w),
    )
}

pub fn drawn<M: Machine, W: Sink>(
    alloc: Global,
    machine: &mut M,
    judge: &mut Judge,
    schedule: &Schedule,
    first: LifelinePhase,
    w: &mut W,
) -> (
    Result<Drawing, OutOfMemory>,
    Result<Verdict, ReplayFault>,
    Result<Verdict, ReplayFault>,
) {
    (
        draw(alloc, machine, judge, schedule, first),
        follow(alloc, machine, judge, schedule, first, w),
        follow_as_lines(alloc, machine, judge, schedule, first, w),
    )
}

pub fn opened(alloc: Global, schedule: Schedule) -> Result<Session<LockSimulation>, AllocError> {
    Session::new(alloc, schedule)
}

pub fn session_calls(
    alloc: Global,
    session: &mut Session<LockSimulation>,
    line: &[u8],
    verdict: Verdict,
    page: &mut Vec<u8>,
) -> (
    Result<(), AllocError>,
    Result<SessionReply, AllocError>,
    Result<(), AllocError>,
) {
    (
        session.put_state(page),
        session.answer(alloc, line, page),
        put_verdict_object(page, verdict),
    )
}
