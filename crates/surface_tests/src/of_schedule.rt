//! The items of `schedule`. The fields of a schedule and of a trace are private: `new`, `push`, `head` and `lines` or `deeds`
//! are in their place.

use judge::{Deed, Fault, Judge};
use rmecore::Refusal;
use rmeworld::{Image, Machine};
use schedule::replays::replay_loop::close;
use schedule::{
    Count, Failed, FromReader, Line, OutOfMemory, Page, ReplayFault, Schedule, Sink, Source, Text,
    TextFault, ToWriter, Trace, Verdict, judge_trace, put_verdict, read_schedule, read_trace,
    replay, replay_on, replay_to_writer, write_schedule,
};
use std::alloc::{AllocError, Global};
use std::io;

pub fn texts(
    alloc: Global,
    text: &[u8],
    schedule: &Schedule,
) -> (
    Result<Schedule, TextFault>,
    Result<Vec<u8>, OutOfMemory>,
    Result<Trace, TextFault>,
) {
    (
        read_schedule(alloc, text),
        write_schedule(alloc, schedule),
        read_trace(alloc, text),
    )
}

pub fn replayed<R: Source, W: Sink>(
    alloc: Global,
    r: &mut R,
    w: &mut W,
) -> (Result<Verdict, ReplayFault>, Result<Verdict, ReplayFault>) {
    (replay(alloc, r, w), judge_trace(alloc, r))
}

pub fn replayed_on<M: Machine, W: Sink>(
    alloc: Global,
    machine: &mut M,
    judge: &mut Judge,
    schedule: &Schedule,
    w: &mut W,
) -> Result<Verdict, ReplayFault> {
    replay_on(alloc, machine, judge, schedule, w)
}

pub fn end_report<W: Sink>(
    alloc: Global,
    image: &Image,
    verdict: Verdict,
    w: &mut W,
    line: &mut Vec<u8>,
) -> (Result<(), ReplayFault>, Result<(), AllocError>) {
    (close(alloc, image, verdict, w), put_verdict(line, verdict))
}

pub fn new_texts(
    alloc: Global,
    procs: u64,
    limit: u64,
    cap: u64,
    width: u64,
    k: u64,
) -> (
    Result<Schedule, Refusal>,
    Result<Trace, Refusal>,
    Option<Count>,
) {
    (
        Schedule::new(alloc, procs, limit, cap, width),
        Trace::new(alloc, procs, cap, width),
        Count::new(k),
    )
}

pub fn push(
    schedule: &mut Schedule,
    line: Line,
    trace: &mut Trace,
    deed: Deed,
) -> (Result<(), Refusal>, Result<(), Refusal>) {
    (schedule.push(line), trace.push(deed))
}

pub fn fields<'a>(
    schedule: &'a Schedule,
    trace: &'a Trace,
) -> (
    (u64, u64, u64, u64, &'a [Line]),
    (u64, u64, u64, &'a [Deed]),
) {
    let head = schedule.head();
    let of_trace = trace.head();
    (
        (
            head.procs,
            head.limit,
            head.cap,
            head.width,
            schedule.lines(),
        ),
        (of_trace.procs, of_trace.cap, of_trace.width, trace.deeds()),
    )
}

pub fn in_variants(
    line: Line,
    verdict: Verdict,
    text: TextFault,
    replay: ReplayFault,
) -> (
    Option<(u64, u64)>,
    Option<(u64, Fault)>,
    [Option<(u64, u64)>; 2],
) {
    let steps = match line {
        Line::Step(p, k) => Some((p, k.get())),
        Line::Start(_, _) | Line::Crash(_) | Line::CrashAll => None,
    };
    let fault = match verdict {
        Verdict::Fine => None,
        Verdict::Against { at, fault } => Some((at, fault)),
    };
    let of_text = match text {
        TextFault::At { line, number } => Some((line, number)),
        TextFault::OutOfMemory => None,
    };
    let of_replay = match replay {
        ReplayFault::Text { line, number } | ReplayFault::Refused { line, number } => {
            Some((line, number))
        }
        ReplayFault::Read | ReplayFault::Write | ReplayFault::OutOfMemory => None,
    };
    (steps, fault, [of_text, of_replay])
}

pub fn devices<R: Source, W: Sink>(
    r: &mut R,
    buf: &mut [u8],
    w: &mut W,
    bytes: &[u8],
) -> (
    Result<usize, Failed>,
    Result<usize, Failed>,
    Result<(), Failed>,
) {
    (r.read(buf), w.write(bytes), w.flush())
}

/// Of a text in memory onto a page, and of any reader of std to any writer of std.
pub fn devices_replayed<R: io::Read + Drop, W: io::Write + Drop>(
    alloc: Global,
    text: &[u8],
    page: &mut Page,
    reader: R,
    writer: W,
) -> [(Result<Verdict, ReplayFault>, Result<Verdict, ReplayFault>); 2] {
    [
        replayed(alloc, &mut Text::new(text, 1), page),
        replayed(
            alloc,
            &mut FromReader::new(reader),
            &mut ToWriter::new(writer),
        ),
    ]
}

pub fn replayed_to<R: io::Read + Drop, W: io::Write>(
    alloc: Global,
    reader: R,
    writer: W,
    sink: ToWriter<W>,
) -> ((Result<Verdict, ReplayFault>, W), W) {
    (replay_to_writer(alloc, reader, writer), sink.into_inner())
}
