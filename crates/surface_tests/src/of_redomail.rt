//! The items of `redomail`.

use redomail::{Cells, Job, Layout, Message, Next, Reply, Stop, Task, content, run_task};
use rmecore::{Body, Refusal};
use std::alloc::Global;

pub fn new_job(
    alloc: Global,
    layout: Layout,
    sender: u64,
    task: Task,
    words: &[u64],
) -> (Result<Job, Refusal>, Result<Vec<Message>, Refusal>) {
    (
        Job::new(layout, sender, task),
        content(alloc, layout, words),
    )
}

pub fn fed(job: &mut Job, value: u64) -> (Next, Layout, u64, Option<Reply>) {
    job.feed(value);
    (job.next(), job.layout(), job.sender(), job.reply())
}

pub fn run<C: Cells>(
    cells: &mut C,
    job: Job,
    i: u64,
    v: u64,
) -> (Result<Reply, Stop>, Result<u64, Stop>, Result<(), Stop>) {
    (run_task(cells, job), cells.get(i), cells.put(i, v))
}

pub fn fields(layout: Layout, message: Message) -> ((u64, u64, u64), (u64, u64, Body)) {
    let Layout { procs, cap, width } = layout;
    let Message { sender, seq, value } = message;
    ((procs, cap, width), (sender, seq, value))
}

pub fn indexes(layout: Layout) -> Option<(u64, u64, u64, u64)> {
    if layout.width > 8 {
        return None;
    }
    Some((
        layout.board(0),
        layout.last(0),
        layout.place(0, 0),
        layout.words(),
    ))
}

pub fn in_variants(
    task: Task,
    next: Next,
    reply: Reply,
) -> (Option<Body>, Option<Reply>, Option<bool>) {
    let value = match task {
        Task::Append { seq: _, value } => Some(value),
        Task::Close
        | Task::Repair
        | Task::BoardGet(_)
        | Task::BoardPut(_, _)
        | Task::Ruin
        | Task::Check => None,
    };
    let done = match next {
        Next::Get(_) | Next::Put(_, _) => None,
        Next::Done(reply) => Some(reply),
    };
    let flag = match reply {
        Reply::Mended(flag) | Reply::Ruined(flag) => Some(flag),
        Reply::Word(_)
        | Reply::Stored
        | Reply::Already
        | Reply::OutOfOrder
        | Reply::Full
        | Reply::Closed
        | Reply::ClosedNow
        | Reply::AlreadyClosed
        | Reply::Done => None,
    };
    (value, done, flag)
}
