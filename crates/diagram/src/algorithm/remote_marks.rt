//! The marks of remote references in an algorithm's run.

ghost use Rattle.std.specs.Prelude.{◌≡◌, ◌++◌, ℕ, [], List, length, IfOk};
ghost use Rattle.algorithms.specs.remote_references.CopyRows.{AreCopiesAfter};
ghost use Rattle.diagram.specs.AlgorithmMarks.{mark_kept, marks_if_declared, marks_kept, marks_of, memory_kept, memory_seen};

use crate::algorithm::event_list::MonitorEvent;
use crate::algorithm::row::AlgorithmAct;
use crate::remote_marks::{RemoteMarks, marks_at};
use algorithms::{AlgorithmWorld, Copies, MemoryEvent, WordAccess};
use std::alloc::{AllocError, Global};

/// An event of a run, with the marks of its access.
#[derive(Clone, Copy)]
pub(crate) struct MarkedEvent {
    pub event: MonitorEvent,
    pub marks: Option<RemoteMarks>,
}

/// The marks of p's next access, of a declared word.
fn marks_if_declared(
    copies: &Copies,
    world: &AlgorithmWorld,
    p: u64,
    access: WordAccess,
) -> Option<RemoteMarks>
    ensures { (run : List MemoryEvent) → AreCopiesAfter (length world.now.algorithm.declarations.items) run copies.now
        → result ≡ marks_if_declared world.now run p access }
{
    let algorithm = world.algorithm();
    let home = algorithm.home_of(access.address, world.procs(), world.limit());
    marks_at(
        copies,
        algorithm.declarations.as_slice().len(),
        home,
        p,
        access,
    )
}

/// The marks of what p does next.
fn marks_of(
    copies: &Copies,
    world: &AlgorithmWorld,
    p: u64,
    act: AlgorithmAct,
) -> Option<RemoteMarks>
    ensures { (run : List MemoryEvent) → AreCopiesAfter (length world.now.algorithm.declarations.items) run copies.now
        → result ≡ marks_of world.now run p act }
{
    match act {
        AlgorithmAct::Took(access, _) | AlgorithmAct::Blocked(access, _, _) => {
            marks_if_declared(copies, world, p, access)
        }
        AlgorithmAct::Further | AlgorithmAct::Crashed => None,
    }
}

/// Changes the copies by what p does.
fn note_act(copies: &mut Copies, p: u64, act: AlgorithmAct)
    ensures { (declarations : ℕ) (run : List MemoryEvent) → AreCopiesAfter declarations run copies.old
        → AreCopiesAfter declarations (run ++ memory_seen p act) copies.new }
{
    match act {
        AlgorithmAct::Took(access, _) | AlgorithmAct::Blocked(access, _, _) => {
            copies.note(MemoryEvent::Access(p, access))
        }
        AlgorithmAct::Crashed => copies.note(MemoryEvent::Crash(p)),
        AlgorithmAct::Further => {}
    }
}

/// An event with its marks. It changes the copies.
fn mark_event(copies: &mut Copies, world: &AlgorithmWorld, event: &MonitorEvent) -> MarkedEvent
    ensures marked { (run : List MemoryEvent) → AreCopiesAfter (length world.now.algorithm.declarations.items) run copies.old
        → result ≡ mark_kept world.now run event.now }
    ensures copies { (declarations : ℕ) (run : List MemoryEvent) → AreCopiesAfter declarations run copies.old
        → AreCopiesAfter declarations (run ++ memory_kept event.now) copies.new }
{
    let p = event.process();
    let act = event.act();
    let marks = marks_of(copies, world, p, act);
    note_act(copies, p, act);
    MarkedEvent {
        event: *event,
        marks,
    }
}

/// The events of a run, each with its marks.
pub(crate) fn mark_events(
    alloc: Global,
    world: &AlgorithmWorld,
    events: &[MonitorEvent],
) -> Result<Vec<MarkedEvent>, AllocError>
    ensures { IfOk result (λ marked. marked.items ≡ marks_kept world.now [] events.now) }
{
    let mut copies = Copies::new(alloc, world.algorithm().declarations.as_slice().len())?;
    let mut marked = Vec::new(alloc);
    for event in events {
        marked.push(mark_event(&mut copies, world, event))?;
    }
    Ok(marked)
}
