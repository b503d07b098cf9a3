//! Schedules and their texts.

ghost use Rattle.std.specs.Prelude.{◌≡◌, ℕ, ◌≤◌, ◌↔◌, ◌⊎◌, List, [], ◌∷◌, ◌++◌, Result, Ok, Err, IsOk, IfOk, IfErr, IsErrOf, OnOk, OnErr, IsTrue, IsFalse};
ghost use Rattle.schedule.specs.Commands.{fits};
ghost use Rattle.schedule.specs.Texts.{Gives};
ghost use Rattle.schedule.specs.Schedules.{Scheduled, IsScheduled, spelling, schedule_at, head_of};

use crate::lines::line::Line;
use crate::texts::fault::TextFault;
use crate::texts::head::Head;
use crate::texts::whole::{add, read_all};
use rmecore::Refusal;
use std::alloc::Global;
use std::marker::Model;

/// A schedule: the sizes of a world, and the lines to play on it.
#[derive(Debug, Drop)]
pub struct Schedule {
    procs: u64,
    limit: u64,
    cap: u64,
    width: u64,
    lines: Vec<Line>,
}

impl Model for Schedule {
    ghost Value = { Scheduled };

    ghost view = { λ s. record { procs = s.procs; limit = s.limit; cap = s.cap; width = s.width; lines = s.lines.items } };

    ghost invariant = { λ s. IsScheduled (record { procs = s.procs; limit = s.limit; cap = s.cap; width = s.width; lines = s.lines.items }) };
}

impl Schedule {
    /// A schedule without lines. `BadWidth` unless the width is from 1 to 8.
    /// Whether a world has these sizes is not checked here.
    pub fn new(
        alloc: Global,
        procs: u64,
        limit: u64,
        cap: u64,
        width: u64,
    ) -> Result<Schedule, Refusal>
        ensures ok { IfOk result (λ schedule. schedule ≡ record { procs = procs; limit = limit; cap = cap; width = width; lines = [] }) }
        ensures valid { IsOk result ↔ ((1 ≤ width) × (width ≤ 8)) }
        ensures refused { IfErr result (λ refusal. refusal ≡ Refusal.BadWidth) }
    {
        if width == 0 || width > 8 {
            return Err(Refusal::BadWidth);
        }
        Ok(Schedule {
            procs,
            limit,
            cap,
            width,
            lines: Vec::new(alloc),
        })
    }

    /// Adds a line. `BadWidth` where it holds a value of another width.
    pub fn push(&mut self, line: Line) -> Result<(), Refusal>
        ensures ok { OnOk result (self.new ≡ record self.old { lines = self.old.lines ++ line ∷ [] }) }
        ensures accepted { OnOk result (IsTrue (fits self.old.width line)) }
        ensures refused { IfErr result (λ refusal. (refusal ≡ Refusal.BadWidth)
            × IsFalse (fits self.old.width line) ⊎ (refusal ≡ Refusal.OutOfMemory)) }
        // A wrong width comes before out of memory.
        ensures width { IsFalse (fits self.old.width line) → IsErrOf result Refusal.BadWidth }
        ensures err { OnErr result (self.new ≡ self.old) }
    {
        // The borrow checker has to see what a line holds.
        let line = match line {
            Line::Start(p, call) => Line::Start(p, call),
            Line::Step(p, count) => Line::Step(p, count),
            Line::Crash(p) => Line::Crash(p),
            Line::CrashAll => Line::CrashAll,
        };
        add(&mut self.lines, self.width, line)
    }

    /// The sizes.
    pub fn head(&self) -> Head
        ensures { result ≡ head_of self.now }
    {
        Head {
            procs: self.procs,
            limit: self.limit,
            cap: self.cap,
            width: self.width,
        }
    }

    /// Every schedule has a spelling: its numbers have 64 bits, and a line of steps asks for at least one.
    pub fn can_be_spelled(&self)
        ensures { IsScheduled self.now }
    {
        // For the proof alone: its value is read.
        let _ = &self.lines;
    }

    /// The lines.
    pub fn lines(&self) -> &[Line]
        ensures { result.now ≡ self.now.lines }
    {
        self.lines.as_slice()
    }
}

/// The schedule that the whole text spells.
fn schedule_of(alloc: Global, text: &[u8]) -> Result<Schedule, TextFault>
    ensures { Gives (λ schedule. schedule) result (schedule_at text.now) }
{
    let (head, lines) = read_all::<Head>(alloc, text)?;
    Ok(Schedule {
        procs: head.procs,
        limit: head.limit,
        cap: head.cap,
        width: head.width,
        lines,
    })
}

/// Reads the schedule that the text spells, all of the text.
pub fn read_schedule(alloc: Global, text: &[u8]) -> Result<Schedule, TextFault>
    // The text is the spelling of what is read.
    ensures found { IfOk result (λ schedule. (text.now ≡ spelling schedule) × IsScheduled schedule) }
    // Each spelling is read, unless memory runs out.
    ensures only { (schedule : Scheduled) → IsScheduled schedule → text.now ≡ spelling schedule
        → Gives (λ schedule. schedule) result (Ok schedule) }
    // The fault is the one that the definition gives.
    ensures exact { Gives (λ schedule. schedule) result (schedule_at text.now) }
{
    schedule_of(alloc, text)
}
