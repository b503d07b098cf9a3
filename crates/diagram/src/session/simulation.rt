//! What a session plays its schedule on.

ghost use Rattle.std.specs.Prelude.{◌≡◌, ◌++◌, IfOk, IfSome, OnOk};
ghost use Rattle.schedule.specs.declared.lines.line.Line.{Line as ScheduleLine};
ghost use Rattle.schedule.specs.declared.texts.head.Head.{Head as ScheduleHead};
ghost use Rattle.diagram.specs.Semantics.{Semantics};

use schedule::texts::head::Head;
use schedule::{Count, Line, Schedule};
use std::alloc::{AllocError, Global};

/// A world that a session plays its schedule on, with what the session shows of it. In contracts one record says what each
/// line does and shows, and two laws say that a schedule begins in the same state whatever was played before.
pub trait Simulation: Drop {
    ghost semantics: { Semantics Self };

    /// Goes to where a schedule with this header begins. `Err`: out of memory, or no world has the sizes.
    fn begin(&mut self, alloc: Global, head: Head) -> Result<(), AllocError>
        ensures { OnOk result (self.new ≡ semantics.first self.old head) };

    /// Plays a line of a schedule with this header, and writes each of its steps. Answers the number of a refusal; then
    /// nothing was changed or written.
    fn play_line(
        &mut self,
        alloc: Global,
        head: Head,
        line: &Line,
        out: &mut Vec<u8>,
    ) -> Result<Option<u64>, AllocError>
        ensures refused { IfOk result (λ number. number ≡ semantics.refusal self.old line.now) }
        ensures text { OnOk result (out.new.items ≡ out.old.items ++ semantics.steps_text head self.old line.now) }
        ensures after { OnOk result (self.new ≡ semantics.after self.old line.now) }
        ensures same { IfOk result (λ number. IfSome number (λ k. (out.new.items ≡ out.old.items) × (self.new ≡ self.old))) };

    /// Writes where the processes stand.
    fn put_state(&self, head: Head, out: &mut Vec<u8>) -> Result<(), AllocError>
        ensures { OnOk result (out.new.items ≡ out.old.items ++ semantics.state_text head self.now) };

    /// How many steps a process takes alone after this schedule until its call is answered, if a line can have as many.
    fn steps_to_answer(
        &mut self,
        alloc: Global,
        schedule: &Schedule,
        p: u64,
    ) -> Result<Option<Count>, AllocError>
        ensures count { IfOk result (λ count. count ≡ semantics.steps_to_answer schedule.now self.old p) }
        ensures same { OnOk result (self.new ≡ self.old) };

    ghost begins_after: { (s : Self) (line : ScheduleLine) (head : ScheduleHead)
        → semantics.first (semantics.after s line) head ≡ semantics.first s head };

    ghost begins_again: { (s : Self) (before head : ScheduleHead)
        → semantics.first (semantics.first s before) head ≡ semantics.first s head };
}
