//! What a command writes of the greatest cost of a passage, or that there is none.

ghost use Rattle.std.specs.Prelude.{◌≡◌, ◌++◌, ◌≤◌, false, length, IfOk};
ghost use Rattle.schedule.specs.Schedules.{spelling};
ghost use Rattle.command_parts.specs.Costs.{cost_line as cost_line_by, kind_text as kind_text_by, line_of_cost as line_of_cost_by};
ghost use Rattle.command_parts.specs.Costs.{path_of_cost as path_of_cost_by, status_of_cost as status_of_cost_by, unbounded_line as unbounded_line_by};
ghost use Rattle.command_parts.specs.Endings.{IsEnded, Prints};

use crate::ending::Ending;
use crate::fault::CommandFault;
use crate::findings::{path_of_lasso, tell_text};
use crate::line::put;
use algorithms::PassageKind;
use arrayvec::ArrayString;
use passages::PassageCost;
use schedule::{Schedule, Sink, write_schedule};
use std::alloc::{AllocError, Global};

/// What stands between a process and its cost.
fn kind_text(kind: PassageKind) -> &'static str
    ensures text { result.now ≡ kind_text_by kind }
    ensures few { length result.now ≤ 20 }
{
    match kind {
        PassageKind::Passage => " passage cost ",
        PassageKind::SuperPassage => " super-passage cost ",
    }
}

/// The line that tells what a passage of a process costs on the schedule before it.
fn cost_line(kind: PassageKind, process: u64, cost: u64) -> ArrayString<192>
    ensures { result.bytes ≡ cost_line_by kind process cost }
{
    let mut line = ArrayString::new();
    put(&mut line, "process ", process);
    put(&mut line, kind_text(kind), cost);
    line.push_str("\n");
    line
}

/// The line that tells that passages of a process have no greatest cost, and how many moves of the schedule before it are the cycle.
fn unbounded_line(kind: PassageKind, process: u64, cycle: u64) -> ArrayString<192>
    ensures { result.bytes ≡ unbounded_line_by kind process cycle }
{
    let mut line = ArrayString::new();
    put(&mut line, "process ", process);
    line.push_str(kind_text(kind));
    put(&mut line, "unbounded cycle ", cycle);
    line.push_str("\n");
    line
}

/// Writes a schedule, and then a line.
fn tell_with_line<W: Sink>(
    alloc: Global,
    schedule: &Schedule,
    line: &[u8],
    status: u8,
    w: &mut W,
) -> Result<Ending, CommandFault>
    requires { status ≤ 1 }
    ensures prints { Prints status (spelling schedule.now ++ line.now) (W.tape w.old) (W.tape w.new) result }
    ensures ended { IfOk result (IsEnded false (W.tape w.old).failures (W.tape w.new).failures) }
{
    let mut text = write_schedule(alloc, schedule)?;
    text.extend_from_slice(line)?;
    tell_text(&text, status, w)
}

/// The line that tells what was found.
fn line_of_cost<M>(kind: PassageKind, cost: &PassageCost<M>) -> ArrayString<192>
    ensures { result.bytes ≡ line_of_cost_by kind cost.now }
{
    match cost {
        PassageCost::Greatest(found) => cost_line(kind, found.process, found.cost),
        PassageCost::Unbounded(lasso) => {
            unbounded_line(kind, lasso.process, lasso.cycle.len() as u64)
        }
    }
}

/// The exit status: 1 where no cost is the greatest.
fn status_of_cost<M>(cost: &PassageCost<M>) -> u8
    ensures status { result ≡ status_of_cost_by cost.now }
    ensures few { result ≤ 1 }
{
    match cost {
        PassageCost::Greatest(_) => 0,
        PassageCost::Unbounded(_) => 1,
    }
}

/// The moves of a schedule that reaches the greatest cost, or to the end of a cycle by which there is none.
pub fn path_of_cost<M: Copy>(alloc: Global, cost: &PassageCost<M>) -> Result<Vec<M>, AllocError>
    ensures { IfOk result (λ path. path.items ≡ path_of_cost_by cost.now) }
{
    match cost {
        PassageCost::Greatest(found) => Vec::from_slice(alloc, found.schedule.as_slice()),
        PassageCost::Unbounded(lasso) => path_of_lasso(alloc, lasso),
    }
}

/// Writes the schedule of these moves, and then the line that tells what was found.
pub fn tell_cost<M, W: Sink>(
    alloc: Global,
    schedule: &Schedule,
    kind: PassageKind,
    cost: &PassageCost<M>,
    w: &mut W,
) -> Result<Ending, CommandFault>
    ensures prints { Prints (status_of_cost_by cost.now) (spelling schedule.now ++ line_of_cost_by kind cost.now)
        (W.tape w.old) (W.tape w.new) result }
    ensures ended { IfOk result (IsEnded false (W.tape w.old).failures (W.tape w.new).failures) }
{
    let line = line_of_cost(kind, cost);
    tell_with_line(alloc, schedule, line.as_bytes(), status_of_cost(cost), w)
}
