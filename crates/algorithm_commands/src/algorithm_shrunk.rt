//! The command `shrink` on an algorithm's text.

ghost use Rattle.std.specs.Prelude.{◌≡◌, IfOk, option_copied, false};
ghost use Rattle.algorithm_commands.specs.AlgorithmReplays.{line_numbers as numbers_of};
ghost use Rattle.algorithm_commands.specs.AlgorithmShrinks.{AlgorithmShrinkEnds, ShrinksAlgorithm};
ghost use Rattle.command_parts.specs.Endings.{IsEnded};

use crate::algorithm_replay_command::algorithm_read;
use crate::run_fault::{line_numbers, replay_fault};
use algorithm_hunts::shrink_algorithm_schedule;
use algorithms::InitializedAlgorithm;
use command_parts::findings::{tell_fine, tell_schedule};
use command_parts::schedule_text::schedule_read;
use command_parts::{CommandFault, Ending};
use schedule::{Schedule, Sink, Source};
use std::alloc::Global;

/// Shrinks the schedule and writes it, or writes the line of a fine verdict. The algorithm's lines have these numbers.
fn shrink_on_algorithm<W: Sink>(
    alloc: Global,
    algorithm: InitializedAlgorithm,
    schedule: &Schedule,
    numbers: &[u64],
    w: &mut W,
) -> Result<Ending, CommandFault>
    requires { numbers.now ≡ numbers_of algorithm.algorithm }
    ensures reports { ShrinksAlgorithm algorithm schedule.now (W.tape w.old) (W.tape w.new) result }
    ensures ended { IfOk result (IsEnded false (W.tape w.old).failures (W.tape w.new).failures) }
{
    match shrink_algorithm_schedule(alloc, algorithm, schedule) {
        Ok(Some(least)) => tell_schedule(alloc, &least, w),
        Ok(None) => tell_fine(alloc, w),
        Err(fault) => Err(replay_fault(numbers, fault)),
    }
}

/// Runs `shrink --algorithm`: reads the algorithm from its text, then the schedule, plays the schedule on a new world of the
/// algorithm, and shrinks it if the verdict is against. A fault says what can't be read, which line is refused, or that a device or
/// memory has failed.
#[tactic(auto, using(crate::proofs::AlgorithmTexts::no_algorithm))]
pub fn algorithm_shrink_command<R: Source, W: Sink>(
    alloc: Global,
    text: Option<&[u8]>,
    r: &mut R,
    w: &mut W,
) -> Result<Ending, CommandFault>
    ensures ends { AlgorithmShrinkEnds (option_copied text.entry) (R.reading r.old) (R.reading r.new) (W.tape w.old) (W.tape w.new) result }
    ensures ended { IfOk result (IsEnded false (W.tape w.old).failures (W.tape w.new).failures) }
{
    let algorithm = algorithm_read(alloc, text)?;
    let numbers = line_numbers(alloc, &algorithm.algorithm)?;
    let schedule = schedule_read(alloc, r)?;
    shrink_on_algorithm(alloc, algorithm, &schedule, &numbers, w)
}
