//! The command `draw` on an algorithm's text.

ghost use Rattle.std.specs.Prelude.{◌≡◌, IfOk, option_copied, false};
ghost use Rattle.algorithm_commands.specs.AlgorithmDraws.{AlgorithmDrawEnds, DrawsAlgorithm, WritesDrawing};
ghost use Rattle.algorithm_commands.specs.AlgorithmReplays.{line_numbers as numbers_of};
ghost use Rattle.command_parts.specs.Endings.{IsEnded};

use crate::algorithm_replay_command::algorithm_read;
use crate::run_fault::{line_numbers, replay_fault};
use algorithm_lab::AlgorithmReplayFault;
use algorithms::InitializedAlgorithm;
use cli::arguments::args::AlgorithmDrawArgs;
use command_parts::ending::status_after_verdict;
use command_parts::options::style_of;
use command_parts::schedule_text::schedule_read;
use command_parts::{CommandFault, Ending};
use diagram::{draw_algorithm, write_algorithm_page};
use schedule::{Schedule, Sink, Source, Verdict};
use std::alloc::Global;

/// Plays the schedule on the algorithm, and writes the drawing of its run, or its page.
fn write_run<W: Sink>(
    alloc: Global,
    algorithm: InitializedAlgorithm,
    schedule: &Schedule,
    html: bool,
    svg: bool,
    w: &mut W,
) -> Result<Verdict, AlgorithmReplayFault>
    ensures { WritesDrawing html svg algorithm schedule.now (W.tape w.old) (W.tape w.new) result }
{
    if html {
        return write_algorithm_page(alloc, algorithm, schedule, w);
    }
    draw_algorithm(alloc, algorithm, schedule, style_of(svg), w)
}

/// Plays the schedule on the algorithm, whose lines have these numbers, and writes what is asked for.
fn draw_on_algorithm<W: Sink>(
    alloc: Global,
    algorithm: InitializedAlgorithm,
    schedule: &Schedule,
    numbers: &[u64],
    args: &AlgorithmDrawArgs,
    w: &mut W,
) -> Result<Ending, CommandFault>
    requires { numbers.now ≡ numbers_of algorithm.algorithm }
    ensures reports { DrawsAlgorithm args.now algorithm schedule.now (W.tape w.old) (W.tape w.new) result }
    ensures ended { IfOk result (IsEnded false (W.tape w.old).failures (W.tape w.new).failures) }
{
    match write_run(alloc, algorithm, schedule, args.html, args.svg, w) {
        Ok(verdict) => Ok(Ending {
            status: status_after_verdict(verdict),
            save: None,
        }),
        Err(fault) => Err(replay_fault(numbers, fault)),
    }
}

/// Runs `draw --algorithm`: reads the algorithm from its text, then the schedule; then it draws the schedule's run on a new world
/// of the algorithm and judges it. A fault says what can't be read, which line is refused, or that a device or memory has failed.
#[tactic(auto, using(crate::proofs::AlgorithmTexts::no_algorithm))]
pub fn algorithm_draw_command<R: Source, W: Sink>(
    alloc: Global,
    args: &AlgorithmDrawArgs,
    text: Option<&[u8]>,
    r: &mut R,
    w: &mut W,
) -> Result<Ending, CommandFault>
    ensures ends { AlgorithmDrawEnds args.now (option_copied text.entry) (R.reading r.old) (R.reading r.new) (W.tape w.old)
        (W.tape w.new) result }
    ensures ended { IfOk result (IsEnded false (W.tape w.old).failures (W.tape w.new).failures) }
{
    let algorithm = algorithm_read(alloc, text)?;
    let numbers = line_numbers(alloc, &algorithm.algorithm)?;
    let schedule = schedule_read(alloc, r)?;
    draw_on_algorithm(alloc, algorithm, &schedule, &numbers, args, w)
}
