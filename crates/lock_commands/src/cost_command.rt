//! The command `cost` for variants.

ghost use Rattle.std.specs.Prelude.{◌≡◌, false, IfOk};
ghost use Rattle.command_parts.specs.Endings.{IsEnded};
ghost use Rattle.lock_commands.specs.VariantCosts.{VariantCostEnds, question_of as question_asked};

use crate::explore_command::{calls_of, counts_of, layout_of, schedule_of};
use cli::arguments::args::VariantCostArgs;
use command_parts::costs::{path_of_cost, tell_cost};
use command_parts::{CommandFault, Ending, Meter, Screen, Work};
use lock_explorer::{CostQuestion, ExploreFault, variant_cost};
use schedule::Sink;
use std::alloc::Global;

/// What is asked.
fn question_of(args: &VariantCostArgs) -> CostQuestion
    ensures { result ≡ question_asked args.now }
{
    CostQuestion {
        model: args.model,
        kind: args.kind,
    }
}

/// Runs `cost --variant`: searches the schedules of the variant in this thread, and writes the greatest cost of a passage with a
/// schedule that reaches it, or a schedule whose last moves are a cycle by which there is none. Progress is shown on the screen.
/// `BadSize`: a size is outside its limits. `TooManyStates`: the search reached more states than it may keep.
pub fn variant_cost_command<S: Screen, W: Sink>(
    alloc: Global,
    args: &VariantCostArgs,
    screen: &mut S,
    w: &mut W,
) -> Result<Ending, CommandFault>
    ensures ends { VariantCostEnds args.now (W.tape w.old) (W.tape w.new) result }
    ensures ended { IfOk result (IsEnded false (W.tape w.old).failures (W.tape w.new).failures) }
{
    let layout = layout_of(&args.search)?;
    let calls = calls_of(alloc, &args.search)?;
    let mut meter = Meter::new(screen, Work::Search);
    let found = variant_cost(
        alloc,
        args.search.variant,
        layout,
        args.search.limit,
        counts_of(&args.search),
        &calls,
        question_of(args),
        args.search.states,
        &mut meter,
    );
    meter.end();
    match found {
        Ok(cost) => {
            let path = path_of_cost(alloc, &cost)?;
            let schedule = schedule_of(alloc, &args.search, &path)?;
            tell_cost(alloc, &schedule, args.kind, &cost, w)
        }
        Err(ExploreFault::Refused(_)) => Err(CommandFault::BadSize),
        Err(ExploreFault::TooManyStates) => Err(CommandFault::TooManyStates),
        Err(ExploreFault::OutOfMemory) => Err(CommandFault::OutOfMemory),
    }
}
