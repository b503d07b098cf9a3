//! The command `draw`.

ghost use Rattle.std.specs.Prelude.{◌≡◌, IfErr, IfOk, IfSome, option_copied, false};
ghost use Rattle.diagram.specs.Drawings.{diagram_layout_of, drawing_text};
ghost use Rattle.diagram.specs.Pages.{page_text};
ghost use Rattle.judge.specs.Stands.{Keeps};
ghost use Rattle.judge.specs.Starts.{IsStart, state_of};
ghost use Rattle.judge.specs.Table.{State};
ghost use Rattle.rmeworld.specs.ImageRules.{IsLawfulImage};
ghost use Rattle.rmeworld.specs.ImageStart.{IsStartOf};
ghost use Rattle.rmeworld.specs.Replayed.{world_behaviour};
ghost use Rattle.rmeworld.specs.WorldState.{image_world as world_of_image};
ghost use Rattle.command_parts.specs.Endings.{IsEnded, TellsReads};
ghost use Rattle.lock_commands.specs.Draws.{DrawEnds, draw_manner};
ghost use Rattle.command_parts.specs.Options.{style_of};
ghost use Rattle.command_parts.specs.Statuses.{status_after};
ghost use Rattle.lock_commands.specs.Tellings.{ending_of as ending_for, IsDrawingWritten, Paged, run_start, WritesRun, TellsImage, TellsNew, TellsSchedule, TellsVariant};
ghost use Rattle.schedule.specs.Runs.{deeds_of, run_on};
ghost use Rattle.schedule.specs.Verdicts.{verdict_on};

use crate::play_start::{
    fitting, image_read, image_world, new_judge, new_world, start_at, started_judge, variant_world,
};
use cli::arguments::args::DrawArgs;
use command_parts::ending::status_after_verdict;
use command_parts::options::style_of;
use command_parts::schedule_text::schedule_read;
use command_parts::{CommandFault, Ending};
use crashlab::Variant;
use diagram::{Drawing, End, LifelinePhase, Style, draw, write_drawing, write_page};
use judge::{Judge, Start};
use rmeworld::{Image, Machine};
use schedule::replays::laws::worlds_are_never_found_out;
use schedule::{Schedule, Sink, Source};
use std::alloc::Global;

/// How the command ends after the whole drawing.
fn ending_of(end: End) -> Result<Ending, CommandFault>
    ensures { result ≡ ending_for end }
{
    match end {
        End::Judged(verdict) => Ok(Ending {
            status: status_after_verdict(verdict),
            save: None,
        }),
        End::Refused { line, number, .. } => Err(CommandFault::Refused { line, number }),
    }
}

/// Writes a drawing. The result is how the command ends.
fn write_drawn<W: Sink>(
    alloc: Global,
    drawing: &Drawing,
    style: Style,
    w: &mut W,
) -> Result<Ending, CommandFault>
    ensures written { IsDrawingWritten (W.tape w.old) (W.tape w.new)
        (drawing_text (diagram_layout_of style drawing.now.head drawing.now.rows.items drawing.now.end)
        drawing.now.first drawing.now.rows.items drawing.now.end) drawing.now.end result }
    ensures ended { IfOk result (IsEnded false (W.tape w.old).failures (W.tape w.new).failures) }
{
    write_drawing(alloc, drawing, style, w)?;
    ending_of(drawing.end)
}

/// The words of a machine. It only fails out of memory.
fn image_now<M: Machine>(machine: &M) -> Result<Image, CommandFault>
    ensures image { IfOk result (λ image. image ≡ M.behaviour.image_of machine.now) }
    ensures memory { IfErr result (λ fault. fault ≡ CommandFault.OutOfMemory) }
{
    match machine.image() {
        Ok(image) => Ok(image),
        Err(_) => Err(CommandFault::OutOfMemory),
    }
}

/// Writes a page. The result is how the command ends.
fn write_paged<W: Sink>(
    alloc: Global,
    before: &Image,
    drawing: &Drawing,
    after: &Image,
    w: &mut W,
) -> Result<Ending, CommandFault>
    ensures written { IsDrawingWritten (W.tape w.old) (W.tape w.new) (page_text drawing.now.head drawing.now.first before.now
        drawing.now.rows.items after.now drawing.now.end) drawing.now.end result }
    ensures ended { IfOk result (IsEnded false (W.tape w.old).failures (W.tape w.new).failures) }
{
    write_page(alloc, before, drawing, after, w)?;
    ending_of(drawing.end)
}

/// Plays the schedule on a machine, and writes the page of its run.
fn page_machine<M: Machine, W: Sink>(
    alloc: Global,
    machine: &mut M,
    judge: &mut Judge,
    schedule: &Schedule,
    first: LifelinePhase,
    w: &mut W,
) -> Result<Ending, CommandFault>
    ensures draws { (start : State) → Keeps judge.old start
        → WritesRun Paged (run_start M.behaviour start machine.old first schedule.now) (W.tape w.old) (W.tape w.new) result }
    ensures status { (start : State) → Keeps judge.old start
        → IfOk result (λ ending. ending.status ≡ status_after
        (verdict_on start (deeds_of (run_on M.behaviour 2 machine.old schedule.now.lines).reports))) }
    ensures ended { IfOk result (IsEnded false (W.tape w.old).failures (W.tape w.new).failures) }
{
    let before = image_now(machine)?;
    let drawing = draw(alloc, machine, judge, schedule, first)?;
    let after = image_now(machine)?;
    write_paged(alloc, &before, &drawing, &after, w)
}

/// Plays the schedule on a machine, and draws its run.
fn draw_machine<M: Machine, W: Sink>(
    alloc: Global,
    machine: &mut M,
    judge: &mut Judge,
    schedule: &Schedule,
    first: LifelinePhase,
    args: &DrawArgs,
    w: &mut W,
) -> Result<Ending, CommandFault>
    ensures draws { (start : State) → Keeps judge.old start
        → WritesRun (draw_manner args.now) (run_start M.behaviour start machine.old first schedule.now) (W.tape w.old) (W.tape w.new)
        result }
    ensures status { (start : State) → Keeps judge.old start
        → IfOk result (λ ending. ending.status ≡ status_after
        (verdict_on start (deeds_of (run_on M.behaviour 2 machine.old schedule.now.lines).reports))) }
    ensures ended { IfOk result (IsEnded false (W.tape w.old).failures (W.tape w.new).failures) }
{
    if args.html {
        return page_machine(alloc, machine, judge, schedule, first, w);
    }
    let drawing = draw(alloc, machine, judge, schedule, first)?;
    write_drawn(alloc, &drawing, style_of(args.svg), w)
}

/// The run of the schedule on a new world of the right lock.
fn draw_new<W: Sink>(
    alloc: Global,
    schedule: &Schedule,
    args: &DrawArgs,
    w: &mut W,
) -> Result<Ending, CommandFault>
    ensures draws { TellsNew (draw_manner args.now) schedule.now (W.tape w.old) (W.tape w.new) result }
    ensures fine { IfOk result (λ ending. ending.status ≡ 0) }
    ensures ended { IfOk result (IsEnded false (W.tape w.old).failures (W.tape w.new).failures) }
{
    worlds_are_never_found_out();
    let mut world = new_world(alloc, schedule)?;
    let mut judge = new_judge(alloc, schedule)?;
    draw_machine(
        alloc,
        &mut world,
        &mut judge,
        schedule,
        LifelinePhase::Rest,
        args,
        w,
    )
}

/// The run of the schedule on a new world of a variant of the lock.
fn draw_variant<W: Sink>(
    alloc: Global,
    variant: Variant,
    schedule: &Schedule,
    args: &DrawArgs,
    w: &mut W,
) -> Result<Ending, CommandFault>
    ensures draws { TellsVariant variant (draw_manner args.now) schedule.now (W.tape w.old) (W.tape w.new) result }
    ensures ended { IfOk result (IsEnded false (W.tape w.old).failures (W.tape w.new).failures) }
{
    let mut world = variant_world(alloc, variant, schedule)?;
    let mut judge = new_judge(alloc, schedule)?;
    draw_machine(
        alloc,
        &mut world,
        &mut judge,
        schedule,
        LifelinePhase::Rest,
        args,
        w,
    )
}

/// The run of the schedule on the world of an image, with a judge that starts in the state of the image.
fn draw_started<W: Sink>(
    alloc: Global,
    image: &Image,
    start: &Start,
    schedule: &Schedule,
    args: &DrawArgs,
    w: &mut W,
) -> Result<Ending, CommandFault>
    requires lawful { IsLawfulImage image.now }
    requires begins { IsStartOf image.now start.now }
    requires judged { IsStart start.now }
    ensures draws { WritesRun (draw_manner args.now) (run_start world_behaviour (state_of start.now) (world_of_image image.now)
        LifelinePhase.Dead schedule.now) (W.tape w.old) (W.tape w.new) result }
    ensures fine { IfOk result (λ ending. ending.status ≡ 0) }
    ensures ended { IfOk result (IsEnded false (W.tape w.old).failures (W.tape w.new).failures) }
{
    worlds_are_never_found_out();
    let mut world = image_world(alloc, image)?;
    let mut judge = started_judge(alloc, start)?;
    draw_machine(
        alloc,
        &mut world,
        &mut judge,
        schedule,
        LifelinePhase::Dead,
        args,
        w,
    )
}

/// The run of the schedule on a world that starts from an image.
fn draw_image<W: Sink>(
    alloc: Global,
    image: Image,
    schedule: &Schedule,
    args: &DrawArgs,
    w: &mut W,
) -> Result<Ending, CommandFault>
    requires { IsLawfulImage image }
    ensures draws { TellsImage image (draw_manner args.now) schedule.now (W.tape w.old) (W.tape w.new) result }
    ensures fine { IfOk result (λ ending. ending.status ≡ 0) }
    ensures ended { IfOk result (IsEnded false (W.tape w.old).failures (W.tape w.new).failures) }
{
    let image = fitting(alloc, image, schedule)?;
    let start = start_at(alloc, &image)?;
    draw_started(alloc, &image, &start, schedule, args, w)
}

/// The run of the schedule on the machine that is asked for.
fn draw_schedule<W: Sink>(
    alloc: Global,
    args: &DrawArgs,
    image: Option<Image>,
    schedule: &Schedule,
    w: &mut W,
) -> Result<Ending, CommandFault>
    requires { IfSome image IsLawfulImage }
    ensures draws { TellsSchedule args.now.variant image (draw_manner args.now) schedule.now (W.tape w.old) (W.tape w.new) result }
    ensures fine { args.now.variant ≡ Variant.Right → IfOk result (λ ending. ending.status ≡ 0) }
    ensures ended { IfOk result (IsEnded false (W.tape w.old).failures (W.tape w.new).failures) }
{
    match (image, args.variant) {
        (Some(image), _) => draw_image(alloc, image, schedule, args, w),
        (None, Variant::Right) => draw_new(alloc, schedule, args, w),
        (None, variant) => draw_variant(alloc, variant, schedule, args, w),
    }
}

/// Runs `draw`: reads the image first, then the schedule; then it draws the run and judges it. A fault says what can't be
/// read, which line the world refuses, or that a device or memory has failed.
pub fn draw_command<R: Source, W: Sink>(
    alloc: Global,
    args: &DrawArgs,
    image: Option<&[u8]>,
    r: &mut R,
    w: &mut W,
) -> Result<Ending, CommandFault>
    ensures ends { DrawEnds args.now (option_copied image.entry) (R.reading r.old) (R.reading r.new) (W.tape w.old) (W.tape w.new) result }
    ensures reads { TellsReads (R.reading r.old) (R.reading r.new) result }
    ensures ended { IfOk result (IsEnded false (W.tape w.old).failures (W.tape w.new).failures) }
{
    let image = image_read(alloc, image)?;
    let schedule = schedule_read(alloc, r)?;
    draw_schedule(alloc, args, image, &schedule, w)
}
