//! What a schedule is played on: a world, an image, and the judge of its deeds.

ghost use Rattle.std.specs.Prelude.{◌≡◌, ◌⊎◌, ℕ, [], Ok, Err, None, IfErr, IfOk, IfSome, OnOk, is_some, option_copied, true};
ghost use Rattle.judge.specs.Stands.{StandsAfter};
ghost use Rattle.judge.specs.Starts.{IsStart, state_of};
ghost use Rattle.judge.specs.Table.{empty_state};
ghost use Rattle.rmecore.specs.Refused.{number_of};
ghost use Rattle.rmeworld.specs.ImageRules.{IsLawfulImage};
ghost use Rattle.rmeworld.specs.ImageStart.{IsStartOf};
ghost use Rattle.rmeworld.specs.ImageWiden.{IsWider};
ghost use Rattle.rmeworld.specs.WorldState.{image_world as world_of_image, new_refusal, new_world as world_of_sizes};
ghost use Rattle.crashlab.specs.variants.VariantWorlds.{new_world as world_of_variant};
ghost use Rattle.lock_commands.specs.Settings.{CanFit, IsFitting, IsMadeFit, IsMisfit, IsPicture, IsUnmade, IsWrongImage};
ghost use Rattle.command_parts.specs.Statuses.{fault_of_header, fault_of_image};
ghost use Rattle.schedule.specs.Wholes.{layout_of};

use command_parts::CommandFault;
use crashlab::{Variant, VariantWorld};
use judge::{Judge, Start};
use rmecore::Refusal;
use rmeworld::{Image, World, read_image, start_of, widen};
use schedule::Schedule;
use schedule::texts::head::Head;
use std::alloc::Global;

/// The fault for a header whose world or image is refused: it names line 1.
fn refused_header(refusal: Refusal) -> CommandFault
    ensures { result ≡ fault_of_header (number_of refusal) }
{
    match refusal.number() {
        Some(number) => CommandFault::Refused { line: 1, number },
        None => CommandFault::OutOfMemory,
    }
}

/// The fault for an image that is refused: the rule that it breaks, or out of memory.
fn refused_image(refusal: Refusal) -> CommandFault
    ensures reports { result ≡ fault_of_image refusal }
    ensures rule { (result ≡ CommandFault.OutOfMemory) ⊎ ((rule : ℕ) × (result ≡ CommandFault.Image rule)) }
{
    match refusal {
        Refusal::BadImage { rule } => CommandFault::Image { rule },
        _ => CommandFault::OutOfMemory,
    }
}

/// The image that this text spells, if there is a text. A text that isn't an image is a fault.
pub fn image_read(alloc: Global, text: Option<&[u8]>) -> Result<Option<Image>, CommandFault>
    ensures lawful { IfOk result (λ image. IfSome image IsLawfulImage) }
    ensures given { IfOk result (λ image. is_some image ≡ is_some text.entry) }
    ensures pictured { IfOk result (IsPicture (option_copied text.entry)) }
    ensures unread { IfErr result (IsWrongImage (option_copied text.entry)) }
    ensures wrong { IfErr result (λ fault. (fault ≡ CommandFault.OutOfMemory)
        ⊎ ((is_some text.entry ≡ true) × ((rule : ℕ) × (fault ≡ CommandFault.Image rule)))) }
{
    match text {
        Some(text) => match read_image(alloc, text) {
            Ok(image) => Ok(Some(image)),
            Err(refusal) => Err(refused_image(refusal)),
        },
        None => Ok(None),
    }
}

/// The image with values as wide as the schedule's.
fn wider_image(alloc: Global, image: &Image, schedule: &Schedule) -> Result<Image, CommandFault>
    ensures wider { IfOk result (IsWider schedule.now.width image.now) }
    ensures lawful { IfOk result IsLawfulImage }
    ensures unfit { IfErr result (IsMisfit image.now schedule.now) }
{
    match widen(alloc, image, schedule.head().width) {
        Ok(image) => Ok(image),
        Err(refusal) => Err(refused_header(refusal)),
    }
}

/// The image, widened to the schedule's width if needed. Other sizes must be equal: otherwise line 1 is refused with 9.
pub fn fitting(alloc: Global, image: Image, schedule: &Schedule) -> Result<Image, CommandFault>
    requires lawful { IsLawfulImage image }
    ensures lawful { IfOk result IsLawfulImage }
    ensures fits { IfOk result (λ fitted. IsFitting fitted schedule.now) }
    ensures made { IfOk result (IsMadeFit schedule.now.width image) }
    ensures misfit { (CanFit image schedule.now → ⊥) → result ≡ Err (CommandFault.Refused 1 9) }
    ensures unfit { IfErr result (IsMisfit image schedule.now) }
{
    let head = schedule.head();
    let same = image.lock.as_slice().len() as u64 == head.procs
        && image.limit == head.limit
        && image.cap == head.cap;
    if !same || image.width > head.width {
        return Err(CommandFault::Refused { line: 1, number: 9 });
    }
    if image.width == head.width {
        return Ok(image);
    }
    wider_image(alloc, &image, schedule)
}

/// A new world of the right lock, with the schedule's sizes. A refusal of the sizes is a fault of line 1.
pub fn new_world(alloc: Global, schedule: &Schedule) -> Result<World, CommandFault>
    ensures made { IfOk result (λ world. world ≡ world_of_sizes (layout_of schedule.now) schedule.now.limit) }
    ensures accepted { OnOk result (new_refusal (layout_of schedule.now) schedule.now.limit ≡ None) }
    ensures unmade { IfErr result (IsUnmade schedule.now) }
{
    let head = schedule.head();
    match World::new(alloc, head.procs, head.limit, head.cap, head.width) {
        Ok(world) => Ok(world),
        Err(refusal) => Err(refused_header(refusal)),
    }
}

/// A new world of a variant of the lock, with the schedule's sizes. A refusal of the sizes is a fault of line 1.
pub fn variant_world(
    alloc: Global,
    variant: Variant,
    schedule: &Schedule,
) -> Result<VariantWorld, CommandFault>
    ensures made { IfOk result (λ world. world ≡ world_of_variant variant (layout_of schedule.now) schedule.now.limit) }
    ensures accepted { OnOk result (new_refusal (layout_of schedule.now) schedule.now.limit ≡ None) }
    ensures unmade { IfErr result (IsUnmade schedule.now) }
{
    let Head {
        procs,
        limit,
        cap,
        width,
    } = schedule.head();
    match VariantWorld::new(alloc, variant, procs, limit, cap, width) {
        Ok(world) => Ok(world),
        Err(refusal) => Err(refused_header(refusal)),
    }
}

/// A judge for a new lock with the schedule's sizes. It only fails out of memory, since a world of these sizes was made.
pub fn new_judge(alloc: Global, schedule: &Schedule) -> Result<Judge, CommandFault>
    ensures made { IfOk result (λ judge. StandsAfter (empty_state schedule.now.procs schedule.now.cap) [] judge) }
    ensures memory { IfErr result (λ fault. fault ≡ CommandFault.OutOfMemory) }
{
    let head = schedule.head();
    match Judge::new(alloc, head.procs, head.cap) {
        Ok(judge) => Ok(judge),
        Err(_) => Err(CommandFault::OutOfMemory),
    }
}

/// The world of a lawful image, with every process crashed. It only fails out of memory.
pub fn image_world(alloc: Global, image: &Image) -> Result<World, CommandFault>
    requires { IsLawfulImage image.now }
    ensures made { IfOk result (λ world. world ≡ world_of_image image.now) }
    ensures memory { IfErr result (λ fault. fault ≡ CommandFault.OutOfMemory) }
{
    match World::from_image(alloc, image) {
        Ok(world) => Ok(world),
        Err(_) => Err(CommandFault::OutOfMemory),
    }
}

/// The start of the judge for the world of a lawful image. It only fails out of memory.
pub fn start_at(alloc: Global, image: &Image) -> Result<Start, CommandFault>
    requires { IsLawfulImage image.now }
    ensures begins { IfOk result (IsStartOf image.now) }
    ensures judged { IfOk result IsStart }
    ensures memory { IfErr result (λ fault. fault ≡ CommandFault.OutOfMemory) }
{
    match start_of(alloc, image) {
        Ok(start) => Ok(start),
        Err(_) => Err(CommandFault::OutOfMemory),
    }
}

/// A judge that starts there. It only fails out of memory.
pub fn started_judge(alloc: Global, start: &Start) -> Result<Judge, CommandFault>
    requires { IsStart start.now }
    ensures made { IfOk result (λ judge. StandsAfter (state_of start.now) [] judge) }
    ensures memory { IfErr result (λ fault. fault ≡ CommandFault.OutOfMemory) }
{
    match Judge::from_start(alloc, start) {
        Ok(judge) => Ok(judge),
        Err(_) => Err(CommandFault::OutOfMemory),
    }
}
