//! One move of a hunt: it is made in the world, and its deed is given to the judge.

ghost use Rattle.std.specs.Prelude.{◌≡◌, ℕ, List, None, IfSome, IsSome};
ghost use Rattle.judge.specs.Kept.{Kept};
ghost use Rattle.schedule.specs.Schedules.{Scheduled};
ghost use Rattle.crashlab.specs.declared.variants.variant.Variant.{Variant as VariantOf};
ghost use Rattle.crashlab.specs.hunts.Hunts.{IsPlayed};
ghost use Rattle.crashlab.specs.hunts.Found.{EndsMove, call_by, line_by, with_line};
ghost use Rattle.crashlab.specs.hunts.Draws.{Sight, seen_after_move};
ghost use Rattle.crashlab.specs.hunts.Hunted.{refusal_of};
ghost use Rattle.crashlab.specs.hunts.Observed.{Observes};

use crate::hunts::moves::{DrawnMove, NextCall};
use crate::hunts::observer::Observer;
use crate::hunts::system_crash::crash_each;
use crate::variants::judge_feed::{MoveOutcome, tell};
use crate::variants::variant_world::VariantWorld;
use judge::Judge;
use rmeworld::Call;

/// Makes a move in a world, gives its deed to the judge, and notes its outcome in the observer. The judge was given all
/// deeds of the world before. None where the world refuses the move: then nothing changes, and the round has no such move.
// Inline: one call a move.
#[inline(always)]
pub fn make(
    world: &mut VariantWorld,
    judge: &mut Judge,
    observer: &mut Observer,
    made: DrawnMove,
) -> Option<MoveOutcome>
    ensures ends { IfSome result (λ m. (variant : VariantOf) (schedule : Scheduled)
        → IsPlayed variant schedule world.old judge.old
        → EndsMove variant (with_line schedule (line_by made)) world.new judge.new m) }
    ensures accepted { IfSome result (λ m. refusal_of world.old made ≡ None) }
    ensures refused { result ≡ None → IsSome (refusal_of world.old made) }
    ensures observes { IfSome result (λ m. (seen : ℕ → List Sight) → Observes seen observer.old
        → Observes (seen_after_move world.old made seen) observer.new) }
    ensures same { result ≡ None → (world.new ≡ world.old) × (judge.new ≡ judge.old) × (observer.new ≡ observer.old) }
{
    match made {
        DrawnMove::Step(p) => walk(world, judge, observer, p),
        DrawnMove::Start(p, NextCall::Lock) => start(
            world,
            observer,
            p,
            NextCall::Lock,
            Call::Lock,
        ),
        DrawnMove::Start(p, next_call) => take_up(world, observer, p, next_call),
        DrawnMove::Crash(p) => crash(world, judge, observer, p),
        DrawnMove::CrashAll => {
            crash_each(world, judge);
            observer.note_system_crash();
            Some(MoveOutcome::On)
        }
    }
}

/// Starts a call that may carry a message.
// Apart: clears room for a message.
#[inline(never)]
fn take_up(
    world: &mut VariantWorld,
    observer: &mut Observer,
    p: u64,
    next_call: NextCall,
) -> Option<MoveOutcome>
    ensures ends { IfSome result (λ m. (variant : VariantOf) (schedule : Scheduled) (judge : Kept)
        → IsPlayed variant schedule world.old judge
        → EndsMove variant (with_line schedule (line_by (DrawnMove.Start p next_call))) world.new judge m) }
    ensures accepted { IfSome result (λ m. refusal_of world.old (DrawnMove.Start p next_call) ≡ None) }
    ensures refused { result ≡ None → IsSome (refusal_of world.old (DrawnMove.Start p next_call)) }
    ensures observes { IfSome result (λ m. (seen : ℕ → List Sight) → Observes seen observer.old
        → Observes (seen_after_move world.old (DrawnMove.Start p next_call) seen) observer.new) }
    ensures same { result ≡ None → (world.new ≡ world.old) × (observer.new ≡ observer.old) }
{
    start(world, observer, p, next_call, next_call.call())
}

/// Starts a call. A start has no deed.
// Inline: one call a start.
#[inline(always)]
fn start(
    world: &mut VariantWorld,
    observer: &mut Observer,
    p: u64,
    next_call: NextCall,
    call: Call,
) -> Option<MoveOutcome>
    requires { call ≡ call_by next_call }
    ensures ends { IfSome result (λ m. (variant : VariantOf) (schedule : Scheduled) (judge : Kept)
        → IsPlayed variant schedule world.old judge
        → EndsMove variant (with_line schedule (line_by (DrawnMove.Start p next_call))) world.new judge m) }
    ensures accepted { IfSome result (λ m. refusal_of world.old (DrawnMove.Start p next_call) ≡ None) }
    ensures refused { result ≡ None → IsSome (refusal_of world.old (DrawnMove.Start p next_call)) }
    ensures observes { IfSome result (λ m. (seen : ℕ → List Sight) → Observes seen observer.old
        → Observes (seen_after_move world.old (DrawnMove.Start p next_call) seen) observer.new) }
    ensures same { result ≡ None → (world.new ≡ world.old) × (observer.new ≡ observer.old) }
{
    match world.take_start(p, call) {
        Ok(()) => {
            observer.note_start(p, next_call);
            Some(MoveOutcome::On)
        }
        Err(_) => None,
    }
}

/// Takes a step. Most steps have no deed and no answer.
// Inline: one call a move.
#[inline(always)]
fn walk(
    world: &mut VariantWorld,
    judge: &mut Judge,
    observer: &mut Observer,
    p: u64,
) -> Option<MoveOutcome>
    ensures ends { IfSome result (λ m. (variant : VariantOf) (schedule : Scheduled)
        → IsPlayed variant schedule world.old judge.old
        → EndsMove variant (with_line schedule (line_by (DrawnMove.Step p))) world.new judge.new m) }
    ensures accepted { IfSome result (λ m. refusal_of world.old (DrawnMove.Step p) ≡ None) }
    ensures refused { result ≡ None → IsSome (refusal_of world.old (DrawnMove.Step p)) }
    ensures observes { IfSome result (λ m. (seen : ℕ → List Sight) → Observes seen observer.old
        → Observes (seen_after_move world.old (DrawnMove.Step p) seen) observer.new) }
    ensures same { result ≡ None → (world.new ≡ world.old) × (judge.new ≡ judge.old) × (observer.new ≡ observer.old) }
{
    if world.take_silent_step(p) {
        return Some(MoveOutcome::On);
    }
    step(world, judge, observer, p)
}

/// Takes a step that may have a deed, or end its call.
fn step(
    world: &mut VariantWorld,
    judge: &mut Judge,
    observer: &mut Observer,
    p: u64,
) -> Option<MoveOutcome>
    ensures ends { IfSome result (λ m. (variant : VariantOf) (schedule : Scheduled)
        → IsPlayed variant schedule world.old judge.old
        → EndsMove variant (with_line schedule (line_by (DrawnMove.Step p))) world.new judge.new m) }
    ensures accepted { IfSome result (λ m. refusal_of world.old (DrawnMove.Step p) ≡ None) }
    ensures refused { result ≡ None → IsSome (refusal_of world.old (DrawnMove.Step p)) }
    ensures observes { IfSome result (λ m. (seen : ℕ → List Sight) → Observes seen observer.old
        → Observes (seen_after_move world.old (DrawnMove.Step p) seen) observer.new) }
    ensures same { result ≡ None → (world.new ≡ world.old) × (judge.new ≡ judge.old) × (observer.new ≡ observer.old) }
{
    if let Some(access) = world.job_next(p) {
        let reports = world.job_on(judge, p, access);
        observer.note_step(p, reports.1);
        return Some(reports.0);
    }
    match world.step_before(judge, p) {
        Ok((made, answer)) => {
            observer.note_step(p, answer);
            Some(made)
        }
        Err(_) => None,
    }
}

/// Crashes a process.
fn crash(
    world: &mut VariantWorld,
    judge: &mut Judge,
    observer: &mut Observer,
    p: u64,
) -> Option<MoveOutcome>
    ensures ends { IfSome result (λ m. (variant : VariantOf) (schedule : Scheduled)
        → IsPlayed variant schedule world.old judge.old
        → EndsMove variant (with_line schedule (line_by (DrawnMove.Crash p))) world.new judge.new m) }
    ensures accepted { IfSome result (λ m. refusal_of world.old (DrawnMove.Crash p) ≡ None) }
    ensures refused { result ≡ None → IsSome (refusal_of world.old (DrawnMove.Crash p)) }
    ensures observes { IfSome result (λ m. (seen : ℕ → List Sight) → Observes seen observer.old
        → Observes (seen_after_move world.old (DrawnMove.Crash p) seen) observer.new) }
    ensures same { result ≡ None → (world.new ≡ world.old) × (judge.new ≡ judge.old) × (observer.new ≡ observer.old) }
{
    match world.take_crash(p) {
        Ok(deed) => {
            let made = tell(judge, &deed);
            observer.note_crash(p);
            Some(made)
        }
        Err(_) => None,
    }
}
