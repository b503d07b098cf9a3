//! What a step of the lock's part leaves.

ghost use Rattle.std.specs.Prelude.{◌≡◌, ◌+◌, ◌<◌, ◌≤◌, ◌==◌, not, Some, None, true, false};
ghost use Rattle.rmecore.specs.declared.core_done.CoreDone.TheVariants as DoneOf;
ghost use Rattle.rmecore.specs.declared.stage.Stage.TheVariants as StageOf;
ghost use Rattle.rmeworld.specs.Entered.{mended_done, checks_done};
ghost use Rattle.rmeworld.specs.Answered.{by_lock};
ghost use Rattle.rmeworld.specs.MachineState.{next_access as next_access_of};
ghost use Rattle.rme_c.specs.Codes.{goes_as, next_for_c as shown_by};
ghost use Rattle.rme_c.specs.Positions.{landing, stage_of, machine_state_at, FitsPosition};
ghost use Rattle.rme_c.specs.declared.position.Position.TheVariants as PositionOf;
ghost use Rattle.rme_c.specs.Steps.{IsLanding};

use crate::accesses::next_at;
use crate::answers::{Effect, tell};
use crate::position::{Position, numbers};
use crate::process::{RmeAccess, RmePosition, RmeProcess};
use crate::script_position::ScriptPosition;
use crate::steps::check_next;
use rmecore::{CoreDone, Found, Stage};
use rmeworld::Answer;
use rmeworld::outcome::core_answer;

/// What a step of the lock's part leaves: the stage, the end of its call if it ended, whether it was blocked, and the code
/// that C is given.
#[derive(Clone, Copy)]
pub struct Landing {
    pub to: Stage,
    pub done: Option<CoreDone>,
    pub blocked: bool,
    pub code: u64,
}

/// 1 if there is something to mend after a step, 0 if not.
// Inline: once in each lock step.
#[inline(always)]
fn mend_flag(before: u64, done: Option<CoreDone>) -> u64
    ensures { (result == 0) ≡ mended_done (before == 0) done }
{
    match done {
        Some(CoreDone::In) => 0,
        Some(CoreDone::InAgain | CoreDone::Found(Found::Inside)) => 1,
        _ => before,
    }
}

/// Whether a step was an entry by a lock.
// Inline: once in each lock step.
#[inline(always)]
fn enters(done: Option<CoreDone>) -> bool
    ensures { result ≡ checks_done done }
{
    match done {
        Some(CoreDone::In | CoreDone::InAgain) => true,
        _ => false,
    }
}

/// The position after a step of the lock's part: after an entry by a lock it is the ruin check.
// Inline: once in each lock step.
#[inline(always)]
fn position_after(p: &RmeProcess, checks: bool, stage: Stage) -> Position
    requires below { p.now.index < p.now.procs }
    requires few { p.now.procs ≤ 64 }
    ensures is { result ≡ landing checks stage }
    ensures fits { FitsPosition p.now result }
{
    // For the proof alone: its value is read.
    let _ = &p.index;
    if checks {
        Position::Within(ScriptPosition::Checking)
    } else {
        Position::Lock(stage)
    }
}

/// Puts the process at a stage.
// Inline: once in each lock step.
#[inline(always)]
pub fn lands(
    p: &mut RmeProcess,
    to: Stage,
    done: Option<CoreDone>,
    blocked: bool,
    next: &mut RmeAccess,
) -> Landing
    requires below { p.old.index < p.old.procs }
    requires few { p.old.procs ≤ 64 }
    ensures to { result.to ≡ to }
    ensures done { result.done ≡ done }
    ensures blocked { result.blocked ≡ blocked }
    ensures numbers { IsLanding p.old result p.new next.old next.new }
{
    let position = position_after(p, enters(done), to);
    let answer = core_answer(p.barred != 0, done);
    let after = next_at(p, position);
    p.unmended = mend_flag(p.unmended, done);
    p.position = numbers(p.position, position);
    p.steps = p.steps.saturating_add(1);
    let code = tell(p.procs, Effect { answer, blocked }, after, next);
    Landing {
        to,
        done,
        blocked,
        code,
    }
}

/// The call goes on at this stage, with these numbers, by a load of the lock word at this place.
// Inline: once in each lock step.
#[inline(always)]
pub fn loads(
    p: &mut RmeProcess,
    to: Stage,
    numbers: RmePosition,
    place: u64,
    steps: u64,
    next: &mut RmeAccess,
) -> Landing
    requires below { p.old.index < p.old.procs }
    requires few { p.old.procs ≤ 64 }
    requires steps { steps ≡ p.old.steps + 1 }
    requires stands { stage_of numbers ≡ Some to }
    requires next { goes_as (next_access_of (machine_state_at p.old (PositionOf.Lock to))) ≡ 64 + place }
    requires word { place < 192 }
    ensures to { result.to ≡ to }
    ensures done { result.done ≡ None }
    ensures free { result.blocked ≡ false }
    ensures numbers { IsLanding p.old result p.new next.old next.new }
{
    // For the proof alone: its value is read.
    let _shown = *next;
    p.position = numbers;
    p.steps = steps;
    Landing {
        to,
        done: None,
        blocked: false,
        code: 64 + place,
    }
}

/// The step was blocked: the same word is loaded again.
// Inline: once in each lock step.
#[inline(always)]
pub fn stays(
    p: &mut RmeProcess,
    to: Stage,
    numbers: RmePosition,
    place: u64,
    steps: u64,
    next: &mut RmeAccess,
) -> Landing
    requires below { p.old.index < p.old.procs }
    requires few { p.old.procs ≤ 64 }
    requires steps { steps ≡ p.old.steps + 1 }
    requires stands { stage_of numbers ≡ Some to }
    requires next { shown_by p.old.procs None (next_access_of (machine_state_at p.old (PositionOf.Lock to)))
        ≡ record { store = 0; place = place; value = 0 } }
    ensures to { result.to ≡ to }
    ensures done { result.done ≡ None }
    ensures blocked { result.blocked ≡ true }
    ensures numbers { IsLanding p.old result p.new next.old next.new }
{
    p.position = numbers;
    p.steps = steps;
    *next = RmeAccess {
        store: 0,
        place,
        value: 0,
    };
    Landing {
        to,
        done: None,
        blocked: true,
        code: 16,
    }
}

/// The call goes on by a store into an own lock word.
// Inline: once in each lock step.
#[inline(always)]
pub fn stores(
    p: &mut RmeProcess,
    to: Stage,
    numbers: RmePosition,
    place: u64,
    value: u64,
    steps: u64,
    next: &mut RmeAccess,
) -> Landing
    requires below { p.old.index < p.old.procs }
    requires few { p.old.procs ≤ 64 }
    requires steps { steps ≡ p.old.steps + 1 }
    requires stands { stage_of numbers ≡ Some to }
    requires goes { goes_as (next_access_of (machine_state_at p.old (PositionOf.Lock to))) ≡ 0 }
    requires next { shown_by p.old.procs None (next_access_of (machine_state_at p.old (PositionOf.Lock to)))
        ≡ record { store = 1; place = place; value = value } }
    ensures to { result.to ≡ to }
    ensures done { result.done ≡ None }
    ensures free { result.blocked ≡ false }
    ensures numbers { IsLanding p.old result p.new next.old next.new }
{
    p.position = numbers;
    p.steps = steps;
    *next = RmeAccess {
        store: 1,
        place,
        value,
    };
    Landing {
        to,
        done: None,
        blocked: false,
        code: 0,
    }
}

/// After the mark that follows the last weigh: the ruin check is next.
// Inline: once in each entry.
#[inline(always)]
pub fn comes_in(p: &mut RmeProcess, steps: u64, next: &mut RmeAccess) -> Landing
    requires below { p.old.index < p.old.procs }
    requires few { p.old.procs ≤ 64 }
    requires steps { steps ≡ p.old.steps + 1 }
    ensures to { result.to ≡ StageOf.Inside }
    ensures done { result.done ≡ Some DoneOf.In }
    ensures free { result.blocked ≡ false }
    ensures numbers { IsLanding p.old result p.new next.old next.new }
{
    let access = check_next(p);
    p.unmended = 0;
    p.position = numbers(p.position, Position::Within(ScriptPosition::Checking));
    p.steps = steps;
    let reports = Effect {
        answer: None,
        blocked: false,
    };
    let code = tell(p.procs, reports, Some(access), next);
    Landing {
        to: Stage::Inside,
        done: Some(CoreDone::In),
        blocked: false,
        code,
    }
}

/// The call ends at rest, with this answer.
// Inline: once in each answer.
#[inline(always)]
fn ends(
    p: &mut RmeProcess,
    done: CoreDone,
    answer: Answer,
    steps: u64,
    next: &mut RmeAccess,
) -> Landing
    requires answer { by_lock (not (p.old.barred == 0)) (Some done) ≡ Some answer }
    requires checks { checks_done (Some done) ≡ false }
    requires mended { mended_done (p.old.unmended == 0) (Some done) ≡ (p.old.unmended == 0) }
    requires few { p.old.procs ≤ 64 }
    requires steps { steps ≡ p.old.steps + 1 }
    ensures to { result.to ≡ StageOf.Rest }
    ensures done { result.done ≡ Some done }
    ensures free { result.blocked ≡ false }
    ensures numbers { IsLanding p.old result p.new next.old next.new }
{
    p.position = numbers(p.position, Position::Lock(Stage::Rest));
    p.steps = steps;
    let reports = Effect {
        answer: Some(answer),
        blocked: false,
    };
    let code = tell(p.procs, reports, None, next);
    Landing {
        to: Stage::Rest,
        done: Some(done),
        blocked: false,
        code,
    }
}

/// No number is left to take.
// Inline: once in each answer.
#[inline(always)]
pub fn runs_out(p: &mut RmeProcess, steps: u64, next: &mut RmeAccess) -> Landing
    requires few { p.old.procs ≤ 64 }
    requires steps { steps ≡ p.old.steps + 1 }
    ensures to { result.to ≡ StageOf.Rest }
    ensures done { result.done ≡ Some DoneOf.Spent }
    ensures free { result.blocked ≡ false }
    ensures numbers { IsLanding p.old result p.new next.old next.new }
{
    ends(p, CoreDone::Spent, Answer::NumbersSpent, steps, next)
}

/// After the last store of an unlock, or of the exit from a ruined lock.
// Inline: once in each answer.
#[inline(always)]
pub fn leaves(p: &mut RmeProcess, steps: u64, next: &mut RmeAccess) -> Landing
    requires few { p.old.procs ≤ 64 }
    requires steps { steps ≡ p.old.steps + 1 }
    ensures to { result.to ≡ StageOf.Rest }
    ensures done { result.done ≡ Some DoneOf.Out }
    ensures free { result.blocked ≡ false }
    ensures numbers { IsLanding p.old result p.new next.old next.new }
{
    if p.barred != 0 {
        return ends(p, CoreDone::Out, Answer::NotRecoverable, steps, next);
    }
    ends(p, CoreDone::Out, Answer::Unlocked, steps, next)
}
