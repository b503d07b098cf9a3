//! The functions that C calls.

ghost use Rattle.std.specs.Prelude.{◌≡◌, ◌≢◌, ◌+◌, ◌*◌, ◌<◌, ◌≤◌, ◌↔◌, IfSome, Some, None, true, false, is_none, if◌then◌else◌, length};
ghost use Rattle.redomail.specs.Layout.{saturate, size};
ghost use Rattle.rmeworld.specs.ImageRules.{IsLawfulImage, IsFirstBroken};
ghost use Rattle.rmeworld.specs.MachineState.{resting, machine_after_crash, machine_after_start, machine_after_step, next_access, outcome};
ghost use Rattle.rme_c.specs.Blocks.{is_block as is_block_of, image_of};
ghost use Rattle.rme_c.specs.Codes.{refusal_code as code_of_refusal, code_after_step as reports_of, access_for_c as wanted_of, next_for_c as shown_of};
ghost use Rattle.rme_c.specs.Positions.{machine_state_at, machine_state_of, position_of, stage_now, FitsPosition};
ghost use Rattle.rme_c.specs.Runs.{counted_of, fed_zeros, feed_code, IsFedRun, IsStartedRun, IsWholeCall};
ghost use Rattle.rme_c.specs.Starts.{size_cause, call_by, refusal_of, start_cause};
ghost use Rattle.rme_c.specs.Steps.{IsFed};
ghost use Rattle.rme_c.specs.declared.script_position.ScriptPosition.TheVariants as ScriptPositionOf;
ghost use Rattle.rme_c.specs.declared.position.Position.TheVariants as PositionOf;
ghost use Rattle.rme_c.specs.declared.runs.AccessRun.TheVariants as RunOf;
ghost use Rattle.rmecore.specs.declared.stage.Stage.TheVariants as StageOf;
ghost use Rattle.rmeworld.specs.declared.call.Call.TheVariants as CallOf;

use crate::accesses::next_at;
use crate::answers::{NOTHING, access_for_c, refusal_code, tell};
use crate::blocks::{block_words, image, is_block};
use crate::clean_steps::quick_feed;
use crate::lock_arms::{lock_feed, scan_feed};
use crate::position::{
    Position, append_position, is_checking, is_idle, is_inside, lock_stage, machine_state,
    position_now, scan_stage,
};
use crate::process::{RmeAccess, RmeCall, RmePosition, RmeProcess};
use crate::runs::{feed_run, leave, run_at_start};
use crate::script_position::ScriptPosition;
use crate::starts::{is_sized, quick_start, size_refusal, start};
use crate::steps::{after_check, script_position_step};
use redomail::Layout;
use rmecore::Stage;
use rmeworld::first_rule;
use std::alloc::Global;

/// The number of words of a world's shared block: three lock words for each process, then the data words. 0: no world has
/// these sizes.
#[unsafe(no_mangle)]
pub extern "C" fn rme_words(procs: u64, cap: u64, width: u64) -> u64
    ensures some { 0 < result → result ≡ 3 * procs + size (record { procs = procs; cap = cap; width = width }) }
    ensures sized { size_cause (record { procs = procs; cap = cap; width = width }) 1 0 ≡ None ↔ (0 < result) }
{
    match size_refusal(Layout { procs, cap, width }, 1, 0) {
        Some(_) => 0,
        None => block_words(Layout { procs, cap, width }),
    }
}

/// Makes a process at rest, and answers 0; or answers the number of the first refusal of the sizes, and changes nothing.
#[unsafe(no_mangle)]
pub extern "C" fn rme_init(
    p: &mut RmeProcess,
    procs: u64,
    cap: u64,
    width: u64,
    limit: u64,
    index: u64,
) -> u64
    ensures status { result ≡ code_of_refusal (size_cause (record { procs = procs; cap = cap; width = width }) limit index) }
    ensures made { result ≡ 0 → machine_state_of p.new ≡ resting (record { procs = procs; cap = cap; width = width }) limit index }
    ensures steps { result ≡ 0 → p.new.steps ≡ 0 }
    ensures refused { result ≢ 0 → p.new ≡ p.old }
{
    let layout = Layout { procs, cap, width };
    let refused = size_refusal(layout, limit, index);
    if refused.is_none() {
        *p = RmeProcess {
            procs,
            cap,
            width,
            limit,
            index,
            position: RmePosition {
                at: 0,
                first: 0,
                second: 0,
                third: 0,
            },
            unmended: 0,
            barred: 0,
            steps: 0,
            value: [0; 8],
        };
    }
    refusal_code(refused)
}

/// A crash: the private memory is lost.
#[unsafe(no_mangle)]
pub extern "C" fn rme_crash(p: &mut RmeProcess)
    ensures crashed { machine_state_of p.new ≡ machine_after_crash (machine_state_of p.old) }
    // The count of own steps stays that of the last call.
    ensures steps { p.new.steps ≡ p.old.steps }
{
    p.unmended = 0;
    p.barred = 0;
    p.position = RmePosition {
        at: 1,
        first: 0,
        second: 0,
        third: 0,
    };
}

/// Starts a call, names its first access in `next`, and answers 0. Or it answers the number of the refusal of the sizes, of
/// the call's code (13) or of the start, and changes nothing.
#[unsafe(no_mangle)]
pub extern "C" fn rme_start(p: &mut RmeProcess, call: &RmeCall, next: &mut RmeAccess) -> u64
    ensures status { result ≡ code_of_refusal (start_cause (machine_state_of p.old) call.now) }
    ensures started { result ≡ 0 → IfSome (call_by p.old.width call.now)
        (λ c. machine_state_of p.new ≡ machine_after_start (machine_state_of p.old) c) }
    ensures next { result ≡ 0 → next.new ≡ shown_of p.old.procs None (next_access (machine_state_of p.new)) }
    ensures steps { result ≡ 0 → p.new.steps ≡ 0 }
    ensures refused { result ≢ 0 → (p.new ≡ p.old) × (next.new ≡ next.old) }
{
    refusal_code(start(p, call, next))
}

/// Takes a step of a script on the data words.
// Inline: once in each script step.
#[inline(always)]
pub(crate) fn script_position_feed(
    p: &mut RmeProcess,
    script_position: ScriptPosition,
    value: u64,
    next: &mut RmeAccess,
) -> u64
    requires here { position_of p.old ≡ PositionOf.Within script_position }
    requires fits { FitsPosition p.old (PositionOf.Within script_position) }
    requires eight { length p.old.value ≡ 8 }
    ensures { IsFed p.old value p.new next.old next.new result }
{
    // For the proof alone: its value is read.
    let _whole = *p;
    let (to, reports) = script_position_step(p, script_position, value);
    machine_state(p, to);
    p.steps = p.steps.saturating_add(1);
    tell(p.procs, reports, next_at(p, to), next)
}

/// Takes the step of the ruin check.
// Inline: once in each entry.
#[inline(always)]
pub(crate) fn check_feed(p: &mut RmeProcess, value: u64, steps: u64, next: &mut RmeAccess) -> u64
    requires here { position_of p.old ≡ PositionOf.Within ScriptPositionOf.Checking }
    requires fits { FitsPosition p.old (PositionOf.Within ScriptPositionOf.Checking) }
    requires eight { length p.old.value ≡ 8 }
    requires steps { steps ≡ p.old.steps + 1 }
    ensures fed { IsFed p.old value p.new next.old next.new result }
    ensures inside { value ≢ 1 → position_of p.new ≡ PositionOf.Lock StageOf.Inside }
{
    // For the proof alone: its value is read.
    let _whole = *p;
    let (after_it, reports) = after_check(p, value);
    machine_state(p, after_it);
    p.steps = steps;
    tell(p.procs, reports, next_at(p, after_it), next)
}

/// Takes the next step at a stage of the lock's part. 7: no call is under way.
// Inline: once in each C step.
#[inline(always)]
fn whole_feed(p: &mut RmeProcess, stage: Stage, value: u64, next: &mut RmeAccess) -> u64
    requires here { position_of p.old ≡ PositionOf.Lock stage }
    requires fits { FitsPosition p.old (PositionOf.Lock stage) }
    requires eight { length p.old.value ≡ 8 }
    ensures { IsFed p.old value p.new next.old next.new result }
{
    // For the proof alone: its value is read.
    let _whole = *p;
    if is_idle(p, Position::Lock(stage)) {
        *next = NOTHING;
        return 7;
    }
    lock_feed(p, stage, value, next)
}

/// Takes the next step from any position.
// Apart: keeps a common step small.
#[inline(never)]
fn any_feed(p: &mut RmeProcess, value: u64, next: &mut RmeAccess) -> u64
    requires eight { length p.old.value ≡ 8 }
    ensures { IsFed p.old value p.new next.old next.new result }
{
    // For the proof alone: its value is read.
    let _whole = *p;
    match position_now(p) {
        Position::Lost => {
            *next = NOTHING;
            7
        }
        Position::Lock(stage) => whole_feed(p, stage, value, next),
        Position::Within(script_position) => script_position_feed(p, script_position, value, next),
    }
}

/// Answers 7: no call is under way, since the index is no process's.
// Inline: a few instructions.
#[inline(always)]
fn nowhere(p: &mut RmeProcess, value: u64, next: &mut RmeAccess) -> u64
    requires beyond { p.old.procs ≤ p.old.index }
    requires eight { length p.old.value ≡ 8 }
    ensures { IsFed p.old value p.new next.old next.new result }
{
    // For the proof alone: its value is read.
    let _whole = *p;
    let _ = value;
    *next = NOTHING;
    7
}

/// Takes the step of a scan.
// Inline: each scan step, the hottest.
#[inline(always)]
fn scan_on(p: &mut RmeProcess, stage: Stage, value: u64, steps: u64, next: &mut RmeAccess) -> u64
    requires here { position_of p.old ≡ PositionOf.Lock stage }
    requires fits { FitsPosition p.old (PositionOf.Lock stage) }
    requires eight { length p.old.value ≡ 8 }
    requires steps { steps ≡ p.old.steps + 1 }
    ensures { IsFed p.old value p.new next.old next.new result }
{
    // For the proof alone: its value is read.
    let _whole = *p;
    match scan_feed(p, stage, value, steps, next) {
        Some(code) => code,
        None => any_feed(p, value, next),
    }
}

/// Takes the next step at a stage of the lock's part, by the short way if it has one.
// Inline: once in each C step.
#[inline(always)]
pub(crate) fn stage_feed(
    p: &mut RmeProcess,
    stage: Stage,
    value: u64,
    steps: u64,
    next: &mut RmeAccess,
) -> u64
    requires here { position_of p.old ≡ PositionOf.Lock stage }
    requires fits { FitsPosition p.old (PositionOf.Lock stage) }
    requires eight { length p.old.value ≡ 8 }
    requires steps { steps ≡ p.old.steps + 1 }
    ensures { IsFed p.old value p.new next.old next.new result }
{
    // For the proof alone: its value is read.
    let _whole = *p;
    match quick_feed(p, stage, value, steps, next) {
        Some(code) => code,
        None => any_feed(p, value, next),
    }
}

/// Takes the next step, by the short way if it has one.
// Inline: once in each C step.
#[inline(always)]
fn short_feed(p: &mut RmeProcess, value: u64, steps: u64, next: &mut RmeAccess) -> u64
    requires eight { length p.old.value ≡ 8 }
    requires steps { steps ≡ p.old.steps + 1 }
    ensures { IsFed p.old value p.new next.old next.new result }
{
    // For the proof alone: its value is read.
    let _whole = *p;
    match lock_stage(p) {
        Some(stage) => stage_feed(p, stage, value, steps, next),
        None if value != 1 && is_checking(p) => check_feed(p, value, steps, next),
        None => append_feed(p, value, next),
    }
}

/// Takes the next step, by the short way if it is one of an append.
// Inline: each step of an append.
#[inline(always)]
fn append_feed(p: &mut RmeProcess, value: u64, next: &mut RmeAccess) -> u64
    requires eight { length p.old.value ≡ 8 }
    ensures { IsFed p.old value p.new next.old next.new result }
{
    // For the proof alone: its value is read.
    let _whole = *p;
    match append_position(p) {
        Some(script_position) => script_position_feed(p, script_position, value, next),
        None => any_feed(p, value, next),
    }
}

/// Takes the next step, by the short way if it has one. Steps of a scan are the most frequent, so they come first.
// Inline: once in each C step.
#[inline(always)]
fn counted_feed(p: &mut RmeProcess, value: u64, steps: u64, next: &mut RmeAccess) -> u64
    requires eight { length p.old.value ≡ 8 }
    requires steps { steps ≡ p.old.steps + 1 }
    ensures { IsFed p.old value p.new next.old next.new result }
{
    // For the proof alone: its value is read.
    let _whole = *p;
    match scan_stage(p) {
        Some(stage) => scan_on(p, stage, value, steps, next),
        None => short_feed(p, value, steps, next),
    }
}

/// Names the next load or store in `next`, and answers 0. 7: no call is under way, and `next` stays as it was.
#[unsafe(no_mangle)]
pub extern "C" fn rme_next(p: &RmeProcess, next: &mut RmeAccess) -> u64
    ensures status { result ≡ if is_none (next_access (machine_state_of p.now)) then 7 else 0 }
    ensures access { IfSome (next_access (machine_state_of p.now)) (λ a. next.new ≡ wanted_of p.now.procs a) }
    ensures idle { next_access (machine_state_of p.now) ≡ None → next.new ≡ next.old }
{
    match next_at(p, position_now(p)) {
        Some(access) => {
            *next = access_for_c(p.procs, access);
            0
        }
        None => 7,
    }
}

/// Takes the next step, with the value that it read, and answers what it was. 64 or more: the call goes on with a load of
/// the lock word at the place that is the answer less 64. 0: it goes on with another access. 16: the step was blocked. 7: no
/// call is under way. Any other number is the answer that ends the call. Below 64, `next` is the next access, or the board
/// word that was read.
#[unsafe(no_mangle)]
pub extern "C" fn rme_feed(p: &mut RmeProcess, value: u64, next: &mut RmeAccess) -> u64
    ensures exact { machine_state_of p.new ≡ machine_after_step (machine_state_of p.old) value }
    ensures reports { result ≡ reports_of (machine_state_of p.old) value }
    ensures next { result < 64 → next.new ≡ shown_of p.old.procs
        (outcome (machine_state_of p.old) (next_access (machine_state_of p.old)) value).answer
        (next_access (machine_state_of p.new)) }
    ensures kept { 64 ≤ result → next.new ≡ next.old }
    ensures few { result < 256 }
    ensures steps { p.new.steps ≡ if is_none (next_access (machine_state_of p.old)) then p.old.steps else saturate (p.old.steps + 1) }
    ensures idle { is_none (next_access (machine_state_of p.old)) ≡ true → p.new ≡ p.old }
{
    // For the proof alone: its value is read.
    let _whole = *p;
    if p.procs > 64 {
        return any_feed(p, value, next);
    }
    if p.index >= p.procs {
        return nowhere(p, value, next);
    }
    match p.steps.checked_add(1) {
        Some(steps) => counted_feed(p, value, steps, next),
        None => any_feed(p, value, next),
    }
}

/// Starts any call, and answers the run that comes next.
// Apart: keeps a common start small.
#[inline(never)]
fn any_start_run(p: &mut RmeProcess, call: &RmeCall, next: &mut RmeAccess) -> u64
    ensures { IsStartedRun p.old call.now p.new next.old next.new result }
{
    let refused = rme_start(p, call, next);
    if refused != 0 {
        return refused;
    }
    run_at_start(p, next)
}

/// Starts a call by the short way, if it has one, and answers the run that comes next. None: it has none, and nothing changed.
// Inline: once in each C start.
#[inline(always)]
fn quick_start_run(p: &mut RmeProcess, call: &RmeCall, next: &mut RmeAccess) -> Option<u64>
    ensures started { IfSome result (IsStartedRun p.old call.now p.new next.old next.new) }
    ensures none { result ≡ None → (p.new ≡ p.old) × (next.new ≡ next.old) }
{
    match quick_start(p, call, next) {
        Some(Some(refusal)) => Some(refusal_code(Some(refusal))),
        Some(None) => Some(run_at_start(p, next)),
        None => None,
    }
}

/// Starts a call as `rme_start` does. 256 or more: it is started, and the run with this code comes next.
#[unsafe(no_mangle)]
pub extern "C" fn rme_start_run(p: &mut RmeProcess, call: &RmeCall, next: &mut RmeAccess) -> u64
    ensures { IsStartedRun p.old call.now p.new next.old next.new result }
{
    match quick_start_run(p, call, next) {
        Some(code) => code,
        None => any_start_run(p, call, next),
    }
}

/// Starts an unlock with nothing to mend, takes both of its steps, and answers 21: it is one run, of stores alone (`RME_LEAVES`),
/// which C makes after. 0: there is something to mend, or the unlock is refused, and nothing changed.
#[unsafe(no_mangle)]
pub extern "C" fn rme_leave(p: &mut RmeProcess, next: &mut RmeAccess) -> u64
    ensures left { result ≡ 21 → IsWholeCall (machine_state_of p.old) CallOf.Unlock RunOf.Leaves 1 p.new next.new result }
    ensures other { result ≢ 21 → (result ≡ 0) × (p.new ≡ p.old) × (next.new ≡ next.old) }
    ensures when { result ≡ 21 ↔ (refusal_of (machine_state_of p.old) (Some CallOf.Unlock) ≡ None)
        × ((machine_state_of p.old).mended ≡ true) }
{
    // For the proof alone: its value is read.
    let _whole = *p;
    if p.unmended == 0 && is_inside(p) && is_sized(p) {
        leave(p, next)
    } else {
        0
    }
}

/// Feeds a run: this many zeros, and then the value. It leads where as many calls of `rme_feed` lead, and answers what the last one
/// answers; or, where the call goes on with a run, the code of that, from 256 on.
#[unsafe(no_mangle)]
pub extern "C" fn rme_feed_run(
    p: &mut RmeProcess,
    zeros: u64,
    value: u64,
    next: &mut RmeAccess,
) -> u64
    ensures fed { IsFedRun (fed_zeros zeros (counted_of p.old)) value p.new next.new result }
    ensures code { result ≡ feed_code (reports_of (fed_zeros zeros (counted_of p.old)).machine value) (machine_state_of p.new) }
    // No call is under way: nothing is done.
    ensures kept { is_none (next_access (machine_state_of p.old)) ≡ true → p.new ≡ p.old }
{
    // For the proof alone: its value is read.
    let _whole = *p;
    feed_run(p, zeros, value, next)
}

/// The own steps of the last call that was started, at most the greatest u64.
#[unsafe(no_mangle)]
pub extern "C" fn rme_step_count(p: &RmeProcess) -> u64
    ensures { result ≡ p.now.steps }
{
    p.steps
}

/// The first rule that a copied block breaks, from 2 to 9. 0: it keeps them all. 1: the words aren't a block of these sizes.
/// 16: out of memory.
#[unsafe(no_mangle)]
pub extern "C" fn rme_content_rule(
    alloc: Global,
    words: &[u64],
    procs: u64,
    cap: u64,
    width: u64,
    limit: u64,
) -> u64
    ensures misfit { result ≡ 1 ↔ is_block_of (record { procs = procs; cap = cap; width = width }) limit words.now ≡ false }
    ensures lawful { result ≡ 0 → IsLawfulImage (image_of (record { procs = procs; cap = cap; width = width }) limit words.now) }
    ensures broken { 2 ≤ result → result ≢ 16 → IsFirstBroken result
        (image_of (record { procs = procs; cap = cap; width = width }) limit words.now) }
{
    let layout = Layout { procs, cap, width };
    if !is_block(layout, limit, words) {
        return 1;
    }
    match image(alloc, layout, limit, words) {
        Some(image) => first_rule(&image).unwrap_or(0),
        None => 16,
    }
}
