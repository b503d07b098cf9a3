//! The sizes of a world, and the starts of calls.

ghost use Rattle.std.specs.Prelude.{◌≡◌, ◌≤◌, ◌<◌, ◌↔◌, OnOk, OnErr, IfErr, IfSome, IsSome, IsTrue, Some, None, length};
ghost use Rattle.redomail.specs.Layout.{IsLayout};
ghost use Rattle.rmeworld.specs.Refused.{is_idle, is_inside, is_waiting, start_refusal};
ghost use Rattle.rmeworld.specs.MachineState.{process_state_of, machine_after_start, next_access, IsSize};
ghost use Rattle.rme_c.specs.Codes.{next_for_c as shown_of};
ghost use Rattle.rme_c.specs.Positions.{machine_state_at, machine_state_of, layout_of, position_of, FitsPosition};
ghost use Rattle.rme_c.specs.Starts.{size_cause, call_by, call_cause, start_cause};
ghost use Rattle.rme_c.specs.declared.position.Position.TheVariants as PositionOf;
ghost use Rattle.rmecore.specs.declared.stage.Stage.TheVariants as StageOf;

use crate::accesses::next_at;
use crate::answers::next_for_c;
use crate::position::{Position, is_inside, layout, machine_state, position_now};
use crate::process::{RmeAccess, RmeCall, RmeProcess};
use crate::script_position::ScriptPosition;
use redomail::Layout;
use rmecore::simulated::{MOST_LIMIT, MOST_PROCS};
use rmecore::{Body, CoreCall, Refusal, Stage};
use rmeworld::Call;
use rmeworld::readiness::Readiness;

/// Why no world has these sizes and this process, if so.
pub fn size_refusal(layout: Layout, limit: u64, index: u64) -> Option<Refusal>
    ensures is { result ≡ size_cause layout limit index }
    ensures sized { result ≡ None → IsSize layout × (index < layout.procs) }
{
    if layout.procs == 0 || layout.procs > MOST_PROCS {
        return Some(Refusal::BadProcs);
    }
    if limit == 0 || limit > MOST_LIMIT {
        return Some(Refusal::BadLimit);
    }
    if index >= layout.procs {
        return Some(Refusal::NoSuchProcess);
    }
    if layout.cap == 0 || layout.cap > 65_536 {
        return Some(Refusal::BadCap);
    }
    if layout.width == 0 || layout.width > 8 {
        return Some(Refusal::BadWidth);
    }
    None
}

/// The call that C has written. None: no call has this code.
pub fn call_of(width: u64, call: &RmeCall) -> Option<Call>
    requires least { 1 ≤ width }
    requires most { width ≤ 8 }
    ensures { result ≡ call_by width call.now }
{
    match call.code {
        1 => Some(Call::Lock),
        2 => Some(Call::Unlock),
        3 => Some(Call::Consistent),
        4 => Some(Call::Recover),
        5 => {
            let value = Body::new(&call.value[..width as usize]).ok()?;
            Some(Call::Append {
                seq: call.number,
                value,
            })
        }
        6 => Some(Call::Close),
        7 => Some(Call::Get(call.number)),
        8 => Some(Call::Put(call.number, call.value[0])),
        9 => Some(Call::Withdraw),
        _ => None,
    }
}

/// What the refusals of a start need to know of a process.
// Inline: once in each C start.
#[inline(always)]
fn readiness(p: &RmeProcess, position: Position) -> Readiness
    ensures idle { result.is_idle ≡ is_idle (process_state_of (machine_state_at p.now position)) }
    ensures inside { result.is_inside ≡ is_inside (machine_state_at p.now position).lock }
    ensures waiting { result.is_waiting ≡ is_waiting (machine_state_at p.now position).lock }
    ensures mended { result.is_mended ≡ (machine_state_at p.now position).mended }
{
    let (is_idle, is_inside, is_waiting) = match position {
        Position::Lost | Position::Lock(Stage::Rest | Stage::Dead) => (true, false, false),
        Position::Lock(Stage::Inside) => (true, true, false),
        Position::Lock(Stage::Wait { .. }) => (false, false, true),
        Position::Lock(_) => (false, false, false),
        Position::Within(_) => (false, true, false),
    };
    Readiness {
        is_idle,
        is_inside,
        is_waiting,
        is_mended: p.unmended == 0,
    }
}

/// Refuses a call that can't be started now.
// Inline: once in each C start.
#[inline(always)]
fn check(p: &RmeProcess, position: Position, call: &Call) -> Result<(), Refusal>
    ensures accepted { OnOk result (start_refusal (layout_of p.now) (process_state_of (machine_state_at p.now position)) call.now
        ≡ None) }
    ensures refused { IfErr result (λ e. start_refusal (layout_of p.now) (process_state_of (machine_state_at p.now position))
        call.now ≡ Some e) }
{
    readiness(p, position).check(p.width, call)
}

/// The position right after the start of a call that may start.
// Inline: once in each C start.
#[inline(always)]
fn begin(p: &mut RmeProcess, position: Position, call: Call) -> Position
    requires allowed { start_refusal (layout_of p.old) (process_state_of (machine_state_at p.old position)) call ≡ None }
    requires lawful { IsLayout (layout_of p.old) }
    requires below { p.old.index < p.old.procs }
    ensures exact { machine_state_at p.new result ≡ machine_after_start (machine_state_at p.old position) call }
    ensures fits { FitsPosition p.new result }
    ensures same { p.new ≡ record p.old { barred = p.new.barred; value = p.new.value } }
{
    p.barred = 0;
    match call {
        Call::Lock => Position::Lock(Stage::ReadingChoosing {
            call: CoreCall::Lock,
        }),
        Call::Recover => Position::Lock(Stage::ReadingChoosing {
            call: CoreCall::Recover,
        }),
        Call::Withdraw => Position::Lock(Stage::Withdrawing),
        Call::Unlock if p.unmended == 0 => Position::Lock(Stage::Leaving),
        Call::Unlock => Position::Within(ScriptPosition::Ruining),
        Call::Consistent => Position::Within(ScriptPosition::Asking),
        Call::Append { seq, value } => {
            p.value = *value.seam_words();
            Position::Within(ScriptPosition::Closed { seq })
        }
        Call::Close => Position::Within(ScriptPosition::Closing),
        Call::Get(i) => Position::Within(ScriptPosition::Getting { i }),
        Call::Put(i, v) => Position::Within(ScriptPosition::Putting { i, v }),
    }
}

/// Starts a call of a process, and names its first access.
// Inline: once in each C start.
#[inline(always)]
fn start_read(p: &mut RmeProcess, call: Call, next: &mut RmeAccess) -> Result<(), Refusal>
    requires sized { IsSize (layout_of p.old) }
    requires below { p.old.index < p.old.procs }
    ensures accepted { OnOk result (call_cause (machine_state_of p.old) (Some call) ≡ None) }
    ensures refused { IfErr result (λ e. call_cause (machine_state_of p.old) (Some call) ≡ Some e) }
    ensures started { OnOk result (machine_state_of p.new ≡ machine_after_start (machine_state_of p.old) call) }
    ensures fresh { OnOk result (p.new.steps ≡ 0) }
    ensures next { OnOk result (next.new ≡ shown_of p.old.procs None (next_access (machine_state_of p.new))) }
    ensures err { OnErr result ((p.new ≡ p.old) × (next.new ≡ next.old)) }
{
    let here = position_now(p);
    check(p, here, &call)?;
    let to = begin(p, here, call);
    machine_state(p, to);
    p.steps = 0;
    *next = next_for_c(p.procs, None, next_at(p, to));
    Ok(())
}

/// Starts a call, whichever it is.
// Inline: once in each C start.
#[inline(always)]
fn start_any(p: &mut RmeProcess, call: &RmeCall, next: &mut RmeAccess) -> Option<Refusal>
    requires sized { IsSize (layout_of p.old) }
    requires below { p.old.index < p.old.procs }
    ensures cause { result ≡ call_cause (machine_state_of p.old) (call_by p.old.width call.now) }
    ensures started { result ≡ None → IfSome (call_by p.old.width call.now)
        (λ c. machine_state_of p.new ≡ machine_after_start (machine_state_of p.old) c) }
    ensures fresh { result ≡ None → p.new.steps ≡ 0 }
    ensures next { result ≡ None → next.new ≡ shown_of p.old.procs None (next_access (machine_state_of p.new)) }
    ensures refused { IsSome result → (p.new ≡ p.old) × (next.new ≡ next.old) }
{
    // For the proof alone: its value is read.
    let _whole = *call;
    if call.code == 5 && p.unmended == 0 && is_inside(p) {
        start_append(p, call, next);
        return None;
    }
    match call_of(p.width, call) {
        Some(call) => start_read(p, call, next).err(),
        None => Some(Refusal::BadIndex),
    }
}

/// Whether the sizes and the index are those of a process of a world.
// Inline: once in each C start.
#[inline(always)]
pub fn is_sized(p: &RmeProcess) -> bool
    ensures cause { IsTrue result ↔ size_cause (layout_of p.now) p.now.limit p.now.index ≡ None }
    ensures sized { IsTrue result → IsSize (layout_of p.now) × (p.now.index < p.now.procs) }
{
    size_refusal(layout(p), p.limit, p.index).is_none()
}

/// Starts an append of a holder with nothing to mend, and names its first access.
// Inline: once in each C start.
#[inline(always)]
fn start_append(p: &mut RmeProcess, call: &RmeCall, next: &mut RmeAccess)
    requires here { position_of p.old ≡ PositionOf.Lock StageOf.Inside }
    requires sized { IsSize (layout_of p.old) }
    requires below { p.old.index < p.old.procs }
    requires mended { p.old.unmended ≡ 0 }
    requires append { call.now.code ≡ 5 }
    requires eight { length call.now.value ≡ 8 }
    ensures cause { call_cause (machine_state_of p.old) (call_by p.old.width call.now) ≡ None }
    ensures started { IfSome (call_by p.old.width call.now) (λ c. machine_state_of p.new
        ≡ machine_after_start (machine_state_of p.old) c) }
    ensures fresh { p.new.steps ≡ 0 }
    ensures next { next.new ≡ shown_of p.old.procs None (next_access (machine_state_of p.new)) }
{
    let to = Position::Within(ScriptPosition::Closed { seq: call.number });
    p.barred = 0;
    p.value = call.value;
    p.steps = 0;
    machine_state(p, to);
    let first = next_at(p, to);
    *next = next_for_c(p.procs, None, first);
}

/// Starts a lock at rest: the frequent case. None: it is another start, and nothing changed.
// Inline: once in each C start.
#[inline(always)]
pub fn quick_start(
    p: &mut RmeProcess,
    call: &RmeCall,
    next: &mut RmeAccess,
) -> Option<Option<Refusal>>
    ensures cause { IfSome result (λ r. r ≡ start_cause (machine_state_of p.old) call.now) }
    ensures started { result ≡ Some None → IfSome (call_by p.old.width call.now)
        (λ c. machine_state_of p.new ≡ machine_after_start (machine_state_of p.old) c) }
    ensures fresh { result ≡ Some None → p.new.steps ≡ 0 }
    ensures next { result ≡ Some None → next.new ≡ shown_of p.old.procs None (next_access (machine_state_of p.new)) }
    ensures refused { IfSome result (λ r. IsSome r → (p.new ≡ p.old) × (next.new ≡ next.old)) }
    ensures other { result ≡ None → (p.new ≡ p.old) × (next.new ≡ next.old) }
{
    match call.code {
        1 if p.position.at == 0 && is_sized(p) => Some(start_read(p, Call::Lock, next).err()),
        _ => None,
    }
}

/// Starts a call and names its first access, or answers why it is refused. A refused call changes nothing.
// Inline: once in each C start.
#[inline(always)]
pub fn start(p: &mut RmeProcess, call: &RmeCall, next: &mut RmeAccess) -> Option<Refusal>
    ensures cause { result ≡ start_cause (machine_state_of p.old) call.now }
    ensures started { result ≡ None → IfSome (call_by p.old.width call.now)
        (λ c. machine_state_of p.new ≡ machine_after_start (machine_state_of p.old) c) }
    ensures fresh { result ≡ None → p.new.steps ≡ 0 }
    ensures next { result ≡ None → next.new ≡ shown_of p.old.procs None (next_access (machine_state_of p.new)) }
    ensures refused { IsSome result → (p.new ≡ p.old) × (next.new ≡ next.old) }
{
    let refused = size_refusal(layout(p), p.limit, p.index);
    if refused.is_some() {
        return refused;
    }
    start_any(p, call, next)
}
