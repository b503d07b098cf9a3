//! The steps of a script on the data words.

ghost use Rattle.std.specs.Prelude.{◌≡◌, ◌≢◌, ◌⊎◌, Some, None, false, length};
ghost use Rattle.rmecore.specs.Machine.{word_of};
ghost use Rattle.rmecore.specs.declared.access.Access.TheVariants as AccessOf;
ghost use Rattle.rmecore.specs.declared.kind.Kind.TheVariants as KindOf;
ghost use Rattle.rmecore.specs.declared.stage.Stage.TheVariants as StageOf;
ghost use Rattle.rmecore.specs.declared.word.Word.TheVariants as WordOf;
ghost use Rattle.rmeworld.specs.declared.answer.Answer.TheVariants as AnswerOf;
ghost use Rattle.rmeworld.specs.MachineState.{next_access, InWords};
ghost use Rattle.rme_c.specs.Positions.{machine_state_at, FitsPosition};
ghost use Rattle.rme_c.specs.Steps.{IsStep};
ghost use Rattle.rme_c.specs.declared.position.Position.TheVariants as Position;
ghost use Rattle.rme_c.specs.declared.script_position.ScriptPosition.TheVariants as ScriptPosition;

use crate::answers::Effect;
use crate::position::{Position, layout};
use crate::process::RmeProcess;
use crate::script_position::ScriptPosition;
use redomail::Reply;
use redomail::append::early_reply;
use redomail::layout::{ARMED, CLOSED, COUNT, RECORD, RUINED};
use redomail::record::put_at;
use rmecore::{Access, Kind, Stage, Word};
use rmeworld::Answer;

/// A load of a data word.
// Inline: once in each script step.
#[inline(always)]
fn get(i: u64) -> Access
    ensures { result ≡ AccessOf.Load KindOf.Get (WordOf.Data i) }
{
    Access::Load(Kind::Get, Word::Data(i))
}

/// The get of ruined after an entry.
// Inline: once in each entry.
#[inline(always)]
pub fn check_next(p: &RmeProcess) -> Access
    requires { FitsPosition p.now (Position.Within ScriptPosition.Checking) }
    ensures next { next_access (machine_state_at p.now (Position.Within ScriptPosition.Checking)) ≡ Some result }
    ensures word { InWords p.now.procs (word_of result) }
{
    // For the proof alone: its value is read.
    let _ = &p.index;
    get(RUINED)
}

/// The next access of a script.
// Inline: each step of an append.
#[inline(always)]
pub fn script_position_next(p: &RmeProcess, script_position: ScriptPosition) -> Access
    requires { FitsPosition p.now (Position.Within script_position) }
    ensures next { next_access (machine_state_at p.now (Position.Within script_position)) ≡ Some result }
    ensures word { InWords p.now.procs (word_of result) }
{
    match script_position {
        ScriptPosition::Asking | ScriptPosition::Checking => get(RUINED),
        ScriptPosition::Ruining => Access::Store(Kind::Put, Word::Data(RUINED), 1),
        ScriptPosition::Armed => get(ARMED),
        ScriptPosition::At => get(RECORD),
        ScriptPosition::Seq { .. } => get(RECORD + 1),
        ScriptPosition::Value { read, .. } => get(RECORD + 2 + read),
        ScriptPosition::Redo { at, seq, step } | ScriptPosition::Store { at, seq, step } => {
            let (i, v) = put_at(layout(p), p.index, at, seq, &p.value, step);
            Access::Store(Kind::Put, Word::Data(i), v)
        }
        ScriptPosition::Closed { .. } | ScriptPosition::Closing => get(CLOSED),
        ScriptPosition::Count { .. } => get(COUNT),
        ScriptPosition::Last { .. } => get(layout(p).last(p.index)),
        ScriptPosition::Close => Access::Store(Kind::Put, Word::Data(CLOSED), 1),
        ScriptPosition::Getting { i } => get(layout(p).board(i)),
        ScriptPosition::Putting { i, v } => Access::Store(
            Kind::Put,
            Word::Data(layout(p).board(i)),
            v,
        ),
    }
}

/// The call ends with this answer, at this stage.
// Inline: once in each answer.
#[inline(always)]
fn ends(stage: Stage, answer: Answer) -> (Position, Effect)
    ensures { result ≡ (Position.Lock stage, record { answer = Some answer; blocked = false }) }
{
    let reports = Effect {
        answer: Some(answer),
        blocked: false,
    };
    (Position::Lock(stage), reports)
}

/// The call ends inside, with this reply.
// Inline: once in each answer.
#[inline(always)]
fn after_reply(reply: Reply) -> (Position, Effect)
    ensures { result ≡ (Position.Lock StageOf.Inside, record { answer = Some (AnswerOf.Mail reply); blocked = false }) }
{
    ends(Stage::Inside, Answer::Mail(reply))
}

/// The call goes on at the exit.
// Inline: once in each script step.
#[inline(always)]
fn leaves() -> (Position, Effect)
    ensures { result ≡ (Position.Lock StageOf.Leaving, record { answer = None; blocked = false }) }
{
    let reports = Effect {
        answer: None,
        blocked: false,
    };
    (Position::Lock(Stage::Leaving), reports)
}

/// The call goes on with this script state.
// Inline: once in each script step.
#[inline(always)]
fn on(script_position: ScriptPosition) -> (Position, Effect)
    ensures { result ≡ (Position.Within script_position, record { answer = None; blocked = false }) }
{
    let reports = Effect {
        answer: None,
        blocked: false,
    };
    (Position::Within(script_position), reports)
}

/// After the ruin check that follows an entry.
// Inline: once in each entry.
#[inline(always)]
pub fn after_check(p: &mut RmeProcess, value: u64) -> (Position, Effect)
    requires { FitsPosition p.old (Position.Within ScriptPosition.Checking) }
    ensures step { IsStep p.old (Position.Within ScriptPosition.Checking) value p.new result.0 result.1 }
    ensures same { p.new ≡ record p.old { barred = p.new.barred } }
    ensures inside { value ≢ 1 → result.0 ≡ Position.Lock StageOf.Inside }
{
    if value == 1 {
        p.barred = 1;
        return leaves();
    }
    if p.unmended == 0 {
        ends(Stage::Inside, Answer::Clean)
    } else {
        ends(Stage::Inside, Answer::OwnerDied)
    }
}

/// After the get of ruined with which `consistent` begins: unless the lock is ruined, the repair is next.
fn after_ruined(p: &mut RmeProcess, value: u64) -> (Position, Effect)
    requires { FitsPosition p.old (Position.Within ScriptPosition.Asking) }
    ensures step { IsStep p.old (Position.Within ScriptPosition.Asking) value p.new result.0 result.1 }
    ensures same { p.new ≡ p.old }
{
    // For the proof alone: its value is read.
    let _ = &p.index;
    if value == 1 {
        ends(Stage::Inside, Answer::NotRecoverable)
    } else {
        on(ScriptPosition::Armed)
    }
}

/// After the get of armed.
fn after_armed(p: &mut RmeProcess, value: u64) -> (Position, Effect)
    requires { FitsPosition p.old (Position.Within ScriptPosition.Armed) }
    ensures step { IsStep p.old (Position.Within ScriptPosition.Armed) value p.new result.0 result.1 }
    ensures same { p.new ≡ record p.old { unmended = p.new.unmended } }
{
    if value == 0 {
        p.unmended = 0;
        return after_reply(Reply::Mended(false));
    }
    on(ScriptPosition::At)
}

/// After the get of one more word of the record's value.
fn read_on(p: &mut RmeProcess, at: u64, seq: u64, read: u64, value: u64) -> (Position, Effect)
    requires fits { FitsPosition p.old (Position.Within (ScriptPosition.Value at seq read)) }
    requires eight { length p.old.value ≡ 8 }
    ensures step { IsStep p.old (Position.Within (ScriptPosition.Value at seq read)) value p.new result.0 result.1 }
    ensures same { p.new ≡ record p.old { value = p.new.value } }
{
    p.value[read as usize] = value;
    if read + 1 < p.width {
        return on(ScriptPosition::Value {
            at,
            seq,
            read: read + 1,
        });
    }
    on(ScriptPosition::Redo {
        at,
        seq,
        step: 3 + p.width,
    })
}

/// After a put of a record that is stored again.
fn after_redo(p: &mut RmeProcess, at: u64, seq: u64, step: u64, value: u64) -> (Position, Effect)
    requires fits { FitsPosition p.old (Position.Within (ScriptPosition.Redo at seq step)) }
    requires eight { length p.old.value ≡ 8 }
    ensures step { IsStep p.old (Position.Within (ScriptPosition.Redo at seq step)) value p.new result.0 result.1 }
    ensures same { p.new ≡ record p.old { unmended = p.new.unmended } }
{
    // For the proof alone: its value is read.
    let _ = value;
    if step + 1 < 8 + 2 * p.width {
        return on(ScriptPosition::Redo {
            at,
            seq,
            step: step + 1,
        });
    }
    p.unmended = 0;
    after_reply(Reply::Mended(true))
}

/// What an append does once it has read the three words.
// Inline: each step of an append.
#[inline(always)]
pub fn after_decision(
    p: &mut RmeProcess,
    seq: u64,
    closed: u64,
    count: u64,
    last: u64,
) -> (Position, Effect)
    requires { FitsPosition p.old (Position.Within (ScriptPosition.Last seq closed count)) }
    ensures step { IsStep p.old (Position.Within (ScriptPosition.Last seq closed count)) last p.new result.0 result.1 }
    ensures same { p.new ≡ p.old }
    ensures ends { (result.0 ≡ Position.Lock StageOf.Inside)
        ⊎ (result.0 ≡ Position.Within (ScriptPosition.Store count seq 0)) }
{
    match early_reply(p.cap, seq, closed, count, last) {
        Some(reply) => after_reply(reply),
        None => on(ScriptPosition::Store {
            at: count,
            seq,
            step: 0,
        }),
    }
}

/// After a put of a message that is stored.
// Inline: each step of an append.
#[inline(always)]
pub fn after_store(
    p: &mut RmeProcess,
    at: u64,
    seq: u64,
    step: u64,
    value: u64,
) -> (Position, Effect)
    requires fits { FitsPosition p.old (Position.Within (ScriptPosition.Store at seq step)) }
    requires eight { length p.old.value ≡ 8 }
    ensures step { IsStep p.old (Position.Within (ScriptPosition.Store at seq step)) value p.new result.0 result.1 }
    ensures same { p.new ≡ p.old }
{
    // For the proof alone: its value is read.
    let _ = value;
    let after_it = step + 1;
    if after_it < 8 + 2 * p.width {
        return on(ScriptPosition::Store {
            at,
            seq,
            step: after_it,
        });
    }
    after_reply(Reply::Stored)
}

/// Takes a step of a script.
// Inline: each step of an append.
#[inline(always)]
pub fn script_position_step(
    p: &mut RmeProcess,
    script_position: ScriptPosition,
    value: u64,
) -> (Position, Effect)
    requires fits { FitsPosition p.old (Position.Within script_position) }
    requires eight { length p.old.value ≡ 8 }
    ensures step { IsStep p.old (Position.Within script_position) value p.new result.0 result.1 }
    ensures same { p.new ≡ record p.old { unmended = p.new.unmended; barred = p.new.barred; value = p.new.value } }
{
    match script_position {
        ScriptPosition::Asking => after_ruined(p, value),
        ScriptPosition::Checking => after_check(p, value),
        ScriptPosition::Ruining => leaves(),
        ScriptPosition::Armed => after_armed(p, value),
        ScriptPosition::At => on(ScriptPosition::Seq { at: value }),
        ScriptPosition::Seq { at } => on(ScriptPosition::Value {
            at,
            seq: value,
            read: 0,
        }),
        ScriptPosition::Value { at, seq, read } => read_on(p, at, seq, read, value),
        ScriptPosition::Redo { at, seq, step } => after_redo(p, at, seq, step, value),
        ScriptPosition::Closed { seq } => on(ScriptPosition::Count { seq, closed: value }),
        ScriptPosition::Count { seq, closed } => on(ScriptPosition::Last {
            seq,
            closed,
            count: value,
        }),
        ScriptPosition::Last { seq, closed, count } => after_decision(p, seq, closed, count, value),
        ScriptPosition::Store { at, seq, step } => after_store(p, at, seq, step, value),
        ScriptPosition::Closing if value == 1 => after_reply(Reply::AlreadyClosed),
        ScriptPosition::Closing => on(ScriptPosition::Close),
        ScriptPosition::Close => after_reply(Reply::ClosedNow),
        ScriptPosition::Getting { .. } => after_reply(Reply::Word(value)),
        ScriptPosition::Putting { .. } => after_reply(Reply::Done),
    }
}
