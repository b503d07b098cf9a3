//! The command `step`.

ghost use Rattle.std.specs.Prelude.{◌≡◌, ◌⊎◌, [], Ok, None, IfErr, IfOk, OnOk, option_copied, false};
ghost use Rattle.schedule.specs.Wholes.{world_run};
ghost use Rattle.command_parts.specs.Conversations.{CantBegin, OpensSession, SessionEnds};
ghost use Rattle.lock_commands.specs.Settings.{CantPlay, lock_machine};
ghost use Rattle.command_parts.specs.Devices.{devices};
ghost use Rattle.command_parts.specs.Endings.{FailsToRead, IsEnded};

use crate::play_start::{new_judge, new_world};
use crate::replay_command::on_page;
use command_parts::conversation::{first_text, hold};
use command_parts::schedule_text::schedule_of;
use command_parts::{CommandFault, Ending, Folder};
use diagram::Session;
use schedule::{Page, Schedule, Sink, Source, replay_on};
use std::alloc::Global;

/// Plays a schedule, and answers why a world refuses its sizes or a line.
fn plays(alloc: Global, schedule: &Schedule) -> Result<(), CommandFault>
    ensures accepted { OnOk result ((world_run schedule.now).refused ≡ None) }
    ensures refused { IfErr result (λ fault. (fault ≡ CommandFault.OutOfMemory) ⊎ CantPlay schedule.now fault) }
{
    let mut world = new_world(alloc, schedule)?;
    let mut judge = new_judge(alloc, schedule)?;
    let mut page = Page::new(alloc);
    match replay_on(alloc, &mut world, &mut judge, schedule, &mut page) {
        Ok(_) => Ok(()),
        Err(fault) => Err(on_page(fault)),
    }
}

/// The schedule that a session begins with, none of whose lines is refused.
fn first_schedule<R: Source>(
    alloc: Global,
    start: Option<&[u8]>,
    r: &mut R,
    buffer: &mut Vec<u8>,
) -> Result<Schedule, CommandFault>
    requires { buffer.old.items ≡ [] }
    ensures opens { IfOk result (OpensSession (option_copied start.entry) (R.reading r.old) (R.reading r.new) buffer.new.items) }
    ensures accepted { IfOk result (λ schedule. (world_run schedule).refused ≡ None) }
    ensures refused { IfErr result (λ fault. FailsToRead (R.reading r.old) (R.reading r.new) fault
        ⊎ CantBegin lock_machine (option_copied start.entry) (R.reading r.old) (R.reading r.new) fault) }
{
    let text = first_text(alloc, start, r, buffer)?;
    let schedule = schedule_of(alloc, &text)?;
    plays(alloc, &schedule)?;
    Ok(schedule)
}

/// Runs `step`: begins with the schedule that is given, or with a header that is read, and answers each line of the input. A
/// fault says why the session can't begin, or that a device or memory has failed.
pub fn session_command<F: Folder, R: Source, W: Sink>(
    alloc: Global,
    start: Option<&[u8]>,
    folder: &mut F,
    r: &mut R,
    w: &mut W,
) -> Result<Ending, CommandFault>
    ensures ends { SessionEnds lock_machine (option_copied start.entry)
        (devices (R.reading r.old) (F.used folder.old) (W.tape w.old))
        (devices (R.reading r.new) (F.used folder.new) (W.tape w.new)) result }
    ensures ended { IfOk result (IsEnded false (W.tape w.old).failures (W.tape w.new).failures) }
    ensures opened { (F.used folder.new).opened ≡ (F.used folder.old).opened }
{
    let mut buffer = Vec::new(alloc);
    let schedule = first_schedule(alloc, start, r, &mut buffer)?;
    let mut session = Session::new(alloc, schedule)?;
    hold(alloc, &mut session, folder, r, &mut buffer, w)
}
