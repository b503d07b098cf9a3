//! A session over its input, a line at a time.

ghost use Rattle.std.specs.Prelude.{◌≡◌, ◌⊎◌, ◌↔◌, ◌++◌, ◌∷◌, ℕ, Bool, ◌+◌, ◌-◌, ◌^◌, List, IfErr, IfOk, IfSome, IfNone, OnErr, OnOk, [], codes, min, true, Ok, None, option_copied, false};
ghost use Rattle.schedule.specs.Schedules.{spelling};
ghost use Rattle.schedule.specs.Words.{parts_of};
ghost use Rattle.diagram.specs.declared.session.opened.SessionReply.TheVariants.{Quits as ReplyQuits};
ghost use Rattle.command_parts.specs.Conversations.{after_line, file_in, HeldSessionEnds, HoldsSession, IsAnswer, IsBegun, IsSaved, last_text, saved_text, WritesFile, WritesOr, BeginsWith};
ghost use Rattle.command_parts.specs.Devices.{devices};
ghost use Rattle.diagram.specs.Sessions.{fault_text, next_number, reply_to, request_in, standing_text};
ghost use Rattle.schedule.specs.Tapes.{Writes};
ghost use Rattle.command_parts.specs.Endings.{FailsIn, FailsToRead, IsEnded};
ghost use Rattle.command_parts.specs.Statuses.{fault_of_replay};

use crate::ending::Ending;
use crate::fault::CommandFault;
use crate::folder::Folder;
use diagram::session::session_lines::put_fault;
use diagram::{Session, SessionReply, Simulation};
use schedule::lines::cut::cut_once;
use schedule::lines::words::LineWords;
use schedule::texts::device::write_all;
use schedule::{Failed, LineFault, ReplayFault, Sink, Source, write_schedule};
use std::alloc::{AllocError, Global};

/// The line at the front of the buffer, which is taken out of it.
fn cut_line(alloc: Global, buffer: &mut Vec<u8>) -> Result<Option<Vec<u8>>, AllocError>
    ensures some { IfOk result (λ line. IfSome line (λ l. parts_of buffer.old.items ≡ l.items ∷ parts_of buffer.new.items)) }
    ensures none { IfOk result (λ line. IfNone line ((buffer.new.items ≡ buffer.old.items)
        × (parts_of buffer.old.items ≡ buffer.old.items ∷ []))) }
{
    let Some((line, rest)) = cut_once(buffer, b'\n') else {
        return Ok(None);
    };
    let line = Vec::from_slice(alloc, line)?;
    let rest = Vec::from_slice(alloc, rest)?;
    *buffer = rest;
    Ok(Some(line))
}

/// The next line of a source, without its LF. The buffer has what the source has given after the last line. At the end there
/// is no LF in the buffer.
pub fn next_line<S: Source>(
    alloc: Global,
    source: &mut S,
    buffer: &mut Vec<u8>,
) -> Result<Option<Vec<u8>>, ReplayFault>
    ensures given { IfOk result (λ line. (more : List ℕ) × ((S.reading source.new).given ≡ (S.reading source.old).given ++ more)
        × IfSome line (λ l. parts_of (buffer.old.items ++ more) ≡ l.items ∷ parts_of buffer.new.items)
        × IfNone line ((buffer.new.items ≡ buffer.old.items ++ more) × (parts_of buffer.new.items ≡ buffer.new.items ∷ []))) }
    ensures broken { OnErr result ((more : List ℕ) × ((S.reading source.new).given ≡ (S.reading source.old).given ++ more)) }
    ensures ended { IfOk result (λ line. IfNone line ((S.reading source.new).ended ≡ true)) }
    ensures fine { OnOk result ((S.reading source.new).failures ≡ (S.reading source.old).failures) }
    ensures fault { IfErr result (λ fault. (fault ≡ ReplayFault.Read)
        × ((S.reading source.new).failures ≡ min ((S.reading source.old).failures + 1) (2 ^ 64 - 1))
        ⊎ (fault ≡ ReplayFault.OutOfMemory) × ((S.reading source.new).failures ≡ (S.reading source.old).failures)) }
{
    let mut piece = [0; 4096];
    for _ in 0..u64::MAX {
        if let Some(line) = cut_line(alloc, buffer)? {
            return Ok(Some(line));
        }
        match source.read(&mut piece) {
            Ok(0) => return Ok(None),
            Ok(n) => buffer.extend_from_slice(&piece[..n])?,
            Err(Failed) => return Err(ReplayFault::Read),
        }
    }
    // No input has as many lines or pieces.
    Err(ReplayFault::OutOfMemory)
}

/// The file that a line names.
fn file_of(line: &[u8]) -> &[u8]
    ensures { result.now ≡ file_in line.now }
{
    let mut words = LineWords::of(line);
    let _ = words.next();
    words.next().unwrap_or(b"")
}

/// Writes a whole file, and answers whether that was done. A name that is no text names no file.
fn keep<F: Folder>(
    alloc: Global,
    folder: &mut F,
    file: &[u8],
    text: &Vec<u8>,
) -> Result<bool, AllocError>
    ensures kept { IfOk result (IsSaved (F.used folder.old) (F.used folder.new) file.now text.now.items) }
    ensures unkept { OnErr result (F.used folder.new ≡ F.used folder.old) }
    ensures opened { (F.used folder.new).opened ≡ (F.used folder.old).opened }
{
    let Ok(name) = str::from_utf8(file) else {
        return Ok(false);
    };
    let name = String::from_str(alloc, name)?;
    Ok(folder.save(&name, text).is_ok())
}

/// Saves the schedule so far, and says whether that was done.
fn save<V: Simulation, F: Folder>(
    alloc: Global,
    session: &Session<V>,
    line: &[u8],
    folder: &mut F,
    page: &mut Vec<u8>,
) -> Result<(), AllocError>
    ensures kept { OnOk result ((done : Bool) × IsSaved (F.used folder.old) (F.used folder.new) (file_in line.now)
        (spelling session.now.schedule) done × (page.new.items ≡ page.old.items ++ saved_text done)) }
    ensures broken { OnErr result ((F.used folder.new ≡ F.used folder.old)
        ⊎ WritesFile (F.used folder.old) (F.used folder.new) (file_in line.now) (spelling session.now.schedule)) }
    ensures opened { (F.used folder.new).opened ≡ (F.used folder.old).opened }
{
    let Ok(text) = write_schedule(alloc, session.schedule()) else {
        return Err(AllocError);
    };
    if keep(alloc, folder, file_of(line), &text)? {
        return page.extend_from_slice(b"saved\n");
    }
    page.extend_from_slice(b"not saved\n")
}

/// Answers a line on a page, and whether it ends the session.
fn reply<V: Simulation, F: Folder>(
    alloc: Global,
    session: &mut Session<V>,
    line: &[u8],
    folder: &mut F,
    page: &mut Vec<u8>,
) -> Result<bool, AllocError>
    requires { page.old.items ≡ [] }
    ensures answer { OnOk result (IsAnswer V.semantics session.old line.now (F.used folder.old) (F.used folder.new) page.new.items) }
    ensures after { OnOk result (session.new ≡ after_line V.semantics session.old line.now) }
    ensures broken { OnErr result (IsBegun V.semantics session.old line.now (F.used folder.old) (F.used folder.new)) }
    ensures opened { (F.used folder.new).opened ≡ (F.used folder.old).opened }
    ensures ends { IfOk result (λ ends. ends ≡ true ↔ (reply_to (request_in session.old line.now) ≡ ReplyQuits)) }
{
    match session.answer(alloc, line, page)? {
        SessionReply::Goes => Ok(false),
        SessionReply::Saves => {
            save(alloc, session, line, folder, page)?;
            Ok(false)
        }
        SessionReply::Quits => Ok(true),
    }
}

/// The fault of an unfinished last line.
fn last_fault<V: Simulation>(alloc: Global, session: &Session<V>) -> Result<Vec<u8>, AllocError>
    ensures { IfOk result (λ page. page.items ≡ fault_text (next_number session.now) (codes "fault ") 5) }
{
    let mut page = Vec::new(alloc);
    let next = session.schedule().lines().len() as u64 + 2;
    put_fault(&mut page, next, b"fault ", LineFault::NoNewline.number())?;
    Ok(page)
}

/// Says that an unfinished last line is not taken.
fn write_last<V: Simulation, W: Sink>(
    alloc: Global,
    session: &Session<V>,
    rest: &[u8],
    w: &mut W,
) -> Result<(), ReplayFault>
    ensures { WritesOr (W.tape w.old) (W.tape w.new) (last_text session.now rest.now) result }
{
    if rest.is_empty() {
        return Ok(());
    }
    let page = last_fault(alloc, session)?;
    write_all(w, &page)?;
    Ok(())
}

/// Answers the lines of the input one after the other, up to the one that ends the session or to the end of the input. The
/// buffer has what was read already. What is written is flushed before more is read.
pub fn converse<V: Simulation, S: Source, W: Sink, F: Folder>(
    alloc: Global,
    session: &mut Session<V>,
    folder: &mut F,
    r: &mut S,
    buffer: &mut Vec<u8>,
    w: &mut W,
) -> Result<(), ReplayFault>
    ensures holds { HoldsSession V.semantics session.old buffer.old.items
        (devices (S.reading r.old) (F.used folder.old) (W.tape w.old))
        (devices (S.reading r.new) (F.used folder.new) (W.tape w.new)) result }
    ensures opened { (F.used folder.new).opened ≡ (F.used folder.old).opened }
{
    let mut page = Vec::new(alloc);
    for _ in 0..u64::MAX {
        w.flush()?;
        let Some(line) = next_line(alloc, r, buffer)? else {
            return write_last(alloc, session, buffer, w);
        };
        page.clear();
        let ends = reply(alloc, session, &line, folder, &mut page)?;
        write_all(w, &page)?;
        if ends {
            return Ok(());
        }
    }
    // No input has as many lines or pieces.
    Err(ReplayFault::OutOfMemory)
}

/// The first line of the input, with its LF; without a line all of the input. It is the text of a session's header.
fn header_text<R: Source>(
    alloc: Global,
    r: &mut R,
    buffer: &mut Vec<u8>,
) -> Result<Vec<u8>, ReplayFault>
    requires { buffer.old.items ≡ [] }
    ensures begins { IfOk result (λ text. BeginsWith None (R.reading r.old) (R.reading r.new) buffer.new.items text.items) }
    ensures failed { IfErr result (λ fault. FailsToRead (R.reading r.old) (R.reading r.new) (fault_of_replay fault)) }
{
    match next_line(alloc, r, buffer)? {
        Some(mut line) => {
            line.push(b'\n')?;
            Ok(line)
        }
        None => Ok(Vec::from_slice(alloc, buffer)?),
    }
}

/// The text of the schedule that a session begins with.
pub fn first_text<R: Source>(
    alloc: Global,
    start: Option<&[u8]>,
    r: &mut R,
    buffer: &mut Vec<u8>,
) -> Result<Vec<u8>, ReplayFault>
    requires { buffer.old.items ≡ [] }
    ensures begins { IfOk result (λ text. BeginsWith (option_copied start.entry) (R.reading r.old) (R.reading r.new)
        buffer.new.items text.items) }
    ensures failed { IfErr result (λ fault. FailsToRead (R.reading r.old) (R.reading r.new) (fault_of_replay fault)) }
{
    match start {
        Some(text) => Ok(Vec::from_slice(alloc, text)?),
        None => header_text(alloc, r, buffer),
    }
}

/// Writes where the processes stand.
pub fn write_state<V: Simulation, W: Sink>(
    alloc: Global,
    session: &Session<V>,
    w: &mut W,
) -> Result<(), CommandFault>
    ensures written { OnOk result (Writes (W.tape w.old) (W.tape w.new) (standing_text V.semantics session.now)) }
    ensures failed { IfErr result (FailsIn (standing_text V.semantics session.now) (W.tape w.old) (W.tape w.new)) }
{
    let mut page = Vec::new(alloc);
    session.put_state(&mut page)?;
    if write_all(w, &page).is_err() {
        return Err(CommandFault::Write);
    }
    Ok(())
}

/// Holds a session: writes where the processes stand, and then answers the lines of the input as `converse` does.
pub fn hold<V: Simulation, S: Source, W: Sink, F: Folder>(
    alloc: Global,
    session: &mut Session<V>,
    folder: &mut F,
    r: &mut S,
    buffer: &mut Vec<u8>,
    w: &mut W,
) -> Result<Ending, CommandFault>
    ensures ends { HeldSessionEnds V.semantics session.old buffer.old.items
        (devices (S.reading r.old) (F.used folder.old) (W.tape w.old))
        (devices (S.reading r.new) (F.used folder.new) (W.tape w.new)) result }
    ensures ended { IfOk result (IsEnded false (W.tape w.old).failures (W.tape w.new).failures) }
    ensures opened { (F.used folder.new).opened ≡ (F.used folder.old).opened }
{
    write_state(alloc, session, w)?;
    converse(alloc, session, folder, r, buffer, w)?;
    Ok(Ending {
        status: 0,
        save: None,
    })
}
