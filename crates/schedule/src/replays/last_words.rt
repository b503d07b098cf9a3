//! The lines at the end of a report.

ghost use Rattle.std.specs.Prelude.{◌≡◌, ◌++◌, ◌∷◌, [], ◌+◌, ◌^◌, ◌<◌, OnOk, IfErr, codes, length, slice_index, List, ℕ};
ghost use Rattle.std.specs.Fmt.{decimal};
ghost use Rattle.schedule.specs.Reports.{own_line, owns_text, message_line, messages_text, count_line, content_text, broken_text, verdict_line, words_of_overtaking, words_of_verdict, IsMailText, IsEnd};
ghost use Rattle.std.specs.List.{flat_map};
ghost use Rattle.rmeworld.specs.ImageRules.{layout_of};
ghost use Rattle.schedule.specs.Words.{line_of};

use crate::lines::line_writer::{put_named, put_number, put_placed, put_start};
use crate::replays::verdict::{Verdict, fault_number};
use redomail::{Layout, Message, content};
use rmecore::{Fault, Own, Refusal};
use rmeworld::Image;
use std::alloc::{AllocError, Global};

/// Writes the line of a process's lock words.
fn put_own(out: &mut Vec<u8>, p: u64, own: &Own) -> Result<(), AllocError>
    ensures { OnOk result (out.new.items ≡ out.old.items ++ own_line p own.now) }
{
    put_start(out, b"words", p)?;
    put_number(out, own.choosing)?;
    put_number(out, own.number)?;
    put_number(out, own.inside)?;
    out.push(b'\n')?;
    Ok(())
}

/// Writes the lock words of each process, by rising number.
fn put_owns(out: &mut Vec<u8>, owns: &[Own]) -> Result<(), AllocError>
    ensures { OnOk result (out.new.items ≡ out.old.items ++ owns_text 0 owns.now) }
{
    let mut p = 0;
    for own in owns {
        put_own(out, p, own)?;
        p += 1;
    }
    Ok(())
}

/// Writes the line of a message.
fn put_entry(out: &mut Vec<u8>, at: u64, message: &Message) -> Result<(), AllocError>
    ensures { OnOk result (out.new.items ≡ out.old.items ++ message_line at message.now) }
{
    put_placed(
        out,
        b"message",
        at,
        message.sender,
        message.seq,
        &message.value,
    )?;
    out.push(b'\n')?;
    Ok(())
}

/// Writes the messages of the mailbox, by rising place.
fn put_messages(out: &mut Vec<u8>, messages: &[Message]) -> Result<(), AllocError>
    ensures { OnOk result (out.new.items ≡ out.old.items ++ messages_text 0 messages.now) }
{
    let mut at = 0;
    for message in messages {
        put_entry(out, at, message)?;
        at += 1;
    }
    Ok(())
}

/// The word at this place; 0 past the end.
fn word(words: &[u64], i: u64) -> u64
    ensures { result ≡ slice_index words.now i }
{
    words.get(i as usize).copied().unwrap_or(0)
}

/// Writes the number of messages, whether the mailbox is closed, and whether the lock is ruined.
fn put_count(out: &mut Vec<u8>, cells: &[u64]) -> Result<(), AllocError>
    ensures { OnOk result (out.new.items ≡ out.old.items ++ count_line cells.now) }
{
    put_start(out, b"mail", word(cells, 2))?;
    put_named(out, b"closed", word(cells, 1))?;
    put_named(out, b"ruined", word(cells, 0))?;
    out.push(b'\n')?;
    Ok(())
}

/// Writes the content of the mailbox, or `mail broken` where the data words break the content's rules.
fn put_mail(
    alloc: Global,
    out: &mut Vec<u8>,
    layout: Layout,
    cells: &[u64],
) -> Result<(), AllocError>
    ensures { OnOk result ((mail : List ℕ) × IsMailText layout cells.now mail × (out.new.items ≡ out.old.items ++ mail)) }
{
    match content(alloc, layout, cells) {
        Ok(messages) => {
            put_count(out, cells)?;
            put_messages(out, &messages)
        }
        Err(Refusal::BadShape) => out.extend_from_slice(b"mail broken\n"),
        Err(_) => Err(AllocError),
    }
}

/// Writes the words after a fault, and LF: the processes that an overtaking names.
fn put_overtaking(out: &mut Vec<u8>, fault: Fault) -> Result<(), AllocError>
    ensures { OnOk result (out.new.items ≡ out.old.items ++ flat_map (λ w. 32 ∷ w) (words_of_overtaking fault) ++ 10 ∷ []) }
{
    if let Fault::Overtaken { by, of } = fault {
        put_named(out, b"by", by)?;
        put_named(out, b"of", of)?;
    }
    out.push(b'\n')?;
    Ok(())
}

/// Writes the verdict against a deed, with the processes that an overtaking names.
fn put_verdict_words(out: &mut Vec<u8>, at: u64, fault: Fault) -> Result<(), AllocError>
    ensures { OnOk result (out.new.items ≡ out.old.items ++ verdict_line (Verdict.Against at fault)) }
{
    put_start(out, b"verdict against", fault_number(fault))?;
    put_named(out, b"at", at)?;
    put_overtaking(out, fault)
}

/// Writes the verdict line.
pub fn put_verdict(out: &mut Vec<u8>, verdict: Verdict) -> Result<(), AllocError>
    ensures { OnOk result (out.new.items ≡ out.old.items ++ verdict_line verdict) }
{
    match verdict {
        Verdict::Fine => out.extend_from_slice(b"verdict fine\n"),
        Verdict::Against { at, fault } => put_verdict_words(out, at, fault),
    }
}

/// Writes all lines at the end of a report.
pub fn put_end(
    alloc: Global,
    out: &mut Vec<u8>,
    image: &Image,
    verdict: Verdict,
) -> Result<(), AllocError>
    ensures { OnOk result ((end : List ℕ) × IsEnd image.now verdict end × (out.new.items ≡ out.old.items ++ end)) }
{
    let owns = image.lock.as_slice();
    let layout = Layout {
        procs: owns.len() as u64,
        cap: image.cap,
        width: image.width,
    };
    put_owns(out, owns)?;
    put_mail(alloc, out, layout, image.cells.as_slice())?;
    put_verdict(out, verdict)
}
