//! Writes the deed lines and the answer lines of a report.

ghost use Rattle.std.specs.Prelude.{◌≡◌, ◌++◌, ◌∷◌, [], OnOk, codes, map, length};
ghost use Rattle.std.specs.List.{join_with_byte};
ghost use Rattle.std.specs.Fmt.{decimal};
ghost use Rattle.schedule.specs.Words.{line_of};
ghost use Rattle.schedule.specs.Deeds.{words_of_deed};
ghost use Rattle.schedule.specs.Answers.{words_of_answer, words_of_reply};

use crate::lines::line_writer::{put_message, put_number, put_placed, put_start};
use redomail::{Deed, Reply};
use rmecore::{Found, Outer};
use rmeworld::Answer;
use std::alloc::AllocError;

/// Writes the words of a deed.
fn put_deed_words(out: &mut Vec<u8>, deed: &Deed) -> Result<(), AllocError>
    ensures { OnOk result (out.new.items ≡ out.old.items ++ join_with_byte 32 (words_of_deed deed.now)) }
{
    match deed {
        Deed::Outer(outer) => match *outer {
            Outer::Begin(p) => put_start(out, b"begin", p),
            Outer::Ready(p) => put_start(out, b"ready", p),
            Outer::Enter(p) => put_start(out, b"enter", p),
            Outer::Crash(p) => put_start(out, b"crash", p),
            Outer::Reenter(p) => put_start(out, b"reenter", p),
            Outer::Leave(p) => put_start(out, b"leave", p),
            Outer::Quit(p) => put_start(out, b"quit", p),
        },
        Deed::Commit { p, seq, v } => put_message(out, b"commit", *p, *seq, v),
        Deed::Show { p, at, seq, v } => put_placed(out, b"show", *p, *at, *seq, v),
        Deed::Close { p } => put_start(out, b"close", *p),
        Deed::Ruin { p } => put_start(out, b"ruin", *p),
    }
}

/// Writes a deed's line.
pub fn put_deed(out: &mut Vec<u8>, deed: &Deed) -> Result<(), AllocError>
    ensures { OnOk result (out.new.items ≡ out.old.items ++ line_of (words_of_deed deed.now)) }
{
    put_deed_words(out, deed)?;
    out.push(b'\n')?;
    Ok(())
}

/// Writes a space and one word.
fn put_word(out: &mut Vec<u8>, word: &[u8]) -> Result<(), AllocError>
    ensures { OnOk result (out.new.items ≡ out.old.items ++ 32 ∷ word.now) }
{
    out.push(b' ')?;
    out.extend_from_slice(word)
}

/// Writes the words of a reply, after a space.
fn put_reply(out: &mut Vec<u8>, reply: Reply) -> Result<(), AllocError>
    ensures { OnOk result (out.new.items ≡ out.old.items ++ 32 ∷ join_with_byte 32 (words_of_reply reply)) }
{
    match reply {
        Reply::Stored => put_word(out, b"stored"),
        Reply::Already => put_word(out, b"already"),
        Reply::OutOfOrder => put_word(out, b"out-of-order"),
        Reply::Full => put_word(out, b"full"),
        Reply::Closed => put_word(out, b"closed"),
        Reply::ClosedNow => put_word(out, b"closed-now"),
        Reply::AlreadyClosed => put_word(out, b"already-closed"),
        Reply::Mended(true) => put_word(out, b"mended"),
        Reply::Mended(false) => put_word(out, b"nothing-to-mend"),
        Reply::Word(v) => {
            put_word(out, b"word")?;
            put_number(out, v)
        }
        Reply::Done => put_word(out, b"put"),
        Reply::Ruined(true) => put_word(out, b"ruined"),
        Reply::Ruined(false) => put_word(out, b"not-ruined"),
    }
}

/// Writes the words of an answer, after a space.
fn put_answer_words(out: &mut Vec<u8>, answer: Answer) -> Result<(), AllocError>
    ensures { OnOk result (out.new.items ≡ out.old.items ++ 32 ∷ join_with_byte 32 (words_of_answer answer)) }
{
    match answer {
        Answer::Clean => put_word(out, b"clean"),
        Answer::OwnerDied => put_word(out, b"owner-died"),
        Answer::NumbersSpent => put_word(out, b"numbers-spent"),
        Answer::NotRecoverable => put_word(out, b"not-recoverable"),
        Answer::Unlocked => put_word(out, b"unlocked"),
        Answer::Withdrawn => put_word(out, b"withdrawn"),
        Answer::Found(found) => match found {
            Found::Idle => put_word(out, b"found idle"),
            Found::Left => put_word(out, b"found left"),
            Found::Doorway => put_word(out, b"found doorway"),
            Found::Waiting => put_word(out, b"found waiting"),
            Found::Inside => put_word(out, b"found inside"),
        },
        Answer::Mail(reply) => put_reply(out, reply),
    }
}

/// Writes the line of an answer of p.
pub fn put_answer(out: &mut Vec<u8>, p: u64, answer: Answer) -> Result<(), AllocError>
    ensures { OnOk result (out.new.items ≡ out.old.items ++ line_of (codes "answer" ∷ decimal p ∷ words_of_answer answer)) }
{
    put_start(out, b"answer", p)?;
    put_answer_words(out, answer)?;
    out.push(b'\n')?;
    Ok(())
}
