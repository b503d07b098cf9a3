//! Reads the lines of a schedule.

ghost use Rattle.std.specs.Prelude.{◌≡◌, ◌≤◌, drop, IsTrue};
ghost use Rattle.schedule.specs.Words.{ReadsItem, words_of, item_after};
ghost use Rattle.schedule.specs.Commands.{places, line_with, line_at, call_fits, fits, IsCall, IsLine};

use crate::lines::command::{Keyword, command_at};
use crate::lines::count::Count;
use crate::lines::fault::LineFault;
use crate::lines::item::Item;
use crate::lines::line::Line;
use crate::lines::range::{fit_words, fits_word};
use crate::lines::words::LineWords;
use rmeworld::Call;

/// Reads the rest of a line after its first word.
#[tactic(auto, unfolding(crate::specs::Words::item_after))]
fn line_after(width: u64, command: Keyword, words: &mut LineWords) -> Result<Line, LineFault>
    requires { (1 ≤ width) × (width ≤ 8) }
    ensures { ReadsItem (λ line. line) result (item_after (places width) line_with command words.old) }
{
    let line = match command {
        Keyword::Lock => Line::Start(words.number()?, Call::Lock),
        Keyword::Unlock => Line::Start(words.number()?, Call::Unlock),
        Keyword::Consistent => Line::Start(words.number()?, Call::Consistent),
        Keyword::Recover => Line::Start(words.number()?, Call::Recover),
        Keyword::Append => {
            let p = words.number()?;
            let seq = words.number()?;
            let value = words.body(width)?;
            Line::Start(p, Call::Append { seq, value })
        }
        Keyword::Close => Line::Start(words.number()?, Call::Close),
        Keyword::Put => {
            let p = words.number()?;
            Line::Start(p, Call::Put(words.number()?, words.number()?))
        }
        Keyword::Get => {
            let p = words.number()?;
            Line::Start(p, Call::Get(words.number()?))
        }
        Keyword::Withdraw => Line::Start(words.number()?, Call::Withdraw),
        Keyword::Step => {
            let p = words.number()?;
            Line::Step(p, words.count()?)
        }
        Keyword::Crash if words.begins_with(b"all") => {
            let _ = words.next();
            Line::CrashAll
        }
        Keyword::Crash => Line::Crash(words.number()?),
    };
    words.end()?;
    Ok(line)
}

/// Reads a line of a schedule of this width, without its LF.
pub fn read_line(width: u64, line: &[u8]) -> Result<Line, LineFault>
    requires { (1 ≤ width) × (width ≤ 8) }
    ensures { ReadsItem (λ line. line) result (line_at width (words_of line.now)) }
{
    let mut words = LineWords::of(line);
    let word = words.next().ok_or(LineFault::BadWord)?;
    let command = command_at(word).ok_or(LineFault::BadWord)?;
    line_after(width, command, &mut words)
}

impl Item for Line {
    ghost item_at = { line_at };

    ghost is_item = { IsLine };

    ghost fits = { fits };

    fn read(width: u64, line: &[u8]) -> Result<Line, LineFault> {
        read_line(width, line)
    }

    fn fits(&self, width: u64) -> bool {
        match *self {
            Line::Start(p, call) => {
                fits_word(p);
                call_fits(call, width)
            }
            Line::Step(p, count) => {
                fits_word(p);
                count.get() > 0
            }
            Line::Crash(p) => {
                fits_word(p);
                true
            }
            Line::CrashAll => true,
        }
    }
}

/// Whether the value that a call gives, if it gives one, has this width. If so, each of its numbers is a word.
fn call_fits(call: Call, width: u64) -> bool
    ensures fits { result ≡ call_fits width call }
    ensures call { IsTrue result → IsCall width call }
{
    match call {
        Call::Append { seq, value } => {
            fits_word(seq);
            fit_words(value.as_slice());
            value.width() == width
        }
        Call::Get(i) => {
            fits_word(i);
            true
        }
        Call::Put(i, v) => {
            fits_word(i);
            fits_word(v);
            true
        }
        Call::Lock | Call::Unlock | Call::Consistent => true,
        Call::Recover | Call::Close | Call::Withdraw => true,
    }
}
