//! Reads the lines of a session.

ghost use Rattle.std.specs.Prelude.{◌≡◌, ◌≤◌};
ghost use Rattle.schedule.specs.Words.{first_of, value_of_name, ReadsItem, words_of};
ghost use Rattle.diagram.specs.Requests.{sole_request as alone_in, asked_by, request_at, save_to, to_answer};
ghost use Rattle.diagram.specs.Requests.{verb_of as verb_in, verbs_by_name};

use schedule::lines::line_reader::read_line;
use schedule::lines::words::LineWords;
use schedule::{Line, LineFault};

/// The first word of a line that is a session's own.
#[derive(Clone, Copy)]
pub enum Verb {
    Undo,
    Redo,
    To,
    Save,
    Help,
    Quit,
}

/// What a line of a session asks for.
#[derive(Clone, Copy)]
pub enum Request {
    /// Take this line of a schedule.
    Play(Line),
    /// Go back to the schedule without its last line.
    Undo,
    /// Take the line again that was undone last.
    Redo,
    /// Take steps of this process until its call is answered.
    ToAnswer(u64),
    /// Write the schedule so far to a file.
    Save,
    /// Say what can be asked for.
    Help,
    /// End the session.
    Quit,
}

/// The word of the session's own that this is.
fn verb_at(word: &[u8]) -> Option<Verb>
    ensures { result ≡ value_of_name verbs_by_name word.now }
{
    if word == b"undo".as_slice() {
        Some(Verb::Undo)
    } else if word == b"redo".as_slice() {
        Some(Verb::Redo)
    } else if word == b"to".as_slice() {
        Some(Verb::To)
    } else if word == b"save".as_slice() {
        Some(Verb::Save)
    } else if word == b"help".as_slice() {
        Some(Verb::Help)
    } else if word == b"quit".as_slice() {
        Some(Verb::Quit)
    } else {
        None
    }
}

/// The word of the session's own that the line begins with.
fn verb_of(line: &[u8]) -> Option<Verb>
    ensures { result ≡ verb_in (first_of (words_of line.now)) }
{
    verb_at(LineWords::of(line).next()?)
}

/// The request, if no word is left.
fn sole_request(request: Request, words: &LineWords) -> Result<Request, LineFault>
    ensures { ReadsItem (λ request. request) result (alone_in request words.now) }
{
    words.end()?;
    Ok(request)
}

/// The request `to answer P`, after its first word.
fn answer_of(words: &mut LineWords) -> Result<Request, LineFault>
    ensures { ReadsItem (λ request. request) result (to_answer words.old) }
{
    if !words.begins_with(b"answer") {
        return Err(LineFault::BadWord);
    }
    let _ = words.next();
    let p = words.number()?;
    words.end()?;
    Ok(Request::ToAnswer(p))
}

/// The request `save FILE`, after its first word.
fn save_of(words: &mut LineWords) -> Result<Request, LineFault>
    ensures { ReadsItem (λ request. request) result (save_to words.old) }
{
    if words.next().is_none() {
        return Err(LineFault::BadWord);
    }
    sole_request(Request::Save, words)
}

/// What a word of the session's own asks for, with the words after it.
fn request_of(verb: Verb, words: &mut LineWords) -> Result<Request, LineFault>
    ensures { ReadsItem (λ request. request) result (asked_by verb words.old) }
{
    match verb {
        Verb::Undo => sole_request(Request::Undo, words),
        Verb::Redo => sole_request(Request::Redo, words),
        Verb::To => answer_of(words),
        Verb::Save => save_of(words),
        Verb::Help => sole_request(Request::Help, words),
        Verb::Quit => sole_request(Request::Quit, words),
    }
}

/// What a line asks for, without its LF, in a session over a schedule of this width.
pub fn read_request(width: u64, line: &[u8]) -> Result<Request, LineFault>
    requires { (1 ≤ width) × (width ≤ 8) }
    ensures { ReadsItem (λ request. request) result (request_at width (words_of line.now)) }
{
    let Some(verb) = verb_of(line) else {
        return Ok(Request::Play(read_line(width, line)?));
    };
    let mut words = LineWords::of(line);
    let _ = words.next();
    request_of(verb, &mut words)
}
