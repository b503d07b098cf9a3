//! Lines to which no run comes.

ghost use Rattle.std.specs.Prelude.{◌≡◌, ◌&&◌, ◌+◌, map};
ghost use Rattle.std.specs.List.{list_all};
ghost use Rattle.std.specs.Option.{option_copied};
ghost use Rattle.algorithm_texts.specs.Drafts.{form_of, head_of, line_of, lines_of, local_form};
ghost use Rattle.algorithm_texts.specs.FinishedDrafts.{is_way, is_in, ways};
ghost use Rattle.algorithm_texts.specs.UnreachedLines.{line_stays, lines_stay, is_marked_where, entries_marked, ended_line, ended_at, ended_from};

use crate::loops::has_round;
use algorithms::algorithm::{Algorithm, Entries};
use algorithms::line::{AlgorithmLine, LineKind, LocalLine};
use std::mem::replace;

/// Whether a place is marked.
pub fn is_in(marks: &[bool], place: usize) -> bool
    ensures { result ≡ is_in marks.now place }
{
    match marks.get(place) {
        Some(mark) => *mark,
        None => false,
    }
}

/// Whether a local line leads to places that are marked alone.
fn local_stays(least: u64, marks: &[bool], next: usize, line: &LocalLine) -> bool
    ensures { result ≡ list_all (is_in marks.now) (ways least next (local_form line.now)) }
{
    match line {
        LocalLine::Assign { .. } => is_in(marks, next),
        LocalLine::AssignRow { .. } => is_in(marks, next),
        LocalLine::Note(_) => is_in(marks, next),
        LocalLine::Goto(place) => is_in(marks, *place),
        LocalLine::Branch { otherwise, .. } => is_in(marks, next) && is_in(marks, *otherwise),
        LocalLine::First { members, after, .. } => {
            if has_round(least, members) {
                is_in(marks, next)
            } else {
                is_in(marks, next) && is_in(marks, *after)
            }
        }
        LocalLine::Next { body, .. } => is_in(marks, *body) && is_in(marks, next),
    }
}

/// Whether a line leads to places that are marked alone.
fn form_stays(least: u64, marks: &[bool], next: usize, form: &LineKind) -> bool
    ensures { result ≡ list_all (is_in marks.now) (ways least next (form_of form.now)) }
{
    match form {
        LineKind::Access(_) => is_in(marks, next),
        LineKind::Local(line) => local_stays(least, marks, next, line),
        LineKind::Done(_) => true,
    }
}

/// Whether the line at a place leads to places that are marked alone, where its own is, and else is a way without text of its own.
fn line_stays(least: u64, marks: &[bool], place: usize, next: usize, line: &AlgorithmLine) -> bool
    requires { next ≡ place + 1 }
    ensures { result ≡ line_stays least marks.now place (form_of line.now.form) }
{
    if is_in(marks, place) {
        form_stays(least, marks, next, &line.form)
    } else {
        is_way(&line.form)
    }
}

/// Whether all lines lead from places that are marked to such places alone, and all others are ways without text of their own.
fn lines_stay(least: u64, marks: &[bool], lines: &[AlgorithmLine]) -> bool
    ensures { result ≡ lines_stay least marks.now 0 (map line_of lines.now) }
{
    let mut place = 0;
    for line in lines {
        let next = place + 1;
        if !line_stays(least, marks, place, next, line) {
            return false;
        }
        place = next;
    }
    true
}

/// Whether a place is marked, if there is one.
fn is_marked_where(marks: &[bool], place: Option<usize>) -> bool
    ensures { result ≡ is_marked_where marks.now place }
{
    match place {
        Some(place) => is_in(marks, place),
        None => true,
    }
}

/// Whether the first line of each call is marked.
fn entries_marked(marks: &[bool], entries: Entries) -> bool
    ensures { result ≡ entries_marked marks.now entries }
{
    is_in(marks, entries.lock)
        && (is_in(marks, entries.unlock)
            && (is_marked_where(marks, entries.recover)
                && is_marked_where(marks, entries.withdraw)))
}

/// Whether calls begin at places that are marked, all lines at such places lead to such places, and all others are ways without
/// text of their own.
pub fn runs_stay(algorithm: &Algorithm, marks: &[bool]) -> bool
    ensures { result ≡ (entries_marked marks.now (head_of algorithm.now).entries
        && lines_stay (head_of algorithm.now).least marks.now 0 (lines_of algorithm.now)) }
{
    entries_marked(marks, algorithm.entries)
        && lines_stay(algorithm.least, marks, algorithm.lines.as_slice())
}

/// Whether it is the way past an `else`, or back to the head of a loop.
fn is_local_way(line: &LocalLine) -> bool
    ensures { result ≡ is_way (local_form line.now) }
{
    match line {
        LocalLine::Goto(_) | LocalLine::Next { .. } => true,
        LocalLine::Assign { .. } => false,
        LocalLine::AssignRow { .. } => false,
        LocalLine::Note(_) => false,
        LocalLine::Branch { .. } => false,
        LocalLine::First { .. } => false,
    }
}

/// Whether it is such a way.
fn is_way(form: &LineKind) -> bool
    ensures { result ≡ is_way (form_of form.now) }
{
    match form {
        LineKind::Local(line) => is_local_way(line),
        LineKind::Access(_) | LineKind::Done(_) => false,
    }
}

/// Lets a line end its call, where it is such a way and is not marked.
fn end_way(line: &mut AlgorithmLine, mark: bool)
    ensures { line_of line.new ≡ ended_line mark (line_of line.old) }
{
    if !mark && is_way(&line.form) {
        let form = replace(&mut line.form, LineKind::Done(0));
        drop(form);
    }
}

/// Lets the line at a place end its call, where it is such a way and is not marked.
fn end_at(lines: &mut Vec<AlgorithmLine>, place: usize, marks: &[bool])
    ensures { map line_of lines.new.items ≡ ended_at (is_in marks.now place) place (map line_of lines.old.items) }
{
    let mark = is_in(marks, place);
    if let Some(line) = lines.get_mut(place) {
        end_way(line, mark);
    }
}

/// Lets each line to which no run comes end its call, where it is such a way. It has no text of its own: after a block that
/// always ends in `goto` or `done`, it is the way past an `else`, or back to the head of a loop. What it is does not matter,
/// since no run comes there. But there may be no line to which it would lead, and an end leads to none.
pub fn end_unmarked(lines: &mut Vec<AlgorithmLine>, marks: &[bool])
    ensures { map line_of lines.new.items ≡ ended_from marks.now 0 (map line_of lines.old.items) }
{
    for place in 0..lines.len() {
        end_at(lines, place, marks);
    }
}
