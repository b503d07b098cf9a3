//! Cases as texts, in tables. The first line of a table says what is done in each of its cases, and of what they are. The first line
//! of a case begins with `== `: the name of an algorithm, and numbers. Under it, up to `--`, stands what is given, and then what comes
//! of it. Where one text is both, there is no `--`.

use crate::{
    bad_texts, costs, details, drawings, homes, hostile_texts, hunts, mean_costs,
    remote_references, runs, schedules, searches, sessions, shrinks, spelling, starving, stuck,
};
use std::alloc::Global;
use std::test::Fail;

/// The words of a line, and empty ones after them.
pub fn words(line: &str) -> [&str; 8] {
    let mut all = [""; 8];
    let mut parts = line.split(' ');
    for at in 0..8 {
        if let Some(word) = parts.next() {
            all[at] = word;
        }
    }
    all
}

/// The words of the first line of a case, what is given, and what comes of it.
pub fn case_of(text: &str) -> ([&str; 8], &str, &str) {
    let (head, body) = text.split_once('\n').unwrap_or((text, ""));
    let (given, expected) = body.split_once("--\n").unwrap_or((body, body));
    (words(head), given, expected)
}

/// Searches, hunts or sums, as the words say, and writes what comes of it.
fn put_found(
    alloc: Global,
    kind: &str,
    words: &[&str; 8],
    given: &str,
    text: &mut String,
) -> Result<(), Fail> {
    if kind == "search" {
        return searches::put_search(alloc, words, text);
    }
    if kind == "stuck" {
        return stuck::put_stuck(alloc, words, text);
    }
    if kind == "starve" {
        return starving::put_starving(alloc, words, text);
    }
    if kind == "hunt" {
        return hunts::put_hunt(alloc, words, text);
    }
    if kind == "shrink" {
        return shrinks::put_least(alloc, words, given, text);
    }
    if kind == "cost" {
        return costs::put_costs(alloc, words, text);
    }
    if kind == "random" {
        return mean_costs::put_totals(alloc, words, text);
    }
    Err(Fail::new(format_args!("no such table: {kind}")))
}

/// Replays or draws what is given, and writes what comes of it. What is neither is a search.
fn put_played(
    alloc: Global,
    kind: &str,
    words: &[&str; 8],
    given: &str,
    text: &mut String,
) -> Result<(), Fail> {
    if kind == "run" {
        return runs::put_run(alloc, words, given, text);
    }
    if kind == "refer" {
        return remote_references::put_references(alloc, words, given, text);
    }
    if kind == "report" {
        return schedules::put_report(alloc, words, given, text);
    }
    if kind == "draw" {
        return drawings::put_drawing(alloc, words, given, text);
    }
    if kind == "picture" {
        return drawings::put_picture(alloc, words, text);
    }
    if kind == "session" {
        return sessions::put_session(alloc, words, given, text);
    }
    put_found(alloc, kind, words, given, text)
}

/// Does what the first word of a table says, and writes what comes of it: a text is read, also with what more is said of its fault, or
/// with a part that it has many times; or
/// what it spells is written, its answers, or where its words live. What is none of these is played.
fn put_outcome(
    alloc: Global,
    kind: &str,
    words: &[&str; 8],
    given: &str,
    text: &mut String,
) -> Result<(), Fail> {
    if kind == "read" {
        return bad_texts::put_reading(alloc, given.as_bytes(), text);
    }
    if kind == "detail" {
        return details::put_detail(alloc, given.as_bytes(), text);
    }
    if kind == "repeat" {
        return hostile_texts::put_reading(alloc, words, given, text);
    }
    if kind == "spell" {
        return spelling::put_spelling(alloc, words, text);
    }
    if kind == "answers" {
        return spelling::put_answers_of(alloc, given, text);
    }
    if kind == "homes" {
        return homes::put_homes(alloc, words, given, text);
    }
    put_played(alloc, kind, words, given, text)
}

/// Compares what comes of each case of a table with what it says, by a text to write on.
fn compare_on(alloc: Global, table: &str, text: &mut String) -> Result<(), Fail> {
    let (head, cases) = table.split_once("== ").ok_or("no case")?;
    let [kind, ..] = words(head);
    for part in cases.split("== ") {
        let (words, given, expected) = case_of(part);
        text.clear();
        put_outcome(alloc, kind, &words, given, text)?;
        if text.as_str() != expected {
            return Err(Fail::new(format_args!("{head}== {part}but this comes of it:\n{text}")));
        }
    }
    Ok(())
}

/// Compares what comes of each case of a table with what it says. Where something else comes of one, the failure has the table's
/// first line, the case, and what comes of it.
pub fn compare_cases(alloc: Global, table: &str) -> Result<(), Fail> {
    let mut text = String::new(alloc);
    compare_on(alloc, table, &mut text)
}
