//! Writes what one line does.

use crate::writer::operands::{
    put_condition, put_index, put_indexes, put_name, put_row_name, put_value,
};
use crate::writer::text_builder::TextBuilder;
use algorithms::algorithm::Algorithm;
use algorithms::condition::Condition;
use algorithms::expression::Expression;
use algorithms::line::{
    AccessLine, Action, AlgorithmDeed, Elements, LineKind, LocalLine, Members, WordOf,
};

/// The word of a deed.
fn deed_word(deed: AlgorithmDeed) -> &'static str {
    match deed {
        AlgorithmDeed::Begin => "begin",
        AlgorithmDeed::Ready => "ready",
        AlgorithmDeed::Enter => "enter",
        AlgorithmDeed::Reenter => "reenter",
        AlgorithmDeed::Leave => "leave",
        AlgorithmDeed::Quit => "quit",
    }
}

/// Writes a private name.
fn put_private(text: &mut TextBuilder, algorithm: &Algorithm, name: usize) {
    put_name(text, algorithm.names.as_slice(), name);
}

/// Writes a value of an algorithm.
fn put_whole(text: &mut TextBuilder, algorithm: &Algorithm, value: &Expression) {
    put_value(text, algorithm.names.as_slice(), value, 1);
}

/// Writes a condition of an algorithm after these words.
pub fn put_test(text: &mut TextBuilder, algorithm: &Algorithm, words: &str, condition: &Condition) {
    text.put(words);
    put_condition(text, algorithm.names.as_slice(), &[], condition, 1);
}

/// Writes a condition after these words, where there is one.
fn put_test_if(
    text: &mut TextBuilder,
    algorithm: &Algorithm,
    words: &str,
    condition: &Option<Condition>,
) {
    if let Some(condition) = condition {
        put_test(text, algorithm, words, condition);
    }
}

/// Writes a shared word with its index, by these names.
pub fn put_word_of(text: &mut TextBuilder, algorithm: &Algorithm, names: &[String], word: &WordOf) {
    if let Some(declaration) = algorithm.declarations.get(word.declaration) {
        text.put(declaration.name.as_str());
    }
    if let Some(index) = &word.index {
        put_indexes(text, names, index);
    }
}

/// Writes a shared word of a line with its index.
fn put_word(text: &mut TextBuilder, algorithm: &Algorithm, word: &WordOf) {
    put_word_of(text, algorithm, algorithm.names.as_slice(), word);
}

/// Writes that a private name is set, and what stands before the value.
fn put_set(text: &mut TextBuilder, algorithm: &Algorithm, name: usize, words: &str) {
    put_private(text, algorithm, name);
    text.put(words);
}

/// Writes what an access does.
fn put_action(text: &mut TextBuilder, algorithm: &Algorithm, access: &AccessLine) {
    match &access.action {
        Action::Load { name } => {
            put_set(text, algorithm, *name, " := ");
            put_word(text, algorithm, &access.word);
        }
        Action::Store { value } => {
            put_word(text, algorithm, &access.word);
            text.put(" := ");
            put_whole(text, algorithm, value);
        }
        Action::Await { name, until } => {
            text.put("await ");
            put_set(text, algorithm, *name, " := ");
            put_word(text, algorithm, &access.word);
            put_test(text, algorithm, " until ", until);
        }
        Action::Swap {
            name,
            value,
            guard,
            until,
        } => {
            text.put_when(until.is_some(), "await ");
            put_set(text, algorithm, *name, " := swap ");
            put_word(text, algorithm, &access.word);
            text.put(" to ");
            put_whole(text, algorithm, value);
            put_test_if(text, algorithm, " if ", guard);
            put_test_if(text, algorithm, " until ", until);
        }
    }
}

/// Writes the end of a call.
fn put_done(text: &mut TextBuilder, algorithm: &Algorithm, answer: usize) {
    text.put("done");
    if let Some(words) = algorithm.answers.get(answer) {
        text.put_when(!words.is_empty(), " ");
        text.put(words.as_str());
    }
}

/// Writes that a step is this deed.
pub fn put_deed_word(text: &mut TextBuilder, deed: AlgorithmDeed) {
    text.put("this is ");
    text.put(deed_word(deed));
}

/// Writes the two ends of a loop over numbers, with these words between them.
fn put_range(
    text: &mut TextBuilder,
    algorithm: &Algorithm,
    first: &Expression,
    words: &str,
    last: &Expression,
) {
    text.put(" from ");
    put_whole(text, algorithm, first);
    text.put(words);
    put_whole(text, algorithm, last);
}

/// Writes what a loop goes over.
fn put_members(text: &mut TextBuilder, algorithm: &Algorithm, members: &Members) {
    match members {
        Members::All => text.put(" in all"),
        Members::Others => text.put(" in others"),
        Members::Lower => text.put(" in lower"),
        Members::Higher => text.put(" in higher"),
        Members::Up(first, last) => put_range(text, algorithm, first, " to ", last),
        Members::Down(first, last) => put_range(text, algorithm, first, " down to ", last),
    }
}

/// Writes which values of a row are set.
fn put_elements(text: &mut TextBuilder, algorithm: &Algorithm, row: usize, elements: &Elements) {
    let names = algorithm.names.as_slice();
    put_row_name(text, names, row);
    if let Elements::At(index) = elements {
        put_index(text, names, index);
    }
}

/// Writes a local line, or its first words where it begins or ends a block.
fn put_local(text: &mut TextBuilder, algorithm: &Algorithm, line: &LocalLine) {
    match line {
        LocalLine::Assign { name, value } => {
            put_set(text, algorithm, *name, " := ");
            put_whole(text, algorithm, value);
        }
        LocalLine::AssignRow {
            row,
            elements,
            value,
        } => {
            put_elements(text, algorithm, *row, elements);
            text.put(" := ");
            put_whole(text, algorithm, value);
        }
        LocalLine::Note(deed) => put_deed_word(text, *deed),
        LocalLine::Goto(place) => {
            text.put("goto ");
            text.put_label(*place);
        }
        LocalLine::Branch { condition, .. } => {
            put_test(text, algorithm, "if ", condition);
            text.put(" then");
        }
        LocalLine::First { name, members, .. } => {
            text.put("for ");
            put_private(text, algorithm, *name);
            put_members(text, algorithm, members);
        }
        LocalLine::Next { .. } => text.put("end"),
    }
}

/// Writes what a line does.
pub fn put_form(text: &mut TextBuilder, algorithm: &Algorithm, form: &LineKind) {
    match form {
        LineKind::Access(access) => {
            put_action(text, algorithm, access);
            text.put_when(access.may_withdraw, " may withdraw");
        }
        LineKind::Local(line) => put_local(text, algorithm, line),
        LineKind::Done(answer) => put_done(text, algorithm, *answer),
    }
}
