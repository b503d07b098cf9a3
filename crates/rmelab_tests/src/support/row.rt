//! A row: an invocation, and the output that is expected. A script is a text of rows.
//!
//! A row begins with `@row` and the words of the command line. Its parts follow, in any order: `@in` is standard input, `@out`
//! and `@err` what is written to the two outputs, `@shown` what a terminal shows, `@file NAME` one of two files in the folder,
//! `@saves NAME` the file that is written, `@fails DEVICE` the device that fails, and `@ends` the exit status. The text of a
//! part is what follows its line, or its name is in that line: a script of texts has `@text NAME` before each. `@name` is the
//! name of a worked row, and only to be read. What stands before the first row is the head of the script: texts, and with
//! `@program` or `@memory` how its rows are played.

use crate::searches::named_texts::algorithm_named;
use crate::support::fake::Failing;
use test_support::text::cut;

/// An invocation, and the output that is expected.
#[derive(Clone, Copy)]
pub struct ProgramRow<'a> {
    pub line: &'a str,
    pub input: &'a str,
    pub files: [(&'a str, &'a str); 2],
    pub failing: Failing,
    pub is_terminal: bool,
    pub shown: &'a str,
    pub printed: &'a str,
    pub reports: &'a str,
    pub saved: (&'a str, &'a str),
    pub status: u8,
}

/// The text with this name in a script of texts.
fn text_in<'a>(script: &'a str, name: &str) -> Option<&'a str> {
    for definition in script.split("@text ") {
        let mut text = definition;
        if cut(&mut text, "\n") == name {
            return Some(text);
        }
    }
    None
}

/// The text with this name, in the head of a script, in one of these scripts of texts, or of an algorithm.
pub fn text_named<'a>(head: &'a str, texts: &[&'a str], name: &str) -> Option<&'a str> {
    if let Some(text) = text_in(head, name) {
        return Some(text);
    }
    for script in texts {
        if let Some(text) = text_in(script, name) {
            return Some(text);
        }
    }
    algorithm_named(name)
}

const DEVICES: [(&str, Failing); 8] = [
    ("read", Failing::Read),
    ("write", Failing::Write),
    ("flush", Failing::Flush),
    ("err", Failing::Report),
    ("shown", Failing::Shown),
    ("file", Failing::File),
    ("file-memory", Failing::FileMemory),
    ("file-read", Failing::FileRead),
];

/// The device with this name.
fn device_named(name: &str) -> Option<Failing> {
    for (known, device) in DEVICES {
        if known == name {
            return Some(device);
        }
    }
    None
}

impl<'a> ProgramRow<'a> {
    /// With these words nothing is expected, and nothing is there to be read.
    pub fn new(line: &'a str) -> ProgramRow<'a> {
        ProgramRow {
            line,
            input: "",
            files: [("", ""); 2],
            failing: Failing::Nothing,
            is_terminal: false,
            shown: "",
            printed: "",
            reports: "",
            saved: ("", ""),
            status: 0,
        }
    }

    /// Reads a row, from its words on. Its names are those of the head of its script, of these scripts of texts, or of algorithms.
    /// None: it has no parts, or one that is unknown.
    pub fn read(part: &'a str, head: &'a str, texts: &[&'a str]) -> Option<ProgramRow<'a>> {
        let mut rest = part;
        let words = cut(&mut rest, "@");
        let mut row = ProgramRow::new(words.strip_suffix(" ").unwrap_or(words));
        for part in rest.split("@") {
            row.set(part, head, texts)?;
        }
        Some(row)
    }

    /// Sets a part of the row.
    fn set(&mut self, part: &'a str, head: &'a str, texts: &[&'a str]) -> Option<()> {
        let (line, body) = part.split_once("\n").unwrap_or((part, ""));
        let mut names = line.trim();
        let word = cut(&mut names, " ");
        if word == "name" {
            return Some(());
        }
        if word == "ends" {
            self.status = names.parse().unwrap_or(u8::MAX);
            return Some(());
        }
        if word == "fails" {
            self.failing = device_named(names)?;
            return Some(());
        }
        let is_file = word == "file" || word == "saves";
        let file = if is_file { cut(&mut names, " ") } else { "" };
        let text = if names.is_empty() {
            body
        } else {
            text_named(head, texts, names)?
        };
        self.set_text(word, file, text)
    }

    /// Sets a part that is a text.
    fn set_text(&mut self, word: &str, file: &'a str, text: &'a str) -> Option<()> {
        if word == "in" {
            self.input = text;
        } else if word == "out" {
            self.printed = text;
        } else if word == "err" {
            self.reports = text;
        } else if word == "shown" {
            self.is_terminal = true;
            self.shown = text;
        } else if word == "saves" {
            self.saved = (file, text);
        } else if word == "file" {
            let [_, last] = self.files;
            self.files = [last, (file, text)];
        } else {
            return None;
        }
        Some(())
    }
}
