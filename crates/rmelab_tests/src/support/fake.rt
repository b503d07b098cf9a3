//! A folder in memory, which may fail, and which device of an invocation fails.

use crate::support::devices::Feed;
use commands::{FileFault, Folder};
use histories::Log;
use schedule::FromReader;
use std::alloc::Global;

/// Which device fails.
#[derive(Clone, Copy, PartialEq, Eq)]
pub enum Failing {
    Nothing,
    /// The second read of standard input.
    Read,
    Write,
    Flush,
    /// Standard error.
    Report,
    /// Standard error, when progress is shown.
    Shown,
    /// A file that is opened or saved.
    File,
    /// Memory, when a file is opened or saved.
    FileMemory,
    /// The second read of a file.
    FileRead,
}

/// A folder of two files in memory. What is saved is kept separately.
#[derive(Drop)]
pub struct Fake<'a> {
    first_name: &'a str,
    first: &'a str,
    second_name: &'a str,
    second: &'a str,
    failing: Failing,
    pub name: String,
    pub text: Vec<u8>,
    opened: Log<String>,
    saved: Log<String>,
    texts: Log<Vec<u8>>,
}

impl<'a> Fake<'a> {
    /// A folder with these two files, in which this fails.
    pub fn new(alloc: Global, files: [(&'a str, &'a str); 2], failing: Failing) -> Fake<'a> {
        let [(first_name, first), (second_name, second)] = files;
        Fake {
            first_name,
            first,
            second_name,
            second,
            failing,
            name: String::new(alloc),
            text: Vec::new(alloc),
            opened: Log::new(),
            saved: Log::new(),
            texts: Log::new(),
        }
    }
}

/// The fault of opening or saving a file.
fn fault_of(failing: Failing) -> Option<FileFault> {
    match failing {
        Failing::File => Some(FileFault::Failed),
        Failing::FileMemory => Some(FileFault::OutOfMemory),
        _ => None,
    }
}

impl<'a> Folder for Fake<'a> {
    type Opened = FromReader<Feed<'a>>;

    ghost used = { λ f. record { opened = f.opened.items; saved = f.saved.items; texts = f.texts.items } };

    fn open(&mut self, name: &String) -> Result<FromReader<Feed<'a>>, FileFault> {
        self.opened = self.opened.and(name);
        let failing = self.failing;
        let fails = failing == Failing::FileRead;
        if self.first_name == name.as_str() {
            return Ok(FromReader::new(Feed::new(self.first, fails)));
        }
        if self.second_name == name.as_str() {
            return Ok(FromReader::new(Feed::new(self.second, fails)));
        }
        Err(fault_of(failing).unwrap_or(FileFault::Failed))
    }

    fn save(&mut self, name: &String, text: &Vec<u8>) -> Result<(), FileFault> {
        self.saved = self.saved.and(name);
        self.texts = self.texts.and(text);
        if let Some(fault) = fault_of(self.failing) {
            return Err(fault);
        }
        let kept = self.name.push_str(name.as_str()).is_ok();
        if kept && self.text.extend_from_slice(text).is_ok() {
            return Ok(());
        }
        Err(FileFault::OutOfMemory)
    }
}
