//! The files of the system, as a `Folder`.

ghost use Rattle.std.specs.Prelude.{◌≡◌, []};

use command_parts::{FileFault, Folder};
use histories::Log;
use schedule::FromReader;
use std::io::ErrorKind;
use std::rt::Files;
use std::{fs, io};

/// The system's files by path. It logs each open and each save for contracts.
#[derive(Drop)]
pub struct Disk<'a, R> {
    files: &'a R,
    opened: Log<String>,
    saved: Log<String>,
    texts: Log<Vec<u8>>,
}

impl<'a, R> Disk<'a, R> {
    /// No file has been opened or written yet.
    pub fn new(files: &'a R) -> Disk<'a, R>
        ensures opened { result.opened.items ≡ [] }
        ensures saved { result.saved.items ≡ [] }
        ensures texts { result.texts.items ≡ [] }
    {
        Disk {
            files,
            opened: Log::new(),
            saved: Log::new(),
            texts: Log::new(),
        }
    }
}

/// Out of memory, or a failure of the device.
fn file_fault(error: &io::Error) -> FileFault {
    match error.kind() {
        ErrorKind::OutOfMemory => FileFault::OutOfMemory,
        _ => FileFault::Failed,
    }
}

impl<'a, R: Files> Folder for Disk<'a, R> {
    type Opened = FromReader<R::File>;

    ghost used = { λ d. record { opened = d.opened.items; saved = d.saved.items; texts = d.texts.items } };

    fn open(&mut self, name: &String) -> Result<FromReader<R::File>, FileFault> {
        self.opened = self.opened.and(name);
        match fs::open(self.files, name.as_str()) {
            Ok(file) => Ok(FromReader::new(file)),
            Err(error) => Err(file_fault(&error)),
        }
    }

    fn save(&mut self, name: &String, text: &Vec<u8>) -> Result<(), FileFault> {
        self.saved = self.saved.and(name);
        self.texts = self.texts.and(text);
        match fs::write(self.files, name.as_str(), text) {
            Ok(()) => Ok(()),
            Err(error) => Err(file_fault(&error)),
        }
    }
}
