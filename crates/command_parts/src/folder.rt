//! The files that a command names.

ghost use Rattle.std.specs.Prelude.{◌≡◌, ◌++◌, ◌∷◌, [], false, IfOk};
ghost use Rattle.command_parts.specs.Folders.{Used};

use histories::Log;
use schedule::{Source, Text};

/// Why a file was not opened or written.
#[derive(Clone, Copy, Debug, PartialEq, Eq)]
pub enum FileFault {
    /// There is no such file, or its device failed.
    Failed,
    OutOfMemory,
}

/// A folder of files by name.
pub trait Folder {
    /// A file that is open to be read.
    type Opened: Source + Drop;

    /// what it was asked for
    ghost used: { Self → Used };

    /// Opens a file to be read from its start.
    fn open(&mut self, name: &String) -> Result<Self::Opened, FileFault>
        ensures opened { (used self.new).opened ≡ (used self.old).opened ++ name.now ∷ [] }
        ensures saved { (used self.new).saved ≡ (used self.old).saved }
        ensures texts { (used self.new).texts ≡ (used self.old).texts }
        ensures unread { IfOk result (λ file. Self.Opened.reading file ≡ record { given = []; ended = false; failures = 0 }) };

    /// Writes a whole file, in place of the file with this name if there is one.
    fn save(&mut self, name: &String, text: &Vec<u8>) -> Result<(), FileFault>
        ensures opened { (used self.new).opened ≡ (used self.old).opened }
        ensures saved { (used self.new).saved ≡ (used self.old).saved ++ name.now ∷ [] }
        ensures texts { (used self.new).texts ≡ (used self.old).texts ++ text.now ∷ [] };
}

/// A folder where no file can be opened or written.
#[derive(Drop)]
pub struct NoFolder {
    opened: Log<String>,
    saved: Log<String>,
    texts: Log<Vec<u8>>,
}

impl NoFolder {
    /// Nothing was asked for yet.
    pub fn new() -> NoFolder {
        NoFolder {
            opened: Log::new(),
            saved: Log::new(),
            texts: Log::new(),
        }
    }
}

impl Folder for NoFolder {
    type Opened = Text<'static>;

    ghost used = { λ d. record { opened = d.opened.items; saved = d.saved.items; texts = d.texts.items } };

    fn open(&mut self, name: &String) -> Result<Text<'static>, FileFault> {
        self.opened = self.opened.and(name);
        Err(FileFault::Failed)
    }

    fn save(&mut self, name: &String, text: &Vec<u8>) -> Result<(), FileFault> {
        self.saved = self.saved.and(name);
        self.texts = self.texts.and(text);
        Err(FileFault::Failed)
    }
}
