//! Devices that may fail: a reader, a writer and a clock.

use std::cell::Cell;
use std::io;
use std::io::{ErrorKind, Read, Write};
use std::time::{Clock, Duration};

/// Bytes to be read. The second read may fail.
#[derive(Drop)]
pub struct Feed<'a> {
    left: &'a [u8],
    fails: bool,
    reads: u64,
}

impl<'a> Feed<'a> {
    /// The bytes of this text. `fails`: the second read fails.
    pub fn new(text: &'a str, fails: bool) -> Feed<'a> {
        Feed {
            left: text.as_bytes(),
            fails,
            reads: 0,
        }
    }
}

impl Read for Feed<'_> {
    fn read(&mut self, buf: &mut [u8]) -> io::Result<usize> {
        self.reads = self.reads.saturating_add(1);
        if self.fails && self.reads == 2 {
            return Err(io::Error::from(ErrorKind::Other));
        }
        let n = self.left.len().min(buf.len());
        buf[..n].copy_from_slice(&self.left[..n]);
        self.left = &self.left[n..];
        Ok(n)
    }
}

/// A writer that keeps what is written to it, or fails, or fails when it is flushed.
#[derive(Drop)]
pub struct Paper<'a> {
    pub text: &'a mut Vec<u8>,
    pub fails: bool,
    pub flush_fails: bool,
}

impl Write for Paper<'_> {
    fn write(&mut self, bytes: &[u8]) -> io::Result<usize> {
        if self.fails {
            return Err(io::Error::from(ErrorKind::Other));
        }
        self.text.extend_from_slice(bytes)?;
        Ok(bytes.len())
    }

    fn flush(&mut self) -> io::Result<()> {
        if self.flush_fails {
            return Err(io::Error::from(ErrorKind::Other));
        }
        Ok(())
    }
}

/// A clock that advances by a tenth of a second each time it is read.
#[derive(Drop)]
pub struct Ticking {
    /// How often it has been read.
    pub read: Cell<u64>,
}

impl Clock for Ticking {
    fn monotonic(&self) -> io::Result<Duration> {
        let read = self.read.get();
        self.read.set(read.saturating_add(1));
        Ok(Duration::from_millis(read.saturating_mul(100)))
    }

    fn since_1970(&self) -> io::Result<Duration> {
        Err(io::Error::from(ErrorKind::Other))
    }
}
