//! Readers and writers of std as devices.

ghost use Rattle.std.specs.Prelude.{◌≡◌, ◌+◌, ◌-◌, ◌^◌, ◌<◌, ◌≤◌, ◌++◌, List, ℕ, [], length, take, OnOk, OnErr, IfOk, min, false, Some, unwrap_or};
ghost use Rattle.schedule.specs.Tapes.{AreKnown};

use crate::texts::device::{Failed, Sink, Source};
use histories::Log;
use std::snapshot::Snapshot;
use std::{io, mem};

/// The log with the bytes added. A log is for proofs alone and takes no memory.
fn log_with(log: Log<u8>, bytes: &[u8]) -> Log<u8>
    ensures { result.items ≡ log.items ++ bytes.now }
{
    let mut all = log;
    for byte in bytes {
        all = all.and(byte);
    }
    all
}

/// The most bytes that a `FromReader` gives.
const MOST_BYTES: u64 = 1 << 62;

/// Any reader of std as a source. It fails where the reader does, also where that was only interrupted.
/// It fails once it has given 2^62 bytes.
#[derive(Drop)]
pub struct FromReader<R> {
    inner: R,
    given: Log<u8>,
    count: u64,
    ended: bool,
    failures: u64,
    ghost counted: { count ≡ length given.items },
    ghost few: { count ≤ 2 ^ 62 },
}

impl<R: io::Read> FromReader<R> {
    /// A reader that has given nothing yet. Where it is known what the reader will give, this is to come.
    pub fn new(inner: R) -> FromReader<R>
        ensures reading { ⟦<FromReader<R> as Source>⟧.reading result ≡ record { given = []; ended = false; failures = 0 } }
        ensures coming { ⟦<FromReader<R> as Source>⟧.coming result ≡ R.remaining inner }
    {
        FromReader {
            inner,
            given: Log::new(),
            count: 0,
            ended: false,
            failures: 0,
        }
    }

    /// Counts a failure of the reader.
    fn fail(&mut self) -> Failed
        ensures inner { self.new.inner ≡ self.old.inner }
        ensures given { self.new.given.items ≡ self.old.given.items }
        ensures ended { self.new.ended ≡ self.old.ended }
        ensures failures { self.new.failures ≡ min (self.old.failures + 1) (2 ^ 64 - 1) }
    {
        self.failures = self.failures.saturating_add(1);
        Failed
    }

    /// Notes bytes that the reader has given.
    fn take(&mut self, bytes: &[u8])
        requires { self.old.count + length bytes.now ≤ 2 ^ 62 }
        ensures inner { self.new.inner ≡ self.old.inner }
        ensures given { self.new.given.items ≡ self.old.given.items ++ bytes.now }
        ensures failures { self.new.failures ≡ self.old.failures }
        ensures ended { self.new.ended ≡ self.old.ended }
    {
        self.given = log_with(mem::replace(&mut self.given, Log::new()), bytes);
        self.count += bytes.len() as u64;
    }
}

impl<R: io::Read> Source for FromReader<R> {
    ghost reading = { λ s. record { given = s.given.items; ended = s.ended; failures = s.failures } };

    ghost coming = { λ s. R.remaining s.inner };

    fn read(&mut self, buf: &mut [u8]) -> Result<usize, Failed> {
        let left = MOST_BYTES - self.count;
        if left == 0 {
            return Err(self.fail());
        }
        let room = buf.len().min(left as usize);
        match self.inner.read(&mut buf[..room]) {
            Ok(n) => {
                self.take(&buf[..n]);
                if n == 0 && room > 0 {
                    self.ended = true;
                }
                Ok(n)
            }
            Err(_) => Err(self.fail()),
        }
    }
}

/// Any writer of std as a sink. It fails where the writer does, also where that was only interrupted or wrote nothing.
/// What it has taken is what the writer holds, where that is known of every writer of the type. So it begins with what the
/// writer held at first.
#[derive(Drop)]
pub struct ToWriter<W: io::Write> {
    inner: W,
    first: Snapshot<W>,
    taken: Log<u8>,
    failures: u64,
    ghost passed: { AreKnown W.contents
        → W.contents inner ≡ Some (unwrap_or (W.contents first.value) [] ++ taken.items) },
}

impl<W: io::Write> ToWriter<W> {
    /// A writer that has taken what it holds already, where that is known, and else nothing.
    pub fn new(inner: W) -> ToWriter<W>
        ensures { ⟦<ToWriter<W> as Sink>⟧.tape result
            ≡ record { taken = unwrap_or (W.contents inner) []; failures = 0 } }
    {
        let first = Snapshot::of(&inner);
        ToWriter {
            inner,
            first,
            taken: Log::new(),
            failures: 0,
        }
    }

    /// The writer. It holds what was taken.
    pub fn into_inner(self) -> W
        ensures { AreKnown W.contents → W.contents result ≡ Some (⟦<ToWriter<W> as Sink>⟧.tape self).taken }
    {
        self.inner
    }

    /// Counts a failure of the writer.
    fn fail(&mut self) -> Failed
        ensures inner { self.new.inner ≡ self.old.inner }
        ensures first { self.new.first.value ≡ self.old.first.value }
        ensures taken { self.new.taken.items ≡ self.old.taken.items }
        ensures failures { self.new.failures ≡ min (self.old.failures + 1) (2 ^ 64 - 1) }
    {
        self.failures = self.failures.saturating_add(1);
        Failed
    }
}

impl<W: io::Write> Sink for ToWriter<W> {
    ghost tape = { λ s. record { taken = unwrap_or (W.contents s.first.value) [] ++ s.taken.items; failures = s.failures } };

    fn write(&mut self, bytes: &[u8]) -> Result<usize, Failed> {
        match self.inner.write(bytes) {
            Ok(n) if n > 0 || bytes.is_empty() => {
                self.taken = log_with(mem::replace(&mut self.taken, Log::new()), &bytes[..n]);
                Ok(n)
            }
            _ => Err(self.fail()),
        }
    }

    fn flush(&mut self) -> Result<(), Failed> {
        match self.inner.flush() {
            Ok(()) => Ok(()),
            Err(_) => Err(self.fail()),
        }
    }
}
