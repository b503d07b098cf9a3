//! Devices: sources of bytes, and sinks for bytes.

ghost use Rattle.std.specs.Prelude.{◌≡◌, ◌+◌, ◌-◌, ◌^◌, ◌<◌, ◌≤◌, ◌⊎◌, ◌++◌, List, ℕ, true, false, [], length, take, drop, None, Some, IsOk, OnOk, OnErr, IfOk, IfErr, IfSome, min, max};
ghost use Rattle.std.specs.declared.option.Option.{Option};
ghost use Rattle.std.specs.Io.KnownBytes.{ReadConsumes};
ghost use Rattle.schedule.specs.Tapes.{WritesFront, Reading, Tape};

use std::alloc::{AllocError, Global};
use thiserror::Error;

/// A device failed: it read or wrote nothing.
#[derive(Clone, Copy, Debug, PartialEq, Eq, Error)]
#[error("the device failed")]
pub struct Failed;

/// A source of bytes, read in pieces, in the shape of std's `Read`.
pub trait Source {
    /// what was read of it
    ghost reading: { Self → Reading };

    /// the bytes that it gives from here on, where they are known
    ghost coming: { Self → Option (List ℕ) } = { λ _. None };

    /// the most bytes that one read gives, where that has a bound
    ghost most: { Self → Option ℕ } = { λ _. None };

    /// Reads into the front of the buffer, and answers how many bytes. 0 for a buffer that is not empty is the end.
    fn read(&mut self, buf: &mut [u8]) -> Result<usize, Failed>
        ensures bound { IfOk result (λ n. n ≤ length buf.new) }
        ensures given { IfOk result (λ n. (reading self.new).given ≡ (reading self.old).given ++ take n buf.new) }
        ensures end { IfOk result (λ n. n ≡ 0 → 0 < length buf.new → (reading self.new).ended ≡ true) }
        // Nothing else tells its end.
        ensures goes_on { IfOk result (λ n. (0 < n) ⊎ (length buf.new ≡ 0)
            → (reading self.new).ended ≡ (reading self.old).ended) }
        ensures fine { OnOk result ((reading self.new).failures ≡ (reading self.old).failures) }
        ensures failed { OnErr result ((reading self.new).failures ≡ min ((reading self.old).failures + 1) (2 ^ 64 - 1)) }
        ensures kept { OnErr result ((reading self.new).given ≡ (reading self.old).given) }
        ensures still { OnErr result ((reading self.new).ended ≡ (reading self.old).ended) }
        ensures most { IfOk result (λ n. IfSome (most self.old) (λ bound. n ≤ bound)) }
        ensures same_bound { most self.new ≡ most self.old }
        // It gives the bytes that are known to come, in their order, and leaves out none.
        ensures coming { ReadConsumes (coming self.old) (coming self.new) result buf.new }
        // A source has finitely many bytes.
        ensures finite { OnOk result (length (reading self.new).given ≤ 2 ^ 63) };
}

/// A sink for bytes, in the shape of std's `Write`.
pub trait Sink {
    /// what it has taken
    ghost tape: { Self → Tape };

    /// Takes some of the front of the bytes, at least one unless there is none, and answers how many.
    fn write(&mut self, bytes: &[u8]) -> Result<usize, Failed>
        ensures bound { IfOk result (λ n. n ≤ length bytes.now) }
        ensures moves { IfOk result (λ n. 0 < length bytes.now → 0 < n) }
        ensures taken { IfOk result (λ n. (tape self.new).taken ≡ (tape self.old).taken ++ take n bytes.now) }
        ensures fine { OnOk result ((tape self.new).failures ≡ (tape self.old).failures) }
        ensures failed { OnErr result ((tape self.new).failures ≡ min ((tape self.old).failures + 1) (2 ^ 64 - 1)) }
        ensures kept { OnErr result ((tape self.new).taken ≡ (tape self.old).taken) };

    /// Passes on what it holds back. Takes no bytes.
    fn flush(&mut self) -> Result<(), Failed>
        ensures taken { (tape self.new).taken ≡ (tape self.old).taken }
        ensures fine { OnOk result ((tape self.new).failures ≡ (tape self.old).failures) }
        ensures failed { OnErr result ((tape self.new).failures ≡ min ((tape self.old).failures + 1) (2 ^ 64 - 1)) };
}

/// Bytes in memory as a source, in pieces of at most a given length.
#[derive(Drop)]
pub struct Text<'a> {
    all: &'a [u8],
    at: usize,
    piece: usize,
    ended: bool,
    ghost within: { at ≤ length all.now },
    // It answers its end only where nothing is left.
    ghost reports: { ended ≡ true → at ≡ length all.now },
}

impl<'a> Text<'a> {
    /// A source of these bytes. A piece length of 0 counts as 1.
    pub fn new(all: &'a [u8], piece: usize) -> Text<'a>
        ensures all { result.all.now ≡ all.now }
        ensures at { result.at ≡ 0 }
        ensures piece { result.piece ≡ piece }
        ensures ended { result.ended ≡ false }
    {
        Text {
            all,
            at: 0,
            piece,
            ended: false,
        }
    }
}

impl<'a> Source for Text<'a> {
    ghost reading = { λ s. record { given = take s.at s.all.now; ended = s.ended; failures = 0 } };

    ghost coming = { λ s. Some (drop s.at s.all.now) };

    ghost most = { λ s. Some (max s.piece 1) };

    fn read(&mut self, buf: &mut [u8]) -> Result<usize, Failed> {
        let left = self.all.len() - self.at;
        let n = left.min(buf.len()).min(self.piece.max(1));
        buf[..n].copy_from_slice(&self.all[self.at..self.at + n]);
        let ends = n == 0 && !buf.is_empty();
        self.at += n;
        if ends {
            self.ended = true;
        }
        Ok(n)
    }
}

/// Bytes in memory as a sink. It fails where it is out of memory.
#[derive(Drop)]
pub struct Page {
    bytes: Vec<u8>,
    failures: u64,
}

impl Page {
    /// An empty page.
    pub fn new(alloc: Global) -> Page
        ensures bytes { result.bytes.items ≡ [] }
        ensures failures { result.failures ≡ 0 }
    {
        Page {
            bytes: Vec::new(alloc),
            failures: 0,
        }
    }

    /// The bytes that it has taken.
    pub fn as_slice(&self) -> &[u8]
        ensures { result.now ≡ self.now.bytes.items }
    {
        self.bytes.as_slice()
    }
}

impl Sink for Page {
    ghost tape = { λ s. record { taken = s.bytes.items; failures = s.failures } };

    fn write(&mut self, bytes: &[u8]) -> Result<usize, Failed> {
        match self.bytes.extend_from_slice(bytes) {
            Ok(()) => Ok(bytes.len()),
            Err(AllocError) => {
                self.failures = self.failures.saturating_add(1);
                Err(Failed)
            }
        }
    }

    /// It holds nothing back, so this never fails.
    fn flush(&mut self) -> Result<(), Failed>
        ensures fine { IsOk result }
        ensures same { self.new ≡ self.old }
    {
        Ok(())
    }
}

/// Writes all of the bytes. After `Failed` the sink has taken a beginning of them.
pub fn write_all<W: Sink>(sink: &mut W, bytes: &[u8]) -> Result<(), Failed>
    ensures all { OnOk result ((W.tape sink.new).taken ≡ (W.tape sink.old).taken ++ bytes.now) }
    ensures beginning { OnErr result ((rest : List ℕ) × WritesFront (W.tape sink.old).taken (W.tape sink.new).taken bytes.now rest) }
    ensures fine { OnOk result ((W.tape sink.new).failures ≡ (W.tape sink.old).failures) }
    ensures failed { OnErr result ((W.tape sink.new).failures ≡ min ((W.tape sink.old).failures + 1) (2 ^ 64 - 1)) }
{
    let mut rest = bytes;
    while !rest.is_empty() {
        let n = sink.write(rest)?;
        rest = &rest[n..];
    }
    Ok(())
}
