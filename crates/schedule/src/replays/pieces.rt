//! Cuts pieces of any length into lines, and reads the whole text of a source.

ghost use Rattle.std.specs.Prelude.{◌≡◌, ℕ, ◌+◌, ◌-◌, ◌^◌, ◌⊎◌, List, [], ◌∷◌, ◌++◌, OnOk, OnErr, IfOk, IfErr, true, min, length, ◌≤◌};
ghost use Rattle.std.specs.Io.KnownBytes.{Consumes, IsAtEnd};
ghost use Rattle.schedule.specs.Words.{parts_of};

use crate::lines::cut::cut_once;
use crate::replays::replay_fault::ReplayFault;
use crate::texts::device::{Failed, Source};
use std::alloc::{AllocError, Global};

/// Takes lines, one after the other.
pub trait TakeLine {
    /// what holds of it after these lines
    ghost after: { Self → List (List ℕ) → Type 0 };

    /// Takes the next line, without its LF.
    fn take_line(&mut self, line: &[u8]) -> Result<(), AllocError>
        ensures { (lines : List (List ℕ)) → after self.old lines → OnOk result (after self.new (lines ++ line.now ∷ [])) };

    /// Takes lines from the front of a text that begins with a line. It may take none.
    /// Answers the text after the lines that it took.
    fn take_leading_lines<'a>(&mut self, text: &'a [u8]) -> &'a [u8]
        ensures taken { (lines : List (List ℕ)) → after self.old lines
            → (more : List (List ℕ)) × (parts_of text.now ≡ more ++ parts_of result.now) × after self.new (lines ++ more) }
        ensures shorter { length result.now ≤ length text.now };
}

/// Gives the taker the line that begins in the buffer and ends with these bytes.
/// Where the buffer is empty, nothing is copied.
fn hand_on<T: TakeLine>(buffer: &mut Vec<u8>, taker: &mut T, end: &[u8]) -> Result<(), AllocError>
    ensures cleared { OnOk result (buffer.new.items ≡ []) }
    ensures taken { (lines : List (List ℕ)) → T.after taker.old lines
        → OnOk result (T.after taker.new (lines ++ (buffer.old.items ++ end.now) ∷ [])) }
{
    if buffer.is_empty() {
        taker.take_line(end)?;
        return Ok(());
    }
    buffer.extend_from_slice(end)?;
    taker.take_line(buffer)?;
    buffer.clear();
    Ok(())
}

/// Gives the taker each line that ends in the piece. Keeps the beginning of the next one in the buffer.
fn feed<T: TakeLine>(buffer: &mut Vec<u8>, taker: &mut T, piece: &[u8]) -> Result<(), AllocError>
    requires { parts_of buffer.old.items ≡ buffer.old.items ∷ [] }
    ensures kept { OnOk result (parts_of buffer.new.items ≡ buffer.new.items ∷ []) }
    ensures taken { (lines : List (List ℕ)) → T.after taker.old lines → OnOk result ((more : List (List ℕ))
        × (parts_of (buffer.old.items ++ piece.now) ≡ more ++ buffer.new.items ∷ []) × T.after taker.new (lines ++ more)) }
{
    let mut rest = piece;
    while let Some((front, after)) = cut_once(rest, b'\n') {
        hand_on(buffer, taker, front)?;
        rest = taker.take_leading_lines(after);
    }
    buffer.extend_from_slice(rest)?;
    Ok(())
}

/// Bytes of any line without a fault: the longest has twelve words, eleven of them numbers of twenty digits.
const LINE_ROOM: usize = 240;

/// Gives the taker each line of the source. Answers the bytes after the last LF. It keeps one line at a time.
/// The result does not depend on how the source cuts its bytes into pieces. `Read` where the source fails.
pub fn take_lines<S: Source, T: TakeLine>(
    alloc: Global,
    source: &mut S,
    taker: &mut T,
) -> Result<Vec<u8>, ReplayFault>
    ensures taken { (lines : List (List ℕ)) → T.after taker.old lines
        → IfOk result (λ rest. (text : List ℕ) × ((S.reading source.new).given ≡ (S.reading source.old).given ++ text)
        × Consumes (S.coming source.old) (S.coming source.new) text
        × ((more : List (List ℕ)) × (parts_of text ≡ more ++ rest.items ∷ []) × T.after taker.new (lines ++ more))) }
    ensures ended { OnOk result ((S.reading source.new).ended ≡ true) }
    // It breaks off before the end.
    ensures unended { OnErr result ((S.reading source.new).ended ≡ (S.reading source.old).ended) }
    ensures none_left { OnOk result (IsAtEnd (S.coming source.new)) }
    ensures finite { OnOk result (length (S.reading source.new).given ≤ 2 ^ 63) }
    ensures fine { OnOk result ((S.reading source.new).failures ≡ (S.reading source.old).failures) }
    ensures fault { IfErr result (λ fault. (fault ≡ ReplayFault.Read)
        × ((S.reading source.new).failures ≡ min ((S.reading source.old).failures + 1) (2 ^ 64 - 1))
        ⊎ (fault ≡ ReplayFault.OutOfMemory) × ((S.reading source.new).failures ≡ (S.reading source.old).failures)) }
{
    let mut buffer = Vec::with_capacity(alloc, LINE_ROOM)?;
    let mut piece = [0; 4096];
    for _ in 0..u64::MAX {
        match source.read(&mut piece) {
            Ok(0) => return Ok(buffer),
            Ok(n) => feed(&mut buffer, taker, &piece[..n])?,
            Err(Failed) => return Err(ReplayFault::Read),
        }
    }
    unreachable!()
}

/// All bytes that the source still has. `Read` where the source fails.
pub fn read_all<S: Source>(alloc: Global, source: &mut S) -> Result<Vec<u8>, ReplayFault>
    ensures given { IfOk result (λ text. (S.reading source.new).given ≡ (S.reading source.old).given ++ text.items) }
    // Where it is known what is to come, this is just what was read.
    ensures known { IfOk result (λ text. Consumes (S.coming source.old) (S.coming source.new) text.items
        × IsAtEnd (S.coming source.new)) }
    ensures ended { OnOk result ((S.reading source.new).ended ≡ true) }
    // It breaks off before the end.
    ensures unended { OnErr result ((S.reading source.new).ended ≡ (S.reading source.old).ended) }
    ensures fine { OnOk result ((S.reading source.new).failures ≡ (S.reading source.old).failures) }
    ensures fault { IfErr result (λ fault. (fault ≡ ReplayFault.Read)
        × ((S.reading source.new).failures ≡ min ((S.reading source.old).failures + 1) (2 ^ 64 - 1))
        ⊎ (fault ≡ ReplayFault.OutOfMemory) × ((S.reading source.new).failures ≡ (S.reading source.old).failures)) }
{
    let mut text = Vec::new(alloc);
    let mut piece = [0; 4096];
    for _ in 0..u64::MAX {
        match source.read(&mut piece) {
            Ok(0) => return Ok(text),
            Ok(n) => text.extend_from_slice(&piece[..n])?,
            Err(Failed) => return Err(ReplayFault::Read),
        }
    }
    unreachable!()
}
