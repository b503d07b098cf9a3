//! In which models of memory an access is remote.

ghost use Rattle.std.specs.Prelude.{◌≡◌, ◌++◌, ℕ, true, List, OnOk};
ghost use Rattle.algorithms.specs.declared.remote_references.memory_event.MemoryEvent.{MemoryEvent};
ghost use Rattle.algorithms.specs.remote_references.CopyRows.{AreCopiesAfter};
ghost use Rattle.diagram.specs.RemoteMarks.{has_place, is_remote_in_some, marks_at, marks_member, marks_of_home, marks_text, text_if, truth_text};

use crate::page_parts::put_text;
use algorithms::{Address, Copies, MemoryModel, WordAccess};
use std::alloc::AllocError;

/// In which models of memory an access is remote.
#[derive(Clone, Copy)]
pub struct RemoteMarks {
    pub distributed: bool,
    pub write_through: bool,
    pub write_back: bool,
}

/// Whether this is one of at most 64 processes, and a word of this many declarations: then it has a place among the copies.
fn has_place(declarations: usize, p: u64, word: Address) -> bool
    ensures { result ≡ has_place declarations p word }
{
    p < 64 && (word.index < 64 && word.declaration < declarations)
}

/// In which models p's next access is remote, where its word has this home, and a place among the copies.
fn marks_of_home(copies: &Copies, home: Option<u64>, p: u64, access: WordAccess) -> RemoteMarks
    ensures { (declarations : ℕ) (run : List MemoryEvent) → AreCopiesAfter declarations run copies.now
        → has_place declarations p access.address ≡ true → result ≡ marks_of_home home run p access }
{
    RemoteMarks {
        distributed: copies.is_remote(MemoryModel::Distributed, home, p, access),
        write_through: copies.is_remote(MemoryModel::WriteThrough, home, p, access),
        write_back: copies.is_remote(MemoryModel::WriteBack, home, p, access),
    }
}

/// The marks of p's next access, where its word has this home, and a place among the copies.
pub(crate) fn marks_at(
    copies: &Copies,
    declarations: usize,
    home: Option<u64>,
    p: u64,
    access: WordAccess,
) -> Option<RemoteMarks>
    ensures { (run : List MemoryEvent) → AreCopiesAfter declarations run copies.now
        → result ≡ marks_at declarations home run p access }
{
    if has_place(declarations, p, access.address) {
        Some(marks_of_home(copies, home, p, access))
    } else {
        None
    }
}

/// Whether an access is remote in a model.
fn is_remote(marks: RemoteMarks) -> bool
    ensures { result ≡ is_remote_in_some marks }
{
    marks.distributed || (marks.write_through || marks.write_back)
}

/// Writes a text, if this holds.
fn put_if(out: &mut Vec<u8>, holds: bool, text: &[u8]) -> Result<(), AllocError>
    ensures { OnOk result (out.new.items ≡ out.old.items ++ text_if holds text.now) }
{
    if holds { put_text(out, text) } else { Ok(()) }
}

/// Writes in which models an access is remote, if in any.
pub(crate) fn put_marks(out: &mut Vec<u8>, marks: Option<RemoteMarks>) -> Result<(), AllocError>
    ensures { OnOk result (out.new.items ≡ out.old.items ++ marks_text marks) }
{
    let Some(marks) = marks else {
        return Ok(());
    };
    put_if(out, is_remote(marks), b" remote")?;
    put_if(out, marks.distributed, b" dsm")?;
    put_if(out, marks.write_through, b" write-through")?;
    put_if(out, marks.write_back, b" write-back")
}

/// Writes true or false.
fn put_truth(out: &mut Vec<u8>, holds: bool) -> Result<(), AllocError>
    ensures { OnOk result (out.new.items ≡ out.old.items ++ truth_text holds) }
{
    if holds {
        put_text(out, b"true")
    } else {
        put_text(out, b"false")
    }
}

/// Writes the marks as a member of an object.
pub(crate) fn put_marks_member(
    out: &mut Vec<u8>,
    marks: Option<RemoteMarks>,
) -> Result<(), AllocError>
    ensures { OnOk result (out.new.items ≡ out.old.items ++ marks_member marks) }
{
    let Some(marks) = marks else {
        return put_text(out, b",\"remote\":null");
    };
    put_text(out, b",\"remote\":{\"dsm\":")?;
    put_truth(out, marks.distributed)?;
    put_text(out, b",\"write-through\":")?;
    put_truth(out, marks.write_through)?;
    put_text(out, b",\"write-back\":")?;
    put_truth(out, marks.write_back)?;
    put_text(out, b"}")
}
