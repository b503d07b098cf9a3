//! The names of data words.

ghost use Rattle.std.specs.Prelude.{◌≡◌, ◌++◌, OnOk};
ghost use Rattle.diagram.specs.Signs.{data_word, entry_word, recorded_word, word_after_record};

use crate::page_parts::{put_indexed, put_text};
use redomail::Layout;
use std::alloc::AllocError;

/// Writes the name of word k of the entry at a place.
fn put_entry(out: &mut Vec<u8>, at: u64, k: u64) -> Result<(), AllocError>
    ensures { OnOk result (out.new.items ≡ out.old.items ++ entry_word at k) }
{
    if k == 0 {
        return put_indexed(out, b"sender", at);
    }
    if k == 1 {
        return put_indexed(out, b"seq", at);
    }
    put_indexed(out, b"value", at)?;
    put_indexed(out, b"", k - 2)
}

/// Writes the name of a data word after the record's. The index counts from there.
fn put_after_record(out: &mut Vec<u8>, layout: &Layout, index: u64) -> Result<(), AllocError>
    ensures { OnOk result (out.new.items ≡ out.old.items ++ word_after_record layout.now index) }
{
    if index < 4 {
        return put_indexed(out, b"board", index);
    }
    let index = index - 4;
    if index < layout.procs {
        return put_indexed(out, b"last", index);
    }
    let index = index - layout.procs;
    let size = layout.width.saturating_add(2);
    put_entry(out, index / size, index % size)
}

/// Writes the name of a data word of the record's value, or after it. The index counts from there.
fn put_recorded(out: &mut Vec<u8>, layout: &Layout, index: u64) -> Result<(), AllocError>
    ensures { OnOk result (out.new.items ≡ out.old.items ++ recorded_word layout.now index) }
{
    if index < layout.width {
        return put_indexed(out, b"rec_value", index);
    }
    put_after_record(out, layout, index - layout.width)
}

/// Writes the name of the data word at an index.
pub fn put_place(out: &mut Vec<u8>, layout: &Layout, index: u64) -> Result<(), AllocError>
    ensures { OnOk result (out.new.items ≡ out.old.items ++ data_word layout.now index) }
{
    match index {
        0 => put_text(out, b"ruined"),
        1 => put_text(out, b"closed"),
        2 => put_text(out, b"count"),
        3 => put_text(out, b"armed"),
        4 => put_text(out, b"rec_at"),
        5 => put_text(out, b"rec_seq"),
        _ => put_recorded(out, layout, index - 6),
    }
}
