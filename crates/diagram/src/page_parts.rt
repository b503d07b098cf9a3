//! Writes parts of a text at the end of a page.

ghost use Rattle.std.specs.Prelude.{◌≡◌, ◌≤◌, ◌-◌, ◌++◌, ◌∷◌, [], length, OnOk};
ghost use Rattle.std.specs.Fmt.{decimal};
ghost use Rattle.diagram.specs.Columns.{spaces};
ghost use Rattle.diagram.specs.Pictures.{around};
ghost use Rattle.diagram.specs.Signs.{indexed_name};

use itoa::Buffer;
use std::alloc::AllocError;

/// Writes a number.
pub fn put_decimal(out: &mut Vec<u8>, number: u64) -> Result<(), AllocError>
    ensures { OnOk result (out.new.items ≡ out.old.items ++ decimal number) }
{
    out.extend_from_slice(Buffer::new().format(number).as_bytes())
}

/// Writes a text.
pub fn put_text(out: &mut Vec<u8>, text: &[u8]) -> Result<(), AllocError>
    ensures { OnOk result (out.new.items ≡ out.old.items ++ text.now) }
{
    out.extend_from_slice(text)
}

/// Writes a text, and a number after it.
pub fn put_piece(out: &mut Vec<u8>, text: &[u8], number: u64) -> Result<(), AllocError>
    ensures { OnOk result (out.new.items ≡ out.old.items ++ text.now ++ decimal number) }
{
    put_text(out, text)?;
    put_decimal(out, number)
}

/// Writes two texts around a number.
pub fn put_around(
    out: &mut Vec<u8>,
    before: &[u8],
    number: u64,
    after: &[u8],
) -> Result<(), AllocError>
    ensures { OnOk result (out.new.items ≡ out.old.items ++ around before.now number after.now) }
{
    put_piece(out, before, number)?;
    put_text(out, after)
}

/// Writes a name, and an index in brackets after it.
pub fn put_indexed(out: &mut Vec<u8>, name: &[u8], index: u64) -> Result<(), AllocError>
    ensures { OnOk result (out.new.items ≡ out.old.items ++ indexed_name name.now index) }
{
    put_text(out, name)?;
    put_around(out, b"[", index, b"]")
}

/// Writes this many spaces.
pub fn put_spaces(out: &mut Vec<u8>, count: usize) -> Result<(), AllocError>
    ensures { OnOk result (out.new.items ≡ out.old.items ++ spaces count) }
{
    for _ in 0..count {
        out.push(b' ')?;
    }
    Ok(())
}

/// Writes spaces after what was written from `start` on, up to a width.
pub fn fill(out: &mut Vec<u8>, start: usize, wide: usize) -> Result<(), AllocError>
    requires { start ≤ length out.old.items }
    ensures { OnOk result (out.new.items ≡ out.old.items ++ spaces (wide - (length out.old.items - start))) }
{
    let written = out.len() - start;
    put_spaces(out, wide.saturating_sub(written))
}
