//! The lines of a session that tell no step.

ghost use Rattle.std.specs.Prelude.{◌≡◌, ◌++◌, OnOk};
ghost use Rattle.diagram.specs.Helps.{help_text};
ghost use Rattle.diagram.specs.Sessions.{fault_text};

use crate::page_parts::{put_around, put_piece, put_text};
use std::alloc::AllocError;

/// Writes why a line is not taken.
pub fn put_fault(out: &mut Vec<u8>, line: u64, name: &[u8], number: u64) -> Result<(), AllocError>
    ensures { OnOk result (out.new.items ≡ out.old.items ++ fault_text line name.now number) }
{
    put_around(out, b"line ", line, b": ")?;
    put_around(out, name, number, b"\n")
}

/// Writes what can be asked for.
#[tactic(auto, unfolding(crate::specs::Helps::help_text))]
pub fn put_help(out: &mut Vec<u8>) -> Result<(), AllocError>
    ensures { OnOk result (out.new.items ≡ out.old.items ++ help_text) }
{
    put_text(
        out,
        b"a line of a schedule: lock P, step P K, crash P, unlock P, recover P, withdraw P\n",
    )?;
    put_text(
        out,
        b"                      of the built-in lock also: consistent P, append P SEQ VALUE, ..\n",
    )?;
    put_text(out, b"undo         go back to before the last line\n")?;
    put_text(
        out,
        b"redo         take the line again that was undone last\n",
    )?;
    put_text(
        out,
        b"to answer P  take steps of P until its call is answered\n",
    )?;
    put_text(
        out,
        b"save FILE    write the schedule so far to a file, for replay\n",
    )?;
    put_text(out, b"help, quit\n")
}
