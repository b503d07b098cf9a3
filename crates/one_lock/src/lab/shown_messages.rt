//! What data words show of a lab.

ghost use Rattle.std.specs.Prelude.{◌≡◌, ◌≤◌, IfOk, IfErr, OnOk, slice_index};
ghost use Rattle.redomail.specs.Content.{IsContent};
ghost use Rattle.redomail.specs.Layout.{words_of};
ghost use Rattle.redomail.specs.Shape.{entries};
ghost use Rattle.table_runs.specs.Lab.{AreAllSent, setup_of};

use crate::lab::all_sent::are_all_sent;
use crate::lab::{LabFault, LabResult, Spec};
use crate::member::never_return;
use redomail::{Layout, content};
use std::alloc::Global;
use std::sync::Wait;

/// The messages that these data words show. The words have to keep the mailbox's rules. `OutOfMemory`: there was no room for
/// the messages.
fn shown_messages(alloc: Global, layout: Layout, cells: &[u64]) -> Result<LabResult, LabFault>
    ensures messages { IfOk result (λ lab. lab.messages.items ≡ entries layout (words_of cells.now) (slice_index cells.now 2)) }
    ensures kept { OnOk result (IsContent layout cells.now) }
    ensures memory { IfErr result (λ fault. fault ≡ LabFault.OutOfMemory) }
{
    match content(alloc, layout, cells) {
        Ok(messages) => Ok(LabResult { messages }),
        Err(_) => Err(LabFault::OutOfMemory),
    }
}

/// The messages that these data words of a lab's arena show. They are those that its workers have sent: of words under a
/// mutex no contract says so, and where they were not, it would not return. `OutOfMemory` as for `shown_messages`.
pub fn all_shown<R: Wait>(
    rt: &R,
    alloc: Global,
    spec: Spec,
    cells: &[u64],
) -> Result<LabResult, LabFault>
    requires few { spec.procs ≤ 64 }
    requires most { spec.messages ≤ 4096 }
    requires least { 1 ≤ spec.width }
    requires wide { spec.width ≤ 8 }
    ensures all { IfOk result (λ lab. AreAllSent spec lab.messages.items) }
    ensures messages { IfOk result
        (λ lab. lab.messages.items ≡ entries (setup_of spec).layout (words_of cells.now) (slice_index cells.now 2)) }
    ensures kept { OnOk result (IsContent (setup_of spec).layout cells.now) }
    ensures memory { IfErr result (λ fault. fault ≡ LabFault.OutOfMemory) }
{
    let layout = Layout {
        procs: spec.procs,
        cap: spec.cap,
        width: spec.width,
    };
    let lab = shown_messages(alloc, layout, cells)?;
    if are_all_sent(&spec, lab.messages.as_slice()) {
        return Ok(lab);
    }
    never_return(rt);
    unreachable!()
}
