//! The sizes that a world may have.

ghost use Rattle.std.specs.Prelude.{◌≡◌, ◌<◌, ◌≤◌, ◌^◌, None};
ghost use Rattle.rmeworld.specs.MachineState.{IsSize};
ghost use Rattle.rmeworld.specs.WorldState.{new_refusal};

use crate::image::rules::{MOST_CAP, MOST_WIDTH};
use redomail::Layout;
use rmecore::Refusal;
use rmecore::simulated::{MOST_LIMIT, MOST_PROCS};

/// The refusal for a world of these sizes and this limit of numbers, if any. In order: `BadProcs` (not 1 to 64 processes),
/// `BadLimit` (not 1 to 2^62), `BadCap` (not 1 to 65,536 messages), `BadWidth` (not 1 to 8 words a value).
pub fn size_refusal(layout: Layout, limit: u64) -> Option<Refusal>
    ensures is { result ≡ new_refusal layout limit }
    ensures sized { result ≡ None → IsSize layout }
    ensures limited { result ≡ None → (0 < limit) × (limit ≤ 2 ^ 62) }
{
    if layout.procs == 0 || layout.procs > MOST_PROCS {
        return Some(Refusal::BadProcs);
    }
    if limit == 0 || limit > MOST_LIMIT {
        return Some(Refusal::BadLimit);
    }
    if layout.cap == 0 || layout.cap > MOST_CAP {
        return Some(Refusal::BadCap);
    }
    if layout.width == 0 || layout.width > MOST_WIDTH {
        return Some(Refusal::BadWidth);
    }
    None
}
