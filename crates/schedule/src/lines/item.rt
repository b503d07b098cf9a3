//! What a line after the header holds.

ghost use Rattle.std.specs.Prelude.{◌≡◌, ℕ, ◌≤◌, Bool, List, Result, IsTrue};
ghost use Rattle.schedule.specs.declared.lines.fault.LineFault.{LineFault};
ghost use Rattle.schedule.specs.Words.{ReadsItem, words_of};

use crate::lines::fault::LineFault;

/// What a line after the header holds: a `Line` of a schedule, or a `Deed` of a trace.
pub trait Item: Drop {
    /// the item that the words of a line say, in a text of a width
    ghost item_at: { ℕ → List (List ℕ) → Result Self LineFault };

    /// what every item of a text of a width has: numbers of 64 bits, and values of that width
    ghost is_item: { ℕ → Self → Type 0 };

    /// whether each value that it holds has the width
    ghost fits: { ℕ → Self → Bool };

    /// Reads it from a line without its LF, in a text of this width.
    fn read(width: u64, line: &[u8]) -> Result<Self, LineFault>
        requires { (1 ≤ width) × (width ≤ 8) }
        ensures { ReadsItem (λ item. item) result (item_at width (words_of line.now)) };

    /// Whether each value that it holds has this width.
    fn fits(&self, width: u64) -> bool
        ensures fits { result ≡ fits width self.now }
        ensures item { IsTrue result → is_item width self.now };
}
