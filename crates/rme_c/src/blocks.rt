//! The image of a copied block.

ghost use Rattle.std.specs.Prelude.{◌≡◌, ◌+◌, ◌*◌, ◌<◌, ◌≤◌, ◌↔◌, IfSome, IsTrue, true, map, drop, length};
ghost use Rattle.std.specs.List.{range_with_len};
ghost use Rattle.redomail.specs.Layout.{size};
ghost use Rattle.rmeworld.specs.MachineState.{IsSize};
ghost use Rattle.rme_c.specs.Blocks.{is_block as is_block_of, own_in, image_of};

use crate::starts::size_refusal;
use redomail::Layout;
use rmecore::Own;
use rmeworld::{DataWords, Image, Owns};
use std::alloc::Global;

/// The number of words of a world's block.
#[tactic(auto, unfolding(redomail::specs::Layout::place_at))]
pub fn block_words(layout: Layout) -> u64
    requires { IsSize layout }
    ensures is { result ≡ 3 * layout.procs + size layout }
    ensures some { 0 < result }
{
    let Layout { procs, cap, width } = layout;
    3 * procs + 10 + width + procs + (2 + width) * cap
}

/// Whether these words are a block of a world with these sizes.
pub fn is_block(layout: Layout, limit: u64, words: &[u64]) -> bool
    ensures is { result ≡ is_block_of layout limit words.now }
    ensures whole { IsTrue result → 3 * layout.procs ≤ length words.now }
{
    if size_refusal(layout, limit, 0).is_some() {
        return false;
    }
    words.len() as u64 == block_words(layout)
}

/// The lock words of a process.
fn own_words(words: &[u64], p: u64) -> Own
    requires { 3 * p + 2 < length words.now }
    ensures { result ≡ own_in words.now p }
{
    let at = 3 * p as usize;
    Own {
        choosing: words[at],
        number: words[at + 1],
        inside: words[at + 2],
    }
}

/// The lock words of each process. None: out of memory.
fn owns(alloc: Global, words: &[u64], procs: u64) -> Option<Owns>
    requires { 3 * procs ≤ length words.now }
    ensures { IfSome result (λ o. o ≡ map (own_in words.now) (range_with_len 0 procs)) }
{
    let mut all = Vec::new(alloc);
    for p in 0..procs {
        all.push(own_words(words, p)).ok()?;
    }
    Some(Owns::new(all))
}

/// The data words. None: out of memory.
fn cells(alloc: Global, words: &[u64], from: u64) -> Option<DataWords>
    requires { from ≤ length words.now }
    ensures { IfSome result (λ c. c ≡ drop from words.now) }
{
    let mut all = Vec::new(alloc);
    all.extend_from_slice(&words[from as usize..]).ok()?;
    Some(DataWords::new(all))
}

/// The image of the block. None: out of memory.
pub fn image(alloc: Global, layout: Layout, limit: u64, words: &[u64]) -> Option<Image>
    requires { 3 * layout.procs ≤ length words.now }
    ensures { IfSome result (λ i. i ≡ image_of layout limit words.now) }
{
    let lock = owns(alloc, words, layout.procs)?;
    let cells = cells(alloc, words, 3 * layout.procs)?;
    Some(Image {
        cap: layout.cap,
        cells,
        limit,
        lock,
        version: 2,
        width: layout.width,
    })
}
