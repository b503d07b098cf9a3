//! Making images wider.

ghost use Rattle.std.specs.Prelude.{◌≡◌, ◌<◌, ◌≤◌, ◌+◌, ◌++◌, IfOk, IfErr, OnOk, length};
ghost use Rattle.rmecore.specs.Body.{zeros};
ghost use Rattle.redomail.specs.Content.{HeadsHold};
ghost use Rattle.rmeworld.specs.ImageRules.{IsLawfulImage};
ghost use Rattle.rmeworld.specs.ImageWiden.{padded_words, IsWider, IsUnwidened};
ghost use Rattle.rmeworld.specs.WideWords.{words_from, wide_words, wide_place};

use crate::cells::DataWords;
use crate::image::Image;
use crate::image::rules::{MOST_WIDTH, first_rule, layout};
use crate::owns::Owns;
use redomail::Layout;
use redomail::contents::place;
use rmecore::Refusal;
use std::alloc::{AllocError, Global};

/// The image with values of `width` words: each value, and the record's, gets words 0 at its end. The result has version 2.
///
/// `BadImage` names the first rule that the image breaks. `BadWidth`: the width is below the image's or above 8.
/// `OutOfMemory`: an allocation failed.
pub fn widen(alloc: Global, image: &Image, width: u64) -> Result<Image, Refusal>
    ensures wider { IfOk result (λ j. IsWider width image.now j) }
    ensures lawful { IfOk result IsLawfulImage }
    ensures refused { IfErr result (IsUnwidened width image.now) }
    ensures ok { OnOk result (IsLawfulImage image.now × (image.now.width ≤ width) × (width ≤ 8)) }
{
    if let Some(rule) = first_rule(image) {
        return Err(Refusal::BadImage { rule });
    }
    if width < image.width || width > MOST_WIDTH {
        return Err(Refusal::BadWidth);
    }
    Ok(widened_image(alloc, image, width)?)
}

/// The wider image of a lawful image.
fn widened_image(alloc: Global, image: &Image, width: u64) -> Result<Image, AllocError>
    requires lawful { IsLawfulImage image.now }
    requires least { image.now.width ≤ width }
    requires most { width ≤ 8 }
    ensures wider { IfOk result (λ j. IsWider width image.now j) }
    ensures lawful { IfOk result IsLawfulImage }
{
    let cells = wide_cells(alloc, layout(image), image.cells.as_slice(), width)?;
    let mut lock = Vec::new(alloc);
    lock.extend_from_slice(image.lock.as_slice())?;
    Ok(Image {
        cap: image.cap,
        cells: DataWords::new(cells),
        limit: image.limit,
        lock: Owns::new(lock),
        version: 2,
        width,
    })
}

/// The data words, with wider values.
fn wide_cells(
    alloc: Global,
    layout: Layout,
    words: &[u64],
    width: u64,
) -> Result<Vec<u64>, AllocError>
    requires heads { HeadsHold layout words.now }
    requires few { layout.procs ≤ 64 }
    requires long { 10 + layout.width + layout.procs ≤ length words.now }
    requires wide { layout.width ≤ width }
    ensures { IfOk result (λ cells. cells.items ≡ wide_words layout width words.now layout.cap) }
{
    let mut cells = Vec::with_capacity(alloc, words.len())?;
    push_all(&mut cells, layout, words, width)?;
    Ok(cells)
}

/// Appends the data words, with wider values.
fn push_all(
    cells: &mut Vec<u64>,
    layout: Layout,
    words: &[u64],
    width: u64,
) -> Result<(), AllocError>
    requires heads { HeadsHold layout words.now }
    requires few { layout.procs ≤ 64 }
    requires long { 10 + layout.width + layout.procs ≤ length words.now }
    requires wide { layout.width ≤ width }
    ensures { OnOk result (cells.new.items ≡ cells.old.items ++ wide_words layout width words.now layout.cap) }
{
    push_front(cells, layout, words, width)?;
    for a in 0..layout.cap {
        push_place(cells, layout, words, a, width)?;
    }
    Ok(())
}

/// Appends the words before the first place.
fn push_front(
    cells: &mut Vec<u64>,
    layout: Layout,
    words: &[u64],
    width: u64,
) -> Result<(), AllocError>
    requires few { layout.procs ≤ 64 }
    requires narrow { layout.width ≤ 8 }
    requires long { 10 + layout.width + layout.procs ≤ length words.now }
    requires wide { layout.width ≤ width }
    ensures { OnOk result (cells.new.items ≡ cells.old.items ++ wide_words layout width words.now 0) }
{
    push_part(cells, words, 0, 6)?;
    push_wide(cells, words, 6, layout.width, width)?;
    push_part(cells, words, 6 + layout.width, 4 + layout.procs)
}

/// Appends the words of place `a`.
fn push_place(
    cells: &mut Vec<u64>,
    layout: Layout,
    words: &[u64],
    a: u64,
    width: u64,
) -> Result<(), AllocError>
    requires heads { HeadsHold layout words.now }
    requires room { a < layout.cap }
    requires wide { layout.width ≤ width }
    ensures { OnOk result (cells.new.items ≡ cells.old.items ++ wide_place layout width words.now a) }
{
    let at = place(layout, words, a);
    push_part(cells, words, at, 2)?;
    push_wide(cells, words, at + 2, layout.width, width)
}

/// Appends the `count` words from index `at` on.
fn push_part(cells: &mut Vec<u64>, words: &[u64], at: u64, count: u64) -> Result<(), AllocError>
    requires { at + count ≤ length words.now }
    ensures { OnOk result (cells.new.items ≡ cells.old.items ++ words_from at count words.now) }
{
    let first = at as usize;
    cells.extend_from_slice(&words[first..first + count as usize])
}

/// Appends the value of `count` words from index `at` on, with words 0 at its end.
fn push_wide(
    cells: &mut Vec<u64>,
    words: &[u64],
    at: u64,
    count: u64,
    width: u64,
) -> Result<(), AllocError>
    requires within { at + count ≤ length words.now }
    requires wide { count ≤ width }
    ensures { OnOk result (cells.new.items ≡ cells.old.items ++ padded_words width (words_from at count words.now)) }
{
    push_part(cells, words, at, count)?;
    push_zeros(cells, width - count)
}

/// Appends `count` words 0.
fn push_zeros(cells: &mut Vec<u64>, count: u64) -> Result<(), AllocError>
    ensures { OnOk result (cells.new.items ≡ cells.old.items ++ zeros count) }
{
    for k in 0..count {
        cells.push(0)?;
    }
    Ok(())
}
