//! A whole text: its header, and an item on each further line.

ghost use Rattle.std.specs.Prelude.{◌≡◌, ℕ, ◌+◌, ◌^◌, ◌<◌, ◌≤◌, ◌⊎◌, ◌++◌, ◌∷◌, [], Bool, List, Result, length, IfOk, OnOk, OnErr, IfErr, IsErrOf, IsTrue, IsFalse};
ghost use Rattle.schedule.specs.declared.lines.fault.LineFault.{LineFault};
ghost use Rattle.schedule.specs.Words.{ReadsItem, words_of, parts_of};
ghost use Rattle.schedule.specs.Texts.{Gives, items_at, text_at};

use crate::lines::cut::cut_once;
use crate::lines::fault::LineFault;
use crate::lines::item::Item;
use crate::texts::fault::TextFault;
use rmecore::Refusal;
use std::alloc::Global;

/// Adds an item. `BadWidth` where it holds a value of another width.
pub fn add<T: Item>(items: &mut Vec<T>, width: u64, item: T) -> Result<(), Refusal>
    ensures ok { OnOk result (items.new.items ≡ items.old.items ++ item ∷ []) }
    ensures item { OnOk result (T.is_item width item) }
    ensures accepted { OnOk result (IsTrue (T.fits width item)) }
    ensures refused { IfErr result (λ refusal. (refusal ≡ Refusal.BadWidth)
        × IsFalse (T.fits width item) ⊎ (refusal ≡ Refusal.OutOfMemory)) }
    ensures width { IsFalse (T.fits width item) → IsErrOf result Refusal.BadWidth }
    ensures err { OnErr result (items.new.items ≡ items.old.items) }
{
    if !item.fits(width) {
        return Err(Refusal::BadWidth);
    }
    items.push(item)?;
    Ok(())
}

/// Reads the items of all lines. `first` is the number of the first of them, which a fault names.
pub fn items<T: Item>(
    alloc: Global,
    width: u64,
    first: u64,
    text: &[u8],
) -> Result<Vec<T>, TextFault>
    requires width { (1 ≤ width) × (width ≤ 8) }
    requires room { first + length text.now < 2 ^ 64 }
    ensures { Gives (λ items. items.items) result (items_at (T.item_at width) first (parts_of text.now)) }
{
    let mut items = Vec::new(alloc);
    let mut rest = text;
    let mut number = first;
    while !rest.is_empty() {
        let Some((line, after)) = cut_once(rest, b'\n') else {
            return Err(TextFault::on_line(number, LineFault::NoNewline));
        };
        match T::read(width, line) {
            Ok(item) => items.push(item)?,
            Err(fault) => return Err(TextFault::on_line(number, fault)),
        }
        rest = after;
        number += 1;
    }
    Ok(items)
}

/// The header of a text, its first line.
pub trait Heading: Drop {
    type Item: Item;

    /// what the words of the first line say
    ghost head_at: { List (List ℕ) → Result Self LineFault };

    /// how many words a value has
    ghost width_of: { Self → ℕ };

    /// Reads it from the first line, without its LF.
    fn read(line: &[u8]) -> Result<Self, LineFault>
        ensures head { ReadsItem (λ head. head) result (head_at (words_of line.now)) }
        ensures width { IfOk result (λ head. (1 ≤ width_of head) × (width_of head ≤ 8)) };

    /// How many words a value of the other lines has.
    fn width(&self) -> u64
        ensures { result ≡ width_of self.now };
}

/// Reads a whole text.
pub fn read_all<H: Heading>(alloc: Global, text: &[u8]) -> Result<(H, Vec<H::Item>), TextFault>
    ensures { Gives (λ read. (read.0, read.1.items)) result
        (text_at H.head_at (λ head. H.Item.item_at (H.width_of head)) (parts_of text.now)) }
{
    if text.is_empty() {
        return Err(TextFault::on_line(1, LineFault::NoHeader));
    }
    let Some((first, rest)) = cut_once(text, b'\n') else {
        return Err(TextFault::on_line(1, LineFault::NoNewline));
    };
    match H::read(first) {
        Ok(head) => {
            let items = items(alloc, head.width(), 2, rest)?;
            Ok((head, items))
        }
        Err(fault) => Err(TextFault::on_line(1, fault)),
    }
}
