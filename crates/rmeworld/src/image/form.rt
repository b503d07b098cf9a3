//! The JSON form of an image.

ghost use Rattle.std.specs.Prelude.{◌≡◌, ℕ, IfOk, IfErr, ◌⊎◌, Bool, false, List, is_some, unwrap_or, codes};
ghost use Rattle.rmecore.specs.declared.own.Own.{Own as OwnOf};
ghost use Rattle.rmecore.specs.declared.refusal.Refusal.TheVariants.{BadImage, OutOfMemory};
ghost use Rattle.rmeworld.specs.ImageText.{whole_data, list_data, own_data, lock_data, width_member, image_data};
ghost use Rattle.rmeworld.specs.declared.image.Image.{Image as ImageOf};
ghost use Rattle.serde_json.specs.Data.{Data, Members, member, object};
ghost use Rattle.serde_json.specs.View.{view, members_view};

use crate::cells::DataWords;
use crate::image::Image;
use crate::owns::Owns;
use rmecore::{Own, Refusal};
use serde_json::{Map, Value};
use std::alloc::Global;

// The refusal for a text that is not an image's JSON.
const MISSHAPEN: Refusal = Refusal::BadImage { rule: 1 };

/// Takes the first member of an object, which must have this name.
fn take(members: &mut Map<String, Value>, name: &str) -> Result<Value, Refusal>
    ensures ok { IfOk result (λ v. members_view members.old.entries ≡ member name.now (view v) (members_view members.new.entries)) }
    ensures err { IfErr result (λ e. (e ≡ BadImage 1) × ((d : Data) (ms : Members)
        → members_view members.old.entries ≡ member name.now d ms → ⊥)) }
{
    match members.pop_first() {
        Some((key, value)) if key.as_str() == name => Ok(value),
        _ => Err(MISSHAPEN),
    }
}

/// The value as a whole number.
fn whole_number(value: &Value) -> Result<u64, Refusal>
    ensures ok { IfOk result (λ n. view value.now ≡ whole_data n) }
    ensures err { IfErr result (λ e. (e ≡ BadImage 1) × ((n : ℕ) → view value.now ≡ whole_data n → ⊥)) }
{
    match value.as_u64() {
        Some(number) => Ok(number),
        None => Err(MISSHAPEN),
    }
}

/// The value as a list of whole numbers.
fn numbers(alloc: Global, value: &Value) -> Result<Vec<u64>, Refusal>
    ensures ok { IfOk result (λ ns. view value.now ≡ list_data ns.items) }
    ensures err { IfErr result (λ e. (e ≡ OutOfMemory)
        ⊎ ((e ≡ BadImage 1) × ((ns : List ℕ) → view value.now ≡ list_data ns → ⊥))) }
{
    let Some(items) = value.as_array() else {
        return Err(MISSHAPEN);
    };
    let mut numbers = Vec::with_capacity(alloc, items.len())?;
    for item in items {
        numbers.push_reserved(whole_number(item)?);
    }
    Ok(numbers)
}

/// The value as the lock words of a process, a list of three numbers.
fn own_words(value: &Value) -> Result<Own, Refusal>
    ensures ok { IfOk result (λ x. view value.now ≡ own_data x) }
    ensures err { IfErr result (λ e. (e ≡ BadImage 1) × ((x : OwnOf) → view value.now ≡ own_data x → ⊥)) }
{
    let Some(items) = value.as_array() else {
        return Err(MISSHAPEN);
    };
    let [choosing, number, inside] = items.as_slice() else {
        return Err(MISSHAPEN);
    };
    Ok(Own {
        choosing: whole_number(choosing)?,
        number: whole_number(number)?,
        inside: whole_number(inside)?,
    })
}

/// The value as a list of lock words.
fn owns(alloc: Global, value: &Value) -> Result<Vec<Own>, Refusal>
    ensures ok { IfOk result (λ xs. view value.now ≡ lock_data xs.items) }
    ensures err { IfErr result (λ e. (e ≡ OutOfMemory)
        ⊎ ((e ≡ BadImage 1) × ((xs : List OwnOf) → view value.now ≡ lock_data xs → ⊥))) }
{
    let Some(items) = value.as_array() else {
        return Err(MISSHAPEN);
    };
    let mut owns = Vec::with_capacity(alloc, items.len())?;
    for item in items {
        owns.push_reserved(own_words(item)?);
    }
    Ok(owns)
}

/// Takes the first member, a whole number.
fn take_whole(members: &mut Map<String, Value>, name: &str) -> Result<u64, Refusal>
    ensures ok { IfOk result (λ n. members_view members.old.entries
        ≡ member name.now (whole_data n) (members_view members.new.entries)) }
    ensures err { IfErr result (λ e. (e ≡ BadImage 1) × ((n : ℕ) (ms : Members)
        → members_view members.old.entries ≡ member name.now (whole_data n) ms → ⊥)) }
{
    let value = take(members, name)?;
    whole_number(&value)
}

/// Takes the first member, a list of whole numbers.
fn take_numbers(
    alloc: Global,
    members: &mut Map<String, Value>,
    name: &str,
) -> Result<Vec<u64>, Refusal>
    ensures ok { IfOk result (λ ns. members_view members.old.entries
        ≡ member name.now (list_data ns.items) (members_view members.new.entries)) }
    ensures err { IfErr result (λ e. (e ≡ OutOfMemory) ⊎ ((e ≡ BadImage 1)
        × ((ns : List ℕ) (ms : Members) → members_view members.old.entries ≡ member name.now (list_data ns) ms → ⊥))) }
{
    let value = take(members, name)?;
    numbers(alloc, &value)
}

/// Takes the first member, a list of lock words.
fn take_owns(
    alloc: Global,
    members: &mut Map<String, Value>,
    name: &str,
) -> Result<Vec<Own>, Refusal>
    ensures ok { IfOk result (λ xs. members_view members.old.entries
        ≡ member name.now (lock_data xs.items) (members_view members.new.entries)) }
    ensures err { IfErr result (λ e. (e ≡ OutOfMemory) ⊎ ((e ≡ BadImage 1)
        × ((xs : List OwnOf) (ms : Members) → members_view members.old.entries ≡ member name.now (lock_data xs) ms → ⊥))) }
{
    let value = take(members, name)?;
    owns(alloc, &value)
}

/// Takes the last member, the width, if there is one.
fn last_width(members: &mut Map<String, Value>) -> Result<Option<u64>, Refusal>
    ensures ok { IfOk result (λ o. members_view members.old.entries ≡ width_member (is_some o) (unwrap_or o 1)) }
    ensures err { IfErr result (λ e. (e ≡ BadImage 1) × ((wide : Bool) (w : ℕ)
        → members_view members.old.entries ≡ width_member wide w → ⊥)) }
{
    if members.is_empty() {
        return Ok(None);
    }
    let width = take_whole(members, "width")?;
    if !members.is_empty() {
        return Err(MISSHAPEN);
    }
    Ok(Some(width))
}

/// The image in a text, and whether the text has a width member.
#[derive(Drop)]
pub(crate) struct Spelled {
    pub(crate) image: Image,
    pub(crate) wide: bool,
}

/// The image in a JSON value. `BadImage` with rule 1: the value is not an image's.
pub(crate) fn image_in(alloc: Global, value: Value) -> Result<Spelled, Refusal>
    ensures ok { IfOk result (λ s. view value ≡ image_data s.wide s.image) }
    ensures narrow { IfOk result (λ s. s.wide ≡ false → s.image.width ≡ 1) }
    ensures err { IfErr result (λ e. (e ≡ OutOfMemory) ⊎ ((e ≡ BadImage 1)
        × ((wide : Bool) (i : ImageOf) → view value ≡ image_data wide i → ⊥))) }
{
    match value {
        Value::Object(mut members) => take_image(alloc, &mut members),
        _ => Err(MISSHAPEN),
    }
}

#[tactic(auto, using(crate::proofs::ImageForms::image_of_members))]
/// Takes all members, those of an image.
fn take_image(alloc: Global, members: &mut Map<String, Value>) -> Result<Spelled, Refusal>
    ensures ok { IfOk result (λ s. object (members_view members.old.entries) ≡ image_data s.wide s.image) }
    ensures narrow { IfOk result (λ s. s.wide ≡ false → s.image.width ≡ 1) }
    ensures err { IfErr result (λ e. (e ≡ OutOfMemory) ⊎ ((e ≡ BadImage 1)
        × ((wide : Bool) (i : ImageOf) → object (members_view members.old.entries) ≡ image_data wide i → ⊥))) }
{
    let cap = take_whole(members, "cap")?;
    let cells = take_numbers(alloc, members, "data")?;
    let limit = take_whole(members, "limit")?;
    let lock = take_owns(alloc, members, "lock")?;
    let (version, width) = take_last(members)?;
    let image = Image {
        cap,
        cells: DataWords::new(cells),
        limit,
        lock: Owns::new(lock),
        version,
        width: width.unwrap_or(1),
    };
    Ok(Spelled {
        image,
        wide: width.is_some(),
    })
}

/// Takes the members after the lock words: the version, and the width, if there is one.
fn take_last(members: &mut Map<String, Value>) -> Result<(u64, Option<u64>), Refusal>
    ensures ok { IfOk result (λ r. members_view members.old.entries
        ≡ member (codes "version") (whole_data r.0) (width_member (is_some r.1) (unwrap_or r.1 1))) }
    ensures err { IfErr result (λ e. (e ≡ BadImage 1) × ((version : ℕ) (wide : Bool) (w : ℕ)
        → members_view members.old.entries ≡ member (codes "version") (whole_data version) (width_member wide w) → ⊥)) }
{
    let version = take_whole(members, "version")?;
    let width = last_width(members)?;
    Ok((version, width))
}
