//! Writing images as text.

ghost use Rattle.std.specs.Prelude.{◌≡◌, [], IfOk, IfErr, OnOk, true};
ghost use Rattle.rmecore.specs.declared.refusal.Refusal.TheVariants.{OutOfMemory};
ghost use Rattle.rmeworld.specs.ImageText.{list_data, own_data, lock_data, written_data, image_line, Spells};
ghost use Rattle.serde_json.specs.Data.{object};
ghost use Rattle.serde_json.specs.View.{view, members_view};

use crate::image::Image;
use rmecore::{Own, Refusal};
use serde_json::{Map, Value, put};
use std::alloc::{AllocError, Global};

/// The line of an image: compact JSON, its members by rising name, and a line feed. It always writes version 2. It checks no
/// rule. `OutOfMemory`: an allocation failed.
pub fn write_image(alloc: Global, image: &Image) -> Result<Vec<u8>, Refusal>
    ensures ok { IfOk result (λ text. text.items ≡ image_line image.now) }
    ensures spelled { IfOk result (λ text. Spells text.items true (record image.now { version = 2 })) }
    ensures err { IfErr result (λ e. e ≡ OutOfMemory) }
{
    let value = image_value(alloc, image)?;
    let mut text = value.to_vec(alloc)?;
    text.push(b'\n')?;
    Ok(text)
}

/// The image as a JSON value.
fn image_value(alloc: Global, image: &Image) -> Result<Value, AllocError>
    ensures { IfOk result (λ v. view v ≡ written_data image.now) }
{
    let mut members = Map::new(alloc);
    put_members(&mut members, alloc, image)?;
    Ok(Value::Object(members))
}

/// Puts the members of an image's JSON value, by rising name.
fn put_members(
    members: &mut Map<String, Value>,
    alloc: Global,
    image: &Image,
) -> Result<(), AllocError>
    requires { members.old.entries ≡ [] }
    ensures { OnOk result (object (members_view members.new.entries) ≡ written_data image.now) }
{
    put(members, alloc, "cap", Value::from(image.cap))?;
    let data = list_value(alloc, image.cells.as_slice())?;
    put(members, alloc, "data", data)?;
    put(members, alloc, "limit", Value::from(image.limit))?;
    let lock = lock_value(alloc, image.lock.as_slice())?;
    put(members, alloc, "lock", lock)?;
    put(members, alloc, "version", Value::from(2u64))?;
    put(members, alloc, "width", Value::from(image.width))?;
    Ok(())
}

/// A list of numbers.
fn list_value(alloc: Global, numbers: &[u64]) -> Result<Value, AllocError>
    ensures { IfOk result (λ v. view v ≡ list_data numbers.now) }
{
    let mut items = Vec::with_capacity(alloc, numbers.len())?;
    for number in numbers {
        items.push_reserved(Value::from(*number));
    }
    Ok(Value::Array(items))
}

/// The lock words of a process, as a list of three.
fn own_value(alloc: Global, own: &Own) -> Result<Value, AllocError>
    ensures { IfOk result (λ v. view v ≡ own_data own.now) }
{
    list_value(alloc, &[own.choosing, own.number, own.inside])
}

/// The lock words of all processes.
fn lock_value(alloc: Global, lock: &[Own]) -> Result<Value, AllocError>
    ensures { IfOk result (λ v. view v ≡ lock_data lock.now) }
{
    let mut items = Vec::with_capacity(alloc, lock.len())?;
    for own in lock {
        items.push_reserved(own_value(alloc, own)?);
    }
    Ok(Value::Array(items))
}
