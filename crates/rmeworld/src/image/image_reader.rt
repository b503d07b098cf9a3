//! Reading images from text.

ghost use Rattle.std.specs.Prelude.{◌≡◌, ℕ, IfOk, IfErr, ◌⊎◌, Bool, Some, None, IsUtf8};
ghost use Rattle.rmecore.specs.declared.refusal.Refusal.TheVariants.{BadImage, OutOfMemory};
ghost use Rattle.rmeworld.specs.ImageRules.{IsLawfulImage, IsFirstBroken};
ghost use Rattle.rmeworld.specs.ImageText.{Spells, version_of, IsFirstBrokenAs, IsUnread};
ghost use Rattle.serde_json.specs.Read.{read};
ghost use Rattle.serde_json.specs.View.{view};

use crate::image::Image;
use crate::image::form::{Spelled, image_in};
use crate::image::rules::first_rule;
use rmecore::Refusal;
use serde_json::Value;
use std::alloc::Global;

/// The lawful image in a text. The text may be any JSON spelling of the image's members, in any order. With version 1 it has
/// no width member.
///
/// `BadImage` names the first rule that is broken. Rule 1: the text is not an image's JSON. `OutOfMemory`: an allocation
/// failed.
pub fn read_image(alloc: Global, text: &[u8]) -> Result<Image, Refusal>
    ensures spelled { IfOk result (λ i. (wide : Bool) × Spells text.now wide i × (i.version ≡ version_of wide)) }
    ensures lawful { IfOk result IsLawfulImage }
    ensures refused { IfErr result (IsUnread text.now) }
{
    let value = parse(alloc, text)?;
    let spelled = image_in(alloc, value)?;
    check(spelled)
}

/// The JSON value of a text.
fn parse(alloc: Global, text: &[u8]) -> Result<Value, Refusal>
    ensures utf8 { IfOk result (λ v. IsUtf8 text.now) }
    ensures ok { IfOk result (λ v. read text.now ≡ Some (view v)) }
    ensures err { IfErr result (λ e. (e ≡ OutOfMemory) ⊎ ((e ≡ BadImage 1) × (IsUtf8 text.now → read text.now ≡ None))) }
{
    match Value::from_slice(alloc, text) {
        Ok(value) => Ok(value),
        Err(error) if error.is_memory() => Err(Refusal::OutOfMemory),
        Err(_) => Err(Refusal::BadImage { rule: 1 }),
    }
}

/// The image of a text, if it keeps rules 2 to 9.
fn check(spelled: Spelled) -> Result<Image, Refusal>
    ensures same { IfOk result (λ i. i ≡ spelled.image) }
    ensures version { IfOk result (λ i. i.version ≡ version_of spelled.wide) }
    ensures lawful { IfOk result IsLawfulImage }
    ensures err { IfErr result (λ e. (rule : ℕ) × IsFirstBrokenAs spelled.wide rule spelled.image × (e ≡ BadImage rule)) }
{
    let image = spelled.image;
    let version = if spelled.wide { 2 } else { 1 };
    if image.version != version {
        return Err(Refusal::BadImage { rule: 2 });
    }
    match first_rule(&image) {
        Some(rule) => Err(Refusal::BadImage { rule }),
        None => Ok(image),
    }
}
