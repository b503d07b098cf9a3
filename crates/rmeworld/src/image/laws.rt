//! Laws about images.

ghost use Rattle.std.specs.Prelude.{◌≡◌, ℕ, List, Bool, IfOk, IfErr};
ghost use Rattle.judge.specs.Starts.{IsStart};
ghost use Rattle.judge.specs.declared.start.Start.{Start};
ghost use Rattle.rmecore.specs.declared.refusal.Refusal.TheVariants.{OutOfMemory};
ghost use Rattle.rmeworld.specs.ImageRules.{IsLawfulImage};
ghost use Rattle.rmeworld.specs.ImageStart.{IsStartOf};
ghost use Rattle.rmeworld.specs.ImageText.{Spells};
ghost use Rattle.rmeworld.specs.ImageWiden.{WideningKeeps};
ghost use Rattle.rmeworld.specs.declared.image.Image.{Image as ImageOf};

use crate::image::Image;
use crate::image::image_reader::read_image;
use crate::image::image_writer::write_image;
use rmecore::Refusal;
use std::alloc::Global;

/// If an image is lawful, the wider image is lawful too. It shows the same messages, each value with words 0 at its end.
pub fn widening_keeps()
    ensures { WideningKeeps }
{}

/// A judge can start from the start of every lawful image.
pub fn images_are_starts()
    ensures { (i : ImageOf) (s : Start) → IsLawfulImage i → IsStartOf i s → IsStart s }
{}

/// Every lawful image has a start. So a law that names an image's start speaks of every lawful image.
pub fn images_have_starts()
    ensures { (i : ImageOf) → IsLawfulImage i → (s : Start) × IsStartOf i s }
{}

/// A text has at most one image, in one form.
pub fn texts_spell_one_image()
    ensures { (text : List ℕ) (wide also : Bool) (i j : ImageOf)
        → Spells text wide i → Spells text also j → (wide ≡ also) × (i ≡ j) }
{}

/// Writes an image and reads the text back. The result is the same image with version 2. For a lawful image the only refusal
/// is `OutOfMemory`.
pub fn written_is_read(alloc: Global, image: &Image) -> Result<Image, Refusal>
    ensures same { IfOk result (λ read. read ≡ record image.now { version = 2 }) }
    ensures lawful { IsLawfulImage image.now → IfErr result (λ e. e ≡ OutOfMemory) }
{
    let text = write_image(alloc, image)?;
    read_image(alloc, &text)
}
