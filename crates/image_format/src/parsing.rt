// Reads a whole image.

ghost use Rattle.std.specs.Prelude.{◌≡◌, length, IfOk};
ghost use Rattle.svm_model.specs.Formats.ImageBytes.{image_in, image_of};
ghost use Rattle.svm_model.specs.Formats.LawfulImages.{IsLawfulImage};
ghost use Rattle.image_format.specs.Reading.{GivesImage, left};

use crate::fields::{bounded_u8, bounded_u16, features_in, magic_in};
use crate::guest::guests_in;
use crate::image::Image;
use crate::refusal::{ImageRefusal, refused_at};
use crate::source::Source;
use std::alloc::Global;
use svm_model::ImageReason;

// The most bytes that an image has.
const IMAGE_LIMIT: u32 = 67_108_864;

// The magic, the version, the numbers of guests and processors, the word of features, and the guests. Nothing may follow.
#[tactic(auto, unfolding(svm_model::specs::Formats::ImageBytes::image_in))]
fn image_in(alloc: Global, source: Source) -> Result<Image, ImageRefusal>
    ensures { GivesImage result (image_in (left source.entry)) }
{
    let (_, rest) = magic_in(source)?;
    let (version, rest) = bounded_u16(1, 2, ImageReason::Version, rest)?;
    let (count, rest) = bounded_u8(1, 4, ImageReason::Count, rest)?;
    let (cpus, rest) = bounded_u8(1, 8, ImageReason::Count, rest)?;
    let (features, rest) = features_in(version, rest)?;
    let (guests, rest) = guests_in(alloc, count, rest)?;
    if !rest.rest.is_empty() {
        return Err(refused_at(rest, ImageReason::Trailing));
    }
    Ok(Image {
        version,
        features,
        cpus,
        guests,
    })
}

// The number of the bytes is looked at before any of them.
#[tactic(auto, unfolding(svm_model::specs::Formats::ImageBytes::image_of))]
fn image_of(alloc: Global, bytes: &[u8]) -> Result<Image, ImageRefusal>
    ensures { GivesImage result (image_of bytes.now) }
{
    if bytes.len() > IMAGE_LIMIT as usize {
        return Err(ImageRefusal::Bad {
            place: IMAGE_LIMIT,
            reason: ImageReason::TooLong,
        });
    }
    let source = Source {
        place: 0,
        rest: bytes,
    };
    image_in(alloc, source)
}

/// The image that the bytes are. Otherwise `Bad` with the first place where they are refused, and why: the place of a
/// field whose value is wrong, or of a segment that does not fit; the number of the bytes where they end too soon; the
/// limit where they are too many. `NoMemory` says that there is no memory for what they say, and may come for any bytes.
pub fn parse_image(alloc: Global, bytes: &[u8]) -> Result<Image, ImageRefusal>
    ensures exact { GivesImage result (image_of bytes.now) }
    // What holds of each image, for callers that do not look at its bytes.
    ensures lawful { IfOk result IsLawfulImage }
{
    image_of(alloc, bytes)
}
