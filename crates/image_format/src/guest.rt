// A guest of an image.

ghost use Rattle.std.specs.Prelude.{◌≡◌, length};
ghost use Rattle.svm_model.specs.Formats.ImageBytes.{guest_in, many_in};
ghost use Rattle.image_format.specs.Reading.{Gives, left};

use crate::fields::{bounded_u8, bounded_u32, zero_u32, zeros_in};
use crate::image::GuestImage;
use crate::refusal::ImageRefusal;
use crate::segment::segments_in;
use crate::source::Source;
use crate::vcpu::vcpus_in;
use std::alloc::Global;
use svm_model::ImageReason;

/// A guest: the numbers of its vcpus, pages and segments, then the vcpus and the segments.
#[tactic(auto, unfolding(svm_model::specs::Formats::ImageBytes::guest_in))]
pub fn guest_in(alloc: Global, source: Source) -> Result<(GuestImage, Source), ImageRefusal>
    ensures { Gives (λ x. (x.0, left x.1)) result (guest_in (left source.entry)) }
{
    let (vcpu_count, rest) = bounded_u8(1, 8, ImageReason::Count, source)?;
    let (_, rest) = zeros_in(rest)?;
    let (pages, rest) = bounded_u32(1, 16384, ImageReason::Count, rest)?;
    let (segment_count, rest) = bounded_u32(0, 4096, ImageReason::Count, rest)?;
    let (_, rest) = zero_u32(rest)?;
    let (vcpus, rest) = vcpus_in(alloc, vcpu_count, rest)?;
    let (segments, rest) = segments_in(alloc, pages, segment_count, rest)?;
    let guest = GuestImage {
        pages,
        vcpus,
        segments,
    };
    Ok((guest, rest))
}

/// So many guests.
pub fn guests_in(
    alloc: Global,
    count: u8,
    source: Source,
) -> Result<(Vec<GuestImage>, Source), ImageRefusal>
    ensures { Gives (λ x. (x.0.items, left x.1)) result (many_in guest_in count (left source.entry)) }
{
    let mut guests = Vec::new(alloc);
    let mut rest = source;
    for _ in 0..count {
        let (guest, after) = guest_in(alloc, rest)?;
        guests.push(guest)?;
        rest = after;
    }
    Ok((guests, rest))
}
