// A segment of an image.

ghost use Rattle.std.specs.Prelude.{◌≡◌, ◌+◌, ◌*◌, ◌&&◌, nat_le, length};
ghost use Rattle.svm_model.specs.Formats.ImageBytes.{segment_in, many_in};
ghost use Rattle.image_format.specs.Reading.{Gives, left};

use crate::fields::{bytes_in, u32_in, u64_in, zero_u32};
use crate::image::SegmentImage;
use crate::refusal::{ImageRefusal, refused_at};
use crate::source::Source;
use std::alloc::Global;
use svm_model::ImageReason;

// Whether bytes of this number at this address are some, and lie within so many pages.
fn fits(address: u64, size: u32, pages: u32) -> bool
    ensures { result ≡ (nat_le 1 size && nat_le (address + size) (4096 * pages)) }
{
    let end = address as u128 + size as u128;
    1 <= size && end <= 4096 * pages as u128
}

/// A segment: its address, its length, a zero and its bytes. One that is empty or goes past the guest's pages is refused
/// at its own place, as soon as its length is read.
#[tactic(auto, unfolding(svm_model::specs::Formats::ImageBytes::segment_in))]
pub fn segment_in(
    alloc: Global,
    pages: u32,
    source: Source,
) -> Result<(SegmentImage, Source), ImageRefusal>
    ensures { Gives (λ x. (x.0, left x.1)) result (segment_in pages (left source.entry)) }
{
    let (address, rest) = u64_in(source)?;
    let (size, rest) = u32_in(rest)?;
    if !fits(address, size, pages) {
        return Err(refused_at(source, ImageReason::Range));
    }
    let (_, rest) = zero_u32(rest)?;
    let (bytes, rest) = bytes_in(size as usize, rest)?;
    let bytes = Vec::from_slice(alloc, bytes)?;
    Ok((SegmentImage { address, bytes }, rest))
}

/// So many segments of a guest of so many pages.
pub fn segments_in(
    alloc: Global,
    pages: u32,
    count: u32,
    source: Source,
) -> Result<(Vec<SegmentImage>, Source), ImageRefusal>
    ensures { Gives (λ x. (x.0.items, left x.1)) result (many_in (segment_in pages) count (left source.entry)) }
{
    let mut segments = Vec::new(alloc);
    let mut rest = source;
    for _ in 0..count {
        let (segment, after) = segment_in(alloc, pages, rest)?;
        segments.push(segment)?;
        rest = after;
    }
    Ok((segments, rest))
}
