// The fields of an image. Each function answers the field's value and what is left after it.

ghost use Rattle.std.specs.Prelude.{◌≡◌};
ghost use Rattle.std.specs.Int.{w8, w16, w32, w64};
ghost use Rattle.svm_model.specs.Formats.ImageFields.{bytes_in, number_in, bounded, zero_in, zeros_in, magic_in, features_in, root_in, linear_in, flags_in};
ghost use Rattle.image_format.specs.Reading.{Gives, left};

use crate::refusal::{ImageRefusal, refused_at};
use crate::source::Source;
use byteorder::{ByteOrder, LittleEndian};
use svm_model::ImageReason;
use vm_names::is_canonical;

// CF, bit 1, PF, AF, ZF, SF, IF, DF, OF, IOPL, NT and ID.
const FLAGS_OFFERED: u64 = 0x0020_7ed7;

/// The next so many bytes. Where there are fewer, the place of the refusal is the image's length.
pub fn bytes_in(count: usize, source: Source) -> Result<(&[u8], Source), ImageRefusal>
    ensures { Gives (λ x. (x.0.now, left x.1)) result (bytes_in count (left source.entry)) }
{
    if source.rest.len() < count {
        return Err(ImageRefusal::Bad {
            place: source.place + source.rest.len() as u32,
            reason: ImageReason::Short,
        });
    }
    let (bytes, rest) = source.rest.split_at(count);
    let place = source.place + count as u32;
    Ok((bytes, Source { place, rest }))
}

/// A number of 8 bits.
pub fn u8_in(source: Source) -> Result<(u8, Source), ImageRefusal>
    ensures { Gives (λ x. (x.0, left x.1)) result (number_in w8 (left source.entry)) }
{
    let (bytes, rest) = bytes_in(1, source)?;
    Ok((bytes[0], rest))
}

/// A number of 16 bits.
pub fn u16_in(source: Source) -> Result<(u16, Source), ImageRefusal>
    ensures { Gives (λ x. (x.0, left x.1)) result (number_in w16 (left source.entry)) }
{
    let (bytes, rest) = bytes_in(2, source)?;
    Ok((LittleEndian::read_u16(bytes), rest))
}

/// A number of 32 bits.
pub fn u32_in(source: Source) -> Result<(u32, Source), ImageRefusal>
    ensures { Gives (λ x. (x.0, left x.1)) result (number_in w32 (left source.entry)) }
{
    let (bytes, rest) = bytes_in(4, source)?;
    Ok((LittleEndian::read_u32(bytes), rest))
}

/// A number of 64 bits.
pub fn u64_in(source: Source) -> Result<(u64, Source), ImageRefusal>
    ensures { Gives (λ x. (x.0, left x.1)) result (number_in w64 (left source.entry)) }
{
    let (bytes, rest) = bytes_in(8, source)?;
    Ok((LittleEndian::read_u64(bytes), rest))
}

/// A number of 8 bits within bounds.
pub fn bounded_u8(
    low: u8,
    high: u8,
    reason: ImageReason,
    source: Source,
) -> Result<(u8, Source), ImageRefusal>
    ensures { Gives (λ x. (x.0, left x.1)) result (bounded w8 low high reason (left source.entry)) }
{
    let (number, rest) = u8_in(source)?;
    if number < low || high < number {
        return Err(refused_at(source, reason));
    }
    Ok((number, rest))
}

/// A number of 16 bits within bounds.
pub fn bounded_u16(
    low: u16,
    high: u16,
    reason: ImageReason,
    source: Source,
) -> Result<(u16, Source), ImageRefusal>
    ensures { Gives (λ x. (x.0, left x.1)) result (bounded w16 low high reason (left source.entry)) }
{
    let (number, rest) = u16_in(source)?;
    if number < low || high < number {
        return Err(refused_at(source, reason));
    }
    Ok((number, rest))
}

/// A number of 32 bits within bounds.
pub fn bounded_u32(
    low: u32,
    high: u32,
    reason: ImageReason,
    source: Source,
) -> Result<(u32, Source), ImageRefusal>
    ensures { Gives (λ x. (x.0, left x.1)) result (bounded w32 low high reason (left source.entry)) }
{
    let (number, rest) = u32_in(source)?;
    if number < low || high < number {
        return Err(refused_at(source, reason));
    }
    Ok((number, rest))
}

/// A number of 16 bits that has to be zero.
pub fn zero_u16(source: Source) -> Result<(u16, Source), ImageRefusal>
    ensures { Gives (λ x. (x.0, left x.1)) result (zero_in w16 (left source.entry)) }
{
    bounded_u16(0, 0, ImageReason::Zero, source)
}

/// A number of 32 bits that has to be zero.
pub fn zero_u32(source: Source) -> Result<(u32, Source), ImageRefusal>
    ensures { Gives (λ x. (x.0, left x.1)) result (zero_in w32 (left source.entry)) }
{
    bounded_u32(0, 0, ImageReason::Zero, source)
}

/// The word of features: version 1 has none, version 2 offers bit 0, FlushByAsid.
pub fn features_in(version: u16, source: Source) -> Result<(u32, Source), ImageRefusal>
    ensures { Gives (λ x. (x.0, left x.1)) result (features_in version (left source.entry)) }
{
    if version == 1 {
        zero_u32(source)
    } else {
        bounded_u32(0, 1, ImageReason::Feature, source)
    }
}

/// Three bytes that have to be zero. They are refused at the first of them.
pub fn zeros_in(source: Source) -> Result<(&[u8], Source), ImageRefusal>
    ensures { Gives (λ x. (x.0.now, left x.1)) result (zeros_in (left source.entry)) }
{
    let (bytes, rest) = bytes_in(3, source)?;
    if !bytes.iter().all(|byte| *byte == 0) {
        return Err(refused_at(source, ImageReason::Zero));
    }
    Ok((bytes, rest))
}

/// The eight bytes with which each image begins.
pub fn magic_in(source: Source) -> Result<(&[u8], Source), ImageRefusal>
    ensures { Gives (λ x. (x.0.now, left x.1)) result (magic_in (left source.entry)) }
{
    let (bytes, rest) = bytes_in(8, source)?;
    if bytes != b"SVMIMAGE".as_slice() {
        return Err(refused_at(source, ImageReason::Magic));
    }
    Ok((bytes, rest))
}

/// CR3: bits 63:40 are 0.
pub fn root_in(source: Source) -> Result<(u64, Source), ImageRefusal>
    ensures { Gives (λ x. (x.0, left x.1)) result (root_in (left source.entry)) }
{
    let (root, rest) = u64_in(source)?;
    if root >= 1 << 40 {
        return Err(refused_at(source, ImageReason::Register));
    }
    Ok((root, rest))
}

/// A linear address in canonical form (volume 1, 'Canonical Address Form').
pub fn linear_in(source: Source) -> Result<(u64, Source), ImageRefusal>
    ensures { Gives (λ x. (x.0, left x.1)) result (linear_in (left source.entry)) }
{
    let (address, rest) = u64_in(source)?;
    if !is_canonical(address) {
        return Err(refused_at(source, ImageReason::Register));
    }
    Ok((address, rest))
}

/// RFLAGS (volume 2, 'RFLAGS Register'): bit 1 is set, and no bit is set that a start value may not have.
pub fn flags_in(source: Source) -> Result<(u64, Source), ImageRefusal>
    ensures { Gives (λ x. (x.0, left x.1)) result (flags_in (left source.entry)) }
{
    let (flags, rest) = u64_in(source)?;
    let has_bit_1 = flags & 2 == 2;
    let is_offered = flags & FLAGS_OFFERED == flags;
    if !(has_bit_1 && is_offered) {
        return Err(refused_at(source, ImageReason::Register));
    }
    Ok((flags, rest))
}
