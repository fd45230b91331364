ghost use Rattle.std.specs.Prelude.{IfOk};
ghost use Rattle.svm_model.specs.Formats.LawfulImages.{IsLawfulImage};

use super::*;
use image_format::parse_image;
use std::test::*;

// A segment: its address and its bytes.
type Piece<'a> = (u16, &'a [u8]);

// An image of two guests of two pages, of one vcpu each, of which the second has these segments.
fn image_of(alloc: Global, segments: &[Piece]) -> Result<Image, Fail>
    ensures { IfOk result IsLawfulImage }
{
    let mut bytes = Vec::from_slice(alloc, b"SVMIMAGE\x01\x00\x02\x01\x00\x00\x00\x00")?;
    push_guest(&mut bytes, 0)?;
    push_guest(&mut bytes, u8::try_from(segments.len())?)?;
    for (address, piece) in segments {
        bytes.extend_from_slice(&address.to_le_bytes())?;
        bytes.extend_from_slice(&[0; 6])?;
        bytes.push(u8::try_from(piece.len())?)?;
        bytes.extend_from_slice(&[0; 7])?;
        bytes.extend_from_slice(piece)?;
    }
    Ok(parse_image(alloc, &bytes)?)
}

// The head of a guest of two pages and of so many segments, and its vcpu, of which all is 0 but bit 1 of RFLAGS.
fn push_guest(bytes: &mut Vec<u8>, segments: u8) -> Result<(), Fail> {
    bytes.extend_from_slice(&[1, 0, 0, 0, 2, 0, 0, 0, segments, 0, 0, 0, 0, 0, 0, 0])?;
    bytes.extend_from_slice(&[0; 24])?;
    bytes.push(2)?;
    bytes.extend_from_slice(&[0; 39])?;
    Ok(())
}

// The byte of a guest at an address.
fn byte_at(tracer: &Tracer, guest: GuestId, address: u16) -> Option<u8> {
    let memory = tracer.memories.get(usize::from(guest.0))?;
    let page = u32::from(address / 4096);
    if memory.bytes.len() < 4096 * page as usize + 4096 {
        return None;
    }
    tracer
        .page(guest, page)
        .get(usize::from(address % 4096))
        .copied()
}

#[test]
fn segments_lie_over_earlier_ones(rt: HostRuntime) -> Result<(), Fail> {
    let segments: [Piece; 3] = [(0x10, b"abcd"), (0x12, b"XY"), (0x0fff, b"12")];
    let image = image_of(rt.alloc(), &segments)?;
    let mut tracer = Tracer::new(rt.alloc(), &image).ok().ok_or("a tracer")?;
    let first = GuestId(0);
    let second = GuestId(1);
    let bytes = [
        (first, 0x10, Some(0)),
        (second, 0x0f, Some(0)),
        (second, 0x10, Some(b'a')),
        (second, 0x11, Some(b'b')),
        (second, 0x12, Some(b'X')),
        (second, 0x13, Some(b'Y')),
        (second, 0x14, Some(0)),
        (second, 0x0fff, Some(b'1')),
        (second, 0x1000, Some(b'2')),
        (second, 0x2000, None),
        (GuestId(2), 0, None),
    ];
    for (guest, address, byte) in &bytes {
        assert_eq!(rt; byte_at(&tracer, *guest, *address), *byte);
    }
    if tracer.memories.len() != 2 || tracer.memories[1].bytes.len() != 8192 {
        return Err("two guests of two pages".into());
    }
    tracer.put(second, 1, &[7; 4096]);
    let bytes = [
        (first, 0x1000, Some(0)),
        (second, 0x0fff, Some(b'1')),
        (second, 0x1000, Some(7)),
        (second, 0x1fff, Some(7)),
    ];
    for (guest, address, byte) in &bytes {
        assert_eq!(rt; byte_at(&tracer, *guest, *address), *byte);
    }
    Ok(())
}
