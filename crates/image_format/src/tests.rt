use super::*;
use std::alloc::{AllocError, Global};
use std::test::*;

// The smallest image that runs: one processor and one guest of 16 pages, whose vcpu starts at 5000h, by tables at 1000h,
// 2000h, 3000h and 4000h. At 5000h stands HLT.
#[rattlefmt::skip]
const SMALLEST: [u8; 209] = [
    b'S', b'V', b'M', b'I', b'M', b'A', b'G', b'E', 1, 0, 1, 1, 0, 0, 0, 0,   // the magic, version, guests, processors
    1, 0, 0, 0, 16, 0, 0, 0, 5, 0, 0, 0, 0, 0, 0, 0,                          // vcpus, pages, segments
    0, 0x10, 0, 0, 0, 0, 0, 0, 0, 0x50, 0, 0, 0, 0, 0, 0,                     // CR3, RIP
    0, 0, 0, 0, 0, 0, 0, 0, 2, 0, 0, 0, 0, 0, 0, 0,                           // RSP, RFLAGS
    0, 0, 0, 0, 0, 0, 0, 0, 0, 0, 0, 0, 0, 0, 0, 0,                           // the bases of GDTR and IDTR
    0, 0, 0, 0, 0, 0, 0, 0, 0, 0, 0, 0, 0, 0, 0, 0,                           // the base of TR, the limits
    0, 0x10, 0, 0, 0, 0, 0, 0, 8, 0, 0, 0, 0, 0, 0, 0, 7, 0x20, 0, 0, 0, 0, 0, 0,
    0, 0x20, 0, 0, 0, 0, 0, 0, 8, 0, 0, 0, 0, 0, 0, 0, 7, 0x30, 0, 0, 0, 0, 0, 0,
    0, 0x30, 0, 0, 0, 0, 0, 0, 8, 0, 0, 0, 0, 0, 0, 0, 7, 0x40, 0, 0, 0, 0, 0, 0,
    0x28, 0x40, 0, 0, 0, 0, 0, 0, 8, 0, 0, 0, 0, 0, 0, 0, 7, 0x50, 0, 0, 0, 0, 0, 0,
    0, 0x50, 0, 0, 0, 0, 0, 0, 1, 0, 0, 0, 0, 0, 0, 0, 0xf4,
];

// The smallest image with these bytes in place of those from `at` on, cut off at a length.
fn changed(alloc: Global, at: usize, bytes: &[u8], length: usize) -> Result<Vec<u8>, AllocError> {
    let mut image = Vec::new(alloc);
    for place in 0..length {
        let new = if at <= place {
            bytes.get(place - at)
        } else {
            None
        };
        let old = SMALLEST.get(place);
        image.push(*new.or(old).unwrap_or(&0))?;
    }
    Ok(image)
}

#[test]
fn smallest_image(rt: HostRuntime) -> Result<(), Fail> {
    let image = parse_image(rt.alloc(), &SMALLEST).ok().ok_or("an image")?;
    assert_eq!(rt; (image.version, image.features, image.cpus), (1, 0, 1));
    assert_eq!(rt; image.guests.len(), 1);
    for guest in &image.guests {
        assert_eq!(rt; guest.pages, 16);
        assert_eq!(rt; guest.vcpus.len(), 1);
        for vcpu in &guest.vcpus {
            assert_eq!(rt; (vcpu.cr3, vcpu.rip, vcpu.rflags), (0x1000, 0x5000, 2));
            assert_eq!(rt; (vcpu.cr0, vcpu.cr4, vcpu.efer), (0x8001_0033, 0xa0, 0xd00));
            assert_eq!(rt; (vcpu.cs.selector, vcpu.cs.attributes), (8, 0x29b));
        }
        let starts = [0x1000, 0x2000, 0x3000, 0x4028, 0x5000];
        assert_eq!(rt; guest.segments.len(), 5);
        for (segment, start) in guest.segments.iter().zip(&starts) {
            assert_eq!(rt; segment.address, *start);
            assert_eq!(rt; segment.bytes.len(), if *start == 0x5000 { 1 } else { 8 });
        }
    }
    Ok(())
}

#[test]
fn each_front_is_short(rt: HostRuntime) {
    for length in 0..209 {
        let refusal = parse_image(rt.alloc(), &SMALLEST[..length]).err();
        let short = ImageRefusal::Bad {
            place: length as u32,
            reason: ImageReason::Short,
        };
        assert_eq!(rt; refusal, Some(short));
    }
}

struct Change {
    at: usize,
    bytes: &'static [u8],
    length: usize,
    place: u32,
    reason: ImageReason,
}

// A header of 16 bytes, a guest of 16, a vcpu of 64, and segments at 96, 120, 144, 168 and 192.
#[rattlefmt::skip]
const CHANGES: [Change; 34] = [
    Change { at: 7, bytes: b"F", length: 209, place: 0, reason: ImageReason::Magic },
    Change { at: 8, bytes: &[3], length: 209, place: 8, reason: ImageReason::Version },
    Change { at: 8, bytes: &[2, 0, 1, 1, 2], length: 209, place: 12, reason: ImageReason::Feature },
    Change { at: 10, bytes: &[0], length: 209, place: 10, reason: ImageReason::Count },
    Change { at: 10, bytes: &[5], length: 209, place: 10, reason: ImageReason::Count },
    Change { at: 11, bytes: &[0], length: 209, place: 11, reason: ImageReason::Count },
    Change { at: 11, bytes: &[9], length: 209, place: 11, reason: ImageReason::Count },
    Change { at: 12, bytes: &[1], length: 209, place: 12, reason: ImageReason::Zero },
    Change { at: 15, bytes: &[1], length: 209, place: 12, reason: ImageReason::Zero },
    Change { at: 16, bytes: &[0], length: 209, place: 16, reason: ImageReason::Count },
    Change { at: 16, bytes: &[9], length: 209, place: 16, reason: ImageReason::Count },
    Change { at: 18, bytes: &[1], length: 209, place: 17, reason: ImageReason::Zero },
    Change { at: 20, bytes: &[0], length: 209, place: 20, reason: ImageReason::Count },
    Change { at: 20, bytes: &[0x01, 0x40], length: 209, place: 20, reason: ImageReason::Count },
    Change { at: 24, bytes: &[0x01, 0x10], length: 209, place: 24, reason: ImageReason::Count },
    Change { at: 31, bytes: &[1], length: 209, place: 28, reason: ImageReason::Zero },
    Change { at: 37, bytes: &[1], length: 209, place: 32, reason: ImageReason::Register },
    Change { at: 45, bytes: &[0x80], length: 209, place: 40, reason: ImageReason::Register },
    Change { at: 53, bytes: &[0x80], length: 209, place: 48, reason: ImageReason::Register },
    Change { at: 56, bytes: &[0], length: 209, place: 56, reason: ImageReason::Register },
    Change { at: 57, bytes: &[1], length: 209, place: 56, reason: ImageReason::Register },
    Change { at: 69, bytes: &[0x80], length: 209, place: 64, reason: ImageReason::Register },
    Change { at: 77, bytes: &[0x80], length: 209, place: 72, reason: ImageReason::Register },
    Change { at: 85, bytes: &[0x80], length: 209, place: 80, reason: ImageReason::Register },
    Change { at: 95, bytes: &[1], length: 209, place: 94, reason: ImageReason::Zero },
    Change { at: 104, bytes: &[0], length: 209, place: 96, reason: ImageReason::Range },
    Change { at: 194, bytes: &[1], length: 209, place: 192, reason: ImageReason::Range },
    // Range is told before a field that is not zero, and before the end.
    Change { at: 192, bytes: &[0, 0, 1, 0, 0, 0, 0, 0, 1, 0, 0, 0, 1], length: 209, place: 192, reason: ImageReason::Range },
    Change { at: 194, bytes: &[1], length: 204, place: 192, reason: ImageReason::Range },
    Change { at: 194, bytes: &[1], length: 203, place: 203, reason: ImageReason::Short },
    // 65535 + 2 bytes, and 2 ^ 64 - 1 with 1 more.
    Change { at: 192, bytes: &[0xff, 0xff, 0, 0, 0, 0, 0, 0, 2], length: 209, place: 192, reason: ImageReason::Range },
    Change { at: 192, bytes: &[255, 255, 255, 255, 255, 255, 255, 255], length: 209, place: 192, reason: ImageReason::Range },
    // So is a field that is not zero before the end.
    Change { at: 204, bytes: &[1], length: 208, place: 204, reason: ImageReason::Zero },
    Change { at: 209, bytes: &[0], length: 210, place: 209, reason: ImageReason::Trailing },
];

#[test]
fn changes_are_refused(rt: HostRuntime) -> Result<(), Fail> {
    for change in &CHANGES {
        let image = changed(rt.alloc(), change.at, change.bytes, change.length)?;
        let refusal = ImageRefusal::Bad {
            place: change.place,
            reason: change.reason,
        };
        assert_eq!(rt; parse_image(rt.alloc(), &image).err(), Some(refusal));
    }
    Ok(())
}

#[test]
fn version_2_has_features(rt: HostRuntime) -> Result<(), Fail> {
    for features in 0..2 {
        let bytes = changed(rt.alloc(), 8, &[2, 0, 1, 1, features], 209)?;
        let image = parse_image(rt.alloc(), &bytes).ok().ok_or("an image")?;
        assert_eq!(rt; (image.version, image.features), (2, u32::from(features)));
    }
    Ok(())
}

#[test]
fn most_pages_are_read(rt: HostRuntime) -> Result<(), Fail> {
    let bytes = changed(rt.alloc(), 20, &[0x00, 0x40], 209)?;
    let image = parse_image(rt.alloc(), &bytes).ok().ok_or("an image")?;
    for guest in &image.guests {
        assert_eq!(rt; guest.pages, 16384);
    }
    Ok(())
}

#[test]
fn too_long_is_told_first(rt: HostRuntime) -> Result<(), Fail> {
    let mut bytes = vec![in rt.alloc(); 0; 67_108_864]?;
    let magic = ImageRefusal::Bad {
        place: 0,
        reason: ImageReason::Magic,
    };
    assert_eq!(rt; parse_image(rt.alloc(), &bytes).err(), Some(magic));
    bytes.push(0)?;
    let long = ImageRefusal::Bad {
        place: 67_108_864,
        reason: ImageReason::TooLong,
    };
    assert_eq!(rt; parse_image(rt.alloc(), &bytes).err(), Some(long));
    Ok(())
}

#[test]
fn refusals_as_text(rt: HostRuntime) -> Result<(), Fail> {
    let refusal = ImageRefusal::Bad {
        place: 17,
        reason: ImageReason::Zero,
    };
    let text = format!(in rt.alloc(); "{refusal}, {}", ImageRefusal::NoMemory)?;
    assert_eq!(rt; text.as_str(), "byte 17: Zero, no memory");
    Ok(())
}
