// Generated images and scripts, worked out by hand.

use crate::image::made_image;
use crate::script::made_script;
use image_format::Image;
use std::test::Fail;
use svm_model::{CpuId, Event, GuestId, VcpuId};

/// A segment of the image of a seed and a size, by its place among the segments: its address, how many bytes it has, and the
/// last ones.
#[derive(Clone, Copy)]
struct Part {
    seed: u16,
    size: u32,
    place: usize,
    address: u64,
    length: usize,
    end: &'static [u8],
}

// The tables, the leaf of the last 2 MiB, and the code of each vcpu. The numbers of vcpu 1 and of the longest code go past 7
// bits.
#[rattlefmt::skip]
const PARTS: [Part; 7] = [
    Part { seed: 7, size: 3, place: 0, address: 0x1000, length: 8, end: &[0x07, 0x20, 0, 0, 0, 0, 0, 0] },
    Part { seed: 7, size: 3, place: 1, address: 0x2000, length: 8, end: &[0x07, 0x30, 0, 0, 0, 0, 0, 0] },
    Part { seed: 7, size: 3, place: 2, address: 0x3000, length: 64, end: &[0x87, 0, 0xe0, 0, 0, 0, 0, 0] },
    Part { seed: 0, size: 0, place: 3, address: 0x20_0000, length: 1, end: &[0xf4] },
    Part { seed: 126, size: 3, place: 4, address: 0x40_0000, length: 13, end: &[0x48, 0x83, 0xc0, 127, 0x48, 0x83, 0xc0, 0, 0x48, 0x83, 0xc0, 1, 0xf4] },
    Part { seed: 7, size: 3, place: 5, address: 0x60_0000, length: 13, end: &[0x48, 0x83, 0xc0, 9, 0x48, 0x83, 0xc0, 10, 0x48, 0x83, 0xc0, 11, 0xf4] },
    Part { seed: 65535, size: 100_000, place: 6, address: 0x80_0000, length: 400_001, end: &[0x48, 0x83, 0xc0, 33, 0xf4] },
];

fn has_part(image: &Image, part: &Part) -> bool {
    let Some(guest) = image.guests.first() else {
        return false;
    };
    let Some(segment) = guest.segments.get(part.place) else {
        return false;
    };
    let is_there = segment.address == part.address && segment.bytes.len() == part.length;
    is_there && segment.bytes.ends_with(part.end)
}

#[test]
fn images_of_seeds(rt: HostRuntime) -> Result<(), Fail> {
    for part in &PARTS {
        assert!(rt; part.size <= 100_000);
        let Ok(image) = made_image(rt.alloc(), part.seed, part.size) else {
            return Err(Fail::from("no memory"));
        };
        assert_eq!(rt; (image.version, image.features, image.cpus), (1, 0, 2));
        assert_eq!(rt; image.guests.len(), 1);
        let guest = &image.guests[0];
        assert_eq!(rt;
            (guest.pages, guest.segments.len(), guest.vcpus.len()),
            (4096, 7, 4)
        );
        let vcpu = &guest.vcpus[2];
        assert_eq!(rt; (vcpu.cr3, vcpu.rip, vcpu.rflags), (0x1000, 0x60_0000, 2));
        assert!(rt; has_part(&image, part));
    }
    Ok(())
}

#[test]
fn script_of_a_size(rt: HostRuntime) -> Result<(), Fail> {
    let place = |cpu, index| Event::Place {
        cpu: CpuId(cpu),
        vcpu: VcpuId {
            guest: GuestId(0),
            index,
        },
    };
    let run = |cpu| Event::Run { cpu: CpuId(cpu) };
    let Ok(script) = made_script(rt.alloc(), 3) else {
        return Err(Fail::from("no memory"));
    };
    assert_eq!(rt; script.events, 20);
    for (number, event) in [
        (0, Some(place(0, 0))),
        (1, Some(run(0))),
        (4, Some(run(0))),
        (5, Some(place(1, 1))),
        (6, Some(run(1))),
        (10, Some(place(0, 2))),
        (15, Some(place(1, 3))),
        (19, Some(run(1))),
        (20, None),
    ] {
        assert_eq!(rt; script.event_at(number, 2), event);
    }
    Ok(())
}
