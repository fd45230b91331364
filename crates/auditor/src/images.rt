// Images of one guest for tests.
ghost use Rattle.std.specs.Prelude.{◌<◌, length};

use std::alloc::{AllocError, Global};

/// The header of an image of one guest for one processor; the guest's, with one vcpu, 16 pages and five or six segments; and
/// of the vcpu CR3 1000h, RIP 5000h and RFLAGS 2.
const HEADER: [u8; 16] = [
    0x53, 0x56, 0x4d, 0x49, 0x4d, 0x41, 0x47, 0x45, 1, 0, 1, 1, 0, 0, 0, 0,
];

const VCPU: [u8; 32] = [
    0, 0x10, 0, 0, 0, 0, 0, 0, 0, 0x50, 0, 0, 0, 0, 0, 0, 0, 0, 0, 0, 0, 0, 0, 0, 2, 0, 0, 0, 0, 0,
    0, 0,
];

fn push_segment(image: &mut Vec<u8>, address: u16, bytes: &[u8]) -> Result<(), AllocError>
    requires { length bytes.now < 256 }
{
    let [low, high] = address.to_le_bytes();
    image.extend_from_slice(&[low, high, 0, 0, 0, 0, 0, 0])?;
    image.extend_from_slice(&[bytes.len() as u8, 0, 0, 0, 0, 0, 0, 0])?;
    image.extend_from_slice(bytes)
}

/// The image of a guest with this code. Linear page 5 is mapped to frame 5, which has the code, and linear page 6 to frame 4,
/// which is the table of these pages: their entries are at 6028h and 6030h. Frame 7 has bytes from 7000h on.
pub fn image_of(alloc: Global, code: &[u8], moved: &[u8]) -> Result<Vec<u8>, AllocError>
    requires code { length code.now < 256 }
    requires moved { length moved.now < 256 }
{
    let mut image = Vec::from_slice(alloc, &HEADER)?;
    image.extend_from_slice(&[1, 0, 0, 0, 16, 0, 0, 0, 6, 0, 0, 0, 0, 0, 0, 0])?;
    image.extend_from_slice(&VCPU)?;
    image.extend_from_slice(&[0; 32])?;
    push_segment(&mut image, 0x1000, &[7, 0x20, 0, 0, 0, 0, 0, 0])?;
    push_segment(&mut image, 0x2000, &[7, 0x30, 0, 0, 0, 0, 0, 0])?;
    push_segment(&mut image, 0x3000, &[7, 0x40, 0, 0, 0, 0, 0, 0])?;
    let entries = [7, 0x50, 0, 0, 0, 0, 0, 0, 7, 0x40, 0, 0, 0, 0, 0, 0];
    push_segment(&mut image, 0x4028, &entries)?;
    push_segment(&mut image, 0x5000, code)?;
    push_segment(&mut image, 0x7000, moved)?;
    Ok(image)
}
