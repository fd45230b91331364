// The generated image: a guest of four vcpus, each of which adds numbers.

ghost use Rattle.std.specs.Prelude.{◌≡◌, ◌≤◌, ◌++◌, map, IfOk};
ghost use Rattle.std.specs.Int.{w64, to_le_bytes};
ghost use Rattle.std.specs.List.{flat_map, range_with_len};
ghost use Rattle.svm_model.specs.Formats.LawfulImages.{IsLawfulImage};
ghost use Rattle.workload.specs.Generated.{vcpu_count, size_limit, code_address, start_of, segment, leaf_bytes, tables, add_bytes, code_bytes, code_segment, made_guest, made_image};

use image_format::{
    GuestImage, Image, SegmentImage, Start, start_registers, start_tr, table_register,
};
use std::alloc::{AllocError, Global};
use svm_model::{NoMemory, Registers};

/// The processors of the image.
pub const CPU_COUNT: u8 = 2;

/// The vcpus of its guest.
pub const VCPU_COUNT: u8 = 4;

// The guest's pages of 4 KiB.
const PAGE_COUNT: u32 = 4096;

// The bytes that a leaf maps. The code of each vcpu begins those of one leaf.
const LEAF_SIZE: u64 = 0x20_0000;

// The leaves, which map all pages.
const LEAF_COUNT: u8 = 8;

// The flags of a leaf: present, writable, for users, PS.
const LEAF_FLAGS: u64 = 0x87;

// Where the PML4 table lies.
const PML4_ADDRESS: u64 = 0x1000;

// Where the PDP table lies.
const PDP_ADDRESS: u64 = 0x2000;

// Where the page directory lies, which has the leaves.
const PD_ADDRESS: u64 = 0x3000;

// The PML4 entry of the PDP table: present, writable, for users.
const PML4_ENTRY: u64 = 0x2007;

// The PDP entry of the page directory: present, writable, for users.
const PDP_ENTRY: u64 = 0x3007;

// RFLAGS with no flag: bit 1 alone, which is always set.
const NO_FLAGS: u64 = 2;

// A number has 7 bits, so that it is added without a sign.
const NUMBER_LIMIT: u64 = 128;

// The byte of HLT.
const HLT: u8 = 0xf4;

// Where the code of a vcpu begins.
fn code_address(vcpu: u8) -> u64
    ensures { result ≡ code_address vcpu }
{
    LEAF_SIZE * (u64::from(vcpu) + 1)
}

// A vcpu starts at its code.
fn start_of(vcpu: u8) -> Registers
    ensures { result ≡ start_of vcpu }
{
    start_registers(Start {
        cr3: PML4_ADDRESS,
        rip: code_address(vcpu),
        rsp: 0,
        rflags: NO_FLAGS,
        gdtr: table_register(0, 0),
        idtr: table_register(0, 0),
        tr: start_tr(0, 0),
    })
}

// All vcpus as they start.
#[tactic(auto, using(crate::proofs::Ranges::ranges))]
fn vcpus(alloc: Global) -> Result<Vec<Registers>, AllocError>
    ensures { IfOk result (λ vcpus. vcpus.items ≡ map start_of (range_with_len 0 vcpu_count)) }
{
    let mut vcpus = Vec::new(alloc);
    for vcpu in 0..VCPU_COUNT {
        vcpus.push(start_of(vcpu))?;
    }
    Ok(vcpus)
}

// A segment of one table entry.
fn entry_segment(alloc: Global, address: u64, entry: u64) -> Result<SegmentImage, AllocError>
    ensures { IfOk result (λ part. part ≡ segment address (to_le_bytes w64 entry)) }
{
    let bytes = Vec::from_slice(alloc, &entry.to_le_bytes())?;
    Ok(SegmentImage { address, bytes })
}

// The bytes of a leaf, by its place in the table.
fn leaf_bytes(place: u8) -> [u8; 8]
    ensures { result ≡ leaf_bytes place }
{
    (LEAF_SIZE * u64::from(place) + LEAF_FLAGS).to_le_bytes()
}

// The bytes of all leaves.
#[tactic(auto, using(crate::proofs::Ranges::ranges))]
fn leaves(alloc: Global) -> Result<Vec<u8>, AllocError>
    ensures { IfOk result (λ bytes. bytes.items ≡ flat_map leaf_bytes (range_with_len 0 8)) }
{
    let mut bytes = Vec::new(alloc);
    for place in 0..LEAF_COUNT {
        bytes.extend_from_slice(&leaf_bytes(place))?;
    }
    Ok(bytes)
}

// The segments of the tables: one PML4 entry, one PDP entry, and the leaves.
fn tables(alloc: Global) -> Result<Vec<SegmentImage>, AllocError>
    ensures { IfOk result (λ segments. segments.items ≡ tables) }
{
    let mut segments = Vec::new(alloc);
    segments.push(entry_segment(alloc, PML4_ADDRESS, PML4_ENTRY)?)?;
    segments.push(entry_segment(alloc, PDP_ADDRESS, PDP_ENTRY)?)?;
    let bytes = leaves(alloc)?;
    segments.push(SegmentImage {
        address: PD_ADDRESS,
        bytes,
    })?;
    Ok(segments)
}

// ADD RAX, imm8 of the number at a place.
fn add_bytes(seed: u16, vcpu: u8, place: u32) -> [u8; 4]
    ensures { result ≡ add_bytes seed vcpu place }
{
    let number = (u64::from(seed) + u64::from(vcpu) + u64::from(place)) % NUMBER_LIMIT;
    [0x48, 0x83, 0xc0, number as u8]
}

// The code of a vcpu: it adds so many numbers, and halts.
#[tactic(auto, using(crate::proofs::Ranges::ranges), unfolding(crate::specs::Generated::code_bytes))]
fn code_bytes(alloc: Global, seed: u16, size: u32, vcpu: u8) -> Result<Vec<u8>, AllocError>
    ensures { IfOk result (λ bytes. bytes.items ≡ code_bytes seed size vcpu) }
{
    let mut bytes = Vec::new(alloc);
    for place in 0..size {
        bytes.extend_from_slice(&add_bytes(seed, vcpu, place))?;
    }
    bytes.push(HLT)?;
    Ok(bytes)
}

// The segment of a vcpu's code.
fn code_segment(alloc: Global, seed: u16, size: u32, vcpu: u8) -> Result<SegmentImage, AllocError>
    ensures { IfOk result (λ part. part ≡ code_segment seed size vcpu) }
{
    let address = code_address(vcpu);
    let bytes = code_bytes(alloc, seed, size, vcpu)?;
    Ok(SegmentImage { address, bytes })
}

// All segments: the tables, and the code of each vcpu.
#[tactic(auto, using(crate::proofs::Ranges::ranges))]
fn segments(alloc: Global, seed: u16, size: u32) -> Result<Vec<SegmentImage>, AllocError>
    ensures { IfOk result (λ segments. segments.items ≡ tables ++ map (code_segment seed size) (range_with_len 0 vcpu_count)) }
{
    let mut segments = tables(alloc)?;
    for vcpu in 0..VCPU_COUNT {
        segments.push(code_segment(alloc, seed, size, vcpu)?)?;
    }
    Ok(segments)
}

// The guest.
fn made_guest(alloc: Global, seed: u16, size: u32) -> Result<GuestImage, AllocError>
    ensures { IfOk result (λ guest. guest ≡ made_guest seed size) }
{
    let vcpus = vcpus(alloc)?;
    let segments = segments(alloc, seed, size)?;
    Ok(GuestImage {
        pages: PAGE_COUNT,
        vcpus,
        segments,
    })
}

// The image has this guest alone.
#[tactic(auto, unfolding(crate::specs::Generated::made_image))]
fn image_of(alloc: Global, seed: u16, size: u32) -> Result<Image, AllocError>
    ensures { IfOk result (λ image. image ≡ made_image seed size) }
{
    let mut guests = Vec::new(alloc);
    guests.push(made_guest(alloc, seed, size)?)?;
    Ok(Image {
        version: 1,
        features: 0,
        cpus: CPU_COUNT,
        guests,
    })
}

/// The image of a seed and a size: a guest of four vcpus on two processors, each of which adds as many numbers to RAX as the
/// size says, 0 to 100,000, and halts. The numbers count up from the seed and the vcpu's own number on, cut to 7 bits. Any
/// seed serves. It is refused for want of memory alone.
pub fn made_image(alloc: Global, seed: u16, size: u32) -> Result<Image, NoMemory>
    requires { size ≤ size_limit }
    ensures exact { IfOk result (λ image. image ≡ made_image seed size) }
    ensures lawful { IfOk result IsLawfulImage }
{
    let Ok(image) = image_of(alloc, seed, size) else {
        return Err(NoMemory);
    };
    Ok(image)
}
