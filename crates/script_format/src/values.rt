// The values that a line's words are, each looked at on its own.

ghost use Rattle.std.specs.Prelude.{◌≡◌, ◌≤◌, ◌<◌, ◌&&◌, nat_le, nat_lt, slice_get, IfOk};
ghost use Rattle.svm_model.specs.Formats.LawfulImages.{IsLawfulImage};
ghost use Rattle.svm_model.specs.Machine.Bus.{device_count};
ghost use Rattle.svm_model.specs.Formats.ScriptLines.{event_limit, judged, of_guest, vcpu_named};
ghost use Rattle.svm_model.specs.Machine.Shapes.{dump_limit, image_shape};

use image_format::Image;
use svm_model::{CpuId, GuestId, ScriptReason, VcpuId};

/// The most events of a line, and of a script.
pub const EVENT_LIMIT: u32 = 1_048_576;

// How many devices there are.
const DEVICE_COUNT: u64 = 16;

// The vectors below this one are the processor's own.
const FIRST_VECTOR: u64 = 16;

// The last vector.
const LAST_VECTOR: u64 = 255;

// The most bytes that a dump shows.
const DUMP_LIMIT: u64 = 256;

// The bytes of a page.
const PAGE: u64 = 4096;

/// A processor of the image.
pub fn cpu_in(image: &Image, cpu: u64) -> Result<CpuId, ScriptReason>
    ensures { result ≡ judged ScriptReason.Cpu (nat_lt cpu image.now.cpus) (record { 0 = cpu }) }
{
    if cpu >= image.cpus as u64 {
        return Err(ScriptReason::Cpu);
    }
    Ok(CpuId(cpu as u8))
}

// The number of a guest's vcpus.
fn vcpus_in(image: &Image, guest: u64) -> Result<u8, ScriptReason>
    requires lawful { IsLawfulImage image.now }
    ensures count { result ≡ of_guest (slice_get (image_shape image.now).vcpus guest) }
    ensures few { IfOk result (λ count. (guest < 4) × (count ≤ 8)) }
{
    match image.guests.get(guest as usize) {
        Some(guest) => Ok(guest.vcpus.len() as u8),
        None => Err(ScriptReason::Guest),
    }
}

/// A vcpu of the image: its guest is looked at before it.
pub fn vcpu_in(image: &Image, guest: u64, vcpu: u64) -> Result<VcpuId, ScriptReason>
    requires lawful { IsLawfulImage image.now }
    ensures { result ≡ vcpu_named (image_shape image.now) guest vcpu }
{
    let count = vcpus_in(image, guest)?;
    if vcpu >= count as u64 {
        return Err(ScriptReason::Vcpu);
    }
    Ok(VcpuId {
        guest: GuestId(guest as u8),
        index: vcpu as u8,
    })
}

/// A device of the bus.
pub fn device_in(device: u64) -> Result<u8, ScriptReason>
    ensures { result ≡ judged ScriptReason.Device (nat_lt device device_count) device }
{
    if device >= DEVICE_COUNT {
        return Err(ScriptReason::Device);
    }
    Ok(device as u8)
}

/// How often an event or a round comes.
pub fn count_in(count: u64) -> Result<u32, ScriptReason>
    ensures { result ≡ judged ScriptReason.Count (nat_le 1 count && nat_le count event_limit) count }
{
    if count < 1 || count > EVENT_LIMIT as u64 {
        return Err(ScriptReason::Count);
    }
    Ok(count as u32)
}

/// A vector that an APIC accepts.
pub fn vector_in(vector: u64) -> Result<u8, ScriptReason>
    ensures { result ≡ judged ScriptReason.Vector (nat_le 16 vector && nat_le vector 255) vector }
{
    if vector < FIRST_VECTOR || vector > LAST_VECTOR {
        return Err(ScriptReason::Vector);
    }
    Ok(vector as u8)
}

/// The number of the bytes of a guest's memory.
pub fn size_in(image: &Image, guest: u64) -> Result<u64, ScriptReason>
    requires lawful { IsLawfulImage image.now }
    ensures size { result ≡ of_guest (slice_get (image_shape image.now).sizes guest) }
    ensures few { IfOk result (λ size. guest < 4) }
{
    match image.guests.get(guest as usize) {
        Some(guest) => Ok(PAGE * u64::from(guest.pages)),
        None => Err(ScriptReason::Guest),
    }
}

/// How many bytes a dump shows.
pub fn length_in(length: u64) -> Result<u16, ScriptReason>
    ensures { result ≡ judged ScriptReason.Length (nat_le 1 length && nat_le length dump_limit) length }
{
    if length < 1 || length > DUMP_LIMIT {
        return Err(ScriptReason::Length);
    }
    Ok(length as u16)
}
