// The memory of all guests as it was, which a traced run compares with.
ghost use Rattle.std.specs.Prelude.{◌≡◌, ℕ, ◌+◌, ◌*◌, ◌≤◌, ◌<◌, List, Some, length, map, slice_get, slice_set, IfOk, IfSome};
ghost use Rattle.std.specs.List.{All};
ghost use Rattle.svm_model.specs.Formats.LawfulImages.{IsLawfulGuest, IsLawfulImage};
ghost use Rattle.svm_model.specs.Machine.World.{first_guest, loaded, world_of};
ghost use Rattle.svm_model.specs.Memory.Bytes.{page_at, put_at};

use image_format::{GuestImage, Image, SegmentImage};
use std::alloc::Global;
use std::marker::Model;
use svm_model::{GuestId, NoMemory};

#[cfg(test)]
mod tests;

/// A second copy of the memory of all guests, which a traced run compares with. In a clause it is the list of what each
/// guest's memory holds.
#[derive(Drop)]
pub struct Tracer {
    memories: Vec<MemoryCopy>,
}

/// The bytes of one guest's memory.
#[derive(Drop)]
struct MemoryCopy {
    bytes: Vec<u8>,
}

impl Model for MemoryCopy {
    ghost use Rattle.std.specs.Prelude.{ℕ, List};

    ghost Value = { List ℕ };

    ghost view = { λ m. m.bytes.items };
}

impl Model for Tracer {
    ghost use Rattle.std.specs.Prelude.{ℕ, List};

    ghost Value = { List (List ℕ) };

    ghost view = { λ t. t.memories.items };
}

impl Tracer {
    /// The memory that an image's guests start with: zeros, and the segments laid over them in order.
    #[tactic(auto, using(crate::proofs::TracerLemmas::openings), unfolding(svm_model::specs::Machine::World::world_of))]
    pub fn new(alloc: Global, image: &Image) -> Result<Tracer, NoMemory>
        requires { IsLawfulImage image.now }
        ensures { IfOk result (λ tracer. tracer ≡ map (λ g. g.memory) (world_of image.now).guests) }
    {
        let memories = first_memories(alloc, &image.guests)?;
        Ok(Tracer { memories })
    }

    /// A page of 4096 bytes of a guest's memory, which has to lie there.
    pub fn page(&self, guest: GuestId, page: u32) -> &[u8]
        requires there { guest.0 < length self.now }
        requires within { IfSome (slice_get self.now guest.0) (λ memory. 4096 * page + 4096 ≤ length memory) }
        ensures { (memory : List ℕ) → slice_get self.now guest.0 ≡ Some memory → result.now ≡ page_at memory page }
    {
        let memory = &self.memories[usize::from(guest.0)];
        page_of(&memory.bytes, page)
    }

    /// Replaces the bytes of a page of a guest's memory, which has to lie there.
    pub fn put(&mut self, guest: GuestId, page: u32, bytes: &[u8])
        requires there { guest.0 < length self.old }
        requires within { IfSome (slice_get self.old guest.0) (λ memory. 4096 * page + 4096 ≤ length memory) }
        requires whole { length bytes.now ≡ 4096 }
        ensures { (memory : List ℕ) → slice_get self.old guest.0 ≡ Some memory
            → self.new ≡ slice_set self.old guest.0 (put_at memory (4096 * page) bytes.now) }
    {
        let memory = &mut self.memories[usize::from(guest.0)];
        put_bytes(&mut memory.bytes, 4096 * page as usize, bytes);
    }
}

/// The bytes of a page.
fn page_of(memory: &[u8], page: u32) -> &[u8]
    requires { 4096 * page + 4096 ≤ length memory.now }
    ensures { result.now ≡ page_at memory.now page }
{
    let start = 4096 * page as usize;
    &memory[start..start + 4096]
}

/// Puts bytes into memory.
fn put_bytes(memory: &mut [u8], start: usize, bytes: &[u8])
    requires { start + length bytes.now ≤ length memory.old }
    ensures { memory.new ≡ put_at memory.old start bytes.now }
{
    memory[start..start + bytes.len()].copy_from_slice(bytes);
}

/// The memories that guests start with.
fn first_memories(alloc: Global, guests: &[GuestImage]) -> Result<Vec<MemoryCopy>, NoMemory>
    requires { All IsLawfulGuest guests.now }
    ensures { IfOk result (λ memories. memories.items ≡ map (λ g. (first_guest g).memory) guests.now) }
{
    let mut memories = Vec::new(alloc);
    for guest in guests {
        let memory = first_memory(alloc, guest)?;
        let Ok(()) = memories.push(memory) else {
            return Err(NoMemory);
        };
    }
    Ok(memories)
}

/// The memory that a guest starts with.
fn first_memory(alloc: Global, guest: &GuestImage) -> Result<MemoryCopy, NoMemory>
    requires { IsLawfulGuest guest.now }
    ensures { IfOk result (λ memory. memory ≡ (first_guest guest.now).memory) }
{
    let Ok(mut bytes) = vec![in alloc; 0; 4096 * guest.pages as usize] else {
        return Err(NoMemory);
    };
    load_segments(&mut bytes, &guest.segments);
    Ok(MemoryCopy { bytes })
}

/// Lays all segments over memory; later ones overwrite earlier ones.
fn load_segments(memory: &mut [u8], segments: &[SegmentImage])
    requires { All (λ s. s.address + length s.bytes ≤ length memory.old) segments.now }
    ensures { memory.new ≡ loaded memory.old segments.now }
{
    for segment in segments {
        put_bytes(memory, segment.address as usize, &segment.bytes);
    }
}
