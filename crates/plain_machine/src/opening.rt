// The guests that an image starts.
ghost use Rattle.std.specs.Prelude.{◌≡◌, ℕ, ◌+◌, ◌*◌, ◌≤◌, List, length, map, drop, replicate, IfOk, OnOk};
ghost use Rattle.std.specs.List.{All};
ghost use Rattle.svm_model.specs.Formats.LawfulImages.{IsLawfulGuest};
ghost use Rattle.svm_model.specs.Machine.World.{first_apics as apics_of, first_guest, first_vcpu as vcpu_of, loaded};
ghost use Rattle.svm_model.specs.Memory.Bytes.{SameOutside, guest_of};
ghost use Rattle.plain_machine.specs.Opening.{pages_in as pages_of, slot_of, slots_of};
ghost use Rattle.plain_machine.specs.Slots.{guests_at};

use crate::loading::load_segments;
use crate::slots::Slot;
use apic_state::Apic;
use host_memory::{GuestWindow, HostMemory};
use image_format::GuestImage;
use std::alloc::Global;
use svm_model::{NoMemory, Registers, Vcpu};

/// How many pages the guests have together.
pub fn pages_in(guests: &[GuestImage]) -> u32
    requires lawful { All IsLawfulGuest guests.now }
    requires few { length guests.now ≤ 4 }
    ensures pages { result ≡ pages_of guests.now }
    ensures most { result ≤ 16384 * length guests.now }
    ensures some { length guests.now ≤ result }
{
    let [guest, rest @ ..] = guests else {
        return 0;
    };
    guest.pages + pages_in(rest)
}

/// A vcpu as it starts, with these registers.
fn first_vcpu(registers: Registers) -> Vcpu
    ensures { result ≡ vcpu_of registers }
{
    Vcpu {
        registers,
        gif: true,
        nmi: false,
        nmi_blocked: false,
        held: None,
        halted: false,
        inside: None,
    }
}

fn first_vcpus(alloc: Global, starts: &[Registers]) -> Result<Vec<Vcpu>, NoMemory>
    ensures { IfOk result (λ vcpus. vcpus.items ≡ map vcpu_of starts.now) }
{
    let mut vcpus = Vec::new(alloc);
    for registers in starts {
        let Ok(()) = vcpus.push(first_vcpu(*registers)) else {
            return Err(NoMemory);
        };
    }
    Ok(vcpus)
}

/// An APIC for each vcpu, whose identifier is the vcpu's number.
fn first_apics(alloc: Global, starts: &[Registers]) -> Result<Vec<Apic>, NoMemory>
    requires { length starts.now ≤ 8 }
    ensures { IfOk result (λ apics. apics.items ≡ apics_of 0 starts.now) }
{
    let mut apics = Vec::new(alloc);
    for id in 0..starts.len() {
        let Ok(()) = apics.push(Apic::new(id as u8)) else {
            return Err(NoMemory);
        };
    }
    Ok(apics)
}

/// A guest as it starts, whose memory begins at a place of host memory, with its segments loaded.
#[tactic(auto, using(svm_model::proofs::WindowLemmas::windows))]
fn open_guest(
    alloc: Global,
    memory: &mut HostMemory,
    base: u64,
    guest: &GuestImage,
) -> Result<Slot, NoMemory>
    requires lawful { IsLawfulGuest guest.now }
    requires room { base + 4096 * guest.now.pages ≤ length memory.old.bytes }
    ensures slot { IfOk result (λ slot. slot ≡ slot_of base guest.now) }
    ensures loaded { IfOk result (λ slot. guest_of slot.window memory.new.bytes ≡ loaded (guest_of slot.window memory.old.bytes) guest.now.segments) }
    ensures others { IfOk result (λ slot. SameOutside slot.window memory.old memory.new) }
{
    let vcpus = first_vcpus(alloc, &guest.vcpus)?;
    let apics = first_apics(alloc, &guest.vcpus)?;
    let window = GuestWindow {
        base,
        size: 4096 * u64::from(guest.pages),
    };
    load_segments(memory, window, &guest.segments);
    Ok(Slot {
        window,
        ended: None,
        vcpus,
        apics,
    })
}

/// The guests as they start, one behind another in host memory that is zeros before.
pub fn open_guests(
    alloc: Global,
    memory: &mut HostMemory,
    guests: &[GuestImage],
) -> Result<Vec<Slot>, NoMemory>
    requires lawful { All IsLawfulGuest guests.now }
    requires few { length guests.now ≤ 4 }
    requires zeros { memory.old.bytes ≡ replicate (4096 * pages_of guests.now) 0 }
    ensures slots { IfOk result (λ slots. slots.items ≡ slots_of 0 guests.now) }
    ensures guests { IfOk result (λ slots. guests_at memory.new.bytes slots.items ≡ map first_guest guests.now) }
    ensures size { OnOk result (length memory.new.bytes ≡ length memory.old.bytes) }
{
    let mut slots = Vec::new(alloc);
    let mut base = 0;
    for guest in guests {
        let slot = open_guest(alloc, memory, base, guest)?;
        base += slot.window.size;
        let Ok(()) = slots.push(slot) else {
            return Err(NoMemory);
        };
    }
    Ok(slots)
}
