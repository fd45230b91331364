// Guests and vcpus by their names.
ghost use Rattle.std.specs.Prelude.{◌≡◌, ℕ, ◌<◌, List, length, Some, slice_get, IfSome};
ghost use Rattle.plain_machine.specs.Machines.{apic_of, vcpu_of};
ghost use Rattle.plain_machine.specs.Slots.{guest_at, guests_at};

use crate::slots::Slot;
use apic_state::Apic;
use svm_model::{GuestId, Vcpu, VcpuId};

/// The slot of a guest.
#[tactic(auto, using(crate::proofs::LookupLemmas::lookups))]
pub fn slot_of(slots: &[Slot], guest: GuestId) -> &Slot
    requires { guest.0 < length slots.now }
    ensures slot { slice_get slots.now guest.0 ≡ Some result.now }
    ensures guest { (bytes : List ℕ) → slice_get (guests_at bytes slots.now) guest.0 ≡ Some (guest_at bytes result.now) }
{
    &slots[usize::from(guest.0)]
}

/// The vcpu of that name.
#[tactic(auto, using(crate::proofs::LookupLemmas::lookups))]
pub fn vcpu_at(slots: &[Slot], vcpu: VcpuId) -> &Vcpu
    requires there { vcpu.guest.0 < length slots.now }
    requires vcpu { IfSome (slice_get slots.now vcpu.guest.0) (λ slot. vcpu.index < length slot.vcpus) }
    ensures { (bytes : List ℕ) → vcpu_of (slice_get (guests_at bytes slots.now) vcpu.guest.0) vcpu.index ≡ Some result.now }
{
    let slot = &slots[usize::from(vcpu.guest.0)];
    &slot.vcpus[usize::from(vcpu.index)]
}

/// The APIC of the vcpu of that name.
#[tactic(auto, using(crate::proofs::LookupLemmas::lookups))]
pub fn apic_at(slots: &[Slot], vcpu: VcpuId) -> &Apic
    requires there { vcpu.guest.0 < length slots.now }
    requires apic { IfSome (slice_get slots.now vcpu.guest.0) (λ slot. vcpu.index < length slot.apics) }
    ensures { (bytes : List ℕ) → apic_of (slice_get (guests_at bytes slots.now) vcpu.guest.0) vcpu.index ≡ Some result.now }
{
    let slot = &slots[usize::from(vcpu.guest.0)];
    &slot.apics[usize::from(vcpu.index)]
}
