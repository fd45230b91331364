// Changes that come from outside to a vcpu of a guest that was not ended.
ghost use Rattle.std.specs.Prelude.{◌≡◌, ℕ, ◌<◌, length, List, slice_get, IfSome};
ghost use Rattle.svm_model.specs.Machine.Events.{at, guest_with_irq, guest_with_nmi};
ghost use Rattle.plain_machine.specs.Slots.{guest_at, guests_at, layout, layouts};

use crate::slots::Slot;
use svm_model::VcpuId;

/// The APIC of a vcpu of a guest accepts a vector, unless the guest was ended.
#[tactic(auto)]
fn interrupt_guest(slot: &mut Slot, index: u8, vector: u8)
    requires { index < length slot.old.apics }
    ensures guest { (bytes : List ℕ) → guest_at bytes slot.new ≡ guest_with_irq index vector (guest_at bytes slot.old) }
    ensures layout { layout slot.new ≡ layout slot.old }
{
    if slot.ended.is_none() {
        slot.apics[usize::from(index)].accept(vector);
    }
}

/// An NMI is pending at a vcpu of a guest, unless the guest was ended.
#[tactic(auto)]
fn make_nmi_pending_in(slot: &mut Slot, index: u8)
    requires { index < length slot.old.vcpus }
    ensures guest { (bytes : List ℕ) → guest_at bytes slot.new ≡ guest_with_nmi index (guest_at bytes slot.old) }
    ensures layout { layout slot.new ≡ layout slot.old }
{
    if slot.ended.is_none() {
        slot.vcpus[usize::from(index)].nmi = true;
    }
}

/// The APIC of a vcpu accepts a vector.
pub fn interrupt(slots: &mut [Slot], vcpu: VcpuId, vector: u8)
    requires there { vcpu.guest.0 < length slots.old }
    requires vcpu { IfSome (slice_get slots.old vcpu.guest.0) (λ slot. vcpu.index < length slot.apics) }
    ensures guests { (bytes : List ℕ) → guests_at bytes slots.new
        ≡ at vcpu.guest.0 (guest_with_irq vcpu.index vector) (slice_get (guests_at bytes slots.old) vcpu.guest.0) (guests_at bytes slots.old) }
    ensures layouts { layouts slots.new ≡ layouts slots.old }
{
    interrupt_guest(&mut slots[usize::from(vcpu.guest.0)], vcpu.index, vector);
}

/// An NMI is pending at a vcpu.
pub fn make_nmi_pending(slots: &mut [Slot], vcpu: VcpuId)
    requires there { vcpu.guest.0 < length slots.old }
    requires vcpu { IfSome (slice_get slots.old vcpu.guest.0) (λ slot. vcpu.index < length slot.vcpus) }
    ensures guests { (bytes : List ℕ) → guests_at bytes slots.new
        ≡ at vcpu.guest.0 (guest_with_nmi vcpu.index) (slice_get (guests_at bytes slots.old) vcpu.guest.0) (guests_at bytes slots.old) }
    ensures layouts { layouts slots.new ≡ layouts slots.old }
{
    make_nmi_pending_in(&mut slots[usize::from(vcpu.guest.0)], vcpu.index);
}
