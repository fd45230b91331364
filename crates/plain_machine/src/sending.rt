// The interprocessor interrupt that a turn sends: each target accepts it at once, whether it is placed or not (volume 2,
// 'Interprocessor Interrupts').
ghost use Rattle.std.specs.Prelude.{◌≡◌, ◌≤◌, ◌<◌, List, Bool, Some, length};
ghost use Rattle.svm_model.specs.Machine.Turns.{accepted_where, all_accepted, with_nmi, with_nmis};
ghost use Rattle.apic_state.specs.Masks.{mask_of};
ghost use Rattle.plain_machine.specs.Sending.{apics_sent_to, sent_to, vcpus_sent_to};

use crate::slots::Slot;
use apic_state::{Apic, targets};
use svm_model::{Ipi, Vcpu};

/// The delivery mode NMI.
const NMI: u8 = 4;

/// An NMI is pending where the vcpu is a target.
fn receive_nmi(vcpu: &mut Vcpu, target: bool)
    ensures { vcpu.new ≡ with_nmi target vcpu.old }
{
    vcpu.nmi = vcpu.nmi || target;
}

/// The vector is accepted where the APIC is a target.
fn receive_vector(apic: &mut Apic, target: bool, vector: u8)
    ensures { apic.new ≡ accepted_where target vector apic.old }
{
    if target {
        apic.accept(vector);
    }
}

/// An NMI is pending at those vcpus whose bits are set.
fn receive_nmis(vcpus: &mut [Vcpu], mask: u8)
    ensures { (targets : List Bool) → mask ≡ mask_of targets → vcpus.new ≡ with_nmis targets vcpus.old }
{
    let mut rest = mask;
    for i in 0..vcpus.len() {
        receive_nmi(&mut vcpus[i], rest % 2 == 1);
        rest /= 2;
    }
}

/// The vector is accepted by those APICs whose bits are set.
fn receive_vectors(apics: &mut [Apic], mask: u8, vector: u8)
    ensures { (targets : List Bool) → mask ≡ mask_of targets → apics.new ≡ all_accepted targets vector apics.old }
{
    let mut rest = mask;
    for i in 0..apics.len() {
        receive_vector(&mut apics[i], rest % 2 == 1, vector);
        rest /= 2;
    }
}

/// The interrupt that the vcpu of index `sender` sends goes to the vcpus of its guest, or to their APICs.
#[inline(never)]
fn send(vcpus: &mut [Vcpu], apics: &mut [Apic], sender: u8, ipi: Ipi)
    requires few { length apics.old ≤ 8 }
    requires there { sender < length apics.old }
    ensures vcpus { vcpus.new ≡ vcpus_sent_to (Some ipi) sender apics.old vcpus.old }
    ensures apics { apics.new ≡ apics_sent_to (Some ipi) sender apics.old }
{
    let mask = targets(&ipi, sender, apics);
    if ipi.mode == NMI {
        receive_nmis(vcpus, mask);
    } else {
        receive_vectors(apics, mask, ipi.vector);
    }
}

/// What the turn of a guest's vcpu of index `sender` sent is accepted by each target.
#[inline(always)]
pub fn spread(slot: &mut Slot, sender: u8, sent: Option<Ipi>)
    requires few { length slot.old.apics ≤ 8 }
    requires there { sender < length slot.old.apics }
    ensures { slot.new ≡ sent_to sent sender slot.old }
{
    if let Some(ipi) = sent {
        send(&mut slot.vcpus, &mut slot.apics, sender, ipi);
    }
}
