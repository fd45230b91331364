// The timers, at the start of an event.
ghost use Rattle.std.specs.Prelude.{◌≡◌, ℕ, List, map};
ghost use Rattle.svm_model.specs.Machine.Events.{guest_with_timers};
ghost use Rattle.plain_machine.specs.Slots.{guests_at, layouts, rung, rung_slot};

use crate::slots::Slot;
use apic_state::Apic;

/// The timers of a guest's vcpus: those that are due accept.
fn ring_apics(apics: &mut [Apic], event: u32)
    ensures { apics.new ≡ map (rung event) apics.old }
{
    for i in 0..apics.len() {
        apics[i].expire(event);
    }
}

/// The timers of a guest, unless it was ended.
fn ring_guest(slot: &mut Slot, event: u32)
    ensures { slot.new ≡ rung_slot event slot.old }
{
    if slot.ended.is_some() {
        return;
    }
    ring_apics(&mut slot.apics, event);
}

fn ring_slots(slots: &mut [Slot], event: u32)
    ensures { slots.new ≡ map (rung_slot event) slots.old }
{
    for i in 0..slots.len() {
        ring_guest(&mut slots[i], event);
    }
}

/// The timers of all guests that were not ended: those that are due at the event accept.
#[tactic(auto, using(crate::proofs::TimerLemmas::timers))]
pub fn ring_guests(slots: &mut [Slot], event: u32)
    ensures guests { (bytes : List ℕ) → guests_at bytes slots.new ≡ map (guest_with_timers event) (guests_at bytes slots.old) }
    ensures layouts { layouts slots.new ≡ layouts slots.old }
{
    ring_slots(slots, event);
}
