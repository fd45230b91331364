// A guest as the machine keeps it.

use apic_state::Apic;
use host_memory::GuestWindow;
use std::marker::Model;
use svm_model::{Ended, Vcpu};

/// A guest: its window of host memory, its end where it was ended, its vcpus, and the APIC of each.
#[derive(Drop)]
pub struct Slot {
    pub window: GuestWindow,
    pub ended: Option<Ended>,
    pub vcpus: Vec<Vcpu>,
    pub apics: Vec<Apic>,
}

impl Model for Slot {
    ghost use Rattle.plain_machine.specs.Slots.{Kept};

    ghost Value = { Kept };

    ghost view = { λ s. record { window = s.window; ended = s.ended; vcpus = s.vcpus.items; apics = s.apics.items } };
}
