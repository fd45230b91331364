// Reads and writes of the APIC's registers (volume 2, 'Local APIC Registers', 'Interrupt Command Register').
ghost use Rattle.std.specs.Prelude.{◌≡◌, ◌<◌, bit_and, slice_set};
ghost use Rattle.svm_model.specs.Machine.ApicRegisters.{command_of as ipi_of, is_mode as mode_test, lvt_mask, place_of as place_at, read_at, value_at as value_in, with_command, with_dfr, write_at, written_at};
ghost use Rattle.apic_state.specs.Answers.{after, answer_of};
ghost use Rattle.apic_state.specs.Places.{IsNumber};

use crate::registers::place_of;
use crate::state::Apic;
use crate::vectors::vectors_at;
use svm_model::{ApicPlace, ApicRegister, Ipi};

/// What a write of a register led to (volume 2, 'Local APIC Registers', 'Interrupt Command Register'): it was stored, or
/// stored and an interprocessor interrupt is to be sent, or it is not offered and nothing has changed.
#[derive(Clone, Copy, Debug, PartialEq, Eq)]
pub enum Written {
    Stored,
    Send(Ipi),
    Unsupported,
}

/// The delivery modes that are offered: fixed, lowest priority and NMI.
fn is_mode(mode: u8) -> bool
    ensures { result ≡ mode_test mode }
{
    mode == 0 || mode == 1 || mode == 4
}

/// The bits of a word of the local vector table that are kept: vector and mask, and for the timer periodic.
fn entry_mask(number: u8) -> u32
    ensures { result ≡ lvt_mask number }
{
    if number == 0 { 0x3_00ff } else { 0x1_00ff }
}

impl Apic {
    /// What a register reads at an event.
    #[tactic(auto, unfolding(svm_model::specs::Machine::ApicRegisters::value_at))]
    fn value_at(&self, register: ApicRegister, number: u8, event: u32) -> u32
        requires { IsNumber register number }
        ensures { result ≡ value_in register number self.now event }
    {
        match register {
            ApicRegister::Id => u32::from(self.id) << 24,
            ApicRegister::Version => 0x5_0014,
            ApicRegister::Tpr => u32::from(self.tpr),
            ApicRegister::Ppr => u32::from(self.processor_priority()),
            ApicRegister::Ldr => u32::from(self.ldr) << 24,
            ApicRegister::Dfr => (u32::from(self.dfr) << 28) + 0xfff_ffff,
            ApicRegister::Svr => self.svr,
            ApicRegister::Isr => vectors_at(&self.isr, number),
            ApicRegister::Irr => vectors_at(&self.irr, number),
            ApicRegister::IcrLow => self.icr_low,
            ApicRegister::IcrHigh => self.icr_high,
            ApicRegister::Lvt => self.lvt[usize::from(number)],
            ApicRegister::InitialCount => self.count,
            ApicRegister::CurrentCount => self.current_count(event),
            ApicRegister::DivideBy => self.divide,
            ApicRegister::Eoi | ApicRegister::Tmr | ApicRegister::Esr => 0,
        }
    }

    /// Reads the 32 bits at an offset of the APIC's page, in bytes, at the event of this number (volume 2, 'Local APIC
    /// Registers'). None where no register is there.
    pub fn read(&self, offset: u16, event: u32) -> Option<u32>
        ensures { result ≡ read_at (place_at offset) self.now event }
    {
        let place = place_of(offset)?;
        Some(self.value_at(place.register, place.number, event))
    }

    /// The interrupt that a write of ICR's low half sends.
    fn command_of(&self, value: u32) -> Ipi
        ensures { result ≡ ipi_of self.now value }
    {
        Ipi {
            vector: (value % 256) as u8,
            mode: (value >> 8 & 7) as u8,
            logical: value & 0x800 == 0x800,
            shorthand: (value >> 18 & 3) as u8,
            destination: (self.icr_high >> 24) as u8,
        }
    }

    /// A write of ICR's low half.
    fn send(&mut self, value: u32) -> Written
        ensures answer { result ≡ answer_of (with_command self.old value) }
        ensures after { self.new ≡ after self.old (with_command self.old value) }
    {
        let ipi = self.command_of(value);
        if !is_mode(ipi.mode) {
            return Written::Unsupported;
        }
        self.icr_low = value;
        Written::Send(ipi)
    }

    /// A write of DFR: the flat model and the cluster model are offered.
    fn set_model(&mut self, model: u8) -> Written
        requires { model < 16 }
        ensures answer { result ≡ answer_of (with_dfr self.old model) }
        ensures after { self.new ≡ after self.old (with_dfr self.old model) }
    {
        if model != 0 && model != 15 {
            return Written::Unsupported;
        }
        self.dfr = model;
        Written::Stored
    }

    /// A write of a word of the local vector table.
    fn set_entry(&mut self, number: u8, value: u32)
        requires { number < 6 }
        ensures { self.new ≡ record self.old { lvt = slice_set self.old.lvt number (bit_and value (lvt_mask number)) } }
    {
        let mask = entry_mask(number);
        self.lvt[usize::from(number)] = value & mask;
    }

    /// A write of a register at an event.
    #[tactic(auto, unfolding(svm_model::specs::Machine::ApicRegisters::written_at))]
    fn store(&mut self, place: ApicPlace, value: u32, event: u32) -> Written
        requires { IsNumber place.register place.number }
        ensures answer { result ≡ answer_of (written_at place.register place.number self.old value event) }
        ensures after { self.new ≡ after self.old (written_at place.register place.number self.old value event) }
    {
        match place.register {
            ApicRegister::Tpr => self.tpr = (value % 256) as u8,
            ApicRegister::Eoi => self.end_interrupt(),
            ApicRegister::Ldr => self.ldr = (value >> 24) as u8,
            ApicRegister::Dfr => return self.set_model((value >> 28) as u8),
            ApicRegister::Svr => self.svr = value % 512,
            ApicRegister::IcrLow => return self.send(value),
            ApicRegister::IcrHigh => self.icr_high = value & 0xff00_0000,
            ApicRegister::Lvt => self.set_entry(place.number, value),
            ApicRegister::InitialCount => {
                self.count = value;
                self.start = event;
            }
            ApicRegister::DivideBy => {
                self.divide = value & 0xb;
                self.start = event;
            }
            _ => {}
        }
        Written::Stored
    }

    /// Writes 32 bits at an offset of the APIC's page, in bytes, at the event of this number (volume 2, 'Local APIC
    /// Registers'). Where no register is there, or the model of DFR or the mode of ICR is not offered, the answer is
    /// Unsupported and nothing changes. Registers that are only read take no notice of a write.
    pub fn write(&mut self, offset: u16, value: u32, event: u32) -> Written
        ensures answer { result ≡ answer_of (write_at (place_at offset) self.old value event) }
        ensures after { self.new ≡ after self.old (write_at (place_at offset) self.old value event) }
    {
        match place_of(offset) {
            None => Written::Unsupported,
            Some(place) => self.store(place, value, event),
        }
    }
}
