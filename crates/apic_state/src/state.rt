// The APIC's record, and its interrupts.
ghost use Rattle.std.specs.Prelude.{◌≡◌, ◌≤◌, IfSome};
ghost use Rattle.svm_model.specs.Machine.Apic.{first_apic, is_enabled as enabled, is_accepted as is_taken_in, accepted, processor_priority as priority_of, pending as pending_vector, taken, out_of_service, highest as highest_of};
ghost use Rattle.apic_state.specs.Parts.{AreParts, of_parts, parts_of};

use crate::vectors::{class_of, highest, insert, remove};
use std::marker::Model;
use svm_model::ApicParts;

/// The local APIC of a vcpu (volume 2, 'Advanced Programmable Interrupt Controller (APIC)'). LDR stands by its bits 31:24
/// and DFR by its bits 31:28; the local vector table has the timer's word first; the timer counts events. In clauses it is
/// the record `Apic` of svm_model.
#[derive(Drop)]
pub struct Apic {
    pub(crate) id: u8,
    pub(crate) tpr: u8,
    pub(crate) ldr: u8,
    pub(crate) dfr: u8,
    pub(crate) svr: u32,
    pub(crate) icr_low: u32,
    pub(crate) icr_high: u32,
    pub(crate) lvt: [u32; 6],
    pub(crate) count: u32,
    pub(crate) divide: u32,
    pub(crate) start: u32,
    pub(crate) isr: [u8; 32],
    pub(crate) irr: [u8; 32],
}

impl Model for Apic {
    ghost use Rattle.apic_state.specs.Parts.{AreKept};
    ghost use Rattle.svm_model.specs.Machine.Apic.{Apic as ApicRecord};

    ghost Value = { ApicRecord };

    ghost view = { λ a. record {
      id = a.id;
      tpr = a.tpr;
      ldr = a.ldr;
      dfr = a.dfr;
      svr = a.svr;
      icr_low = a.icr_low;
      icr_high = a.icr_high;
      lvt = a.lvt;
      count = a.count;
      divide = a.divide;
      start = a.start;
      isr = a.isr;
      irr = a.irr;
    } };

    ghost invariant = { λ a. AreKept a.dfr a.svr a.icr_high a.divide a.lvt a.isr a.irr };
}

impl Apic {
    /// The APIC of this ID after reset: it is not enabled, and every word of the local vector table is masked (volume 2,
    /// 'Local APIC Registers').
    pub fn new(id: u8) -> Apic
        ensures { result ≡ first_apic id }
    {
        Apic {
            id,
            tpr: 0,
            ldr: 0,
            dfr: 15,
            svr: 0xff,
            icr_low: 0,
            icr_high: 0,
            lvt: [0x1_0000; 6],
            count: 0,
            divide: 0,
            start: 0,
            isr: [0; 32],
            irr: [0; 32],
        }
    }

    /// The APIC's ID: bits 31:24 of its ID register (volume 2, 'Local APIC ID').
    pub fn id(&self) -> u8
        ensures { result ≡ self.now.id }
    {
        self.id
    }

    /// The same APIC once more, with the same ID.
    #[tactic(auto, unfolding(crate::specs::Parts::parts_of, crate::specs::Parts::of_parts))]
    pub fn copied(&self) -> Apic
        ensures { result ≡ self.now }
    {
        Apic::from_parts(self.id, &self.parts())
    }

    /// Its registers, and the event at which its timer was started: all but the ID (volume 2, 'Local APIC Registers'). What
    /// it gives is what `from_parts` takes.
    #[tactic(auto, unfolding(crate::specs::Parts::parts_of))]
    pub fn parts(&self) -> ApicParts
        ensures parts { result ≡ parts_of self.now }
        ensures kept { AreParts result }
    {
        ApicParts {
            tpr: self.tpr,
            ldr: self.ldr,
            dfr: self.dfr,
            svr: self.svr,
            icr_low: self.icr_low,
            icr_high: self.icr_high,
            lvt: self.lvt,
            count: self.count,
            divide: self.divide,
            start: self.start,
            isr: self.isr,
            irr: self.irr,
        }
    }

    /// The APIC of this ID and these registers (volume 2, 'Local APIC Registers'). They hold only what a write keeps: DFR has
    /// 0 or 15; SVR 9 bits; the high half of ICR its top byte alone; the timer's word the bits of 300FFh and each other word of
    /// the local vector table those of 100FFh; the divide register those of Bh. ISR and IRR have no vector below 16.
    #[tactic(auto, unfolding(crate::specs::Parts::parts_of, crate::specs::Parts::of_parts))]
    pub fn from_parts(id: u8, parts: &ApicParts) -> Apic
        requires { AreParts parts.now }
        ensures made { result ≡ of_parts id parts.now }
        ensures back { parts_of result ≡ parts.now }
    {
        Apic {
            id,
            tpr: parts.tpr,
            ldr: parts.ldr,
            dfr: parts.dfr,
            svr: parts.svr,
            icr_low: parts.icr_low,
            icr_high: parts.icr_high,
            lvt: parts.lvt,
            count: parts.count,
            divide: parts.divide,
            start: parts.start,
            isr: parts.isr,
            irr: parts.irr,
        }
    }

    /// Sets TPR, the task priority: its bits 7:4 are the class that an interrupt has to exceed (volume 2, 'Interrupt
    /// Priority').
    pub fn set_priority(&mut self, tpr: u8)
        ensures { self.new ≡ record self.old { tpr = tpr } }
    {
        self.tpr = tpr;
    }

    /// SVR, bit 8: the APIC is enabled.
    pub(crate) fn is_enabled(&self) -> bool
        ensures { result ≡ enabled self.now }
    {
        self.svr & 0x100 == 0x100
    }

    /// Whether a vector is accepted, and not dropped.
    pub(crate) fn is_accepted(&self, vector: u8) -> bool
        ensures { result ≡ is_taken_in self.now vector }
    {
        vector >= 16 && self.is_enabled()
    }

    /// Accepts an interrupt of this vector into IRR. It is dropped where the vector is below 16, and where the APIC is not
    /// enabled (volume 2, 'Interrupt Acceptance').
    #[tactic(auto, unfolding(svm_model::specs::Machine::Apic::accepted))]
    pub fn accept(&mut self, vector: u8)
        ensures { self.new ≡ accepted self.old vector }
    {
        if self.is_accepted(vector) {
            insert(&mut self.irr, vector);
        }
    }

    /// PPR.
    pub(crate) fn processor_priority(&self) -> u8
        ensures { result ≡ priority_of self.now }
    {
        let class = class_of(highest(&self.isr));
        if class <= self.tpr / 16 {
            self.tpr
        } else {
            16 * class
        }
    }

    /// The vector of the interrupt that may be taken, which is at least 16: the highest one in IRR, where its class, bits 7:4,
    /// exceeds that of PPR (volume 2, 'Interrupt Priority').
    #[tactic(auto, unfolding(svm_model::specs::Machine::Apic::pending))]
    pub fn pending(&self) -> Option<u8>
        ensures vector { result ≡ pending_vector self.now }
        ensures least { IfSome result (λ vector. 16 ≤ vector) }
    {
        let vector = highest(&self.irr)?;
        if self.processor_priority() / 16 < vector / 16 {
            Some(vector)
        } else {
            None
        }
    }

    /// Takes the interrupt that `pending` names, from IRR to ISR, and gives its vector (volume 2, 'Interrupt Acceptance').
    /// Where there is none, nothing changes.
    #[tactic(auto, unfolding(svm_model::specs::Machine::Apic::taken))]
    pub fn take(&mut self) -> Option<u8>
        ensures vector { result ≡ pending_vector self.old }
        ensures after { self.new ≡ taken self.old }
    {
        let vector = self.pending()?;
        remove(&mut self.irr, vector);
        insert(&mut self.isr, vector);
        Some(vector)
    }

    /// An end of interrupt: the highest one in service is over.
    pub(crate) fn end_interrupt(&mut self)
        ensures { self.new ≡ out_of_service self.old (highest_of self.old.isr) }
    {
        if let Some(vector) = highest(&self.isr) {
            remove(&mut self.isr, vector);
        }
    }
}
