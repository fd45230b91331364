//! The local APIC of a vcpu (volume 2, 'Advanced Programmable Interrupt Controller (APIC)'): its registers, the interrupts
//! that it accepts and gives, its timer, and the targets of the interprocessor interrupts that it sends.
//!
//! It stands on svm_model alone, whose `specs/Machine` has the definitions: in clauses an `Apic` is the record of
//! `Apic.antt`, registers are the lines of the table in `ApicRegisters.antt`, and targets are those of `ApicTargets.antt`.
#![tactic(auto)]

mod access;
mod receivers;
mod registers;
mod state;
mod timer;
mod vectors;

pub use access::Written;
pub use receivers::targets;
pub use state::Apic;
pub use svm_model::{ApicParts, Ipi};

#[cfg(test)]
mod tests;
