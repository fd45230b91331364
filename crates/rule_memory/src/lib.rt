//! What a processor may have kept of each vcpu, and the first breach of the rules of maintenance (volume 2, 'TLB Management',
//! 'VMCB Clean Bits').
//!
//! A `RuleMemory` watches a run. It keeps each translation that is made until a flush drops it, and the fields of each VMCB
//! that was entered, and holds every translation and every VMRUN against them. It stands for what the calls make of the rules
//! (specs/Audit/WatchCalls.antt of svm_model): a new one stands for `no_rules`, and each call that it accepts takes what it
//! stands for to what the definitions have there (`Stands` in specs/Stands.antt). A call
//! is refused for want of memory alone, and a flush or a #VMEXIT never.
//!
//! A flush looks at the translations of its address space alone, and one of a page at those in the 2 MiB about it, or in the
//! 1 GiB once a page of that size was found. The crate stands on the watch and on the VMCB's fields. The layers above hand a
//! `RuleMemory` to a machine, and read `first` behind each event.
#![tactic(auto)]

mod breaches;
mod flushes;
mod held;
mod leaf_rules;
mod memory;
mod places;
mod recent;
mod translations;

pub use memory::RuleMemory;

#[cfg(test)]
mod tests;
