//! The verdict on a run: whether it keeps the rules of maintenance, else its first breach (volume 2, 'TLB Management', 'VMCB
//! Clean Bits').
//!
//! `audit` runs a script on the machine of an image beside a bus of port devices, and stops behind the event of the first
//! breach. It is the plain machine, watched by a `RuleMemory`; so nothing that it does depends on the rules, but where it
//! stops. The layer above uses one contract: the verdict is that of `audit_of` (`specs/Audit/Verdicts.antt` of svm_model), or
//! the run was cut off by a device or for want of memory, behind events that kept the rules (`IsCutOff` in
//! specs/CutOffs.antt).
#![tactic(auto)]

mod verdicts;

pub use svm_model::{Breach, RunEnd, Verdict};
pub use verdicts::audit;

#[cfg(test)]
mod images;
#[cfg(test)]
mod tests;
