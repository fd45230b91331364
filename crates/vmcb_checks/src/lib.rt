//! What VMRUN refuses (volume 2, 'Canonicalization and Consistency Checks'), which legal modes are not offered, and the
//! event that EVENTINJ holds ('Event Injection').
//!
//! It stands on vmcb_layout, whose `Fields` it looks at, and on svm_model: the rules are those of `specs/Svm/VmcbRules.antt`,
//! in the same order here as there, a line each. The contracts that the layer above uses: `check` answers the least rule
//! that is `broken`, and Legal exactly where none is; `read_injection` is `injection_of`; `unoffered_mode` is the definition
//! of its name.
#![tactic(auto)]

mod bits;
mod injection;
mod modes;
mod rules;

pub use injection::read_injection;
pub use modes::unoffered_mode;
pub use rules::check;
pub use svm_model::{Checked, Injection, Offered};

#[cfg(test)]
mod tests;
