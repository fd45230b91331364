//! What VMRUN loads and keeps, what a #VMEXIT stores and brings back, what VMLOAD and VMSAVE move, and which work a turn
//! has (volume 2, 'VMRUN Instruction', '#VMEXIT'; volume 3, 'VMLOAD', 'VMSAVE').
//!
//! It stands on vmcb_layout, whose `Fields` it loads from and stores in, and on svm_model, whose `specs/Svm` and
//! `specs/Turn/Work.antt` have the definitions. The contracts that the layers above use: `enter` answers `kept_of` and
//! loads `loaded`; `leave` stores `stored_on_exit` and brings back `brought_back`; for a VMCB in memory `values_to_leave` has what is
//! stored, `left_fields` says in which fields, and `leave_in_memory` stores it and brings back; `next_work` is the definition
//! of its name; `vmload` loads `vmloaded` from the fields in memory, by 34 reads, and `vmsave` stores `vmsaved` there and changes
//! no other byte, or both give the answer of `moved_at` and change nothing.
#![tactic(auto)]

mod entering;
mod in_memory;
mod leaving;
mod moving;
mod saves;
mod stores;
mod work;

pub use entering::enter;
pub use in_memory::{
    EXIT_FIELDS, Leaving, leave_in_memory, left_fields, refuse_in_memory, store_refusal,
    values_to_leave,
};
pub use leaving::leave;
pub use moving::{vmload, vmsave};
pub use svm_model::{Exit, Kept, Turn, Work};
pub use work::next_work;

#[cfg(test)]
mod tests;
